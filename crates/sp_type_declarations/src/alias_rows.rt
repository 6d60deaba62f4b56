// The aliases of the typed list.
ghost use Rattle.std.specs.Prelude.{◌≡◌, ◌++◌, not, is_some, IfOk, OnOk};
ghost use Rattle.sp_solver.specs.Told.{told};
ghost use Rattle.sp_names.specs.Declarations.{sort_of, type_sort, type_tree_of};
ghost use Rattle.sp_type_declarations.specs.Aliases.{is_alias, if_alias, aliases};

use sp_ast::{DeclView, Ref, TypeKind, TypeView};
use sp_base::{NoMemory, or_drop};
use sp_names::{Declaration, Names, RowView};
use sp_type_context::Place;
use sp_type_modules::written_in;
use sp_typed_units::Alias;
use sp_types::Type;
use std::alloc::Global;

/// Whether a declaration has no type, so that it is made of itself.
fn is_endless(known: &[Option<Type>], declaration: usize) -> bool
    ensures { result ≡ not (is_some (told known.now declaration)) }
{
    match known.get(declaration) {
        Some(Some(_)) => false,
        _ => true,
    }
}

/// Whether a type that is declared is neither a unit nor an enum.
fn is_alias(tree: &Ref<'_, TypeKind>) -> bool
    ensures { result ≡ is_alias (type_sort tree.now) }
{
    match tree.view() {
        TypeView::Unit(_) | TypeView::Enum(_) => false,
        _ => true,
    }
}

/// Puts a type that is declared on the list, if it is an alias.
fn add_type(
    alloc: Global,
    list: &mut Vec<Alias>,
    names: &Names<'_>,
    known: &[Option<Type>],
    declaration: usize,
    owner: u32,
    tree: &Ref<'_, TypeKind>,
) -> Result<(), NoMemory>
    ensures { OnOk result (list.new.items ≡ list.old.items ++ if_alias names.now (told known.now)
        declaration owner tree.now (is_alias (type_sort tree.now))) }
{
    if is_alias(tree) {
        list.push(Alias {
            module: owner,
            written: written_in(alloc, names, known, owner, Place::Whole, tree)?,
            endless: is_endless(known, declaration),
        })?;
    }
    Ok(())
}

/// Puts a declaration on the list, if it is an alias.
fn add_alias(
    alloc: Global,
    list: &mut Vec<Alias>,
    names: &Names<'_>,
    known: &[Option<Type>],
    declaration: usize,
    row: &Declaration<'_>,
) -> Result<(), NoMemory>
    ensures { OnOk result (list.new.items ≡ list.old.items ++ if_alias names.now (told known.now)
        declaration row.now.«module» (type_tree_of row.now.tree)
        (is_alias (sort_of row.now.tree))) }
{
    match row.tree.view() {
        RowView::Declared(DeclView::Type { type_, .. }) => {
            add_type(alloc, list, names, known, declaration, row.module, &type_)
        }
        _ => Ok(()),
    }
}

/// The declarations of types that are neither units nor enums, module by module and each in the order of its text, where
/// `known` has the types of type declarations by their numbers: one that has none is made of itself.
pub fn aliases(
    alloc: Global,
    names: &Names<'_>,
    known: &[Option<Type>],
) -> Result<Vec<Alias>, NoMemory>
    ensures { IfOk result (λ v. v.items ≡ aliases names.now (told known.now)) }
{
    let rows = names.rows();
    let mut list = Vec::new(alloc);
    for i in 0..rows.len() {
        or_drop!(add_alias(alloc, &mut list, names, known, i, &rows[i]); list);
    }
    Ok(list)
}
