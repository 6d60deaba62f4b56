// What declarations tell.
ghost use Rattle.std.specs.Prelude.{◌≡◌, IfOk};
ghost use Rattle.sp_ast.specs.Trees.{span_of};
ghost use Rattle.sp_names.specs.Declarations.{name_of, module_name, module_at};
ghost use Rattle.sp_type_context.specs.Names.{path_of};
ghost use Rattle.sp_type_units.specs.UnitRows.{type_name, is_public};

use sp_ast::DeclView;
use sp_base::{NoMemory, Span, Text};
use sp_names::{Declaration, Names, RowTree, RowView};
use sp_type_context::path_of;
use std::alloc::Global;

/// The name of a type that is declared.
fn type_name<'a>(tree: &RowTree<'a>) -> &'a str
    ensures { result.now ≡ name_of (type_name tree.now) }
{
    match tree.view() {
        RowView::Declared(DeclView::Type { name, .. }) => name.text(),
        _ => "",
    }
}

/// Where the name stands of a type that is declared.
fn name_span(tree: &RowTree<'_>) -> Span
    ensures { result ≡ span_of (type_name tree.now) }
{
    match tree.view() {
        RowView::Declared(DeclView::Type { name, .. }) => name.span(),
        _ => Span { from: 0, to: 0 },
    }
}

fn is_public(tree: &RowTree<'_>) -> bool
    ensures { result ≡ is_public tree.now }
{
    match tree.view() {
        RowView::Declared(DeclView::Type { public, .. }) => public,
        _ => false,
    }
}

/// What a declaration says of its unit.
#[derive(Drop)]
pub(crate) struct Head {
    pub(crate) path: Text,
    pub(crate) module: u32,
    pub(crate) span: Span,
    pub(crate) public: bool,
}

pub(crate) fn head_of(
    alloc: Global,
    names: &Names<'_>,
    declaration: &Declaration<'_>,
) -> Result<Head, NoMemory>
    ensures path { IfOk result (λ h. h.path
        ≡ path_of (module_name (module_at names.now declaration.now.«module»))
        (name_of (type_name declaration.now.tree))) }
    ensures owner { IfOk result (λ h. h.«module» ≡ declaration.now.«module») }
    ensures span { IfOk result (λ h. h.span ≡ span_of (type_name declaration.now.tree)) }
    ensures public { IfOk result (λ h. h.public ≡ is_public declaration.now.tree) }
{
    let owner = names.module_name(declaration.module);
    Ok(Head {
        path: path_of(alloc, owner, type_name(&declaration.tree))?,
        module: declaration.module,
        span: name_span(&declaration.tree),
        public: is_public(&declaration.tree),
    })
}
