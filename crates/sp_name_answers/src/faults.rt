// The rules on names that hang on no expression and on no member of a unit, asked in one walk over each module.
ghost use Rattle.std.specs.Prelude.{◌≡◌, [], ℕ, List, IfSome, IfNone, None, Some, OnOk};
ghost use Rattle.std.proofs.Common.{get_or};
ghost use Rattle.sp_ast.specs.Trees.{absent, span_of, trees};
ghost use Rattle.sp_rules.specs.Least.{checked};
ghost use Rattle.sp_solver.specs.Told.{told};
ghost use Rattle.sp_names.specs.Declarations.{name_of};
ghost use Rattle.sp_name_tables.specs.Tables.{told_by};
ghost use Rattle.sp_names.specs.Faults.{nothing_fault, path_parts, path_faults, name_part, name_fault, with_name, repeated, first_row, second_row, twice_faults, faults_in, faults_among, is_reserved, is_later, module_faults, module_name_tree, name_faults, IsSeen};

use sp_ast::{
    BaseKind, BaseView, DeclForm, Form, Level, Module, Parts, PathKind, Ref, TreeRef, TypeForm,
    TypeKind, TypeView,
};
use sp_base::{NoMemory, Span};
use sp_name_tables::{NameTable, look_up, number};
use sp_names::{Meaning, Names, is_reserved, name_of, note_name};
use sp_rules::{Fault, Rule, note, note_if};
use sp_types::Type;
use std::alloc::Global;

fn path_span(path: &Ref<'_, PathKind>, place: u32) -> Span
    ensures { result ≡ span_of (get_or (path_parts path.now) place absent) }
{
    match path.names().get(place as usize) {
        Some(name) => name.span(),
        None => Span { from: 0, to: 0 },
    }
}

/// Notes a path that names nothing.
fn note_nothing(owner: u32, path: &Ref<'_, PathKind>, meaning: Meaning, least: &mut Option<Fault>)
    ensures { least.new ≡ checked least.old (nothing_fault owner path.now meaning) }
{
    if let Meaning::Nothing(place) = meaning {
        let fault = Fault {
            rule: Rule::UnknownName,
            module: owner,
            span: path_span(path, place),
        };
        note(least, fault);
    }
}

/// The name that a tree declares among those beside it.
fn name_part<'a>(tree: &TreeRef<'a>) -> Option<TreeRef<'a>>
    ensures some { IfSome result (λ name. name_part tree.now ≡ Some name) }
    ensures none { IfNone result (name_part tree.now ≡ None) }
{
    match tree.level() {
        Level::Of(
            Form::Label
            | Form::Bits
            | Form::Parameter { .. }
            | Form::Decl(
                DeclForm::Type { .. } | DeclForm::Const { .. } | DeclForm::Function { .. },
            ),
            _,
            parts,
        ) => match parts.split_first() {
            Some((name, _)) => Some(name),
            None => None,
        },
        _ => None,
    }
}

fn text_of<'a>(tree: &TreeRef<'a>) -> &'a str
    ensures { result.now ≡ name_of tree.now }
{
    match tree.level() {
        Level::Of(Form::Name(text), ..) => text.as_str(),
        _ => "",
    }
}

fn span_of(tree: &TreeRef<'_>) -> Span
    ensures { result ≡ span_of tree.now }
{
    match tree.level() {
        Level::Of(_, span, _) => span,
        _ => Span { from: 0, to: 0 },
    }
}

/// Notes a name that was given before.
fn note_again(
    alloc: Global,
    seen: &mut NameTable,
    owner: u32,
    name: &TreeRef<'_>,
    least: &mut Option<Fault>,
) -> Result<(), NoMemory>
    ensures least { OnOk result ((given : List (List ℕ)) → IsSeen (told_by seen.old) given
        → least.new ≡ checked least.old (name_fault owner given (Some name.now))) }
    ensures seen { OnOk result ((given : List (List ℕ)) → IsSeen (told_by seen.old) given
        → IsSeen (told_by seen.new) (with_name (Some name.now) given)) }
{
    let text = text_of(name);
    let fault = Fault {
        rule: Rule::NameTwice,
        module: owner,
        span: span_of(name),
    };
    note_if(look_up(seen, text).is_some(), least, fault);
    note_name(alloc, seen, Some(text), 0)
}

fn note_one(
    alloc: Global,
    seen: &mut NameTable,
    owner: u32,
    tree: &TreeRef<'_>,
    least: &mut Option<Fault>,
) -> Result<(), NoMemory>
    ensures least { OnOk result ((given : List (List ℕ)) → IsSeen (told_by seen.old) given
        → least.new ≡ checked least.old (name_fault owner given (name_part tree.now))) }
    ensures seen { OnOk result ((given : List (List ℕ)) → IsSeen (told_by seen.old) given
        → IsSeen (told_by seen.new) (with_name (name_part tree.now) given)) }
{
    match name_part(tree) {
        Some(name) => note_again(alloc, seen, owner, &name, least),
        None => Ok(()),
    }
}

/// Notes trees that declare a name which one before them declares.
fn note_repeated(
    alloc: Global,
    owner: u32,
    parts: Parts<'_>,
    least: &mut Option<Fault>,
) -> Result<(), NoMemory>
    ensures { OnOk result (least.new ≡ checked least.old (repeated owner [] (trees parts.entry))) }
{
    let mut seen = NameTable::new(alloc);
    for tree in parts {
        note_one(alloc, &mut seen, owner, &tree, least)?;
    }
    Ok(())
}

fn note_first_row(
    alloc: Global,
    owner: u32,
    parts: Parts<'_>,
    least: &mut Option<Fault>,
) -> Result<(), NoMemory>
    ensures { OnOk result (least.new
        ≡ checked least.old (repeated owner [] (first_row (trees parts.entry)))) }
{
    let Some((first, _)) = parts.split_first() else {
        return Ok(());
    };
    match first.level() {
        Level::Row(members) => note_repeated(alloc, owner, members, least),
        _ => Ok(()),
    }
}

fn note_second_row(
    alloc: Global,
    owner: u32,
    parts: Parts<'_>,
    least: &mut Option<Fault>,
) -> Result<(), NoMemory>
    ensures { OnOk result (least.new
        ≡ checked least.old (repeated owner [] (second_row (trees parts.entry)))) }
{
    match parts.split_first() {
        Some((_, others)) => note_first_row(alloc, owner, others, least),
        None => Ok(()),
    }
}

/// Notes labels, ranges of bits, parameters and declarations that have the name of one before them.
fn note_twice(
    alloc: Global,
    owner: u32,
    tree: &TreeRef<'_>,
    least: &mut Option<Fault>,
) -> Result<(), NoMemory>
    ensures { OnOk result (least.new ≡ checked least.old (twice_faults owner tree.now)) }
{
    match tree.level() {
        Level::Of(Form::Type(TypeForm::Enum), _, parts) => {
            note_repeated(alloc, owner, parts, least)
        }
        Level::Of(Form::Unit | Form::Hook, _, parts) => {
            note_first_row(alloc, owner, parts, least)
        }
        Level::Of(
            Form::Type(TypeForm::Bitfield) | Form::Decl(DeclForm::Function { .. }) | Form::Module,
            _,
            parts,
        ) => note_second_row(alloc, owner, parts, least),
        _ => Ok(()),
    }
}

fn is_later(first: Option<u32>, owner: u32) -> bool
    ensures { result ≡ is_later first owner }
{
    match first {
        Some(first) => first != owner,
        None => true,
    }
}

fn note_type_path(
    names: &Names<'_>,
    known: &[Option<Type>],
    owner: u32,
    tree: &Ref<'_, TypeKind>,
    least: &mut Option<Fault>,
)
    ensures { least.new
        ≡ checked least.old (path_faults names.now (told known.now) owner tree.now) }
{
    match tree.view() {
        TypeView::Path(path) => {
            note_nothing(owner, &path, names.means(known, owner, &path), least)
        }
        _ => {}
    }
}

fn note_base_path(
    names: &Names<'_>,
    known: &[Option<Type>],
    owner: u32,
    tree: &Ref<'_, BaseKind>,
    least: &mut Option<Fault>,
)
    ensures { least.new
        ≡ checked least.old (path_faults names.now (told known.now) owner tree.now) }
{
    match tree.view() {
        BaseView::Unit { path, .. } => {
            note_nothing(owner, &path, names.means(known, owner, &path), least)
        }
        _ => {}
    }
}

/// Notes the path of a type or of a unit that names nothing.
fn note_path(
    names: &Names<'_>,
    known: &[Option<Type>],
    owner: u32,
    tree: &TreeRef<'_>,
    least: &mut Option<Fault>,
)
    ensures { least.new
        ≡ checked least.old (path_faults names.now (told known.now) owner tree.now) }
{
    match tree.level() {
        Level::Of(Form::Type(_), ..) => {
            note_type_path(names, known, owner, &Ref::new(tree.again()), least)
        }
        Level::Of(Form::Base(_), ..) => {
            note_base_path(names, known, owner, &Ref::new(tree.again()), least)
        }
        _ => {}
    }
}

/// Notes what is broken in a tree.
#[cycle(note)]
fn note_tree(
    alloc: Global,
    names: &Names<'_>,
    known: &[Option<Type>],
    owner: u32,
    tree: &TreeRef<'_>,
    least: &mut Option<Fault>,
) -> Result<(), NoMemory>
    ensures { OnOk result (least.new
        ≡ checked least.old (faults_in names.now (told known.now) owner tree.now)) }
{
    match tree.level() {
        Level::Absent => Ok(()),
        Level::Row(parts) => note_among(alloc, names, known, owner, parts, least),
        Level::Of(_, _, parts) => {
            note_path(names, known, owner, tree, least);
            note_twice(alloc, owner, tree, least)?;
            note_among(alloc, names, known, owner, parts, least)
        }
    }
}

#[cycle(note)]
fn note_among(
    alloc: Global,
    names: &Names<'_>,
    known: &[Option<Type>],
    owner: u32,
    parts: Parts<'_>,
    least: &mut Option<Fault>,
) -> Result<(), NoMemory>
    ensures { OnOk result (least.new
        ≡ checked least.old
        (faults_among names.now (told known.now) owner (trees parts.entry))) }
{
    for tree in parts {
        note_tree(alloc, names, known, owner, &tree, least)?;
    }
    Ok(())
}

fn note_module(
    alloc: Global,
    names: &Names<'_>,
    known: &[Option<Type>],
    owner: u32,
    whole: &Module,
    least: &mut Option<Fault>,
) -> Result<(), NoMemory>
    ensures { OnOk result (least.new
        ≡ checked least.old (module_faults names.now (told known.now) owner whole.now)) }
{
    let name = name_of(whole);
    let twice = is_later(names.module_named(name), owner) || is_reserved(name);
    let fault = Fault {
        rule: Rule::ModuleTwice,
        module: owner,
        span: name_span(whole),
    };
    note_if(twice, least, fault);
    note_tree(alloc, names, known, owner, &whole.lend(), least)
}

/// Notes what is broken of names: modules of one name, or of a reserved one; declarations, labels, ranges of bits and
/// parameters with the name of one before them; and paths of types that name nothing. `known` has the types of type
/// declarations by their numbers. One walk over each module: the time is that of the modules' size.
pub fn note_faults(
    alloc: Global,
    names: &Names<'_>,
    known: &[Option<Type>],
    least: &mut Option<Fault>,
) -> Result<(), NoMemory>
    ensures { OnOk result (least.new
        ≡ checked least.old (name_faults names.now (told known.now))) }
{
    let modules = names.modules();
    for i in 0..modules.len() {
        note_module(alloc, names, known, number(i)?, &modules[i], least)?;
    }
    Ok(())
}

fn name_span(whole: &Module) -> Span
    ensures { result ≡ span_of (module_name_tree whole.now) }
{
    whole.root().view().name.span()
}
