// What is wrong with a type that is written.
ghost use Rattle.std.specs.Prelude.{◌≡◌, IfOk};
ghost use Rattle.sp_ast.specs.Trees.{trees};
ghost use Rattle.sp_solver.specs.Told.{told};
ghost use Rattle.sp_type_context.specs.Typing.{or_else};
ghost use Rattle.sp_type_modules.specs.Written.{name_span, nothing_at, unnamed_in, unnamed_among, names_type, unless, misplaced_inside, misplaced_among, misplaced_in, written_in, type_at};

use sp_ast::{Members, PathKind, Ref, TypeKind, TypeView};
use sp_base::{NoMemory, Span};
use sp_names::{DeclSort, Meaning, Names};
use sp_type_context::{Place, standing, suits};
use sp_typed::Written;
use sp_types::Type;
use std::alloc::Global;

/// The slice of the text of the name before which so many stand in a path.
pub fn name_span(path: &Ref<'_, PathKind>, place: u32) -> Span
    ensures { result ≡ name_span path.now place }
{
    match path.names().get(place as usize) {
        Some(name) => name.span(),
        None => Span { from: 0, to: 0 },
    }
}

fn nothing_at(path: &Ref<'_, PathKind>, meaning: Meaning) -> Option<Span>
    ensures { result ≡ nothing_at path.now meaning }
{
    match meaning {
        Meaning::Nothing(place) => Some(name_span(path, place)),
        _ => None,
    }
}

fn or_else(a: Option<Span>, b: Option<Span>) -> Option<Span>
    ensures { result ≡ or_else a b }
{
    match a {
        Some(span) => Some(span),
        None => b,
    }
}

/// The first name in a type that names nothing.
#[cycle(unnamed)]
pub fn unnamed_in(
    names: &Names<'_>,
    known: &[Option<Type>],
    owner: u32,
    tree: &Ref<'_, TypeKind>,
) -> Option<Span>
    ensures { result ≡ unnamed_in names.now (told known.now) owner tree.now }
{
    match tree.view() {
        TypeView::Path(path) => nothing_at(&path, names.means(known, owner, &path)),
        TypeView::Tuple(members) => unnamed_among(names, known, owner, members),
        TypeView::Vector(element) | TypeView::Set(element) => {
            or_else(unnamed_in(names, known, owner, &element), None)
        }
        TypeView::Map { key, value } => or_else(
            unnamed_in(names, known, owner, &key),
            or_else(unnamed_in(names, known, owner, &value), None),
        ),
        _ => None,
    }
}

#[cycle(unnamed)]
fn unnamed_among(
    names: &Names<'_>,
    known: &[Option<Type>],
    owner: u32,
    members: Members<'_, TypeKind>,
) -> Option<Span>
    ensures { result ≡ unnamed_among names.now (told known.now) owner (trees members.entry) }
{
    for member in members {
        let found = unnamed_in(names, known, owner, &member);
        if found.is_some() {
            return found;
        }
    }
    None
}

fn names_type(names: &Names<'_>, meaning: Meaning) -> bool
    ensures { result ≡ names_type names.now meaning }
{
    match meaning {
        Meaning::Declaration(declaration) => matches!(
            names.sort(declaration),
            DeclSort::Unit | DeclSort::Enum | DeclSort::Alias
        ),
        Meaning::Label { .. } => false,
        _ => true,
    }
}

fn unless(right: bool, span: Span) -> Option<Span>
    ensures { result ≡ unless right span }
{
    if right { None } else { Some(span) }
}

/// The first type inside one that can't stand where it does.
#[cycle(misplaced)]
fn misplaced_inside(
    alloc: Global,
    names: &Names<'_>,
    known: &[Option<Type>],
    owner: u32,
    tree: &Ref<'_, TypeKind>,
) -> Result<Option<Span>, NoMemory>
    ensures { IfOk result (λ o. o ≡ misplaced_inside names.now (told known.now) owner tree.now) }
{
    let span = tree.span();
    match tree.view() {
        TypeView::Path(path) => Ok(unless(
            names_type(names, names.means(known, owner, &path)),
            span,
        )),
        TypeView::Tuple(members) => misplaced_among(alloc, names, known, owner, members),
        TypeView::Vector(element) => {
            misplaced_in(alloc, names, known, owner, Place::Value, &element)
        }
        TypeView::Set(element) => misplaced_in(alloc, names, known, owner, Place::Key, &element),
        TypeView::Map { key, value } => Ok(or_else(
            misplaced_in(alloc, names, known, owner, Place::Key, &key)?,
            misplaced_in(alloc, names, known, owner, Place::Value, &value)?,
        )),
        TypeView::Enum(_) | TypeView::Unit(_) => Ok(Some(span)),
        _ => Ok(None),
    }
}

/// The first type in one that can't stand where it does, where that one stands at a place.
#[cycle(misplaced)]
fn misplaced_in(
    alloc: Global,
    names: &Names<'_>,
    known: &[Option<Type>],
    owner: u32,
    place: Place,
    tree: &Ref<'_, TypeKind>,
) -> Result<Option<Span>, NoMemory>
    ensures { IfOk result (λ o. o ≡ misplaced_in names.now (told known.now) owner place tree.now) }
{
    let inside = misplaced_inside(alloc, names, known, owner, tree)?;
    let found = names.type_in(alloc, known, owner, tree)?;
    Ok(or_else(inside, unless(suits(place, &found), tree.span())))
}

#[cycle(misplaced)]
fn misplaced_among(
    alloc: Global,
    names: &Names<'_>,
    known: &[Option<Type>],
    owner: u32,
    members: Members<'_, TypeKind>,
) -> Result<Option<Span>, NoMemory>
    ensures { IfOk result (λ o. o ≡ misplaced_among names.now (told known.now) owner
        (trees members.entry)) }
{
    for member in members {
        let found = misplaced_in(alloc, names, known, owner, Place::Value, &member)?;
        if found.is_some() {
            return Ok(found);
        }
    }
    Ok(None)
}

/// A type as it is written at a place.
pub fn written_in(
    alloc: Global,
    names: &Names<'_>,
    known: &[Option<Type>],
    owner: u32,
    place: Place,
    tree: &Ref<'_, TypeKind>,
) -> Result<Written, NoMemory>
    ensures { IfOk result (λ w. w ≡ written_in names.now (told known.now) owner place tree.now) }
{
    Ok(Written {
        span: tree.span(),
        unnamed: unnamed_in(names, known, owner, tree),
        misplaced: misplaced_in(alloc, names, known, owner, place, tree)?,
    })
}

/// The type of what is declared with a type that is written at a place; `Unknown` where it can't stand there.
pub fn type_at(
    alloc: Global,
    names: &Names<'_>,
    known: &[Option<Type>],
    owner: u32,
    place: Place,
    tree: &Ref<'_, TypeKind>,
) -> Result<Type, NoMemory>
    ensures { IfOk result (λ t. t ≡ type_at names.now (told known.now) owner place tree.now) }
{
    Ok(standing(place, names.type_in(alloc, known, owner, tree)?))
}
