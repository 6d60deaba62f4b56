// The units that the paths of hooks name.
ghost use Rattle.std.specs.Prelude.{◌≡◌, ◌∷◌, [], is_some};
ghost use Rattle.sp_solver.specs.Told.{told};
ghost use Rattle.sp_names.specs.Names.{own_enum, path_names};
ghost use Rattle.sp_type_hook_rows.specs.HookRows.{unit_type, meant_unit, named_unit};

use sp_ast::{PathKind, Ref};
use sp_names::{Meaning, Names};
use sp_types::{Level, Type, Word};

/// The unit that a declaration is, through aliases.
fn unit_at(known: &[Option<Type>], declaration: u32) -> Option<u32>
    ensures { result ≡ unit_type (told known.now declaration) }
{
    match known.get(declaration as usize) {
        Some(Some(found)) => match found.level() {
            Level::Word(Word::Unit(number)) => Some(number),
            _ => None,
        },
        _ => None,
    }
}

fn meant_unit(known: &[Option<Type>], meaning: Meaning) -> Option<u32>
    ensures { result ≡ meant_unit (told known.now) meaning }
{
    match meaning {
        Meaning::Declaration(declaration) => unit_at(known, declaration),
        _ => None,
    }
}

/// The unit that a whole path names.
pub(crate) fn path_unit(
    names: &Names<'_>,
    known: &[Option<Type>],
    owner: u32,
    path: &Ref<'_, PathKind>,
) -> Option<u32>
    ensures { result ≡ named_unit names.now (told known.now) owner (path_names path.now) }
{
    meant_unit(known, names.means(known, owner, path))
}

/// The unit that one name names.
pub(crate) fn own_unit(
    names: &Names<'_>,
    known: &[Option<Type>],
    owner: u32,
    name: &str,
) -> Option<u32>
    ensures { result ≡ named_unit names.now (told known.now) owner (name.now ∷ []) }
{
    match names.declared(owner, name) {
        Some(declaration) => unit_at(known, declaration),
        None => None,
    }
}

/// Whether a declaration is an enum, through aliases.
fn is_enum(known: &[Option<Type>], own: Option<u32>) -> bool
    ensures { result ≡ is_some (own_enum (told known.now) own) }
{
    match own {
        Some(declaration) => match known.get(declaration as usize) {
            Some(Some(found)) => match found.level() {
                Level::Word(Word::Enum(_)) => true,
                _ => false,
            },
            _ => false,
        },
        None => false,
    }
}

/// The unit that a name names in the module, or as a module, of another.
pub(crate) fn scoped_unit(
    names: &Names<'_>,
    known: &[Option<Type>],
    owner: u32,
    first: &str,
    second: &str,
) -> Option<u32>
    ensures { result ≡ named_unit names.now (told known.now) owner (first.now ∷ second.now ∷ []) }
{
    if is_enum(known, names.declared(owner, first)) {
        return None;
    }
    let Some(scope) = names.visible(owner, first) else {
        return None;
    };
    match names.named_in(scope, second) {
        Some(meaning) => meant_unit(known, meaning),
        None => None,
    }
}
