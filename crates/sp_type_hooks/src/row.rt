// What a hook is of, and what it sees of its field.
ghost use Rattle.std.specs.Prelude.{◌≡◌, option_copied, is_some, IfOk};
ghost use Rattle.sp_names.specs.Types.{or_unknown};
ghost use Rattle.sp_type_hooks.specs.Hooks.{seen_at, seen_by, current_of, site_of};
ghost use Rattle.sp_type_hooks.specs.inside.Tables.{seen_told};

use crate::marks::{Mark, mark_of};
use crate::table::FieldTypes;
use sp_base::NoMemory;
use sp_type_functions::Site;
use sp_type_hook_rows::{HookRow, key_of};
use sp_typed_units::HookOf;
use sp_types::{Type, Word};

/// What the field of a mark stores.
fn stored_at(table: &FieldTypes, mark: Option<Mark>) -> Option<&Type>
    ensures { option_copied result ≡ (seen_at (seen_told table.now) mark).0 }
{
    match mark {
        Some(mark) => table.stored(mark),
        None => None,
    }
}

/// What an element is of the fields of a mark.
fn element_at(table: &FieldTypes, mark: Option<Mark>) -> Option<&Type>
    ensures { option_copied result ≡ (seen_at (seen_told table.now) mark).1 }
{
    match mark {
        Some(mark) => table.element(mark),
        None => None,
    }
}

fn is_there(ty: Option<&Type>) -> bool
    ensures { result ≡ is_some (option_copied ty.entry) }
{
    match ty {
        Some(_) => true,
        None => false,
    }
}

fn or_unknown(ty: Option<&Type>) -> Result<Type, NoMemory>
    ensures { IfOk result (λ t. t ≡ or_unknown (option_copied ty.entry)) }
{
    match ty {
        Some(ty) => ty.copy(),
        None => Ok(Type::word(Word::Unknown)),
    }
}

/// The type of `$$`.
fn current_of(of: HookOf, stored: Option<&Type>, element: Option<&Type>) -> Result<Type, NoMemory>
    ensures { IfOk result (λ t. t
        ≡ current_of of (option_copied stored.entry) (option_copied element.entry)) }
{
    match of {
        HookOf::Nothing | HookOf::Unit(..) => Ok(Type::word(Word::Unknown)),
        HookOf::Field(..) | HookOf::Anonymous(_) => or_unknown(stored),
        HookOf::Elements(..) | HookOf::AnonymousElements(_) => or_unknown(element),
    }
}

/// Where a hook stands, what it is of, and what it sees of its field.
pub(crate) fn site_of(types: &FieldTypes, row: &HookRow<'_>) -> Result<Site, NoMemory>
    ensures { IfOk result (λ s. s ≡ site_of (seen_by (seen_told types.now) row.now) row.now) }
{
    let mark = mark_of(key_of(row.of, row.field));
    let element = element_at(types, mark);
    let current = current_of(row.of, stored_at(types, mark), element)?;
    Ok(Site {
        module: row.module,
        span: row.span,
        of: row.of,
        container: is_there(element),
        current,
    })
}
