// The types of the fields of each member so far, as far as another type is told from them.
ghost use Rattle.std.specs.Prelude.{◌≡◌, ◌||◌, ◌&&◌, ◌==◌, ℕ, true, false, option_copied, Some, OnOk};
ghost use Rattle.sp_types.specs.Types.{Ty, is_known};
ghost use Rattle.sp_type_modules.specs.Taken.{differ};
ghost use Rattle.sp_type_member_names.specs.inside.Seen.{entry_differs, stored_with, kept_differs, number_told};

use indexmap::IndexMap;
use sp_base::NoMemory;
use sp_type_modules::differ;
use sp_types::Type;
use std::alloc::Global;

/// The known types of the fields of a member.
#[derive(Drop)]
pub(crate) enum Stored {
    /// All are this one.
    One(Type),
    /// Not all are one.
    Mixed,
}

/// The known types of the fields of each member.
#[derive(Drop)]
pub(crate) struct StoredTable {
    pub(crate) of: IndexMap<u32, Stored>,
}

pub(crate) fn nothing_stored(alloc: Global) -> StoredTable
    ensures { (k : ℕ) (t : Ty) → kept_differs result k t ≡ false }
{
    StoredTable {
        of: IndexMap::new(alloc),
    }
}

fn entry_differs(entry: &Stored, ty: &Type) -> bool
    ensures { result ≡ entry_differs (Some entry.now) ty.now }
{
    match entry {
        Stored::One(one) => differ(one, ty),
        Stored::Mixed => ty.is_known(),
    }
}

fn differs(table: &StoredTable, number: u32, ty: &Type) -> bool
    ensures { result ≡ kept_differs table.now number ty.now }
{
    match table.of.get(&number) {
        Some(entry) => entry_differs(entry, ty),
        None => false,
    }
}

/// Whether a field of a member, if there is one, is of another known type than this.
pub(crate) fn is_other(table: &StoredTable, number: Option<u32>, ty: &Type) -> bool
    ensures { result ≡ number_told table.now number ty.now }
{
    match number {
        Some(number) => differs(table, number, ty),
        None => false,
    }
}

/// One more known type.
fn stored_with(entry: Option<&Stored>, ty: Type) -> Stored
    ensures { result ≡ stored_with (option_copied entry.entry) ty }
{
    match entry {
        Some(Stored::One(one)) => {
            if differ(one, &ty) {
                drop(ty);
                Stored::Mixed
            } else {
                Stored::One(ty)
            }
        }
        Some(Stored::Mixed) => {
            drop(ty);
            Stored::Mixed
        }
        None => Stored::One(ty),
    }
}

fn keep_known(table: &mut StoredTable, number: u32, ty: Type) -> Result<(), NoMemory>
    requires { is_known ty ≡ true }
    ensures { OnOk result ((k : ℕ) (t : Ty) → kept_differs table.new k t
        ≡ (kept_differs table.old k t || (number == k && differ ty t))) }
{
    let entry = stored_with(table.of.get(&number), ty);
    table.of.insert(number, entry)?;
    Ok(())
}

/// A member has one more field.
pub(crate) fn keep(table: &mut StoredTable, number: u32, ty: Type) -> Result<(), NoMemory>
    ensures { OnOk result ((k : ℕ) (t : Ty) → kept_differs table.new k t
        ≡ (kept_differs table.old k t || (number == k && differ ty t))) }
{
    if ty.is_known() {
        keep_known(table, number, ty)
    } else {
        Ok(())
    }
}
