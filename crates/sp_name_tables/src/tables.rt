// Tables of names: the first of each counts.
ghost use Rattle.std.specs.Prelude.{◌≡◌, ℕ, List, Some, None, cond, is_some, OnOk};
ghost use Rattle.std.specs.Str.{bytes_eq};
ghost use Rattle.sp_name_tables.specs.Tables.{told_by};

use indexmap::IndexMap;
use sp_base::NoMemory;
use std::alloc::Global;

/// The number of the first of each name.
#[derive(Drop)]
pub struct NameTable {
    first: IndexMap<String, u32>,
}

impl NameTable {
    /// A table without names.
    pub fn new(alloc: Global) -> NameTable
        ensures { (x : List ℕ) → told_by result x ≡ None }
    {
        NameTable {
            first: IndexMap::new(alloc),
        }
    }
}

/// The number of a name.
pub fn look_up(table: &NameTable, name: &str) -> Option<u32>
    ensures { result ≡ told_by table.now name.now }
{
    table.first.get(name).copied()
}

/// Notes the number of a name, unless it has one.
pub fn declare(
    alloc: Global,
    table: &mut NameTable,
    name: &str,
    number: u32,
) -> Result<(), NoMemory>
    ensures { OnOk result ((x : List ℕ) → told_by table.new x
        ≡ cond (is_some (told_by table.old name.now)) (told_by table.old x)
        (cond (bytes_eq x name.now) (Some number) (told_by table.old x))) }
{
    if look_up(table, name).is_some() {
        return Ok(());
    }
    table.first.insert(String::from_str(alloc, name)?, number)?;
    Ok(())
}
