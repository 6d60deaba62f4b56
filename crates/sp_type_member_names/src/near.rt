// Which members were named before a place, other than in another arm of a switch round it.
ghost use Rattle.std.specs.Prelude.{◌≡◌, ◌+◌, ◌-◌, ◌==◌, ℕ, cond, OnOk};
ghost use Rattle.sp_type_modules.specs.Taken.{has_number};
ghost use Rattle.sp_type_member_names.specs.inside.Seen.{told_count, how_many, is_counted};

use indexmap::IndexMap;
use sp_base::NoMemory;
use std::alloc::Global;

/// How often each member was named.
#[derive(Drop)]
pub(crate) struct NearTable {
    pub(crate) counts: IndexMap<u32, usize>,
}

pub(crate) fn nothing_near(alloc: Global) -> NearTable
    ensures { (k : ℕ) → told_count result k ≡ 0 }
{
    NearTable {
        counts: IndexMap::new(alloc),
    }
}

fn count(near: &NearTable, number: u32) -> usize
    ensures { result ≡ told_count near.now number }
{
    match near.counts.get(&number) {
        Some(count) => *count,
        None => 0,
    }
}

/// Whether a member was named, if there is one.
pub(crate) fn is_near(near: &NearTable, number: Option<u32>) -> bool
    ensures { result ≡ is_counted near.now number }
{
    match number {
        Some(number) => count(near, number) > 0,
        None => false,
    }
}

/// A member is named once more.
pub(crate) fn raise(near: &mut NearTable, number: u32) -> Result<(), NoMemory>
    ensures { OnOk result ((k : ℕ) → told_count near.new k
        ≡ told_count near.old k + cond (number == k) 1 0) }
{
    let more = count(near, number).checked_add(1).ok_or(NoMemory)?;
    near.counts.insert(number, more)?;
    Ok(())
}

fn lower(near: &mut NearTable, number: u32) -> Result<(), NoMemory>
    ensures { OnOk result ((k : ℕ) → told_count near.new k
        ≡ told_count near.old k - cond (number == k) 1 0) }
{
    let less = count(near, number).saturating_sub(1);
    near.counts.insert(number, less)?;
    Ok(())
}

/// All of a list are named once more.
pub(crate) fn show(near: &mut NearTable, list: &[u32]) -> Result<(), NoMemory>
    ensures { OnOk result ((k : ℕ) → told_count near.new k
        ≡ told_count near.old k + how_many k list.now) }
{
    for i in 0..list.len() {
        raise(near, list[i])?;
    }
    Ok(())
}

/// All of a list are named once less.
pub(crate) fn hide(near: &mut NearTable, list: &[u32]) -> Result<(), NoMemory>
    ensures { OnOk result ((k : ℕ) → told_count near.new k
        ≡ told_count near.old k - how_many k list.now) }
{
    for i in 0..list.len() {
        lower(near, list[i])?;
    }
    Ok(())
}
