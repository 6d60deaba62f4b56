// The bodies of a hook that each unit has, by units.
ghost use Rattle.std.specs.Prelude.{◌≡◌, [], length, map, replicate, IfOk, OnOk};
ghost use Rattle.sp_meaning.specs.Hooks as named;
ghost use Rattle.sp_lower_hooks.specs.inside.Turns.{turn, turn_of};
ghost use Rattle.sp_lower_hooks.specs.inside.Rows.{turns_in, noted, noted_hook, all_noted, row_numbers, lists, row_at, AreRows};

use crate::keys::{BodyKey, in_order, key_of};
use sp_base::{NoMemory, or_drop};
use sp_typed_units::{Hook, HookOf, Typed};
use sp_words::HookName;
use std::alloc::Global;

/// Whether both are the name of the same hook, which each unit has.
fn is_hook(name: HookName, other: HookName) -> bool
    ensures { result ≡ named.is_hook name other }
{
    match name {
        HookName::Init => matches!(other, HookName::Init),
        HookName::Done => matches!(other, HookName::Done),
        HookName::Error => matches!(other, HookName::Error),
        HookName::Finally => matches!(other, HookName::Finally),
        _ => false,
    }
}

/// A row without bodies for each unit.
fn no_bodies(alloc: Global, units: usize) -> Result<Vec<Vec<BodyKey>>, NoMemory>
    ensures { IfOk result (λ rows. turns_in rows.items ≡ replicate units []) }
{
    let mut rows = Vec::with_capacity(alloc, units)?;
    for _ in 0..units {
        rows.push(Vec::new(alloc))?;
    }
    Ok(rows)
}

/// One more body of a unit, which isn't noted where there is no such unit.
fn note(rows: &mut Vec<Vec<BodyKey>>, unit: u32, key: BodyKey) -> Result<(), NoMemory>
    ensures { OnOk result (turns_in rows.new.items
        ≡ noted unit (turn_of key) (turns_in rows.old.items)) }
{
    let at = unit as usize;
    if at < rows.len() {
        rows[at].push(key)?;
    }
    Ok(())
}

/// One more body of a hook, which isn't noted where it is of another hook than that of this name.
fn note_hook(
    rows: &mut Vec<Vec<BodyKey>>,
    name: HookName,
    number: u32,
    hook: &Hook,
) -> Result<(), NoMemory>
    ensures { OnOk result (turns_in rows.new.items
        ≡ noted_hook name hook.now.of (turn (number, hook.now)) (turns_in rows.old.items)) }
{
    match hook.of {
        HookOf::Unit(unit, other) => {
            if is_hook(name, other) {
                note(rows, unit, key_of(hook, number))
            } else {
                Ok(())
            }
        }
        _ => Ok(()),
    }
}

/// The bodies of the hook of this name, by units, in the order of their numbers.
fn gathered(
    alloc: Global,
    units: usize,
    hooks: &[Hook],
    name: HookName,
) -> Result<Vec<Vec<BodyKey>>, NoMemory>
    ensures { IfOk result (λ rows. turns_in rows.items ≡ all_noted name 0 hooks.now
        (replicate units [])) }
{
    let mut rows = no_bodies(alloc, units)?;
    let mut number: u32 = 0;
    for i in 0..hooks.len() {
        or_drop!(note_hook(&mut rows, name, number, &hooks[i]); rows);
        number = or_drop!(number.checked_add(1).ok_or(NoMemory); rows);
    }
    Ok(rows)
}

/// The numbers of the bodies, those of each unit in the order in which they run.
fn ordered(alloc: Global, gathered: Vec<Vec<BodyKey>>) -> Result<Vec<Vec<u32>>, NoMemory>
    ensures { IfOk result (λ rows. lists rows.items ≡ map row_numbers gathered.items) }
{
    let mut rows = Vec::with_capacity(alloc, gathered.len())?;
    for keys in gathered {
        rows.push(in_order(alloc, keys)?)?;
    }
    Ok(rows)
}

/// How many units a list has.
fn unit_count(list: &Typed) -> usize
    ensures { result ≡ length list.now.units }
{
    list.units.as_slice().len()
}

/// For each unit of a list, the numbers of the bodies of its hook of this name, in the order in which they run. It is made in
/// time that grows with n log n for n bodies.
pub(crate) fn rows_of(
    alloc: Global,
    list: &Typed,
    name: HookName,
) -> Result<Vec<Vec<u32>>, NoMemory>
    ensures { IfOk result (λ rows. AreRows name list.now rows.items) }
{
    let units = unit_count(list);
    let keys = gathered(alloc, units, list.hooks.as_slice(), name)?;
    ordered(alloc, keys)
}

/// The row of a unit, which is empty where there is no such unit.
pub(crate) fn row_of(rows: &Vec<Vec<u32>>, unit: u32) -> &[u32]
    ensures { result.now ≡ row_at (lists rows.now.items) unit }
{
    let at = unit as usize;
    if at < rows.len() {
        rows[at].as_slice()
    } else {
        &[]
    }
}
