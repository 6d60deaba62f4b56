// The order in which the bodies of a hook run.
ghost use Rattle.std.specs.Prelude.{◌≡◌, map, IfOk};
ghost use Rattle.sp_lower_hooks.specs.inside.Turns.{turn, turn_of, key_number, sorted, turn_numbers};

use sp_base::NoMemory;
use sp_typed_units::Hook;
use std::alloc::Global;
use std::cmp::Reverse;

/// What decides when a body of a hook runs: one of a higher rank goes first, then by module, then by place.
#[derive(Clone, Copy, PartialEq, Eq, PartialOrd, Ord)]
pub(crate) struct BodyKey {
    pub rank: Reverse<i64>,
    /// Its module.
    pub home: u32,
    /// Its place in the text of that.
    pub from: u32,
    /// Its number among all bodies. Of two at one place the later one goes first.
    pub number: Reverse<u32>,
}

/// What decides when a body runs, by its number among all.
pub(crate) fn key_of(hook: &Hook, number: u32) -> BodyKey
    ensures { turn_of result ≡ turn (number, hook.now) }
{
    BodyKey {
        rank: Reverse(hook.rank.unwrap_or(0)),
        home: hook.module,
        from: hook.span.from,
        number: Reverse(number),
    }
}

/// The numbers alone.
fn numbers_of(alloc: Global, keys: &[BodyKey]) -> Result<Vec<u32>, NoMemory>
    ensures { IfOk result (λ ns. ns.items ≡ map key_number keys.now) }
{
    let mut numbers = Vec::with_capacity(alloc, keys.len())?;
    for i in 0..keys.len() {
        numbers.push(keys[i].number.0)?;
    }
    Ok(numbers)
}

/// The numbers of bodies, in the order in which they run.
pub(crate) fn in_order(alloc: Global, keys: Vec<BodyKey>) -> Result<Vec<u32>, NoMemory>
    ensures { IfOk result (λ ns. ns.items ≡ turn_numbers (sorted (map turn_of keys.items))) }
{
    let mut all = keys;
    all.sort_unstable();
    numbers_of(alloc, &all)
}
