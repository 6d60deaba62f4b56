// Sets of spots, as lists in which each stands once.
ghost use Rattle.std.specs.Prelude.{◌≡◌, ℕ, ◌+◌, ◌==◌, ◌||◌, ◌&&◌, not, false, true, [], ◌∷◌, length, IfOk, OnOk};
ghost use Rattle.sp_match.specs.Sets.{has};

use sp_base::NoMemory;
use std::alloc::Global;

/// The set of one spot.
pub fn single(alloc: Global, spot: usize) -> Result<Vec<usize>, NoMemory>
    ensures { IfOk result (λ s. s.items ≡ spot ∷ []) }
{
    let mut set = Vec::new(alloc);
    set.push(spot)?;
    Ok(set)
}

/// A set with the same spots.
pub fn copy(alloc: Global, set: &[usize]) -> Result<Vec<usize>, NoMemory>
    ensures { IfOk result (λ s. s.items ≡ set.now) }
{
    Ok(set.to_vec(alloc)?)
}

/// Whether a spot is in the set.
pub fn contains(set: &[usize], spot: usize) -> bool
    ensures { result ≡ has set.now spot }
{
    for other in set {
        if *other == spot {
            return true;
        }
    }
    false
}

/// Adds a spot.
pub fn put(set: &mut Vec<usize>, spot: usize) -> Result<(), NoMemory>
    ensures { OnOk result ((p : ℕ) → has set.new.items p ≡ (has set.old.items p || (p == spot))) }
{
    if contains(set, spot) {
        return Ok(());
    }
    set.push(spot)?;
    Ok(())
}

/// Adds the spots of another set.
pub fn join(set: &mut Vec<usize>, more: &[usize]) -> Result<(), NoMemory>
    ensures { OnOk result ((p : ℕ) → has set.new.items p
        ≡ (has set.old.items p || has more.now p)) }
{
    for i in 0..more.len() {
        put(set, more[i])?;
    }
    Ok(())
}

/// Adds a spot that is not the other.
fn put_other(set: &mut Vec<usize>, spot: usize, other: usize) -> Result<(), NoMemory>
    ensures { OnOk result ((p : ℕ)
        → has set.new.items p ≡ (has set.old.items p || ((p == spot) && not (p == other)))) }
{
    if spot == other {
        return Ok(());
    }
    put(set, spot)?;
    Ok(())
}

/// Adds the spots of another set but for one.
pub fn join_others(set: &mut Vec<usize>, more: &[usize], but: usize) -> Result<(), NoMemory>
    ensures { OnOk result ((p : ℕ)
        → has set.new.items p ≡ (has set.old.items p || (has more.now p && not (p == but)))) }
{
    for i in 0..more.len() {
        put_other(set, more[i], but)?;
    }
    Ok(())
}

/// Whether no spot is in the set.
#[tactic(auto, using(crate::proofs::Lists::no_items, crate::proofs::Lists::has_first))]
pub fn is_empty(set: &Vec<usize>) -> bool
    ensures none { result ≡ true → set.now.items ≡ [] }
    ensures some { result ≡ false → (p : ℕ) × (has set.now.items p ≡ true) }
{
    set.len() == 0
}
