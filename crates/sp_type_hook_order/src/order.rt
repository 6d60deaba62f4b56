// All hooks in the order in which they run.
ghost use Rattle.std.specs.Prelude.{◌≡◌, map, IfOk};
ghost use Rattle.std.specs.List.Sorted.{IsPermutation, IsSorted};
ghost use Rattle.sp_type_hook_order.specs.Order.{numbers, rank_of, order_by, run_order};

use sp_base::NoMemory;
use std::alloc::Global;
use std::cmp::Reverse;

/// Each rank with its number.
fn ranked(alloc: Global, ranks: &[i64]) -> Result<Vec<(Reverse<i64>, u32)>, NoMemory>
    ensures ranks { IfOk result (λ v. map (λ x. x.0.0) v.items ≡ ranks.now) }
    ensures numbers { IfOk result (λ v. map (λ x. x.1) v.items ≡ numbers 0 ranks.now) }
{
    let mut all = Vec::with_capacity(alloc, ranks.len())?;
    let mut number: u32 = 0;
    for i in 0..ranks.len() {
        all.push((Reverse(ranks[i]), number))?;
        number = number.checked_add(1).ok_or(NoMemory)?;
    }
    Ok(all)
}

/// The numbers alone.
fn numbers_of(alloc: Global, all: &[(Reverse<i64>, u32)]) -> Result<Vec<u32>, NoMemory>
    ensures { IfOk result (λ v. v.items ≡ map (λ x. x.1) all.now) }
{
    let mut numbers = Vec::with_capacity(alloc, all.len())?;
    for i in 0..all.len() {
        numbers.push(all[i].1)?;
    }
    Ok(numbers)
}

/// The numbers of hooks, from 0, in the order in which they run, by their ranks: one of a greater rank runs before one of a
/// lower, and of two of one rank the one of the lower number.
pub fn run_order(alloc: Global, ranks: &[i64]) -> Result<Vec<u32>, NoMemory>
    ensures each { IfOk result (λ v. IsPermutation (numbers 0 ranks.now) v.items) }
    ensures falls { IfOk result (λ v. IsSorted (order_by (rank_of ranks.now)) v.items) }
    ensures order { IfOk result (λ v. v.items ≡ run_order ranks.now) }
{
    let mut all = ranked(alloc, ranks)?;
    all.sort_unstable();
    numbers_of(alloc, &all)
}
