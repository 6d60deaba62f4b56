// The ranks of hooks.
ghost use Rattle.std.specs.Prelude.{◌≡◌, IfOk};
ghost use Rattle.sp_type_hook_order.specs.Order.{rank_or};
ghost use Rattle.sp_type_hooks.specs.Hooks.{ranks_of};

use sp_base::NoMemory;
use sp_typed_units::Hook;
use std::alloc::Global;

/// A rank, and 0 where there is none.
fn rank_or(rank: Option<i64>) -> i64
    ensures { result ≡ rank_or rank }
{
    match rank {
        Some(rank) => rank,
        None => 0,
    }
}

/// The rank of each hook, and 0 where it has none. With it `sp_type_hook_order::HookTable` tells the order in which they run.
pub fn ranks_of(alloc: Global, hooks: &[Hook]) -> Result<Vec<i64>, NoMemory>
    ensures { IfOk result (λ v. v.items ≡ ranks_of hooks.now) }
{
    let mut ranks = Vec::with_capacity(alloc, hooks.len())?;
    for i in 0..hooks.len() {
        ranks.push(rank_or(hooks[i].rank))?;
    }
    Ok(ranks)
}
