// Walks into types: by a list of what is left to do, so that no type is too deep for the machine's stack.
ghost use Rattle.std.specs.Prelude.{◌≡◌, ◌++◌, drop, take, IfOk, OnOk};
ghost use Rattle.sp_emit.specs.Plans.{plans, begins};

use sp_base::NoMemory;
use sp_types::{Maker, Type};

/// What is left to do of a walk into a type, which finds an answer for it.
#[derive(Clone, Copy)]
pub enum Task<'a> {
    /// find the answer for a type
    Begin(&'a Type),
    /// find that for what is made of types, whose answers stand from a place on
    End(Maker, usize),
}

/// Puts types on a list of what is left to do, the first one on top.
#[tactic(auto, using(crate::proofs::Plans::one_more, crate::proofs::Plans::from_item))]
pub fn push_parts<'a>(tasks: &mut Vec<Task<'a>>, parts: &'a [Type]) -> Result<(), NoMemory>
    ensures { OnOk result (plans tasks.new.items ≡ begins parts.now ++ plans tasks.old.items) }
{
    let mut i = parts.len();
    while i > 0 {
        i -= 1;
        tasks.push(Task::Begin(&parts[i]))?;
    }
    Ok(())
}

/// The answers from a place on, taken off a list; none where the list ends before it.
pub fn behind<T>(done: &mut Vec<T>, n: usize) -> Result<Vec<T>, NoMemory>
    ensures taken { IfOk result (λ answers. answers.items ≡ drop n done.old.items) }
    ensures left { OnOk result (done.new.items ≡ take n done.old.items) }
{
    let n = n.min(done.len());
    Ok(done.split_off(n)?)
}
