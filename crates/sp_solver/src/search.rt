// The search: what waits stands in a row, each for the next.
ghost use Rattle.std.specs.Prelude.{◌≡◌, ◌<◌, ℕ, true, false, List, [], length, OnOk, IfOk};
ghost use Rattle.sp_solver.specs.Rounds.{IsSettled};
ghost use Rattle.sp_solver.specs.Told.{told};
ghost use Rattle.sp_solver.specs.Rows.{IsAt, marked};

use crate::attempt::{Attempt, Questions};
use sp_base::NoMemory;
use std::alloc::Global;

/// Begins one, unless it was begun, and goes on until nothing of it waits.
fn visit<Q: Questions>(
    alloc: Global,
    q: &Q,
    known: &mut Vec<Option<Q::Answer>>,
    begun: &mut Vec<bool>,
    cursors: &mut Vec<usize>,
    root: usize,
) -> Result<(), NoMemory>
    requires root { root < Q.amount q.now }
    requires at { IsAt (Q.tries q.now) (Q.ready q.now) (Q.amount q.now) known.old.items
        begun.old.items cursors.old.items [] }
    ensures at { OnOk result (IsAt (Q.tries q.now) (Q.ready q.now) (Q.amount q.now)
        known.new.items begun.new.items cursors.new.items []) }
    ensures more { OnOk result ((i : ℕ) → marked begun.old.items i ≡ true
        → marked begun.new.items i ≡ true) }
    ensures root { OnOk result (marked begun.new.items root ≡ true) }
{
    if begun[root] {
        return Ok(());
    }
    begun[root] = true;
    let mut row: Vec<usize> = Vec::new(alloc);
    let mut here = root;
    loop {
        let mut cursor = cursors[here];
        let attempt = q.attempt(alloc, known, here, &mut cursor)?;
        cursors[here] = cursor;
        match attempt {
            Attempt::Done(answer) => {
                known[here] = Some(answer);
                match row.pop() {
                    Some(next) => here = next,
                    None => return Ok(()),
                }
            }
            Attempt::Waits(next) => {
                if begun[next] {
                    return Ok(());
                }
                begun[next] = true;
                row.push(here)?;
                here = next;
            }
        }
    }
}

/// The answers of all questions, by number; none where a question leads to one that hangs on itself. Each question is begun
/// once, in a loop: a chain of questions takes room in a list and none of the machine's stack.
pub fn answers<Q: Questions>(alloc: Global, q: &Q) -> Result<Vec<Option<Q::Answer>>, NoMemory>
    ensures settled { IfOk result (λ v. IsSettled (Q.tries q.now) (told v.items)) }
    ensures all { IfOk result (λ v. length v.items ≡ Q.amount q.now) }
{
    let count = q.count();
    let mut known = Vec::new(alloc);
    let mut begun = Vec::new(alloc);
    let mut cursors = Vec::new(alloc);
    for _ in 0..count {
        known.push(None)?;
        begun.push(false)?;
        cursors.push(0)?;
    }
    for i in 0..count {
        visit(alloc, q, &mut known, &mut begun, &mut cursors, i)?;
    }
    Ok(known)
}
