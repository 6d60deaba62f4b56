// The declarations as questions.
ghost use Rattle.std.specs.Prelude.{◌≡◌, None, length, take, is_some, IfOk};
ghost use Rattle.sp_solver.specs.Rounds.{IsSettled};
ghost use Rattle.sp_solver.specs.Told.{told};
ghost use Rattle.sp_dependencies.specs.Tries.{first_open, tries};

use crate::dependent::Dependent;
use sp_base::NoMemory;
use sp_solver::{Attempt, Questions, answers};
use std::alloc::Global;

fn is_known<A: Drop>(known: &[Option<A>], i: usize) -> bool
    ensures { result ≡ is_some (told known.now i) }
{
    match known.get(i) {
        Some(Some(_)) => true,
        _ => false,
    }
}

/// The first of some declarations that has no answer; all before the cursor have one.
#[tactic(auto, using(crate::proofs::Opens::open_step_at, crate::proofs::Opens::open_found_at, crate::proofs::Opens::open_all_at))]
fn next_open<A: Drop>(list: &[usize], known: &[Option<A>], cursor: &mut usize) -> Option<usize>
    requires { first_open (told known.now) (take cursor.old list.now) ≡ None }
    ensures open { result ≡ first_open (told known.now) list.now }
    ensures begun { first_open (told known.now) (take cursor.new list.now) ≡ None }
{
    while *cursor < list.len() {
        let next = list[*cursor];
        if !is_known(known, next) {
            return Some(next);
        }
        *cursor += 1;
    }
    None
}

/// A question for each declaration: what its answer is.
#[derive(Drop)]
struct System<'a, Q: Dependent> {
    of: &'a Q,
}

impl<'a, Q: Dependent> Questions for System<'a, Q> {
    ghost use Rattle.sp_dependencies.specs.Tries.{tries, ready};
    ghost use Rattle.sp_dependencies.specs.TryLaws.{is_fair, is_outside, is_inside, is_first, is_later};

    type Answer = Q::Answer;

    ghost amount = { λ s. Q.amount s.of.now };

    ghost tries = { λ s. tries (Q.amount s.of.now) (Q.needs s.of.now) (Q.gives s.of.now) };

    ghost ready = { λ s. ready (Q.needs s.of.now) };

    fn count(&self) -> usize {
        self.of.count()
    }

    fn attempt(
        &self,
        alloc: Global,
        known: &[Option<Q::Answer>],
        i: usize,
        cursor: &mut usize,
    ) -> Result<Attempt<Q::Answer>, NoMemory> {
        match next_open(self.of.needs(i), known, cursor) {
            Some(next) => Ok(Attempt::Waits(next)),
            None => Ok(Attempt::Done(self.of.answer(alloc, known, i)?)),
        }
    }

    ghost fair = { λ s. is_fair (Q.amount s.of.now) (Q.needs s.of.now)
        (Q.gives s.of.now) (Q.hangs s.of.now) };

    ghost outside = { λ s. is_outside (Q.amount s.of.now) (Q.needs s.of.now) (Q.gives s.of.now) };

    ghost inside = { λ s. is_inside (Q.amount s.of.now) (Q.needs s.of.now)
        (Q.gives s.of.now) (Q.in_range s.of.now) };

    ghost at_first = { λ s. is_first (Q.amount s.of.now) (Q.needs s.of.now) (Q.gives s.of.now) };

    ghost later = { λ s. is_later (Q.amount s.of.now) (Q.needs s.of.now) (Q.gives s.of.now) };
}

/// The answers of all declarations, by number; none where names lead to one that is made of itself. The time is linear in
/// the names, and a chain of any length takes none of the machine's stack.
pub fn answers_of<Q: Dependent>(alloc: Global, of: &Q) -> Result<Vec<Option<Q::Answer>>, NoMemory>
    ensures settled { IfOk result (λ v. IsSettled (tries (Q.amount of.now) (Q.needs of.now)
        (Q.gives of.now)) (told v.items)) }
    ensures all { IfOk result (λ v. length v.items ≡ Q.amount of.now) }
{
    answers(alloc, &System { of })
}
