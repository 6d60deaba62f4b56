// Questions and tries to answer them.
ghost use Rattle.std.specs.Prelude.{◌≡◌, ◌<◌, ◌≤◌, ℕ, Option, None, length, OnOk, IfOk};
ghost use Rattle.sp_solver.specs.declared.attempt.Attempt.{Attempt};
ghost use Rattle.sp_solver.specs.declared.attempt.Attempt.TheVariants.{Waits};
ghost use Rattle.sp_solver.specs.Rounds.{Within, IsFair};
ghost use Rattle.sp_solver.specs.Told.{told};

use sp_base::NoMemory;
use std::alloc::Global;

/// What a try to answer a question gives.
#[derive(Drop)]
pub enum Attempt<A> {
    /// Its answer.
    Done(A),
    /// The number of another question, which has no answer yet.
    Waits(usize),
}

/// Questions by number, from 0. The answer of each hangs on those of others, in any order.
pub trait Questions {
    type Answer: Drop;

    // How many there are.
    ghost amount: { Self → ℕ };

    // What a try gives where these answers are known.
    ghost tries: { Self → (ℕ → Option Self.Answer) → ℕ → Attempt Self.Answer };

    // That all for which a question asks before this place is answered.
    ghost ready: { Self → (ℕ → Option Self.Answer) → ℕ → ℕ → Type 0 };

    /// How many there are.
    fn count(&self) -> usize
        ensures { result ≡ amount self.now };

    /// Tries to answer a question where `known` has the answers so far. The cursor is the place up to which what it asks
    /// for was found to be answered, so that a later try need not look at it again.
    fn attempt(
        &self,
        alloc: Global,
        known: &[Option<Self::Answer>],
        i: usize,
        cursor: &mut usize,
    ) -> Result<Attempt<Self::Answer>, NoMemory>
        requires here { i < amount self.now }
        requires all { length known.now ≡ amount self.now }
        requires begun { ready self.now (told known.now) i cursor.old }
        ensures tried { IfOk result (λ t. t ≡ tries self.now (told known.now) i) }
        ensures begun { OnOk result (ready self.now (told known.now) i cursor.new) };

    // A try asks for nothing that it does not name.
    ghost fair: { (q : Self) → IsFair (tries q) };

    // Where there is no question, nothing is answered; and no question waits for one that there isn't.
    ghost outside: { (q : Self) (f : ℕ → Option Self.Answer) (i : ℕ) → amount q ≤ i
        → f i ≡ None → (j : ℕ) × (tries q f i ≡ Waits j) };

    ghost inside: { (q : Self) (f : ℕ → Option Self.Answer) (i j : ℕ) → i < amount q
        → tries q f i ≡ Waits j → j < amount q };

    // A cursor begins at 0, and stays right where more is known.
    ghost at_first: { (q : Self) (f : ℕ → Option Self.Answer) (i : ℕ) → ready q f i 0 };

    ghost later: { (q : Self) (f g : ℕ → Option Self.Answer) (i m : ℕ) → Within f g
        → ready q f i m → ready q g i m };
}
