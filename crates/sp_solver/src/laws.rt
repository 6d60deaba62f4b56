// What holds of settled answers.
ghost use Rattle.std.specs.Prelude.{◌≡◌, ℕ, Option, None};
ghost use Rattle.sp_solver.specs.Rounds.{IsSettled, round};

use crate::attempt::Questions;

/// Questions have one settled list of answers.
pub fn settled_is_one<Q: Questions>(q: &Q)
    ensures { (f g : ℕ → Option Q.Answer) → IsSettled (Q.tries q.now) f
        → IsSettled (Q.tries q.now) g → (i : ℕ) → f i ≡ g i }
{
    let _ = q;
}

/// A question without an answer in a settled list is answered by no round.
pub fn no_round_answers<Q: Questions>(q: &Q)
    ensures { (f : ℕ → Option Q.Answer) → IsSettled (Q.tries q.now) f → (i : ℕ) → f i ≡ None
        → (k : ℕ) → round (Q.tries q.now) k i ≡ None }
{
    let _ = q;
}
