// What holds of settled answers.
ghost use Rattle.std.specs.Prelude.{◌≡◌, ◌<◌, ℕ, List, Option, None};
ghost use Rattle.sp_solver.specs.Rounds.{IsSettled};
ghost use Rattle.sp_solver.specs.Told.{told};
ghost use Rattle.sp_dependencies.specs.Tries.{tries};
ghost use Rattle.sp_dependencies.specs.Endless.{IsEndless};

use crate::dependent::Dependent;

/// A declaration has no answer exactly where names lead from it to one that is made of itself.
pub fn none_is_endless<Q: Dependent>(q: &Q)
    ensures none { (answers : List (Option Q.Answer)) → IsSettled (tries (Q.amount q.now)
        (Q.needs q.now) (Q.gives q.now)) (told answers) → (i : ℕ) → i < Q.amount q.now
        → told answers i ≡ None → IsEndless (Q.needs q.now) i }
    ensures endless { (answers : List (Option Q.Answer)) → IsSettled (tries (Q.amount q.now)
        (Q.needs q.now) (Q.gives q.now)) (told answers) → (i : ℕ) → i < Q.amount q.now
        → IsEndless (Q.needs q.now) i → told answers i ≡ None }
{
    let _ = q;
}
