// What the definition of a verdict comes to, as clauses of functions that do nothing.
ghost use Rattle.std.specs.Prelude.{◌≡◌, ℕ, ◌++◌, List, Bool, false};
ghost use Rattle.sp_regex.specs.Trees.{Syntax};
ghost use Rattle.sp_match.specs.Matching.{IsVerdict, IsTaken};
ghost use Rattle.sp_match.specs.declared.verdict.Verdict.{Verdict as Told};

/// There is one verdict on the same bytes of the same set, with the same end.
pub fn one_verdict()
    ensures { (tokens : List Syntax) (w : List ℕ) (ended : Bool) (first second : Told)
        → IsVerdict tokens w ended first → IsVerdict tokens w ended second → first ≡ second }
{}

/// A verdict that doesn't wait for more bytes stays the same, whatever bytes follow.
pub fn steady_verdict()
    ensures { (tokens : List Syntax) (w t : List ℕ) (ended : Bool) (told : Told)
        → IsTaken told → IsVerdict tokens w false told → IsVerdict tokens (w ++ t) ended told }
{}
