// What the least of noted faults is.
ghost use Rattle.std.specs.Prelude.{◌≤◌, ℕ, List, Option, None, Bool, true};
ghost use Rattle.sp_rules.specs.declared.fault.Fault.{Fault};
ghost use Rattle.sp_rules.specs.Rules.{rule_group};
ghost use Rattle.sp_rules.specs.Least.{noted, checked, IsLeast, Among, of_groups};

/// What is noted of a list of faults is the least of them, and nothing where there is none.
pub fn least_of_noted()
    ensures { (fs : List Fault) → IsLeast (Among fs) (noted None fs) }
{}

/// What is noted of tests, each with the fault where it holds, is the least of those whose tests hold.
pub fn least_of_checked()
    ensures { (cs : List (Bool × Fault)) → IsLeast (λ f. Among cs (true, f)) (checked None cs) }
{}

/// Of the rules of the first `k` groups alone, the least is that of all rules where it is of such a group, and else none of
/// theirs is broken.
pub fn least_of_groups()
    ensures { (k : ℕ) (cs : List (Bool × Fault))
        → IsLeast (λ f. Among cs (true, f) × (rule_group f.rule ≤ k))
        (of_groups k (checked None cs)) }
{}
