// What a loop repeats. Loops in one another are one loop, so that levels which add no bytes add no jumps.
ghost use Rattle.std.specs.Prelude.{◌≡◌, ◌≤◌, ◌==◌, ◌||◌, ℕ, List, true};
ghost use Rattle.sp_regex.specs.Trees.{syntax_size};
ghost use Rattle.sp_regex.specs.Language.{InL, AtMost};
ghost use Rattle.sp_match.specs.Parts.{Many};

use sp_regex::{Count, Regex, Shape};

/// A part that is repeated without a greatest number, and whether it may be missing.
#[derive(Clone, Copy)]
pub struct Rounds<'r> {
    pub part: &'r Regex,
    pub may_miss: bool,
}

/// Whether the bounds allow one part, and no fewer but none.
fn allows_one(count: Count) -> bool
    ensures { result ≡ true → (count.least ≤ 1) × AtMost 1 count.most }
{
    count.least <= 1
        && match count.most {
            Some(most) => most >= 1,
            None => true,
        }
}

/// Whether a loop may be missing whose part is a repetition with these bounds.
fn misses(may_miss: bool, count: Count) -> bool
    ensures { result ≡ (may_miss || (count.least == 0)) }
{
    may_miss || count.least == 0
}

/// The innermost part whose loop has the same words.
pub fn rounds_of<'r>(part: &'r Regex, may_miss: bool) -> Rounds<'r>
    ensures forth { (w : List ℕ) → Many may_miss (InL part.now) w
        → Many (result.may_miss) (InL (result.part.now)) w }
    ensures back { (w : List ℕ) → Many (result.may_miss) (InL (result.part.now)) w
        → Many may_miss (InL part.now) w }
    ensures size { syntax_size (result.part.now) ≤ syntax_size part.now }
{
    match part.shape() {
        Shape::Sequence(parts) => {
            if parts.len() == 1 {
                rounds_of(&parts[0], may_miss)
            } else {
                Rounds { part, may_miss }
            }
        }
        Shape::Alternatives(parts) => {
            if parts.len() == 1 {
                rounds_of(&parts[0], may_miss)
            } else {
                Rounds { part, may_miss }
            }
        }
        Shape::Repeat(inner, count) => {
            if allows_one(count) {
                rounds_of(inner, misses(may_miss, count))
            } else {
                Rounds { part, may_miss }
            }
        }
        Shape::Byte(_) | Shape::Any | Shape::Class(_, _) | Shape::Literal(_) => {
            Rounds { part, may_miss }
        }
    }
}
