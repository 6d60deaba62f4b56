// Whether a regular expression has the empty word.
ghost use Rattle.std.specs.Prelude.{◌≡◌, ◌≤◌, ℕ, [], true, false};
ghost use Rattle.sp_regex.specs.Trees.{sequence, alternatives, repeat};
ghost use Rattle.sp_regex.specs.Language.{InL, AtMost};

use sp_regex::{Count, Regex, Shape};

/// Whether no number is within the bounds.
fn is_impossible(count: Count) -> bool
    ensures none { result ≡ true → (n : ℕ) → count.least ≤ n → AtMost n count.most → ⊥ }
    ensures some { result ≡ false → AtMost count.least count.most }
{
    match count.most {
        Some(most) => most < count.least,
        None => false,
    }
}

/// Whether all parts have it.
#[cycle(has_empty_word)]
fn all_have(parts: &[Regex]) -> bool
    ensures has { result ≡ true → InL (sequence parts.now) [] }
    ensures misses { result ≡ false → InL (sequence parts.now) [] → ⊥ }
{
    for part in parts {
        if !has_empty_word(part) {
            return false;
        }
    }
    true
}

/// Whether one of the parts has it.
#[cycle(has_empty_word)]
fn one_has(parts: &[Regex]) -> bool
    ensures has { result ≡ true → InL (alternatives parts.now) [] }
    ensures misses { result ≡ false → InL (alternatives parts.now) [] → ⊥ }
{
    for part in parts {
        if has_empty_word(part) {
            return true;
        }
    }
    false
}

/// Whether a repetition has it.
#[cycle(has_empty_word)]
pub fn repetition_has(part: &Regex, count: Count) -> bool
    ensures has { result ≡ true → InL (repeat count.least count.most part.now) [] }
    ensures misses { result ≡ false → InL (repeat count.least count.most part.now) [] → ⊥ }
{
    if is_impossible(count) {
        return false;
    }
    if count.least == 0 {
        return true;
    }
    has_empty_word(part)
}

/// Whether the empty word is in the language.
#[cycle(has_empty_word)]
pub fn has_empty_word(regex: &Regex) -> bool
    ensures has { result ≡ true → InL regex.now [] }
    ensures misses { result ≡ false → InL regex.now [] → ⊥ }
{
    match regex.shape() {
        Shape::Byte(_) | Shape::Any | Shape::Class(_, _) => false,
        Shape::Sequence(parts) => all_have(parts),
        Shape::Alternatives(parts) => one_has(parts),
        Shape::Repeat(part, count) => repetition_has(part, count),
        Shape::Literal(bytes) => bytes.is_empty(),
    }
}
