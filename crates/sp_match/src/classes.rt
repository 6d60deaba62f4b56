// Sets of bytes, by a truth value for each of the 256.
ghost use Rattle.std.specs.Prelude.{◌≡◌, ℕ, ◌<◌, ◌&&◌, ◌==◌, false, true, [], length, nat_lt, IfOk};
ghost use Rattle.sp_regex.specs.Bytes.{is_covered, is_within};
ghost use Rattle.sp_regex.specs.Syntax.{belongs};
ghost use Rattle.sp_match.specs.Sets.{class_has};

use sp_base::NoMemory;
use sp_regex::ByteRange;
use std::alloc::Global;

/// Whether a byte is in one of the ranges.
fn is_in(ranges: &[ByteRange], byte: u8) -> bool
    ensures { result ≡ is_covered ranges.now byte }
{
    for range in ranges {
        if range.contains(byte) {
            return true;
        }
    }
    false
}

/// The byte alone.
pub fn one_byte(alloc: Global, byte: u8) -> Result<Vec<bool>, NoMemory>
    ensures { IfOk result (λ set. (p : ℕ) → class_has set.items p ≡ (p == byte)) }
{
    let mut set = Vec::new(alloc);
    for _ in 0..byte {
        set.push(false)?;
    }
    set.push(true)?;
    Ok(set)
}

/// All bytes: those in none of no ranges.
pub fn all_bytes(alloc: Global) -> Result<Vec<bool>, NoMemory>
    ensures { IfOk result (λ set. (p : ℕ) → class_has set.items p
        ≡ (nat_lt p 256 && belongs true [] p)) }
{
    bytes_of_class(alloc, true, &[])
}

/// The bytes of a class.
pub fn bytes_of_class(
    alloc: Global,
    negated: bool,
    ranges: &[ByteRange],
) -> Result<Vec<bool>, NoMemory>
    ensures { IfOk result (λ set. (p : ℕ)
        → class_has set.items p ≡ (nat_lt p 256 && belongs negated ranges.now p)) }
{
    let mut set = Vec::new(alloc);
    for i in 0..256usize {
        let inside = is_in(ranges, i as u8);
        set.push(if negated { !inside } else { inside })?;
    }
    Ok(set)
}

/// Whether some byte is in the class.
pub fn has_byte(bytes: &[bool]) -> bool
    ensures some { result ≡ true → (x : ℕ) × (class_has bytes.now x ≡ true) }
    ensures none { result ≡ false → (x : ℕ) → class_has bytes.now x ≡ false }
{
    for inside in bytes {
        if *inside {
            return true;
        }
    }
    false
}

/// Whether a byte is in the class.
pub fn contains(bytes: &[bool], byte: u8) -> bool
    ensures { result ≡ class_has bytes.now byte }
{
    let byte = usize::from(byte);
    byte < bytes.len() && bytes[byte]
}
