// How far numbers reach, and which are too large.
ghost use Rattle.std.specs.Prelude.{◌≡◌, ◌≤◌, ◌<◌, ◌^◌, ◌↔◌, length, slice_index, min, true, IsTrue, IfSome, IfNone};
ghost use Rattle.std.specs.Char.{is_ascii_digit};
ghost use Rattle.sp_lex.specs.Literals.{is_hex, number_len, digit_value, digits_value, number_value};

use crate::literals::byte_at;
use crate::runs::{digits_len, hex_digits_len};

/// One more than the largest number that can be written.
const LIMIT: u128 = 1 << 64;

/// Whether the text begins with `0x` and a digit behind it.
fn is_hex(text: &[u8]) -> bool
    ensures value { result ≡ is_hex text.now }
    ensures within { IsTrue result → 2 < length text.now }
{
    byte_at(text, 0) == b'0' && byte_at(text, 1) == b'x' && byte_at(text, 2).is_ascii_hexdigit()
}

/// The length of the number whose first digit begins the text.
#[tactic(auto, using(crate::proofs::Counts::first_passes), unfolding(crate::specs::Literals::number_len))]
pub(crate) fn number_len(text: &[u8]) -> usize
    requires some { 0 < length text.now }
    requires digit { is_ascii_digit (slice_index text.now 0) ≡ true }
    ensures value { result ≡ number_len text.now }
    ensures positive { 0 < result }
    ensures within { result ≤ length text.now }
{
    if is_hex(text) {
        2 + hex_digits_len(&text[2..])
    } else {
        digits_len(text)
    }
}

fn digit_value(byte: u8) -> u8
    ensures { result ≡ digit_value byte }
{
    if byte < b':' {
        byte.saturating_sub(b'0')
    } else if byte < b'a' {
        byte - 55
    } else {
        byte - 87
    }
}

/// The number of these digits, or the limit where it is larger.
fn value_below_limit(base: u128, digits: &[u8]) -> u128
    requires least { 1 ≤ base }
    requires most { base ≤ 16 }
    ensures { result ≡ min (digits_value base digits.now) (2 ^ 64) }
{
    let mut value = 0;
    for digit in digits {
        value = (value * base + digit_value(*digit) as u128).min(LIMIT);
    }
    value
}

/// The number that a token of digits is, decimal or `0x` and hexadecimal, or None where it is over 2^64 - 1.
#[tactic(auto, unfolding(crate::specs::Literals::number_value))]
pub fn number_of(text: &[u8]) -> Option<u64>
    ensures some { IfSome result (λ value. value ≡ number_value text.now) }
    ensures none { IfNone result (2 ^ 64 ≤ number_value text.now) }
{
    let value = if is_hex(text) {
        value_below_limit(16, &text[2..])
    } else {
        value_below_limit(10, text)
    };
    u64::try_from(value).ok()
}

/// Whether the number that is written so is over 2^64 - 1.
pub(crate) fn is_too_large(text: &[u8]) -> bool
    ensures { IsTrue result ↔ (2 ^ 64 ≤ number_value text.now) }
{
    number_of(text).is_none()
}
