// Integers from bytes.
ghost use Rattle.std.specs.Prelude.{◌≡◌, ◌≤◌, ◌<◌, ◌*◌, ◌^◌, length, true, false};
ghost use Rattle.sp_value.specs.Integers.{width_of_bytes, unsigned_of, signed_of, integer_of, IsWidth};

use crate::value::Value;
use sp_numbers::Width;

/// The number of up to 8 bytes without a sign: the first byte counts most, or least where `little`. Takes no memory.
pub fn read_unsigned(bytes: &[u8], little: bool) -> u64
    requires { length bytes.now ≤ 8 }
    ensures value { result ≡ unsigned_of little bytes.now }
    ensures range { result < 256 ^ length bytes.now }
{
    if little {
        read_little(bytes)
    } else {
        read_big(bytes)
    }
}

fn read_big(bytes: &[u8]) -> u64
    requires { length bytes.now ≤ 8 }
    ensures value { result ≡ unsigned_of false bytes.now }
    ensures range { result < 256 ^ length bytes.now }
{
    let mut number: u64 = 0;
    for byte in bytes {
        number = number * 256 + *byte as u64;
    }
    number
}

fn read_little(bytes: &[u8]) -> u64
    requires { length bytes.now ≤ 8 }
    ensures value { result ≡ unsigned_of true bytes.now }
    ensures range { result < 256 ^ length bytes.now }
{
    let mut number: u64 = 0;
    for i in (0..bytes.len()).rev() {
        number = number * 256 + bytes[i] as u64;
    }
    number
}

/// Half of 256 to the power of a count of 1 to 8 bytes.
fn half_of(count: usize) -> u64
    requires some { 0 < count }
    requires few { count ≤ 8 }
    ensures value { 2 * result ≡ 256 ^ count }
    ensures small { result ≤ 2 ^ 63 }
{
    match count {
        1 => 0x80,
        2 => 0x8000,
        3 => 0x80_0000,
        4 => 0x8000_0000,
        5 => 0x80_0000_0000,
        6 => 0x8000_0000_0000,
        7 => 0x80_0000_0000_0000,
        _ => 0x8000_0000_0000_0000,
    }
}

/// The number in two's complement, of which `half` is the least that has the sign.
fn with_sign(number: u64, half: u64) -> i64
    requires below { number < 2 * half }
    requires half { half ≤ 2 ^ 63 }
    ensures { result ≡ signed_of (2 * half) number }
{
    if number < half {
        number as i64
    } else {
        -((half - 1 - (number - half)) as i64) - 1
    }
}

/// What a number of 1 to 8 bytes is in two's complement over just these bytes. Takes no memory.
pub fn signed_number(count: usize, number: u64) -> i64
    requires some { 0 < count }
    requires few { count ≤ 8 }
    requires below { number < 256 ^ count }
    ensures { result ≡ signed_of (256 ^ count) number }
{
    with_sign(number, half_of(count))
}

/// The width of an integer of so many bytes.
fn width_of_bytes(count: usize) -> Width
    requires { IsWidth count }
    ensures { result ≡ width_of_bytes count }
{
    match count {
        1 => Width::W8,
        2 => Width::W16,
        4 => Width::W32,
        _ => Width::W64,
    }
}

/// The integer of 1, 2, 4 or 8 bytes, of the width that they have: its first byte counts most, or least where
/// `little`; `signed` is in two's complement. Takes no memory.
#[tactic(auto, using(crate::proofs::IntegerRanges::unsigned_fits, crate::proofs::IntegerRanges::signed_fits))]
pub fn read_int(bytes: &[u8], little: bool, signed: bool) -> Value
    requires { IsWidth (length bytes.now) }
    ensures { result ≡ integer_of little signed bytes.now }
{
    let number = read_unsigned(bytes, little);
    let width = width_of_bytes(bytes.len());
    if signed {
        Value::int(width, signed_number(bytes.len(), number))
    } else {
        Value::uint(width, number)
    }
}
