// Integers from the digits and letters of a numeral.
ghost use Rattle.std.specs.Prelude.{◌≡◌, ◌≤◌, ◌+◌, ◌*◌, ◌^◌, nat_lt, IfSome, IfNone, MatchOption, IsTrue};
ghost use Rattle.std.specs.List.{list_all};
ghost use Rattle.std.specs.Char.{digit_value};
ghost use Rattle.sp_base.specs.declared.kinds.PKind.TheVariants.{Overflow};
ghost use Rattle.sp_numbers.specs.declared.width.Width.TheVariants.{W64};
ghost use Rattle.sp_numbers.specs.Numbers.{signed_or};
ghost use Rattle.sp_methods.specs.Conversions.{is_base, is_numeral, number, with_sign, to_uint, to_int};
ghost use Rattle.std.specs.Str.Parse.{starts_with_minus, without_leading_sign};

use sp_base::PKind;

/// The bases that a numeral can have.
fn is_base(base: u64) -> bool
    ensures { result ≡ is_base base }
{
    2 <= base && base <= 36
}

/// The value of an ASCII digit or letter, and 36 for any other byte.
fn digit_value(c: u8) -> u64
    ensures { result ≡ digit_value c }
{
    match c {
        b'0'..=b'9' => (c - b'0') as u64,
        b'A'..=b'Z' => (c - b'A') as u64 + 10,
        b'a'..=b'z' => (c - b'a') as u64 + 10,
        _ => 36,
    }
}

/// Whether each byte is a digit of the base.
fn are_digits(base: u64, digits: &[u8]) -> bool
    ensures { result ≡ list_all (λ c. nat_lt (digit_value c) base) digits.now }
{
    digits.iter().all(|c| digit_value(*c) < base)
}

/// Whether the bytes are one digit of the base or more.
fn is_numeral(base: u64, digits: &[u8]) -> bool
    ensures { result ≡ is_numeral base digits.now }
{
    !digits.is_empty() && are_digits(base, digits)
}

/// The number with one more digit, where it is below 2 to the power of 64.
fn with_digit(base: u64, number: u64, digit: u64) -> Option<u64>
    ensures { MatchOption result
        (2 ^ 64 ≤ number * base + digit)
        (λ more. more ≡ number * base + digit) }
{
    number.checked_mul(base)?.checked_add(digit)
}

/// The number that a numeral writes, where it is below 2 to the power of 64.
fn number(base: u64, digits: &[u8]) -> Option<u64>
    requires { IsTrue (is_base base) }
    ensures some { IfSome result (λ n. n ≡ number base digits.now) }
    ensures none { IfNone result (2 ^ 64 ≤ number base digits.now) }
{
    let mut number: u64 = 0;
    for c in digits {
        number = with_digit(base, number, digit_value(*c))?;
    }
    Some(number)
}

/// The unsigned integer that digits and letters of either case write in a base from 2 to 36. It takes no memory. Errors:
/// `BadConversion` where the bytes are no numeral of the base, or there is no such base, and else `Overflow` where the number
/// has more than 64 bits.
pub fn to_uint(x: &[u8], base: u64) -> Result<u64, PKind>
    ensures { result ≡ to_uint x.now base }
{
    if is_base(base) && is_numeral(base, x) {
        number(base, x).ok_or(PKind::Overflow)
    } else {
        Err(PKind::BadConversion)
    }
}

/// Whether the first byte is a minus.
fn has_minus(x: &[u8]) -> bool
    ensures { result ≡ starts_with_minus x.now }
{
    !x.is_empty() && x[0] == b'-'
}

/// The bytes behind one sign, or all where none stands first.
fn without_sign(x: &[u8]) -> &[u8]
    ensures { result.now ≡ without_leading_sign x.now }
{
    if !x.is_empty() && (x[0] == b'-' || x[0] == b'+') {
        &x[1..]
    } else {
        x
    }
}

/// The signed integer with this magnitude. Error: `Overflow` where there is none of 64 bits.
fn with_sign(minus: bool, n: u64) -> Result<i64, PKind>
    ensures { result ≡ signed_or Overflow W64 (with_sign minus n) }
{
    if n < 1 << 63 {
        Ok(if minus { -(n as i64) } else { n as i64 })
    } else if minus && n == 1 << 63 {
        Ok(i64::MIN)
    } else {
        Err(PKind::Overflow)
    }
}

/// The signed integer that digits and letters of either case write in a base from 2 to 36, behind one sign or none. It takes no
/// memory. Errors: `BadConversion` where the bytes are no such numeral, or there is no such base, and else `Overflow` where no
/// signed integer of 64 bits is the number.
pub fn to_int(x: &[u8], base: u64) -> Result<i64, PKind>
    ensures { result ≡ to_int x.now base }
{
    let digits = without_sign(x);
    if is_base(base) && is_numeral(base, digits) {
        match number(base, digits) {
            Some(n) => with_sign(has_minus(x), n),
            None => Err(PKind::Overflow),
        }
    } else {
        Err(PKind::BadConversion)
    }
}
