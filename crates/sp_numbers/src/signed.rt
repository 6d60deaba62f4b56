// Operators on signed integers.
ghost use Rattle.std.specs.Prelude.{◌≡◌, ◌+ℤ◌, ◌-ℤ◌, ◌*ℤ◌, neg_ℤ, int_div, int_rem, MatchOption, Err, IfOk, IsTrue};
ghost use Rattle.std.specs.Int.{w64, IsNonZero};
ghost use Rattle.sp_base.specs.declared.kinds.PKind.TheVariants.{Overflow};
ghost use Rattle.sp_numbers.specs.Numbers.{fits_signed, signed_or, signed_arithmetic};

use crate::operators::Arithmetic;
use crate::width::{Width, in_signed};
use sp_base::PKind;

/// The whole number that an operator was found to have, where it is a signed integer of the width.
fn kept(width: Width, found: Option<i64>) -> Result<i64, PKind>
    ensures value { MatchOption found (result ≡ Err Overflow)
        (λ value. result ≡ signed_or Overflow width value) }
    ensures in_width { IfOk result (λ number. IsTrue (fits_signed width number)) }
{
    match found {
        Some(value) => in_signed(PKind::Overflow, width, value),
        None => Err(PKind::Overflow),
    }
}

fn sum(width: Width, a: i64, b: i64) -> Result<i64, PKind>
    ensures value { result ≡ signed_or Overflow width (a +ℤ b) }
    ensures in_width { IfOk result (λ number. IsTrue (fits_signed width number)) }
{
    kept(width, a.checked_add(b))
}

fn difference(width: Width, a: i64, b: i64) -> Result<i64, PKind>
    ensures value { result ≡ signed_or Overflow width (a -ℤ b) }
    ensures in_width { IfOk result (λ number. IsTrue (fits_signed width number)) }
{
    kept(width, a.checked_sub(b))
}

fn product(width: Width, a: i64, b: i64) -> Result<i64, PKind>
    ensures value { result ≡ signed_or Overflow width (a *ℤ b) }
    ensures in_width { IfOk result (λ number. IsTrue (fits_signed width number)) }
{
    kept(width, a.checked_mul(b))
}

fn quotient(width: Width, a: i64, b: i64) -> Result<i64, PKind>
    requires { IsNonZero w64 b }
    ensures value { result ≡ signed_or Overflow width (int_div a b) }
    ensures in_width { IfOk result (λ number. IsTrue (fits_signed width number)) }
{
    kept(width, a.checked_div(b))
}

fn remainder(width: Width, a: i64, b: i64) -> Result<i64, PKind>
    requires { IsNonZero w64 b }
    ensures value { result ≡ signed_or Overflow width (int_rem a b) }
    ensures in_width { IfOk result (λ number. IsTrue (fits_signed width number)) }
{
    in_signed(PKind::Overflow, width, a.wrapping_rem(b))
}

/// The result of an operator on two signed integers of the width. Errors: `Overflow` where the whole number
/// that it would be is no signed integer of the width, `DivZero` for a division by 0.
pub fn signed_arithmetic(operator: Arithmetic, width: Width, a: i64, b: i64) -> Result<i64, PKind>
    ensures value { result ≡ signed_arithmetic operator width a b }
    ensures in_width { IfOk result (λ number. IsTrue (fits_signed width number)) }
{
    match operator {
        Arithmetic::Add => sum(width, a, b),
        Arithmetic::Subtract => difference(width, a, b),
        Arithmetic::Multiply => product(width, a, b),
        Arithmetic::Divide if b == 0 => Err(PKind::DivZero),
        Arithmetic::Divide => quotient(width, a, b),
        Arithmetic::Remainder if b == 0 => Err(PKind::DivZero),
        Arithmetic::Remainder => remainder(width, a, b),
    }
}

/// The number with the other sign. Error: `Overflow` where it is no signed integer of the width.
pub fn negate_signed(width: Width, a: i64) -> Result<i64, PKind>
    ensures value { result ≡ signed_or Overflow width (neg_ℤ a) }
    ensures in_width { IfOk result (λ number. IsTrue (fits_signed width number)) }
{
    kept(width, a.checked_neg())
}
