// Operators on unsigned integers.
ghost use Rattle.std.specs.Prelude.{◌≡◌, ◌-◌, ◌%◌, ◌^◌, ◌<◌, pos, MatchOption, Err, IfOk, ℕ};
ghost use Rattle.sp_base.specs.declared.kinds.PKind.TheVariants.{Overflow};
ghost use Rattle.sp_numbers.specs.Numbers.{width_bits, unsigned_or, unsigned_arithmetic, bitwise, complement, shifted};

use crate::operators::{Arithmetic, BitOperator, Shift};
use crate::width::{Width, in_unsigned};
use sp_base::PKind;

/// The whole number that an operator was found to have, where it is an unsigned integer of the width.
fn kept(width: Width, found: Option<u64>, none: PKind) -> Result<u64, PKind>
    ensures value { MatchOption found (result ≡ Err none)
        (λ value. result ≡ unsigned_or Overflow width (pos value)) }
    ensures in_width { IfOk result (λ number. number < 2 ^ width_bits width) }
{
    match found {
        Some(value) => in_unsigned(PKind::Overflow, width, value),
        None => Err(none),
    }
}

/// The result of an operator on two unsigned integers of the width. Errors: `Overflow` where the whole number
/// that it would be is no unsigned integer of the width, `DivZero` for a division by 0.
pub fn unsigned_arithmetic(operator: Arithmetic, width: Width, a: u64, b: u64) -> Result<u64, PKind>
    ensures value { result ≡ unsigned_arithmetic operator width a b }
    ensures in_width { IfOk result (λ number. number < 2 ^ width_bits width) }
{
    match operator {
        Arithmetic::Add => kept(width, a.checked_add(b), PKind::Overflow),
        Arithmetic::Subtract => kept(width, a.checked_sub(b), PKind::Overflow),
        Arithmetic::Multiply => kept(width, a.checked_mul(b), PKind::Overflow),
        Arithmetic::Divide => kept(width, a.checked_div(b), PKind::DivZero),
        Arithmetic::Remainder => kept(width, a.checked_rem(b), PKind::DivZero),
    }
}

/// The result of an operator on the bits of two unsigned integers of the width.
pub fn bitwise(operator: BitOperator, a: u64, b: u64) -> u64
    ensures value { result ≡ bitwise operator a b }
    ensures in_width { (bits : ℕ) → a < 2 ^ bits → b < 2 ^ bits → result < 2 ^ bits }
{
    match operator {
        BitOperator::And => a & b,
        BitOperator::Or => a | b,
        BitOperator::Xor => a ^ b,
    }
}

/// The unsigned integer of the width whose bits are the other way round.
pub fn complement(width: Width, a: u64) -> u64
    requires { a < 2 ^ width_bits width }
    ensures value { result ≡ complement width a }
    ensures in_width { result < 2 ^ width_bits width }
{
    width.greatest() - a
}

/// The number without the bits past the width.
fn without_bits_past(width: Width, value: u64) -> u64
    ensures { result ≡ value % 2 ^ width_bits width }
{
    value & width.greatest()
}

/// The unsigned integer of the width with its bits moved by so many places; those past the width are lost.
/// Error: `BadShift` where the width has no more bits than that.
pub fn shift(direction: Shift, width: Width, a: u64, count: u64) -> Result<u64, PKind>
    ensures value { result ≡ shifted direction width a count }
    ensures in_width { a < 2 ^ width_bits width
        → IfOk result (λ number. number < 2 ^ width_bits width) }
{
    if width.bits() as u64 <= count {
        return Err(PKind::BadShift);
    }
    match direction {
        Shift::Left => Ok(without_bits_past(width, a << count)),
        Shift::Right => Ok(a >> count),
    }
}
