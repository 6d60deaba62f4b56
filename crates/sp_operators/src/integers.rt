// The operators on integers and iterators, on values.
ghost use Rattle.std.specs.Prelude.{◌≡◌, ◌^◌, ◌<◌, IsTrue};
ghost use Rattle.sp_numbers.specs.Numbers.{width_bits, unsigned_arithmetic, bitwise, shifted};
ghost use Rattle.sp_value.specs.Val.{uint, place};
ghost use Rattle.sp_operators.specs.Operands.{are_integers, are_unsigned};
ghost use Rattle.sp_operators.specs.Operators.{wider, value_or_error, signed_result, arithmetic, bit_operation, shift_by, place_behind};

use sp_base::PKind;
use sp_numbers::{Arithmetic, BitOperator, Shift, Width};
use sp_value::{Level, Value};

/// The place behind the last byte that an input can have.
const LAST_PLACE: u64 = 1 << 63;

/// The wider of two widths.
fn wider(v: Width, w: Width) -> Width
    ensures { result ≡ wider v w }
{
    if v.bits() < w.bits() { w } else { v }
}

fn of_unsigned(operator: Arithmetic, v: Width, m: u64, w: Width, n: u64) -> Result<Value, PKind>
    ensures { result ≡ value_or_error (uint (wider v w))
        (unsigned_arithmetic operator (wider v w) m n) }
{
    let width = wider(v, w);
    let number = sp_numbers::unsigned_arithmetic(operator, width, m, n)?;
    Ok(Value::uint(width, number))
}

#[tactic(auto, unfolding(crate::specs::Operators::signed_result))]
fn of_signed(operator: Arithmetic, v: Width, m: i64, w: Width, n: i64) -> Result<Value, PKind>
    ensures { result ≡ signed_result operator v m w n }
{
    let width = wider(v, w);
    let number = sp_numbers::signed_arithmetic(operator, width, m, n)?;
    Ok(Value::int(width, number))
}

/// `+`, `-`, `*`, `/` or `%` of two integers of one signedness. Errors: `Overflow` and `DivZero`.
pub(crate) fn arithmetic(operator: Arithmetic, a: &Value, b: &Value) -> Result<Value, PKind>
    requires { IsTrue (are_integers a.now b.now) }
    ensures { result ≡ arithmetic operator a.now b.now }
{
    match (a.level(), b.level()) {
        (Level::Uint(v, m), Level::Uint(w, n)) => of_unsigned(operator, v, m, w, n),
        (Level::Int(v, m), Level::Int(w, n)) => of_signed(operator, v, m, w, n),
        _ => unreachable!(),
    }
}

fn of_bits(operator: BitOperator, v: Width, m: u64, w: Width, n: u64) -> Value
    requires left { m < 2 ^ width_bits v }
    requires right { n < 2 ^ width_bits w }
    ensures { result ≡ uint (wider v w) (bitwise operator m n) }
{
    Value::uint(wider(v, w), sp_numbers::bitwise(operator, m, n))
}

/// `&`, `|` or `^` of two unsigned integers.
pub(crate) fn bit_operation(operator: BitOperator, a: &Value, b: &Value) -> Result<Value, PKind>
    requires { IsTrue (are_unsigned a.now b.now) }
    ensures { result ≡ bit_operation operator a.now b.now }
{
    match (a.level(), b.level()) {
        (Level::Uint(v, m), Level::Uint(w, n)) => Ok(of_bits(operator, v, m, w, n)),
        _ => unreachable!(),
    }
}

fn of_shift(direction: Shift, width: Width, m: u64, count: u64) -> Result<Value, PKind>
    requires { m < 2 ^ width_bits width }
    ensures { result ≡ value_or_error (uint width) (shifted direction width m count) }
{
    let number = sp_numbers::shift(direction, width, m, count)?;
    Ok(Value::uint(width, number))
}

/// `<<` or `>>` of two unsigned integers. Error: `BadShift`.
pub(crate) fn shift_by(direction: Shift, a: &Value, b: &Value) -> Result<Value, PKind>
    requires { IsTrue (are_unsigned a.now b.now) }
    ensures { result ≡ shift_by direction a.now b.now }
{
    match (a.level(), b.level()) {
        (Level::Uint(width, m), Level::Uint(_, count)) => of_shift(direction, width, m, count),
        _ => unreachable!(),
    }
}

/// The iterator so many bytes farther on. Error: `Overflow` where its place would be over `LAST_PLACE`.
pub(crate) fn place_behind(at: u64, count: u64) -> Result<Value, PKind>
    ensures { result ≡ value_or_error place (place_behind at count) }
{
    match at.checked_add(count) {
        Some(place) if place <= LAST_PLACE => Ok(Value::place(place)),
        _ => Err(PKind::Overflow),
    }
}
