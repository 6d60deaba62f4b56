// The operators between two values.
ghost use Rattle.std.specs.Prelude.{◌≡◌, IfOk, MatchResult, IsTrue, Ok};
ghost use Rattle.sp_value.specs.Changes.{IsBytes, IsText, with_bytes, with_text};
ghost use Rattle.sp_operators.specs.Outcomes.{Answers};
ghost use Rattle.sp_operators.specs.Operands.{are_added, are_booleans, are_joined, takes, takes_memory};
ghost use Rattle.sp_operators.specs.Operators.{added, binary, both_hold, either_holds};

use crate::contains::is_in;
use crate::fault::{ValueFault, told};
use crate::integers::{arithmetic, bit_operation, place_behind, shift_by};
use sp_base::{NoMemory, PKind, or_drop};
use sp_numbers::{Arithmetic, BitOperator, Shift};
use sp_value::{Level, Value, compare};
use sp_words::BinaryOp;

/// Bytes with more behind them.
fn more_bytes(mut a: Value, more: &[u8]) -> Result<Value, NoMemory>
    requires { IsBytes a }
    ensures { IfOk result (λ value. value ≡ with_bytes a more.now) }
{
    or_drop!(a.append_bytes(more); a);
    Ok(a)
}

/// A text with more behind it.
fn more_text(mut a: Value, more: &str) -> Result<Value, NoMemory>
    requires { IsText a }
    ensures { IfOk result (λ value. value ≡ with_text a more.now) }
{
    or_drop!(a.append_str(more); a);
    Ok(a)
}

fn with_bytes(a: &Value, more: &[u8]) -> Result<Value, NoMemory>
    requires { IsBytes a.now }
    ensures { IfOk result (λ value. value ≡ with_bytes a.now more.now) }
{
    let copied = a.copy()?;
    more_bytes(copied, more)
}

fn with_text(a: &Value, more: &str) -> Result<Value, NoMemory>
    requires { IsText a.now }
    ensures { IfOk result (λ value. value ≡ with_text a.now more.now) }
{
    let copied = a.copy()?;
    more_text(copied, more)
}

/// The answer of a call that joins two values.
fn joined(found: Result<Value, NoMemory>) -> Result<Value, ValueFault>
    ensures { MatchResult found (λ value. result ≡ Ok value)
        (λ _. result ≡ Err ValueFault.NoMemory) }
{
    match found {
        Ok(value) => Ok(value),
        Err(NoMemory) => Err(ValueFault::NoMemory),
    }
}

/// Bytes or texts one behind the other, an iterator farther on, or the sum of integers.
fn added(a: &Value, b: &Value) -> Result<Value, ValueFault>
    requires { IsTrue (are_added a.now b.now) }
    ensures { Answers (are_joined a.now b.now) (added a.now b.now) result }
{
    match a.level() {
        Level::Bytes(_) => match b.level() {
            Level::Bytes(more) => joined(with_bytes(a, more)),
            _ => unreachable!(),
        },
        Level::Str(_) => match b.level() {
            Level::Str(more) => joined(with_text(a, more)),
            _ => unreachable!(),
        },
        Level::Place(at) => match b.level() {
            Level::Uint(_, count) => told(place_behind(at, count)),
            _ => unreachable!(),
        },
        _ => told(arithmetic(Arithmetic::Add, a, b)),
    }
}

fn are_joined(a: &Value, b: &Value) -> bool
    ensures { result ≡ are_joined a.now b.now }
{
    match (a.level(), b.level()) {
        (Level::Bytes(_), Level::Bytes(_)) => true,
        (Level::Str(_), Level::Str(_)) => true,
        _ => false,
    }
}

fn appended(a: Value, b: &Value) -> Result<Value, NoMemory>
    requires { IsTrue (are_joined a b.now) }
    ensures { IfOk result (λ value. added a b.now ≡ Ok value) }
{
    match b.level() {
        Level::Bytes(more) => more_bytes(a, more),
        Level::Str(more) => more_text(a, more),
        _ => unreachable!(),
    }
}

/// `+` of a left operand that is given away: bytes and texts are appended to it where it stands, if no copy shares it, so
/// that a chain `b = b + x` costs what is appended. Everything else is as in `binary`.
pub fn add(a: Value, b: &Value) -> Result<Value, ValueFault>
    requires { IsTrue (are_added a b.now) }
    ensures { Answers (are_joined a b.now) (added a b.now) result }
{
    if are_joined(&a, b) {
        joined(appended(a, b))
    } else {
        let sum = added(&a, b);
        drop(a);
        sum
    }
}

fn either_holds(a: &Value, b: &Value) -> Result<Value, PKind>
    requires { IsTrue (are_booleans a.now b.now) }
    ensures { result ≡ either_holds a.now b.now }
{
    match (a.level(), b.level()) {
        (Level::Bool(a), Level::Bool(b)) => Ok(Value::bool(a || b)),
        _ => unreachable!(),
    }
}

fn both_hold(a: &Value, b: &Value) -> Result<Value, PKind>
    requires { IsTrue (are_booleans a.now b.now) }
    ensures { result ≡ both_hold a.now b.now }
{
    match (a.level(), b.level()) {
        (Level::Bool(a), Level::Bool(b)) => Ok(Value::bool(a && b)),
        _ => unreachable!(),
    }
}

/// What the operator makes of two values. Of `||` and `&&` both operands are there: whether the right one is needed is for
/// the caller to say. Texts are ordered by their bytes, and two bitfields are equal where all their named ranges are. Memory
/// is taken by `+` of bytes and of texts alone. Errors: `Overflow`, `DivZero` and `BadShift`.
pub fn binary(op: BinaryOp, a: &Value, b: &Value) -> Result<Value, ValueFault>
    requires { IsTrue (takes op a.now b.now) }
    ensures { Answers (takes_memory op a.now b.now) (binary op a.now b.now) result }
{
    match op {
        BinaryOp::Or => told(either_holds(a, b)),
        BinaryOp::And => told(both_hold(a, b)),
        BinaryOp::In => Ok(Value::bool(is_in(a, b))),
        BinaryOp::NotIn => Ok(Value::bool(!is_in(a, b))),
        BinaryOp::Equal => Ok(Value::bool(compare(a, b).is_eq())),
        BinaryOp::NotEqual => Ok(Value::bool(compare(a, b).is_ne())),
        BinaryOp::Less => Ok(Value::bool(compare(a, b).is_lt())),
        BinaryOp::LessEqual => Ok(Value::bool(compare(a, b).is_le())),
        BinaryOp::Greater => Ok(Value::bool(compare(a, b).is_gt())),
        BinaryOp::GreaterEqual => Ok(Value::bool(compare(a, b).is_ge())),
        BinaryOp::BitOr => told(bit_operation(BitOperator::Or, a, b)),
        BinaryOp::BitXor => told(bit_operation(BitOperator::Xor, a, b)),
        BinaryOp::BitAnd => told(bit_operation(BitOperator::And, a, b)),
        BinaryOp::ShiftLeft => told(shift_by(Shift::Left, a, b)),
        BinaryOp::ShiftRight => told(shift_by(Shift::Right, a, b)),
        BinaryOp::Add => added(a, b),
        BinaryOp::Subtract => told(arithmetic(Arithmetic::Subtract, a, b)),
        BinaryOp::Multiply => told(arithmetic(Arithmetic::Multiply, a, b)),
        BinaryOp::Divide => told(arithmetic(Arithmetic::Divide, a, b)),
        BinaryOp::Remainder => told(arithmetic(Arithmetic::Remainder, a, b)),
    }
}
