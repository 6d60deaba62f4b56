// Whether values are of the kinds that an operator takes. These tests take no memory.
ghost use Rattle.std.specs.Prelude.{◌≡◌};
ghost use Rattle.sp_operators.specs.Operands.{are_booleans, are_integers, are_unsigned, are_added, are_ordered, are_alike, can_hold, takes, takes_one, has_size, is_cast};

use crate::plain_type::PlainType;
use sp_value::{Level, Value, kind};
use sp_words::{BinaryOp, UnaryOp};

fn are_booleans(a: &Value, b: &Value) -> bool
    ensures { result ≡ are_booleans a.now b.now }
{
    match (a.level(), b.level()) {
        (Level::Bool(_), Level::Bool(_)) => true,
        _ => false,
    }
}

fn are_integers(a: &Value, b: &Value) -> bool
    ensures { result ≡ are_integers a.now b.now }
{
    match (a.level(), b.level()) {
        (Level::Uint(_, _), Level::Uint(_, _)) => true,
        (Level::Int(_, _), Level::Int(_, _)) => true,
        _ => false,
    }
}

fn are_unsigned(a: &Value, b: &Value) -> bool
    ensures { result ≡ are_unsigned a.now b.now }
{
    match (a.level(), b.level()) {
        (Level::Uint(_, _), Level::Uint(_, _)) => true,
        _ => false,
    }
}

fn are_added(a: &Value, b: &Value) -> bool
    ensures { result ≡ are_added a.now b.now }
{
    match (a.level(), b.level()) {
        (Level::Bytes(_), Level::Bytes(_)) => true,
        (Level::Str(_), Level::Str(_)) => true,
        (Level::Place(_), Level::Uint(_, _)) => true,
        _ => are_integers(a, b),
    }
}

fn are_ordered(a: &Value, b: &Value) -> bool
    ensures { result ≡ are_ordered a.now b.now }
{
    match (a.level(), b.level()) {
        (Level::Bytes(_), Level::Bytes(_)) => true,
        (Level::Str(_), Level::Str(_)) => true,
        (Level::Place(_), Level::Place(_)) => true,
        _ => are_integers(a, b),
    }
}

fn can_hold(a: &Value, b: &Value) -> bool
    ensures { result ≡ can_hold a.now b.now }
{
    match (a.level(), b.level()) {
        (_, Level::Set(_)) => true,
        (_, Level::Map(_)) => true,
        (Level::Bytes(_), Level::Bytes(_)) => true,
        _ => false,
    }
}

/// Whether two values can stand before and behind an operator.
pub fn takes(op: BinaryOp, a: &Value, b: &Value) -> bool
    ensures { result ≡ takes op a.now b.now }
{
    match op {
        BinaryOp::Or | BinaryOp::And => are_booleans(a, b),
        BinaryOp::In | BinaryOp::NotIn => can_hold(a, b),
        BinaryOp::Equal | BinaryOp::NotEqual => kind(a) == kind(b),
        BinaryOp::Less | BinaryOp::LessEqual | BinaryOp::Greater | BinaryOp::GreaterEqual =>
            are_ordered(a, b),
        BinaryOp::BitOr | BinaryOp::BitXor | BinaryOp::BitAnd => are_unsigned(a, b),
        BinaryOp::ShiftLeft | BinaryOp::ShiftRight => are_unsigned(a, b),
        BinaryOp::Add => are_added(a, b),
        BinaryOp::Subtract | BinaryOp::Multiply | BinaryOp::Divide | BinaryOp::Remainder =>
            are_integers(a, b),
    }
}

/// Whether an operator takes a value.
pub fn takes_one(op: UnaryOp, a: &Value) -> bool
    ensures { result ≡ takes_one op a.now }
{
    match (op, a.level()) {
        (UnaryOp::Not, Level::Bool(_)) => true,
        (UnaryOp::Negate, Level::Int(_, _)) => true,
        (UnaryOp::Complement, Level::Uint(_, _)) => true,
        _ => false,
    }
}

/// Whether a value has a size: bytes, a text, a vector, a set and a map have one.
pub fn has_size(a: &Value) -> bool
    ensures { result ≡ has_size a.now }
{
    match a.level() {
        Level::Bytes(_) => true,
        Level::Str(_) => true,
        Level::Vector(_) => true,
        Level::Set(_) => true,
        Level::Map(_) => true,
        _ => false,
    }
}

/// Whether a value can be cast to a type.
pub fn is_cast(a: &Value, to: &PlainType) -> bool
    ensures { result ≡ is_cast a.now to.now }
{
    match a.level() {
        Level::Uint(_, _) | Level::Int(_, _) => matches!(
            *to,
            PlainType::Uint(_) | PlainType::Int(_) | PlainType::Enum(_)
        ),
        Level::Enum(_, _) => matches!(*to, PlainType::Uint(_)),
        _ => false,
    }
}
