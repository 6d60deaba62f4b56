// What has no parts, as a constant.
ghost use Rattle.std.specs.Prelude.{◌≡◌, ◌^◌, ◌<◌, pos, neg_ℤ, IfOk, IsTrue};
ghost use Rattle.sp_base.specs.declared.kinds.PKind.TheVariants.{CastRange};
ghost use Rattle.sp_value.specs.Val.{uint, int, str, bytes};
ghost use Rattle.sp_type_constants.specs.declared.outcome.Outcome.TheVariants as outcome_is;
ghost use Rattle.sp_numbers.specs.Numbers.{fits_signed, unsigned_or, signed_or};
ghost use Rattle.sp_type_constants.specs.Outcomes.{used};
ghost use Rattle.sp_type_constants.specs.Operations.{if_within, literal, negative_literal, empty};
ghost use Rattle.sp_type_constants.specs.Values.{leaf_value};

use crate::constants::Constants;
use crate::measured::Measured;
use crate::operations::{of_value, unknown};
use crate::outcome::Outcome;
use sp_base::{ByteList, NoMemory, PKind, Text};
use sp_numbers::Width;
use sp_typed::LeafOp;
use sp_types::{Level, Maker, Type, Word};
use sp_value::Value;
use std::alloc::Global;

fn unsigned_literal(width: Width, n: u64) -> Outcome
    ensures { result ≡ if_within (uint width) (unsigned_or CastRange width (pos n)) }
{
    match sp_numbers::unsigned_to_unsigned(n, width) {
        Ok(number) => Outcome::Value(Value::uint(width, number)),
        Err(_) => Outcome::Unknown,
    }
}

fn signed_literal(width: Width, n: u64) -> Outcome
    ensures { result ≡ if_within (int width) (signed_or CastRange width (pos n)) }
{
    match sp_numbers::unsigned_to_signed(n, width) {
        Ok(number) => Outcome::Value(Value::int(width, number)),
        Err(_) => Outcome::Unknown,
    }
}

/// A literal, which has the type of its place or the one that is written before it.
fn literal(ty: &Type, n: u64) -> Outcome
    ensures { result ≡ literal ty.now n }
{
    match ty.level() {
        Level::Word(Word::Uint(width)) => unsigned_literal(width, n),
        Level::Word(Word::Int(width)) => signed_literal(width, n),
        _ => Outcome::Unknown,
    }
}

/// A number with a minus sign as a signed integer of the width.
fn negated(width: Width, n: u64) -> Result<i64, PKind>
    ensures value { result ≡ signed_or CastRange width (neg_ℤ (pos n)) }
    ensures in_width { IfOk result (λ number. IsTrue (fits_signed width number)) }
{
    if n > 0x8000_0000_0000_0000 {
        Err(PKind::CastRange)
    } else if n == 0x8000_0000_0000_0000 {
        sp_numbers::signed_to_signed(i64::MIN, width)
    } else {
        sp_numbers::signed_to_signed(-(n as i64), width)
    }
}

fn negative_of(width: Width, n: u64) -> Outcome
    ensures { result ≡ if_within (int width) (signed_or CastRange width (neg_ℤ (pos n))) }
{
    match negated(width, n) {
        Ok(number) => Outcome::Value(Value::int(width, number)),
        Err(_) => Outcome::Unknown,
    }
}

/// A literal with a minus sign.
pub(crate) fn negative_literal(ty: &Type, n: u64) -> Outcome
    ensures { result ≡ negative_literal ty.now n }
{
    match ty.level() {
        Level::Word(Word::Uint(width)) if n == 0 => unsigned_literal(width, 0),
        Level::Word(Word::Int(width)) => negative_of(width, n),
        _ => Outcome::Unknown,
    }
}

/// `vector<T>()`, `set<T>()`, `map<K, V>()`.
fn empty(alloc: Global, ty: &Type) -> Result<Outcome, NoMemory>
    ensures { IfOk result (λ o. o ≡ empty ty.now) }
{
    match ty.level() {
        Level::Made(Maker::Vector, _) => Ok(Outcome::Value(Value::vector(Vec::new(alloc))?)),
        Level::Made(Maker::Set, _) => Ok(Outcome::Value(Value::set(Vec::new(alloc))?)),
        Level::Made(Maker::Map, _) => Ok(Outcome::Value(Value::map(Vec::new(alloc))?)),
        _ => Ok(Outcome::Unknown),
    }
}

/// What a name stands for.
fn used(o: Measured) -> Measured
    ensures { result ≡ used o }
{
    match o.outcome() {
        Outcome::NotConstant => {
            drop(o);
            Measured::small(Outcome::Error)
        }
        _ => o,
    }
}

fn text_value(text: &Text) -> Result<Measured, NoMemory>
    ensures { IfOk result (λ r. r ≡ outcome_is.Value (str text.now)) }
{
    of_value(Value::str(text.copy()?.into_string()?)?)
}

fn bytes_value(list: &ByteList) -> Result<Measured, NoMemory>
    ensures { IfOk result (λ r. r ≡ outcome_is.Value (bytes list.now)) }
{
    of_value(Value::bytes(list.copy()?.into_vec())?)
}

/// What has no parts.
pub(crate) fn leaf_value<C: Constants>(
    alloc: Global,
    constants: &C,
    ty: &Type,
    op: &LeafOp,
) -> Result<Measured, NoMemory>
    ensures { IfOk result (λ r. r ≡ leaf_value (C.known constants.now) ty.now op.now) }
{
    match op {
        LeafOp::True => Ok(Measured::small(Outcome::Value(Value::bool(true)))),
        LeafOp::False => Ok(Measured::small(Outcome::Value(Value::bool(false)))),
        LeafOp::Number(n) | LeafOp::TypedNumber(n) => Ok(Measured::small(literal(ty, *n))),
        LeafOp::Text(text) => text_value(text),
        LeafOp::Bytes(list) => bytes_value(list),
        LeafOp::Regex(text) => Ok(Measured::small(Outcome::Regex(text.copy()?))),
        LeafOp::Empty(_) => Ok(Measured::small(empty(alloc, ty)?)),
        LeafOp::Constant(n) => Ok(used(constants.constant(*n)?)),
        LeafOp::Label(owner, label) => Ok(used(constants.label(*owner, *label)?)),
        LeafOp::Nothing(_) => Ok(unknown()),
        _ => Ok(Measured::small(Outcome::NotConstant)),
    }
}
