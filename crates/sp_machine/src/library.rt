// What the methods of the library make of their operands.
ghost use Rattle.std.specs.Prelude.{◌≡◌, ◌∷◌, [], Ok, Err, false, IfOk, IsTrue, MatchResult};
ghost use Rattle.sp_words.specs.Methods.{arity, changes};
ghost use Rattle.sp_words.specs.declared.methods.Method.TheVariants as of;
ghost use Rattle.sp_value.specs.Val.{str};
ghost use Rattle.sp_methods.specs.Methods.{suits, pair_of_bytes};
ghost use Rattle.sp_machine.specs.Methods.{TellsOne};

use sp_base::{ByteList, NoMemory, Text};
use sp_lib as library;
use sp_numbers::Width;
use sp_operators::ValueFault;
use sp_value::{Level, Value};
use sp_words::Method;
use std::alloc::Global;

/// A value that was made, or that there was no memory for it.
fn made(found: Result<Value, NoMemory>) -> Result<Value, ValueFault>
    ensures { MatchResult found (λ value. result ≡ Ok value) (λ _. result ≡ Err ValueFault.NoMemory) }
{
    match found {
        Ok(value) => Ok(value),
        Err(NoMemory) => Err(ValueFault::NoMemory),
    }
}

/// The tuple of two byte lists.
fn pair(alloc: Global, first: ByteList, second: ByteList) -> Result<Value, NoMemory>
    ensures { IfOk result (λ value. value ≡ pair_of_bytes (first, second)) }
{
    let mut both = Vec::new(alloc);
    both.push(Value::bytes(first.into_vec())?)?;
    both.push(Value::bytes(second.into_vec())?)?;
    Value::tuple(both)
}

fn to_uint(base: &Value, x: &Value) -> Result<Value, ValueFault>
    requires { IsTrue (suits of.ToUint (base.now ∷ x.now ∷ [])) }
    ensures { TellsOne of.ToUint (base.now ∷ x.now ∷ []) result }
{
    match (x.level(), base.level()) {
        (Level::Bytes(bytes), Level::Uint(_, n)) => match library::to_uint(bytes, n) {
            Ok(number) => Ok(Value::uint(Width::W64, number)),
            Err(kind) => Err(ValueFault::Run(kind)),
        },
        _ => unreachable!(),
    }
}

fn to_int(base: &Value, x: &Value) -> Result<Value, ValueFault>
    requires { IsTrue (suits of.ToInt (base.now ∷ x.now ∷ [])) }
    ensures { TellsOne of.ToInt (base.now ∷ x.now ∷ []) result }
{
    match (x.level(), base.level()) {
        (Level::Bytes(bytes), Level::Uint(_, n)) => match library::to_int(bytes, n) {
            Ok(number) => Ok(Value::int(Width::W64, number)),
            Err(kind) => Err(ValueFault::Run(kind)),
        },
        _ => unreachable!(),
    }
}

fn to_uint_order(order: &Value, x: &Value) -> Result<Value, ValueFault>
    requires { IsTrue (suits of.ToUintOrder (order.now ∷ x.now ∷ [])) }
    ensures { TellsOne of.ToUintOrder (order.now ∷ x.now ∷ []) result }
{
    match (x.level(), order.level()) {
        (Level::Bytes(bytes), Level::Enum(_, n)) => match library::to_uint_order(bytes, n) {
            Ok(number) => Ok(Value::uint(Width::W64, number)),
            Err(kind) => Err(ValueFault::Run(kind)),
        },
        _ => unreachable!(),
    }
}

fn to_int_order(order: &Value, x: &Value) -> Result<Value, ValueFault>
    requires { IsTrue (suits of.ToIntOrder (order.now ∷ x.now ∷ [])) }
    ensures { TellsOne of.ToIntOrder (order.now ∷ x.now ∷ []) result }
{
    match (x.level(), order.level()) {
        (Level::Bytes(bytes), Level::Enum(_, n)) => match library::to_int_order(bytes, n) {
            Ok(number) => Ok(Value::int(Width::W64, number)),
            Err(kind) => Err(ValueFault::Run(kind)),
        },
        _ => unreachable!(),
    }
}

fn sub(alloc: Global, b: &Value, a: &Value, x: &Value) -> Result<Value, ValueFault>
    requires { IsTrue (suits of.Sub (b.now ∷ a.now ∷ x.now ∷ [])) }
    ensures { TellsOne of.Sub (b.now ∷ a.now ∷ x.now ∷ []) result }
{
    match (x.level(), a.level(), b.level()) {
        (Level::Bytes(bytes), Level::Uint(_, from), Level::Uint(_, to)) => {
            match library::sub(alloc, bytes, from, to) {
                Ok(part) => made(Value::bytes(part.into_vec())),
                Err(fault) => Err(fault),
            }
        }
        _ => unreachable!(),
    }
}

fn starts_with(y: &Value, x: &Value) -> Result<Value, ValueFault>
    requires { IsTrue (suits of.StartsWith (y.now ∷ x.now ∷ [])) }
    ensures { TellsOne of.StartsWith (y.now ∷ x.now ∷ []) result }
{
    match (x.level(), y.level()) {
        (Level::Bytes(bytes), Level::Bytes(part)) => {
            Ok(Value::bool(library::starts_with(bytes, part)))
        }
        _ => unreachable!(),
    }
}

fn split(alloc: Global, d: &Value, x: &Value) -> Result<Value, ValueFault>
    requires { IsTrue (suits of.Split (d.now ∷ x.now ∷ [])) }
    ensures { TellsOne of.Split (d.now ∷ x.now ∷ []) result }
{
    match (x.level(), d.level()) {
        (Level::Bytes(bytes), Level::Bytes(separator)) => {
            match library::split(alloc, bytes, separator) {
                Ok(parts) => made(Value::vector(parts.into_vec())),
                Err(fault) => Err(fault),
            }
        }
        _ => unreachable!(),
    }
}

fn split1(alloc: Global, d: &Value, x: &Value) -> Result<Value, ValueFault>
    requires { IsTrue (suits of.Split1 (d.now ∷ x.now ∷ [])) }
    ensures { TellsOne of.Split1 (d.now ∷ x.now ∷ []) result }
{
    match (x.level(), d.level()) {
        (Level::Bytes(bytes), Level::Bytes(separator)) => {
            match library::split1(alloc, bytes, separator) {
                Ok(two) => made(pair(alloc, two.0, two.1)),
                Err(fault) => Err(fault),
            }
        }
        _ => unreachable!(),
    }
}

fn lower(alloc: Global, x: &Value) -> Result<Value, ValueFault>
    requires { IsTrue (suits of.Lower (x.now ∷ [])) }
    ensures { TellsOne of.Lower (x.now ∷ []) result }
{
    match x.level() {
        Level::Bytes(bytes) => match library::lower(alloc, bytes) {
            Ok(list) => made(Value::bytes(list.into_vec())),
            Err(NoMemory) => Err(ValueFault::NoMemory),
        },
        _ => unreachable!(),
    }
}

fn upper(alloc: Global, x: &Value) -> Result<Value, ValueFault>
    requires { IsTrue (suits of.Upper (x.now ∷ [])) }
    ensures { TellsOne of.Upper (x.now ∷ []) result }
{
    match x.level() {
        Level::Bytes(bytes) => match library::upper(alloc, bytes) {
            Ok(list) => made(Value::bytes(list.into_vec())),
            Err(NoMemory) => Err(ValueFault::NoMemory),
        },
        _ => unreachable!(),
    }
}

/// A text as a value.
fn value_of(text: Text) -> Result<Value, NoMemory>
    ensures { IfOk result (λ value. value ≡ str text) }
{
    Value::str(text.into_string()?)
}

fn decode(alloc: Global, strategy: &Value, charset: &Value, x: &Value) -> Result<Value, ValueFault>
    requires { IsTrue (suits of.Decode (strategy.now ∷ charset.now ∷ x.now ∷ [])) }
    ensures { TellsOne of.Decode (strategy.now ∷ charset.now ∷ x.now ∷ []) result }
{
    match (x.level(), charset.level(), strategy.level()) {
        (Level::Bytes(bytes), Level::Enum(_, set), Level::Enum(_, way)) => {
            match library::decode(alloc, bytes, set, way) {
                Ok(text) => made(value_of(text)),
                Err(fault) => Err(fault),
            }
        }
        _ => unreachable!(),
    }
}

fn encode(alloc: Global, s: &Value) -> Result<Value, ValueFault>
    requires { IsTrue (suits of.Encode (s.now ∷ [])) }
    ensures { TellsOne of.Encode (s.now ∷ []) result }
{
    match s.level() {
        Level::Str(text) => match library::encode(alloc, text) {
            Ok(list) => made(Value::bytes(list.into_vec())),
            Err(NoMemory) => Err(ValueFault::NoMemory),
        },
        _ => unreachable!(),
    }
}

fn front(v: &Value) -> Result<Value, ValueFault>
    requires { IsTrue (suits of.Front (v.now ∷ [])) }
    ensures { TellsOne of.Front (v.now ∷ []) result }
{
    library::front(v)
}

fn back(v: &Value) -> Result<Value, ValueFault>
    requires { IsTrue (suits of.Back (v.now ∷ [])) }
    ensures { TellsOne of.Back (v.now ∷ []) result }
{
    library::back(v)
}

fn get(k: &Value, m: &Value) -> Result<Value, ValueFault>
    requires { IsTrue (suits of.Get (k.now ∷ m.now ∷ [])) }
    ensures { TellsOne of.Get (k.now ∷ m.now ∷ []) result }
{
    library::get(m, k, None)
}

fn get_or(d: &Value, k: &Value, m: &Value) -> Result<Value, ValueFault>
    requires { IsTrue (suits of.GetOr (d.now ∷ k.now ∷ m.now ∷ [])) }
    ensures { TellsOne of.GetOr (d.now ∷ k.now ∷ m.now ∷ []) result }
{
    library::get(m, k, Some(d))
}

/// What a method makes of one operand.
pub(crate) fn of_one(alloc: Global, method: Method, x: &Value) -> Result<Value, ValueFault>
    requires changes { changes method ≡ false }
    requires operands { arity method ≡ 1 }
    requires taken { IsTrue (suits method (x.now ∷ [])) }
    ensures { TellsOne method (x.now ∷ []) result }
{
    match method {
        Method::Lower => lower(alloc, x),
        Method::Upper => upper(alloc, x),
        Method::Encode => encode(alloc, x),
        Method::Front => front(x),
        Method::Back => back(x),
        _ => unreachable!(),
    }
}

/// What a method makes of two operands, the last argument first.
pub(crate) fn of_two(
    alloc: Global,
    method: Method,
    y: &Value,
    x: &Value,
) -> Result<Value, ValueFault>
    requires changes { changes method ≡ false }
    requires operands { arity method ≡ 2 }
    requires taken { IsTrue (suits method (y.now ∷ x.now ∷ [])) }
    ensures { TellsOne method (y.now ∷ x.now ∷ []) result }
{
    match method {
        Method::ToUint => to_uint(y, x),
        Method::ToInt => to_int(y, x),
        Method::ToUintOrder => to_uint_order(y, x),
        Method::ToIntOrder => to_int_order(y, x),
        Method::StartsWith => starts_with(y, x),
        Method::Split => split(alloc, y, x),
        Method::Split1 => split1(alloc, y, x),
        Method::Get => get(y, x),
        _ => unreachable!(),
    }
}

/// What a method makes of three operands, the last argument first.
pub(crate) fn of_three(
    alloc: Global,
    method: Method,
    z: &Value,
    y: &Value,
    x: &Value,
) -> Result<Value, ValueFault>
    requires operands { arity method ≡ 3 }
    requires taken { IsTrue (suits method (z.now ∷ y.now ∷ x.now ∷ [])) }
    ensures { TellsOne method (z.now ∷ y.now ∷ x.now ∷ []) result }
{
    match method {
        Method::Sub => sub(alloc, z, y, x),
        Method::Decode => decode(alloc, z, y, x),
        Method::GetOr => get_or(z, y, x),
        _ => unreachable!(),
    }
}
