// What operators make of constants. Where an operator doesn't take the values, another rule is broken, and nothing is known.
ghost use Rattle.std.specs.Prelude.{◌≡◌, if◌then◌else◌, slice_get, IfOk};
ghost use Rattle.sp_words.specs.declared.operators.BinaryOp.TheVariants as op_is;
ghost use Rattle.sp_value.specs.Changes.{IsMap, value_at};
ghost use Rattle.sp_type_constants.specs.declared.outcome.Outcome.TheVariants as outcome_is;
ghost use Rattle.sp_type_constants.specs.Outcomes.{lack_of, lacking, worse, of_one, of_two, both_hold, either_holds, truth, if_constant, chosen};
ghost use Rattle.sp_type_constants.specs.Operations.{operated, operated_on, sized, integer_type, cast_to, or_error, indexed, or_unknown, member};
ghost use Rattle.sp_type_constants.specs.Values.{is_and, is_or, binary_value, three_value};

use crate::measured::{Extent, Measured};
use crate::outcome::Outcome;
use sp_base::{NoMemory, ResourceError, or_drop};
use sp_operators::{
    PlainType, ValueFault, add, binary, cast, has_size, is_cast, size, takes, takes_one, unary,
};
use sp_types::{Level as TypeLevel, Type, Word};
use sp_value::{Level, Value};
use sp_words::{BinaryOp, UnaryOp};

/// What is not known.
pub(crate) fn unknown() -> Measured
    ensures { result ≡ outcome_is.Unknown }
{
    Measured::small(Outcome::Unknown)
}

/// How large a value without members is.
fn extent_of(value: &Value) -> Result<Extent, ResourceError> {
    match value.level() {
        Level::Bytes(bytes) => Extent::of_length(bytes.len()),
        Level::Str(text) => Extent::of_length(text.len()),
        _ => Ok(Extent::one()),
    }
}

/// A value without members.
pub(crate) fn of_value(value: Value) -> Result<Measured, NoMemory>
    ensures { IfOk result (λ r. r ≡ outcome_is.Value value) }
{
    let extent = or_drop!(extent_of(&value); value);
    Ok(Measured::new(Outcome::Value(value), extent))
}

fn operated_apart(op: BinaryOp, a: &Value, b: &Value) -> Result<Measured, NoMemory>
    ensures { IfOk result (λ r. r ≡ operated op a.now b.now) }
{
    if !takes(op, a, b) {
        return Ok(unknown());
    }
    match binary(op, a, b) {
        Ok(value) => of_value(value),
        Err(ValueFault::Run(_)) => Ok(Measured::small(Outcome::Error)),
        Err(ValueFault::NoMemory) => Err(NoMemory),
    }
}

/// A sum. Bytes and texts are appended to the left side where it stands, so that a chain of sums costs what is appended.
fn sum_of(a: Value, b: &Value) -> Result<Measured, NoMemory>
    ensures { IfOk result (λ r. r ≡ operated op_is.Add a b.now) }
{
    if !takes(BinaryOp::Add, &a, b) {
        drop(a);
        return Ok(unknown());
    }
    match add(a, b) {
        Ok(value) => of_value(value),
        Err(ValueFault::Run(_)) => Ok(Measured::small(Outcome::Error)),
        Err(ValueFault::NoMemory) => Err(NoMemory),
    }
}

fn applied(op: BinaryOp, a: Value, b: &Value) -> Result<Measured, NoMemory>
    ensures { IfOk result (λ r. r ≡ operated op a b.now) }
{
    match op {
        BinaryOp::Add => sum_of(a, b),
        _ => {
            let found = operated_apart(op, &a, b);
            drop(a);
            found
        }
    }
}

/// What stands round two parts of which one is no value.
fn lacking(a: &Outcome, b: &Outcome) -> Measured
    ensures { result ≡ lacking (worse (lack_of a.now) (lack_of b.now)) }
{
    Measured::small(a.lack().worse(b.lack()).outcome())
}

/// An operator between two values.
fn operated(op: BinaryOp, a: Measured, b: &Measured) -> Result<Measured, NoMemory>
    ensures { IfOk result (λ r. r ≡ of_two (operated op) a b.now) }
{
    match (a.into_outcome(), b.outcome()) {
        (Outcome::Value(x), Outcome::Value(y)) => applied(op, x, y),
        (x, y) => {
            let found = lacking(&x, y);
            drop(x);
            Ok(found)
        }
    }
}

fn truth(value: Value) -> Outcome
    ensures { result ≡ truth value }
{
    match value.level() {
        Level::Bool(_) => Outcome::Value(value),
        _ => {
            drop(value);
            Outcome::Unknown
        }
    }
}

fn truth_of(o: Outcome) -> Outcome
    ensures { result ≡ of_one truth o }
{
    match o {
        Outcome::Value(value) => truth(value),
        Outcome::Regex(text) => {
            drop(text);
            Outcome::Unknown
        }
        Outcome::NotConstant => Outcome::NotConstant,
        Outcome::Error => Outcome::Error,
        Outcome::Unknown => Outcome::Unknown,
    }
}

/// `&&` needs the right side only where the left one is true.
fn both_hold(a: Outcome, b: Outcome) -> Outcome
    ensures { result ≡ both_hold a b }
{
    if a.is_true() {
        drop(a);
        truth_of(b)
    } else {
        drop(b);
        truth_of(a)
    }
}

/// `||` needs the right side only where the left one is false.
fn either_holds(a: Outcome, b: Outcome) -> Outcome
    ensures { result ≡ either_holds a b }
{
    if a.is_false() {
        drop(a);
        truth_of(b)
    } else {
        drop(b);
        truth_of(a)
    }
}

/// `&&` and `||`, which are not constant where a side is not, also one that is not needed.
fn truth_value(and: bool, a: Measured, b: Measured) -> Measured
    ensures { result
        ≡ if_constant a (if_constant b (if and then both_hold a b else either_holds a b)) }
{
    if !a.outcome().is_constant() {
        drop(a);
        drop(b);
        return Measured::small(Outcome::NotConstant);
    }
    if !b.outcome().is_constant() {
        drop(a);
        drop(b);
        return Measured::small(Outcome::NotConstant);
    }
    let (a, b) = (a.into_outcome(), b.into_outcome());
    if and {
        Measured::small(both_hold(a, b))
    } else {
        Measured::small(either_holds(a, b))
    }
}

fn is_and(op: BinaryOp) -> bool
    ensures { result ≡ is_and op }
{
    matches!(op, BinaryOp::And)
}

fn is_or(op: BinaryOp) -> bool
    ensures { result ≡ is_or op }
{
    matches!(op, BinaryOp::Or)
}

/// An operator between two parts.
pub(crate) fn binary_value(op: BinaryOp, a: Measured, b: Measured) -> Result<Measured, NoMemory>
    ensures { IfOk result (λ r. r ≡ binary_value op a b) }
{
    if is_and(op) {
        return Ok(truth_value(true, a, b));
    }
    if is_or(op) {
        return Ok(truth_value(false, a, b));
    }
    let found = operated(op, a, &b);
    drop(b);
    found
}

fn chosen(c: &Outcome, a: Measured, b: Measured) -> Measured
    ensures { result ≡ chosen c.now a b }
{
    if c.is_true() {
        drop(b);
        a
    } else if c.is_false() {
        drop(a);
        b
    } else {
        drop(a);
        drop(b);
        Measured::small(c.lack().outcome())
    }
}

/// `c ? a : b`, which is not constant where a part is not, also one that is not needed.
pub(crate) fn three_value(c: Measured, a: Measured, b: Measured) -> Measured
    ensures { result ≡ three_value c a b }
{
    if c.outcome().is_constant() && a.outcome().is_constant() && b.outcome().is_constant() {
        let found = chosen(c.outcome(), a, b);
        drop(c);
        found
    } else {
        drop(c);
        drop(a);
        drop(b);
        Measured::small(Outcome::NotConstant)
    }
}

fn applied_on(op: UnaryOp, a: &Value) -> Result<Measured, NoMemory>
    ensures { IfOk result (λ r. r ≡ operated_on op a.now) }
{
    if !takes_one(op, a) {
        return Ok(unknown());
    }
    match unary(op, a) {
        Ok(value) => of_value(value),
        Err(ValueFault::Run(_)) => Ok(Measured::small(Outcome::Error)),
        Err(ValueFault::NoMemory) => Err(NoMemory),
    }
}

/// What stands round a part that is no value.
fn lacking_one(a: &Outcome) -> Measured
    ensures { result ≡ lacking (lack_of a.now) }
{
    Measured::small(a.lack().outcome())
}

/// `-`, `!` and `~`.
pub(crate) fn operated_on(op: UnaryOp, a: &Measured) -> Result<Measured, NoMemory>
    ensures { IfOk result (λ r. r ≡ of_one (operated_on op) a.now) }
{
    match a.outcome() {
        Outcome::Value(value) => applied_on(op, value),
        other => Ok(lacking_one(other)),
    }
}

/// `|x|`
pub(crate) fn sized(a: &Measured) -> Measured
    ensures { result ≡ of_one sized a.now }
{
    match a.outcome() {
        Outcome::Value(value) => {
            if has_size(value) {
                Measured::small(Outcome::Value(size(value)))
            } else {
                unknown()
            }
        }
        other => lacking_one(other),
    }
}

/// The integer type to which a value is cast.
fn integer_type(to: &Type) -> PlainType
    ensures { result ≡ integer_type to.now }
{
    match to.level() {
        TypeLevel::Word(Word::Uint(width)) => PlainType::Uint(width),
        TypeLevel::Word(Word::Int(width)) => PlainType::Int(width),
        _ => PlainType::Void,
    }
}

fn value_cast_to(to: &Type, a: &Value) -> Result<Measured, NoMemory>
    ensures { IfOk result (λ r. r ≡ cast_to to.now a.now) }
{
    let plain = integer_type(to);
    if !is_cast(a, &plain) {
        return Ok(unknown());
    }
    match cast(a, &plain) {
        Ok(value) => of_value(value),
        Err(ValueFault::Run(_)) => Ok(Measured::small(Outcome::Error)),
        Err(ValueFault::NoMemory) => Err(NoMemory),
    }
}

/// A cast, and a value that goes to a wider type.
pub(crate) fn cast_to(to: &Type, a: &Measured) -> Result<Measured, NoMemory>
    ensures { IfOk result (λ r. r ≡ of_one (cast_to to.now) a.now) }
{
    match a.outcome() {
        Outcome::Value(value) => value_cast_to(to, value),
        other => Ok(lacking_one(other)),
    }
}

/// An item of a vector, which is an error where there is none.
fn item_in(items: &[Value], n: u64, extent: Extent) -> Result<Measured, NoMemory>
    ensures { IfOk result (λ r. r ≡ or_error (slice_get items.now n)) }
{
    match items.get(n as usize) {
        Some(value) => Ok(Measured::new(Outcome::Value(value.copy()?), extent)),
        None => Ok(Measured::small(Outcome::Error)),
    }
}

/// The value of a key of a map, which is an error where it has none.
fn entry_in(map: &Value, key: &Value, extent: Extent) -> Result<Measured, NoMemory>
    requires { IsMap map.now }
    ensures { IfOk result (λ r. r ≡ or_error (value_at map.now key.now)) }
{
    match map.get(key) {
        Some(value) => Ok(Measured::new(Outcome::Value(value.copy()?), extent)),
        None => Ok(Measured::small(Outcome::Error)),
    }
}

#[tactic(auto, using(sp_value::proofs::Lists::list_of_vals_of))]
fn value_indexed(a: &Value, i: &Value, extent: Extent) -> Result<Measured, NoMemory>
    ensures { IfOk result (λ r. r ≡ indexed a.now i.now) }
{
    match (a.level(), i.level()) {
        (Level::Vector(items), Level::Uint(_, n)) => item_in(items, n, extent),
        (Level::Map(_), _) => entry_in(a, i, extent),
        _ => Ok(unknown()),
    }
}

/// `v[i]` and `m[k]`.
pub(crate) fn indexed(a: &Measured, i: &Measured) -> Result<Measured, NoMemory>
    ensures { IfOk result (λ r. r ≡ of_two indexed a.now i.now) }
{
    match (a.outcome(), i.outcome()) {
        (Outcome::Value(x), Outcome::Value(y)) => value_indexed(x, y, a.extent()),
        (x, y) => Ok(lacking(x, y)),
    }
}

fn member_in(items: &[Value], n: u32, extent: Extent) -> Result<Measured, NoMemory>
    ensures { IfOk result (λ r. r ≡ or_unknown (slice_get items.now n)) }
{
    match items.get(n as usize) {
        Some(value) => Ok(Measured::new(Outcome::Value(value.copy()?), extent)),
        None => Ok(unknown()),
    }
}

#[tactic(auto, using(sp_value::proofs::Lists::list_of_vals_of))]
fn value_member(n: u32, a: &Value, extent: Extent) -> Result<Measured, NoMemory>
    ensures { IfOk result (λ r. r ≡ member n a.now) }
{
    match a.level() {
        Level::Tuple(items) => member_in(items, n, extent),
        _ => Ok(unknown()),
    }
}

fn member(n: u32, a: &Measured) -> Result<Measured, NoMemory>
    ensures { IfOk result (λ r. r ≡ of_one (member n) a.now) }
{
    match a.outcome() {
        Outcome::Value(value) => value_member(n, value, a.extent()),
        other => Ok(lacking_one(other)),
    }
}

/// `t[n]`, where the index has to be constant.
pub(crate) fn item_value(n: u32, a: &Measured, i: &Measured) -> Result<Measured, NoMemory>
    ensures { IfOk result (λ r. r ≡ if_constant i.now (of_one (member n) a.now)) }
{
    if i.outcome().is_constant() {
        member(n, a)
    } else {
        Ok(Measured::small(Outcome::NotConstant))
    }
}
