// What declared constants and labels are, by their values.
ghost use Rattle.std.specs.Prelude.{◌≡◌, IfOk, option_copied};
ghost use Rattle.sp_value.specs.Val.{enum};
ghost use Rattle.sp_type_constants.specs.declared.outcome.Outcome.TheVariants as outcome_is;
ghost use Rattle.sp_type_constants.specs.Labels.{numbered, label_value, first_label, one_more, next_label, fits_written, fitting, constant_value};

use crate::constants::Constants;
use crate::measured::Measured;
use crate::outcome::Outcome;
use crate::values::value_of;
use sp_base::NoMemory;
use sp_typed::Expr;
use sp_types::Type;
use sp_value::{Level, Value};
use std::alloc::Global;

fn numbered(owner: u32, value: &Value) -> Outcome
    ensures { result ≡ numbered owner value.now }
{
    match value.level() {
        Level::Uint(_, n) => Outcome::Value(Value::label(owner, n)),
        _ => Outcome::Unknown,
    }
}

/// A label of an enum, whose number is written.
pub fn label_value(owner: u32, number: Measured) -> Measured
    ensures { result ≡ label_value owner number }
{
    match number.outcome() {
        Outcome::Value(value) => {
            let label = numbered(owner, value);
            drop(number);
            Measured::small(label)
        }
        Outcome::Regex(_) => {
            drop(number);
            Measured::small(Outcome::Unknown)
        }
        _ => number,
    }
}

/// The label of a number of an enum.
pub fn label_of(owner: u32, number: u64) -> Measured
    ensures { result ≡ outcome_is.Value (enum owner number) }
{
    Measured::small(Outcome::Value(Value::label(owner, number)))
}

/// The first label of an enum, without a number.
pub fn first_label(owner: u32) -> Measured
    ensures { result ≡ first_label owner }
{
    Measured::small(Outcome::Value(Value::label(owner, 0)))
}

fn one_more(owner: u32, value: &Value) -> Outcome
    ensures { result ≡ one_more owner value.now }
{
    match value.level() {
        Level::Enum(_, n) => match n.checked_add(1) {
            Some(next) => Outcome::Value(Value::label(owner, next)),
            None => Outcome::Unknown,
        },
        _ => Outcome::Unknown,
    }
}

/// A label without a number, behind another.
pub fn next_label(owner: u32, before: Measured) -> Measured
    ensures { result ≡ next_label owner before }
{
    match before.outcome() {
        Outcome::Value(value) => {
            let next = one_more(owner, value);
            drop(before);
            Measured::small(next)
        }
        Outcome::Regex(_) => {
            drop(before);
            Measured::small(Outcome::Unknown)
        }
        _ => before,
    }
}

fn fits_written(written: Option<&Type>, ty: &Type) -> bool
    ensures { result ≡ fits_written (option_copied written.entry) ty.now }
{
    match written {
        Some(to) => to.same(ty),
        None => true,
    }
}

fn fitting(fits: bool, found: Measured) -> Measured
    ensures { result ≡ fitting fits found }
{
    if fits {
        return found;
    }
    match found.outcome() {
        Outcome::Value(_) | Outcome::Regex(_) => {
            drop(found);
            Measured::small(Outcome::Unknown)
        }
        _ => found,
    }
}

/// A declared constant: `written` is the type that is written, if there is one, and `e` its value, which was brought to that
/// type.
pub fn constant_value<C: Constants>(
    alloc: Global,
    constants: &C,
    written: Option<&Type>,
    e: &Expr,
) -> Result<Measured, NoMemory>
    ensures { IfOk result (λ r. r ≡ constant_value (C.known constants.now)
        (option_copied written.entry) e.now) }
{
    let found = value_of(alloc, constants, e)?;
    Ok(fitting(fits_written(written, e.ty()), found))
}
