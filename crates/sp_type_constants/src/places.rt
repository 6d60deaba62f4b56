// What the places that want a constant take of it.
ghost use Rattle.std.specs.Prelude.{◌≡◌, IfOk};
ghost use Rattle.sp_type_constants.specs.Places.{index_in, number_in, index_of};
ghost use Rattle.sp_type_constants.specs.Values.{value_of};

use crate::constants::Constants;
use crate::outcome::Outcome;
use crate::values::value_of;
use sp_base::NoMemory;
use sp_typed::Expr;
use sp_value::{Level, Value};
use std::alloc::Global;

fn index_in(value: &Value) -> Option<u32>
    ensures { result ≡ index_in value.now }
{
    match value.level() {
        Level::Uint(_, n) => if n < 0x1_0000_0000 {
            Some(n as u32)
        } else {
            None
        },
        _ => None,
    }
}

fn label_in(value: &Value) -> Option<u64>
    ensures { result ≡ number_in value.now }
{
    match value.level() {
        Level::Enum(_, n) => Some(n),
        _ => None,
    }
}

impl Outcome {
    ghost use Rattle.std.specs.Prelude.{◌≡◌, option_copied};
    ghost use Rattle.sp_type_constants.specs.Places.{is_refused, index_of, number_of, bytes_of, signed_of};

    /// Whether a place that wants a constant is refused this one: it is none, or its value is an error.
    pub fn is_refused(&self) -> bool
        ensures { result ≡ is_refused self.now }
    {
        matches!(self, Outcome::NotConstant | Outcome::Error)
    }

    /// The index of a tuple that it is: an unsigned integer below 2^32.
    pub fn index(&self) -> Option<u32>
        ensures { result ≡ index_of self.now }
    {
        match self {
            Outcome::Value(value) => index_in(value),
            _ => None,
        }
    }

    /// The number of the label that it is.
    pub fn label_number(&self) -> Option<u64>
        ensures { result ≡ number_of self.now }
    {
        match self {
            Outcome::Value(value) => label_in(value),
            _ => None,
        }
    }

    /// The bytes that it is.
    pub fn bytes(&self) -> Option<&[u8]>
        ensures { option_copied result ≡ bytes_of self.now }
    {
        match self {
            Outcome::Value(value) => value.as_bytes(),
            _ => None,
        }
    }

    /// The signed integer that it is.
    pub fn signed(&self) -> Option<i64>
        ensures { result ≡ signed_of self.now }
    {
        match self {
            Outcome::Value(value) => value.as_int(),
            _ => None,
        }
    }
}

/// The index of a tuple that an expression is, where it is constant and has one.
pub fn index_of<C: Constants>(
    alloc: Global,
    constants: &C,
    e: &Expr,
) -> Result<Option<u32>, NoMemory>
    ensures { IfOk result (λ n. n ≡ index_of (value_of (C.known constants.now) e.now)) }
{
    let found = value_of(alloc, constants, e)?;
    let index = found.outcome().index();
    drop(found);
    Ok(index)
}
