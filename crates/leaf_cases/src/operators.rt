// Operators on values that no text of a module makes, or that are refused there before they are computed: an operator and its
// operands, with spaces between them. A place of an input is `p:7`, a number `u8:2` or `u64:1`, bytes `b:TEXT`, the set of the
// numbers below N `k:N`, and `void` what a field without a value holds; `||` with one operand is the size. The answer is such a
// place, a truth value, the word of an error, or `none` where the operator doesn't take the operands.
ghost use Rattle.std.specs.Prelude.{IfOk};
ghost use Rattle.sp_value.specs.Changes.{IsSet};

use crate::texts::put;
use sp_base::{NoMemory, or_drop};
use sp_numbers::Width;
use sp_operators::{ValueFault, binary, has_size, takes};
use sp_value::{Level, Value};
use sp_words::BinaryOp;
use std::alloc::{AllocError, Global};

/// The set of the numbers below another.
fn set(alloc: Global, count: u64) -> Result<Value, NoMemory> {
    let mut set = Value::set(Vec::new(alloc))?;
    for n in 0..count {
        or_drop!(set.add(Value::uint(Width::W64, n)); set);
    }
    Ok(set)
}

/// The value that a word writes; void where it is none.
fn value(alloc: Global, word: &str) -> Result<Value, NoMemory> {
    match word.split_once(":") {
        Some(("p", digits)) => Ok(Value::place(digits.parse::<u64>().unwrap_or(0))),
        Some(("u8", digits)) => {
            let number = digits.parse::<u8>().unwrap_or(0);
            Ok(Value::uint(Width::W8, u64::from(number)))
        }
        Some(("u64", digits)) => {
            let number = digits.parse::<u64>().unwrap_or(0);
            Ok(Value::uint(Width::W64, number))
        }
        Some(("b", text)) => Value::bytes(Vec::from_slice(alloc, text.as_bytes())?),
        Some(("k", digits)) => set(alloc, digits.parse::<u64>().unwrap_or(0)),
        _ => Ok(Value::void()),
    }
}

fn operator(word: &str) -> Option<BinaryOp> {
    match word {
        "+" => Some(BinaryOp::Add),
        "-" => Some(BinaryOp::Subtract),
        "<" => Some(BinaryOp::Less),
        "==" => Some(BinaryOp::Equal),
        "!=" => Some(BinaryOp::NotEqual),
        "||" => Some(BinaryOp::Or),
        "in" => Some(BinaryOp::In),
        _ => None,
    }
}

/// Tells a place or a truth value.
fn show(alloc: Global, value: &Value, got: &mut String) -> Result<(), AllocError> {
    match value.level() {
        Level::Place(at) => put(got, format!(in alloc; "p:{at}")),
        Level::Bool(b) => got.push_str(if b { "true" } else { "false" }),
        _ => got.push_str("?"),
    }
}

/// Tells what came of two values.
fn show_made(
    alloc: Global,
    made: Result<Value, ValueFault>,
    got: &mut String,
) -> Result<(), AllocError> {
    match made {
        Ok(value) => {
            let said = show(alloc, &value, got);
            drop(value);
            said
        }
        Err(ValueFault::Run(error)) => got.push_str(error.name()),
        Err(ValueFault::NoMemory) => Err(AllocError),
    }
}

/// Tells what an operator makes of two values.
fn of_two(
    alloc: Global,
    op: BinaryOp,
    a: &Value,
    b: &Value,
    got: &mut String,
) -> Result<(), AllocError> {
    if takes(op, a, b) {
        show_made(alloc, binary(op, a, b), got)
    } else {
        got.push_str("none")
    }
}

/// Tells whether a value has a size.
fn of_size(a: &Value, got: &mut String) -> Result<(), AllocError> {
    got.push_str(if has_size(a) { "some" } else { "none" })
}

/// Tells what an operator makes of values.
fn of_values(
    alloc: Global,
    op: BinaryOp,
    a: &Value,
    second: Option<&str>,
    got: &mut String,
) -> Result<(), AllocError> {
    let Some(second) = second else {
        return of_size(a, got);
    };
    match value(alloc, second) {
        Ok(b) => {
            let said = of_two(alloc, op, a, &b, got);
            drop(b);
            said
        }
        Err(NoMemory) => Err(AllocError),
    }
}

pub fn answer(alloc: Global, question: &str, got: &mut String) -> Result<(), AllocError> {
    let Some((word, operands)) = question.split_once(" ") else {
        return Ok(());
    };
    let Some(op) = operator(word) else {
        return Ok(());
    };
    let (first, second) = match operands.split_once(" ") {
        Some((first, second)) => (first, Some(second)),
        None => (operands, None),
    };
    match value(alloc, first) {
        Ok(a) => {
            let said = of_values(alloc, op, &a, second, got);
            drop(a);
            said
        }
        Err(NoMemory) => Err(AllocError),
    }
}
