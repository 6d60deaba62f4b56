// The value of a constant expression.
ghost use Rattle.std.specs.Prelude.{◌≡◌, ◌++◌, IfOk, OnOk};
ghost use Rattle.sp_typed.specs.Exprs.{one, many, exprs, is_minus};
ghost use Rattle.sp_type_constants.specs.Outcomes.{worst, kept, values};
ghost use Rattle.sp_type_constants.specs.Values.{one_value, leaf_number, number_in, two_value, value_of, all_values};

use crate::constants::Constants;
use crate::lack::Lack;
use crate::leaves::{leaf_value, negative_literal};
use crate::measured::{Extent, Measured};
use crate::operations::{
    binary_value, cast_to, indexed, item_value, operated_on, sized, three_value,
};
use crate::outcome::Outcome;
use crate::rows::{Gathered, made, makes_row};
use sp_base::{NoMemory, or_drop};
use sp_typed::{Expr, ExprLevel, LeafOp, Many, One, OneOp, TwoOp};
use sp_types::Type;
use sp_value::Value;
use sp_words::UnaryOp;
use std::alloc::Global;

/// What has one part.
fn one_value(ty: &Type, op: OneOp, a: &Measured) -> Result<Measured, NoMemory>
    ensures { IfOk result (λ r. r ≡ one_value ty.now op a.now) }
{
    match op {
        OneOp::Negate => operated_on(UnaryOp::Negate, a),
        OneOp::Not => operated_on(UnaryOp::Not, a),
        OneOp::Complement => operated_on(UnaryOp::Complement, a),
        OneOp::Size => Ok(sized(a)),
        OneOp::Cast(_) | OneOp::Widen => cast_to(ty, a),
        _ => Ok(Measured::small(Outcome::NotConstant)),
    }
}

fn is_minus(op: OneOp) -> bool
    ensures { result ≡ is_minus op }
{
    matches!(op, OneOp::Negate)
}

fn leaf_number(op: &LeafOp) -> u64
    ensures { result ≡ leaf_number op.now }
{
    match op {
        LeafOp::Number(n) => *n,
        _ => 0,
    }
}

/// The number of a literal without its sign.
fn number_in(e: &Expr) -> u64
    ensures { result ≡ number_in e.now }
{
    match e.level() {
        ExprLevel::Leaf(head) => leaf_number(&head.op),
        _ => 0,
    }
}

/// What has two parts.
fn two_value(op: TwoOp, a: Measured, b: Measured) -> Result<Measured, NoMemory>
    ensures { IfOk result (λ r. r ≡ two_value op a b) }
{
    match op {
        TwoOp::Binary(op) => binary_value(op, a, b),
        TwoOp::Index => {
            let found = indexed(&a, &b);
            drop(a);
            drop(b);
            found
        }
        TwoOp::Item(n) => {
            let found = item_value(n, &a, &b);
            drop(a);
            drop(b);
            found
        }
    }
}

/// Puts a value behind others, where there is one.
fn keep(values: &mut Vec<Value>, found: Outcome) -> Result<(), NoMemory>
    ensures { OnOk result (values.new.items ≡ values.old.items ++ kept found) }
{
    match found {
        Outcome::Value(value) => {
            values.push(value)?;
            Ok(())
        }
        Outcome::Regex(text) => {
            drop(text);
            Ok(())
        }
        Outcome::NotConstant => Ok(()),
        Outcome::Error => Ok(()),
        Outcome::Unknown => Ok(()),
    }
}

/// What the parts of a node are.
#[cycle(value_of)]
#[tactic(auto, using(crate::proofs::Lists::worse_step, crate::proofs::Lists::kept_step))]
fn gathered<C: Constants>(
    alloc: Global,
    constants: &C,
    parts: &[Expr],
) -> Result<Gathered, NoMemory>
    ensures lack { IfOk result (λ g. g.lack ≡ worst (all_values (C.known constants.now)
        (exprs parts.now))) }
    ensures values { IfOk result (λ g. g.values.items ≡ values (all_values
        (C.known constants.now) (exprs parts.now))) }
{
    let mut lack = Lack::Nothing;
    let mut values = Vec::new(alloc);
    let mut extent = Extent::none();
    for part in parts {
        let found = value_of(alloc, constants, part)?;
        lack = lack.worse(found.outcome().lack());
        let wider = extent.beside(found.extent());
        keep(&mut values, found.into_outcome())?;
        extent = wider?;
    }
    Ok(Gathered {
        lack,
        values,
        extent,
    })
}

/// What has any number of parts.
#[cycle(value_of)]
fn many_value<C: Constants>(
    alloc: Global,
    constants: &C,
    head: &Many,
    parts: &[Expr],
) -> Result<Measured, NoMemory>
    ensures { IfOk result (λ r. r ≡ value_of (C.known constants.now) (many head.now
        (exprs parts.now))) }
{
    if !makes_row(head.op) {
        return Ok(Measured::small(Outcome::NotConstant));
    }
    let parts = gathered(alloc, constants, parts)?;
    made(alloc, head.op, parts)
}

/// What has one part, in which a number behind a minus sign is a literal.
#[cycle(value_of)]
fn behind<C: Constants>(
    alloc: Global,
    constants: &C,
    head: &One,
    part: &Expr,
) -> Result<Measured, NoMemory>
    ensures { IfOk result (λ r. r ≡ value_of (C.known constants.now) (one head.now part.now)) }
{
    if is_minus(head.op) && part.is_number() {
        return Ok(Measured::small(negative_literal(&head.ty, number_in(part))));
    }
    let a = value_of(alloc, constants, part)?;
    let found = one_value(&head.ty, head.op, &a);
    drop(a);
    found
}

/// What a typed expression is as a constant.
#[cycle(value_of)]
pub fn value_of<C: Constants>(alloc: Global, constants: &C, e: &Expr) -> Result<Measured, NoMemory>
    ensures { IfOk result (λ r. r ≡ value_of (C.known constants.now) e.now) }
{
    match e.level() {
        ExprLevel::Leaf(head) => leaf_value(alloc, constants, &head.ty, &head.op),
        ExprLevel::One(head, a) => behind(alloc, constants, head, a),
        ExprLevel::Two(head, a, b) => {
            let left = value_of(alloc, constants, a)?;
            let right = or_drop!(value_of(alloc, constants, b); left);
            two_value(head.op, left, right)
        }
        ExprLevel::Three(_, c, a, b) => {
            let condition = value_of(alloc, constants, c)?;
            let first = or_drop!(value_of(alloc, constants, a); condition);
            let second = or_drop!(value_of(alloc, constants, b); condition, first);
            Ok(three_value(condition, first, second))
        }
        ExprLevel::Many(head, parts) => many_value(alloc, constants, head, parts),
    }
}
