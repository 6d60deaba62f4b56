// Sizes of expressions and places.
ghost use Rattle.std.specs.Prelude.{◌≡◌, IfOk};
ghost use Rattle.sp_typed.specs.Exprs.{one, many, more, exprs};
ghost use Rattle.sp_typed.specs.declared.words.ManyOp.TheVariants as many_is;
ghost use Rattle.sp_code_programs.specs.exprs.Sizes.{owner_size, expr_size, exprs_size, receiver_size, load_size, store_size};
ghost use Rattle.sp_lower_expr.specs.Around.{layout_in};

use crate::forms::{
    change_size, is_negative_literal, keep_size, member_size, one_size, three_size, two_size,
    under_size,
};
use sp_base::NoMemory;
use sp_lower_expr::{Around, Row, first_and_rest, row_of, slot_local, sum};
use sp_typed::{Expr, ExprLevel, Many, One};
use sp_words::Method;

/// A node with one part.
#[cycle(size)]
fn one_node(around: &Around<'_>, head: &One, part: &Expr) -> Result<u32, NoMemory>
    ensures { IfOk result (λ n. n ≡ expr_size (layout_in around.now) (one head.now part.now)) }
{
    if is_negative_literal(head, part) {
        return Ok(1);
    }
    sum(expr_size(around, part)?, one_size(head.op))
}

/// How many instructions expressions have, one behind another.
#[cycle(size)]
pub fn exprs_size(around: &Around<'_>, parts: &[Expr]) -> Result<u32, NoMemory>
    ensures { IfOk result (λ n. n ≡ exprs_size (layout_in around.now) (exprs parts.now)) }
{
    let mut total = 0;
    for part in parts {
        total = sum(total, expr_size(around, part)?)?;
    }
    Ok(total)
}

/// A method that changes its receiver.
#[cycle(size)]
fn changed(
    around: &Around<'_>,
    m: Method,
    slot: Option<u32>,
    receiver: &Expr,
    rest: &[Expr],
) -> Result<u32, NoMemory>
    ensures { IfOk result (λ n. n ≡ receiver_size (layout_in around.now) (many_is.Method m slot)
        (more receiver.now (exprs rest.now))) }
{
    let owner = slot_local(around, slot)?;
    let load = load_size(around, owner, receiver)?;
    let args = exprs_size(around, rest)?;
    let store = store_size(around, owner, receiver)?;
    let put = sum(under_size(m, receiver), store)?;
    change_size(m, load, args, put)
}

/// A node with any number of parts.
#[cycle(size)]
fn many_node(around: &Around<'_>, head: &Many, parts: &[Expr]) -> Result<u32, NoMemory>
    ensures { IfOk result (λ n. n ≡ expr_size (layout_in around.now) (many head.now
        (exprs parts.now))) }
{
    match row_of(head.op, &around.places, parts) {
        Row::Kept(_) => Ok(1),
        Row::Changes(m, slot) => {
            match first_and_rest(parts) {
                Some((receiver, rest)) => changed(around, m, slot, receiver, rest),
                None => Ok(0),
            }
        }
        Row::Values => sum(exprs_size(around, parts)?, 1),
    }
}

/// How many instructions give the value of a place, where the owner of a member has this local.
#[cycle(size)]
pub(crate) fn load_size(around: &Around<'_>, owner: Option<u32>, e: &Expr) -> Result<u32, NoMemory>
    ensures { IfOk result (λ n. n ≡ load_size (layout_in around.now) owner e.now) }
{
    match e.level() {
        ExprLevel::Leaf(_) => Ok(1),
        ExprLevel::One(_, a) => {
            let n = expr_size(around, a)?;
            let kept = keep_size(owner, n)?;
            sum(kept, member_size(owner, n)?)
        }
        ExprLevel::Two(_, a, b) => {
            let container = load_size(around, owner, a)?;
            let key = expr_size(around, b)?;
            sum(container, sum(key, 2)?)
        }
        _ => Ok(0),
    }
}

/// How many instructions give the owner of a member, which is only counted where no local has it.
#[cycle(size)]
fn owned_size(around: &Around<'_>, owner: Option<u32>, a: &Expr) -> Result<u32, NoMemory>
    ensures { IfOk result (λ n. n ≡ owner_size owner (expr_size (layout_in around.now) a.now)) }
{
    match owner {
        Some(_) => Ok(1),
        None => expr_size(around, a),
    }
}

/// How many instructions put a value in a place, where the owner of a member has this local.
#[cycle(size)]
pub(crate) fn store_size(around: &Around<'_>, owner: Option<u32>, e: &Expr) -> Result<u32, NoMemory>
    ensures { IfOk result (λ n. n ≡ store_size (layout_in around.now) owner e.now) }
{
    match e.level() {
        ExprLevel::Leaf(_) => Ok(1),
        ExprLevel::One(_, a) => sum(owned_size(around, owner, a)?, 1),
        ExprLevel::Two(_, a, _) => sum(1, store_size(around, owner, a)?),
        _ => Ok(0),
    }
}

/// How many instructions an expression has.
#[cycle(size)]
pub fn expr_size(around: &Around<'_>, e: &Expr) -> Result<u32, NoMemory>
    ensures { IfOk result (λ n. n ≡ expr_size (layout_in around.now) e.now) }
{
    match e.level() {
        ExprLevel::Leaf(_) => Ok(1),
        ExprLevel::One(head, a) => one_node(around, head, a),
        ExprLevel::Two(head, a, b) => {
            let first = expr_size(around, a)?;
            let second = expr_size(around, b)?;
            two_size(head.op, first, second)
        }
        ExprLevel::Three(_, c, a, b) => {
            let test = expr_size(around, c)?;
            let first = expr_size(around, a)?;
            let second = expr_size(around, b)?;
            three_size(test, first, second)
        }
        ExprLevel::Many(head, parts) => many_node(around, head, parts),
    }
}
