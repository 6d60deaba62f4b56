// The code of expressions.
ghost use Rattle.std.specs.Prelude.{◌≡◌, OnOk, Some};
ghost use Rattle.sp_words.specs.declared.operators.BinaryOp.TheVariants.{And, Or};
ghost use Rattle.sp_typed.specs.declared.words.TwoOp.TheVariants.{Binary};
ghost use Rattle.sp_typed.specs.Exprs.{one, many, exprs};
ghost use Rattle.sp_code.specs.Shapes.{Shape};
ghost use Rattle.sp_lower_expr.specs.Literals.{negative_number, LiteralsFit, AllLiteralsFit, PlaceFits};
ghost use Rattle.sp_lower_expr.specs.Added.{AddsExpr, AddsExprs, AddsTwo, AddsThree, AddsMany, KeepsOwner, AddsOwner, waiting, AddsLoad, AddsStore, AddsChange};

use crate::around::Around;
use crate::leaves::leaf;
use crate::one::{negative_number, one_code};
use crate::operands::{push_type, push_value};
use crate::places::{
    load_item, load_local, load_member, no_result, put_under, result_below, slot_local, store_item,
    store_local, store_member, waiting,
};
use crate::rows::{Row, first_and_rest, row_code, row_of};
use crate::two::{Joint, as_bool, both, item, joint_of};
use crate::values::number_value;
use sp_base::NoMemory;
use sp_code::{Instr, KindRow};
use sp_emit::Emitter;
use sp_typed::{Expr, ExprLevel, Many, One, Three, TwoOp};
use sp_types::Type;
use sp_value::Value;
use sp_words::Method;

/// A literal with a minus sign.
fn negative(
    out: &mut Emitter,
    around: &Around<'_>,
    head: &One,
    part: &Expr,
    n: u64,
) -> Result<(), NoMemory>
    requires literal { negative_number head.now part.now ≡ Some n }
    requires fits { LiteralsFit (one head.now part.now) }
    ensures { OnOk result (AddsExpr around.now out.old out.new (one head.now part.now)) }
{
    out.constant(number_value(&head.ty, true, n))?;
    push_type(out, around, &head.ty)
}

/// The code of what has one part.
#[cycle(expr)]
fn one(out: &mut Emitter, around: &Around<'_>, head: &One, part: &Expr) -> Result<(), NoMemory>
    requires { LiteralsFit (one head.now part.now) }
    ensures { OnOk result (AddsExpr around.now out.old out.new (one head.now part.now)) }
{
    if let Some(n) = negative_number(head, part) {
        return negative(out, around, head, part, n);
    }
    expr(out, around, part)?;
    one_code(out, head.op, &head.ty)?;
    push_type(out, around, &head.ty)
}

/// `a && b`
#[cycle(expr)]
fn and(out: &mut Emitter, around: &Around<'_>, a: &Expr, b: &Expr) -> Result<(), NoMemory>
    requires a { LiteralsFit a.now }
    requires b { LiteralsFit b.now }
    ensures { OnOk result (AddsTwo around.now out.old out.new (Binary And) a.now b.now) }
{
    expr(out, around, a)?;
    as_bool(out)?;
    let first = out.address()?;
    out.emit_last(Instr::JumpNot(0))?;
    expr(out, around, b)?;
    as_bool(out)?;
    let second = out.address()?;
    out.emit_last(Instr::Jump(0))?;
    let otherwise = out.address()?;
    out.redirect(first, Instr::JumpNot(otherwise));
    out.constant(Value::bool(false))?;
    let end = out.address()?;
    out.redirect(second, Instr::Jump(end));
    Ok(())
}

/// `a || b`
#[cycle(expr)]
fn or(out: &mut Emitter, around: &Around<'_>, a: &Expr, b: &Expr) -> Result<(), NoMemory>
    requires a { LiteralsFit a.now }
    requires b { LiteralsFit b.now }
    ensures { OnOk result (AddsTwo around.now out.old out.new (Binary Or) a.now b.now) }
{
    expr(out, around, a)?;
    as_bool(out)?;
    let first = out.address()?;
    out.emit_last(Instr::JumpNot(0))?;
    out.constant(Value::bool(true))?;
    out.push_row(KindRow::Bool)?;
    let second = out.address()?;
    out.emit_last(Instr::Jump(0))?;
    let otherwise = out.address()?;
    out.redirect(first, Instr::JumpNot(otherwise));
    expr(out, around, b)?;
    out.pop();
    let end = out.address()?;
    out.redirect(second, Instr::Jump(end));
    Ok(())
}

/// The code of what has two parts, without a look at the shape behind it.
#[cycle(expr)]
fn two(
    out: &mut Emitter,
    around: &Around<'_>,
    op: TwoOp,
    a: &Expr,
    b: &Expr,
) -> Result<(), NoMemory>
    requires a { LiteralsFit a.now }
    requires b { LiteralsFit b.now }
    ensures { OnOk result (AddsTwo around.now out.old out.new op a.now b.now) }
{
    match joint_of(op) {
        Joint::And => and(out, around, a, b),
        Joint::Or => or(out, around, a, b),
        Joint::Both(takes) => {
            expr(out, around, a)?;
            expr(out, around, b)?;
            both(out, takes)
        }
        Joint::Item(i) => {
            expr(out, around, a)?;
            item(out, i)
        }
    }
}

/// `c ? a : b`, without a look at the shape behind it.
#[cycle(expr)]
fn three(
    out: &mut Emitter,
    around: &Around<'_>,
    head: &Three,
    c: &Expr,
    a: &Expr,
    b: &Expr,
) -> Result<(), NoMemory>
    requires c { LiteralsFit c.now }
    requires a { LiteralsFit a.now }
    requires b { LiteralsFit b.now }
    ensures { OnOk result (AddsThree around.now out.old out.new head.now c.now a.now b.now) }
{
    expr(out, around, c)?;
    as_bool(out)?;
    let first = out.address()?;
    out.emit_last(Instr::JumpNot(0))?;
    expr(out, around, a)?;
    let second = out.address()?;
    out.emit_last(Instr::Jump(0))?;
    let otherwise = out.address()?;
    out.redirect(first, Instr::JumpNot(otherwise));
    expr(out, around, b)?;
    out.pop();
    let end = out.address()?;
    out.redirect(second, Instr::Jump(end));
    Ok(())
}

/// Any number of expressions, one after another, as [`expr`].
#[cycle(expr)]
pub fn exprs(out: &mut Emitter, around: &Around<'_>, parts: &[Expr]) -> Result<(), NoMemory>
    requires { AllLiteralsFit (exprs parts.now) }
    ensures { OnOk result (AddsExprs around.now out.old out.new (exprs parts.now)) }
{
    for part in parts {
        expr(out, around, part)?;
    }
    Ok(())
}

/// The code of what has any number of parts, without a look at the shape behind it.
#[cycle(expr)]
fn many(out: &mut Emitter, around: &Around<'_>, head: &Many, parts: &[Expr]) -> Result<(), NoMemory>
    requires { LiteralsFit (many head.now (exprs parts.now)) }
    ensures { OnOk result (AddsMany around.now out.old out.new head.now (exprs parts.now)) }
{
    match row_of(head.op, &around.places, parts) {
        Row::Kept(l) => out.emit(Instr::Load(l)),
        Row::Changes(m, slot) => {
            match first_and_rest(parts) {
                Some((receiver, rest)) => {
                    changed(out, around, m, slot, &head.ty, receiver, rest)
                }
                None => Ok(()),
            }
        }
        Row::Values => {
            let depth = out.depth();
            exprs(out, around, parts)?;
            row_code(out, around, head.op, parts.len())?;
            out.lower(depth);
            Ok(())
        }
    }
}

/// The owner of a member is kept in a local, where it has one.
#[cycle(expr)]
pub(crate) fn keep(
    out: &mut Emitter,
    around: &Around<'_>,
    owner: Option<u32>,
    a: &Expr,
) -> Result<(), NoMemory>
    requires { LiteralsFit a.now }
    ensures { OnOk result (KeepsOwner around.now out.old out.new owner a.now) }
{
    match owner {
        Some(l) => {
            expr(out, around, a)?;
            out.emit_last(Instr::Store(l))
        }
        None => Ok(()),
    }
}

/// The owner of a member, from its local where it has one.
#[cycle(expr)]
pub(crate) fn owned(
    out: &mut Emitter,
    around: &Around<'_>,
    owner: Option<u32>,
    a: &Expr,
) -> Result<(), NoMemory>
    requires { LiteralsFit a.now }
    ensures { OnOk result (AddsOwner around.now out.old out.new owner a.now) }
{
    match owner {
        Some(l) => {
            out.emit(Instr::Load(l))?;
            push_value(out, around, a)
        }
        None => expr(out, around, a),
    }
}

/// The value of a place, with what waits below it.
#[cycle(expr)]
pub fn load(
    out: &mut Emitter,
    around: &Around<'_>,
    owner: Option<u32>,
    e: &Expr,
) -> Result<(), NoMemory>
    requires { PlaceFits e.now }
    ensures { OnOk result (AddsLoad around.now out.old out.new owner e.now) }
{
    match e.level() {
        ExprLevel::Leaf(head) => load_local(out, around, head),
        ExprLevel::One(head, a) => {
            keep(out, around, owner, a)?;
            owned(out, around, owner, a)?;
            load_member(out, around, head)
        }
        ExprLevel::Two(head, a, b) => {
            load(out, around, owner, a)?;
            expr(out, around, b)?;
            load_item(out, around, head, a, b)
        }
        _ => push_value(out, around, e),
    }
}

/// The value on top is put in a place, for which what waits below it stands there.
#[cycle(expr)]
pub fn store(
    out: &mut Emitter,
    around: &Around<'_>,
    owner: Option<u32>,
    e: &Expr,
) -> Result<(), NoMemory>
    requires { PlaceFits e.now }
    ensures { (s : Shape) → out.old.now ≡ waiting around.now s e.now → OnOk result (AddsStore
        around.now out.old out.new owner s e.now) }
{
    match e.level() {
        ExprLevel::Leaf(head) => store_local(out, around, head),
        ExprLevel::One(head, a) => {
            owned(out, around, owner, a)?;
            store_member(out, head)
        }
        ExprLevel::Two(_, a, _) => {
            store_item(out)?;
            store(out, around, owner, a)
        }
        _ => {
            out.pop();
            Ok(())
        }
    }
}

/// The call of a method that changes its receiver.
#[cycle(expr)]
fn changed(
    out: &mut Emitter,
    around: &Around<'_>,
    m: Method,
    slot: Option<u32>,
    ty: &Type,
    receiver: &Expr,
    rest: &[Expr],
) -> Result<(), NoMemory>
    requires receiver { PlaceFits receiver.now }
    requires rest { AllLiteralsFit (exprs rest.now) }
    ensures { OnOk result (AddsChange around.now out.old out.new m slot ty.now receiver.now
        (exprs rest.now)) }
{
    let owner = slot_local(around, slot)?;
    let depth = out.depth();
    load(out, around, owner, receiver)?;
    exprs(out, around, rest)?;
    out.emit(Instr::Lib(m))?;
    out.lower(depth);
    put_under(out, around, m, ty, receiver, depth)?;
    result_below(out, around, m, ty)?;
    waiting(out, around, receiver)?;
    store(out, around, owner, receiver)?;
    no_result(out, m, depth)
}

/// Appends the code of an expression, whose literals their types have room for, to what was emitted. At an error what was
/// emitted is of no use any more.
#[cycle(expr)]
pub fn expr(out: &mut Emitter, around: &Around<'_>, e: &Expr) -> Result<(), NoMemory>
    requires { LiteralsFit e.now }
    ensures { OnOk result (AddsExpr around.now out.old out.new e.now) }
{
    match e.level() {
        ExprLevel::Leaf(head) => leaf(out, around, head),
        ExprLevel::One(head, a) => one(out, around, head, a),
        ExprLevel::Two(head, a, b) => {
            two(out, around, head.op, a, b)?;
            push_type(out, around, &head.ty)
        }
        ExprLevel::Three(head, c, a, b) => {
            three(out, around, head, c, a, b)?;
            push_type(out, around, &head.ty)
        }
        ExprLevel::Many(head, parts) => {
            many(out, around, head, parts)?;
            push_type(out, around, &head.ty)
        }
    }
}
