// The node of an alternative, over its typed parts.
ghost use Rattle.std.specs.Prelude.{◌≡◌, IfOk};
ghost use Rattle.sp_type_operands.specs.Literals.{seen};
ghost use Rattle.sp_type_operands.specs.Operands.{sort_of, result_type, key_of, unary_type};
ghost use Rattle.sp_type_context.specs.Typing.{one_at, two_at, many_at, widened, to_target, alike, agreeing, both_written, or_else, unary_op, signed_type, unary_at, joined, binary_at, cast_type, choice_type, choice_at, member_at, member_of, set_op, set_member_at, set_member_of};

use sp_ast::{NameKind, Ref};
use sp_base::{NoMemory, Span, or_drop};
use sp_numbers::Width;
use sp_type_context::{Context, Member};
use sp_type_operands::{
    OperatorSort, is_integer, is_negative, key_of, literal_word, seen, sort_of, taken, unary_type,
};
use sp_typed::{Expr, Many, ManyOp, One, OneOp, Three, Two, TwoOp, Written};
use sp_types::{Type, Word};
use sp_words::{BinaryOp, UnaryOp};
use std::alloc::Global;

pub(crate) fn one_at(
    alloc: Global,
    span: Span,
    ty: Type,
    op: OneOp,
    a: Expr,
) -> Result<Expr, NoMemory>
    ensures { IfOk result (λ e. e ≡ one_at span ty op a) }
{
    Ok(Expr::one(alloc, One { span, ty, op }, a)?)
}

pub(crate) fn two_at(
    alloc: Global,
    span: Span,
    ty: Type,
    op: TwoOp,
    a: Expr,
    b: Expr,
) -> Result<Expr, NoMemory>
    ensures { IfOk result (λ e. e ≡ two_at span ty op a b) }
{
    Ok(Expr::two(alloc, Two { span, ty, op }, a, b)?)
}

pub(crate) fn many_at(span: Span, ty: Type, op: ManyOp, parts: Vec<Expr>) -> Result<Expr, NoMemory>
    ensures { IfOk result (λ e. e ≡ many_at span ty op parts.items) }
{
    Ok(Expr::many(Many { span, ty, op }, parts)?)
}

fn widened(alloc: Global, to: &Type, e: Expr) -> Result<Expr, NoMemory>
    ensures { IfOk result (λ r. r ≡ widened to.now e) }
{
    let from = or_drop!(seen(&e); e);
    let widens = from.widens(to) && !from.same(to);
    drop(from);
    if widens {
        let ty = or_drop!(to.copy(); e);
        one_at(alloc, e.span(), ty, OneOp::Widen, e)
    } else {
        Ok(e)
    }
}

/// What goes to a target: a literal takes its type, and a value of a narrower type stands in a node that widens it.
pub fn to_target(alloc: Global, to: &Type, e: Expr) -> Result<Expr, NoMemory>
    ensures { IfOk result (λ r. r ≡ to_target to.now e) }
{
    widened(alloc, to, taken(to, e))
}

/// The type of an operator between two typed operands.
fn joined_type(op: BinaryOp, a: &Expr, b: &Expr) -> Result<Type, NoMemory>
    ensures { IfOk result (λ t. t ≡ result_type (sort_of op) (seen a.now) (seen b.now)) }
{
    let (left, right) = both_seen(a, b)?;
    let ty = sort_of(op).result(&left, &right);
    drop(left);
    drop(right);
    ty
}

/// An operator between two typed operands.
fn joined(alloc: Global, span: Span, op: BinaryOp, a: Expr, b: Expr) -> Result<Expr, NoMemory>
    ensures { IfOk result (λ e. e ≡ joined span op a b) }
{
    let ty = or_drop!(joined_type(op, &a, &b); a, b);
    two_at(alloc, span, ty, TwoOp::Binary(op), a, b)
}

/// Two literals of one type.
fn settle_both(a: Expr, b: Expr) -> (Expr, Expr)
    ensures { result ≡ alike a b }
{
    let word = literal_word(is_negative(&a) || is_negative(&b));
    (a.settle(word), b.settle(word))
}

/// The types of both.
fn both_seen(a: &Expr, b: &Expr) -> Result<(Type, Type), NoMemory>
    ensures { IfOk result (λ p. p ≡ (seen a.now, seen b.now)) }
{
    let left = seen(a)?;
    let right = or_drop!(seen(b); left);
    Ok((left, right))
}

/// Two that have to agree: of a literal and what is none, the literal takes the other's type.
fn make_agree(a: Expr, b: Expr) -> Result<(Expr, Expr), NoMemory>
    ensures { IfOk result (λ p. p ≡ agreeing a b) }
{
    if a.is_literal() && b.is_literal() {
        return Ok(settle_both(a, b));
    }
    let (left, right) = or_drop!(both_seen(&a, &b); a, b);
    let a = taken(&right, a);
    let b = taken(&left, b);
    drop(left);
    drop(right);
    Ok((a, b))
}

/// The type of the keys of a container.
fn key_type(e: &Expr) -> Result<Type, NoMemory>
    ensures { IfOk result (λ t. t ≡ key_of (seen e.now)) }
{
    let of = seen(e)?;
    let key = key_of(&of);
    drop(of);
    key
}

/// Whether a key is in a container.
fn contained_at(alloc: Global, span: Span, op: BinaryOp, a: Expr, b: Expr) -> Result<Expr, NoMemory>
    ensures { IfOk result (λ e. e ≡ joined span op (to_target (key_of (seen b)) a) b) }
{
    let key = or_drop!(key_type(&b); a, b);
    let a = to_target(alloc, &key, a);
    drop(key);
    let a = or_drop!(a; b);
    joined(alloc, span, op, a, b)
}

pub(crate) fn binary_at(
    alloc: Global,
    span: Span,
    op: BinaryOp,
    a: Expr,
    b: Expr,
) -> Result<Expr, NoMemory>
    ensures { IfOk result (λ e. e ≡ binary_at span op a b) }
{
    if let OperatorSort::Member = sort_of(op) {
        return contained_at(alloc, span, op, a, b);
    }
    let (a, b) = make_agree(a, b)?;
    joined(alloc, span, op, a, b)
}

fn choice_type(a: &Expr, b: &Expr) -> Result<Type, NoMemory>
    ensures { IfOk result (λ t. t ≡ choice_type a.now b.now) }
{
    let left = seen(a)?;
    let right = or_drop!(seen(b); left);
    let same = left.same(&right);
    drop(right);
    if same {
        Ok(left)
    } else {
        drop(left);
        Ok(Type::word(Word::Unknown))
    }
}

pub(crate) fn choice_at(
    alloc: Global,
    span: Span,
    c: Expr,
    a: Expr,
    b: Expr,
) -> Result<Expr, NoMemory>
    ensures { IfOk result (λ e. e ≡ choice_at span c a b) }
{
    let (a, b) = or_drop!(make_agree(a, b); c);
    let ty = or_drop!(choice_type(&a, &b); a, b, c);
    Ok(Expr::three(alloc, Three { span, ty }, c, a, b)?)
}

fn unary_op(op: UnaryOp) -> OneOp
    ensures { result ≡ unary_op op }
{
    match op {
        UnaryOp::Not => OneOp::Not,
        UnaryOp::Negate => OneOp::Negate,
        UnaryOp::Complement => OneOp::Complement,
    }
}

/// The type of an operator on what it sees of its operand.
fn operated_type(op: UnaryOp, e: &Expr) -> Result<Type, NoMemory>
    ensures { IfOk result (λ t. t ≡ unary_type op (seen e.now)) }
{
    let of = seen(e)?;
    let ty = unary_type(op, &of);
    drop(of);
    ty
}

fn signed_type(op: UnaryOp, e: &Expr) -> Result<Type, NoMemory>
    ensures { IfOk result (λ t. t ≡ signed_type op e.now) }
{
    match op {
        UnaryOp::Negate if e.is_number() => Ok(Type::word(Word::Int(Width::W64))),
        _ => operated_type(op, e),
    }
}

pub(crate) fn unary_at(alloc: Global, span: Span, op: UnaryOp, e: Expr) -> Result<Expr, NoMemory>
    ensures { IfOk result (λ r. r ≡ unary_at span op e) }
{
    let ty = or_drop!(signed_type(op, &e); e);
    one_at(alloc, span, ty, unary_op(op), e)
}

pub(crate) fn cast_type(to: Type) -> Type
    ensures { result ≡ cast_type to }
{
    if is_integer(&to) {
        to
    } else {
        Type::word(Word::Unknown)
    }
}

fn member_at(
    alloc: Global,
    span: Span,
    name: Span,
    member: Option<Member>,
    e: Expr,
) -> Result<Expr, NoMemory>
    ensures { IfOk result (λ r. r ≡ member_at span name member e) }
{
    match member {
        Some(member) => one_at(alloc, span, member.ty, member.op, e),
        None => one_at(
            alloc,
            span,
            Type::word(Word::Unknown),
            OneOp::NoMember(name),
            e,
        ),
    }
}

pub(crate) fn member_of<C: Context>(
    alloc: Global,
    context: &C,
    span: Span,
    name: &Ref<'_, NameKind>,
    e: Expr,
) -> Result<Expr, NoMemory>
    ensures { IfOk result (λ r. r ≡ member_of (C.around context.now) span name.now e) }
{
    let of = or_drop!(seen(&e); e);
    let member = context.member(&of, name.text());
    drop(of);
    let member = or_drop!(member; e);
    member_at(alloc, span, name.span(), member, e)
}

fn set_op(op: OneOp, name: Span) -> OneOp
    ensures { result ≡ set_op op name }
{
    match op {
        OneOp::Field(k) => OneOp::IsSet(k),
        _ => OneOp::NoMember(name),
    }
}

fn set_member_at(
    alloc: Global,
    span: Span,
    name: Span,
    member: Option<Member>,
    e: Expr,
) -> Result<Expr, NoMemory>
    ensures { IfOk result (λ r. r ≡ set_member_at span name member e) }
{
    let op = match member {
        Some(member) => set_op(member.op, name),
        None => OneOp::NoMember(name),
    };
    one_at(alloc, span, Type::word(Word::Bool), op, e)
}

pub(crate) fn set_member_of<C: Context>(
    alloc: Global,
    context: &C,
    span: Span,
    name: &Ref<'_, NameKind>,
    e: Expr,
) -> Result<Expr, NoMemory>
    ensures { IfOk result (λ r. r ≡ set_member_of (C.around context.now) span name.now e) }
{
    let of = or_drop!(seen(&e); e);
    let member = context.member(&of, name.text());
    drop(of);
    let member = or_drop!(member; e);
    set_member_at(alloc, span, name.span(), member, e)
}

fn first_of_two(a: Option<Span>, b: Option<Span>) -> Option<Span>
    ensures { result ≡ or_else a b }
{
    match a {
        Some(span) => Some(span),
        None => b,
    }
}

/// Two written types, one behind the other.
pub(crate) fn both_written(a: Written, b: Written) -> Written
    ensures { result ≡ both_written a b }
{
    Written {
        span: Span {
            from: a.span.from,
            to: b.span.to,
        },
        unnamed: first_of_two(a.unnamed, b.unnamed),
        misplaced: first_of_two(a.misplaced, b.misplaced),
    }
}
