// The owners of changed members, each in a slot of its own where it has to be kept.
ghost use Rattle.std.specs.Prelude.{◌≡◌, IfOk, OnOk};
ghost use Rattle.sp_typed.specs.Exprs.{three, exprs};
ghost use Rattle.sp_type_stmts.specs.Owners.{is_at_hand, is_changeable, is_index, owner, owner_slot, with_owner, receiver_owner, changed_owner, with_slot_of, many_kept, kept, all_kept};

use crate::scope::Scope;
use sp_base::{NoMemory, or_drop};
use sp_typed::{Expr, ExprLevel, ExprParts, LeafOp, Many, ManyOp, OneOp, Three, TwoOp};
use sp_types::Type;
use std::alloc::Global;

fn is_at_hand(e: &Expr) -> bool
    ensures { result ≡ is_at_hand e.now }
{
    match e.level() {
        ExprLevel::Leaf(head) => matches!(&head.op, LeafOp::Itself(_) | LeafOp::Local(_)),
        _ => false,
    }
}

fn is_changeable(op: OneOp) -> bool
    ensures { result ≡ is_changeable op }
{
    matches!(op, OneOp::Field(_) | OneOp::Variable(_))
}

fn is_index(op: TwoOp) -> bool
    ensures { result ≡ is_index op }
{
    matches!(op, TwoOp::Index)
}

/// The type of the owner that has to be kept where this is changed.
#[cycle(owner)]
pub fn owner(e: &Expr) -> Result<Option<Type>, NoMemory>
    ensures { IfOk result (λ t. t ≡ owner e.now) }
{
    match e.level() {
        ExprLevel::One(head, object) => {
            if is_changeable(head.op) && !is_at_hand(object) {
                Ok(Some(object.ty().copy()?))
            } else {
                Ok(None)
            }
        }
        ExprLevel::Two(head, container, _) => {
            if is_index(head.op) {
                owner(container)
            } else {
                Ok(None)
            }
        }
        _ => Ok(None),
    }
}

/// The slot of an owner that has to be kept.
pub fn keep_owner(scope: &mut Scope, owner: Option<Type>) -> Result<Option<u32>, NoMemory>
    ensures slot { IfOk result (λ n. n ≡ owner_slot scope.old owner) }
    ensures scope { OnOk result (scope.new ≡ with_owner scope.old owner) }
{
    match owner {
        Some(ty) => Ok(Some(scope.take_slot(ty)?)),
        None => Ok(None),
    }
}

/// The slot of the owner that has to be kept where this is changed.
pub(crate) fn keep_owner_of(scope: &mut Scope, e: &Expr) -> Result<Option<u32>, NoMemory>
    ensures slot { IfOk result (λ n. n ≡ owner_slot scope.old (owner e.now)) }
    ensures scope { OnOk result (scope.new ≡ with_owner scope.old (owner e.now)) }
{
    let owner = owner(e)?;
    let slot = keep_owner(scope, owner)?;
    Ok(slot)
}

fn receiver_owner(parts: &[Expr]) -> Result<Option<Type>, NoMemory>
    ensures { IfOk result (λ t. t ≡ receiver_owner parts.now) }
{
    match parts.split_first() {
        Some((receiver, _)) => owner(receiver),
        None => Ok(None),
    }
}

fn changed_owner(op: &ManyOp, parts: &[Expr]) -> Result<Option<Type>, NoMemory>
    ensures { IfOk result (λ t. t ≡ changed_owner op.now parts.now) }
{
    match op {
        ManyOp::Method(method, _) if method.changes() => receiver_owner(parts),
        _ => Ok(None),
    }
}

fn with_slot_of(op: ManyOp, slot: Option<u32>) -> ManyOp
    ensures { result ≡ with_slot_of op slot }
{
    match op {
        ManyOp::Method(method, _) => ManyOp::Method(method, slot),
        op => op,
    }
}

/// A node over its parts, with a slot for the owner of its receiver where it wants one.
fn many_kept(scope: &mut Scope, head: Many, parts: Vec<Expr>) -> Result<Expr, NoMemory>
    ensures expr { IfOk result (λ e. e ≡ (many_kept scope.old head
        (changed_owner head.op parts.items) parts.items).0) }
    ensures scope { OnOk result (scope.new ≡ (many_kept scope.old head
        (changed_owner head.op parts.items) parts.items).1) }
{
    let owner = or_drop!(changed_owner(&head.op, &parts); head, parts);
    let slot = or_drop!(keep_owner(scope, owner); head, parts);
    let op = with_slot_of(head.op, slot);
    let head = Many {
        span: head.span,
        ty: head.ty,
        op,
    };
    Ok(Expr::many(head, parts)?)
}

#[cycle(kept)]
fn all_kept(alloc: Global, scope: &mut Scope, mut parts: Vec<Expr>) -> Result<Vec<Expr>, NoMemory>
    ensures exprs { IfOk result (λ r. r.items ≡ (all_kept scope.old (exprs parts.items)).0) }
    ensures scope { OnOk result (scope.new ≡ (all_kept scope.old (exprs parts.items)).1) }
{
    let mut all = Vec::with_capacity(alloc, parts.len())?;
    parts.reverse();
    while let Some(part) = parts.pop() {
        all.push(keep_owners(alloc, scope, part)?)?;
    }
    Ok(all)
}

/// Two expressions, one behind the other.
#[cycle(kept)]
fn both_kept(alloc: Global, scope: &mut Scope, a: Expr, b: Expr) -> Result<(Expr, Expr), NoMemory>
    ensures exprs { IfOk result (λ r. (r.0 ≡ (kept scope.old a).0)
        × (r.1 ≡ (kept (kept scope.old a).1 b).0)) }
    ensures scope { OnOk result (scope.new ≡ (kept (kept scope.old a).1 b).1) }
{
    let a = or_drop!(keep_owners(alloc, scope, a); b);
    let b = or_drop!(keep_owners(alloc, scope, b); a);
    Ok((a, b))
}

/// A node with three parts.
#[cycle(kept)]
fn three_kept(
    alloc: Global,
    scope: &mut Scope,
    head: Three,
    a: Expr,
    b: Expr,
    c: Expr,
) -> Result<Expr, NoMemory>
    ensures expr { IfOk result (λ r. r ≡ (kept scope.old (three head a b c)).0) }
    ensures scope { OnOk result (scope.new ≡ (kept scope.old (three head a b c)).1) }
{
    let a = or_drop!(keep_owners(alloc, scope, a); head, b, c);
    let (b, c) = or_drop!(both_kept(alloc, scope, b, c); head, a);
    Ok(Expr::three(alloc, head, a, b, c)?)
}

/// An expression in which each method that changes its receiver has a slot for the owner, where that has to be kept.
#[cycle(kept)]
pub fn keep_owners(alloc: Global, scope: &mut Scope, e: Expr) -> Result<Expr, NoMemory>
    ensures expr { IfOk result (λ r. r ≡ (kept scope.old e).0) }
    ensures scope { OnOk result (scope.new ≡ (kept scope.old e).1) }
{
    match e.into_parts() {
        ExprParts::Leaf(head) => Ok(Expr::leaf(head)),
        ExprParts::One(head, a) => {
            let a = or_drop!(keep_owners(alloc, scope, a); head);
            Ok(Expr::one(alloc, head, a)?)
        }
        ExprParts::Two(head, a, b) => {
            let (a, b) = or_drop!(both_kept(alloc, scope, a, b); head);
            Ok(Expr::two(alloc, head, a, b)?)
        }
        ExprParts::Three(head, a, b, c) => three_kept(alloc, scope, head, a, b, c),
        ExprParts::Many(head, parts) => {
            let parts = or_drop!(all_kept(alloc, scope, parts); head);
            many_kept(scope, head, parts)
        }
    }
}
