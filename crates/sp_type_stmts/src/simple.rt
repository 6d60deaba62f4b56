// Statements in which no statement stands.
ghost use Rattle.std.specs.Prelude.{◌≡◌, ◌∷◌, [], map, length, is_some, IfOk, OnOk};
ghost use Rattle.sp_types.specs.Types.{tys, made};
ghost use Rattle.sp_types.specs.declared.words.Maker.TheVariants as maker_is;
ghost use Rattle.sp_ast.specs.Views.{optional_tree};
ghost use Rattle.sp_type_operands.specs.Literals.{seen};
ghost use Rattle.sp_type_context.specs.Contexts.{Around};
ghost use Rattle.sp_type_context.specs.Typing.{to_target};
ghost use Rattle.sp_type_stmts.specs.Statements.{bare_at, valued_at, written_type, written_of, type_or, declared, after_local, local_with, local_without, local_in, element_type, loop_head, return_in, text_in, valued_in, add_in, delete_in, assigned, assign_in};

use crate::body::Body;
use crate::owners::keep_owner_of;
use crate::scope::Scope;
use crate::values::value_in;
use sp_ast::{ExprKind, NameKind, Ref, StringKind, TypeKind};
use sp_base::{NoMemory, Span, Text, or_drop};
use sp_numbers::Width;
use sp_type_context::{Context, Place};
use sp_type_exprs::{to_maybe, to_target};
use sp_type_operands::{first_type, seen};
use sp_typed::{Assign, Bare, BareOp, Expr, For, Local, Stmt, StmtNode, Valued, ValuedOp, Written};
use sp_types::{Level, Maker, Type, Word};
use sp_words::AssignOp;
use std::alloc::Global;

/// A statement without parts.
pub fn bare_at(span: Span, op: BareOp) -> Result<Stmt, NoMemory>
    ensures { IfOk result (λ s. s ≡ bare_at span op) }
{
    Ok(Stmt::new(StmtNode::Bare(Bare { span, op }))?)
}

/// A statement with one expression.
fn valued_at(span: Span, op: ValuedOp, e: Expr) -> Result<Stmt, NoMemory>
    ensures { IfOk result (λ s. s ≡ valued_at span op e) }
{
    Ok(Stmt::new(StmtNode::Valued(Valued { span, op }, e))?)
}

/// The type that is written at a place, if one is.
#[tactic(auto, using(crate::proofs::Lefts::written_type_is))]
pub fn written_type<C: Context>(
    alloc: Global,
    context: &C,
    place: Place,
    tree: &Option<Ref<'_, TypeKind>>,
) -> Result<Option<Type>, NoMemory>
    ensures { IfOk result (λ t. t
        ≡ written_type (C.around context.now) place (optional_tree tree.now)) }
{
    match tree {
        Some(tree) => {
            tree.is_sound();
            Ok(Some(context.type_in(alloc, place, tree)?))
        }
        None => Ok(None),
    }
}

/// Which type is written at a place, if one is.
#[tactic(auto, using(crate::proofs::Lefts::written_of_is))]
pub fn written_of<C: Context>(
    alloc: Global,
    context: &C,
    place: Place,
    tree: &Option<Ref<'_, TypeKind>>,
) -> Result<Option<Written>, NoMemory>
    ensures { IfOk result (λ w. w
        ≡ written_of (C.around context.now) place (optional_tree tree.now)) }
{
    match tree {
        Some(tree) => {
            tree.is_sound();
            Ok(Some(context.written(alloc, place, tree)?))
        }
        None => Ok(None),
    }
}

fn type_or(written: &Option<Type>, other: Type) -> Result<Type, NoMemory>
    ensures { IfOk result (λ t. t ≡ type_or written.now other) }
{
    match written {
        Some(ty) => {
            drop(other);
            ty.copy()
        }
        None => Ok(other),
    }
}

/// Opens a local.
fn declare(
    alloc: Global,
    scope: &mut Scope,
    name: &Ref<'_, NameKind>,
    ty: Type,
    written: Option<Written>,
) -> Result<Local, NoMemory>
    ensures local { IfOk result (λ l. l ≡ declared scope.old name.now ty written) }
    ensures scope { OnOk result (scope.new ≡ after_local scope.old name.now ty) }
{
    let kept = or_drop!(ty.copy(); ty);
    let (slot, taken) = or_drop!(scope.open(alloc, name.text(), kept); ty);
    Ok(Local {
        slot,
        name: name.span(),
        ty,
        written,
        taken,
    })
}

/// Opens the variable of a loop.
pub fn loop_head(
    alloc: Global,
    scope: &mut Scope,
    name: &Ref<'_, NameKind>,
    ty: Type,
) -> Result<For, NoMemory>
    ensures head { IfOk result (λ h. h ≡ loop_head scope.old name.now ty) }
    ensures scope { OnOk result (scope.new ≡ after_local scope.old name.now ty) }
{
    let kept = or_drop!(ty.copy(); ty);
    let (slot, taken) = or_drop!(scope.open(alloc, name.text(), kept); ty);
    Ok(For {
        slot,
        name: name.span(),
        ty,
        taken,
    })
}

/// The type of a local with a value.
fn local_type(written: &Option<Type>, e: &Expr) -> Result<Type, NoMemory>
    ensures { IfOk result (λ t. t ≡ type_or written.now (seen e.now)) }
{
    type_or(written, seen(e)?)
}

/// Opens a local for a value.
fn declare_for(
    alloc: Global,
    scope: &mut Scope,
    name: &Ref<'_, NameKind>,
    ty: &Option<Type>,
    written: Option<Written>,
    e: &Expr,
) -> Result<Local, NoMemory>
    ensures local { IfOk result (λ l. l
        ≡ declared scope.old name.now (type_or ty.now (seen e.now)) written) }
    ensures scope { OnOk result (scope.new
        ≡ after_local scope.old name.now (type_or ty.now (seen e.now))) }
{
    let ty = local_type(ty, e)?;
    let local = declare(alloc, scope, name, ty, written)?;
    Ok(local)
}

/// A local behind its value.
fn local_with(
    alloc: Global,
    scope: &mut Scope,
    span: Span,
    name: &Ref<'_, NameKind>,
    ty: Option<Type>,
    written: Option<Written>,
    e: Expr,
) -> Result<Stmt, NoMemory>
    ensures stmt { IfOk result (λ s. s ≡ (local_with scope.old span name.now ty written e).0) }
    ensures scope { OnOk result (scope.new
        ≡ (local_with scope.old span name.now ty written e).1) }
{
    let local = or_drop!(declare_for(alloc, scope, name, &ty, written, &e); ty, e);
    let value = to_maybe(alloc, &ty, e);
    drop(ty);
    let value = or_drop!(value; local);
    valued_at(span, ValuedOp::Local(local), value)
}

fn local_without(
    alloc: Global,
    scope: &mut Scope,
    span: Span,
    name: &Ref<'_, NameKind>,
    ty: Option<Type>,
    written: Option<Written>,
) -> Result<Stmt, NoMemory>
    ensures stmt { IfOk result (λ s. s ≡ (local_without scope.old span name.now ty written).0) }
    ensures scope { OnOk result (scope.new
        ≡ (local_without scope.old span name.now ty written).1) }
{
    let declared = type_or(&ty, Type::word(Word::Unknown));
    drop(ty);
    let local = declare(alloc, scope, name, declared?, written)?;
    bare_at(span, BareOp::Local(local))
}

/// `local x: T = e;`
#[tactic(auto, using(crate::proofs::Lefts::local_valued))]
pub fn local_in<C: Context>(
    alloc: Global,
    context: &C,
    scope: &mut Scope,
    span: Span,
    name: &Ref<'_, NameKind>,
    tree: &Option<Ref<'_, TypeKind>>,
    value: &Option<Ref<'_, ExprKind>>,
) -> Result<Stmt, NoMemory>
    ensures stmt { IfOk result (λ s. s ≡ (local_in (C.around context.now) scope.old span name.now
        (optional_tree tree.now) (optional_tree value.now)).0) }
    ensures scope { OnOk result (scope.new ≡ (local_in (C.around context.now) scope.old span
        name.now (optional_tree tree.now) (optional_tree value.now)).1) }
{
    match value {
        Some(value) => {
            value.is_sound();
            let written = written_of(alloc, context, Place::Local, tree)?;
            let ty = written_type(alloc, context, Place::Local, tree)?;
            let e = or_drop!(value_in(alloc, context, scope, value); ty);
            local_with(alloc, scope, span, name, ty, written, e)
        }
        None => {
            let written = written_of(alloc, context, Place::Value, tree)?;
            let ty = written_type(alloc, context, Place::Value, tree)?;
            local_without(alloc, scope, span, name, ty, written)
        }
    }
}

/// A tuple of these types.
fn pair_of(alloc: Global, parts: &[Type]) -> Result<Type, NoMemory>
    ensures { IfOk result (λ t. t ≡ made maker_is.Tuple (tys parts.now)) }
{
    let mut all = Vec::with_capacity(alloc, parts.len())?;
    for part in parts {
        all.push(part.copy()?)?;
    }
    Ok(Type::made(alloc, Maker::Tuple, all)?)
}

/// The type of the variable of a `for` over values of a type.
pub fn element_type(alloc: Global, ty: &Type) -> Result<Type, NoMemory>
    ensures { IfOk result (λ t. t ≡ element_type ty.now) }
{
    match ty.level() {
        Level::Word(Word::Bytes) => Ok(Type::word(Word::Uint(Width::W8))),
        Level::Made(Maker::Vector, parts) => first_type(parts),
        Level::Made(Maker::Set, parts) => first_type(parts),
        Level::Made(Maker::Map, parts) => pair_of(alloc, parts),
        _ => Ok(Type::word(Word::Unknown)),
    }
}

/// `return;` and `return e;`
#[tactic(auto, using(crate::proofs::Lefts::return_valued))]
pub fn return_in<C: Context>(
    alloc: Global,
    body: &Body,
    context: &C,
    scope: &mut Scope,
    span: Span,
    value: &Option<Ref<'_, ExprKind>>,
) -> Result<Stmt, NoMemory>
    ensures stmt { IfOk result (λ s. s ≡ (return_in body.now (C.around context.now) scope.old
        span (optional_tree value.now)).0) }
    ensures scope { OnOk result (scope.new ≡ (return_in body.now (C.around context.now) scope.old
        span (optional_tree value.now)).1) }
{
    match value {
        Some(value) => {
            value.is_sound();
            let e = value_in(alloc, context, scope, value)?;
            valued_at(span, ValuedOp::Return, to_maybe(alloc, &body.result, e)?)
        }
        None => bare_at(span, BareOp::Return),
    }
}

/// The text behind an assertion, if there is one.
pub fn text_in(alloc: Global, text: &Option<Ref<'_, StringKind>>) -> Result<Option<Text>, NoMemory>
    ensures { IfOk result (λ t. t ≡ text_in (optional_tree text.now)) }
{
    match text {
        Some(text) => Ok(Some(Text::new(alloc, text.text())?)),
        None => Ok(None),
    }
}

/// A statement with one expression of which nothing is asked.
pub fn valued_in<C: Context>(
    alloc: Global,
    context: &C,
    scope: &mut Scope,
    span: Span,
    op: ValuedOp,
    value: &Ref<'_, ExprKind>,
) -> Result<Stmt, NoMemory>
    ensures stmt { IfOk result (λ s. s ≡ (valued_in (C.around context.now) scope.old span op
        value.now).0) }
    ensures scope { OnOk result (scope.new ≡ (valued_in (C.around context.now) scope.old span op
        value.now).1) }
{
    let e = value_in(alloc, context, scope, value)?;
    valued_at(span, op, e)
}

/// `add e;`
pub fn add_in<C: Context>(
    alloc: Global,
    context: &C,
    scope: &mut Scope,
    span: Span,
    target: &Ref<'_, ExprKind>,
) -> Result<Stmt, NoMemory>
    ensures stmt { IfOk result (λ s. s
        ≡ (add_in (C.around context.now) scope.old span target.now).0) }
    ensures scope { OnOk result (scope.new
        ≡ (add_in (C.around context.now) scope.old span target.now).1) }
{
    let e = value_in(alloc, context, scope, target)?;
    let slot = or_drop!(keep_owner_of(scope, &e); e);
    valued_at(span, ValuedOp::Add(slot), e)
}

/// `delete e;`
pub fn delete_in<C: Context>(
    alloc: Global,
    context: &C,
    scope: &mut Scope,
    span: Span,
    target: &Ref<'_, ExprKind>,
) -> Result<Stmt, NoMemory>
    ensures stmt { IfOk result (λ s. s
        ≡ (delete_in (C.around context.now) scope.old span target.now).0) }
    ensures scope { OnOk result (scope.new
        ≡ (delete_in (C.around context.now) scope.old span target.now).1) }
{
    let e = value_in(alloc, context, scope, target)?;
    let slot = or_drop!(keep_owner_of(scope, &e); e);
    valued_at(span, ValuedOp::Delete(slot), e)
}

/// A value as it goes to a target.
fn sent_to(alloc: Global, target: &Expr, e: Expr) -> Result<Expr, NoMemory>
    ensures { IfOk result (λ v. v ≡ to_target (seen target.now) e) }
{
    let to = or_drop!(seen(target); e);
    let sent = to_target(alloc, &to, e);
    drop(to);
    sent
}

fn assigned(
    alloc: Global,
    scope: &mut Scope,
    op: AssignOp,
    target: Expr,
    e: Expr,
) -> Result<Stmt, NoMemory>
    ensures stmt { IfOk result (λ s. s ≡ (assigned scope.old op target e).0) }
    ensures scope { OnOk result (scope.new ≡ (assigned scope.old op target e).1) }
{
    let value = or_drop!(sent_to(alloc, &target, e); target);
    let slot = or_drop!(keep_owner_of(scope, &target); target, value);
    let node = StmtNode::Assign(Assign { op, owner: slot }, target, value);
    Ok(Stmt::new(node)?)
}

/// `a = b;` and the like.
pub fn assign_in<C: Context>(
    alloc: Global,
    context: &C,
    scope: &mut Scope,
    op: AssignOp,
    target: &Ref<'_, ExprKind>,
    value: &Ref<'_, ExprKind>,
) -> Result<Stmt, NoMemory>
    ensures stmt { IfOk result (λ s. s ≡ (assign_in (C.around context.now) scope.old op
        target.now value.now).0) }
    ensures scope { OnOk result (scope.new ≡ (assign_in (C.around context.now) scope.old op
        target.now value.now).1) }
{
    let target = value_in(alloc, context, scope, target)?;
    let e = or_drop!(value_in(alloc, context, scope, value); target);
    assigned(alloc, scope, op, target, e)
}
