// The code of places: what has no expression in it.
ghost use Rattle.std.specs.Prelude.{◌≡◌, ℕ, ◌&&◌, Option, [], ◌∷◌, length, IfOk, OnOk, unwrap_or, if◌then◌else◌};
ghost use Rattle.sp_value.specs.Val.{void};
ghost use Rattle.sp_methods.specs.Kinds.{Kind};
ghost use Rattle.sp_typed.specs.Exprs.{leaf};
ghost use Rattle.sp_typed.specs.declared.words.ManyOp.TheVariants as many_is;
ghost use Rattle.sp_meaning_states.specs.Types.{kind_of_type};
ghost use Rattle.sp_code_meaning.specs.Exprs.{gives_result, is_item_place};
ghost use Rattle.sp_meaning.specs.Operations.{local_named};
ghost use Rattle.sp_code_meaning.specs.Exprs as bodies;
ghost use Rattle.sp_code.specs.declared.instr.Instr.TheVariants as does;
ghost use Rattle.sp_code.specs.Shapes.{Shape, push};
ghost use Rattle.sp_code_programs.specs.exprs.Marked.{mark, constant};
ghost use Rattle.sp_code_programs.specs.exprs.Code.{pending, pending_count, place_local, member_of, with_result, result_code};
ghost use Rattle.sp_emit.specs.Emitted.{Adds, TurnsTo, popped};
ghost use Rattle.sp_lower_expr.specs.Around.{globals_in, layout_in};
ghost use Rattle.sp_lower_expr.specs.Added.{item_code, waiting, AddsLoad, AddsStore, AddsUnder};

use crate::around::{Around, sum};
use crate::operands::{push_type, push_value, push_values};
use crate::two::{Takes, both};
use sp_base::NoMemory;
use sp_code::Instr;
use sp_emit::Emitter;
use sp_typed::{Expr, ExprLevel, Leaf, LeafOp, One, OneOp, Two};
use sp_types::Type;
use sp_value::Value;
use sp_words::Method;

/// A slot as a local.
pub fn slot_local(around: &Around<'_>, slot: Option<u32>) -> Result<Option<u32>, NoMemory>
    ensures { IfOk result (λ l. l ≡ bodies.slot_local (layout_in around.now) slot) }
{
    match slot {
        Some(s) => Ok(Some(sum(around.places.first, s)?)),
        None => Ok(None),
    }
}

fn slot_of(op: &LeafOp) -> u32
    ensures { result ≡ unwrap_or (local_named op.now) 0 }
{
    match op {
        LeafOp::Local(s) => *s,
        _ => 0,
    }
}

/// The local that a place is.
fn place_local(around: &Around<'_>, op: &LeafOp) -> Result<u32, NoMemory>
    ensures { IfOk result (λ l. l ≡ place_local (globals_in around.now) (layout_in around.now)
        op.now) }
{
    sum(around.places.first, slot_of(op))
}

/// The member that a place is.
fn member_of(op: OneOp) -> u32
    ensures { result ≡ member_of op }
{
    match op {
        OneOp::Field(m) => m,
        OneOp::Variable(m) => m,
        _ => 0,
    }
}

pub(crate) fn load_local(
    out: &mut Emitter,
    around: &Around<'_>,
    head: &Leaf,
) -> Result<(), NoMemory>
    ensures { (owner : Option ℕ) → OnOk result (AddsLoad around.now out.old out.new owner
        (leaf head.now)) }
{
    out.emit(Instr::Load(place_local(around, &head.op)?))?;
    push_type(out, around, &head.ty)
}

/// A member of the owner on top.
pub(crate) fn load_member(
    out: &mut Emitter,
    around: &Around<'_>,
    head: &One,
) -> Result<(), NoMemory>
    ensures { (s : Shape) (k : Kind) → out.old.now ≡ push k s → OnOk result (Adds out.old out.new
        (mark (push k s) (does.GetField (member_of head.now.op)) ∷ []) (push (kind_of_type
        (globals_in around.now).ranges head.now.ty) s)) }
{
    out.emit_last(Instr::GetField(member_of(head.op)))?;
    push_type(out, around, &head.ty)
}

/// An item of the container below the key on top; both stay.
pub(crate) fn load_item(
    out: &mut Emitter,
    around: &Around<'_>,
    head: &Two,
    a: &Expr,
    b: &Expr,
) -> Result<(), NoMemory>
    ensures { OnOk result (Adds out.old out.new (item_code around.now out.old.now a.now b.now)
        (push (kind_of_type (globals_in around.now).ranges head.now.ty) out.old.now)) }
{
    out.emit(Instr::Dup)?;
    push_values(out, around, a, b)?;
    both(out, Takes::Index)?;
    push_type(out, around, &head.ty)
}

pub(crate) fn store_local(
    out: &mut Emitter,
    around: &Around<'_>,
    head: &Leaf,
) -> Result<(), NoMemory>
    ensures { (owner : Option ℕ) (s : Shape) → out.old.now ≡ waiting around.now s (leaf head.now)
        → OnOk result (AddsStore around.now out.old out.new owner s (leaf head.now)) }
{
    out.emit_last(Instr::Store(place_local(around, &head.op)?))
}

/// The value on top, of whatever kind, is put in a local.
pub(crate) fn put_local(out: &mut Emitter, around: &Around<'_>, head: &Leaf) -> Result<(), NoMemory>
    ensures { OnOk result (Adds out.old out.new (mark out.old.now (does.Store (place_local
        (globals_in around.now) (layout_in around.now) head.now.op)) ∷ []) (popped
        out.old.now)) }
{
    out.emit_last(Instr::Store(place_local(around, &head.op)?))
}

/// The owner on top gets the value below it as a member.
pub(crate) fn store_member(out: &mut Emitter, head: &One) -> Result<(), NoMemory>
    ensures { (s : Shape) (j : Kind) (k : Kind) → out.old.now ≡ push k (push j s) → OnOk result
        (Adds out.old out.new (mark (push k (push j s)) (does.SetField (member_of head.now.op))
        ∷ []) s) }
{
    out.emit_last(Instr::SetField(member_of(head.op)))?;
    out.pop();
    Ok(())
}

/// The value on top is put in a container at a key.
pub(crate) fn store_item(out: &mut Emitter) -> Result<(), NoMemory>
    ensures { (s : Shape) (i : Kind) (j : Kind) (k : Kind) → out.old.now ≡ push k (push j
        (push i s)) → OnOk result (Adds out.old out.new (mark (push k (push j (push i s)))
        does.SetIndex ∷ []) (push i s)) }
{
    out.emit_last(Instr::SetIndex)?;
    out.pop();
    Ok(())
}

/// What waits for the store of a place.
fn pending(out: &mut Emitter, around: &Around<'_>, e: &Expr) -> Result<(), NoMemory>
    ensures { OnOk result (TurnsTo out.old out.new (pending (globals_in around.now)
        (layout_in around.now) out.old.now e.now)) }
{
    match e.level() {
        ExprLevel::Two(_, a, b) => {
            pending(out, around, a)?;
            push_values(out, around, a, b)
        }
        _ => Ok(()),
    }
}

/// A value of a place's type, and below it what waits for its store.
pub(crate) fn waiting(out: &mut Emitter, around: &Around<'_>, e: &Expr) -> Result<(), NoMemory>
    ensures { OnOk result (TurnsTo out.old out.new (waiting around.now out.old.now e.now)) }
{
    pending(out, around, e)?;
    push_value(out, around, e)
}

fn gives_result(m: Method) -> bool
    ensures { result ≡ gives_result m }
{
    matches!(m, Method::PopBack)
}

fn is_item_place(e: &Expr) -> bool
    ensures { result ≡ is_item_place e.now }
{
    match e.level() {
        ExprLevel::Two(_, _, _) => true,
        _ => false,
    }
}

/// Whether the result of a method stands on the container of the item that is changed, under which it goes.
pub fn stands_on(m: Method, receiver: &Expr) -> bool
    ensures { result ≡ gives_result m && is_item_place receiver.now }
{
    gives_result(m) && is_item_place(receiver)
}

/// How many operands a place leaves below its value.
fn pending_count(e: &Expr) -> Result<u32, NoMemory>
    ensures { IfOk result (λ n. n ≡ pending_count e.now) }
{
    match e.level() {
        ExprLevel::Two(_, a, _) => sum(pending_count(a)?, 2),
        _ => Ok(0),
    }
}

/// The result of a method goes under what waits for the store of its receiver, if anything does. So many operands are there now.
pub(crate) fn put_under(
    out: &mut Emitter,
    around: &Around<'_>,
    m: Method,
    ty: &Type,
    receiver: &Expr,
    depth: usize,
) -> Result<(), NoMemory>
    requires { depth ≡ length out.old.now.operands }
    ensures { OnOk result (AddsUnder around.now out.old out.new m ty.now receiver.now) }
{
    if !stands_on(m, receiver) {
        return Ok(());
    }
    let n = pending_count(receiver)?;
    pending(out, around, receiver)?;
    push_type(out, around, ty)?;
    push_value(out, around, receiver)?;
    out.emit(Instr::Under(n))?;
    out.lower(depth);
    Ok(())
}

/// The result of a method, where it has one.
pub(crate) fn result_below(
    out: &mut Emitter,
    around: &Around<'_>,
    m: Method,
    ty: &Type,
) -> Result<(), NoMemory>
    ensures { (slot : Option ℕ) → OnOk result (TurnsTo out.old out.new (with_result
        (globals_in around.now) (layout_in around.now) (many_is.Method m slot)
        (kind_of_type (globals_in around.now).ranges ty.now) out.old.now)) }
{
    if gives_result(m) {
        push_type(out, around, ty)
    } else {
        Ok(())
    }
}

/// The value of a method without a result, on what stood there before.
pub(crate) fn no_result(out: &mut Emitter, m: Method, depth: usize) -> Result<(), NoMemory>
    ensures { (s : Shape) (k : Kind) → out.old.now ≡ (if gives_result m then push k s else s)
        → depth ≡ length s.operands → OnOk result (Adds out.old out.new (result_code m s) s) }
{
    if !gives_result(m) {
        out.constant(Value::void())?;
    }
    out.lower(depth);
    Ok(())
}
