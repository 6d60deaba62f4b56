// The code of statements in which no other one stands.
ghost use Rattle.std.specs.Prelude.{[], ◌∷◌, OnOk};
ghost use Rattle.sp_typed.specs.Exprs.{exprs};
ghost use Rattle.sp_code_meaning.specs.Exprs.{slot_local};
ghost use Rattle.sp_code.specs.Shapes.{push};
ghost use Rattle.sp_code_programs.specs.exprs.Marked.{constant};
ghost use Rattle.sp_code_programs.specs.units.Code.{message, message_kind};
ghost use Rattle.sp_emit.specs.Emitted.{Adds, IsOther};
ghost use Rattle.sp_lower_expr.specs.Around.{layout_in};
ghost use Rattle.sp_lower_expr.specs.Literals.{LiteralsFit, AllLiteralsFit, PlaceFits};
ghost use Rattle.sp_lower_expr.specs.Changes.{AddsKey};
ghost use Rattle.sp_lower_stmt.specs.Literals.{ValuedLiteralsFit};
ghost use Rattle.sp_lower_stmt.specs.Added.{AddsBare, AddsFresh, AddsReturn, AddsValued, AddsAssign, AddsTaken, AddsPrint};
ghost use Rattle.sp_typed.specs.declared.stmt_words.ValuedOp.TheVariants as valued_is;

use crate::ways::Ways;
use sp_base::{NoMemory, Text};
use sp_code::{Instr, KindRow};
use sp_emit::{Emitter, number};
use sp_lower_expr::{
    Around, as_bool, expr, exprs, key, push_type, put, slot_local, sum, update, zero_value,
};
use sp_typed::{Assign, BareOp, Expr, Local, ValuedOp};
use sp_value::Value;
use sp_words::{AssignOp, BinaryOp};

/// A local that begins as its type does.
fn fresh(out: &mut Emitter, around: &Around<'_>, local: &Local) -> Result<(), NoMemory>
    ensures { OnOk result (AddsFresh around.now out.old out.new local.now) }
{
    let zero = zero_value(out.allocator(), around.bitfields(), &local.ty)?;
    out.constant(zero)?;
    push_type(out, around, &local.ty)?;
    out.emit_last(Instr::Store(sum(around.places.first, local.slot)?))
}

/// `return;`
fn returned(out: &mut Emitter) -> Result<(), NoMemory>
    ensures { OnOk result (AddsReturn out.old out.new) }
{
    out.constant(Value::void())?;
    out.push_row(KindRow::Void)?;
    out.emit_last(Instr::Return)
}

/// A statement without parts.
pub(crate) fn bare(
    out: &mut Emitter,
    around: &Around<'_>,
    ways: Ways,
    op: &BareOp,
) -> Result<(), NoMemory>
    ensures { OnOk result (AddsBare around.now out.old out.new ways op.now) }
{
    match op {
        BareOp::Local(local) => fresh(out, around, local),
        BareOp::Return => returned(out),
        BareOp::Break(_) => out.emit(Instr::Jump(ways.leave)),
        BareOp::Continue(_) => out.emit(Instr::Jump(ways.again)),
        _ => Ok(()),
    }
}

/// An expression, and an instruction that takes its value.
pub(crate) fn taken(
    out: &mut Emitter,
    around: &Around<'_>,
    e: &Expr,
    instr: Instr,
) -> Result<(), NoMemory>
    requires literals { LiteralsFit e.now }
    requires instr { IsOther instr }
    ensures { OnOk result (AddsTaken around.now out.old out.new e.now instr) }
{
    expr(out, around, e)?;
    out.emit_last(instr)
}

/// The text of an assertion, or void where it has none.
fn message(out: &mut Emitter, text: &Option<Text>) -> Result<(), NoMemory>
    ensures { OnOk result (Adds out.old out.new (constant out.old.now (message text.now) ∷ [])
        (push (message_kind text.now) out.old.now)) }
{
    match text {
        Some(literal) => {
            out.constant(Value::str(literal.copy()?.into_string()?)?)?;
            out.push_row(KindRow::Text)
        }
        None => {
            out.constant(Value::void())?;
            out.push_row(KindRow::Void)
        }
    }
}

/// `assert e : "text";`
fn asserted(
    out: &mut Emitter,
    around: &Around<'_>,
    text: &Option<Text>,
    e: &Expr,
) -> Result<(), NoMemory>
    requires { LiteralsFit e.now }
    ensures { OnOk result (AddsValued around.now out.old out.new (valued_is.Assert text.now) e.now) }
{
    expr(out, around, e)?;
    as_bool(out)?;
    message(out, text)?;
    out.emit_last(Instr::Assert)?;
    out.pop();
    Ok(())
}

/// A local and its value.
fn valued_local(
    out: &mut Emitter,
    around: &Around<'_>,
    local: &Local,
    e: &Expr,
) -> Result<(), NoMemory>
    requires { LiteralsFit e.now }
    ensures { OnOk result (AddsValued around.now out.old out.new (valued_is.Local local.now) e.now) }
{
    let l = sum(around.places.first, local.slot)?;
    taken(out, around, e, Instr::Store(l))
}

/// `add s[k];` and `delete s[k];`, by the instruction that does it.
fn keyed(
    out: &mut Emitter,
    around: &Around<'_>,
    slot: Option<u32>,
    e: &Expr,
    instr: Instr,
) -> Result<(), NoMemory>
    requires place { PlaceFits e.now }
    requires instr { IsOther instr }
    ensures { OnOk result (AddsKey around.now out.old out.new (slot_local (layout_in around.now)
        slot) e.now instr) }
{
    let owner = slot_local(around, slot)?;
    key(out, around, owner, e, instr)
}

/// A statement with one expression.
pub(crate) fn valued(
    out: &mut Emitter,
    around: &Around<'_>,
    op: &ValuedOp,
    e: &Expr,
) -> Result<(), NoMemory>
    requires { ValuedLiteralsFit op.now e.now }
    ensures { OnOk result (AddsValued around.now out.old out.new op.now e.now) }
{
    match op {
        ValuedOp::Local(local) => valued_local(out, around, local, e),
        ValuedOp::Return => taken(out, around, e, Instr::Return),
        ValuedOp::Throw => taken(out, around, e, Instr::Throw),
        ValuedOp::Assert(text) => asserted(out, around, text, e),
        ValuedOp::Add(slot) => keyed(out, around, *slot, e, Instr::AddKey),
        ValuedOp::Delete(slot) => keyed(out, around, *slot, e, Instr::DeleteKey),
        ValuedOp::Expr => taken(out, around, e, Instr::Pop),
    }
}

/// An assignment, where the owner of a member has this local.
fn assigned(
    out: &mut Emitter,
    around: &Around<'_>,
    op: AssignOp,
    owner: Option<u32>,
    target: &Expr,
    value: &Expr,
) -> Result<(), NoMemory>
    requires target { PlaceFits target.now }
    requires value { LiteralsFit value.now }
    ensures { OnOk result (AddsAssign around.now out.old out.new op owner target.now value.now) }
{
    match op {
        AssignOp::Set => put(out, around, owner, target, value),
        AssignOp::Add => update(out, around, owner, target, BinaryOp::Add, value),
        AssignOp::Subtract => update(out, around, owner, target, BinaryOp::Subtract, value),
    }
}

/// `t = e;` and the like.
pub(crate) fn assign(
    out: &mut Emitter,
    around: &Around<'_>,
    head: &Assign,
    target: &Expr,
    value: &Expr,
) -> Result<(), NoMemory>
    requires target { PlaceFits target.now }
    requires value { LiteralsFit value.now }
    ensures { OnOk result (AddsAssign around.now out.old out.new head.now.op (slot_local
        (layout_in around.now) head.now.owner) target.now value.now) }
{
    let owner = slot_local(around, head.owner)?;
    assigned(out, around, head.op, owner, target, value)
}

/// `print e, e;`
pub(crate) fn print(out: &mut Emitter, around: &Around<'_>, values: &[Expr]) -> Result<(), NoMemory>
    requires { AllLiteralsFit (exprs values.now) }
    ensures { OnOk result (AddsPrint around.now out.old out.new (exprs values.now)) }
{
    let depth = out.depth();
    exprs(out, around, values)?;
    out.emit(Instr::Print(number(values.len())?))?;
    out.lower(depth);
    Ok(())
}
