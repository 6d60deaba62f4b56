// The code of what has one part, behind that of the part.
ghost use Rattle.std.specs.Prelude.{◌≡◌, [], ◌∷◌, OnOk};
ghost use Rattle.sp_value.specs.Val.{void};
ghost use Rattle.sp_methods.specs.Kinds.{Kind, Unsigned};
ghost use Rattle.sp_meaning_states.specs.Types.{plain_type};
ghost use Rattle.sp_code.specs.declared.instr.Instr.TheVariants.{Cast};
ghost use Rattle.sp_code.specs.Shapes.{Shape, push};
ghost use Rattle.sp_typed.specs.declared.words.OneOp.TheVariants.{Bit};
ghost use Rattle.sp_code_programs.specs.exprs.Marked.{mark, constant};
ghost use Rattle.sp_code_programs.specs.exprs.Code.{one_code};
ghost use Rattle.sp_emit.specs.Emitted.{Adds};
ghost use Rattle.sp_lower_expr.specs.Literals.{number_behind, negative_number};

use crate::two::item;
use crate::values::plain_type;
use sp_base::NoMemory;
use sp_code::{Instr, KindRow};
use sp_emit::Emitter;
use sp_typed::{Expr, ExprLevel, LeafOp, One, OneOp};
use sp_types::Type;
use sp_value::Value;
use sp_words::UnaryOp;

/// The number behind a minus sign that is a part of a literal.
fn number_behind(op: OneOp, part: &LeafOp) -> Option<u64>
    ensures { result ≡ number_behind op part.now }
{
    match (op, part) {
        (OneOp::Negate, LeafOp::Number(n)) => Some(*n),
        _ => None,
    }
}

/// The number of a literal with a minus sign, where it is one.
pub(crate) fn negative_number(head: &One, part: &Expr) -> Option<u64>
    ensures { result ≡ negative_number head.now part.now }
{
    match part.level() {
        ExprLevel::Leaf(leaf) => number_behind(head.op, &leaf.op),
        _ => None,
    }
}

/// A number, which isn't counted among the operands yet, as an integer of a type, which isn't either.
fn as_integer(out: &mut Emitter, ty: &Type) -> Result<(), NoMemory>
    ensures { OnOk result (Adds out.old out.new (mark (push Unsigned out.old.now)
        (Cast (plain_type ty.now)) ∷ []) out.old.now) }
{
    out.push_row(KindRow::Unsigned)?;
    out.emit_last(Instr::Cast(plain_type(ty)))
}

/// A range of a bitfield, which is on top, as an integer of its type.
fn range(out: &mut Emitter, r: u32, ty: &Type) -> Result<(), NoMemory>
    ensures { (s : Shape) (k : Kind) → out.old.now ≡ push k s → OnOk result (Adds out.old out.new
        (one_code s k (Bit r) ty.now) s) }
{
    item(out, r)?;
    as_integer(out, ty)
}

/// Void, which claims nothing, behind a part that is no value.
fn nothing(out: &mut Emitter) -> Result<(), NoMemory>
    ensures { (s : Shape) (k : Kind) → out.old.now ≡ push k s → OnOk result (Adds out.old out.new
        (constant (push k s) void ∷ []) s) }
{
    out.constant(Value::void())?;
    out.pop();
    Ok(())
}

/// What stands behind the code of a part, whose value is on top.
pub(crate) fn one_code(out: &mut Emitter, op: OneOp, ty: &Type) -> Result<(), NoMemory>
    ensures { (s : Shape) (k : Kind) → out.old.now ≡ push k s → OnOk result (Adds out.old out.new
        (one_code s k op ty.now) s) }
{
    match op {
        OneOp::Negate => out.emit_last(Instr::Unary(UnaryOp::Negate)),
        OneOp::Not => out.emit_last(Instr::Unary(UnaryOp::Not)),
        OneOp::Complement => out.emit_last(Instr::Unary(UnaryOp::Complement)),
        OneOp::Size => out.emit_last(Instr::Size),
        OneOp::Cast(_) => out.emit_last(Instr::Cast(plain_type(ty))),
        OneOp::Widen => out.emit_last(Instr::Cast(plain_type(ty))),
        OneOp::Field(m) => out.emit_last(Instr::GetField(m)),
        OneOp::Variable(m) => out.emit_last(Instr::GetField(m)),
        OneOp::Bit(r) => range(out, r, ty),
        OneOp::IsSet(m) => out.emit_last(Instr::HasField(m)),
        _ => nothing(out),
    }
}
