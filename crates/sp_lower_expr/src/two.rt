// The code of what has two parts, behind that of the parts.
ghost use Rattle.std.specs.Prelude.{◌≡◌, [], ◌∷◌, OnOk};
ghost use Rattle.sp_numbers.specs.declared.width.Width.TheVariants.{W64};
ghost use Rattle.sp_value.specs.Val.{uint};
ghost use Rattle.sp_methods.specs.Kinds.{Kind, Bools, Only};
ghost use Rattle.sp_code.specs.Shapes.{Shape, push};
ghost use Rattle.sp_code.specs.declared.instr.Instr.TheVariants.{Index};
ghost use Rattle.sp_code_programs.specs.exprs.Marked.{mark, constant};
ghost use Rattle.sp_emit.specs.Emitted.{Adds, TurnsTo, IsOther};
ghost use Rattle.sp_lower_expr.specs.Joints.{joint_of, taking};

use sp_base::NoMemory;
use sp_code::{Instr, KindRow};
use sp_emit::Emitter;
use sp_numbers::Width;
use sp_typed::TwoOp;
use sp_value::Value;
use sp_words::BinaryOp;

/// What an instruction makes of two values.
#[derive(Clone, Copy)]
pub(crate) enum Takes {
    Operator(BinaryOp),
    Index,
}

/// What is done with two parts.
#[derive(Clone, Copy)]
pub(crate) enum Joint {
    And,
    Or,
    /// Both are evaluated, and taken at once.
    Both(Takes),
    /// The member of a tuple, which is the first part. The second one has no code.
    Item(u32),
}

/// What is done with the parts of a node.
pub(crate) fn joint_of(op: TwoOp) -> Joint
    ensures { result ≡ joint_of op }
{
    match op {
        TwoOp::Binary(BinaryOp::And) => Joint::And,
        TwoOp::Binary(BinaryOp::Or) => Joint::Or,
        TwoOp::Binary(op) => Joint::Both(Takes::Operator(op)),
        TwoOp::Index => Joint::Both(Takes::Index),
        TwoOp::Item(i) => Joint::Item(i),
    }
}

/// The value on top is a Boolean.
pub fn as_bool(out: &mut Emitter) -> Result<(), NoMemory>
    ensures { (s : Shape) (k : Kind) → out.old.now ≡ push k s → OnOk result (TurnsTo out.old out.new
        (push Bools s)) }
{
    out.pop();
    out.push_row(KindRow::Bool)
}

/// What takes the two values on top.
pub(crate) fn both(out: &mut Emitter, takes: Takes) -> Result<(), NoMemory>
    ensures { (s : Shape) (j : Kind) (k : Kind) → out.old.now ≡ push k (push j s) → OnOk result
        (Adds out.old out.new (mark (push k (push j s)) (taking takes) ∷ []) s) }
{
    match takes {
        Takes::Operator(op) => out.emit_last(Instr::Binary(op))?,
        Takes::Index => out.emit_last(Instr::Index)?,
    }
    out.pop();
    Ok(())
}

/// A member of the tuple on top.
pub(crate) fn item(out: &mut Emitter, i: u32) -> Result<(), NoMemory>
    ensures { (s : Shape) (j : Kind) → out.old.now ≡ push j s → OnOk result (Adds out.old out.new
        (constant (push j s) (uint W64 i) ∷ mark (push (Only i) (push j s)) Index ∷ []) s) }
{
    out.constant(Value::uint(Width::W64, u64::from(i)))?;
    out.push_row(KindRow::Only(u64::from(i)))?;
    out.emit_last(Instr::Index)?;
    out.pop();
    Ok(())
}
