// Operands of the kinds of types and expressions.
ghost use Rattle.std.specs.Prelude.{OnOk};
ghost use Rattle.sp_meaning_states.specs.Types.{kind_of_type};
ghost use Rattle.sp_code.specs.Shapes.{push};
ghost use Rattle.sp_code_programs.specs.exprs.Code.{kind_of};
ghost use Rattle.sp_emit.specs.Emitted.{TurnsTo};
ghost use Rattle.sp_lower_expr.specs.Around.{globals_in, layout_in};

use crate::around::Around;
use sp_base::NoMemory;
use sp_emit::Emitter;
use sp_typed::Expr;
use sp_types::Type;

/// One more operand, of the kind of a type.
pub fn push_type(out: &mut Emitter, around: &Around<'_>, ty: &Type) -> Result<(), NoMemory>
    ensures { OnOk result (TurnsTo out.old out.new (push (kind_of_type
        (globals_in around.now).ranges ty.now) out.old.now)) }
{
    out.push_type(around.bitfields(), ty)
}

/// One more operand, of the kind of an expression.
pub fn push_value(out: &mut Emitter, around: &Around<'_>, e: &Expr) -> Result<(), NoMemory>
    ensures { OnOk result (TurnsTo out.old out.new (push (kind_of (globals_in around.now)
        (layout_in around.now) e.now) out.old.now)) }
{
    push_type(out, around, e.ty())
}

/// Two more operands, of the kinds of two expressions.
pub(crate) fn push_values(
    out: &mut Emitter,
    around: &Around<'_>,
    a: &Expr,
    b: &Expr,
) -> Result<(), NoMemory>
    ensures { OnOk result (TurnsTo out.old out.new (push (kind_of (globals_in around.now)
        (layout_in around.now) b.now) (push (kind_of (globals_in around.now)
        (layout_in around.now) a.now) out.old.now))) }
{
    push_value(out, around, a)?;
    push_value(out, around, b)
}
