// The tests of the values of a case.
ghost use Rattle.std.specs.Prelude.{OnOk};
ghost use Rattle.sp_typed.specs.Exprs.{none, more, exprs};
ghost use Rattle.sp_lower_expr.specs.Literals.{LiteralsFit, AllLiteralsFit};
ghost use Rattle.sp_lower_stmt.specs.Added.{AddsValues};

use sp_base::NoMemory;
use sp_code::Instr;
use sp_emit::Emitter;
use sp_lower_expr::{Around, as_bool, expr};
use sp_typed::Expr;
use sp_words::{BinaryOp, UnaryOp};

/// The test of one value against a local, which leads to the body where they are equal.
fn value(
    out: &mut Emitter,
    around: &Around<'_>,
    local: u32,
    body: u32,
    e: &Expr,
) -> Result<(), NoMemory>
    requires { LiteralsFit e.now }
    ensures { OnOk result (AddsValues around.now out.old out.new local body (more e.now none)) }
{
    out.emit(Instr::Load(local))?;
    out.push_local(local)?;
    expr(out, around, e)?;
    out.emit_last(Instr::Binary(BinaryOp::Equal))?;
    as_bool(out)?;
    out.emit(Instr::Unary(UnaryOp::Not))?;
    out.emit_last(Instr::JumpNot(body))
}

/// The tests of values against a local, of which the first equal one leads to the body.
pub(crate) fn values(
    out: &mut Emitter,
    around: &Around<'_>,
    local: u32,
    body: u32,
    all: &[Expr],
) -> Result<(), NoMemory>
    requires { AllLiteralsFit (exprs all.now) }
    ensures { OnOk result (AddsValues around.now out.old out.new local body (exprs all.now)) }
{
    for e in all {
        value(out, around, local, body, e)?;
    }
    Ok(())
}
