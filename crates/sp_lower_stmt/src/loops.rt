// The code of tests, and what stands round the body of a `for`.
ghost use Rattle.std.specs.Prelude.{◌≡◌, OnOk};
ghost use Rattle.sp_methods.specs.Kinds.{Kind, Unsigned};
ghost use Rattle.sp_code.specs.Shapes.{Shape, push};
ghost use Rattle.sp_emit.specs.Emitted.{Adds};
ghost use Rattle.sp_lower_expr.specs.Literals.{LiteralsFit};
ghost use Rattle.sp_lower_stmt.specs.Added.{AddsTest, AddsSequence, AddsEach, left_code};

use sp_base::NoMemory;
use sp_code::{Instr, KindRow};
use sp_emit::Emitter;
use sp_lower_expr::{Around, as_bool, expr, push_type, sum};
use sp_typed::{Expr, For};

/// A test.
pub(crate) fn test(out: &mut Emitter, around: &Around<'_>, e: &Expr) -> Result<(), NoMemory>
    requires { LiteralsFit e.now }
    ensures { OnOk result (AddsTest around.now out.old out.new e.now) }
{
    expr(out, around, e)?;
    as_bool(out)
}

/// What a `for` goes over, and how far it has come.
pub(crate) fn sequence(out: &mut Emitter, around: &Around<'_>, e: &Expr) -> Result<(), NoMemory>
    requires { LiteralsFit e.now }
    ensures { OnOk result (AddsSequence around.now out.old out.new e.now) }
{
    expr(out, around, e)?;
    out.emit(Instr::EachStart)?;
    out.push_row(KindRow::Unsigned)
}

/// The next value, which its variable gets. Where none is left, the loop goes on behind what drops the sequence, which
/// begins at an address.
pub(crate) fn each(
    out: &mut Emitter,
    around: &Around<'_>,
    head: &For,
    leave: u32,
) -> Result<(), NoMemory>
    ensures { OnOk result (AddsEach around.now out.old out.new leave head.now) }
{
    let behind = sum(sum(leave, 1)?, 1)?;
    let local = sum(around.places.first, head.slot)?;
    out.emit(Instr::EachNext(behind))?;
    push_type(out, around, &head.ty)?;
    out.emit_last(Instr::Store(local))
}

/// The way back to the next value, and what drops the sequence behind it.
pub(crate) fn each_end(out: &mut Emitter, again: u32) -> Result<(), NoMemory>
    ensures { (s : Shape) (k : Kind) → out.old.now ≡ push Unsigned (push k s) → OnOk result
        (Adds out.old out.new (left_code (push k s) again) s) }
{
    out.emit(Instr::Jump(again))?;
    out.emit_last(Instr::Pop)?;
    out.emit_last(Instr::Pop)
}
