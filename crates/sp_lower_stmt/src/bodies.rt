// The code of bodies.
ghost use Rattle.std.specs.Prelude.{◌<◌, length, OnOk};
ghost use Rattle.std.specs.List.{AllByRecursion};
ghost use Rattle.sp_code.specs.Programs.{kind_at, kinds_at, round_of};
ghost use Rattle.sp_code.specs.Shapes.{body_shape};
ghost use Rattle.sp_emit.specs.Numbered.{RoundBelow};
ghost use Rattle.sp_lower_stmt.specs.Literals.{StmtLiteralsFit};
ghost use Rattle.sp_lower_stmt.specs.Added.{AddsBody, AddsRoutine};

use crate::nodes::stmt;
use crate::ways::Ways;
use sp_base::NoMemory;
use sp_code::{Instr, RoundRow};
use sp_emit::Emitter;
use sp_lower_expr::Around;
use sp_typed::Stmt;
use sp_value::Value;

/// What a function or a body of a hook begins and ends with. Kinds are told by their numbers.
#[derive(Drop)]
pub struct Frame {
    /// The unit at hand, where it is known.
    pub unit: Option<u32>,
    pub round: RoundRow,
    /// The kinds of all its locals.
    pub locals: Vec<u32>,
    /// The value that it returns where no `return` does.
    pub ending: Value,
    /// The kind of that value.
    pub kind: u32,
}

/// Appends the code of a body, which begins with the shape at hand and ends with a value of the kind with a number. At an error
/// what was emitted is of no use any more.
pub fn body(
    out: &mut Emitter,
    around: &Around<'_>,
    ending: Value,
    kind: u32,
    s: &Stmt,
) -> Result<(), NoMemory>
    requires kind { kind < length out.old.kinds }
    requires literals { StmtLiteralsFit s.now }
    ensures { OnOk result (AddsBody around.now out.old out.new ending (kind_at out.old.kinds kind)
        s.now) }
{
    let begin = out.address()?;
    let ways = Ways {
        leave: begin,
        again: begin,
    };
    stmt(out, around, ways, s)?;
    out.constant(ending)?;
    out.push(kind)?;
    out.emit_last(Instr::Return)
}

/// Appends the code of a function or of a body of a hook, from the shape with which it begins. At an error what was emitted is
/// of no use any more.
pub fn routine(
    out: &mut Emitter,
    around: &Around<'_>,
    frame: Frame,
    s: &Stmt,
) -> Result<(), NoMemory>
    requires round { RoundBelow (length out.old.kinds) frame.round }
    requires locals { AllByRecursion (λ n. n < length out.old.kinds) frame.locals.items }
    requires kind { frame.kind < length out.old.kinds }
    requires literals { StmtLiteralsFit s.now }
    ensures { OnOk result (AddsRoutine around.now out.old out.new (body_shape frame.unit
        (round_of out.old.kinds frame.round) (kinds_at out.old.kinds frame.locals.items))
        frame.ending (kind_at out.old.kinds frame.kind) s.now) }
{
    let Frame {
        unit,
        round,
        locals,
        ending,
        kind,
    } = frame;
    out.begin(unit, round, locals);
    body(out, around, ending, kind, s)
}
