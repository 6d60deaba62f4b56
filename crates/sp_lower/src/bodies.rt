// Functions and bodies of hooks, as they are laid out one behind another.
ghost use Rattle.std.specs.Prelude.{◌≡◌, [], ◌∷◌, ◌++◌, length, OnOk};
ghost use Rattle.sp_lower_expr.specs.Around.{globals_in};
ghost use Rattle.sp_lower_stmt.specs.Literals.{StmtLiteralsFit};
ghost use Rattle.sp_code_programs.specs.programs.Routines.{Routine};
ghost use Rattle.sp_lower.specs.inside.Laid.{FrameStands, IsRoutine, Lays};

use sp_base::NoMemory;
use sp_code::BodyCode;
use sp_emit::Emitter;
use sp_lower_expr::Around;
use sp_lower_stmt::{Frame, routine};
use sp_typed::Stmt;
use std::alloc::Global;

/// The table of bodies, and the kinds of the locals of each.
#[derive(Drop)]
pub(crate) struct Bodies {
    pub(crate) entries: Vec<BodyCode>,
    pub(crate) locals: Vec<Vec<u32>>,
}

/// No bodies. Takes no memory.
pub(crate) fn no_bodies(alloc: Global) -> Bodies
    ensures entries { result.entries.items ≡ [] }
    ensures locals { result.locals.items ≡ [] }
{
    Bodies {
        entries: Vec::new(alloc),
        locals: Vec::new(alloc),
    }
}

/// One more entry, and the kinds of its locals.
fn add_entry(bodies: &mut Bodies, entry: BodyCode, locals: Vec<u32>) -> Result<(), NoMemory>
    ensures entries { OnOk result (bodies.new.entries.items ≡ bodies.old.entries.items ++ entry
        ∷ []) }
    ensures locals { OnOk result (bodies.new.locals.items ≡ bodies.old.locals.items ++ locals
        ∷ []) }
{
    bodies.entries.push(entry)?;
    bodies.locals.push(locals)?;
    Ok(())
}

/// One more body, whose code is appended. The address at which it begins, which its entry doesn't know, is filled in.
pub(crate) fn lay(
    out: &mut Emitter,
    bodies: &mut Bodies,
    around: &Around<'_>,
    frame: Frame,
    mut entry: BodyCode,
    s: &Stmt,
) -> Result<(), NoMemory>
    requires frame { FrameStands (length out.old.kinds) frame }
    requires literals { StmtLiteralsFit s.now }
    ensures { (r : Routine) → IsRoutine around.now out.old.kinds frame entry s.now r → OnOk result
        (Lays (globals_in around.now) out.old bodies.old out.new bodies.new (r ∷ [])) }
{
    let locals = Vec::from_slice(out.allocator(), frame.locals.as_slice())?;
    let start = out.address()?;
    entry.start = start;
    add_entry(bodies, entry, locals)?;
    routine(out, around, frame, s)
}
