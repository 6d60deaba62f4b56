// What was emitted, as parts of a program.
ghost use Rattle.std.specs.Prelude.{◌≡◌, map, IfOk};
ghost use Rattle.sp_emit.specs.inside.Fields.{step_instr, step_before};

use crate::emitter::Step;
use sp_base::NoMemory;
use sp_code::{Instr, KindRow, OpenRow, ShapeRow, StackRow};
use sp_value::Values;
use std::alloc::Global;

/// Code, its constants, the table of kinds, the rows of kinds and of what is open, and the shapes by address.
#[derive(Drop)]
pub struct Emission {
    pub code: Vec<Instr>,
    pub consts: Values,
    pub kinds: Vec<KindRow>,
    pub stacks: Vec<StackRow>,
    pub opens: Vec<OpenRow>,
    pub at: Vec<ShapeRow>,
}

/// The instructions and the shapes of steps.
pub(crate) fn apart(
    alloc: Global,
    steps: Vec<Step>,
) -> Result<(Vec<Instr>, Vec<ShapeRow>), NoMemory>
    ensures { IfOk result (λ p. (p.0.items ≡ map step_instr steps.items) × (p.1.items
        ≡ map step_before steps.items)) }
{
    let mut code = Vec::with_capacity(alloc, steps.len())?;
    let mut at = Vec::with_capacity(alloc, steps.len())?;
    for step in steps {
        code.push(step.instr)?;
        at.push(step.before)?;
    }
    Ok((code, at))
}
