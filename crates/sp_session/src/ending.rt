// How a unit ends, as it is told.
ghost use Rattle.std.specs.Prelude.{IfOk};
ghost use Rattle.sp_code.specs.Programs.{names_of};
ghost use Rattle.sp_session.specs.Telling.{IsOfFiber};

use sp_base::{NoMemory, ParseError};
use sp_code::Program;
use sp_events::Tree;
use sp_fiber::{Fiber, Stand};
use sp_meaning::copy_of;
use sp_show::value_tree;
use std::alloc::Global;

/// How a unit ends, as its last event tells it.
#[derive(Drop)]
pub enum Ending {
    /// It waits for more of its input, and has no last event yet.
    Waits,
    /// It was read whole; this is its value.
    Gives(Tree),
    /// It failed.
    Fails(ParseError),
}

/// How the unit of a fiber ends.
pub(crate) fn ending_of(
    alloc: Global,
    program: &Program,
    fiber: &Fiber<'_>,
) -> Result<Ending, NoMemory>
    ensures { IfOk result (IsOfFiber fiber.now (names_of program.now)) }
{
    match fiber.stand() {
        Stand::Waiting => Ok(Ending::Waits),
        Stand::Left => Ok(Ending::Waits),
        Stand::Done(value) => {
            let instances = fiber.machine().instances.as_slice();
            let tree = value_tree(alloc, program, instances, value)?;
            Ok(Ending::Gives(tree))
        }
        Stand::Failed(error) => {
            let error = copy_of(error)?;
            Ok(Ending::Fails(error))
        }
    }
}
