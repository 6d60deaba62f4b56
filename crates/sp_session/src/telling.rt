// What a fiber tells becomes events of the flow.
ghost use Rattle.std.specs.Prelude.{◌≡◌, ◌++◌, IfOk, OnOk, OnErr};
ghost use Rattle.sp_code.specs.Programs.{names_of};
ghost use Rattle.sp_meaning.specs.Meaning.{told};
ghost use Rattle.sp_session.specs.Units.{of_flow};
ghost use Rattle.sp_session.specs.Telling.{last_by, stand_by, IsFront, IsToldOn, IsToldInPart};

use crate::ending::{Ending, ending_of};
use sp_base::NoMemory;
use sp_code::Program;
use sp_events::{Event, Events, Path, What};
use sp_fiber::Fiber;
use sp_meaning::{Stand, copy_of};
use std::alloc::Global;

/// Appends an event of the flow itself, or changes nothing.
fn push(alloc: Global, what: What, out: &mut Events) -> Result<(), NoMemory>
    ensures ok { OnOk result (out.new ≡ out.old ++ told what) }
    ensures err { OnErr result (out.new ≡ out.old) }
{
    out.push(Event {
        at: Path::new(alloc),
        what,
    })
}

/// Appends all of these, or where there is no memory a front of them.
fn push_all(alloc: Global, whats: Vec<What>, out: &mut Events) -> Result<(), NoMemory>
    ensures ok { OnOk result (out.new ≡ out.old ++ of_flow whats.items) }
    ensures front { OnErr result (IsFront out.old out.new (of_flow whats.items)) }
{
    for what in whats {
        push(alloc, what, out)?;
    }
    Ok(())
}

/// Appends what a fiber has told, and the last event if there is one, and answers how the unit stands.
fn tell(
    alloc: Global,
    whats: Vec<What>,
    ending: Ending,
    out: &mut Events,
) -> Result<Stand, NoMemory>
    ensures ok { OnOk result (out.new ≡ out.old ++ (of_flow whats.items ++ last_by ending)) }
    ensures stand { IfOk result (λ stand. stand ≡ stand_by ending) }
    ensures front { OnErr result (IsFront out.old out.new (of_flow whats.items ++ last_by ending)) }
{
    push_all(alloc, whats, out)?;
    match ending {
        Ending::Waits => Ok(Stand::Waiting),
        Ending::Gives(tree) => {
            push(alloc, What::Done(tree), out)?;
            Ok(Stand::Done)
        }
        Ending::Fails(error) => {
            let stand = Stand::Failed(copy_of(&error)?);
            push(alloc, What::Failed(error), out)?;
            Ok(stand)
        }
    }
}

/// Tells what a fiber has told on, where its unit waited; a unit that was over has told all. Answers how the unit stands.
pub(crate) fn tell_on(
    alloc: Global,
    program: &Program,
    fiber: &Fiber<'_>,
    whats: Vec<What>,
    stand: &mut Stand,
    out: &mut Events,
) -> Result<Stand, NoMemory>
    ensures told { OnOk result (IsToldOn fiber.now (names_of program.now) whats.items stand.old
        stand.new out.old out.new) }
    ensures stand { IfOk result (λ answer. answer ≡ stand.new) }
    ensures front { OnErr result (IsToldInPart fiber.now (names_of program.now) whats.items stand.old
        out.old out.new) }
{
    let Stand::Waiting = stand else {
        return stand.copy();
    };
    let ending = ending_of(alloc, program, fiber)?;
    let answer = tell(alloc, whats, ending, out)?;
    *stand = answer.copy()?;
    Ok(answer)
}
