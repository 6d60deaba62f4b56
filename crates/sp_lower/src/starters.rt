// The starters of units.
ghost use Rattle.std.specs.Prelude.{OnOk};
ghost use Rattle.sp_lower.specs.inside.Units.{AddsStarters};

use sp_base::NoMemory;
use sp_emit::Emitter;
use sp_lower_expr::sum;
use sp_lower_unit::starter;
use sp_typed_units::{Typed, Unit};

/// Appends a starter of each of these units, which have their numbers from 0 on.
pub(crate) fn starters(out: &mut Emitter, list: &Typed, all: &[Unit]) -> Result<(), NoMemory>
    ensures { OnOk result (AddsStarters list.now out.old out.new 0 all.now) }
{
    let mut u: u32 = 0;
    for i in 0..all.len() {
        starter(out, list, u, &all[i])?;
        let next = sum(u, 1)?;
        u = next;
    }
    Ok(())
}
