// The code of parts.
ghost use Rattle.std.specs.Prelude.{◌≡◌, OnOk};
ghost use Rattle.sp_typed_units.specs.Parts.{parts};
ghost use Rattle.sp_code.specs.Shapes.{Round};
ghost use Rattle.sp_code_programs.specs.units.Units.{unit_shape, part_code, parts_code};
ghost use Rattle.sp_emit.specs.Emitted.{Adds};

use crate::fields::field;
use sp_base::NoMemory;
use sp_emit::Emitter;
use sp_typed_units::{Part, PartNode, Typed};

/// The code of a part, where this is the byte order of its unit. One that is no integer has none.
fn part(
    out: &mut Emitter,
    list: &Typed,
    unit: u32,
    order: Option<u64>,
    part: &Part,
) -> Result<(), NoMemory>
    ensures { (r : Round) → out.old.now ≡ unit_shape unit r → OnOk result (Adds out.old out.new
        (part_code list.now unit (unit_shape unit r) order part.now) (unit_shape unit r)) }
{
    match part.level() {
        PartNode::Field(head) => field(out, list, unit, order, head),
        PartNode::Switch(..) => Ok(()),
    }
}

/// The code of parts, one after another.
pub(crate) fn parts(
    out: &mut Emitter,
    list: &Typed,
    unit: u32,
    order: Option<u64>,
    all: &[Part],
) -> Result<(), NoMemory>
    ensures { (r : Round) → out.old.now ≡ unit_shape unit r → OnOk result (Adds out.old out.new
        (parts_code list.now unit (unit_shape unit r) order (parts all.now)) (unit_shape unit r)) }
{
    for next in all {
        part(out, list, unit, order, next)?;
    }
    Ok(())
}
