// The values with which locals and results begin.
ghost use Rattle.std.specs.Prelude.{◌≡◌, IfOk};
ghost use Rattle.sp_meaning_states.specs.Types as types;
ghost use Rattle.sp_meaning.specs.Globals.{globals_of};
ghost use Rattle.sp_meaning.specs.Calls as calls;
ghost use Rattle.sp_code_meaning.specs.Units as units;

use sp_base::NoMemory;
use sp_lower_expr::zero_value;
use sp_lower_unit::zero_slots;
use sp_numbers::Width;
use sp_typed_units::Typed;
use sp_types::Type;
use sp_value::{Value, Values};
use std::alloc::Global;

/// The first value of a type.
pub(crate) fn first_value(alloc: Global, list: &Typed, ty: &Type) -> Result<Value, NoMemory>
    ensures { IfOk result (λ v. v ≡ types.zero_value (globals_of list.now).ranges ty.now) }
{
    zero_value(alloc, list.bitfields.as_slice(), ty)
}

/// The values with which slots of these types begin.
pub(crate) fn first_values(alloc: Global, list: &Typed, all: &[Type]) -> Result<Values, NoMemory>
    ensures { IfOk result (λ vs. vs ≡ calls.zero_slots (globals_of list.now).ranges all.now) }
{
    zero_slots(alloc, list.bitfields.as_slice(), all)
}

/// The values with which the locals of a unit's own code begin.
pub(crate) fn unit_slots(alloc: Global) -> Result<Values, NoMemory>
    ensures { IfOk result (λ vs. vs ≡ units.unit_slots) }
{
    let offset = Value::uint(Width::W64, 0);
    let unsigned = Value::uint(Width::W64, 0);
    let signed = Value::int(Width::W64, 0);
    Ok(Values::new(Vec::from_array(alloc, [offset, unsigned, signed])?))
}
