// The values with which slots begin.
ghost use Rattle.std.specs.Prelude.{◌≡◌, IfOk};
ghost use Rattle.sp_meaning.specs.Globals.{range_counts};
ghost use Rattle.sp_meaning.specs.Calls.{zero_slots};

use sp_base::NoMemory;
use sp_lower_expr::zero_value;
use sp_typed_units::Bitfield;
use sp_types::Type;
use sp_value::{Value, Values};
use std::alloc::Global;

fn zero_values(
    alloc: Global,
    bitfields: &[Bitfield],
    types: &[Type],
) -> Result<Vec<Value>, NoMemory>
    ensures { IfOk result (λ vs. vs.items ≡ zero_slots (range_counts bitfields.now) types.now) }
{
    let mut values = Vec::with_capacity(alloc, types.len())?;
    for ty in types {
        values.push(zero_value(alloc, bitfields, ty)?)?;
    }
    Ok(values)
}

/// The values with which the slots of a body begin, by their types.
pub fn zero_slots(alloc: Global, bitfields: &[Bitfield], types: &[Type]) -> Result<Values, NoMemory>
    ensures { IfOk result (λ vs. vs ≡ zero_slots (range_counts bitfields.now) types.now) }
{
    Ok(Values::new(zero_values(alloc, bitfields, types)?))
}
