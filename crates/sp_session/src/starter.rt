// Where a unit starts.
ghost use Rattle.std.specs.Prelude.{◌≡◌, ◌≤◌, ◌-◌, length, IfOk};

use sp_base::NoMemory;
use sp_code::Program;

/// The address of a unit's starter: those of all units, of two instructions each, stand at the end of the code. Instructions are named
/// by 32 bits.
pub(crate) fn starter_address(program: &Program, unit: u32) -> Result<u32, NoMemory>
    requires unit { unit ≤ length program.now.units.items }
    requires code { length program.now.units.items - unit
        ≤ length program.now.code.items - (length program.now.units.items - unit) }
    ensures { IfOk result (λ at. at ≡ length program.now.code.items
        - (length program.now.units.items - unit) - (length program.now.units.items - unit)) }
{
    let behind = program.units.len() - unit as usize;
    let at = program.code.len() - behind - behind;
    if at > u32::MAX as usize {
        return Err(NoMemory);
    }
    Ok(at as u32)
}
