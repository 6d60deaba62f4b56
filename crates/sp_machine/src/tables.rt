// Entries of a program's tables.
ghost use Rattle.std.specs.Prelude.{◌≡◌, Some, slice_get};
ghost use Rattle.sp_code.specs.Programs.{bodies_of, units_of};
ghost use Rattle.sp_machine.specs.Bodies.{body_of, unit_of, IsBodyAt, IsUnitAt};

use sp_code::{BodyCode, Program, UnitCode};

/// The body with a number.
#[tactic(auto, using(crate::proofs::Entries::body_found))]
pub(crate) fn body_at(p: &Program, f: u32) -> &BodyCode
    requires { IsBodyAt p.now f }
    ensures { slice_get (bodies_of p.now.hooks.items) f ≡ Some (body_of result.now) }
{
    &p.hooks[f as usize]
}

/// The unit with a number.
#[tactic(auto, using(crate::proofs::Entries::unit_found))]
pub(crate) fn unit_at(p: &Program, u: u32) -> &UnitCode
    requires { IsUnitAt p.now u }
    ensures { slice_get (units_of p.now.units.items) u ≡ Some (unit_of result.now) }
{
    &p.units[u as usize]
}
