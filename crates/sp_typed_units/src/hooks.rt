// Of which units hooks are.
ghost use Rattle.std.specs.Prelude.{◌≡◌};
ghost use Rattle.sp_typed_units.specs.Hooks.{unit_of};

use crate::declarations::HookOf;

/// The unit of which a hook is.
pub fn unit_of(of: HookOf) -> Option<u32>
    ensures { result ≡ unit_of of }
{
    match of {
        HookOf::Nothing => None,
        HookOf::Unit(unit, _)
        | HookOf::Field(unit, _)
        | HookOf::Elements(unit, _)
        | HookOf::Anonymous(unit)
        | HookOf::AnonymousElements(unit) => Some(unit),
    }
}
