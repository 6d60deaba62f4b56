// The byte order of a unit.
ghost use Rattle.std.specs.Prelude.{◌≡◌};
ghost use Rattle.sp_meaning.specs.Integers.{last_order};

use sp_typed_units::OrderProperty;

/// The last of several orders, or the one that stands outside where there is none.
pub fn last_order(order: Option<u64>, properties: &[OrderProperty]) -> Option<u64>
    ensures { result ≡ last_order order properties.now }
{
    let mut last = order;
    for property in properties {
        last = property.number;
    }
    last
}
