// What is known of units where no rule is broken.
ghost use Rattle.sp_law_lists.specs.known_units.Laws.{UnitsAreKnown};

use sp_type_members::none_is_passed_over;

/// In a list in which no rule is broken, all is known of units: their parameters and their members have full types, and each node of
/// what they read, of their variables and of their byte orders is a value of a full type.
pub fn units_are_known()
    ensures { UnitsAreKnown }
{
    none_is_passed_over();
}
