// What is known of the members of units where no rule is broken.
ghost use Rattle.sp_law_lists.specs.known_members.Laws.{ReadingsAreKnownUnbroken, ReadingsAreKnownBuilt, MembersAreKnown, ModulesAreKnown, FunctionsAreKnown};

use sp_type_members::none_is_passed_over;

/// In a list in which no rule is broken, all that units read can be read. And what is built reads integers alone.
pub fn readings_are_known()
    ensures unbroken { ReadingsAreKnownUnbroken }
    ensures built { ReadingsAreKnownBuilt }
{}

/// So all members of units have full types, and all ranges of bitfields: each field reads something that can be read, and what is
/// stored in it hangs on other members by its conversions alone, and these hang on no member that is made of itself.
pub fn members_are_known()
    ensures { MembersAreKnown }
{
    none_is_passed_over();
}

/// So all is known that the expressions of a module can name.
pub fn modules_are_known()
    ensures { ModulesAreKnown }
{
    members_are_known();
}

/// And all is known of all functions.
pub fn functions_are_known()
    ensures { FunctionsAreKnown }
{
    members_are_known();
}
