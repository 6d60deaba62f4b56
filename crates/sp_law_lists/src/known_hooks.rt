// What is known of hooks, and of whole lists, where no rule is broken.
ghost use Rattle.sp_law_lists.specs.known_hooks.Laws.{HooksAreKnown, ListsAreKnown};

use sp_type_members::none_is_passed_over;

/// In a list in which no rule is broken all is known of hooks: their parameters have full types, and each node of their
/// priorities and of their bodies is a value of a full type. `self` and `$$` are, since a hook is of a unit, and of a field that
/// stands in it, or of the elements of one that has some.
pub fn hooks_are_known()
    ensures { HooksAreKnown }
{
    none_is_passed_over();
}

/// So all is known of such a list.
pub fn lists_are_known()
    ensures { ListsAreKnown }
{
    none_is_passed_over();
}
