// What is known of numbers.
ghost use Rattle.sp_law_lists.specs.known_literals.Laws.{LiteralsAreInRange, TypingWidensValues};

/// Where no rule is broken at the nodes of an expression, what is widened is in its range, and the whole is no literal past its type,
/// each number in it is one of its type.
pub fn literals_are_in_range()
    ensures { LiteralsAreInRange }
{}

/// Where what is named is in its range where it is widened, so is what is typed.
pub fn typing_widens_values()
    ensures { TypingWidensValues }
{}
