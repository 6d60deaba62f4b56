// What is known of the kinds of parts.
ghost use Rattle.sp_law_lists.specs.known_kinds.Laws.{TypingMakesKinds, NamesAreMadeModule, NamesAreMadeLocals, NamesAreMadeParameters, NamesAreMadeItself, NamesAreMadeCurrent, OwnersAreKeptMade, OwnersAreKeptWidened, OwnersAreKeptOwners, ExpressionsPass, PlacesPass};

/// Where each name has the type under which a body keeps it, each node that typing makes has the type that its form gives.
pub fn typing_makes_kinds()
    ensures { TypingMakesKinds }
{}

/// Names have the types under which a body keeps them: in a module whose constants are kept, whose functions are those of the list and
/// whose members are members, behind locals and parameters that are kept, and where `self` and `$$` are of a type of which the body keeps
/// them.
pub fn names_are_made()
    ensures module { NamesAreMadeModule }
    ensures locals { NamesAreMadeLocals }
    ensures parameters { NamesAreMadeParameters }
    ensures itself { NamesAreMadeItself }
    ensures current { NamesAreMadeCurrent }
{}

/// What is kept in slots is made as it was, and widens what it did; and where the body keeps its slots, each owner of a changed member is
/// kept in a slot of its type.
pub fn owners_are_kept()
    ensures made { OwnersAreKeptMade }
    ensures widened { OwnersAreKeptWidened }
    ensures owners { OwnersAreKeptOwners }
{}

/// An expression passes the test of what fits, where each node has the type that its form gives, all in it is built, no rule is broken
/// at its nodes, each is a value of a full type, what is widened is in its range, owners are kept in locals of their types, and the whole
/// is no regular expression and no literal past its type. What is asked of the arguments of a call is what the list says of them.
pub fn expressions_pass()
    ensures { ExpressionsPass }
{}

/// So does such a place that may be changed, where the owner of its member is kept in a local of its type.
pub fn places_pass()
    ensures { PlacesPass }
{}
