// What is known of a body in which no rule is broken.
ghost use Rattle.sp_law_lists.specs.known_bodies.Laws.{KeptIsPlain, BodiesAreKnown, FormedIsBody};

/// An expression whose owners are kept in slots is plainly what it was.
pub fn kept_is_plain()
    ensures { KeptIsPlain }
{}

/// Where all that can be named round a body is known, also whether indexes are constant behind locals of full types, and no rule is broken at its nodes and statements, each node of each
/// expression in it is a value of a full type, but that `add` and `delete` may take the key of a set.
pub fn bodies_are_known()
    ensures { BodiesAreKnown }
{}

/// A tree in which each alternative has its parts is one of a body, where tests hold of each type and of each path that is
/// written in it.
pub fn formed_is_body()
    ensures { FormedIsBody }
{}
