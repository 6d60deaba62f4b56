// What is known of the statements of a body.
ghost use Rattle.sp_law_lists.specs.known_statements.Laws.{TypingMakesStatements, StatementsPass, LocalsAreFull};

/// A typed body is as typing makes it, where what stands round it is kept so by the body, whose locals are those of its slots from a
/// number on, and all in it is built.
pub fn typing_makes_statements()
    ensures { TypingMakesStatements }
{}

/// A statement passes the test of what fits, where it is as typing makes it, of what is built and with its slots, no rule is broken at
/// its nodes and at the statements in it, each of its expressions is a value of a full type, but that `add` and `delete` may take the key
/// of a set, and each local that it declares has a full type. What is asked of the arguments of a call is what the list says of them, and
/// the body returns a value of the type that is wanted, or nothing.
pub fn statements_pass()
    ensures { StatementsPass }
{}

/// Where all that can be named round a body is known, also whether indexes are constant behind locals of full types, and no rule is
/// broken at its nodes and statements, each local that it declares has a full type.
pub fn locals_are_full()
    ensures { LocalsAreFull }
{}
