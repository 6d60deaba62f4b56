// What is known of declarations, and of what stands round the expressions of a module.
ghost use Rattle.sp_law_lists.specs.whole_list.Laws.{TypesAreFull, WrittenTypesAreFull, ModulesAreKnown, IndexesAreDecided, FunctionsAreKnown};

/// Where each alias has an answer and is written as a type may be, each declaration of a type has a full type.
pub fn types_are_full()
    ensures { TypesAreFull }
{}

/// Where each declaration of a type has a full one, what is declared with a type that is written in a module has a full type, unless
/// that can't stand there.
pub fn written_types_are_full()
    ensures { WrittenTypesAreFull }
{}

/// Where declarations have full types, all is known that the expressions of a module can name.
pub fn modules_are_known()
    ensures { ModulesAreKnown }
{}

/// Where it is known what names mean as constants, and that fits their types, it is known of each unsigned expression in which no rule
/// is broken whether it is constant.
pub fn indexes_are_decided()
    ensures { IndexesAreDecided }
{}

/// A function in which no test holds, in a context in which all that can be named is known, and fits its type where it is a
/// constant: all is known of the function, its parameters, its result, and each node of its body.
pub fn functions_are_known()
    ensures { FunctionsAreKnown }
{}
