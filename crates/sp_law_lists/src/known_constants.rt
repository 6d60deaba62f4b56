// What is known of constants and labels.
ghost use Rattle.sp_law_lists.specs.known_constants.Laws.{ConstantsTakeNoMember, WrittenTypesAreTypes, ConstantsAreAnsweredAnswered, ConstantsAreAnsweredTyped, ConstantsAreKnownConstants, ConstantsAreKnownEnums, NamesAreToldTrees, NamesAreToldNames};

/// No node of an expression that is constant takes a member.
pub fn constants_take_no_member()
    ensures { ConstantsTakeNoMember }
{}

/// Where each alternative has its parts and each name in a type names something, each type that is written is one.
pub fn written_types_are_types()
    ensures { WrittenTypesAreTypes }
{}

/// In a list in which no rule on them is broken each constant and each label has an answer, of a full type and with a value that
/// fits it; and each constant is of a full type.
pub fn constants_are_answered()
    ensures answered { ConstantsAreAnsweredAnswered }
    ensures typed { ConstantsAreAnsweredTyped }
{}

/// All is known of the constants and the enums of such a list: each node of their values and their numbers is a value of a full type.
pub fn constants_are_known()
    ensures constants { ConstantsAreKnownConstants }
    ensures enums { ConstantsAreKnownEnums }
{}

/// In such a list all that is named in any tree is told, and so are the names round the expressions of each module, with the values
/// that the typed list tells.
pub fn names_are_told()
    ensures trees { NamesAreToldTrees }
    ensures names { NamesAreToldNames }
{}
