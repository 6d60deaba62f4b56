// What is known where no rule is broken.
ghost use Rattle.sp_law_lists.specs.unbroken_list.Laws.{ConstantsAreToldTypes, ConstantsAreToldResults, ConstantsAreToldConstants, ConstantsAreKnownConstants, ConstantsAreKnownEnums, ConstantsAreKnownOrders, ModulesAreKnownKnown, ModulesAreKnownNamed, FunctionsAreKnown};

/// In a list in which no rule is broken each declaration of a type has a full one, each function gives a value of a full type or
/// nothing, and no rule on constants and labels is broken in the typed list: so all that is said of constants and labels holds of it.
pub fn constants_are_told()
    ensures types { ConstantsAreToldTypes }
    ensures results { ConstantsAreToldResults }
    ensures constants { ConstantsAreToldConstants }
{}

/// All is known of the constants, the enums and the byte orders of modules of such a list: each node of their values is a value of a
/// full type.
pub fn constants_are_known()
    ensures constants { ConstantsAreKnownConstants }
    ensures enums { ConstantsAreKnownEnums }
    ensures orders { ConstantsAreKnownOrders }
{}

/// Where members have full types too, all is known that the expressions of a module can name, and all of that is told that has a
/// value.
pub fn modules_are_known()
    ensures known { ModulesAreKnownKnown }
    ensures named { ModulesAreKnownNamed }
{}

/// Where members have full types, all is known of all functions: their parameters, their
/// results, and each node of their bodies.
pub fn functions_are_known()
    ensures { FunctionsAreKnown }
{}
