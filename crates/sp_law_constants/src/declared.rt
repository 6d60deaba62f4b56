// What declared constants and labels mean in bodies. This function does nothing.
ghost use Rattle.sp_law_constants.specs.Declared.{ExpressionsAreMeant, ConstantsAreMeant, LabelsAreMeant};

/// The value of an expression of a module by the answers of constants and labels is what evaluating it in a body of the list gives; and
/// so is the value with which a constant stands in the typed list, and the number that is written for a label.
pub fn declared_are_meant()
    ensures expressions { ExpressionsAreMeant }
    ensures constants { ConstantsAreMeant }
    ensures labels { LabelsAreMeant }
{}
