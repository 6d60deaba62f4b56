// Names that a unit declares twice. This function does nothing.
ghost use Rattle.sp_law_rules.specs.Names.{NamesComeTwice};

/// The checker finds a name declared twice in a unit exactly where one before it has it, and they aren't fields of two arms of one
/// switch that store values of one type.
pub fn names_come_twice()
    ensures { NamesComeTwice }
{}
