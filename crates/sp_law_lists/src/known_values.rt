// What expressions are as constants, where no rule is broken.
ghost use Rattle.sp_law_lists.specs.known_values.Laws.{OperatorsAreTold, ConstantsAreTold};

/// An operator but `&&` and `||`, between values of types that can stand before and behind it and agree, has a value of the type of
/// its result, or is an error.
pub fn operators_are_told()
    ensures { OperatorsAreTold }
{}

/// Where what names mean as constants fits their types, what an expression is as a constant fits its type: it is a value of it, not constant, or an error, and never unknown. So it is where no rule is broken in
/// it, each of its nodes is a value of a full type, and it is no literal past its type.
pub fn constants_are_told()
    ensures { ConstantsAreTold }
{}
