// What passes the test fits in every program of its list.
ghost use Rattle.sp_law_lists.specs.fit_expr.Laws.{PassingExpressionsFitOne, PassingExpressionsFitSeveral, PassingPlacesFit, PassingConstantsFit};

/// An expression that passes the test fits in every program of its list, it is built of what has a meaning, its literals are of their
/// types, calls in it have as many arguments as parameters, and what it changes is a place. So it is with each of several.
pub fn passing_expressions_fit()
    ensures one { PassingExpressionsFitOne }
    ensures several { PassingExpressionsFitSeveral }
{}

/// So it is with a place that is changed, where the owner of its member may be kept in a local.
pub fn passing_places_fit()
    ensures { PassingPlacesFit }
{}

/// Where constants pass, each that has a value has one of the kind of its type.
pub fn passing_constants_fit()
    ensures { PassingConstantsFit }
{}
