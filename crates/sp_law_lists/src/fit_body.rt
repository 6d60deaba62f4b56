// What passes the test fits in every program of its list.
ghost use Rattle.sp_law_lists.specs.fit_body.Laws.{PassingStatementsFit};

/// A statement of a body that passes the test, in a loop or in none, fits in every program of its list, it is built of what has a
/// meaning, its literals are of their types, calls in it have as many arguments as parameters, and what it changes is a place.
pub fn passing_statements_fit()
    ensures { PassingStatementsFit }
{}
