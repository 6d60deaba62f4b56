// The meaning and the text of code. This function does nothing.
ghost use Rattle.sp_law_meaning.specs.Laws.{MeaningsAreOne};

/// A unit of a list in which each call has as many arguments as its function has parameters, each body of a hook is handed as many values
/// as it takes, and `$$` stands only where there is one, means the same by name and by the locals of code: it ends alike and tells the
/// same, and unless it waits, in the same state.
pub fn meanings_are_one()
    ensures { MeaningsAreOne }
{}
