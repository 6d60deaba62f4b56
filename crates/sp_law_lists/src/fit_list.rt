// A list passes where all that it declares does.
ghost use Rattle.sp_law_lists.specs.fit_list.Laws.{PassingListsFit};

/// A list fits in whatever is its program, and its bodies and units are built of what has a meaning and have literals of their types,
/// where its constants are of their types, and all its functions, all its hooks, by what their fields store, and all its units pass.
pub fn passing_lists_fit()
    ensures { PassingListsFit }
{}
