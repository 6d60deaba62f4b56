// The code of expressions does what they mean, and keeps to its shapes. These functions do nothing.
ghost use Rattle.sp_law_code.specs.exprs.Laws.{ExpressionsKeep, ExpressionsRun};

/// Where a program has the code of an expression, it runs from there to what the expression means.
pub fn expressions_run()
    ensures { ExpressionsRun }
{}

/// The code of an expression whose parts fit keeps to the shapes with which it was given.
pub fn expressions_keep()
    ensures { ExpressionsKeep }
{}
