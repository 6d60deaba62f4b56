// The code of bodies does what they mean. These functions do nothing.
ghost use Rattle.sp_law_code.specs.bodies.Keeps.{BodiesKeep, StatementsKeep};
ghost use Rattle.sp_law_code.specs.bodies.Laws.{FunctionsRun, HooksRun, StatementsRun};

/// Where a program has the code of a statement, it runs from there to what the statement means.
pub fn statements_run()
    ensures { StatementsRun }
{}

/// A call of a function runs to what the function means.
pub fn functions_run()
    ensures { FunctionsRun }
{}

/// The bodies of a hook, one after another, run to what they mean in this order.
pub fn hooks_run()
    ensures { HooksRun }
{}

/// The code of a statement whose parts fit keeps to the shapes with which it was given.
pub fn statements_keep()
    ensures { StatementsKeep }
{}

/// So does that of a body.
pub fn bodies_keep()
    ensures { BodiesKeep }
{}
