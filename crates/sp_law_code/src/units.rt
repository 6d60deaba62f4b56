// The code of units does what they mean, and keeps to its shapes. These functions do nothing.
ghost use Rattle.sp_law_code.specs.units.Keeps.{UnitsEnter, UnitsKeep};
ghost use Rattle.sp_law_code.specs.units.Laws.{UnitsRun};

/// A unit that is entered runs to what it means.
pub fn units_run()
    ensures { UnitsRun }
{}

/// The code of a unit whose parts fit keeps to the shapes with which it was given.
pub fn units_keep()
    ensures { UnitsKeep }
{}

/// What enters such a unit keeps to the shapes.
pub fn units_enter()
    ensures { UnitsEnter }
{}
