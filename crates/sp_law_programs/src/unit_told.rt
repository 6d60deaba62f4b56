// A machine that runs a unit tells what the unit means. These functions do nothing.
ghost use Rattle.sp_law_programs.specs.unit_told.Keeps.{StartedKeeps, StartersKeep};
ghost use Rattle.sp_law_programs.specs.unit_told.Laws.{EndedDecides, EndedStepsDecide, EndsAreExact, FeedsAreMeant, MeaningsAreTold, RunsGoOn, RunsPass, StopsAreMeant, StopsAreOne, ToldStays, UnitsEnd};

/// A run that comes to a stop passes each configuration to which a run from the same one comes.
pub fn runs_pass()
    ensures { RunsPass }
{}

/// Two runs from one configuration to stops are the same run.
pub fn stops_are_one()
    ensures { StopsAreOne }
{}

/// What the machine does over a front of an input, held open, and then over more of it, it does over that.
pub fn runs_go_on()
    ensures { RunsGoOn }
{}

/// A unit gives its own instance, fails, steps back, is rejected or waits.
pub fn units_end()
    ensures { UnitsEnd }
{}

/// A machine that is started on a unit comes to a stop where it has told what the unit means.
pub fn meanings_are_told()
    ensures { MeaningsAreTold }
{}

/// Wherever it stops, it has told what the unit means.
pub fn stops_are_meant()
    ensures { StopsAreMeant }
{}

/// A wait alone tells that more is needed, a return alone a value, and an error alone that all has failed.
pub fn ends_are_exact()
    ensures { EndsAreExact }
{}

/// What a unit tells on a front of an input stays on the whole, and so does its end, unless it waits.
pub fn told_stays()
    ensures { ToldStays }
{}

/// A step over an input that is ended doesn't wait.
pub fn ended_steps_decide()
    ensures { EndedStepsDecide }
{}

/// A unit doesn't wait for more of such an input.
pub fn ended_decides()
    ensures { EndedDecides }
{}

/// A machine that is given an input piece by piece has told what the unit means wherever it stops on the last piece.
pub fn feeds_are_meant()
    ensures { FeedsAreMeant }
{}

/// The code of a starter keeps to its shapes.
pub fn starters_keep()
    ensures { StartersKeep }
{}

/// A machine before a starter keeps to the shapes.
pub fn started_keeps()
    ensures { StartedKeeps }
{}
