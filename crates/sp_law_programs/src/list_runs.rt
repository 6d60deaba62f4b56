// The program of a list of modules that fits runs each unit that is built, and tells what the unit means by the list. These functions do
// nothing.
ghost use Rattle.sp_law_programs.specs.list_runs.Laws.{CompiledListsRun, FunctionsFitAsCalled, HooksFitAsRun, ListEndedInputsDecide, ListFeedsTell, ListMeaningsAreReached, ListMeaningsEnd, ListMeaningsStay, ListStopsTell, MeaningsAreTheLists, ProgramsRun, RunnableUnitsRun, UnitsAreRunnable, UnitsTakeNone};

/// In the program of a list that fits and is built, each function fits however it is called.
pub fn functions_fit_as_called()
    ensures { FunctionsFitAsCalled }
{}

/// So does each body of a hook that is built, as it is run.
pub fn hooks_fit_as_run()
    ensures { HooksFitAsRun }
{}

/// Such a program runs each unit that is built.
pub fn programs_run()
    ensures { ProgramsRun }
{}

/// What a unit means in the program of a list it means by the list.
pub fn meanings_are_the_lists()
    ensures { MeaningsAreTheLists }
{}

/// A compiled program of such a list is sound, and runs each unit that is built, whatever its limits.
pub fn compiled_lists_run()
    ensures { CompiledListsRun }
{}

/// Where a list fits and is built, each of its units is runnable in its compiled program.
pub fn units_are_runnable()
    ensures { UnitsAreRunnable }
{}

/// A unit without parameters takes no arguments.
pub fn units_take_none()
    ensures { UnitsTakeNone }
{}

/// A program in which a unit is runnable is sound, begins as its shapes say, and runs the unit.
pub fn runnable_units_run()
    ensures { RunnableUnitsRun }
{}

/// The meaning of such a unit, by its list, is finished.
pub fn list_meanings_end()
    ensures { ListMeaningsEnd }
{}

/// A machine that is started on it comes to a stop where it has told that meaning.
pub fn list_meanings_are_reached()
    ensures { ListMeaningsAreReached }
{}

/// Wherever it stops, it has told that meaning.
pub fn list_stops_tell()
    ensures { ListStopsTell }
{}

/// What the unit tells on a front of an input stays on the whole, and so does its end, unless it waits.
pub fn list_meanings_stay()
    ensures { ListMeaningsStay }
{}

/// Over an input that is ended it gives its instance or fails.
pub fn list_ended_inputs_decide()
    ensures { ListEndedInputsDecide }
{}

/// A machine that is given an input piece by piece has told that meaning on the whole wherever it stops on the last piece.
pub fn list_feeds_tell()
    ensures { ListFeedsTell }
{}
