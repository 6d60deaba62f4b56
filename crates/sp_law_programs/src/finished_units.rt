// What a unit of integers means is finished with fuel enough, and a machine that runs it tells that. These functions do nothing.
ghost use Rattle.sp_law_programs.specs.finished_units.Fuel.{UnitsAreDecidedByTurns, UnitsAreFinished, UnitsAreTheSameAtMore};
ghost use Rattle.sp_law_programs.specs.finished_units.Laws.{EndedInputsDecide, FeedsTell, FuelsAgree, MeaningsAreReached, MeaningsEnd, MeaningsStay, StopsTell};

/// More fuel changes nothing of a unit that is finished.
pub fn units_are_the_same_at_more()
    ensures { UnitsAreTheSameAtMore }
{}

/// No fuel does more than one above the turns, whatever stands in the unit.
pub fn units_are_decided_by_turns()
    ensures { UnitsAreDecidedByTurns }
{}

/// With such a fuel a unit of integers that fits and is built of what has a meaning gives its instance, fails or waits.
pub fn units_are_finished()
    ensures { UnitsAreFinished }
{}

/// What a unit means at a fuel is its meaning where the fuel is above the turns, or the unit is finished.
pub fn fuels_agree()
    ensures { FuelsAgree }
{}

/// The meaning of a unit that a program runs is finished.
pub fn meanings_end()
    ensures { MeaningsEnd }
{}

/// A machine that is started on such a unit comes to a stop where it has told the unit's meaning.
pub fn meanings_are_reached()
    ensures { MeaningsAreReached }
{}

/// Wherever it stops, it has told the unit's meaning.
pub fn stops_tell()
    ensures { StopsTell }
{}

/// What such a unit tells on a front of an input stays on the whole, and so does its end, unless it waits.
pub fn meanings_stay()
    ensures { MeaningsStay }
{}

/// Over an input that is ended such a unit gives its instance or fails.
pub fn ended_inputs_decide()
    ensures { EndedInputsDecide }
{}

/// A machine that is given an input piece by piece has told the unit's meaning on the whole wherever it stops on the last piece.
pub fn feeds_tell()
    ensures { FeedsTell }
{}
