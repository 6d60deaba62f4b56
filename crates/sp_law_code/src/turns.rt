// The code of bodies and of units counts a turn in each cycle. These functions do nothing.
ghost use Rattle.sp_law_code.specs.turns.Laws.{BodiesTurn, FittingKeepsToLoops, JoinedTurn, PiecesTurn, ProgramsTurn, StatementsFall, UnitsTurn};

/// The heights of a statement fall along all that its code leads to without a turn.
pub fn statements_fall()
    ensures { StatementsFall }
{}

/// So the code of a body counts a turn in each cycle.
pub fn bodies_turn()
    ensures { BodiesTurn }
{}

/// So does that of a unit.
pub fn units_turn()
    ensures { UnitsTurn }
{}

/// So do two pieces of code, one behind the other, if each does.
pub fn joined_turn()
    ensures { JoinedTurn }
{}

/// So do any pieces of code, one behind another, if each does.
pub fn pieces_turn()
    ensures { PiecesTurn }
{}

/// So does a program that is such code and nothing else.
pub fn programs_turn()
    ensures { ProgramsTurn }
{}

/// A statement whose parts fit keeps to its loops.
pub fn fitting_keeps_to_loops()
    ensures { FittingKeepsToLoops }
{}
