// The program of a list of modules has all that the list declares; where the list fits, it is sound, counts its turns and starts each unit.
// These functions do nothing.
ghost use Rattle.sp_law_programs.specs.whole_program.Laws.{CompiledListsAreSound, CurrentsAreListed, FittingProgramsAreSound, FittingProgramsStart, FunctionsAreEntered, ListedCallsCount, ListedUnitsFit, MembersAreListed, ProgramsAreSound, ProgramsHaveBodies, ProgramsHaveStarters, ProgramsHaveUnits, ProgramsTurn, StartersAreLast, UnitsHaveKinds, UnitsMeanTheirs, WhatStandsIsTheProgram};

/// A program in which all code of a list stands, with the list's tables and nothing else, is that of the list.
pub fn what_stands_is_the_program()
    ensures { WhatStandsIsTheProgram }
{}

/// What a unit means in the program of a list it means by the list.
pub fn units_mean_theirs()
    ensures { UnitsMeanTheirs }
{}

/// The program of a list has the list's functions and bodies of hooks where its table says.
pub fn programs_have_bodies()
    ensures { ProgramsHaveBodies }
{}

/// It has the list's units where its table says.
pub fn programs_have_units()
    ensures { ProgramsHaveUnits }
{}

/// It has a starter of each unit.
pub fn programs_have_starters()
    ensures { ProgramsHaveStarters }
{}

/// Starters stand at the end of its code.
pub fn starters_are_last()
    ensures { StartersAreLast }
{}

/// Its shapes have the kinds of each unit.
pub fn units_have_kinds()
    ensures { UnitsHaveKinds }
{}

/// They have each member and each parameter of a unit.
pub fn members_are_listed()
    ensures { MembersAreListed }
{}

/// Its functions can be called with values of the kinds of their parameters.
pub fn functions_are_entered()
    ensures { FunctionsAreEntered }
{}

/// The kinds of `$$` by number are those that the fields of the list give.
pub fn currents_are_listed()
    ensures { CurrentsAreListed }
{}

/// The program is sound where its bodies and units fit.
pub fn programs_are_sound()
    ensures { ProgramsAreSound }
{}

/// It counts a turn in each cycle where its bodies keep to their loops.
pub fn programs_turn()
    ensures { ProgramsTurn }
{}

/// Where the list fits, its units fit in the tables of the program.
pub fn listed_units_fit()
    ensures { ListedUnitsFit }
{}

/// Then calls and hooks have as many values as they take.
pub fn listed_calls_count()
    ensures { ListedCallsCount }
{}

/// Then the program is sound and counts a turn in each cycle.
pub fn fitting_programs_are_sound()
    ensures { FittingProgramsAreSound }
{}

/// So is a compiled program, whatever its limits.
pub fn compiled_lists_are_sound()
    ensures { CompiledListsAreSound }
{}

/// Then it starts each unit.
pub fn fitting_programs_start()
    ensures { FittingProgramsStart }
{}
