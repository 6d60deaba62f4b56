// A program that is laid out has its bodies, is sound where they fit, and counts a turn in each cycle. These functions do nothing.
ghost use Rattle.sp_law_programs.specs.program_laid.Laws.{FittingBodiesKeepToLoops, LaidFunctionsEnter, LaidHooksEnter, LaidProgramsAreSound, LaidProgramsCount, LaidProgramsHaveBodies, LaidProgramsTurn, WhatFollowsStands, WhatStandsIsLaid};

/// The bodies of a program that is laid out stand where its table says.
pub fn laid_programs_have_bodies()
    ensures { LaidProgramsHaveBodies }
{}

/// What is laid out behind the bodies stands where they end.
pub fn what_follows_stands()
    ensures { WhatFollowsStands }
{}

/// A program in which all of it stands, with its shapes and nothing behind, is so laid out.
pub fn what_stands_is_laid()
    ensures { WhatStandsIsLaid }
{}

/// A function of such a program can be called with values of the kinds of its parameters.
pub fn laid_functions_enter()
    ensures { LaidFunctionsEnter }
{}

/// A body of a hook can be run with what its hook hands to it.
pub fn laid_hooks_enter()
    ensures { LaidHooksEnter }
{}

/// A program that is laid out is sound where its bodies fit.
pub fn laid_programs_are_sound()
    ensures { LaidProgramsAreSound }
{}

/// Where all bodies fit, each break and each continue in them stands in a loop.
pub fn fitting_bodies_keep_to_loops()
    ensures { FittingBodiesKeepToLoops }
{}

/// A program that is laid out counts a turn in each cycle where its bodies keep to their loops.
pub fn laid_programs_turn()
    ensures { LaidProgramsTurn }
{}

/// Each call in its bodies has as many values as its function takes.
pub fn laid_programs_count()
    ensures { LaidProgramsCount }
{}
