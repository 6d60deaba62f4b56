// Runs of the plain machine end. These functions do nothing.
ghost use Rattle.sp_law_machine.specs.ends.Laws.{HeightsFall, RunsEnd, StepsFall, WindowStepsFall};

/// The heights that are computed from the code of a program fall where no turn is counted, if each cycle counts one.
pub fn heights_fall()
    ensures { HeightsFall }
{}

/// A step that goes on leaves fewer steps.
pub fn steps_fall()
    ensures { StepsFall }
{}

/// So does a step of a machine that is lent only the bytes of its input from a base on.
pub fn window_steps_fall()
    ensures { WindowStepsFall }
{}

/// Each run comes to a wait or to the end of all.
pub fn runs_end()
    ensures { RunsEnd }
{}
