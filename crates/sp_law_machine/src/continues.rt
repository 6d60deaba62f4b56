// What is known of a front of an input stays on the whole. These functions do nothing.
ghost use Rattle.sp_law_machine.specs.continues.Laws.{ReadsContinue, RunsContinue, StepsContinue};
ghost use Rattle.sp_law_machine.specs.continues.Windows.{MarksServe, PlacesStay, WindowsRun, WindowsServe};

/// What is read of an input that is held open, unless bytes lack, is read of each continuation of it.
pub fn reads_continue()
    ensures { ReadsContinue }
{}

/// A step over an input that is held open, unless it waits, is the same step over each continuation of it.
pub fn steps_continue()
    ensures { StepsContinue }
{}

/// What the machine has done over an input that is held open, it does over each continuation of it.
pub fn runs_continue()
    ensures { RunsContinue }
{}

/// A machine that is lent only the bytes of its input from a base on does the step that it does on the whole, where no place at
/// which it may still look is before the base.
pub fn windows_serve()
    ensures { WindowsServe }
{}

/// A step leads to no place before such a base.
pub fn places_stay()
    ensures { PlacesStay }
{}

/// What such a machine has done over its window, it does over the whole input.
pub fn windows_run()
    ensures { WindowsRun }
{}

/// A machine that waits may lose all bytes before the least place that its frames still need.
pub fn marks_serve()
    ensures { MarksServe }
{}
