// Laws of the meaning of every unit that a program runs. These functions do nothing.
ghost use Rattle.sp_session.specs.Laws.{ExampleRuns, UnitsAreDecided, UnitsAreSettled, UnitsAreSteady};

/// What was told stays told: the events of some bytes, held open, stand at the front of those of every continuation.
pub fn units_are_steady()
    ensures { UnitsAreSteady }
{}

/// A unit that is done or has failed tells nothing more on any continuation, and stands as before.
pub fn units_are_settled()
    ensures { UnitsAreSettled }
{}

/// A unit whose input has ended doesn't wait.
pub fn units_are_decided()
    ensures { UnitsAreDecided }
{}

/// A program with the code and the tables of a unit of one byte runs it, so the condition of `Session::start` is met by one.
pub fn example_runs()
    ensures { ExampleRuns }
{}
