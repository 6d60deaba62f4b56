// How a fiber stands.
ghost use Rattle.sp_fiber.specs.Standing.{IsOfMode};

use sp_base::ParseError;
use sp_machine::Mode;
use sp_value::Value;

/// How a fiber stands, with what it ended by lent.
pub enum Stand<'a> {
    /// It has run nothing yet, or waits for more of its input.
    Waiting,
    /// The body that it ran has returned this value.
    Done(&'a Value),
    /// All failed by this error.
    Failed(&'a ParseError),
    /// The body that it ran ended without a value, as that of a function doesn't.
    Left,
}

/// How a machine stands at which all is over.
pub(crate) fn stand_of(mode: &Mode) -> Stand<'_>
    ensures { IsOfMode result mode.now }
{
    match mode {
        Mode::Running => Stand::Waiting,
        Mode::Leaving => Stand::Left,
        Mode::Returning(value) => Stand::Done(value),
        Mode::Failing(error) => Stand::Failed(error),
    }
}
