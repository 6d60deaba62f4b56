// Why an operator has no value.
ghost use Rattle.std.specs.Prelude.{false};
ghost use Rattle.sp_operators.specs.Outcomes.{Answers};

use sp_base::PKind;
use sp_value::Value;

/// Why an operator answers no value.
#[derive(Clone, Copy, PartialEq, Eq, Drop)]
pub enum ValueFault {
    /// The result is out of its type's range, or there is none.
    Run(PKind),
    /// There was no memory for the result.
    NoMemory,
}

/// The answer of a call that takes no memory.
pub(crate) fn told(found: Result<Value, PKind>) -> Result<Value, ValueFault>
    ensures { Answers false found result }
{
    match found {
        Ok(value) => Ok(value),
        Err(error) => Err(ValueFault::Run(error)),
    }
}
