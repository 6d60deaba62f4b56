// Want of memory, as a fault of a method.
ghost use Rattle.std.specs.Prelude.{◌≡◌, Ok, Err, MatchResult};

use sp_base::NoMemory;
use sp_operators::ValueFault;

/// What was made, or that there was no memory for it.
pub(crate) fn made<T>(found: Result<T, NoMemory>) -> Result<T, ValueFault>
    ensures { MatchResult found
        (λ value. result ≡ Ok value)
        (λ _. result ≡ Err ValueFault.NoMemory) }
{
    match found {
        Ok(value) => Ok(value),
        Err(NoMemory) => Err(ValueFault::NoMemory),
    }
}
