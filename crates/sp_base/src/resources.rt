// What is lacking where a value isn't made: memory, or room below a limit of the program's own.
ghost use Rattle.std.specs.Prelude.{◌≡◌};
ghost use Rattle.sp_base.specs.declared.resources.ResourceError.TheVariants.{NoMemory as OutOfMemory};

use crate::bytes::NoMemory;
use std::alloc::{AllocError, AllocFailed};

/// Why a value isn't made whose size or height is limited. Above the function that knows the limit it is want of memory:
/// `?` makes one of the other.
#[derive(Clone, Copy, PartialEq, Eq)]
pub enum ResourceError {
    /// There was no memory.
    NoMemory,
    /// The value would be larger or higher than the limit which the function names.
    LimitExceeded,
}

impl From<NoMemory> for ResourceError {
    ghost from_gives = { λ _ error. error ≡ OutOfMemory };

    fn from(_: NoMemory) -> Self {
        ResourceError::NoMemory
    }
}

impl From<AllocError> for ResourceError {
    ghost from_gives = { λ _ error. error ≡ OutOfMemory };

    fn from(_: AllocError) -> Self {
        ResourceError::NoMemory
    }
}

impl<T: Drop> From<AllocFailed<T>> for ResourceError {
    ghost from_gives = { λ _ error. error ≡ OutOfMemory };

    fn from(_: AllocFailed<T>) -> Self {
        ResourceError::NoMemory
    }
}

impl From<ResourceError> for NoMemory {
    fn from(_: ResourceError) -> Self {
        NoMemory
    }
}
