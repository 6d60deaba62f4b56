// What the checks of a list of modules refuse.
use sp_base::{Diag, NoMemory};

/// What a check of a list of modules refuses.
#[derive(Clone, Copy, PartialEq, Eq, Debug)]
pub enum CheckFault {
    /// The least of the rules that are broken, and its place.
    Diag(Diag),
    NoMemory,
}

impl From<NoMemory> for CheckFault {
    ghost use Rattle.std.specs.Prelude.{◌≡◌};
    ghost use Rattle.sp_type_answers.specs.declared.fault.CheckFault.TheVariants as fault_is;

    ghost from_gives = { λ _ fault. fault ≡ fault_is.NoMemory };

    fn from(_: NoMemory) -> Self {
        CheckFault::NoMemory
    }
}
