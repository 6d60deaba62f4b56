// What reassembly tells.
use sp_base::{ByteList, NoMemory, PKind};

/// A call of a sink's hook, or data for its connected units. Each `seq` is a sequence number.
#[derive(Drop)]
pub enum Note {
    /// New bytes for positions that hold data which are not delivered yet; the old stay.
    Overlap {
        seq: u64,
        old: ByteList,
        new: ByteList,
    },
    /// Data that are given up before they were delivered.
    Undelivered {
        seq: u64,
        bytes: ByteList,
    },
    /// All before this number is given up.
    Skipped {
        seq: u64,
    },
    /// The next data, in order.
    Deliver {
        seq: u64,
        bytes: ByteList,
    },
    /// The next positions are lost.
    Gap {
        seq: u64,
        len: u64,
    },
    /// The input of the connected units has ended.
    Closed,
}

/// Why a call is refused.
#[derive(Clone, Copy, PartialEq, Eq)]
pub enum ReasmFault {
    /// A run error. The call changes nothing.
    Run(PKind),
    NoMemory,
}

impl From<NoMemory> for ReasmFault {
    ghost use Rattle.std.specs.Prelude.{◌≡◌};
    ghost use Rattle.sp_reasm.specs.declared.notes.ReasmFault.TheVariants as fault_is;

    ghost from_gives = { λ _ fault. fault ≡ fault_is.NoMemory };

    fn from(_: NoMemory) -> Self {
        ReasmFault::NoMemory
    }
}
