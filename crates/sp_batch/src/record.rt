// The records of a batch, and why a batch is refused.
ghost use Rattle.std.specs.Prelude.{◌≡◌};

use sp_base::{BKind, ByteList, NoMemory, Text};
use thiserror::Error;

/// One record of a batch. Names are 1 to 255 printable ASCII characters without space; sizes are at most 2^62.
#[derive(Drop)]
pub enum Record {
    /// A flow begins: a stream, or a flow of blocks, of which each is a whole input.
    BeginFlow {
        id: Text,
        block: bool,
        parser: Text,
    },
    /// A piece of a stream, or a block.
    Data {
        id: Text,
        bytes: ByteList,
    },
    /// So many bytes of a flow are lost.
    Gap {
        id: Text,
        size: u64,
    },
    /// A flow ends.
    EndFlow {
        id: Text,
    },
    /// The two flows of a connection begin, the originator's first.
    BeginConn {
        cid: Text,
        block: bool,
        oid: Text,
        oparser: Text,
        rid: Text,
        rparser: Text,
    },
    /// The flows of a connection end.
    EndConn {
        cid: Text,
    },
}

/// Why the text of a batch is not read.
#[derive(Debug, Drop, Error)]
pub enum BatchFault {
    /// What is wrong, and the place of the header's or the record's first byte, from 0.
    #[error("{0:?} at byte {1}")]
    Bad(BKind, u64),
    /// There was no memory.
    #[error("out of memory")]
    NoMemory,
}

impl From<NoMemory> for BatchFault {
    ghost use Rattle.sp_batch.specs.declared.record.BatchFault.TheVariants;

    ghost from_gives = { λ _ fault. fault ≡ TheVariants.NoMemory };

    fn from(_: NoMemory) -> BatchFault {
        BatchFault::NoMemory
    }
}
