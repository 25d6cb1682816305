//! Why a call on a region's transaction failed.

ghost use Rattle.std.specs.Prelude.{◌≡◌};
ghost use Rattle.vista_region.specs.Failures.{get_handed, handed, heap_handed, undo_handed};

use recov_alloc::HeapFail;
use rio_base::VolFail;
use std::alloc::AllocError;
use thiserror::Error;
use undo_list::UndoFail;

/// Why no transaction was opened.
#[derive(Clone, Copy, Debug, PartialEq, Eq, Error)]
pub enum BeginFail {
    /// One is open on the region.
    #[error("a transaction is open")]
    Busy,
    /// No memory was left for its row.
    #[error("out of memory")]
    Memory,
}

/// Why a call on an open transaction failed.
#[derive(Clone, Copy, Debug, PartialEq, Eq, Error)]
pub enum TxnFail {
    /// No transaction is open on the region.
    #[error("no transaction is open")]
    NoTransaction,
    /// A device fault left the transaction to be aborted.
    #[error("the transaction may only be aborted")]
    Doomed,
    /// The offset or the length is not a multiple of 8.
    #[error("not whole words")]
    NotAligned,
    /// The bytes end past the region's data.
    #[error("past the end of the data")]
    OutOfRange,
    /// A word is in no range of the transaction.
    #[error("no range covers a word")]
    NotCovered,
    /// No block starts there.
    #[error("no block starts there")]
    NotBlock,
    /// No gap is large enough.
    #[error("no gap is large enough")]
    HeapFull,
    /// The undo pages have too little room for the record.
    #[error("the undo pages are full")]
    UndoFull,
    /// The disk failed in this call, after so many bytes were put. They are 0 of every call but `put`.
    #[error("the disk failed after {0} bytes")]
    Fault(u64),
    /// The machine is stopped.
    #[error("the machine is stopped")]
    Stopped,
}

/// Why no bytes were read.
#[derive(Clone, Copy, Debug, PartialEq, Eq, Error)]
pub enum GetFail {
    /// A device fault left the transaction to be aborted.
    #[error("the transaction may only be aborted")]
    Doomed,
    /// The bytes end past the region's data.
    #[error("past the end of the data")]
    OutOfRange,
    /// The disk failed in this call.
    #[error("the disk failed")]
    Fault,
    /// The machine is stopped.
    #[error("the machine is stopped")]
    Stopped,
    /// No memory was left for the bytes.
    #[error("out of memory")]
    Memory,
}

impl From<VolFail> for TxnFail {
    ghost from_gives = { λ fail made. made ≡ handed fail };

    fn from(fail: VolFail) -> TxnFail {
        match fail {
            VolFail::Fault => TxnFail::Fault(0),
            VolFail::Stopped => TxnFail::Stopped,
        }
    }
}

impl From<UndoFail> for TxnFail {
    ghost from_gives = { λ fail made. made ≡ undo_handed fail };

    fn from(fail: UndoFail) -> TxnFail {
        match fail {
            UndoFail::Full => TxnFail::UndoFull,
            UndoFail::Fault => TxnFail::Fault(0),
            UndoFail::Stopped => TxnFail::Stopped,
        }
    }
}

impl From<HeapFail> for TxnFail {
    ghost from_gives = { λ fail made. made ≡ heap_handed fail };

    fn from(fail: HeapFail) -> TxnFail {
        match fail {
            HeapFail::Full => TxnFail::HeapFull,
            HeapFail::NotBlock => TxnFail::NotBlock,
            HeapFail::UndoFull => TxnFail::UndoFull,
            HeapFail::Fault => TxnFail::Fault(0),
            HeapFail::Stopped => TxnFail::Stopped,
        }
    }
}

impl From<VolFail> for GetFail {
    ghost from_gives = { λ fail made. made ≡ get_handed fail };

    fn from(fail: VolFail) -> GetFail {
        match fail {
            VolFail::Fault => GetFail::Fault,
            VolFail::Stopped => GetFail::Stopped,
        }
    }
}

impl From<AllocError> for GetFail {
    ghost use Rattle.vista_region.specs.declared.failures.GetFail.TheVariants.{Memory as NoMemory};

    ghost from_gives = { λ fail made. made ≡ NoMemory };

    fn from(_fail: AllocError) -> GetFail {
        GetFail::Memory
    }
}
