//! Why a call on a region's heap failed.

ghost use Rattle.std.specs.Prelude.{◌≡◌};
ghost use Rattle.recov_alloc.specs.Failures.{handed, undo_handed};

use rio_base::VolFail;
use thiserror::Error;
use undo_list::UndoFail;

/// Why no block was taken or given back.
#[derive(Clone, Copy, Debug, PartialEq, Eq, Error)]
pub enum HeapFail {
    /// No gap is large enough.
    #[error("no gap is large enough")]
    Full,
    /// No block starts there.
    #[error("no block starts there")]
    NotBlock,
    /// The undo pages have too little room for the record of the block's map words.
    #[error("the undo pages are full")]
    UndoFull,
    /// The disk failed in this call.
    #[error("the disk failed")]
    Fault,
    /// The machine is stopped.
    #[error("the machine is stopped")]
    Stopped,
}

impl From<VolFail> for HeapFail {
    ghost from_gives = { λ fail made. made ≡ handed fail };

    fn from(fail: VolFail) -> HeapFail {
        match fail {
            VolFail::Fault => HeapFail::Fault,
            VolFail::Stopped => HeapFail::Stopped,
        }
    }
}

impl From<UndoFail> for HeapFail {
    ghost from_gives = { λ fail made. made ≡ undo_handed fail };

    fn from(fail: UndoFail) -> HeapFail {
        match fail {
            UndoFail::Full => HeapFail::UndoFull,
            UndoFail::Fault => HeapFail::Fault,
            UndoFail::Stopped => HeapFail::Stopped,
        }
    }
}
