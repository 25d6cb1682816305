//! Why a call on an undo list failed.

ghost use Rattle.std.specs.Prelude.{◌≡◌};
ghost use Rattle.rio_base.specs.Blocks.{as_word};
ghost use Rattle.undo_list.specs.Failures.{handed};

use rio_base::{RunFail, VolFail};
use thiserror::Error;

/// Why no record was added.
#[derive(Clone, Copy, Debug, PartialEq, Eq, Error)]
pub enum UndoFail {
    /// The undo pages have too little room.
    #[error("the undo pages are full")]
    Full,
    /// The disk failed in this call.
    #[error("the disk failed")]
    Fault,
    /// The machine is stopped.
    #[error("the machine is stopped")]
    Stopped,
}

impl From<VolFail> for UndoFail {
    ghost from_gives = { λ fail made. made ≡ handed fail };

    fn from(fail: VolFail) -> UndoFail {
        match fail {
            VolFail::Fault => UndoFail::Fault,
            VolFail::Stopped => UndoFail::Stopped,
        }
    }
}

/// The answer of a run of stores, without the count of words that were stored.
pub fn uncounted(stored: Result<(), RunFail>) -> Result<(), VolFail>
    ensures { result ≡ as_word stored }
{
    match stored {
        Ok(()) => Ok(()),
        Err(RunFail::Fault(_)) => Err(VolFail::Fault),
        Err(RunFail::Stopped) => Err(VolFail::Stopped),
    }
}
