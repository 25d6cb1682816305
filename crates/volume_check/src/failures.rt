//! Why there is no census of a volume.

ghost use Rattle.std.specs.Prelude.{◌≡◌};
ghost use Rattle.volume_check.specs.Looking.{handed};

use rio_base::{Block, VolFail};
use std::alloc::{AllocError, AllocFailed};
use thiserror::Error;

/// Why there is no census.
#[derive(Clone, Copy, Debug, PartialEq, Eq, Error)]
pub enum CheckFail {
    /// The first of the rules 1 to 11 that fails, and the block that is told with it: of a rule on inodes the block of the least
    /// inode that does not keep it, of a rule on blocks the least block, of a rule on the bitmap the bitmap's.
    #[error("rule {0} fails")]
    BadVolume(u8, Block),
    /// The disk failed in this call.
    #[error("the disk failed")]
    Fault,
    /// The machine is stopped.
    #[error("the machine is stopped")]
    Stopped,
    /// No memory was left.
    #[error("out of memory")]
    Memory,
}

impl From<VolFail> for CheckFail {
    ghost from_gives = { λ fail made. made ≡ handed fail };

    fn from(fail: VolFail) -> CheckFail {
        match fail {
            VolFail::Fault => CheckFail::Fault,
            VolFail::Stopped => CheckFail::Stopped,
        }
    }
}

impl From<AllocError> for CheckFail {
    ghost use Rattle.volume_check.specs.declared.failures.CheckFail.TheVariants.{Memory as NoMemory};

    ghost from_gives = { λ fail made. made ≡ NoMemory };

    fn from(_fail: AllocError) -> CheckFail {
        CheckFail::Memory
    }
}

impl<T: Drop> From<AllocFailed<T>> for CheckFail {
    ghost use Rattle.volume_check.specs.declared.failures.CheckFail.TheVariants.{Memory as NoMemory};

    ghost from_gives = { λ fail made. made ≡ NoMemory };

    fn from(_fail: AllocFailed<T>) -> CheckFail {
        CheckFail::Memory
    }
}
