//! How a warm reboot ends.

ghost use Rattle.std.specs.Prelude.{◌≡◌};
ghost use Rattle.warm_reboot.specs.Examining.{handed, refused, told};

use rio_base::{Block, ReadFail, VolFail, VolumeShape};
use std::alloc::AllocError;
use thiserror::Error;
use volume_check::CheckFail;

/// What a warm reboot found and did.
#[derive(Clone, Copy, Debug, PartialEq, Eq)]
pub struct BootReport {
    /// How many pages of metadata were written to the disk.
    pub meta: u32,
    /// How many pages of files and regions were.
    pub pages: u32,
    /// How many dirty pages were dropped, since no node has their block.
    pub stale: u32,
    /// How many regions had an undo list with a record, which was put back.
    pub undone: u32,
    /// The sizes of the volume.
    pub shape: VolumeShape,
}

/// Why a warm reboot was not made, or was cut off.
#[derive(Clone, Copy, Debug, PartialEq, Eq, Error)]
pub enum BootFail {
    /// The image breaks this rule, from 5 to 12. Nothing was stored.
    #[error("the image breaks rule {0}")]
    BadImage(u8),
    /// The volume breaks this rule, from 1 to 12, which the block tells. Nothing was stored.
    #[error("the volume breaks rule {0}, told by {1:?}")]
    BadVolume(u8, Block),
    /// The disk refused a call. Memory and disk stand for what they stood for.
    #[error("the disk failed")]
    Fault,
    /// The machine is stopped. Memory and disk stand for what they stood for.
    #[error("the machine is stopped")]
    Stopped,
    /// No memory was left for the tables. Nothing was stored.
    #[error("out of memory")]
    Memory,
}

impl From<VolFail> for BootFail {
    ghost from_gives = { λ fail made. made ≡ handed fail };

    fn from(fail: VolFail) -> BootFail {
        match fail {
            VolFail::Fault => BootFail::Fault,
            VolFail::Stopped => BootFail::Stopped,
        }
    }
}

impl From<CheckFail> for BootFail {
    ghost from_gives = { λ fail made. made ≡ told fail };

    fn from(fail: CheckFail) -> BootFail {
        match fail {
            CheckFail::BadVolume(rule, block) => BootFail::BadVolume(rule, block),
            CheckFail::Fault => BootFail::Fault,
            CheckFail::Stopped => BootFail::Stopped,
            CheckFail::Memory => BootFail::Memory,
        }
    }
}

impl From<ReadFail> for BootFail {
    ghost from_gives = { λ fail made. made ≡ refused fail };

    fn from(fail: ReadFail) -> BootFail {
        match fail {
            ReadFail::Fault => BootFail::Fault,
            ReadFail::Stopped => BootFail::Stopped,
            ReadFail::Memory => BootFail::Memory,
        }
    }
}

impl From<AllocError> for BootFail {
    ghost use Rattle.warm_reboot.specs.declared.report.BootFail.TheVariants.{Memory as NoMemory};

    ghost from_gives = { λ fail made. made ≡ NoMemory };

    fn from(_fail: AllocError) -> BootFail {
        BootFail::Memory
    }
}

/// A warm reboot that failed, and the machine, which is handed back.
#[derive(Drop)]
pub struct BootError<M> {
    /// The machine.
    pub machine: M,
    /// What came.
    pub fail: BootFail,
}
