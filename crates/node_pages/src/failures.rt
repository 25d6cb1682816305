//! Why calls on the pages of a node fail.

ghost use Rattle.std.specs.Prelude.{◌≡◌};
ghost use Rattle.node_pages.specs.Failures.{size_handed, size_of_read, write_handed, write_of_read, write_of_size};

use rio_base::{ReadFail, Stopped, VolFail};
use std::alloc::{AllocError, AllocFailed};
use thiserror::Error;

/// Why a size was not changed.
#[derive(Clone, Copy, Debug, PartialEq, Eq, Error)]
pub enum SizeFail {
    /// Fewer blocks are free than the node would take.
    #[error("fewer blocks are free")]
    NoSpace,
    /// No node can have so many bytes.
    #[error("too large")]
    TooLarge,
    /// The disk failed in this call.
    #[error("the disk failed")]
    Fault,
    /// The machine is stopped.
    #[error("the machine is stopped")]
    Stopped,
    /// No memory was left.
    #[error("out of memory")]
    Memory,
}

/// Why not all bytes were written.
#[derive(Clone, Copy, Debug, PartialEq, Eq, Error)]
pub enum WriteFail {
    /// Fewer blocks are free than the file would take.
    #[error("fewer blocks are free")]
    NoSpace,
    /// No file can have so many bytes.
    #[error("too large")]
    TooLarge,
    /// The disk failed in this call.
    #[error("the disk failed after {done} bytes")]
    Fault {
        /// So many of the bytes were written, the first ones.
        done: u64,
    },
    /// The machine is stopped.
    #[error("the machine is stopped")]
    Stopped,
    /// No memory was left.
    #[error("out of memory")]
    Memory,
}

impl From<VolFail> for WriteFail {
    ghost from_gives = { λ fail made. made ≡ write_handed fail };

    fn from(fail: VolFail) -> WriteFail {
        match fail {
            VolFail::Fault => WriteFail::Fault { done: 0 },
            VolFail::Stopped => WriteFail::Stopped,
        }
    }
}

impl From<ReadFail> for WriteFail {
    ghost from_gives = { λ fail made. made ≡ write_of_read fail };

    fn from(fail: ReadFail) -> WriteFail {
        match fail {
            ReadFail::Fault => WriteFail::Fault { done: 0 },
            ReadFail::Stopped => WriteFail::Stopped,
            ReadFail::Memory => WriteFail::Memory,
        }
    }
}

impl From<SizeFail> for WriteFail {
    ghost from_gives = { λ fail made. made ≡ write_of_size fail };

    fn from(fail: SizeFail) -> WriteFail {
        match fail {
            SizeFail::NoSpace => WriteFail::NoSpace,
            SizeFail::TooLarge => WriteFail::TooLarge,
            SizeFail::Fault => WriteFail::Fault { done: 0 },
            SizeFail::Stopped => WriteFail::Stopped,
            SizeFail::Memory => WriteFail::Memory,
        }
    }
}

impl From<VolFail> for SizeFail {
    ghost from_gives = { λ fail made. made ≡ size_handed fail };

    fn from(fail: VolFail) -> SizeFail {
        match fail {
            VolFail::Fault => SizeFail::Fault,
            VolFail::Stopped => SizeFail::Stopped,
        }
    }
}

impl From<Stopped> for SizeFail {
    ghost use Rattle.node_pages.specs.declared.failures.SizeFail.TheVariants.{Stopped as SizeStopped};

    ghost from_gives = { λ stopped made. made ≡ SizeStopped };

    fn from(_stopped: Stopped) -> SizeFail {
        SizeFail::Stopped
    }
}

impl From<ReadFail> for SizeFail {
    ghost from_gives = { λ fail made. made ≡ size_of_read fail };

    fn from(fail: ReadFail) -> SizeFail {
        match fail {
            ReadFail::Fault => SizeFail::Fault,
            ReadFail::Stopped => SizeFail::Stopped,
            ReadFail::Memory => SizeFail::Memory,
        }
    }
}

impl From<AllocError> for SizeFail {
    ghost use Rattle.node_pages.specs.declared.failures.SizeFail.TheVariants.{Memory as NoMemory};

    ghost from_gives = { λ fail made. made ≡ NoMemory };

    fn from(_fail: AllocError) -> SizeFail {
        SizeFail::Memory
    }
}

impl<T: Drop> From<AllocFailed<T>> for SizeFail {
    ghost use Rattle.node_pages.specs.declared.failures.SizeFail.TheVariants.{Memory as NoMemory};

    ghost from_gives = { λ fail made. made ≡ NoMemory };

    fn from(_fail: AllocFailed<T>) -> SizeFail {
        SizeFail::Memory
    }
}
