//! Why a request on files is not done.

ghost use Rattle.std.specs.Prelude.{◌≡◌};
ghost use Rattle.request_ends.specs.Failures.{fail_of_read, fail_of_size, fail_of_vol, fail_of_write};

use node_pages::{SizeFail, WriteFail};
use rio_base::{ReadFail, Stopped, VolFail};
use rio_model::Refusal;
use std::alloc::{AllocError, AllocFailed};
use thiserror::Error;

/// Why a request on files was not done.
#[derive(Clone, Copy, Debug, PartialEq, Eq, Error)]
pub enum FileFail {
    /// Refused, by the number of a [`Refusal`].
    #[error("refused: {0}")]
    Refused(u8),
    /// The disk failed in this call, after so many bytes were done. They are 0 of every call but `write`.
    #[error("the disk failed after {0} bytes")]
    Fault(u64),
    /// The machine is stopped.
    #[error("the machine is stopped")]
    Stopped,
    /// No memory was left.
    #[error("out of memory")]
    Memory,
}

impl From<VolFail> for FileFail {
    ghost from_gives = { λ fail made. made ≡ fail_of_vol fail };

    fn from(fail: VolFail) -> FileFail {
        match fail {
            VolFail::Fault => FileFail::Fault(0),
            VolFail::Stopped => FileFail::Stopped,
        }
    }
}

impl From<Stopped> for FileFail {
    ghost use Rattle.request_ends.specs.declared.failures.FileFail.TheVariants.{Stopped as FileStopped};

    ghost from_gives = { λ stopped made. made ≡ FileStopped };

    fn from(_stopped: Stopped) -> FileFail {
        FileFail::Stopped
    }
}

impl From<ReadFail> for FileFail {
    ghost from_gives = { λ fail made. made ≡ fail_of_read fail };

    fn from(fail: ReadFail) -> FileFail {
        match fail {
            ReadFail::Fault => FileFail::Fault(0),
            ReadFail::Stopped => FileFail::Stopped,
            ReadFail::Memory => FileFail::Memory,
        }
    }
}

impl From<SizeFail> for FileFail {
    ghost from_gives = { λ fail made. made ≡ fail_of_size fail };

    fn from(fail: SizeFail) -> FileFail {
        match fail {
            SizeFail::NoSpace => FileFail::Refused(Refusal::NoSpace as u8),
            SizeFail::TooLarge => FileFail::Refused(Refusal::TooLarge as u8),
            SizeFail::Fault => FileFail::Fault(0),
            SizeFail::Stopped => FileFail::Stopped,
            SizeFail::Memory => FileFail::Memory,
        }
    }
}

impl From<WriteFail> for FileFail {
    ghost from_gives = { λ fail made. made ≡ fail_of_write fail };

    fn from(fail: WriteFail) -> FileFail {
        match fail {
            WriteFail::NoSpace => FileFail::Refused(Refusal::NoSpace as u8),
            WriteFail::TooLarge => FileFail::Refused(Refusal::TooLarge as u8),
            WriteFail::Fault { done } => FileFail::Fault(done),
            WriteFail::Stopped => FileFail::Stopped,
            WriteFail::Memory => FileFail::Memory,
        }
    }
}

impl From<AllocError> for FileFail {
    ghost use Rattle.request_ends.specs.declared.failures.FileFail.TheVariants.{Memory as NoMemory};

    ghost from_gives = { λ fail made. made ≡ NoMemory };

    fn from(_fail: AllocError) -> FileFail {
        FileFail::Memory
    }
}

impl<T: Drop> From<AllocFailed<T>> for FileFail {
    ghost use Rattle.request_ends.specs.declared.failures.FileFail.TheVariants.{Memory as NoMemory};

    ghost from_gives = { λ fail made. made ≡ NoMemory };

    fn from(_fail: AllocFailed<T>) -> FileFail {
        FileFail::Memory
    }
}
