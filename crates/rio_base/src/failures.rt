//! The ways in which a call to the outside world fails.

ghost use Rattle.std.specs.Prelude.{◌≡◌};
ghost use Rattle.rio_base.specs.Failures.{read_fail, vol_fail};

use std::alloc::{AllocError, AllocFailed};
use thiserror::Error;

/// The outside refused this call. It counts each such refusal.
#[derive(Clone, Copy, Debug, PartialEq, Eq, Error)]
#[error("the device failed")]
pub struct Failed;

/// The machine is stopped: no further step is made.
#[derive(Clone, Copy, Debug, PartialEq, Eq, Error)]
#[error("the machine is stopped")]
pub struct Stopped;

/// Why a machine's block call failed.
#[derive(Clone, Copy, Debug, PartialEq, Eq, Error)]
pub enum DiskFail {
    /// The disk refused the call.
    #[error("the disk failed")]
    Fault,
    /// The machine is stopped.
    #[error("the machine is stopped")]
    Stopped,
}

/// Why a volume's call failed.
#[derive(Clone, Copy, Debug, PartialEq, Eq, Error)]
pub enum VolFail {
    /// The disk below refused a call.
    #[error("the disk failed")]
    Fault,
    /// The machine below is stopped.
    #[error("the machine is stopped")]
    Stopped,
}

impl From<DiskFail> for VolFail {
    ghost from_gives = { λ fail made. made ≡ vol_fail fail };

    fn from(fail: DiskFail) -> VolFail {
        match fail {
            DiskFail::Fault => VolFail::Fault,
            DiskFail::Stopped => VolFail::Stopped,
        }
    }
}

/// Why a run of stores was cut off.
#[derive(Clone, Copy, Debug, PartialEq, Eq, Error)]
pub enum RunFail {
    /// The disk below refused a call, after so many words of the run were stored.
    #[error("the disk failed after {0} words")]
    Fault(u32),
    /// The machine below is stopped.
    #[error("the machine is stopped")]
    Stopped,
}

/// Why nothing was read into a new list.
#[derive(Clone, Copy, Debug, PartialEq, Eq, Error)]
pub enum ReadFail {
    /// The disk below refused a call.
    #[error("the disk failed")]
    Fault,
    /// The machine below is stopped.
    #[error("the machine is stopped")]
    Stopped,
    /// No memory was left for the answer.
    #[error("out of memory")]
    Memory,
}

impl From<VolFail> for ReadFail {
    ghost from_gives = { λ fail made. made ≡ read_fail fail };

    fn from(fail: VolFail) -> ReadFail {
        match fail {
            VolFail::Fault => ReadFail::Fault,
            VolFail::Stopped => ReadFail::Stopped,
        }
    }
}

impl From<AllocError> for ReadFail {
    ghost use Rattle.rio_base.specs.declared.failures.ReadFail.TheVariants.{Memory as NoMemory};

    ghost from_gives = { λ fail made. made ≡ NoMemory };

    fn from(_fail: AllocError) -> ReadFail {
        ReadFail::Memory
    }
}

impl<T: Drop> From<AllocFailed<T>> for ReadFail {
    ghost use Rattle.rio_base.specs.declared.failures.ReadFail.TheVariants.{Memory as NoMemory};

    ghost from_gives = { λ fail made. made ≡ NoMemory };

    fn from(_fail: AllocFailed<T>) -> ReadFail {
        ReadFail::Memory
    }
}
