//! Why no pair is loaded.

use crate::names::PairFile;
use thiserror::Error;

/// Why no pair was loaded. Of several reasons the first of these is told: the image is not there, it breaks a rule, the disk is
/// not there, it has no disk's length. Want of memory and a call of the host that failed are told at once.
#[derive(Clone, Copy, Debug, PartialEq, Eq, Error)]
pub enum LoadFail {
    /// There is no such file.
    #[error("there is no such file")]
    Absent(PairFile),
    /// The image breaks this rule first, from 1 to 12.
    #[error("the image breaks rule {0}")]
    BadImage(u8),
    /// The disk's length is no number of whole blocks, or of fewer than 4 or more than 32,768: no volume says that it has so many.
    #[error("the disk has no disk's length")]
    BadLength,
    /// The host refused a call on this file.
    #[error("the host failed")]
    Fault(PairFile),
    /// No memory was left for the words.
    #[error("out of memory")]
    Memory,
}
