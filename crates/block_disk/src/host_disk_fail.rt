//! Why a file is no disk.

use thiserror::Error;

/// Why no disk was made of a file. Of several reasons the first of these is told, but a call of the host that failed is told
/// at once.
#[derive(Clone, Copy, Debug, PartialEq, Eq, Error)]
pub enum HostDiskFail {
    /// There is no such file.
    #[error("there is no such file")]
    Absent,
    /// The file's length is no number of whole blocks, or of fewer than 4 or more than 32,768, and nothing was read;
    /// or it became shorter while it was read.
    #[error("the file has no disk's length")]
    BadLength,
    /// The host refused a call.
    #[error("the host failed")]
    Fault,
    /// No memory was left for the blocks.
    #[error("out of memory")]
    Memory,
}
