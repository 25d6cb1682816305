//! How work on a pair of files ends.

use crate::names::PairFile;
use rio_base::Block;

/// How work on a pair of files ended, of which `Worked` tells the work's own end.
#[derive(Clone, Copy, Debug, PartialEq, Eq, Drop)]
pub enum PairEnd<E> {
    /// There is no such file. Nothing was changed.
    Absent(PairFile),
    /// The image breaks this rule first, from 1 to 12. Nothing was changed.
    BadImage(u8),
    /// The image breaks no rule. The volume breaks this rule first, from 1 to 12, which the block tells. Nothing was changed.
    BadVolume(u8, Block),
    /// The host refused a call on this file while it was loaded. Nothing was changed.
    HostFault(PairFile),
    /// No memory was left for the files, the machine or its reboot. Nothing was changed.
    Memory,
    /// The disk refused a call of the reboot. The files are a pair of what they were a pair of.
    BootFault,
    /// The machine stopped in its reboot. The files are a pair of what they were a pair of.
    BootStopped,
    /// The work was done, and the image is saved.
    Worked(E),
    /// The host refused to save the image, which is as before. The work's end is told where it was begun.
    Unsaved(Option<E>),
}
