//! How `registry` and `check` end.

use pair_files::PairFile;
use rio_base::Block;
use rio_model::Census;

/// How a look at the registry ended.
#[derive(Clone, Copy, Debug, PartialEq, Eq)]
pub enum RegistryEnd {
    /// Every line was written.
    Listed,
    /// The image breaks a rule, this one first, by its number from 1 to 12.
    Refused(u8),
    /// There is no such file.
    Absent,
    /// The file could not be read.
    HostFault,
    /// The sink refused a line of the listing.
    SinkFault,
    /// There was no memory for the image.
    Memory,
}

/// How a look at a pair of files ended.
#[derive(Clone, Copy, Debug, PartialEq, Eq)]
pub enum CheckEnd {
    /// The pair breaks no rule, and this is what there is on it.
    Sound(Census),
    /// The image breaks a rule, this one first, by its number from 1 to 12.
    BadImage(u8),
    /// The image breaks none and the volume does, this one first, by its number from 1 to 12. The block tells where.
    BadVolume(u8, Block),
    /// There is no such file.
    Absent(PairFile),
    /// The file could not be read.
    HostFault(PairFile),
    /// There was no memory for the pair.
    Memory,
}
