//! The names of a pair's files.

/// The names of the two files of a pair.
#[derive(Clone, Copy)]
pub struct PairNames<'a> {
    /// That of the memory image.
    pub image: &'a String,
    /// That of the disk.
    pub disk: &'a String,
}

/// One of the two files of a pair.
#[derive(Clone, Copy, Debug, PartialEq, Eq)]
pub enum PairFile {
    /// The memory image.
    Image,
    /// The disk.
    Disk,
}
