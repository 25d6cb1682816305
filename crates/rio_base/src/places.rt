//! Names of places: pages and words of memory, blocks of a disk, inodes of a volume.

/// A page of memory, counted from 0. A page is 4,096 bytes, 512 words.
#[derive(Clone, Copy, Debug, PartialEq, Eq)]
pub struct Page(pub u32);

/// A block of a disk, counted from 0. A block is 4,096 bytes, 512 words.
#[derive(Clone, Copy, Debug, PartialEq, Eq)]
pub struct Block(pub u32);

/// An inode number. They run from 1, and 1 is the root directory.
#[derive(Clone, Copy, Debug, PartialEq, Eq)]
pub struct Ino(pub u32);

/// A word of memory, counted from 0. A word is 8 bytes.
#[derive(Clone, Copy, Debug, PartialEq, Eq)]
pub struct WordAt(pub u32);

/// What a cached data page is a page of.
#[derive(Clone, Copy, Debug, PartialEq, Eq)]
pub struct PageName {
    /// The file or region.
    pub file: Ino,
    /// The page of the file, from 0.
    pub index: u32,
    /// How many bytes of the page the file uses, up to 4,096.
    pub size: u32,
}

/// The sizes of a volume.
#[derive(Clone, Copy, Debug, PartialEq, Eq)]
pub struct VolumeShape {
    /// The version of its layout.
    pub version: u32,
    /// Its blocks, in all.
    pub blocks: u32,
    /// Its inodes, a multiple of 32.
    pub inodes: u32,
}
