//! The rules of an image and of a volume, in the order in which they are looked at.

ghost use Rattle.std.specs.Prelude.{◌≡◌};
ghost use Rattle.rio_model.specs.RuleNumbers.{image_rule, volume_rule};

/// A rule of an image: of its file, of the gate, or of the entries of the registry.
#[derive(Clone, Copy, Debug, PartialEq, Eq)]
pub enum ImageRule {
    /// The file has a length that an image may have.
    Length = 1,
    /// Its first word is the magic.
    Magic = 2,
    /// The version is 1.
    Version = 3,
    /// It says how many frames and scratch pages it has.
    Geometry = 4,
    /// The gate is 0 or 1.
    Gate = 5,
    /// Each tag is one that there may be.
    Tags = 6,
    /// No two valid entries have one block.
    BlocksOnce = 7,
    /// A valid metadata entry names no file, and uses its whole page.
    Metadata = 8,
    /// A valid data entry names a page of a file.
    PageNames = 9,
    /// A valid data entry uses no more than its page.
    PageSizes = 10,
    /// A valid entry's shadow is none or one that there is.
    Shadows = 11,
    /// No two valid entries have one shadow.
    ShadowsOnce = 12,
}

impl ImageRule {
    /// The number that it is told by.
    pub fn number(self) -> u8
        ensures { result ≡ image_rule self }
    {
        self as u8
    }
}

/// A rule of a volume. A rule may suppose those before it.
#[derive(Clone, Copy, Debug, PartialEq, Eq)]
pub enum VolumeRule {
    /// The superblock says a shape that is served, with as many blocks as the disk has.
    Superblock = 1,
    /// All reserved blocks are marked, and no bit past the last block is.
    Reserved = 2,
    /// Each kind is known, and inode 1 is a directory.
    Kinds = 3,
    /// Each used inode has a size that its kind may have.
    Sizes = 4,
    /// Each block number that counts is of a block past the reserved ones.
    Numbers = 5,
    /// No block counts twice.
    Once = 6,
    /// A block past the reserved ones is marked exactly where it counts.
    Marks = 7,
    /// Each entry has a name, and names a used inode.
    Entries = 8,
    /// No directory has two equal names.
    NamesApart = 9,
    /// Each used inode but the root has exactly one name, and is reached.
    Tree = 10,
    /// Each region's words keep the format.
    Regions = 11,
    /// Each cached page is of a block that may have its name.
    Cached = 12,
}

impl VolumeRule {
    /// The number that it is told by.
    pub fn number(self) -> u8
        ensures { result ≡ volume_rule self }
    {
        self as u8
    }
}
