//! Kinds of nodes.

ghost use Rattle.std.specs.Prelude.{◌≡◌};
ghost use Rattle.rio_base.specs.NodeKinds.{kind_number};

/// What an inode that is used stands for.
#[derive(Clone, Copy, Debug, PartialEq, Eq)]
pub enum Kind {
    /// A directory.
    Directory = 1,
    /// A file.
    File = 2,
    /// A region.
    Region = 3,
}

impl Kind {
    /// The first word of an inode of this kind.
    pub fn number(self) -> u8
        ensures { result ≡ kind_number self }
    {
        self as u8
    }
}

/// The first word of an inode that is free.
pub const FREE: u8 = 0;

/// The first word of a directory's inode.
pub const DIRECTORY: u8 = Kind::Directory as u8;

/// The first word of a file's inode.
pub const FILE: u8 = Kind::File as u8;

/// The first word of a region's inode.
pub const REGION: u8 = Kind::Region as u8;
