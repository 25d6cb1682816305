//! What an inode is, and where it lies.

ghost use Rattle.std.specs.Prelude.{◌≡◌, ◌≤◌};
ghost use Rattle.rio_base.specs.Layout.{IsIno, inode_block, inode_place};

use rio_base::{Block, Ino, VolumeShape};

/// Words of an inode.
pub const INODE_WORDS: usize = 16;

/// Inodes of a block.
pub const BLOCK_INODES: u32 = 32;

/// Pages of a node that its inode numbers. Its indirect block numbers 1,024 more.
pub const DIRECT_PAGES: u32 = 24;

/// The most bytes of a node: 4,096 in each of those pages.
pub const LARGEST_SIZE: u64 = 4_292_608;

/// The first block of inodes.
const FIRST_BLOCK: u32 = 2;

/// An inode. Numbers that its size does not reach may be anything.
#[derive(Clone, Copy, Debug, PartialEq, Eq)]
pub struct Inode {
    /// The number of its [`rio_base::Kind`], or 0 where it is free.
    pub kind: u8,
    /// Its size in bytes.
    pub size: u64,
    /// The blocks of its first 24 pages.
    pub direct: [u32; 24],
    /// The block that has the numbers of further pages.
    pub indirect: u32,
    /// The block that has the numbers of further such blocks, 0 in version 1.
    pub double: u32,
}

/// The block that inode `i` lies in.
pub fn inode_block(shape: &VolumeShape, i: Ino) -> Block
    requires { IsIno shape.now i.0 }
    ensures { result.0 ≡ inode_block i.0 }
{
    Block(FIRST_BLOCK + (i.0 - 1) / BLOCK_INODES)
}

/// The first word of inode `i` in its block.
pub fn inode_place(i: Ino) -> u16
    requires { 1 ≤ i.0 }
    ensures { result ≡ inode_place i.0 }
{
    INODE_WORDS as u16 * ((i.0 - 1) % BLOCK_INODES) as u16
}
