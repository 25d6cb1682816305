//! A prepared change of a node's size.

ghost use Rattle.std.specs.Prelude.{◌≡◌};

use inode_table::Inode;
use rio_base::{Block, BlockList, Items};

/// A word of a block that is to change.
#[derive(Clone, Copy, Debug, PartialEq, Eq)]
pub struct Edit {
    /// The block.
    pub block: Block,
    /// The word of the block, below 512.
    pub word: u16,
    /// What it becomes.
    pub value: u64,
}

/// Edits, in the order in which they are made.
pub type EditList = Items<Edit>;

/// A change of a node's size that is prepared and not yet made.
#[derive(Debug, Drop)]
pub struct SizeChange {
    /// The node's inode after the change.
    pub inode: Inode,
    /// Words of its tables that change.
    pub edits: EditList,
    /// Blocks that it gains, its pages in order first.
    pub taken: BlockList,
    /// Blocks that it loses.
    pub freed: BlockList,
}
