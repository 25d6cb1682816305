//! What an inode stands for.

ghost use Rattle.std.specs.Prelude.{◌≡◌};

use rio_base::{HeapList, Octets, Words};
use std::alloc::AllocError;

/// A directory, a file or a region.
#[derive(Debug, Drop)]
pub enum Node {
    /// A directory. Its names are rows of the state.
    Dir,
    /// A file of these bytes.
    File(Octets),
    /// A region of recoverable memory.
    Region(RegionNode),
}

/// A region: words that transactions change, with a heap in them.
#[derive(Debug, Drop)]
pub struct RegionNode {
    /// The user's words, 512 for each data page.
    pub words: Words,
    /// How many undo pages it has.
    pub undo: u32,
    /// The blocks of its heap in use, in units of 64 bytes.
    pub blocks: HeapList,
}

impl Clone for RegionNode {
    ghost is_clone = { λ old new. new ≡ old };

    fn clone(&self) -> Result<RegionNode, AllocError> {
        let words = self.words.clone()?;
        let blocks = self.blocks.clone()?;
        let undo = self.undo;
        Ok(RegionNode {
            words,
            undo,
            blocks,
        })
    }
}

impl Clone for Node {
    ghost is_clone = { λ old new. new ≡ old };

    fn clone(&self) -> Result<Node, AllocError> {
        match self {
            Node::Dir => Ok(Node::Dir),
            Node::File(bytes) => Ok(Node::File(bytes.clone()?)),
            Node::Region(region) => Ok(Node::Region(region.clone()?)),
        }
    }
}
