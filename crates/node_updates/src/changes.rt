//! Changes of nodes that one update makes together.

ghost use Rattle.std.specs.Prelude.{◌≡◌};
ghost use Rattle.node_updates.specs.Changes.{IsGone, IsMade, of_size};

use directories::DirChange;
use inode_table::Inode;
use node_pages::{EditList, SizeChange};
use rio_base::{BlockList, FREE, Ino};
use std::alloc::Global;

/// A change of one node that is prepared and not yet made.
#[derive(Debug, Drop)]
pub struct NodeChange {
    /// The node's inode number.
    pub ino: Ino,
    /// Its inode after the change.
    pub inode: Inode,
    /// Words of its blocks that change.
    pub edits: EditList,
    /// Blocks that it gains.
    pub taken: BlockList,
    /// Blocks that it loses.
    pub freed: BlockList,
}

impl From<DirChange> for NodeChange {
    ghost use Rattle.node_updates.specs.Changes.{of_dir};

    ghost from_gives = { λ change made. made ≡ of_dir change };

    fn from(change: DirChange) -> NodeChange {
        NodeChange {
            ino: change.dir,
            inode: change.inode,
            edits: change.edits,
            taken: change.taken,
            freed: change.freed,
        }
    }
}

/// The inode of a node without bytes.
pub fn empty_inode(kind: u8) -> Inode
    ensures kind { result.kind ≡ kind }
    ensures size { result.size ≡ 0 }
{
    Inode {
        kind,
        size: 0,
        direct: [0; 24],
        indirect: 0,
        double: 0,
    }
}

/// A new node without bytes.
pub fn node_made(alloc: Global, i: Ino, kind: u8) -> NodeChange
    ensures { IsMade i.0 kind result }
{
    NodeChange {
        ino: i,
        inode: empty_inode(kind),
        edits: EditList::from(Vec::new(alloc)),
        taken: BlockList::from(Vec::new(alloc)),
        freed: BlockList::from(Vec::new(alloc)),
    }
}

/// A node that gets another size, or a new one with bytes.
pub fn node_sized(i: Ino, change: SizeChange) -> NodeChange
    ensures { result ≡ of_size i change }
{
    NodeChange {
        ino: i,
        inode: change.inode,
        edits: change.edits,
        taken: change.taken,
        freed: change.freed,
    }
}

/// A node that goes, and its blocks with it.
pub fn node_gone(alloc: Global, i: Ino, freed: BlockList) -> NodeChange
    ensures { IsGone i.0 freed result }
{
    NodeChange {
        ino: i,
        inode: empty_inode(FREE),
        edits: EditList::from(Vec::new(alloc)),
        taken: BlockList::from(Vec::new(alloc)),
        freed,
    }
}
