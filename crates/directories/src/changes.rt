//! A prepared change of a directory.

ghost use Rattle.std.specs.Prelude.{◌≡◌};

use inode_table::Inode;
use node_pages::EditList;
use rio_base::{BlockList, Ino};

/// A change of a directory's rows that is prepared and not yet made.
#[derive(Debug, Drop)]
pub struct DirChange {
    /// The directory.
    pub dir: Ino,
    /// Its inode after the change.
    pub inode: Inode,
    /// Words of its blocks that change.
    pub edits: EditList,
    /// Blocks that it gains, its pages in order first.
    pub taken: BlockList,
    /// Blocks that it loses.
    pub freed: BlockList,
}
