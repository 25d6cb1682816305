//! Open transactions.

ghost use Rattle.std.specs.Prelude.{◌≡◌};

use rio_base::{HeapList, Ino, Items, RangeList, Words};
use std::alloc::AllocError;

/// An open transaction on a region.
#[derive(Debug, Drop)]
pub struct Txn {
    /// The region.
    pub ino: Ino,
    /// Its words as they were when the transaction began.
    pub before: Words,
    /// Its heap's blocks as they were then.
    pub before_blocks: HeapList,
    /// The ranges that may be changed.
    pub ranges: RangeList,
    /// How many words of the undo pages it uses.
    pub used: u32,
    /// Whether a device fault left it to be aborted.
    pub doomed: bool,
}

/// Open transactions, in the order in which they began.
pub type TxnList = Items<Txn>;

impl Clone for Txn {
    ghost is_clone = { λ old new. new ≡ old };

    fn clone(&self) -> Result<Txn, AllocError> {
        let before = self.before.clone()?;
        let before_blocks = self.before_blocks.clone()?;
        let ranges = self.ranges.clone()?;
        Ok(Txn {
            ino: self.ino,
            before,
            before_blocks,
            ranges,
            used: self.used,
            doomed: self.doomed,
        })
    }
}
