//! What is known of the blocks that were written before their pages leave the cache.

ghost use Rattle.cached_pages.specs.EarlySlots.{HaveHints};

use rio_base::Block;

/// How many blocks are known at most.
pub(crate) const SLOTS: usize = 64;

/// Of which block a slot is, and how far that is.
#[derive(Clone, Copy)]
pub enum Early {
    /// Of none.
    Free,
    /// It was written, and not synced since.
    Written(Block),
    /// It was written and synced, and no write of it was begun since: it isn't pending.
    Settled(Block),
}

/// Blocks that were written, each with its words as they were written: the disk has them still, since each write of a block
/// takes its slot away first. So it is known without a read whether a page was stored into since. No call but `new` takes
/// memory.
#[derive(Drop)]
pub struct EarlyWrites {
    /// Of which block each slot is.
    pub(crate) slots: [Early; SLOTS],
    /// The words of the slots, in their order, or no word at all: then no block is ever known.
    pub(crate) words: Vec<u64>,
    /// Which slot each block had last: if that one is not of the block, none is.
    pub(crate) hints: Vec<u8>,
    /// The slot to be used next.
    pub(crate) next: u32,
    /// How many slots are of a block. It is a hint.
    pub(crate) used: u32,
    ghost hinted: { HaveHints slots hints.items },
}
