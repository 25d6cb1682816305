//! What the pool keeps of a frame.

use rio_base::Block;

/// A frame of the pool, or the knot, which stands behind all frames and ties the ends of the order of use.
#[derive(Clone, Copy)]
pub struct Frame {
    /// Its block. A free frame has none, and the knot has none.
    pub block: Option<Block>,
    /// The frame that was used before it; of the one that was used least recently, the knot.
    pub older: u32,
    /// The frame that was used after it; of the one that was used last, the knot.
    pub younger: u32,
    /// Whether it has to stay.
    pub pinned: bool,
}
