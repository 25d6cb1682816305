//! Blocks of inodes that are known to be full.

ghost use Rattle.std.specs.Prelude.{◌≢◌, ◌+◌, ◌*◌, ◌<◌, ◌≤◌, ℕ, IfOk, slice_index};
ghost use Rattle.rio_base.specs.Frames.{CanRead, LooksShaped, ReadBy};
ghost use Rattle.rio_base.specs.declared.places.VolumeShape.{VolumeShape as ShapeOf};
ghost use Rattle.rio_base.specs.Blocks.{BlockWords};
ghost use Rattle.rio_base.specs.BlockSets.{CachesBy};
ghost use Rattle.rio_base.specs.Shapes.{HasShape};
ghost use Rattle.inode_table.specs.Inodes.{AreUsed, FindsFree, IsMetadata, KnowsFull, StayUsed};

use crate::finding::first_of_block;
use crate::inode::BLOCK_INODES;
use memchr::memchr;
use rio_base::{Blocks, Ino, VolFail, VolumeShape};

/// The most blocks of inodes that a volume has.
const MOST_BLOCKS: usize = 1024;

/// Which blocks of inodes are known to have no free one, so that a search for a free inode passes over them unseen. It is told of
/// each inode that becomes free. Of one that comes into use nobody has to tell it: what it does not know, it finds.
#[derive(Drop)]
pub struct FullBlocks {
    /// 1 for each block that is known to be full, 0 for the others.
    marks: [u8; MOST_BLOCKS],
}

impl FullBlocks {
    /// No block is known to be full.
    pub fn new() -> FullBlocks
        ensures { (shape : ShapeOf) (f : BlockWords) → KnowsFull shape result f }
    {
        FullBlocks {
            marks: [0; MOST_BLOCKS],
        }
    }

    /// The first block from block `from` on that is not known to be full.
    fn next_open(&self, from: u32) -> u32
        requires { from ≤ 1024 }
        ensures from { from ≤ result }
        ensures to { result ≤ 1024 }
        ensures full { (k : ℕ) → from ≤ k → k < result → slice_index self.now.marks k ≢ 0 }
    {
        match memchr(0, &self.marks[from as usize..]) {
            Some(passed) => from + passed as u32,
            None => MOST_BLOCKS as u32,
        }
    }

    /// Knows from now on that block `k` is full.
    fn mark(&mut self, k: u32)
        requires { k < 1024 }
        ensures { (shape : ShapeOf) (f : BlockWords) → KnowsFull shape self.old f → AreUsed f (32 * k + 1) 32 → KnowsFull shape self.new f }
    {
        self.marks[k as usize] = 1;
    }

    /// Is told that inode `i` is free from now on.
    pub fn freed(&mut self, i: Ino)
        ensures { (shape : ShapeOf) (f g : BlockWords) → KnowsFull shape self.old f → StayUsed shape i.0 f g → KnowsFull shape self.new g }
    {
        let k = (i.0.saturating_sub(1) / BLOCK_INODES) as usize;
        if k >= MOST_BLOCKS {
            return;
        }
        self.marks[k] = 0;
    }
}

/// The least free inode, or `None` where none is free, as `least_free` answers it: blocks that are known to be full are not looked
/// at, and those that are found to be so are known from then on. `Fault` and `Stopped` are those of reading the inodes.
pub fn least_free_past_full<V: Blocks>(
    v: &mut V,
    shape: &VolumeShape,
    full: &mut FullBlocks,
) -> Result<Option<Ino>, VolFail>
    requires can { CanRead V.seen V.sound (HasShape shape.now) v.old }
    requires known { KnowsFull shape.now full.old (V.seen v.old).words }
    ensures value { IfOk result (FindsFree shape.now (V.seen v.old).words) }
    ensures known { KnowsFull shape.now full.new (V.seen v.old).words }
    ensures read { ReadBy V.seen V.health V.sound V.passes (LooksShaped shape.now) v.old v.new result }
    ensures caches { CachesBy (IsMetadata shape.now) (V.seen v.old) (V.seen v.new) }
{
    let mut k = full.next_open(0);
    while k < shape.inodes / BLOCK_INODES {
        let first = BLOCK_INODES * k + 1;
        if let Some(n) = first_of_block(v, shape, Ino(first))? {
            return Ok(Some(Ino(first + n)));
        }
        full.mark(k);
        k = full.next_open(k + 1);
    }
    Ok(None)
}
