//! Words of blocks, and the inodes of a volume, read.

ghost use Rattle.std.specs.Prelude.{◌≡◌, ◌<◌, IfErr, IfOk, OnOk, length};
ghost use Rattle.rio_base.specs.Blocks.{IsRun, IsSpan};
ghost use Rattle.rio_base.specs.Shapes.{IsServed};
ghost use Rattle.volume_check.specs.Looking.{CanLook, Looked, Refuses};
ghost use Rattle.volume_check.specs.Inodes.{HasInodes};
ghost use Rattle.volume_check.specs.NodeBlocks.{PushesBlock};

use crate::failures::CheckFail;
use crate::inodes::Inodes;
use inode_table::{BLOCK_INODES, INODE_WORDS};
use rio_base::{BLOCK_WORDS, Block, Blocks, VolumeShape};
use std::alloc::Global;

/// The first block of inodes.
pub const FIRST_INODES: u32 = 2;

/// Reads words of block `b`, from word `w` on, as many as `into` has.
pub fn read_words<V: Blocks>(v: &mut V, b: Block, w: u16, into: &mut [u64]) -> Result<(), CheckFail>
    requires can { CanLook V.seen V.sound V.passes v.old }
    requires span { IsSpan (V.seen v.old) b.0 w (length into.old) }
    ensures words { OnOk result (IsRun (V.seen v.old).words b.0 w (length into.old) into.new) }
    ensures len { length into.new ≡ length into.old }
    ensures unrefused { IfErr result (Refuses (λ _ _. ⊥)) }
    ensures looked { Looked V.seen V.health V.sound V.passes v.old v.new result }
{
    v.read_run(b, None, w, into)?;
    Ok(())
}

/// Adds the words of block `b` to others.
pub fn push_block<V: Blocks>(v: &mut V, b: Block, words: &mut Vec<u64>) -> Result<(), CheckFail>
    requires can { CanLook V.seen V.sound V.passes v.old }
    requires block { b.0 < (V.seen v.old).count }
    ensures words { OnOk result (PushesBlock (V.seen v.old).words b.0 words.old.items words.new.items) }
    ensures unrefused { IfErr result (Refuses (λ _ _. ⊥)) }
    ensures looked { Looked V.seen V.health V.sound V.passes v.old v.new result }
{
    let mut block = [0; BLOCK_WORDS];
    read_words(v, b, 0, &mut block)?;
    words.extend_from_slice(&block)?;
    Ok(())
}

/// All inodes of a volume of this shape.
pub fn read_inodes<V: Blocks>(
    alloc: Global,
    v: &mut V,
    shape: &VolumeShape,
) -> Result<Inodes, CheckFail>
    requires can { CanLook V.seen V.sound V.passes v.old }
    requires served { IsServed shape.now }
    requires count { (V.seen v.old).count ≡ shape.now.blocks }
    ensures inodes { IfOk result (HasInodes (V.seen v.old)) }
    ensures shape { IfOk result (λ inodes. inodes.shape ≡ shape.now) }
    ensures unrefused { IfErr result (Refuses (λ _ _. ⊥)) }
    ensures looked { Looked V.seen V.health V.sound V.passes v.old v.new result }
{
    let mut words = Vec::with_capacity(alloc, INODE_WORDS * shape.inodes as usize)?;
    for k in 0..shape.inodes / BLOCK_INODES {
        push_block(v, Block(FIRST_INODES + k), &mut words)?;
    }
    Ok(Inodes::new(*shape, words))
}
