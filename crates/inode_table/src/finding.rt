//! The least free inode.

ghost use Rattle.std.specs.Prelude.{◌≡◌, ◌%◌, ◌≤◌, ℕ, None, IfOk, length};
ghost use Rattle.rio_base.specs.Frames.{CanRead, LooksShaped, ReadBy};
ghost use Rattle.rio_base.specs.Blocks.{BlockWords, Caches, IsRun};
ghost use Rattle.rio_base.specs.BlockSets.{CachesBy};
ghost use Rattle.rio_base.specs.Layout.{inode_block};
ghost use Rattle.rio_base.specs.Shapes.{HasShape};
ghost use Rattle.inode_table.specs.Inodes.{FindsBelow, FindsFree, IsMetadata};

use crate::inode::{BLOCK_INODES, INODE_WORDS, inode_block};
use rio_base::{Blocks, Ino, VolFail, VolumeShape};

/// Which of the inodes in the words of a block is the first free one. Inode `first` is the first in the block.
fn first_of_page(words: &[u64]) -> Option<u32>
    requires len { length words.now ≡ 512 }
    ensures { (f : BlockWords) (first : ℕ) → 1 ≤ first → first % 32 ≡ 1 → IsRun f (inode_block first) 0 512 words.now → FindsBelow f first 32 result }
{
    for k in 0..BLOCK_INODES {
        if words[INODE_WORDS * k as usize] == 0 {
            return Some(k);
        }
    }
    None
}

/// Which inode of a block is the first free one, asked for word by word. Inode `first` is the first in the block.
fn first_of_words<V: Blocks>(
    v: &mut V,
    shape: &VolumeShape,
    first: Ino,
) -> Result<Option<u32>, VolFail>
    requires can { CanRead V.seen V.sound (HasShape shape.now) v.old }
    requires first { first.0 % 32 ≡ 1 }
    requires within { first.0 ≤ shape.now.inodes }
    ensures value { IfOk result (FindsBelow (V.seen v.old).words first.0 32) }
    ensures read { ReadBy V.seen V.health V.sound V.passes (LooksShaped shape.now) v.old v.new result }
    ensures caches { Caches (V.seen v.old) (V.seen v.new) (inode_block first.0) None }
{
    let block = inode_block(shape, first);
    for n in 0..BLOCK_INODES {
        if v.word(block, None, INODE_WORDS as u16 * n as u16)? == 0 {
            return Ok(Some(n));
        }
    }
    Ok(None)
}

/// Which of the 32 inodes from `first` on is the first free one. They are those of one block, which is asked for first, so that
/// it is fetched where it is not cached, and counts as used.
pub(crate) fn first_of_block<V: Blocks>(
    v: &mut V,
    shape: &VolumeShape,
    first: Ino,
) -> Result<Option<u32>, VolFail>
    requires can { CanRead V.seen V.sound (HasShape shape.now) v.old }
    requires first { first.0 % 32 ≡ 1 }
    requires within { first.0 ≤ shape.now.inodes }
    ensures value { IfOk result (FindsBelow (V.seen v.old).words first.0 32) }
    ensures read { ReadBy V.seen V.health V.sound V.passes (LooksShaped shape.now) v.old v.new result }
    ensures caches { Caches (V.seen v.old) (V.seen v.new) (inode_block first.0) None }
{
    let block = inode_block(shape, first);
    v.word(block, None, 0)?;
    if let Some(words) = v.page(block) {
        return Ok(first_of_page(words));
    }
    first_of_words(v, shape, first)
}

/// The least free inode, or `None` where none is free. `Fault` and `Stopped` are those of reading the inodes.
pub fn least_free<V: Blocks>(v: &mut V, shape: &VolumeShape) -> Result<Option<Ino>, VolFail>
    requires can { CanRead V.seen V.sound (HasShape shape.now) v.old }
    ensures value { IfOk result (FindsFree shape.now (V.seen v.old).words) }
    ensures read { ReadBy V.seen V.health V.sound V.passes (LooksShaped shape.now) v.old v.new result }
    ensures caches { CachesBy (IsMetadata shape.now) (V.seen v.old) (V.seen v.new) }
{
    let mut first = 1;
    while first <= shape.inodes {
        if let Some(k) = first_of_block(v, shape, Ino(first))? {
            return Ok(Some(Ino(first + k)));
        }
        first += BLOCK_INODES;
    }
    Ok(None)
}
