//! Rules 2 and 7: which blocks the bitmap marks.

ghost use Rattle.std.specs.Prelude.{◌≡◌, ◌==◌, ◌≤◌, ◌<◌, ◌↔◌, ℕ, IfErr, IfOk, IsTrue, length};
ghost use Rattle.rio_base.specs.Blocks.{BlockWords};
ghost use Rattle.rio_base.specs.Shapes.{IsServed, reserved};
ghost use Rattle.rio_model.specs.Censuses.{HasOwners};
ghost use Rattle.rio_model.specs.Placed.{volume_layout};
ghost use Rattle.rio_model.specs.VolumeRules.{MarkRule, NumberRule, ReservedRule};
ghost use Rattle.volume_check.specs.Bitmap.{HasBitmap, held_bit};
ghost use Rattle.volume_check.specs.Looking.{CanLook, Looked, Refuses};

use crate::bitmap::Bitmap;
use crate::failures::CheckFail;
use crate::owners::has_owner;
use crate::reading::{FIRST_INODES, push_block};
use crate::superblock::BLOCK_BITS;
use inode_table::BLOCK_INODES;
use rio_base::{BLOCK_WORDS, Block, Blocks, VolumeShape};
use rio_model::Owner;
use std::alloc::Global;

/// The first block of the bitmap, and the only one of version 1.
pub const BITMAP: Block = Block(1);

/// How many blocks of a volume are reserved: the superblock, the bitmap and the inodes, from block 0 on.
pub fn reserved_blocks(shape: &VolumeShape) -> u32
    requires { IsServed shape.now }
    ensures { result ≡ reserved shape.now }
{
    FIRST_INODES + shape.inodes / BLOCK_INODES
}

/// The bitmap, read.
pub fn read_bitmap<V: Blocks>(
    alloc: Global,
    v: &mut V,
    shape: &VolumeShape,
) -> Result<Bitmap, CheckFail>
    requires can { CanLook V.seen V.sound V.passes v.old }
    requires served { IsServed shape.now }
    requires count { (V.seen v.old).count ≡ shape.now.blocks }
    ensures bitmap { IfOk result (HasBitmap shape.now (V.seen v.old).words) }
    ensures unrefused { IfErr result (Refuses (λ _ _. ⊥)) }
    ensures looked { Looked V.seen V.health V.sound V.passes v.old v.new result }
{
    let mut words = Vec::with_capacity(alloc, BLOCK_WORDS)?;
    push_block(v, BITMAP, &mut words)?;
    Ok(Bitmap::new(words))
}

/// Whether the bits of blocks `from` to `end` are all so.
fn are_marked(bitmap: &Bitmap, from: u32, end: u32, used: bool) -> bool
    requires { end ≤ 32768 }
    ensures { IsTrue result ↔ ((b : ℕ) → from ≤ b → b < end → (held_bit bitmap.now b == 1) ≡ used) }
{
    for b in from..end {
        if bitmap.is_marked(b) != used {
            return false;
        }
    }
    true
}

/// Whether rule 2 holds: all reserved blocks are marked, and no bit past the last block is.
pub fn keeps_reserved(shape: &VolumeShape, bitmap: &Bitmap) -> bool
    requires { IsServed shape.now }
    ensures { (f : BlockWords) → HasBitmap shape.now f bitmap.now → (IsTrue result ↔ ReservedRule shape.now f) }
{
    if !are_marked(bitmap, 0, reserved_blocks(shape), true) {
        return false;
    }
    are_marked(bitmap, shape.blocks, BLOCK_BITS, false)
}

/// Whether rule 7 holds: a block past the reserved ones is marked exactly where some node has it.
pub fn keeps_marks(shape: &VolumeShape, bitmap: &Bitmap, owners: &[Owner]) -> bool
    requires served { IsServed shape.now }
    requires count { length owners.now ≡ shape.now.blocks }
    ensures { (f : BlockWords) → HasBitmap shape.now f bitmap.now → NumberRule (volume_layout shape.now f) → HasOwners (volume_layout shape.now f) owners.now → (IsTrue result ↔ MarkRule (volume_layout shape.now f) f) }
{
    for b in reserved_blocks(shape)..shape.blocks {
        if bitmap.is_marked(b) != has_owner(owners[b as usize]) {
            return false;
        }
    }
    true
}
