//! One block marked used or free, in an open update.

ghost use Rattle.std.specs.Prelude.{◌≡◌, ◌<◌, true, None, IfOk};
ghost use Rattle.rio_base.specs.Bitmap.{bitmap_block};
ghost use Rattle.rio_base.specs.Blocks.{Looks, Caches, Halts};
ghost use Rattle.rio_base.specs.Volume.{Firm, Goes, SameUpdate};
ghost use Rattle.rio_base.specs.Shapes.{IsShape, HasShape};
ghost use Rattle.block_alloc.specs.Bitmap.{MarksBit};
ghost use Rattle.block_alloc.specs.Words.{OneBit, bit_of};

use crate::words::BITMAP;
use rio_base::{Block, Stopped, VolFail, Volume, VolumeShape};

/// The block of the bitmap that holds the bit of block `b`.
pub fn bitmap_block(shape: &VolumeShape, b: Block) -> Block
    requires sizes { IsShape shape.now }
    requires block { b.0 < shape.now.blocks }
    ensures { result.0 ≡ bitmap_block shape.now b.0 }
{
    BITMAP
}

/// A word of a touched block of the bitmap, which is read without the disk.
fn touched_word<V: Volume>(v: &mut V, shape: &VolumeShape, w: u16) -> Result<u64, Stopped>
    requires sound { V.sound v.old }
    requires shape { HasShape shape.now (V.seen v.old) }
    requires place { w < 512 }
    requires touched { (V.kept v.old).touched 1 ≡ true }
    ensures value { IfOk result (λ word. word ≡ (V.seen v.old).words 1 w) }
    ensures looks { Looks (V.seen v.old) (V.seen v.new) }
    ensures shape { HasShape shape.now (V.seen v.new) }
    ensures caches { Caches (V.seen v.old) (V.seen v.new) 1 None }
    ensures standing { (V.kept v.new).standing ≡ (V.kept v.old).standing }
    ensures firm { Firm (V.kept v.old) (V.kept v.new) }
    ensures update { SameUpdate (V.kept v.old) (V.kept v.new) }
    ensures in_update { (V.kept v.new).updating ≡ true }
    ensures goes { Goes (V.health v.old) (V.below v.old) (V.health v.new) (V.below v.new) }
    ensures ends { Halts (V.health v.old) (V.health v.new) result }
    ensures sound { V.sound v.new }
{
    match v.word(BITMAP, None, w) {
        Ok(word) => Ok(word),
        Err(VolFail::Stopped) => Err(Stopped),
        Err(VolFail::Fault) => unreachable!(),
    }
}

/// A word with bit `place` for a used block or for a free one, and its other bits as they were.
fn with_bit(word: u64, place: u32, used: bool) -> u64
    requires { place < 64 }
    ensures { OneBit word result place (bit_of used) }
{
    let bit = 1 << place;
    if used { word | bit } else { word & !bit }
}

/// Marks block `b` as used or as free, in the open update. The bitmap's block must be touched. `Stopped` comes only where
/// the machine is stopped afterwards, and then the bit may be so or as it was.
pub fn set_used<V: Volume>(
    v: &mut V,
    shape: &VolumeShape,
    b: Block,
    used: bool,
) -> Result<(), Stopped>
    requires sound { V.sound v.old }
    requires shape { HasShape shape.now (V.seen v.old) }
    requires block { b.0 < shape.now.blocks }
    requires touched { (V.kept v.old).touched (bitmap_block shape.now b.0) ≡ true }
    ensures marks { MarksBit shape.now b.0 (bit_of used) (V.seen v.old) (V.seen v.new) (V.kept v.old) (V.kept v.new) result }
    ensures shape { HasShape shape.now (V.seen v.new) }
    ensures goes { Goes (V.health v.old) (V.below v.old) (V.health v.new) (V.below v.new) }
    ensures ends { Halts (V.health v.old) (V.health v.new) result }
    ensures sound { V.sound v.new }
{
    let w = (b.0 / 64) as u16;
    let word = touched_word(v, shape, w)?;
    v.edit(BITMAP, w, with_bit(word, b.0 % 64, used))
}

/// Marks block `b` as used, in the open update. The bitmap's block must be touched. `Stopped` comes only where the
/// machine is stopped afterwards, and then the bit may be marked or not.
pub fn mark<V: Volume>(v: &mut V, shape: &VolumeShape, b: Block) -> Result<(), Stopped>
    requires sound { V.sound v.old }
    requires shape { HasShape shape.now (V.seen v.old) }
    requires block { b.0 < shape.now.blocks }
    requires touched { (V.kept v.old).touched (bitmap_block shape.now b.0) ≡ true }
    ensures marks { MarksBit shape.now b.0 1 (V.seen v.old) (V.seen v.new) (V.kept v.old) (V.kept v.new) result }
    ensures shape { HasShape shape.now (V.seen v.new) }
    ensures goes { Goes (V.health v.old) (V.below v.old) (V.health v.new) (V.below v.new) }
    ensures ends { Halts (V.health v.old) (V.health v.new) result }
    ensures sound { V.sound v.new }
{
    set_used(v, shape, b, true)
}

/// Marks block `b` as free, in the open update. The bitmap's block must be touched. `Stopped` comes only where the
/// machine is stopped afterwards, and then the bit may be marked or not.
pub fn unmark<V: Volume>(v: &mut V, shape: &VolumeShape, b: Block) -> Result<(), Stopped>
    requires sound { V.sound v.old }
    requires shape { HasShape shape.now (V.seen v.old) }
    requires block { b.0 < shape.now.blocks }
    requires touched { (V.kept v.old).touched (bitmap_block shape.now b.0) ≡ true }
    ensures marks { MarksBit shape.now b.0 0 (V.seen v.old) (V.seen v.new) (V.kept v.old) (V.kept v.new) result }
    ensures shape { HasShape shape.now (V.seen v.new) }
    ensures goes { Goes (V.health v.old) (V.below v.old) (V.health v.new) (V.below v.new) }
    ensures ends { Halts (V.health v.old) (V.health v.new) result }
    ensures sound { V.sound v.new }
{
    set_used(v, shape, b, false)
}
