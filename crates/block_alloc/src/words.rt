//! The bitmap by whole words of 64 blocks, read by runs of words.

ghost use Rattle.std.specs.Prelude.{◌≡◌, ◌≢◌, ◌-◌, ◌*◌, ◌%◌, ◌^◌, ◌<◌, min, None, IfOk, OnOk};
ghost use Rattle.rio_base.specs.Frames.{CanRead, LooksShaped, ReadBy};
ghost use Rattle.rio_base.specs.Blocks.{BlockWords, Caches};
ghost use Rattle.rio_base.specs.Shapes.{HasShape};
ghost use Rattle.block_alloc.specs.Words.{FreeBits, HoldsRun};

use rio_base::{Block, Blocks, VolFail, VolumeShape};

/// The block that holds the bitmap.
pub const BITMAP: Block = Block(1);

/// Words of the bitmap that one call reads, 4,096 blocks. Each count and each choice of blocks clears a room of so many
/// words, so it is small; the largest bitmap, 512 words, takes eight calls.
pub const RUN_WORDS: usize = 64;

/// A word whose lowest `count` bits are 1, or all of them.
fn low_ones(count: u32) -> u64
    ensures { result ≡ 2 ^ min count 64 - 1 }
{
    if count < 64 {
        (1 << count) - 1
    } else {
        u64::MAX
    }
}

/// The free blocks of word `w` of the bitmap, which reads `used`.
fn free_of(used: u64, shape: &VolumeShape, w: u32) -> u64
    requires word { w < 512 }
    requires within { 64 * w < shape.now.blocks }
    ensures { (words : BlockWords) → used ≡ words 1 w → FreeBits shape.now words w result }
{
    !used & low_ones(shape.blocks - 64 * w)
}

/// Reads the run of the bitmap that begins with word `w`, as far as the volume has it. After a failure `run` may hold
/// anything.
fn fill_run<V: Blocks>(
    v: &mut V,
    shape: &VolumeShape,
    w: u32,
    run: &mut [u64; RUN_WORDS],
) -> Result<(), VolFail>
    requires can { CanRead V.seen V.sound (HasShape shape.now) v.old }
    requires begins { w % 64 ≡ 0 }
    requires within { 64 * w < shape.now.blocks }
    ensures run { OnOk result (HoldsRun shape.now (V.seen v.old).words w run.new) }
    ensures read { ReadBy V.seen V.health V.sound V.passes (LooksShaped shape.now) v.old v.new result }
    ensures caches { Caches (V.seen v.old) (V.seen v.new) 1 None }
{
    let count = ((shape.blocks.div_ceil(64) - w) as usize).min(RUN_WORDS);
    v.read_run(BITMAP, None, w as u16, &mut run[..count])
}

/// The free blocks of word `w` of the bitmap, a bit for each: 64 blocks from `64 * w` on, without those past the end.
/// Where `w` begins a run, `run` is filled with it; else it has it from the call before.
pub fn free_bits<V: Blocks>(
    v: &mut V,
    shape: &VolumeShape,
    w: u32,
    run: &mut [u64; RUN_WORDS],
) -> Result<u64, VolFail>
    requires can { CanRead V.seen V.sound (HasShape shape.now) v.old }
    requires within { 64 * w < shape.now.blocks }
    requires run { w % 64 ≢ 0 → HoldsRun shape.now (V.seen v.old).words w run.old }
    ensures value { IfOk result (FreeBits shape.now (V.seen v.old).words w) }
    ensures run { OnOk result (HoldsRun shape.now (V.seen v.old).words w run.new) }
    ensures read { ReadBy V.seen V.health V.sound V.passes (LooksShaped shape.now) v.old v.new result }
    ensures caches { Caches (V.seen v.old) (V.seen v.new) 1 None }
{
    let place = w as usize % RUN_WORDS;
    if place != 0 {
        return Ok(free_of(run[place], shape, w));
    }
    fill_run(v, shape, w, run)?;
    Ok(free_of(run[0], shape, w))
}
