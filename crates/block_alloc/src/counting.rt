//! How many blocks are free.

ghost use Rattle.std.specs.Prelude.{◌≡◌, None, IfOk, length};
ghost use Rattle.rio_base.specs.Frames.{CanRead, LooksShaped, ReadBy};
ghost use Rattle.rio_base.specs.Bitmap.{free_blocks};
ghost use Rattle.rio_base.specs.Blocks.{Caches};
ghost use Rattle.rio_base.specs.Shapes.{HasShape};

use crate::words::{RUN_WORDS, free_bits};
use rio_base::{Blocks, VolFail, VolumeShape};

/// How many blocks of the volume are free. `Fault` and `Stopped` are those of reading the bitmap.
pub fn free_count<V: Blocks>(v: &mut V, shape: &VolumeShape) -> Result<u32, VolFail>
    requires can { CanRead V.seen V.sound (HasShape shape.now) v.old }
    ensures value { IfOk result (λ n. n ≡ length (free_blocks shape.now (V.seen v.old).words)) }
    ensures read { ReadBy V.seen V.health V.sound V.passes (LooksShaped shape.now) v.old v.new result }
    ensures caches { Caches (V.seen v.old) (V.seen v.new) 1 None }
{
    let mut run = [0; RUN_WORDS];
    let mut free = 0;
    for w in 0..shape.blocks.div_ceil(64) {
        free += free_bits(v, shape, w, &mut run)?.count_ones();
    }
    Ok(free)
}
