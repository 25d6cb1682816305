//! Rule 1: the superblock, and the shape that it says.

ghost use Rattle.std.specs.Prelude.{◌≡◌, IfErr, IfOk, MatchOption};
ghost use Rattle.rio_base.specs.declared.places.VolumeShape.{VolumeShape};
ghost use Rattle.rio_base.specs.Blocks.{BlockWords, IsRun};
ghost use Rattle.rio_base.specs.Shapes.{IsServed};
ghost use Rattle.rio_model.specs.VolumeFails.{SaysShape};
ghost use Rattle.volume_check.specs.Looking.{CanLook, Looked, Refuses};
ghost use Rattle.volume_check.specs.Rules.{FailsShape};

use crate::failures::CheckFail;
use crate::reading::read_words;
use inode_table::BLOCK_INODES;
use rio_base::{BLOCK_WORDS, Block, Blocks, VOLUME_MAGIC, VolumeShape};
use rio_model::VolumeRule;

/// The version of the layout that is served.
const VERSION: u32 = 1;

/// The words of the superblock that are looked at.
const SUPERBLOCK_WORDS: usize = 4;

/// A block of the bitmap has a bit for so many blocks, which are the most that a volume has.
pub const BLOCK_BITS: u32 = 64 * BLOCK_WORDS as u32;

/// The most inodes of a volume.
const MOST_INODES: u32 = 32_768;

/// The fewest blocks of a volume: those of the superblock, the bitmap and its fewest inodes, and one more.
const FEWEST_BLOCKS: u32 = 4;

/// The shape that is served of a volume of so many inodes on a disk of `count` blocks, if there is one.
fn served_shape(inodes: u64, count: u32) -> Option<VolumeShape>
    ensures { MatchOption result ((shape : VolumeShape) → IsServed shape → shape.inodes ≡ inodes → shape.blocks ≡ count → ⊥) (λ shape. IsServed shape × (shape.inodes ≡ inodes) × (shape.blocks ≡ count)) }
{
    if inodes > MOST_INODES as u64 {
        return None;
    }
    if inodes == 0 {
        return None;
    }
    if inodes % BLOCK_INODES as u64 != 0 {
        return None;
    }
    let inodes = inodes as u32;
    if count < 3 + inodes / BLOCK_INODES {
        return None;
    }
    if count > BLOCK_BITS {
        return None;
    }
    Some(VolumeShape {
        version: VERSION,
        blocks: count,
        inodes,
    })
}

/// The shape that is served and that the first words of a disk of `count` blocks say, if there is one.
fn shape_of(words: &[u64; SUPERBLOCK_WORDS], count: u32) -> Option<VolumeShape>
    ensures { (f : BlockWords) → IsRun f 0 0 4 words.now → MatchOption result ((shape : VolumeShape) → ¬ SaysShape f count shape) (SaysShape f count) }
{
    if words[0] != VOLUME_MAGIC {
        return None;
    }
    if words[1] != VERSION as u64 {
        return None;
    }
    if words[2] != count as u64 {
        return None;
    }
    served_shape(words[3], count)
}

/// Looks at rule 1. The answer is the shape of the volume. Where no volume has as many blocks, none is read.
pub fn read_shape<V: Blocks>(v: &mut V) -> Result<VolumeShape, CheckFail>
    requires can { CanLook V.seen V.sound V.passes v.old }
    ensures says { IfOk result (SaysShape (V.seen v.old).words (V.seen v.old).count) }
    ensures refused { IfErr result (Refuses (FailsShape (V.seen v.old).words (V.seen v.old).count)) }
    ensures looked { Looked V.seen V.health V.sound V.passes v.old v.new result }
{
    let count = v.volume_blocks();
    if count < FEWEST_BLOCKS {
        return Err(CheckFail::BadVolume(VolumeRule::Superblock as u8, Block(0)));
    }
    if count > BLOCK_BITS {
        return Err(CheckFail::BadVolume(VolumeRule::Superblock as u8, Block(0)));
    }
    let mut words = [0; SUPERBLOCK_WORDS];
    read_words(v, Block(0), 0, &mut words)?;
    match shape_of(&words, count) {
        Some(shape) => Ok(shape),
        None => Err(CheckFail::BadVolume(VolumeRule::Superblock as u8, Block(0))),
    }
}
