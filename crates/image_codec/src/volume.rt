//! The fresh volume.

ghost use Rattle.std.specs.Prelude.{◌≡◌, ◌<◌, ◌≤◌, ℕ, ◌+◌, ◌-◌, ◌*◌, length, replicate, slice_index, take, codes, nat_lt, nat_le, ◌&&◌, if◌then◌else◌, IfOk};
ghost use Rattle.rio_base.specs.Bitmap.{used_bit};
ghost use Rattle.rio_base.specs.Layout.{HasSuperblock};
ghost use Rattle.rio_base.specs.Shapes.{IsServed, reserved};
ghost use Rattle.rio_base.specs.Bytes.{bytes_of};
ghost use Rattle.image_codec.specs.Volume.{bitmap_word, block_words, fresh_volume_words};

use rio_base::{BLOCK_WORDS, Kind, VOLUME_MAGIC, VolumeShape};
use std::alloc::{AllocError, Global};

/// The version of the volume's layout.
const VOLUME_VERSION: u64 = 1;

/// Word `at` of a bitmap whose first `count` blocks are used.
fn used_word(count: u32, at: usize) -> u64
    requires { at < 512 }
    ensures { result ≡ bitmap_word count at }
{
    let used = count.saturating_sub(64 * at as u32);
    if used < 64 { (1 << used) - 1 } else { u64::MAX }
}

/// Marks the first `count` blocks used in the bitmap of a volume, which is its block 1. No other word changes.
fn mark_front(words: &mut [u64], count: u32)
    requires { 1024 ≤ length words.old }
    ensures { (i : ℕ) → slice_index words.new i ≡ (if nat_le 512 i && nat_lt i 1024 then bitmap_word count (i - 512) else slice_index words.old i) }
{
    for at in 0..BLOCK_WORDS {
        words[BLOCK_WORDS + at] = used_word(count, at);
    }
}

/// Writes a fresh volume over zeros.
fn write_volume(words: &mut [u64], shape: &VolumeShape)
    requires shape { IsServed shape.now }
    requires zeros { words.old ≡ replicate (512 * shape.now.blocks) 0 }
    ensures { words.new ≡ fresh_volume_words shape.now.blocks shape.now.inodes }
{
    mark_front(words, 2 + shape.inodes / 32);
    words[0] = VOLUME_MAGIC;
    words[1] = VOLUME_VERSION;
    words[2] = shape.blocks as u64;
    words[3] = shape.inodes as u64;
    words[2 * BLOCK_WORDS] = Kind::Directory as u64;
}

/// The words of a volume that has nothing but an empty root directory: the superblock, a bitmap with the reserved blocks
/// marked used, inode 1, and zeros. The inodes are from 32 to 32,768, a multiple of 32, and the blocks from one more than
/// the reserved ones to 32,768.
pub fn fresh_volume(alloc: Global, shape: &VolumeShape) -> Result<Vec<u64>, AllocError>
    requires { IsServed shape.now }
    ensures value { IfOk result (λ words. words.items ≡ fresh_volume_words shape.now.blocks shape.now.inodes) }
    ensures superblock { IfOk result (λ words. HasSuperblock (block_words words.items) shape.now) }
    ensures text { IfOk result (λ words. take 8 (bytes_of words.items) ≡ codes "RIOVOLUM") }
    ensures marked { IfOk result (λ words. (b : ℕ) → b < 32768 → used_bit shape.now (block_words words.items) b ≡ (if nat_lt b (reserved shape.now) then 1 else 0)) }
{
    let mut words = vec![in alloc; 0u64; BLOCK_WORDS * shape.blocks as usize]?;
    write_volume(&mut words, shape);
    Ok(words)
}
