//! Inodes read.

ghost use Rattle.std.specs.Prelude.{◌≡◌, ◌+◌, ◌/◌, ◌%◌, ◌^◌, ◌<◌, ◌≤◌, ℕ, None, IfOk, slice_index};
ghost use Rattle.rio_base.specs.Frames.{CanRead, LooksShaped, ReadBy};
ghost use Rattle.rio_base.specs.Blocks.{BlockWords, Caches, IsRun};
ghost use Rattle.rio_base.specs.Layout.{IsIno, half, inode_block, inode_kind, inode_place};
ghost use Rattle.rio_base.specs.Shapes.{HasShape};
ghost use Rattle.inode_table.specs.Inodes.{IsInode};

use crate::inode::{INODE_WORDS, Inode, inode_block, inode_place};
use rio_base::{Blocks, Ino, VolFail, VolumeShape};

/// What the number in the high half of a word counts for.
const HALF: u64 = 1 << 32;

/// The number in the low half of a word.
fn low_half(word: u64) -> u32
    ensures { result ≡ word % 2 ^ 32 }
{
    (word % HALF) as u32
}

/// The number in the high half of a word.
fn high_half(word: u64) -> u32
    ensures { result ≡ word / 2 ^ 32 }
{
    (word / HALF) as u32
}

/// The 24 numbers in words 2 to 13 of an inode, two in each.
fn direct_of(words: &[u64; INODE_WORDS]) -> [u32; 24]
    ensures { (p : ℕ) → p < 24 → slice_index result p ≡ half (slice_index words.now (2 + p / 2)) p }
{
    let mut direct = [0; 24];
    for k in 0..12 {
        direct[2 * k] = low_half(words[2 + k]);
        direct[2 * k + 1] = high_half(words[2 + k]);
    }
    direct
}

/// The inode that these words say.
fn inode_of(words: &[u64; INODE_WORDS]) -> Inode
    requires kind { slice_index words.now 0 ≤ 3 }
    ensures { (f : BlockWords) (i : ℕ) → IsRun f (inode_block i) (inode_place i) 16 words.now → IsInode f i result }
{
    Inode {
        kind: words[0] as u8,
        size: words[1],
        direct: direct_of(words),
        indirect: low_half(words[14]),
        double: low_half(words[15]),
    }
}

/// Inode `i`, whose kind must be one that there is. The high halves of words 14 and 15 are not looked at. `Fault` and
/// `Stopped` are those of reading its block.
#[inline(always)]
pub fn read_inode<V: Blocks>(v: &mut V, shape: &VolumeShape, i: Ino) -> Result<Inode, VolFail>
    requires can { CanRead V.seen V.sound (HasShape shape.now) v.old }
    requires ino { IsIno shape.now i.0 }
    requires kind { inode_kind (V.seen v.old).words i.0 ≤ 3 }
    ensures value { IfOk result (IsInode (V.seen v.old).words i.0) }
    ensures read { ReadBy V.seen V.health V.sound V.passes (LooksShaped shape.now) v.old v.new result }
    ensures caches { Caches (V.seen v.old) (V.seen v.new) (inode_block i.0) None }
{
    let mut words = [0; INODE_WORDS];
    v.read_run(inode_block(shape, i), None, inode_place(i), &mut words)?;
    Ok(inode_of(&words))
}
