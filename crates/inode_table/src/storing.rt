//! Inodes stored in the open update.

ghost use Rattle.std.specs.Prelude.{◌≡◌, true, OnOk};
ghost use Rattle.rio_base.specs.Blocks.{Drops, Halts};
ghost use Rattle.rio_base.specs.Layout.{IsIno, inode_block, inode_place};
ghost use Rattle.rio_base.specs.Shapes.{HasShape};
ghost use Rattle.rio_base.specs.Volume.{Firm, Goes, OldOrRun, SameUpdate, put_run};
ghost use Rattle.inode_table.specs.Inodes.{inode_words, pair_word};

use crate::inode::{INODE_WORDS, Inode, inode_block, inode_place};
use rio_base::{Ino, Stopped, Volume, VolumeShape};

/// Two block numbers in one word.
fn pair_of(low: u32, high: u32) -> u64
    ensures { result ≡ pair_word low high }
{
    low as u64 | ((high as u64) << 32)
}

/// The words of an inode.
fn words_of(inode: &Inode) -> [u64; INODE_WORDS]
    ensures { result ≡ inode_words inode.now }
{
    let mut words = [0; INODE_WORDS];
    words[0] = inode.kind as u64;
    words[1] = inode.size;
    for k in 0..12 {
        words[2 + k] = pair_of(inode.direct[2 * k], inode.direct[2 * k + 1]);
    }
    words[14] = inode.indirect as u64;
    words[15] = inode.double as u64;
    words
}

/// Stores inode `i` in the open update, all of its words. Its block must be touched. `Stopped` comes only where the
/// machine is stopped afterwards, and then a front of the words may be stored.
pub fn edit_inode<V: Volume>(
    v: &mut V,
    shape: &VolumeShape,
    i: Ino,
    inode: &Inode,
) -> Result<(), Stopped>
    requires sound { V.sound v.old }
    requires shape { HasShape shape.now (V.seen v.old) }
    requires ino { IsIno shape.now i.0 }
    requires touched { (V.kept v.old).touched (inode_block i.0) ≡ true }
    ensures ok { OnOk result ((V.seen v.new).words ≡ put_run (V.seen v.old).words (inode_block i.0) (inode_place i.0) 16 (inode_words inode.now)) }
    ensures front { OldOrRun (V.seen v.old).words (V.seen v.new).words (inode_block i.0) (inode_place i.0) (inode_words inode.now) 16 }
    ensures update { OnOk result (SameUpdate (V.kept v.old) (V.kept v.new)) }
    ensures in_update { (V.kept v.new).updating ≡ true }
    ensures standing { (V.kept v.new).standing ≡ (V.kept v.old).standing }
    ensures firm { Firm (V.kept v.old) (V.kept v.new) }
    ensures shape { HasShape shape.now (V.seen v.new) }
    ensures drops { Drops (V.seen v.old) (V.seen v.new) }
    ensures goes { Goes (V.health v.old) (V.below v.old) (V.health v.new) (V.below v.new) }
    ensures ends { Halts (V.health v.old) (V.health v.new) result }
    ensures sound { V.sound v.new }
{
    let block = inode_block(shape, i);
    let place = inode_place(i);
    let words = words_of(inode);
    v.edit_run(block, place, &words)?;
    Ok(())
}
