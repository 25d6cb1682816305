//! The rows of a directory, read to be held in memory.

ghost use Rattle.std.specs.Prelude.{◌≡◌, ◌/◌, ◌%◌, ◌^◌, ◌≤◌, slice_index, OnOk};
ghost use Rattle.std.specs.FinMap.{empty, insert};
ghost use Rattle.directories.specs.Reading.{CanReadRows};
ghost use Rattle.rio_base.specs.Frames.{CanRead, FilledBy};
ghost use Rattle.rio_base.specs.NodeKinds.{dir_kind};
ghost use Rattle.rio_model.specs.Held.{held_of};
ghost use Rattle.rio_model.specs.VolumeReady.{LooksNamed};
ghost use Rattle.inode_table.specs.Inodes.{IsInode};
ghost use Rattle.directories.specs.Entries.{name_in};
ghost use Rattle.directories.specs.Rows.{HoldsRows, NamesApart};

use crate::entries::{ENTRY_BYTES, ENTRY_WORDS, NAME_BYTES, entry_ino, name_length};
use crate::listing::write_bytes;
use crate::pages::read_entry;
use inode_table::Inode;
use name_index::{DirNames, NotKept};
use rio_base::{Blocks, Ino, ReadFail, VolumeShape};

/// Puts the row of an entry.
fn put_entry(entry: &[u64; ENTRY_WORDS], names: &mut DirNames) -> Result<(), NotKept>
    requires { slice_index entry.now 0 / 2 ^ 32 % 2 ^ 8 ≤ 56 }
    ensures { OnOk result (names.new ≡ insert names.old (name_in (slice_index entry.now) 0) (slice_index entry.now 0 % 2 ^ 32)) }
{
    let len = name_length(entry[0]);
    let mut line = [0; NAME_BYTES];
    write_bytes(&entry[1..], &mut line);
    let (name, _) = line.split_at(len);
    names.put(name, entry_ino(entry[0]))
}

/// Puts all rows of a directory, which has this inode, where none is put yet, in the order of their slots. `Memory` means that
/// they are not kept, and then some may be put. `Fault` and `Stopped` are those of reading the directory.
pub fn hold_names<V: Blocks>(
    v: &mut V,
    shape: &VolumeShape,
    dir: Ino,
    inode: &Inode,
    names: &mut DirNames,
) -> Result<(), ReadFail>
    requires can { CanRead V.seen V.sound (CanReadRows shape.now) v.old }
    requires dir { (held_of shape.now (V.seen v.old).words dir.0).kind ≡ dir_kind }
    requires inode { IsInode (V.seen v.old).words dir.0 inode.now }
    requires apart { NamesApart (held_of shape.now (V.seen v.old).words dir.0) }
    requires blank { names.old ≡ empty }
    ensures value { OnOk result (HoldsRows (held_of shape.now (V.seen v.old).words dir.0) names.new) }
    ensures read { FilledBy V.seen V.health V.sound V.passes (LooksNamed shape.now) v.old v.new result }
{
    let count = (inode.size / ENTRY_BYTES) as u32;
    for slot in 0..count {
        let entry = read_entry(v, shape, dir, inode, slot)?;
        put_entry(&entry, names)?;
    }
    Ok(())
}
