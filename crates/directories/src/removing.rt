//! Rows removed and replaced, prepared. The last entry moves into the gap.

ghost use Rattle.std.specs.Prelude.{◌≡◌, ◌≢◌, ◌+◌, ◌-◌, ◌*◌, ◌/◌, ◌<◌, ◌≤◌, ℕ, slice_index, IfOk, OnOk, IsErrOf};
ghost use Rattle.rio_base.specs.Blocks.{EndsBy};
ghost use Rattle.rio_base.specs.Volume.{Goes};
ghost use Rattle.rio_model.specs.Held.{HasEntry, held_of};
ghost use Rattle.rio_model.specs.Placed.{volume_layout};
ghost use Rattle.rio_model.specs.VolumeReady.{LeavesInUse, Ready};
ghost use Rattle.rio_model.specs.VolumeRules.{EntryRule};
ghost use Rattle.inode_table.specs.Inodes.{IsInode};
ghost use Rattle.directories.specs.Contents.{sized_to, with_entry};
ghost use Rattle.directories.specs.Plans.{PlansDir};
ghost use Rattle.directories.specs.Reading.{CanReadDir};
ghost use Rattle.directories.specs.RowChanges.{RemovesRow, ReplacesRow};

use crate::DirChange;
use crate::entries::{ENTRY_BYTES, with_ino};
use crate::pages::{dir_inode, read_entry};
use crate::planning::{plan_entries, plan_entry};
use crate::storing::{SlotWords, moved_words, words_for_slot};
use inode_table::Inode;
use rio_base::{Ino, ReadFail, Volume, VolumeShape};
use std::alloc::Global;

/// The slot of the last entry of a directory.
fn last_slot(inode: &Inode) -> u32
    requires some { 64 ≤ inode.now.size }
    requires few { inode.now.size ≤ 4292608 }
    ensures { result + 1 ≡ inode.now.size / 64 }
{
    (inode.size / ENTRY_BYTES) as u32 - 1
}

/// Prepares that the row of slot `slot` goes. Nothing that is in use changes, and the change takes no block.
pub fn plan_remove<V: Volume>(
    alloc: Global,
    v: &mut V,
    shape: &VolumeShape,
    dir: Ino,
    slot: u32,
) -> Result<DirChange, ReadFail>
    requires sound { V.sound v.old }
    requires ready { Ready shape.now (V.seen v.old) (V.kept v.old) }
    requires entries { EntryRule (held_of shape.now (V.seen v.old).words) }
    requires slot { HasEntry (held_of shape.now (V.seen v.old).words) dir.0 slot }
    ensures ok { IfOk result (PlansDir shape.now (V.seen v.old).words (V.seen v.new) (V.kept v.new) dir.0 (RemovesRow slot)) }
    ensures leaves { LeavesInUse (volume_layout shape.now (V.seen v.old).words) (V.seen v.old) (V.kept v.old) (V.seen v.new) (V.kept v.new) }
    ensures goes { Goes (V.health v.old) (V.below v.old) (V.health v.new) (V.below v.new) }
    ensures ends { EndsBy (V.health v.old) (V.health v.new) (IsErrOf result ReadFail.Fault) (IsErrOf result ReadFail.Stopped) }
    ensures sound { V.sound v.new }
{
    let inode = dir_inode(v, shape, dir)?;
    let last = last_slot(&inode);
    let len = inode.size - ENTRY_BYTES;
    if slot == last {
        return plan_entries(alloc, v, shape, dir, &inode, len, &[]);
    }
    let words = read_entry(v, shape, dir, &inode, last)?;
    plan_entry(alloc, v, shape, dir, &inode, len, SlotWords { slot, words })
}

/// Prepares that an entry is stored in its slot, and that the last entry of the directory moves into another one, the gap.
fn plan_filled<V: Volume>(
    alloc: Global,
    v: &mut V,
    shape: &VolumeShape,
    dir: Ino,
    inode: &Inode,
    entry: SlotWords,
    gap: u32,
) -> Result<DirChange, ReadFail>
    requires sound { V.sound v.old }
    requires ready { Ready shape.now (V.seen v.old) (V.kept v.old) }
    requires can { CanReadDir shape.now (V.seen v.old) dir.0 }
    requires inode { IsInode (V.seen v.old).words dir.0 inode.now }
    requires slot { 64 * entry.slot < inode.now.size - 64 }
    requires gap { 64 * gap < inode.now.size - 64 }
    ensures ok { IfOk result (PlansDir shape.now (V.seen v.old).words (V.seen v.new) (V.kept v.new) dir.0 (λ h k. k ≡ sized_to (inode.now.size - 64) (with_entry (with_entry h entry.slot (slice_index entry.words)) gap (λ t. h.word (8 * (inode.now.size / 64 - 1) + t))))) }
    ensures leaves { LeavesInUse (volume_layout shape.now (V.seen v.old).words) (V.seen v.old) (V.kept v.old) (V.seen v.new) (V.kept v.new) }
    ensures goes { Goes (V.health v.old) (V.below v.old) (V.health v.new) (V.below v.new) }
    ensures ends { EndsBy (V.health v.old) (V.health v.new) (IsErrOf result ReadFail.Fault) (IsErrOf result ReadFail.Stopped) }
    ensures sound { V.sound v.new }
{
    let stored = words_for_slot(v, shape, dir, inode, entry.slot, entry.words)?;
    let moved = moved_words(v, shape, dir, inode, last_slot(inode), gap)?;
    plan_entries(
        alloc,
        v,
        shape,
        dir,
        inode,
        inode.size - ENTRY_BYTES,
        &[stored, moved],
    )
}

/// Prepares that the name of slot `slot` names inode `i`, and that the row of slot `gone` goes, as one change. Nothing that
/// is in use changes, and the change takes no block.
pub fn plan_replace<V: Volume>(
    alloc: Global,
    v: &mut V,
    shape: &VolumeShape,
    dir: Ino,
    slot: u32,
    i: Ino,
    gone: u32,
) -> Result<DirChange, ReadFail>
    requires sound { V.sound v.old }
    requires ready { Ready shape.now (V.seen v.old) (V.kept v.old) }
    requires entries { EntryRule (held_of shape.now (V.seen v.old).words) }
    requires slot { HasEntry (held_of shape.now (V.seen v.old).words) dir.0 slot }
    requires gone { HasEntry (held_of shape.now (V.seen v.old).words) dir.0 gone }
    requires two { slot ≢ gone }
    ensures ok { IfOk result (PlansDir shape.now (V.seen v.old).words (V.seen v.new) (V.kept v.new) dir.0 (ReplacesRow slot i.0 gone)) }
    ensures leaves { LeavesInUse (volume_layout shape.now (V.seen v.old).words) (V.seen v.old) (V.kept v.old) (V.seen v.new) (V.kept v.new) }
    ensures goes { Goes (V.health v.old) (V.below v.old) (V.health v.new) (V.below v.new) }
    ensures ends { EndsBy (V.health v.old) (V.health v.new) (IsErrOf result ReadFail.Fault) (IsErrOf result ReadFail.Stopped) }
    ensures sound { V.sound v.new }
{
    let inode = dir_inode(v, shape, dir)?;
    let last = last_slot(&inode);
    let len = inode.size - ENTRY_BYTES;
    let own = read_entry(v, shape, dir, &inode, slot)?;
    let words = with_ino(&own, i);
    if slot == last {
        return plan_entry(
            alloc,
            v,
            shape,
            dir,
            &inode,
            len,
            SlotWords { slot: gone, words },
        );
    }
    if gone == last {
        return plan_entry(alloc, v, shape, dir, &inode, len, SlotWords { slot, words });
    }
    plan_filled(
        alloc,
        v,
        shape,
        dir,
        &inode,
        SlotWords { slot, words },
        gone,
    )
}
