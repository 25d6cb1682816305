//! Rows added and set, prepared.

ghost use Rattle.std.specs.Prelude.{◌≡◌, ◌+◌, ◌*◌, ◌/◌, ◌%◌, ◌<◌, ◌≤◌, ℕ, List, [], length, slice_index, IfOk, OnOk, IsErrOf};
ghost use Rattle.std.specs.List.{Contains};
ghost use Rattle.rio_base.specs.Frames.{CanRead, ReadBy};
ghost use Rattle.rio_base.specs.Bitmap.{free_blocks};
ghost use Rattle.rio_base.specs.Blocks.{EndsBy};
ghost use Rattle.rio_base.specs.Volume.{Goes};
ghost use Rattle.rio_base.specs.NodeKinds.{dir_kind};
ghost use Rattle.rio_model.specs.Held.{HasEntry, held_of};
ghost use Rattle.rio_model.specs.Paths.{IsName};
ghost use Rattle.rio_model.specs.NodeChanges.{shrunk};
ghost use Rattle.rio_model.specs.Placed.{AtPage, placed_at, volume_layout};
ghost use Rattle.rio_model.specs.Sizes.{largest_size};
ghost use Rattle.rio_model.specs.VolumeReady.{LeavesInUse, Ready};
ghost use Rattle.rio_model.specs.VolumeRules.{EntryRule};
ghost use Rattle.block_alloc.specs.Bitmap.{numbers};
ghost use Rattle.inode_table.specs.Inodes.{IsInode};
ghost use Rattle.node_pages.specs.Changes.{PlansSize, wanted_blocks};
ghost use Rattle.node_pages.specs.LookingUp.{LooksUp};
ghost use Rattle.directories.specs.Contents.{AllGoInto, sized_to, with_entries, with_entry};
ghost use Rattle.directories.specs.Plans.{PlansDir};
ghost use Rattle.directories.specs.Reading.{CanReadDir};
ghost use Rattle.directories.specs.RowChanges.{AddsRow, SetsRow};
ghost use Rattle.directories.specs.Rows.{HasRow, InNoOther};
ghost use Rattle.directories.specs.declared.storing.EntryWords.{EntryWords as EntryWordsOf};

use crate::DirChange;
use crate::entries::{ENTRY_BYTES, entry_words};
use crate::pages::{dir_inode, first_word, page_block};
use crate::storing::{EntryWords, SlotWords, with_entries, words_for_slot};
use inode_table::Inode;
use node_pages::{SizeChange, SizeFail, plan_size};
use rio_base::{Block, BlockList, Blocks, Ino, PAGE_BYTES, ReadFail, VolFail, Volume, VolumeShape};
use std::alloc::Global;

/// The block of the last page of a directory, where a further entry lies in it. Where all its pages are full it may be any.
fn last_block<V: Blocks>(
    v: &mut V,
    shape: &VolumeShape,
    dir: Ino,
    inode: &Inode,
) -> Result<Block, VolFail>
    requires can { CanRead V.seen V.sound (λ x. CanReadDir shape.now x dir.0) v.old }
    requires inode { IsInode (V.seen v.old).words dir.0 inode.now }
    ensures value { IfOk result (λ b. 0 < inode.now.size % 4096 → b.0 ≡ (placed_at (V.seen v.old).words dir.0).block (AtPage (inode.now.size / 4096))) }
    ensures read { ReadBy V.seen V.health V.sound V.passes (LooksUp shape.now) v.old v.new result }
    ensures can { CanReadDir shape.now (V.seen v.new) dir.0 }
{
    if inode.size % PAGE_BYTES == 0 {
        return Ok(Block(0));
    }
    page_block(v, shape, dir, inode, (inode.size / PAGE_BYTES) as u32)
}

/// The block of the entry behind the others: in the last page, or in the first block taken where all pages are full.
fn next_block(inode: &Inode, last: Block, taken: &[Block]) -> Block
    requires { inode.now.size % 4096 ≡ 0 → 0 < length taken.now }
    ensures last { 0 < inode.now.size % 4096 → result ≡ last }
    ensures taken { inode.now.size % 4096 ≡ 0 → result.0 ≡ slice_index (numbers taken.now) 0 }
{
    if inode.size % PAGE_BYTES == 0 {
        taken[0]
    } else {
        last
    }
}

/// Prepares one row more: `name`, which the directory has not, for inode `i`. Nothing that is in use changes.
///
/// `NoSpace` comes exactly where fewer blocks are free than the directory would take, and `TooLarge` never. The blocks that
/// the change takes are not in use, and a plan that takes blocks too must skip them.
pub fn plan_add<V: Volume>(
    alloc: Global,
    v: &mut V,
    shape: &VolumeShape,
    dir: Ino,
    name: &[u8],
    i: Ino,
) -> Result<DirChange, SizeFail>
    requires sound { V.sound v.old }
    requires ready { Ready shape.now (V.seen v.old) (V.kept v.old) }
    requires entries { EntryRule (held_of shape.now (V.seen v.old).words) }
    requires dir { (held_of shape.now (V.seen v.old).words dir.0).kind ≡ dir_kind }
    requires room { (held_of shape.now (V.seen v.old).words dir.0).size + 64 ≤ largest_size }
    requires is_name { IsName name.now }
    requires absent { (n : ℕ) → HasRow (held_of shape.now (V.seen v.old).words dir.0) name.now n → ⊥ }
    ensures ok { IfOk result (PlansDir shape.now (V.seen v.old).words (V.seen v.new) (V.kept v.new) dir.0 (AddsRow name.now i.0)) }
    ensures space { OnOk result (wanted_blocks (held_of shape.now (V.seen v.old).words dir.0).size ((held_of shape.now (V.seen v.old).words dir.0).size + 64) ≤ length (free_blocks shape.now (V.seen v.old).words)) }
    ensures no_space { IsErrOf result SizeFail.NoSpace → length (free_blocks shape.now (V.seen v.old).words) < wanted_blocks (held_of shape.now (V.seen v.old).words dir.0).size ((held_of shape.now (V.seen v.old).words dir.0).size + 64) }
    ensures fits { IsErrOf result SizeFail.TooLarge → ⊥ }
    ensures leaves { LeavesInUse (volume_layout shape.now (V.seen v.old).words) (V.seen v.old) (V.kept v.old) (V.seen v.new) (V.kept v.new) }
    ensures goes { Goes (V.health v.old) (V.below v.old) (V.health v.new) (V.below v.new) }
    ensures ends { EndsBy (V.health v.old) (V.health v.new) (IsErrOf result SizeFail.Fault) (IsErrOf result SizeFail.Stopped) }
    ensures sound { V.sound v.new }
{
    let inode = dir_inode(v, shape, dir)?;
    let last = last_block(v, shape, dir, &inode)?;
    let skip = BlockList::from(Vec::new(alloc));
    let change = plan_size(
        alloc,
        v,
        shape,
        dir,
        &inode,
        inode.size + ENTRY_BYTES,
        &skip,
    )?;
    let entry = EntryWords {
        block: next_block(&inode, last, change.taken.as_slice()),
        first: first_word((inode.size / ENTRY_BYTES) as u32),
        words: entry_words(name, i),
    };
    Ok(with_entries(dir, change, &[entry])?)
}

/// Prepares a smaller size of a directory, which has this inode, or the same size.
fn plan_smaller<V: Volume>(
    alloc: Global,
    v: &mut V,
    shape: &VolumeShape,
    dir: Ino,
    inode: &Inode,
    len: u64,
) -> Result<SizeChange, ReadFail>
    requires sound { V.sound v.old }
    requires ready { Ready shape.now (V.seen v.old) (V.kept v.old) }
    requires can { CanReadDir shape.now (V.seen v.old) dir.0 }
    requires inode { IsInode (V.seen v.old).words dir.0 inode.now }
    requires less { len ≤ inode.now.size }
    requires whole { len % 64 ≡ 0 }
    ensures ok { IfOk result (PlansSize shape.now (V.seen v.old).words (V.seen v.new) (V.kept v.new) dir.0 inode.now len []) }
    ensures leaves { LeavesInUse (volume_layout shape.now (V.seen v.old).words) (V.seen v.old) (V.kept v.old) (V.seen v.new) (V.kept v.new) }
    ensures goes { Goes (V.health v.old) (V.below v.old) (V.health v.new) (V.below v.new) }
    ensures ends { EndsBy (V.health v.old) (V.health v.new) (IsErrOf result ReadFail.Fault) (IsErrOf result ReadFail.Stopped) }
    ensures sound { V.sound v.new }
{
    let skip = BlockList::from(Vec::new(alloc));
    match plan_size(alloc, v, shape, dir, inode, len, &skip) {
        Ok(change) => Ok(change),
        Err(SizeFail::Fault) => Err(ReadFail::Fault),
        Err(SizeFail::Stopped) => Err(ReadFail::Stopped),
        Err(SizeFail::Memory) => Err(ReadFail::Memory),
        Err(SizeFail::NoSpace) => unreachable!(),
        Err(SizeFail::TooLarge) => unreachable!(),
    }
}

/// Prepares that entries are stored, and that the directory has this size, no larger than its own.
pub fn plan_entries<V: Volume>(
    alloc: Global,
    v: &mut V,
    shape: &VolumeShape,
    dir: Ino,
    inode: &Inode,
    len: u64,
    entries: &[EntryWords],
) -> Result<DirChange, ReadFail>
    requires sound { V.sound v.old }
    requires ready { Ready shape.now (V.seen v.old) (V.kept v.old) }
    requires can { CanReadDir shape.now (V.seen v.old) dir.0 }
    requires inode { IsInode (V.seen v.old).words dir.0 inode.now }
    requires less { len ≤ inode.now.size }
    requires whole { len % 64 ≡ 0 }
    requires few { length entries.now ≤ 2 }
    requires within { (e : EntryWordsOf) → Contains entries.now e → e.first + 8 ≤ 512 }
    ensures ok { IfOk result (λ c. (slots : List ℕ) → AllGoInto (shrunk (placed_at (V.seen v.old).words dir.0) len) slots entries.now → PlansDir shape.now (V.seen v.old).words (V.seen v.new) (V.kept v.new) dir.0 (λ h k. k ≡ sized_to len (with_entries h slots entries.now)) c) }
    ensures leaves { LeavesInUse (volume_layout shape.now (V.seen v.old).words) (V.seen v.old) (V.kept v.old) (V.seen v.new) (V.kept v.new) }
    ensures goes { Goes (V.health v.old) (V.below v.old) (V.health v.new) (V.below v.new) }
    ensures ends { EndsBy (V.health v.old) (V.health v.new) (IsErrOf result ReadFail.Fault) (IsErrOf result ReadFail.Stopped) }
    ensures sound { V.sound v.new }
{
    let change = plan_smaller(alloc, v, shape, dir, inode, len)?;
    Ok(with_entries(dir, change, entries)?)
}

/// Prepares that one entry is stored in its slot, and that the directory has this size, no larger than its own.
pub fn plan_entry<V: Volume>(
    alloc: Global,
    v: &mut V,
    shape: &VolumeShape,
    dir: Ino,
    inode: &Inode,
    len: u64,
    entry: SlotWords,
) -> Result<DirChange, ReadFail>
    requires sound { V.sound v.old }
    requires ready { Ready shape.now (V.seen v.old) (V.kept v.old) }
    requires can { CanReadDir shape.now (V.seen v.old) dir.0 }
    requires inode { IsInode (V.seen v.old).words dir.0 inode.now }
    requires less { len ≤ inode.now.size }
    requires whole { len % 64 ≡ 0 }
    requires slot { 64 * entry.slot < len }
    ensures ok { IfOk result (PlansDir shape.now (V.seen v.old).words (V.seen v.new) (V.kept v.new) dir.0 (λ h k. k ≡ sized_to len (with_entry h entry.slot (slice_index entry.words)))) }
    ensures leaves { LeavesInUse (volume_layout shape.now (V.seen v.old).words) (V.seen v.old) (V.kept v.old) (V.seen v.new) (V.kept v.new) }
    ensures goes { Goes (V.health v.old) (V.below v.old) (V.health v.new) (V.below v.new) }
    ensures ends { EndsBy (V.health v.old) (V.health v.new) (IsErrOf result ReadFail.Fault) (IsErrOf result ReadFail.Stopped) }
    ensures sound { V.sound v.new }
{
    let stored = words_for_slot(v, shape, dir, inode, entry.slot, entry.words)?;
    plan_entries(alloc, v, shape, dir, inode, len, &[stored])
}

/// Prepares that the row of slot `slot` gives way to `name` for inode `i`. Nothing that is in use changes, and the change
/// takes no block.
pub fn plan_set<V: Volume>(
    alloc: Global,
    v: &mut V,
    shape: &VolumeShape,
    dir: Ino,
    slot: u32,
    name: &[u8],
    i: Ino,
) -> Result<DirChange, ReadFail>
    requires sound { V.sound v.old }
    requires ready { Ready shape.now (V.seen v.old) (V.kept v.old) }
    requires entries { EntryRule (held_of shape.now (V.seen v.old).words) }
    requires slot { HasEntry (held_of shape.now (V.seen v.old).words) dir.0 slot }
    requires is_name { IsName name.now }
    requires absent { InNoOther (held_of shape.now (V.seen v.old).words dir.0) slot name.now }
    ensures ok { IfOk result (PlansDir shape.now (V.seen v.old).words (V.seen v.new) (V.kept v.new) dir.0 (SetsRow slot name.now i.0)) }
    ensures leaves { LeavesInUse (volume_layout shape.now (V.seen v.old).words) (V.seen v.old) (V.kept v.old) (V.seen v.new) (V.kept v.new) }
    ensures goes { Goes (V.health v.old) (V.below v.old) (V.health v.new) (V.below v.new) }
    ensures ends { EndsBy (V.health v.old) (V.health v.new) (IsErrOf result ReadFail.Fault) (IsErrOf result ReadFail.Stopped) }
    ensures sound { V.sound v.new }
{
    let inode = dir_inode(v, shape, dir)?;
    let words = entry_words(name, i);
    plan_entry(
        alloc,
        v,
        shape,
        dir,
        &inode,
        inode.size,
        SlotWords { slot, words },
    )
}
