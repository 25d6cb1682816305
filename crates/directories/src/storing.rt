//! Words of entries, as edits of a prepared change.

ghost use Rattle.std.specs.Prelude.{◌≡◌, ◌+◌, ◌*◌, ◌/◌, ◌%◌, ◌<◌, ◌≤◌, ◌++◌, ℕ, map, length, slice_index, vec_capacity, IfOk};
ghost use Rattle.std.specs.Vec.{vec_len};
ghost use Rattle.std.specs.List.{Contains};
ghost use Rattle.rio_base.specs.Frames.{CanRead, ReadBy};
ghost use Rattle.rio_model.specs.Placed.{AtPage, placed_at};
ghost use Rattle.inode_table.specs.Inodes.{IsInode};
ghost use Rattle.node_pages.specs.Changes.{word_edit};
ghost use Rattle.node_pages.specs.LookingUp.{LooksUp};
ghost use Rattle.directories.specs.Contents.{GoesInto, all_edits, entry_edits};
ghost use Rattle.directories.specs.Reading.{CanReadDir};
ghost use Rattle.directories.specs.declared.storing.EntryWords.{EntryWords as EntryWordsOf};

use crate::DirChange;
use crate::entries::{ENTRY_WORDS, PAGE_ENTRIES};
use crate::pages::{first_word, page_block, read_entry};
use inode_table::Inode;
use node_pages::{Edit, EditList, SizeChange};
use rio_base::{Block, Blocks, Ino, VolFail, VolumeShape};
use std::alloc::AllocError;

/// The words of an entry, and the place where they are to be stored.
#[derive(Clone, Copy, Debug)]
pub struct EntryWords {
    /// The block of its page.
    pub block: Block,
    /// Its first word there.
    pub first: u16,
    /// Its words.
    pub words: [u64; ENTRY_WORDS],
}

/// The words of an entry, and the slot in which they are to be stored.
#[derive(Clone, Copy, Debug)]
pub struct SlotWords {
    /// The slot.
    pub slot: u32,
    /// The words.
    pub words: [u64; ENTRY_WORDS],
}

/// Words for slot `slot` of a directory, which has this inode.
pub fn words_for_slot<V: Blocks>(
    v: &mut V,
    shape: &VolumeShape,
    dir: Ino,
    inode: &Inode,
    slot: u32,
    words: [u64; ENTRY_WORDS],
) -> Result<EntryWords, VolFail>
    requires can { CanRead V.seen V.sound (λ x. CanReadDir shape.now x dir.0) v.old }
    requires inode { IsInode (V.seen v.old).words dir.0 inode.now }
    requires slot { 64 * slot < inode.now.size }
    ensures into { IfOk result (GoesInto (placed_at (V.seen v.old).words dir.0) slot) }
    ensures words { IfOk result (λ e. e.words ≡ words) }
    ensures within { IfOk result (λ e. e.first + 8 ≤ 512) }
    ensures read { ReadBy V.seen V.health V.sound V.passes (LooksUp shape.now) v.old v.new result }
    ensures can { CanReadDir shape.now (V.seen v.new) dir.0 }
{
    let block = page_block(v, shape, dir, inode, slot / PAGE_ENTRIES)?;
    Ok(EntryWords {
        block,
        first: first_word(slot),
        words,
    })
}

/// The words of the entry in slot `from`, for slot `to`.
pub fn moved_words<V: Blocks>(
    v: &mut V,
    shape: &VolumeShape,
    dir: Ino,
    inode: &Inode,
    from: u32,
    to: u32,
) -> Result<EntryWords, VolFail>
    requires can { CanRead V.seen V.sound (λ x. CanReadDir shape.now x dir.0) v.old }
    requires inode { IsInode (V.seen v.old).words dir.0 inode.now }
    requires from { 64 * from < inode.now.size }
    requires to { 64 * to < inode.now.size }
    ensures into { IfOk result (GoesInto (placed_at (V.seen v.old).words dir.0) to) }
    ensures words { IfOk result (λ e. (t : ℕ) → t < 8 → slice_index e.words t ≡ (V.seen v.old).words ((placed_at (V.seen v.old).words dir.0).block (AtPage (from / 64))) (8 * (from % 64) + t)) }
    ensures within { IfOk result (λ e. e.first + 8 ≤ 512) }
    ensures read { ReadBy V.seen V.health V.sound V.passes (LooksUp shape.now) v.old v.new result }
    ensures can { CanReadDir shape.now (V.seen v.new) dir.0 }
{
    let words = read_entry(v, shape, dir, inode, from)?;
    words_for_slot(v, shape, dir, inode, to, words)
}

/// Adds the edits that store an entry, in room that is there.
fn push_edits(edits: &mut Vec<Edit>, entry: &EntryWords)
    requires within { entry.now.first + 8 ≤ 512 }
    requires room { vec_len edits.old + 8 ≤ vec_capacity edits.old }
    ensures edits { map word_edit edits.new.items ≡ map word_edit edits.old.items ++ entry_edits entry.now }
    ensures len { vec_len edits.new ≡ vec_len edits.old + 8 }
    ensures capacity { vec_capacity edits.new ≡ vec_capacity edits.old }
{
    for t in 0..ENTRY_WORDS {
        edits.push_reserved(Edit {
            block: entry.block,
            word: entry.first + t as u16,
            value: entry.words[t],
        });
    }
}

/// A change of a directory's size, with the words of entries that are to be stored.
pub fn with_entries(
    dir: Ino,
    change: SizeChange,
    entries: &[EntryWords],
) -> Result<DirChange, AllocError>
    requires within { (e : EntryWordsOf) → Contains entries.now e → e.first + 8 ≤ 512 }
    requires few { length entries.now ≤ 2 }
    ensures dir { IfOk result (λ c. c.dir ≡ dir) }
    ensures inode { IfOk result (λ c. c.inode ≡ change.inode) }
    ensures edits { IfOk result (λ c. map word_edit c.edits ≡ map word_edit change.edits ++ all_edits entries.now) }
    ensures taken { IfOk result (λ c. c.taken ≡ change.taken) }
    ensures freed { IfOk result (λ c. c.freed ≡ change.freed) }
{
    let mut edits = change.edits.into_vec();
    // room for all at once: edits pushed one by one would have the vector grow several times
    edits.reserve(ENTRY_WORDS * entries.len())?;
    for k in 0..entries.len() {
        push_edits(&mut edits, &entries[k]);
    }
    Ok(DirChange {
        dir,
        inode: change.inode,
        edits: EditList::from(edits),
        taken: change.taken,
        freed: change.freed,
    })
}
