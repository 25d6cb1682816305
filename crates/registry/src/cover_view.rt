//! A machine read as the blocks that memory and disk stand for together.

ghost use Rattle.std.specs.Prelude.{◌≡◌, ◌<◌, ◌≤◌, ◌+◌, ℕ, None, true, is_some, IfErr, IfOk, IsErrOf, OnOk, drop, if◌then◌else◌, length, slice_index, take};
ghost use Rattle.rio_base.specs.Blocks.{Ends, IsRun};
ghost use Rattle.rio_model.specs.Cover.{entry_of_block, holds, stands};
ghost use Rattle.rio_model.specs.Registry.{HasLayout, KeepsRegistry, frames_of};
ghost use Rattle.registry.specs.ViewLaws.{sure_on, view_fits, viewed_refl, viewed_trans};
ghost use Rattle.registry.specs.Views.{ListsEntries, ViewSound, Viewed, entry_mark, is_at_hand, is_held, view_health, view_seen};

use crate::entry::load_tag;
use crate::pages::{counted_page_of, frame_count};
use rio_base::{BLOCK_WORDS, Block, Blocks, DiskFail, Machine, PageName, VolFail};
use std::alloc::{AllocError, Global};

/// A machine, read as the blocks that its memory and its disk stand for: a block that has a valid entry reads as the page
/// that counts for this entry, whether it is dirty or clean, and any other block as the disk's.
///
/// It is for looking at a pair of memory and disk before anything is stored: a check of the rules of a volume and a warm
/// reboot read a volume by it. It stores nothing, neither to memory nor to the disk, and nothing counts as cached, so that a
/// block may be asked for under any name. A block without an entry is read from the disk once for all words of it that are
/// asked for one after the other. After [`CoverView::new`] no call takes memory.
pub struct CoverView<M> {
    machine: M,
    /// For each block of the disk 0, or one more than the number of its entry.
    entries: Vec<u32>,
    /// A block of the disk.
    block: Vec<u64>,
    /// Which one it is, if any.
    held: Option<Block>,
}

impl<M: Machine> CoverView<M> {
    /// A view of a machine whose words keep the rules of an image. Of two entries with one block the later counts; an entry
    /// whose block lies past the disk counts for none. The error means that there was no room for the table of blocks, and
    /// hands the machine back.
    pub fn new(alloc: Global, machine: M) -> Result<CoverView<M>, (M, AllocError)>
        requires layout { HasLayout (M.contents machine).words (M.run machine).scratch }
        requires rules { KeepsRegistry (M.contents machine).words }
        requires closed { (M.contents machine).open_page ≡ None }
        ensures machine { IfOk result (λ view. view.machine ≡ machine) }
        ensures sound { IfOk result (λ view. ViewSound (M.contents view.machine) (M.run view.machine) view.entries.items view.block.items view.held) }
        ensures back { IfErr result (λ back. back.0 ≡ machine) }
    {
        match view_tables(alloc, &machine) {
            Ok((entries, block)) => Ok(CoverView {
                machine,
                entries,
                block,
                held: None,
            }),
            Err(error) => Err((machine, error)),
        }
    }

    /// The machine, to look at its memory.
    pub fn machine(&self) -> &M
        ensures { result.now ≡ self.now.machine }
    {
        &self.machine
    }

    /// The machine, taken back.
    pub fn into_machine(self) -> M
        ensures { result ≡ self.machine }
    {
        let CoverView {
            machine,
            entries: _,
            block: _,
            held: _,
        } = self;
        machine
    }

    /// Whether the words of block `b` can be lent.
    fn has(&self, b: Block) -> bool
        requires sound { ViewSound (M.contents self.now.machine) (M.run self.now.machine) self.now.entries.items self.now.block.items self.now.held }
        requires block { b.0 < length (M.contents self.now.machine).disk }
        ensures { result ≡ is_at_hand (M.contents self.now.machine).words self.now.held b.0 }
    {
        if self.entries[b.0 as usize] != 0 {
            return true;
        }
        match self.held {
            Some(held) => held.0 == b.0,
            None => false,
        }
    }

    /// The words of block `b`, which are at hand.
    fn words_of(&self, b: Block) -> &[u64]
        requires sound { ViewSound (M.contents self.now.machine) (M.run self.now.machine) self.now.entries.items self.now.block.items self.now.held }
        requires block { b.0 < length (M.contents self.now.machine).disk }
        requires hand { is_at_hand (M.contents self.now.machine).words self.now.held b.0 ≡ true }
        ensures words { IsRun (stands (M.contents self.now.machine)) b.0 0 512 result.now }
        ensures len { length result.now ≡ 512 }
    {
        let mark = self.entries[b.0 as usize];
        if mark == 0 {
            return self.block.as_slice();
        }
        let page = counted_page_of(&self.machine, mark - 1);
        self.machine.frame(page)
    }

    /// Reads block `b` of the disk, and holds it. After a failure no block is held.
    fn read(&mut self, b: Block) -> Result<(), VolFail>
        requires sound { ViewSound (M.contents self.old.machine) (M.run self.old.machine) self.old.entries.items self.old.block.items self.old.held }
        requires block { b.0 < length (M.contents self.old.machine).disk }
        ensures held { OnOk result (is_held self.new.held b.0 ≡ true) }
        ensures viewed { Viewed (M.contents self.old.machine) (M.contents self.new.machine) (M.run self.old.machine) (M.run self.new.machine) }
        ensures ends { Ends (view_health (M.contents self.old.machine) (M.run self.old.machine)) (view_health (M.contents self.new.machine) (M.run self.new.machine)) result }
        ensures sound { ViewSound (M.contents self.new.machine) (M.run self.new.machine) self.new.entries.items self.new.block.items self.new.held }
    {
        // A read that fails may leave anything in the room.
        self.held = None;
        match self.machine.read_block(b, &mut self.block) {
            Ok(()) => {
                self.held = Some(b);
                Ok(())
            }
            Err(DiskFail::Fault) => Err(VolFail::Fault),
            Err(DiskFail::Stopped) => Err(VolFail::Stopped),
        }
    }

    /// Sees to it that the words of block `b` are at hand. The disk is read only where they are not.
    fn fetch(&mut self, b: Block) -> Result<(), VolFail>
        requires sound { ViewSound (M.contents self.old.machine) (M.run self.old.machine) self.old.entries.items self.old.block.items self.old.held }
        requires block { b.0 < length (M.contents self.old.machine).disk }
        ensures hand { OnOk result (is_at_hand (M.contents self.new.machine).words self.new.held b.0 ≡ true) }
        ensures viewed { Viewed (M.contents self.old.machine) (M.contents self.new.machine) (M.run self.old.machine) (M.run self.new.machine) }
        ensures ends { Ends (view_health (M.contents self.old.machine) (M.run self.old.machine)) (view_health (M.contents self.new.machine) (M.run self.new.machine)) result }
        ensures sure { IsErrOf result VolFail.Fault → is_at_hand (M.contents self.old.machine).words self.old.held b.0 ≡ true → ⊥ }
        ensures sound { ViewSound (M.contents self.new.machine) (M.run self.new.machine) self.new.entries.items self.new.block.items self.new.held }
    {
        if self.has(b) {
            return Ok(());
        }
        self.read(b)
    }
}

impl<M: Machine> Blocks for CoverView<M> {
    ghost seen = { λ x. view_seen (M.contents x.machine) (M.run x.machine) };

    ghost health = { λ x. view_health (M.contents x.machine) (M.run x.machine) };

    ghost sound = { λ x. ViewSound (M.contents x.machine) (M.run x.machine) x.entries.items x.block.items x.held };

    ghost sure = { λ x b. is_some (entry_of_block (M.contents x.machine).words b) ≡ true };

    ghost passes = { λ x y. Viewed (M.contents x.machine) (M.contents y.machine) (M.run x.machine) (M.run y.machine) };

    ghost sure_stays = { λ x y b h s. sure_on _ _ _ _ b h s };

    ghost passes_refl = { λ x. viewed_refl _ _ };

    ghost passes_trans = { λ x y z h k. viewed_trans _ _ _ _ _ _ h k };

    ghost names_fit = { λ x s. view_fits (M.contents x.machine) (M.run x.machine) };

    fn volume_blocks(&self) -> u32 {
        self.machine.disk_blocks()
    }

    fn word(&mut self, b: Block, name: Option<PageName>, w: u16) -> Result<u64, VolFail> {
        self.fetch(b)?;
        Ok(self.words_of(b)[w as usize])
    }

    fn read_run(
        &mut self,
        b: Block,
        name: Option<PageName>,
        w: u16,
        into: &mut [u64],
    ) -> Result<(), VolFail> {
        self.fetch(b)?;
        copy_words(self.words_of(b), w as usize, into);
        Ok(())
    }

    /// Lends the page that counts for block `b`, or the block where it was read last.
    fn page(&self, b: Block) -> Option<&[u64]> {
        if !self.has(b) {
            return None;
        }
        Some(self.words_of(b))
    }
}

/// Copies words from word `at` on, as many as `into` has.
fn copy_words(words: &[u64], at: usize, into: &mut [u64])
    requires within { at + length into.old ≤ length words.now }
    ensures copied { into.new ≡ take (length into.old) (drop at words.now) }
    ensures len { length into.new ≡ length into.old }
{
    into.copy_from_slice(&words[at..at + into.len()]);
}

// ---- the table of blocks

/// The table of a machine's entries by block, and room for a block.
fn view_tables<M: Machine>(alloc: Global, m: &M) -> Result<(Vec<u32>, Vec<u64>), AllocError>
    requires layout { HasLayout (M.contents m.now).words (M.run m.now).scratch }
    ensures entries { IfOk result (λ made. ListsEntries (M.contents m.now).words (length (M.contents m.now).disk) made.0.items) }
    ensures room { IfOk result (λ made. length made.1.items ≡ 512) }
{
    let mut entries = vec![in alloc; 0; m.disk_blocks() as usize]?;
    let block = vec![in alloc; 0; BLOCK_WORDS]?;
    note_entries(m, &mut entries);
    Ok((entries, block))
}

/// Notes for each block of a table its entry, the last where there are several.
fn note_entries<M: Machine>(m: &M, entries: &mut [u32])
    requires layout { HasLayout (M.contents m.now).words (M.run m.now).scratch }
    requires none { (b : ℕ) → b < length entries.old → slice_index entries.old b ≡ 0 }
    ensures entries { ListsEntries (M.contents m.now).words (length entries.old) entries.new }
{
    for k in 0..frame_count(m) {
        note_entry(m, k, entries);
    }
}

/// Notes entry `k`, if it is valid, for its block, if the table has it.
fn note_entry<M: Machine>(m: &M, k: u32, entries: &mut [u32])
    requires layout { HasLayout (M.contents m.now).words (M.run m.now).scratch }
    requires entry { k < frames_of (M.contents m.now).words }
    ensures noted { (b : ℕ) → b < length entries.old → slice_index entries.new b ≡ (if holds (M.contents m.now).words b k then k + 1 else slice_index entries.old b) }
    ensures len { length entries.new ≡ length entries.old }
{
    let tag = load_tag(m, k);
    if !tag.is_valid() {
        return;
    }
    let block = tag.block().0 as usize;
    if block >= entries.len() {
        return;
    }
    entries[block] = k + 1;
}
