//! The machine: memory, a disk, and the steps that a stop may fall between.

ghost use Rattle.std.specs.Prelude.{◌≡◌, ◌≢◌, ◌<◌, ◌≤◌, ◌+◌, ◌*◌, ◌/◌, ◌%◌, ◌^◌, ◌++◌, ℕ, true, false, Some, None, Err, OnOk, OnErr, IsErr, IsErrOf, length, slice_index, slice_set, replicate};
ghost use Rattle.std.specs.Option.{option_map};
ghost use Rattle.rio_base.specs.Disks.{block_at, raised};
ghost use Rattle.rio_base.specs.Machine.{Advances, Contents, Copied, CopiedScratch, Falls, FaultCause, Lasts, Meets, Running, StepEnds, WritesBlock, after_wild};
ghost use Rattle.rio_base.specs.Memory.{FrontStored, page_at};

use crate::failures::{DiskFail, Stopped};
use crate::places::{Block, Page, WordAt};
use crate::wild::Wild;

/// Memory, of which all pages but the last few are protected, and a disk. No call takes memory.
///
/// **Steps.** A word store, a block write and a sync are one step each. A machine may stop before any step; from then on
/// no word and no block changes, and every step and every block read answers `Stopped`. Memory is what it was.
///
/// **Windows.** A protected page takes stores only while it is open, and one page is open at most. A wild store, which
/// nobody asked for, is skipped on the open page. On another protected page it traps: the machine is stopped. On a
/// scratch page it changes the word.
///
/// `Fault` comes only where the disk's count of faults rose in this call, `Stopped` only where the machine is stopped
/// afterwards, and no call but one that answers so (or `wild` that answers `Trapped`) stops it.
pub trait Machine {
    /// What only the machine's own calls change: protected words, the open page and the disk.
    ghost contents: { Self → Contents };

    /// What steps, wild stores and stops change: scratch words, the count of steps, and why the machine may stop.
    ghost run: { Self → Running };

    /// How many pages memory has.
    fn pages(&self) -> u32
        ensures { 512 * result ≡ length (contents self.now).words + length (run self.now).scratch };

    /// How many blocks the disk has.
    fn disk_blocks(&self) -> u32
        ensures { result ≡ length (contents self.now).disk };

    /// The word at a place of memory.
    fn load(&self, at: WordAt) -> u64
        requires { at.0 < length (contents self.now).words + length (run self.now).scratch }
        ensures word { result ≡ slice_index ((contents self.now).words ++ (run self.now).scratch) at.0 }
        ensures protected { at.0 < length (contents self.now).words → result ≡ slice_index (contents self.now).words at.0 };

    /// Lends the 512 words of a page.
    fn frame(&self, p: Page) -> &[u64]
        requires page { 512 * p.0 < length (contents self.now).words + length (run self.now).scratch }
        ensures words { result.now ≡ page_at ((contents self.now).words ++ (run self.now).scratch) p.0 }
        ensures protected { 512 * p.0 < length (contents self.now).words → result.now ≡ page_at (contents self.now).words p.0 };

    /// The place of the wild store that trapped, if one did.
    fn trapped(&self) -> Option<WordAt>
        ensures { (run self.now).trapped ≡ option_map (λ at. at.0) result };

    /// Opens a protected page to stores. No other may be open. It is no step, and a stopped machine does it too.
    fn open_page(&mut self, p: Page)
        requires closed { (contents self.old).open_page ≡ None }
        requires protected { 512 * p.0 < length (contents self.old).words }
        ensures contents { contents self.new ≡ record (contents self.old) { open_page = Some p.0 } }
        ensures run { run self.new ≡ run self.old };

    /// Closes the open page. It is no step, and a stopped machine does it too.
    fn close_page(&mut self)
        requires { (contents self.old).open_page ≢ None }
        ensures contents { contents self.new ≡ record (contents self.old) { open_page = None } }
        ensures run { run self.new ≡ run self.old };

    /// Stores a word of the open page: one step. `Stopped` leaves the old word.
    fn store(&mut self, at: WordAt, v: u64) -> Result<(), Stopped>
        requires { (contents self.old).open_page ≡ Some (at.0 / 512) }
        ensures stored { OnOk result (contents self.new ≡ record (contents self.old) { words = slice_set (contents self.old).words at.0 v }) }
        ensures same { OnErr result (contents self.new ≡ contents self.old) }
        ensures counted { OnOk result (Advances 1 (run self.old) (run self.new)) }
        ensures uncounted { OnErr result (Advances 0 (run self.old) (run self.new)) }
        ensures lasts { Lasts (contents self.old) (contents self.new) }
        ensures falls { Falls (contents self.old).open_page (run self.old) (run self.new) }
        ensures halted { (run self.old).stopped ≡ true → IsErr result }
        ensures ends { StepEnds (run self.old) (run self.new) (IsErr result) };

    /// Copies a page to the open page, word by word from the front on: 512 steps. `Stopped` leaves a front copied. A step
    /// reads its word once the armed store that is due at it has fallen. A loop of `load` and `store` would read that word
    /// before, so this call has no body here.
    fn copy_page(&mut self, from: Page, to: Page) -> Result<(), Stopped>
        requires from { 512 * from.0 < length (contents self.old).words + length (run self.old).scratch }
        requires to { (contents self.old).open_page ≡ Some to.0 }
        requires two { from.0 ≢ to.0 }
        ensures copied { OnOk result (Copied from.0 to.0 512 (contents self.old).words (contents self.new).words) }
        ensures scratch { OnOk result (CopiedScratch from.0 to.0 512 (run self.old) (contents self.new).words) }
        ensures counted { OnOk result (Advances 512 (run self.old) (run self.new)) }
        ensures front { OnErr result ((n : ℕ) × (n < 512) × Copied from.0 to.0 n (contents self.old).words (contents self.new).words × CopiedScratch from.0 to.0 n (run self.old) (contents self.new).words × Advances n (run self.old) (run self.new)) }
        ensures rest { contents self.new ≡ record (contents self.old) { words = (contents self.new).words } }
        ensures frozen { (run self.old).stopped ≡ true → contents self.new ≡ contents self.old }
        ensures lasts { Lasts (contents self.old) (contents self.new) }
        ensures falls { Falls (contents self.old).open_page (run self.old) (run self.new) }
        ensures halted { (run self.old).stopped ≡ true → IsErr result }
        ensures ends { StepEnds (run self.old) (run self.new) (IsErr result) };

    /// Stores a run of words of the open page, from place `at` on in rising order: one step each. `Stopped` leaves a
    /// front of them stored.
    fn store_run(&mut self, at: WordAt, from: &[u64]) -> Result<(), Stopped>
        requires page { (contents self.old).open_page ≡ Some (at.0 / 512) }
        requires within { at.0 % 512 + length from.now ≤ 512 }
        ensures stored { OnOk result (FrontStored at.0 (length from.now) from.now (contents self.old).words (contents self.new).words) }
        ensures counted { OnOk result (Advances (length from.now) (run self.old) (run self.new)) }
        ensures front { OnErr result ((n : ℕ) × (n < length from.now) × FrontStored at.0 n from.now (contents self.old).words (contents self.new).words × Advances n (run self.old) (run self.new)) }
        ensures rest { contents self.new ≡ record (contents self.old) { words = (contents self.new).words } }
        ensures frozen { (run self.old).stopped ≡ true → contents self.new ≡ contents self.old }
        ensures lasts { Lasts (contents self.old) (contents self.new) }
        ensures falls { Falls (contents self.old).open_page (run self.old) (run self.new) }
        ensures halted { (run self.old).stopped ≡ true → 0 < length from.now → IsErr result }
        ensures ends { StepEnds (run self.old) (run self.new) (IsErr result) }
    {
        for i in 0..from.len() {
            self.store(WordAt(at.0 + i as u32), from[i])?;
        }
        Ok(())
    }

    /// Reads a block into `into`, which has 512 words before and after, whatever the answer. It is no step.
    fn read_block(&mut self, b: Block, into: &mut Vec<u64>) -> Result<(), DiskFail>
        requires closed { (contents self.old).open_page ≡ None }
        requires block { b.0 < length (contents self.old).disk }
        requires room { length into.old.items ≡ 512 }
        ensures words { OnOk result (into.new.items ≡ block_at (contents self.old).disk b.0) }
        ensures room { length into.new.items ≡ 512 }
        ensures same { contents self.new ≡ record (contents self.old) { faults = (contents self.new).faults } }
        ensures run { run self.new ≡ run self.old }
        ensures lasts { Lasts (contents self.old) (contents self.new) }
        ensures fault { FaultCause (contents self.old) (contents self.new) (IsErrOf result DiskFail.Fault) }
        ensures stopped { IsErrOf result DiskFail.Stopped → ((run self.old).stopped ≡ true) × (contents self.new ≡ contents self.old) }
        ensures halted { (run self.old).stopped ≡ true → IsErrOf result DiskFail.Stopped };

    /// Writes a page as a block: one step. The block is pending afterwards, also after `Fault` and `Stopped`, unless the
    /// machine was stopped before. After `Fault` it may read as anything; `Stopped` leaves the disk as it read.
    fn write_block(&mut self, b: Block, from: Page) -> Result<(), DiskFail>
        requires closed { (contents self.old).open_page ≡ None }
        requires block { b.0 < length (contents self.old).disk }
        requires from { 512 * from.0 < length (contents self.old).words + length (run self.old).scratch }
        ensures written { OnOk result (block_at (contents self.new).disk b.0 ≡ page_at ((contents self.new).words ++ (run self.new).scratch) from.0) }
        ensures protected { OnOk result (512 * from.0 < length (contents self.old).words → block_at (contents self.new).disk b.0 ≡ page_at (contents self.old).words from.0) }
        ensures writes_block { WritesBlock b.0 (contents self.old) (contents self.new) }
        ensures pending { (run self.old).stopped ≡ false → (contents self.new).pending ≡ slice_set (contents self.old).pending b.0 true }
        ensures made { result ≢ Err DiskFail.Stopped → ((contents self.new).writes ≡ raised (contents self.old).writes 1) × Advances 1 (run self.old) (run self.new) }
        ensures cut { IsErrOf result DiskFail.Stopped → (contents self.new ≡ record (contents self.old) { pending = (contents self.new).pending }) × Advances 0 (run self.old) (run self.new) }
        ensures frozen { (run self.old).stopped ≡ true → contents self.new ≡ contents self.old }
        ensures lasts { Lasts (contents self.old) (contents self.new) }
        ensures fault { FaultCause (contents self.old) (contents self.new) (IsErrOf result DiskFail.Fault) }
        ensures falls { Falls None (run self.old) (run self.new) }
        ensures halted { (run self.old).stopped ≡ true → IsErrOf result DiskFail.Stopped }
        ensures ends { StepEnds (run self.old) (run self.new) (IsErrOf result DiskFail.Stopped) };

    /// Brings all that was written to the device: one step. Nothing is pending after it; a failed or stopped one leaves
    /// all as it was.
    fn sync(&mut self) -> Result<(), DiskFail>
        requires closed { (contents self.old).open_page ≡ None }
        ensures synced { OnOk result (contents self.new ≡ record (contents self.old) { pending = replicate (length (contents self.old).disk) false; faults = (contents self.new).faults }) }
        ensures same { OnErr result (contents self.new ≡ record (contents self.old) { faults = (contents self.new).faults }) }
        ensures made { result ≢ Err DiskFail.Stopped → Advances 1 (run self.old) (run self.new) }
        ensures cut { IsErrOf result DiskFail.Stopped → (contents self.new ≡ contents self.old) × Advances 0 (run self.old) (run self.new) }
        ensures lasts { Lasts (contents self.old) (contents self.new) }
        ensures fault { FaultCause (contents self.old) (contents self.new) (IsErrOf result DiskFail.Fault) }
        ensures falls { Falls None (run self.old) (run self.new) }
        ensures halted { (run self.old).stopped ≡ true → IsErrOf result DiskFail.Stopped }
        ensures ends { StepEnds (run self.old) (run self.new) (IsErrOf result DiskFail.Stopped) };

    /// A wild store now. It is no step.
    fn wild(&mut self, at: WordAt, v: u64) -> Wild
        requires place { at.0 < length (contents self.old).words + length (run self.old).scratch }
        requires running { (run self.old).stopped ≡ false }
        ensures answer { Meets (contents self.old) at.0 result }
        ensures contents { contents self.new ≡ contents self.old }
        ensures run { run self.new ≡ after_wild result at.0 v (run self.old) };

    /// Arms a wild store: it comes after `step` further steps, before the next one. It takes the place of one that is
    /// armed already.
    fn arm(&mut self, step: u64, at: WordAt, v: u64)
        requires { at.0 < length (contents self.old).words + length (run self.old).scratch }
        ensures contents { contents self.new ≡ contents self.old }
        ensures run { run self.new ≡ record (run self.old) { armed = Some at.0; armed_left = step; armed_value = v } };

    ghost protected_words: { (m : Self) → (run m).protected ≡ length (contents m).words };

    ghost limited: { (m : Self) (most : ℕ) → (contents m).faults.limit ≡ Some most → (contents m).faults.count ≤ most };

    ghost small: { (m : Self) → length (contents m).words + length (run m).scratch < 2 ^ 32 };

    ghost whole_pages: { (m : Self) → (length (contents m).words % 512 ≡ 0) × (length (run m).scratch % 512 ≡ 0) };

    ghost open_within: { (m : Self) (p : ℕ) → (contents m).open_page ≡ Some p → 512 * p + 512 ≤ length (contents m).words };

    ghost marks: { (m : Self) → length (contents m).pending ≡ length (contents m).disk };

    ghost whole_blocks: { (m : Self) (b : ℕ) → b < length (contents m).disk → length (block_at (contents m).disk b) ≡ 512 };
}
