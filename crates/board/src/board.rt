//! A board: words of memory, a disk, and what may stop them.

ghost use Rattle.std.specs.Prelude.{◌≡◌, ◌≢◌, ◌<◌, ◌≤◌, ◌+◌, ◌*◌, ◌/◌, ◌%◌, ◌^◌, ◌++◌, ℕ, true, false, Some, None, Err, OnOk, OnErr, IsErr, IsErrOf, IsOk, length, slice_index, slice_set, replicate, is_some, take, drop, IfOk, IsTrue, ◌↔◌};
ghost use Rattle.rio_base.specs.Machine.{Advances, Contents, Copied, CopiedScratch, Falls, FaultCause, Lasts, Meets, Running, StepEnds, WritesBlock, after_wild};
ghost use Rattle.rio_base.specs.Disks.{block_at, raised};
ghost use Rattle.rio_base.specs.Memory.{FrontStored, page_at};
ghost use Rattle.board.specs.Boards.{contents_of, protected_count, protected_of, running_of, scratch_of};
ghost use Rattle.board.specs.Guards.{Halted, Halts, HaltsSooner, HaltsWithin, Makes, MakesSteps, StopsAfter, after_store, left_of, page_of};
ghost use Rattle.board.specs.declared.guard.Armed.{Armed};

use crate::guard::{Armed, Guard};
use rio_base::{
    Block, DiskBlocks, DiskFail, Machine, MemWords, PAGE_WORDS, Page, Stopped, Wild, WordAt,
};

/// A machine over words of memory and a disk.
///
/// **Steps.** Each store of a word, block write and sync does this, in order. On a stopped board it answers `Stopped`.
/// Where the steps that were given are used up, the board stops. Where an armed store is due, it falls: on a word of
/// scratch it is made, on the open page it is skipped and counted, and elsewhere it traps, which stops the board. Then
/// the step is counted and made. A page that is copied and a run of words are so many stores in a row. Each step of a copy
/// reads its word once it has begun.
///
/// **Stopped writes.** The disk is told of a write that stopped the board. Its block reads as before, and is pending.
#[derive(Drop)]
pub struct Board<F: MemWords, D: DiskBlocks> {
    mem: F,
    disk: D,
    /// How many pages are scratch. They are the last ones.
    scratch: u32,
    guard: Guard,
    ghost whole: { length (F.words mem) % 512 ≡ 0 },
    ghost room: { 512 * scratch < length (F.words mem) },
    ghost open_within: { (p : ℕ) → page_of guard ≡ Some p → 512 * p + 512 ≤ protected_count (F.words mem) scratch },
    ghost armed_within: { (a : Armed) → guard.armed ≡ Some a → a.at.0 < length (F.words mem) },
}

impl<F: MemWords, D: DiskBlocks> Board<F, D> {
    ghost use Rattle.board.specs.BoardLaws.{guard_of, spared_of};

    /// A board whose last `scratch` pages are not protected, with no page open. With `stop_after` it stops where a step
    /// is asked for beyond that many.
    pub fn new(mem: F, disk: D, scratch: u32, stop_after: Option<u64>) -> Board<F, D>
        requires pages { length (F.words mem) % 512 ≡ 0 }
        requires room { 512 * scratch < length (F.words mem) }
        ensures contents { ⟦<Board<F, D> as Machine>⟧.contents result ≡ record { words = take (protected_count (F.words mem) scratch) (F.words mem); open_page = None; disk = (D.contents disk).blocks; pending = (D.contents disk).pending; faults = (D.contents disk).faults; writes = (D.contents disk).writes; around = (D.contents disk).around } }
        ensures run { ⟦<Board<F, D> as Machine>⟧.run result ≡ record { protected = protected_count (F.words mem) scratch; scratch = drop (protected_count (F.words mem) scratch) (F.words mem); steps = 0; stopped = false; stop_set = is_some stop_after; armed = None; armed_left = 0; armed_value = 0; trapped = None } }
        ensures guard { guard_of result ≡ record { open_page = None; stop_after = stop_after; steps = 0; spared = 0; stopped = false; armed = None; trapped = None } }
    {
        Board {
            mem,
            disk,
            scratch,
            guard: Guard::new(stop_after),
        }
    }

    /// How many steps were made, up to the largest `u64`.
    pub fn steps(&self) -> u64
        ensures { result ≡ (⟦<Board<F, D> as Machine>⟧.run self.now).steps }
    {
        self.guard.steps
    }

    /// How many wild stores fell on the page that was open, and were skipped, up to the largest `u64`.
    pub fn spared(&self) -> u64
        ensures { result ≡ spared_of self.now }
    {
        self.guard.spared
    }

    /// Whether the board is stopped.
    pub fn stopped(&self) -> bool
        ensures { IsTrue result ↔ (⟦<Board<F, D> as Machine>⟧.run self.now).stopped ≡ true }
    {
        self.guard.stopped
    }

    /// The memory and the disk.
    pub fn into_parts(self) -> (F, D)
        ensures words { F.words result.0 ≡ (⟦<Board<F, D> as Machine>⟧.contents self).words ++ (⟦<Board<F, D> as Machine>⟧.run self).scratch }
        ensures disk { D.contents result.1 ≡ record { blocks = (⟦<Board<F, D> as Machine>⟧.contents self).disk; pending = (⟦<Board<F, D> as Machine>⟧.contents self).pending; faults = (⟦<Board<F, D> as Machine>⟧.contents self).faults; writes = (⟦<Board<F, D> as Machine>⟧.contents self).writes; around = (⟦<Board<F, D> as Machine>⟧.contents self).around } }
    {
        let Board {
            mem,
            disk,
            scratch: _,
            guard: _,
        } = self;
        (mem, disk)
    }

    /// How many words are protected.
    fn protected_words(&self) -> u32
        ensures { result ≡ protected_count (F.words self.now.mem) self.now.scratch }
    {
        self.mem.len() - PAGE_WORDS * self.scratch
    }

    /// Begins a step: an armed store that is due falls, and the step is counted.
    #[tactic(auto, using(crate::proofs::Places::protected_same, crate::proofs::Runs::halted_steps, crate::proofs::Runs::scratch_ends, crate::proofs::Runs::scratch_made))]
    fn begin(&mut self) -> Result<(), Stopped>
        ensures disk { self.new.disk ≡ self.old.disk }
        ensures scratch { self.new.scratch ≡ self.old.scratch }
        ensures protected { protected_of (F.words self.new.mem) self.new.scratch ≡ protected_of (F.words self.old.mem) self.old.scratch }
        ensures count { length (F.words self.new.mem) ≡ length (F.words self.old.mem) }
        ensures unmoved { OnErr result (F.words self.new.mem ≡ F.words self.old.mem) }
        ensures open_page { page_of self.new.guard ≡ page_of self.old.guard }
        ensures running { OnOk result (self.old.guard.stopped ≡ false) }
        ensures falls { Falls (page_of self.old.guard) (running_of (F.words self.old.mem) self.old.scratch self.old.guard) (running_of (F.words self.new.mem) self.new.scratch self.new.guard) }
        ensures halts { IsErr result ↔ Halts self.old.guard (protected_count (F.words self.old.mem) self.old.scratch) }
        ensures made { OnOk result (Makes (protected_count (F.words self.old.mem) self.old.scratch) (scratch_of (F.words self.old.mem) self.old.scratch) self.old.guard (scratch_of (F.words self.new.mem) self.new.scratch) self.new.guard) }
        ensures stops { OnErr result (Halted (protected_count (F.words self.old.mem) self.old.scratch) self.old.guard self.new.guard) }
        ensures ends { StepEnds (running_of (F.words self.old.mem) self.old.scratch self.old.guard) (running_of (F.words self.new.mem) self.new.scratch self.new.guard) (IsErr result) }
    {
        let size = self.protected_words();
        if let Some(fallen) = self.guard.begin(size)? {
            self.mem.store(fallen.at, fallen.value);
        }
        Ok(())
    }

    /// Begins up to `most` steps in a row: as many as no stop comes before, and no armed store but before the first. Says
    /// how many were begun.
    #[tactic(auto, using(rio_base::proofs::MachineRules::steps_trans, rio_base::proofs::MachineRules::ends_after, rio_base::proofs::MachineRules::falls_trans))]
    fn begin_run(&mut self, most: u32) -> Result<u32, Stopped>
        requires { 0 < most }
        ensures some { IfOk result (λ n. (0 < n) × (n ≤ most)) }
        ensures disk { self.new.disk ≡ self.old.disk }
        ensures scratch { self.new.scratch ≡ self.old.scratch }
        ensures protected { protected_of (F.words self.new.mem) self.new.scratch ≡ protected_of (F.words self.old.mem) self.old.scratch }
        ensures count { length (F.words self.new.mem) ≡ length (F.words self.old.mem) }
        ensures unmoved { OnErr result (F.words self.new.mem ≡ F.words self.old.mem) }
        ensures open_page { page_of self.new.guard ≡ page_of self.old.guard }
        ensures at_first { IfOk result (λ n. 0 < left_of self.old.guard.armed → n ≤ left_of self.old.guard.armed) }
        ensures running { OnOk result ((self.old.guard.stopped ≡ false) × (self.new.guard.stopped ≡ false)) }
        ensures falls { Falls (page_of self.old.guard) (running_of (F.words self.old.mem) self.old.scratch self.old.guard) (running_of (F.words self.new.mem) self.new.scratch self.new.guard) }
        ensures halts { OnErr result (HaltsWithin self.old.guard most (protected_count (F.words self.old.mem) self.old.scratch)) }
        ensures stops { OnErr result (Halted (protected_count (F.words self.old.mem) self.old.scratch) self.old.guard self.new.guard) }
        ensures sooner { IfOk result (λ n. HaltsSooner n (protected_count (F.words self.old.mem) self.old.scratch) self.old.guard self.new.guard) }
        ensures made { IfOk result (λ n. MakesSteps n (protected_count (F.words self.old.mem) self.old.scratch) (scratch_of (F.words self.old.mem) self.old.scratch) self.old.guard (scratch_of (F.words self.new.mem) self.new.scratch) self.new.guard) }
        ensures ends { StepEnds (running_of (F.words self.old.mem) self.old.scratch self.old.guard) (running_of (F.words self.new.mem) self.new.scratch self.new.guard) (IsErr result) }
    {
        self.begin()?;
        let further = self.guard.pass(most - 1);
        Ok(1 + further)
    }
}

impl<F: MemWords, D: DiskBlocks> Machine for Board<F, D> {
    ghost use Rattle.board.specs.BoardLaws.{count_protected, count_small, guard_of, page_within, pages_protected, pages_scratch};

    ghost contents = { λ b. contents_of (F.words b.mem) b.scratch (D.contents b.disk) b.guard };

    ghost run = { λ b. running_of (F.words b.mem) b.scratch b.guard };

    ghost protected_words = { λ b. count_protected (F.words b.mem) b.scratch };

    ghost limited = { λ b most e. D.limited b.disk most e };

    ghost small = { λ b. count_small (F.words b.mem) b.scratch (F.small b.mem) };

    ghost whole_pages = { λ b. (pages_protected (F.words b.mem) b.scratch b.whole b.room, pages_scratch (F.words b.mem) b.scratch b.whole b.room) };

    ghost open_within = { λ b p e. page_within (F.words b.mem) b.scratch p (b.open_within p e) };

    ghost marks = { λ b. D.marks b.disk };

    ghost whole_blocks = { λ b n h. D.whole b.disk n h };

    fn pages(&self) -> u32 {
        self.mem.len() / PAGE_WORDS
    }

    fn disk_blocks(&self) -> u32 {
        self.disk.count()
    }

    fn load(&self, at: WordAt) -> u64 {
        self.mem.load(at)
    }

    #[tactic(auto, using(crate::proofs::Places::page_protected))]
    fn frame(&self, p: Page) -> &[u64] {
        self.mem.frame(p)
    }

    fn trapped(&self) -> Option<WordAt> {
        self.guard.trapped
    }

    fn open_page(&mut self, p: Page)
        requires closed { (⟦<Board<F, D> as Machine>⟧.contents self.old).open_page ≡ None }
        requires protected { 512 * p.0 < length (⟦<Board<F, D> as Machine>⟧.contents self.old).words }
        ensures contents { ⟦<Board<F, D> as Machine>⟧.contents self.new ≡ record (⟦<Board<F, D> as Machine>⟧.contents self.old) { open_page = Some p.0 } }
        ensures run { ⟦<Board<F, D> as Machine>⟧.run self.new ≡ ⟦<Board<F, D> as Machine>⟧.run self.old }
        ensures guard { guard_of self.new ≡ record (guard_of self.old) { open_page = Some p } }
    {
        self.guard.open_page = Some(p);
    }

    fn close_page(&mut self)
        requires { (⟦<Board<F, D> as Machine>⟧.contents self.old).open_page ≢ None }
        ensures contents { ⟦<Board<F, D> as Machine>⟧.contents self.new ≡ record (⟦<Board<F, D> as Machine>⟧.contents self.old) { open_page = None } }
        ensures run { ⟦<Board<F, D> as Machine>⟧.run self.new ≡ ⟦<Board<F, D> as Machine>⟧.run self.old }
        ensures guard { guard_of self.new ≡ record (guard_of self.old) { open_page = None } }
    {
        self.guard.open_page = None;
    }

    fn store(&mut self, at: WordAt, v: u64) -> Result<(), Stopped>
        requires { (⟦<Board<F, D> as Machine>⟧.contents self.old).open_page ≡ Some (at.0 / 512) }
        ensures stored { OnOk result (⟦<Board<F, D> as Machine>⟧.contents self.new ≡ record (⟦<Board<F, D> as Machine>⟧.contents self.old) { words = slice_set (⟦<Board<F, D> as Machine>⟧.contents self.old).words at.0 v }) }
        ensures same { OnErr result (⟦<Board<F, D> as Machine>⟧.contents self.new ≡ ⟦<Board<F, D> as Machine>⟧.contents self.old) }
        ensures counted { OnOk result (Advances 1 (⟦<Board<F, D> as Machine>⟧.run self.old) (⟦<Board<F, D> as Machine>⟧.run self.new)) }
        ensures uncounted { OnErr result (Advances 0 (⟦<Board<F, D> as Machine>⟧.run self.old) (⟦<Board<F, D> as Machine>⟧.run self.new)) }
        ensures lasts { Lasts (⟦<Board<F, D> as Machine>⟧.contents self.old) (⟦<Board<F, D> as Machine>⟧.contents self.new) }
        ensures falls { Falls (⟦<Board<F, D> as Machine>⟧.contents self.old).open_page (⟦<Board<F, D> as Machine>⟧.run self.old) (⟦<Board<F, D> as Machine>⟧.run self.new) }
        ensures halted { (⟦<Board<F, D> as Machine>⟧.run self.old).stopped ≡ true → IsErr result }
        ensures ends { StepEnds (⟦<Board<F, D> as Machine>⟧.run self.old) (⟦<Board<F, D> as Machine>⟧.run self.new) (IsErr result) }
        ensures stops { IsErr result ↔ Halts (guard_of self.old) (⟦<Board<F, D> as Machine>⟧.run self.old).protected }
        ensures begun { IsOk result → Makes (⟦<Board<F, D> as Machine>⟧.run self.old).protected (⟦<Board<F, D> as Machine>⟧.run self.old).scratch (guard_of self.old) (⟦<Board<F, D> as Machine>⟧.run self.new).scratch (guard_of self.new) }
        ensures not_begun { IsErr result → Halted (⟦<Board<F, D> as Machine>⟧.run self.old).protected (guard_of self.old) (guard_of self.new) }
        ensures unchanged { IsErr result → (⟦<Board<F, D> as Machine>⟧.run self.new).scratch ≡ (⟦<Board<F, D> as Machine>⟧.run self.old).scratch }
    {
        self.begin()?;
        self.mem.store(at, v);
        Ok(())
    }

    fn copy_page(&mut self, from: Page, to: Page) -> Result<(), Stopped>
        requires from { 512 * from.0 < length (⟦<Board<F, D> as Machine>⟧.contents self.old).words + length (⟦<Board<F, D> as Machine>⟧.run self.old).scratch }
        requires to { (⟦<Board<F, D> as Machine>⟧.contents self.old).open_page ≡ Some to.0 }
        requires two { from.0 ≢ to.0 }
        ensures copied { OnOk result (Copied from.0 to.0 512 (⟦<Board<F, D> as Machine>⟧.contents self.old).words (⟦<Board<F, D> as Machine>⟧.contents self.new).words) }
        ensures scratch { OnOk result (CopiedScratch from.0 to.0 512 (⟦<Board<F, D> as Machine>⟧.run self.old) (⟦<Board<F, D> as Machine>⟧.contents self.new).words) }
        ensures counted { OnOk result (Advances 512 (⟦<Board<F, D> as Machine>⟧.run self.old) (⟦<Board<F, D> as Machine>⟧.run self.new)) }
        ensures front { OnErr result ((n : ℕ) × (n < 512) × Copied from.0 to.0 n (⟦<Board<F, D> as Machine>⟧.contents self.old).words (⟦<Board<F, D> as Machine>⟧.contents self.new).words × CopiedScratch from.0 to.0 n (⟦<Board<F, D> as Machine>⟧.run self.old) (⟦<Board<F, D> as Machine>⟧.contents self.new).words × Advances n (⟦<Board<F, D> as Machine>⟧.run self.old) (⟦<Board<F, D> as Machine>⟧.run self.new)) }
        ensures rest { ⟦<Board<F, D> as Machine>⟧.contents self.new ≡ record (⟦<Board<F, D> as Machine>⟧.contents self.old) { words = (⟦<Board<F, D> as Machine>⟧.contents self.new).words } }
        ensures frozen { (⟦<Board<F, D> as Machine>⟧.run self.old).stopped ≡ true → ⟦<Board<F, D> as Machine>⟧.contents self.new ≡ ⟦<Board<F, D> as Machine>⟧.contents self.old }
        ensures lasts { Lasts (⟦<Board<F, D> as Machine>⟧.contents self.old) (⟦<Board<F, D> as Machine>⟧.contents self.new) }
        ensures falls { Falls (⟦<Board<F, D> as Machine>⟧.contents self.old).open_page (⟦<Board<F, D> as Machine>⟧.run self.old) (⟦<Board<F, D> as Machine>⟧.run self.new) }
        ensures halted { (⟦<Board<F, D> as Machine>⟧.run self.old).stopped ≡ true → IsErr result }
        ensures ends { StepEnds (⟦<Board<F, D> as Machine>⟧.run self.old) (⟦<Board<F, D> as Machine>⟧.run self.new) (IsErr result) }
        ensures stops { IsErr result ↔ HaltsWithin (guard_of self.old) 512 (⟦<Board<F, D> as Machine>⟧.run self.old).protected }
        ensures begun { IsOk result → MakesSteps 512 (⟦<Board<F, D> as Machine>⟧.run self.old).protected (⟦<Board<F, D> as Machine>⟧.run self.old).scratch (guard_of self.old) (⟦<Board<F, D> as Machine>⟧.run self.new).scratch (guard_of self.new) }
        ensures cut { OnErr result ((n : ℕ) × (n < 512) × Copied from.0 to.0 n (⟦<Board<F, D> as Machine>⟧.contents self.old).words (⟦<Board<F, D> as Machine>⟧.contents self.new).words × CopiedScratch from.0 to.0 n (⟦<Board<F, D> as Machine>⟧.run self.old) (⟦<Board<F, D> as Machine>⟧.contents self.new).words × StopsAfter n (⟦<Board<F, D> as Machine>⟧.run self.old).protected (⟦<Board<F, D> as Machine>⟧.run self.old).scratch (guard_of self.old) (⟦<Board<F, D> as Machine>⟧.run self.new).scratch (guard_of self.new)) }
    {
        let mut done = 0;
        while done < PAGE_WORDS {
            let n = self.begin_run(PAGE_WORDS - done)?;
            let at = WordAt(PAGE_WORDS * from.0 + done);
            self.mem.copy_words(at, WordAt(PAGE_WORDS * to.0 + done), n);
            done += n;
        }
        Ok(())
    }

    fn store_run(&mut self, at: WordAt, from: &[u64]) -> Result<(), Stopped>
        requires page { (⟦<Board<F, D> as Machine>⟧.contents self.old).open_page ≡ Some (at.0 / 512) }
        requires within { at.0 % 512 + length from.now ≤ 512 }
        ensures stored { OnOk result (FrontStored at.0 (length from.now) from.now (⟦<Board<F, D> as Machine>⟧.contents self.old).words (⟦<Board<F, D> as Machine>⟧.contents self.new).words) }
        ensures counted { OnOk result (Advances (length from.now) (⟦<Board<F, D> as Machine>⟧.run self.old) (⟦<Board<F, D> as Machine>⟧.run self.new)) }
        ensures front { OnErr result ((n : ℕ) × (n < length from.now) × FrontStored at.0 n from.now (⟦<Board<F, D> as Machine>⟧.contents self.old).words (⟦<Board<F, D> as Machine>⟧.contents self.new).words × Advances n (⟦<Board<F, D> as Machine>⟧.run self.old) (⟦<Board<F, D> as Machine>⟧.run self.new)) }
        ensures rest { ⟦<Board<F, D> as Machine>⟧.contents self.new ≡ record (⟦<Board<F, D> as Machine>⟧.contents self.old) { words = (⟦<Board<F, D> as Machine>⟧.contents self.new).words } }
        ensures frozen { (⟦<Board<F, D> as Machine>⟧.run self.old).stopped ≡ true → ⟦<Board<F, D> as Machine>⟧.contents self.new ≡ ⟦<Board<F, D> as Machine>⟧.contents self.old }
        ensures lasts { Lasts (⟦<Board<F, D> as Machine>⟧.contents self.old) (⟦<Board<F, D> as Machine>⟧.contents self.new) }
        ensures falls { Falls (⟦<Board<F, D> as Machine>⟧.contents self.old).open_page (⟦<Board<F, D> as Machine>⟧.run self.old) (⟦<Board<F, D> as Machine>⟧.run self.new) }
        ensures halted { (⟦<Board<F, D> as Machine>⟧.run self.old).stopped ≡ true → 0 < length from.now → IsErr result }
        ensures ends { StepEnds (⟦<Board<F, D> as Machine>⟧.run self.old) (⟦<Board<F, D> as Machine>⟧.run self.new) (IsErr result) }
        ensures stops { IsErr result ↔ HaltsWithin (guard_of self.old) (length from.now) (⟦<Board<F, D> as Machine>⟧.run self.old).protected }
        ensures begun { IsOk result → MakesSteps (length from.now) (⟦<Board<F, D> as Machine>⟧.run self.old).protected (⟦<Board<F, D> as Machine>⟧.run self.old).scratch (guard_of self.old) (⟦<Board<F, D> as Machine>⟧.run self.new).scratch (guard_of self.new) }
        ensures cut { OnErr result ((n : ℕ) × (n < length from.now) × FrontStored at.0 n from.now (⟦<Board<F, D> as Machine>⟧.contents self.old).words (⟦<Board<F, D> as Machine>⟧.contents self.new).words × StopsAfter n (⟦<Board<F, D> as Machine>⟧.run self.old).protected (⟦<Board<F, D> as Machine>⟧.run self.old).scratch (guard_of self.old) (⟦<Board<F, D> as Machine>⟧.run self.new).scratch (guard_of self.new)) }
    {
        let mut done = 0;
        while done < from.len() {
            let n = self.begin_run((from.len() - done) as u32)?;
            let next = done + n as usize;
            self.mem
                .store_run(WordAt(at.0 + done as u32), &from[done..next]);
            done = next;
        }
        Ok(())
    }

    fn read_block(&mut self, b: Block, into: &mut Vec<u64>) -> Result<(), DiskFail>
        requires closed { (⟦<Board<F, D> as Machine>⟧.contents self.old).open_page ≡ None }
        requires block { b.0 < length (⟦<Board<F, D> as Machine>⟧.contents self.old).disk }
        requires room { length into.old.items ≡ 512 }
        ensures words { OnOk result (into.new.items ≡ block_at (⟦<Board<F, D> as Machine>⟧.contents self.old).disk b.0) }
        ensures room { length into.new.items ≡ 512 }
        ensures same { ⟦<Board<F, D> as Machine>⟧.contents self.new ≡ record (⟦<Board<F, D> as Machine>⟧.contents self.old) { faults = (⟦<Board<F, D> as Machine>⟧.contents self.new).faults } }
        ensures run { ⟦<Board<F, D> as Machine>⟧.run self.new ≡ ⟦<Board<F, D> as Machine>⟧.run self.old }
        ensures lasts { Lasts (⟦<Board<F, D> as Machine>⟧.contents self.old) (⟦<Board<F, D> as Machine>⟧.contents self.new) }
        ensures fault { FaultCause (⟦<Board<F, D> as Machine>⟧.contents self.old) (⟦<Board<F, D> as Machine>⟧.contents self.new) (IsErrOf result DiskFail.Fault) }
        ensures stopped { IsErrOf result DiskFail.Stopped → ((⟦<Board<F, D> as Machine>⟧.run self.old).stopped ≡ true) × (⟦<Board<F, D> as Machine>⟧.contents self.new ≡ ⟦<Board<F, D> as Machine>⟧.contents self.old) }
        ensures halted { (⟦<Board<F, D> as Machine>⟧.run self.old).stopped ≡ true → IsErrOf result DiskFail.Stopped }
        ensures guard { guard_of self.new ≡ guard_of self.old }
    {
        if self.guard.stopped {
            return Err(DiskFail::Stopped);
        }
        match self.disk.read(b, into) {
            Ok(()) => Ok(()),
            Err(_) => Err(DiskFail::Fault),
        }
    }

    fn write_block(&mut self, b: Block, from: Page) -> Result<(), DiskFail>
        requires closed { (⟦<Board<F, D> as Machine>⟧.contents self.old).open_page ≡ None }
        requires block { b.0 < length (⟦<Board<F, D> as Machine>⟧.contents self.old).disk }
        requires from { 512 * from.0 < length (⟦<Board<F, D> as Machine>⟧.contents self.old).words + length (⟦<Board<F, D> as Machine>⟧.run self.old).scratch }
        ensures written { OnOk result (block_at (⟦<Board<F, D> as Machine>⟧.contents self.new).disk b.0 ≡ page_at ((⟦<Board<F, D> as Machine>⟧.contents self.new).words ++ (⟦<Board<F, D> as Machine>⟧.run self.new).scratch) from.0) }
        ensures protected { OnOk result (512 * from.0 < length (⟦<Board<F, D> as Machine>⟧.contents self.old).words → block_at (⟦<Board<F, D> as Machine>⟧.contents self.new).disk b.0 ≡ page_at (⟦<Board<F, D> as Machine>⟧.contents self.old).words from.0) }
        ensures writes_block { WritesBlock b.0 (⟦<Board<F, D> as Machine>⟧.contents self.old) (⟦<Board<F, D> as Machine>⟧.contents self.new) }
        ensures pending { (⟦<Board<F, D> as Machine>⟧.run self.old).stopped ≡ false → (⟦<Board<F, D> as Machine>⟧.contents self.new).pending ≡ slice_set (⟦<Board<F, D> as Machine>⟧.contents self.old).pending b.0 true }
        ensures made { result ≢ Err DiskFail.Stopped → ((⟦<Board<F, D> as Machine>⟧.contents self.new).writes ≡ raised (⟦<Board<F, D> as Machine>⟧.contents self.old).writes 1) × Advances 1 (⟦<Board<F, D> as Machine>⟧.run self.old) (⟦<Board<F, D> as Machine>⟧.run self.new) }
        ensures cut { IsErrOf result DiskFail.Stopped → (⟦<Board<F, D> as Machine>⟧.contents self.new ≡ record (⟦<Board<F, D> as Machine>⟧.contents self.old) { pending = (⟦<Board<F, D> as Machine>⟧.contents self.new).pending }) × Advances 0 (⟦<Board<F, D> as Machine>⟧.run self.old) (⟦<Board<F, D> as Machine>⟧.run self.new) }
        ensures frozen { (⟦<Board<F, D> as Machine>⟧.run self.old).stopped ≡ true → ⟦<Board<F, D> as Machine>⟧.contents self.new ≡ ⟦<Board<F, D> as Machine>⟧.contents self.old }
        ensures lasts { Lasts (⟦<Board<F, D> as Machine>⟧.contents self.old) (⟦<Board<F, D> as Machine>⟧.contents self.new) }
        ensures fault { FaultCause (⟦<Board<F, D> as Machine>⟧.contents self.old) (⟦<Board<F, D> as Machine>⟧.contents self.new) (IsErrOf result DiskFail.Fault) }
        ensures falls { Falls None (⟦<Board<F, D> as Machine>⟧.run self.old) (⟦<Board<F, D> as Machine>⟧.run self.new) }
        ensures halted { (⟦<Board<F, D> as Machine>⟧.run self.old).stopped ≡ true → IsErrOf result DiskFail.Stopped }
        ensures ends { StepEnds (⟦<Board<F, D> as Machine>⟧.run self.old) (⟦<Board<F, D> as Machine>⟧.run self.new) (IsErrOf result DiskFail.Stopped) }
        ensures stops { IsErrOf result DiskFail.Stopped ↔ Halts (guard_of self.old) (⟦<Board<F, D> as Machine>⟧.run self.old).protected }
        ensures begun { (IsErrOf result DiskFail.Stopped → ⊥) → Makes (⟦<Board<F, D> as Machine>⟧.run self.old).protected (⟦<Board<F, D> as Machine>⟧.run self.old).scratch (guard_of self.old) (⟦<Board<F, D> as Machine>⟧.run self.new).scratch (guard_of self.new) }
        ensures not_begun { IsErrOf result DiskFail.Stopped → Halted (⟦<Board<F, D> as Machine>⟧.run self.old).protected (guard_of self.old) (guard_of self.new) }
        ensures unchanged { IsErrOf result DiskFail.Stopped → (⟦<Board<F, D> as Machine>⟧.run self.new).scratch ≡ (⟦<Board<F, D> as Machine>⟧.run self.old).scratch }
    {
        let running = !self.guard.stopped;
        if self.begin().is_err() {
            if running {
                self.disk.tear(b);
            }
            return Err(DiskFail::Stopped);
        }
        match self.disk.write(b, self.mem.frame(from)) {
            Ok(()) => Ok(()),
            Err(_) => Err(DiskFail::Fault),
        }
    }

    fn sync(&mut self) -> Result<(), DiskFail>
        requires closed { (⟦<Board<F, D> as Machine>⟧.contents self.old).open_page ≡ None }
        ensures synced { OnOk result (⟦<Board<F, D> as Machine>⟧.contents self.new ≡ record (⟦<Board<F, D> as Machine>⟧.contents self.old) { pending = replicate (length (⟦<Board<F, D> as Machine>⟧.contents self.old).disk) false; faults = (⟦<Board<F, D> as Machine>⟧.contents self.new).faults }) }
        ensures same { OnErr result (⟦<Board<F, D> as Machine>⟧.contents self.new ≡ record (⟦<Board<F, D> as Machine>⟧.contents self.old) { faults = (⟦<Board<F, D> as Machine>⟧.contents self.new).faults }) }
        ensures made { result ≢ Err DiskFail.Stopped → Advances 1 (⟦<Board<F, D> as Machine>⟧.run self.old) (⟦<Board<F, D> as Machine>⟧.run self.new) }
        ensures cut { IsErrOf result DiskFail.Stopped → (⟦<Board<F, D> as Machine>⟧.contents self.new ≡ ⟦<Board<F, D> as Machine>⟧.contents self.old) × Advances 0 (⟦<Board<F, D> as Machine>⟧.run self.old) (⟦<Board<F, D> as Machine>⟧.run self.new) }
        ensures lasts { Lasts (⟦<Board<F, D> as Machine>⟧.contents self.old) (⟦<Board<F, D> as Machine>⟧.contents self.new) }
        ensures fault { FaultCause (⟦<Board<F, D> as Machine>⟧.contents self.old) (⟦<Board<F, D> as Machine>⟧.contents self.new) (IsErrOf result DiskFail.Fault) }
        ensures falls { Falls None (⟦<Board<F, D> as Machine>⟧.run self.old) (⟦<Board<F, D> as Machine>⟧.run self.new) }
        ensures halted { (⟦<Board<F, D> as Machine>⟧.run self.old).stopped ≡ true → IsErrOf result DiskFail.Stopped }
        ensures ends { StepEnds (⟦<Board<F, D> as Machine>⟧.run self.old) (⟦<Board<F, D> as Machine>⟧.run self.new) (IsErrOf result DiskFail.Stopped) }
        ensures stops { IsErrOf result DiskFail.Stopped ↔ Halts (guard_of self.old) (⟦<Board<F, D> as Machine>⟧.run self.old).protected }
        ensures begun { (IsErrOf result DiskFail.Stopped → ⊥) → Makes (⟦<Board<F, D> as Machine>⟧.run self.old).protected (⟦<Board<F, D> as Machine>⟧.run self.old).scratch (guard_of self.old) (⟦<Board<F, D> as Machine>⟧.run self.new).scratch (guard_of self.new) }
        ensures not_begun { IsErrOf result DiskFail.Stopped → Halted (⟦<Board<F, D> as Machine>⟧.run self.old).protected (guard_of self.old) (guard_of self.new) }
        ensures unchanged { IsErrOf result DiskFail.Stopped → (⟦<Board<F, D> as Machine>⟧.run self.new).scratch ≡ (⟦<Board<F, D> as Machine>⟧.run self.old).scratch }
    {
        if self.begin().is_err() {
            return Err(DiskFail::Stopped);
        }
        match self.disk.sync() {
            Ok(()) => Ok(()),
            Err(_) => Err(DiskFail::Fault),
        }
    }

    #[tactic(auto, using(crate::proofs::Places::wild_changed))]
    fn wild(&mut self, at: WordAt, v: u64) -> Wild
        requires place { at.0 < length (⟦<Board<F, D> as Machine>⟧.contents self.old).words + length (⟦<Board<F, D> as Machine>⟧.run self.old).scratch }
        requires running { (⟦<Board<F, D> as Machine>⟧.run self.old).stopped ≡ false }
        ensures answer { Meets (⟦<Board<F, D> as Machine>⟧.contents self.old) at.0 result }
        ensures contents { ⟦<Board<F, D> as Machine>⟧.contents self.new ≡ ⟦<Board<F, D> as Machine>⟧.contents self.old }
        ensures run { ⟦<Board<F, D> as Machine>⟧.run self.new ≡ after_wild result at.0 v (⟦<Board<F, D> as Machine>⟧.run self.old) }
        ensures guard { guard_of self.new ≡ after_store result at (guard_of self.old) }
    {
        let size = self.protected_words();
        let fallen = self.guard.wild(size, at);
        if let Wild::Changed = fallen {
            self.mem.store(at, v);
        }
        fallen
    }

    fn arm(&mut self, step: u64, at: WordAt, v: u64)
        requires { at.0 < length (⟦<Board<F, D> as Machine>⟧.contents self.old).words + length (⟦<Board<F, D> as Machine>⟧.run self.old).scratch }
        ensures contents { ⟦<Board<F, D> as Machine>⟧.contents self.new ≡ ⟦<Board<F, D> as Machine>⟧.contents self.old }
        ensures run { ⟦<Board<F, D> as Machine>⟧.run self.new ≡ record (⟦<Board<F, D> as Machine>⟧.run self.old) { armed = Some at.0; armed_left = step; armed_value = v } }
        ensures guard { guard_of self.new ≡ record (guard_of self.old) { armed = Some (record { left = step; at = at; value = v }) } }
    {
        self.guard.armed = Some(Armed {
            left: step,
            at,
            value: v,
        });
    }
}
