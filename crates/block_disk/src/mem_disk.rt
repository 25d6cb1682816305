//! A disk in memory.

ghost use Rattle.std.specs.Prelude.{◌≡◌, ◌<◌, ◌^◌, ◌/◌, ◌||◌, ℕ, [], ◌∷◌, ◌++◌, false, true, IsOk, IfOk, OnOk, OnErr, length, replicate, slice_set};
ghost use Rattle.rio_base.specs.Failures.{FailsIf, HasCause, is_due};
ghost use Rattle.rio_base.specs.Disks.{HasFaultCause, block_at, raised};
ghost use Rattle.block_disk.specs.BlockLists.{AreSettled, AreWhole, rows, torn_words};

use crate::block_lists::{
    BLOCK_WORDS, copy_block, copy_pending, fill_pending, put_block, tear_block, word_blocks,
    zero_blocks,
};
use crate::disk_choice::DiskChoice;
use crate::pending::PendingBlocks;
use rio_base::{Block, DiskBlocks, Failed};
use std::alloc::{AllocError, Global};

/// A disk in memory. Calls fail where it is told to, and it can crash: pending blocks then read as is chosen. A failed
/// write leaves a torn block: the front half of the new words, over the old ones.
#[derive(Drop)]
pub struct MemDisk {
    blocks: Vec<Vec<u64>>,
    synced: Vec<Vec<u64>>,
    pending: PendingBlocks,
    calls: u64,
    faults: u64,
    writes: u64,
    failing: Vec<u64>,
    failing_block: Block,
    failing_reads: u64,
    ghost few: { length (rows blocks.items) < 2 ^ 32 },
    ghost marks: { length pending.marks.items ≡ length (rows blocks.items) },
    ghost synced_count: { length (rows synced.items) ≡ length (rows blocks.items) },
    ghost whole: { AreWhole (rows blocks.items) },
    ghost synced_whole: { AreWhole (rows synced.items) },
    ghost settled: { AreSettled pending.marks.items (rows blocks.items) (rows synced.items) },
}

impl MemDisk {
    ghost use Rattle.block_disk.specs.MemDisks.{state_of, contents_of, new_state, words_state, counted, is_read_due, reads_left, with_block, Crashed};

    /// A disk of `blocks` blocks of zeros. Nothing is pending, and no call is to fail.
    pub fn new(alloc: Global, blocks: u32) -> Result<MemDisk, AllocError>
        ensures { IfOk result (λ d. state_of d ≡ new_state blocks) }
    {
        let count = blocks as usize;
        let pending = PendingBlocks::new(alloc, count)?;
        let synced = zero_blocks(alloc, count)?;
        let blocks = zero_blocks(alloc, count)?;
        Ok(MemDisk {
            blocks,
            synced,
            pending,
            calls: 0,
            faults: 0,
            writes: 0,
            failing: Vec::new(alloc),
            failing_block: Block(0),
            failing_reads: 0,
        })
    }

    /// A disk of these words, 512 in each block. Words of a last part of a block are left out. Nothing is pending, and no
    /// call is to fail. The error means that there was no room for the blocks.
    #[tactic(auto, using(rio_base::proofs::WordBlocks::blocks_many, crate::proofs::WordBlocks::blocks_whole))]
    pub fn from_words(alloc: Global, words: &[u64]) -> Result<MemDisk, AllocError>
        requires few { length words.now / 512 < 2 ^ 32 }
        ensures { IfOk result (λ d. state_of d ≡ words_state words.now) }
    {
        let pending = PendingBlocks::new(alloc, words.len() / BLOCK_WORDS)?;
        let synced = word_blocks(alloc, words)?;
        let blocks = word_blocks(alloc, words)?;
        Ok(MemDisk {
            blocks,
            synced,
            pending,
            calls: 0,
            faults: 0,
            writes: 0,
            failing: Vec::new(alloc),
            failing_block: Block(0),
            failing_reads: 0,
        })
    }

    /// How many blocks were written, up to the largest `u64`.
    pub fn writes(&self) -> u64
        ensures { result ≡ (state_of self.now).writes }
    {
        self.writes
    }

    /// The `n`th call of [`DiskBlocks::read`], [`DiskBlocks::write`] and [`DiskBlocks::sync`] from now fails, `n` from
    /// 1.
    pub fn fail_call(&mut self, n: u64) -> Result<(), AllocError>
        requires { 0 < n }
        ensures ok { OnOk result (state_of self.new ≡ record (state_of self.old) { failing = (state_of self.old).failing ++ raised (state_of self.old).calls n ∷ [] }) }
        ensures err { OnErr result (state_of self.new ≡ state_of self.old) }
    {
        self.failing.push(self.calls.saturating_add(n))?;
        Ok(())
    }

    /// The next `n` reads of a block fail. A further call replaces this one.
    pub fn fail_reads(&mut self, b: Block, n: u64)
        ensures { state_of self.new ≡ record (state_of self.old) { failing_block = b.0; failing_reads = n } }
    {
        self.failing_block = b;
        self.failing_reads = n;
    }

    /// No call is to fail any more, of those that [`MemDisk::fail_call`] and [`MemDisk::fail_reads`] named.
    pub fn drop_fails(&mut self)
        ensures { state_of self.new ≡ record (state_of self.old) { failing = []; failing_reads = 0 } }
    {
        self.failing.clear();
        self.failing_reads = 0;
    }

    /// Goes on as after a crash: each pending block reads as is chosen, and is synced so. Nothing is pending. It is no
    /// call of the disk.
    pub fn after_crash(&mut self, choice: DiskChoice)
        ensures crashed { Crashed choice (state_of self.old) (state_of self.new) }
        ensures read { choice ≡ DiskChoice.AsRead → (state_of self.new).blocks ≡ (state_of self.old).blocks }
        ensures synced { choice ≡ DiskChoice.AsSynced → (state_of self.new).blocks ≡ (state_of self.old).synced }
    {
        match choice {
            DiskChoice::AsRead => {}
            DiskChoice::AsSynced => copy_pending(&self.pending, &self.synced, &mut self.blocks),
            DiskChoice::Filled(byte) => {
                let word = byte as u64 * 0x0101_0101_0101_0101;
                fill_pending(&self.pending, word, &mut self.blocks);
            }
        }
        self.settle();
    }

    /// Makes what reads what is synced.
    fn settle(&mut self)
        ensures { state_of self.new ≡ record (state_of self.old) { synced = (state_of self.old).blocks; pending = replicate (length (state_of self.old).blocks) false } }
    {
        copy_pending(&self.pending, &self.blocks, &mut self.synced);
        self.pending.clear();
    }

    /// Whether the next call is one of those that [`MemDisk::fail_call`] named.
    fn is_due(&self) -> bool
        ensures { result ≡ is_due (state_of self.now).calls (state_of self.now).failing }
    {
        if self.calls == u64::MAX {
            return false;
        }
        self.failing.contains(&(self.calls + 1))
    }

    /// Counts a call, and says whether it is not to fail. `due` is that it is to fail anyway.
    fn begin(&mut self, due: bool) -> Result<(), Failed>
        ensures state { state_of self.new ≡ counted result (state_of self.old) }
        ensures fails { FailsIf (due || is_due (state_of self.old).calls (state_of self.old).failing) result }
        ensures cause { HasCause result (state_of self.old).faults (state_of self.new).faults }
    {
        let due = due || self.is_due();
        self.calls = self.calls.saturating_add(1);
        if due {
            self.faults = self.faults.saturating_add(1);
            return Err(Failed);
        }
        Ok(())
    }

    /// A write that is made: the block has the new words.
    fn put(&mut self, b: Block, from: &[u64])
        requires block { b.0 < length (state_of self.old).blocks }
        requires words { length from.now ≡ 512 }
        ensures { state_of self.new ≡ with_block b.0 from.now (state_of self.old) }
    {
        self.pending.mark(b);
        put_block(&mut self.blocks, b.0 as usize, from);
        self.writes = self.writes.saturating_add(1);
    }

    /// A write that fails: the block is torn.
    fn put_torn(&mut self, b: Block, from: &[u64])
        requires block { b.0 < length (state_of self.old).blocks }
        requires words { length from.now ≡ 512 }
        ensures { state_of self.new ≡ with_block b.0 (torn_words from.now (block_at (state_of self.old).blocks b.0)) (state_of self.old) }
    {
        let at = b.0 as usize;
        self.pending.mark(b);
        tear_block(&mut self.blocks, at, from);
        self.writes = self.writes.saturating_add(1);
    }

    /// Whether this read of a block is one of those that [`MemDisk::fail_reads`] named, and counts it there.
    fn take_failing_read(&mut self, b: Block) -> bool
        ensures due { result ≡ is_read_due (state_of self.old) b.0 }
        ensures left { state_of self.new ≡ record (state_of self.old) { failing_reads = reads_left (state_of self.old) b.0 } }
    {
        if self.failing_block != b || self.failing_reads == 0 {
            return false;
        }
        self.failing_reads -= 1;
        true
    }
}

impl DiskBlocks for MemDisk {
    ghost use Rattle.block_disk.specs.MemDisks.{state_of, contents_of, counted, is_read_due, reads_left, with_block, written_words, FailsNever, within_most};

    ghost contents = { λ d. contents_of (state_of d) };

    fn count(&self) -> u32 {
        self.blocks.len() as u32
    }

    fn read(&mut self, b: Block, into: &mut Vec<u64>) -> Result<(), Failed>
        requires block { b.0 < length (state_of self.old).blocks }
        requires room { length into.old.items ≡ 512 }
        ensures words { OnOk result (into.new.items ≡ block_at (state_of self.old).blocks b.0) }
        ensures kept { OnErr result (into.new.items ≡ into.old.items) }
        ensures state { state_of self.new ≡ record (counted result (state_of self.old)) { failing_reads = reads_left (state_of self.old) b.0 } }
        ensures fails { FailsIf (is_read_due (state_of self.old) b.0 || is_due (state_of self.old).calls (state_of self.old).failing) result }
        ensures certain { FailsNever (state_of self.old) → IsOk result }
        ensures cause { HasFaultCause result (contents_of (state_of self.old)).faults (contents_of (state_of self.new)).faults }
    {
        let due = self.take_failing_read(b);
        self.begin(due)?;
        copy_block(&self.blocks, b.0 as usize, into);
        Ok(())
    }

    fn write(&mut self, b: Block, from: &[u64]) -> Result<(), Failed>
        requires block { b.0 < length (state_of self.old).blocks }
        requires words { length from.now ≡ 512 }
        ensures state { state_of self.new ≡ counted result (with_block b.0 (written_words result from.now (block_at (state_of self.old).blocks b.0)) (state_of self.old)) }
        ensures fails { FailsIf (is_due (state_of self.old).calls (state_of self.old).failing) result }
        ensures certain { FailsNever (state_of self.old) → IsOk result }
        ensures cause { HasFaultCause result (contents_of (state_of self.old)).faults (contents_of (state_of self.new)).faults }
    {
        match self.begin(false) {
            Ok(()) => {
                self.put(b, from);
                Ok(())
            }
            Err(failed) => {
                self.put_torn(b, from);
                Err(failed)
            }
        }
    }

    fn tear(&mut self, b: Block)
        requires block { b.0 < length (state_of self.old).blocks }
        ensures { state_of self.new ≡ record (state_of self.old) { pending = slice_set (state_of self.old).pending b.0 true } }
    {
        let torn = b;
        self.pending.mark(torn);
    }

    fn sync(&mut self) -> Result<(), Failed>
        ensures ok { OnOk result (state_of self.new ≡ record (counted result (state_of self.old)) { synced = (state_of self.old).blocks; pending = replicate (length (state_of self.old).blocks) false }) }
        ensures err { OnErr result (state_of self.new ≡ counted result (state_of self.old)) }
        ensures blocks { (state_of self.new).blocks ≡ (state_of self.old).blocks }
        ensures fails { FailsIf (is_due (state_of self.old).calls (state_of self.old).failing) result }
        ensures certain { FailsNever (state_of self.old) → IsOk result }
        ensures cause { HasFaultCause result (contents_of (state_of self.old)).faults (contents_of (state_of self.new)).faults }
    {
        self.begin(false)?;
        self.settle();
        Ok(())
    }

    ghost marks = { λ d. d.marks };

    ghost whole = { λ d. d.whole };

    ghost limited = { λ d. within_most (state_of d) };

    ghost few = { λ d. d.few };
}
