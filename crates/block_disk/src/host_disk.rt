//! A disk that is a file of a host.

ghost use Rattle.std.specs.Prelude.{◌≡◌, ◌<◌, ◌≤◌, ◌*◌, ◌+◌, ◌/◌, ◌^◌, ℕ, true, false, List, IsOk, IfOk, IfErr, OnOk, length, replicate, slice_index};
ghost use Rattle.std.specs.String.{string_bytes};
ghost use Rattle.rio_base.specs.Failures.{Rose};
ghost use Rattle.rio_base.specs.Hosts.{AsksFor};
ghost use Rattle.rio_base.specs.Disks.{HasFaultCause, block_at, blocks_of, is_pending};
ghost use Rattle.rio_base.specs.Memory.{FrontStored, page_at};
ghost use Rattle.block_disk.specs.HostDisks.{AreFileWords, FailsAs, HasSettled, IsDiskLength, OnHost, around_of, file_contents};

use crate::block_lists::BLOCK_WORDS;
use crate::disk_file::{
    BLOCK_BYTES, count_words, read_words, words_fit, write_block, write_marked,
};
use crate::host_disk_fail::HostDiskFail;
use crate::pending::PendingBlocks;
use rio_base::{Block, DiskBlocks, Failed, Host};
use std::alloc::{AllocError, Global};

/// A disk of 4 to 32,768 blocks that is a file of a host. The file is read whole at first, and each write goes to it as well.
/// A block whose write failed there reads as new all the same: it is written again before the next sync, which fails where
/// that does. The disk's faults are the host's. No read fails, and no call but [`HostDisk::new`] takes memory.
#[derive(Drop)]
pub struct HostDisk<H: Host> {
    host: H,
    name: String,
    words: Vec<u64>,
    pending: PendingBlocks,
    /// The blocks whose last write failed at the host, each of them pending.
    unwritten: PendingBlocks,
    writes: u64,
    /// Room for a block's bytes.
    room: Vec<u8>,
    ghost file: { OnHost (H.files host) (string_bytes name) words.items unwritten.marks.items },
    ghost long: { IsDiskLength (8 * length words.items) },
    ghost marks: { 512 * length pending.marks.items ≡ length words.items },
    ghost unwritten_marks: { length unwritten.marks.items ≡ length pending.marks.items },
    ghost unwritten_pending: { (b : ℕ) → is_pending unwritten.marks.items b ≡ true → is_pending pending.marks.items b ≡ true },
    ghost room_bytes: { length room.items ≡ 4096 },
}

/// What a disk keeps of its file.
#[derive(Drop)]
struct FileParts {
    words: Vec<u64>,
    marks: MarkRooms,
}

/// Room for what is marked, and for a block's bytes.
#[derive(Drop)]
struct MarkRooms {
    pending: PendingBlocks,
    unwritten: PendingBlocks,
    room: Vec<u8>,
}

impl MarkRooms {
    /// The rooms for so many blocks, of which none is marked.
    fn new(alloc: Global, blocks: usize) -> Result<MarkRooms, AllocError>
        ensures pending { IfOk result (λ rooms. rooms.pending.marks.items ≡ replicate blocks false) }
        ensures unwritten { IfOk result (λ rooms. rooms.unwritten.marks.items ≡ replicate blocks false) }
        ensures room { IfOk result (λ rooms. length rooms.room.items ≡ 4096) }
    {
        let pending = PendingBlocks::new(alloc, blocks)?;
        let unwritten = PendingBlocks::new(alloc, blocks)?;
        let room = vec![in alloc; 0u8; BLOCK_BYTES]?;
        Ok(MarkRooms {
            pending,
            unwritten,
            room,
        })
    }
}

/// Reads what a disk keeps of its file.
fn read_parts<H: Host>(
    alloc: Global,
    name: &String,
    host: &mut H,
) -> Result<FileParts, HostDiskFail>
    ensures files { H.files host.new ≡ H.files host.old }
    ensures words { IfOk result (λ parts. AreFileWords (H.files host.old) (string_bytes name.now) parts.words.items) }
    ensures count { IfOk result (λ parts. length parts.words.items ≡ 512 * length parts.marks.pending.marks.items) }
    ensures pending { IfOk result (λ parts. parts.marks.pending.marks.items ≡ replicate (length parts.words.items / 512) false) }
    ensures unwritten { IfOk result (λ parts. parts.marks.unwritten.marks.items ≡ replicate (length parts.words.items / 512) false) }
    ensures room { IfOk result (λ parts. length parts.marks.room.items ≡ 4096) }
    ensures fails { IfErr result (λ fail. FailsAs fail (H.files host.old) (string_bytes name.now) (Rose (H.faults host.old) (H.faults host.new))) }
    ensures asked { AsksFor (string_bytes name.now) (H.asked host.old) (H.asked host.new) }
    ensures later { H.faults host.old ≤ H.faults host.new }
{
    let count = count_words(name, host)?;
    let Ok(marks) = MarkRooms::new(alloc, count / BLOCK_WORDS) else {
        return Err(HostDiskFail::Memory);
    };
    let words = read_words(alloc, name, count, host)?;
    Ok(FileParts { words, marks })
}

/// Puts words over those of a block.
fn put_over(words: &mut [u64], b: usize, from: &[u64])
    requires within { 512 * b + 512 ≤ length words.old }
    requires most { length words.old < 2 ^ 32 }
    requires from { length from.now ≡ 512 }
    ensures words { FrontStored (512 * b) 512 from.now words.old words.new }
{
    let at = BLOCK_WORDS * b;
    words[at..at + BLOCK_WORDS].copy_from_slice(from);
}

/// Puts words over those of a block, in a vector.
fn put_block_words(words: &mut Vec<u64>, b: usize, from: &[u64])
    requires within { 512 * b + 512 ≤ length words.old.items }
    requires most { length words.old.items < 2 ^ 32 }
    requires from { length from.now ≡ 512 }
    ensures words { FrontStored (512 * b) 512 from.now words.old.items words.new.items }
{
    put_over(words, b, from);
}

/// Lends the words of a block.
#[tactic(auto, using(crate::proofs::FileBlocks::own_words))]
fn lend_words(words: &[u64], b: usize) -> &[u64]
    requires within { 512 * b + 512 ≤ length words.now }
    requires most { length words.now < 2 ^ 32 }
    ensures { result.now ≡ page_at words.now b }
{
    let from = BLOCK_WORDS * b;
    &words[from..from + BLOCK_WORDS]
}

impl<H: Host> HostDisk<H> {
    /// The disk that is this file. The file is read by large pieces, so that it costs little more memory than its words. After
    /// an error the host is given back, and its files are as before.
    #[tactic(auto, using(crate::proofs::HostDiskRules::fresh_kept, crate::proofs::HostDiskRules::fresh_marks, crate::proofs::HostDiskRules::same_marks, crate::proofs::HostDiskRules::none_unwritten))]
    pub fn new(alloc: Global, host: H, name: String) -> Result<HostDisk<H>, (H, HostDiskFail)>
        ensures disk { IfOk result (λ d. (words : List ℕ) × AreFileWords (H.files host) (string_bytes name) words × (⟦<HostDisk<H> as DiskBlocks>⟧.contents d ≡ file_contents (H.files host) (H.asked host) (H.faults d.host) (string_bytes name) words (replicate (length (blocks_of words)) false) 0)) }
        ensures later { IfOk result (λ d. H.faults host ≤ H.faults d.host) }
        ensures fails { IfErr result (λ e. FailsAs e.1 (H.files host) (string_bytes name) (Rose (H.faults host) (H.faults e.0))) }
        ensures back { IfErr result (λ e. (H.files e.0 ≡ H.files host) × (H.faults host ≤ H.faults e.0)) }
        ensures asked { IfErr result (λ e. AsksFor (string_bytes name) (H.asked host) (H.asked e.0)) }
    {
        let mut host = host;
        match read_parts(alloc, &name, &mut host) {
            Ok(FileParts { words, marks }) => Ok(HostDisk {
                host,
                name,
                words,
                pending: marks.pending,
                unwritten: marks.unwritten,
                writes: 0,
                room: marks.room,
            }),
            Err(fail) => Err((host, fail)),
        }
    }

    /// The host, given back. Its file has the bytes of each block that isn't pending.
    pub fn into_host(self) -> H
        ensures file { HasSettled (H.files result) (string_bytes self.name) (⟦<HostDisk<H> as DiskBlocks>⟧.contents self) }
        ensures fit { (b w : ℕ) → slice_index (block_at (⟦<HostDisk<H> as DiskBlocks>⟧.contents self).blocks b) w < 2 ^ 64 }
        ensures around { around_of (H.files result) (H.asked result) (string_bytes self.name) ≡ (⟦<HostDisk<H> as DiskBlocks>⟧.contents self).around }
        ensures faults { H.faults result ≡ (⟦<HostDisk<H> as DiskBlocks>⟧.contents self).faults.count }
    {
        words_fit(&self.words);
        let HostDisk {
            host,
            name: _,
            words: _,
            pending: _,
            unwritten: _,
            writes: _,
            room: _,
        } = self;
        host
    }

    /// How many calls of the host failed, up to the largest `u64`.
    pub fn faults(&self) -> u64
        ensures { result ≡ (⟦<HostDisk<H> as DiskBlocks>⟧.contents self.now).faults.count }
    {
        self.host.faults()
    }

    /// Lends the 512 words of a block, as it reads.
    pub fn frame(&self, b: Block) -> &[u64]
        requires { b.0 < length (⟦<HostDisk<H> as DiskBlocks>⟧.contents self.now).blocks }
        ensures { result.now ≡ block_at (⟦<HostDisk<H> as DiskBlocks>⟧.contents self.now).blocks b.0 }
    {
        lend_words(&self.words, b.0 as usize)
    }
}

impl<H: Host> DiskBlocks for HostDisk<H> {
    ghost use Rattle.block_disk.specs.HostDisks.{count_marks, few_blocks, file_contents, limit_none, whole_blocks};
    ghost use Rattle.std.specs.String.{string_bytes};

    ghost contents = { λ d. file_contents (H.files d.host) (H.asked d.host) (H.faults d.host) (string_bytes d.name) d.words.items d.pending.marks.items d.writes };

    fn count(&self) -> u32 {
        (self.words.len() / BLOCK_WORDS) as u32
    }

    fn read(&mut self, b: Block, into: &mut Vec<u64>) -> Result<(), Failed>
        requires block { b.0 < length (⟦<HostDisk<H> as DiskBlocks>⟧.contents self.old).blocks }
        requires room { length into.old.items ≡ 512 }
        ensures words { OnOk result (into.new.items ≡ block_at (⟦<HostDisk<H> as DiskBlocks>⟧.contents self.old).blocks b.0) }
        ensures room { length into.new.items ≡ 512 }
        ensures same { ⟦<HostDisk<H> as DiskBlocks>⟧.contents self.new ≡ record (⟦<HostDisk<H> as DiskBlocks>⟧.contents self.old) { faults = (⟦<HostDisk<H> as DiskBlocks>⟧.contents self.new).faults } }
        ensures cause { HasFaultCause result (⟦<HostDisk<H> as DiskBlocks>⟧.contents self.old).faults (⟦<HostDisk<H> as DiskBlocks>⟧.contents self.new).faults }
        ensures certain { IsOk result }
    {
        into.copy_from_slice(self.frame(b));
        Ok(())
    }

    fn write(&mut self, b: Block, from: &[u64]) -> Result<(), Failed> {
        let at = b.0 as usize;
        self.pending.mark(b);
        self.writes = self.writes.saturating_add(1);
        put_block_words(&mut self.words, at, from);
        match write_block(&self.name, &self.words, at, &mut self.room, &mut self.host) {
            Ok(()) => Ok(()),
            Err(failed) => {
                self.unwritten.mark(b);
                Err(failed)
            }
        }
    }

    fn tear(&mut self, b: Block) {
        let torn = b;
        self.pending.mark(torn);
    }

    fn sync(&mut self) -> Result<(), Failed> {
        write_marked(
            &self.name,
            &self.words,
            &self.unwritten,
            &mut self.room,
            &mut self.host,
        )?;
        self.unwritten.clear();
        self.host.sync(&self.name)?;
        self.pending.clear();
        Ok(())
    }

    ghost marks = { λ d. count_marks d.pending.marks.items d.words.items d.marks };

    ghost whole = { λ d. whole_blocks d.words.items };

    ghost limited = { λ d. limit_none (H.faults d.host) };

    ghost few = { λ d. few_blocks d.words.items d.long };
}
