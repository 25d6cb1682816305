//! Machines with dirty pages, for the tests of what writes back: 64 frames, one page of scratch, and a disk of 8 blocks.
//! The first entries are dirty: entry k is of block k, and the first word of its page is 10 + k. The disk's blocks are 0.

ghost use Rattle.std.specs.Prelude.{◌≡◌, ◌<◌, ◌≤◌, ◌+◌, ◌*◌, ℕ, true, false, None, IsTrue, length};
ghost use Rattle.rio_model.specs.Registry.{HasLayout, frames_of, tag_at};
ghost use Rattle.machine_tests.specs.TestMachines.{IsTestHeader, NoneOrDirty, Ready};

use crate::machines::{MemBoard, Mishap, board_on, disk_of};
use block_disk::{DiskChoice, MemDisk};
use board::Board;
use phys_memory::ListMem;
use registry::{Tag, check_image, load_tag};
use rio_base::{Block, DiskBlocks, IMAGE_MAGIC, Machine, MemWords, WordAt};
use std::alloc::Global;
use std::process::Abort;
use test_objects::zeros;

/// The words of a machine with 83 pages.
pub(crate) const WORDS: usize = 42_496;

/// The words of an image whose first `dirty` entries are dirty.
fn image_with(rt: &impl Abort, alloc: Global, count: usize, dirty: usize) -> Vec<u64>
    requires dirty { dirty ≤ 8 }
    requires room { 16384 ≤ count }
    ensures { length result.items ≡ count }
{
    let Ok(mut words) = zeros(alloc, count) else {
        panic!(rt; "no image");
    };
    words[0] = IMAGE_MAGIC;
    words[1] = 1;
    words[2] = 64;
    words[3] = 1;
    for k in 0..dirty {
        words[512 + 5 * k] = Tag::of(Block(k as u32), true, false).0;
        words[515 + 5 * k] = 4096;
        words[512 * (18 + k)] = 10 + k as u64;
    }
    words
}

/// Whether the tag is none, or dirty and of one of the 8 blocks.
fn is_dirty_tag(tag: Tag) -> bool
    ensures { IsTrue result → NoneOrDirty tag.0 }
{
    if !tag.is_valid() {
        return true;
    }
    if !tag.is_dirty() {
        return false;
    }
    tag.block().0 < 8
}

/// Whether each valid entry is dirty, and of one of the 8 blocks.
fn are_dirty<M: Machine>(m: &M) -> bool
    requires layout { HasLayout (M.contents m.now).words (M.run m.now).scratch }
    requires frames { frames_of (M.contents m.now).words ≡ 64 }
    ensures { IsTrue result → (k : ℕ) → k < 64 → NoneOrDirty (tag_at (M.contents m.now).words k) }
{
    for k in 0..64 {
        if !is_dirty_tag(load_tag(m, k)) {
            return false;
        }
    }
    true
}

/// Whether the header says 64 frames and one page of scratch, and the gate is 0.
fn has_header<M: Machine>(m: &M) -> bool
    requires words { length (M.contents m.now).words ≡ 41984 }
    ensures { IsTrue result → IsTestHeader (M.contents m.now).words }
{
    if m.load(WordAt(0)) != IMAGE_MAGIC {
        return false;
    }
    if m.load(WordAt(1)) != 1 {
        return false;
    }
    if m.load(WordAt(2)) != 64 {
        return false;
    }
    m.load(WordAt(3)) == 1 && m.load(WordAt(4)) == 0
}

/// Whether pages can be written back.
#[tactic(auto, using(crate::proofs::DirtyPages::layout_of_header, crate::proofs::DirtyPages::ready))]
fn is_ready<M: Machine>(m: &M) -> bool
    requires words { length (M.contents m.now).words ≡ 41984 }
    requires scratch { length (M.run m.now).scratch ≡ 512 }
    requires closed { (M.contents m.now).open_page ≡ None }
    requires blocks { length (M.contents m.now).disk ≡ 8 }
    ensures { IsTrue result → Ready (M.contents m.now) (M.run m.now) }
{
    if !has_header(m) {
        return false;
    }
    if check_image(m).is_err() {
        return false;
    }
    are_dirty(m)
}

/// A machine over such an image, which this befalls.
pub(crate) fn machine_with(rt: &impl Abort, alloc: Global, dirty: usize, mishap: Mishap) -> MemBoard
    requires dirty { dirty ≤ 8 }
    ensures { Ready (⟦<Board<ListMem, MemDisk> as Machine>⟧.contents result) (⟦<Board<ListMem, MemDisk> as Machine>⟧.run result) }
{
    let words = image_with(rt, alloc, WORDS, dirty);
    let disk = disk_of(rt, alloc, 8, mishap);
    let m = board_on(ListMem::from_words(words), disk, mishap.stop_after());
    if !is_ready(&m) {
        panic!(rt; "not ready");
    }
    m
}

/// What is found after a run, of the first 8 entries and blocks, where bit k says it of entry k or block k: the entry is dirty;
/// it is clean; the device has the word 10 + k; and the block reads as that word, where its entry's page does, or else the
/// device's block.
pub(crate) type Found = [u8; 4];

/// The first bit of each of the four, in one word.
const DIRTY: u32 = 1;

const CLEAN: u32 = 1 << 8;

const ON_DISK: u32 = 1 << 16;

const READS: u32 = 1 << 24;

/// The word at a place, or 0 past the last.
pub(crate) fn word_in(mem: &ListMem, at: u32) -> u64 {
    if at < mem.len() {
        mem.load(WordAt(at))
    } else {
        0
    }
}

/// The first word of a block, or 0 past the last and where the disk fails.
fn first_of(disk: &mut MemDisk, b: u32, into: &mut Vec<u64>) -> u64
    requires { length into.old.items ≡ 512 }
    ensures { length into.new.items ≡ 512 }
{
    into[0] = 0;
    if b < disk.count() {
        let _read = disk.read(Block(b), into);
    }
    into[0]
}

/// What is found of an entry with this tag, whose page and whose block on the device have the word, or have not.
fn of_entry(tag: Tag, page: bool, home: bool) -> u32 {
    if !tag.is_valid() {
        return if home { ON_DISK | READS } else { 0 };
    }
    let state = if tag.is_dirty() { DIRTY } else { CLEAN };
    let on_disk = if home { ON_DISK } else { 0 };
    if page && (tag.is_dirty() || home) {
        return state | on_disk | READS;
    }
    state | on_disk
}

/// What is found of entry and block k.
fn look_at(mem: &ListMem, disk: &mut MemDisk, into: &mut Vec<u64>, k: u32) -> u32
    requires few { k < 8 }
    requires room { length into.old.items ≡ 512 }
    ensures { length into.new.items ≡ 512 }
{
    let tag = Tag(word_in(mem, 512 + 5 * k));
    let word = 10 + u64::from(k);
    let page = word_in(mem, 512 * (18 + k)) == word;
    of_entry(tag, page, first_of(disk, k, into) == word)
}

/// Takes a machine apart after a crash that lost each pending block, and looks at its first 8 entries and blocks.
pub(crate) fn found_in(rt: &impl Abort, alloc: Global, m: MemBoard) -> Found {
    let Ok(mut into) = zeros(alloc, 512) else {
        panic!(rt; "no room");
    };
    let (mem, mut disk) = m.into_parts();
    disk.after_crash(DiskChoice::AsSynced);
    let mut found = 0;
    for k in 0..8 {
        found |= look_at(&mem, &mut disk, &mut into, k) << k;
    }
    found.to_le_bytes()
}
