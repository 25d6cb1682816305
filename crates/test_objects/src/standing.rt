//! What the words of a memory and the blocks of its disk read as and stand for, read entry by entry as it is defined,
//! slowly.

ghost use Rattle.std.specs.Prelude.{◌≡◌, ◌<◌, ◌≤◌, ◌+◌, ◌*◌, ◌==◌, ◌&&◌, None, IfOk, IfSome, OnOk, IsErrOf, length, slice_index};
ghost use Rattle.block_disk.specs.MemDisks.{state_of};
ghost use Rattle.rio_base.specs.Disks.{block_at};
ghost use Rattle.rio_base.specs.Image.{entry_at, registry_pages};
ghost use Rattle.rio_base.specs.Memory.{FrontStored, page_at};
ghost use Rattle.rio_model.specs.Cover.{cover_by, entry_of_block, frame_page, holds};
ghost use Rattle.rio_model.specs.Registry.{frames_of, is_valid, page_of_entry, shadow_at, tag_block};
ghost use Rattle.test_objects.specs.Covers.{AreBlocks, InLimits, PutsBlock, blocks_by, page_by};

use crate::block_lists::{ALL_WORDS, BLOCKS, put_block, zeros};
use block_disk::MemDisk;
use rio_base::{BLOCK_WORDS, Block, DiskBlocks, Failed};
use std::alloc::{AllocError, Global};
use thiserror::Error;

/// Why memory and disk are not read.
#[derive(Clone, Copy, Debug, PartialEq, Eq, Error)]
pub enum Unread {
    /// Memory is not within its limits.
    #[error("the memory has no such page")]
    Beyond,
    /// The disk refused a call.
    #[error("the disk failed")]
    Disk,
    /// No memory was left for the answer.
    #[error("out of memory")]
    Memory,
}

impl From<Failed> for Unread {
    ghost use Rattle.test_objects.specs.declared.standing.Unread.TheVariants.{Disk};

    ghost from_gives = { λ _ made. made ≡ Disk };

    fn from(_fail: Failed) -> Unread {
        Unread::Disk
    }
}

impl From<AllocError> for Unread {
    ghost use Rattle.test_objects.specs.declared.standing.Unread.TheVariants.{Memory};

    ghost from_gives = { λ _ made. made ≡ Memory };

    fn from(_fail: AllocError) -> Unread {
        Unread::Memory
    }
}

/// The words of the header that say how many frames there are, and whether shadow pages count.
const FRAMES: usize = 2;

const GATE: usize = 4;

/// Entries in a page of the registry, and words in an entry.
const PAGE_ENTRIES: usize = 102;

const ENTRY_WORDS: usize = 5;

/// How many shadow pages and frames a memory has, the frames at most.
const SHADOW_PAGES: u64 = 16;

const MOST_FRAMES: u64 = 8_192;

/// A word of memory, and 0 behind its end.
fn word(words: &[u64], at: usize) -> u64
    ensures { result ≡ slice_index words.now at }
{
    if words.len() <= at {
        return 0;
    }
    words[at]
}

/// How many frames there are, where they are no more than a memory can have.
fn frames_in(words: &[u64]) -> Option<u32>
    ensures frames { IfSome result (λ frames. frames ≡ frames_of words.now) }
    ensures most { IfSome result (λ frames. frames ≤ 8192) }
    ensures beyond { result ≡ None → 8192 < frames_of words.now }
{
    let frames = word(words, FRAMES);
    if frames > MOST_FRAMES {
        return None;
    }
    Some(frames as u32)
}

/// The place of the first word of entry k.
#[tactic(auto, using(crate::proofs::Reading::entry_place))]
fn entry_at(k: u32) -> usize
    requires { k < 8192 }
    ensures place { result ≡ entry_at k }
    ensures small { result < 65536 }
{
    BLOCK_WORDS * (1 + k as usize / PAGE_ENTRIES) + ENTRY_WORDS * (k as usize % PAGE_ENTRIES)
}

/// Whether an entry with this tag is valid, and of this block.
fn is_of(tag: u64, b: Block) -> bool
    ensures { result ≡ (is_valid tag && (tag_block tag == b.0)) }
{
    if tag % 2 != 1 {
        return false;
    }
    tag / 0x1_0000_0000 == b.0 as u64
}

/// Whether entry k is valid, and of this block.
fn holds(words: &[u64], b: Block, k: u32) -> bool
    requires { k < 8192 }
    ensures { result ≡ holds words.now b.0 k }
{
    is_of(word(words, entry_at(k)), b)
}

/// The valid entry of a block, of so many entries.
#[tactic(auto, using(crate::proofs::Reading::last_first, crate::proofs::Reading::last_more, crate::proofs::Reading::entry_is_last))]
fn entry_of(words: &[u64], frames: u32, b: Block) -> Option<u32>
    requires frames { frames ≡ frames_of words.now }
    requires most { frames ≤ 8192 }
    ensures { result ≡ entry_of_block words.now b.0 }
{
    let mut found = None;
    for k in 0..frames {
        if holds(words, b, k) {
            found = Some(k);
        }
    }
    found
}

/// How many pages the registry has.
#[tactic(auto, using(crate::proofs::Reading::registry_size))]
fn registry_pages(words: &[u64]) -> usize
    requires { frames_of words.now ≤ 8192 }
    ensures pages { result ≡ registry_pages (frames_of words.now) }
    ensures small { result < 128 }
{
    (word(words, FRAMES) as usize).div_ceil(PAGE_ENTRIES)
}

/// The frame of entry k, as a page.
#[tactic(auto, using(crate::proofs::Reading::frame_place))]
fn frame_page(words: &[u64], k: u32) -> usize
    requires frames { frames_of words.now ≤ 8192 }
    requires entry { k < 8192 }
    ensures page { result ≡ frame_page words.now k }
    ensures small { result < 16384 }
{
    registry_pages(words) + (17 + k as usize)
}

/// The page that stands for the block of entry k: its shadow page while the gate is 1 and it has one, else its frame. No
/// memory has a shadow page behind the last.
#[tactic(auto, using(crate::proofs::Reading::place_of_frame, crate::proofs::Reading::place_of_shadow))]
fn entry_page(words: &[u64], k: u32) -> Option<usize>
    requires frames { frames_of words.now ≤ 8192 }
    requires entry { k < 8192 }
    ensures page { IfSome result (λ page. page ≡ page_of_entry words.now k) }
    ensures small { IfSome result (λ page. page < 16384) }
    ensures beyond { result ≡ None → 16 < shadow_at words.now k }
{
    let shadow = word(words, entry_at(k) + 4);
    if word(words, GATE) != 1 {
        return Some(frame_page(words, k));
    }
    if shadow == 0 {
        return Some(frame_page(words, k));
    }
    if shadow > SHADOW_PAGES {
        return None;
    }
    Some(registry_pages(words) + shadow as usize)
}

/// The page that is read of entry k: the one that stands, or its frame where shadow pages are passed over.
fn page_by(words: &[u64], k: u32, shadows: bool) -> Option<usize>
    requires frames { frames_of words.now ≤ 8192 }
    requires entry { k < 8192 }
    ensures page { IfSome result (λ page. page ≡ page_by shadows words.now k) }
    ensures small { IfSome result (λ page. page < 16384) }
    ensures beyond { result ≡ None → 16 < shadow_at words.now k }
{
    if shadows {
        return entry_page(words, k);
    }
    Some(frame_page(words, k))
}

/// The words of a page, where memory has it.
#[tactic(auto, using(crate::proofs::Reading::page_taken))]
fn page_words(words: &[u64], page: usize) -> Option<&[u64]>
    requires { page < 16384 }
    ensures words { IfSome result (λ found. found.now ≡ page_at words.now page) }
    ensures len { IfSome result (λ found. length found.now ≡ 512) }
    ensures beyond { result ≡ None → length words.now < 512 * page + 512 }
{
    let from = BLOCK_WORDS * page;
    if words.len() < from + BLOCK_WORDS {
        return None;
    }
    Some(&words[from..from + BLOCK_WORDS])
}

/// Copies a block of the disk, which is read into `room`.
fn copy_home(
    disk: &mut MemDisk,
    b: Block,
    room: &mut Vec<u64>,
    to: &mut [u64],
) -> Result<(), Failed>
    requires block { b.0 < length (state_of disk.old).blocks }
    requires room { length room.old.items ≡ 512 }
    requires all { 512 * b.0 + 512 ≤ length to.old }
    ensures disk { (state_of disk.new).blocks ≡ (state_of disk.old).blocks }
    ensures room { length room.new.items ≡ 512 }
    ensures words { OnOk result (FrontStored (512 * b.0) 512 (block_at (state_of disk.old).blocks b.0) to.old to.new) }
{
    disk.read(b, room)?;
    put_block(to, b, room);
    Ok(())
}

/// Copies what is read of a block: its entry's page, or else the disk's block.
fn copy_block(
    words: &[u64],
    shadows: bool,
    disk: &mut MemDisk,
    b: Block,
    room: &mut Vec<u64>,
    to: &mut [u64],
) -> Result<(), Unread>
    requires block { b.0 < length (state_of disk.old).blocks }
    requires room { length room.old.items ≡ 512 }
    requires all { 512 * b.0 + 512 ≤ length to.old }
    ensures disk { (state_of disk.new).blocks ≡ (state_of disk.old).blocks }
    ensures room { length room.new.items ≡ 512 }
    ensures put { OnOk result (PutsBlock (blocks_by shadows words.now (state_of disk.old).blocks) b.0 to.old to.new) }
    ensures within { InLimits words.now → IsErrOf result Unread.Beyond → ⊥ }
{
    let Some(frames) = frames_in(words) else {
        return Err(Unread::Beyond);
    };
    let Some(k) = entry_of(words, frames, b) else {
        copy_home(disk, b, room, to)?;
        return Ok(());
    };
    let Some(page) = page_by(words, k, shadows) else {
        return Err(Unread::Beyond);
    };
    let Some(found) = page_words(words, page) else {
        return Err(Unread::Beyond);
    };
    put_block(to, b, found);
    Ok(())
}

/// What is read of each of the 64 blocks, one after the other.
#[tactic(auto, using(crate::proofs::Reading::blocks_none, crate::proofs::Reading::blocks_more))]
fn covered_words(
    alloc: Global,
    words: &[u64],
    shadows: bool,
    disk: &mut MemDisk,
) -> Result<Vec<u64>, Unread>
    requires disk { length (state_of disk.old).blocks ≡ 64 }
    ensures count { IfOk result (λ found. length found.items ≡ 32768) }
    ensures disk { (state_of disk.new).blocks ≡ (state_of disk.old).blocks }
    ensures words { IfOk result (λ found. AreBlocks (blocks_by shadows words.now (state_of disk.old).blocks) 64 found.items) }
    ensures within { InLimits words.now → IsErrOf result Unread.Beyond → ⊥ }
{
    let mut room = zeros(alloc, BLOCK_WORDS)?;
    let mut found = zeros(alloc, ALL_WORDS)?;
    for b in 0..BLOCKS {
        copy_block(words, shadows, disk, Block(b), &mut room, &mut found)?;
    }
    Ok(found)
}

/// What stands of each of the 64 blocks, one after the other. A memory within its limits is never told to be beyond them.
pub fn standing_words(alloc: Global, words: &[u64], disk: &mut MemDisk) -> Result<Vec<u64>, Unread>
    requires disk { length (state_of disk.old).blocks ≡ 64 }
    ensures count { IfOk result (λ found. length found.items ≡ 32768) }
    ensures disk { (state_of disk.new).blocks ≡ (state_of disk.old).blocks }
    ensures stands { IfOk result (λ found. AreBlocks (cover_by (page_of_entry words.now) words.now (state_of disk.old).blocks) 64 found.items) }
    ensures within { InLimits words.now → IsErrOf result Unread.Beyond → ⊥ }
{
    covered_words(alloc, words, true, disk)
}

/// What each of the 64 blocks reads as, one after the other: frames count, whatever the gate.
pub fn reading_words(alloc: Global, words: &[u64], disk: &mut MemDisk) -> Result<Vec<u64>, Unread>
    requires disk { length (state_of disk.old).blocks ≡ 64 }
    ensures count { IfOk result (λ found. length found.items ≡ 32768) }
    ensures disk { (state_of disk.new).blocks ≡ (state_of disk.old).blocks }
    ensures reads { IfOk result (λ found. AreBlocks (cover_by (frame_page words.now) words.now (state_of disk.old).blocks) 64 found.items) }
    ensures within { InLimits words.now → IsErrOf result Unread.Beyond → ⊥ }
{
    covered_words(alloc, words, false, disk)
}
