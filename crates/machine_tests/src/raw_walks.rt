//! The drawn walks over a page cache once more, on a machine whose memory is one raw block: they end as over a list, and leave
//! the same words.

ghost use Rattle.std.specs.Prelude.{◌≡◌, ◌-◌, ◌<◌, ◌≤◌, ◌%◌, ◌^◌, false, None, length, take, drop};
ghost use Rattle.block_disk.specs.MemDisks.{state_of};
ghost use Rattle.rio_base.specs.Image.{AreImageSizes};
ghost use Rattle.phys_memory.specs.PhysMem.{words_of};
ghost use Rattle.machine_tests.specs.TestMachines.{IsBlank};
ghost use Rattle.machine_tests.specs.Walks.{Walks};

use crate::cache_walks::{Course, blank_image, blank_tables, go, walked};
use crate::machines::{Mishap, disk_of};
use crate::plain_blocks::PlainBlocks;
use crate::same::same;
use crate::walk::WalkEnd;
use block_disk::MemDisk;
use board::Board;
use page_cache::PageCache;
use phys_memory::PhysMem;
use rio_base::{Blocks, Machine, MemWords, Page, Volume};
use std::alloc::Global;
use std::process::Abort;
use test_objects::BLOCKS;

/// A board in raw memory.
type RawBoard = Board<PhysMem, MemDisk>;

/// A board over this memory and this disk, with one page of scratch.
fn board_on(mem: PhysMem, disk: MemDisk, stop_after: Option<u64>) -> RawBoard
    requires pages { length (words_of mem) % 512 ≡ 0 }
    requires room { 512 < length (words_of mem) }
    ensures protected { (⟦<Board<PhysMem, MemDisk> as Machine>⟧.contents result).words ≡ take (length (words_of mem) - 512) (words_of mem) }
    ensures rest { (⟦<Board<PhysMem, MemDisk> as Machine>⟧.run result).scratch ≡ drop (length (words_of mem) - 512) (words_of mem) }
    ensures closed { (⟦<Board<PhysMem, MemDisk> as Machine>⟧.contents result).open_page ≡ None }
    ensures disk { (⟦<Board<PhysMem, MemDisk> as Machine>⟧.contents result).disk ≡ (state_of disk).blocks }
    ensures running { (⟦<Board<PhysMem, MemDisk> as Machine>⟧.run result).stopped ≡ false }
{
    Board::new(mem, disk, 1, stop_after)
}

/// Raw memory of these words.
fn raw_memory(rt: &impl Abort, alloc: Global, words: &[u64]) -> PhysMem
    requires { length words.now < 2 ^ 32 }
    ensures { words_of result ≡ words.now }
{
    match PhysMem::of_words(alloc, words) {
        Ok(mem) => mem,
        Err(_) => panic!(rt; "no memory"),
    }
}

/// A machine over a fresh image in raw memory and a disk of 64 blocks of zeros, which this befalls, with no block in
/// memory.
fn blank_board(rt: &impl Abort, alloc: Global, frames: u32, mishap: Mishap) -> RawBoard
    requires sizes { AreImageSizes frames 1 }
    ensures blank { IsBlank frames (⟦<Board<PhysMem, MemDisk> as Machine>⟧.contents result) (⟦<Board<PhysMem, MemDisk> as Machine>⟧.run result) }
    ensures running { (⟦<Board<PhysMem, MemDisk> as Machine>⟧.run result).stopped ≡ false }
{
    let words = blank_image(rt, alloc, frames);
    let mem = raw_memory(rt, alloc, &words);
    let disk = disk_of(rt, alloc, BLOCKS, mishap);
    board_on(mem, disk, mishap.stop_after())
}

/// A cache with so many frames over such a machine, with no block in it.
#[tactic(auto, using(crate::proofs::BlankImages::fresh_for, crate::proofs::BlankImages::blank_idle))]
fn cache_of(rt: &impl Abort, alloc: Global, frames: u32, mishap: Mishap) -> PageCache<RawBoard>
    requires least { 32 ≤ frames }
    requires most { frames ≤ 64 }
    ensures sound { ⟦<PageCache<Board<PhysMem, MemDisk>> as Blocks>⟧.sound result }
    ensures walks { Walks (⟦<PageCache<Board<PhysMem, MemDisk>> as Blocks>⟧.seen result) }
    ensures idle { (⟦<PageCache<Board<PhysMem, MemDisk>> as Volume>⟧.kept result).updating ≡ false }
{
    let machine = blank_board(rt, alloc, frames, mishap);
    PageCache::start(machine, blank_tables(rt, alloc, frames))
}

/// How a walk ended, and the words that it left in memory.
type Left = (Result<(), WalkEnd>, Vec<u64>);

/// What a walk leaves of memory that is a list.
fn left_in_list(rt: &impl Abort, alloc: Global, course: Course) -> Left {
    let mut plain = PlainBlocks::new(rt, alloc);
    let (end, mem, _) = walked(rt, alloc, &mut plain, course);
    (end, mem.into_words())
}

/// The words of raw memory.
fn words_of_block(rt: &impl Abort, alloc: Global, mem: &PhysMem) -> Vec<u64> {
    let mut words = Vec::new(alloc);
    for page in 0..mem.len() / 512 {
        if words.extend_from_slice(mem.frame(Page(page))).is_err() {
            panic!(rt; "no memory");
        }
    }
    words
}

/// What the same walk leaves of raw memory.
fn left_in_block(rt: &impl Abort, alloc: Global, course: Course) -> Left {
    let mut plain = PlainBlocks::new(rt, alloc);
    let frames = if course.roomy { 64 } else { 32 };
    let mut v = cache_of(rt, alloc, frames, course.mishap);
    let end = go(&mut v, &mut plain, course);
    let (mem, _) = v.into_machine().into_parts();
    (end, words_of_block(rt, alloc, &mem))
}

/// Whether a walk ends and leaves the same in both memories: how it ends in both, and whether the words are the same.
fn ends_of(
    rt: &impl Abort,
    alloc: Global,
    course: Course,
) -> (Result<(), WalkEnd>, Result<(), WalkEnd>, bool) {
    let (list_end, list) = left_in_list(rt, alloc, course);
    let (block_end, block) = left_in_block(rt, alloc, course);
    (list_end, block_end, list.as_slice() == block.as_slice())
}

/// Walks: the seed, how many actions, whether the cache has a frame for each block, and what befalls it.
static COURSES: [(u64, u32, bool, Mishap); 9] = [
    (1, 4_000, false, Mishap::Nothing),
    (2, 4_000, false, Mishap::Nothing),
    (3, 4_000, false, Mishap::Nothing),
    (4, 200, false, Mishap::Fault(1)),
    (4, 200, false, Mishap::Fault(40)),
    (5, 4_000, false, Mishap::Stop(0)),
    (5, 4_000, false, Mishap::Stop(700)),
    (5, 4_000, false, Mishap::Stop(2_999)),
    (6, 2_000, true, Mishap::Nothing),
];

#[test]
fn drawn_walks_leave_the_same_in_both_memories(rt: HostRuntime) {
    for k in 0..9 {
        let (seed, actions, roomy, mishap) = COURSES[k];
        let course = Course {
            seed,
            actions,
            roomy,
            mishap,
        };
        let (list, block, alike) = ends_of(&rt, rt.alloc(), course);
        same(&rt, "courses", k, &(block, alike), &(list, true));
    }
}
