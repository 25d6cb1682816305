//! Walks over the page cache of a machine in memory, over a disk of 64 blocks: without a stop, with calls of the disk that
//! fail, stopped at each step, and with a frame for each block.

ghost use Rattle.std.specs.Prelude.{◌≡◌, ◌<◌, ◌≤◌, ℕ, false, slice_index};
ghost use Rattle.image_codec.specs.Image.{IsImage};
ghost use Rattle.rio_base.specs.Image.{AreImageSizes, entry_at};
ghost use Rattle.cached_pages.specs.Caches.{IsFresh};
ghost use Rattle.machine_tests.specs.TestMachines.{IsBlank};
ghost use Rattle.machine_tests.specs.Walks.{Walks};

use crate::crashes::{is_unwritten, judge_crash};
use crate::draws::Draws;
use crate::machines::{MemBoard, Mishap, board_on, disk_of};
use crate::plain_blocks::PlainBlocks;
use crate::same::same;
use crate::walk::{WalkEnd, walk_through};
use block_disk::{DiskChoice, MemDisk};
use board::Board;
use image_codec::fresh_image;
use page_cache::{CacheTables, PageCache};
use phys_memory::ListMem;
use rio_base::{Block, Blocks, Machine, Volume};
use std::alloc::Global;
use std::process::Abort;
use test_objects::BLOCKS;

/// The words of a fresh image with so many frames and one scratch page. The header is looked at, so that its sizes and its
/// gate are known.
pub(crate) fn blank_image(rt: &impl Abort, alloc: Global, frames: u32) -> Vec<u64>
    requires sizes { AreImageSizes frames 1 }
    ensures image { IsImage result.items }
    ensures frames { slice_index result.items 2 ≡ frames }
    ensures scratch { slice_index result.items 3 ≡ 1 }
    ensures gate { slice_index result.items 4 ≡ 0 }
    ensures empty { (k : ℕ) → k < frames → slice_index result.items (entry_at k) ≡ 0 }
{
    let Ok(words) = fresh_image(alloc, frames, 1) else {
        panic!(rt; "no image");
    };
    if words[2] != frames as u64 {
        panic!(rt; "another number of frames");
    }
    if words[3] != 1 {
        panic!(rt; "another number of scratch pages");
    }
    if words[4] != 0 {
        panic!(rt; "an open gate");
    }
    words
}

/// A machine over such an image and a disk of 64 blocks of zeros, which this befalls, with no block in memory.
fn blank_board(rt: &impl Abort, alloc: Global, frames: u32, mishap: Mishap) -> MemBoard
    requires sizes { AreImageSizes frames 1 }
    ensures blank { IsBlank frames (⟦<Board<ListMem, MemDisk> as Machine>⟧.contents result) (⟦<Board<ListMem, MemDisk> as Machine>⟧.run result) }
    ensures running { (⟦<Board<ListMem, MemDisk> as Machine>⟧.run result).stopped ≡ false }
{
    let words = blank_image(rt, alloc, frames);
    let disk = disk_of(rt, alloc, BLOCKS, mishap);
    board_on(ListMem::from_words(words), disk, mishap.stop_after())
}

/// The tables of a cache with so many frames over 64 blocks, with no block in it.
pub(crate) fn blank_tables(rt: &impl Abort, alloc: Global, frames: u32) -> CacheTables
    requires least { 32 ≤ frames }
    requires most { frames ≤ 64 }
    ensures { IsFresh frames 64 result }
{
    match CacheTables::new(alloc, frames, BLOCKS) {
        Ok(tables) => tables,
        Err(_) => panic!(rt; "no tables"),
    }
}

/// A cache with so many frames over a disk of 64 blocks of zeros, which this befalls, with no block in it.
#[tactic(auto, using(crate::proofs::BlankImages::fresh_for, crate::proofs::BlankImages::blank_idle))]
pub(crate) fn cache_of(
    rt: &impl Abort,
    alloc: Global,
    frames: u32,
    mishap: Mishap,
) -> PageCache<MemBoard>
    requires least { 32 ≤ frames }
    requires most { frames ≤ 64 }
    ensures sound { ⟦<PageCache<Board<ListMem, MemDisk>> as Blocks>⟧.sound result }
    ensures walks { Walks (⟦<PageCache<Board<ListMem, MemDisk>> as Blocks>⟧.seen result) }
    ensures idle { (⟦<PageCache<Board<ListMem, MemDisk>> as Volume>⟧.kept result).updating ≡ false }
    ensures running { (⟦<PageCache<Board<ListMem, MemDisk>> as Blocks>⟧.health result).stopped ≡ false }
{
    let machine = blank_board(rt, alloc, frames, mishap);
    PageCache::start(machine, blank_tables(rt, alloc, frames))
}

/// A walk over a cache.
#[derive(Clone, Copy)]
pub(crate) struct Course {
    pub(crate) seed: u64,
    pub(crate) actions: u32,
    /// The cache has a frame for each block, and nothing is flushed. Else it has 32 frames.
    pub(crate) roomy: bool,
    pub(crate) mishap: Mishap,
}

/// Makes the actions of a walk and, where it is not to be stopped, reads all blocks. A stop must come before the last
/// action, and in none of these reads.
pub(crate) fn go<V: Volume>(
    v: &mut V,
    plain: &mut PlainBlocks,
    course: Course,
) -> Result<(), WalkEnd>
    requires sound { V.sound v.old }
    requires walks { Walks (V.seen v.old) }
    requires idle { (V.kept v.old).updating ≡ false }
    ensures sound { V.sound v.new }
{
    let mut draws = Draws::new(course.seed, !course.roomy);
    let reads = course.mishap.stop_after().is_none();
    walk_through(v, plain, &mut draws, course.actions, reads)
}

/// Goes through a walk on a cache with no block in it, and takes the cache apart where the walk ends. Answers how it ended.
pub(crate) fn walked(
    rt: &impl Abort,
    alloc: Global,
    plain: &mut PlainBlocks,
    course: Course,
) -> (Result<(), WalkEnd>, ListMem, MemDisk) {
    let frames = if course.roomy { 64 } else { 32 };
    let mut v = cache_of(rt, alloc, frames, course.mishap);
    let end = go(&mut v, plain, course);
    let (mem, disk) = v.into_machine().into_parts();
    (end, mem, disk)
}

/// How a walk ended, and the first block that stands otherwise than the plain lists say where the disk then crashes.
type Outcome = (Result<(), WalkEnd>, Option<Block>);

/// What comes of a walk, where the disk crashes so.
fn outcome_of(rt: &impl Abort, alloc: Global, course: Course, choice: DiskChoice) -> Outcome {
    let mut plain = PlainBlocks::new(rt, alloc);
    let (end, mem, disk) = walked(rt, alloc, &mut plain, course);
    (end, judge_crash(rt, alloc, mem, disk, choice, &mut plain))
}

/// What must come of a walk that is not stopped, and of one that is.
const WHOLE: Outcome = (Ok(()), None);

const STOPPED: Outcome = (Err(WalkEnd::Stopped), None);

/// A walk over a cache of 32 frames.
fn short_of_frames(seed: u64, actions: u32, mishap: Mishap) -> Course {
    Course {
        seed,
        actions,
        roomy: false,
        mishap,
    }
}

#[test]
fn a_cache_is_walked(rt: HostRuntime) {
    for seed in 1..4 {
        let walk = short_of_frames(seed, 4_000, Mishap::Nothing);
        let came = outcome_of(&rt, rt.alloc(), walk, DiskChoice::AsSynced);
        same(&rt, "seeds", seed as usize, &came, &WHOLE);
    }
}

#[test]
fn a_cache_whose_disk_fails_is_walked(rt: HostRuntime) {
    for n in 1..100 {
        let walk = short_of_frames(4, 200, Mishap::Fault(n));
        let came = outcome_of(&rt, rt.alloc(), walk, DiskChoice::AsSynced);
        same(&rt, "calls of the disk", n as usize, &came, &WHOLE);
    }
}

/// The choices of how the disk crashes.
static CHOICES: [(&str, DiskChoice); 3] = [
    ("steps, as read", DiskChoice::AsRead),
    ("steps, as synced", DiskChoice::AsSynced),
    ("steps, filled", DiskChoice::Filled(0xab)),
];

/// Compares what comes of a walk that is stopped after so many steps, for each of these choices.
fn check_stop(rt: &impl Abort, alloc: Global, steps: u64) {
    let walk = short_of_frames(5, 4_000, Mishap::Stop(steps));
    for (name, choice) in CHOICES.iter() {
        let came = outcome_of(rt, alloc, walk, *choice);
        same(rt, name, steps as usize, &came, &STOPPED);
    }
}

#[test]
fn a_walk_over_a_cache_is_stopped_at_each_step(rt: HostRuntime) {
    for steps in 0..3_000 {
        check_stop(&rt, rt.alloc(), steps);
    }
}

/// How a walk without flushes over a cache with a frame for each block ends, and whether it wrote no block.
fn roomy_walk(rt: &impl Abort, alloc: Global) -> (Result<(), WalkEnd>, bool) {
    let mut plain = PlainBlocks::new(rt, alloc);
    let course = Course {
        seed: 6,
        actions: 2_000,
        roomy: true,
        mishap: Mishap::Nothing,
    };
    let (end, _, disk) = walked(rt, alloc, &mut plain, course);
    (end, is_unwritten(rt, alloc, disk))
}

#[test]
fn a_roomy_cache_writes_only_at_flushes(rt: HostRuntime) {
    same(
        &rt,
        "walks",
        0,
        &roomy_walk(&rt, rt.alloc()),
        &(Ok(()), true),
    );
}
