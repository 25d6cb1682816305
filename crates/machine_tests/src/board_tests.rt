//! Tests of boards: stops, traps, wild stores and the disk.

ghost use Rattle.std.specs.Prelude.{◌≡◌, ◌<◌, length};
ghost use Rattle.block_disk.specs.MemDisks.{state_of};

use crate::board_rows::{Case, check_board, check_each};
use crate::cached::word_in;
use crate::copy_rows::{COPIES, RUNS, SCRATCH_COPIES};
use crate::machines::{Mishap, board_on, disk_of};
use crate::rig::{Call, Came, Memory};
use crate::same::same;
use crate::window_rows::WINDOWS;
use block_disk::{DiskChoice, MemDisk};
use phys_memory::ListMem;
use rio_base::{Block, DiskBlocks, Machine, MemWords, Page, Wild, WordAt};
use std::alloc::Global;
use std::process::Abort;
use test_objects::{save, zeros};

/// Stops, traps, wild stores and a failed sync.
static BOARDS: [Case; 8] = [
    // a stopped or trapped step keeps the old word
    (
        "a stop keeps the old word",
        Memory::Zeros,
        Mishap::Stop(3),
        &[
            (Call::Open(2), Came::Done),
            (Call::Store(1024, 5), Came::Done),
            (Call::Store(1025, 6), Came::Done),
            (Call::Store(1026, 7), Came::Done),
            (Call::Store(1027, 8), Came::Stopped),
            (Call::Word(1026), Came::Number(7)),
            (Call::Word(1027), Came::Number(0)),
            (Call::Steps, Came::Number(3)),
        ],
    ),
    (
        "an armed store traps before its step",
        Memory::Zeros,
        Mishap::Nothing,
        &[
            (Call::Open(2), Came::Done),
            (Call::Arm(2, 0, 9), Came::Done),
            (Call::Store(1024, 5), Came::Done),
            (Call::Store(1025, 6), Came::Done),
            (Call::Store(1026, 7), Came::Stopped),
            (Call::Trapped, Came::Place(Some(WordAt(0)))),
            (Call::Steps, Came::Number(2)),
        ],
    ),
    (
        "a stop comes before an armed store of the same step",
        Memory::Small,
        Mishap::Stop(1),
        &[
            (Call::Open(1), Came::Done),
            (Call::Arm(1, 0, 9), Came::Done),
            (Call::Store(512, 5), Came::Done),
            (Call::Store(513, 6), Came::Stopped),
            (Call::Trapped, Came::Place(None)),
            (Call::Steps, Came::Number(1)),
        ],
    ),
    (
        "a trap stops every further step",
        Memory::Zeros,
        Mishap::Nothing,
        &[
            (Call::Wild(0, 9), Came::Met(Wild::Trapped)),
            (Call::Halted, Came::Is(true)),
            (Call::Write(3, 1), Came::Stopped),
            (Call::Sync, Came::Stopped),
            (Call::Open(2), Came::Done),
            (Call::Store(1024, 5), Came::Stopped),
            (Call::Close, Came::Done),
            (Call::Word(0), Came::Number(0)),
        ],
    ),
    // a wild store is met by where it falls
    (
        "it is spared on the open page",
        Memory::Zeros,
        Mishap::Nothing,
        &[
            (Call::Open(2), Came::Done),
            (Call::Wild(1024, 9), Came::Met(Wild::Spared)),
            (Call::Word(1024), Came::Number(0)),
            (Call::Spared, Came::Number(1)),
        ],
    ),
    (
        "it is made on scratch",
        Memory::Zeros,
        Mishap::Nothing,
        &[
            (Call::Pages, Came::Number(83)),
            (Call::Wild(41_984, 9), Came::Met(Wild::Changed)),
            (Call::Word(41_984), Came::Number(9)),
            (Call::Halted, Came::Is(false)),
        ],
    ),
    (
        "it traps on any other page",
        Memory::Small,
        Mishap::Nothing,
        &[
            (Call::Open(1), Came::Done),
            (Call::Wild(512, 9), Came::Met(Wild::Spared)),
            (Call::Wild(1024, 9), Came::Met(Wild::Changed)),
            (Call::Spared, Came::Number(1)),
            (Call::Halted, Came::Is(false)),
            (Call::Wild(511, 9), Came::Met(Wild::Trapped)),
            (Call::Trapped, Came::Place(Some(WordAt(511)))),
            (Call::Halted, Came::Is(true)),
        ],
    ),
    // a failed sync is a fault
    (
        "the second call of the disk fails",
        Memory::Counted,
        Mishap::Fault(2),
        &[
            (Call::Blocks, Came::Number(4)),
            (Call::Write(3, 2), Came::Done),
            (Call::Sync, Came::Fault),
            (Call::Sync, Came::Done),
            (Call::Read(3), Came::Number(1535)),
            (Call::Steps, Came::Number(3)),
        ],
    ),
];

fn boards() -> &'static [Case] {
    &BOARDS
}

fn copies() -> &'static [Case] {
    &COPIES
}

fn scratch_copies() -> &'static [Case] {
    &SCRATCH_COPIES
}

fn runs() -> &'static [Case] {
    &RUNS
}

fn windows() -> &'static [Case] {
    &WINDOWS
}

#[test]
fn boards_answer_as_their_rows_say(rt: HostRuntime) {
    // A function for each static: what reading a body takes grows with the square of what stands in its statics.
    let parts = [boards(), copies(), scratch_copies(), runs(), windows()];
    for part in 0..parts.len() {
        check_each(&rt, rt.alloc(), parts[part]);
    }
}

/// A word that is stored.
static STORED: Case = (
    "a word is stored",
    Memory::Zeros,
    Mishap::Nothing,
    &[
        (Call::Open(2), Came::Done),
        (Call::Store(1024, 5), Came::Done),
    ],
);

#[test]
fn memory_and_disk_are_given_back(rt: HostRuntime) {
    let (mem, disk) = check_board(&rt, rt.alloc(), &STORED).into_parts();
    let came = (mem.len(), word_in(&mem, 1024), disk.count()); // the words, the one that was stored, and the blocks
    same(&rt, "what is given back", 0, &came, &(42_496, 5, 4));
}

/// The first words of the blocks 2 and 3.
fn first_words(rt: &impl Abort, disk: &mut MemDisk, into: &mut Vec<u64>) -> [u64; 2]
    requires disk { length (state_of disk.old).blocks ≡ 4 }
    requires room { length into.old.items ≡ 512 }
    ensures disk { length (state_of disk.new).blocks ≡ 4 }
    ensures room { length into.new.items ≡ 512 }
{
    if disk.read(Block(2), into).is_err() {
        panic!(rt; "block 2 is not read");
    }
    let two = into[0];
    if disk.read(Block(3), into).is_err() {
        panic!(rt; "block 3 is not read");
    }
    [two, into[0]]
}

/// A write that is stopped. Block 3 had page 2 at the last sync, and page 3 was written to block 2 after it.
static CRASHING: Case = (
    "a write is stopped",
    Memory::Counted,
    Mishap::Stop(3),
    &[
        (Call::Write(3, 2), Came::Done),
        (Call::Sync, Came::Done),
        (Call::Write(2, 3), Came::Done),
        (Call::Write(3, 4), Came::Stopped),
    ],
);

/// The first words of the blocks 2 and 3 after a stop within a write of block 3, and after the crash behind it.
fn around_a_crash(rt: &impl Abort, alloc: Global, choice: DiskChoice) -> [[u64; 2]; 2] {
    let (_, mut disk) = check_board(rt, alloc, &CRASHING).into_parts();
    let Ok(mut into) = zeros(alloc, 512) else {
        panic!(rt; "no room");
    };
    let before = first_words(rt, &mut disk, &mut into);
    disk.after_crash(choice);
    [before, first_words(rt, &mut disk, &mut into)]
}

/// A word that is filled with the byte 1.
const ONES: u64 = 0x0101_0101_0101_0101;

/// How the disk crashes, and the first words of the blocks 2 and 3 before and after it. Each word of memory is its place.
static CRASHES: [(DiskChoice, [[u64; 2]; 2]); 3] = [
    (DiskChoice::AsRead, [[1536, 1024], [1536, 1024]]),
    (DiskChoice::AsSynced, [[1536, 1024], [0, 1024]]),
    (DiskChoice::Filled(1), [[1536, 1024], [ONES, ONES]]),
];

#[test]
fn a_stopped_write_is_told_to_the_disk(rt: HostRuntime) {
    for k in 0..3 {
        let (choice, due) = CRASHES[k];
        same(
            &rt,
            "crashes",
            k,
            &around_a_crash(&rt, rt.alloc(), choice),
            &due,
        );
    }
}

/// What is found after a save of a page that begins with 5, on a board of zeros: whether it was made, whether the board is
/// stopped, the first word of the page, and the first word of what the block was read into.
type Saved = (bool, bool, u64, u64);

/// Saves the page on a board that stops after so many steps.
fn after_save(rt: &impl Abort, alloc: Global, steps: u64) -> Saved {
    let Ok(mem) = ListMem::new(alloc, 83) else {
        panic!(rt; "no memory");
    };
    let Ok(mut into) = zeros(alloc, 512) else {
        panic!(rt; "no room");
    };
    let disk = disk_of(rt, alloc, 4, Mishap::Nothing);
    let mut board = board_on(mem, disk, Some(steps));
    let done = save(&mut board, Page(2), 5, Block(3), &mut into).is_ok();
    (done, board.stopped(), board.load(WordAt(1024)), into[0])
}

/// What is found where it is stopped before its first step, where it is stopped behind that, and where it is made.
const NONE: Saved = (false, true, 0, 0);

const CUT: Saved = (false, true, 5, 0);

const WHOLE: Saved = (true, false, 5, 5);

/// What is found after as many steps as there are rows before.
static SAVES: [Saved; 5] = [NONE, CUT, CUT, WHOLE, WHOLE];

#[test]
fn a_save_is_whole_or_stopped(rt: HostRuntime) {
    for k in 0..5 {
        same(
            &rt,
            "steps",
            k,
            &after_save(&rt, rt.alloc(), k as u64),
            &SAVES[k],
        );
    }
}
