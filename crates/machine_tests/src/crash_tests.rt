//! Tests of the judges of crashes, on machines that no cache has changed.

ghost use Rattle.std.specs.Prelude.{◌≡◌, None, length};

use crate::crashes::{is_unwritten, judge_crash};
use crate::machines::{MemBoard, Mishap, board_on, disk_of};
use crate::plain_blocks::{PlainBlocks, Stands};
use crate::same::same;
use block_disk::{DiskChoice, MemDisk};
use board::Board;
use phys_memory::ListMem;
use rio_base::{Block, Machine, Page};
use std::alloc::Global;
use std::process::Abort;

/// A board of zeros, over a disk of 64 blocks of zeros.
fn zero_board(rt: &impl Abort, alloc: Global) -> MemBoard
    ensures closed { (⟦<Board<ListMem, MemDisk> as Machine>⟧.contents result).open_page ≡ None }
    ensures disk { length (⟦<Board<ListMem, MemDisk> as Machine>⟧.contents result).disk ≡ 64 }
    ensures words { length (⟦<Board<ListMem, MemDisk> as Machine>⟧.contents result).words ≡ 1024 }
{
    let Ok(mem) = ListMem::new(alloc, 3) else {
        panic!(rt; "no memory");
    };
    board_on(mem, disk_of(rt, alloc, 64, Mishap::Nothing), None)
}

/// The memory and the disk of a board whose block 3 was written with a page of zeros.
fn written(rt: &impl Abort, alloc: Global) -> (ListMem, MemDisk) {
    let mut board = zero_board(rt, alloc);
    if board.write_block(Block(3), Page(1)).is_err() {
        panic!(rt; "block 3 is not written");
    }
    board.into_parts()
}

/// Whether no block of a fresh disk was written, and whether none was of one whose block 3 was.
fn both_unwritten(rt: &impl Abort, alloc: Global) -> [bool; 2] {
    let (_, fresh) = zero_board(rt, alloc).into_parts();
    let (_, disk) = written(rt, alloc);
    [
        is_unwritten(rt, alloc, fresh),
        is_unwritten(rt, alloc, disk),
    ]
}

#[test]
fn a_written_block_is_told(rt: HostRuntime) {
    same(
        &rt,
        "unwritten",
        0,
        &both_unwritten(&rt, rt.alloc()),
        &[true, false],
    );
}

/// What the judge says of a board of zeros whose block 3 was written and not synced, after a crash, while its first word is
/// being stored as 7.
fn judged(rt: &impl Abort, alloc: Global, choice: DiskChoice) -> Option<Block> {
    let mut plain = PlainBlocks::new(rt, alloc);
    plain.begin(Stands::Front);
    plain.store(Block(3), 0, 7);
    let (mem, disk) = written(rt, alloc);
    judge_crash(rt, alloc, mem, disk, choice, &mut plain)
}

/// The choices of what is pending, and what the judge says of each.
static CRASHES: [(DiskChoice, Option<Block>); 3] = [
    (DiskChoice::AsRead, None),
    (DiskChoice::AsSynced, None),
    (DiskChoice::Filled(7), Some(Block(3))),
];

#[test]
fn a_crash_is_judged(rt: HostRuntime) {
    for (k, (choice, due)) in CRASHES.iter().enumerate() {
        same(&rt, "crashes", k, &judged(&rt, rt.alloc(), *choice), due);
    }
}
