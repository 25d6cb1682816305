//! What stands of a small memory and disk that are made by hand, and what the judge of a walk says of them.

ghost use Rattle.std.specs.Prelude.{◌≡◌, ◌<◌, length};
ghost use Rattle.block_disk.specs.MemDisks.{state_of};

use crate::crashes::crashed;
use crate::machines::{Mishap, disk_of};
use crate::plain_blocks::{PlainBlocks, Stands, all_zeros};
use crate::same::same;
use block_disk::{DiskChoice, MemDisk};
use image_codec::fresh_image;
use rio_base::{Block, DiskBlocks};
use std::alloc::Global;
use std::process::Abort;
use test_objects::{Unread, reading_words, standing_words, zeros};

/// An image of 32 frames, where entry 3 is of block 9 and has shadow 2, and entry 31 is of block 50.
fn image(rt: &impl Abort, alloc: Global, gate: u64) -> Vec<u64>
    ensures { length result.items ≡ 26112 }
{
    let Ok(mut words) = fresh_image(alloc, 32, 1) else {
        panic!(rt; "no image");
    };
    if words.len() != 26_112 {
        panic!(rt; "another image");
    }
    words[4] = gate;
    words[527] = 0x0000_0009_0000_0003;
    words[531] = 2;
    words[667] = 0x0000_0032_0000_0007;
    words[1_536] = 8; // page 3, shadow page 2
    words[10_752] = 7; // page 21, frame 3
    words[25_599] = 6; // the last word of page 49, frame 31
    words
}

/// Writes a block that begins with this word, and else has zeros.
fn write(rt: &impl Abort, alloc: Global, disk: &mut MemDisk, b: Block, first: u64)
    requires block { b.0 < 64 }
    requires disk { length (state_of disk.old).blocks ≡ 64 }
    ensures { length (state_of disk.new).blocks ≡ 64 }
{
    let Ok(mut block) = zeros(alloc, 512) else {
        panic!(rt; "no block");
    };
    block[0] = first;
    if disk.write(b, &block).is_err() {
        panic!(rt; "not written");
    }
}

/// A disk of zeros but for the blocks 9 and 51, which begin with 5 and are pending.
fn written_disk(rt: &impl Abort, alloc: Global) -> MemDisk
    ensures { length (state_of result).blocks ≡ 64 }
{
    let mut disk = disk_of(rt, alloc, 64, Mishap::Nothing);
    write(rt, alloc, &mut disk, Block(51), 5);
    write(rt, alloc, &mut disk, Block(9), 5);
    disk
}

/// The first word of block 9, the last of block 50, and the first of block 51.
fn three_of(found: &[u64]) -> [u64; 3]
    requires { length found.now ≡ 32768 }
{
    [found[4_608], found[26_111], found[26_112]]
}

/// What stands of a memory whose entries are those of [`image`], over such a disk, and what they read as.
fn both_of(rt: &impl Abort, alloc: Global, gate: u64) -> [[u64; 3]; 2] {
    let words = image(rt, alloc, gate);
    let mut disk = written_disk(rt, alloc);
    let Ok(standing) = standing_words(alloc, &words, &mut disk) else {
        panic!(rt; "nothing stands");
    };
    let Ok(reading) = reading_words(alloc, &words, &mut disk) else {
        panic!(rt; "nothing reads");
    };
    [three_of(&standing), three_of(&reading)]
}

#[test]
fn pages_and_blocks_stand_and_read(rt: HostRuntime) {
    for (gate, first) in [(0, 7), (1, 8)] {
        let due = [[first, 6, 5], [7, 6, 5]];
        same(
            &rt,
            "gate",
            gate as usize,
            &both_of(&rt, rt.alloc(), gate),
            &due,
        );
    }
}

/// What stands of the memory with the gate 1, where 6 was written over the 5 of block 51 after a sync, and the disk then
/// crashed so.
fn pending_standing(rt: &impl Abort, alloc: Global, choice: DiskChoice) -> [u64; 3] {
    let mut disk = written_disk(rt, alloc);
    if disk.sync().is_err() {
        panic!(rt; "not synced");
    }
    write(rt, alloc, &mut disk, Block(51), 6);
    three_of(&crashed(rt, alloc, &image(rt, alloc, 1), disk, choice))
}

/// The choices of what is pending, and what stands then: of block 51 the first word.
static PENDING: [(DiskChoice, [u64; 3]); 3] = [
    (DiskChoice::AsRead, [8, 6, 6]),
    (DiskChoice::AsSynced, [8, 6, 5]),
    (DiskChoice::Filled(0xab), [8, 6, 0xabab_abab_abab_abab]),
];

#[test]
fn a_pending_block_without_entry_stands_as_the_stop_leaves_it(rt: HostRuntime) {
    for (k, (choice, due)) in PENDING.iter().enumerate() {
        same(
            &rt,
            "crashes",
            k,
            &pending_standing(&rt, rt.alloc(), *choice),
            due,
        );
    }
}

/// Whether a memory is told to be beyond its limits that has this word at a place, and else those of [`image`].
fn is_beyond(rt: &impl Abort, alloc: Global, at: usize, v: u64) -> bool {
    let mut words = image(rt, alloc, 1);
    let mut disk = written_disk(rt, alloc);
    if at < words.len() {
        words[at] = v;
    }
    let found = standing_words(alloc, &words, &mut disk);
    matches!(&found, Err(Unread::Beyond))
}

/// Places, words there, and whether a memory with this word is beyond its limits.
static LIMITS: [(usize, u64, bool); 4] = [
    (531, 16, false), // the last shadow page
    (531, 17, true),
    (2, 8_193, true),
    (2, 8_192, true), // frames would lie behind the last word
];

#[test]
fn a_memory_beyond_its_limits_is_refused(rt: HostRuntime) {
    for (k, (at, v, due)) in LIMITS.iter().enumerate() {
        same(
            &rt,
            "memories",
            k,
            &is_beyond(&rt, rt.alloc(), *at, *v),
            due,
        );
    }
}

/// What the judge says of an action that stores 7, 8 and 9 at the front of block 3 of zeros, where these words stand there.
fn judged(rt: &impl Abort, alloc: Global, stands: Stands, words: [u64; 3]) -> Option<Block> {
    let mut plain = PlainBlocks::new(rt, alloc);
    plain.begin(stands);
    plain.store(Block(3), 0, 7);
    plain.store(Block(3), 1, 8);
    plain.store(Block(3), 2, 9);
    let mut found = all_zeros(rt, alloc);
    found[1_536..1_539].copy_from_slice(&words);
    plain.judge(&found)
}

/// A block that stands otherwise than it may.
const WRONG: Option<Block> = Some(Block(3));

/// What the judge says of words where nothing, the whole or a front may stand.
type Judged = (Option<Block>, Option<Block>, Option<Block>);

/// The words that stand, and what the judge says of them.
static FRONTS: [([u64; 3], Judged); 7] = [
    ([0, 0, 0], (None, None, None)),
    ([7, 0, 0], (WRONG, WRONG, None)),
    ([7, 8, 0], (WRONG, WRONG, None)),
    ([7, 8, 9], (WRONG, None, None)),
    ([0, 8, 9], (WRONG, WRONG, WRONG)),
    ([7, 0, 9], (WRONG, WRONG, WRONG)),
    ([7, 8, 8], (WRONG, WRONG, WRONG)),
];

/// What the judge says of these words.
fn judged_all(rt: &impl Abort, alloc: Global, stored: [u64; 3]) -> Judged {
    (
        judged(rt, alloc, Stands::Nothing, stored),
        judged(rt, alloc, Stands::Whole, stored),
        judged(rt, alloc, Stands::Front, stored),
    )
}

#[test]
fn fronts_and_whole_updates_are_told_from_others(rt: HostRuntime) {
    for (k, (stored, due)) in FRONTS.iter().enumerate() {
        same(&rt, "fronts", k, &judged_all(&rt, rt.alloc(), *stored), due);
    }
}
