//! What a machine leaves that is taken apart: whether it stands as plain lists say, and whether its disk was written.

ghost use Rattle.std.specs.Prelude.{◌≡◌, length};

use crate::plain_blocks::PlainBlocks;
use block_disk::{DiskChoice, MemDisk};
use phys_memory::ListMem;
use rio_base::{Block, DiskBlocks};
use std::alloc::Global;
use std::process::Abort;
use test_objects::{BLOCKS, standing_words};

/// What memory of these words and a disk of 64 blocks stand for after the disk crashed so.
pub(crate) fn crashed(
    rt: &impl Abort,
    alloc: Global,
    words: &[u64],
    disk: MemDisk,
    choice: DiskChoice,
) -> Vec<u64>
    ensures { length result.items ≡ 32768 }
{
    let mut disk = disk;
    if disk.count() != BLOCKS {
        panic!(rt; "another disk");
    }
    disk.drop_fails();
    disk.after_crash(choice);
    match standing_words(alloc, words, &mut disk) {
        Ok(found) => found,
        Err(_) => panic!(rt; "nothing is found"),
    }
}

/// Crashes the disk so, and answers the first block that memory and disk then stand for otherwise than the plain lists
/// say. The action that is running there ends as it stands.
pub(crate) fn judge_crash(
    rt: &impl Abort,
    alloc: Global,
    mem: ListMem,
    disk: MemDisk,
    choice: DiskChoice,
    plain: &mut PlainBlocks,
) -> Option<Block> {
    plain.judge(&crashed(rt, alloc, &mem.into_words(), disk, choice))
}

/// Whether no block of a disk of 64 blocks of zeros was written: one that was written and not synced reads as other words
/// after a crash.
pub(crate) fn is_unwritten(rt: &impl Abort, alloc: Global, disk: MemDisk) -> bool {
    let found = crashed(rt, alloc, &[], disk, DiskChoice::Filled(0xab)); // no memory, so that no entry hides a block
    let mut plain = PlainBlocks::new(rt, alloc);
    plain.judge(&found).is_none()
}
