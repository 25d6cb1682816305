//! Pairs and what a reboot makes of them, as rows.

use crate::pairs::{Pair, frame, shadow};
use crate::reboots::{Cut, reboot};
use crate::same::same;
use crate::sweeps::{disk_of, fail_everywhere, stop_everywhere};
use block_disk::DiskChoice;
use rio_base::Block;
use std::alloc::Global;
use std::process::Abort;
use std::test::Fail;
use warm_reboot::{BootFail, BootReport};

/// A row: a pair is made, changed, booted and looked at.
#[derive(Clone, Copy)]
enum Row {
    /// A new pair.
    New,
    /// The gate.
    Gate(u64),
    /// An entry of metadata, of this block, with these flags; its frame has the disk's block.
    Metadata(usize, u64, u64),
    /// An entry of data, of this block, with these flags; its frame is filled with a word.
    Data(usize, u64, u64, u64),
    /// The name of an entry of data: file, page and size.
    Name(usize, u64, u64, u64),
    /// The shadow of an entry, and the block of the disk that is copied to it.
    Shadow(usize, u64, usize),
    /// A word of a page of memory.
    Word(usize, usize, u64),
    /// A block of the disk is filled.
    Fill(usize, u64),
    /// A word of a block of the disk.
    DiskWord(usize, usize, u64),
    /// The reboot answers Ok, and how many pages of metadata, of files and stale ones it tells, and how many regions; after each
    /// stop and each fault the next one leaves what stands.
    Boots(u32, u32, u32, u32),
    /// The reboot answers Ok where no read of this block succeeds.
    Unread(u32),
    /// The reboot fails.
    Fails(BootFail),
    /// A word of a block of the disk afterwards.
    Is(usize, usize, u64),
}

/// A dirty entry, a clean one, and the flag of data.
const DIRTY: u64 = 3;

const CLEAN: u64 = 1;

const DATA: u64 = 4;

static ROWS: [Row; 125] = [
    // no entry: nothing is written
    Row::New,
    Row::Boots(0, 0, 0, 0),
    Row::Is(4, 0, 1),
    // a dirty page of the file, and a clean one that is the disk's
    Row::New,
    Row::Data(0, 4, DIRTY | DATA, 7),
    Row::Name(0, 2, 0, 4096),
    Row::Data(9, 5, CLEAN | DATA, 1),
    Row::Name(9, 2, 1, 904),
    Row::Boots(0, 1, 0, 0),
    Row::Is(4, 0, 7),
    Row::Is(4, 511, 7),
    Row::Is(5, 0, 1),
    // a clean page that is not the disk's
    Row::New,
    Row::Data(3, 5, CLEAN | DATA, 8),
    Row::Name(3, 2, 1, 904),
    Row::Boots(0, 1, 0, 0),
    Row::Is(5, 0, 8),
    Row::Is(4, 0, 1),
    // a page of a block that no node has
    Row::New,
    Row::Data(1, 6, DIRTY | DATA, 9),
    Row::Name(1, 3, 0, 4096),
    Row::Boots(0, 0, 1, 0),
    Row::Is(6, 0, 0),
    // the file was cut short while its second page was cached
    Row::New,
    Row::Data(1, 5, DIRTY | DATA, 9),
    Row::Name(1, 2, 1, 904),
    Row::DiskWord(2, 17, 100),
    Row::DiskWord(1, 0, 0b1_1111),
    Row::Boots(0, 0, 1, 0),
    Row::Is(5, 0, 1),
    // the file was cut short so, and the page of inodes is cached too: what is cached counts
    Row::New,
    Row::Data(1, 5, DIRTY | DATA, 9),
    Row::Name(1, 2, 1, 904),
    Row::Metadata(2, 2, DIRTY),
    Row::Word(20, 17, 100),
    Row::Metadata(4, 1, DIRTY),
    Row::Word(22, 0, 0b1_1111),
    Row::Boots(2, 0, 1, 0),
    Row::Is(5, 0, 1),
    Row::Is(2, 17, 100),
    Row::Is(1, 0, 0b1_1111),
    // a stale page of a block that another node has: its entry does not fit
    Row::New,
    Row::Data(1, 4, DIRTY | DATA, 9),
    Row::Name(1, 3, 0, 4096),
    Row::Fails(BootFail::BadVolume(12, Block(4))),
    Row::Is(4, 0, 1),
    // the gate is 1: of metadata the shadow page counts, and the frame does not
    Row::New,
    Row::Gate(1),
    Row::Metadata(0, 3, DIRTY),
    Row::Word(18, 1, 0x68),
    Row::Shadow(0, 1, 3),
    Row::Word(2, 1, 0x67),
    Row::Boots(1, 0, 0, 0),
    Row::Is(3, 1, 0x67),
    // while the gate is 0, the frame counts
    Row::New,
    Row::Metadata(0, 3, DIRTY),
    Row::Word(18, 1, 0x68),
    Row::Shadow(0, 1, 3),
    Row::Word(2, 1, 0x67),
    Row::Boots(1, 0, 0, 0),
    Row::Is(3, 1, 0x68),
    // a clean entry with a shadow that is not the disk's block
    Row::New,
    Row::Gate(1),
    Row::Metadata(0, 3, CLEAN),
    Row::Shadow(0, 1, 3),
    Row::Word(2, 1, 0x67),
    Row::Boots(1, 0, 0, 0),
    Row::Is(3, 1, 0x67),
    // the disk has nothing of the blocks that have entries
    Row::New,
    Row::Metadata(0, 0, CLEAN),
    Row::Metadata(1, 1, DIRTY),
    Row::Metadata(2, 2, DIRTY),
    Row::Metadata(3, 3, CLEAN),
    Row::Fill(0, 0xa5a5_a5a5_a5a5_a5a5),
    Row::Fill(1, 0xa5a5_a5a5_a5a5_a5a5),
    Row::Fill(2, 0xa5a5_a5a5_a5a5_a5a5),
    Row::Fill(3, 0xa5a5_a5a5_a5a5_a5a5),
    Row::Boots(4, 0, 0, 0),
    Row::Is(3, 1, 0x66),
    // a region whose word was saved twice and stored twice, and no commit came: the first word comes back. Its header and its words
    // go to the disk with the next reboot
    Row::New,
    Row::DiskWord(1, 0, 0b11_1111_1111),
    Row::DiskWord(2, 1, 128),
    Row::DiskWord(2, 32, 3),
    Row::DiskWord(2, 33, 16_384),
    Row::DiskWord(2, 34, 0x0000_0007_0000_0006),
    Row::DiskWord(2, 35, 0x0000_0009_0000_0008),
    Row::DiskWord(3, 8, 0x0000_0001_0000_0003),
    Row::DiskWord(3, 9, 0x72),
    Row::DiskWord(6, 0, 0x4745_5241_5453_4956),
    Row::DiskWord(6, 1, 1),
    Row::DiskWord(6, 2, 1),
    Row::DiskWord(6, 3, 5),
    Row::DiskWord(7, 1, 512),
    Row::DiskWord(7, 2, 1),
    Row::DiskWord(7, 4, 1),
    Row::DiskWord(7, 5, 512),
    Row::DiskWord(7, 6, 1),
    Row::DiskWord(7, 7, 0x1111_1111_1111_1111),
    Row::Data(0, 9, DIRTY | DATA, 0x2222_2222_2222_2222),
    Row::Name(0, 3, 3, 4096),
    Row::Boots(0, 1, 0, 1),
    Row::Is(9, 0, 0x2222_2222_2222_2222),
    Row::Is(6, 3, 5),
    Row::Boots(0, 2, 0, 0),
    Row::Is(9, 0, 0),
    Row::Is(9, 1, 0x2222_2222_2222_2222),
    Row::Is(6, 3, 0),
    // a dirty page's block is not read
    Row::New,
    Row::Data(0, 4, DIRTY | DATA, 0xaa),
    Row::Name(0, 2, 0, 4096),
    Row::Data(1, 5, DIRTY | DATA, 0xaa),
    Row::Name(1, 2, 1, 904),
    Row::Unread(5),
    // two entries with one block
    Row::New,
    Row::Data(0, 4, DIRTY | DATA, 0),
    Row::Name(0, 2, 0, 4096),
    Row::Data(1, 4, DIRTY | DATA, 0),
    Row::Name(1, 2, 0, 4096),
    Row::Fails(BootFail::BadImage(7)),
    // the superblock's block is not marked
    Row::New,
    Row::DiskWord(1, 0, 0b11_1110),
    Row::Fails(BootFail::BadVolume(2, Block(1))),
    // a gate that is neither open nor shut
    Row::New,
    Row::Gate(2),
    Row::Fails(BootFail::BadImage(5)),
];

/// The fewest steps of a reboot: two syncs and the store of the gate.
const STEPS: u64 = 3;

/// The fewest calls on the disk: two syncs.
const CALLS: u64 = 2;

/// Whether so many cuts were made at least, and each was well.
fn is_from(cuts: Result<u64, u64>, least: u64) -> bool {
    match cuts {
        Ok(made) => least <= made,
        Err(_) => false,
    }
}

/// What is tried of each pair that boots.
#[derive(Clone, Copy)]
enum Trial {
    /// What the reboot tells.
    Told,
    /// Stops at each of its steps.
    Stops,
    /// Each of its calls on the disk failing.
    Faults,
}

/// Tries a reboot of a pair, and leaves the pair as the reboot does.
fn boots(
    rt: &impl Abort,
    alloc: Global,
    k: usize,
    trial: Trial,
    pair: &mut Pair,
    counts: [u32; 4],
) -> Result<(), Fail> {
    let ended = reboot(
        alloc,
        pair.copy(alloc)?,
        Cut::Nothing,
        DiskChoice::Filled(165),
    )?;
    let told = match ended.end {
        Ok(
            BootReport {
                meta,
                pages,
                stale,
                undone,
                ..
            },
        ) => Some([meta, pages, stale, undone]),
        _ => None,
    };
    same(rt, "what a reboot tells", k, &told, &Some(counts));
    let due = disk_of(alloc, pair.copy(alloc)?)?;
    let cuts = match trial {
        Trial::Told => true,
        Trial::Stops => is_from(stop_everywhere(alloc, pair, &due)?, STEPS),
        Trial::Faults => is_from(fail_everywhere(alloc, pair, &due)?, CALLS),
    };
    same(rt, "reboots that are cut off", k, &cuts, &true);
    *pair = ended.pair;
    Ok(())
}

/// Makes a row of a pair.
fn make(
    rt: &impl Abort,
    alloc: Global,
    k: usize,
    trial: Trial,
    row: Row,
    pair: &mut Pair,
) -> Result<(), Fail> {
    match row {
        Row::New => *pair = Pair::new(alloc)?,
        Row::Gate(word) => pair.set_gate(word),
        Row::Metadata(entry, block, flags) => {
            pair.set_tag(entry, block, flags);
            pair.copy_to_page(block as usize, frame(entry));
        }
        Row::Data(entry, block, flags, word) => {
            pair.set_tag(entry, block, flags);
            pair.fill_page(frame(entry), word);
        }
        Row::Name(entry, file, index, size) => pair.set_name(entry, file, index, size),
        Row::Shadow(entry, s, block) => {
            pair.set_shadow(entry, s);
            pair.copy_to_page(block, shadow(s as usize));
        }
        Row::Word(page, w, word) => pair.put_word(page, w, word),
        Row::Fill(block, word) => pair.fill_block(block, word),
        Row::DiskWord(block, w, word) => pair.put_disk_word(block, w, word),
        Row::Boots(meta, pages, stale, undone) => {
            boots(rt, alloc, k, trial, pair, [meta, pages, stale, undone])?;
        }
        Row::Unread(block) => {
            let pair = pair.copy(alloc)?;
            let ended = reboot(alloc, pair, Cut::Reads(block), DiskChoice::AsRead)?;
            same(rt, "a block that is not read", k, &ended.end.is_ok(), &true);
        }
        Row::Fails(fail) => {
            let ended = reboot(alloc, pair.copy(alloc)?, Cut::Nothing, DiskChoice::AsRead)?;
            same(rt, "how a reboot fails", k, &ended.end, &Err(fail));
        }
        Row::Is(block, w, word) => same(rt, "the disk", k, &pair.disk_word(block, w), &word),
    }
    Ok(())
}

/// Goes over all rows.
fn go_over(rt: &impl Abort, alloc: Global, trial: Trial) -> Result<(), Fail> {
    let mut pair = Pair::new(alloc)?;
    for (k, row) in ROWS.iter().enumerate() {
        make(rt, alloc, k, trial, *row, &mut pair)?;
    }
    Ok(())
}

#[test]
fn pairs_are_booted(rt: HostRuntime) -> Result<(), Fail> {
    go_over(&rt, rt.alloc(), Trial::Told)
}

#[test]
fn reboots_are_stopped(rt: HostRuntime) -> Result<(), Fail> {
    go_over(&rt, rt.alloc(), Trial::Stops)
}

#[test]
fn calls_of_reboots_fail(rt: HostRuntime) -> Result<(), Fail> {
    go_over(&rt, rt.alloc(), Trial::Faults)
}
