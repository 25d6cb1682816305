//! Looks at memory and disk that are made by hand, with what must be found: 32 frames, one page of scratch, and a volume of
//! 16 blocks with a file of two pages.

ghost use Rattle.std.specs.Prelude.{◌≡◌, ◌<◌, ◌≤◌, ◌-◌, ◌%◌, None, IfOk, IsTrue, length};
ghost use Rattle.phys_memory.specs.ListMem.{words_of};
ghost use Rattle.rio_model.specs.Registry.{HasLayout};

use crate::same::same;
use block_disk::MemDisk;
use board::Board;
use phys_memory::ListMem;
use registry::{Entry, Tag};
use rio_base::{Block, Machine, VolumeShape, WordAt};
use rio_model::Census;
use std::alloc::{AllocError, Global};
use std::test::Fail;
use warm_reboot::{BootFail, examine};

/// The words of memory, 51 pages.
const WORDS: usize = 26_112;

/// No entry.
const NONE: Entry = Entry {
    tag: 0,
    file: 0,
    index: 0,
    size: 0,
    shadow: 0,
};

/// What there is on the volume.
const CENSUS: Census = Census {
    shape: VolumeShape {
        version: 1,
        blocks: 16,
        inodes: 32,
    },
    dirs: 1,
    files: 1,
    regions: 0,
    used: 3,
    free: 10,
};

/// A clean entry of metadata.
fn metadata(block: u32) -> Entry {
    Entry {
        tag: Tag::of(Block(block), false, false).0,
        file: 0,
        index: 0,
        size: 4096,
        shadow: 0,
    }
}

/// An entry of a page of a file.
fn page(block: u32, dirty: bool, file: u64, index: u64, size: u64) -> Entry {
    Entry {
        tag: Tag::of(Block(block), dirty, true).0,
        file,
        index,
        size,
        shadow: 0,
    }
}

/// Puts an entry among the first two.
fn put_entry(words: &mut [u64], k: usize, entry: &Entry)
    requires entry { k ≤ 1 }
    requires room { 12000 ≤ length words.old }
    ensures { length words.new ≡ length words.old }
{
    words[512 + 5 * k] = entry.tag;
    words[513 + 5 * k] = entry.file;
    words[514 + 5 * k] = entry.index;
    words[515 + 5 * k] = entry.size;
    words[516 + 5 * k] = entry.shadow;
}

/// A memory of so many words with this gate and these entries, whose frames have zeros.
fn image_of(
    alloc: Global,
    count: usize,
    gate: u64,
    entries: &[Entry; 2],
) -> Result<Vec<u64>, AllocError>
    requires room { 12000 ≤ count }
    ensures { IfOk result (λ words. length words.items ≡ count) }
{
    let mut words = vec![in alloc; 0u64; count]?;
    words[2] = 32;
    words[3] = 1;
    words[4] = gate;
    put_entry(&mut words, 0, &entries[0]);
    put_entry(&mut words, 1, &entries[1]);
    Ok(words)
}

/// A disk with file `/f` of 5,000 bytes, which is inode 2 and has blocks 4 and 5. The root has block 3.
fn disk_of(alloc: Global) -> Result<MemDisk, AllocError> {
    let mut words = vec![in alloc; 0u64; 8_192]?;
    words[0] = 0x4d55_4c4f_564f_4952; // RIOVOLUM
    words[1] = 1;
    words[2] = 16;
    words[3] = 32;
    words[512] = 0b11_1111; // the bitmap
    words[1_024] = 1; // inode 1
    words[1_025] = 64;
    words[1_026] = 3;
    words[1_040] = 2; // inode 2
    words[1_041] = 5_000;
    words[1_042] = 0x5_0000_0004;
    words[1_536] = 0x1_0000_0002; // the root's entry
    words[1_537] = 0x66;
    MemDisk::from_words(alloc, &words)
}

/// A board over this memory and this disk, with one page of scratch.
fn board_of(mem: ListMem, disk: MemDisk) -> Board<ListMem, MemDisk>
    requires pages { length (words_of mem) % 512 ≡ 0 }
    requires room { 512 < length (words_of mem) }
    ensures words { length (⟦<Board<ListMem, MemDisk> as Machine>⟧.contents result).words ≡ length (words_of mem) - 512 }
    ensures scratch { length (⟦<Board<ListMem, MemDisk> as Machine>⟧.run result).scratch ≡ 512 }
    ensures closed { (⟦<Board<ListMem, MemDisk> as Machine>⟧.contents result).open_page ≡ None }
{
    Board::new(mem, disk, 1, None)
}

/// Whether the machine's header says what its sizes are.
#[tactic(auto, using(crate::proofs::Layouts::layout_of))]
fn has_layout<M: Machine>(m: &M) -> bool
    requires words { length (M.contents m.now).words ≡ 25600 }
    requires scratch { length (M.run m.now).scratch ≡ 512 }
    ensures { IsTrue result → HasLayout (M.contents m.now).words (M.run m.now).scratch }
{
    if m.load(WordAt(2)) != 32 {
        return false;
    }
    m.load(WordAt(3)) == 1
}

/// What is found of a machine.
fn census_of<M: Machine + Drop>(alloc: Global, m: M) -> Result<Census, BootFail>
    requires words { length (M.contents m).words ≡ 25600 }
    requires scratch { length (M.run m).scratch ≡ 512 }
    requires closed { (M.contents m).open_page ≡ None }
{
    if !has_layout(&m) {
        return Err(BootFail::BadImage(1));
    }
    match examine(alloc, m) {
        Ok((_, census)) => Ok(census),
        Err(failed) => Err(failed.fail),
    }
}

/// A volume that breaks this rule, which the block tells.
fn bad(rule: u8, block: u32) -> Result<Census, BootFail> {
    Err(BootFail::BadVolume(rule, Block(block)))
}

/// A memory, and whether the first read of the disk fails.
#[derive(Clone, Copy)]
struct Case {
    gate: u64,
    entries: [Entry; 2],
    fails: bool,
}

/// A memory with two entries, where no call fails and no update is open.
fn pair(first: Entry, second: Entry) -> Case {
    Case {
        gate: 0,
        entries: [first, second],
        fails: false,
    }
}

fn answer_to(alloc: Global, case: &Case) -> Result<Result<Census, BootFail>, Fail> {
    let mem = ListMem::from_words(image_of(alloc, WORDS, case.gate, &case.entries)?);
    let mut disk = disk_of(alloc)?;
    if case.fails {
        disk.fail_call(1)?;
    }
    Ok(census_of(alloc, board_of(mem, disk)))
}

#[test]
fn first_broken_rule_is_told(rt: HostRuntime) -> Result<(), Fail> {
    let rows = [
        (pair(NONE, NONE), Ok(CENSUS)),
        (
            pair(page(4, false, 2, 0, 4096), page(5, true, 2, 1, 904)),
            Ok(CENSUS),
        ),
        (pair(page(5, false, 2, 1, 903), NONE), bad(12, 5)),
        (
            pair(page(5, true, 2, 0, 904), page(4, false, 2, 1, 4096)),
            bad(12, 4),
        ),
        (pair(metadata(4), NONE), bad(12, 4)),
        (pair(page(9, false, 7, 3, 1), metadata(10)), Ok(CENSUS)),
        (
            pair(page(200, true, 2, 0, 4096), page(90, false, 2, 0, 4096)),
            bad(12, 90),
        ),
        (pair(page(16, false, 2, 0, 4096), NONE), bad(12, 16)),
        (pair(metadata(2), NONE), bad(3, 2)),
        (pair(page(3, false, 2, 0, 4096), NONE), bad(8, 2)),
        (
            pair(metadata(9), page(9, true, 2, 0, 4096)),
            Err(BootFail::BadImage(7)),
        ),
        (
            Case {
                gate: 2,
                entries: [NONE; 2],
                fails: false,
            },
            Err(BootFail::BadImage(5)),
        ),
        (
            Case {
                gate: 0,
                entries: [NONE; 2],
                fails: true,
            },
            Err(BootFail::Fault),
        ),
    ];
    for row in 0..rows.len() {
        let (case, due) = rows[row];
        same(&rt, "examine", row, &answer_to(rt.alloc(), &case)?, &due);
    }
    Ok(())
}
