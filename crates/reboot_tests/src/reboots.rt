//! Pairs that are booted, and what comes of it.

ghost use Rattle.std.specs.Prelude.{◌≡◌, None, length, true};
ghost use Rattle.rio_base.specs.Image.{HasHeader};
ghost use Rattle.rio_model.specs.Registry.{HasLayout};

use crate::pairs::Pair;
use block_disk::{DiskChoice, MemDisk};
use board::Board;
use phys_memory::ListMem;
use rio_base::{Block, DiskBlocks, Machine, WordAt};
use std::alloc::{AllocError, Global};
use warm_reboot::{BootError, BootFail, BootReport, boot};

/// What is cut off.
#[derive(Clone, Copy, Debug)]
pub(crate) enum Cut {
    Nothing,
    /// The machine stops after so many steps.
    Stop(u64),
    /// This call on the disk fails, from 1 on.
    Fault(u64),
    /// No read of this block succeeds.
    Reads(u32),
}

/// How a reboot ended, and the pair that it left.
#[derive(Drop)]
pub(crate) struct Ended {
    pub(crate) end: Result<BootReport, BootFail>,
    pub(crate) pair: Pair,
}

/// The words of block `b`.
fn block_words(alloc: Global, disk: &mut MemDisk, b: u32) -> Result<Vec<u64>, AllocError> {
    let mut block = vec![in alloc; 0; 512]?;
    if disk.count() <= b {
        return Err(AllocError);
    }
    match disk.read(Block(b), &mut block) {
        Ok(()) => Ok(block),
        Err(_) => Err(AllocError),
    }
}

/// The words of a disk after it crashed so.
fn words_of(alloc: Global, disk: MemDisk, choice: DiskChoice) -> Result<Vec<u64>, AllocError> {
    let mut disk = disk;
    disk.drop_fails();
    disk.after_crash(choice);
    let mut words = Vec::new(alloc);
    for b in 0..disk.count() {
        let block = block_words(alloc, &mut disk, b)?;
        words.extend_from_slice(&block)?;
    }
    Ok(words)
}

/// A board over this memory of 51 pages and this disk, with one page of scratch.
fn board_of(memory: Vec<u64>, disk: MemDisk, stop_after: Option<u64>) -> Board<ListMem, MemDisk>
    requires memory { length memory.items ≡ 26112 }
    ensures words { length (⟦<Board<ListMem, MemDisk> as Machine>⟧.contents result).words ≡ 25600 }
    ensures scratch { length (⟦<Board<ListMem, MemDisk> as Machine>⟧.run result).scratch ≡ 512 }
    ensures closed { (⟦<Board<ListMem, MemDisk> as Machine>⟧.contents result).open_page ≡ None }
{
    Board::new(ListMem::from_words(memory), disk, 1, stop_after)
}

/// A disk of these words, which this befalls.
fn disk_of_words(alloc: Global, words: &[u64], cut: Cut) -> Result<MemDisk, AllocError> {
    if words.len() != 8_192 {
        return Err(AllocError);
    }
    let mut disk = MemDisk::from_words(alloc, words)?;
    match cut {
        Cut::Nothing | Cut::Stop(_) => {}
        Cut::Fault(n) => disk.fail_call(n.max(1))?,
        Cut::Reads(b) => disk.fail_reads(Block(b), u64::MAX),
    }
    Ok(disk)
}

/// The steps after which the machine stops.
fn stop_after(cut: Cut) -> Option<u64> {
    match cut {
        Cut::Stop(n) => Some(n),
        Cut::Nothing | Cut::Fault(_) | Cut::Reads(_) => None,
    }
}

/// Whether memory has the header of an image of 32 frames and one scratch page.
#[tactic(auto, using(crate::proofs::Layouts::layout_of))]
fn is_image<M: Machine>(m: &M) -> bool
    requires words { length (M.contents m.now).words ≡ 25600 }
    requires scratch { length (M.run m.now).scratch ≡ 512 }
    ensures header { result ≡ true → HasHeader (M.contents m.now).words }
    ensures layout { result ≡ true → HasLayout (M.contents m.now).words (M.run m.now).scratch }
{
    if m.load(WordAt(0)) != 0x4548_4341_434f_4952 {
        return false;
    }
    if m.load(WordAt(1)) != 1 {
        return false;
    }
    if m.load(WordAt(2)) != 32 {
        return false;
    }
    m.load(WordAt(3)) == 1
}

/// Boots a pair. Afterwards the disk crashes so: what was pending reads as is chosen.
pub(crate) fn reboot(
    alloc: Global,
    pair: Pair,
    cut: Cut,
    choice: DiskChoice,
) -> Result<Ended, AllocError> {
    let Pair { memory, disk } = pair;
    if memory.len() != 26_112 {
        return Err(AllocError);
    }
    let disk = disk_of_words(alloc, &disk, cut)?;
    let machine = board_of(memory, disk, stop_after(cut));
    if !is_image(&machine) {
        return Err(AllocError);
    }
    let (end, machine) = match boot(alloc, machine) {
        Ok((cache, report)) => (Ok(report), cache.into_machine()),
        Err(BootError { machine, fail }) => (Err(fail), machine),
    };
    let (memory, disk) = machine.into_parts();
    let disk = words_of(alloc, disk, choice)?;
    let pair = Pair {
        memory: memory.into_words(),
        disk,
    };
    Ok(Ended { end, pair })
}
