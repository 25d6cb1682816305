//! Machines in memory, for the tests: boards with one page of scratch.

ghost use Rattle.std.specs.Prelude.{◌≡◌, ◌<◌, ◌-◌, ◌%◌, false, None, IfOk, length, take, drop};
ghost use Rattle.block_disk.specs.MemDisks.{state_of};
ghost use Rattle.phys_memory.specs.ListMem.{words_of};

use block_disk::MemDisk;
use board::Board;
use phys_memory::ListMem;
use rio_base::Machine;
use std::alloc::{AllocError, Global};
use std::process::Abort;

/// What befalls a machine or its disk.
#[derive(Clone, Copy)]
pub(crate) enum Mishap {
    Nothing,
    /// This call of the disk fails, from 1 on.
    Fault(u64),
    /// The machine stops where a step is asked for beyond so many.
    Stop(u64),
}

impl Mishap {
    /// The steps before the stop, if there is one.
    pub(crate) fn stop_after(self) -> Option<u64> {
        match self {
            Mishap::Stop(n) => Some(n),
            Mishap::Nothing | Mishap::Fault(_) => None,
        }
    }
}

/// A disk of so many blocks of zeros, which this befalls.
pub(crate) fn disk_of(rt: &impl Abort, alloc: Global, blocks: u32, mishap: Mishap) -> MemDisk
    ensures { length (state_of result).blocks ≡ blocks }
{
    let Ok(mut disk) = MemDisk::new(alloc, blocks) else {
        panic!(rt; "no disk");
    };
    if let Mishap::Fault(n) = mishap {
        if 0 < n {
            let Ok(()) = disk.fail_call(n) else {
                panic!(rt; "no fault");
            };
        }
    }
    disk
}

/// A board in memory.
pub(crate) type MemBoard = Board<ListMem, MemDisk>;

/// A board over this memory and this disk, with one page of scratch.
pub(crate) fn board_on(mem: ListMem, disk: MemDisk, stop_after: Option<u64>) -> MemBoard
    requires pages { length (words_of mem) % 512 ≡ 0 }
    requires room { 512 < length (words_of mem) }
    ensures protected { (⟦<Board<ListMem, MemDisk> as Machine>⟧.contents result).words ≡ take (length (words_of mem) - 512) (words_of mem) }
    ensures rest { (⟦<Board<ListMem, MemDisk> as Machine>⟧.run result).scratch ≡ drop (length (words_of mem) - 512) (words_of mem) }
    ensures words { length (⟦<Board<ListMem, MemDisk> as Machine>⟧.contents result).words ≡ length (words_of mem) - 512 }
    ensures scratch { length (⟦<Board<ListMem, MemDisk> as Machine>⟧.run result).scratch ≡ 512 }
    ensures closed { (⟦<Board<ListMem, MemDisk> as Machine>⟧.contents result).open_page ≡ None }
    ensures disk { (⟦<Board<ListMem, MemDisk> as Machine>⟧.contents result).disk ≡ (state_of disk).blocks }
    ensures blocks { length (⟦<Board<ListMem, MemDisk> as Machine>⟧.contents result).disk ≡ length (state_of disk).blocks }
    ensures running { (⟦<Board<ListMem, MemDisk> as Machine>⟧.run result).stopped ≡ false }
{
    Board::new(mem, disk, 1, stop_after)
}

/// Words that are their own places.
pub(crate) fn counted(alloc: Global, count: usize) -> Result<Vec<u64>, AllocError>
    ensures { IfOk result (λ words. length words.items ≡ count) }
{
    let mut words = vec![in alloc; 0; count]?;
    for (at, word) in words.iter_mut().enumerate() {
        *word = at as u64;
    }
    Ok(words)
}
