//! The bench that tells how its machine began and how it was left.

ghost use Rattle.std.specs.Prelude.{◌≡◌, true, None, is_some};
ghost use Rattle.std.specs.Option.{option_copied};

use crate::bench::Bench;
use crate::kept::{KeptEnd, KeptStart};
use crate::making::make_board;
use block_disk::HostDisk;
use board::Board;
use phys_memory::Memory;
use rio_base::{Host, Machine};
use std::alloc::{AllocError, Global};

/// A bench that makes a board, and keeps what it began with and how it was left. What this takes of memory is taken where the
/// board is made.
#[derive(Drop)]
pub struct KeepBench {
    began: Option<KeptStart>,
    left: Option<KeptEnd>,
}

impl KeepBench {
    /// A bench that has made no machine.
    pub fn new() -> KeepBench
        ensures began { result.began ≡ None }
        ensures left { result.left ≡ None }
    {
        KeepBench {
            began: None,
            left: None,
        }
    }

    /// What the machine began with, or `None` where none was made.
    pub fn began(&self) -> Option<&KeptStart>
        ensures { option_copied result ≡ self.now.began }
    {
        self.began.as_ref()
    }

    /// How the machine was left, or `None` where none was taken back.
    pub fn left(&self) -> Option<&KeptEnd>
        ensures { option_copied result ≡ self.now.left }
    {
        self.left.as_ref()
    }
}

impl<H: Host> Bench<HostDisk<H>> for KeepBench {
    ghost use Rattle.std.specs.Option.{option_map};
    ghost use Rattle.machine_bench.specs.Benches.{began_of, left_of, pages_of};

    type M = Board<Memory, HostDisk<H>>;

    ghost pages = { λ b. option_map pages_of b.began };

    ghost parted = { λ b. is_some b.left };

    ghost tells_start = { λ b. true };

    ghost tells = { λ b. true };

    ghost began = { λ b. option_map began_of b.began };

    ghost left = { λ b. option_map left_of b.left };

    fn make(
        &mut self,
        alloc: Global,
        words: &Vec<u64>,
        disk: HostDisk<H>,
        scratch: u32,
        stop_after: Option<u64>,
    ) -> Result<Board<Memory, HostDisk<H>>, (HostDisk<H>, AllocError)> {
        let began = match KeptStart::keep(alloc, words, &disk, scratch, stop_after) {
            Ok(began) => began,
            Err(error) => return Err((disk, error)),
        };
        let board = make_board(alloc, words, disk, scratch, stop_after)?;
        self.began = Some(began);
        self.left = None;
        Ok(board)
    }

    fn part(&mut self, machine: Board<Memory, HostDisk<H>>) -> HostDisk<H> {
        let stopped = machine.stopped();
        let trapped = machine.trapped();
        let (memory, disk) = machine.into_parts();
        self.left = Some(KeptEnd {
            memory,
            faults: disk.faults(),
            stopped,
            trapped,
        });
        disk
    }
}
