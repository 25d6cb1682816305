//! The bench that tells nothing.

ghost use Rattle.std.specs.Prelude.{◌≡◌, false, None};

use crate::bench::Bench;
use crate::making::make_board;
use board::Board;
use phys_memory::Memory;
use rio_base::{BLOCK_WORDS, DiskBlocks};
use std::alloc::{AllocError, Global};

/// A bench that makes a board, and keeps nothing of it.
#[derive(Drop)]
pub struct BoardBench {
    /// How many pages its board has.
    pages: Option<u32>,
    /// The board was taken back.
    parted: bool,
}

impl BoardBench {
    /// A bench that has made no machine.
    pub fn new() -> BoardBench
        ensures pages { result.pages ≡ None }
        ensures parted { result.parted ≡ false }
    {
        BoardBench {
            pages: None,
            parted: false,
        }
    }
}

impl<D: DiskBlocks> Bench<D> for BoardBench {
    type M = Board<Memory, D>;

    ghost pages = { λ b. b.pages };

    ghost parted = { λ b. b.parted };

    ghost tells_start = { λ b. false };

    ghost tells = { λ b. false };

    ghost began = { λ b. None };

    ghost left = { λ b. None };

    fn make(
        &mut self,
        alloc: Global,
        words: &Vec<u64>,
        disk: D,
        scratch: u32,
        stop_after: Option<u64>,
    ) -> Result<Board<Memory, D>, (D, AllocError)> {
        let board = make_board(alloc, words, disk, scratch, stop_after)?;
        self.pages = Some((words.len() / BLOCK_WORDS) as u32);
        self.parted = false;
        Ok(board)
    }

    fn part(&mut self, machine: Board<Memory, D>) -> D {
        let (_, disk) = machine.into_parts();
        self.parted = true;
        disk
    }
}
