//! The rules of an image's gate and registry, looked at in its words.

ghost use Rattle.std.specs.Prelude.{◌≡◌, ℕ, List, IfOk, IfErr, OnOk, slice_index};
ghost use Rattle.board.specs.Boards.{protected_of, scratch_of};
ghost use Rattle.image_codec.specs.Image.{IsImage};
ghost use Rattle.rio_model.specs.Registry.{HasLayout, KeepsRegistry};
ghost use Rattle.pair_files.specs.Images.{IsImageOf};
ghost use Rattle.pair_files.specs.Loads.{FailsBytes};

use crate::failures::LoadFail;
use block_disk::MemDisk;
use board::Board;
use phys_memory::{Memory, memory_of};
use registry::{BadImage, check_image};
use rio_base::Machine;
use std::alloc::{AllocError, Global};

/// Looks at the rules 5 to 12 of an image's words, of which so many pages are scratch. The answer is the first that fails.
pub(crate) fn check_words(alloc: Global, words: &Vec<u64>, scratch: u32) -> Result<(), LoadFail>
    requires image { IsImage words.now.items }
    requires scratch { scratch ≡ slice_index words.now.items 3 }
    ensures layout { HasLayout (protected_of words.now.items scratch) (scratch_of words.now.items scratch) }
    ensures keeps { OnOk result (KeepsRegistry (protected_of words.now.items scratch)) }
    ensures fails { IfErr result (λ fail. (bytes : List ℕ) → IsImageOf bytes words.now.items → FailsBytes fail bytes) }
{
    let Ok(board) = board_of(alloc, words, scratch) else {
        return Err(LoadFail::Memory);
    };
    match check_image(&board) {
        Ok(()) => Ok(()),
        Err(BadImage(rule)) => Err(LoadFail::BadImage(rule)),
    }
}

/// A machine that has an image's words, of which so many pages are scratch, and a disk without blocks: what looks at a registry
/// looks at that of a machine.
pub fn board_of(
    alloc: Global,
    words: &Vec<u64>,
    scratch: u32,
) -> Result<Board<Memory, MemDisk>, AllocError>
    requires image { IsImage words.now.items }
    requires scratch { scratch ≡ slice_index words.now.items 3 }
    ensures words { IfOk result (λ board. (⟦<Board<Memory, MemDisk> as Machine>⟧.contents board).words ≡ protected_of words.now.items scratch) }
    ensures scratch { IfOk result (λ board. (⟦<Board<Memory, MemDisk> as Machine>⟧.run board).scratch ≡ scratch_of words.now.items scratch) }
    ensures layout { HasLayout (protected_of words.now.items scratch) (scratch_of words.now.items scratch) }
{
    let disk = MemDisk::new(alloc, 0)?;
    let mem = memory_of(alloc, words)?;
    Ok(Board::new(mem, disk, scratch, None))
}
