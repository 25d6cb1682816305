//! Boards, made of words and a disk.

ghost use Rattle.std.specs.Prelude.{◌≡◌, ◌<◌, ◌*◌, ◌%◌, ◌^◌, IfOk, IfErr, length};
ghost use Rattle.machine_bench.specs.Benches.{made_contents, made_run};

use board::Board;
use phys_memory::{Memory, memory_of};
use rio_base::{DiskBlocks, Machine};
use std::alloc::{AllocError, Global};

/// The board that has these words and this disk, as [`crate::Bench::make`] says.
pub(crate) fn make_board<D: DiskBlocks>(
    alloc: Global,
    words: &Vec<u64>,
    disk: D,
    scratch: u32,
    stop_after: Option<u64>,
) -> Result<Board<Memory, D>, (D, AllocError)>
    requires whole { length words.now.items % 512 ≡ 0 }
    requires room { 512 * scratch < length words.now.items }
    requires small { length words.now.items < 2 ^ 32 }
    ensures contents { IfOk result (λ m. ⟦<Board<Memory, D> as Machine>⟧.contents m ≡ made_contents words.now.items scratch (D.contents disk)) }
    ensures run { IfOk result (λ m. ⟦<Board<Memory, D> as Machine>⟧.run m ≡ made_run words.now.items scratch stop_after) }
    ensures back { IfErr result (λ back. back.0 ≡ disk) }
{
    match memory_of(alloc, words) {
        Ok(mem) => Ok(Board::new(mem, disk, scratch, stop_after)),
        Err(error) => Err((disk, error)),
    }
}
