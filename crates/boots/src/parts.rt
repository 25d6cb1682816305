//! The memory and the disk of a machine, as they pass from one boot to the next.

ghost use Rattle.std.specs.Prelude.{◌≡◌, ◌<◌, ◌*◌, ◌%◌, ℕ, length};
ghost use Rattle.block_disk.specs.BlockLists.{AreWhole};
ghost use Rattle.machine_bench.specs.Benches.{made_contents, made_run};

use block_disk::MemDisk;
use board::Board;
use phys_memory::Memory;
use rio_base::{DiskBlocks, Machine, MemWords};

/// The memory and the disk of a machine, between two boots.
#[derive(Drop)]
pub struct Parts {
    /// The words of memory, those of scratch last.
    pub memory: Memory,
    /// The disk. No call of it is to fail.
    pub disk: MemDisk,
    /// How many calls of the disk were to fail so far.
    pub failing: u64,
}

/// A machine of this memory, of which so many pages are scratch, and this disk.
pub fn board_of<F: MemWords, D: DiskBlocks>(
    memory: F,
    disk: D,
    scratch: u32,
    stop_after: Option<u64>,
) -> Board<F, D>
    requires pages { length (F.words memory) % 512 ≡ 0 }
    requires room { 512 * scratch < length (F.words memory) }
    ensures contents { ⟦<Board<F, D> as Machine>⟧.contents result ≡ made_contents (F.words memory) scratch (D.contents disk) }
    ensures run { ⟦<Board<F, D> as Machine>⟧.run result ≡ made_run (F.words memory) scratch stop_after }
    ensures whole { AreWhole (D.contents disk).blocks }
{
    Board::new(memory, disk, scratch, stop_after)
}
