//! What is kept of a machine: how it began, and how it was left.

ghost use Rattle.std.specs.Prelude.{◌≡◌, ◌<◌, ◌≤◌, ◌+◌, ◌*◌, IfOk, length};
ghost use Rattle.rio_base.specs.Disks.{block_at, blocks_of};
ghost use Rattle.rio_base.specs.Memory.{page_at};
ghost use Rattle.machine_bench.specs.Benches.{began_of, left_of};

use block_disk::HostDisk;
use phys_memory::Memory;
use rio_base::{BLOCK_WORDS, Block, DiskBlocks, Host, MemWords, Page, WordAt};
use std::alloc::{AllocError, Global};

/// How a machine began.
#[derive(Drop)]
pub struct KeptStart {
    /// The words of memory, those of the scratch pages last.
    pub words: Vec<u64>,
    /// The words of the disk's blocks, 512 of each, one block behind the other.
    pub blocks: Vec<u64>,
    /// How many pages were scratch.
    pub scratch: u32,
    /// After how many steps it was to stop, if it was.
    pub stop_after: Option<u64>,
}

impl KeptStart {
    /// Keeps what a machine is to begin with. The error means that there was no room for it.
    pub(crate) fn keep<H: Host>(
        alloc: Global,
        words: &Vec<u64>,
        disk: &HostDisk<H>,
        scratch: u32,
        stop_after: Option<u64>,
    ) -> Result<KeptStart, AllocError>
        ensures { IfOk result (λ k. began_of k ≡ record { words = words.now.items; blocks = (⟦<HostDisk<H> as DiskBlocks>⟧.contents disk.now).blocks; scratch = scratch; stop = stop_after }) }
    {
        let words = Vec::from_slice(alloc, words)?;
        let blocks = words_on(alloc, disk)?;
        Ok(KeptStart {
            words,
            blocks,
            scratch,
            stop_after,
        })
    }
}

/// How a machine was left.
#[derive(Drop)]
pub struct KeptEnd {
    /// Its memory, which it had from the start: so no room is taken for this.
    pub(crate) memory: Memory,
    /// How many calls of its disk failed, up to the largest `u64`.
    pub faults: u64,
    /// It was stopped.
    pub stopped: bool,
    /// The place of the wild store that trapped, if one did.
    pub trapped: Option<WordAt>,
}

impl KeptEnd {
    /// How many words memory had.
    pub fn len(&self) -> u32
        ensures { result ≡ length (left_of self.now).words }
    {
        self.memory.len()
    }

    /// Lends the 512 words of a page.
    pub fn frame(&self, p: Page) -> &[u64]
        requires { 512 * p.0 + 512 ≤ length (left_of self.now).words }
        ensures { result.now ≡ page_at (left_of self.now).words p.0 }
    {
        self.memory.frame(p)
    }
}

/// The words of a disk's blocks.
fn words_on<H: Host>(alloc: Global, disk: &HostDisk<H>) -> Result<Vec<u64>, AllocError>
    ensures { IfOk result (λ words. blocks_of words.items ≡ (⟦<HostDisk<H> as DiskBlocks>⟧.contents disk.now).blocks) }
{
    let count = disk.count();
    let mut words = Vec::with_capacity(alloc, BLOCK_WORDS * count as usize)?;
    for b in 0..count {
        block_is_whole(disk, Block(b));
        words.extend_from_slice(disk.frame(Block(b)))?;
    }
    Ok(words)
}

/// A block has 512 words.
fn block_is_whole<D: DiskBlocks>(disk: &D, b: Block)
    requires { b.0 < length (D.contents disk.now).blocks }
    ensures { length (block_at (D.contents disk.now).blocks b.0) ≡ 512 }
{}
