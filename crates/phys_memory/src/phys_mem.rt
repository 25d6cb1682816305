//! Words of memory in one raw block.

ghost use Rattle.std.specs.Prelude.{◌≡◌, ◌<◌, ◌≤◌, ◌+◌, ◌*◌, ◌^◌, IfOk, length, replicate};
ghost use Rattle.rio_base.specs.Memory.{AreApart, copied_words};

use crate::MOST_PAGES;
use crate::raw_words::{Lease, RawWords};
use rio_base::{MemWords, Page, WordAt};
use std::alloc::{AllocError, Global};

/// Memory in one raw block of words, fewer than 4,294,967,296, which goes back to the allocator where the memory is dropped.
/// [`PhysMem::new`] and [`PhysMem::of_words`] alone take memory, and no other call fails.
pub struct PhysMem {
    block: RawWords,
    lease: Lease<Global>,
    len: u32,
    alloc: Global,
    ghost whole: { (block.left ≡ 0) × (len ≡ length block.words) },
    ghost leased: { (lease.ptr ≡ block.ptr) × (lease.count ≡ len) × (lease.alloc ≡ alloc) },
    ghost small: { length block.words < 2 ^ 32 },
}

impl PhysMem {
    ghost use Rattle.phys_memory.specs.PhysMem.{words_of};

    /// So many pages of zeros, 512 words each. The error means that there was no room for them. There is none for more
    /// than 8,388,607 pages, whose words no `u32` counts.
    pub fn new(alloc: Global, pages: u32) -> Result<PhysMem, AllocError>
        ensures zeros { IfOk result (λ m. words_of m ≡ replicate (512 * pages) 0) }
    {
        if pages > MOST_PAGES {
            return Err(AllocError);
        }
        let len = 512 * pages;
        let (mut block, lease) = RawWords::allocate(&alloc, len as usize)?;
        for at in 0..len as usize {
            block.push(at, 0);
        }
        Ok(PhysMem {
            block,
            lease,
            len,
            alloc,
        })
    }

    /// Memory of a copy of these words. The error means that there was no room for them.
    pub fn of_words(alloc: Global, words: &[u64]) -> Result<PhysMem, AllocError>
        requires small { length words.now < 2 ^ 32 }
        ensures words { IfOk result (λ m. words_of m ≡ words.now) }
    {
        let (mut block, lease) = RawWords::allocate(&alloc, words.len())?;
        for at in 0..words.len() {
            block.push(at, words[at]);
        }
        Ok(PhysMem {
            block,
            lease,
            len: words.len() as u32,
            alloc,
        })
    }
}

impl Drop for PhysMem {
    fn drop(self) {
        let PhysMem {
            block,
            lease,
            len,
            alloc,
        } = self;
        block.free(lease, &alloc, len as usize);
    }
}

impl MemWords for PhysMem {
    ghost use Rattle.phys_memory.specs.PhysMem.{words_of};

    ghost words = { words_of };

    ghost small = { λ m. m.small };

    fn len(&self) -> u32 {
        self.len
    }

    fn load(&self, at: WordAt) -> u64 {
        self.block.load(at.0 as usize)
    }

    fn store(&mut self, at: WordAt, v: u64) {
        self.block.store(at.0 as usize, v);
    }

    #[tactic(auto, using(crate::proofs::Spans::run_stored))]
    fn store_run(&mut self, at: WordAt, from: &[u64]) {
        let at = at.0 as usize;
        let words = self.block.words_mut(self.len as usize);
        words[at..at + from.len()].copy_from_slice(from);
    }

    #[tactic(auto, using(crate::proofs::Spans::page_span))]
    fn frame(&self, p: Page) -> &[u64] {
        self.block.run(512 * p.0 as usize, 512)
    }

    fn copy_words(&mut self, from: WordAt, to: WordAt, n: u32) {
        let words = self.block.words_mut(self.len as usize);
        copy_apart(words, from.0 as usize, to.0 as usize, n as usize);
    }
}

/// Copies `n` words to another place, which has none of them. That they are apart lets it be one call of the C library's, where
/// `copy_within` is a loop.
fn copy_apart(words: &mut [u64], from: usize, to: usize, n: usize)
    requires from { from + n ≤ length words.old }
    requires to { to + n ≤ length words.old }
    requires apart { AreApart from to n }
    ensures { words.new ≡ copied_words words.old from to n }
{
    if from < to {
        let (front, back) = words.split_at_mut(to);
        back[..n].copy_from_slice(&front[from..from + n]);
    } else {
        let (front, back) = words.split_at_mut(from);
        front[to..to + n].copy_from_slice(&back[..n]);
    }
}
