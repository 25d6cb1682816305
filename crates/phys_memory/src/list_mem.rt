//! Words of memory in a vector.

ghost use Rattle.std.specs.Prelude.{◌≡◌, ◌<◌, ◌*◌, ◌^◌, IfOk, length, replicate};

use crate::MOST_PAGES;
use rio_base::{MemWords, Page, WordAt};
use std::alloc::{AllocError, Global};

/// Memory that is a list of words, fewer than 4,294,967,296. [`ListMem::new`] alone takes memory, and no other call fails.
#[derive(Drop)]
pub struct ListMem {
    words: Vec<u64>,
    ghost small: { length words.items < 2 ^ 32 },
}

impl ListMem {
    ghost use Rattle.phys_memory.specs.ListMem.{words_of};

    /// So many pages of zeros, 512 words each. The error means that there was no room for them. There is none for more
    /// than 8,388,607 pages, whose words no `u32` counts.
    pub fn new(alloc: Global, pages: u32) -> Result<ListMem, AllocError>
        ensures zeros { IfOk result (λ m. words_of m ≡ replicate (512 * pages) 0) }
    {
        if pages > MOST_PAGES {
            return Err(AllocError);
        }
        let words = vec![in alloc; 0; 512 * pages as usize]?;
        Ok(ListMem { words })
    }

    /// Memory of these words. It takes over the vector, and copies nothing.
    pub fn from_words(words: Vec<u64>) -> ListMem
        requires small { length words.items < 2 ^ 32 }
        ensures words { words_of result ≡ words.items }
    {
        ListMem { words }
    }

    /// The words, with the vector that they are in.
    pub fn into_words(self) -> Vec<u64>
        ensures words { result.items ≡ words_of self }
    {
        self.words
    }
}

impl MemWords for ListMem {
    ghost use Rattle.phys_memory.specs.ListMem.{words_of};

    ghost words = { words_of };

    ghost small = { λ m. m.small };

    fn len(&self) -> u32 {
        self.words.len() as u32
    }

    fn load(&self, at: WordAt) -> u64 {
        self.words[at.0 as usize]
    }

    fn store(&mut self, at: WordAt, v: u64) {
        self.words[at.0 as usize] = v;
    }

    #[tactic(auto, using(crate::proofs::Spans::run_stored))]
    fn store_run(&mut self, at: WordAt, from: &[u64]) {
        let at = at.0 as usize;
        self.words[at..at + from.len()].copy_from_slice(from);
    }

    #[tactic(auto, using(crate::proofs::Spans::page_span))]
    fn frame(&self, p: Page) -> &[u64] {
        let from = 512 * p.0 as usize;
        &self.words[from..from + 512]
    }

    fn copy_words(&mut self, from: WordAt, to: WordAt, n: u32) {
        let from = from.0 as usize;
        self.words
            .copy_within(from..from + n as usize, to.0 as usize);
    }
}
