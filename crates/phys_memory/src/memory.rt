//! The memory that is served on.

ghost use Rattle.std.specs.Prelude.{◌≡◌, ◌<◌, ◌^◌, IfOk, length};
ghost use Rattle.phys_memory.specs.PhysMem.{words_of};

use crate::phys_mem::PhysMem;
use std::alloc::{AllocError, Global};

/// The memory that machines are made of, where they serve a volume or look at an image.
pub type Memory = PhysMem;

/// Memory of a copy of these words. The error means that there was no room for them.
pub fn memory_of(alloc: Global, words: &[u64]) -> Result<Memory, AllocError>
    requires small { length words.now < 2 ^ 32 }
    ensures words { IfOk result (λ m. words_of m ≡ words.now) }
{
    PhysMem::of_words(alloc, words)
}
