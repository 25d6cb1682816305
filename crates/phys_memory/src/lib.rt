//! Physical memory as a list of words, which never fails: one raw block, and the list that stands for it in tests.
#![tactic(auto)]

mod list_mem;
mod memory;
mod phys_mem;
mod raw_words;

pub use list_mem::ListMem;
pub use memory::{Memory, memory_of};
pub use phys_mem::PhysMem;

/// The most pages whose words a `u32` counts.
pub(crate) const MOST_PAGES: u32 = 8_388_607;
