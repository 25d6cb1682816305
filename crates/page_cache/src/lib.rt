//! The page cache of a machine: a volume whose blocks lie in protected memory.
#![tactic(auto)]

mod ahead;
mod cache;
mod reading;
mod volume;

pub use cache::PageCache;
pub use cached_pages::CacheTables;
