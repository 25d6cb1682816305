//! The recoverable heap of a region: blocks of units of 64 bytes, taken by first fit and given back under its undo list.
#![tactic(auto)]

mod allocating;
mod bits;
mod changing;
mod extents;
mod failures;
mod fitting;
mod listing;
mod marking;

pub use allocating::{allocate, release};
pub use failures::HeapFail;
pub use listing::blocks;
