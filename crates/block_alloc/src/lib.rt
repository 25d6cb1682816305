//! The bitmap of a volume: which blocks are free, the lowest of them, and one block marked used or free.
#![tactic(auto)]

mod counting;
mod marking;
mod taking;
mod words;

pub use counting::free_count;
pub use marking::{bitmap_block, mark, set_used, unmark};
pub use taking::{TakeFail, take};
pub use words::BITMAP;
