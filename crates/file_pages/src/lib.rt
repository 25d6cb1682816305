//! The bytes of a file in its pages: read, written, and as many as a change of its size leaves.
#![tactic(auto)]

mod clearing;
mod committing;
mod extending;
mod failures;
mod forgetting;
mod overwriting;
mod pieces;
mod reading;
mod resizing;
mod spans;
mod updating;
mod writing;

pub use pieces::{fill_words, stored_bytes};
pub use reading::{read, read_at_inode};
pub use resizing::{resize, resize_at_inode};
pub use writing::{write, write_at_inode};
