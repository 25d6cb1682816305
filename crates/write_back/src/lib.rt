//! Bringing dirty pages to the disk, so that they can be let go, or outlive the loss of memory.
#![tactic(auto)]

mod cleaning;
mod flushing;

pub use cleaning::{clean, evict, release, sync_disk, write_entry};
pub use flushing::flush;
