//! The warm reboot: after a stop at any step it brings the pages that memory holds to the disk, and starts a cache on it.
#![tactic(auto)]

mod booting;
mod examining;
mod marking;
mod misfits;
mod report;
mod starting;

pub use booting::boot;
pub use examining::examine;
pub use marking::{entry_fits, mark_stale};
pub use report::{BootError, BootFail, BootReport};
pub use starting::start;
