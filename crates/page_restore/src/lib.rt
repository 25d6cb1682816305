//! Pages that memory kept are brought back to the disk and their entries emptied, so that the disk alone counts afterwards.
#![tactic(auto)]

mod clearing;
mod kinds;
mod restoring;
mod settling;
mod writing;

pub use clearing::{clear_entries, shut_gate};
pub use kinds::{PageCounts, PageKind};
pub use restoring::restore;
pub use settling::settle;
pub use writing::{bring, count_due};
