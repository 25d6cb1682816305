//! Directories: entries as the words of their pages; names looked up, listed, and read to be held in memory; rows that are
//! added, set or removed, by changes that are prepared and then made in an update.
#![tactic(auto)]

mod applying;
mod changes;
mod entries;
mod finding;
mod holding;
mod listing;
mod pages;
mod planning;
mod removing;
mod storing;

pub use applying::apply;
pub use changes::DirChange;
pub use entries::entry_ino;
pub use finding::{find, find_at_inode, row_at};
pub use holding::hold_names;
pub use listing::names;
pub use planning::{plan_add, plan_set};
pub use removing::{plan_remove, plan_replace};
