//! Requests by path that remove nodes or move their names, over any volume. Each call is given what is
//! held in memory of the volume, a [`file_tree::Memo`].
#![tactic(auto)]

mod moving;
mod removing;
mod renaming;

pub use removing::{rmdir, unlink};
pub use renaming::rename;
