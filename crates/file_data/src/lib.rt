//! Requests by path on the bytes of files, over any volume. Each call is given what is held in memory of the
//! volume, a [`file_tree::Memo`].
#![tactic(auto)]

mod data;

pub use data::{read, truncate, write};
