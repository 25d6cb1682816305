//! The tree of names over any volume: paths are walked, and names looked up, by what is held in memory of it, a [`Memo`].
#![tactic(auto)]

mod finding;
mod last_path;
mod memo;
mod paths;
mod walking;

pub use finding::look_up_in;
pub use memo::Memo;
pub use paths::{cut_last, is_below, is_root};
pub use walking::{Row, dir_without, inode_of, node_inode, walk, walk_to_dir, walk_to_row};
