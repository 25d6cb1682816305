//! Changes of several nodes that one update makes stand together, over any volume.
#![tactic(auto)]

mod changes;
mod committing;

pub use changes::{NodeChange, empty_inode, node_gone, node_made, node_sized};
pub use committing::commit_planned;
