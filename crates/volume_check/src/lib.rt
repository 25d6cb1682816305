//! Whether blocks are a volume, which of the rules of a volume fails first, and what there is on it.
#![tactic(auto)]

mod bitmap;
mod census;
mod entries;
mod failures;
mod held;
mod inode_rules;
mod inodes;
mod mark_rules;
mod name_counts;
mod names;
mod node_rules;
mod node_words;
mod numbers;
mod owners;
mod reaching;
mod reading;
mod region_heap;
mod region_records;
mod region_words;
mod regions;
mod superblock;
mod tree;
mod volume;

pub use failures::CheckFail;
pub use volume::{check_volume, look_at_volume};
