//! The inodes of a volume: read, stored in an update, and the least one that is free, by what is known of full blocks.
#![tactic(auto)]

mod finding;
mod full_blocks;
mod inode;
mod reading;
mod storing;

pub use finding::least_free;
pub use full_blocks::{FullBlocks, least_free_past_full};
pub use inode::{BLOCK_INODES, DIRECT_PAGES, INODE_WORDS, Inode, LARGEST_SIZE, inode_block};
pub use reading::read_inode;
pub use storing::edit_inode;
