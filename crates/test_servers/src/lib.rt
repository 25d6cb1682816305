//! Servers for tests: cores of any size, over disks that may fail, served from lines in memory; and one that answers by the
//! plain definition.
#![tactic(auto)]

mod fresh_machine;
mod plain_server;
mod served;

pub use fresh_machine::{MemBoard, fresh_core, fresh_disk};
pub use plain_server::{Plain, text_of};
pub use served::{BadBlock, MachineSizes, NO_BAD_BLOCK, Served, Sizes, checked, serve_lines_of};
