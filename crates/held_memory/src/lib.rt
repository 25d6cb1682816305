//! Memory that survives the program: each word is in a file as soon as it is stored.
//!
//! The Rio file cache of Chen, Ng, Chandra, Aycock, Rajamani and Lowell (ASPLOS 1996) makes memory itself the store: a write is
//! permanent once it is in memory, since memory survives a crash of the operating system, and a warm reboot finds it there. Here
//! a file stands for the memory that survives. What it outlasts is the program: after a kill it has the words that were stored
//! up to then, in the order in which they were.
#![tactic(auto)]

mod held_bench;
mod held_file;
mod held_words;
mod host_file;
mod word_file;

pub use held_bench::{HeldBench, KeptFile};
pub use held_words::HeldWords;
pub use host_file::HostFile;
pub use word_file::WordFile;
