//! The files and the standard streams of the operating system, as the host, the source and the sink of a run.
#![tactic(auto)]

mod file_lock;
mod launch;
mod open_files;
mod opening;
mod os_host;
mod pieces;
mod replacing;
mod streams;
mod terminal_input;

pub use file_lock::{FileLock, HostFile};
pub use launch::{can_write, command_words, host_for, tell_in_use};
pub use os_host::OsHost;
pub use replacing::folder_of;
pub use streams::{InputSource, OutputSink};
pub use terminal_input::TerminalInput;
