//! The words of the command line, read by `clap`.
#![tactic(auto)]

mod command;
mod drill_words;
mod fail;
mod file_name;
mod files;
mod format_words;
mod matched;
mod matching;
mod numbers;
mod reading;
mod serve_words;

pub use command::RioCommand;
pub use fail::WordsFail;
pub use file_name::FileName;
pub use reading::read_words;
