//! Whole runs of the program: its words read, and the command done that they are.
#![tactic(auto)]

mod drill_command;
mod program;

pub use program::{end_without_memory, run};
