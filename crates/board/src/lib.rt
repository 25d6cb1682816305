//! A machine over any memory and any disk.
#![tactic(auto)]

mod board;
mod guard;

pub use board::Board;
