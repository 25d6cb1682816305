//! The running core: requests answered from the page cache of a machine.
#![tactic(auto)]

mod answering;
mod regions;
mod replies;
mod running_core;
mod server;

pub use running_core::{Core, answer_one};
