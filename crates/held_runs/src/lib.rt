//! Runs of the program whose memory is held in the file IMAGE, and what a kill leaves of them.
#![tactic(auto)]

mod held_run;
mod unseen_stop;

pub use held_run::{HeldRun, run_held, served_image};
pub use unseen_stop::stop_is_unseen;
