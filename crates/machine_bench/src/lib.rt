//! Benches: what makes the machine that a command works on, of words and a disk that it is given, and takes it back.
#![tactic(auto)]

mod bench;
mod board_bench;
mod keep_bench;
mod kept;
mod making;

pub use bench::Bench;
pub use board_bench::BoardBench;
pub use keep_bench::KeepBench;
pub use kept::{KeptEnd, KeptStart};
