//! Serving lines over a pair of files: over the cache that a reboot left, until the input ends.
#![tactic(auto)]

mod ends;
mod pair_work;
mod serving;

pub use line_loop::{LinesEnd, ServeEnd};
pub use pair_work::Serving;
pub use serving::serve;
