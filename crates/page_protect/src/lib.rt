//! Stores into protected memory, through a page that is open only while they are made.
#![tactic(auto)]

mod closed_page;
mod window;

pub use closed_page::{put_run, put_word};
pub use window::Window;
