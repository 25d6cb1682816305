//! The commands over a pair of files: `serve` serves lines over one, `format` makes one, `registry` and `check` look at
//! one. Each ends with a line and an exit status that tell how it ended.
#![tactic(auto)]

mod check_command;
mod check_lines;
mod ends;
mod formatting;
mod last_line;
mod registry_command;
mod registry_lines;
mod registry_listing;
mod serve_command;
mod serve_lines;

pub use check_command::check_pair;
pub use ends::{CheckEnd, RegistryEnd};
pub use formatting::{FormatSizes, PairPlan, format};
pub use last_line::say;
pub use registry_command::show_registry;
pub use serve_command::serve_pair;
