//! Lines served one after another: the loop that every server of lines runs.
#![tactic(auto)]

mod effects;
mod ends;
mod server;
mod serving;
mod waiting;

pub use effects::Effect;
pub use ends::{LinesEnd, ServeEnd};
pub use server::LineServer;
pub use serving::serve_until_end;
