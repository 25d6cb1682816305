//! Many boots in one call: a fresh volume in memory is served boot after boot, and stops and fails as a plan says. A plan
//! is what such a run is told, and a transcript what it tells. A drill draws its plan from a seed, and tells its transcript
//! in a few lines.
#![tactic(auto)]

mod booting;
mod copies;
mod counting;
mod counts;
mod drawn_boots;
mod drawn_plan;
mod formatting;
mod many_boots;
mod parts;
mod plan;
mod serving;
mod summary;
mod transcript;

pub use drawn_plan::drill_plan;
pub use many_boots::live;
pub use plan::{BootPlan, BootPlans, CallList, LivePlan, RequestList};
pub use summary::{tell_memory, tell_summary};
pub use transcript::{AnsweredList, BootEnd, BootRun, BootRuns, Transcript};
