//! Lists of names that lie in one run of bytes, so that many names take three allocations and not one each.
#![tactic(auto)]

mod fronts;
mod names;
mod run;
mod spans;

pub use fronts::LINE_BYTES;
pub use names::NameList;
