//! The requests to a file server and their replies, and what each request is answered, as a definition.
#![tactic(auto)]

mod answered;
mod region_answer;
mod reply;
mod request;

pub use answered::Answered;
pub use region_answer::RegionAnswer;
pub use reply::{FAULT_NUMBER, Reply};
pub use request::Request;
