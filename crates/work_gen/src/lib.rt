//! Requests and stops drawn from one number, for walks and drills: the same for the same number.
#![tactic(auto)]

mod boot_draw;
mod bytes;
mod generator;
mod names;
mod region_requests;
mod requests;

pub use boot_draw::BootDraw;
pub use generator::Gen;
