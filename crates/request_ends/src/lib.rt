//! How a request on files ends over any volume, and why one is not done.
#![tactic(auto)]

mod failures;

pub use failures::FileFail;
