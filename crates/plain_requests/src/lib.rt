//! The plain program that answers each request as it is defined: slow, and over the state alone. Other answers are compared
//! with its.
#![tactic(auto)]

mod answering;

pub use answering::answer;
