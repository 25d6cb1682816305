//! Names of directories held in memory, so that a name is looked up without a look through its directory.
//!
//! What is held is no more than a quicker answer: it agrees with all names, or says that it does not know. Where no memory
//! is left, names are given up, and nobody is told.
#![tactic(auto)]

mod dir_names;
mod index;
#[cfg(test)]
mod tests;

pub use dir_names::{DirNames, NotKept};
pub use index::{Lookup, NameIndex};
