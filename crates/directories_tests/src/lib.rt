//! Tests of directories: rows of names on a volume in memory, looked up, listed and changed.
#![tactic(auto)]

#[cfg(test)]
mod compare;
#[cfg(test)]
mod dir_tests;
#[cfg(test)]
mod dirs;
#[cfg(test)]
mod held;
#[cfg(test)]
mod numbered;
#[cfg(test)]
mod rows;
