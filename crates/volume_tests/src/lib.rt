//! Tests of what a volume is made of: its bitmap, its inodes, and its rules, beside a plain slow check of these. They stand
//! above the crates that they test, so that each of those is proved once.
//!
//! `proofs/` has laws that try the definitions of a volume, and of memory over one, on small volumes.
#![tactic(auto)]

#[cfg(test)]
mod bitmap_tests;
#[cfg(test)]
mod damage_tests;
#[cfg(test)]
mod damages;
mod failing_blocks;
#[cfg(test)]
mod failing_tests;
#[cfg(test)]
mod inode_tests;
#[cfg(test)]
mod layout_rule_tests;
#[cfg(test)]
mod layout_rules;
#[cfg(test)]
mod node_rule_tests;
#[cfg(test)]
mod node_rules;
#[cfg(test)]
mod plain_check;
#[cfg(test)]
mod region_rule_tests;
#[cfg(test)]
mod region_rules;
#[cfg(test)]
mod same;
#[cfg(test)]
mod steps;
#[cfg(test)]
mod volumes;
#[cfg(test)]
mod words;

pub use failing_blocks::{Failing, FailingBlocks};
