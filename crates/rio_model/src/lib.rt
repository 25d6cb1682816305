//! The state of a file server as plain data, and what the words of memory, of the volume and of a region stand for.
#![tactic(auto)]

mod census;
mod names;
mod node;
mod refusal;
mod rows;
mod rules;
mod state;
mod txn;

pub use census::{Census, Owner};
pub use names::{is_name, is_name_byte, may_be_name};
pub use node::{Node, RegionNode};
pub use refusal::Refusal;
pub use rows::{NameRow, NameRows, NodeRow, NodeRows};
pub use rules::{ImageRule, VolumeRule};
pub use state::State;
pub use txn::{Txn, TxnList};
