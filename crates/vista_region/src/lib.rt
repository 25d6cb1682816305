//! Transactions on regions of recoverable memory: which are open, and what each call on one reads, changes, keeps and undoes.
#![tactic(auto)]

mod data;
mod ending;
mod failures;
mod heap;
mod open_table;
mod runs;

pub use ending::recover;
pub use failures::{BeginFail, GetFail, TxnFail};
pub use open_table::OpenTable;
