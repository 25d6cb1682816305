//! The assertions of these tests. Each says where it failed.

use std::process::Abort;

/// A place in a test: its table, or what it ends, and the row, step or call.
#[derive(Clone, Copy)]
pub(crate) struct At {
    pub(crate) table: &'static str,
    pub(crate) row: u64,
}

/// This is so.
pub(crate) fn holds(rt: &impl Abort, what: &str, at: At, so: bool) {
    let At { table, row } = at;
    assert!(rt; so, "{table}, at {row}: {what}");
}

/// Each row of a table was answered as it must, and none otherwise.
pub(crate) fn all_answered(rt: &impl Abort, table: &str, other: Option<usize>) {
    if let Some(row) = other {
        panic!(rt; "{table}: row {row} is answered otherwise");
    }
}
