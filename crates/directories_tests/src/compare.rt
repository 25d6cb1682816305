//! The assertion of these tests. It says at which row of which table it failed.

use std::process::Abort;

/// Each row of a table was answered as it must, and none otherwise.
pub(crate) fn all_answered(rt: &impl Abort, table: u64, other: Option<usize>) {
    if let Some(row) = other {
        panic!(rt; "table {table}: row {row} is answered otherwise");
    }
}
