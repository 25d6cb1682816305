//! Tests of lists of names.

use crate::same::same;
use name_list::{LINE_BYTES, NameList};
use std::alloc::{AllocError, Global};
use std::process::Abort;

/// Names in the order of their bytes: one begins the next, some differ behind their eighth byte alone, and some have zeros.
static IN_ORDER: [&[u8]; 13] = [
    b"",
    b"\0",
    b"a",
    b"a\0",
    b"a\0\0b",
    b"ab",
    b"longnam",
    b"longname",
    b"longname\0",
    b"longname1",
    b"longname2",
    b"longnamf",
    b"\xff",
];

/// A line that has this name, and other bytes behind it.
fn line_of(name: &[u8]) -> [u8; LINE_BYTES] {
    let mut line = [0x61; LINE_BYTES];
    for k in 0..name.len().min(LINE_BYTES) {
        line[k] = name[k];
    }
    line
}

/// Compares the names of a list with those in order.
fn are_in_order(rt: &impl Abort, table: &str, names: &NameList) {
    same(rt, table, 0, &names.len(), &IN_ORDER.len());
    for k in 0..names.len().min(IN_ORDER.len()) {
        same(rt, table, k, &names.get(k), &IN_ORDER[k]);
    }
}

/// The names out of order: every fifth one.
fn out_of_order(alloc: Global, by_lines: bool) -> Result<NameList, AllocError> {
    let mut names = NameList::with_capacity(alloc, 2)?;
    for k in 0..IN_ORDER.len() {
        let name = IN_ORDER[5 * k % IN_ORDER.len()];
        if by_lines {
            names.push_line(&line_of(name), name.len().min(LINE_BYTES))?;
        } else {
            names.push(name)?;
        }
    }
    Ok(names)
}

#[test]
fn names_are_sorted_by_their_bytes(rt: HostRuntime) -> Result<(), AllocError> {
    let mut names = out_of_order(rt.alloc(), false)?;
    names.sort();
    are_in_order(&rt, "names", &names);
    let mut names = out_of_order(rt.alloc(), true)?;
    names.sort();
    are_in_order(&rt, "names in lines", &names);
    Ok(())
}
