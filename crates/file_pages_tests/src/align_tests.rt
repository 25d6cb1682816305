//! Writes at each alignment of offset and length, beside a plain list of bytes.

ghost use Rattle.file_pages_tests.specs.TestFiles.{FilesReady};

use crate::calls::{Answer, put, some_of};
use crate::compare::{At, holds};
use crate::plain_file::is_written;
use crate::volumes::{FILE, SMALL, with_files};
use inode_table::LARGEST_SIZE;
use rio_base::Volume;
use std::alloc::Global;
use std::process::Abort;

/// Bytes that are written, all of which differ.
const BYTES: [u8; 24] = [
    201, 202, 203, 204, 205, 206, 207, 208, 209, 210, 211, 212, 213, 214, 215, 216, 217, 218, 219,
    220, 221, 222, 223, 224,
];

/// So many bytes that rise from 1 to 251, again and again.
fn rising(rt: &impl Abort, alloc: Global, count: usize) -> Vec<u8> {
    let mut bytes = Vec::new(alloc);
    for k in 0..count {
        bytes
            .push(1u8.wrapping_add((k % 251) as u8))
            .expect(rt, "memory");
    }
    bytes
}

/// Whether the file has the old bytes with others written over them.
fn has_written<V: Volume>(alloc: Global, v: &mut V, old: &[u8], off: usize, bytes: &[u8]) -> bool
    requires sound { V.sound v.old }
    requires files { FilesReady SMALL (V.seen v.old) (V.kept v.old) }
{
    match some_of(alloc, v, &SMALL, FILE, 0, LARGEST_SIZE) {
        Ok(came) => is_written(came.as_slice(), old, off, bytes),
        Err(_fail) => false,
    }
}

/// Writes bytes to a file of the old ones, and compares it with the plain list.
fn is_plain<V: Volume>(alloc: Global, v: &mut V, old: &[u8], off: usize, bytes: &[u8]) -> bool
    requires sound { V.sound v.old }
    requires files { FilesReady SMALL (V.seen v.old) (V.kept v.old) }
{
    let Ok(Answer::Done(_)) = put(alloc, v, &SMALL, FILE, 0, old) else {
        return false;
    };
    let Ok(answer) = put(alloc, v, &SMALL, FILE, off as u64, bytes) else {
        return false;
    };
    if answer != Answer::Done(bytes.len() as u64) {
        return false;
    }
    has_written(alloc, v, old, off, bytes)
}

/// Writes bytes to a file of the old ones, on a volume of its own.
fn compare(rt: &impl Abort, alloc: Global, at: At, old: &[u8], off: usize, bytes: &[u8]) {
    let mut v = with_files(rt, alloc, &SMALL);
    let plain = is_plain(alloc, &mut v, old, off, bytes);
    holds(rt, "the plain bytes", at, plain);
}

/// Writes each number of bytes up to 24 from `off` on to a file of the old ones.
fn compare_counts(rt: &impl Abort, alloc: Global, table: &'static str, old: &[u8], off: usize) {
    let row = off as u64;
    for count in 0..25 {
        let Some(bytes) = BYTES.as_slice().get(..count) else {
            panic!(rt; "no bytes to write");
        };
        compare(rt, alloc, At { table, row }, old, off, bytes);
    }
}

#[test]
fn writes_are_plain(rt: HostRuntime) {
    let short = rising(&rt, rt.alloc(), 13);
    let long = rising(&rt, rt.alloc(), 4101);
    for off in 0..25 {
        compare_counts(&rt, rt.alloc(), "a short file", &short, off);
        compare_counts(&rt, rt.alloc(), "the end of a page", &long, 4080 + off);
    }
}
