//! The bytes of a file as a plain list, and what calls make of them.

use crate::calls::Call;
use std::alloc::Global;
use std::process::Abort;

/// Byte `k` of a file with `bytes` written over it from `off` on.
fn plain_byte(old: &[u8], off: usize, bytes: &[u8], k: usize) -> u8 {
    if off <= k && k - off < bytes.len() {
        return bytes[k - off];
    }
    if k < old.len() { old[k] } else { 0 }
}

/// The bytes with others put over them from `off` on, in a file of `len` bytes.
fn plain_bytes(
    rt: &impl Abort,
    alloc: Global,
    old: &[u8],
    off: usize,
    bytes: &[u8],
    len: usize,
) -> Vec<u8> {
    let mut new = Vec::new(alloc);
    for k in 0..len {
        new.push(plain_byte(old, off, bytes, k))
            .expect(rt, "memory");
    }
    new
}

/// How many bytes a file of `len` bytes has after `count` bytes are written from `off` on.
fn plain_len(len: usize, off: usize, count: usize) -> usize {
    if count == 0 {
        return len;
    }
    len.max(off.saturating_add(count))
}

/// Whether these are the old bytes with others written over them from `off` on.
pub(crate) fn is_written(came: &[u8], old: &[u8], off: usize, bytes: &[u8]) -> bool {
    if came.len() != plain_len(old.len(), off, bytes.len()) {
        return false;
    }
    for k in 0..came.len() {
        if came[k] != plain_byte(old, off, bytes, k) {
            return false;
        }
    }
    true
}

/// What a call makes of a file's bytes.
pub(crate) fn plain_call(rt: &impl Abort, alloc: Global, old: &[u8], call: Call) -> Vec<u8> {
    match call {
        Call::Write(off, count, byte) => {
            let bytes = vec![in alloc; byte; count].expect(rt, "memory");
            let len = plain_len(old.len(), off as usize, count);
            plain_bytes(rt, alloc, old, off as usize, &bytes, len)
        }
        Call::Resize(len) => plain_bytes(rt, alloc, old, 0, &[], len as usize),
    }
}

/// Where two files begin to differ.
pub(crate) fn same_up_to(one: &[u8], other: &[u8]) -> usize {
    let both = one.len().min(other.len());
    for k in 0..both {
        if one[k] != other[k] {
            return k;
        }
    }
    both
}

/// Whether a file of the old size has the new bytes up to byte `end`, and from there the old ones.
pub(crate) fn is_led(bytes: &[u8], old: &[u8], new: &[u8], end: usize) -> bool {
    if bytes.len() != old.len() {
        return false;
    }
    for k in 0..old.len() {
        let byte = if k < end && k < new.len() {
            new[k]
        } else {
            old[k]
        };
        if bytes[k] != byte {
            return false;
        }
    }
    true
}
