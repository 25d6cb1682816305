//! Bytes that are put, compared and told.

use std::alloc::AllocError;
use test_scripts::tell_line;

/// Bytes of a word.
const WORD_BYTES: usize = 8;

/// Has these bytes in place of those that are there.
pub fn put_bytes(into: &mut Vec<u8>, bytes: &[u8]) -> Result<(), AllocError> {
    into.clear();
    into.extend_from_slice(bytes)
}

/// Puts a line behind others.
pub fn push_line(lines: &mut Vec<u8>, line: &str) -> Result<(), AllocError> {
    lines.extend_from_slice(line.as_bytes())?;
    lines.extend_from_slice(b"\n")
}

/// Whether these are the same bytes.
pub fn same(a: &[u8], b: &[u8]) -> bool {
    a == b
}

/// The word whose eight bytes, the lowest one first, lie at the place of a word.
pub fn word_at(bytes: &[u8], place: usize) -> Option<u64> {
    match bytes.get(place.saturating_mul(WORD_BYTES)..) {
        Some([a, b, c, d, e, f, g, h, ..]) => {
            Some(u64::from_le_bytes([*a, *b, *c, *d, *e, *f, *g, *h]))
        }
        _ => None,
    }
}

/// Tells one of two texts.
pub fn tell_whether(
    is_so: bool,
    yes: &[u8],
    no: &[u8],
    out: &mut Vec<u8>,
) -> Result<(), AllocError> {
    tell_line(out, if is_so { yes } else { no })
}
