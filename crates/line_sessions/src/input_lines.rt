//! The lines of an input that comes in pieces.

use crate::meanings::{put_count, put_quoted};
use request_codec::{LineReader, NextLine};
use std::alloc::{AllocError, Global};
use test_objects::MemSource;
use test_scripts::{expanded, first_word, number};

/// Puts the lines of an input that comes in pieces.
pub(crate) fn put_lines_of(alloc: Global, rest: &str, out: &mut String) -> Result<(), AllocError> {
    let (most, input) = first_word(rest);
    let most = number(most)? as usize;
    let input = expanded(alloc, input)?;
    put_lines(alloc, input.as_slice(), most, out)
}

/// Puts the length of each line of an input that comes in pieces of up to `most` bytes, and the line itself.
fn put_lines(alloc: Global, input: &[u8], most: usize, out: &mut String) -> Result<(), AllocError> {
    let mut source = MemSource::new(alloc, input, most.max(1))?;
    put_read(alloc, &mut source, input.len().saturating_add(1), out)
}

/// Puts up to so many lines of a source, and how they end.
fn put_read(
    alloc: Global,
    source: &mut MemSource,
    count: usize,
    out: &mut String,
) -> Result<(), AllocError> {
    let mut reader = LineReader::new(alloc)?;
    for _ in 0..count {
        let Ok(next) = reader.next_line(source) else {
            return out.push_str("    failed\n");
        };
        if !put_next(next, out)? {
            return Ok(());
        }
    }
    Ok(())
}

/// Puts what came next in an input, and tells whether more may come.
fn put_next(next: NextLine, out: &mut String) -> Result<bool, AllocError> {
    match &next {
        NextLine::Line(line) => put_line(line.as_slice(), out),
        NextLine::TooLong => put_note("    too long\n", true, out),
        NextLine::End => put_note("    the end\n", false, out),
    }
}

/// Puts a line and its length. More may come.
fn put_line(line: &[u8], out: &mut String) -> Result<bool, AllocError> {
    put_count(line.len(), out)?;
    put_quoted(line, out)?;
    put_note("\n", true, out)
}

/// Puts a text, and tells whether more may come.
fn put_note(note: &str, more: bool, out: &mut String) -> Result<bool, AllocError> {
    out.push_str(note)?;
    Ok(more)
}
