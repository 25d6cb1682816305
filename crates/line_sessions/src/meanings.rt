//! What a line means, in a plain form.

use request_codec::parse_line;
use rio_requests::Request;
use std::alloc::{AllocError, Global};
use test_scripts::{expanded, first_word, number};

/// Puts what a line means.
pub(crate) fn put_parsed(alloc: Global, rest: &str, out: &mut String) -> Result<(), AllocError> {
    let line = expanded(alloc, rest)?;
    put_meaning(alloc, line.as_slice(), out)
}

/// Puts the parts of the request that a line is, or that it is none.
fn put_meaning(alloc: Global, line: &[u8], out: &mut String) -> Result<(), AllocError> {
    if put_request(alloc, line, None, out)? {
        return Ok(());
    }
    out.push_str("    no request\n")
}

/// Puts what a line means with each byte in turn at a place.
pub(crate) fn put_each_of(alloc: Global, rest: &str, out: &mut String) -> Result<(), AllocError> {
    let (place, line) = first_word(rest);
    let place = number(place)? as usize;
    let mut line = expanded(alloc, line)?;
    put_each(alloc, line.as_mut_slice(), place, out)
}

/// Puts what a line means with each byte in turn at a place, where it means anything, and how many bytes there make no
/// request of it.
fn put_each(
    alloc: Global,
    line: &mut [u8],
    place: usize,
    out: &mut String,
) -> Result<(), AllocError> {
    let mut others = 0usize;
    for byte in 0..256usize {
        if !put_with(alloc, line, place, byte as u8, out)? {
            others = others.saturating_add(1);
        }
    }
    put_count(others, out)?;
    out.push_str(" no request\n")
}

/// Puts a byte and what a line means that has it at a place, and tells whether it means anything.
fn put_with(
    alloc: Global,
    line: &mut [u8],
    place: usize,
    byte: u8,
    out: &mut String,
) -> Result<bool, AllocError> {
    if let Some(there) = line.get_mut(place) {
        *there = byte;
    }
    put_request(alloc, line, Some(byte), out)
}

/// Puts the parts of the request that a line is, behind a byte of it, and tells whether it is one.
fn put_request(
    alloc: Global,
    line: &[u8],
    byte: Option<u8>,
    out: &mut String,
) -> Result<bool, AllocError> {
    match parse_line(alloc, line)? {
        Some(request) => put_parts_of(byte, request, out),
        None => Ok(false),
    }
}

/// Lets a request go. Where it went behind a call, each of its forms would be one more end of that.
pub(crate) fn let_go(_request: Request) {}

/// Puts the parts of a request, which then goes.
fn put_parts_of(byte: Option<u8>, request: Request, out: &mut String) -> Result<bool, AllocError> {
    let ended = put_parts(byte, &request, out);
    let_go(request);
    ended
}

/// Puts the parts of a request: its word, its path, its data or its second path, and its numbers.
fn put_parts(byte: Option<u8>, request: &Request, out: &mut String) -> Result<bool, AllocError> {
    put_front(byte, out)?;
    out.push_str(word_of(request))?;
    put_quoted(path_of(request), out)?;
    put_quoted(data_of(request), out)?;
    put_numbers(numbers_of(request), out)?;
    Ok(true)
}

/// Puts what stands before the parts of a request.
fn put_front(byte: Option<u8>, out: &mut String) -> Result<(), AllocError> {
    match byte {
        Some(byte) => write!(out, "    {byte:02x}: "),
        None => out.push_str("    "),
    }
}

/// Puts a text between quotes, with each byte that is no character escaped.
pub(crate) fn put_quoted(text: &[u8], out: &mut String) -> Result<(), AllocError> {
    let text = text.escape_ascii();
    write!(out, " \"{text}\"")
}

fn put_numbers(numbers: [u64; 3], out: &mut String) -> Result<(), AllocError> {
    let [first, second, third] = numbers;
    writeln!(out, " {first} {second} {third}")
}

/// Puts how many bytes there are.
pub(crate) fn put_count(count: usize, out: &mut String) -> Result<(), AllocError> {
    write!(out, "    {count} bytes:")
}

/// The words of requests.
static WORDS: [&str; 24] = [
    "mkdir", "create", "region", "write", "read", "truncate", "unlink", "rmdir", "rename", "stat",
    "list", "sync", "begin", "range", "put", "get", "alloc", "free", "commit", "abort", "txns",
    "flush", "wild", "arm",
];

fn word_of(request: &Request) -> &'static str {
    WORDS.get(place_of(request)).copied().unwrap_or("")
}

/// Where the word of a request stands in [`WORDS`].
fn place_of(request: &Request) -> usize {
    match request {
        Request::Mkdir { .. } => 0,
        Request::Create { .. } => 1,
        Request::Region { .. } => 2,
        Request::Write { .. } => 3,
        Request::Read { .. } => 4,
        Request::Truncate { .. } => 5,
        Request::Unlink { .. } => 6,
        Request::Rmdir { .. } => 7,
        Request::Rename { .. } => 8,
        Request::Stat { .. } => 9,
        Request::List { .. } => 10,
        Request::Sync => 11,
        Request::Begin { .. } => 12,
        Request::Range { .. } => 13,
        Request::Put { .. } => 14,
        Request::Get { .. } => 15,
        Request::Alloc { .. } => 16,
        Request::Free { .. } => 17,
        Request::Commit { .. } => 18,
        Request::Abort { .. } => 19,
        Request::Txns => 20,
        Request::Flush { .. } => 21,
        Request::Wild { .. } => 22,
        Request::Arm { .. } => 23,
    }
}

/// The path, or nothing where there is none.
fn path_of(request: &Request) -> &[u8] {
    match request {
        Request::Mkdir { path }
        | Request::Create { path }
        | Request::Region { path, .. }
        | Request::Write { path, .. }
        | Request::Read { path, .. }
        | Request::Truncate { path, .. }
        | Request::Unlink { path }
        | Request::Rmdir { path }
        | Request::Rename { path, .. }
        | Request::Stat { path }
        | Request::List { path }
        | Request::Begin { path }
        | Request::Range { path, .. }
        | Request::Put { path, .. }
        | Request::Get { path, .. }
        | Request::Alloc { path, .. }
        | Request::Free { path, .. }
        | Request::Commit { path }
        | Request::Abort { path } => path.as_slice(),
        Request::Sync
        | Request::Txns
        | Request::Flush { .. }
        | Request::Wild { .. }
        | Request::Arm { .. } => &[],
    }
}

/// The data or the second path, or nothing where there is neither.
fn data_of(request: &Request) -> &[u8] {
    match request {
        Request::Write { bytes, .. } | Request::Put { bytes, .. } => bytes.as_slice(),
        Request::Rename { to, .. } => to.as_slice(),
        _ => &[],
    }
}

/// The numbers, and zeros behind them.
fn numbers_of(request: &Request) -> [u64; 3] {
    match request {
        Request::Region {
            data_pages,
            undo_pages,
            ..
        } => [*data_pages, *undo_pages, 0],
        Request::Write { off, .. } | Request::Put { off, .. } => [*off, 0, 0],
        Request::Read { off, len, .. }
        | Request::Range { off, len, .. }
        | Request::Get { off, len, .. } => [*off, *len, 0],
        Request::Truncate { len, .. } => [*len, 0, 0],
        Request::Alloc { units, .. } => [*units, 0, 0],
        Request::Free { at, .. } => [*at, 0, 0],
        Request::Flush { count } => [*count, 0, 0],
        Request::Wild { at, value } => [*at, *value, 0],
        Request::Arm { step, at, value } => [*step, *at, *value],
        _ => [0; 3],
    }
}
