//! Requests as text.

use rio_base::Octets;
use rio_requests::Request;
use std::alloc::{AllocError, Global};

/// A drawn request as its line begins, with its bytes told in short.
pub fn request_text(alloc: Global, request: &Request) -> Result<String, AllocError> {
    match request {
        Request::Create { path } => path_text(alloc, "create", path),
        Request::Unlink { path } => path_text(alloc, "unlink", path),
        Request::Begin { path } => path_text(alloc, "begin", path),
        Request::Commit { path } => path_text(alloc, "commit", path),
        Request::Abort { path } => path_text(alloc, "abort", path),
        Request::Write { path, off, bytes } => data_text(alloc, "write", path, *off, bytes),
        Request::Put { path, off, bytes } => data_text(alloc, "put", path, *off, bytes),
        Request::Read { path, off, len } => numbers_text(alloc, "read", path, *off, *len),
        Request::Range { path, off, len } => numbers_text(alloc, "range", path, *off, *len),
        Request::Region {
            path,
            data_pages,
            undo_pages,
        } => numbers_text(alloc, "region", path, *data_pages, *undo_pages),
        Request::Truncate { path, len } => number_text(alloc, "truncate", path, *len),
        Request::Alloc { path, units } => number_text(alloc, "alloc", path, *units),
        Request::Rename { path, to } => {
            format!(in alloc; "rename {} {}", text_of(path), text_of(to))
        }
        Request::Flush { count } => format!(in alloc; "flush {count}"),
        _ => String::from_str(alloc, "a request that is never drawn"),
    }
}

/// A path as text.
fn text_of(path: &Octets) -> &str {
    match str::from_utf8(path.as_slice()) {
        Ok(text) => text,
        Err(_) => "?",
    }
}

fn path_text(alloc: Global, word: &str, path: &Octets) -> Result<String, AllocError> {
    format!(in alloc; "{word} {}", text_of(path))
}

fn number_text(alloc: Global, word: &str, path: &Octets, n: u64) -> Result<String, AllocError> {
    format!(in alloc; "{word} {} {n}", text_of(path))
}

fn numbers_text(
    alloc: Global,
    word: &str,
    path: &Octets,
    first: u64,
    second: u64,
) -> Result<String, AllocError> {
    format!(in alloc; "{word} {} {first} {second}", text_of(path))
}

/// Bytes are told by how many there are, the first, the last and their sum.
fn data_text(
    alloc: Global,
    word: &str,
    path: &Octets,
    off: u64,
    bytes: &Octets,
) -> Result<String, AllocError> {
    let bytes = bytes.as_slice();
    let count = bytes.len();
    let first = bytes.first().copied().unwrap_or(0);
    let last = bytes.last().copied().unwrap_or(0);
    let mut sum: u64 = 0;
    for byte in bytes {
        sum = sum.wrapping_add(u64::from(*byte));
    }
    format!(in alloc;
        "{word} {} {off} {count} bytes {first} to {last} sum {sum}",
        text_of(path)
    )
}
