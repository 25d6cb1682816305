//! Pieces of an open file.

ghost use Rattle.std.specs.Prelude.{◌≤◌, IfOk, length};

use crate::file_lock::HostFile;
use std::io::{self, ErrorKind};

/// Reads bytes from byte `off` of a file on. None before the end is an error.
pub(crate) fn read_from<F: HostFile>(file: &F, off: u64, into: &mut [u8]) -> io::Result<usize>
    ensures { IfOk result (λ n. n ≤ length into.new) }
{
    let n = read_retrying_at(file, off, into)?;
    if n == 0 && !into.is_empty() && off < file.metadata()?.len() {
        return Err(io::Error::from(ErrorKind::UnexpectedEof));
    }
    Ok(n)
}

/// Reads once, and once more after each read that a signal interrupted.
fn read_retrying_at<F: HostFile>(file: &F, off: u64, into: &mut [u8]) -> io::Result<usize>
    ensures { IfOk result (λ n. n ≤ length into.new) }
{
    for _ in 0..u64::MAX {
        match file.read_at(into, off) {
            Err(error) if error.kind() == ErrorKind::Interrupted => {}
            outcome => return outcome,
        }
    }
    Err(io::Error::from(ErrorKind::Interrupted))
}
