//! Calls of a host, as a line of the script has them.

use rio_base::{Failed, Host};
use std::alloc::AllocError;
use test_scripts::{first_word, number, numbers, tell_line, tell_shown};

/// Whether a word is that of a call.
pub fn is_call(word: &str) -> bool {
    matches!(
        word,
        "size" | "sync" | "replace" | "write" | "read" | "faults"
    )
}

/// Makes a call of a host, and tells what it answered.
pub fn make_call<H: Host>(
    host: &mut H,
    word: &str,
    name: &String,
    rest: &str,
    out: &mut Vec<u8>,
) -> Result<(), AllocError> {
    match word {
        "size" => tell_shown(out, &host.size(name)),
        "sync" => tell_done(host.sync(name), out),
        "replace" => tell_done(host.replace(name, rest.as_bytes()), out),
        "write" => write(host, name, rest, out),
        "read" => read(host, name, rest, out),
        _ => tell_shown(out, &host.faults()),
    }
}

/// Tells whether a call was done.
fn tell_done(answer: Result<(), Failed>, out: &mut Vec<u8>) -> Result<(), AllocError> {
    tell_shown(out, &answer)
}

/// Writes into a file: from which byte on, and the text.
fn write<H: Host>(
    host: &mut H,
    name: &String,
    rest: &str,
    out: &mut Vec<u8>,
) -> Result<(), AllocError> {
    let (off, text) = first_word(rest);
    let off = number(off)?;
    tell_done(host.write_at(name, off, text.as_bytes()), out)
}

/// Reads from a file into a piece of dashes: from which byte on, and how long the piece is. Tells the piece before the
/// answer.
fn read<H: Host>(
    host: &mut H,
    name: &String,
    rest: &str,
    out: &mut Vec<u8>,
) -> Result<(), AllocError> {
    let [off, size, _] = numbers(rest)?;
    let mut piece = dashes(size as usize, out)?;
    let answer = host.read_at(name, off, piece.as_mut_slice());
    tell_piece(piece.as_slice(), answer, out)
}

/// A piece of dashes, in memory of the same allocator.
pub fn dashes(size: usize, out: &Vec<u8>) -> Result<Vec<u8>, AllocError> {
    vec![in *out.allocator(); b'-'; size]
}

/// Tells a piece before the answer of the call that it was passed to.
fn tell_piece(
    piece: &[u8],
    answer: Result<usize, Failed>,
    out: &mut Vec<u8>,
) -> Result<(), AllocError> {
    let answer = format!(in *out.allocator(); " {answer:?}")?;
    tell_both(piece, answer.as_bytes(), out)
}

/// Tells two texts as one line.
pub fn tell_both(first: &[u8], second: &[u8], out: &mut Vec<u8>) -> Result<(), AllocError> {
    let mut line = Vec::from_slice(*out.allocator(), first)?;
    line.extend_from_slice(second)?;
    tell_line(out, line.as_slice())
}
