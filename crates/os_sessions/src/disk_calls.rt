//! Calls of the disk that is open, as a line of the script has them.

use block_disk::HostDisk;
use rio_base::{Block, DiskBlocks, Failed, Host};
use std::alloc::AllocError;
use test_scripts::{first_word, number, tell_line, tell_shown};

/// The words of a block.
const BLOCK_WORDS: usize = 512;

/// Makes a call of the disk, if one is open, and tells what it answered.
pub fn call<H: Host>(
    disk: &mut Option<HostDisk<H>>,
    word: &str,
    rest: &str,
    out: &mut Vec<u8>,
) -> Result<(), AllocError> {
    match disk {
        Some(disk) => make_call(disk, word, rest, out),
        None => tell_line(out, b"no disk"),
    }
}

fn make_call<H: Host>(
    disk: &mut HostDisk<H>,
    word: &str,
    rest: &str,
    out: &mut Vec<u8>,
) -> Result<(), AllocError> {
    match word {
        "sync" => tell_shown(out, &disk.sync()),
        "faults" => tell_shown(out, &disk.faults()),
        "read" => read(disk, block_number(rest)?, out),
        "write" => write(disk, rest, out),
        _ => tell_line(out, b"no such word"),
    }
}

/// The number of a block. Of a larger one it is one that no disk has.
fn block_number(text: &str) -> Result<u32, AllocError> {
    Ok(u32::try_from(number(text)?).unwrap_or(u32::MAX))
}

/// Reads a block. Tells its first and its last word.
fn read<D: DiskBlocks>(disk: &mut D, b: u32, out: &mut Vec<u8>) -> Result<(), AllocError> {
    if disk.count() <= b {
        return tell_line(out, b"no such block");
    }
    let mut words = vec![in *out.allocator(); 0u64; BLOCK_WORDS]?;
    let answer = disk.read(Block(b), &mut words);
    tell_read(answer, words[0], words[BLOCK_WORDS - 1], out)
}

/// Tells what a read answered, and the first and the last word of what was read.
fn tell_read(
    answer: Result<(), Failed>,
    first: u64,
    last: u64,
    out: &mut Vec<u8>,
) -> Result<(), AllocError> {
    let told = format!(in *out.allocator(); "{answer:?} {first:x} {last:x}")?;
    tell_line(out, told.as_bytes())
}

/// Writes a block whose bytes are all the character behind its number.
fn write<D: DiskBlocks>(disk: &mut D, rest: &str, out: &mut Vec<u8>) -> Result<(), AllocError> {
    let (b, text) = first_word(rest);
    let byte = text.as_bytes().first().copied().unwrap_or(b' ');
    fill(disk, block_number(b)?, byte, out)
}

/// Writes a block whose bytes are all the same.
fn fill<D: DiskBlocks>(
    disk: &mut D,
    b: u32,
    byte: u8,
    out: &mut Vec<u8>,
) -> Result<(), AllocError> {
    if disk.count() <= b {
        return tell_line(out, b"no such block");
    }
    let word = u64::from_le_bytes([byte; 8]);
    let words = vec![in *out.allocator(); word; BLOCK_WORDS]?;
    tell_shown(out, &disk.write(Block(b), words.as_slice()))
}
