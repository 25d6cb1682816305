//! A folder of a script's own, below the one where the program runs.

use std::alloc::{AllocError, Global};
use std::io::{self, Read};
use std::rt::Files;
use test_scripts::tell_line;

/// How many names are tried for a folder.
const TRIES: u32 = 1_000;

/// There is room for so many bytes of a folder's names.
const NAMES_BYTES: usize = 4096;

/// Makes an empty folder under a name that is free. That none is free ends the program as want of memory does.
pub fn free_folder(rt: HostRuntime) -> Result<String, AllocError> {
    for number in 0..TRIES {
        let path = format!(in rt.alloc(); "./rio-session-{number}")?;
        if rt.create_dir(path.as_str()).is_ok() {
            return Ok(path);
        }
    }
    Err(AllocError)
}

/// Makes a folder anew, without what was in it. Where this fails its files cannot be made either, which is told of each.
pub fn clear(rt: HostRuntime, folder: &str) {
    let _ = rt.remove_dir_all(rt.alloc(), folder);
    let _ = rt.create_dir(folder);
}

/// Tells the names of all that is in a folder, in their order, with a space before each.
pub fn tell_names(rt: HostRuntime, folder: &str, out: &mut Vec<u8>) -> Result<(), AllocError> {
    let mut names = Vec::with_capacity(rt.alloc(), NAMES_BYTES)?;
    match read_names(rt, folder, &mut names) {
        Ok(_) => tell_sorted(rt.alloc(), names.as_slice(), out),
        Err(_) => tell_line(out, b"cannot be listed"),
    }
}

/// The names that a folder has, each with a zero behind it, as the system tells them.
fn read_names(rt: HostRuntime, folder: &str, into: &mut Vec<u8>) -> io::Result<usize> {
    rt.open_dir(folder)?.read_to_end(into)
}

/// Tells names, which have a zero behind each, in their order and with a space before each.
fn tell_sorted(alloc: Global, names: &[u8], out: &mut Vec<u8>) -> Result<(), AllocError> {
    let mut sorted = Vec::new(alloc);
    for name in names.split(|byte| *byte == 0) {
        if !matches!(name, b"" | b"." | b"..") {
            sorted.push(name)?;
        }
    }
    sorted.sort_unstable();
    tell_spaced(alloc, sorted.as_slice(), out)
}

/// Tells texts with a space before each.
fn tell_spaced(alloc: Global, texts: &[&[u8]], out: &mut Vec<u8>) -> Result<(), AllocError> {
    let mut line = Vec::new(alloc);
    for text in texts {
        line.push(b' ')?;
        line.extend_from_slice(text)?;
    }
    tell_line(out, line.as_slice())
}
