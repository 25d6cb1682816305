//! Memory that is held in a file of another length, or in none.

use crate::held_rig::{drawn_words, held, host_of, image};
use crate::same::same;
use held_memory::HostFile;
use rio_base::{Host, MemWords, WordAt};
use std::alloc::{AllocError, Global};
use std::test::Fail;

/// What is found after memory of 1,024 words was made over a file of 7s, and a word of it stored.
#[derive(Clone, Copy, Debug, PartialEq, Eq)]
struct Found {
    held: bool,
    failures: u64,
    /// How many bytes the file has, or `None` where there is none.
    size: Option<usize>,
    /// It has 7s alone.
    same: bool,
}

/// How many bytes the file has, or `None` for no file; which call of the host fails, or 0; and what is found.
static ROWS: [(Option<usize>, u64, Found); 8] = [
    (
        Some(8_192),
        0,
        Found {
            held: true,
            failures: 0,
            size: Some(8_192),
            same: false,
        },
    ),
    (
        Some(8_191),
        0,
        Found {
            held: false,
            failures: 0,
            size: Some(8_191),
            same: true,
        },
    ),
    (
        Some(8_193),
        0,
        Found {
            held: false,
            failures: 0,
            size: Some(8_193),
            same: true,
        },
    ),
    (
        Some(4_096),
        0,
        Found {
            held: false,
            failures: 0,
            size: Some(4_096),
            same: true,
        },
    ),
    (
        Some(12_288),
        0,
        Found {
            held: false,
            failures: 0,
            size: Some(12_288),
            same: true,
        },
    ),
    (
        Some(0),
        0,
        Found {
            held: false,
            failures: 0,
            size: Some(0),
            same: true,
        },
    ),
    (
        None,
        0,
        Found {
            held: false,
            failures: 0,
            size: None,
            same: true,
        },
    ),
    (
        Some(8_192),
        1,
        Found {
            held: false,
            failures: 1,
            size: Some(8_192),
            same: true,
        },
    ),
];

/// What is found with a file of so many 7s, or none, and a host whose call of this number fails.
fn look(alloc: Global, size: Option<usize>, failing: u64) -> Result<Found, AllocError> {
    let sevens = vec![in alloc; 7u8; size.unwrap_or(0)]?;
    let host = host_of(alloc, size.map(|_| sevens.as_slice()), failing)?;
    let mut x = 3;
    let words = drawn_words(alloc, &mut x)?;
    let mut mem = held(&words, HostFile::new(alloc, host, image(alloc)?)?)?;
    if 5 < mem.len() {
        mem.store(WordAt(5), 1);
    }
    let (held, failures) = (mem.is_held(), mem.failures());
    let host = mem.into_file().into_host();
    let bytes = host.file(&image(alloc)?);
    Ok(Found {
        held,
        failures,
        size: bytes.map(|bytes| bytes.len()),
        same: bytes.is_none_or(|bytes| *bytes == sevens),
    })
}

#[test]
fn file_of_another_length_is_left_as_it_is(rt: HostRuntime) -> Result<(), Fail> {
    for (row, (size, failing, due)) in ROWS.iter().enumerate() {
        let came = look(rt.alloc(), *size, *failing)?;
        same(&rt, "lengths", row, &came, due);
    }
    Ok(())
}
