//! What memory that is held in a file leaves there where a call of the host fails.

use crate::held_changes::{Change, drawn, make};
use crate::held_plain::Plain;
use crate::held_rig::{bytes_of, drawn_words, held, host_of, image, words_of};
use crate::same::same;
use held_memory::{HeldWords, HostFile};
use phys_memory::ListMem;
use std::alloc::{AllocError, Global};
use std::process::Abort;
use std::test::Fail;
use test_objects::MemHost;

/// How many changes are drawn.
const CHANGES: usize = 12;

/// The least call of the host that a session never makes: one for the size, two for the first writing, and two at most for
/// each change.
const PAST: u64 = 28;

/// A plain list of words, and a plain file that follows it.
#[derive(Drop)]
struct Followed {
    memory: Plain,
    file: Vec<u64>,
    /// How many calls of the host were made, and which of them fails.
    calls: u64,
    failing: u64,
}

impl Followed {
    /// Writes so many words from a place on, up to the call that fails. A call begins with the first of them, and with the first of
    /// each page.
    fn write(&mut self, at: usize, count: usize) {
        for i in 0..count {
            let place = at.saturating_add(i);
            if i == 0 || place % 512 == 0 {
                self.calls = self.calls.saturating_add(1);
            }
            if self.calls == self.failing || self.failing == 1 {
                return;
            }
            let word = self.memory.words.get(place).copied();
            if let Some(held) = self.file.get_mut(place) {
                *held = word.unwrap_or(0);
            }
        }
    }

    /// Makes a change, and writes what it changed.
    fn follow(&mut self, change: Change) -> Result<(), AllocError> {
        self.memory.follow(change)?;
        match change {
            Change::Store { at, .. } => self.write(at as usize, 1),
            Change::Run { at, count, .. } => self.write(at as usize, count as usize),
            Change::Copy { to, count, .. } => self.write(to as usize, count as usize),
        }
        Ok(())
    }

    /// How many calls failed. Where the first did, by which the size is asked for, no other was made.
    fn failures(&self) -> u64 {
        if 0 < self.failing && self.failing <= self.calls {
            return 1;
        }
        0
    }
}

/// Memory of the first words over a file of the second, and both as plain lists, with the first writing done.
fn begun(
    alloc: Global,
    words: &Vec<u64>,
    old: &Vec<u64>,
    failing: u64,
) -> Result<(HeldWords<ListMem, HostFile<MemHost>>, Followed), AllocError> {
    let host = host_of(alloc, Some(&bytes_of(alloc, old)?), failing)?;
    let file = HostFile::new(alloc, host, image(alloc)?)?;
    let mem = held(words, file)?;
    let memory = Plain {
        words: words.clone()?,
        moments: Vec::new(alloc),
    };
    let mut followed = Followed {
        memory,
        file: old.clone()?,
        calls: 1,
        failing,
    };
    followed.write(0, words.len());
    Ok((mem, followed))
}

/// The host's file.
fn file_bytes(alloc: Global, host: &MemHost) -> Result<Vec<u8>, AllocError> {
    match host.file(&image(alloc)?) {
        Some(bytes) => bytes.clone(),
        None => Ok(Vec::new(alloc)),
    }
}

/// A session of whose host's calls the one of this number fails.
fn run(rt: &impl Abort, alloc: Global, failing: u64) -> Result<(), AllocError> {
    let mut x = 5;
    let row = failing as usize;
    let words = drawn_words(alloc, &mut x)?;
    let old = drawn_words(alloc, &mut x)?;
    let (mut mem, mut followed) = begun(alloc, &words, &old, failing)?;
    for _ in 0..CHANGES {
        let change = drawn(&mut x);
        make(alloc, &mut mem, change)?;
        followed.follow(change)?;
    }
    let failures = followed.failures();
    let came = (mem.is_held(), mem.failures());
    same(rt, "held", row, &came, &(failures == 0, failures));
    let now = words_of(alloc, &mem)?;
    same(rt, "memory", row, &now, &followed.memory.words);
    let bytes = file_bytes(alloc, &mem.into_file().into_host())?;
    let due = bytes_of(alloc, &followed.file)?;
    same(rt, "file", row, &bytes, &due);
    Ok(())
}

#[test]
fn file_lacks_just_what_failed(rt: HostRuntime) -> Result<(), Fail> {
    for failing in 0..PAST {
        run(&rt, rt.alloc(), failing)?;
    }
    Ok(())
}
