//! What the file that holds a memory is at each moment while that is changed.

use crate::held_changes::{WORDS, drawn, make};
use crate::held_plain::Plain;
use crate::held_rig::{drawn_words, held, words_of};
use crate::past_file::PastFile;
use crate::same::same;
use std::alloc::{AllocError, Global};
use std::process::Abort;
use std::test::Fail;

/// How many changes are drawn.
const CHANGES: usize = 40;

/// A plain list of these words, each of which was stored once, from the first on.
fn begun(alloc: Global, words: &Vec<u64>) -> Result<Plain, AllocError> {
    let mut plain = Plain {
        words: words.clone()?,
        moments: Vec::new(alloc),
    };
    for at in 0..words.len() {
        plain.set(at, words[at])?;
    }
    Ok(plain)
}

/// A file of these words.
fn past_file(alloc: Global, words: &Vec<u64>) -> Result<PastFile, AllocError> {
    if words.len() != WORDS as usize {
        return Err(AllocError);
    }
    Ok(PastFile::new(words.clone()?, Vec::new(alloc)))
}

/// The first place at which two lists of moments are not the same.
fn first_other(came: &[Vec<u64>], due: &[Vec<u64>]) -> Option<usize> {
    for at in 0..came.len().max(due.len()) {
        if came.get(at) != due.get(at) {
            return Some(at);
        }
    }
    None
}

/// Changes memory as is drawn from this number on, and a plain list in the same way: the file was at each moment what the list was.
fn run(rt: &impl Abort, alloc: Global, seed: usize) -> Result<(), AllocError> {
    let mut x = seed as u64;
    let words = drawn_words(alloc, &mut x)?;
    let mut plain = begun(alloc, &words)?;
    let mut mem = held(&words, past_file(alloc, &words)?)?;
    for _ in 0..CHANGES {
        let change = drawn(&mut x);
        make(alloc, &mut mem, change)?;
        plain.follow(change)?;
    }
    let whole = (mem.is_held(), mem.failures());
    same(rt, "held", seed, &whole, &(true, 0));
    same(rt, "memory", seed, &words_of(alloc, &mem)?, &plain.words);
    let (words, past) = mem.into_file().into_parts();
    same(rt, "file", seed, &words, &plain.words);
    same(
        rt,
        "moments",
        seed,
        &first_other(&past, &plain.moments),
        &None,
    );
    Ok(())
}

#[test]
fn file_is_at_each_moment_what_memory_was(rt: HostRuntime) -> Result<(), Fail> {
    for seed in 1..7 {
        run(&rt, rt.alloc(), seed)?;
    }
    Ok(())
}
