//! Drawn changes of memory that is held in a file.

ghost use Rattle.std.specs.Prelude.{◌<◌};

use rio_base::{MemWords, WordAt};
use std::alloc::{AllocError, Global};

/// How many words memory has, and how many are on a page.
pub(crate) const WORDS: u32 = 1_024;

/// A change of words of memory. Places and counts are of words.
#[derive(Clone, Copy)]
pub(crate) enum Change {
    Store { at: u16, word: u64 },
    /// A run of `count` words, the first `word`, and each one more than the one before.
    Run { at: u16, count: u16, word: u64 },
    Copy { from: u16, to: u16, count: u16 },
}

/// The next number of a generator, below 32,768.
pub(crate) fn draw(x: &mut u64) -> u64 {
    *x = (1_103_515_245 * (*x % 2_147_483_648) + 12_345) % 2_147_483_648;
    *x / 65_536
}

/// A drawn place of a run: in every third case shortly before the end of a page.
fn place(x: &mut u64) -> u16 {
    if draw(x) % 3 == 0 {
        return (500 + draw(x) % 12) as u16;
    }
    (draw(x) % 1_000) as u16
}

/// A drawn change.
pub(crate) fn drawn(x: &mut u64) -> Change {
    let at = place(x);
    let count = (draw(x) % 24) as u16;
    let word = draw(x);
    match draw(x) % 4 {
        0 => Change::Store { at, word },
        1 => Change::Copy {
            from: (draw(x) % 450) as u16,
            to: (480 + draw(x) % 500) as u16,
            count,
        },
        2 => Change::Copy {
            from: (540 + draw(x) % 400) as u16,
            to: (draw(x) % 500) as u16,
            count,
        },
        _ => Change::Run { at, count, word },
    }
}

/// The words of a run.
fn run_of(alloc: Global, word: u64, count: u16) -> Result<Vec<u64>, AllocError> {
    let mut run = Vec::new(alloc);
    for i in 0..count {
        run.push(word.wrapping_add(u64::from(i)))?;
    }
    Ok(run)
}

/// Makes a change, where there are the words for it.
pub(crate) fn make<M: MemWords>(
    alloc: Global,
    mem: &mut M,
    change: Change,
) -> Result<(), AllocError> {
    match change {
        Change::Store { at, word } => store(mem, u32::from(at), word),
        Change::Run { at, count, word } => {
            let run = run_of(alloc, word, count)?;
            store_run(mem, u32::from(at), &run);
        }
        Change::Copy { from, to, count } => copy(mem, from, to, count),
    }
    Ok(())
}

fn store<M: MemWords>(mem: &mut M, at: u32, word: u64) {
    if at < mem.len() {
        mem.store(WordAt(at), word);
    }
}

fn store_run<M: MemWords>(mem: &mut M, at: u32, run: &[u64]) {
    let len = mem.len();
    if at <= len && run.len() <= (len - at) as usize {
        mem.store_run(WordAt(at), run);
    }
}

fn copy<M: MemWords>(mem: &mut M, from: u16, to: u16, count: u16) {
    let (from, to, n) = (u32::from(from), u32::from(to), u32::from(count));
    let len = mem.len();
    if len < from + n || len < to + n {
        return;
    }
    if from + n <= to {
        mem.copy_words(WordAt(from), WordAt(to), n);
        return;
    }
    if to + n <= from {
        mem.copy_words(WordAt(from), WordAt(to), n);
    }
}
