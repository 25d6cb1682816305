//! What a bench kept of its machine, beside the image before a run and after it.

use crate::bytes::{tell_whether, word_at};
use machine_bench::{KeepBench, KeptEnd, KeptStart};
use rio_base::Page;
use std::alloc::AllocError;
use test_scripts::tell_line;

/// Words of a page.
const PAGE_WORDS: u32 = 512;

/// Bytes of a word.
const WORD_BYTES: usize = 8;

/// Tells whether the machine that a bench made began with the words of the image before the run, whether it was left with
/// those of the image after it, and whether it was stopped.
pub fn tell_kept(
    bench: &KeepBench,
    before: &[u8],
    after: &[u8],
    out: &mut Vec<u8>,
) -> Result<(), AllocError> {
    match bench.began() {
        Some(began) => tell_began(began, before, out)?,
        None => tell_line(out, b"no machine began")?,
    }
    match bench.left() {
        Some(left) => tell_left(left, after, out),
        None => tell_line(out, b"no machine was left"),
    }
}

/// Tells how a machine began, beside the image before the run.
fn tell_began(began: &KeptStart, before: &[u8], out: &mut Vec<u8>) -> Result<(), AllocError> {
    let words = began.words.as_slice();
    let is_image = before.len() == words.len().saturating_mul(WORD_BYTES)
        && are_words(before, 0, words);
    tell_whether(
        is_image,
        b"began with the image",
        b"began with other words",
        out,
    )
}

/// Tells how a machine was left, beside the image after the run.
fn tell_left(left: &KeptEnd, after: &[u8], out: &mut Vec<u8>) -> Result<(), AllocError> {
    tell_whether(
        are_pages(after, left),
        b"left with the image",
        b"left with other words",
        out,
    )?;
    tell_whether(left.stopped, b"stopped", b"not stopped", out)
}

/// Whether these words are among bytes, from the place of a word on.
fn are_words(bytes: &[u8], from: usize, words: &[u64]) -> bool {
    for k in 0..words.len() {
        match word_at(bytes, from.saturating_add(k)) {
            Some(word) if word == words[k] => {}
            _ => return false,
        }
    }
    true
}

/// Whether these are the bytes of the memory that a machine was left with.
fn are_pages(bytes: &[u8], left: &KeptEnd) -> bool {
    let pages = left.len() / PAGE_WORDS;
    let words = pages as usize * PAGE_WORDS as usize;
    if bytes.len() != words * WORD_BYTES {
        return false;
    }
    for p in 0..pages {
        let from = p as usize * PAGE_WORDS as usize;
        if !are_words(bytes, from, left.frame(Page(p))) {
            return false;
        }
    }
    true
}
