//! A file of words in memory that keeps what it was at each moment.

ghost use Rattle.std.specs.Prelude.{◌≡◌, ◌<◌, ◌≤◌, ◌+◌, ◌^◌, ◌++◌, Some, IfOk, OnOk, OnErr, length, take, drop};
ghost use Rattle.rio_base.specs.Bytes.{bytes_of};
ghost use Rattle.held_memory.specs.WordFiles.{IsWrittenFront, Meanwhile};
ghost use Rattle.part_tests.specs.PastFiles.{seen};

use held_memory::WordFile;
use rio_base::Failed;
use std::alloc::AllocError;

/// A file of words, to which each run is written word by word, and what it had before each of them. A write beyond its end
/// fails, and so does one that finds no memory.
#[derive(Drop)]
pub(crate) struct PastFile {
    words: Vec<u64>,
    /// What the words were at each moment, the earliest first.
    past: Vec<Vec<u64>>,
    faults: u64,
    ghost small: { length words.items < 2 ^ 32 },
}

impl PastFile {
    /// A file of these words, with no moment yet.
    pub(crate) fn new(words: Vec<u64>, none: Vec<Vec<u64>>) -> PastFile
        requires { length words.items < 2 ^ 32 }
    {
        PastFile {
            words,
            past: none,
            faults: 0,
        }
    }

    /// Its words, and what they were at each moment.
    pub(crate) fn into_parts(self) -> (Vec<u64>, Vec<Vec<u64>>) {
        let PastFile {
            words,
            past,
            faults: _,
        } = self;
        (words, past)
    }

    /// Writes a run of words, and keeps the moments of that. Where it fails the words are as before.
    fn write_run(&mut self, at: usize, run: &[u64]) -> Result<(), AllocError>
        ensures inside { OnOk result (at + length run.now ≤ length self.old.words.items) }
        ensures ok { OnOk result (self.new.words.items ≡ take at self.old.words.items ++ (run.now ++ drop (at + length run.now) self.old.words.items)) }
        ensures err { OnErr result (self.new.words.items ≡ self.old.words.items) }
        ensures moments { Meanwhile (IsWrittenFront at run.now (bytes_of self.old.words.items)) (Some (seen self.old.past.items)) (Some (seen self.new.past.items)) }
        ensures faults { self.new.faults ≡ self.old.faults }
    {
        if self.words.len() < at || self.words.len() - at < run.len() {
            return Err(AllocError);
        }
        let words = with_run(&self.words, at, run)?;
        keep_fronts(&self.words, at, run, &mut self.past)?;
        self.words = words;
        Ok(())
    }
}

impl WordFile for PastFile {
    ghost content = { λ f. Some (Some (bytes_of f.words.items)) };

    ghost past = { λ f. Some (seen f.past.items) };

    ghost faults = { λ f. f.faults };

    fn size(&mut self) -> Result<Option<u64>, Failed> {
        Ok(Some(8 * self.words.len() as u64))
    }

    fn write_words(&mut self, at: u32, words: &[u64]) -> Result<(), Failed> {
        match self.write_run(at as usize, words) {
            Ok(()) => Ok(()),
            Err(_) => {
                self.faults = self.faults.saturating_add(1);
                Err(Failed)
            }
        }
    }

    fn faults(&self) -> u64 {
        self.faults
    }
}

/// Keeps the words with each front of a run in place, but with the whole of it.
fn keep_fronts(
    words: &Vec<u64>,
    at: usize,
    run: &[u64],
    past: &mut Vec<Vec<u64>>,
) -> Result<(), AllocError>
    requires { at + length run.now ≤ length words.now.items }
    ensures { Meanwhile (IsWrittenFront at run.now (bytes_of words.now.items)) (Some (seen past.old.items)) (Some (seen past.new.items)) }
{
    for m in 0..run.len() {
        past.push(with_run(words, at, &run[..m])?)?;
    }
    Ok(())
}

/// The words with a run in place.
fn with_run(words: &Vec<u64>, at: usize, run: &[u64]) -> Result<Vec<u64>, AllocError>
    requires { at + length run.now ≤ length words.now.items }
    ensures { IfOk result (λ v. v.items ≡ take at words.now.items ++ (run.now ++ drop (at + length run.now) words.now.items)) }
{
    let mut new = words.clone()?;
    put_over(&mut new, at, run);
    Ok(new)
}

/// Puts a run over the words from place `at` on.
fn put_over(words: &mut [u64], at: usize, run: &[u64])
    requires { at + length run.now ≤ length words.old }
    ensures { words.new ≡ take at words.old ++ (run.now ++ drop (at + length run.now) words.old) }
{
    words[at..at + run.len()].copy_from_slice(run);
}
