//! A file that follows the words of a memory.

ghost use Rattle.std.specs.Prelude.{◌≡◌, ◌<◌, ◌≤◌, ◌+◌, ◌*◌, ◌%◌, ℕ, List, Some, None, true, false, OnOk, length, take, drop};
ghost use Rattle.rio_base.specs.Bytes.{bytes_of};
ghost use Rattle.rio_base.specs.Failures.{HasCause};
ghost use Rattle.held_memory.specs.Held.{HasRisen, IsFilled, Misfits, SameBut};
ghost use Rattle.held_memory.specs.WordFiles.{IsSize, Meanwhile};

use crate::word_file::WordFile;
use rio_base::{Failed, MemWords, PAGE_WORDS, Page};

/// A file that follows the words of a memory, where it is as long as they are. One that isn't is left as it is.
#[derive(Drop)]
pub(crate) struct HeldFile<W: WordFile> {
    pub(crate) file: W,
    /// The file was as long as the words.
    pub(crate) fits: bool,
    /// How many of its calls had failed before.
    pub(crate) since: u64,
    /// How many calls have failed since, up to the largest `u64`.
    pub(crate) failed: u64,
    ghost later: { since ≤ W.faults file },
    ghost cause: { 0 < failed → HasRisen since (W.faults file) },
}

impl<W: WordFile + Drop> HeldFile<W> {
    /// The file for a memory of so many words. Nothing is written yet.
    pub(crate) fn new(file: W, count: u32) -> HeldFile<W>
        ensures content { W.content result.file ≡ W.content file }
        ensures past { W.past result.file ≡ W.past file }
        ensures fits { result.fits ≡ true → IsSize (W.content result.file) (Some (8 * count)) }
        ensures misfits { result.fits ≡ false → result.failed ≡ 0 → Misfits (W.content result.file) count }
    {
        let mut file = file;
        let since = file.faults();
        let Ok(size) = file.size() else {
            return HeldFile {
                file,
                fits: false,
                since,
                failed: 1,
            };
        };
        let fits = size == Some(8 * u64::from(count));
        HeldFile {
            file,
            fits,
            since,
            failed: 0,
        }
    }
}

impl<W: WordFile> HeldFile<W> {
    /// Writes the words of the memory from place `at` on, up to place `upto`, to their places. The words outside are in the file
    /// already.
    pub(crate) fn hold<F: MemWords>(&mut self, mem: &F, at: u32, upto: u32)
        requires whole { length (F.words mem.now) % 512 ≡ 0 }
        requires span { at ≤ upto }
        requires within { upto ≤ length (F.words mem.now) }
        ensures fits { self.new.fits ≡ self.old.fits }
        ensures since { self.new.since ≡ self.old.since }
        ensures failed { self.old.failed ≤ self.new.failed }
        ensures left { self.old.fits ≡ false → self.new ≡ self.old }
        ensures untold { self.new.failed ≡ 0 → W.content self.old.file ≡ None → W.content self.new.file ≡ None }
        ensures holds { self.new.fits ≡ true → self.new.failed ≡ 0 → (whole : List ℕ) → W.content self.old.file ≡ Some (Some whole) → SameBut at upto whole (F.words mem.now) → W.content self.new.file ≡ Some (Some (bytes_of (F.words mem.now))) }
        ensures moments { (whole : List ℕ) → W.content self.old.file ≡ Some (Some whole) → SameBut at upto whole (F.words mem.now) → Meanwhile (IsFilled at upto whole (F.words mem.now)) (W.past self.old.file) (W.past self.new.file) }
    {
        if !self.fits {
            return;
        }
        match hold_words(mem, at, upto, &mut self.file) {
            Ok(()) => {}
            Err(_) => self.failed = self.failed.saturating_add(1),
        }
    }

    /// Looks whether the file is still as long as the words. One that lost its name, or that somebody cut short, does not hold them.
    pub(crate) fn look_again(&mut self, count: u32)
        ensures content { W.content self.new.file ≡ W.content self.old.file }
        ensures past { W.past self.new.file ≡ W.past self.old.file }
        ensures fits { self.new.fits ≡ true → self.old.fits ≡ true }
        ensures misfits { self.old.fits ≡ true → self.new.fits ≡ false → Misfits (W.content self.new.file) count }
        ensures failed { self.new.failed ≡ 0 → self.old.failed ≡ 0 }
        ensures since { self.new.since ≡ self.old.since }
    {
        if !self.fits {
            return;
        }
        let Ok(size) = self.file.size() else {
            self.failed = self.failed.saturating_add(1);
            return;
        };
        self.fits = size == Some(8 * u64::from(count));
    }

    /// The file.
    pub(crate) fn into_file(self) -> W
        ensures { result ≡ self.file }
    {
        let HeldFile {
            file,
            fits: _,
            since: _,
            failed: _,
        } = self;
        file
    }
}

/// Writes the words of a memory from place `at` on, up to place `upto`, to their places in a file: one call for each page.
fn hold_words<F: MemWords, W: WordFile>(
    mem: &F,
    at: u32,
    upto: u32,
    file: &mut W,
) -> Result<(), Failed>
    requires whole { length (F.words mem.now) % 512 ≡ 0 }
    requires span { at ≤ upto }
    requires within { upto ≤ length (F.words mem.now) }
    ensures untold { OnOk result (W.content file.old ≡ None → W.content file.new ≡ None) }
    ensures holds { OnOk result ((whole : List ℕ) → W.content file.old ≡ Some (Some whole) → SameBut at upto whole (F.words mem.now) → W.content file.new ≡ Some (Some (bytes_of (F.words mem.now)))) }
    ensures moments { (whole : List ℕ) → W.content file.old ≡ Some (Some whole) → SameBut at upto whole (F.words mem.now) → Meanwhile (IsFilled at upto whole (F.words mem.now)) (W.past file.old) (W.past file.new) }
    ensures cause { HasCause result (W.faults file.old) (W.faults file.new) }
{
    let mut done = at;
    'pages: while done < upto {
        let words = part_from(mem, done, upto);
        file.write_words(done, words)?;
        done += words.len() as u32;
    }
    Ok(())
}

/// Lends the words from place `at` on, up to the end of their page or to place `upto`.
fn part_from<F: MemWords>(mem: &F, at: u32, upto: u32) -> &[u64]
    requires whole { length (F.words mem.now) % 512 ≡ 0 }
    requires span { at < upto }
    requires within { upto ≤ length (F.words mem.now) }
    ensures some { 0 < length result.now }
    ensures few { length result.now ≤ 512 }
    ensures upto { at + length result.now ≤ upto }
    ensures words { result.now ≡ take (length result.now) (drop at (F.words mem.now)) }
{
    let first = at % PAGE_WORDS;
    let count = (PAGE_WORDS - first).min(upto - at);
    part_of(mem.frame(Page(at / PAGE_WORDS)), first, count)
}

/// Lends a part of a page.
fn part_of(page: &[u64], first: u32, count: u32) -> &[u64]
    requires page { length page.now ≡ 512 }
    requires within { first + count ≤ 512 }
    ensures count { length result.now ≡ count }
    ensures words { result.now ≡ take count (drop first page.now) }
{
    let from = first as usize;
    &page[from..from + count as usize]
}
