//! Words of memory that a file follows.

ghost use Rattle.std.specs.Prelude.{◌≡◌, ◌<◌, ◌≤◌, ◌+◌, ◌%◌, ◌↔◌, ◌∷◌, [], Some, true, false, length, slice_set, take, drop};
ghost use Rattle.rio_base.specs.Bytes.{bytes_of};
ghost use Rattle.rio_base.specs.Memory.{AreApart, FrontStored, copied_words};
ghost use Rattle.held_memory.specs.Held.{Holds, Misfits, StoresInOrder};
ghost use Rattle.held_memory.specs.WordFiles.{Meanwhile};

use crate::held_file::HeldFile;
use crate::word_file::WordFile;
use rio_base::{MemWords, Page, WordAt};

/// Words of memory in whole pages, each of which is in a file as soon as it is stored: memory is changed first, then the file, and
/// nothing else is stored in between. A run of words that lies within a page is written by one call.
///
/// Where the file is as long as the words and no call of it failed, it has their bytes. A call that failed is counted, and from
/// then on the file counts as one that does not have them, whatever is written to it.
#[derive(Drop)]
pub struct HeldWords<F: MemWords, W: WordFile> {
    mem: F,
    file: HeldFile<W>,
    ghost pages: { length (F.words mem) % 512 ≡ 0 },
    ghost held: { file.fits ≡ true → file.failed ≡ 0 → Holds (W.content file.file) (F.words mem) },
    ghost misfits: { file.fits ≡ false → file.failed ≡ 0 → Misfits (W.content file.file) (length (F.words mem)) },
}

impl<F: MemWords + Drop, W: WordFile + Drop> HeldWords<F, W> {
    /// A memory whose words are first written to a file, where it is as long as they are. A file that has them already is the
    /// same at each moment of that, and one of another length is not written to.
    pub fn new(mem: F, file: W) -> HeldWords<F, W>
        requires whole { length (F.words mem) % 512 ≡ 0 }
        ensures words { ⟦<HeldWords<F, W> as MemWords>⟧.words result ≡ F.words mem }
        ensures left { result.file.fits ≡ false → (W.content result.file.file ≡ W.content file) × (W.past result.file.file ≡ W.past file) }
        ensures same { W.content file ≡ Some (Some (bytes_of (F.words mem))) → Meanwhile (λ at_moment. at_moment ≡ Some (bytes_of (F.words mem))) (W.past file) (W.past result.file.file) }
    {
        let count = mem.len();
        let mut file = HeldFile::new(file, count);
        file.hold(&mem, 0, count);
        HeldWords { mem, file }
    }

    /// Looks whether the file is still there and as long as the words. Where it is not, it does not count as one that has them.
    pub fn look_again(&mut self)
        ensures words { ⟦<HeldWords<F, W> as MemWords>⟧.words self.new ≡ ⟦<HeldWords<F, W> as MemWords>⟧.words self.old }
        ensures content { W.content self.new.file.file ≡ W.content self.old.file.file }
    {
        let count = self.mem.len();
        self.file.look_again(count);
    }

    /// Whether the file has the words: it was as long as they are, and no call of it failed.
    pub fn is_held(&self) -> bool
        ensures holds { result ≡ true → Holds (W.content self.now.file.file) (⟦<HeldWords<F, W> as MemWords>⟧.words self.now) }
        ensures is { result ≡ true ↔ (self.now.file.fits ≡ true) × (self.now.file.failed ≡ 0) }
    {
        self.file.fits && self.file.failed == 0
    }

    /// How many calls of the file failed, up to the largest `u64`.
    pub fn failures(&self) -> u64
        ensures { result ≡ self.now.file.failed }
    {
        self.file.failed
    }

    /// The file.
    pub fn into_file(self) -> W
        ensures { result ≡ self.file.file }
    {
        let HeldWords { mem: _, file } = self;
        file.into_file()
    }
}

impl<F: MemWords, W: WordFile> MemWords for HeldWords<F, W> {
    ghost words = { λ m. F.words m.mem };

    ghost small = { λ m. F.small m.mem };

    fn len(&self) -> u32 {
        self.mem.len()
    }

    fn load(&self, at: WordAt) -> u64 {
        self.mem.load(at)
    }

    fn store(&mut self, at: WordAt, v: u64)
        requires { at.0 < length (F.words self.old.mem) }
        ensures words { F.words self.new.mem ≡ slice_set (F.words self.old.mem) at.0 v }
        ensures failed { self.old.file.failed ≤ self.new.file.failed }
        ensures fits { self.new.file.fits ≡ self.old.file.fits }
        ensures left { self.old.file.fits ≡ false → self.new.file ≡ self.old.file }
        ensures moments { self.old.file.fits ≡ true → self.old.file.failed ≡ 0 → StoresInOrder at.0 (v ∷ []) (F.words self.old.mem) (W.content self.old.file.file) (W.past self.old.file.file) (W.past self.new.file.file) }
    {
        self.mem.store(at, v);
        self.file.hold(&self.mem, at.0, at.0 + 1);
    }

    fn store_run(&mut self, at: WordAt, from: &[u64])
        requires { at.0 + length from.now ≤ length (F.words self.old.mem) }
        ensures words { FrontStored at.0 (length from.now) from.now (F.words self.old.mem) (F.words self.new.mem) }
        ensures failed { self.old.file.failed ≤ self.new.file.failed }
        ensures fits { self.new.file.fits ≡ self.old.file.fits }
        ensures left { self.old.file.fits ≡ false → self.new.file ≡ self.old.file }
        ensures moments { self.old.file.fits ≡ true → self.old.file.failed ≡ 0 → StoresInOrder at.0 from.now (F.words self.old.mem) (W.content self.old.file.file) (W.past self.old.file.file) (W.past self.new.file.file) }
    {
        self.mem.store_run(at, from);
        self.file.hold(&self.mem, at.0, at.0 + from.len() as u32);
    }

    fn frame(&self, p: Page) -> &[u64] {
        self.mem.frame(p)
    }

    fn copy_words(&mut self, from: WordAt, to: WordAt, n: u32)
        requires from { from.0 + n ≤ length (F.words self.old.mem) }
        requires to { to.0 + n ≤ length (F.words self.old.mem) }
        requires apart { AreApart from.0 to.0 n }
        ensures words { F.words self.new.mem ≡ copied_words (F.words self.old.mem) from.0 to.0 n }
        ensures failed { self.old.file.failed ≤ self.new.file.failed }
        ensures fits { self.new.file.fits ≡ self.old.file.fits }
        ensures left { self.old.file.fits ≡ false → self.new.file ≡ self.old.file }
        ensures moments { self.old.file.fits ≡ true → self.old.file.failed ≡ 0 → StoresInOrder to.0 (take n (drop from.0 (F.words self.old.mem))) (F.words self.old.mem) (W.content self.old.file.file) (W.past self.old.file.file) (W.past self.new.file.file) }
    {
        self.mem.copy_words(from, to, n);
        self.file.hold(&self.mem, to.0, to.0 + n);
    }
}
