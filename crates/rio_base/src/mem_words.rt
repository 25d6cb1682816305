//! Words in memory.

ghost use Rattle.std.specs.Prelude.{◌≡◌, ◌<◌, ◌≤◌, ◌+◌, ◌*◌, ◌^◌, ℕ, List, length, slice_index, slice_set};
ghost use Rattle.rio_base.specs.Memory.{AreApart, FrontStored, copied_words, page_at};

use crate::places::{Page, WordAt};

/// A list of words of 8 bytes, fewer than 4,294,967,296. It has no shorter and no longer afterwards than it was made.
pub trait MemWords {
    /// The words.
    ghost words: { Self → List ℕ };

    /// How many words there are.
    fn len(&self) -> u32
        ensures { result ≡ length (words self.now) };

    /// The word at a place.
    fn load(&self, at: WordAt) -> u64
        requires { at.0 < length (words self.now) }
        ensures { result ≡ slice_index (words self.now) at.0 };

    /// Changes the word at a place.
    fn store(&mut self, at: WordAt, v: u64)
        requires { at.0 < length (words self.old) }
        ensures { words self.new ≡ slice_set (words self.old) at.0 v };

    /// Changes a run of words, from a place on.
    fn store_run(&mut self, at: WordAt, from: &[u64])
        requires { at.0 + length from.now ≤ length (words self.old) }
        ensures { FrontStored at.0 (length from.now) from.now (words self.old) (words self.new) }
    {
        for i in 0..from.len() {
            self.store(WordAt(at.0 + i as u32), from[i]);
        }
    }

    /// Lends the 512 words of a page.
    fn frame(&self, p: Page) -> &[u64]
        requires { 512 * p.0 + 512 ≤ length (words self.now) }
        ensures { result.now ≡ page_at (words self.now) p.0 };

    /// Copies `n` words to another place. The two spans have no word in common.
    fn copy_words(&mut self, from: WordAt, to: WordAt, n: u32)
        requires from { from.0 + n ≤ length (words self.old) }
        requires to { to.0 + n ≤ length (words self.old) }
        requires apart { AreApart from.0 to.0 n }
        ensures { words self.new ≡ copied_words (words self.old) from.0 to.0 n };

    ghost small: { (m : Self) → length (words m) < 2 ^ 32 };
}
