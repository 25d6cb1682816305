//! Words that lie one after the other, for the objects in memory.

ghost use Rattle.std.specs.Prelude.{◌≡◌, ◌≤◌, ◌+◌, length};
ghost use Rattle.std.proofs.Math.Seq.{paste};

/// Stores the first `n` of `from` from place `at` on.
pub(crate) fn store_front(words: &mut Vec<u64>, at: usize, from: &[u64], n: usize)
    requires front { n ≤ length from.now }
    requires room { at + n ≤ length words.old.items }
    ensures { words.new.items ≡ paste words.old.items at from.now n }
{
    words[at..at + n].copy_from_slice(&from[..n]);
}
