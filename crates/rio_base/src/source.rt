//! Where input comes from.

ghost use Rattle.std.specs.Prelude.{◌≡◌, ◌<◌, ◌≤◌, ℕ, List, Option, Result, Ok, IfOk, OnOk, OnErr, length, take};
ghost use Rattle.rio_base.specs.Failures.{HasCause};
ghost use Rattle.rio_base.specs.Streams.{prepended, IsSpent};

use crate::failures::Failed;

/// A stream of bytes that are read once.
pub trait Source {
    /// The bytes left, where the source tells them.
    ghost left: { Self → Option (List ℕ) };

    /// How many calls failed so far, up to the largest `u64`.
    ghost faults: { Self → ℕ };

    /// Reads up to `into.len()` bytes into the front of `into` and answers how many. 0 for a piece that isn't empty
    /// is the end of the input. `Failed` takes nothing, and comes only where the count of faults rose.
    fn read(&mut self, into: &mut [u8]) -> Result<usize, Failed>
        ensures bound { IfOk result (λ n. n ≤ length into.new) }
        ensures bytes { IfOk result (λ n. left self.old ≡ prepended (take n into.new) (left self.new)) }
        ensures end { result ≡ Ok 0 → 0 < length into.new → IsSpent (left self.new) }
        ensures steady { OnOk result (faults self.new ≡ faults self.old) }
        ensures err { OnErr result (left self.new ≡ left self.old) }
        ensures cause { HasCause result (faults self.old) (faults self.new) };
}
