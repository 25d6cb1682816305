//! Where output goes.

ghost use Rattle.std.specs.Prelude.{◌≡◌, ◌<◌, ◌≤◌, ℕ, List, Option, Result, Ok, IfOk, OnErr, length, take};
ghost use Rattle.rio_base.specs.Failures.{HasCause, Rose};
ghost use Rattle.rio_base.specs.Streams.{appended};

use crate::failures::Failed;

/// A stream of bytes that are written once.
pub trait Sink {
    /// The bytes written, where the sink tells them.
    ghost written: { Self → Option (List ℕ) };

    /// How many calls failed so far, up to the largest `u64`.
    ghost faults: { Self → ℕ };

    /// Writes bytes from the front of `from` and answers how many. A sink that takes nothing of a piece that isn't
    /// empty counts a fault. `Failed` writes nothing, and comes only where the count of faults rose.
    fn write(&mut self, from: &[u8]) -> Result<usize, Failed>
        ensures bound { IfOk result (λ n. n ≤ length from.now) }
        ensures bytes { IfOk result (λ n. written self.new ≡ appended (written self.old) (take n from.now)) }
        ensures nothing { result ≡ Ok 0 → 0 < length from.now → Rose (faults self.old) (faults self.new) }
        ensures steady { IfOk result (λ n. 0 < n → faults self.new ≡ faults self.old) }
        ensures err { OnErr result (written self.new ≡ written self.old) }
        ensures cause { HasCause result (faults self.old) (faults self.new) };
}
