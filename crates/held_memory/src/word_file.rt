//! Files of words.

ghost use Rattle.std.specs.Prelude.{◌≡◌, ◌<◌, ◌≤◌, ◌+◌, ◌^◌, ℕ, List, Option, IfOk, OnOk, OnErr, length};
ghost use Rattle.rio_base.specs.Failures.{HasCause};
ghost use Rattle.held_memory.specs.WordFiles.{FileBytes, IsSize, TearsWords, WritesInOrder, WritesWords};

use rio_base::Failed;

/// A file to which runs of words are written, 8 bytes of each word, the lowest first. It may be told what the file has, and what
/// it was at each moment so far. A call that answers `Failed` counted a fault.
pub trait WordFile {
    /// What the file has, where that is told: its bytes, or `None` where there is no such file.
    ghost content: { Self → Option FileBytes };

    /// What the file was at each moment of a write so far, the earliest first, where that is told.
    ghost past: { Self → Option (List FileBytes) };

    /// How many calls failed so far, up to the largest `u64`.
    ghost faults: { Self → ℕ };

    /// How many bytes the file has, or `None` where there is no such file.
    fn size(&mut self) -> Result<Option<u64>, Failed>
        ensures content { content self.new ≡ content self.old }
        ensures past { past self.new ≡ past self.old }
        ensures size { IfOk result (λ size. IsSize (content self.old) size) }
        ensures cause { HasCause result (faults self.old) (faults self.new) };

    /// Writes a run of words over the file's own from word `at` on, in their order: whatever cuts the call off leaves a front of
    /// them written. A call that failed may have changed the bytes of these words, and no others. A file that isn't there is
    /// made.
    fn write_words(&mut self, at: u32, words: &[u64]) -> Result<(), Failed>
        requires few { length words.now ≤ 512 }
        requires small { at + length words.now < 2 ^ 32 }
        ensures ok { OnOk result (WritesWords at words.now (content self.old) (content self.new)) }
        ensures err { OnErr result (TearsWords at (length words.now) (content self.old) (content self.new)) }
        ensures moments { WritesInOrder at words.now (content self.old) (past self.old) (past self.new) }
        ensures cause { HasCause result (faults self.old) (faults self.new) };

    /// How many calls failed so far, up to the largest `u64`.
    fn faults(&self) -> u64
        ensures { result ≡ faults self.now };
}
