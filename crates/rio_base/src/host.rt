//! Where files are.

ghost use Rattle.std.specs.Prelude.{◌≡◌, ◌<◌, ◌≤◌, ◌⊎◌, ℕ, List, Option, Result, Ok, IfOk, OnOk, OnErr, length, take};
ghost use Rattle.std.specs.String.{string_bytes};
ghost use Rattle.rio_base.specs.Failures.{HasCause, Rose};
ghost use Rattle.rio_base.specs.Hosts.{Asked, AsksFor, EndsBy, Files, HasBytes, HasSize, Overwrites, TearsWithin, with_file};

use crate::failures::Failed;

/// Files by their names. A call that answers `Failed` counted a fault. A call that is given the name of one file changes
/// no other, and asks for no other. A file that isn't there has no bytes: that it isn't there is no fault.
pub trait Host {
    /// The bytes of each file, where the host tells them.
    ghost files: { Self → Option Files };

    /// How often each file was asked for.
    ghost asked: { Self → Asked };

    /// How many calls failed so far, up to the largest `u64`.
    ghost faults: { Self → ℕ };

    /// How many bytes a file has, or `None` where there is no such file.
    fn size(&mut self, name: &String) -> Result<Option<u64>, Failed>
        ensures files { files self.new ≡ files self.old }
        ensures size { IfOk result (λ size. HasSize (files self.old) (string_bytes name.now) size) }
        ensures asked { AsksFor (string_bytes name.now) (asked self.old) (asked self.new) }
        ensures cause { HasCause result (faults self.old) (faults self.new) };

    /// Reads bytes of a file from byte `off` on into the front of `into`, and answers how many. A host that gives none
    /// where the file has some, and `into` has room, counts a fault. A file that isn't there gives none.
    fn read_at(&mut self, name: &String, off: u64, into: &mut [u8]) -> Result<usize, Failed>
        ensures files { files self.new ≡ files self.old }
        ensures bound { IfOk result (λ n. n ≤ length into.new) }
        ensures bytes { IfOk result (λ n. HasBytes (files self.old) (string_bytes name.now) off (take n into.new)) }
        ensures end { result ≡ Ok 0 → 0 < length into.new → EndsBy (files self.old) (string_bytes name.now) off ⊎ Rose (faults self.old) (faults self.new) }
        ensures asked { AsksFor (string_bytes name.now) (asked self.old) (asked self.new) }
        ensures cause { HasCause result (faults self.old) (faults self.new) };

    /// Writes all of `from` over a file's bytes from byte `off` on. The file grows where it ends before that, with zeros up
    /// to `off`. A write that failed may have changed the bytes of this range, and no others. A file that isn't there is
    /// made.
    fn write_at(&mut self, name: &String, off: u64, from: &[u8]) -> Result<(), Failed>
        ensures ok { OnOk result (Overwrites (files self.old) (string_bytes name.now) off from.now (files self.new)) }
        ensures err { OnErr result (TearsWithin (files self.old) (string_bytes name.now) off (length from.now) (files self.new)) }
        ensures asked { AsksFor (string_bytes name.now) (asked self.old) (asked self.new) }
        ensures cause { HasCause result (faults self.old) (faults self.new) };

    /// Brings what was written into a file to the device.
    fn sync(&mut self, name: &String) -> Result<(), Failed>
        ensures files { files self.new ≡ files self.old }
        ensures asked { AsksFor (string_bytes name.now) (asked self.old) (asked self.new) }
        ensures cause { HasCause result (faults self.old) (faults self.new) };

    /// Makes a file of these bytes, in place of the one of this name where there is one. Where it fails the old file
    /// stays, or there is still none.
    fn replace(&mut self, name: &String, from: &[u8]) -> Result<(), Failed>
        ensures ok { OnOk result (files self.new ≡ with_file (string_bytes name.now) from.now (files self.old)) }
        ensures err { OnErr result (files self.new ≡ files self.old) }
        ensures asked { AsksFor (string_bytes name.now) (asked self.old) (asked self.new) }
        ensures cause { HasCause result (faults self.old) (faults self.new) };

    /// How many calls failed so far, up to the largest `u64`.
    fn faults(&self) -> u64
        ensures { result ≡ faults self.now };
}
