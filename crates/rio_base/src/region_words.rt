//! The words of one region's file, in place on a volume.

ghost use Rattle.std.specs.Prelude.{◌≡◌, ◌<◌, ◌≤◌, ◌+◌, ◌^◌, ℕ, Some, IfOk, OnOk, IsErrOf, length};
ghost use Rattle.rio_base.specs.Blocks.{Ends, FaultAt, Health, as_word};
ghost use Rattle.rio_base.specs.Volume.{Below};
ghost use Rattle.rio_base.specs.Regions.{AreWords, OldOrPutWord, OldOrPutWords, RegionContent, put_word, put_words};
ghost use Rattle.rio_base.specs.Frames.{Stays};

use crate::failures::{RunFail, VolFail};

/// One region's words, counted from 0, which are read and stored in place. No call takes memory.
pub trait RegionWords {
    /// How many words there are.
    ghost count: { Self → ℕ };

    /// The words.
    ghost words: { Self → RegionContent };

    /// Whether it stands on a region, so that its words can be read and stored.
    ghost ready: { Self → Type 0 };

    /// Between two states: all that the volume below reads as and stands for without this region's words is the same,
    /// and so is whether the name of every cached page agrees with it.
    ghost keeps_rest: { Self → Self → Type 0 };

    /// How many calls failed so far, and whether the machine is stopped.
    ghost health: { Self → Health };

    /// The machine below: its disk, its count of writes, and why it may stop.
    ghost below: { Self → Below };

    /// How many words there are.
    fn len(&self) -> u32
        ensures { result ≡ count self.now };

    /// The word at `at`, which is below [`RegionWords::len`].
    fn word(&mut self, at: u32) -> Result<u64, VolFail>
        requires ready { ready self.old }
        requires place { at < count self.old }
        ensures value { IfOk result (λ v. v ≡ words self.old at) }
        ensures words { words self.new ≡ words self.old }
        ensures stays { Stays keeps_rest ready count health below self.old self.new }
        ensures ends { Ends (health self.old) (health self.new) result };

    /// Reads a run of words, from `at` on, as many as `into` has: as [`RegionWords::word`] of each of them. After a
    /// failure `into` may hold anything.
    fn read_run(&mut self, at: u32, into: &mut [u64]) -> Result<(), VolFail>
        requires ready { ready self.old }
        requires place { at + length into.old ≤ count self.old }
        ensures value { OnOk result (AreWords (words self.old) at (length into.old) into.new) }
        ensures len { length into.new ≡ length into.old }
        ensures words { words self.new ≡ words self.old }
        ensures stays { Stays keeps_rest ready count health below self.old self.new }
        ensures ends { Ends (health self.old) (health self.new) result }
    {
        for i in 0..into.len() {
            into[i] = self.word(at + i as u32)?;
        }
        Ok(())
    }

    /// Stores the word at `at`, which is below [`RegionWords::len`]. `Fault` changes nothing; `Stopped` leaves the old
    /// or the new word.
    fn set(&mut self, at: u32, v: u64) -> Result<(), VolFail>
        requires ready { ready self.old }
        requires place { at < count self.old }
        ensures ok { OnOk result (words self.new ≡ put_word (words self.old) at v) }
        ensures fault { IsErrOf result VolFail.Fault → words self.new ≡ words self.old }
        ensures either { OldOrPutWord (words self.old) (words self.new) at v }
        ensures stays { Stays keeps_rest ready count health below self.old self.new }
        ensures ends { Ends (health self.old) (health self.new) result };

    /// Stores a run of words, from `at` on in rising order: as [`RegionWords::set`] of each of them. `Fault` says how
    /// many were stored; `Stopped` leaves a front of them.
    fn set_run(&mut self, at: u32, from: &[u64]) -> Result<(), RunFail>
        requires ready { ready self.old }
        requires place { at + length from.now ≤ count self.old }
        ensures ok { OnOk result (words self.new ≡ put_words (words self.old) at (length from.now) from.now) }
        ensures fault { FaultAt result (λ n. (n < length from.now) × (words self.new ≡ put_words (words self.old) at n from.now)) }
        ensures front { OldOrPutWords (words self.old) (words self.new) at from.now (length from.now) }
        ensures stays { Stays keeps_rest ready count health below self.old self.new }
        ensures ends { Ends (health self.old) (health self.new) (as_word result) }
    {
        for i in 0..from.len() {
            match self.set(at + i as u32, from[i]) {
                Ok(()) => {}
                Err(VolFail::Fault) => return Err(RunFail::Fault(i as u32)),
                Err(VolFail::Stopped) => return Err(RunFail::Stopped),
            }
        }
        Ok(())
    }

    ghost limited: { (x : Self) (most : ℕ) → (below x).limit ≡ Some most → (health x).faults ≤ most };

    ghost small: { (x : Self) → ready x → count x < 2 ^ 32 };

    ghost rest_refl: { (x : Self) → keeps_rest x x };

    ghost rest_trans: { (x y z : Self) → keeps_rest x y → keeps_rest y z → keeps_rest x z };
}
