//! A cached volume: blocks that read and blocks that stand, single stores, and updates of several blocks at once.

ghost use Rattle.std.specs.Prelude.{◌≡◌, ℕ, ◌<◌, ◌≤◌, true, false, Some, None, ◌⊎◌, IfOk, OnOk, IsErrOf, length};
ghost use Rattle.rio_base.specs.Blocks.{CanName, FaultAt, IsPlace, IsSpan, as_word, Looks, Caches, Drops, Ends, Halts};
ghost use Rattle.rio_base.specs.Volume.{Below, Kept, Passes, Settled, put, cleared, SameBut, Firm, FirmBut, CachesStored, stored_name, Runs, Goes, SameUpdate, Begun, HasRoom, Touches, OldOrNew, OldOrPut, OldOrRun, RunName, put_run};

use crate::blocks::Blocks;
use crate::failures::{RunFail, Stopped, VolFail};
use crate::places::{Block, PageName};

/// A volume that is read and changed through a cache. A stop may come at any call; what stands then is what a warm
/// reboot finds. No call takes memory.
///
/// Outside an update, each store stands as soon as it is made. Between [`Volume::begin`] and [`Volume::commit`] the
/// blocks that are edited read as new and stand as old, and the commit makes all of them stand at once.
///
/// `Fault` comes only where the disk failed in this call; `Stopped` only where the machine is stopped afterwards.
pub trait Volume: Blocks {
    /// The machine below: its disk, its count of writes, and why it may stop.
    ghost below: { Self → Below };

    /// What stands, which blocks are loose, and the open update.
    ghost kept: { Self → Kept };

    /// Makes block `b` read as zeros, under a name as for [`Blocks::word`]. `b` must not be cached, and no update be
    /// open. After a refusal `b` may read as anything and be loose; nothing else differs.
    fn fresh(&mut self, b: Block, name: Option<PageName>) -> Result<(), VolFail>
        requires sound { Self.sound self.old }
        requires place { b.0 < (Self.seen self.old).count }
        requires name { CanName (Self.seen self.old) b.0 name }
        requires uncached { (Self.seen self.old).cached b.0 ≡ false }
        requires idle { (kept self.old).updating ≡ false }
        ensures ok { OnOk result (((Self.seen self.new).words ≡ cleared (Self.seen self.old).words b.0) × ((kept self.new).loose b.0 ≡ false)) }
        ensures others { SameBut b.0 (Self.seen self.old).words (Self.seen self.new).words }
        ensures standing { SameBut b.0 (kept self.old).standing (kept self.new).standing }
        ensures firm { FirmBut b.0 (kept self.old) (kept self.new) }
        ensures count { (Self.seen self.new).count ≡ (Self.seen self.old).count }
        ensures caches { Caches (Self.seen self.old) (Self.seen self.new) b.0 name }
        ensures idle { (kept self.new).updating ≡ false }
        ensures goes { Goes (Self.health self.old) (below self.old) (Self.health self.new) (below self.new) }
        ensures ends { Ends (Self.health self.old) (Self.health self.new) result }
        ensures sound { Self.sound self.new };

    /// Stores a word of a block outside an update. `Fault` changes no word and no name; `Stopped` leaves the old or the
    /// new word.
    fn store(&mut self, b: Block, name: Option<PageName>, w: u16, v: u64) -> Result<(), VolFail>
        requires sound { Self.sound self.old }
        requires place { IsPlace (Self.seen self.old) b.0 w }
        requires name { CanName (Self.seen self.old) b.0 name }
        requires idle { (kept self.old).updating ≡ false }
        ensures ok { OnOk result ((Self.seen self.new).words ≡ put (Self.seen self.old).words b.0 w v) }
        ensures fault { IsErrOf result VolFail.Fault → ((Self.seen self.new).words ≡ (Self.seen self.old).words) × ((kept self.new).standing ≡ (kept self.old).standing) × Drops (Self.seen self.old) (Self.seen self.new) }
        ensures either { OldOrPut (Self.seen self.old).words (Self.seen self.new).words b.0 w v }
        ensures standing { SameBut b.0 (kept self.old).standing (kept self.new).standing }
        ensures firm { Firm (kept self.old) (kept self.new) }
        ensures count { (Self.seen self.new).count ≡ (Self.seen self.old).count }
        ensures caches { CachesStored (Self.seen self.old) (Self.seen self.new) b.0 name }
        ensures named { OnOk result ((Self.seen self.new).cached b.0 ≡ true → (Self.seen self.new).names b.0 ≡ stored_name ((Self.seen self.old).cached b.0) ((Self.seen self.old).names b.0) name) }
        ensures idle { (kept self.new).updating ≡ false }
        ensures goes { Goes (Self.health self.old) (below self.old) (Self.health self.new) (below self.new) }
        ensures ends { Ends (Self.health self.old) (Self.health self.new) result }
        ensures sound { Self.sound self.new };

    /// Stores a run of words of a block, from word `w` on in rising order, outside an update: as [`Volume::store`] of
    /// each of them, but that the page may have the given name afterwards where its own was wider. `Fault` says how many
    /// were stored; `Stopped` leaves a front of them.
    fn store_run(
        &mut self,
        b: Block,
        name: Option<PageName>,
        w: u16,
        from: &[u64],
    ) -> Result<(), RunFail>
        requires sound { Self.sound self.old }
        requires place { IsSpan (Self.seen self.old) b.0 w (length from.now) }
        requires name { CanName (Self.seen self.old) b.0 name }
        requires idle { (kept self.old).updating ≡ false }
        ensures ok { OnOk result ((Self.seen self.new).words ≡ put_run (Self.seen self.old).words b.0 w (length from.now) from.now) }
        ensures fault { FaultAt result (λ n. (n < length from.now) × ((Self.seen self.new).words ≡ put_run (Self.seen self.old).words b.0 w n from.now)) }
        ensures front { OldOrRun (Self.seen self.old).words (Self.seen self.new).words b.0 w from.now (length from.now) }
        ensures standing { SameBut b.0 (kept self.old).standing (kept self.new).standing }
        ensures firm { Firm (kept self.old) (kept self.new) }
        ensures count { (Self.seen self.new).count ≡ (Self.seen self.old).count }
        ensures caches { CachesStored (Self.seen self.old) (Self.seen self.new) b.0 name }
        ensures named { OnOk result (0 < length from.now → (Self.seen self.new).cached b.0 ≡ true → RunName ((Self.seen self.old).cached b.0) ((Self.seen self.old).names b.0) name ((Self.seen self.new).names b.0)) }
        ensures idle { (kept self.new).updating ≡ false }
        ensures goes { Goes (Self.health self.old) (below self.old) (Self.health self.new) (below self.new) }
        ensures ends { Ends (Self.health self.old) (Self.health self.new) (as_word result) }
        ensures sound { Self.sound self.new }
    {
        for i in 0..from.len() {
            match self.store(b, name, w + i as u16, from[i]) {
                Ok(()) => {}
                Err(VolFail::Fault) => return Err(RunFail::Fault(i as u32)),
                Err(VolFail::Stopped) => return Err(RunFail::Stopped),
            }
        }
        Ok(())
    }

    /// Opens an update, with no block touched.
    fn begin(&mut self) -> Result<(), Stopped>
        requires sound { Self.sound self.old }
        requires idle { (kept self.old).updating ≡ false }
        ensures ok { OnOk result (Begun (Self.seen self.old) (kept self.old) (kept self.new)) }
        ensures looks { Looks (Self.seen self.old) (Self.seen self.new) }
        ensures standing { (kept self.new).standing ≡ (kept self.old).standing }
        ensures firm { Firm (kept self.old) (kept self.new) }
        ensures drops { Drops (Self.seen self.old) (Self.seen self.new) }
        ensures goes { Goes (Self.health self.old) (below self.old) (Self.health self.new) (below self.new) }
        ensures ends { Halts (Self.health self.old) (Self.health self.new) result }
        ensures sound { Self.sound self.new };

    /// Makes a block of metadata part of the open update, so that it may be edited. At most 16 blocks are touched in
    /// one update; one that is touched already stays as it is.
    fn touch(&mut self, b: Block) -> Result<(), VolFail>
        requires sound { Self.sound self.old }
        requires place { b.0 < (Self.seen self.old).count }
        requires metadata { CanName (Self.seen self.old) b.0 None }
        requires in_update { (kept self.old).updating ≡ true }
        requires room { HasRoom (kept self.old) b.0 }
        ensures ok { OnOk result (Touches b.0 (kept self.old) (kept self.new)) }
        ensures fault { IsErrOf result VolFail.Fault → SameUpdate (kept self.old) (kept self.new) }
        ensures looks { Looks (Self.seen self.old) (Self.seen self.new) }
        ensures standing { (kept self.new).standing ≡ (kept self.old).standing }
        ensures firm { Firm (kept self.old) (kept self.new) }
        ensures caches { Caches (Self.seen self.old) (Self.seen self.new) b.0 None }
        ensures in_update { (kept self.new).updating ≡ true }
        ensures goes { Goes (Self.health self.old) (below self.old) (Self.health self.new) (below self.new) }
        ensures ends { Ends (Self.health self.old) (Self.health self.new) result }
        ensures sound { Self.sound self.new };

    /// Changes a word of a touched block. It reads as new at once, and stands as old until the commit.
    fn edit(&mut self, b: Block, w: u16, v: u64) -> Result<(), Stopped>
        requires sound { Self.sound self.old }
        requires place { IsPlace (Self.seen self.old) b.0 w }
        requires touched { (kept self.old).touched b.0 ≡ true }
        ensures ok { OnOk result ((Self.seen self.new).words ≡ put (Self.seen self.old).words b.0 w v) }
        ensures either { OldOrPut (Self.seen self.old).words (Self.seen self.new).words b.0 w v }
        ensures update { OnOk result (SameUpdate (kept self.old) (kept self.new)) }
        ensures standing { (kept self.new).standing ≡ (kept self.old).standing }
        ensures firm { Firm (kept self.old) (kept self.new) }
        ensures count { (Self.seen self.new).count ≡ (Self.seen self.old).count }
        ensures drops { Drops (Self.seen self.old) (Self.seen self.new) }
        ensures in_update { (kept self.new).updating ≡ true }
        ensures goes { Goes (Self.health self.old) (below self.old) (Self.health self.new) (below self.new) }
        ensures ends { Halts (Self.health self.old) (Self.health self.new) result }
        ensures sound { Self.sound self.new };

    /// Changes a run of words of a touched block, from word `w` on in rising order: as [`Volume::edit`] of each of them.
    /// `Stopped` leaves a front of them changed.
    fn edit_run(&mut self, b: Block, w: u16, from: &[u64]) -> Result<(), Stopped>
        requires sound { Self.sound self.old }
        requires place { IsSpan (Self.seen self.old) b.0 w (length from.now) }
        requires touched { (kept self.old).touched b.0 ≡ true }
        ensures ok { OnOk result ((Self.seen self.new).words ≡ put_run (Self.seen self.old).words b.0 w (length from.now) from.now) }
        ensures front { OldOrRun (Self.seen self.old).words (Self.seen self.new).words b.0 w from.now (length from.now) }
        ensures update { OnOk result (SameUpdate (kept self.old) (kept self.new)) }
        ensures standing { (kept self.new).standing ≡ (kept self.old).standing }
        ensures firm { Firm (kept self.old) (kept self.new) }
        ensures count { (Self.seen self.new).count ≡ (Self.seen self.old).count }
        ensures drops { Drops (Self.seen self.old) (Self.seen self.new) }
        ensures in_update { (kept self.new).updating ≡ true }
        ensures goes { Goes (Self.health self.old) (below self.old) (Self.health self.new) (below self.new) }
        ensures ends { Halts (Self.health self.old) (Self.health self.new) result }
        ensures sound { Self.sound self.new }
    {
        for i in 0..from.len() {
            self.edit(b, w + i as u16, from[i])?;
        }
        Ok(())
    }

    /// Makes the open update stand, as a whole. `Stopped` leaves all of it standing, or nothing of it.
    fn commit(&mut self) -> Result<(), Stopped>
        requires sound { Self.sound self.old }
        requires in_update { (kept self.old).updating ≡ true }
        ensures ok { OnOk result (((kept self.new).standing ≡ (Self.seen self.old).words) × ((kept self.new).updating ≡ false)) }
        ensures stopped { OldOrNew (kept self.old).standing (Self.seen self.old).words (kept self.new).standing }
        ensures looks { Looks (Self.seen self.old) (Self.seen self.new) }
        ensures firm { Firm (kept self.old) (kept self.new) }
        ensures drops { Drops (Self.seen self.old) (Self.seen self.new) }
        ensures goes { Goes (Self.health self.old) (below self.old) (Self.health self.new) (below self.new) }
        ensures ends { Halts (Self.health self.old) (Self.health self.new) result }
        ensures sound { Self.sound self.new };

    /// Ends the open update without a trace: all blocks read as they stand, which is as when it began.
    fn rollback(&mut self) -> Result<(), Stopped>
        requires sound { Self.sound self.old }
        requires in_update { (kept self.old).updating ≡ true }
        ensures ok { OnOk result (((Self.seen self.new).words ≡ (kept self.old).standing) × ((kept self.new).updating ≡ false)) }
        ensures untouched { (c w : ℕ) → (kept self.old).touched c ≡ false → (Self.seen self.new).words c w ≡ (kept self.old).standing c w }
        ensures standing { (kept self.new).standing ≡ (kept self.old).standing }
        ensures firm { Firm (kept self.old) (kept self.new) }
        ensures count { (Self.seen self.new).count ≡ (Self.seen self.old).count }
        ensures drops { Drops (Self.seen self.old) (Self.seen self.new) }
        ensures goes { Goes (Self.health self.old) (below self.old) (Self.health self.new) (below self.new) }
        ensures ends { Halts (Self.health self.old) (Self.health self.new) result }
        ensures sound { Self.sound self.new };

    /// Drops a block from the cache without writing it: its content no longer counts. Afterwards it is loose, and may
    /// read as anything. After `Stopped` it may be.
    fn forget(&mut self, b: Block) -> Result<(), Stopped>
        requires sound { Self.sound self.old }
        requires place { b.0 < (Self.seen self.old).count }
        requires idle { (kept self.old).updating ≡ false }
        ensures ok { OnOk result (((kept self.new).loose b.0 ≡ true) × ((Self.seen self.new).cached b.0 ≡ false)) }
        ensures others { SameBut b.0 (Self.seen self.old).words (Self.seen self.new).words }
        ensures firm_block { (kept self.new).loose b.0 ≡ false → (Self.seen self.new).words ≡ (Self.seen self.old).words }
        ensures standing { SameBut b.0 (kept self.old).standing (kept self.new).standing }
        ensures firm { FirmBut b.0 (kept self.old) (kept self.new) }
        ensures count { (Self.seen self.new).count ≡ (Self.seen self.old).count }
        ensures drops { Drops (Self.seen self.old) (Self.seen self.new) }
        ensures idle { (kept self.new).updating ≡ false }
        ensures goes { Goes (Self.health self.old) (below self.old) (Self.health self.new) (below self.new) }
        ensures ends { Halts (Self.health self.old) (Self.health self.new) result }
        ensures sound { Self.sound self.new };

    /// Writes up to `k` changed blocks to the disk, and answers how many. Nothing reads or stands otherwise after it.
    fn flush(&mut self, k: u64) -> Result<u32, VolFail>
        requires sound { Self.sound self.old }
        requires idle { (kept self.old).updating ≡ false }
        ensures most { IfOk result (λ n. n ≤ k) }
        ensures looks { Looks (Self.seen self.old) (Self.seen self.new) }
        ensures standing { (kept self.new).standing ≡ (kept self.old).standing }
        ensures firm { Firm (kept self.old) (kept self.new) }
        ensures drops { Drops (Self.seen self.old) (Self.seen self.new) }
        ensures idle { (kept self.new).updating ≡ false }
        ensures runs { Runs (Self.health self.old) (below self.old) (Self.health self.new) (below self.new) }
        ensures ends { Ends (Self.health self.old) (Self.health self.new) result }
        ensures sound { Self.sound self.new };

    ghost settled: { (x : Self) → Self.sound x → Settled (Self.seen x) (kept x) };

    ghost limited: { (x : Self) (most : ℕ) → (below x).limit ≡ Some most → (Self.health x).faults ≤ most };

    ghost touched_sure: { (x : Self) → (b : ℕ) → (kept x).touched b ≡ true → Self.sure x b };

    ghost passes_keeps: { (x y : Self) → Self.passes x y → Passes (Self.health x) (below x) (kept x) (Self.health y) (below y) (kept y) };
}

impl From<Stopped> for VolFail {
    ghost use Rattle.rio_base.specs.declared.failures.VolFail.TheVariants.{Stopped as StoppedBelow};

    ghost from_gives = { λ stopped fail. fail ≡ StoppedBelow };

    fn from(_stopped: Stopped) -> VolFail {
        VolFail::Stopped
    }
}
