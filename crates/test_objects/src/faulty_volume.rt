//! A volume in memory whose disk fails once, for tests.

ghost use Rattle.std.specs.Prelude.{◌≡◌, ◌≤◌, ◌<◌, ◌+◌, ◌-◌, false, true, IfOk, IsErrOf, MatchOption, OnOk, length, take};
ghost use Rattle.rio_base.specs.Blocks.{FaultAt, IsPlace, IsRun, IsSpan, as_word};
ghost use Rattle.rio_base.specs.Disks.{raised};
ghost use Rattle.test_objects.specs.FaultyVolumes.{CountsCalls, IsDue, before_fault, needing, words_before};
ghost use Rattle.test_objects.specs.ListCalls.{Begins, Commits, Edits, Freshens, Loosens, MakesStep, Marks, RollsBack, Stores, StoresRun};
ghost use Rattle.test_objects.specs.ListVolumes.{ListSound, list_kept, list_seen};
ghost use Rattle.test_objects.specs.StepLimits.{ReadsWithin};
ghost use Rattle.rio_base.specs.Volume.{HasRoom, OldOrRun, put_run};

use crate::list_volume::ListVolume;
use rio_base::{Block, Blocks, PageName, RunFail, Stopped, VolFail, Volume};

/// A volume in memory that answers `Fault` at one call, and otherwise what the volume inside answers. A faulted call
/// is no step and changes nothing.
#[derive(Drop)]
pub struct FaultyVolume {
    inner: ListVolume,
    /// Which of the calls from now that may need the disk fails, from 1; 0 where none does.
    until: u64,
    faults: u64,
}

impl FaultyVolume {
    /// The `n`th call from now that may need the disk fails, `n` from 1; with 0 none does. Such calls are `word` of a
    /// block that is not touched, `fresh`, `store`, `touch` and `flush`. A run of words is a call for each word, and
    /// those before the one that fails are read or stored.
    pub fn new(inner: ListVolume, n: u64) -> FaultyVolume
        ensures { result ≡ record { inner = inner; until = n; faults = 0 } }
    {
        FaultyVolume {
            inner,
            until: n,
            faults: 0,
        }
    }

    /// Counts `n` calls that may need the disk. Where one of them is to fail, answers how many come before it.
    fn count(&mut self, n: usize) -> Option<usize>
        ensures rest { self.new ≡ record self.old { until = self.old.until - n } }
        ensures due { MatchOption result (IsDue n self.old.until → ⊥) (λ before. (before + 1 ≡ self.old.until) × (before < n)) }
        ensures before { MatchOption result (words_before n self.old.until ≡ n) (λ before. before ≡ words_before n self.old.until) }
    {
        let until = self.until;
        self.until = until.saturating_sub(n as u64);
        if until == 0 || (n as u64) < until {
            return None;
        }
        Some((until - 1) as usize)
    }

    /// Counts a fault.
    fn fault(&mut self)
        ensures { self.new ≡ record self.old { faults = raised self.old.faults 1 } }
    {
        self.faults = self.faults.saturating_add(1);
    }

    /// Counts one call that may need the disk, and says whether it fails.
    fn fails(&mut self) -> bool
        ensures counts { CountsCalls 1 (result ≡ true) ⊥ self.old self.new }
        ensures same { self.new.inner ≡ self.old.inner }
    {
        if self.count(1).is_none() {
            return false;
        }
        self.fault();
        true
    }
}

#[tactic(auto, using(crate::proofs::Faults::ends_counted))]
impl Blocks for FaultyVolume {
    ghost use Rattle.rio_base.specs.Rules.{passes_same, passes_on};
    ghost use Rattle.rio_base.specs.Volume.{Passes};
    ghost use Rattle.test_objects.specs.ListVolumes.{list_seen, list_below, list_kept, ListSound, fits, touched_on};
    ghost use Rattle.test_objects.specs.FaultyVolumes.{faulty_health};

    ghost seen = { λ v. list_seen v.inner };

    ghost health = { faulty_health };

    ghost sound = { λ v. ListSound v.inner };

    ghost sure = { λ v b. (list_kept v.inner).touched b ≡ true };

    ghost passes = { λ x y. Passes (faulty_health x) (list_below x.inner) (list_kept x.inner) (faulty_health y) (list_below y.inner) (list_kept y.inner) };

    ghost sure_stays = { λ x y b h s. touched_on x.inner y.inner b h.touched s };

    ghost passes_refl = { λ x. passes_same _ _ _ };

    ghost passes_trans = { λ x y z. passes_on _ _ _ _ _ _ _ _ _ };

    ghost names_fit = { λ x s. fits x.inner };

    fn volume_blocks(&self) -> u32 {
        self.inner.volume_blocks()
    }

    fn word(&mut self, b: Block, name: Option<PageName>, w: u16) -> Result<u64, VolFail>
        requires sound { ListSound self.old.inner }
        requires place { IsPlace (list_seen self.old.inner) b.0 w }
        ensures value { IfOk result (λ v. v ≡ (list_seen self.old.inner).words b.0 w) }
        ensures same { self.new.inner ≡ self.old.inner }
        ensures counts { CountsCalls (needing ((list_kept self.old.inner).touched b.0) 1) (IsErrOf result VolFail.Fault) ⊥ self.old self.new }
        ensures inside { (IsErrOf result VolFail.Fault → ⊥) → ReadsWithin 1 self.old.inner.steps result }
    {
        if !self.inner.is_touched(b) {
            if self.fails() {
                return Err(VolFail::Fault);
            }
        }
        self.inner.word(b, name, w)
    }

    fn read_run(
        &mut self,
        b: Block,
        name: Option<PageName>,
        w: u16,
        into: &mut [u64],
    ) -> Result<(), VolFail>
        requires sound { ListSound self.old.inner }
        requires place { IsSpan (list_seen self.old.inner) b.0 w (length into.old) }
        ensures words { OnOk result (IsRun (list_seen self.old.inner).words b.0 w (length into.old) into.new) }
        ensures len { length into.new ≡ length into.old }
        ensures same { self.new.inner ≡ self.old.inner }
        ensures counts { CountsCalls (needing ((list_kept self.old.inner).touched b.0) (length into.old)) (IsErrOf result VolFail.Fault) (IsErrOf result VolFail.Stopped) self.old self.new }
        ensures inside { (IsErrOf result VolFail.Fault → ⊥) → ReadsWithin (length into.old) self.old.inner.steps result }
    {
        if self.inner.is_touched(b) {
            return self.inner.read_run(b, name, w, into);
        }
        let Some(before) = self.count(into.len()) else {
            return self.inner.read_run(b, name, w, into);
        };
        self.inner.read_run(b, name, w, &mut into[..before])?;
        self.fault();
        Err(VolFail::Fault)
    }
}

#[tactic(auto, using(crate::proofs::Faults::ends_counted, crate::proofs::Faults::halts_counted, crate::proofs::Faults::goes_counted, crate::proofs::Faults::runs_counted))]
impl Volume for FaultyVolume {
    ghost use Rattle.test_objects.specs.StepLimits.{limit_bounds};
    ghost use Rattle.test_objects.specs.ListVolumes.{list_below, list_kept, list_settled};

    ghost below = { λ v. list_below v.inner };

    ghost kept = { λ v. list_kept v.inner };

    ghost settled = { λ x. list_settled x.inner };

    ghost limited = { λ x most. limit_bounds x.inner.steps _ most };

    ghost touched_sure = { λ x b t. t };

    ghost passes_keeps = { λ x y h. h };

    fn fresh(&mut self, b: Block, name: Option<PageName>) -> Result<(), VolFail>
        requires sound { ListSound self.old.inner }
        requires place { b.0 < self.old.inner.count }
        requires idle { self.old.inner.updating ≡ false }
        ensures counts { CountsCalls 1 (IsErrOf result VolFail.Fault) ⊥ self.old self.new }
        ensures fault { IsErrOf result VolFail.Fault → self.new.inner ≡ self.old.inner }
        ensures call { (IsErrOf result VolFail.Fault → ⊥) → Freshens b.0 result self.old.inner self.new.inner }
    {
        if self.fails() {
            return Err(VolFail::Fault);
        }
        self.inner.fresh(b, name)
    }

    fn store(&mut self, b: Block, name: Option<PageName>, w: u16, v: u64) -> Result<(), VolFail>
        requires sound { ListSound self.old.inner }
        requires place { IsPlace (list_seen self.old.inner) b.0 w }
        requires idle { self.old.inner.updating ≡ false }
        ensures counts { CountsCalls 1 (IsErrOf result VolFail.Fault) ⊥ self.old self.new }
        ensures fault { IsErrOf result VolFail.Fault → self.new.inner ≡ self.old.inner }
        ensures call { (IsErrOf result VolFail.Fault → ⊥) → Stores b.0 w v result self.old.inner self.new.inner }
    {
        if self.fails() {
            return Err(VolFail::Fault);
        }
        self.inner.store(b, name, w, v)
    }

    fn store_run(
        &mut self,
        b: Block,
        name: Option<PageName>,
        w: u16,
        from: &[u64],
    ) -> Result<(), RunFail>
        requires sound { ListSound self.old.inner }
        requires place { IsSpan (list_seen self.old.inner) b.0 w (length from.now) }
        requires idle { self.old.inner.updating ≡ false }
        ensures counts { CountsCalls (length from.now) (IsErrOf (as_word result) VolFail.Fault) (IsErrOf (as_word result) VolFail.Stopped) self.old self.new }
        ensures due { FaultAt result (λ n. n + 1 ≡ self.old.until) }
        ensures fault { FaultAt result (λ n. (n < length from.now) × ((list_seen self.new.inner).words ≡ put_run (list_seen self.old.inner).words b.0 w n from.now)) }
        ensures front { OldOrRun (list_seen self.old.inner).words (list_seen self.new.inner).words b.0 w from.now (length from.now) }
        ensures call { StoresRun b.0 w (take (words_before (length from.now) self.old.until) from.now) (before_fault tt result) self.old.inner self.new.inner }
    {
        let Some(before) = self.count(from.len()) else {
            return self.inner.store_run(b, name, w, from);
        };
        self.inner.store_run(b, name, w, &from[..before])?;
        self.fault();
        Err(RunFail::Fault(before as u32))
    }

    fn begin(&mut self) -> Result<(), Stopped>
        requires sound { ListSound self.old.inner }
        requires idle { self.old.inner.updating ≡ false }
        ensures uncounted { self.new ≡ record self.old { inner = self.new.inner } }
        ensures call { Begins result self.old.inner self.new.inner }
    {
        self.inner.begin()
    }

    fn touch(&mut self, b: Block) -> Result<(), VolFail>
        requires sound { ListSound self.old.inner }
        requires place { b.0 < self.old.inner.count }
        requires in_update { self.old.inner.updating ≡ true }
        requires room { HasRoom (list_kept self.old.inner) b.0 }
        ensures counts { CountsCalls 1 (IsErrOf result VolFail.Fault) ⊥ self.old self.new }
        ensures fault { IsErrOf result VolFail.Fault → self.new.inner ≡ self.old.inner }
        ensures call { (IsErrOf result VolFail.Fault → ⊥) → Marks b.0 result self.old.inner self.new.inner }
    {
        if self.fails() {
            return Err(VolFail::Fault);
        }
        self.inner.touch(b)
    }

    fn edit(&mut self, b: Block, w: u16, v: u64) -> Result<(), Stopped>
        requires sound { ListSound self.old.inner }
        requires place { IsPlace (list_seen self.old.inner) b.0 w }
        requires touched { (list_kept self.old.inner).touched b.0 ≡ true }
        ensures uncounted { self.new ≡ record self.old { inner = self.new.inner } }
        ensures call { Edits b.0 w v result self.old.inner self.new.inner }
    {
        self.inner.edit(b, w, v)
    }

    fn commit(&mut self) -> Result<(), Stopped>
        requires sound { ListSound self.old.inner }
        requires in_update { self.old.inner.updating ≡ true }
        ensures uncounted { self.new ≡ record self.old { inner = self.new.inner } }
        ensures call { Commits result self.old.inner self.new.inner }
    {
        self.inner.commit()
    }

    fn rollback(&mut self) -> Result<(), Stopped>
        requires sound { ListSound self.old.inner }
        requires in_update { self.old.inner.updating ≡ true }
        ensures uncounted { self.new ≡ record self.old { inner = self.new.inner } }
        ensures call { RollsBack result self.old.inner self.new.inner }
    {
        self.inner.rollback()
    }

    fn forget(&mut self, b: Block) -> Result<(), Stopped>
        requires sound { ListSound self.old.inner }
        requires place { b.0 < self.old.inner.count }
        requires idle { self.old.inner.updating ≡ false }
        ensures uncounted { self.new ≡ record self.old { inner = self.new.inner } }
        ensures call { Loosens b.0 result self.old.inner self.new.inner }
    {
        self.inner.forget(b)
    }

    fn flush(&mut self, k: u64) -> Result<u32, VolFail>
        requires sound { ListSound self.old.inner }
        requires idle { self.old.inner.updating ≡ false }
        ensures counts { CountsCalls 1 (IsErrOf result VolFail.Fault) ⊥ self.old self.new }
        ensures fault { IsErrOf result VolFail.Fault → self.new.inner ≡ self.old.inner }
        ensures none { IfOk result (λ n. n ≡ 0) }
        ensures rest { self.new.inner ≡ record self.old.inner { steps = self.new.inner.steps } }
        ensures call { (IsErrOf result VolFail.Fault → ⊥) → MakesStep result self.old.inner self.new.inner }
    {
        if self.fails() {
            return Err(VolFail::Fault);
        }
        self.inner.flush(k)
    }
}
