//! A region in memory, for tests.

ghost use Rattle.std.specs.Prelude.{◌≡◌, ◌<◌, ◌≤◌, ◌+◌, IfOk, IsErr, IsErrOf, OnErr, OnOk, length};
ghost use Rattle.rio_base.specs.Blocks.{FaultAt};
ghost use Rattle.rio_base.specs.Regions.{AreWords, put_word, put_words};
ghost use Rattle.test_objects.specs.StepLimits.{ReadsWithin, TakesSteps, made_of};
ghost use Rattle.test_objects.specs.ListRegions.{IsNewRegion, RegionReady, region_content};

use crate::step_limit::StepLimit;
use crate::word_lists::store_front;
use rio_base::{RegionWords, RunFail, VolFail};
use std::alloc::{AllocError, Global};

/// The words of a region that lies in memory. It has no disk, so that it never answers `Fault`. It can be told to stop.
#[derive(Drop)]
pub struct ListRegion {
    count: u32,
    words: Vec<u64>,
    steps: StepLimit,
}

impl ListRegion {
    /// A region of `words` words of zeros. Each word that is set is one step. With `stop_after` the call that would be a
    /// step more answers `Stopped`, and so does each call after it; a run stores as many words as steps were left.
    pub fn new(alloc: Global, words: u32, stop_after: Option<u64>) -> Result<ListRegion, AllocError>
        ensures { IfOk result (IsNewRegion words stop_after) }
    {
        Ok(ListRegion {
            count: words,
            words: vec![in alloc; 0; words as usize]?,
            steps: StepLimit::new(stop_after),
        })
    }
}

impl RegionWords for ListRegion {
    ghost use Rattle.test_objects.specs.StepLimits.{limit_bounds};
    ghost use Rattle.test_objects.specs.ListRegions.{region_content, region_health, region_below, RegionReady};

    ghost count = { λ r. r.count };

    ghost words = { region_content };

    ghost ready = { RegionReady };

    ghost keeps_rest = { λ x y. Unit {0} };

    ghost health = { region_health };

    ghost below = { region_below };

    ghost limited = { λ x most. limit_bounds x.steps _ most };

    ghost small = { λ x ready. ready.small };

    ghost rest_refl = { λ x. tt };

    ghost rest_trans = { λ x y z h k. tt };

    fn len(&self) -> u32 {
        self.count
    }

    fn word(&mut self, at: u32) -> Result<u64, VolFail>
        requires ready { RegionReady self.old }
        requires place { at < self.old.count }
        ensures value { IfOk result (λ v. v ≡ region_content self.old at) }
        ensures same { self.new ≡ self.old }
        ensures ends { ReadsWithin 1 self.old.steps result }
    {
        if self.steps.stopped() {
            return Err(VolFail::Stopped);
        }
        Ok(self.words[at as usize])
    }

    fn read_run(&mut self, at: u32, into: &mut [u64]) -> Result<(), VolFail>
        requires ready { RegionReady self.old }
        requires place { at + length into.old ≤ self.old.count }
        ensures value { OnOk result (AreWords (region_content self.old) at (length into.old) into.new) }
        ensures len { length into.new ≡ length into.old }
        ensures same { self.new ≡ self.old }
        ensures ends { ReadsWithin (length into.old) self.old.steps result }
    {
        if into.is_empty() {
            return Ok(());
        }
        if self.steps.stopped() {
            return Err(VolFail::Stopped);
        }
        let from = at as usize;
        into.copy_from_slice(&self.words[from..from + into.len()]);
        Ok(())
    }

    fn set(&mut self, at: u32, v: u64) -> Result<(), VolFail>
        requires ready { RegionReady self.old }
        requires place { at < self.old.count }
        ensures ok { OnOk result (region_content self.new ≡ put_word (region_content self.old) at v) }
        ensures rest { self.new ≡ record self.old { words = self.new.words; steps = self.new.steps } }
        ensures cut { OnErr result (self.new.words ≡ self.old.words) }
        ensures steps { TakesSteps 1 (IsErr result) self.old.steps self.new.steps }
        ensures ready { RegionReady self.new }
        ensures no_fault { IsErrOf result VolFail.Fault → ⊥ }
    {
        self.steps.step()?;
        self.words[at as usize] = v;
        Ok(())
    }

    fn set_run(&mut self, at: u32, from: &[u64]) -> Result<(), RunFail>
        requires ready { RegionReady self.old }
        requires place { at + length from.now ≤ self.old.count }
        ensures words { region_content self.new ≡ put_words (region_content self.old) at (made_of (length from.now) self.old.steps) from.now }
        ensures rest { self.new ≡ record self.old { words = self.new.words; steps = self.new.steps } }
        ensures steps { TakesSteps (length from.now) (IsErr result) self.old.steps self.new.steps }
        ensures ready { RegionReady self.new }
        ensures no_fault { FaultAt result (λ n. ⊥) }
    {
        let made = self.steps.take(from.len());
        store_front(&mut self.words, at as usize, from, made);
        if made < from.len() {
            return Err(RunFail::Stopped);
        }
        Ok(())
    }
}
