//! A region in memory whose calls fail and stop as they are told, for tests.

ghost use Rattle.std.specs.Prelude.{◌≡◌, ℕ, ◌<◌, ◌≤◌, IfOk};
ghost use Rattle.rio_base.specs.Blocks.{Ends};
ghost use Rattle.rio_base.specs.Regions.{put_word};
ghost use Rattle.rio_model.specs.Heap.{OfBlocks};
ghost use Rattle.rio_model.specs.Undo.{IsRegion, live};
ghost use Rattle.test_objects.specs.FaultyRegions.{FaultyReady, IsFreshRegion, OnlyCounts, faulty_content, faulty_health};

use rio_base::{REGION_MAGIC, RegionWords, VolFail};
use std::alloc::{AllocError, Global};

/// A region's words in memory. Each word that is read or stored is a call. It can be told which calls fail, and at which
/// one it stops; neither changes a word. After a stop it can be started again.
#[derive(Drop)]
pub struct FaultyRegion {
    count: u32,
    words: Vec<u64>,
    /// How many calls were made, and how many of them failed.
    calls: u64,
    faults: u64,
    stopped: bool,
    /// The call that stops, and the calls that fail, by their numbers from 1. No call has the number 0.
    stopping: u64,
    failing: Vec<u64>,
}

impl FaultyRegion {
    /// So many words of zeros.
    fn zeros(alloc: Global, count: u32) -> Result<FaultyRegion, AllocError>
        ensures ready { IfOk result FaultyReady }
        ensures count { IfOk result (λ r. r.count ≡ count) }
        ensures words { IfOk result (λ r. (x : ℕ) → faulty_content r x ≡ 0) }
    {
        let words = vec![in alloc; 0; count as usize]?;
        Ok(FaultyRegion {
            count,
            words,
            calls: 0,
            faults: 0,
            stopped: false,
            stopping: 0,
            failing: Vec::new(alloc),
        })
    }

    /// Stores a word, which is no call.
    fn put(&mut self, at: u32, v: u64)
        requires ready { FaultyReady self.old }
        requires place { at < self.old.count }
        ensures ready { FaultyReady self.new }
        ensures count { self.new.count ≡ self.old.count }
        ensures words { faulty_content self.new ≡ put_word (faulty_content self.old) at v }
    {
        self.words[at as usize] = v;
    }

    /// A fresh region of so many undo pages and data pages: without undo records and blocks, all data 0.
    pub fn fresh(alloc: Global, undo: u32, pages: u32) -> Result<FaultyRegion, AllocError>
        requires undo { (1 ≤ undo) × (undo ≤ 1000) }
        requires pages { (1 ≤ pages) × (pages ≤ 1000) }
        ensures ready { IfOk result FaultyReady }
        ensures fresh { IfOk result (IsFreshRegion pages) }
    {
        let count = 512 * (1 + undo + (pages.div_ceil(256) + pages));
        let mut r = FaultyRegion::zeros(alloc, count)?;
        r.put(0, REGION_MAGIC);
        r.put(1, u64::from(undo));
        r.put(2, u64::from(pages));
        Ok(r)
    }

    /// The `n`th call from now stops it, `n` from 1; with 0 none does. Where it was stopped it is started again.
    pub fn stop_after(&mut self, n: u64)
        ensures same { OnlyCounts self.old self.new }
        ensures ready { FaultyReady self.old → FaultyReady self.new }
        ensures region { (n : ℕ) → IsRegion n (faulty_content self.old) → IsRegion n (faulty_content self.new) }
        ensures heap { OfBlocks (live (faulty_content self.old)) (faulty_content self.old 2) → OfBlocks (live (faulty_content self.new)) (faulty_content self.new 2) }
    {
        self.stopped = false;
        self.stopping = if n == 0 {
            0
        } else {
            self.calls.saturating_add(n)
        };
    }

    /// Starts it again where it was stopped. No later call stops or fails.
    pub fn start_again(&mut self)
        requires ready { FaultyReady self.old }
        requires region { IsRegion self.old.count (faulty_content self.old) }
        ensures ready { FaultyReady self.new }
        ensures region { IsRegion self.new.count (faulty_content self.new) }
    {
        self.failing.clear();
        self.stop_after(0);
    }

    /// The `n`th call from now fails, `n` from 1.
    pub fn fail_call(&mut self, n: u64) -> Result<(), AllocError>
        ensures same { OnlyCounts self.old self.new }
        ensures ready { FaultyReady self.old → FaultyReady self.new }
        ensures region { (n : ℕ) → IsRegion n (faulty_content self.old) → IsRegion n (faulty_content self.new) }
        ensures heap { OfBlocks (live (faulty_content self.old)) (faulty_content self.old 2) → OfBlocks (live (faulty_content self.new)) (faulty_content self.new 2) }
    {
        self.failing.push(self.calls.saturating_add(n))?;
        Ok(())
    }

    /// How many calls were made so far.
    pub fn calls(&self) -> u64
        ensures { result ≡ self.now.calls }
    {
        self.calls
    }

    /// Counts a call. Where it fails or stops, no word is read or stored.
    fn begin(&mut self) -> Result<(), VolFail>
        ensures rest { OnlyCounts self.old self.new }
        ensures ends { Ends (faulty_health self.old) (faulty_health self.new) result }
    {
        if self.stopped {
            return Err(VolFail::Stopped);
        }
        self.calls = self.calls.saturating_add(1);
        if self.calls == self.stopping {
            self.stopped = true;
            return Err(VolFail::Stopped);
        }
        if self.failing.contains(&self.calls) {
            self.faults = self.faults.saturating_add(1);
            return Err(VolFail::Fault);
        }
        Ok(())
    }
}

#[tactic(auto, using(crate::proofs::FaultyGoes::goes_by))]
impl RegionWords for FaultyRegion {
    ghost use Rattle.test_objects.specs.FaultyRegions.{FaultyReady, faulty_below, faulty_content, faulty_health, faulty_limit};

    ghost count = { λ r. r.count };

    ghost words = { faulty_content };

    ghost ready = { FaultyReady };

    ghost keeps_rest = { λ x y. Unit {0} };

    ghost health = { faulty_health };

    ghost below = { λ r. faulty_below };

    ghost limited = { λ x most. faulty_limit _ most };

    ghost small = { λ x ready. ready.small };

    ghost rest_refl = { λ x. tt };

    ghost rest_trans = { λ x y z h k. tt };

    fn len(&self) -> u32 {
        self.count
    }

    fn word(&mut self, at: u32) -> Result<u64, VolFail> {
        self.begin()?;
        Ok(self.words[at as usize])
    }

    fn set(&mut self, at: u32, v: u64) -> Result<(), VolFail> {
        self.begin()?;
        self.words[at as usize] = v;
        Ok(())
    }
}
