//! Which calls of an object in memory are to fail, for tests.

ghost use Rattle.std.specs.Prelude.{◌≡◌, ◌<◌, [], ◌∷◌, ◌++◌, OnErr, OnOk};
ghost use Rattle.rio_base.specs.Failures.{FailsIf, HasCause, is_due};
ghost use Rattle.rio_base.specs.Disks.{raised};
ghost use Rattle.test_objects.specs.MemStreams.{counted};

use rio_base::Failed;
use std::alloc::{AllocError, Global};

/// Counts the calls of an object, and says which of them are to fail.
#[derive(Drop)]
pub(crate) struct FailingCalls {
    /// How many calls were made, and how many of them failed.
    calls: u64,
    faults: u64,
    /// The calls that are to fail, by their numbers from 1.
    failing: Vec<u64>,
}

impl FailingCalls {
    /// No call was made, and none is to fail.
    pub(crate) fn new(alloc: Global) -> FailingCalls
        ensures { (result.calls ≡ 0) × (result.faults ≡ 0) × (result.failing.items ≡ []) }
    {
        FailingCalls {
            calls: 0,
            faults: 0,
            failing: Vec::new(alloc),
        }
    }

    /// How many calls failed.
    pub(crate) fn faults(&self) -> u64
        ensures { result ≡ self.now.faults }
    {
        self.faults
    }

    /// The `n`th call from now fails, `n` from 1.
    pub(crate) fn fail_call(&mut self, n: u64) -> Result<(), AllocError>
        requires { 0 < n }
        ensures ok { OnOk result (self.new.failing.items ≡ self.old.failing.items ++ raised self.old.calls n ∷ []) }
        ensures err { OnErr result (self.new.failing.items ≡ self.old.failing.items) }
        ensures rest { self.new ≡ record self.old { failing = self.new.failing } }
    {
        self.failing.push(self.calls.saturating_add(n))?;
        Ok(())
    }

    /// Whether the next call is to fail.
    fn is_due(&self) -> bool
        ensures { result ≡ is_due self.now.calls self.now.failing.items }
    {
        if self.calls == u64::MAX {
            return false;
        }
        self.failing.contains(&(self.calls + 1))
    }

    /// Counts a call, and says whether it is not to fail.
    pub(crate) fn begin(&mut self) -> Result<(), Failed>
        ensures state { self.new ≡ counted result self.old }
        ensures fails { FailsIf (is_due self.old.calls self.old.failing.items) result }
        ensures cause { HasCause result self.old.faults self.new.faults }
    {
        let due = self.is_due();
        self.calls = self.calls.saturating_add(1);
        if due {
            return Err(self.fail());
        }
        Ok(())
    }

    /// Counts the call that was begun last as failed.
    pub(crate) fn fail(&mut self) -> Failed
        ensures { self.new ≡ record self.old { faults = raised self.old.faults 1 } }
    {
        self.faults = self.faults.saturating_add(1);
        Failed
    }
}
