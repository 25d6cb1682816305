//! A source over bytes in memory, for tests.

ghost use Rattle.std.specs.Prelude.{◌≡◌, ◌<◌, ◌≤◌, ℕ, [], ◌∷◌, ◌++◌, Ok, IfOk, OnOk, OnErr, length, min, take};
ghost use Rattle.rio_base.specs.Disks.{raised};
ghost use Rattle.rio_base.specs.Failures.{FailsIf, is_due};
ghost use Rattle.test_objects.specs.MemStreams.{faults_after};
ghost use Rattle.rio_base.specs.Streams.{prepended, IsSpent};

use crate::failing_calls::FailingCalls;
use rio_base::{Failed, Source};
use std::alloc::{AllocError, Global};
use std::marker::Model;

/// A source that gives bytes from memory, in pieces of a given size, and fails where it is told to.
#[derive(Drop)]
pub struct MemSource {
    bytes: Vec<u8>,
    next: usize,
    most: usize,
    calls: FailingCalls,
}

impl Model for MemSource {
    ghost use Rattle.std.specs.Prelude.{◌≤◌, ◌<◌, drop};
    ghost use Rattle.std.specs.Vec.{vec_len};
    ghost use Rattle.test_objects.specs.MemStreams.{MemSourceState};

    ghost Value = { MemSourceState };

    ghost view = { λ a. record { left = drop a.next a.bytes.items; most = a.most; calls = a.calls.calls; faults = a.calls.faults; failing = a.calls.failing.items } };

    ghost invariant = { λ a. (a.next ≤ vec_len a.bytes) × (0 < a.most) };
}

impl MemSource {
    /// A source of these bytes. One call gives at most `most` of them.
    pub fn new(alloc: Global, bytes: &[u8], most: usize) -> Result<MemSource, AllocError>
        requires { 0 < most }
        ensures { IfOk result (λ s. s ≡ record { left = bytes.now; most = most; calls = 0; faults = 0; failing = [] }) }
    {
        Ok(MemSource {
            bytes: Vec::from_slice(alloc, bytes)?,
            next: 0,
            most,
            calls: FailingCalls::new(alloc),
        })
    }

    /// The `n`th call of [`Source::read`] from now fails, `n` from 1.
    pub fn fail_call(&mut self, n: u64) -> Result<(), AllocError>
        requires { 0 < n }
        ensures ok { OnOk result (self.new ≡ record self.old { failing = self.old.failing ++ raised self.old.calls n ∷ [] }) }
        ensures err { OnErr result (self.new ≡ self.old) }
    {
        self.calls.fail_call(n)
    }
}

impl Source for MemSource {
    ghost use Rattle.std.specs.Prelude.{Some};

    ghost left = { λ s. Some s.left };

    ghost faults = { λ s. s.faults };

    fn read(&mut self, into: &mut [u8]) -> Result<usize, Failed>
        ensures bound { IfOk result (λ n. n ≤ length into.new) }
        ensures bytes { IfOk result (λ n. ⟦<MemSource as Source>⟧.left self.old ≡ prepended (take n into.new) (⟦<MemSource as Source>⟧.left self.new)) }
        ensures end { result ≡ Ok 0 → 0 < length into.new → IsSpent (⟦<MemSource as Source>⟧.left self.new) }
        ensures most { IfOk result (λ n. n ≡ min (min self.old.most (length into.old)) (length self.old.left)) }
        ensures fails { FailsIf (is_due self.old.calls self.old.failing) result }
        ensures counted { self.new ≡ record self.old { left = self.new.left; calls = raised self.old.calls 1; faults = faults_after result self.old.faults } }
        ensures err { OnErr result (self.new.left ≡ self.old.left) }
    {
        self.calls.begin()?;
        let n = into.len().min(self.most).min(self.bytes.len() - self.next);
        into[..n].copy_from_slice(&self.bytes[self.next..self.next + n]);
        self.next += n;
        Ok(n)
    }
}
