//! A sink over bytes in memory, for tests.

ghost use Rattle.std.specs.Prelude.{◌≡◌, ◌<◌, [], ◌∷◌, ◌++◌, false, IfOk, OnOk, OnErr, length};
ghost use Rattle.rio_base.specs.Disks.{raised};
ghost use Rattle.rio_base.specs.Failures.{is_due};
ghost use Rattle.test_objects.specs.MemStreams.{faults_after};

use crate::failing_calls::FailingCalls;
use rio_base::{Failed, Sink};
use std::alloc::{AllocError, Global};
use std::marker::Model;

/// A sink that keeps what is written, and fails where it is told to. Where it finds no memory it fails too.
#[derive(Drop)]
pub struct MemSink {
    bytes: Vec<u8>,
    calls: FailingCalls,
}

impl Model for MemSink {
    ghost use Rattle.test_objects.specs.MemStreams.{MemSinkState};

    ghost Value = { MemSinkState };

    ghost view = { λ a. record { written = a.bytes.items; calls = a.calls.calls; faults = a.calls.faults; failing = a.calls.failing.items } };
}

impl MemSink {
    /// A sink that has taken nothing yet.
    pub fn new(alloc: Global) -> MemSink
        ensures { result ≡ record { written = []; calls = 0; faults = 0; failing = [] } }
    {
        MemSink {
            bytes: Vec::new(alloc),
            calls: FailingCalls::new(alloc),
        }
    }

    /// What was written, lent.
    pub fn bytes(&self) -> &Vec<u8>
        ensures { result.now.items ≡ self.now.written }
    {
        &self.bytes
    }

    /// The `n`th call of [`Sink::write`] from now fails, `n` from 1.
    pub fn fail_call(&mut self, n: u64) -> Result<(), AllocError>
        requires { 0 < n }
        ensures ok { OnOk result (self.new ≡ record self.old { failing = self.old.failing ++ raised self.old.calls n ∷ [] }) }
        ensures err { OnErr result (self.new ≡ self.old) }
    {
        self.calls.fail_call(n)
    }
}

impl Sink for MemSink {
    ghost use Rattle.std.specs.Prelude.{Some};

    ghost written = { λ s. Some s.written };

    ghost faults = { λ s. s.faults };

    fn write(&mut self, from: &[u8]) -> Result<usize, Failed>
        ensures all { IfOk result (λ n. n ≡ length from.now) }
        ensures bytes { OnOk result (self.new.written ≡ self.old.written ++ from.now) }
        ensures err { OnErr result (self.new.written ≡ self.old.written) }
        ensures due { OnOk result (is_due self.old.calls self.old.failing ≡ false) }
        ensures counted { self.new ≡ record self.old { written = self.new.written; calls = raised self.old.calls 1; faults = faults_after result self.old.faults } }
    {
        self.calls.begin()?;
        if self.bytes.extend_from_slice(from).is_err() {
            return Err(self.calls.fail());
        }
        Ok(from.len())
    }
}
