//! A sink that takes so many bytes, and counts its calls.

use rio_base::{Failed, Sink};
use std::alloc::Global;

/// Takes bytes up to a number of them, and fails from there on.
#[derive(Drop)]
pub(crate) struct Bounded {
    bytes: Vec<u8>,
    left: usize,
    calls: u64,
    faults: u64,
}

impl Bounded {
    /// A sink that takes up to `most` bytes.
    pub(crate) fn new(alloc: Global, most: usize) -> Bounded {
        Bounded {
            bytes: Vec::new(alloc),
            left: most,
            calls: 0,
            faults: 0,
        }
    }

    /// What was written, lent.
    pub(crate) fn bytes(&self) -> &[u8] {
        self.bytes.as_slice()
    }

    /// How many calls were made.
    pub(crate) fn calls(&self) -> u64 {
        self.calls
    }
}

impl Sink for Bounded {
    ghost use Rattle.std.specs.Prelude.{None};

    ghost written = { λ s. None };

    ghost faults = { λ s. s.faults };

    fn write(&mut self, from: &[u8]) -> Result<usize, Failed> {
        self.calls = self.calls.saturating_add(1);
        let taken = from.len().min(self.left);
        if taken == 0 || self.bytes.extend_from_slice(&from[..taken]).is_err() {
            self.faults = self.faults.saturating_add(1);
            return Err(Failed);
        }
        self.left -= taken;
        Ok(taken)
    }
}
