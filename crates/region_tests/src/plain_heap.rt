//! A plain heap, which looks at one unit after the other.

use crate::heap_calls::{Call, Said};
use std::alloc::{AllocError, Global};

/// Units of the heap: those of 5 data pages.
const UNITS: u32 = 320;

/// A unit that is in no block.
const FREE: u8 = 0;

/// The first unit of a block.
const FIRST: u8 = 1;

/// A unit that goes on a block.
const NEXT: u8 = 2;

/// A heap and what it was before its records.
#[derive(Drop)]
pub(crate) struct PlainHeap {
    units: [u8; 320],
    before: [u8; 320],
    /// Undo words that are free.
    room: u32,
}

/// The undo words that the record of a block of `n` units at `at` takes.
fn record_words(at: u32, n: u32) -> u32 {
    let last = at.saturating_add(n).saturating_sub(1) / 64;
    let pages = last.saturating_sub(at / 64).saturating_add(1);
    pages.saturating_mul(2).saturating_add(3)
}

/// The lowest unit from which `n` units are free.
fn lowest_gap(units: &[u8; 320], n: u32) -> Option<u32> {
    let mut free: u32 = 0;
    for i in 0..UNITS {
        free = if units[i as usize] == FREE {
            free.saturating_add(1)
        } else {
            0
        };
        if free == n {
            return Some((i + 1).saturating_sub(n));
        }
    }
    None
}

/// How many units the block has that starts at `at`.
fn block_units(units: &[u8; 320], at: u32) -> u32 {
    for i in 0..UNITS {
        if at < i {
            if units[i as usize] != NEXT {
                return i - at;
            }
        }
    }
    UNITS.saturating_sub(at)
}

/// Makes `n` units from `at` on a block, or free.
fn mark(units: &mut [u8; 320], at: u32, n: u32, on: bool) {
    let end = at.saturating_add(n);
    for i in at.min(UNITS)..end.min(UNITS) {
        units[i as usize] = if !on {
            FREE
        } else if i == at {
            FIRST
        } else {
            NEXT
        };
    }
}

/// The first unit of a block at `unit` or behind it, else `unit`.
pub(crate) fn next_block(plain: &PlainHeap, unit: u32) -> u32 {
    for i in 0..UNITS {
        if unit <= i {
            if plain.units[i as usize] == FIRST {
                return i;
            }
        }
    }
    unit
}

impl PlainHeap {
    /// No block, and an undo page without records.
    pub(crate) fn new() -> PlainHeap {
        PlainHeap {
            units: [FREE; 320],
            before: [FREE; 320],
            room: 512,
        }
    }

    /// What a call that changes the heap must answer.
    pub(crate) fn answer(&mut self, call: Call) -> Said {
        match call {
            Call::Take(units) => self.take(units),
            Call::Give(unit) => self.give(unit),
            Call::Abort => self.abort(),
            Call::Commit => self.commit(),
            Call::Room | Call::Block(_) => Said::Done,
        }
    }

    /// What taking `n` units must answer.
    fn take(&mut self, n: u32) -> Said {
        let Some(at) = lowest_gap(&self.units, n) else {
            return Said::Full;
        };
        let Some(left) = self.room.checked_sub(record_words(at, n)) else {
            return Said::UndoFull;
        };
        self.room = left;
        mark(&mut self.units, at, n, true);
        Said::Taken(at)
    }

    /// What giving back the block at `unit` must answer.
    fn give(&mut self, unit: u32) -> Said {
        if self.units.get(unit as usize) != Some(&FIRST) {
            return Said::NotBlock;
        }
        let n = block_units(&self.units, unit);
        let Some(left) = self.room.checked_sub(record_words(unit, n)) else {
            return Said::UndoFull;
        };
        self.room = left;
        mark(&mut self.units, unit, n, false);
        Said::Given
    }

    fn commit(&mut self) -> Said {
        self.before = self.units;
        self.room = 512;
        Said::Done
    }

    fn abort(&mut self) -> Said {
        self.units = self.before;
        self.room = 512;
        Said::Done
    }

    /// The blocks, first unit and units of each, in rising order.
    pub(crate) fn blocks(&self, alloc: Global) -> Result<Vec<(u32, u32)>, AllocError> {
        let mut list = Vec::new(alloc);
        for i in 0..UNITS {
            if self.units[i as usize] == FIRST {
                list.push((i, block_units(&self.units, i)))?;
            }
        }
        Ok(list)
    }
}
