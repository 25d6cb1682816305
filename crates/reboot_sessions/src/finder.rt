//! What a stop left is booted, and the request is looked for in it: after a reboot, after reboots that are stopped too, or after
//! one of which calls on the disk fail.

use crate::due::{Due, Found};
use crate::machines::{Cut, Room};
use crate::pairs::Pair;
use crate::tallies::Tally;
use std::alloc::{AllocError, Global};
use test_servers::Sizes;
use warm_reboot::BootFail;

/// The most stops of a reboot, and calls of it on a disk.
const MOST: u64 = 100_000;

/// How much is tried behind each stop.
#[derive(Clone, Copy)]
pub struct Depth {
    /// Of so many steps or calls of a reboot one is tried, or none where this is 0.
    pub second: u64,
    /// Behind one of so many stops of a reboot the next one is stopped before each of its steps, or behind none where this is 0.
    pub third: u64,
}

/// Nothing is.
const NOTHING: Depth = Depth {
    second: 0,
    third: 0,
};

/// What looks for a request.
#[derive(Drop)]
pub struct Finder {
    alloc: Global,
    pub room: Room,
    pub due: Due,
    pub tally: Tally,
    pub depth: Depth,
    /// Whether calls on the disk fail, and no reboot is stopped.
    pub has_faults: bool,
}

impl Finder {
    /// Nothing is looked for yet.
    pub fn new(alloc: Global, sizes: Sizes) -> Result<Finder, AllocError> {
        let room = Room::new(alloc)?;
        let due = Due::new(alloc, sizes)?;
        Ok(Finder {
            alloc,
            room,
            due,
            tally: Tally::new(alloc, 0),
            depth: NOTHING,
            has_faults: false,
        })
    }

    /// The root directory alone is at hand again, and nothing is looked for.
    pub fn start(&mut self, sizes: Sizes) -> Result<(), AllocError> {
        self.tally = Tally::new(self.alloc, 0);
        self.depth = NOTHING;
        self.due.start(sizes)
    }

    /// The request is looked for that is stopped behind these lines.
    pub fn begin(&mut self, lines: &str) -> Result<(), AllocError> {
        self.tally = Tally::new(self.alloc, self.tally.machines);
        self.due.begin(lines)
    }

    /// Makes lines of the plain definition too, and answers whether its replies are those of the last machine.
    pub fn follow(&mut self, lines: &str) -> Result<bool, AllocError> {
        self.due.follow(lines, self.room.replies())
    }

    /// Tries each pair that a stop left.
    pub fn try_pairs(&mut self, pairs: &[Pair]) -> Result<(), AllocError> {
        for pair in pairs {
            self.try_pair(pair)?;
        }
        Ok(())
    }

    /// Tries a pair that a stop left.
    fn try_pair(&mut self, pair: &Pair) -> Result<(), AllocError> {
        if self.has_faults {
            return self.fail_calls(pair);
        }
        self.find(pair)?;
        self.stop_reboots(pair)
    }

    /// Whether step or call `n` of a reboot is tried behind the stop that was counted last.
    fn is_tried(&self, n: u64) -> bool {
        let one_of = self.depth.second;
        if one_of == 0 {
            return false;
        }
        n % one_of == self.tally.stops % one_of
    }

    /// Whether the next reboot is stopped behind a stop before step `n` of a reboot.
    fn is_third(&self, n: u64) -> bool {
        let one_of = self.depth.third;
        if one_of == 0 {
            return false;
        }
        n % one_of == one_of / 2
    }

    /// Boots a pair, and finds the request.
    fn find(&mut self, pair: &Pair) -> Result<(), AllocError> {
        let lines = self.due.readings.lines.as_bytes();
        self.room.pass(pair, lines)?;
        let found = self.found()?;
        self.tally.count(found)
    }

    /// How the request is found, by what was read of the last machine.
    fn found(&mut self) -> Result<Found, AllocError> {
        match self.room.end {
            Ok(_) => self.due.find(self.room.replies()),
            Err(_) => Ok(Found::Otherwise),
        }
    }

    /// Finds the request in each of these pairs.
    fn find_each(&mut self, pairs: &[Pair]) -> Result<(), AllocError> {
        for pair in pairs {
            self.find(pair)?;
        }
        Ok(())
    }

    /// Boots a pair, stopped before the reboot's steps, and finds the request after the next one.
    fn stop_reboots(&mut self, pair: &Pair) -> Result<(), AllocError> {
        let all = self.room.steps_of(pair, &[])?;
        let mut last = Vec::new(self.alloc);
        self.stop_before_each(pair, all.min(MOST), &mut last)
    }

    /// Stops a reboot before those of its first steps that are tried.
    fn stop_before_each(
        &mut self,
        pair: &Pair,
        all: u64,
        last: &mut Vec<Pair>,
    ) -> Result<(), AllocError> {
        for n in 0..all {
            if self.is_tried(n) {
                self.stop_before(pair, n, last)?;
            }
        }
        Ok(())
    }

    /// Stops a reboot before step `n`, and finds the request in each pair that this leaves, and where this is to be tried too behind
    /// the next one, stopped before each of its steps.
    fn stop_before(&mut self, pair: &Pair, n: u64, last: &mut Vec<Pair>) -> Result<(), AllocError> {
        if !self.room.leave_anew(pair, Cut::Stop(n), &[], last)? {
            return Ok(());
        }
        self.find_each(last)?;
        if !self.is_third(n) {
            return Ok(());
        }
        self.stop_next_of_each(last)
    }

    /// Boots each pair that a stopped reboot left, stopped before each of its steps.
    fn stop_next_of_each(&mut self, pairs: &[Pair]) -> Result<(), AllocError> {
        for pair in pairs {
            self.stop_next(pair)?;
        }
        Ok(())
    }

    /// Boots a pair that a stopped reboot left, stopped before each of its steps, and finds the request after the one behind it.
    fn stop_next(&mut self, pair: &Pair) -> Result<(), AllocError> {
        let all = self.room.steps_of(pair, &[])?;
        let mut last = Vec::new(self.alloc);
        self.stop_next_before_each(pair, all.min(MOST), &mut last)
    }

    /// Stops the next reboot before each of its first steps.
    fn stop_next_before_each(
        &mut self,
        pair: &Pair,
        all: u64,
        last: &mut Vec<Pair>,
    ) -> Result<(), AllocError> {
        for n in 0..all {
            if self.room.leave_anew(pair, Cut::Stop(n), &[], last)? {
                self.find_each(last)?;
            }
        }
        Ok(())
    }

    /// Boots a pair once for each of the reboot's calls on the disk that is tried, which fails, and then again.
    fn fail_calls(&mut self, pair: &Pair) -> Result<(), AllocError> {
        for n in 1..MOST {
            if !self.is_tried(n) {
                continue;
            }
            if !self.fail_call(pair, n)? {
                break;
            }
        }
        Ok(())
    }

    /// Boots a pair where this call on the disk fails, and finds the request after the next reboot. Answers whether there is such a
    /// call.
    fn fail_call(&mut self, pair: &Pair, n: u64) -> Result<bool, AllocError> {
        let mut left = Vec::new(self.alloc);
        self.find_behind_fault(pair, n, &mut left)
    }

    /// Finds the request in each pair that a reboot left that failed. It failed by a fault alone.
    fn find_behind_fault(
        &mut self,
        pair: &Pair,
        n: u64,
        left: &mut Vec<Pair>,
    ) -> Result<bool, AllocError> {
        self.room.leave(pair, Cut::Call(n), &[], left)?;
        match self.room.end {
            Ok(_) => return Ok(false),
            Err(BootFail::Fault) => self.find_each(left)?,
            Err(_) => self.tally.count(Found::Otherwise)?,
        }
        Ok(true)
    }
}
