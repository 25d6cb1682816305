//! A request that is stopped before its steps, each time on a machine of its own, which is booted afterwards.
//!
//! A request of up to 20,000 steps is stopped before each of them. A longer one copies pages by 512 steps which say nothing
//! new: it is stopped before each of its first and last 8 steps, before each step of those pieces of up to 4 in which an
//! entry, the gate or the disk changes, and before each 256th of the others. Pieces are found by halving, so one is passed
//! over at whose ends all of these are alike. Where blocks may be on their way to the disk, each stop is tried with the
//! three things that the disk may make of them.
//!
//! Behind each stop the reboot is stopped too, or its calls on the disk fail in turn: before each of its steps, or before
//! one of so many, another one behind the next stop. Behind some stops of a reboot the next one is stopped before each of
//! its steps.
//!
//! A stop that leaves the very words that the one before it left, as one within a copy of zeros over zeros does, is
//! counted, and is not tried again: a reboot has these words alone.

use crate::finder::Finder;
use crate::machines::Cut;
use crate::pairs::Pair;
use crate::readings::push_line;
use block_disk::DiskChoice;
use std::alloc::{AllocError, Global};
use test_servers::Sizes;

/// The most steps that are tried one and all.
const SHORT: u64 = 20_000;

/// How many steps are tried at each end of a longer request.
const EDGE: u64 = 8;

/// The most steps of a piece that is not halved.
const PIECE: u64 = 4;

/// The first step that is tried of a piece in which nothing changes, and the steps from one to the next.
const FIRST_THIN: u64 = 32;

const THIN: u64 = 256;

/// The most pieces of a request, and steps of a piece.
const MOST: u64 = 100_000;

/// The end of a piece: a number of steps, and the fingerprint of what a stop after these leaves.
#[derive(Clone, Copy)]
struct End {
    steps: u64,
    print: u64,
}

/// How a request is stopped.
#[derive(Clone, Copy)]
pub enum Way {
    /// Before its steps.
    Each,
    /// Before the steps of the whole run: its reboot and the lines at hand too.
    Whole,
    /// Before its steps, and calls on the disk of the reboot fail.
    Faults,
}

/// A pair at hand, the lines that are made on it next, and what stops them.
#[derive(Drop)]
pub struct Stops {
    alloc: Global,
    pub pair: Pair,
    /// The lines, with an end behind each.
    pub lines: String,
    /// The ends of the pieces that are still to be tried, the first one at the end.
    ends: Vec<End>,
    /// What the stop left that was tried last.
    last: Vec<Pair>,
    pub finder: Finder,
}

impl Stops {
    /// A fresh pair of these sizes is at hand, and no line.
    pub fn new(alloc: Global, sizes: Sizes) -> Result<Stops, AllocError> {
        let pair = Pair::fresh(alloc, sizes)?;
        let finder = Finder::new(alloc, sizes)?;
        Ok(Stops {
            alloc,
            pair,
            lines: String::new(alloc),
            ends: Vec::new(alloc),
            last: Vec::new(alloc),
            finder,
        })
    }

    /// A fresh pair of these sizes is at hand again, and no line.
    pub fn start(&mut self, sizes: Sizes) -> Result<(), AllocError> {
        self.lines.clear();
        self.pair = Pair::fresh(self.alloc, sizes)?;
        self.finder.start(sizes)
    }

    /// Boots the machine of the pair, which this befalls, without the lines. The pair is then as it left it. Answers whether it is
    /// as it was.
    pub fn boot(&mut self, cut: Cut) -> Result<bool, AllocError> {
        let choice = DiskChoice::AsRead;
        let left = self.finder.room.run(&self.pair, cut, &[], choice)?;
        let is_kept = left.is(&self.pair);
        self.pair = left;
        Ok(is_kept)
    }

    /// Boots the machine of the pair, which this befalls, and makes the lines. The pair is then as it left it.
    pub fn run(&mut self, cut: Cut) -> Result<(), AllocError> {
        let choice = DiskChoice::AsRead;
        let lines = self.lines.as_bytes();
        self.pair = self.finder.room.run(&self.pair, cut, lines, choice)?;
        Ok(())
    }

    /// Boots the machine of the pair, which this befalls, and makes the lines, of the plain definition too. Answers whether that has
    /// the same replies. The pair is then as it was left, and there are no lines any more.
    pub fn run_as_defined(&mut self, cut: Cut) -> Result<bool, AllocError> {
        self.run(cut)?;
        let is_due = self.finder.follow(self.lines.as_str())?;
        self.lines.clear();
        Ok(is_due)
    }

    /// Stops the request so that is to be stopped, behind the lines. It is one of them then. All else is as it was.
    pub fn stop(&mut self, way: Way) -> Result<(), AllocError> {
        self.finder.has_faults = matches!(way, Way::Faults);
        self.finder.begin(self.lines.as_str())?;
        let from = self.first_step(way)?;
        push_line(&mut self.lines, self.finder.due.request.as_str())?;
        let to = self.steps()?;
        self.last.clear();
        self.try_all(from, to)
    }

    /// The first step that is tried of the request.
    fn first_step(&mut self, way: Way) -> Result<u64, AllocError> {
        match way {
            Way::Whole => Ok(0),
            Way::Each | Way::Faults => self.steps(),
        }
    }

    /// How many steps the machine of the pair takes to boot and to make the lines.
    fn steps(&mut self) -> Result<u64, AllocError> {
        let lines = self.lines.as_bytes();
        self.finder.room.steps_of(&self.pair, lines)
    }

    /// Stops before these steps, and tries what is tried behind each stop. A stop behind all of them is one of them.
    fn try_all(&mut self, from: u64, to: u64) -> Result<(), AllocError> {
        if to.saturating_sub(from) <= SHORT {
            self.try_each(from, to)?;
        } else {
            self.try_long(from, to)?;
        }
        self.try_at(to)
    }

    /// Stops at both ends of a long request and within its pieces.
    fn try_long(&mut self, from: u64, to: u64) -> Result<(), AllocError> {
        self.try_each(from, from.saturating_add(EDGE))?;
        self.try_pieces(from, to)?;
        self.try_each(to.saturating_sub(EDGE), to)
    }

    /// Stops within pieces, from the whole on.
    fn try_pieces(&mut self, from: u64, to: u64) -> Result<(), AllocError> {
        self.ends.clear();
        self.add_end(to)?;
        let mut start = self.end_at(from)?;
        for _ in 0..MOST {
            let Some(end) = self.ends.last().copied() else {
                break;
            };
            if self.try_piece(start, end)? {
                self.ends.pop();
                start = end;
            }
        }
        Ok(())
    }

    /// Stops within a piece, and answers that. One that is too long is halved.
    fn try_piece(&mut self, start: End, end: End) -> Result<bool, AllocError> {
        let steps = end.steps.saturating_sub(start.steps);
        if start.print == end.print {
            self.try_thinly(start.steps, end.steps)?;
            return Ok(true);
        }
        if steps <= PIECE {
            self.try_each(start.steps, end.steps)?;
            return Ok(true);
        }
        self.add_end(start.steps.saturating_add(steps / 2))?;
        Ok(false)
    }

    /// A piece ends after so many steps.
    fn add_end(&mut self, steps: u64) -> Result<(), AllocError> {
        let end = self.end_at(steps)?;
        Ok(self.ends.push(end)?)
    }

    /// The end of a piece after so many steps.
    fn end_at(&mut self, steps: u64) -> Result<End, AllocError> {
        let lines = self.lines.as_bytes();
        let choice = DiskChoice::AsRead;
        let room = &mut self.finder.room;
        let left = room.run(&self.pair, Cut::Stop(steps), lines, choice)?;
        Ok(End {
            steps,
            print: left.fingerprint(),
        })
    }

    /// Stops after each of these numbers of steps.
    fn try_each(&mut self, from: u64, to: u64) -> Result<(), AllocError> {
        for steps in from..to {
            self.try_at(steps)?;
        }
        Ok(())
    }

    /// Stops after few of these numbers of steps.
    fn try_thinly(&mut self, from: u64, to: u64) -> Result<(), AllocError> {
        for turn in 0..MOST {
            let steps = turn
                .saturating_mul(THIN)
                .saturating_add(FIRST_THIN)
                .saturating_add(from);
            if to <= steps {
                break;
            }
            self.try_at(steps)?;
        }
        Ok(())
    }

    /// Stops after so many steps, and tries each pair that is left.
    fn try_at(&mut self, steps: u64) -> Result<(), AllocError> {
        self.finder.tally.stop(steps);
        let lines = self.lines.as_bytes();
        let room = &mut self.finder.room;
        if !room.leave_anew(&self.pair, Cut::Stop(steps), lines, &mut self.last)? {
            return Ok(());
        }
        self.finder.try_pairs(&self.last)
    }
}
