//! The guard of a board: which page takes stores, how many steps are made, and what stops them.

ghost use Rattle.std.specs.Prelude.{ℕ, ◌^◌, ◌≡◌, ◌≢◌, ◌<◌, ◌≤◌, ◌*◌, ◌+◌, ◌/◌, ◌-◌, ◌↔◌, true, false, Some, None, IfOk, IfSome, IsErr, IsNone, OnOk, OnErr, if◌then◌else◌};
ghost use Rattle.rio_base.specs.Disks.{raised};
ghost use Rattle.board.specs.Guards.{Halted, Halts, HasFallen, IsClear, IsDue, IsOver, Lands, Proceeds, Traps, after_store, counted, page_of};

use rio_base::{PAGE_WORDS, Page, Stopped, Wild, WordAt};

/// A wild store that is armed.
#[derive(Clone, Copy)]
pub(crate) struct Armed {
    /// How many steps are made before it falls.
    pub(crate) left: u64,
    /// Where it falls.
    pub(crate) at: WordAt,
    /// What it stores.
    pub(crate) value: u64,
}

/// What a board knows beside its words and its disk.
#[derive(Clone, Copy)]
pub(crate) struct Guard {
    /// The page that takes stores.
    pub(crate) open_page: Option<Page>,
    /// How many steps are made before the board stops, if it does.
    pub(crate) stop_after: Option<u64>,
    /// How many steps were made, up to the largest `u64`.
    pub(crate) steps: u64,
    /// How many wild stores fell on the open page, up to the largest `u64`.
    pub(crate) spared: u64,
    /// No step is made any more.
    pub(crate) stopped: bool,
    /// The wild store that is armed.
    pub(crate) armed: Option<Armed>,
    /// Where a wild store trapped.
    pub(crate) trapped: Option<WordAt>,
}

impl Guard {
    /// A guard with no page open and no step made.
    pub(crate) fn new(stop_after: Option<u64>) -> Guard
        ensures { result ≡ record { open_page = None; stop_after = stop_after; steps = 0; spared = 0; stopped = false; armed = None; trapped = None } }
    {
        Guard {
            open_page: None,
            stop_after,
            steps: 0,
            spared: 0,
            stopped: false,
            armed: None,
            trapped: None,
        }
    }

    /// A wild store now, where the first `size` words are protected. Where it is `Changed`, the word of scratch is for
    /// the caller to change.
    pub(crate) fn wild(&mut self, size: u32, at: WordAt) -> Wild
        ensures lands { Lands self.old size at.0 result }
        ensures after { self.new ≡ after_store result at self.old }
    {
        if self.open_page == Some(Page(at.0 / PAGE_WORDS)) {
            self.spared = self.spared.saturating_add(1);
            return Wild::Spared;
        }
        if at.0 < size {
            self.stopped = true;
            self.trapped = Some(at);
            return Wild::Trapped;
        }
        Wild::Changed
    }

    /// Refuses a step of a stopped board, and stops one whose steps are used up.
    fn check(&mut self) -> Result<(), Stopped>
        ensures over { IsErr result ↔ IsOver self.old }
        ensures ok { OnOk result (self.new ≡ self.old) }
        ensures err { OnErr result (self.new ≡ record self.old { stopped = true }) }
    {
        if self.stopped {
            return Err(Stopped);
        }
        match self.stop_after {
            Some(most) if most <= self.steps => {
                self.stopped = true;
                Err(Stopped)
            }
            _ => Ok(()),
        }
    }

    /// The armed store that is due, which is armed no more.
    fn take_due(&mut self) -> Option<Armed>
        ensures due { IfSome result (λ a. IsDue self.old a × (self.new ≡ record self.old { armed = None })) }
        ensures none { IsNone result → ((a : _) → IsDue self.old a → ⊥) × (self.new ≡ self.old) }
    {
        match self.armed {
            Some(armed) if armed.left == 0 => {
                self.armed = None;
                Some(armed)
            }
            _ => None,
        }
    }

    /// Lets the armed store fall, if it is due. Where it falls on a word of scratch, it is handed back.
    fn fall(&mut self, size: u32) -> Result<Option<Armed>, Stopped>
        ensures ok { IfOk result (λ fallen. HasFallen size fallen self.old self.new) }
        ensures err { OnErr result (Traps size self.old self.new) }
    {
        let Some(armed) = self.take_due() else {
            return Ok(None);
        };
        match self.wild(size, armed.at) {
            Wild::Changed => Ok(Some(armed)),
            Wild::Spared => Ok(None),
            Wild::Trapped => Err(Stopped),
        }
    }

    /// Counts `n` steps.
    fn count(&mut self, n: u64)
        ensures { self.new ≡ counted n self.old }
    {
        self.steps = self.steps.saturating_add(n);
        if let Some(armed) = self.armed {
            self.armed = Some(Armed {
                left: armed.left.saturating_sub(n),
                at: armed.at,
                value: armed.value,
            });
        }
    }

    /// How many steps are left before the board stops, or the largest `u64` where no stop is given.
    fn steps_left(&self) -> u64
        ensures left { (most : ℕ) → self.now.stop_after ≡ Some most → result ≡ most - self.now.steps }
        ensures fits { (most : ℕ) → self.now.stop_after ≡ Some most → most < 2 ^ 64 }
    {
        match self.stop_after {
            Some(most) => most.saturating_sub(self.steps),
            None => u64::MAX,
        }
    }

    /// How many steps are made before the armed store falls, or the largest `u64` where none is armed.
    fn armed_left(&self) -> u64
        ensures { (a : Armed) → self.now.armed ≡ Some a → result ≡ a.left }
    {
        match self.armed {
            Some(armed) => armed.left,
            None => u64::MAX,
        }
    }

    /// Counts further steps, as many as no stop and no armed store comes before, and at most `most`. Answers how many.
    pub(crate) fn pass(&mut self, most: u32) -> u32
        ensures most { result ≤ most }
        ensures clear { IsClear self.old result }
        ensures fits { (most : ℕ) → self.old.stop_after ≡ Some most → most < 2 ^ 64 }
        ensures counted { self.new ≡ counted result self.old }
    {
        let clear = self.steps_left().min(self.armed_left());
        let n = clear.min(most as u64);
        self.count(n);
        n as u32
    }

    /// Begins a step, where the first `size` words are protected. An armed store that is due falls before it; where it
    /// falls on a word of scratch, it is handed back for the caller to make.
    pub(crate) fn begin(&mut self, size: u32) -> Result<Option<Armed>, Stopped>
        ensures halts { IsErr result ↔ Halts self.old size }
        ensures ok { IfOk result (λ fallen. Proceeds size fallen self.old self.new) }
        ensures err { OnErr result (Halted size self.old self.new) }
    {
        self.check()?;
        let fallen = self.fall(size)?;
        self.count(1);
        Ok(fallen)
    }
}
