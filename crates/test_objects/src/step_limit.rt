//! A limit on steps, for the objects in memory that can be told to stop.

ghost use Rattle.std.specs.Prelude.{◌≡◌, ◌<◌, ◌≤◌, false, IsErr};
ghost use Rattle.rio_base.specs.Blocks.{Halts};
ghost use Rattle.rio_base.specs.Volume.{Goes};
ghost use Rattle.test_objects.specs.StepLimits.{TakesSteps, limit_below, limit_health, made_of};

use rio_base::Stopped;

/// How many steps may still be made. Where more are asked for than are left it stops, and makes none from then on.
#[derive(Drop)]
pub(crate) struct StepLimit {
    /// How many steps are left, where they are limited.
    left: Option<u64>,
    stopped: bool,
}

impl StepLimit {
    /// A limit of `left` steps, or none.
    pub(crate) fn new(left: Option<u64>) -> StepLimit
        ensures { result ≡ record { left = left; stopped = false } }
    {
        StepLimit {
            left,
            stopped: false,
        }
    }

    /// Whether it is stopped.
    pub(crate) fn stopped(&self) -> bool
        ensures { result ≡ self.now.stopped }
    {
        self.stopped
    }

    /// Makes up to `n` steps, and answers how many. Where those are fewer than `n`, it is stopped.
    pub(crate) fn take(&mut self, n: usize) -> usize
        ensures made { result ≡ made_of n self.old }
        ensures most { result ≤ n }
        ensures steps { TakesSteps n (result < n) self.old self.new }
        ensures goes { Goes (limit_health self.old) (limit_below self.old) (limit_health self.new) (limit_below self.new) }
    {
        if self.stopped {
            return 0;
        }
        let Some(left) = self.left else {
            return n;
        };
        if left < n as u64 {
            self.left = Some(0);
            self.stopped = true;
            return left as usize;
        }
        self.left = Some(left - n as u64);
        n
    }

    /// Makes one step, if there is one left.
    pub(crate) fn step(&mut self) -> Result<(), Stopped>
        ensures steps { TakesSteps 1 (IsErr result) self.old self.new }
        ensures goes { Goes (limit_health self.old) (limit_below self.old) (limit_health self.new) (limit_below self.new) }
        ensures ends { Halts (limit_health self.old) (limit_health self.new) result }
    {
        if self.take(1) == 0 {
            return Err(Stopped);
        }
        Ok(())
    }
}
