//! Blocks in memory that fail at one word, for tests.

ghost use Rattle.std.specs.Prelude.{◌≡◌, ◌*◌, length};

use rio_base::{Block, Blocks, PageName, VolFail};

/// How a word fails.
#[derive(Clone, Copy, Debug, PartialEq, Eq)]
pub enum Failing {
    /// The disk fails, and the next word reads.
    Fault,
    /// The machine stops.
    Stop,
}

/// Blocks in memory that fail once. They can only be read.
#[derive(Drop)]
pub struct FailingBlocks {
    blocks: u32,
    /// The words of all blocks, one block after the other.
    words: Vec<u64>,
    /// Which of the words that are asked for from now on fails, from 1; 0 where none does.
    until: u64,
    failing: Failing,
    faults: u64,
    stopped: bool,
    ghost all: { length words.items ≡ 512 * blocks },
}

impl FailingBlocks {
    /// Blocks that have these words, 512 each. None fails.
    pub fn new(blocks: u32, words: Vec<u64>, failing: Failing) -> FailingBlocks
        requires { length words.items ≡ 512 * blocks }
    {
        FailingBlocks {
            blocks,
            words,
            until: 0,
            failing,
            faults: 0,
            stopped: false,
        }
    }

    /// Begins anew: the `n`th word that is asked for from now on fails, `n` from 1.
    pub fn fail_at(&mut self, n: u64) {
        self.until = n;
        self.faults = 0;
        self.stopped = false;
    }

    /// Whether its word failed.
    pub fn has_failed(&self) -> bool {
        self.stopped || self.faults > 0
    }
}

impl Blocks for FailingBlocks {
    ghost use Rattle.std.specs.Prelude.{refl};
    ghost use Rattle.volume_tests.specs.FailingBlocks.{failing_health, failing_seen};

    ghost seen = { failing_seen };

    ghost health = { failing_health };

    ghost sound = { λ v. Unit {0} };

    ghost sure = { λ v b. ⊥ };

    ghost passes = { λ x y. Unit {0} };

    ghost sure_stays = { λ x y b h s. s };

    ghost passes_refl = { λ x. tt };

    ghost passes_trans = { λ x y z h k. tt };

    ghost names_fit = { λ x s. record { cached = λ b e. refl; in_range = λ b. tt } };

    fn volume_blocks(&self) -> u32 {
        self.blocks
    }

    fn word(&mut self, b: Block, name: Option<PageName>, w: u16) -> Result<u64, VolFail> {
        if self.stopped {
            return Err(VolFail::Stopped);
        }
        let due = self.until == 1;
        self.until = self.until.saturating_sub(1);
        if !due {
            return Ok(self.words[512 * b.0 as usize + w as usize]);
        }
        match self.failing {
            Failing::Fault => {
                self.faults = self.faults.saturating_add(1);
                Err(VolFail::Fault)
            }
            Failing::Stop => {
                self.stopped = true;
                Err(VolFail::Stopped)
            }
        }
    }
}
