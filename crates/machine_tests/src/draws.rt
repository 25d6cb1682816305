//! Numbers that are drawn for walks: for the same seed the same.

ghost use Rattle.std.specs.Prelude.{◌≡◌, ◌+◌, ◌<◌, ◌≤◌, length};

use rio_base::Block;

/// Draws by a linear congruential generator.
#[derive(Drop)]
pub(crate) struct Draws {
    state: u64,
    flushes: bool,
}

impl Draws {
    /// Draws from this seed on. Where `flushes` is not set, no action is drawn that flushes.
    pub(crate) fn new(seed: u64, flushes: bool) -> Draws {
        Draws {
            state: seed,
            flushes,
        }
    }

    /// A word.
    pub(crate) fn word(&mut self) -> u64 {
        self.state = self
            .state
            .wrapping_mul(6_364_136_223_846_793_005)
            .wrapping_add(1_442_695_040_888_963_407);
        self.state
    }

    /// A number below `n`.
    pub(crate) fn below(&mut self, n: u32) -> u32
        requires { 0 < n }
        ensures { result < n }
    {
        let high = (self.word() >> 32) as u32; // the low bits of such a generator have short periods
        high % n
    }

    /// One of the 64 blocks.
    pub(crate) fn block(&mut self) -> Block
        ensures { result.0 < 64 }
    {
        Block(self.below(64))
    }

    /// One of the 40 blocks of metadata.
    pub(crate) fn metadata(&mut self) -> Block
        ensures { result.0 < 40 }
    {
        Block(self.below(40))
    }

    /// The place of a word in its block.
    pub(crate) fn word_place(&mut self) -> u16
        ensures { result < 512 }
    {
        self.below(512) as u16
    }

    /// The length of a run of up to `most` words, from word `w` of a block on.
    pub(crate) fn run(&mut self, w: u16, most: usize) -> usize
        requires word { w < 512 }
        requires some { most ≤ 512 }
        ensures most { result ≤ most }
        ensures run { w + result ≤ 512 }
    {
        let n = self.below(most as u32 + 1) as usize;
        n.min(512 - w as usize)
    }

    /// Fills words.
    pub(crate) fn fill(&mut self, words: &mut [u64])
        ensures { length words.new ≡ length words.old }
    {
        for word in words.iter_mut() {
            *word = self.word();
        }
    }

    /// The kind of an action, below 10. 9 is a flush.
    pub(crate) fn kind(&mut self) -> u32 {
        let kinds = if self.flushes { 10 } else { 9 };
        self.below(kinds)
    }
}
