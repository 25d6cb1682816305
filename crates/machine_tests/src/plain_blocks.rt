//! The 64 blocks of a volume as plain lists, which every word that a walk reads is compared with.

ghost use Rattle.std.specs.Prelude.{◌≡◌, ◌+◌, ◌<◌, ◌≤◌, length};

use rio_base::{BLOCK_WORDS, Block};
use std::alloc::Global;
use std::process::Abort;
use test_objects::{ALL_WORDS, BLOCKS, zeros};

/// How many of the stores of the running action may stand where a stop cuts it off.
#[derive(Clone, Copy)]
pub(crate) enum Stands {
    /// None of them.
    Nothing,
    /// None of them, or all.
    Whole,
    /// The first of them, up to any.
    Front,
}

/// A word that the running action stores, by its place in the list of all words.
#[derive(Clone, Copy)]
struct Put {
    at: usize,
    v: u64,
}

/// What 64 blocks read as and what stands of them, one block after the other, and the action that is running.
#[derive(Drop)]
pub(crate) struct PlainBlocks {
    /// What the blocks read as, with all stores of the running action.
    words: Vec<u64>,
    /// What stands without the running action.
    standing: Vec<u64>,
    /// Of which blocks it is told what they read as: not of one that was forgotten and is not made anew.
    told: Vec<bool>,
    puts: Vec<Put>,
    /// No memory was left for a store. Nothing may then read as it does.
    short: bool,
    stands: Stands,
    ghost words_count: { length words.items ≡ 32768 },
    ghost standing_count: { length standing.items ≡ 32768 },
    ghost told_count: { length told.items ≡ 64 },
}

/// The words of 64 blocks of zeros.
pub(crate) fn all_zeros(rt: &impl Abort, alloc: Global) -> Vec<u64>
    ensures { length result.items ≡ 32768 }
{
    match zeros(alloc, ALL_WORDS) {
        Ok(words) => words,
        Err(_) => panic!(rt; "no words"),
    }
}

/// A mark for each block, which is set.
fn marks(rt: &impl Abort, alloc: Global) -> Vec<bool>
    ensures { length result.items ≡ 64 }
{
    match vec![in alloc; true; BLOCKS as usize] {
        Ok(marks) => marks,
        Err(_) => panic!(rt; "no marks"),
    }
}

/// The place of a word in the list of all words.
fn place(b: Block, w: u16) -> usize
    requires block { b.0 < 64 }
    requires word { w < 512 }
    ensures { result < 32768 }
{
    BLOCK_WORDS * b.0 as usize + w as usize
}

/// Sets the word at a place, which is one of the list.
fn set(words: &mut [u64], at: usize, v: u64)
    ensures { length words.new ≡ length words.old }
{
    if at < words.len() {
        words[at] = v;
    }
}

/// Makes the first `n` of these stores in the list of what stands, and takes the others back in that of what reads.
fn make(puts: &[Put], n: usize, standing: &mut [u64], words: &mut [u64])
    ensures standing { length standing.new ≡ length standing.old }
    ensures words { length words.new ≡ length words.old }
{
    for (i, put) in puts.iter().enumerate() {
        if i < n {
            set(standing, put.at, put.v);
        } else if put.at < standing.len() {
            set(words, put.at, standing[put.at]);
        }
    }
}

impl PlainBlocks {
    /// Blocks of zeros that stand, with no action running.
    pub(crate) fn new(rt: &impl Abort, alloc: Global) -> PlainBlocks {
        PlainBlocks {
            words: all_zeros(rt, alloc),
            standing: all_zeros(rt, alloc),
            told: marks(rt, alloc),
            puts: Vec::new(alloc),
            short: false,
            stands: Stands::Front,
        }
    }

    /// Whether a block may read so, from word `w` on. One that is not told may read as anything.
    pub(crate) fn has(&self, b: Block, w: u16, words: &[u64]) -> bool
        requires block { b.0 < 64 }
        requires run { w + length words.now ≤ 512 }
    {
        if self.short {
            return false;
        }
        let from = BLOCK_WORDS * b.0 as usize + w as usize;
        !self.told[b.0 as usize] || &self.words[from..from + words.len()] == words
    }

    /// Begins an action, of whose stores so many may stand at a stop.
    pub(crate) fn begin(&mut self, stands: Stands) {
        self.puts.clear();
        self.stands = stands;
    }

    /// From now on, so many of the running action's stores may stand at a stop.
    pub(crate) fn turn(&mut self, stands: Stands) {
        self.stands = stands;
    }

    /// The running action stores a word.
    pub(crate) fn store(&mut self, b: Block, w: u16, v: u64)
        requires block { b.0 < 64 }
        requires word { w < 512 }
    {
        let at = place(b, w);
        if self.puts.push(Put { at, v }).is_err() {
            self.short = true;
        }
        self.words[at] = v;
    }

    /// The running action is over: its first `n` stores were made, and the others were not.
    pub(crate) fn end_with(&mut self, n: usize) {
        make(&self.puts, n, &mut self.standing, &mut self.words);
        self.puts.clear();
    }

    /// The running action is over: all its stores were made.
    pub(crate) fn end(&mut self) {
        let n = self.puts.len();
        self.end_with(n);
    }

    /// A block is forgotten: what it reads as is not told.
    pub(crate) fn forget(&mut self, b: Block)
        requires { b.0 < 64 }
    {
        self.told[b.0 as usize] = false;
    }

    /// A block is zeros, and told.
    pub(crate) fn renew(&mut self, b: Block)
        requires { b.0 < 64 }
    {
        let from = BLOCK_WORDS * b.0 as usize;
        self.words[from..from + BLOCK_WORDS].fill(0);
        self.standing[from..from + BLOCK_WORDS].fill(0);
        self.told[b.0 as usize] = true;
    }

    /// How many of the running action's stores stand in `found`, up to the first that does not.
    fn front_of(&self, found: &[u64]) -> usize {
        for (i, put) in self.puts.iter().enumerate() {
            if found.get(put.at) != self.words.get(put.at) {
                return i;
            }
        }
        self.puts.len()
    }

    /// Ends the running action as it stands in `found`, as far as it may stand so.
    fn settle(&mut self, found: &[u64]) {
        let front = self.front_of(found);
        let made = match self.stands {
            Stands::Nothing => 0,
            Stands::Whole if front < self.puts.len() => 0,
            Stands::Whole | Stands::Front => front,
        };
        self.end_with(made);
    }

    /// Whether the blocks may stand so after a stop: ends the running action as it stands there, and answers the first
    /// block that stands otherwise than the lists say. Blocks that are not told may stand as anything.
    pub(crate) fn judge(&mut self, found: &[u64]) -> Option<Block>
        requires { length found.now ≡ 32768 }
    {
        self.settle(found);
        for b in 0..BLOCKS {
            let from = BLOCK_WORDS * b as usize;
            if !self.has(Block(b), 0, &found[from..from + BLOCK_WORDS]) {
                return Some(Block(b));
            }
        }
        None
    }
}
