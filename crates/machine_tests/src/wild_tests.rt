//! Tests of wild stores on the memory of a page cache, now and armed to fall within a call. The cache has 32 frames, so
//! that memory has 51 pages, of which the last is scratch.

ghost use Rattle.std.specs.Prelude.{◌≡◌, ◌<◌, ◌≤◌, false, length};
ghost use Rattle.machine_tests.specs.Walks.{Walks};

use crate::cache_tests::read_first;
use crate::jobs::{Job, used};
use crate::machines::Mishap;
use crate::same::same;
use page_cache::PageCache;
use rio_base::{Block, Blocks, Machine, RunFail, VolFail, Volume, Wild, WordAt};
use std::alloc::Global;
use std::process::Abort;

/// The first word of frame 3, and that of the scratch page.
const IN_FRAME: WordAt = WordAt(10_752);

const IN_SCRATCH: WordAt = WordAt(25_600);

#[test]
fn a_cache_tells_its_blocks_and_pages(rt: HostRuntime) {
    let left = used(&rt, rt.alloc(), Mishap::Nothing, Job::Count, WordAt(0));
    let (blocks, _, _) = left.came;
    same(
        &rt,
        "blocks and pages",
        0,
        &(blocks, left.pages),
        &(Ok(64), 51),
    );
}

/// A wild store of 9 now, to a place that every memory under a cache has.
fn strike<M: Machine>(v: &mut PageCache<M>, at: WordAt) -> Wild
    requires sound { ⟦<PageCache<M> as Blocks>⟧.sound v.old }
    requires walks { Walks (⟦<PageCache<M> as Blocks>⟧.seen v.old) }
    requires running { (⟦<PageCache<M> as Blocks>⟧.health v.old).stopped ≡ false }
    requires place { at.0 < 26112 }
    ensures sound { ⟦<PageCache<M> as Blocks>⟧.sound v.new }
    ensures walks { Walks (⟦<PageCache<M> as Blocks>⟧.seen v.new) }
{
    v.wild(at, 9)
}

/// Arms such a store, to fall after so many further steps.
fn arm<M: Machine>(v: &mut PageCache<M>, step: u64, at: WordAt)
    requires sound { ⟦<PageCache<M> as Blocks>⟧.sound v.old }
    requires walks { Walks (⟦<PageCache<M> as Blocks>⟧.seen v.old) }
    requires idle { (⟦<PageCache<M> as Volume>⟧.kept v.old).updating ≡ false }
    requires place { at.0 < 26112 }
    ensures sound { ⟦<PageCache<M> as Blocks>⟧.sound v.new }
    ensures walks { Walks (⟦<PageCache<M> as Blocks>⟧.seen v.new) }
    ensures idle { (⟦<PageCache<M> as Volume>⟧.kept v.new).updating ≡ false }
{
    v.arm(step, at, 9);
}

/// What a wild store of 9 to a place meets, and what block 5 then reads as.
pub(crate) fn struck<M: Machine>(v: &mut PageCache<M>, at: WordAt) -> (Wild, Result<u64, VolFail>)
    requires sound { ⟦<PageCache<M> as Blocks>⟧.sound v.old }
    requires walks { Walks (⟦<PageCache<M> as Blocks>⟧.seen v.old) }
    requires running { (⟦<PageCache<M> as Blocks>⟧.health v.old).stopped ≡ false }
    requires place { at.0 < 26112 }
    ensures sound { ⟦<PageCache<M> as Blocks>⟧.sound v.new }
{
    let met = strike(v, at);
    (met, read_first(v, 5))
}

/// What a wild store of 9 to a place meets, what block 5 then reads as, and the word at the place.
type Struck = (Option<Wild>, Result<u64, RunFail>, u64);

/// Makes the wild store on a fresh cache.
fn after_wild(rt: &impl Abort, alloc: Global, at: WordAt) -> Struck {
    let left = used(rt, alloc, Mishap::Nothing, Job::Strike, at);
    let (read, met, _) = left.came;
    (met, read, left.word)
}

/// Where a wild store falls, and what is found of it.
static WILD: [(WordAt, Struck); 2] = [
    (IN_FRAME, (Some(Wild::Trapped), Err(RunFail::Stopped), 0)),
    (IN_SCRATCH, (Some(Wild::Changed), Ok(0), 9)),
];

#[test]
fn a_wild_store_stops_the_cache_or_falls_on_scratch(rt: HostRuntime) {
    for (k, (at, due)) in WILD.iter().enumerate() {
        same(
            &rt,
            "wild stores",
            k,
            &after_wild(&rt, rt.alloc(), *at),
            due,
        );
    }
}

/// Stores 7 as the first word of block 5.
#[tactic(auto, using(crate::proofs::WalkNames::walk_place, crate::proofs::WalkNames::can_touch))]
fn store_first<V: Volume>(v: &mut V) -> Result<(), VolFail>
    requires sound { V.sound v.old }
    requires walks { Walks (V.seen v.old) }
    requires idle { (V.kept v.old).updating ≡ false }
    ensures sound { V.sound v.new }
{
    v.store(Block(5), None, 0, 7)
}

/// Stores 7 as the first word of block 5, while a wild store of 9 to a place is armed to fall after the first step.
pub(crate) fn store_armed<M: Machine>(v: &mut PageCache<M>, at: WordAt) -> Result<(), VolFail>
    requires sound { ⟦<PageCache<M> as Blocks>⟧.sound v.old }
    requires walks { Walks (⟦<PageCache<M> as Blocks>⟧.seen v.old) }
    requires idle { (⟦<PageCache<M> as Volume>⟧.kept v.old).updating ≡ false }
    requires place { at.0 < 26112 }
    ensures sound { ⟦<PageCache<M> as Blocks>⟧.sound v.new }
{
    arm(v, 1, at);
    store_first(v)
}

/// What is found of a store of 7 to block 5, while a wild store of 9 is armed to fall after its first step: how it ended,
/// where the wild store trapped, the word at the place of the wild store, and the first word of block 5 that stands.
type Armed = (Result<u64, RunFail>, Option<WordAt>, u64, u64);

/// Makes the two stores on a fresh cache, the wild one to this place.
fn after_armed(rt: &impl Abort, alloc: Global, at: WordAt) -> Armed {
    let left = used(rt, alloc, Mishap::Nothing, Job::StoreArmed, at);
    let (end, _, _) = left.came;
    let [first, _] = left.firsts;
    (end, left.trapped, left.word, first)
}

/// Where the armed store falls, and what is found of both.
static ARMED: [(WordAt, Armed); 2] = [
    (IN_FRAME, (Err(RunFail::Stopped), Some(IN_FRAME), 0, 0)),
    (IN_SCRATCH, (Ok(0), None, 9, 7)),
];

#[test]
fn an_armed_store_stops_the_call_or_falls_on_scratch(rt: HostRuntime) {
    for (k, (at, due)) in ARMED.iter().enumerate() {
        same(
            &rt,
            "armed stores",
            k,
            &after_armed(&rt, rt.alloc(), *at),
            due,
        );
    }
}

/// Has block 5 cached.
#[tactic(auto, using(crate::proofs::WalkNames::walk_place, crate::proofs::WalkNames::can_touch, crate::proofs::WalkNames::walks_touched))]
fn fetch<V: Volume>(v: &mut V) -> Result<u64, VolFail>
    requires sound { V.sound v.old }
    requires walks { Walks (V.seen v.old) }
    requires idle { (V.kept v.old).updating ≡ false }
    ensures sound { V.sound v.new }
    ensures walks { Walks (V.seen v.new) }
    ensures idle { (V.kept v.new).updating ≡ false }
{
    v.word(Block(5), None, 0)
}

/// Stores the first words of block 5, in one run.
#[tactic(auto, using(crate::proofs::WalkNames::walk_span, crate::proofs::WalkNames::can_touch))]
fn store_front<V: Volume>(v: &mut V, words: &[u64]) -> Result<(), RunFail>
    requires sound { V.sound v.old }
    requires walks { Walks (V.seen v.old) }
    requires idle { (V.kept v.old).updating ≡ false }
    requires few { length words.now ≤ 512 }
    ensures sound { V.sound v.new }
{
    v.store_run(Block(5), None, 0, words)
}

/// Has block 5 cached, and stores its first words in one run, while a wild store of 9 to a place is armed to fall after three
/// steps.
pub(crate) fn run_armed<M: Machine>(
    v: &mut PageCache<M>,
    at: WordAt,
    words: &[u64],
) -> Result<(), RunFail>
    requires sound { ⟦<PageCache<M> as Blocks>⟧.sound v.old }
    requires walks { Walks (⟦<PageCache<M> as Blocks>⟧.seen v.old) }
    requires idle { (⟦<PageCache<M> as Volume>⟧.kept v.old).updating ≡ false }
    requires place { at.0 < 26112 }
    requires few { length words.now ≤ 512 }
    ensures sound { ⟦<PageCache<M> as Blocks>⟧.sound v.new }
{
    let _first = fetch(v);
    arm(v, 3, at);
    store_front(v, words)
}

/// How a run of stores to block 5 ends, and the word at the place of a wild store of 9 that is armed to fall after three
/// steps.
type Run = (Result<u64, RunFail>, u64);

/// Stores these words on a fresh cache. The block is cached and its page clean: so the page's mark is the first step,
/// and each word is one more.
fn after_three(rt: &impl Abort, alloc: Global, at: WordAt, words: &'static [u64]) -> Run {
    let left = used(rt, alloc, Mishap::Nothing, Job::RunArmed(words), at);
    let (end, _, _) = left.came;
    (end, left.word)
}

/// Where the armed store falls, the words that are stored, how that ends, and the word at the place.
static RUNS: [(WordAt, &[u64], Run); 4] = [
    (IN_SCRATCH, &[7, 7], (Ok(0), 0)),
    (IN_SCRATCH, &[7, 7, 7], (Ok(0), 9)),
    (IN_FRAME, &[7, 7], (Ok(0), 0)),
    (IN_FRAME, &[7, 7, 7], (Err(RunFail::Stopped), 0)),
];

#[test]
fn an_armed_store_falls_after_its_steps_and_not_before(rt: HostRuntime) {
    for (k, (at, words, due)) in RUNS.iter().enumerate() {
        same(
            &rt,
            "steps before",
            k,
            &after_three(&rt, rt.alloc(), *at, words),
            due,
        );
    }
}
