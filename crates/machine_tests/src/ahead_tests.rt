//! A test of pages that are written before they leave a cache: one sync serves many of them.

ghost use Rattle.std.specs.Prelude.{◌≡◌, ◌<◌, false};
ghost use Rattle.machine_tests.specs.Walks.{Walks};

use crate::jobs::{Job, used};
use crate::machines::Mishap;
use crate::same::same;
use page_cache::PageCache;
use rio_base::{BLOCK_WORDS, Block, Blocks, Machine, RunFail, VolFail, Volume, WordAt};
use std::alloc::Global;
use std::process::Abort;

/// Stores 7 as the first word of a block of metadata.
#[tactic(auto, using(crate::proofs::WalkNames::walk_place, crate::proofs::WalkNames::can_touch, crate::proofs::WalkNames::walks_put))]
fn store_first<V: Volume>(v: &mut V, b: u32) -> Result<(), VolFail>
    requires sound { V.sound v.old }
    requires walks { Walks (V.seen v.old) }
    requires idle { (V.kept v.old).updating ≡ false }
    requires block { b < 40 }
    ensures idle { (V.kept v.new).updating ≡ false }
    ensures walks { Walks (V.seen v.new) }
    ensures sound { V.sound v.new }
{
    v.store(Block(b), None, 0, 7)
}

/// Writes a page ahead.
#[tactic(auto, using(crate::proofs::WalkNames::walks_dropped))]
fn write_ahead<M: Machine>(v: &mut PageCache<M>) -> Result<(), VolFail>
    requires sound { ⟦<PageCache<M> as Blocks>⟧.sound v.old }
    requires walks { Walks (⟦<PageCache<M> as Blocks>⟧.seen v.old) }
    requires idle { (⟦<PageCache<M> as Volume>⟧.kept v.old).updating ≡ false }
    ensures idle { (⟦<PageCache<M> as Volume>⟧.kept v.new).updating ≡ false }
    ensures walks { Walks (⟦<PageCache<M> as Blocks>⟧.seen v.new) }
    ensures sound { ⟦<PageCache<M> as Blocks>⟧.sound v.new }
{
    v.write_ahead()?;
    Ok(())
}

/// Stores into a block, after a page was written ahead, if one is to be.
fn turn<M: Machine>(v: &mut PageCache<M>, b: u32, ahead: bool) -> Result<(), VolFail>
    requires sound { ⟦<PageCache<M> as Blocks>⟧.sound v.old }
    requires walks { Walks (⟦<PageCache<M> as Blocks>⟧.seen v.old) }
    requires idle { (⟦<PageCache<M> as Volume>⟧.kept v.old).updating ≡ false }
    requires block { b < 40 }
    ensures idle { (⟦<PageCache<M> as Volume>⟧.kept v.new).updating ≡ false }
    ensures walks { Walks (⟦<PageCache<M> as Blocks>⟧.seen v.new) }
    ensures sound { ⟦<PageCache<M> as Blocks>⟧.sound v.new }
{
    if !ahead {
        return store_first(v, b);
    }
    write_ahead(v)?;
    store_first(v, b)
}

/// Stores into the blocks 0 to 39 in turn, 128 times in all: a cache of 32 frames never has the next one.
pub(crate) fn go_round<M: Machine>(v: &mut PageCache<M>, ahead: bool) -> Result<(), VolFail>
    requires sound { ⟦<PageCache<M> as Blocks>⟧.sound v.old }
    requires walks { Walks (⟦<PageCache<M> as Blocks>⟧.seen v.old) }
    requires idle { (⟦<PageCache<M> as Volume>⟧.kept v.old).updating ≡ false }
    ensures sound { ⟦<PageCache<M> as Blocks>⟧.sound v.new }
{
    for k in 0..128u32 {
        turn(v, k % 40, ahead)?;
    }
    Ok(())
}

/// How many of the first 40 blocks have 7 as their first word.
pub(crate) fn sevens(words: &[u64]) -> u32 {
    let mut count = 0u32;
    for b in 0..40usize {
        if words.get(BLOCK_WORDS * b) == Some(&7) {
            count = count.saturating_add(1);
        }
    }
    count
}

/// What came of it: how it ended, how many blocks were written, and how many of the 40 blocks stand as stored, after a crash
/// that lost each pending block.
type Came = (Result<u64, RunFail>, u64, u32);

/// Goes round on a cache of 32 frames: what came of it, and how many steps were no write of a block.
fn came_of(rt: &impl Abort, alloc: Global, ahead: bool) -> (Came, u64) {
    let left = used(rt, alloc, Mishap::Nothing, Job::GoRound(ahead), WordAt(0));
    let (end, _, _) = left.came;
    (
        (end, left.writes, left.sevens),
        left.steps.saturating_sub(left.writes),
    )
}

/// Both make the same stores. Of 96 pages that leave, each has a sync of its own, or 7 syncs serve them all: that of the
/// first page, those 2, 4, 8 and 16 pages later, as each round writes one more ahead, and then one for 32 pages.
#[test]
fn one_sync_serves_many_pages_that_leave(rt: HostRuntime) {
    let (alone, alone_steps) = came_of(&rt, rt.alloc(), false);
    let (ahead, ahead_steps) = came_of(&rt, rt.alloc(), true);
    let saved = alone_steps.saturating_sub(ahead_steps);
    let due = ((Ok(0), 96, 40), (Ok(0), 127, 40), 96 - 7);
    same(
        &rt,
        "written, and syncs less",
        0,
        &(alone, ahead, saved),
        &due,
    );
}
