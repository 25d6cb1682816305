//! Tests of the page cache by short rows of calls: which block leaves the cache, and what stands of an update that is
//! stopped.

ghost use Rattle.std.specs.Prelude.{◌≡◌, ◌+◌, ◌<◌, ◌≤◌, true, false, OnOk};
ghost use Rattle.machine_tests.specs.Walks.{Walks};

use crate::jobs::{Job, used};
use crate::machines::Mishap;
use crate::same::same;
use rio_base::{Block, Blocks, RunFail, VolFail, Volume, WordAt};
use std::alloc::Global;
use std::process::Abort;

/// Reads the first word of a block of metadata.
#[tactic(auto, using(crate::proofs::WalkNames::walk_place, crate::proofs::WalkNames::can_touch, crate::proofs::WalkNames::walks_touched))]
pub(crate) fn read_first<V: Volume>(v: &mut V, b: u32) -> Result<u64, VolFail>
    requires sound { V.sound v.old }
    requires walks { Walks (V.seen v.old) }
    requires block { b < 40 }
    ensures walks { Walks (V.seen v.new) }
    ensures sound { V.sound v.new }
{
    v.word(Block(b), None, 0)
}

/// Reads the blocks 0 to 31, block 0 again, and block 32.
fn read_row<V: Volume>(v: &mut V) -> Result<(), VolFail>
    requires sound { V.sound v.old }
    requires walks { Walks (V.seen v.old) }
    ensures walks { Walks (V.seen v.new) }
    ensures sound { V.sound v.new }
{
    for b in 0..32 {
        read_first(v, b)?;
    }
    read_first(v, 0)?;
    read_first(v, 32)?;
    Ok(())
}

/// Whether a block's page is in memory.
#[tactic(auto, using(crate::proofs::WalkNames::walk_place))]
fn is_lent<V: Volume>(v: &V, b: u32) -> bool
    requires sound { V.sound v.now }
    requires walks { Walks (V.seen v.now) }
    requires block { b < 64 }
{
    v.page(Block(b)).is_some()
}

/// How the row ends, and whether the blocks 0, 1, 2 and 32 are then in memory.
pub(crate) fn lent_after<V: Volume>(v: &mut V) -> (Result<(), VolFail>, [bool; 4])
    requires sound { V.sound v.old }
    requires walks { Walks (V.seen v.old) }
    ensures sound { V.sound v.new }
{
    let end = read_row(v);
    let lent = [is_lent(v, 0), is_lent(v, 1), is_lent(v, 2), is_lent(v, 32)];
    (end, lent)
}

#[test]
fn the_block_used_longest_ago_leaves(rt: HostRuntime) {
    let left = used(&rt, rt.alloc(), Mishap::Nothing, Job::ReadRow, WordAt(0));
    let due = (Ok(0), None, [true, false, true, true]);
    same(&rt, "what is in memory", 0, &left.came, &due);
}

/// Touches a block of metadata in the open update, and makes its first word 7.
#[tactic(auto, using(crate::proofs::WalkNames::can_touch, crate::proofs::WalkNames::walk_place, crate::proofs::WalkNames::walks_touched, crate::proofs::WalkNames::walks_dropped))]
fn set_first<V: Volume>(v: &mut V, b: Block) -> Result<(), VolFail>
    requires sound { V.sound v.old }
    requires walks { Walks (V.seen v.old) }
    requires block { b.0 < 40 }
    requires in_update { (V.kept v.old).updating ≡ true }
    requires room { (V.kept v.old).touches < 16 }
    ensures in_update { OnOk result ((V.kept v.new).updating ≡ true) }
    ensures touches { OnOk result ((V.kept v.new).touches ≤ (V.kept v.old).touches + 1) }
    ensures walks { Walks (V.seen v.new) }
    ensures sound { V.sound v.new }
{
    v.touch(b)?;
    v.edit(b, 0, 7)?;
    Ok(())
}

/// Makes the first words of the blocks 5 and 6 the word 7, by one update.
#[tactic(auto, using(crate::proofs::WalkNames::walks_dropped))]
pub(crate) fn update_two<V: Volume>(v: &mut V) -> Result<(), VolFail>
    requires sound { V.sound v.old }
    requires walks { Walks (V.seen v.old) }
    requires idle { (V.kept v.old).updating ≡ false }
    ensures sound { V.sound v.new }
{
    v.begin()?;
    set_first(v, Block(5))?;
    set_first(v, Block(6))?;
    v.commit()?;
    Ok(())
}

/// How an update ended, how many steps it made, and the first words of the two blocks that stand then.
type Updated = (Result<u64, RunFail>, u64, [u64; 2]);

/// Makes the update on a fresh cache of 32 frames, which this befalls.
fn updated(rt: &impl Abort, alloc: Global, mishap: Mishap) -> Updated {
    let left = used(rt, alloc, mishap, Job::Update, WordAt(0));
    let (end, _, _) = left.came;
    let [five, six] = left.firsts;
    (end, left.steps, [five, six])
}

/// Stops the update after each number of steps: both words stand as before, or both as it makes them.
fn check_stops(rt: &impl Abort, alloc: Global, all: u64) {
    for steps in 0..all {
        let (end, _, words) = updated(rt, alloc, Mishap::Stop(steps));
        let [first, _] = words;
        let v = if first == 7 { 7 } else { 0 };
        same(
            rt,
            "steps",
            steps as usize,
            &(end, words),
            &(Err(RunFail::Stopped), [v, v]),
        );
    }
}

#[test]
fn an_update_over_a_cache_stands_whole(rt: HostRuntime) {
    let (_, all, _) = updated(&rt, rt.alloc(), Mishap::Nothing);
    check_stops(&rt, rt.alloc(), all);
    let came = updated(&rt, rt.alloc(), Mishap::Stop(all));
    same(&rt, "all steps", 0, &came, &(Ok(0), all, [7, 7]));
}
