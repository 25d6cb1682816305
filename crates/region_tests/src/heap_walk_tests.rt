//! Drawn calls on a heap, beside a plain heap.

ghost use Rattle.std.specs.Prelude.{◌<◌, ◌≤◌, OnOk};
ghost use Rattle.region_tests.specs.TestRegions.{IsHeap};

use crate::heap_calls::{Call, Said, fresh_heap, make};
use crate::heap_rows::{At, same};
use crate::plain_heap::{PlainHeap, next_block};
use recov_alloc::{HeapFail, blocks};
use rio_base::RegionWords;
use std::alloc::{AllocError, Global};
use std::process;
use std::test::Fail;

/// Numbers by a linear congruential generator: for the same seed the same.
#[derive(Drop)]
struct Draws {
    state: u64,
}

impl Draws {
    /// A number below `n`.
    fn below(&mut self, n: u32) -> u32
        requires { 0 < n }
        ensures { result < n }
    {
        self.state = self
            .state
            .wrapping_mul(6_364_136_223_846_793_005)
            .wrapping_add(1_442_695_040_888_963_407);
        let high = (self.state >> 32) as u32; // the low bits of such a generator have short periods
        high % n
    }

    /// The units of a block: mostly few, now and then more than a page or than all.
    fn units(&mut self) -> u32
        ensures { 1 ≤ result }
    {
        let most = match self.below(16) {
            0 => 400,
            1 => 150,
            2..=6 => 64,
            _ => 9,
        };
        1 + self.below(most)
    }

    /// Where a block is given back: mostly at the start of one.
    fn unit(&mut self, plain: &PlainHeap) -> u32 {
        let unit = self.below(340);
        if self.below(8) == 0 {
            return unit;
        }
        next_block(plain, unit)
    }
}

/// A drawn call.
fn drawn(plain: &PlainHeap, draws: &mut Draws) -> Call {
    if draws.below(2) == 0 {
        return Call::Take(draws.units());
    }
    Call::Give(draws.unit(plain))
}

/// Both heaps have the same blocks.
fn look_at_blocks<R: RegionWords>(
    rt: &impl process::Abort,
    at: At,
    alloc: Global,
    r: &mut R,
    plain: &PlainHeap,
) -> Result<(), Fail>
    requires ready { R.ready r.old }
    requires heap { IsHeap (R.count r.old) (R.words r.old) }
    ensures ready { R.ready r.new }
    ensures heap { OnOk result (IsHeap (R.count r.new) (R.words r.new)) }
{
    let due = plain.blocks(alloc)?;
    let came = blocks(alloc, r)?;
    same(rt, at, &came.as_slice(), &due.as_slice());
    Ok(())
}

/// A drawn call, after which full undo pages are settled and the blocks looked at. Both heaps answer the same.
fn turn<R: RegionWords>(
    rt: &impl process::Abort,
    at: At,
    alloc: Global,
    r: &mut R,
    plain: &mut PlainHeap,
    draws: &mut Draws,
) -> Result<(), Fail>
    requires ready { R.ready r.old }
    requires heap { IsHeap (R.count r.old) (R.words r.old) }
    ensures ready { R.ready r.new }
    ensures heap { OnOk result (IsHeap (R.count r.new) (R.words r.new)) }
{
    let call = drawn(plain, draws);
    let due = plain.answer(call);
    same(rt, at, &make(alloc, r, call)?, &due);
    if due != Said::UndoFull {
        return Ok(());
    }
    let settled = if draws.below(2) == 0 {
        Call::Abort
    } else {
        Call::Commit
    };
    let due = plain.answer(settled);
    same(rt, at, &make(alloc, r, settled)?, &due);
    look_at_blocks(rt, at, alloc, r, plain)
}

/// So many turns.
fn walk<R: RegionWords>(
    rt: &impl process::Abort,
    alloc: Global,
    r: &mut R,
    turns: usize,
) -> Result<(), Fail>
    requires ready { R.ready r.old }
    requires heap { IsHeap (R.count r.old) (R.words r.old) }
{
    let mut plain = PlainHeap::new();
    let mut draws = Draws { state: 1996 };
    let name = "drawn calls";
    for row in 0..turns {
        let at = At { name, cut: 0, row };
        turn(rt, at, alloc, r, &mut plain, &mut draws)?;
    }
    let at = At {
        name,
        cut: 0,
        row: turns,
    };
    look_at_blocks(rt, at, alloc, r, &plain)
}

#[test]
fn drawn_calls_answer_as_a_plain_heap(rt: HostRuntime) -> Result<(), Fail> {
    let mut r = fresh_heap(rt.alloc(), 1, 5)?;
    walk(&rt, rt.alloc(), &mut r, 4000)
}
