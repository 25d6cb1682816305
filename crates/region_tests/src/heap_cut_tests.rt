//! Stops and faults at each call of a block that is taken or given back, and what the heap map holds after them.

ghost use Rattle.rio_model.specs.Undo.{IsRegion};
ghost use Rattle.test_objects.specs.FaultyRegions.{FaultyReady, faulty_content};
ghost use Rattle.region_tests.specs.TestRegions.{IsHeap};

use crate::heap_calls::Call::{Commit, Give, Take};
use crate::heap_calls::Said::{Done, Given, Taken};
use crate::heap_calls::fresh_heap;
use crate::heap_rows::{At, Row, make_all, same};
use recov_alloc::HeapFail;
use rio_base::{RegionWords, VolFail};
use std::alloc::{AllocError, Global};
use std::process::Abort;
use std::test::Fail;
use test_objects::FaultyRegion;
use undo_list::{drop_all, rewind, word_at};

/// The map of two data pages: the used units of the first page, its starts, and the same of the second.
type Map = (u64, u64, u64, u64);

/// No block.
const NONE: Map = (0, 0, 0, 0);

/// A block of units 0 to 9 alone.
const ONE: Map = (0x3ff, 1, 0, 0);

/// And another of units 10 to 79.
const TWO: Map = (u64::MAX, 0x401, 0xffff, 0);

/// How a call is cut short.
#[derive(Clone, Copy)]
enum Cut {
    Stop,
    Fault,
}

/// What is made of the records once a call was cut.
#[derive(Clone, Copy)]
enum Settle {
    PutBack,
    Keep,
}

/// Calls that are cut at each of their calls on the region's words in turn, on a fresh region of one undo page and two data
/// pages for each. The region is started again, and its records are settled.
struct Sweep {
    name: &'static str,
    /// What is made before, and the map that it leaves.
    first: &'static [Row],
    before: Map,
    calls: &'static [Row],
    /// What else the map may be where the calls were cut: the words of a page are stored one after the other, and at last
    /// the starts of the second page, as they are.
    between: &'static [Map],
    /// The map behind the calls.
    behind: Map,
    /// How many calls on the words they make, at least and at most.
    least: u64,
    most: u64,
}

static SWEEPS: [Sweep; 4] = [
    Sweep {
        name: "taking",
        first: &[(Take(10), Taken(0)), (Commit, Done)],
        before: ONE,
        calls: &[(Take(70), Taken(10))],
        between: &[(u64::MAX, 1, 0, 0), (u64::MAX, 0x401, 0, 0)],
        behind: TWO,
        least: 20,
        most: 198,
    },
    Sweep {
        name: "giving",
        first: &[
            (Take(10), Taken(0)),
            (Commit, Done),
            (Take(70), Taken(10)),
            (Commit, Done),
        ],
        before: TWO,
        calls: &[(Give(10), Given)],
        between: &[(0x3ff, 0x401, 0xffff, 0), (0x3ff, 1, 0xffff, 0)],
        behind: ONE,
        least: 20,
        most: 198,
    },
    Sweep {
        name: "taking and giving",
        first: &[],
        before: NONE,
        calls: &[(Take(70), Taken(0)), (Give(0), Given)],
        between: &[
            (u64::MAX, 0, 0, 0),
            (u64::MAX, 1, 0, 0),
            (u64::MAX, 1, 0x3f, 0),
            (0, 1, 0x3f, 0),
            (0, 0, 0x3f, 0),
        ],
        behind: NONE,
        least: 50,
        most: 300,
    },
    Sweep {
        name: "taking and giving in one page",
        first: &[],
        before: NONE,
        calls: &[(Take(10), Taken(0)), (Give(0), Given)],
        between: &[(0x3ff, 0, 0, 0), (0x3ff, 1, 0, 0), (0, 1, 0, 0)],
        behind: NONE,
        least: 30,
        most: 100,
    },
];

/// The `n`th call from now fails or stops.
#[tactic(auto, using(crate::proofs::TestHeaps::counted))]
fn cut_at(r: &mut FaultyRegion, n: u64, cut: Cut) -> Result<(), AllocError>
    requires ready { FaultyReady r.old }
    requires heap { IsHeap r.old.count (faulty_content r.old) }
    ensures ready { FaultyReady r.new }
    ensures heap { IsHeap r.new.count (faulty_content r.new) }
{
    match cut {
        Cut::Fault => return r.fail_call(n),
        Cut::Stop => r.stop_after(n),
    }
    Ok(())
}

/// Makes calls of which the `at.cut`th call on the words is cut, and starts the region again. Answers how they were cut, or
/// that they were done before.
fn make_cut(
    rt: &impl Abort,
    at: At,
    alloc: Global,
    r: &mut FaultyRegion,
    calls: &[Row],
    cut: Cut,
) -> Result<Option<HeapFail>, AllocError>
    requires ready { FaultyReady r.old }
    requires heap { IsHeap r.old.count (faulty_content r.old) }
    ensures ready { FaultyReady r.new }
    ensures region { IsRegion r.new.count (faulty_content r.new) }
{
    cut_at(r, at.cut, cut)?;
    let ended = make_all(rt, at, alloc, r, calls);
    r.start_again();
    Ok(ended.err())
}

/// The map, once all records are put back or dropped.
fn settled<R: RegionWords>(r: &mut R, settle: Settle) -> Result<Map, VolFail>
    requires ready { R.ready r.old }
    requires region { IsRegion (R.count r.old) (R.words r.old) }
{
    match settle {
        Settle::PutBack => rewind(r)?,
        Settle::Keep => drop_all(r)?,
    }
    map_words(r)
}

fn map_words<R: RegionWords>(r: &mut R) -> Result<Map, VolFail>
    requires ready { R.ready r.old }
    requires region { IsRegion (R.count r.old) (R.words r.old) }
{
    let first = word_at(r, 0)?;
    let second = word_at(r, 1)?;
    let third = word_at(r, 2)?;
    let fourth = word_at(r, 3)?;
    Ok((first, second, third, fourth))
}

/// Whether a map may stand once calls were cut and settled, or were done before.
fn is_due(sweep: &Sweep, map: Map, done: bool, settle: Settle) -> bool {
    match settle {
        Settle::PutBack => map == sweep.before,
        Settle::Keep if done => map == sweep.behind,
        Settle::Keep => {
            map == sweep.before || map == sweep.behind || sweep.between.contains(&map)
        }
    }
}

/// Cuts the calls at their `at.cut`th call on the words, and looks at the map. Answers whether they were done before.
fn look_after(
    rt: &impl Abort,
    at: At,
    alloc: Global,
    sweep: &Sweep,
    cut: Cut,
    settle: Settle,
) -> Result<bool, Fail> {
    let mut r = fresh_heap(alloc, 1, 2)?;
    make_all(rt, At { cut: 0, ..at }, alloc, &mut r, sweep.first)?;
    let ended = make_cut(rt, at, alloc, &mut r, sweep.calls, cut)?;
    let map = settled(&mut r, settle)?;
    let done = ended.is_none();
    let due = match cut {
        Cut::Stop => HeapFail::Stopped,
        Cut::Fault => HeapFail::Fault,
    };
    let came = (ended.unwrap_or(due), map, is_due(sweep, map, done, settle));
    same(rt, at, &came, &(due, map, true));
    Ok(done)
}

/// The calls are cut at each of their calls on the words, until all are done.
fn cut_each(
    rt: &impl Abort,
    alloc: Global,
    sweep: &Sweep,
    cut: Cut,
    settle: Settle,
) -> Result<(), Fail> {
    let row = match settle {
        Settle::PutBack => 0,
        Settle::Keep => 1,
    };
    for n in 1..300 {
        let at = At {
            name: sweep.name,
            cut: n,
            row,
        };
        if look_after(rt, at, alloc, sweep, cut, settle)? {
            let made = n - 1;
            same(rt, at, &(sweep.least <= made && made <= sweep.most), &true);
            return Ok(());
        }
    }
    Err("never done")?
}

#[test]
fn every_cut_is_put_back_or_kept(rt: HostRuntime) -> Result<(), Fail> {
    for sweep in SWEEPS.iter() {
        cut_each(&rt, rt.alloc(), sweep, Cut::Stop, Settle::PutBack)?;
        cut_each(&rt, rt.alloc(), sweep, Cut::Stop, Settle::Keep)?;
        cut_each(&rt, rt.alloc(), sweep, Cut::Fault, Settle::PutBack)?;
        cut_each(&rt, rt.alloc(), sweep, Cut::Fault, Settle::Keep)?;
    }
    Ok(())
}
