//! Stops and faults at each call below a transaction.

ghost use Rattle.std.specs.Prelude.{◌≡◌};
ghost use Rattle.rio_model.specs.Undo.{IsRegion};
ghost use Rattle.test_objects.specs.FaultyRegions.{FaultyReady, faulty_content};
ghost use Rattle.region_tests.specs.TestRegions.{Sound};

use crate::region_calls::Call::{Abort, Alloc, Begin, Commit, Free, Get, Put, Range};
use crate::region_calls::Said::{Bytes, Done, Failed, Number};
use crate::region_calls::fresh;
use crate::region_rows::{At, Left, Row, make_all, make_rows, recover_all, same};
use std::alloc::{AllocError, Global};
use std::process;
use std::test::Fail;
use test_objects::FaultyRegion;
use vista_region::OpenTable;
use vista_region::TxnFail::{Doomed, NoTransaction};

/// A transaction that changes two words and blocks.
const CHANGES: &[Row] = &[
    (Range(8, 16), Done),
    (Put(8, 21), Number(8)),
    (Alloc(3), Number(0)),
    (Alloc(62), Number(192)),
    (Free(0), Done),
    (Put(16, 22), Number(8)),
];

/// A transaction that changes two words and blocks, from its begin on.
const CHANGED: &[Row] = &[
    (Begin, Done),
    (Range(8, 16), Done),
    (Put(8, 21), Number(8)),
    (Alloc(3), Number(0)),
    (Alloc(62), Number(192)),
    (Free(0), Done),
    (Put(16, 22), Number(8)),
];

/// Calls that are stopped at each of their calls on the region's words in turn. The region is started again and recovered.
struct Stops {
    name: &'static str,
    /// What is made before.
    first: &'static [Row],
    calls: &'static [Row],
    /// What must be left where they were stopped, and where all were done before.
    after: &'static [Left],
    whole: &'static [Left],
    /// How many calls on the words they make, at least and at most.
    least: u64,
    most: u64,
}

static STOPS: [Stops; 2] = [
    Stops {
        name: "every stop of changes leaves the words of before",
        first: &[(Begin, Done)],
        calls: CHANGES,
        after: UNCHANGED,
        whole: UNCHANGED,
        least: 80,
        most: 300,
    },
    Stops {
        name: "a commit is whole or absent",
        first: CHANGED,
        calls: &[(Commit, Done)],
        after: &[Left(Some(true), 8, 0), Left(Some(false), 16, 0)],
        whole: &[Left(Some(false), 8, 21), Left(Some(false), 16, 22)],
        least: 1,
        most: 1,
    },
];

/// The words of before the changes.
const UNCHANGED: &[Left] = &[Left(None, 8, 0), Left(Some(false), 16, 0)];

/// Calls that fail at each of their calls on the region's words in turn.
struct Faults {
    name: &'static str,
    /// What is made before.
    first: &'static [Row],
    calls: &'static [Row],
    /// For each of the calls, what comes after it where it failed.
    after: &'static [&'static [Row]],
    /// How many calls on the words they make, at least and at most.
    least: u64,
    most: u64,
}

static FAULTS: [Faults; 3] = [
    Faults {
        name: "every fault of changes can be put back",
        first: &[(Begin, Done)],
        calls: CHANGES,
        after: &[OPEN, OPEN, DOOMED, DOOMED, DOOMED, OPEN],
        least: 80,
        most: 300,
    },
    Faults {
        name: "every fault of an abort is made good",
        first: CHANGED,
        calls: &[(Abort, Done)],
        after: &[&[
            (Commit, Failed(Doomed)),
            (Alloc(1), Failed(Doomed)),
            (Abort, Done),
            (Abort, Failed(NoTransaction)),
            (Get(8, 8), Bytes(8, 0)),
            (Get(16, 8), Bytes(8, 0)),
        ]],
        least: 20,
        most: 98,
    },
    Faults {
        name: "a fault of a commit leaves the transaction open",
        first: CHANGED,
        calls: &[(Commit, Done)],
        after: &[&[
            (Put(8, 23), Number(8)),
            (Commit, Done),
            (Get(8, 8), Bytes(8, 23)),
            (Get(16, 8), Bytes(8, 22)),
        ]],
        least: 1,
        most: 1,
    },
];

/// After a range or a put that failed the transaction goes on.
const OPEN: &[Row] = &[
    (Get(0, 8), Bytes(8, 0)),
    (Range(0, 0), Done),
    (Abort, Done),
    (Get(8, 8), Bytes(8, 0)),
    (Get(16, 8), Bytes(8, 0)),
];

/// After a failed call on a block it may only be aborted.
const DOOMED: &[Row] = &[
    (Get(0, 8), Failed(Doomed)),
    (Range(0, 0), Failed(Doomed)),
    (Abort, Done),
    (Get(8, 8), Bytes(8, 0)),
    (Get(16, 8), Bytes(8, 0)),
];

/// Lets the `n`th call from now stop the region.
#[tactic(auto, using(crate::proofs::TestTables::told_sound))]
fn stop_after(_table: &OpenTable, r: &mut FaultyRegion, n: u64)
    requires ready { FaultyReady r.old }
    requires sound { Sound _table.now 7 r.old.count (faulty_content r.old) }
    ensures ready { FaultyReady r.new }
    ensures sound { Sound _table.now 7 r.new.count (faulty_content r.new) }
{
    r.stop_after(n);
}

/// Lets the `n`th call from now fail.
#[tactic(auto, using(crate::proofs::TestTables::told_sound))]
fn fail_call(_table: &OpenTable, r: &mut FaultyRegion, n: u64) -> Result<(), AllocError>
    requires ready { FaultyReady r.old }
    requires sound { Sound _table.now 7 r.old.count (faulty_content r.old) }
    ensures ready { FaultyReady r.new }
    ensures sound { Sound _table.now 7 r.new.count (faulty_content r.new) }
{
    r.fail_call(n)
}

/// Makes calls, of which the `at.cut`th call on the words stops, and starts the region again. Answers whether all were done
/// before.
fn make_stopped(
    rt: &impl process::Abort,
    at: At,
    alloc: Global,
    table: &mut OpenTable,
    r: &mut FaultyRegion,
    calls: &[Row],
) -> bool
    requires ready { FaultyReady r.old }
    requires sound { Sound table.old 7 r.old.count (faulty_content r.old) }
    ensures ready { FaultyReady r.new }
    ensures region { IsRegion r.new.count (faulty_content r.new) }
{
    stop_after(table, r, at.cut);
    let done = make_all(rt, at, alloc, table, r, calls).is_ok();
    r.start_again();
    done
}

/// The `at.cut`th call on the words stops, and the region is recovered. Answers whether all calls were done before.
fn stop_on(
    rt: &impl process::Abort,
    at: At,
    alloc: Global,
    table: &mut OpenTable,
    r: &mut FaultyRegion,
    stops: &Stops,
) -> Result<bool, Fail>
    requires ready { FaultyReady r.old }
    requires sound { Sound table.old 7 r.old.count (faulty_content r.old) }
{
    make_all(rt, at, alloc, table, r, stops.first)?;
    let done = make_stopped(rt, at, alloc, table, r, stops.calls);
    let left = if done { stops.whole } else { stops.after };
    recover_all(rt, at, alloc, r, left)?;
    Ok(done)
}

/// The `at.cut`th call on the words of a fresh region stops, and the region is recovered. Answers whether all calls were done before.
fn stop_at(rt: &impl process::Abort, at: At, alloc: Global, stops: &Stops) -> Result<bool, Fail> {
    let mut table = OpenTable::new(alloc)?;
    let mut r = fresh(alloc, &table, 1, 2)?;
    stop_on(rt, at, alloc, &mut table, &mut r, stops)
}

/// The calls made so many calls on the words as they must: one less than the one at which they were to be cut.
fn count(rt: &impl process::Abort, at: At, least: u64, most: u64) {
    same(
        rt,
        at,
        &(least < at.cut && at.cut <= most.saturating_add(1)),
        &true,
    );
}

/// The calls are stopped at each of their calls on the words, until all are done.
fn stop_each(rt: &impl process::Abort, alloc: Global, stops: &Stops) -> Result<(), Fail> {
    let name = stops.name;
    for cut in 1..300 {
        let at = At { name, cut, row: 0 };
        if stop_at(rt, at, alloc, stops)? {
            count(rt, at, stops.least, stops.most);
            return Ok(());
        }
    }
    Err("never done")?
}

#[test]
fn every_stop_leaves_what_its_rows_say(rt: HostRuntime) -> Result<(), Fail> {
    for stops in STOPS.iter() {
        stop_each(&rt, rt.alloc(), stops)?;
    }
    Ok(())
}

/// The `at.cut`th call on the words fails. Answers whether none failed.
fn fail_on(
    rt: &impl process::Abort,
    at: At,
    alloc: Global,
    table: &mut OpenTable,
    r: &mut FaultyRegion,
    faults: &Faults,
) -> Result<bool, Fail>
    requires ready { FaultyReady r.old }
    requires sound { Sound table.old 7 r.old.count (faulty_content r.old) }
{
    make_all(rt, at, alloc, table, r, faults.first)?;
    fail_call(table, r, at.cut)?;
    let Some(row) = make_rows(rt, at, alloc, table, r, faults.calls)? else {
        return Ok(true);
    };
    let Some(after) = faults.after.get(row) else {
        return Err("no row says what comes after the fault")?;
    };
    make_all(rt, at, alloc, table, r, after)?;
    Ok(false)
}

/// The `at.cut`th call on the words of a fresh region fails. Answers whether none failed.
fn fail_at(rt: &impl process::Abort, at: At, alloc: Global, faults: &Faults) -> Result<bool, Fail> {
    let mut table = OpenTable::new(alloc)?;
    let mut r = fresh(alloc, &table, 1, 2)?;
    fail_on(rt, at, alloc, &mut table, &mut r, faults)
}

/// The calls fail at each of their calls on the words, until none does.
fn fail_each(rt: &impl process::Abort, alloc: Global, faults: &Faults) -> Result<(), Fail> {
    let name = faults.name;
    for cut in 1..300 {
        let at = At { name, cut, row: 0 };
        if fail_at(rt, at, alloc, faults)? {
            count(rt, at, faults.least, faults.most);
            return Ok(());
        }
    }
    Err("never done")?
}

#[test]
fn every_fault_leaves_what_its_rows_say(rt: HostRuntime) -> Result<(), Fail> {
    for faults in FAULTS.iter() {
        fail_each(&rt, rt.alloc(), faults)?;
    }
    Ok(())
}
