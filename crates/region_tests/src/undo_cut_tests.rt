//! Stops and faults at each call below a call on an undo list, and what holds after them.

ghost use Rattle.rio_model.specs.Undo.{IsRegion};
ghost use Rattle.test_objects.specs.FaultyRegions.{FaultyReady, faulty_content};

use crate::undo_calls::Call::{Change, DropAll, Rewind, Room, Save, Word};
use crate::undo_calls::Said::{Done, Number};
use crate::undo_calls::{Call, DATA, Said, make};
use crate::undo_rows::{At, Row, make_all, same};
use std::alloc::{AllocError, Global};
use std::process::Abort;
use std::test::Fail;
use test_objects::FaultyRegion;

/// How a call is cut short.
#[derive(Clone, Copy)]
enum Cut {
    Stop,
    Fault,
}

/// A call that is cut at each of its calls on the region's words in turn, on a fresh region of one undo page and one data
/// page for each.
struct Sweep {
    table: &'static str,
    /// What is made before.
    first: &'static [Row],
    call: Call,
    cut: Cut,
    /// How many times in a row it is cut, and the region started again, if it can be.
    tries: usize,
    /// What must hold where it was cut, and where it was done before.
    after: &'static [Row],
    whole: &'static [Row],
    /// It makes so many calls on the words at least.
    least: u64,
}

/// Two records that overlap, and other words under them.
const CHANGED: &[Row] = &[
    (Change(DATA + 70, 80, 7), Done),
    (Change(DATA + 70, 40, 8), Done),
];

static SWEEPS: [Sweep; 7] = [
    Sweep {
        table: "every stop of a range leaves the record or none",
        first: CHANGED,
        call: Save(DATA, 90),
        cut: Cut::Stop,
        tries: 1,
        after: &[
            (Room, Number(386)),
            (Rewind, Done),
            (Word(DATA + 70), Number(0)),
        ],
        whole: &[
            (Room, Number(293)),
            (Rewind, Done),
            (Word(DATA + 70), Number(0)),
        ],
        least: 180,
    },
    Sweep {
        table: "every stop of a range can be kept",
        first: CHANGED,
        call: Save(DATA, 90),
        cut: Cut::Stop,
        tries: 1,
        after: KEPT,
        whole: KEPT,
        least: 180,
    },
    Sweep {
        table: "every fault of a range leaves the records",
        first: CHANGED,
        call: Save(DATA, 90),
        cut: Cut::Fault,
        tries: 1,
        after: &[(Room, Number(386))],
        whole: &[],
        least: 180,
    },
    Sweep {
        table: "every stop of putting back is made good",
        first: CHANGED,
        call: Rewind,
        cut: Cut::Stop,
        tries: 3,
        after: PUT_BACK,
        whole: PUT_BACK,
        least: 240,
    },
    Sweep {
        table: "every fault of putting back is made good",
        first: CHANGED,
        call: Rewind,
        cut: Cut::Fault,
        tries: 1,
        after: PUT_BACK,
        whole: &[],
        least: 240,
    },
    Sweep {
        table: "a stop of a drop is whole or absent",
        first: CHANGED,
        call: DropAll,
        cut: Cut::Stop,
        tries: 1,
        after: &[
            (Room, Number(386)),
            (DropAll, Done),
            (Word(DATA + 70), Number(8)),
            (Room, Number(512)),
        ],
        whole: KEPT,
        least: 1,
    },
    Sweep {
        table: "a fault of a drop leaves the records",
        first: CHANGED,
        call: DropAll,
        cut: Cut::Fault,
        tries: 1,
        after: &[
            (Room, Number(386)),
            (Word(DATA + 70), Number(8)),
            (Rewind, Done),
            (Word(DATA + 70), Number(0)),
        ],
        whole: &[],
        least: 1,
    },
];

/// What holds once the words of before are put back.
const PUT_BACK: &[Row] = &[
    (Rewind, Done),
    (Word(DATA + 70), Number(0)),
    (Room, Number(512)),
];

/// What holds once the words are kept.
const KEPT: &[Row] = &[
    (DropAll, Done),
    (Room, Number(512)),
    (Word(DATA), Number(0)),
    (Word(DATA + 70), Number(8)),
];

/// Two records of few words that overlap. Putting them back is 17 calls.
static LITTLE: Sweep = Sweep {
    table: "every stop of putting few words back is made good",
    first: &[(Change(DATA, 2, 7), Done), (Change(DATA, 1, 8), Done)],
    call: Rewind,
    cut: Cut::Stop,
    tries: 3,
    after: LITTLE_BACK,
    whole: LITTLE_BACK,
    least: 17,
};

/// What holds once they are put back.
const LITTLE_BACK: &[Row] = &[(Rewind, Done), (Word(DATA), Number(0)), (Room, Number(512))];

/// Lets the `n`th call on the words fail or stop.
fn tell(r: &mut FaultyRegion, cut: Cut, n: u64) -> Result<(), AllocError>
    requires ready { FaultyReady r.old }
    requires region { IsRegion r.old.count (faulty_content r.old) }
    ensures ready { FaultyReady r.new }
    ensures region { IsRegion r.new.count (faulty_content r.new) }
{
    match cut {
        Cut::Stop => r.stop_after(n),
        Cut::Fault => r.fail_call(n)?,
    }
    Ok(())
}

/// Makes the call of a sweep, cut at its `n`th call on the words, and starts the region again. Answers whether it was done
/// before.
fn cut_once(
    rt: &impl Abort,
    sweep: &Sweep,
    r: &mut FaultyRegion,
    n: u64,
) -> Result<bool, AllocError>
    requires ready { FaultyReady r.old }
    requires region { IsRegion r.old.count (faulty_content r.old) }
    ensures ready { FaultyReady r.new }
    ensures region { IsRegion r.new.count (faulty_content r.new) }
{
    tell(r, sweep.cut, n)?;
    let said = make(r, sweep.call);
    r.start_again();
    if said == Done {
        return Ok(true);
    }
    let due = match sweep.cut {
        Cut::Stop => Said::Stopped,
        Cut::Fault => Said::Fault,
    };
    let at = At {
        table: sweep.table,
        cut: n,
        row: 0,
    };
    same(rt, at, &said, &due);
    Ok(false)
}

/// Makes the call of a sweep as often as its tries, each cut at its own call on the words, and what comes behind it. Answers
/// whether the first try was done.
fn cut_tries(
    rt: &impl Abort,
    alloc: Global,
    sweep: &Sweep,
    cuts: [u64; 3],
) -> Result<bool, AllocError> {
    let mut r = FaultyRegion::fresh(alloc, 1, 1)?;
    make_all(rt, sweep.table, 0, &mut r, sweep.first);
    let done = cut_once(rt, sweep, &mut r, cuts[0])?;
    for t in 1..sweep.tries.min(3) {
        cut_once(rt, sweep, &mut r, cuts[t])?;
    }
    let rest = if done { sweep.whole } else { sweep.after };
    make_all(rt, sweep.table, cuts[0], &mut r, rest);
    Ok(done)
}

/// Cuts the call of a sweep at each of its calls, until one is done.
fn sweep_all(rt: &impl Abort, alloc: Global, sweep: &Sweep) -> Result<(), Fail> {
    for n in 1..400 {
        if cut_tries(rt, alloc, sweep, [n; 3])? {
            let at = At {
                table: sweep.table,
                cut: n,
                row: 0,
            };
            same(rt, at, &(sweep.least < n), &true);
            return Ok(());
        }
    }
    Err("never done")?
}

#[test]
fn every_cut_leaves_what_its_rows_say(rt: HostRuntime) -> Result<(), Fail> {
    sweep_all(&rt, rt.alloc(), &LITTLE)?;
    for sweep in SWEEPS.iter() {
        sweep_all(&rt, rt.alloc(), sweep)?;
    }
    Ok(())
}

/// Of the last two tries each is stopped at each of its calls.
fn cut_last_tries(rt: &impl Abort, alloc: Global, first: u64) -> Result<(), AllocError> {
    for second in 1..18 {
        for third in 1..18 {
            cut_tries(rt, alloc, &LITTLE, [first, second, third])?;
        }
    }
    Ok(())
}

#[test]
fn every_three_stops_of_putting_back_are_made_good(rt: HostRuntime) -> Result<(), AllocError> {
    for first in 1..18 {
        cut_last_tries(&rt, rt.alloc(), first)?;
    }
    Ok(())
}
