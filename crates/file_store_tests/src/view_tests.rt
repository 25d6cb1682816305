//! The words of a region, read and stored through a view of it.

ghost use Rattle.test_objects.specs.ListVolumes.{ListSound, list_kept, list_seen};
ghost use Rattle.request_ends.specs.Ends.{CanServe};

use crate::asks::{Ask, Row, Want};
use crate::views::{
    Call, Due, MAGIC, failing, on_words, stand_on, start_again, view_after, view_of,
};
use region_view::RegionView;
use request_codec::is_path;
use request_ends::FileFail;
use rio_base::{Ino, RegionWords};
use std::alloc::Global;
use std::process::Abort;
use test_objects::ListVolume;

/// The words of the region of these tests. It has 30 pages, so that it has an indirect block.
const WORDS: u32 = 15_360;

/// Two words before its page 24, which is the first that the indirect block numbers.
const AT: u32 = 12_286;

/// The request that makes it.
const MADE: &[Row] = &[(Ask::Region(b"/r", 26, 2), Want::Number(2))];

/// A view of such a region, which has zeros but for its header.
fn region(rt: &impl Abort, alloc: Global) -> RegionView<ListVolume>
    ensures ready { ⟦<RegionView<ListVolume> as RegionWords>⟧.ready result }
{
    view_of(rt, alloc, MADE, b"/r", Ino(2))
}

/// A region of three data pages and two undo pages in a directory.
const IN_A_DIRECTORY: &[Row] = &[
    (Ask::Mkdir(b"/d"), Want::Number(2)),
    (Ask::Region(b"/d/r", 3, 2), Want::Number(3)),
];

#[test]
fn a_view_stays_where_it_stands_after_a_refusal(rt: HostRuntime) {
    let mut view = view_after(&rt, rt.alloc(), IN_A_DIRECTORY);
    if !is_path(b"/d") {
        panic!(rt; "no path");
    }
    let Err(FileFail::Refused(8)) = stand_on(&mut view, b"/d") else {
        panic!(rt; "a directory is no region");
    };
    if view.len() != 0 {
        panic!(rt; "it stands on a region");
    }
}

/// Calls on the words of a region, each with its answer.
type Calls = &'static [(Call, Due)];

/// What calls show, the requests that make their region, its path and its node, and the calls.
type Table = (&'static str, &'static [Row], &'static [u8], u32, Calls);

static TABLES: [Table; 3] = [
    (
        "a view stands on the region at a path",
        IN_A_DIRECTORY,
        b"/d/r",
        3,
        &[
            // The header's page, two of undo records, one of the heap map and three of data.
            (Call::Len, Due::Word(7 * 512)),
            (Call::Read(0, 4), Due::Words(&[MAGIC, 2, 3, 0])),
        ],
    ),
    (
        "words are read back over pages",
        MADE,
        b"/r",
        2,
        &[
            (Call::Len, Due::Word(WORDS as u64)),
            (Call::SetRun(AT, &[11, 12, 13, 14]), Due::Done),
            (Call::Set(AT + 3, 15), Due::Done),
            (Call::Set(WORDS - 1, 16), Due::Done),
            (Call::Read(AT - 1, 6), Due::Words(&[0, 11, 12, 13, 15, 0])),
            (Call::Word(AT + 2), Due::Word(13)),
            (Call::Word(WORDS - 1), Due::Word(16)),
        ],
    ),
    (
        "a run over three pages is read whole",
        MADE,
        b"/r",
        2,
        &[
            (Call::SetRun(AT + 1, &[7; 514]), Due::Done),
            (Call::Read(AT, 516), Due::Between(7)),
            (Call::Read(AT + 1, 514), Due::Words(&[7; 514])),
        ],
    ),
];

#[test]
fn words_answer_as_their_rows_say(rt: HostRuntime) {
    for (table, requests, path, node, calls) in TABLES.iter() {
        let mut view = view_of(&rt, rt.alloc(), requests, path, Ino(*node));
        on_words(&rt, table, &mut view, calls);
    }
}

/// A run of four words that is stored.
const STORED: Call = Call::SetRun(AT, &[3, 5, 8, 2]);

/// Four words that are read at its place.
const READ: Call = Call::Read(AT, 4);

/// After how many steps a run is stopped, what it answers, and what stands then.
type Stop = (&'static str, u64, Calls, Calls);

static STOPS: [Stop; 5] = [
    (
        "no step",
        0,
        &[(STORED, Due::Stopped)],
        &[(READ, Due::Words(&[0, 0, 0, 0]))],
    ),
    (
        "one step",
        1,
        &[(STORED, Due::Stopped)],
        &[(READ, Due::Words(&[3, 0, 0, 0]))],
    ),
    (
        "two steps",
        2,
        &[(STORED, Due::Stopped)],
        &[(READ, Due::Words(&[3, 5, 0, 0]))],
    ),
    (
        "three steps",
        3,
        &[(STORED, Due::Stopped)],
        &[(READ, Due::Words(&[3, 5, 8, 0]))],
    ),
    (
        "four steps",
        4,
        &[(STORED, Due::Done)],
        &[(READ, Due::Words(&[3, 5, 8, 2]))],
    ),
];

/// Stops the first calls after so many steps, and makes the others behind the stop.
fn stop_run(
    rt: &impl Abort,
    alloc: Global,
    table: &str,
    steps: u64,
    calls: &[(Call, Due)],
    after: &[(Call, Due)],
) {
    let mut view = region(rt, alloc);
    start_again(&mut view, Some(steps));
    on_words(rt, table, &mut view, calls);
    start_again(&mut view, None);
    on_words(rt, table, &mut view, after);
}

#[test]
fn a_stop_leaves_a_front_of_a_run(rt: HostRuntime) {
    for (table, steps, calls, after) in STOPS.iter() {
        stop_run(&rt, rt.alloc(), table, *steps, calls, after);
    }
}

/// Another run.
const COUNTED: Call = Call::SetRun(AT, &[1, 2, 3, 4]);

/// Which call below fails, and the calls of which it is one.
type Fault = (&'static str, u64, Calls);

/// Of a run two words are stored, inode and indirect block are looked at, and two words are stored.
static FAULTS: [Fault; 7] = [
    (
        "call 1 of a run",
        1,
        &[
            (COUNTED, Due::FaultAfter(0)),
            (READ, Due::Words(&[0, 0, 0, 0])),
        ],
    ),
    (
        "call 2 of a run",
        2,
        &[
            (COUNTED, Due::FaultAfter(1)),
            (READ, Due::Words(&[1, 0, 0, 0])),
        ],
    ),
    (
        "call 3 of a run",
        3,
        &[
            (COUNTED, Due::FaultAfter(2)),
            (READ, Due::Words(&[1, 2, 0, 0])),
        ],
    ),
    (
        "call 4 of a run",
        4,
        &[
            (COUNTED, Due::FaultAfter(2)),
            (READ, Due::Words(&[1, 2, 0, 0])),
        ],
    ),
    (
        "call 5 of a run",
        5,
        &[
            (COUNTED, Due::FaultAfter(2)),
            (READ, Due::Words(&[1, 2, 0, 0])),
        ],
    ),
    (
        "call 6 of a run",
        6,
        &[
            (COUNTED, Due::FaultAfter(3)),
            (READ, Due::Words(&[1, 2, 3, 0])),
        ],
    ),
    (
        "the look-up of a read",
        4,
        &[(READ, Due::Fault), (READ, Due::Words(&[0, 0, 0, 0]))],
    ),
];

/// Makes calls on a region where the `n`th call below fails.
fn fail_call(rt: &impl Abort, alloc: Global, table: &str, n: u64, calls: &[(Call, Due)]) {
    let mut view = failing(region(rt, alloc), n);
    on_words(rt, table, &mut view, calls);
}

#[test]
fn a_fault_tells_how_many_words_are_stored(rt: HostRuntime) {
    for (table, n, calls) in FAULTS.iter() {
        fail_call(&rt, rt.alloc(), table, *n, calls);
    }
}
