//! Tests of what writes back, on machines whose first five entries are dirty. After each call the disk crashes, so that
//! pending blocks are lost, and each of the five blocks still reads as it did.

ghost use Rattle.machine_tests.specs.TestMachines.{Ready};

use crate::cached::{Found, found_in, machine_with};
use crate::machines::Mishap;
use crate::same::same;
use registry::load_tag;
use rio_base::{Machine, VolFail};
use std::alloc::Global;
use std::process::Abort;
use write_back::{clean, evict, flush};

/// A call that writes back.
#[derive(Clone, Copy)]
enum Call {
    /// Entry 2 is cleaned.
    Clean,
    /// Entry 2 is evicted.
    Evict,
    /// So many entries are flushed.
    Flush(u64),
}

/// How a call ended.
#[derive(Clone, Copy, Debug, PartialEq, Eq)]
enum End {
    Done,
    /// So many entries were cleaned.
    Flushed(u32),
    Fault,
    Stopped,
    /// Entry 2 is not valid.
    NoEntry,
}

impl From<VolFail> for End {
    fn from(fail: VolFail) -> End {
        match fail {
            VolFail::Fault => End::Fault,
            VolFail::Stopped => End::Stopped,
        }
    }
}

/// What came of a call: how it ended, how many steps were made, and what is found then.
type Came = (End, u64, Found);

/// What befalls a call, and what must come of it: how it ends, how many steps were made, and which entries are then dirty,
/// which are clean and which blocks are on the disk. All five blocks read as they did.
type Row = (Mishap, End, u64, [u8; 3]);

/// Makes a call.
fn make<M: Machine>(m: &mut M, call: Call) -> End
    requires ready { Ready (M.contents m.old) (M.run m.old) }
{
    if let Call::Flush(n) = call {
        return match flush(m, n) {
            Ok(count) => End::Flushed(count),
            Err(fail) => End::from(fail),
        };
    }
    if !load_tag(m, 2).is_valid() {
        return End::NoEntry;
    }
    let end = match call {
        Call::Clean => clean(m, 2),
        _ => evict(m, 2),
    };
    match end {
        Ok(()) => End::Done,
        Err(fail) => End::from(fail),
    }
}

/// Makes a call on a machine which this befalls.
fn came_of(rt: &impl Abort, alloc: Global, call: Call, mishap: Mishap) -> Came {
    let mut m = machine_with(rt, alloc, 5, mishap);
    let end = make(&mut m, call);
    let steps = m.steps();
    (end, steps, found_in(rt, alloc, m))
}

/// Makes a call once for each row, on a machine of its own.
fn check(rt: &impl Abort, alloc: Global, table: &str, call: Call, rows: &[Row]) {
    for k in 0..rows.len() {
        let (mishap, end, steps, [dirty, clean, on_disk]) = rows[k];
        let due = (end, steps, [dirty, clean, on_disk, 0b11111]);
        same(rt, table, k, &came_of(rt, alloc, call, mishap), &due);
    }
}

/// Nothing was written back.
const UNTOUCHED: [u8; 3] = [0b11111, 0, 0];

/// Calls, each with rows.
static TABLES: [(&str, Call, &[Row]); 5] = [
    (
        "a page is cleaned or stays dirty",
        Call::Clean,
        &[
            (Mishap::Nothing, End::Done, 3, [0b11011, 0b100, 0b100]),
            (Mishap::Fault(1), End::Fault, 1, UNTOUCHED),
            (Mishap::Fault(2), End::Fault, 2, UNTOUCHED),
        ],
    ),
    (
        "an evicted page is on the disk",
        Call::Evict,
        &[
            (Mishap::Nothing, End::Done, 4, [0b11011, 0, 0b100]),
            (Mishap::Stop(0), End::Stopped, 0, UNTOUCHED),
            (Mishap::Stop(1), End::Stopped, 1, UNTOUCHED),
            (Mishap::Stop(2), End::Stopped, 2, [0b11111, 0, 0b100]),
            (Mishap::Stop(3), End::Stopped, 3, [0b11011, 0b100, 0b100]),
        ],
    ),
    (
        "a flush of none",
        Call::Flush(0),
        &[(Mishap::Nothing, End::Flushed(0), 1, UNTOUCHED)],
    ),
    (
        "a flush of more than are dirty",
        Call::Flush(9),
        &[(Mishap::Nothing, End::Flushed(5), 11, [0, 0b11111, 0b11111])],
    ),
    (
        "a flush cleans the first two dirty entries",
        Call::Flush(2),
        &[
            (Mishap::Nothing, End::Flushed(2), 5, [0b11100, 0b11, 0b11]),
            (Mishap::Fault(1), End::Fault, 1, UNTOUCHED),
            (Mishap::Fault(2), End::Fault, 2, UNTOUCHED),
            (Mishap::Fault(3), End::Fault, 3, UNTOUCHED),
            (Mishap::Stop(0), End::Stopped, 0, UNTOUCHED),
            (Mishap::Stop(1), End::Stopped, 1, UNTOUCHED),
            (Mishap::Stop(2), End::Stopped, 2, UNTOUCHED),
            (Mishap::Stop(3), End::Stopped, 3, [0b11111, 0, 0b11]),
            (Mishap::Stop(4), End::Stopped, 4, [0b11110, 0b1, 0b11]),
        ],
    ),
];

#[test]
fn calls_that_write_back_answer_as_their_rows_say(rt: HostRuntime) {
    for (table, call, rows) in TABLES.iter() {
        check(&rt, rt.alloc(), table, *call, rows);
    }
}
