//! Tests of calls on an undo list below which no call fails.

use crate::undo_calls::Call::{Change, ChangeByHeaders, Covered, Rewind, Room, Save, Word};
use crate::undo_calls::DATA;
use crate::undo_calls::Said::{Done, Full, Header, Is, Number};
use crate::undo_rows::{Row, make_all};
use std::alloc::AllocError;
use test_objects::FaultyRegion;

/// Tables of calls, each on a fresh region of one undo page and one data page.
static TABLES: [(&str, &[Row]); 4] = [
    (
        "the oldest record is put back last",
        &[
            (Change(DATA, 1, 0x1111111111111111), Done),
            (Change(DATA, 1, 0x2222222222222222), Done),
            (Room, Number(504)),
            (Rewind, Done),
            (Word(DATA), Number(0)),
            (Room, Number(512)),
        ],
    ),
    (
        "the header is read once for each change",
        &[
            (ChangeByHeaders(DATA, [7, 8]), Header(1, 1, 1)),
            (Word(DATA), Number(7)),
            (Word(DATA + 1), Number(8)),
            (Room, Number(507)),
            (Rewind, Done),
            (Word(DATA + 1), Number(0)),
        ],
    ),
    (
        "room is counted to the word",
        &[
            (Save(0, 510), Full),
            (Save(0, 509), Done),
            (Room, Number(0)),
            (Save(0, 0), Full),
        ],
    ),
    (
        "places are covered by records together",
        &[
            (Covered(7, 0), Is(true)),
            (Save(DATA + 8, 8), Done),
            (Save(DATA, 8), Done),
            (Save(DATA + 20, 4), Done),
            (Save(DATA + 16, 3), Done),
            (Covered(DATA, 19), Is(true)),
            (Covered(DATA, 20), Is(false)),
            (Covered(DATA + 20, 4), Is(true)),
            (Covered(DATA + 7, 2), Is(true)),
            (Covered(DATA + 24, 0), Is(true)),
        ],
    ),
];

#[test]
fn calls_answer_as_their_rows_say(rt: HostRuntime) -> Result<(), AllocError> {
    for (table, rows) in TABLES.iter() {
        let mut r = FaultyRegion::fresh(rt.alloc(), 1, 1)?;
        make_all(&rt, table, 0, &mut r, rows);
    }
    Ok(())
}
