//! Rows of directories: added, found, listed, set, removed and replaced.

use crate::dirs::SMALL;
use crate::rows::{Change, Dir, Row, check_rows};
use rio_base::Ino;
use test_objects::SHAPE;

/// The longest name.
const LONG: [u8; 56] = [b'x'; 56];

/// The longest name but for a byte.
const LESS: [u8; 55] = [b'x'; 55];

/// A name that is too long.
const TOO_LONG: [u8; 57] = [b'x'; 57];

/// Tables of calls, each on a volume of its own.
static TABLES: [&[Row]; 9] = [
    // names are found and listed in byte order
    &[
        Row::Names(Dir::Root, b"a", None),
        Row::Make(Change::Add(Dir::Root, b"b", 2)),
        Row::Make(Change::Add(Dir::Root, b"a", 3)),
        Row::Make(Change::Add(Dir::Root, &LONG, 4)),
        Row::Make(Change::Add(Dir::Root, b"aa", 5)),
        Row::Make(Change::Add(Dir::Root, b"longer-name", 6)),
        Row::Names(Dir::Root, b"b", Some(2)),
        Row::Names(Dir::Root, b"a", Some(3)),
        Row::Names(Dir::Root, &LONG, Some(4)),
        Row::Names(Dir::Root, b"aa", Some(5)),
        Row::Names(Dir::Root, b"longer-name", Some(6)),
        Row::Names(Dir::Root, b"longer-namf", None),
        Row::Names(Dir::Root, b"longer-nam", None),
        Row::Names(Dir::Root, &LESS, None),
        Row::Names(Dir::Root, b"", None),
        Row::Names(Dir::Root, &TOO_LONG, None),
        Row::Names(Dir::Other, b"a", None),
        Row::Lists(Dir::Root, &[b"a", b"aa", b"b", b"longer-name", &LONG]),
    ],
    // the last entry moves into the gap
    &[
        Row::Make(Change::Add(Dir::Root, b"a", 2)),
        Row::Make(Change::Add(Dir::Root, b"b", 3)),
        Row::Make(Change::Add(Dir::Root, b"c", 4)),
        Row::Make(Change::Remove(Dir::Root, b"a")),
        Row::Slot(Dir::Root, b"c", 0),
        Row::Names(Dir::Root, b"c", Some(4)),
        Row::Names(Dir::Root, b"a", None),
        Row::Size(Dir::Root, 128),
        Row::Make(Change::Remove(Dir::Root, b"b")),
        Row::Free(251),
        Row::Make(Change::Remove(Dir::Root, b"c")),
        Row::Size(Dir::Root, 0),
        Row::Free(252),
    ],
    // the entry of one slot is read alone, and all names are held in memory
    &[
        Row::Make(Change::Add(Dir::Root, b"a", 2)),
        Row::Make(Change::Add(Dir::Root, &LONG, 3)),
        Row::Make(Change::Add(Dir::Root, b"b", 4)),
        Row::At(Dir::Root, 0, b"a", Some(Ino(2))),
        Row::At(Dir::Root, 1, &LONG, Some(Ino(3))),
        Row::At(Dir::Root, 0, b"b", None),
        Row::At(Dir::Root, 1, &LESS, None),
        Row::At(Dir::Root, 3, b"a", None),
        Row::At(Dir::Root, 0, b"", None),
        Row::At(Dir::Root, 1, &TOO_LONG, None),
        Row::At(Dir::Other, 0, b"a", None),
        Row::Held(Dir::Root, b"a", Some((Ino(2), 0))),
        Row::Held(Dir::Root, &LONG, Some((Ino(3), 1))),
        Row::Held(Dir::Root, b"b", Some((Ino(4), 2))),
        Row::Held(Dir::Root, &LESS, None),
        Row::Held(Dir::Other, b"a", None),
        Row::Make(Change::Remove(Dir::Root, b"a")),
        Row::At(Dir::Root, 0, b"a", None),
        Row::At(Dir::Root, 0, b"b", Some(Ino(4))),
        Row::At(Dir::Root, 2, b"b", None),
        Row::Held(Dir::Root, b"b", Some((Ino(4), 0))),
        Row::Held(Dir::Root, b"a", None),
    ],
    // a directory of many pages grows and shrinks
    &[
        Row::Make(Change::AddNumbered(1700)),
        Row::Free(252 - 27 - 1),
        Row::Numbered(1700),
        Row::Make(Change::RemoveNumbered(1700)),
        Row::Free(252),
    ],
    // a row is set
    &[
        Row::Make(Change::Add(Dir::Root, b"a", 2)),
        Row::Make(Change::Add(Dir::Root, b"b", 3)),
        Row::Make(Change::Add(Dir::Root, b"c", 4)),
        Row::Make(Change::Set(Dir::Root, b"b", b"other", 3)),
        Row::Names(Dir::Root, b"a", Some(2)),
        Row::Names(Dir::Root, b"b", None),
        Row::Names(Dir::Root, b"other", Some(3)),
        Row::Names(Dir::Root, b"c", Some(4)),
    ],
    // a row moves to another directory in one update
    &[
        Row::Make(Change::Add(Dir::Root, b"a", 2)),
        Row::Make(Change::Add(Dir::Root, b"b", 3)),
        Row::Make(Change::Move(b"a", b"c", 2)),
        Row::Names(Dir::Root, b"a", None),
        Row::Names(Dir::Root, b"b", Some(3)),
        Row::Names(Dir::Other, b"c", Some(2)),
        Row::Free(250),
    ],
    // of three rows one gets another node and one goes
    &[
        Row::Make(Change::Add(Dir::Root, b"x0", 2)),
        Row::Make(Change::Add(Dir::Root, b"x1", 3)),
        Row::Make(Change::Add(Dir::Root, b"x2", 4)),
        Row::Make(Change::Replace(Dir::Root, b"x0", 9, b"x1")),
        Row::Names(Dir::Root, b"x0", Some(9)),
        Row::Names(Dir::Root, b"x1", None),
        Row::Names(Dir::Root, b"x2", Some(4)),
    ],
    &[
        Row::Make(Change::Add(Dir::Root, b"x0", 2)),
        Row::Make(Change::Add(Dir::Root, b"x1", 3)),
        Row::Make(Change::Add(Dir::Root, b"x2", 4)),
        Row::Make(Change::Replace(Dir::Root, b"x0", 9, b"x2")),
        Row::Names(Dir::Root, b"x0", Some(9)),
        Row::Names(Dir::Root, b"x1", Some(3)),
        Row::Names(Dir::Root, b"x2", None),
    ],
    &[
        Row::Make(Change::Add(Dir::Root, b"x0", 2)),
        Row::Make(Change::Add(Dir::Root, b"x1", 3)),
        Row::Make(Change::Add(Dir::Root, b"x2", 4)),
        Row::Make(Change::Replace(Dir::Root, b"x2", 9, b"x0")),
        Row::Names(Dir::Root, b"x0", None),
        Row::Names(Dir::Root, b"x1", Some(3)),
        Row::Names(Dir::Root, b"x2", Some(9)),
    ],
];

/// Calls on a volume with two free blocks: a full one has no space for a page.
static FULL: [Row; 4] = [
    Row::Make(Change::Add(Dir::Root, b"a", 3)),
    Row::Make(Change::Add(Dir::Other, b"a", 4)),
    Row::NoSpace(Dir::Third, b"c", 3),
    Row::Make(Change::Add(Dir::Root, b"b", 4)),
];

#[test]
fn rows_are_found_listed_and_changed(rt: HostRuntime) {
    for (k, rows) in TABLES.iter().enumerate() {
        check_rows(&rt, rt.alloc(), &SHAPE, k as u64, rows);
    }
    check_rows(&rt, rt.alloc(), &SMALL, 9, &FULL);
}
