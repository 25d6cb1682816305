//! Worked requests, each with its answer.

use crate::asks::{Ask, Want};
use crate::playing::{Size, Table, on_each_fresh};
use crate::region_rows::REGIONS;

/// A path of one long name.
const LONG_NAME: &[u8] = b"/nnnnnnnnnnnnnnnnnnnnnnnnnnnnnnnnnnnnnnnnnnnnnnnnnnnnnnnn";

/// The longest path that is held in memory.
const OF_64: &[u8] = b"/nnnnnnnnnnnnnnnnnnnnnnnnnnnnnnnnnnnnnnnnnnnnnnnnnnnnnnnn/held64";

/// One that is longer by a byte.
const OF_65: &[u8] = b"/nnnnnnnnnnnnnnnnnnnnnnnnnnnnnnnnnnnnnnnnnnnnnnnnnnnnnnnn/walked7";

/// What files hold.
static DATA: [Table; 4] = [
    (
        "a written file grows over a gap of zeros",
        Size::Usual,
        &[
            (Ask::Create(b"/f"), Want::Number(2)),
            (Ask::Write(b"/f", 0, b"hello"), Want::Number(5)),
            (Ask::Read(b"/f", 0, 100), Want::Bytes(b"hello")),
            (Ask::List(b"/"), Want::Names(&[b"f"])),
            (Ask::Write(b"/f", 9, b""), Want::Number(0)),
            (Ask::Stat(b"/f"), Want::Stat(2, 2, 5)),
            (Ask::Read(b"/f", 5, 10), Want::Bytes(b"")),
            (Ask::Write(b"/f", 10_000, b"a"), Want::Number(1)),
            (Ask::Read(b"/f", 4, 3), Want::Bytes(b"o\0\0")),
            (Ask::Read(b"/f", 9999, 5), Want::Bytes(b"\0a")),
        ],
    ),
    (
        "a full volume takes no byte more",
        Size::Usual,
        &[
            (Ask::Create(b"/f"), Want::Number(2)),
            (Ask::Write(b"/f", 1_024_000, b"a"), Want::Refused(11)),
            (Ask::Write(b"/f", 1_023_999, b"a"), Want::Number(1)),
            (Ask::Create(b"/g"), Want::Number(3)),
            (Ask::Write(b"/g", 0, b"a"), Want::Refused(11)),
            (Ask::Stat(b"/f"), Want::Stat(2, 2, 1_024_000)),
            (Ask::Truncate(b"/f", 4_292_609), Want::Refused(10)),
            (Ask::Write(b"/f", 4_292_608, b"a"), Want::Refused(10)),
        ],
    ),
    (
        "an indirect block is taken with page 25",
        Size::Usual,
        &[
            (Ask::Create(b"/f"), Want::Number(2)),
            (Ask::Truncate(b"/f", 98_304), Want::Done),
            (Ask::Free, Want::Number(252 - 25)),
            (Ask::Truncate(b"/f", 98_305), Want::Done),
            (Ask::Free, Want::Number(252 - 27)),
        ],
    ),
    (
        "a file that was cut grows with zeros",
        Size::Usual,
        &[
            (Ask::Create(b"/f"), Want::Number(2)),
            (Ask::WriteMany(b"/f", 0, 0xaa, 5000), Want::Number(5000)),
            (Ask::Truncate(b"/f", 100), Want::Done),
            (Ask::Write(b"/f", 4000, &[0xbb]), Want::Number(1)),
            (Ask::Read(b"/f", 98, 4), Want::Bytes(&[0xaa, 0xaa, 0, 0])),
            (Ask::Read(b"/f", 3998, 10), Want::Bytes(&[0, 0, 0xbb])),
        ],
    ),
];

/// Names that come, move and go.
static NAMES: [Table; 3] = [
    (
        "the last inode is taken",
        Size::Usual,
        &[
            (Ask::Fill(63), Want::Done),
            (Ask::Create(b"/n63"), Want::Refused(12)),
        ],
    ),
    (
        "names move",
        Size::Usual,
        &[
            (Ask::Mkdir(b"/a"), Want::Number(2)),
            (Ask::Rename(b"/a", b"/a/b"), Want::Refused(21)),
            (Ask::Create(b"/a/f"), Want::Number(3)),
            (Ask::Rename(b"/a/f", b"/a/f"), Want::Done),
            (Ask::Create(b"/g"), Want::Number(4)),
            (Ask::Rename(b"/g", b"/a/f"), Want::Done),
            (Ask::Stat(b"/a/f"), Want::Stat(4, 2, 0)),
            (Ask::Stat(b"/g"), Want::Refused(2)),
            (Ask::Create(b"/h"), Want::Number(3)),
            (Ask::Rename(b"/", b"/x"), Want::Refused(9)),
            (Ask::Rmdir(b"/a"), Want::Refused(6)),
            (Ask::Stat(b"/h/x"), Want::Refused(4)),
            (Ask::Read(b"/a", 0, 1), Want::Refused(5)),
        ],
    ),
    (
        "mail is dropped",
        Size::Usual,
        &[
            (Ask::Mkdir(b"/mail"), Want::Number(2)),
            (Ask::Create(b"/mail/in.tmp"), Want::Number(3)),
            (Ask::Write(b"/mail/in.tmp", 0, b"Hello\n"), Want::Number(6)),
            (Ask::Rename(b"/mail/in.tmp", b"/mail/in"), Want::Done),
            (Ask::Stat(b"/mail"), Want::Stat(2, 1, 64)),
            (Ask::List(b"/mail"), Want::Names(&[b"in"])),
            (Ask::Read(b"/mail/in", 0, 4096), Want::Bytes(b"Hello\n")),
            (Ask::Unlink(b"/mail/in"), Want::Done),
            (Ask::Rmdir(b"/mail"), Want::Done),
            (Ask::List(b"/"), Want::Names(&[])),
            (Ask::Free, Want::Number(252)),
        ],
    ),
];

/// What is refused, and in which order.
static REFUSALS: [Table; 1] = [(
    "refusals come in their order",
    Size::Usual,
    &[
        (Ask::Mkdir(b"/"), Want::Refused(3)),
        (Ask::Create(b"/"), Want::Refused(3)),
        (Ask::Mkdir(b"/d"), Want::Number(2)),
        (Ask::Create(b"/file"), Want::Number(3)),
        (Ask::Create(b"/d"), Want::Refused(3)),
        (Ask::Create(b"/x/y"), Want::Refused(2)),
        (Ask::Create(b"/file/y"), Want::Refused(4)),
        (Ask::Unlink(b"/"), Want::Refused(9)),
        (Ask::Unlink(b"/d"), Want::Refused(5)),
        (Ask::Unlink(b"/none"), Want::Refused(2)),
        (Ask::Unlink(b"/file/none"), Want::Refused(4)),
        (Ask::Rmdir(b"/"), Want::Refused(9)),
        (Ask::Rmdir(b"/file"), Want::Refused(4)),
        (Ask::Rmdir(b"/none"), Want::Refused(2)),
        (Ask::Rename(b"/", b"/"), Want::Refused(9)),
        (Ask::Rename(b"/missing", b"/"), Want::Refused(2)),
        (Ask::Rename(b"/file", b"/"), Want::Refused(9)),
        (Ask::Rename(b"/d", b"/d/missing/x"), Want::Refused(2)),
        (Ask::Rename(b"/file", b"/file/x"), Want::Refused(4)),
        (Ask::Rename(b"/d", b"/d/e"), Want::Refused(21)),
        (Ask::Rename(b"/d", b"/file"), Want::Refused(3)),
        (Ask::Rename(b"/file", b"/d"), Want::Refused(3)),
        (Ask::Rename(b"/d", b"/dd"), Want::Done),
        (Ask::Write(b"/", 0, b"a"), Want::Refused(5)),
        (Ask::Truncate(b"/dd", 0), Want::Refused(5)),
        (Ask::Read(b"/none", 0, 1), Want::Refused(2)),
        (Ask::List(b"/file"), Want::Refused(4)),
        (Ask::List(b"/none"), Want::Refused(2)),
    ],
)];

/// Directories that are larger than a page.
static LARGE: [Table; 2] = [
    (
        "a directory grows and shrinks",
        Size::ManyNodes,
        &[
            (Ask::Free, Want::Number(250)),
            (Ask::Fill(65), Want::Done),
            (Ask::Free, Want::Number(248)),
            (Ask::Unlink(b"/n00"), Want::Done),
            (Ask::Free, Want::Number(249)),
            (Ask::List(b"/"), Want::Numbered(64)),
        ],
    ),
    (
        "names of a directory larger than a page",
        Size::ManyNodes,
        &[
            (Ask::Fill(66), Want::Done),
            (Ask::Stat(b"/n65"), Want::Stat(67, 2, 0)),
            (Ask::Create(b"/new"), Want::Number(68)),
            (Ask::Create(b"/new"), Want::Refused(3)),
            (Ask::Write(b"/new", 0, b"hello"), Want::Number(5)),
            (Ask::Read(b"/new", 1, 9), Want::Bytes(b"ello")),
            (Ask::Truncate(b"/new", 2), Want::Done),
            (Ask::Unlink(b"/n01"), Want::Done),
            (Ask::Unlink(b"/n01"), Want::Refused(2)),
            (Ask::Stat(b"/new"), Want::Stat(68, 2, 2)),
            (Ask::Create(b"/n01"), Want::Number(3)),
            (Ask::Rename(b"/n00", b"/old"), Want::Done),
            (Ask::Stat(b"/n00"), Want::Refused(2)),
            (Ask::Stat(b"/old"), Want::Stat(2, 2, 0)),
            (Ask::Rename(b"/n02", b"/n03"), Want::Done),
            (Ask::Stat(b"/n02"), Want::Refused(2)),
            (Ask::Stat(b"/n03"), Want::Stat(4, 2, 0)),
            (Ask::Mkdir(b"/dir"), Want::Number(5)),
            (Ask::Rename(b"/old", b"/dir/old"), Want::Done),
            (Ask::Stat(b"/old"), Want::Refused(2)),
            (Ask::Create(b"/dir/other"), Want::Number(69)),
            (Ask::Rename(b"/new", b"/dir/other"), Want::Done),
            (Ask::Stat(b"/dir/other"), Want::Stat(68, 2, 2)),
            (Ask::List(b"/dir"), Want::Names(&[b"old", b"other"])),
            (Ask::Rmdir(b"/dir"), Want::Refused(6)),
            (Ask::Unlink(b"/dir/old"), Want::Done),
            (Ask::Unlink(b"/dir/other"), Want::Done),
            (Ask::Rmdir(b"/dir"), Want::Done),
            (Ask::Stat(b"/dir"), Want::Refused(2)),
            (Ask::Region(b"/words", 1, 1), Want::Number(2)),
            (Ask::RegionOf(b"/words"), Want::Number(2)),
            (Ask::Create(b"/last"), Want::Number(5)),
        ],
    ),
];

/// Paths that lead elsewhere once a name changed.
static PATHS: [Table; 1] = [(
    "a path leads elsewhere once a name changed",
    Size::Usual,
    &[
        (Ask::Mkdir(b"/a"), Want::Number(2)),
        (Ask::Create(b"/a/f"), Want::Number(3)),
        (Ask::Write(b"/a/f", 0, b"one"), Want::Number(3)),
        (Ask::Mkdir(b"/b"), Want::Number(4)),
        (Ask::Create(b"/b/f"), Want::Number(5)),
        (Ask::Read(b"/a/f", 0, 9), Want::Bytes(b"one")),
        (Ask::Read(b"/b/f", 0, 9), Want::Bytes(b"")),
        (Ask::Read(b"/a/f", 0, 9), Want::Bytes(b"one")),
        (Ask::Rename(b"/a/f", b"/a/g"), Want::Done),
        (Ask::Read(b"/a/f", 0, 9), Want::Refused(2)),
        (Ask::Read(b"/a/g", 0, 9), Want::Bytes(b"one")),
        (Ask::Rename(b"/b/f", b"/a/g"), Want::Done),
        (Ask::Stat(b"/a/g"), Want::Stat(5, 2, 0)),
        (Ask::Unlink(b"/a/g"), Want::Done),
        (Ask::Stat(b"/a/g"), Want::Refused(2)),
        (Ask::Create(b"/a/g"), Want::Number(3)),
        (Ask::Stat(b"/a/g"), Want::Stat(3, 2, 0)),
        (Ask::Rename(b"/a", b"/c"), Want::Done),
        (Ask::Stat(b"/a/g"), Want::Refused(2)),
        (Ask::Stat(b"/c/g"), Want::Stat(3, 2, 0)),
        (Ask::Write(b"/c/g", 10_000, b"a"), Want::Number(1)),
        (Ask::Truncate(b"/c/g", 9_000), Want::Done),
        (Ask::Stat(b"/c/g"), Want::Stat(3, 2, 9_000)),
        (Ask::List(b"/b"), Want::Names(&[])),
        (Ask::Rmdir(b"/b"), Want::Done),
        (Ask::List(b"/b"), Want::Refused(2)),
        (Ask::Region(b"/b", 1, 1), Want::Number(4)),
        (Ask::RegionOf(b"/b"), Want::Number(4)),
        (Ask::List(b"/b"), Want::Refused(4)),
    ],
)];

/// Paths as long as one that is held may be, and a volume that is full.
static EDGES: [Table; 2] = [
    (
        "paths of 64 bytes and more",
        Size::Usual,
        &[
            (Ask::Mkdir(LONG_NAME), Want::Number(2)),
            (Ask::Create(OF_64), Want::Number(3)),
            (Ask::Create(OF_65), Want::Number(4)),
            (Ask::Write(OF_64, 0, b"one"), Want::Number(3)),
            (Ask::Write(OF_65, 0, b"two"), Want::Number(3)),
            (Ask::Read(OF_64, 0, 9), Want::Bytes(b"one")),
            (Ask::Read(OF_65, 0, 9), Want::Bytes(b"two")),
            (Ask::Stat(OF_64), Want::Stat(3, 2, 3)),
        ],
    ),
    (
        "the last free block is taken",
        Size::Full,
        &[
            (Ask::Create(b"/a"), Want::Number(2)),
            (Ask::Mkdir(b"/b"), Want::Number(3)),
            (Ask::Create(b"/b/c"), Want::Refused(11)),
            (Ask::Rename(b"/a", b"/b/a"), Want::Refused(11)),
            (Ask::Rename(b"/a", b"/c"), Want::Done),
            (Ask::Unlink(b"/c"), Want::Done),
            (Ask::Rmdir(b"/b"), Want::Done),
            (Ask::Create(b"/z"), Want::Number(2)),
        ],
    ),
];

fn data() -> &'static [Table] {
    &DATA
}

fn names() -> &'static [Table] {
    &NAMES
}

fn refusals() -> &'static [Table] {
    &REFUSALS
}

fn large() -> &'static [Table] {
    &LARGE
}

fn paths() -> &'static [Table] {
    &PATHS
}

fn edges() -> &'static [Table] {
    &EDGES
}

fn regions() -> &'static [Table] {
    &REGIONS
}

#[test]
fn requests_answer_as_their_rows_say(rt: HostRuntime) {
    // A function for each static: what reading a body takes grows with the square of what stands in its statics.
    let parts = [
        data(),
        names(),
        refusals(),
        large(),
        paths(),
        edges(),
        regions(),
    ];
    for part in 0..parts.len() {
        on_each_fresh(&rt, rt.alloc(), parts[part]);
    }
}
