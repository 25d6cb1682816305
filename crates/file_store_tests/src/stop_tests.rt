//! Requests that are stopped at each of their steps: each is found absent or whole.

use crate::asks::{Ask, Row, Want};
use crate::playing::at_each_step;
use crate::views::MAGIC;

/// Two files, the first of which then gets the name of the second.
const RENAME: &[Row] = &[
    (Ask::Create(b"/a"), Want::Number(2)),
    (Ask::Create(b"/b"), Want::Number(3)),
    (Ask::Rename(b"/a", b"/b"), Want::Done),
];

/// None of the files, one, both, or the first one under the second name.
const RENAME_STANDS: &[&[Row]] = &[
    &[
        (Ask::Stat(b"/a"), Want::Refused(2)),
        (Ask::Stat(b"/b"), Want::Refused(2)),
    ],
    &[
        (Ask::Stat(b"/a"), Want::Stat(2, 2, 0)),
        (Ask::Stat(b"/b"), Want::Refused(2)),
    ],
    &[
        (Ask::Stat(b"/a"), Want::Stat(2, 2, 0)),
        (Ask::Stat(b"/b"), Want::Stat(3, 2, 0)),
    ],
    &[
        (Ask::Stat(b"/a"), Want::Refused(2)),
        (Ask::Stat(b"/b"), Want::Stat(2, 2, 0)),
    ],
];

/// A region of three data pages and two undo pages.
const REGION: &[Row] = &[(Ask::Region(b"/r", 3, 2), Want::Number(2))];

/// No block is taken; or those of the region and the root's row are, and the region's words stand.
const REGION_STANDS: &[&[Row]] = &[
    &[
        (Ask::RegionOf(b"/r"), Want::Refused(2)),
        (Ask::Free, Want::Number(252)),
    ],
    &[
        (Ask::RegionOf(b"/r"), Want::Number(2)),
        (Ask::Block(5), Want::Words(&[MAGIC, 2, 3])),
        (Ask::Block(6), Want::Words(&[])),
        (Ask::Block(7), Want::Words(&[])),
        (Ask::Block(8), Want::Words(&[])),
        (Ask::Block(9), Want::Words(&[])),
        (Ask::Block(10), Want::Words(&[])),
        (Ask::Block(11), Want::Words(&[])),
        (Ask::Free, Want::Number(252 - 8)),
    ],
];

/// Requests that are stopped: what they show, what may stand after a stop, and how many steps they take at least.
type Case = (&'static str, &'static [Row], &'static [&'static [Row]], u64);

static CASES: [Case; 2] = [
    // Each of the three requests begins an update, edits and commits.
    ("a rename", RENAME, RENAME_STANDS, 9),
    // Seven blocks are made zero, three words stored, and an update is begun, edited and committed.
    ("a region", REGION, REGION_STANDS, 13),
];

#[test]
fn a_stopped_request_is_absent_or_whole(rt: HostRuntime) {
    for (table, rows, may_stand, least) in CASES.iter() {
        at_each_step(&rt, rt.alloc(), table, rows, may_stand, *least);
    }
}
