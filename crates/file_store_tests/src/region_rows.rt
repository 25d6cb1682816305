//! Regions made and found.

use crate::asks::{Ask, Want};
use crate::playing::{Size, Table};
use crate::views::MAGIC;

/// Requests that make and find regions.
pub(crate) static REGIONS: [Table; 5] = [
    (
        "a region is made of zeros",
        Size::Usual,
        &[
            (Ask::Create(b"/f"), Want::Number(2)),
            (Ask::WriteMany(b"/f", 0, 0xaa, 40_000), Want::Number(40_000)),
            (Ask::Unlink(b"/f"), Want::Done),
            (Ask::Region(b"/r", 3, 2), Want::Number(2)),
            (Ask::Stat(b"/r"), Want::Stat(2, 3, 12_288)),
            (Ask::Read(b"/r", 0, 8), Want::Refused(7)),
            (Ask::List(b"/"), Want::Names(&[b"r"])),
            (Ask::Free, Want::Number(252 - 1 - 7)),
            // The root's row takes block 4. Behind the header's page are those of undo records, of the heap map and of data.
            (Ask::Block(5), Want::Words(&[MAGIC, 2, 3])),
            (Ask::Block(6), Want::Words(&[])),
            (Ask::Block(7), Want::Words(&[])),
            (Ask::Block(8), Want::Words(&[])),
            (Ask::Block(9), Want::Words(&[])),
            (Ask::Block(10), Want::Words(&[])),
            (Ask::Block(11), Want::Words(&[])),
        ],
    ),
    (
        "a region is found by its path",
        Size::Usual,
        &[
            (Ask::Mkdir(b"/d"), Want::Number(2)),
            (Ask::Region(b"/d/r", 1, 1), Want::Number(3)),
            (Ask::RegionOf(b"/d/r"), Want::Number(3)),
        ],
    ),
    (
        "no other node is a region",
        Size::Usual,
        &[
            (Ask::Create(b"/f"), Want::Number(2)),
            (Ask::RegionOf(b"/f"), Want::Refused(8)),
            (Ask::RegionOf(b"/"), Want::Refused(8)),
            (Ask::RegionOf(b"/none"), Want::Refused(2)),
            (Ask::RegionOf(b"/f/r"), Want::Refused(4)),
        ],
    ),
    (
        "refusals of a region come in their order",
        Size::Usual,
        &[
            (Ask::Create(b"/f"), Want::Number(2)),
            (Ask::Region(b"/", 2000, 1), Want::Refused(3)),
            (Ask::Region(b"/x/r", 2000, 1), Want::Refused(2)),
            (Ask::Region(b"/f/r", 2000, 1), Want::Refused(4)),
            (Ask::Region(b"/f", 2000, 1), Want::Refused(3)),
            (Ask::Region(b"/r", 1040, 3), Want::Refused(10)),
            (Ask::Region(b"/r", 1040, 2), Want::Refused(11)),
            (Ask::Region(b"/r", u64::MAX, u64::MAX), Want::Refused(10)),
            (Ask::Region(b"/r", 248, 1), Want::Refused(11)),
            (Ask::Region(b"/r", 247, 1), Want::Number(3)),
            (Ask::Free, Want::Number(0)),
        ],
    ),
    (
        "a region takes an inode",
        Size::Usual,
        &[
            (Ask::Fill(63), Want::Done),
            (Ask::Region(b"/r", 1041, 2), Want::Refused(10)),
            (Ask::Region(b"/r", 1040, 2), Want::Refused(12)),
            (Ask::Region(b"/n00", 1040, 2), Want::Refused(3)),
        ],
    ),
];
