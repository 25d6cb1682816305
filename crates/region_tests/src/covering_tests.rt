//! Tests of which places the records of an undo list cover together, and of how many records are read for it: each at most
//! once.

ghost use Rattle.std.specs.Prelude.{IfOk};
ghost use Rattle.rio_model.specs.Undo.{IsRegion};
ghost use Rattle.test_objects.specs.FaultyRegions.{FaultyReady, faulty_content};

use crate::undo_calls::{is_covered, save};
use crate::undo_rows::{At, same};
use std::alloc::Global;
use std::test::Fail;
use test_objects::FaultyRegion;

/// Places: the first, and how many.
#[derive(Clone, Copy)]
struct Places(u32, u32);

/// The calls on the region that read so many records: one for the head and three for each; none where no place is asked for.
fn calls_for(records: u32) -> u64 {
    if records == 0 {
        return 0;
    }
    1 + 3 * u64::from(records)
}

/// A region in which four ranges were saved, one after the other.
fn with_saved(alloc: Global, saved: &[Places; 4]) -> Result<FaultyRegion, Fail>
    ensures ready { IfOk result FaultyReady }
    ensures region { IfOk result (λ r. IsRegion r.count (faulty_content r)) }
{
    let mut r = FaultyRegion::fresh(alloc, 4, 1)?;
    for Places(first, count) in saved.iter() {
        save(&mut r, *first, *count)?;
    }
    Ok(r)
}

/// Whether places are covered, and how many calls it took to tell.
fn ask(r: &mut FaultyRegion, asked: Places) -> Result<(bool, u64), Fail>
    requires ready { FaultyReady r.old }
    requires region { IsRegion r.old.count (faulty_content r.old) }
{
    let before = r.calls();
    let all = is_covered(r, asked.0, asked.1)?;
    Ok((all, r.calls().saturating_sub(before)))
}

/// What is saved, what is asked, whether it is covered, and the records that are read.
type Case = (&'static str, [Places; 4], Places, bool, u32);

static CASES: [Case; 22] = [
    (
        "rising",
        [Places(0, 4), Places(4, 4), Places(8, 4), Places(12, 4)],
        Places(0, 16),
        true,
        4,
    ),
    (
        "falling",
        [Places(12, 4), Places(8, 4), Places(4, 4), Places(0, 4)],
        Places(0, 16),
        true,
        4,
    ),
    (
        "nested, the outer first",
        [Places(0, 16), Places(1, 14), Places(2, 12), Places(3, 10)],
        Places(0, 16),
        true,
        4,
    ),
    (
        "nested, the inner first",
        [Places(3, 10), Places(2, 12), Places(1, 14), Places(0, 16)],
        Places(0, 16),
        true,
        1,
    ),
    (
        "the middle out",
        [Places(0, 1), Places(6, 4), Places(1, 6), Places(9, 7)],
        Places(0, 16),
        true,
        4,
    ),
    (
        "the middle last",
        [Places(0, 1), Places(1, 5), Places(10, 6), Places(5, 6)],
        Places(0, 16),
        true,
        4,
    ),
    (
        "two middles last",
        [Places(0, 4), Places(12, 4), Places(7, 5), Places(4, 3)],
        Places(0, 16),
        true,
        4,
    ),
    (
        "middles that overlap",
        [Places(0, 5), Places(9, 7), Places(6, 5), Places(4, 4)],
        Places(0, 16),
        true,
        4,
    ),
    (
        "a middle twice",
        [Places(0, 4), Places(8, 8), Places(4, 4), Places(4, 4)],
        Places(0, 16),
        true,
        4,
    ),
    (
        "ends between middles",
        [Places(4, 4), Places(0, 4), Places(12, 4), Places(8, 4)],
        Places(0, 16),
        true,
        4,
    ),
    (
        "the oldest is not wanted",
        [Places(0, 16), Places(0, 6), Places(10, 6), Places(5, 6)],
        Places(0, 16),
        true,
        3,
    ),
    (
        "places that begin within a record",
        [Places(0, 9), Places(11, 9), Places(40, 0), Places(8, 4)],
        Places(5, 10),
        true,
        4,
    ),
    (
        "a hole at the front",
        [Places(1, 3), Places(4, 4), Places(8, 4), Places(12, 4)],
        Places(0, 16),
        false,
        4,
    ),
    (
        "a hole at the end",
        [Places(0, 4), Places(4, 4), Places(8, 4), Places(12, 3)],
        Places(0, 16),
        false,
        4,
    ),
    (
        "a hole of one in the middle",
        [Places(0, 4), Places(10, 6), Places(7, 3), Places(4, 2)],
        Places(0, 16),
        false,
        4,
    ),
    (
        "an empty record in a hole",
        [Places(0, 8), Places(9, 7), Places(8, 0), Places(4, 3)],
        Places(0, 16),
        false,
        4,
    ),
    (
        "many words of marks",
        [
            Places(0, 1),
            Places(400, 112),
            Places(190, 220),
            Places(1, 190),
        ],
        Places(0, 512),
        true,
        4,
    ),
    (
        "a hole before the 64th mark",
        [
            Places(0, 1),
            Places(400, 112),
            Places(64, 340),
            Places(1, 62),
        ],
        Places(0, 512),
        false,
        4,
    ),
    (
        "a hole behind the 64th mark",
        [
            Places(0, 1),
            Places(400, 112),
            Places(65, 340),
            Places(1, 63),
        ],
        Places(0, 512),
        false,
        4,
    ),
    (
        "more than 512 places",
        [
            Places(0, 10),
            Places(1000, 24),
            Places(5, 500),
            Places(500, 510),
        ],
        Places(0, 1024),
        true,
        4,
    ),
    (
        "a hole in more than 512 places",
        [
            Places(0, 10),
            Places(1000, 24),
            Places(5, 500),
            Places(506, 510),
        ],
        Places(0, 1024),
        false,
        4,
    ),
    (
        "no places",
        [Places(0, 0), Places(0, 0), Places(0, 0), Places(0, 0)],
        Places(7, 0),
        true,
        0,
    ),
];

#[test]
fn ranges_are_taken_together_in_one_pass(rt: HostRuntime) -> Result<(), Fail> {
    for (table, saved, asked, all, records) in CASES.iter() {
        let mut r = with_saved(rt.alloc(), saved)?;
        let at = At {
            table: *table,
            cut: 0,
            row: 0,
        };
        same(&rt, at, &ask(&mut r, *asked)?, &(*all, calls_for(*records)));
    }
    Ok(())
}
