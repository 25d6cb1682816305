//! A region on a volume in memory that stops while a transaction is open on it: its words of before are put back.

ghost use Rattle.std.specs.Prelude.{◌≡◌};
ghost use Rattle.rio_model.specs.Heap.{IsSoundRegion};
ghost use Rattle.rio_model.specs.Undo.{IsRegion};
ghost use Rattle.vista_region.specs.Ends.{Fits};

use crate::asks::{Ask, Row, Want};
use crate::views::{start_again, view_of};
use region_view::RegionView;
use rio_base::{Ino, RegionWords, UNDO_HEAD, VolFail};
use std::alloc::Global;
use std::process::Abort;
use test_objects::ListVolume;
use vista_region::{OpenTable, recover};

/// The place of the first data word: the header, the undo page and the page of the heap map are before it.
const FIRST: u32 = 1536;

/// A table with a transaction on a region, which must have no undo record.
fn begun<R: RegionWords>(rt: &impl Abort, alloc: Global, r: &mut R, i: Ino) -> OpenTable
    requires ready { R.ready r.old }
    requires sound { IsSoundRegion (R.count r.old) (R.words r.old) }
    ensures ready { R.ready r.new }
    ensures fits { Fits result i.0 (R.count r.new) (R.words r.new) }
{
    let mut table = OpenTable::new(alloc).expect(rt, "a table");
    if r.len() <= UNDO_HEAD {
        panic!(rt; "no header");
    }
    let Ok(head) = r.word(UNDO_HEAD) else {
        panic!(rt; "the header is not read");
    };
    if head != 0 {
        panic!(rt; "a new region has an undo record");
    }
    let Ok(()) = table.begin(i) else {
        panic!(rt; "no transaction");
    };
    table
}

/// Changes the first word of the data, under a range of its own.
fn put_first<R: RegionWords>(rt: &impl Abort, table: &mut OpenTable, r: &mut R, i: Ino, word: u64)
    requires ready { R.ready r.old }
    requires fits { Fits table.old i.0 (R.count r.old) (R.words r.old) }
    ensures ready { R.ready r.new }
    ensures fits { Fits table.new i.0 (R.count r.new) (R.words r.new) }
{
    let Ok(()) = table.set_range(r, i, 0, 8) else {
        panic!(rt; "no range");
    };
    let Ok(count) = table.put(r, i, 0, &word.to_le_bytes()) else {
        panic!(rt; "the word is not put");
    };
    assert!(rt; count == 8, "{count} bytes put");
}

/// Changes the first word of the data twice, in a transaction that stays open.
fn change_twice<R: RegionWords>(rt: &impl Abort, alloc: Global, r: &mut R, i: Ino)
    requires ready { R.ready r.old }
    requires sound { IsSoundRegion (R.count r.old) (R.words r.old) }
    ensures ready { R.ready r.new }
    ensures region { IsRegion (R.count r.new) (R.words r.new) }
{
    let mut table = begun(rt, alloc, r, i);
    put_first(rt, &mut table, r, i, 0x1111_1111_1111_1111);
    put_first(rt, &mut table, r, i, 0x2222_2222_2222_2222);
}

/// The request that makes the region of these tests.
const MADE: &[Row] = &[(Ask::Region(b"/r", 1, 1), Want::Number(2))];

/// A region in the middle of such a transaction.
fn region_changed_twice(rt: &impl Abort, alloc: Global) -> RegionView<ListVolume>
    ensures ready { ⟦<RegionView<ListVolume> as RegionWords>⟧.ready result }
    ensures region { IsRegion result.words (⟦<RegionView<ListVolume> as RegionWords>⟧.words result) }
{
    let mut view = view_of(rt, alloc, MADE, b"/r", Ino(2));
    change_twice(rt, alloc, &mut view, Ino(2));
    view
}

/// Whether these are the first two words of the data.
fn begins_with<R: RegionWords>(r: &mut R, due: [u64; 2]) -> Result<bool, VolFail>
    requires ready { R.ready r.old }
    requires region { IsRegion (R.count r.old) (R.words r.old) }
    ensures ready { R.ready r.new }
    ensures region { IsRegion (R.count r.new) (R.words r.new) }
{
    let mut words = [9; 2];
    if r.len() < FIRST + 2 {
        return Ok(false);
    }
    r.read_run(FIRST, &mut words)?;
    Ok(words == due)
}

/// Whether a recovery finds an undo record, or none, as it must, and leaves zeros.
fn recovers<R: RegionWords>(r: &mut R, found: bool) -> Result<bool, VolFail>
    requires ready { R.ready r.old }
    requires region { IsRegion (R.count r.old) (R.words r.old) }
    ensures ready { R.ready r.new }
    ensures region { IsRegion (R.count r.new) (R.words r.new) }
{
    if recover(r)? != found {
        return Ok(false);
    }
    begins_with(r, [0, 0])
}

/// Recovers a region that has the second change, and once more.
fn check_recovery<R: RegionWords>(rt: &impl Abort, r: &mut R)
    requires ready { R.ready r.old }
    requires region { IsRegion (R.count r.old) (R.words r.old) }
{
    let changed = begins_with(r, [0x2222_2222_2222_2222, 0]).expect(rt, "the words are read");
    assert!(rt; changed, "the second change stands");
    assert!(rt;
        recovers(r, true).expect(rt, "a recovery"),
        "the words of before"
    );
    assert!(rt;
        recovers(r, false).expect(rt, "a second one"),
        "no record is left"
    );
}

#[test]
fn words_of_before_are_put_back_after_a_stop(rt: HostRuntime) {
    let mut view = region_changed_twice(&rt, rt.alloc());
    start_again(&mut view, None);
    check_recovery(&rt, &mut view);
}

/// Stops a recovery after so many steps, and makes it again. Says whether it was stopped.
fn stop_recovery(rt: &impl Abort, alloc: Global, steps: u64) -> bool {
    let mut view = region_changed_twice(rt, alloc);
    start_again(&mut view, Some(steps));
    let stopped = recover(&mut view).is_err();
    start_again(&mut view, None);
    let again = recovers(&mut view, stopped).expect(rt, "a recovery");
    assert!(rt; again, "after {steps} steps");
    stopped
}

#[test]
fn a_stopped_recovery_is_made_again(rt: HostRuntime) {
    let mut stops = 0u32;
    for steps in 0..8u64 {
        if stop_recovery(&rt, rt.alloc(), steps) {
            stops = stops.saturating_add(1);
        }
    }
    assert!(rt; stops > 0, "no stop");
}
