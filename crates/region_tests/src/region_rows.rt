//! Rows of calls on a region and its transaction, with the answers that must come.

ghost use Rattle.std.specs.Prelude.{OnOk};
ghost use Rattle.rio_model.specs.Undo.{IsRegion};
ghost use Rattle.region_tests.specs.TestRegions.{Sound};

use crate::region_calls::{Call, Said, make, recovered};
use rio_base::RegionWords;
use std::alloc::Global;
use std::fmt::Debug;
use std::process::Abort;
use std::test::Fail;
use vista_region::{OpenTable, TxnFail};

/// A call, and what it must answer.
pub(crate) type Row = (Call, Said);

/// What a region must hold once it is recovered: whether there was something to put back, where that is known, a byte offset
/// of the data, and the word there.
#[derive(Clone, Copy)]
pub(crate) struct Left(pub(crate) Option<bool>, pub(crate) u64, pub(crate) u64);

/// Where a row stands.
#[derive(Clone, Copy)]
pub(crate) struct At {
    pub(crate) name: &'static str,
    /// Which call on the region's words is cut before, or 0.
    pub(crate) cut: u64,
    pub(crate) row: usize,
}

/// What came is what is due.
pub(crate) fn same<T: PartialEq + Debug>(rt: &impl Abort, at: At, came: &T, due: &T) {
    let At { name, cut, row } = at;
    assert_eq!(rt; came, due, "{name}, cut at {cut}, row {row}");
}

/// Makes the calls of rows, of which each must answer as its row says, up to one that a fault ends: its row is answered. The
/// error is the stop.
pub(crate) fn make_rows<R: RegionWords>(
    rt: &impl Abort,
    at: At,
    alloc: Global,
    table: &mut OpenTable,
    r: &mut R,
    rows: &[Row],
) -> Result<Option<usize>, TxnFail>
    requires ready { R.ready r.old }
    requires sound { Sound table.old 7 (R.count r.old) (R.words r.old) }
    ensures sound { OnOk result (Sound table.new 7 (R.count r.new) (R.words r.new)) }
    ensures region { IsRegion (R.count r.new) (R.words r.new) }
    ensures ready { R.ready r.new }
{
    for row in 0..rows.len() {
        let (call, due) = rows[row];
        let came = make(alloc, table, r, call)?;
        if came == Said::Failed(TxnFail::Fault(0)) {
            return Ok(Some(row));
        }
        same(rt, At { row, ..at }, &came, &due);
    }
    Ok(None)
}

/// Makes the calls of rows, of which each must answer as its row says. The error is the stop.
pub(crate) fn make_all<R: RegionWords>(
    rt: &impl Abort,
    at: At,
    alloc: Global,
    table: &mut OpenTable,
    r: &mut R,
    rows: &[Row],
) -> Result<(), TxnFail>
    requires ready { R.ready r.old }
    requires sound { Sound table.old 7 (R.count r.old) (R.words r.old) }
    ensures sound { OnOk result (Sound table.new 7 (R.count r.new) (R.words r.new)) }
    ensures region { IsRegion (R.count r.new) (R.words r.new) }
    ensures ready { R.ready r.new }
{
    let faulted = make_rows(rt, at, alloc, table, r, rows)?;
    same(rt, at, &faulted, &None);
    Ok(())
}

/// Recovers a region for each row, which says what must be left.
pub(crate) fn recover_all<R: RegionWords>(
    rt: &impl Abort,
    at: At,
    alloc: Global,
    r: &mut R,
    rows: &[Left],
) -> Result<(), Fail>
    requires ready { R.ready r.old }
    requires region { IsRegion (R.count r.old) (R.words r.old) }
{
    for row in 0..rows.len() {
        let Left(held, off, word) = rows[row];
        let came = recovered(alloc, r, off)?;
        let due = (held.unwrap_or(came.0), Said::Bytes(8, word));
        same(rt, At { row, ..at }, &came, &due);
    }
    Ok(())
}
