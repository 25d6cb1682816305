//! Rows of calls on a heap, with the answers that must come.

ghost use Rattle.std.specs.Prelude.{OnOk};
ghost use Rattle.rio_model.specs.Undo.{IsRegion};
ghost use Rattle.region_tests.specs.TestRegions.{IsHeap};

use crate::heap_calls::{Call, Said, make};
use recov_alloc::HeapFail;
use rio_base::RegionWords;
use std::alloc::Global;
use std::fmt::Debug;
use std::process::Abort;

/// A call, and what it must answer.
pub(crate) type Row = (Call, Said);

/// Where a row stands.
#[derive(Clone, Copy)]
pub(crate) struct At {
    pub(crate) name: &'static str,
    /// Which call on the region's words is cut before, or 0.
    pub(crate) cut: u64,
    pub(crate) row: usize,
}

/// What came is what is due.
pub(crate) fn same<T: PartialEq + Debug>(rt: &impl Abort, at: At, came: &T, due: &T) {
    let At { name, cut, row } = at;
    assert_eq!(rt; came, due, "{name}, cut at {cut}, row {row}");
}

/// Makes the calls of rows, of which each must answer as its row says. The error is that a call below was cut.
pub(crate) fn make_all<R: RegionWords>(
    rt: &impl Abort,
    at: At,
    alloc: Global,
    r: &mut R,
    rows: &[Row],
) -> Result<(), HeapFail>
    requires ready { R.ready r.old }
    requires heap { IsHeap (R.count r.old) (R.words r.old) }
    ensures heap { OnOk result (IsHeap (R.count r.new) (R.words r.new)) }
    ensures region { IsRegion (R.count r.new) (R.words r.new) }
    ensures ready { R.ready r.new }
{
    for row in 0..rows.len() {
        let (call, due) = rows[row];
        let came = make(alloc, r, call)?;
        same(rt, At { row, ..at }, &came, &due);
    }
    Ok(())
}
