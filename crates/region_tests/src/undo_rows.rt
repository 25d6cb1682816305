//! Rows of calls on an undo list, with the answers that must come.

ghost use Rattle.rio_model.specs.Undo.{IsRegion};

use crate::undo_calls::{Call, Said, make};
use rio_base::RegionWords;
use std::fmt::Debug;
use std::process::Abort;

/// A call, and what it must answer.
pub(crate) type Row = (Call, Said);

/// Where a row stands.
#[derive(Clone, Copy)]
pub(crate) struct At {
    pub(crate) table: &'static str,
    /// Which call on the region's words is cut before, or 0.
    pub(crate) cut: u64,
    pub(crate) row: usize,
}

/// What came is what is due.
pub(crate) fn same<T: PartialEq + Debug>(rt: &impl Abort, at: At, came: &T, due: &T) {
    let At { table, cut, row } = at;
    assert_eq!(rt; came, due, "{table}, cut at {cut}, row {row}");
}

/// Makes the calls of rows, of which each must answer as its row says.
pub(crate) fn make_all<R: RegionWords>(
    rt: &impl Abort,
    table: &'static str,
    cut: u64,
    r: &mut R,
    rows: &[Row],
)
    requires ready { R.ready r.old }
    requires region { IsRegion (R.count r.old) (R.words r.old) }
    ensures ready { R.ready r.new }
    ensures region { IsRegion (R.count r.new) (R.words r.new) }
{
    for row in 0..rows.len() {
        let (call, due) = rows[row];
        let came = make(r, call);
        same(rt, At { table, cut, row }, &came, &due);
    }
}
