//! The loop of lines over a lamp: each end but the input limit and want of memory.

use crate::lamp::Lamp;
use crate::same::same;
use line_loop::{ServeEnd, serve_until_end};
use std::alloc::Global;
use std::process::Abort;
use std::test::Fail;
use test_objects::{MemSink, MemSource};

/// An input, in pieces of so many bytes, the call of the source and that of the sink that fail, if not 0, and how serving
/// ends and what it wrote.
type Row = (&'static str, usize, u64, u64, ServeEnd, &'static str);

static ROWS: [Row; 13] = [
    ("", 7, 0, 0, ServeEnd::End, ""),
    (
        "turn\nturn\nturn\n",
        7,
        0,
        0,
        ServeEnd::End,
        "on\noff\non\n",
    ),
    (
        "turn\nturn\nturn\n",
        1,
        0,
        0,
        ServeEnd::End,
        "on\noff\non\n",
    ),
    // A last line without an end.
    ("turn\nturn", 99, 0, 0, ServeEnd::End, "on\noff\n"),
    // Lines that are no requests.
    (
        "tur\n\nturn \nturn\nturnturn",
        3,
        0,
        0,
        ServeEnd::End,
        "?\n?\n?\non\n?\n",
    ),
    // The machine stops: what comes behind is not answered.
    ("turn\nhalt\nturn\n", 99, 0, 0, ServeEnd::Stopped, "on\n"),
    ("halt", 99, 0, 0, ServeEnd::Stopped, ""),
    // The source fails: a line that it has not ended is not answered.
    ("turn\nturn\n", 5, 1, 0, ServeEnd::SourceFault, ""),
    ("turn\nturn\n", 5, 2, 0, ServeEnd::SourceFault, "on\n"),
    ("turn\nturn\n", 7, 2, 0, ServeEnd::SourceFault, "on\n"),
    // The sink refuses a reply: no further line is answered.
    ("turn\nturn\n", 99, 0, 1, ServeEnd::SinkFault, ""),
    ("turn\nturn\nturn\n", 99, 0, 2, ServeEnd::SinkFault, "on\n"),
    // The sink fails at a reply that does not come.
    ("turn\nhalt\n", 99, 0, 2, ServeEnd::Stopped, "on\n"),
];

/// How serving a lamp ends, and what it wrote. Replies may wait with `gathers`.
fn served(alloc: Global, row: &Row, gathers: bool) -> Result<(ServeEnd, Vec<u8>), Fail> {
    let mut lamp = Lamp::new();
    let mut source = MemSource::new(alloc, row.0.as_bytes(), row.1.max(1))?;
    if row.2 > 0 {
        source.fail_call(row.2)?;
    }
    let mut sink = MemSink::new(alloc);
    if row.3 > 0 {
        sink.fail_call(row.3)?;
    }
    let end = serve_until_end(alloc, &mut lamp, &mut source, &mut sink, gathers);
    Ok((end, sink.bytes().clone()?))
}

/// No row has two replies of which the first may wait, so each ends the same whether replies may.
fn all_rows(rt: &impl Abort, alloc: Global, gathers: bool) -> Result<(), Fail> {
    for row in 0..ROWS.len() {
        let (end, written) = served(alloc, &ROWS[row], gathers)?;
        same(rt, "rows", row, &end, &ROWS[row].4);
        same(
            rt,
            "rows",
            row,
            &written.as_slice(),
            &ROWS[row].5.as_bytes(),
        );
    }
    Ok(())
}

#[test]
fn lines_are_served_to_each_end(rt: HostRuntime) -> Result<(), Fail> {
    all_rows(&rt, rt.alloc(), false)?;
    all_rows(&rt, rt.alloc(), true)
}
