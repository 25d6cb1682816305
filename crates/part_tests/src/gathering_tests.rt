//! Replies that wait for each other: in how many calls of the sink they are written, and where a run ends at which it refuses
//! one.

use crate::bounded::Bounded;
use crate::lamp::Lamp;
use crate::same::same;
use line_loop::{ServeEnd, serve_until_end};
use std::alloc::Global;
use std::process::Abort;
use std::test::Fail;
use test_objects::MemSource;

/// An input, in pieces of so many bytes, how serving ends and what it writes, and in how many calls where replies may wait and
/// where none does.
type Row = (&'static str, usize, ServeEnd, &'static str, u64, u64);

static ROWS: [Row; 9] = [
    // Looks wait for each other until the input is read on.
    (
        "look\nlook\nlook\n",
        99,
        ServeEnd::End,
        "off\noff\noff\n",
        1,
        3,
    ),
    // What waits is written before a line turns the lamp, and that reply at once.
    (
        "look\nlook\nlook\nturn\n",
        99,
        ServeEnd::End,
        "off\noff\noff\non\n",
        2,
        4,
    ),
    (
        "look\nturn\nlook\nturn\nlook\n",
        99,
        ServeEnd::End,
        "off\non\non\noff\noff\n",
        5,
        5,
    ),
    (
        "turn\nlook\nlook\n",
        99,
        ServeEnd::End,
        "on\non\non\n",
        2,
        3,
    ),
    // A line that is no request changes nothing.
    (
        "look\nlok\nlook\n\n",
        99,
        ServeEnd::End,
        "off\n?\noff\n?\n",
        1,
        4,
    ),
    // Two lines come at a time, or a line and a part of one.
    (
        "look\nlook\nlook\nlook\n",
        10,
        ServeEnd::End,
        "off\noff\noff\noff\n",
        2,
        4,
    ),
    (
        "look\nlook\nlook\n",
        7,
        ServeEnd::End,
        "off\noff\noff\n",
        3,
        3,
    ),
    // A last line without an end.
    (
        "look\nlook\nlook",
        99,
        ServeEnd::End,
        "off\noff\noff\n",
        2,
        3,
    ),
    // The machine stops: what waits is written before.
    (
        "look\nlook\nhalt\nlook\n",
        99,
        ServeEnd::Stopped,
        "off\noff\n",
        1,
        2,
    ),
];

/// What serving a lamp came to.
#[derive(Drop)]
struct Came {
    end: ServeEnd,
    sink: Bounded,
}

/// Serves an input in pieces, over a sink that takes so many bytes.
fn served(
    alloc: Global,
    input: &[u8],
    piece: usize,
    most: usize,
    gathers: bool,
) -> Result<Came, Fail> {
    let mut lamp = Lamp::new();
    let mut source = MemSource::new(alloc, input, piece.max(1))?;
    let mut sink = Bounded::new(alloc, most);
    let end = serve_until_end(alloc, &mut lamp, &mut source, &mut sink, gathers);
    Ok(Came { end, sink })
}

/// A row, over a sink that takes all.
fn same_row(
    rt: &impl Abort,
    alloc: Global,
    at: usize,
    row: &Row,
    gathers: bool,
) -> Result<(), Fail> {
    let came = served(alloc, row.0.as_bytes(), row.1, usize::MAX, gathers)?;
    same(rt, "rows", at, &came.end, &row.2);
    same(rt, "rows", at, &came.sink.bytes(), &row.3.as_bytes());
    let calls = if gathers { row.4 } else { row.5 };
    same(rt, "rows", at, &came.sink.calls(), &calls);
    Ok(())
}

#[test]
fn replies_are_written_in_few_calls(rt: HostRuntime) -> Result<(), Fail> {
    for (at, row) in ROWS.iter().enumerate() {
        same_row(&rt, rt.alloc(), at, row, true)?;
        same_row(&rt, rt.alloc(), at, row, false)?;
    }
    Ok(())
}

/// Lines of which some wait, and what is written of them.
const LINES: &str = "look\nlook\nturn\nlook\nlo\nlook\nturn\nlook\n";

const WRITTEN: &str = "off\noff\non\non\n?\non\noff\noff\n";

#[test]
fn sink_refuses_each_byte(rt: HostRuntime) -> Result<(), Fail> {
    let all = WRITTEN.as_bytes();
    for most in 0..all.len() {
        let came = served(rt.alloc(), LINES.as_bytes(), 99, most, true)?;
        same(&rt, "bytes", most, &came.end, &ServeEnd::SinkFault);
        same(&rt, "bytes", most, &came.sink.bytes(), &&all[..most]);
    }
    Ok(())
}

/// More replies than the room holds are written as it is full, 1,024 of these, and the rest at the end.
#[test]
fn full_room_is_written(rt: HostRuntime) -> Result<(), Fail> {
    let mut lines: Vec<u8> = Vec::new(rt.alloc());
    let mut due: Vec<u8> = Vec::new(rt.alloc());
    for _ in 0..1100 {
        lines.extend_from_slice(b"look\n")?;
        due.extend_from_slice(b"off\n")?;
    }
    let came = served(rt.alloc(), lines.as_slice(), 131_072, usize::MAX, true)?;
    same(&rt, "full", 0, &came.end, &ServeEnd::End);
    same(&rt, "full", 0, &came.sink.bytes(), &due.as_slice());
    same(&rt, "full", 0, &came.sink.calls(), &2);
    Ok(())
}
