//! What no clause says of the host, the source and the sink in memory: that calls with ample memory succeed.

ghost use Rattle.std.specs.Prelude.{◌<◌};

use crate::same::same;
use rio_base::{Failed, Host, Sink, Source, read_from};
use std::alloc::{AllocError, Global};
use test_objects::{MemHost, MemSink, MemSource};

/// A call on a file of the host.
#[derive(Clone, Copy)]
enum Call {
    Put(&'static [u8]),
    Replace(&'static [u8]),
    Write(u64, &'static [u8]),
    Read(u64),
    /// By as many calls as it takes.
    ReadFrom(u64),
    Size,
    Lent,
    Sync,
    Remove,
    /// The next call of the host fails.
    FailNext,
    Faults,
}

/// What it answers. `Read` has how many bytes came, and the room of four 7s that they came into; both calls that read
/// answer so.
#[derive(Debug, Drop, PartialEq)]
enum Said {
    Done,
    Failed,
    Size(Option<u64>),
    Read(usize, [u8; 4]),
    Count(u64),
}

/// The answer of a call that answers nothing else.
fn done(answer: Result<(), Failed>) -> Said {
    match answer {
        Ok(()) => Said::Done,
        Err(Failed) => Said::Failed,
    }
}

/// Reads up to four bytes of a file.
fn read(host: &mut MemHost, name: &String, off: u64) -> Said {
    let mut into = [7; 4];
    match host.read_at(name, off, &mut into) {
        Ok(n) => Said::Read(n, into),
        Err(Failed) => Said::Failed,
    }
}

/// Reads on in a file, until a room of four bytes is full or the file ends.
fn read_on(host: &mut MemHost, name: &String, off: u64) -> Said
    requires { off < 100 }
{
    let mut into = [7; 4];
    match read_from(name, off, &mut into, host) {
        Ok(n) => Said::Read(n, into),
        Err(Failed) => Said::Failed,
    }
}

/// Makes a call on the file of this name.
fn make(host: &mut MemHost, name: &String, call: Call) -> Result<Said, AllocError> {
    let said = match call {
        Call::Put(bytes) => {
            host.put(name, bytes)?;
            Said::Done
        }
        Call::Replace(bytes) => done(host.replace(name, bytes)),
        Call::Write(off, bytes) => done(host.write_at(name, off, bytes)),
        Call::Read(off) => read(host, name, off),
        Call::ReadFrom(off) => read_on(host, name, off.min(99)),
        Call::Size => match host.size(name) {
            Ok(size) => Said::Size(size),
            Err(Failed) => Said::Failed,
        },
        Call::Lent => Said::Size(host.file(name).map(|bytes| bytes.len() as u64)),
        Call::Sync => done(host.sync(name)),
        Call::Remove => {
            host.remove(name);
            Said::Done
        }
        Call::FailNext => {
            host.fail_call(1)?;
            Said::Done
        }
        Call::Faults => Said::Count(host.faults()),
    };
    Ok(said)
}

/// Calls on a host without files, in order: the file, the call and its answer.
static ROWS: [(&str, Call, Said); 24] = [
    ("d", Call::Size, Said::Size(None)),
    ("dd", Call::Put(b"other"), Said::Done),
    ("d", Call::Replace(b"0123456789"), Said::Done),
    ("d", Call::Write(4, b"abc"), Said::Done),
    ("d", Call::Write(11, b"z"), Said::Done),
    ("d", Call::Sync, Said::Done),
    ("d", Call::Read(9), Said::Read(3, [b'9', 0, b'z', 7])),
    ("d", Call::Read(3), Said::Read(4, [b'3', b'a', b'b', b'c'])),
    ("d", Call::Read(12), Said::Read(0, [7, 7, 7, 7])),
    (
        "d",
        Call::ReadFrom(3),
        Said::Read(4, [b'3', b'a', b'b', b'c']),
    ),
    ("d", Call::ReadFrom(10), Said::Read(2, [0, b'z', 7, 7])),
    ("d", Call::ReadFrom(13), Said::Read(0, [7, 7, 7, 7])),
    ("d", Call::Size, Said::Size(Some(12))),
    ("d", Call::Remove, Said::Done),
    ("d", Call::Lent, Said::Size(None)),
    ("d", Call::ReadFrom(0), Said::Read(0, [7, 7, 7, 7])),
    ("d", Call::Sync, Said::Failed),
    ("d", Call::Write(2, b"ab"), Said::Done),
    ("d", Call::ReadFrom(0), Said::Read(4, [0, 0, b'a', b'b'])),
    ("dd", Call::Lent, Said::Size(Some(5))),
    ("dd", Call::Size, Said::Size(Some(5))),
    ("dd", Call::FailNext, Said::Done),
    ("dd", Call::Sync, Said::Failed),
    ("dd", Call::Faults, Said::Count(2)),
];

#[test]
fn files_are_made_changed_and_taken_away(rt: HostRuntime) -> Result<(), AllocError> {
    let mut host = MemHost::new(rt.alloc());
    for (row, (name, call, due)) in ROWS.iter().enumerate() {
        let name = String::from_str(rt.alloc(), name)?;
        same(&rt, "files", row, &make(&mut host, &name, *call)?, due);
    }
    Ok(())
}

/// What a read answers, what a write of its room answers, and the room then. The second call of each fails.
type Piece = (Result<usize, Failed>, Result<usize, Failed>, [u8; 4]);

static PIECES: [Piece; 4] = [
    (Ok(3), Ok(4), [b'1', b'2', b'3', 0]),
    (Err(Failed), Err(Failed), [b'1', b'2', b'3', 0]),
    (Ok(2), Ok(4), [b'4', b'5', b'3', 0]),
    (Ok(0), Ok(4), [b'4', b'5', b'3', 0]),
];

#[test]
fn bytes_are_read_and_written_in_pieces(rt: HostRuntime) -> Result<(), AllocError> {
    let mut source = MemSource::new(rt.alloc(), b"12345", 3)?;
    let mut sink = MemSink::new(rt.alloc());
    let mut into = [0; 4];
    source.fail_call(2)?;
    sink.fail_call(2)?;
    for row in 0..PIECES.len() {
        let read = source.read(&mut into);
        let wrote = sink.write(&into);
        same(&rt, "pieces", row, &(read, wrote, into), &PIECES[row]);
    }
    same(
        &rt,
        "all pieces",
        0,
        &sink.bytes().as_slice(),
        &b"123\x00453\x00453\x00".as_slice(),
    );
    Ok(())
}
