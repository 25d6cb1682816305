//! Calls on transactions that are not cut, with each answer as it must be.

ghost use Rattle.std.specs.Prelude.{◌≤◌};
ghost use Rattle.test_objects.specs.FaultyRegions.{FaultyReady, faulty_content};
ghost use Rattle.region_tests.specs.TestRegions.{Sound};

use crate::region_calls::Call::{Abort, Alloc, Begin, Commit, Free, Get, List, Put, Range};
use crate::region_calls::Said::{Busy, Bytes, Done, Failed, Number, Open};
use crate::region_calls::{INO, fresh};
use crate::region_rows::{At, Left, Row, make_all, recover_all, same};
use rio_base::RegionWords;
use std::alloc::{AllocError, Global};
use std::process;
use std::test::Fail;
use test_objects::FaultyRegion;
use vista_region::OpenTable;
use vista_region::TxnFail::{
    HeapFull, NoTransaction, NotAligned, NotBlock, NotCovered, OutOfRange, UndoFull,
};

/// Calls on a fresh region of one undo page and so many data pages.
struct Table {
    name: &'static str,
    pages: u32,
    rows: &'static [Row],
    /// What is left of them where the region is then recovered.
    left: &'static [Left],
}

static TABLES: [Table; 5] = [
    Table {
        name: "ranges and words are refused in order",
        pages: 2,
        rows: &[
            (Put(0, 1), Failed(NoTransaction)),
            (Commit, Failed(NoTransaction)),
            (Abort, Failed(NoTransaction)),
            (Begin, Done),
            (Begin, Busy),
            (Put(0, 1), Failed(NotCovered)),
            (Put(4, 1), Failed(NotAligned)),
            (Range(8192, 8), Failed(OutOfRange)),
            (Range(u64::MAX - 7, 8), Failed(OutOfRange)),
            (Range(0, 7), Failed(NotAligned)),
            (Range(0, 4080), Failed(UndoFull)),
            (Range(0, 4072), Done),
            (Range(0, 0), Failed(UndoFull)),
            (Put(4064, 9), Number(8)),
            (Put(4072, 9), Failed(NotCovered)),
            (Put(8192, 9), Failed(OutOfRange)),
        ],
        left: &[],
    },
    Table {
        name: "gaps are found again until all is put back",
        pages: 2,
        rows: &[
            (Begin, Done),
            (Alloc(3), Number(0)),
            (Alloc(64), Number(192)),
            (Free(0), Done),
            (Alloc(4), Number(4288)),
            (Alloc(3), Number(0)),
            (Alloc(58), Failed(HeapFull)),
            (Alloc(1 << 40), Failed(HeapFull)),
            (Alloc(57), Number(4544)),
            (Free(64), Failed(NotBlock)),
            (Free(u64::MAX - 63), Failed(NotBlock)),
            (Abort, Done),
            (Begin, Done),
            (Alloc(128), Number(0)),
        ],
        left: &[],
    },
    Table {
        name: "a heap of one page is full and free again",
        pages: 1,
        rows: &[
            (Begin, Done),
            (Alloc(64), Number(0)),
            (Alloc(1), Failed(HeapFull)),
            (Free(64), Failed(NotBlock)),
            (Free(1), Failed(NotBlock)),
            (Free(0), Done),
            (Commit, Done),
            (Begin, Done),
            (Alloc(1), Number(0)),
        ],
        left: &[],
    },
    Table {
        name: "bytes are read at any offset",
        pages: 1,
        rows: &[
            (Begin, Done),
            (Range(0, 8), Done),
            (Put(0, 0x1111111111111111), Number(8)),
            (Range(0, 8), Done),
            (Put(0, 0x2222222222222222), Number(8)),
            (Get(3, 7), Bytes(7, 0x2222222222)),
            (Get(4096, 0), Bytes(0, 0)),
            (Get(4095, 2), Failed(OutOfRange)),
        ],
        left: &[],
    },
    Table {
        name: "a word changed twice is put back once",
        pages: 1,
        rows: &[
            (Begin, Done),
            (Range(0, 8), Done),
            (Put(0, 0x1111111111111111), Number(8)),
            (Range(0, 8), Done),
            (Put(0, 0x2222222222222222), Number(8)),
            (List, Open(1, 7)),
            (Get(0, 8), Bytes(8, 0x2222222222222222)),
        ],
        left: &[Left(Some(true), 0, 0), Left(Some(false), 0, 0)],
    },
];

/// Makes the calls of a table, and recovers the region for each row of what is left.
fn run(rt: &impl process::Abort, alloc: Global, calls: &Table) -> Result<(), Fail> {
    let at = At {
        name: calls.name,
        cut: 0,
        row: 0,
    };
    let mut table = OpenTable::new(alloc)?;
    let mut r = fresh(alloc, &table, 1, calls.pages.clamp(1, 1000))?;
    make_all(rt, at, alloc, &mut table, &mut r, calls.rows)?;
    recover_all(rt, at, alloc, &mut r, calls.left)
}

#[test]
fn calls_answer_as_their_rows_say(rt: HostRuntime) -> Result<(), Fail> {
    for calls in TABLES.iter() {
        run(&rt, rt.alloc(), calls)?;
    }
    Ok(())
}

/// The calls before a long run of bytes is put.
static BEFORE: [Row; 2] = [(Begin, Done), (Range(0, 1_048_576), Done)];

/// Puts bytes at offset 0, in one transaction, and reads them. Answers whether they are the same.
fn put_and_read<R: RegionWords>(
    alloc: Global,
    table: &mut OpenTable,
    r: &mut R,
    bytes: &[u8],
) -> Result<bool, Fail>
    requires ready { R.ready r.old }
    requires sound { Sound table.old 7 (R.count r.old) (R.words r.old) }
{
    if table.put(r, INO, 0, bytes)? != bytes.len() as u64 {
        return Ok(false);
    }
    table.commit(r, INO)?;
    let read = table.get(alloc, r, INO, 0, bytes.len() as u64)?;
    Ok(read.as_slice() == bytes)
}

/// Bytes from 0 to 250, again and again.
fn long_run(alloc: Global) -> Result<Vec<u8>, AllocError> {
    let mut bytes = Vec::with_capacity(alloc, 1_048_576)?;
    for n in 0..1_048_576u32 {
        bytes.push((n % 251) as u8)?;
    }
    Ok(bytes)
}

/// Puts a long run of bytes and reads it.
fn put_long(
    rt: &impl process::Abort,
    alloc: Global,
    table: &mut OpenTable,
    r: &mut FaultyRegion,
) -> Result<(), Fail>
    requires ready { FaultyReady r.old }
    requires sound { Sound table.old 7 r.old.count (faulty_content r.old) }
{
    let at = At {
        name: "a long run",
        cut: 0,
        row: 0,
    };
    make_all(rt, at, alloc, table, r, &BEFORE)?;
    let bytes = long_run(alloc)?;
    let is_same = put_and_read(alloc, table, r, bytes.as_slice())?;
    same(rt, at, &is_same, &true);
    Ok(())
}

#[test]
fn long_runs_are_put_and_read(rt: HostRuntime) -> Result<(), Fail> {
    let mut table = OpenTable::new(rt.alloc())?;
    let mut r = fresh(rt.alloc(), &table, 257, 256)?;
    put_long(&rt, rt.alloc(), &mut table, &mut r)
}
