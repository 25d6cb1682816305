//! Runs of calls that take blocks of a heap and give them back, with each answer as it must be.

use crate::heap_calls::Call::{Abort, Block, Commit, Give, Room, Take};
use crate::heap_calls::Said::{
    self, Done, Full, Given, NoBlock, NotBlock, Number, Taken, UndoFull,
};
use crate::heap_calls::fresh_heap;
use crate::heap_rows::{At, Row, make_all};
use std::test::Fail;

/// Calls on a fresh region of so many undo pages and data pages.
struct Table {
    name: &'static str,
    undo: u32,
    pages: u32,
    rows: &'static [Row],
}

static TABLES: [Table; 7] = [
    Table {
        name: "freed gaps are found again until all is put back",
        undo: 1,
        pages: 2,
        rows: &[
            (Take(3), Taken(0)),
            (Take(64), Taken(3)), // byte 192
            (Give(0), Given),
            (Take(4), Taken(67)), // byte 4288
            (Take(3), Taken(0)),
            (Take(58), Full),
            (Take(57), Taken(71)), // byte 4544
            (Give(1), NotBlock), // byte 64
            (Abort, Done),
            (Take(128), Taken(0)),
        ],
    },
    Table {
        name: "a heap of one page is full and free again",
        undo: 1,
        pages: 1,
        rows: &[
            (Take(64), Taken(0)),
            (Take(1), Full),
            (Give(1), NotBlock),
            (Give(0), Given),
            (Commit, Done),
            (Take(1), Taken(0)),
        ],
    },
    Table {
        name: "freed gaps are found again",
        undo: 1,
        pages: 2,
        rows: &[
            (Take(3), Taken(0)),
            (Take(64), Taken(3)),
            (Give(0), Given),
            (Take(4), Taken(67)),
            (Take(3), Taken(0)),
            (Take(57), Taken(71)),
            (Give(1), NotBlock),
        ],
    },
    Table {
        name: "full where no gap is large enough",
        undo: 1,
        pages: 2,
        rows: &[(Take(71), Taken(0)), (Take(58), Full)],
    },
    Table {
        name: "a block may take all pages",
        undo: 2,
        pages: 257,
        rows: &[
            (Take(16447), Taken(0)),
            (Take(1), Taken(16447)),
            (Give(0), UndoFull),
            (Room, Number(502)),
        ],
    },
    Table {
        name: "blocks are listed in order",
        undo: 1,
        pages: 3,
        rows: &[
            (Take(5), Taken(0)),
            (Take(130), Taken(5)),
            (Take(2), Taken(135)),
            (Give(0), Given),
            (Take(1), Taken(0)),
            (Block(0), Said::Block(0, 1)),
            (Block(1), Said::Block(5, 130)),
            (Block(2), Said::Block(135, 2)),
            (Block(3), NoBlock),
        ],
    },
    Table {
        name: "the last unit of 256 pages is found",
        undo: 2,
        pages: 256,
        rows: &[
            (Take(16383), Taken(0)),
            (Take(1), Taken(16383)),
            (Take(1), Full),
        ],
    },
];

#[test]
fn calls_answer_as_their_rows_say(rt: HostRuntime) -> Result<(), Fail> {
    for table in TABLES.iter() {
        let mut r = fresh_heap(
            rt.alloc(),
            table.undo.clamp(1, 2),
            table.pages.clamp(1, 257),
        )?;
        let at = At {
            name: table.name,
            cut: 0,
            row: 0,
        };
        make_all(&rt, at, rt.alloc(), &mut r, table.rows)?;
    }
    Ok(())
}
