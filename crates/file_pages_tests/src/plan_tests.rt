//! Changes of size that are prepared, row by row: what is taken, freed and edited, and what the inode becomes.

ghost use Rattle.std.specs.Prelude.{◌≤◌};
ghost use Rattle.test_objects.specs.TestVolumes.{IsTestShape};
ghost use Rattle.file_pages_tests.specs.TestFiles.{FilesReady};

use crate::calls::{Answer, Call, make, put};
use crate::compare::{At, all_answered, holds};
use crate::plans::{NEW_SIZE, lowest, page_block, plan_file, plan_node};
use crate::volumes::{FILE, SMALL, with_files};
use inode_table::Inode;
use node_pages::{Edit, SizeChange, SizeFail};
use rio_base::{Block, VolFail, Volume, VolumeShape};
use std::alloc::Global;
use std::process::Abort;
use test_objects::SHAPE;

/// The node that a change is prepared for.
#[derive(Clone, Copy)]
enum Node {
    /// The file, made another size.
    File,
    /// A new node of four pages.
    NewDirectory,
    NewFile,
    NewRegion,
}

/// A number that an inode has.
#[derive(Clone, Copy)]
enum Number {
    /// The block of a page, below 24.
    Page(usize),
    /// The block that has the numbers of further pages.
    Table,
}

/// What is prepared.
#[derive(Clone, Copy)]
struct Plan {
    /// The first of the blocks that are taken, which lie one behind the other, and how many they are.
    taken: (u32, usize),
    freed: &'static [Block],
    edits: &'static [Edit],
    numbers: &'static [(Number, u32)],
}

/// What comes of preparing it.
#[derive(Clone, Copy)]
enum Due {
    Plan(Plan),
    /// It is prepared, in whatever blocks.
    Fits,
    NoSpace,
    TooLarge,
}

/// A change of size to be prepared.
#[derive(Clone, Copy)]
struct Row {
    /// The call that made the file what it is before.
    first: Call,
    node: Node,
    /// How many of the lowest free blocks are to be skipped.
    skip: u32,
    /// How many bytes the node shall have.
    len: u64,
    due: Due,
}

/// Nothing is done to the file before.
const NOTHING: Call = Call::Resize(0);

/// A file of two pages, in the lowest blocks.
const TWO_PAGES: Plan = Plan {
    taken: (4, 2),
    freed: &[],
    edits: &[],
    numbers: &[(Number::Page(0), 4), (Number::Page(1), 5)],
};

/// A file of two pages, behind three blocks that are skipped.
const TWO_PAGES_LATER: Plan = Plan {
    taken: (7, 2),
    freed: &[],
    edits: &[],
    numbers: &[(Number::Page(0), 7), (Number::Page(1), 8)],
};

/// A new node of four pages, behind two blocks that are skipped.
const FOUR_PAGES: Plan = Plan {
    taken: (6, 4),
    freed: &[],
    edits: &[],
    numbers: &[(Number::Page(3), 9)],
};

/// A file of 25 pages. The number of the 25th page is an edit of the new table.
const PAST_THE_INODE: Plan = Plan {
    taken: (4, 26),
    freed: &[],
    edits: &[Edit {
        block: Block(29),
        word: 0,
        value: 28,
    }],
    numbers: &[(Number::Page(23), 27), (Number::Table, 29)],
};

/// A file of three pages cut to its first one.
const CUT: Plan = Plan {
    taken: (0, 0),
    freed: &[Block(5), Block(6)],
    edits: &[],
    numbers: &[],
};

/// The kind of a node.
fn kind_of(node: Node) -> u8
    ensures { (1 ≤ result) × (result ≤ 3) }
{
    match node {
        Node::NewDirectory => 1,
        Node::File | Node::NewFile => 2,
        Node::NewRegion => 3,
    }
}

/// Whether a number of an inode is this block.
fn has_number(inode: &Inode, number: Number, block: u32) -> bool {
    match number {
        Number::Page(p) => match inode.direct.get(p) {
            Some(found) => *found == block,
            None => false,
        },
        Number::Table => inode.indirect == block,
    }
}

/// Whether blocks lie one behind the other from a block on.
fn lie_from(blocks: &[Block], first: u32) -> bool {
    for k in 0..blocks.len() {
        if blocks[k].0 as u64 != first as u64 + k as u64 {
            return false;
        }
    }
    true
}

/// Prepares the change of a row.
fn prepared<V: Volume>(
    alloc: Global,
    v: &mut V,
    shape: &VolumeShape,
    row: &Row,
) -> Result<SizeChange, SizeFail>
    requires sound { V.sound v.old }
    requires files { FilesReady shape.now (V.seen v.old) (V.kept v.old) }
{
    let Ok(Answer::Done(_)) = make(alloc, v, shape, FILE, row.first) else {
        return Err(SizeFail::Stopped);
    };
    let Ok(skip) = lowest(alloc, v, shape, row.skip) else {
        return Err(SizeFail::Fault);
    };
    match row.node {
        Node::File => plan_file(alloc, v, shape, FILE, row.len, &skip),
        node => plan_node(alloc, v, shape, kind_of(node), &skip),
    }
}

/// Whether the inode of a change is as a plan has it.
fn is_inode(inode: &Inode, row: &Row, plan: &Plan) -> bool {
    if inode.kind != kind_of(row.node) || inode.size != row.len {
        return false;
    }
    for (number, block) in plan.numbers {
        if !has_number(inode, *number, *block) {
            return false;
        }
    }
    true
}

/// Whether a change takes, frees and edits what a plan does.
fn is_plan(row: &Row, change: &SizeChange, plan: &Plan) -> bool {
    let (first, count) = plan.taken;
    let taken = change.taken.as_slice();
    if taken.len() != count || !lie_from(taken, first) {
        return false;
    }
    if change.freed.as_slice() != plan.freed {
        return false;
    }
    if change.edits.as_slice() != plan.edits {
        return false;
    }
    is_inode(&change.inode, row, plan)
}

/// Whether a change that is prepared is the one of a row.
fn is_prepared(row: &Row, change: &SizeChange) -> bool {
    match row.due {
        Due::Plan(plan) => is_plan(row, change, &plan),
        Due::Fits => true,
        Due::NoSpace | Due::TooLarge => false,
    }
}

/// Whether a change is refused as it must.
fn is_refused(fail: SizeFail, due: Due) -> bool {
    match fail {
        SizeFail::NoSpace => matches!(due, Due::NoSpace),
        SizeFail::TooLarge => matches!(due, Due::TooLarge),
        SizeFail::Fault | SizeFail::Stopped | SizeFail::Memory => false,
    }
}

/// Whether that comes of preparing the change of a row which must.
fn is_due<V: Volume>(alloc: Global, v: &mut V, shape: &VolumeShape, row: &Row) -> bool
    requires sound { V.sound v.old }
    requires files { FilesReady shape.now (V.seen v.old) (V.kept v.old) }
{
    match prepared(alloc, v, shape, row) {
        Ok(change) => is_prepared(row, &change),
        Err(fail) => is_refused(fail, row.due),
    }
}

/// Prepares the change of a row on a volume of its own.
fn try_row(rt: &impl Abort, alloc: Global, shape: &VolumeShape, at: At, row: &Row)
    requires { IsTestShape shape.now }
{
    let mut v = with_files(rt, alloc, shape);
    let so = is_due(alloc, &mut v, shape, row);
    holds(rt, "what is prepared", at, so);
}

/// Changes of size on a small volume.
static CHANGES: [Row; 9] = [
    Row {
        first: NOTHING,
        node: Node::File,
        skip: 0,
        len: 4097,
        due: Due::Plan(TWO_PAGES),
    },
    Row {
        first: NOTHING,
        node: Node::File,
        skip: 3,
        len: 4097,
        due: Due::Plan(TWO_PAGES_LATER),
    },
    Row {
        first: NOTHING,
        node: Node::NewDirectory,
        skip: 2,
        len: NEW_SIZE,
        due: Due::Plan(FOUR_PAGES),
    },
    Row {
        first: NOTHING,
        node: Node::NewFile,
        skip: 2,
        len: NEW_SIZE,
        due: Due::Plan(FOUR_PAGES),
    },
    Row {
        first: NOTHING,
        node: Node::NewRegion,
        skip: 2,
        len: NEW_SIZE,
        due: Due::Plan(FOUR_PAGES),
    },
    Row {
        first: NOTHING,
        node: Node::File,
        skip: 0,
        len: 98_305,
        due: Due::Plan(PAST_THE_INODE),
    },
    Row {
        first: Call::Write(8192, 1, b'a'),
        node: Node::File,
        skip: 0,
        len: 4096,
        due: Due::Plan(CUT),
    },
    // blocks that are skipped are not space: 33 of 36 are left
    Row {
        first: NOTHING,
        node: Node::File,
        skip: 3,
        len: 4096 * 32,
        due: Due::Fits,
    },
    Row {
        first: NOTHING,
        node: Node::File,
        skip: 3,
        len: 4096 * 33,
        due: Due::NoSpace,
    },
];

/// A change past the largest size.
static TOO_LARGE: Row = Row {
    first: NOTHING,
    node: Node::File,
    skip: 0,
    len: 4_292_609,
    due: Due::TooLarge,
};

#[test]
fn changes_of_size_are_prepared_in_the_lowest_blocks(rt: HostRuntime) {
    let table = "the lowest blocks";
    for (k, change) in CHANGES.iter().enumerate() {
        let row = k as u64;
        try_row(&rt, rt.alloc(), &SMALL, At { table, row }, change);
    }
    let at = At {
        table: "a larger size",
        row: 0,
    };
    try_row(&rt, rt.alloc(), &SHAPE, at, &TOO_LARGE);
}

/// Pages of a file of 25 pages, and their blocks.
static PAGES: [(u32, Option<Block>); 5] = [
    (0, Some(Block(4))),
    (1, Some(Block(5))),
    (23, Some(Block(27))),
    (24, Some(Block(28))),
    (25, None),
];

/// Whether a page lies in the block in which it must.
fn is_block(came: Result<Option<Block>, VolFail>, due: Option<Block>) -> bool {
    match (came, due) {
        (Ok(Some(block)), Some(wanted)) => block.0 == wanted.0,
        (Ok(None), None) => true,
        _ => false,
    }
}

/// Looks for the blocks of pages of a file, up to the first that lies elsewhere, and tells which that is, if any. The first
/// one too where the file is not made.
fn check_pages<V: Volume>(alloc: Global, v: &mut V) -> Option<usize>
    requires sound { V.sound v.old }
    requires files { FilesReady SMALL (V.seen v.old) (V.kept v.old) }
{
    let Ok(Answer::Done(_)) = put(alloc, v, &SMALL, FILE, 98_304, b"a") else {
        return Some(0);
    };
    for k in 0..PAGES.len() {
        let (page, due) = PAGES[k];
        if !is_block(page_block(v, &SMALL, FILE, page), due) {
            return Some(k);
        }
    }
    None
}

#[test]
fn pages_lie_in_the_blocks_that_they_took(rt: HostRuntime) {
    let mut v = with_files(&rt, rt.alloc(), &SMALL);
    all_answered(&rt, "pages", check_pages(rt.alloc(), &mut v));
}
