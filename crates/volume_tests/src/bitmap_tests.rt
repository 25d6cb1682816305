//! Tests of the bitmap on a volume in memory.

ghost use Rattle.std.specs.Prelude.{◌≡◌, ◌<◌, ◌≤◌, false, length, IfOk};
ghost use Rattle.test_objects.specs.ListVolumes.{list_seen, list_kept, ListSound};
ghost use Rattle.rio_base.specs.Shapes.{HasShape};

use crate::same::same;
use block_alloc::{TakeFail, bitmap_block, free_count, mark, take, unmark};
use rio_base::{Block, BlockList, Blocks, Stopped, VolFail, Volume, VolumeShape};
use std::alloc::Global;
use std::process::Abort;
use std::test::Fail;
use test_objects::{FaultyVolume, ListVolume};

/// A volume of 130 blocks, three of them reserved: its bitmap has two full words and two bits of a third.
const SHAPE: VolumeShape = VolumeShape {
    version: 1,
    blocks: 130,
    inodes: 32,
};

/// A volume whose bitmap has a run of 64 words and one of three, of which the last has two bits.
const TWO_RUNS: VolumeShape = VolumeShape {
    version: 1,
    blocks: 4226,
    inodes: 32,
};

/// A volume of so many blocks with this bitmap.
fn with_bitmap(alloc: Global, blocks: u32, words: &[u64]) -> Result<ListVolume, Fail>
    requires blocks { 1 < blocks }
    requires words { length words.now ≤ 512 }
    ensures sound { IfOk result ListSound }
    ensures count { IfOk result (λ v. (list_seen v).count ≡ blocks) }
    ensures idle { IfOk result (λ v. (list_kept v).updating ≡ false) }
{
    let mut v = ListVolume::new(alloc, blocks, None)?;
    v.store_run(Block(1), None, 0, words)?;
    Ok(v)
}

/// A call of `block_alloc` on a volume. Each reads its bitmap alone.
#[derive(Clone, Copy)]
enum Call {
    Count,
    /// Chooses so many blocks, up to three.
    Take(u32),
}

/// What it answers.
#[derive(Debug, Drop, PartialEq)]
enum Said {
    Free(u32),
    /// How many blocks were chosen, and the first three of them. Where there are fewer, 0 stands for the rest.
    Taken(usize, [u32; 3]),
    NotCounted(VolFail),
    NotTaken(TakeFail),
}

/// The numbers of the first three blocks.
fn numbers(blocks: &BlockList) -> [u32; 3] {
    let blocks = blocks.as_slice();
    let mut first = [0; 3];
    for i in 0..blocks.len().min(3) {
        first[i] = blocks[i].0;
    }
    first
}

/// Makes a call.
fn make<V: Volume>(alloc: Global, v: &mut V, shape: &VolumeShape, call: Call) -> Said
    requires sound { V.sound v.old }
    requires shape { HasShape shape.now (V.seen v.old) }
    ensures sound { V.sound v.new }
    ensures shape { HasShape shape.now (V.seen v.new) }
{
    match call {
        Call::Count => match free_count(v, shape) {
            Ok(free) => Said::Free(free),
            Err(fail) => Said::NotCounted(fail),
        },
        Call::Take(n) => match take(alloc, v, shape, n) {
            Ok(blocks) => Said::Taken(blocks.as_slice().len(), numbers(&blocks)),
            Err(fail) => Said::NotTaken(fail),
        },
    }
}

/// Makes calls, of which each must answer as its row says.
fn make_all<V: Volume>(
    rt: &impl Abort,
    alloc: Global,
    table: &str,
    v: &mut V,
    shape: &VolumeShape,
    rows: &[(Call, Said)],
)
    requires sound { V.sound v.old }
    requires shape { HasShape shape.now (V.seen v.old) }
{
    for row in 0..rows.len() {
        let came = make(alloc, v, shape, rows[row].0);
        same(rt, table, row, &came, &rows[row].1);
    }
}

/// Three words of a bitmap, how many blocks are free, and what taking three answers.
static THREE_WORDS: [([u64; 3], u32, Said); 5] = [
    (
        [u64::MAX, u64::MAX, u64::MAX],
        0,
        Said::NotTaken(TakeFail::NoSpace),
    ),
    ([0b111, 0, 0], 127, Said::Taken(3, [3, 4, 5])),
    (
        [!(1 << 5), !(1 << 63), !1],
        3,
        Said::Taken(3, [5, 127, 128]),
    ),
    ([!(1 << 63), u64::MAX, 0], 3, Said::Taken(3, [63, 128, 129])),
    (
        [u64::MAX, u64::MAX, 0],
        2,
        Said::NotTaken(TakeFail::NoSpace),
    ),
];

#[test]
fn three_lowest_blocks_are_taken(rt: HostRuntime) -> Result<(), Fail> {
    for (row, (words, free, taken)) in THREE_WORDS.iter().enumerate() {
        let mut v = with_bitmap(rt.alloc(), SHAPE.blocks, words)?;
        let count = make(rt.alloc(), &mut v, &SHAPE, Call::Count);
        same(&rt, "three words, counted", row, &count, &Said::Free(*free));
        let came = make(rt.alloc(), &mut v, &SHAPE, Call::Take(3));
        same(&rt, "three words, taken", row, &came, taken);
    }
    Ok(())
}

/// A bitmap of 67 words, of which these are words 0, 63, 64 and 66. All other blocks are used.
fn two_runs(some: [u64; 4]) -> [u64; 67]
    ensures { length result ≡ 67 }
{
    let mut words = [u64::MAX; 67];
    words[0] = some[0];
    words[63] = some[1];
    words[64] = some[2];
    words[66] = some[3];
    words
}

/// Words 0, 63, 64 and 66 of a bitmap, and the three blocks that are free. Word w has blocks 64 * w to 64 * w + 63: words
/// 0 to 63 those below 4,096.
static RUNS: [([u64; 4], [u32; 3]); 3] = [
    ([u64::MAX, u64::MAX, !(1 << 7), 0], [4103, 4224, 4225]),
    ([!(1 << 5), u64::MAX, !1, !2], [5, 4096, 4225]),
    (
        [!(1 << 63), !(1 << 63), !(1 << 63), u64::MAX],
        [63, 4095, 4159],
    ),
];

#[test]
fn blocks_of_both_runs_are_taken(rt: HostRuntime) -> Result<(), Fail> {
    for (row, (words, taken)) in RUNS.iter().enumerate() {
        let mut v = with_bitmap(rt.alloc(), TWO_RUNS.blocks, &two_runs(*words))?;
        let count = make(rt.alloc(), &mut v, &TWO_RUNS, Call::Count);
        same(&rt, "two runs, counted", row, &count, &Said::Free(3));
        let came = make(rt.alloc(), &mut v, &TWO_RUNS, Call::Take(3));
        same(&rt, "two runs, taken", row, &came, &Said::Taken(3, *taken));
    }
    Ok(())
}

/// Marks two blocks and unmarks one, by one update.
#[tactic(auto, using(rio_base::proofs::Bitmap::first_bitmap))]
fn change<V: Volume>(v: &mut V, a: Block, b: Block, unmarked: Block) -> Result<(), VolFail>
    requires sound { V.sound v.old }
    requires shape { HasShape SHAPE (V.seen v.old) }
    requires idle { (V.kept v.old).updating ≡ false }
    requires first { a.0 < 130 }
    requires second { b.0 < 130 }
    requires third { unmarked.0 < 130 }
    ensures sound { V.sound v.new }
    ensures count { (V.seen v.new).count ≡ (V.seen v.old).count }
{
    v.begin()?;
    v.touch(bitmap_block(&SHAPE, unmarked))?;
    mark(v, &SHAPE, a)?;
    mark(v, &SHAPE, b)?;
    unmark(v, &SHAPE, unmarked)?;
    v.commit()?;
    Ok(())
}

#[test]
fn blocks_are_marked_and_unmarked(rt: HostRuntime) -> Result<(), Fail> {
    let mut v = with_bitmap(rt.alloc(), SHAPE.blocks, &[0b10111, 0, 0])?;
    change(&mut v, Block(129), Block(64), Block(4))?;
    let mut words = [9; 3];
    v.read_run(Block(1), None, 0, &mut words)?;
    same(&rt, "marked", 0, &words, &[0b111, 1, 2]);
    Ok(())
}

/// Calls on a volume whose second word fails once.
static SECOND_WORD_FAILS: [(Call, Said); 2] = [
    (Call::Count, Said::NotCounted(VolFail::Fault)),
    (Call::Count, Said::Free(127)),
];

/// Calls on a volume whose first word fails once.
static FIRST_WORD_FAILS: [(Call, Said); 2] = [
    (Call::Take(3), Said::NotTaken(TakeFail::Fault)),
    (Call::Take(3), Said::Taken(3, [3, 4, 5])),
];

/// Calls on a volume that is stopped.
static STOPPED: [(Call, Said); 2] = [
    (Call::Count, Said::NotCounted(VolFail::Stopped)),
    (Call::Take(3), Said::NotTaken(TakeFail::Stopped)),
];

/// Calls on a volume whose 65th call fails. Two blocks are free in the first run of 64 words: they are taken without a look
/// at the second, and the call that fails is the first of the next take.
static SECOND_RUN_FAILS: [(Call, Said); 3] = [
    (Call::Take(2), Said::Taken(2, [5, 4095, 0])),
    (Call::Take(3), Said::NotTaken(TakeFail::Fault)),
    (Call::Count, Said::Free(3)),
];

#[test]
fn a_fault_and_a_stop_are_handed_on(rt: HostRuntime) -> Result<(), Fail> {
    let words = [0b111, 0, 0];
    let mut v = FaultyVolume::new(with_bitmap(rt.alloc(), SHAPE.blocks, &words)?, 2);
    make_all(
        &rt,
        rt.alloc(),
        "the second word fails",
        &mut v,
        &SHAPE,
        &SECOND_WORD_FAILS,
    );
    let mut v = FaultyVolume::new(with_bitmap(rt.alloc(), SHAPE.blocks, &words)?, 1);
    make_all(
        &rt,
        rt.alloc(),
        "the first word fails",
        &mut v,
        &SHAPE,
        &FIRST_WORD_FAILS,
    );
    let mut v = ListVolume::new(rt.alloc(), SHAPE.blocks, Some(0))?;
    let begun = v.begin();
    same(&rt, "it stops", 0, &begun, &Err(Stopped));
    make_all(&rt, rt.alloc(), "it is stopped", &mut v, &SHAPE, &STOPPED);
    Ok(())
}

#[test]
fn the_second_run_is_read_where_it_is_wanted(rt: HostRuntime) -> Result<(), Fail> {
    let words = two_runs([!(1 << 5), !(1 << 63), !1, u64::MAX]);
    let mut v = FaultyVolume::new(with_bitmap(rt.alloc(), TWO_RUNS.blocks, &words)?, 65);
    make_all(
        &rt,
        rt.alloc(),
        "the second run fails",
        &mut v,
        &TWO_RUNS,
        &SECOND_RUN_FAILS,
    );
    Ok(())
}
