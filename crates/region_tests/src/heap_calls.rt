//! Calls on a region's heap, and what each answers. After each that was not cut the map is of blocks alone, and so is that
//! of before the records.

ghost use Rattle.std.specs.Prelude.{◌≡◌, ◌≤◌, IfOk, OnOk};
ghost use Rattle.rio_model.specs.Undo.{IsRegion};
ghost use Rattle.test_objects.specs.FaultyRegions.{FaultyReady, faulty_content};
ghost use Rattle.region_tests.specs.TestRegions.{IsHeap};

use recov_alloc::{HeapFail, allocate, blocks, release};
use rio_base::{ReadFail, RegionWords, VolFail};
use std::alloc::{AllocError, Global};
use test_objects::FaultyRegion;
use undo_list::{drop_all, rewind, room};

/// A call.
#[derive(Clone, Copy)]
pub(crate) enum Call {
    /// Takes a block of so many units.
    Take(u32),
    /// Gives the block back that starts at this unit.
    Give(u32),
    /// Puts back what was before the records.
    Abort,
    /// Keeps what stands, and drops the records.
    Commit,
    /// How many undo words are free.
    Room,
    /// Which block stands at this place of the list of blocks.
    Block(usize),
}

/// What a call answers where no call below it fails.
#[derive(Clone, Copy, Debug, PartialEq, Eq)]
pub(crate) enum Said {
    Done,
    /// A block was taken, and starts at this unit.
    Taken(u32),
    Given,
    Number(u32),
    /// The first unit of a block, and its units.
    Block(u32, u32),
    NoBlock,
    Full,
    NotBlock,
    UndoFull,
    NoMemory,
}

/// A fresh region of so many undo pages and data pages.
pub(crate) fn fresh_heap(alloc: Global, undo: u32, pages: u32) -> Result<FaultyRegion, AllocError>
    requires undo { (1 ≤ undo) × (undo ≤ 1000) }
    requires pages { (1 ≤ pages) × (pages ≤ 1000) }
    ensures ready { IfOk result FaultyReady }
    ensures heap { IfOk result (λ r. IsHeap r.count (faulty_content r)) }
{
    let r = FaultyRegion::fresh(alloc, undo, pages)?;
    Ok(r)
}

/// Takes a block of `units` units.
fn take<R: RegionWords>(r: &mut R, units: u32) -> Result<Said, HeapFail>
    requires ready { R.ready r.old }
    requires heap { IsHeap (R.count r.old) (R.words r.old) }
    requires units { 1 ≤ units }
    ensures heap { OnOk result (IsHeap (R.count r.new) (R.words r.new)) }
    ensures region { IsRegion (R.count r.new) (R.words r.new) }
    ensures ready { R.ready r.new }
{
    match allocate(r, units) {
        Ok(at) => Ok(Said::Taken(at)),
        Err(HeapFail::Full) => Ok(Said::Full),
        Err(HeapFail::UndoFull) => Ok(Said::UndoFull),
        Err(fail) => Err(fail),
    }
}

/// Gives the block back that starts at `unit`.
fn give<R: RegionWords>(r: &mut R, unit: u32) -> Result<Said, HeapFail>
    requires ready { R.ready r.old }
    requires heap { IsHeap (R.count r.old) (R.words r.old) }
    ensures heap { OnOk result (IsHeap (R.count r.new) (R.words r.new)) }
    ensures region { IsRegion (R.count r.new) (R.words r.new) }
    ensures ready { R.ready r.new }
{
    match release(r, unit) {
        Ok(()) => Ok(Said::Given),
        Err(HeapFail::NotBlock) => Ok(Said::NotBlock),
        Err(HeapFail::UndoFull) => Ok(Said::UndoFull),
        Err(fail) => Err(fail),
    }
}

/// Puts back what was before the records.
fn abort<R: RegionWords>(r: &mut R) -> Result<Said, VolFail>
    requires ready { R.ready r.old }
    requires heap { IsHeap (R.count r.old) (R.words r.old) }
    ensures heap { OnOk result (IsHeap (R.count r.new) (R.words r.new)) }
    ensures region { IsRegion (R.count r.new) (R.words r.new) }
    ensures ready { R.ready r.new }
{
    rewind(r)?;
    Ok(Said::Done)
}

/// Keeps what stands, and drops the records.
fn commit<R: RegionWords>(r: &mut R) -> Result<Said, VolFail>
    requires ready { R.ready r.old }
    requires heap { IsHeap (R.count r.old) (R.words r.old) }
    ensures heap { OnOk result (IsHeap (R.count r.new) (R.words r.new)) }
    ensures region { IsRegion (R.count r.new) (R.words r.new) }
    ensures ready { R.ready r.new }
{
    drop_all(r)?;
    Ok(Said::Done)
}

/// How many undo words are free.
fn free_words<R: RegionWords>(r: &mut R) -> Result<Said, VolFail>
    requires ready { R.ready r.old }
    requires heap { IsHeap (R.count r.old) (R.words r.old) }
    ensures heap { IsHeap (R.count r.new) (R.words r.new) }
    ensures region { IsRegion (R.count r.new) (R.words r.new) }
    ensures ready { R.ready r.new }
{
    Ok(Said::Number(room(r)?))
}

/// The block at a place of the list of blocks.
fn block<R: RegionWords>(alloc: Global, r: &mut R, n: usize) -> Result<Said, HeapFail>
    requires ready { R.ready r.old }
    requires heap { IsHeap (R.count r.old) (R.words r.old) }
    ensures heap { OnOk result (IsHeap (R.count r.new) (R.words r.new)) }
    ensures region { IsRegion (R.count r.new) (R.words r.new) }
    ensures ready { R.ready r.new }
{
    match blocks(alloc, r) {
        Ok(list) => Ok(block_in(list.as_slice(), n)),
        Err(ReadFail::Memory) => Ok(Said::NoMemory),
        Err(ReadFail::Fault) => Err(HeapFail::Fault),
        Err(ReadFail::Stopped) => Err(HeapFail::Stopped),
    }
}

fn block_in(list: &[(u32, u32)], n: usize) -> Said {
    if n < list.len() {
        let (unit, units) = list[n];
        return Said::Block(unit, units);
    }
    Said::NoBlock
}

/// Makes a call. The error is that a call below was cut.
pub(crate) fn make<R: RegionWords>(alloc: Global, r: &mut R, call: Call) -> Result<Said, HeapFail>
    requires ready { R.ready r.old }
    requires heap { IsHeap (R.count r.old) (R.words r.old) }
    ensures heap { OnOk result (IsHeap (R.count r.new) (R.words r.new)) }
    ensures region { IsRegion (R.count r.new) (R.words r.new) }
    ensures ready { R.ready r.new }
{
    match call {
        Call::Take(units) => take(r, units.max(1)),
        Call::Give(unit) => give(r, unit),
        Call::Abort => Ok(abort(r)?),
        Call::Commit => Ok(commit(r)?),
        Call::Room => Ok(free_words(r)?),
        Call::Block(n) => block(alloc, r, n),
    }
}
