//! Calls on a region and its transaction, and what each answers.

ghost use Rattle.std.specs.Prelude.{◌≡◌, ◌≤◌, IfOk, IsErrOf, OnOk};
ghost use Rattle.rio_model.specs.Undo.{IsRegion};
ghost use Rattle.test_objects.specs.FaultyRegions.{FaultyReady, faulty_content};
ghost use Rattle.vista_region.specs.Ends.{Fits};
ghost use Rattle.region_tests.specs.TestRegions.{Sound};

use rio_base::{Ino, RegionWords};
use std::alloc::{AllocError, Global};
use std::test::Fail;
use test_objects::FaultyRegion;
use vista_region::{BeginFail, GetFail, OpenTable, TxnFail, recover};

/// The region of these tests.
pub(crate) const INO: Ino = Ino(7);

/// A call on the region and its transaction.
#[derive(Clone, Copy)]
pub(crate) enum Call {
    Begin,
    /// An offset and a length.
    Range(u64, u64),
    /// One word, at an offset.
    Put(u64, u64),
    /// So many units.
    Alloc(u64),
    /// The offset of a block.
    Free(u64),
    Commit,
    Abort,
    /// An offset and a length.
    Get(u64, u64),
    /// Which transactions are open.
    List,
}

/// What a call answers where it is not stopped.
#[derive(Clone, Copy, Debug, PartialEq, Eq)]
pub(crate) enum Said {
    Done,
    Number(u64),
    /// How many bytes, and the word of which the first of them are the low bytes.
    Bytes(u64, u64),
    /// How many transactions are open, and the region of the first.
    Open(usize, u32),
    Busy,
    NoMemory,
    Failed(TxnFail),
}

/// A fresh region of so many undo pages and data pages, for this table.
pub(crate) fn fresh(
    alloc: Global,
    _table: &OpenTable,
    undo: u32,
    pages: u32,
) -> Result<FaultyRegion, AllocError>
    requires undo { (1 ≤ undo) × (undo ≤ 1000) }
    requires pages { (1 ≤ pages) × (pages ≤ 1000) }
    ensures ready { IfOk result FaultyReady }
    ensures sound { IfOk result (λ r. Sound _table.now 7 r.count (faulty_content r)) }
{
    let r = FaultyRegion::fresh(alloc, undo, pages)?;
    Ok(r)
}

/// Opens a transaction on the region.
fn begin<R: RegionWords>(table: &mut OpenTable, _r: &R) -> Said
    requires sound { Sound table.old 7 (R.count _r.now) (R.words _r.now) }
    ensures sound { Sound table.new 7 (R.count _r.now) (R.words _r.now) }
{
    match table.begin(INO) {
        Ok(()) => Said::Done,
        Err(BeginFail::Busy) => Said::Busy,
        Err(BeginFail::Memory) => Said::NoMemory,
    }
}

/// What a call that answers nothing said.
fn done(answer: Result<(), TxnFail>) -> Result<Said, TxnFail>
    ensures { OnOk result (IsErrOf answer TxnFail.Stopped → ⊥) }
{
    match answer {
        Ok(()) => Ok(Said::Done),
        Err(TxnFail::Stopped) => Err(TxnFail::Stopped),
        Err(fail) => Ok(Said::Failed(fail)),
    }
}

/// What a call that answers a number said.
fn number(answer: Result<u64, TxnFail>) -> Result<Said, TxnFail>
    ensures { OnOk result (IsErrOf answer TxnFail.Stopped → ⊥) }
{
    match answer {
        Ok(n) => Ok(Said::Number(n)),
        Err(TxnFail::Stopped) => Err(TxnFail::Stopped),
        Err(fail) => Ok(Said::Failed(fail)),
    }
}

/// Adds a range.
fn range<R: RegionWords>(
    table: &mut OpenTable,
    r: &mut R,
    off: u64,
    len: u64,
) -> Result<Said, TxnFail>
    requires ready { R.ready r.old }
    requires sound { Sound table.old 7 (R.count r.old) (R.words r.old) }
    ensures sound { OnOk result (Sound table.new 7 (R.count r.new) (R.words r.new)) }
    ensures region { IsRegion (R.count r.new) (R.words r.new) }
    ensures ready { R.ready r.new }
{
    let answer = table.set_range(r, INO, off, len);
    done(answer)
}

/// Puts a word.
fn put<R: RegionWords>(
    table: &mut OpenTable,
    r: &mut R,
    off: u64,
    word: u64,
) -> Result<Said, TxnFail>
    requires ready { R.ready r.old }
    requires sound { Sound table.old 7 (R.count r.old) (R.words r.old) }
    ensures sound { OnOk result (Sound table.new 7 (R.count r.new) (R.words r.new)) }
    ensures region { IsRegion (R.count r.new) (R.words r.new) }
    ensures ready { R.ready r.new }
{
    let answer = table.put(r, INO, off, &word.to_le_bytes());
    number(answer)
}

/// Takes a block.
fn take<R: RegionWords>(table: &mut OpenTable, r: &mut R, units: u64) -> Result<Said, TxnFail>
    requires ready { R.ready r.old }
    requires sound { Sound table.old 7 (R.count r.old) (R.words r.old) }
    ensures sound { OnOk result (Sound table.new 7 (R.count r.new) (R.words r.new)) }
    ensures region { IsRegion (R.count r.new) (R.words r.new) }
    ensures ready { R.ready r.new }
{
    let answer = table.allocate(r, INO, units.max(1));
    number(answer)
}

/// Gives a block back.
fn free<R: RegionWords>(table: &mut OpenTable, r: &mut R, at: u64) -> Result<Said, TxnFail>
    requires ready { R.ready r.old }
    requires sound { Sound table.old 7 (R.count r.old) (R.words r.old) }
    ensures sound { OnOk result (Sound table.new 7 (R.count r.new) (R.words r.new)) }
    ensures region { IsRegion (R.count r.new) (R.words r.new) }
    ensures ready { R.ready r.new }
{
    let answer = table.release(r, INO, at);
    done(answer)
}

/// Commits.
fn commit<R: RegionWords>(table: &mut OpenTable, r: &mut R) -> Result<Said, TxnFail>
    requires ready { R.ready r.old }
    requires sound { Sound table.old 7 (R.count r.old) (R.words r.old) }
    ensures sound { OnOk result (Sound table.new 7 (R.count r.new) (R.words r.new)) }
    ensures region { IsRegion (R.count r.new) (R.words r.new) }
    ensures ready { R.ready r.new }
{
    let answer = table.commit(r, INO);
    done(answer)
}

/// Aborts.
fn abort<R: RegionWords>(table: &mut OpenTable, r: &mut R) -> Result<Said, TxnFail>
    requires ready { R.ready r.old }
    requires sound { Sound table.old 7 (R.count r.old) (R.words r.old) }
    ensures sound { OnOk result (Sound table.new 7 (R.count r.new) (R.words r.new)) }
    ensures region { IsRegion (R.count r.new) (R.words r.new) }
    ensures ready { R.ready r.new }
{
    let answer = table.abort(r, INO);
    done(answer)
}

/// The word of which bytes, at most the first eight, are the low ones.
fn word(bytes: &[u8]) -> u64 {
    let mut line = [0; 8];
    let n = bytes.len().min(8);
    line[..n].copy_from_slice(&bytes[..n]);
    u64::from_le_bytes(line)
}

/// Reads bytes of the data.
#[tactic(auto, using(crate::proofs::TestTables::same_words, crate::proofs::TestTables::read_sound))]
fn get<R: RegionWords>(
    alloc: Global,
    table: &OpenTable,
    r: &mut R,
    off: u64,
    len: u64,
) -> Result<Said, GetFail>
    requires ready { R.ready r.old }
    requires fits { Fits table.now 7 (R.count r.old) (R.words r.old) }
    ensures fits { Fits table.now 7 (R.count r.new) (R.words r.new) }
    ensures sound { Sound table.now 7 (R.count r.old) (R.words r.old) → Sound table.now 7 (R.count r.new) (R.words r.new) }
    ensures ready { R.ready r.new }
{
    let bytes = table.get(alloc, r, INO, off, len)?;
    let count = bytes.as_slice().len() as u64;
    Ok(Said::Bytes(count, word(bytes.as_slice())))
}

/// What reading said.
fn got(answer: Result<Said, GetFail>) -> Result<Said, TxnFail> {
    match answer {
        Ok(said) => Ok(said),
        Err(GetFail::Doomed) => Ok(Said::Failed(TxnFail::Doomed)),
        Err(GetFail::OutOfRange) => Ok(Said::Failed(TxnFail::OutOfRange)),
        Err(GetFail::Fault) => Ok(Said::Failed(TxnFail::Fault(0))),
        Err(GetFail::Memory) => Ok(Said::NoMemory),
        Err(GetFail::Stopped) => Err(TxnFail::Stopped),
    }
}

/// Which transactions are open.
fn list(alloc: Global, table: &OpenTable) -> Said {
    let Ok(list) = table.open_list(alloc) else {
        return Said::NoMemory;
    };
    let open = list.as_slice();
    match open.first() {
        Some(first) => Said::Open(open.len(), first.0),
        None => Said::Open(0, 0),
    }
}

/// Makes a call. The error is the stop.
pub(crate) fn make<R: RegionWords>(
    alloc: Global,
    table: &mut OpenTable,
    r: &mut R,
    call: Call,
) -> Result<Said, TxnFail>
    requires ready { R.ready r.old }
    requires sound { Sound table.old 7 (R.count r.old) (R.words r.old) }
    ensures sound { OnOk result (Sound table.new 7 (R.count r.new) (R.words r.new)) }
    ensures region { IsRegion (R.count r.new) (R.words r.new) }
    ensures ready { R.ready r.new }
{
    match call {
        Call::Begin => Ok(begin(table, r)),
        Call::Range(off, len) => range(table, r, off, len),
        Call::Put(off, word) => put(table, r, off, word),
        Call::Alloc(units) => take(table, r, units),
        Call::Free(at) => free(table, r, at),
        Call::Commit => commit(table, r),
        Call::Abort => abort(table, r),
        Call::Get(off, len) => Ok(got(get(alloc, table, r, off, len))?),
        Call::List => Ok(list(alloc, table)),
    }
}

/// Puts a region's words of before back. Answers whether there were any, and the word at a byte offset of the data.
#[tactic(auto, using(crate::proofs::TestTables::idle_fits))]
pub(crate) fn recovered<R: RegionWords>(
    alloc: Global,
    r: &mut R,
    off: u64,
) -> Result<(bool, Said), Fail>
    requires ready { R.ready r.old }
    requires region { IsRegion (R.count r.old) (R.words r.old) }
    ensures ready { R.ready r.new }
    ensures region { IsRegion (R.count r.new) (R.words r.new) }
{
    let table = OpenTable::new(alloc)?;
    let held = recover(r)?;
    let word = get(alloc, &table, r, off, 8)?;
    Ok((held, word))
}
