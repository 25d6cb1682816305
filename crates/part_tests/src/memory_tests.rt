//! Tests of the words in memory, over both memories that there are: tables of calls, to which both answer the same.

ghost use Rattle.std.specs.Prelude.{◌+◌, ◌^◌, ◌<◌, ◌≤◌, IsTrue, length};
ghost use Rattle.rio_base.specs.Memory.{AreApart};

use crate::same::same;
use phys_memory::{ListMem, PhysMem, memory_of};
use rio_base::{MemWords, Page, WordAt};
use std::alloc::{AllocError, Global};
use std::process::Abort;

/// A call of memory. Places are words.
#[derive(Clone, Copy)]
enum Call {
    /// How many words there are.
    Len,
    Load(u32),
    Store(u32, u64),
    /// Stores a run of words from a place on.
    Run(u32, &'static [u64]),
    /// The sum of a page's words.
    Sum(u32),
    /// A word of a page that is lent, if the page has so many.
    OfPage(u32, u32),
    /// Copies from a place to another, so many words.
    Copy(u32, u32, u32),
}

/// How many pages the memories have.
const PAGES: u32 = 2;

/// A call, and what it tells: a number, 0 of a change, or nothing where its condition does not hold.
type Row = (Call, Option<u64>);

/// Calls on memories of zeros.
static ROWS: [Row; 47] = [
    (Call::Len, Some(1024)),
    (Call::Load(0), Some(0)),
    (Call::Load(1023), Some(0)),
    (Call::Load(1024), None),
    (Call::Store(0, 7), Some(0)),
    (Call::Store(1, 11), Some(0)),
    (Call::Store(511, 13), Some(0)),
    (Call::Store(512, 17), Some(0)),
    (Call::Store(1023, 19), Some(0)),
    (Call::Store(1024, 1), None),
    (Call::Load(0), Some(7)),
    (Call::Load(1), Some(11)),
    (Call::Load(511), Some(13)),
    (Call::Load(512), Some(17)),
    (Call::Load(1023), Some(19)),
    (Call::OfPage(1, 0), Some(17)),
    (Call::OfPage(1, 511), Some(19)),
    (Call::OfPage(1, 512), None),
    (Call::Sum(0), Some(31)),
    (Call::Sum(1), Some(36)),
    (Call::Sum(2), None),
    (Call::Copy(0, 2, 2), Some(0)),
    (Call::Load(3), Some(11)),
    (Call::Sum(0), Some(49)),
    (Call::Copy(0, 1, 2), None),
    (Call::Copy(2, 0, 3), None),
    (Call::Copy(1022, 100, 2), Some(0)),
    (Call::Load(101), Some(19)),
    (Call::Copy(1022, 100, 3), None),
    (Call::Copy(100, 1022, 3), None),
    (Call::Copy(0, 512, 512), Some(0)),
    (Call::Sum(1), Some(68)),
    (Call::Load(1023), Some(13)),
    (Call::Store(1023, u64::MAX), Some(0)),
    (Call::Load(1023), Some(18_446_744_073_709_551_615)),
    (Call::Copy(5, 5, 0), Some(0)),
    (Call::Run(300, &[21, 22, 23]), Some(0)),
    (Call::Load(302), Some(23)),
    (Call::Run(1022, &[1, 2, 3]), None),
    (Call::Run(1021, &[31, 32, 33]), Some(0)),
    (Call::Load(1023), Some(33)),
    (Call::Sum(0), Some(134)),
    (Call::Sum(1), Some(151)),
    (Call::Store(407, 99), Some(0)),
    (Call::Load(406), Some(0)),
    (Call::Load(407), Some(99)),
    (Call::Load(408), Some(0)),
];

/// Whether a run of so many words from a place on lies within memory.
fn lies_within(len: u32, at: u32, n: usize) -> bool
    ensures { IsTrue result → at + n ≤ len }
{
    if len < at {
        return false;
    }
    n <= (len - at) as usize
}

/// Whether two spans of so many words lie within memory and have no word in common.
fn lie_apart(len: u32, from: u32, to: u32, n: u32) -> bool
    ensures from { IsTrue result → from + n ≤ len }
    ensures to { IsTrue result → to + n ≤ len }
    ensures apart { IsTrue result → AreApart from to n }
{
    if len < n {
        return false;
    }
    if len - n < from {
        return false;
    }
    if len - n < to {
        return false;
    }
    if from < to {
        return n <= to - from;
    }
    n <= from - to
}

/// The sum of words.
fn sum(words: &[u64]) -> u64 {
    let mut sum = 0u64;
    for word in words {
        sum = sum.wrapping_add(*word);
    }
    sum
}

/// Makes a call whose condition holds, and what it tells.
fn told<M: MemWords>(mem: &mut M, call: Call) -> Option<u64> {
    let len = mem.len();
    match call {
        Call::Len => Some(u64::from(len)),
        Call::Load(at) if at < len => Some(mem.load(WordAt(at))),
        Call::Store(at, v) if at < len => {
            mem.store(WordAt(at), v);
            Some(0)
        }
        Call::Run(at, words) if lies_within(len, at, words.len()) => {
            mem.store_run(WordAt(at), words);
            Some(0)
        }
        Call::Sum(p) if p < len / 512 => Some(sum(mem.frame(Page(p)))),
        Call::OfPage(p, at) if p < len / 512 => mem.frame(Page(p)).get(at as usize).copied(),
        Call::Copy(from, to, n) if lie_apart(len, from, to, n) => {
            mem.copy_words(WordAt(from), WordAt(to), n);
            Some(0)
        }
        _ => None,
    }
}

/// Makes all calls of a table.
fn make_all<M: MemWords>(rt: &impl Abort, table: &str, mem: &mut M, rows: &[Row]) {
    for (k, (call, due)) in rows.iter().enumerate() {
        same(rt, table, k, &told(mem, *call), due);
    }
}

/// Makes all calls of the table on two memories, which then have the same words.
fn make_alike<A: MemWords, B: MemWords>(rt: &impl Abort, list: &mut A, raw: &mut B) {
    make_all(rt, "list", list, &ROWS);
    make_all(rt, "raw", raw, &ROWS);
    for at in 0..list.len().min(raw.len()) {
        let (came, due) = (raw.load(WordAt(at)), list.load(WordAt(at)));
        same(rt, "words", at as usize, &came, &due);
    }
}

#[test]
fn both_memories_answer_a_table_of_calls_alike(rt: HostRuntime) -> Result<(), AllocError> {
    let mut list = ListMem::new(rt.alloc(), PAGES)?;
    let mut raw = PhysMem::new(rt.alloc(), PAGES)?;
    make_alike(&rt, &mut list, &mut raw);
    Ok(())
}

/// Words that a memory is made of, and calls on it.
static OF_WORDS: [(&[u64], &[Row]); 2] = [
    (
        &[3, 1, 4],
        &[
            (Call::Len, Some(3)),
            (Call::Load(0), Some(3)),
            (Call::Load(1), Some(1)),
            (Call::Load(2), Some(4)),
            (Call::Load(3), None),
        ],
    ),
    (&[], &[(Call::Len, Some(0)), (Call::Load(0), None)]),
];

/// Makes calls on the memory of these words.
fn make_on(rt: &impl Abort, alloc: Global, words: &[u64], rows: &[Row]) -> Result<(), AllocError>
    requires { length words.now < 2 ^ 32 }
{
    let mut mem = memory_of(alloc, words)?;
    make_all(rt, "of words", &mut mem, rows);
    Ok(())
}

/// Makes calls on these words in raw memory.
fn make_on_raw(
    rt: &impl Abort,
    alloc: Global,
    words: &[u64],
    rows: &[Row],
) -> Result<(), AllocError>
    requires { length words.now < 2 ^ 32 }
{
    let mut mem = PhysMem::of_words(alloc, words)?;
    make_all(rt, "raw, of words", &mut mem, rows);
    Ok(())
}

#[test]
fn memory_of_words_has_them(rt: HostRuntime) -> Result<(), AllocError> {
    for (words, rows) in OF_WORDS.iter() {
        let few = words.len().min(100);
        make_on(&rt, rt.alloc(), &words[..few], rows)?;
        make_on_raw(&rt, rt.alloc(), &words[..few], rows)?;
    }
    Ok(())
}

/// Words that a list takes over, calls on them, and the words that it gives back then.
static LISTS: [(&[u64], &[Row], &[u64]); 3] = [
    (&[3, 1, 4], &[(Call::Len, Some(3))], &[3, 1, 4]),
    (
        &[1, 2, 3, 4, 5, 6],
        &[
            (Call::Copy(0, 3, 2), Some(0)),
            (Call::Copy(4, 1, 2), Some(0)),
        ],
        &[1, 2, 6, 1, 2, 6],
    ),
    (
        &[1, 2, 3, 4],
        &[
            (Call::Run(1, &[7, 8]), Some(0)),
            (Call::Run(4, &[]), Some(0)),
        ],
        &[1, 7, 8, 4],
    ),
];

/// The words that a list gives back behind these calls.
fn given_back(rt: &impl Abort, words: Vec<u64>, rows: &[Row]) -> Vec<u64>
    requires { length words.items < 2 ^ 32 }
{
    let mut mem = ListMem::from_words(words);
    make_all(rt, "taken over", &mut mem, rows);
    mem.into_words()
}

#[test]
fn words_are_taken_over_and_given_back(rt: HostRuntime) -> Result<(), AllocError> {
    for (row, (words, calls, due)) in LISTS.iter().enumerate() {
        let few = words.len().min(100);
        let words = Vec::from_slice(rt.alloc(), &words[..few])?;
        let came = given_back(&rt, words, calls);
        same(&rt, "given back", row, &(came.as_slice() == *due), &true);
    }
    Ok(())
}
