//! Files that grow on a volume whose free blocks are few and lie apart.

ghost use Rattle.std.specs.Prelude.{◌≤◌, OnOk};
ghost use Rattle.file_pages_tests.specs.TestFiles.{FilesReady};

use crate::calls::{Answer, Call, put, set_size};
use crate::compare::all_answered;
use crate::rows::{File, Row, answers, first_other};
use crate::volumes::{FILE, OTHER, SMALL, with_files};
use rio_base::{Stopped, Volume};
use std::alloc::Global;
use std::process::Abort;

/// Bytes of a page.
const PAGE: u64 = 4096;

/// Gives each file 18 pages, block by block in turn, so that no block is free.
fn fill_up<V: Volume>(alloc: Global, v: &mut V) -> Result<(), Stopped>
    requires sound { V.sound v.old }
    requires files { FilesReady SMALL (V.seen v.old) (V.kept v.old) }
    ensures files { OnOk result (FilesReady SMALL (V.seen v.new) (V.kept v.new)) }
    ensures sound { V.sound v.new }
{
    for page in 0..18 {
        let Ok(Answer::Done(_)) = put(alloc, v, &SMALL, FILE, PAGE * page, &[1]) else {
            return Err(Stopped);
        };
        let Ok(Answer::Done(_)) = put(alloc, v, &SMALL, OTHER, PAGE * page, &[2]) else {
            return Err(Stopped);
        };
    }
    Ok(())
}

/// How many pages the file has at most with so many free blocks: past page 24 it takes one for their numbers too.
fn most_pages(free: u64) -> u64
    requires { free ≤ 18 }
    ensures least { 18 ≤ result }
    ensures most { result ≤ 36 }
{
    if free <= 6 { 18 + free } else { 17 + free }
}

/// Call `k` of seven where so many blocks are free.
fn row_at(free: u64, k: usize) -> Row
    requires { free ≤ 18 }
{
    let most = PAGE * most_pages(free);
    match k {
        0 => Row::Used(40 - free as u32),
        1 => Row::Make(File::First, Call::Resize(most + 1), Answer::NoSpace),
        2 => Row::Write(File::First, most, b"\x03", Answer::NoSpace),
        3 => Row::Write(File::First, most - 2, b"\x03\x04\x05", Answer::NoSpace),
        4 => Row::Len(File::First, 69_633), // 17 pages and a byte
        5 => Row::Write(File::First, most - 2, b"\x03\x04", Answer::Done(2)),
        _ => Row::Used(if free == 7 { 39 } else { 40 }),
    }
}

/// Makes the seven calls, as [`first_other`] does.
fn first_other_of<V: Volume>(alloc: Global, v: &mut V, free: u64) -> Option<usize>
    requires sound { V.sound v.old }
    requires files { FilesReady SMALL (V.seen v.old) (V.kept v.old) }
    requires few { free ≤ 18 }
{
    for k in 0..7 {
        let Ok(true) = answers(alloc, v, &SMALL, row_at(free, k)) else {
            return Some(k);
        };
    }
    None
}

/// Makes the calls where so many blocks are free, each between two of the file. Tells the first where the volume does not get
/// so.
fn with_gaps<V: Volume>(alloc: Global, v: &mut V, free: u64) -> Option<usize>
    requires sound { V.sound v.old }
    requires files { FilesReady SMALL (V.seen v.old) (V.kept v.old) }
    requires few { free ≤ 18 }
{
    let Ok(()) = fill_up(alloc, v) else {
        return Some(0);
    };
    let Ok(Answer::Done(_)) = set_size(alloc, v, &SMALL, OTHER, PAGE * (18 - free)) else {
        return Some(0);
    };
    first_other_of(alloc, v, free)
}

/// Makes the calls on a volume of its own, where so many blocks are free, each between two of the file.
fn check_gaps(rt: &impl Abort, alloc: Global, free: u64)
    requires { free ≤ 18 }
{
    let mut v = with_files(rt, alloc, &SMALL);
    all_answered(rt, "few blocks are free", with_gaps(alloc, &mut v, free));
}

#[test]
fn all_free_blocks_are_taken_and_none_more(rt: HostRuntime) {
    for free in 0..19 {
        check_gaps(&rt, rt.alloc(), free);
    }
}

/// Calls where no block is free at first.
static LOST: [Row; 10] = [
    Row::Make(File::Second, Call::Resize(1), Answer::Done(0)),
    Row::Used(23),
    Row::Make(File::First, Call::Resize(34 * PAGE), Answer::Done(0)),
    Row::Used(40),
    Row::Make(File::Second, Call::Resize(PAGE), Answer::Done(0)),
    Row::Make(File::Second, Call::Resize(PAGE + 1), Answer::NoSpace),
    Row::Make(File::First, Call::Resize(24 * PAGE), Answer::Done(0)),
    Row::Used(29),
    Row::Make(File::Second, Call::Resize(12 * PAGE), Answer::Done(0)),
    Row::Make(File::Second, Call::Resize(12 * PAGE + 1), Answer::NoSpace),
];

/// Makes these calls. Tells the first where the volume is not filled up.
fn lost<V: Volume>(alloc: Global, v: &mut V) -> Option<usize>
    requires sound { V.sound v.old }
    requires files { FilesReady SMALL (V.seen v.old) (V.kept v.old) }
{
    let Ok(()) = fill_up(alloc, v) else {
        return Some(0);
    };
    first_other(alloc, v, &SMALL, &LOST)
}

#[test]
fn blocks_that_a_file_loses_are_free_for_the_next_call(rt: HostRuntime) {
    let mut v = with_files(&rt, rt.alloc(), &SMALL);
    all_answered(&rt, "blocks that a file loses", lost(rt.alloc(), &mut v));
}
