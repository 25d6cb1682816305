//! Calls that are stopped at each step, and in which each call below fails.

ghost use Rattle.std.specs.Prelude.{◌≡◌};
ghost use Rattle.file_pages_tests.specs.TestFiles.{FilesReady};

use crate::calls::{Call, reads, some_of};
use crate::compare::{At, holds};
use crate::ended_calls::{
    Case, EIGHT, End, Faulted, Left, Look, MANY, WHOLE, after, end_each, fail_at, fail_each,
    never_done, stop_at,
};
use crate::plain_file::plain_call;
use crate::volumes::{FILE, SMALL};
use inode_table::LARGEST_SIZE;
use rio_base::{ReadFail, Volume};
use std::alloc::Global;
use std::process::Abort;
use test_objects::{FaultyVolume, SHAPE};

/// A write of 16 bytes at 4 to a file of 8.
const OVER_THE_END: Case = Case {
    name: "a write over the end",
    shape: SHAPE,
    first: Call::Write(0, 8, 0xaa),
    call: Call::Write(4, 16, 0xbb),
    look: Look::OverTheEnd,
};

/// How many bytes the file shows after a stop, which are `last` or more, and all where the call is done alone. No answer where
/// it shows anything else.
fn shown_by_stop(left: Option<Left>, last: u64) -> Option<u64> {
    let Some(left) = left else {
        return None;
    };
    let Some(now) = left.shown else {
        return None;
    };
    if !left.again || now < last {
        return None;
    }
    match left.end {
        End::Done if now == 16 => Some(now),
        End::Stopped if now != 16 => Some(now),
        _ => None,
    }
}

#[test]
fn a_stopped_write_over_the_end_is_absent_led_or_whole(rt: HostRuntime) {
    let mut last = 0;
    let mut led = false;
    for steps in 0..MANY {
        let left = stop_at(&rt, rt.alloc(), &OVER_THE_END, steps, EIGHT, WHOLE);
        let Some(now) = shown_by_stop(left, last) else {
            holds(&rt, "as many bytes", OVER_THE_END.at(steps), false);
            return;
        };
        if now == 16 {
            holds(&rt, "led once", OVER_THE_END.at(steps), led);
            return;
        }
        led = led || now == 4;
        last = now;
    }
    never_done(&rt, &OVER_THE_END);
}

/// How many bytes are done, which are `last` or more, 4 at most, and those that the file shows. No answer where it shows
/// anything else.
fn shown_by_fault(left: Option<Left>, last: u64) -> Option<u64> {
    let Some(left) = left else {
        return None;
    };
    let End::Fault(done) = left.end else {
        return None;
    };
    let Some(now) = left.shown else {
        return None;
    };
    if !left.again || now != done || done < last || 4 < done {
        return None;
    }
    Some(done)
}

#[test]
fn a_fault_of_a_write_over_the_end_says_how_much_is_done(rt: HostRuntime) {
    let mut last = 0;
    for n in 1..MANY {
        let came = fail_at(&rt, rt.alloc(), &OVER_THE_END, n, EIGHT, WHOLE);
        let Faulted::Left(left) = came else {
            holds(&rt, "4 in the end", OVER_THE_END.at(n), last == 4);
            return;
        };
        let Some(done) = shown_by_fault(left, last) else {
            holds(&rt, "from the last up to 4", OVER_THE_END.at(n), false);
            return;
        };
        last = done;
    }
    never_done(&rt, &OVER_THE_END);
}

/// Calls that are absent, whole or led where they are stopped or fail: what each is, the call that made the file what it
/// is before, and the call.
static ENDED: [(&str, Call, Call); 9] = [
    (
        "a write far past the end",
        Call::Write(0, 5, 0x61),
        Call::Write(10_000, 1, 0x61),
    ),
    (
        "a growth to all direct pages",
        Call::Resize(0),
        Call::Resize(98_304),
    ),
    (
        "a growth by the indirect block",
        Call::Resize(98_304),
        Call::Resize(98_305),
    ),
    (
        "a shrink by the indirect block",
        Call::Resize(98_305),
        Call::Resize(98_304),
    ),
    (
        "a first write of two pages",
        Call::Resize(0),
        Call::Write(0, 5000, 0xaa),
    ),
    (
        "a cut to 100 bytes",
        Call::Write(0, 5000, 0xaa),
        Call::Resize(100),
    ),
    (
        "a write past the end of a cut file",
        Call::Write(0, 100, 0xaa),
        Call::Write(4000, 1, 0xbb),
    ),
    (
        "a write over two pages",
        Call::Write(0, 8192, 0xaa),
        Call::Write(4088, 16, 0xbb),
    ),
    (
        "a long write over the end",
        Call::Write(0, 4093, 0xaa),
        Call::Write(4001, 200, 0xbb),
    ),
];

#[test]
fn a_call_is_absent_led_or_whole(rt: HostRuntime) {
    for (name, first, call) in ENDED.iter() {
        let case = Case {
            name: *name,
            shape: SMALL,
            first: *first,
            call: *call,
            look: Look::Nothing,
        };
        end_each(&rt, rt.alloc(), &case);
    }
}

/// A write of bytes from 4088 on to a file of two pages.
fn over_two_pages(count: usize) -> Case
    ensures { result.shape ≡ SMALL }
{
    Case {
        name: "a write from 4088 on",
        shape: SMALL,
        first: Call::Write(0, 8192, 0xaa),
        call: Call::Write(4088, count, 0xbb),
        look: Look::FirstPage,
    }
}

/// Whether so many bytes are done, and so many stand in the first page alone.
fn shows_first(left: Option<Left>, due: u64) -> bool {
    let Some(left) = left else {
        return false;
    };
    let End::Fault(done) = left.end else {
        return false;
    };
    let Some(now) = left.shown else {
        return false;
    };
    left.again && left.as_said && done == due && now == due
}

/// Lets each call below fail of a write over two pages, up to the one that is done. Those after `alone` of them, which are
/// `rest`, are about the second page alone.
fn fail_by_page(
    rt: &impl Abort,
    alloc: Global,
    case: &Case,
    old: &[u8],
    new: &[u8],
    alone: u64,
    rest: u64,
)
    requires { case.now.shape ≡ SMALL }
{
    for n in 1..MANY {
        let Faulted::Left(left) = fail_at(rt, alloc, case, n, old, new) else {
            let all = alone.saturating_add(rest);
            holds(rt, "so many calls below", case.at(n), n - 1 == all);
            return;
        };
        let due = if n > alone { 8 } else { 0 };
        holds(rt, "the first page", case.at(n), shows_first(left, due));
    }
    never_done(rt, case);
}

/// Lets each call below fail of a write of `count` bytes over two pages. As many fail before any byte counts as the part in
/// the first page has alone: so no call is about the second page before all of the first one is stored. Behind them are
/// the `rest` calls for the second page.
fn fail_by_pages(rt: &impl Abort, alloc: Global, count: usize, rest: u64) {
    let alone = fail_each(rt, alloc, &over_two_pages(8));
    let case = over_two_pages(count);
    let old = plain_call(rt, alloc, &[], case.first);
    let new = plain_call(rt, alloc, &old, case.call);
    fail_by_page(rt, alloc, &case, &old, &new, alone, rest);
}

#[test]
fn no_page_is_looked_at_before_those_before_it_are_stored(rt: HostRuntime) {
    fail_by_pages(&rt, rt.alloc(), 16, 1); // its word is stored
    fail_by_pages(&rt, rt.alloc(), 12, 3); // half of it: read as its first and as its last word, and stored
}

/// Whether a read fails for the disk and then reads the file of eight bytes. None where it does not fail.
fn read_again<V: Volume>(alloc: Global, v: &mut V) -> Option<bool>
    requires sound { V.sound v.old }
    requires files { FilesReady SMALL (V.seen v.old) (V.kept v.old) }
{
    let Err(fail) = some_of(alloc, v, &SMALL, FILE, 0, LARGEST_SIZE) else {
        return None;
    };
    if !matches!(fail, ReadFail::Fault) {
        return Some(false);
    }
    Some(reads(alloc, v, &SMALL, FILE, 0, LARGEST_SIZE, EIGHT))
}

/// Whether a read fails for the disk at the `n`th call below, and then reads the file of eight bytes. None where it does not fail.
fn read_again_at(rt: &impl Abort, alloc: Global, n: u64) -> Option<bool> {
    let first = after(rt, alloc, &SMALL, Call::Write(0, 8, 0xaa));
    let mut v = FaultyVolume::new(first, n);
    read_again(alloc, &mut v)
}

#[test]
fn a_read_that_failed_can_be_made_again(rt: HostRuntime) {
    for n in 1..MANY {
        let Some(so) = read_again_at(&rt, rt.alloc(), n) else {
            return;
        };
        let at = At {
            table: "a read that failed",
            row: n,
        };
        holds(&rt, "read again", at, so);
    }
    never_done(&rt, &OVER_THE_END);
}
