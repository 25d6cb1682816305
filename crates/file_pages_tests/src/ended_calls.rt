//! Calls that are stopped, or in which a call below fails: what of the file stands, or reads, then.

ghost use Rattle.test_objects.specs.ListVolumes.{ListSound, list_kept, list_seen};
ghost use Rattle.test_objects.specs.TestVolumes.{IsTestShape};
ghost use Rattle.file_pages_tests.specs.TestFiles.{FilesReady, FilesStand};

use crate::calls::{Answer, Call, has_blocks, make, reads, some_of};
use crate::compare::{At, holds};
use crate::plain_file::{is_led, plain_call, same_up_to};
use crate::volumes::{FILE, start_again, used_count, with_files};
use inode_table::LARGEST_SIZE;
use rio_base::{Stopped, Volume, VolumeShape};
use std::alloc::Global;
use std::process::Abort;
use test_objects::{FaultyVolume, ListVolume};

/// More steps than any call here has.
pub(crate) const MANY: u64 = 2000;

/// A call that does not end, and the one that made the file what it is before.
#[derive(Clone, Copy)]
pub(crate) struct Case {
    pub(crate) name: &'static str,
    pub(crate) shape: VolumeShape,
    pub(crate) first: Call,
    pub(crate) call: Call,
    pub(crate) look: Look,
}

impl Case {
    /// The step, or the call below, at which it ends.
    pub(crate) fn at(&self, row: u64) -> At {
        let table = self.name;
        At { table, row }
    }
}

/// How a call ended.
#[derive(Clone, Copy)]
pub(crate) enum End {
    Done,
    Stopped,
    /// The disk failed after so many bytes.
    Fault(u64),
    /// In no way that is due.
    Other,
}

/// What is left of a file by a call that did not end, or by one that is done.
#[derive(Clone, Copy)]
pub(crate) struct Left {
    pub(crate) end: End,
    /// The bytes of the file are the new ones.
    pub(crate) whole: bool,
    /// They may stand where the call is stopped: the new ones, or the old ones led by new ones.
    pub(crate) may_stand: bool,
    /// They are the old ones led by as many new ones as the call says, or by none where it says none.
    pub(crate) as_said: bool,
    /// What the tests of one call look for in them.
    pub(crate) shown: Option<u64>,
    /// The call is done when it is made again, and all blocks that are used are the file's or reserved.
    pub(crate) again: bool,
}

/// What a test of one call looks for in the bytes of a file.
#[derive(Clone, Copy)]
pub(crate) enum Look {
    Nothing,
    /// How many bytes of a write of 16 at 4 to a file of 8.
    OverTheEnd,
    /// How many bytes of a write at 4088 in the first of two pages, where those in the second are old.
    FirstPage,
}

/// The file of 8 bytes.
pub(crate) const EIGHT: &[u8] = b"\xaa\xaa\xaa\xaa\xaa\xaa\xaa\xaa";

/// The file with the first 4 of 16 bytes written at 4.
const FOUR_MORE: &[u8] = b"\xaa\xaa\xaa\xaa\xbb\xbb\xbb\xbb";

/// The file with all 16 bytes written.
pub(crate) const WHOLE: &[u8] =
    b"\xaa\xaa\xaa\xaa\xbb\xbb\xbb\xbb\xbb\xbb\xbb\xbb\xbb\xbb\xbb\xbb\xbb\xbb\xbb\xbb";

/// Bytes 4080 to 4112 where the part of the write in the first page stands alone.
const FIRST_PAGE: &[u8] =
    b"\xaa\xaa\xaa\xaa\xaa\xaa\xaa\xaa\xbb\xbb\xbb\xbb\xbb\xbb\xbb\xbb\xaa\xaa\xaa\xaa\xaa\xaa\xaa\xaa\xaa\xaa\xaa\xaa\xaa\xaa\xaa\xaa";

/// How many of the 16 bytes the file shows: none, those before its end, or all. No answer where it shows anything else.
fn shown_over_the_end(bytes: &[u8]) -> Option<u64> {
    if bytes == EIGHT {
        return Some(0);
    }
    if bytes == FOUR_MORE {
        return Some(4);
    }
    if bytes == WHOLE {
        return Some(16);
    }
    None
}

/// Bytes 4080 to 4112 of a file of two pages.
fn middle(bytes: &[u8]) -> &[u8] {
    if bytes.len() < 4112 {
        return &[];
    }
    &bytes[4080..4112]
}

/// What a test looks for.
fn shown(bytes: &[u8], look: Look) -> Option<u64> {
    match look {
        Look::Nothing => None,
        Look::OverTheEnd => shown_over_the_end(bytes),
        Look::FirstPage => {
            if middle(bytes) == FIRST_PAGE {
                Some(8)
            } else {
                Some(0)
            }
        }
    }
}

/// A volume on whose file a call was made.
pub(crate) fn after(rt: &impl Abort, alloc: Global, shape: &VolumeShape, first: Call) -> ListVolume
    requires { IsTestShape shape.now }
    ensures sound { ListSound result }
    ensures files { FilesReady shape.now (list_seen result) (list_kept result) }
    ensures stand { FilesStand shape.now (list_seen result) (list_kept result) }
{
    let mut v = with_files(rt, alloc, shape);
    let Ok(Answer::Done(_)) = make(alloc, &mut v, shape, FILE, first) else {
        panic!(rt; "the first call");
    };
    v
}

/// How a call ended that answers so.
fn end_of(came: Result<Answer, Stopped>) -> End {
    match came {
        Ok(Answer::Done(_)) => End::Done,
        Ok(Answer::Fault(done)) => End::Fault(done),
        Ok(_) => End::Other,
        Err(Stopped) => End::Stopped,
    }
}

/// Whether the bytes are the old ones with those of a call over them, as many as it says.
fn is_as_said(bytes: &[u8], call: Call, end: End, old: &[u8], new: &[u8]) -> bool {
    let End::Fault(done) = end else {
        return false;
    };
    let end = match call {
        Call::Write(off, _, _) => off.saturating_add(done) as usize,
        Call::Resize(_) => 0,
    };
    if done > 0 && end > old.len() {
        return false;
    }
    is_led(bytes, old, new, end)
}

/// What these bytes are beside those before a call and those that it makes.
fn left_of(bytes: &[u8], case: &Case, end: End, old: &[u8], new: &[u8]) -> Left {
    let whole = bytes == new;
    let may_stand = whole || is_led(bytes, old, new, same_up_to(bytes, new));
    Left {
        end,
        whole,
        may_stand,
        as_said: is_as_said(bytes, case.call, end, old, new),
        shown: shown(bytes, case.look),
        again: false,
    }
}

/// Whether a call that did not end there is done when it is made again, and all blocks that are used are the file's or
/// reserved.
fn is_made_again<V: Volume>(alloc: Global, v: &mut V, case: &Case, new: &[u8]) -> bool
    requires sound { V.sound v.old }
    requires files { FilesReady case.now.shape (V.seen v.old) (V.kept v.old) }
{
    let Ok(answer) = make(alloc, v, &case.shape, FILE, case.call) else {
        return false;
    };
    if !matches!(answer, Answer::Done(_)) {
        return false;
    }
    if !reads(alloc, v, &case.shape, FILE, 0, LARGEST_SIZE, new) {
        return false;
    }
    let used = used_count(v, &case.shape) as usize;
    used >= 4 && has_blocks(alloc, v, &case.shape, FILE, used - 4)
}

/// What is left of the file by a call that ended so. The call is made again after it.
fn look_at<V: Volume>(
    alloc: Global,
    v: &mut V,
    case: &Case,
    end: End,
    old: &[u8],
    new: &[u8],
) -> Option<Left>
    requires sound { V.sound v.old }
    requires files { FilesReady case.now.shape (V.seen v.old) (V.kept v.old) }
{
    let mut left = match some_of(alloc, v, &case.shape, FILE, 0, LARGEST_SIZE) {
        Ok(bytes) => left_of(bytes.as_slice(), case, end, old, new),
        Err(_fail) => return None,
    };
    left.again = is_made_again(alloc, v, case, new);
    Some(left)
}

/// Makes a call that stops after so many steps, and goes on with what stands.
fn make_stopped(alloc: Global, v: &mut ListVolume, case: &Case, steps: u64) -> End
    requires sound { ListSound v.old }
    requires stand { FilesStand case.now.shape (list_seen v.old) (list_kept v.old) }
    ensures files { FilesReady case.now.shape (list_seen v.new) (list_kept v.new) }
    ensures sound { ListSound v.new }
{
    start_again(v, &case.shape, Some(steps));
    let came = make(alloc, v, &case.shape, FILE, case.call);
    start_again(v, &case.shape, None);
    end_of(came)
}

/// What stands of the file where a call stops after so many steps. None where it cannot be read.
pub(crate) fn stop_at(
    rt: &impl Abort,
    alloc: Global,
    case: &Case,
    steps: u64,
    old: &[u8],
    new: &[u8],
) -> Option<Left>
    requires { IsTestShape case.now.shape }
{
    let mut v = after(rt, alloc, &case.shape, case.first);
    let end = make_stopped(alloc, &mut v, case, steps);
    look_at(alloc, &mut v, case, end, old, new)
}

/// What comes of a call in which a call below may fail.
#[derive(Clone, Copy)]
pub(crate) enum Faulted {
    /// It is done, and nothing more is asked of it.
    Done,
    /// What is left of the file. None where it cannot be read.
    Left(Option<Left>),
}

/// Makes a call in which a call below may fail.
fn left_by_fault<V: Volume>(
    alloc: Global,
    v: &mut V,
    case: &Case,
    old: &[u8],
    new: &[u8],
) -> Faulted
    requires sound { V.sound v.old }
    requires files { FilesReady case.now.shape (V.seen v.old) (V.kept v.old) }
{
    let Ok(answer) = make(alloc, v, &case.shape, FILE, case.call) else {
        return Faulted::Left(None);
    };
    let end = end_of(Ok(answer));
    if let End::Done = end {
        return Faulted::Done;
    }
    Faulted::Left(look_at(alloc, v, case, end, old, new))
}

/// Makes a call in which the `n`th call below that may need the disk fails.
pub(crate) fn fail_at(
    rt: &impl Abort,
    alloc: Global,
    case: &Case,
    n: u64,
    old: &[u8],
    new: &[u8],
) -> Faulted
    requires { IsTestShape case.now.shape }
{
    let mut v = FaultyVolume::new(after(rt, alloc, &case.shape, case.first), n);
    left_by_fault(alloc, &mut v, case, old, new)
}

/// Whether a call is done.
fn is_done(left: Option<Left>) -> bool {
    match left {
        Some(left) => matches!(left.end, End::Done),
        None => false,
    }
}

/// Whether a call may leave this where it is stopped, or done.
fn may_stand(left: Option<Left>) -> bool {
    let Some(left) = left else {
        return false;
    };
    if !left.again {
        return false;
    }
    match left.end {
        End::Done => left.whole,
        End::Stopped => left.may_stand,
        End::Fault(_) | End::Other => false,
    }
}

/// Whether a call may leave this where a call below fails.
fn may_be_left(left: Option<Left>) -> bool {
    match left {
        Some(left) => left.again && left.as_said,
        None => false,
    }
}

/// Stops a call that makes the new bytes of the old at each of its steps.
fn stop_each(rt: &impl Abort, alloc: Global, case: &Case, old: &[u8], new: &[u8])
    requires { IsTestShape case.now.shape }
{
    for steps in 0..MANY {
        let left = stop_at(rt, alloc, case, steps, old, new);
        holds(rt, "what stands may stand", case.at(steps), may_stand(left));
        if is_done(left) {
            return;
        }
    }
    never_done(rt, case);
}

/// Lets each call below that may need the disk fail in turn, in a call that makes the new bytes of the old, and says how
/// many there are.
fn fail_each_of(rt: &impl Abort, alloc: Global, case: &Case, old: &[u8], new: &[u8]) -> u64
    requires { IsTestShape case.now.shape }
{
    for n in 1..MANY {
        let Faulted::Left(left) = fail_at(rt, alloc, case, n, old, new) else {
            return n - 1;
        };
        holds(rt, "as many bytes are new", case.at(n), may_be_left(left));
    }
    never_done(rt, case);
    MANY
}

/// Lets each call below that may need the disk fail in turn, in a call whose bytes are made here, and says how many there are.
pub(crate) fn fail_each(rt: &impl Abort, alloc: Global, case: &Case) -> u64
    requires { IsTestShape case.now.shape }
{
    let old = plain_call(rt, alloc, &[], case.first);
    let new = plain_call(rt, alloc, &old, case.call);
    fail_each_of(rt, alloc, case, &old, &new)
}

/// Stops a call at each of its steps, and lets each call below fail.
fn end_each_of(rt: &impl Abort, alloc: Global, case: &Case, old: &[u8], new: &[u8])
    requires { IsTestShape case.now.shape }
{
    stop_each(rt, alloc, case, old, new);
    fail_each_of(rt, alloc, case, old, new);
}

/// Stops a call, whose bytes are made here, at each of its steps, and lets each call below fail.
pub(crate) fn end_each(rt: &impl Abort, alloc: Global, case: &Case)
    requires { IsTestShape case.now.shape }
{
    let old = plain_call(rt, alloc, &[], case.first);
    let new = plain_call(rt, alloc, &old, case.call);
    end_each_of(rt, alloc, case, &old, &new);
}

/// A call ends after fewer steps, and fewer calls below, than were tried.
pub(crate) fn never_done(rt: &impl Abort, case: &Case) {
    holds(rt, "done in the end", case.at(MANY), false);
}
