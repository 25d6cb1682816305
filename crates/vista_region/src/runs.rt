//! Words of a region stored from bytes, and read as bytes, by runs.

ghost use Rattle.std.specs.Prelude.{◌≡◌, ◌+◌, ◌-◌, ◌*◌, ◌/◌, ◌%◌, ◌<◌, ◌≤◌, ◌++◌, length, slice_index, None, IfErr, IsErrOf, OnOk};
ghost use Rattle.rio_base.specs.Blocks.{Ends, EndsBy, FaultAt, as_word};
ghost use Rattle.rio_base.specs.Frames.{Stays};
ghost use Rattle.rio_model.specs.Held.{bytes_in};
ghost use Rattle.rio_model.specs.Undo.{CoversAll, IsRegion, Keeps, Puts, live, places, undo_records};
ghost use Rattle.rio_requests.specs.RegionAnswers.{words_of};
ghost use Rattle.vista_region.specs.Ends.{get_refusal_of};

use crate::failures::GetFail;
use byteorder::{ByteOrder, LittleEndian};
use rio_base::{RegionWords, RunFail};
use std::alloc::AllocError;
use undo_list::{put_covered_run, read_places};

/// Words that one call reads or stores, as long as a page.
const RUN_WORDS: usize = 512;

const RUN_BYTES: usize = 4096;

/// Words of a short run, whose room is cleared at once: most calls are of few words.
const SHORT_WORDS: usize = 16;

const SHORT_BYTES: usize = 128;

/// Stores the words that `bytes` are from a place on, through `room`.
fn put_through<R: RegionWords>(
    r: &mut R,
    undo: u32,
    place: u32,
    bytes: &[u8],
    room: &mut [u64],
) -> Result<(), RunFail>
    requires ready { R.ready r.old }
    requires region { IsRegion (R.count r.old) (R.words r.old) }
    requires undo { undo ≡ R.words r.old 1 }
    requires room { length bytes.now ≡ 8 * length room.old }
    requires place { place + length bytes.now / 8 ≤ places (R.words r.old) }
    requires covered { CoversAll (undo_records (R.words r.old)) place (length bytes.now / 8) }
    ensures ok { OnOk result (Puts (R.count r.old) (R.words r.old) (R.words r.new) place (length bytes.now / 8) (words_of bytes.now)) }
    ensures fault { FaultAt result (λ n. (n ≤ length bytes.now / 8) × Puts (R.count r.old) (R.words r.old) (R.words r.new) place n (words_of bytes.now)) }
    ensures keeps { Keeps (R.count r.old) (R.words r.old) (R.words r.new) }
    ensures stays { Stays R.keeps_rest R.ready R.count R.health R.below r.old r.new }
    ensures ends { Ends (R.health r.old) (R.health r.new) (as_word result) }
{
    LittleEndian::read_u64_into(bytes, room);
    put_covered_run(r, undo, place, room)
}

/// `put_through`, for any run.
#[inline(never)]
fn put_long<R: RegionWords>(r: &mut R, undo: u32, place: u32, bytes: &[u8]) -> Result<(), RunFail>
    requires ready { R.ready r.old }
    requires region { IsRegion (R.count r.old) (R.words r.old) }
    requires undo { undo ≡ R.words r.old 1 }
    requires whole { length bytes.now % 8 ≡ 0 }
    requires few { length bytes.now ≤ 4096 }
    requires place { place + length bytes.now / 8 ≤ places (R.words r.old) }
    requires covered { CoversAll (undo_records (R.words r.old)) place (length bytes.now / 8) }
    ensures ok { OnOk result (Puts (R.count r.old) (R.words r.old) (R.words r.new) place (length bytes.now / 8) (words_of bytes.now)) }
    ensures fault { FaultAt result (λ n. (n ≤ length bytes.now / 8) × Puts (R.count r.old) (R.words r.old) (R.words r.new) place n (words_of bytes.now)) }
    ensures keeps { Keeps (R.count r.old) (R.words r.old) (R.words r.new) }
    ensures stays { Stays R.keeps_rest R.ready R.count R.health R.below r.old r.new }
    ensures ends { Ends (R.health r.old) (R.health r.new) (as_word result) }
{
    let mut room = [0; RUN_WORDS];
    put_through(r, undo, place, bytes, &mut room[..bytes.len() / 8])
}

/// Stores the words that `bytes` are from a place on: at most a page of them.
fn put_run<R: RegionWords>(r: &mut R, undo: u32, place: u32, bytes: &[u8]) -> Result<(), RunFail>
    requires ready { R.ready r.old }
    requires region { IsRegion (R.count r.old) (R.words r.old) }
    requires undo { undo ≡ R.words r.old 1 }
    requires whole { length bytes.now % 8 ≡ 0 }
    requires few { length bytes.now ≤ 4096 }
    requires place { place + length bytes.now / 8 ≤ places (R.words r.old) }
    requires covered { CoversAll (undo_records (R.words r.old)) place (length bytes.now / 8) }
    ensures ok { OnOk result (Puts (R.count r.old) (R.words r.old) (R.words r.new) place (length bytes.now / 8) (words_of bytes.now)) }
    ensures fault { FaultAt result (λ n. (n ≤ length bytes.now / 8) × Puts (R.count r.old) (R.words r.old) (R.words r.new) place n (words_of bytes.now)) }
    ensures keeps { Keeps (R.count r.old) (R.words r.old) (R.words r.new) }
    ensures stays { Stays R.keeps_rest R.ready R.count R.health R.below r.old r.new }
    ensures ends { Ends (R.health r.old) (R.health r.new) (as_word result) }
{
    if bytes.len() > SHORT_BYTES {
        return put_long(r, undo, place, bytes);
    }
    let mut room = [0; SHORT_WORDS];
    put_through(r, undo, place, bytes, &mut room[..bytes.len() / 8])
}

/// Stores the words that `bytes` are from a place on, which records cover, in rising order. `Fault` says how many words
/// were stored.
pub(crate) fn put_bytes<R: RegionWords>(
    r: &mut R,
    undo: u32,
    place: u32,
    bytes: &[u8],
) -> Result<(), RunFail>
    requires ready { R.ready r.old }
    requires region { IsRegion (R.count r.old) (R.words r.old) }
    requires undo { undo ≡ R.words r.old 1 }
    requires whole { length bytes.now % 8 ≡ 0 }
    requires place { place + length bytes.now / 8 ≤ places (R.words r.old) }
    requires covered { CoversAll (undo_records (R.words r.old)) place (length bytes.now / 8) }
    ensures ok { OnOk result (Puts (R.count r.old) (R.words r.old) (R.words r.new) place (length bytes.now / 8) (words_of bytes.now)) }
    ensures fault { FaultAt result (λ n. (n ≤ length bytes.now / 8) × Puts (R.count r.old) (R.words r.old) (R.words r.new) place n (words_of bytes.now)) }
    ensures keeps { Keeps (R.count r.old) (R.words r.old) (R.words r.new) }
    ensures stays { Stays R.keeps_rest R.ready R.count R.health R.below r.old r.new }
    ensures ends { Ends (R.health r.old) (R.health r.new) (as_word result) }
{
    let words = bytes.len() / 8;
    let mut done = 0;
    while done < words {
        let next = words.min(done + RUN_WORDS);
        match put_run(r, undo, place + done as u32, &bytes[8 * done..8 * next]) {
            Ok(()) => {}
            Err(RunFail::Fault(n)) => return Err(RunFail::Fault(done as u32 + n)),
            Err(RunFail::Stopped) => return Err(RunFail::Stopped),
        }
        done = next;
    }
    Ok(())
}

/// Adds bytes `from` to `to` of these words, which are made of them in `line`.
fn push_line(
    out: &mut Vec<u8>,
    words: &[u64],
    line: &mut [u8],
    from: usize,
    to: usize,
) -> Result<(), AllocError>
    requires line { length line.old ≡ 8 * length words.now }
    requires order { from ≤ to }
    requires within { to ≤ 8 * length words.now }
    ensures { OnOk result (out.new.items ≡ out.old.items ++ bytes_in (slice_index words.now) from (to - from)) }
{
    LittleEndian::write_u64_into(words, line);
    out.extend_from_slice(&line[from..to])?;
    Ok(())
}

/// Adds bytes `from` to `to` of the words from a place on, as many as `words` has, through it and `line`.
fn push_through<R: RegionWords>(
    r: &mut R,
    place: u32,
    words: &mut [u64],
    line: &mut [u8],
    from: usize,
    to: usize,
    out: &mut Vec<u8>,
) -> Result<(), GetFail>
    requires ready { R.ready r.old }
    requires region { IsRegion (R.count r.old) (R.words r.old) }
    requires line { length line.old ≡ 8 * length words.old }
    requires order { from ≤ to }
    requires within { to ≤ 8 * length words.old }
    requires place { place + length words.old ≤ places (R.words r.old) }
    ensures told { IfErr result (λ e. get_refusal_of e ≡ None) }
    ensures bytes { OnOk result (out.new.items ≡ out.old.items ++ bytes_in (λ w. live (R.words r.old) (place + w)) from (to - from)) }
    ensures words { R.words r.new ≡ R.words r.old }
    ensures stays { Stays R.keeps_rest R.ready R.count R.health R.below r.old r.new }
    ensures ends { EndsBy (R.health r.old) (R.health r.new) (IsErrOf result GetFail.Fault) (IsErrOf result GetFail.Stopped) }
{
    read_places(r, place, words)?;
    push_line(out, words, line, from, to)?;
    Ok(())
}

/// `push_through`, for at most a page of words.
#[inline(never)]
fn push_long<R: RegionWords>(
    r: &mut R,
    place: u32,
    from: usize,
    to: usize,
    out: &mut Vec<u8>,
) -> Result<(), GetFail>
    requires ready { R.ready r.old }
    requires region { IsRegion (R.count r.old) (R.words r.old) }
    requires order { from ≤ to }
    requires few { to ≤ 4096 }
    requires place { place + (to + 7) / 8 ≤ places (R.words r.old) }
    ensures told { IfErr result (λ e. get_refusal_of e ≡ None) }
    ensures bytes { OnOk result (out.new.items ≡ out.old.items ++ bytes_in (λ w. live (R.words r.old) (place + w)) from (to - from)) }
    ensures words { R.words r.new ≡ R.words r.old }
    ensures stays { Stays R.keeps_rest R.ready R.count R.health R.below r.old r.new }
    ensures ends { EndsBy (R.health r.old) (R.health r.new) (IsErrOf result GetFail.Fault) (IsErrOf result GetFail.Stopped) }
{
    let count = to.div_ceil(8);
    let mut words = [0; RUN_WORDS];
    let mut line = [0; RUN_BYTES];
    push_through(
        r,
        place,
        &mut words[..count],
        &mut line[..8 * count],
        from,
        to,
        out,
    )
}

/// Adds bytes `from` to `to` of at most a page of words, from a place on.
fn push_run<R: RegionWords>(
    r: &mut R,
    place: u32,
    from: usize,
    to: usize,
    out: &mut Vec<u8>,
) -> Result<(), GetFail>
    requires ready { R.ready r.old }
    requires region { IsRegion (R.count r.old) (R.words r.old) }
    requires order { from ≤ to }
    requires few { to ≤ 4096 }
    requires place { place + (to + 7) / 8 ≤ places (R.words r.old) }
    ensures told { IfErr result (λ e. get_refusal_of e ≡ None) }
    ensures bytes { OnOk result (out.new.items ≡ out.old.items ++ bytes_in (λ w. live (R.words r.old) (place + w)) from (to - from)) }
    ensures words { R.words r.new ≡ R.words r.old }
    ensures stays { Stays R.keeps_rest R.ready R.count R.health R.below r.old r.new }
    ensures ends { EndsBy (R.health r.old) (R.health r.new) (IsErrOf result GetFail.Fault) (IsErrOf result GetFail.Stopped) }
{
    if to > SHORT_BYTES {
        return push_long(r, place, from, to, out);
    }
    let count = to.div_ceil(8);
    let mut words = [0; SHORT_WORDS];
    let mut line = [0; SHORT_BYTES];
    push_through(
        r,
        place,
        &mut words[..count],
        &mut line[..8 * count],
        from,
        to,
        out,
    )
}

/// Adds bytes `off` to `end` of the words from a place on.
pub(crate) fn push_bytes<R: RegionWords>(
    r: &mut R,
    place: u32,
    off: usize,
    end: usize,
    out: &mut Vec<u8>,
) -> Result<(), GetFail>
    requires ready { R.ready r.old }
    requires region { IsRegion (R.count r.old) (R.words r.old) }
    requires order { off ≤ end }
    requires place { place + (end + 7) / 8 ≤ places (R.words r.old) }
    ensures told { IfErr result (λ e. get_refusal_of e ≡ None) }
    ensures bytes { OnOk result (out.new.items ≡ out.old.items ++ bytes_in (λ w. live (R.words r.old) (place + w)) off (end - off)) }
    ensures words { R.words r.new ≡ R.words r.old }
    ensures stays { Stays R.keeps_rest R.ready R.count R.health R.below r.old r.new }
    ensures ends { EndsBy (R.health r.old) (R.health r.new) (IsErrOf result GetFail.Fault) (IsErrOf result GetFail.Stopped) }
{
    let mut at = off;
    while at < end {
        let first = at / 8;
        let next = end.min(8 * first + RUN_BYTES);
        push_run(
            r,
            place + first as u32,
            at - 8 * first,
            next - 8 * first,
            out,
        )?;
        at = next;
    }
    Ok(())
}
