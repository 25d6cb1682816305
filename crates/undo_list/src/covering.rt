//! Whether records cover places.

ghost use Rattle.std.specs.Prelude.{◌≡◌, ℕ, ◌+◌, ◌-◌, ◌*◌, ◌<◌, ◌≤◌, ◌⊎◌, IfOk, MatchBool, length};
ghost use Rattle.rio_base.specs.Blocks.{Ends};
ghost use Rattle.rio_base.specs.Frames.{Stays};
ghost use Rattle.rio_model.specs.Undo.{CoversAll, IsRegion, places, undo_records};
ghost use Rattle.undo_list.specs.Records.{Awaits, MarksRecord};
ghost use Rattle.undo_list.specs.Bits.{mark_of};

use crate::marks::{mark, unmarked_from};
use crate::records::{SavedAt, record_at};
use rio_base::{RegionWords, UNDO_HEAD, VolFail};

/// The places from `from` up to before `to`.
#[derive(Clone, Copy)]
pub(crate) struct Span {
    pub(crate) from: u32,
    pub(crate) to: u32,
}

/// Words of marks for short spans, as long as a page: few to clear.
const SHORT_MARKS: u32 = 8;

/// Words of marks for all places of the largest region that a volume can have, of 1,046 pages of map and data.
const MARKS: u32 = 8 * 1_046;

/// The most places that are looked at together, a mark for each.
const REACH: u32 = 64 * MARKS;

/// The place behind a record's last one, where it covers `place`; else `place`.
fn past(saved: &SavedAt, place: u32) -> u32
    requires fits { saved.now.first + saved.now.count < 4294967296 }
    ensures inside { saved.now.first ≤ place → place < saved.now.first + saved.now.count → result ≡ saved.now.first + saved.now.count }
    ensures outside { (place < saved.now.first) ⊎ (saved.now.first + saved.now.count ≤ place) → result ≡ place }
{
    let end = saved.first + saved.count;
    if place < saved.first || end <= place {
        return place;
    }
    end
}

/// A record's first place, where it covers the place before `to`; else `to`.
fn short_of(saved: &SavedAt, to: u32) -> u32
    requires fits { saved.now.first + saved.now.count < 4294967296 }
    ensures inside { saved.now.first < to → to ≤ saved.now.first + saved.now.count → result ≡ saved.now.first }
    ensures outside { (to ≤ saved.now.first) ⊎ (saved.now.first + saved.now.count < to) → result ≡ to }
{
    let end = saved.first + saved.count;
    if to <= saved.first || end < to {
        return to;
    }
    saved.first
}

/// Whether a record lies between the ends of a span and reaches neither.
fn lies_between(saved: &SavedAt, span: Span) -> bool
    requires fits { saved.now.first + saved.now.count < 4294967296 }
    ensures { MatchBool result ((span.from < saved.now.first) × (saved.now.first + saved.now.count < span.to)) ((saved.now.first ≤ span.from) ⊎ (span.to ≤ saved.now.first + saved.now.count)) }
{
    if saved.first <= span.from {
        return false;
    }
    saved.first + saved.count < span.to
}

/// Marks the places of a span, counted from its first one, that a record covers.
fn mark_record(marks: &mut [u64], saved: &SavedAt, span: Span)
    requires fits { saved.now.first + saved.now.count < 4294967296 }
    requires order { span.from < span.to }
    requires within { span.to ≤ span.from + 64 * length marks.old }
    ensures { MarksRecord marks.old marks.new saved.now.first saved.now.count span }
{
    let first = saved.first.max(span.from);
    let end = (saved.first + saved.count).min(span.to);
    if first < end {
        mark(marks, first - span.from, end - span.from);
    }
}

/// Whether each place of a span is covered: follows the records from `newest` on and marks the places that they cover. The
/// places before the first one that is not marked are passed over once in all.
fn covers_marking<R: RegionWords>(
    r: &mut R,
    newest: SavedAt,
    span: Span,
    marks: &mut [u64],
) -> Result<bool, VolFail>
    requires ready { R.ready r.old }
    requires region { IsRegion (R.count r.old) (R.words r.old) }
    requires newest { Awaits (R.words r.old) newest span }
    requires some { span.from < span.to }
    requires reach { span.to ≤ span.from + 64 * length marks.old }
    requires clear { (i : ℕ) → mark_of marks.old i ≡ 0 }
    ensures value { IfOk result (λ b. MatchBool b (CoversAll (undo_records (R.words r.old)) span.from (span.to - span.from)) (CoversAll (undo_records (R.words r.old)) span.from (span.to - span.from) → ⊥)) }
    ensures words { R.words r.new ≡ R.words r.old }
    ensures stays { Stays R.keeps_rest R.ready R.count R.health R.below r.old r.new }
    ensures ends { Ends (R.health r.old) (R.health r.new) result }
{
    let count = span.to - span.from;
    let mut saved = newest;
    let mut done = 0;
    'records: loop {
        mark_record(marks, &saved, span);
        done = unmarked_from(marks, done, count);
        if done == count {
            return Ok(true);
        }
        if saved.older == 0 {
            return Ok(false);
        }
        saved = record_at(r, saved.older)?;
    }
}

/// `covers_marking` with marks for the longest span.
#[inline(never)]
fn covers_long<R: RegionWords>(r: &mut R, newest: SavedAt, span: Span) -> Result<bool, VolFail>
    requires ready { R.ready r.old }
    requires region { IsRegion (R.count r.old) (R.words r.old) }
    requires newest { Awaits (R.words r.old) newest span }
    requires some { span.from < span.to }
    requires reach { span.to ≤ span.from + REACH }
    ensures value { IfOk result (λ b. MatchBool b (CoversAll (undo_records (R.words r.old)) span.from (span.to - span.from)) (CoversAll (undo_records (R.words r.old)) span.from (span.to - span.from) → ⊥)) }
    ensures words { R.words r.new ≡ R.words r.old }
    ensures stays { Stays R.keeps_rest R.ready R.count R.health R.below r.old r.new }
    ensures ends { Ends (R.health r.old) (R.health r.new) result }
{
    let mut marks = [0; MARKS as usize];
    covers_marking(r, newest, span, &mut marks)
}

/// `covers_marking` with as many marks as the span takes: a short one clears few.
#[inline(never)]
fn covers_from<R: RegionWords>(r: &mut R, newest: SavedAt, span: Span) -> Result<bool, VolFail>
    requires ready { R.ready r.old }
    requires region { IsRegion (R.count r.old) (R.words r.old) }
    requires newest { Awaits (R.words r.old) newest span }
    requires some { span.from < span.to }
    requires reach { span.to ≤ span.from + REACH }
    ensures value { IfOk result (λ b. MatchBool b (CoversAll (undo_records (R.words r.old)) span.from (span.to - span.from)) (CoversAll (undo_records (R.words r.old)) span.from (span.to - span.from) → ⊥)) }
    ensures words { R.words r.new ≡ R.words r.old }
    ensures stays { Stays R.keeps_rest R.ready R.count R.health R.below r.old r.new }
    ensures ends { Ends (R.health r.old) (R.health r.new) result }
{
    if span.to - span.from > 64 * SHORT_MARKS {
        return covers_long(r, newest, span);
    }
    let mut marks = [0; SHORT_MARKS as usize];
    covers_marking(r, newest, span, &mut marks)
}

/// Whether each of at most `REACH` places is covered. The records are followed once, newest first: one that covers the first
/// place that is left, or the last one, takes its own places off that end, and from the first record on that lies between
/// them the places are marked. `newest` names the newest record.
fn covers<R: RegionWords>(r: &mut R, newest: u64, place: u32, count: u32) -> Result<bool, VolFail>
    requires ready { R.ready r.old }
    requires region { IsRegion (R.count r.old) (R.words r.old) }
    requires head { newest ≡ R.words r.old 3 }
    requires place { place + count ≤ places (R.words r.old) }
    requires reach { count ≤ REACH }
    ensures value { IfOk result (λ b. MatchBool b (CoversAll (undo_records (R.words r.old)) place count) (CoversAll (undo_records (R.words r.old)) place count → ⊥)) }
    ensures words { R.words r.new ≡ R.words r.old }
    ensures stays { Stays R.keeps_rest R.ready R.count R.health R.below r.old r.new }
    ensures ends { Ends (R.health r.old) (R.health r.new) result }
{
    let mut head = newest;
    let mut left = Span {
        from: place,
        to: place + count,
    };
    while head != 0 {
        if left.to <= left.from {
            return Ok(true);
        }
        let saved = record_at(r, head)?;
        if lies_between(&saved, left) {
            return covers_from(r, saved, left);
        }
        left = Span {
            from: past(&saved, left.from),
            to: short_of(&saved, left.to),
        };
        head = saved.older;
    }
    Ok(left.to <= left.from)
}

/// Whether each of `count` places from `place` on is covered by some record. The records are followed once, whatever ranges
/// they are of together; more than 535,552 places, which no region of a volume has, are looked at so many at a time.
pub fn covered<R: RegionWords>(r: &mut R, place: u32, count: u32) -> Result<bool, VolFail>
    requires ready { R.ready r.old }
    requires region { IsRegion (R.count r.old) (R.words r.old) }
    requires place { place + count ≤ places (R.words r.old) }
    ensures value { IfOk result (λ b. MatchBool b (CoversAll (undo_records (R.words r.old)) place count) (CoversAll (undo_records (R.words r.old)) place count → ⊥)) }
    ensures words { R.words r.new ≡ R.words r.old }
    ensures region { IsRegion (R.count r.new) (R.words r.new) }
    ensures stays { Stays R.keeps_rest R.ready R.count R.health R.below r.old r.new }
    ensures ends { Ends (R.health r.old) (R.health r.new) result }
{
    if count == 0 {
        return Ok(true);
    }
    let head = r.word(UNDO_HEAD)?;
    covered_from_head(r, head, place, count)
}

/// `covered`, for a caller that has read the header: `head` is what names the newest record.
pub fn covered_from_head<R: RegionWords>(
    r: &mut R,
    head: u64,
    place: u32,
    count: u32,
) -> Result<bool, VolFail>
    requires ready { R.ready r.old }
    requires region { IsRegion (R.count r.old) (R.words r.old) }
    requires head { head ≡ R.words r.old 3 }
    requires place { place + count ≤ places (R.words r.old) }
    ensures value { IfOk result (λ b. MatchBool b (CoversAll (undo_records (R.words r.old)) place count) (CoversAll (undo_records (R.words r.old)) place count → ⊥)) }
    ensures words { R.words r.new ≡ R.words r.old }
    ensures region { IsRegion (R.count r.new) (R.words r.new) }
    ensures stays { Stays R.keeps_rest R.ready R.count R.health R.below r.old r.new }
    ensures ends { Ends (R.health r.old) (R.health r.new) result }
{
    let mut done = 0;
    while done < count {
        let next = REACH.min(count - done);
        if !covers(r, head, place + done, next)? {
            return Ok(false);
        }
        done += next;
    }
    Ok(true)
}
