//! One record more: the present words of a span of places.

ghost use Rattle.std.specs.Prelude.{◌≡◌, ℕ, ◌+◌, ◌*◌, ◌<◌, ◌≤◌, ◌⊎◌, IfOk, IsErrOf, OnOk};
ghost use Rattle.rio_base.specs.Blocks.{Ends, EndsBy};
ghost use Rattle.rio_base.specs.Frames.{Stays};
ghost use Rattle.rio_model.specs.Undo.{Gains, IsRegion, Rests, Undoes, live, places, taken, undo_records, undo_words};
ghost use Rattle.undo_list.specs.Records.{IsHeader};
ghost use Rattle.undo_list.specs.Stages.{Off, Staged};

use crate::failures::{UndoFail, uncounted};
use crate::records::{FRONT_WORDS, Header, read_header, taken};
use crate::runs::{SHORT_WORDS, copy_words};
use rio_base::{RegionWords, UNDO_HEAD, VolFail};

/// How many undo words are free.
pub fn room<R: RegionWords>(r: &mut R) -> Result<u32, VolFail>
    requires ready { R.ready r.old }
    requires region { IsRegion (R.count r.old) (R.words r.old) }
    ensures value { IfOk result (λ n. n + taken (undo_records (R.words r.old)) ≡ undo_words (R.words r.old)) }
    ensures words { R.words r.new ≡ R.words r.old }
    ensures region { IsRegion (R.count r.new) (R.words r.new) }
    ensures stays { Stays R.keeps_rest R.ready R.count R.health R.below r.old r.new }
    ensures ends { Ends (R.health r.old) (R.health r.new) result }
{
    let header = read_header(r)?;
    let used = taken(r, header.head)?;
    Ok(512 * header.undo - used)
}

/// Writes a record of few words, as `stage` does, by one store of all of them.
fn stage_short<R: RegionWords>(
    r: &mut R,
    at: u32,
    head: u64,
    place: u32,
    from: u32,
    count: u32,
) -> Result<(), VolFail>
    requires ready { R.ready r.old }
    requires few { count ≤ SHORT_WORDS }
    requires source { from + count ≤ R.count r.old }
    requires behind { 515 + at + count ≤ from }
    ensures ok { OnOk result (Staged (R.words r.old) (R.words r.new) at head place from count) }
    ensures off { Off (512 + at) (515 + at + count) (R.words r.old) (R.words r.new) }
    ensures stays { Stays R.keeps_rest R.ready R.count R.health R.below r.old r.new }
    ensures ends { Ends (R.health r.old) (R.health r.new) result }
{
    let mut words = [0; (FRONT_WORDS + SHORT_WORDS) as usize];
    words[0] = head;
    words[1] = u64::from(place);
    words[2] = u64::from(count);
    let end = FRONT_WORDS as usize + count as usize;
    r.read_run(from, &mut words[FRONT_WORDS as usize..end])?;
    uncounted(r.set_run(512 + at, &words[..end]))
}

/// Writes a record of any number of words, as `stage` does: its first three words by one store, then those that it saves.
fn stage_long<R: RegionWords>(
    r: &mut R,
    at: u32,
    head: u64,
    place: u32,
    from: u32,
    count: u32,
) -> Result<(), VolFail>
    requires ready { R.ready r.old }
    requires source { from + count ≤ R.count r.old }
    requires behind { 515 + at + count ≤ from }
    ensures ok { OnOk result (Staged (R.words r.old) (R.words r.new) at head place from count) }
    ensures off { Off (512 + at) (515 + at + count) (R.words r.old) (R.words r.new) }
    ensures stays { Stays R.keeps_rest R.ready R.count R.health R.below r.old r.new }
    ensures ends { Ends (R.health r.old) (R.health r.new) result }
{
    let front = [head, u64::from(place), u64::from(count)];
    uncounted(r.set_run(512 + at, &front))?;
    copy_words(r, from, 515 + at, count)
}

/// Writes a record at undo word `at`, behind the others, and does not publish it: the head before it is `head`, and its
/// words are the `count` from word `from` on, which is that of `place`. In which order its words are stored makes no
/// difference, since no head names it yet.
fn stage<R: RegionWords>(
    r: &mut R,
    at: u32,
    head: u64,
    place: u32,
    from: u32,
    count: u32,
) -> Result<(), VolFail>
    requires ready { R.ready r.old }
    requires source { from + count ≤ R.count r.old }
    requires behind { 515 + at + count ≤ from }
    ensures ok { OnOk result (Staged (R.words r.old) (R.words r.new) at head place from count) }
    ensures off { Off (512 + at) (515 + at + count) (R.words r.old) (R.words r.new) }
    ensures stays { Stays R.keeps_rest R.ready R.count R.health R.below r.old r.new }
    ensures ends { Ends (R.health r.old) (R.health r.new) result }
{
    if count <= SHORT_WORDS {
        return stage_short(r, at, head, place, from, count);
    }
    stage_long(r, at, head, place, from, count)
}

/// Adds the record of `count` words at `place`, where there is room for it: the head is stored last.
fn publish<R: RegionWords>(
    r: &mut R,
    at: u32,
    header: Header,
    place: u32,
    count: u32,
) -> Result<(), VolFail>
    requires ready { R.ready r.old }
    requires region { IsRegion (R.count r.old) (R.words r.old) }
    requires at { at ≡ taken (undo_records (R.words r.old)) }
    requires undo { header.undo ≡ R.words r.old 1 }
    requires head { header.head ≡ R.words r.old 3 }
    requires place { place + count ≤ places (R.words r.old) }
    requires room { at + 3 + count ≤ undo_words (R.words r.old) }
    ensures ok { OnOk result (Gains (R.count r.old) (R.words r.old) (R.words r.new) place count) }
    ensures fault { IsErrOf result VolFail.Fault → Rests (R.count r.old) (R.words r.old) (R.words r.new) }
    ensures either { Rests (R.count r.old) (R.words r.old) (R.words r.new) ⊎ Gains (R.count r.old) (R.words r.old) (R.words r.new) place count }
    ensures stays { Stays R.keeps_rest R.ready R.count R.health R.below r.old r.new }
    ensures ends { Ends (R.health r.old) (R.health r.new) result }
{
    let from = 512 * (1 + header.undo) + place;
    stage(r, at, header.head, place, from, count)?;
    r.set(UNDO_HEAD, u64::from(at) + 1)
}

/// Writes a record of two words, as `stage` does, whose words the caller has read: `first` and `second`.
fn stage_pair<R: RegionWords>(
    r: &mut R,
    at: u32,
    head: u64,
    place: u32,
    first: u64,
    second: u64,
) -> Result<(), VolFail>
    requires ready { R.ready r.old }
    requires room { 515 + at + 2 ≤ R.count r.old }
    ensures ok { OnOk result ((from : ℕ) → first ≡ R.words r.old from → second ≡ R.words r.old (from + 1) → Staged (R.words r.old) (R.words r.new) at head place from 2) }
    ensures off { Off (512 + at) (515 + at + 2) (R.words r.old) (R.words r.new) }
    ensures stays { Stays R.keeps_rest R.ready R.count R.health R.below r.old r.new }
    ensures ends { Ends (R.health r.old) (R.health r.new) result }
{
    let record = [head, u64::from(place), 2, first, second];
    uncounted(r.set_run(512 + at, &record))
}

/// Adds the record of two words at `place`, as `publish` does, whose words the caller has read. `head` names the newest
/// record.
fn publish_pair<R: RegionWords>(
    r: &mut R,
    at: u32,
    head: u64,
    place: u32,
    first: u64,
    second: u64,
) -> Result<(), VolFail>
    requires ready { R.ready r.old }
    requires region { IsRegion (R.count r.old) (R.words r.old) }
    requires at { at ≡ taken (undo_records (R.words r.old)) }
    requires head { head ≡ R.words r.old 3 }
    requires place { place + 2 ≤ places (R.words r.old) }
    requires room { at + 3 + 2 ≤ undo_words (R.words r.old) }
    requires first { first ≡ live (R.words r.old) place }
    requires second { second ≡ live (R.words r.old) (place + 1) }
    ensures ok { OnOk result (Gains (R.count r.old) (R.words r.old) (R.words r.new) place 2) }
    ensures fault { IsErrOf result VolFail.Fault → Rests (R.count r.old) (R.words r.old) (R.words r.new) }
    ensures either { Rests (R.count r.old) (R.words r.old) (R.words r.new) ⊎ Gains (R.count r.old) (R.words r.old) (R.words r.new) place 2 }
    ensures stays { Stays R.keeps_rest R.ready R.count R.health R.below r.old r.new }
    ensures ends { Ends (R.health r.old) (R.health r.new) result }
{
    stage_pair(r, at, head, place, first, second)?;
    r.set(UNDO_HEAD, u64::from(at) + 1)
}

/// Saves the present words of `count` places from `place` on in one record, which takes `3 + count` undo words. `Full`
/// comes exactly where those are not free, and changes nothing. `Fault` leaves the records as they were; `Stopped` leaves
/// them with the new one or without.
pub fn set_range<R: RegionWords>(r: &mut R, place: u32, count: u32) -> Result<(), UndoFail>
    requires ready { R.ready r.old }
    requires region { IsRegion (R.count r.old) (R.words r.old) }
    requires place { place + count ≤ places (R.words r.old) }
    ensures ok { OnOk result (Gains (R.count r.old) (R.words r.old) (R.words r.new) place count) }
    ensures room { OnOk result (taken (undo_records (R.words r.old)) + 3 + count ≤ undo_words (R.words r.old)) }
    ensures full { IsErrOf result UndoFail.Full → undo_words (R.words r.old) < taken (undo_records (R.words r.old)) + 3 + count }
    ensures refused { IsErrOf result UndoFail.Full → R.words r.new ≡ R.words r.old }
    ensures fault { IsErrOf result UndoFail.Fault → Rests (R.count r.old) (R.words r.old) (R.words r.new) }
    ensures either { Rests (R.count r.old) (R.words r.old) (R.words r.new) ⊎ Gains (R.count r.old) (R.words r.old) (R.words r.new) place count }
    ensures before { Undoes (R.count r.old) (R.words r.old) (R.words r.new) }
    ensures region { IsRegion (R.count r.new) (R.words r.new) }
    ensures stays { Stays R.keeps_rest R.ready R.count R.health R.below r.old r.new }
    ensures ends { EndsBy (R.health r.old) (R.health r.new) (IsErrOf result UndoFail.Fault) (IsErrOf result UndoFail.Stopped) }
{
    let header = read_header(r)?;
    set_range_by_header(r, header, place, count)
}

/// `set_range`, for a caller that has read the header.
pub fn set_range_by_header<R: RegionWords>(
    r: &mut R,
    header: Header,
    place: u32,
    count: u32,
) -> Result<(), UndoFail>
    requires ready { R.ready r.old }
    requires region { IsRegion (R.count r.old) (R.words r.old) }
    requires header { IsHeader (R.words r.old) header }
    requires place { place + count ≤ places (R.words r.old) }
    ensures ok { OnOk result (Gains (R.count r.old) (R.words r.old) (R.words r.new) place count) }
    ensures room { OnOk result (taken (undo_records (R.words r.old)) + 3 + count ≤ undo_words (R.words r.old)) }
    ensures full { IsErrOf result UndoFail.Full → undo_words (R.words r.old) < taken (undo_records (R.words r.old)) + 3 + count }
    ensures refused { IsErrOf result UndoFail.Full → R.words r.new ≡ R.words r.old }
    ensures fault { IsErrOf result UndoFail.Fault → Rests (R.count r.old) (R.words r.old) (R.words r.new) }
    ensures either { Rests (R.count r.old) (R.words r.old) (R.words r.new) ⊎ Gains (R.count r.old) (R.words r.old) (R.words r.new) place count }
    ensures before { Undoes (R.count r.old) (R.words r.old) (R.words r.new) }
    ensures region { IsRegion (R.count r.new) (R.words r.new) }
    ensures stays { Stays R.keeps_rest R.ready R.count R.health R.below r.old r.new }
    ensures ends { EndsBy (R.health r.old) (R.health r.new) (IsErrOf result UndoFail.Fault) (IsErrOf result UndoFail.Stopped) }
{
    let at = taken(r, header.head)?;
    if 512 * header.undo - at < FRONT_WORDS + count {
        return Err(UndoFail::Full);
    }
    publish(r, at, header, place, count)?;
    Ok(())
}

/// `set_range_by_header` of two places, for a caller that has read their words, `first` and `second`, too.
pub fn set_pair<R: RegionWords>(
    r: &mut R,
    header: Header,
    place: u32,
    first: u64,
    second: u64,
) -> Result<(), UndoFail>
    requires ready { R.ready r.old }
    requires region { IsRegion (R.count r.old) (R.words r.old) }
    requires header { IsHeader (R.words r.old) header }
    requires place { place + 2 ≤ places (R.words r.old) }
    requires first { first ≡ live (R.words r.old) place }
    requires second { second ≡ live (R.words r.old) (place + 1) }
    ensures ok { OnOk result (Gains (R.count r.old) (R.words r.old) (R.words r.new) place 2) }
    ensures room { OnOk result (taken (undo_records (R.words r.old)) + 3 + 2 ≤ undo_words (R.words r.old)) }
    ensures full { IsErrOf result UndoFail.Full → undo_words (R.words r.old) < taken (undo_records (R.words r.old)) + 3 + 2 }
    ensures refused { IsErrOf result UndoFail.Full → R.words r.new ≡ R.words r.old }
    ensures fault { IsErrOf result UndoFail.Fault → Rests (R.count r.old) (R.words r.old) (R.words r.new) }
    ensures either { Rests (R.count r.old) (R.words r.old) (R.words r.new) ⊎ Gains (R.count r.old) (R.words r.old) (R.words r.new) place 2 }
    ensures before { Undoes (R.count r.old) (R.words r.old) (R.words r.new) }
    ensures region { IsRegion (R.count r.new) (R.words r.new) }
    ensures stays { Stays R.keeps_rest R.ready R.count R.health R.below r.old r.new }
    ensures ends { EndsBy (R.health r.old) (R.health r.new) (IsErrOf result UndoFail.Fault) (IsErrOf result UndoFail.Stopped) }
{
    let at = taken(r, header.head)?;
    if 512 * header.undo - at < FRONT_WORDS + 2 {
        return Err(UndoFail::Full);
    }
    publish_pair(r, at, header.head, place, first, second)?;
    Ok(())
}
