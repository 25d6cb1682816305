//! Calls on a region and its undo list, and what each answers.

ghost use Rattle.std.specs.Prelude.{◌<◌, ◌≤◌, ◌+◌, length};
ghost use Rattle.rio_base.specs.Frames.{Stays};
ghost use Rattle.rio_model.specs.Undo.{CoversAll, IsRegion, places, undo_records};

use rio_base::{RegionWords, RunFail, VolFail};
use undo_list::{
    UndoFail, covered, covered_from_head, drop_all, put_covered_run, read_header, rewind, room,
    set_range, set_range_by_header, uncounted, word_at,
};

/// The place of the first data word of a region of one map page.
pub(crate) const DATA: u32 = 512;

/// The place of the number of undo pages in a region's header.
const UNDO: u32 = 1;

/// How many places each region of these tests has at least: those of one page of map and one of data.
const PLACES: u32 = 1024;

/// A call.
#[derive(Clone, Copy)]
pub(crate) enum Call {
    /// Saves places: the first, and how many.
    Save(u32, u32),
    /// Saves places, and stores a word at the first of them.
    Change(u32, u32, u64),
    /// Saves the places of two words by one header, and stores the words by the next.
    ChangeByHeaders(u32, [u64; 2]),
    /// Whether places are covered: the first, and how many.
    Covered(u32, u32),
    Room,
    Word(u32),
    Rewind,
    DropAll,
}

/// What a call answers.
#[derive(Clone, Copy, Debug, PartialEq, Eq)]
pub(crate) enum Said {
    Done,
    Is(bool),
    Number(u64),
    /// The header by which words were stored: undo pages, data pages, and what names the newest record.
    Header(u32, u32, u64),
    NotCovered,
    Full,
    Fault,
    Stopped,
}

impl From<VolFail> for Said {
    fn from(fail: VolFail) -> Said {
        match fail {
            VolFail::Fault => Said::Fault,
            VolFail::Stopped => Said::Stopped,
        }
    }
}

impl From<RunFail> for Said {
    fn from(fail: RunFail) -> Said {
        match fail {
            RunFail::Fault(_) => Said::Fault,
            RunFail::Stopped => Said::Stopped,
        }
    }
}

impl From<UndoFail> for Said {
    fn from(fail: UndoFail) -> Said {
        match fail {
            UndoFail::Full => Said::Full,
            UndoFail::Fault => Said::Fault,
            UndoFail::Stopped => Said::Stopped,
        }
    }
}

/// Saves places.
pub(crate) fn save<R: RegionWords>(r: &mut R, first: u32, count: u32) -> Result<(), UndoFail>
    requires ready { R.ready r.old }
    requires region { IsRegion (R.count r.old) (R.words r.old) }
    ensures region { IsRegion (R.count r.new) (R.words r.new) }
    ensures stays { Stays R.keeps_rest R.ready R.count R.health R.below r.old r.new }
{
    let first = first.min(PLACES);
    set_range(r, first, count.min(PLACES - first))
}

/// Whether places are covered.
pub(crate) fn is_covered<R: RegionWords>(r: &mut R, first: u32, count: u32) -> Result<bool, VolFail>
    requires ready { R.ready r.old }
    requires region { IsRegion (R.count r.old) (R.words r.old) }
    ensures region { IsRegion (R.count r.new) (R.words r.new) }
    ensures stays { Stays R.keeps_rest R.ready R.count R.health R.below r.old r.new }
{
    let first = first.min(PLACES);
    covered(r, first, count.min(PLACES - first))
}

/// Stores a word at a place that a record covers.
fn put_word<R: RegionWords>(r: &mut R, place: u32, value: u64) -> Result<(), VolFail>
    requires ready { R.ready r.old }
    requires region { IsRegion (R.count r.old) (R.words r.old) }
    requires place { place < places (R.words r.old) }
    requires covered { CoversAll (undo_records (R.words r.old)) place 1 }
    ensures region { IsRegion (R.count r.new) (R.words r.new) }
    ensures stays { Stays R.keeps_rest R.ready R.count R.health R.below r.old r.new }
{
    let undo = r.word(UNDO)?;
    uncounted(put_covered_run(r, undo as u32, place, &[value]))
}

/// Saves `count` places from `place` on, and stores a word at the first of them.
fn change<R: RegionWords>(r: &mut R, place: u32, count: u32, value: u64) -> Result<(), UndoFail>
    requires ready { R.ready r.old }
    requires region { IsRegion (R.count r.old) (R.words r.old) }
    requires some { 1 ≤ count }
    requires place { place + count ≤ PLACES }
    ensures region { IsRegion (R.count r.new) (R.words r.new) }
    ensures stays { Stays R.keeps_rest R.ready R.count R.health R.below r.old r.new }
{
    set_range(r, place, count)?;
    put_word(r, place, value)?;
    Ok(())
}

/// Saves the places of some words by one header, and stores the words by the next, which is answered.
fn change_by_headers<R: RegionWords>(r: &mut R, place: u32, words: &[u64]) -> Result<Said, Said>
    requires ready { R.ready r.old }
    requires region { IsRegion (R.count r.old) (R.words r.old) }
    requires place { place + length words.now ≤ PLACES }
    ensures ready { R.ready r.new }
    ensures region { IsRegion (R.count r.new) (R.words r.new) }
{
    let count = words.len() as u32;
    let before = read_header(r)?;
    set_range_by_header(r, before, place, count)?;
    let header = read_header(r)?;
    if !covered_from_head(r, header.head, place, count)? {
        return Err(Said::NotCovered);
    }
    put_covered_run(r, header.undo, place, words)?;
    Ok(Said::Header(header.undo, header.data, header.head))
}

/// Makes a call. An error is an answer too.
fn answer<R: RegionWords>(r: &mut R, call: Call) -> Result<Said, Said>
    requires ready { R.ready r.old }
    requires region { IsRegion (R.count r.old) (R.words r.old) }
    ensures ready { R.ready r.new }
    ensures region { IsRegion (R.count r.new) (R.words r.new) }
{
    match call {
        Call::Save(first, count) => save(r, first, count)?,
        Call::Change(place, count, value) => {
            let place = place.min(PLACES - 1);
            change(r, place, count.clamp(1, PLACES - place), value)?;
        }
        Call::ChangeByHeaders(place, words) => {
            return change_by_headers(r, place.min(PLACES - 2), &words);
        }
        Call::Covered(first, count) => return Ok(Said::Is(is_covered(r, first, count)?)),
        Call::Room => return Ok(Said::Number(u64::from(room(r)?))),
        Call::Word(place) => return Ok(Said::Number(word_at(r, place.min(PLACES - 1))?)),
        Call::Rewind => rewind(r)?,
        Call::DropAll => drop_all(r)?,
    }
    Ok(Said::Done)
}

/// Makes a call.
pub(crate) fn make<R: RegionWords>(r: &mut R, call: Call) -> Said
    requires ready { R.ready r.old }
    requires region { IsRegion (R.count r.old) (R.words r.old) }
    ensures ready { R.ready r.new }
    ensures region { IsRegion (R.count r.new) (R.words r.new) }
{
    match answer(r, call) {
        Ok(said) => said,
        Err(said) => said,
    }
}
