//! The words at a region's places: those of its heap map, and behind them those of its data.

ghost use Rattle.std.specs.Prelude.{◌≡◌, ◌+◌, ◌<◌, ◌≤◌, IfOk, OnOk, length};
ghost use Rattle.rio_base.specs.Blocks.{Ends, FaultAt, as_word};
ghost use Rattle.rio_base.specs.Regions.{AreWords};
ghost use Rattle.rio_base.specs.Frames.{Stays};
ghost use Rattle.rio_model.specs.Undo.{CoversAll, IsRegion, Puts, live, places, undo_records};
ghost use Rattle.undo_list.specs.Stages.{PutsFront};

use crate::records::{DATA, UNDO};
use rio_base::{RegionWords, RunFail, VolFail};

/// How many data pages there are.
pub fn data_pages<R: RegionWords>(r: &mut R) -> Result<u32, VolFail>
    requires ready { R.ready r.old }
    requires region { IsRegion (R.count r.old) (R.words r.old) }
    ensures value { IfOk result (λ n. n ≡ R.words r.old 2) }
    ensures words { R.words r.new ≡ R.words r.old }
    ensures region { IsRegion (R.count r.new) (R.words r.new) }
    ensures stays { Stays R.keeps_rest R.ready R.count R.health R.below r.old r.new }
    ensures ends { Ends (R.health r.old) (R.health r.new) result }
{
    let pages = r.word(DATA)?;
    Ok(pages as u32)
}

/// The word at a place, as it is.
pub fn word_at<R: RegionWords>(r: &mut R, place: u32) -> Result<u64, VolFail>
    requires ready { R.ready r.old }
    requires region { IsRegion (R.count r.old) (R.words r.old) }
    requires place { place < places (R.words r.old) }
    ensures value { IfOk result (λ v. v ≡ live (R.words r.old) place) }
    ensures words { R.words r.new ≡ R.words r.old }
    ensures region { IsRegion (R.count r.new) (R.words r.new) }
    ensures stays { Stays R.keeps_rest R.ready R.count R.health R.below r.old r.new }
    ensures ends { Ends (R.health r.old) (R.health r.new) result }
{
    let undo = r.word(UNDO)?;
    r.word(512 * (1 + undo as u32) + place)
}

/// Reads the words at a run of places from `place` on, as many as `into` has. After a failure `into` may hold anything.
pub fn read_places<R: RegionWords>(r: &mut R, place: u32, into: &mut [u64]) -> Result<(), VolFail>
    requires ready { R.ready r.old }
    requires region { IsRegion (R.count r.old) (R.words r.old) }
    requires place { place + length into.old ≤ places (R.words r.old) }
    ensures value { OnOk result (AreWords (live (R.words r.old)) place (length into.old) into.new) }
    ensures len { length into.new ≡ length into.old }
    ensures words { R.words r.new ≡ R.words r.old }
    ensures region { IsRegion (R.count r.new) (R.words r.new) }
    ensures stays { Stays R.keeps_rest R.ready R.count R.health R.below r.old r.new }
    ensures ends { Ends (R.health r.old) (R.health r.new) result }
{
    let undo = r.word(UNDO)?;
    read_places_behind(r, undo as u32, place, into)
}

/// `read_places`, for a caller that has read the header: `undo` is how many undo pages there are.
pub fn read_places_behind<R: RegionWords>(
    r: &mut R,
    undo: u32,
    place: u32,
    into: &mut [u64],
) -> Result<(), VolFail>
    requires ready { R.ready r.old }
    requires region { IsRegion (R.count r.old) (R.words r.old) }
    requires undo { undo ≡ R.words r.old 1 }
    requires place { place + length into.old ≤ places (R.words r.old) }
    ensures value { OnOk result (AreWords (live (R.words r.old)) place (length into.old) into.new) }
    ensures len { length into.new ≡ length into.old }
    ensures words { R.words r.new ≡ R.words r.old }
    ensures region { IsRegion (R.count r.new) (R.words r.new) }
    ensures stays { Stays R.keeps_rest R.ready R.count R.health R.below r.old r.new }
    ensures ends { Ends (R.health r.old) (R.health r.new) result }
{
    r.read_run(512 * (1 + undo) + place, into)
}

/// Stores the words at a run of places from `place` on that records cover, in rising order, for a caller that has read the
/// header: `undo` is how many undo pages there are. The words of before stay the same; `Fault` says how many words were
/// stored, and `Stopped` leaves a front of them stored.
pub fn put_covered_run<R: RegionWords>(
    r: &mut R,
    undo: u32,
    place: u32,
    words: &[u64],
) -> Result<(), RunFail>
    requires ready { R.ready r.old }
    requires region { IsRegion (R.count r.old) (R.words r.old) }
    requires undo { undo ≡ R.words r.old 1 }
    requires place { place + length words.now ≤ places (R.words r.old) }
    requires covered { CoversAll (undo_records (R.words r.old)) place (length words.now) }
    ensures ok { OnOk result (Puts (R.count r.old) (R.words r.old) (R.words r.new) place (length words.now) words.now) }
    ensures fault { FaultAt result (λ n. (n ≤ length words.now) × Puts (R.count r.old) (R.words r.old) (R.words r.new) place n words.now) }
    ensures front { PutsFront (R.count r.old) (R.words r.old) (R.words r.new) place words.now }
    ensures region { IsRegion (R.count r.new) (R.words r.new) }
    ensures stays { Stays R.keeps_rest R.ready R.count R.health R.below r.old r.new }
    ensures ends { Ends (R.health r.old) (R.health r.new) (as_word result) }
{
    r.set_run(512 * (1 + undo) + place, words)
}
