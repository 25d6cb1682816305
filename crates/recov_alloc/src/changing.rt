//! The map words of a block changed, under a record of what they were.

ghost use Rattle.std.specs.Prelude.{◌≡◌, ◌+◌, ◌*◌, ◌/◌, ◌%◌, ◌<◌, ◌≤◌, IsErrOf, OnOk, if◌then◌else◌};
ghost use Rattle.rio_base.specs.Blocks.{EndsBy};
ghost use Rattle.rio_base.specs.Frames.{Stays};
ghost use Rattle.rio_model.specs.Undo.{Gains, IsRegion, Undoes, taken, undo_records, undo_words};
ghost use Rattle.rio_model.specs.Heap.{touched_pages, units_of};
ghost use Rattle.undo_list.specs.Records.{IsHeader};
ghost use Rattle.recov_alloc.specs.Marks.{ChangesMap};

use crate::marking::{mark_block, mark_words};
use rio_base::RegionWords;
use undo_list::{Header, UndoFail, read_places_behind, set_pair, set_range_by_header};

/// Saves the map words of the pages that a block touches.
fn save_map<R: RegionWords>(r: &mut R, header: Header, at: u32, units: u32) -> Result<(), UndoFail>
    requires ready { R.ready r.old }
    requires region { IsRegion (R.count r.old) (R.words r.old) }
    requires header { IsHeader (R.words r.old) header }
    requires units { 1 ≤ units }
    requires within { at + units ≤ units_of (R.words r.old) }
    ensures ok { OnOk result (Gains (R.count r.old) (R.words r.old) (R.words r.new) (2 * (at / 64)) (2 * touched_pages at units)) }
    ensures room { OnOk result (taken (undo_records (R.words r.old)) + 3 + 2 * touched_pages at units ≤ undo_words (R.words r.old)) }
    ensures full { IsErrOf result UndoFail.Full → undo_words (R.words r.old) < taken (undo_records (R.words r.old)) + 3 + 2 * touched_pages at units }
    ensures refused { IsErrOf result UndoFail.Full → R.words r.new ≡ R.words r.old }
    ensures before { Undoes (R.count r.old) (R.words r.old) (R.words r.new) }
    ensures stays { Stays R.keeps_rest R.ready R.count R.health R.below r.old r.new }
    ensures ends { EndsBy (R.health r.old) (R.health r.new) (IsErrOf result UndoFail.Fault) (IsErrOf result UndoFail.Stopped) }
{
    let first = at / 64;
    let last = (at + units - 1) / 64;
    set_range_by_header(r, header, 2 * first, 2 * (last - first + 1))
}

/// `change_map`, for a block in one page: its two map words are read once, for the record and for what is stored.
fn change_page<R: RegionWords>(
    r: &mut R,
    header: Header,
    at: u32,
    units: u32,
    on: bool,
) -> Result<(), UndoFail>
    requires ready { R.ready r.old }
    requires region { IsRegion (R.count r.old) (R.words r.old) }
    requires header { IsHeader (R.words r.old) header }
    requires units { 1 ≤ units }
    requires page { at % 64 + units ≤ 64 }
    requires within { at + units ≤ units_of (R.words r.old) }
    ensures ok { OnOk result (ChangesMap (R.words r.old) (R.words r.new) at units (if on then 1 else 0)) }
    ensures room { OnOk result (taken (undo_records (R.words r.old)) + 3 + 2 * touched_pages at units ≤ undo_words (R.words r.old)) }
    ensures full { IsErrOf result UndoFail.Full → undo_words (R.words r.old) < taken (undo_records (R.words r.old)) + 3 + 2 * touched_pages at units }
    ensures refused { IsErrOf result UndoFail.Full → R.words r.new ≡ R.words r.old }
    ensures before { Undoes (R.count r.old) (R.words r.old) (R.words r.new) }
    ensures stays { Stays R.keeps_rest R.ready R.count R.health R.below r.old r.new }
    ensures ends { EndsBy (R.health r.old) (R.health r.new) (IsErrOf result UndoFail.Fault) (IsErrOf result UndoFail.Stopped) }
{
    let place = 2 * (at / 64);
    let mut words = [0; 2];
    read_places_behind(r, header.undo, place, &mut words)?;
    set_pair(r, header, place, words[0], words[1])?;
    mark_words(r, header.undo, &words, at, units, true, on)?;
    Ok(())
}

/// Makes the units of a block used or free, and its start with them, under a record of the map words of its pages. `Full`
/// comes exactly where that has no room, and changes nothing. The caller has read the header.
pub(crate) fn change_map<R: RegionWords>(
    r: &mut R,
    header: Header,
    at: u32,
    units: u32,
    on: bool,
) -> Result<(), UndoFail>
    requires ready { R.ready r.old }
    requires region { IsRegion (R.count r.old) (R.words r.old) }
    requires header { IsHeader (R.words r.old) header }
    requires units { 1 ≤ units }
    requires within { at + units ≤ units_of (R.words r.old) }
    ensures ok { OnOk result (ChangesMap (R.words r.old) (R.words r.new) at units (if on then 1 else 0)) }
    ensures room { OnOk result (taken (undo_records (R.words r.old)) + 3 + 2 * touched_pages at units ≤ undo_words (R.words r.old)) }
    ensures full { IsErrOf result UndoFail.Full → undo_words (R.words r.old) < taken (undo_records (R.words r.old)) + 3 + 2 * touched_pages at units }
    ensures refused { IsErrOf result UndoFail.Full → R.words r.new ≡ R.words r.old }
    ensures before { Undoes (R.count r.old) (R.words r.old) (R.words r.new) }
    ensures stays { Stays R.keeps_rest R.ready R.count R.health R.below r.old r.new }
    ensures ends { EndsBy (R.health r.old) (R.health r.new) (IsErrOf result UndoFail.Fault) (IsErrOf result UndoFail.Stopped) }
{
    if at % 64 + units <= 64 {
        return change_page(r, header, at, units, on);
    }
    save_map(r, header, at, units)?;
    mark_block(r, header.undo, at, units, on)?;
    Ok(())
}
