//! The bits of a block, set or cleared where a record covers its map words.

ghost use Rattle.std.specs.Prelude.{◌≡◌, ◌+◌, ◌*◌, ◌/◌, ◌%◌, ◌<◌, ◌≤◌, OnOk, if◌then◌else◌, length};
ghost use Rattle.rio_base.specs.Blocks.{Ends};
ghost use Rattle.rio_base.specs.Regions.{AreWords};
ghost use Rattle.rio_base.specs.Frames.{Stays};
ghost use Rattle.rio_model.specs.Undo.{CoversAll, IsRegion, Keeps, live, undo_records};
ghost use Rattle.rio_model.specs.Heap.{units_of};
ghost use Rattle.recov_alloc.specs.Marks.{MapCovered, MarksBlock, StoresPair};

use rio_base::{RegionWords, VolFail};
use undo_list::{put_covered_run, read_places_behind, uncounted, with_bits};

/// Makes units of one page from `at` on used or free, and the start of a block at the first of them set or cleared where
/// `start` says so: the page's two map words lie side by side, and are stored by one call. The caller has read them, and
/// the region has `undo` undo pages.
pub(crate) fn mark_words<R: RegionWords>(
    r: &mut R,
    undo: u32,
    words: &[u64],
    at: u32,
    units: u32,
    start: bool,
    on: bool,
) -> Result<(), VolFail>
    requires ready { R.ready r.old }
    requires region { IsRegion (R.count r.old) (R.words r.old) }
    requires undo { undo ≡ R.words r.old 1 }
    requires pair { length words.now ≡ 2 }
    requires words { AreWords (live (R.words r.old)) (2 * (at / 64)) 2 words.now }
    requires units { 1 ≤ units }
    requires page { at % 64 + units ≤ 64 }
    requires within { at + units ≤ units_of (R.words r.old) }
    requires covered { CoversAll (undo_records (R.words r.old)) (2 * (at / 64)) 2 }
    ensures ok { OnOk result (StoresPair (live (R.words r.old)) (live (R.words r.new)) at units (if start then 1 else 0) (if on then 1 else 0)) }
    ensures keeps { Keeps (R.count r.old) (R.words r.old) (R.words r.new) }
    ensures stays { Stays R.keeps_rest R.ready R.count R.health R.below r.old r.new }
    ensures ends { Ends (R.health r.old) (R.health r.new) result }
{
    let bit = at % 64;
    let used = with_bits(words[0], bit, bit + units, on);
    let starts = with_bits(words[1], bit, bit + u32::from(start), on);
    uncounted(put_covered_run(r, undo, 2 * (at / 64), &[used, starts]))
}

/// `mark_words`, which reads the map words.
fn mark_page<R: RegionWords>(
    r: &mut R,
    undo: u32,
    at: u32,
    units: u32,
    start: bool,
    on: bool,
) -> Result<(), VolFail>
    requires ready { R.ready r.old }
    requires region { IsRegion (R.count r.old) (R.words r.old) }
    requires undo { undo ≡ R.words r.old 1 }
    requires units { 1 ≤ units }
    requires page { at % 64 + units ≤ 64 }
    requires within { at + units ≤ units_of (R.words r.old) }
    requires covered { CoversAll (undo_records (R.words r.old)) (2 * (at / 64)) 2 }
    ensures ok { OnOk result (StoresPair (live (R.words r.old)) (live (R.words r.new)) at units (if start then 1 else 0) (if on then 1 else 0)) }
    ensures keeps { Keeps (R.count r.old) (R.words r.old) (R.words r.new) }
    ensures stays { Stays R.keeps_rest R.ready R.count R.health R.below r.old r.new }
    ensures ends { Ends (R.health r.old) (R.health r.new) result }
{
    let mut words = [0; 2];
    read_places_behind(r, undo, 2 * (at / 64), &mut words)?;
    mark_words(r, undo, &words, at, units, start, on)
}

/// Adds a block to the map, or takes it away, by one store for each data page: the used bits of its units, and in the first
/// page its start bit. The region has `undo` undo pages.
pub(crate) fn mark_block<R: RegionWords>(
    r: &mut R,
    undo: u32,
    at: u32,
    units: u32,
    on: bool,
) -> Result<(), VolFail>
    requires ready { R.ready r.old }
    requires region { IsRegion (R.count r.old) (R.words r.old) }
    requires undo { undo ≡ R.words r.old 1 }
    requires units { 1 ≤ units }
    requires within { at + units ≤ units_of (R.words r.old) }
    requires covered { MapCovered (R.words r.old) at units }
    ensures ok { OnOk result (MarksBlock (live (R.words r.old)) (live (R.words r.new)) at units (if on then 1 else 0)) }
    ensures keeps { Keeps (R.count r.old) (R.words r.old) (R.words r.new) }
    ensures stays { Stays R.keeps_rest R.ready R.count R.health R.below r.old r.new }
    ensures ends { Ends (R.health r.old) (R.health r.new) result }
{
    let end = at + units;
    let mut next = at;
    while next < end {
        let run = (64 - next % 64).min(end - next);
        mark_page(r, undo, next, run, next == at, on)?;
        next += run;
    }
    Ok(())
}
