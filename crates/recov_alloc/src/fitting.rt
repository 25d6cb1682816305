//! The lowest gap of the heap map.

ghost use Rattle.std.specs.Prelude.{◌≡◌, ◌≢◌, ℕ, ◌+◌, ◌-◌, ◌*◌, ◌^◌, ◌<◌, ◌≤◌, IfOk, length, slice_index};
ghost use Rattle.rio_base.specs.Blocks.{Ends};
ghost use Rattle.rio_base.specs.Regions.{AreWords};
ghost use Rattle.rio_base.specs.Frames.{Stays};
ghost use Rattle.rio_model.specs.Undo.{IsRegion, live};
ghost use Rattle.rio_model.specs.Heap.{Finds, units_of};
ghost use Rattle.undo_list.specs.Records.{IsHeader};
ghost use Rattle.recov_alloc.specs.Scans.{AllFull, Before, RunFits, ScanEnds};

use rio_base::{RegionWords, VolFail};
use undo_list::{Header, ones_from, read_places_behind, zeros_from};

/// Data pages whose map words the first call of a search reads. Each search clears a room for them, so they are few.
const FIRST_PAGES: u32 = 8;

/// Data pages whose map words each further call reads.
const RUN_PAGES: u32 = 128;

/// What some words of the map show.
#[derive(Clone, Copy)]
enum Scan {
    /// The lowest gap starts at this unit.
    Found(u32),
    /// No gap yet: so many free units lie just before the units of the next word.
    Run(u32),
}

/// Looks for the end of the lowest gap of `units` in the used bits of data page `page`, where `before` free units lie just
/// before it. It goes from one change of the bits to the next.
fn look_in(word: u64, page: u32, before: u32, units: u32) -> Scan
    requires page { 64 * (page + 1) < 4294967296 }
    requires before { before < units }
    requires within { before ≤ 64 * page }
    ensures run { RunFits units (64 * (page + 1)) result }
    ensures scan { (l : ℕ → ℕ) → word ≡ l (2 * page) → Before l units (64 * page) before → ScanEnds l units (64 * (page + 1)) result }
{
    let mut run = before;
    let mut bit = 0;
    while bit < 64 {
        let free = zeros_from(word, bit);
        if units - run <= free {
            return Scan::Found(64 * page + bit - run);
        }
        if bit + free == 64 {
            return Scan::Run(run + free);
        }
        run = 0;
        bit += free + ones_from(word, bit + free);
    }
    Scan::Run(run)
}

/// The page up to which those from `from` on are passed over by eights that have no free unit, by the map words of `count`
/// pages: the used bits of eight pages are all 1 together where those of each are.
fn past_eights(words: &[u64], from: u32, count: u32) -> u32
    requires words { length words.now ≡ 2 * count }
    requires from { from ≤ count }
    ensures low { from ≤ result }
    ensures high { result ≤ count }
    ensures full { AllFull words.now from result }
{
    let mut page = from;
    while 8 <= count - page {
        let at = 2 * page as usize;
        let low = words[at] & words[at + 2] & words[at + 4] & words[at + 6];
        let high = words[at + 8] & words[at + 10] & words[at + 12] & words[at + 14];
        let eight = low & high;
        if eight != u64::MAX {
            return page;
        }
        page += 8;
    }
    page
}

/// The first page from `from` on that has a free unit, or `count` where none has, by the map words of `count` pages.
fn past_full(words: &[u64], from: u32, count: u32) -> u32
    requires words { length words.now ≡ 2 * count }
    requires from { from ≤ count }
    ensures low { from ≤ result }
    ensures high { result ≤ count }
    ensures full { AllFull words.now from result }
    ensures end { result < count → slice_index words.now (2 * result) ≢ 2 ^ 64 - 1 }
{
    let mut page = past_eights(words, from, count);
    while page < count {
        let word = words[2 * page as usize];
        if word != u64::MAX {
            return page;
        }
        page += 1;
    }
    page
}

/// The free units just before a page with `full` full pages in front of it, before which `before` free units lie.
fn run_behind(before: u32, full: u32) -> u32
    ensures none { full ≡ 0 → result ≡ before }
    ensures some { 1 ≤ full → result ≡ 0 }
    ensures most { result ≤ before }
{
    if full == 0 { before } else { 0 }
}

/// As [`look_in`], of the map words of `count` pages, where full ones are passed over.
fn look_in_run(words: &[u64], page: u32, count: u32, before: u32, units: u32) -> Scan
    requires words { length words.now ≡ 2 * count }
    requires page { 64 * (page + count) < 4294967296 }
    requires before { before < units }
    requires within { before ≤ 64 * page }
    ensures run { RunFits units (64 * (page + count)) result }
    ensures scan { (l : ℕ → ℕ) → AreWords l (2 * page) (2 * count) words.now → Before l units (64 * page) before → ScanEnds l units (64 * (page + count)) result }
{
    let mut run = before;
    let mut i = 0;
    while i < count {
        let next = past_full(words, i, count);
        let left = run_behind(run, next - i);
        if next == count {
            return Scan::Run(left);
        }
        match look_in(words[2 * next as usize], page + next, left, units) {
            Scan::Found(at) => return Scan::Found(at),
            Scan::Run(rest) => run = rest,
        }
        i = next + 1;
    }
    Scan::Run(run)
}

/// Reads the map words of `count` pages from `page` on into `words`, which has room for just these, and looks in them. The
/// region has `undo` undo pages.
fn look_in_pages<R: RegionWords>(
    r: &mut R,
    undo: u32,
    words: &mut [u64],
    page: u32,
    count: u32,
    before: u32,
    units: u32,
) -> Result<Scan, VolFail>
    requires ready { R.ready r.old }
    requires region { IsRegion (R.count r.old) (R.words r.old) }
    requires undo { undo ≡ R.words r.old 1 }
    requires words { length words.old ≡ 2 * count }
    requires page { page + count ≤ R.words r.old 2 }
    requires before { before < units }
    requires within { before ≤ 64 * page }
    ensures run { IfOk result (RunFits units (64 * (page + count))) }
    ensures scan { IfOk result (λ scan. Before (live (R.words r.old)) units (64 * page) before → ScanEnds (live (R.words r.old)) units (64 * (page + count)) scan) }
    ensures words { R.words r.new ≡ R.words r.old }
    ensures stays { Stays R.keeps_rest R.ready R.count R.health R.below r.old r.new }
    ensures ends { Ends (R.health r.old) (R.health r.new) result }
{
    read_places_behind(r, undo, 2 * page, words)?;
    Ok(look_in_run(words, page, count, before, units))
}

/// Searches on from data page `from`, before which there is no gap and `before` free units lie. It is a function of its own,
/// so that a search that ends in the first pages clears no long room.
#[inline(never)]
fn fit_from<R: RegionWords>(
    r: &mut R,
    header: Header,
    units: u32,
    from: u32,
    before: u32,
) -> Result<Option<u32>, VolFail>
    requires ready { R.ready r.old }
    requires region { IsRegion (R.count r.old) (R.words r.old) }
    requires header { IsHeader (R.words r.old) header }
    requires from { from ≤ header.«data» }
    requires before { Before (live (R.words r.old)) units (64 * from) before }
    ensures value { IfOk result (Finds (live (R.words r.old)) (units_of (R.words r.old)) units) }
    ensures words { R.words r.new ≡ R.words r.old }
    ensures stays { Stays R.keeps_rest R.ready R.count R.health R.below r.old r.new }
    ensures ends { Ends (R.health r.old) (R.health r.new) result }
{
    let pages = header.data;
    let mut words = [0; 2 * RUN_PAGES as usize];
    let mut run = before;
    let mut page = from;
    while page < pages {
        let count = RUN_PAGES.min(pages - page);
        let room = &mut words[..2 * count as usize];
        match look_in_pages(r, header.undo, room, page, count, run, units)? {
            Scan::Found(at) => return Ok(Some(at)),
            Scan::Run(left) => run = left,
        }
        page += count;
    }
    Ok(None)
}

/// The first of the lowest `units` units after one another that are in no block. The caller has read the header.
pub(crate) fn first_fit<R: RegionWords>(
    r: &mut R,
    header: Header,
    units: u32,
) -> Result<Option<u32>, VolFail>
    requires ready { R.ready r.old }
    requires region { IsRegion (R.count r.old) (R.words r.old) }
    requires header { IsHeader (R.words r.old) header }
    requires units { 1 ≤ units }
    ensures value { IfOk result (Finds (live (R.words r.old)) (units_of (R.words r.old)) units) }
    ensures words { R.words r.new ≡ R.words r.old }
    ensures stays { Stays R.keeps_rest R.ready R.count R.health R.below r.old r.new }
    ensures ends { Ends (R.health r.old) (R.health r.new) result }
{
    let pages = header.data;
    let count = FIRST_PAGES.min(pages);
    let mut words = [0; 2 * FIRST_PAGES as usize];
    let room = &mut words[..2 * count as usize];
    let before = match look_in_pages(r, header.undo, room, 0, count, 0, units)? {
        Scan::Found(at) => return Ok(Some(at)),
        Scan::Run(left) => left,
    };
    if count == pages {
        return Ok(None);
    }
    fit_from(r, header, units, count, before)
}
