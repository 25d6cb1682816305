//! How far a block reaches.

ghost use Rattle.std.specs.Prelude.{◌≡◌, ◌==◌, ◌+◌, ◌*◌, ◌/◌, ◌%◌, ◌<◌, ◌≤◌, IfOk};
ghost use Rattle.std.specs.Int.{bit_at};
ghost use Rattle.rio_base.specs.Blocks.{Ends};
ghost use Rattle.rio_base.specs.Frames.{Stays};
ghost use Rattle.rio_model.specs.Undo.{IsRegion, live};
ghost use Rattle.rio_model.specs.Heap.{IsBlock, OfBlocks, starts, units_of};
ghost use Rattle.undo_list.specs.Records.{IsHeader};
ghost use Rattle.recov_alloc.specs.Extents.{BlockAt, ReachesInPage, Within};

use crate::bits::units_on;
use rio_base::{RegionWords, VolFail};
use undo_list::{Header, read_places, read_places_behind};

/// Whether a block starts at a unit, by the starts of its page.
fn is_start(starts: u64, unit: u32) -> bool
    ensures { result ≡ (bit_at starts (unit % 64) == 1) }
{
    (starts >> (unit % 64)) & 1 == 1
}

/// The unit up to which a block goes on behind its first one, by the used bits and the starts of that unit's page: the block
/// ends there, or the page does.
fn reach_in_page(used: u64, starts: u64, unit: u32) -> u32
    requires unit { 64 * (unit / 64 + 1) < 4294967296 }
    ensures { ReachesInPage used starts unit result }
{
    let bit = unit % 64 + 1;
    if bit == 64 {
        return unit + 1;
    }
    unit + 1 + units_on(used, starts, bit)
}

/// How many units the block has that starts at `unit` and goes on up to before `from` at least, of the heap of a region of
/// `pages` data pages. It looks at the map words of the pages from that of `from` on that the block touches, and at those
/// of the next one where the block ends with its last page.
pub(crate) fn units_from<R: RegionWords>(
    r: &mut R,
    unit: u32,
    from: u32,
    pages: u32,
) -> Result<u32, VolFail>
    requires ready { R.ready r.old }
    requires region { IsRegion (R.count r.old) (R.words r.old) }
    requires heap { OfBlocks (live (R.words r.old)) (R.words r.old 2) }
    requires pages { pages ≡ R.words r.old 2 }
    requires low { unit < from }
    requires most { from ≤ 64 * pages }
    requires start { starts (live (R.words r.old)) unit ≡ 1 }
    requires inside { Within (live (R.words r.old)) unit from }
    ensures value { IfOk result (IsBlock (live (R.words r.old)) (units_of (R.words r.old)) unit) }
    ensures words { R.words r.new ≡ R.words r.old }
    ensures stays { Stays R.keeps_rest R.ready R.count R.health R.below r.old r.new }
    ensures ends { Ends (R.health r.old) (R.health r.new) result }
{
    let mut words = [0; 2];
    let mut next = from;
    while next < 64 * pages {
        read_places(r, 2 * (next / 64), &mut words)?;
        let bit = next % 64;
        let run = units_on(words[0], words[1], bit);
        next += run;
        if bit + run < 64 {
            return Ok(next - unit);
        }
    }
    Ok(next - unit)
}

/// How many units the block has that starts at `unit`, and `None` where none starts there: the map words of its first page are
/// read once for both. The region has `undo` undo pages and `pages` data pages.
fn units_at<R: RegionWords>(
    r: &mut R,
    undo: u32,
    unit: u32,
    pages: u32,
) -> Result<Option<u32>, VolFail>
    requires ready { R.ready r.old }
    requires region { IsRegion (R.count r.old) (R.words r.old) }
    requires heap { OfBlocks (live (R.words r.old)) (R.words r.old 2) }
    requires undo { undo ≡ R.words r.old 1 }
    requires pages { pages ≡ R.words r.old 2 }
    requires unit { unit < 64 * pages }
    ensures value { IfOk result (BlockAt (live (R.words r.old)) (units_of (R.words r.old)) unit) }
    ensures words { R.words r.new ≡ R.words r.old }
    ensures stays { Stays R.keeps_rest R.ready R.count R.health R.below r.old r.new }
    ensures ends { Ends (R.health r.old) (R.health r.new) result }
{
    let mut words = [0; 2];
    read_places_behind(r, undo, 2 * (unit / 64), &mut words)?;
    let starts = words[1];
    if !is_start(starts, unit) {
        return Ok(None);
    }
    let end = reach_in_page(words[0], starts, unit);
    if end % 64 != 0 {
        return Ok(Some(end - unit));
    }
    let units = units_from(r, unit, end, pages)?;
    Ok(Some(units))
}

/// How many units the block has that starts at `unit`. `None` comes where none does, as behind the region's last unit. The
/// caller has read the header.
pub(crate) fn block_at<R: RegionWords>(
    r: &mut R,
    header: Header,
    unit: u32,
) -> Result<Option<u32>, VolFail>
    requires ready { R.ready r.old }
    requires region { IsRegion (R.count r.old) (R.words r.old) }
    requires header { IsHeader (R.words r.old) header }
    requires heap { OfBlocks (live (R.words r.old)) (R.words r.old 2) }
    ensures value { IfOk result (BlockAt (live (R.words r.old)) (units_of (R.words r.old)) unit) }
    ensures words { R.words r.new ≡ R.words r.old }
    ensures stays { Stays R.keeps_rest R.ready R.count R.health R.below r.old r.new }
    ensures ends { Ends (R.health r.old) (R.health r.new) result }
{
    let pages = header.data;
    if 64 * pages <= unit {
        return Ok(None);
    }
    units_at(r, header.undo, unit, pages)
}
