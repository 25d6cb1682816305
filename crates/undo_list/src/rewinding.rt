//! All records put back, or dropped.

ghost use Rattle.std.specs.Prelude.{◌≡◌, ◌<◌, ◌⊎◌, IfOk, IsErrOf, OnOk};
ghost use Rattle.rio_base.specs.Blocks.{Ends};
ghost use Rattle.rio_base.specs.Frames.{Stays};
ghost use Rattle.rio_model.specs.Undo.{Dropped, IsRegion, Undoes, Undone};

use crate::records::{read_header, record_at};
use crate::runs::copy_words;
use rio_base::{RegionWords, UNDO_HEAD, VolFail};

/// Puts the words of the newest record back, and then drops it. The answer is the head that is left.
fn rewind_newest<R: RegionWords>(r: &mut R, undo: u32, head: u64) -> Result<u64, VolFail>
    requires ready { R.ready r.old }
    requires region { IsRegion (R.count r.old) (R.words r.old) }
    requires undo { undo ≡ R.words r.old 1 }
    requires head { head ≡ R.words r.old 3 }
    requires some { 0 < head }
    ensures head { IfOk result (λ h. (h ≡ R.words r.new 3) × (h < head)) }
    ensures before { Undoes (R.count r.old) (R.words r.old) (R.words r.new) }
    ensures stays { Stays R.keeps_rest R.ready R.count R.health R.below r.old r.new }
    ensures ends { Ends (R.health r.old) (R.health r.new) result }
{
    let newest = record_at(r, head)?;
    copy_words(
        r,
        515 + newest.at,
        512 * (1 + undo) + newest.first,
        newest.count,
    )?;
    r.set(UNDO_HEAD, newest.older)?;
    Ok(newest.older)
}

/// Puts the old words back, newest record first, and empties the list: the words are then those of before. After a failure
/// it may be made again, any number of times: the words of before stay the same throughout.
pub fn rewind<R: RegionWords>(r: &mut R) -> Result<(), VolFail>
    requires ready { R.ready r.old }
    requires region { IsRegion (R.count r.old) (R.words r.old) }
    ensures ok { OnOk result (Undone (R.count r.old) (R.words r.old) (R.words r.new)) }
    ensures before { Undoes (R.count r.old) (R.words r.old) (R.words r.new) }
    ensures region { IsRegion (R.count r.new) (R.words r.new) }
    ensures stays { Stays R.keeps_rest R.ready R.count R.health R.below r.old r.new }
    ensures ends { Ends (R.health r.old) (R.health r.new) result }
{
    let header = read_header(r)?;
    let mut head = header.head;
    while head != 0 {
        head = rewind_newest(r, header.undo, head)?;
    }
    Ok(())
}

/// Drops all records by one store: the words stay as they are. `Fault` changes nothing; `Stopped` leaves all records or
/// none.
pub fn drop_all<R: RegionWords>(r: &mut R) -> Result<(), VolFail>
    requires ready { R.ready r.old }
    requires region { IsRegion (R.count r.old) (R.words r.old) }
    ensures ok { OnOk result (Dropped (R.count r.old) (R.words r.old) (R.words r.new)) }
    ensures fault { IsErrOf result VolFail.Fault → R.words r.new ≡ R.words r.old }
    ensures either { (R.words r.new ≡ R.words r.old) ⊎ Dropped (R.count r.old) (R.words r.old) (R.words r.new) }
    ensures region { IsRegion (R.count r.new) (R.words r.new) }
    ensures stays { Stays R.keeps_rest R.ready R.count R.health R.below r.old r.new }
    ensures ends { Ends (R.health r.old) (R.health r.new) result }
{
    r.set(UNDO_HEAD, 0)?;
    Ok(())
}
