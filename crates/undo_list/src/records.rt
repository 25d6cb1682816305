//! The records of an undo list, as they lie in the undo pages.

ghost use Rattle.std.specs.Prelude.{◌≡◌, ◌<◌, IfOk, List};
ghost use Rattle.rio_base.specs.Blocks.{Ends};
ghost use Rattle.rio_base.specs.Frames.{Stays};
ghost use Rattle.rio_model.specs.Undo.{IsRegion, UndoRecord, taken, undo_records};
ghost use Rattle.undo_list.specs.Records.{IsChain, IsHeader, IsNewest};

use rio_base::{RegionWords, VolFail};

/// The header's word for the number of undo pages.
pub(crate) const UNDO: u32 = 1;
/// The header's word for the number of data pages.
pub(crate) const DATA: u32 = 2;

/// Words of a record in front of those that it saves: the head before it, its first place, and how many it saves.
pub(crate) const FRONT_WORDS: u32 = 3;

/// What a region's header says of its pages and of its undo list.
#[derive(Clone, Copy)]
pub struct Header {
    /// How many undo pages there are.
    pub undo: u32,
    /// How many data pages there are.
    pub data: u32,
    /// What names the newest record: 0 where there is none.
    pub head: u64,
}

/// What a record says of itself.
#[derive(Clone, Copy)]
pub(crate) struct SavedAt {
    /// The undo word at which it lies.
    pub(crate) at: u32,
    /// Its first place, and how many old words it has.
    pub(crate) first: u32,
    pub(crate) count: u32,
    /// The head before it.
    pub(crate) older: u64,
}

/// Reads what the header says, by one call: the words from `UNDO` to [`rio_base::UNDO_HEAD`].
pub fn read_header<R: RegionWords>(r: &mut R) -> Result<Header, VolFail>
    requires ready { R.ready r.old }
    requires region { IsRegion (R.count r.old) (R.words r.old) }
    ensures header { IfOk result (IsHeader (R.words r.old)) }
    ensures words { R.words r.new ≡ R.words r.old }
    ensures region { IsRegion (R.count r.new) (R.words r.new) }
    ensures stays { Stays R.keeps_rest R.ready R.count R.health R.below r.old r.new }
    ensures ends { Ends (R.health r.old) (R.health r.new) result }
{
    let mut words = [0; 3];
    r.read_run(UNDO, &mut words)?;
    Ok(Header {
        undo: words[0] as u32,
        data: words[1] as u32,
        head: words[2],
    })
}

/// Reads the record that a head names, by one call.
pub(crate) fn record_at<R: RegionWords>(r: &mut R, head: u64) -> Result<SavedAt, VolFail>
    requires ready { R.ready r.old }
    requires region { IsRegion (R.count r.old) (R.words r.old) }
    requires some { 0 < head }
    requires chain { (rs : List UndoRecord) × IsChain (R.words r.old) head rs }
    ensures value { IfOk result (λ v. (rs : List UndoRecord) → IsChain (R.words r.old) head rs → IsNewest (R.words r.old) rs v) }
    ensures words { R.words r.new ≡ R.words r.old }
    ensures stays { Stays R.keeps_rest R.ready R.count R.health R.below r.old r.new }
    ensures ends { Ends (R.health r.old) (R.health r.new) result }
{
    let at = (head - 1) as u32;
    let mut words = [0; FRONT_WORDS as usize];
    r.read_run(512 + at, &mut words)?;
    Ok(SavedAt {
        at,
        first: words[1] as u32,
        count: words[2] as u32,
        older: words[0],
    })
}

/// How many undo words the records take, of which `head` names the newest.
pub(crate) fn taken<R: RegionWords>(r: &mut R, head: u64) -> Result<u32, VolFail>
    requires ready { R.ready r.old }
    requires region { IsRegion (R.count r.old) (R.words r.old) }
    requires head { head ≡ R.words r.old 3 }
    ensures value { IfOk result (λ n. n ≡ taken (undo_records (R.words r.old))) }
    ensures words { R.words r.new ≡ R.words r.old }
    ensures stays { Stays R.keeps_rest R.ready R.count R.health R.below r.old r.new }
    ensures ends { Ends (R.health r.old) (R.health r.new) result }
{
    if head == 0 {
        return Ok(0);
    }
    let newest = record_at(r, head)?;
    Ok(newest.at + FRONT_WORDS + newest.count)
}
