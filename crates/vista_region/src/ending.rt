//! The ends of transactions, and the regions of a volume that stopped in the middle of some.

ghost use Rattle.std.specs.Prelude.{◌≡◌, ◌⊎◌, [], Bool, false, true, None, Some, IfOk, IsErr, IsErrOf, MatchBool, OnOk};
ghost use Rattle.rio_base.specs.Blocks.{Ends, EndsBy};
ghost use Rattle.rio_base.specs.Frames.{Stays};
ghost use Rattle.rio_base.specs.declared.places.Ino.{Ino};
ghost use Rattle.rio_model.specs.Undo.{Dropped, IsRegion, Undoes, Undone, undo_records};
ghost use Rattle.rio_requests.specs.RegionAnswers.{abort_on, commit_on};
ghost use Rattle.vista_region.specs.Ends.{Fits, IsFault, OnFault, TxnEnds, says_done};
ghost use Rattle.vista_region.specs.Marks.{mark_of, set_mark, txn_in};
ghost use Rattle.vista_region.specs.Regions.{region_now};

use crate::failures::TxnFail;
use crate::open_table::OpenTable;
use rio_base::{Ino, RegionWords, UNDO_HEAD, VolFail};
use undo_list::{drop_all, rewind};

impl OpenTable {
    /// Ends the transaction by one store: its words stay. In this order: `NoTransaction`, `Doomed`. `Fault` leaves it open as
    /// it was; after `Stopped` it is ended whole or not at all.
    pub fn commit<R: RegionWords>(&mut self, r: &mut R, i: Ino) -> Result<(), TxnFail>
        requires ready { R.ready r.old }
        requires fits { Fits self.old i.0 (R.count r.old) (R.words r.old) }
        ensures ends { TxnEnds (commit_on (region_now (R.words r.old)) (txn_in self.old i.0 (R.words r.old))) says_done self.old self.new i.0 (R.words r.old) (R.words r.new) result }
        ensures fault { OnFault result (λ k. (k ≡ 0) × (R.words r.new ≡ R.words r.old)) }
        ensures either { (R.words r.new ≡ R.words r.old) ⊎ ((mark_of self.old i.0 ≡ Some false) × Dropped (R.count r.old) (R.words r.old) (R.words r.new)) }
        ensures closed { OnOk result (self.new ≡ set_mark self.old i.0 None) }
        ensures table { IsErr result → self.new ≡ self.old }
        ensures fits { (IsErrOf result TxnFail.Stopped → ⊥) → Fits self.new i.0 (R.count r.new) (R.words r.new) }
        ensures stays { Stays R.keeps_rest R.ready R.count R.health R.below r.old r.new }
        ensures causes { EndsBy (R.health r.old) (R.health r.new) (IsFault result) (IsErrOf result TxnFail.Stopped) }
    {
        self.active(i)?;
        drop_all(r)?;
        self.close(i);
        Ok(())
    }

    /// Ends the transaction and undoes its changes, a doomed one too: the words and the blocks are those of before `begin`.
    /// `Fault` leaves the transaction to be aborted: it may be tried again, any number of times.
    pub fn abort<R: RegionWords>(&mut self, r: &mut R, i: Ino) -> Result<(), TxnFail>
        requires ready { R.ready r.old }
        requires fits { Fits self.old i.0 (R.count r.old) (R.words r.old) }
        ensures ends { TxnEnds (abort_on (region_now (R.words r.old)) (txn_in self.old i.0 (R.words r.old))) says_done self.old self.new i.0 (R.words r.old) (R.words r.new) result }
        ensures closed { OnOk result (self.new ≡ set_mark self.old i.0 None) }
        ensures table { IsErr result → (IsFault result → ⊥) → self.new ≡ self.old }
        ensures doomed { OnFault result (λ k. (k ≡ 0) × ((b : Bool) × (mark_of self.old i.0 ≡ Some b)) × (self.new ≡ set_mark self.old i.0 (Some true))) }
        ensures before { Undoes (R.count r.old) (R.words r.old) (R.words r.new) }
        ensures fits { (IsErrOf result TxnFail.Stopped → ⊥) → Fits self.new i.0 (R.count r.new) (R.words r.new) }
        ensures stays { Stays R.keeps_rest R.ready R.count R.health R.below r.old r.new }
        ensures causes { EndsBy (R.health r.old) (R.health r.new) (IsFault result) (IsErrOf result TxnFail.Stopped) }
    {
        if self.mark(i).is_none() {
            return Err(TxnFail::NoTransaction);
        }
        match rewind(r) {
            Ok(()) => {
                self.close(i);
                Ok(())
            }
            Err(VolFail::Fault) => {
                self.doom(i);
                Err(TxnFail::Fault(0))
            }
            Err(VolFail::Stopped) => Err(TxnFail::Stopped),
        }
    }
}

/// Rewinds and empties the undo list of a region: its words are then those of before. The answer is whether the list held a
/// record. After a failure it may be made again.
pub fn recover<R: RegionWords>(r: &mut R) -> Result<bool, VolFail>
    requires ready { R.ready r.old }
    requires region { IsRegion (R.count r.old) (R.words r.old) }
    ensures ok { OnOk result (Undone (R.count r.old) (R.words r.old) (R.words r.new)) }
    ensures held { IfOk result (λ b. MatchBool b (undo_records (R.words r.old) ≡ [] → ⊥) (undo_records (R.words r.old) ≡ [])) }
    ensures before { Undoes (R.count r.old) (R.words r.old) (R.words r.new) }
    ensures region { IsRegion (R.count r.new) (R.words r.new) }
    ensures stays { Stays R.keeps_rest R.ready R.count R.health R.below r.old r.new }
    ensures ends { Ends (R.health r.old) (R.health r.new) result }
{
    let head = r.word(UNDO_HEAD)?;
    rewind(r)?;
    Ok(head != 0)
}
