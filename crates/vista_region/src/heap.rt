//! The heaps of regions: blocks taken and given back in transactions.

ghost use Rattle.std.specs.Prelude.{◌≡◌, ℕ, ◌≤◌, Bool, true, false, Some, IsErrOf};
ghost use Rattle.rio_base.specs.Blocks.{EndsBy};
ghost use Rattle.rio_base.specs.Frames.{Stays};
ghost use Rattle.rio_base.specs.declared.places.Ino.{Ino};
ghost use Rattle.rio_model.specs.Undo.{IsRegion, Undoes, live};
ghost use Rattle.rio_model.specs.Heap.{OfBlocks};
ghost use Rattle.rio_requests.specs.RegionAnswers.{alloc_on, free_on};
ghost use Rattle.vista_region.specs.Ends.{Fits, IsFault, OnFault, TxnEnds, says_done, says_number};
ghost use Rattle.vista_region.specs.Steps.{IsTold, says_unit};
ghost use Rattle.vista_region.specs.Marks.{Marks, mark_of, set_mark, txn_in};
ghost use Rattle.vista_region.specs.Regions.{region_now};

use crate::failures::TxnFail;
use crate::open_table::OpenTable;
use rio_base::{Ino, RegionWords};

/// Bytes of a unit, in which blocks are counted.
const UNIT_BYTES: u64 = 64;

/// Takes a block of any number of units, and answers its first unit.
fn take_block<R: RegionWords>(r: &mut R, units: u64) -> Result<u32, TxnFail>
    requires ready { R.ready r.old }
    requires region { IsRegion (R.count r.old) (R.words r.old) }
    requires heap { OfBlocks (live (R.words r.old)) (R.words r.old 2) }
    requires units { 1 ≤ units }
    ensures ends { (marks : Marks) (i : ℕ) → mark_of marks i ≡ Some false → TxnEnds (alloc_on (region_now (R.words r.old)) (txn_in marks i (R.words r.old)) units) says_unit marks marks i (R.words r.old) (R.words r.new) result }
    ensures fault { OnFault result (λ k. k ≡ 0) }
    ensures heap { IsTold result → OfBlocks (live (R.words r.new)) (R.words r.new 2) }
    ensures before { Undoes (R.count r.old) (R.words r.old) (R.words r.new) }
    ensures stays { Stays R.keeps_rest R.ready R.count R.health R.below r.old r.new }
    ensures causes { EndsBy (R.health r.old) (R.health r.new) (IsFault result) (IsErrOf result TxnFail.Stopped) }
{
    let Ok(units) = u32::try_from(units) else {
        return Err(TxnFail::HeapFull);
    };
    let unit = recov_alloc::allocate(r, units)?;
    Ok(unit)
}

/// Gives back the block that starts at any byte.
fn give_block<R: RegionWords>(r: &mut R, at: u64) -> Result<(), TxnFail>
    requires ready { R.ready r.old }
    requires region { IsRegion (R.count r.old) (R.words r.old) }
    requires heap { OfBlocks (live (R.words r.old)) (R.words r.old 2) }
    ensures ends { (marks : Marks) (i : ℕ) → mark_of marks i ≡ Some false → TxnEnds (free_on (region_now (R.words r.old)) (txn_in marks i (R.words r.old)) at) says_done marks marks i (R.words r.old) (R.words r.new) result }
    ensures fault { OnFault result (λ k. k ≡ 0) }
    ensures heap { IsTold result → OfBlocks (live (R.words r.new)) (R.words r.new 2) }
    ensures before { Undoes (R.count r.old) (R.words r.old) (R.words r.new) }
    ensures stays { Stays R.keeps_rest R.ready R.count R.health R.below r.old r.new }
    ensures causes { EndsBy (R.health r.old) (R.health r.new) (IsFault result) (IsErrOf result TxnFail.Stopped) }
{
    if at % UNIT_BYTES != 0 {
        return Err(TxnFail::NotBlock);
    }
    let Ok(unit) = u32::try_from(at / UNIT_BYTES) else {
        return Err(TxnFail::NotBlock);
    };
    recov_alloc::release(r, unit)?;
    Ok(())
}

impl OpenTable {
    /// What a call on a transaction answered. A fault leaves the transaction to be aborted.
    pub(crate) fn dooming<T>(&mut self, i: Ino, answer: Result<T, TxnFail>) -> Result<T, TxnFail>
        requires some { (b : Bool) × (mark_of self.old i.0 ≡ Some b) }
        ensures same { result ≡ answer }
        ensures kept { (IsFault answer → ⊥) → self.new ≡ self.old }
        ensures doomed { IsFault answer → self.new ≡ set_mark self.old i.0 (Some true) }
    {
        if let Err(TxnFail::Fault(_)) = answer {
            self.doom(i);
        }
        answer
    }

    /// Takes the lowest gap of `units` units of 64 bytes as a block, and answers the byte offset where it starts, counted
    /// from the data's beginning. Its map words are saved in a record, which takes 3 words of the undo pages and 2 for each
    /// data page that the block touches. In this order: `NoTransaction`, `Doomed`; `HeapFull`; `UndoFull`. `Fault` leaves the
    /// transaction to be aborted.
    pub fn allocate<R: RegionWords>(
        &mut self,
        r: &mut R,
        i: Ino,
        units: u64,
    ) -> Result<u64, TxnFail>
        requires ready { R.ready r.old }
        requires fits { Fits self.old i.0 (R.count r.old) (R.words r.old) }
        requires units { 1 ≤ units }
        ensures ends { TxnEnds (alloc_on (region_now (R.words r.old)) (txn_in self.old i.0 (R.words r.old)) units) says_number self.old self.new i.0 (R.words r.old) (R.words r.new) result }
        ensures table { (IsFault result → ⊥) → self.new ≡ self.old }
        ensures doomed { OnFault result (λ k. (k ≡ 0) × ((b : Bool) × (mark_of self.old i.0 ≡ Some b)) × (self.new ≡ set_mark self.old i.0 (Some true))) }
        ensures before { Undoes (R.count r.old) (R.words r.old) (R.words r.new) }
        ensures fits { (IsErrOf result TxnFail.Stopped → ⊥) → Fits self.new i.0 (R.count r.new) (R.words r.new) }
        ensures stays { Stays R.keeps_rest R.ready R.count R.health R.below r.old r.new }
        ensures causes { EndsBy (R.health r.old) (R.health r.new) (IsFault result) (IsErrOf result TxnFail.Stopped) }
    {
        self.active(i)?;
        let taken = take_block(r, units);
        let unit = self.dooming(i, taken)?;
        Ok(UNIT_BYTES * u64::from(unit))
    }

    /// Gives back the block that starts at byte `at` of the data. Its map words are saved in a record, as those of
    /// [`OpenTable::allocate`]. In this order: `NoTransaction`, `Doomed`; `NotBlock` where no block starts there;
    /// `UndoFull`. `Fault` leaves the transaction to be aborted.
    pub fn release<R: RegionWords>(&mut self, r: &mut R, i: Ino, at: u64) -> Result<(), TxnFail>
        requires ready { R.ready r.old }
        requires fits { Fits self.old i.0 (R.count r.old) (R.words r.old) }
        ensures ends { TxnEnds (free_on (region_now (R.words r.old)) (txn_in self.old i.0 (R.words r.old)) at) says_done self.old self.new i.0 (R.words r.old) (R.words r.new) result }
        ensures table { (IsFault result → ⊥) → self.new ≡ self.old }
        ensures doomed { OnFault result (λ k. (k ≡ 0) × ((b : Bool) × (mark_of self.old i.0 ≡ Some b)) × (self.new ≡ set_mark self.old i.0 (Some true))) }
        ensures before { Undoes (R.count r.old) (R.words r.old) (R.words r.new) }
        ensures fits { (IsErrOf result TxnFail.Stopped → ⊥) → Fits self.new i.0 (R.count r.new) (R.words r.new) }
        ensures stays { Stays R.keeps_rest R.ready R.count R.health R.below r.old r.new }
        ensures causes { EndsBy (R.health r.old) (R.health r.new) (IsFault result) (IsErrOf result TxnFail.Stopped) }
    {
        self.active(i)?;
        let given = give_block(r, at);
        self.dooming(i, given)
    }
}
