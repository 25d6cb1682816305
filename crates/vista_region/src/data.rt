//! The data of regions, by bytes: what a transaction may change, is changed, and is read.

ghost use Rattle.std.specs.Prelude.{◌≡◌, ℕ, ◌+◌, ◌-◌, ◌*◌, ◌/◌, ◌%◌, ◌<◌, ◌≤◌, ◌⊎◌, Ok, Err, Some, IfErr, IfOk, IsErrOf, MatchBool, OnOk, length};
ghost use Rattle.rio_base.specs.Blocks.{EndsBy};
ghost use Rattle.rio_base.specs.Frames.{Stays};
ghost use Rattle.rio_base.specs.declared.places.Ino.{Ino};
ghost use Rattle.rio_model.specs.Undo.{Undoes, map_pages};
ghost use Rattle.rio_requests.specs.RegionAnswers.{get_on, put_on, range_on};
ghost use Rattle.rio_requests.specs.declared.reply.Reply.TheVariants.{Bytes};
ghost use Rattle.vista_region.specs.Ends.{Fits, IsFault, OnFault, PutPart, TxnEnds, get_refusal_of, says_done, says_number};
ghost use Rattle.vista_region.specs.Marks.{txn_in};
ghost use Rattle.vista_region.specs.Regions.{region_now};
ghost use Rattle.vista_region.specs.Steps.{SpanEnds, whole};

use crate::failures::{GetFail, TxnFail};
use crate::open_table::OpenTable;
use crate::runs::{push_bytes, put_bytes};
use rio_base::{Ino, Octets, RegionWords, RunFail};
use std::alloc::Global;
use undo_list::{Header, covered_from_head, data_pages, read_header, set_range_by_header};

/// Places of data words.
#[derive(Clone, Copy)]
pub(crate) struct Span {
    pub(crate) place: u32,
    pub(crate) count: u32,
}

/// That bytes are whole words.
fn whole_words(off: u64, len: u64) -> Result<(), TxnFail>
    ensures { result ≡ whole off len }
{
    if off % 8 != 0 {
        return Err(TxnFail::NotAligned);
    }
    if len % 8 != 0 {
        return Err(TxnFail::NotAligned);
    }
    Ok(())
}

/// Whether bytes end within so many pages.
fn ends_within(off: u64, len: u64, pages: u32) -> bool
    ensures { MatchBool result (off + len ≤ 4096 * pages) (4096 * pages < off + len) }
{
    let Some(end) = off.checked_add(len) else {
        return false;
    };
    end <= 4096 * u64::from(pages)
}

/// The place of the first data word, behind the heap map of so many data pages.
fn data_place(pages: u32) -> u32
    requires few { 512 * map_pages pages < 4294967296 }
    ensures { result ≡ 512 * map_pages pages }
{
    512 * pages.div_ceil(256)
}

/// The places of the words that bytes of the data are: else `OutOfRange`.
fn data_span(header: Header, off: u64, len: u64) -> Result<Span, TxnFail>
    requires few { 512 * (map_pages header.«data» + header.«data») < 4294967296 }
    ensures { SpanEnds header.«data» off len result }
{
    if !ends_within(off, len, header.data) {
        return Err(TxnFail::OutOfRange);
    }
    Ok(Span {
        place: data_place(header.data) + (off / 8) as u32,
        count: (len / 8) as u32,
    })
}

impl OpenTable {
    /// Lets the transaction change `len` bytes from byte `off` of the data on: their present words are saved in one record,
    /// which takes `3 + len / 8` words of the undo pages. Ranges may overlap, and one of no bytes takes 3 words. In this
    /// order: `NoTransaction`, `Doomed`; `NotAligned` where `off` or `len` is no multiple of 8; `OutOfRange`; `UndoFull`.
    /// `Fault` changes nothing; `Stopped` leaves the record or none.
    pub fn set_range<R: RegionWords>(
        &mut self,
        r: &mut R,
        i: Ino,
        off: u64,
        len: u64,
    ) -> Result<(), TxnFail>
        requires ready { R.ready r.old }
        requires fits { Fits self.old i.0 (R.count r.old) (R.words r.old) }
        ensures ends { TxnEnds (range_on (region_now (R.words r.old)) (txn_in self.old i.0 (R.words r.old)) off len) says_done self.old self.new i.0 (R.words r.old) (R.words r.new) result }
        ensures fault { OnFault result (λ k. (k ≡ 0) × (region_now (R.words r.new) ≡ region_now (R.words r.old)) × (txn_in self.new i.0 (R.words r.new) ≡ txn_in self.old i.0 (R.words r.old))) }
        ensures table { self.new ≡ self.old }
        ensures before { Undoes (R.count r.old) (R.words r.old) (R.words r.new) }
        ensures fits { (IsErrOf result TxnFail.Stopped → ⊥) → Fits self.new i.0 (R.count r.new) (R.words r.new) }
        ensures stays { Stays R.keeps_rest R.ready R.count R.health R.below r.old r.new }
        ensures causes { EndsBy (R.health r.old) (R.health r.new) (IsFault result) (IsErrOf result TxnFail.Stopped) }
    {
        self.active(i)?;
        whole_words(off, len)?;
        let header = read_header(r)?;
        let span = data_span(header, off, len)?;
        set_range_by_header(r, header, span.place, span.count)?;
        Ok(())
    }

    /// Changes bytes of the data in ranges of the transaction, from byte `off` on, and answers how many. Nothing waits. In
    /// this order: `NoTransaction`, `Doomed`; `NotAligned` where `off` or the number of bytes is no multiple of 8;
    /// `OutOfRange`; `NotCovered` where a word is in no range. `Fault` says how many bytes were changed, from the first one
    /// on; `Stopped` leaves a front of them changed.
    pub fn put<R: RegionWords>(
        &mut self,
        r: &mut R,
        i: Ino,
        off: u64,
        bytes: &[u8],
    ) -> Result<u64, TxnFail>
        requires ready { R.ready r.old }
        requires fits { Fits self.old i.0 (R.count r.old) (R.words r.old) }
        ensures ends { TxnEnds (put_on (region_now (R.words r.old)) (txn_in self.old i.0 (R.words r.old)) off bytes.now) says_number self.old self.new i.0 (R.words r.old) (R.words r.new) result }
        ensures fault { OnFault result (λ k. PutPart (put_on (region_now (R.words r.old)) (txn_in self.old i.0 (R.words r.old)) off bytes.now) self.old i.0 (R.words r.old) (R.words r.new) off bytes.now k) }
        ensures table { self.new ≡ self.old }
        ensures before { Undoes (R.count r.old) (R.words r.old) (R.words r.new) }
        ensures fits { (IsErrOf result TxnFail.Stopped → ⊥) → Fits self.new i.0 (R.count r.new) (R.words r.new) }
        ensures stays { Stays R.keeps_rest R.ready R.count R.health R.below r.old r.new }
        ensures causes { EndsBy (R.health r.old) (R.health r.new) (IsFault result) (IsErrOf result TxnFail.Stopped) }
    {
        self.active(i)?;
        let len = bytes.len() as u64;
        whole_words(off, len)?;
        let header = read_header(r)?;
        let span = data_span(header, off, len)?;
        if !covered_from_head(r, header.head, span.place, span.count)? {
            return Err(TxnFail::NotCovered);
        }
        match put_bytes(r, header.undo, span.place, bytes) {
            Ok(()) => Ok(len),
            Err(RunFail::Fault(words)) => Err(TxnFail::Fault(8 * u64::from(words))),
            Err(RunFail::Stopped) => Err(TxnFail::Stopped),
        }
    }

    /// The `len` bytes of the data from byte `off` on, as they are now. It needs no transaction and no whole words. `Doomed`
    /// comes first, then `OutOfRange`. No failure changes anything.
    pub fn get<R: RegionWords>(
        &self,
        alloc: Global,
        r: &mut R,
        i: Ino,
        off: u64,
        len: u64,
    ) -> Result<Octets, GetFail>
        requires ready { R.ready r.old }
        requires fits { Fits self.now i.0 (R.count r.old) (R.words r.old) }
        ensures ok { IfOk result (λ bytes. get_on (region_now (R.words r.old)) (txn_in self.now i.0 (R.words r.old)) off len ≡ Ok (record { region = region_now (R.words r.old); txn = txn_in self.now i.0 (R.words r.old); reply = Bytes bytes })) }
        ensures refused { IfErr result (λ e. (n : ℕ) → get_refusal_of e ≡ Some n → get_on (region_now (R.words r.old)) (txn_in self.now i.0 (R.words r.old)) off len ≡ Err n) }
        ensures words { R.words r.new ≡ R.words r.old }
        ensures stays { Stays R.keeps_rest R.ready R.count R.health R.below r.old r.new }
        ensures causes { EndsBy (R.health r.old) (R.health r.new) (IsErrOf result GetFail.Fault) (IsErrOf result GetFail.Stopped) }
    {
        if self.is_doomed(i) {
            return Err(GetFail::Doomed);
        }
        let pages = data_pages(r)?;
        if !ends_within(off, len, pages) {
            return Err(GetFail::OutOfRange);
        }
        let mut bytes = Vec::with_capacity(alloc, len as usize)?;
        push_bytes(
            r,
            data_place(pages),
            off as usize,
            (off + len) as usize,
            &mut bytes,
        )?;
        Ok(Octets::from(bytes))
    }
}
