//! Which regions have an open transaction, and which of those may only be aborted.

ghost use Rattle.std.specs.Prelude.{◌≡◌, [], None, Some, false, true, map, IfOk, IsErr, IsErrOf, OnOk, Bool};
ghost use Rattle.rio_base.specs.declared.places.Ino.{Ino};
ghost use Rattle.vista_region.specs.Marks.{mark_of, set_mark};
ghost use Rattle.vista_region.specs.Steps.{doomed_by, opened};

use crate::failures::{BeginFail, TxnFail};
use indexmap::IndexMap;
use rio_base::{Ino, InoList};
use std::alloc::{AllocError, Global};
use std::marker::Model;

/// How many transactions may be open before the table takes more memory.
const FIRST_ROOM: usize = 8;

/// The open transactions, in order of `begin`: the region of each, and whether a fault left it to be aborted. What else a
/// transaction is stands in its region's words.
#[derive(Drop)]
pub struct OpenTable {
    txns: IndexMap<u32, bool>,
}

impl Model for OpenTable {
    ghost use Rattle.vista_region.specs.Marks.{Marks};

    ghost Value = { Marks };

    ghost view = { λ t. t.txns.entries };
}

impl OpenTable {
    /// No transaction is open.
    pub fn new(alloc: Global) -> Result<OpenTable, AllocError>
        ensures { IfOk result (λ table. table ≡ []) }
    {
        let txns = IndexMap::with_capacity(alloc, FIRST_ROOM)?;
        Ok(OpenTable { txns })
    }

    /// Opens a transaction on a region. `Busy` comes exactly where one is open on it. No failure changes the table.
    pub fn begin(&mut self, i: Ino) -> Result<(), BeginFail>
        ensures ok { OnOk result ((mark_of self.old i.0 ≡ None) × (self.new ≡ set_mark self.old i.0 (Some false))) }
        ensures busy { IsErrOf result BeginFail.Busy → (b : Bool) × (mark_of self.old i.0 ≡ Some b) }
        ensures refused { IsErr result → self.new ≡ self.old }
    {
        if self.mark(i).is_some() {
            return Err(BeginFail::Busy);
        }
        let added = self.txns.insert(i.0, false);
        if added.is_err() {
            return Err(BeginFail::Memory);
        }
        Ok(())
    }

    /// The inodes of the regions that have an open transaction, in order of `begin`. The error is that no memory was left
    /// for the list.
    pub fn open_list(&self, alloc: Global) -> Result<InoList, AllocError>
        ensures { IfOk result (λ list. map (λ (i : Ino). i.0) list ≡ map (λ m. m.0) self.now) }
    {
        let mut list = Vec::with_capacity(alloc, self.txns.len())?;
        for i in self.txns.keys() {
            list.push(Ino(*i))?;
        }
        Ok(InoList::from(list))
    }

    /// Whether the transaction on a region may only be aborted, where one is open.
    pub(crate) fn mark(&self, i: Ino) -> Option<bool>
        ensures { result ≡ mark_of self.now i.0 }
    {
        self.txns.get(&i.0).copied()
    }

    /// Whether a transaction is open on a region that may only be aborted.
    pub(crate) fn is_doomed(&self, i: Ino) -> bool
        ensures { result ≡ doomed_by (mark_of self.now i.0) }
    {
        let Some(doomed) = self.mark(i) else {
            return false;
        };
        doomed
    }

    /// That a transaction is open on a region and serves calls: else `NoTransaction` or `Doomed`.
    pub(crate) fn active(&self, i: Ino) -> Result<(), TxnFail>
        ensures { result ≡ opened (mark_of self.now i.0) }
    {
        match self.mark(i) {
            None => Err(TxnFail::NoTransaction),
            Some(true) => Err(TxnFail::Doomed),
            Some(false) => Ok(()),
        }
    }

    /// Leaves the open transaction on a region to be aborted.
    pub(crate) fn doom(&mut self, i: Ino)
        requires some { (b : Bool) × (mark_of self.old i.0 ≡ Some b) }
        ensures { self.new ≡ set_mark self.old i.0 (Some true) }
    {
        // The row is there: it keeps its place, and takes no memory.
        let _was = self.txns.insert(i.0, true);
    }

    /// Takes the transaction on a region out.
    pub(crate) fn close(&mut self, i: Ino)
        ensures rows { self.new ≡ set_mark self.old i.0 None }
        ensures gone { mark_of self.new i.0 ≡ None }
    {
        self.txns.shift_remove(&i.0);
    }
}
