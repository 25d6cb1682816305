//! The names of one directory.

ghost use Rattle.std.specs.Prelude.{◌≡◌, None, Some, MatchOption, IfOk, OnErr, OnOk};
ghost use Rattle.std.specs.FinMap.{empty, get, insert, remove};

use indexmap::IndexMap;
use rio_base::{Ino, ReadFail};
use std::alloc::Global;
use std::marker::Model;

/// A name is not kept: no memory was left for it, or its bytes are no text.
#[derive(Clone, Copy, Debug, PartialEq, Eq)]
pub struct NotKept;

/// Who reads a directory to keep its names tells it as want of memory.
impl From<NotKept> for ReadFail {
    ghost use Rattle.rio_base.specs.declared.failures.ReadFail.TheVariants.{Memory};

    ghost from_gives = { λ fail made. made ≡ Memory };

    fn from(_fail: NotKept) -> ReadFail {
        ReadFail::Memory
    }
}

/// The names of one directory, and what each names.
///
/// They stand in the order in which they were put, the last one in the place of one that was removed. A directory keeps its entries
/// so too, so that the place of a name is the slot of its entry. No contract says so: who needs the slot looks at the entry.
#[derive(Drop)]
pub struct DirNames {
    rows: IndexMap<String, u32>,
}

impl Model for DirNames {
    ghost use Rattle.std.specs.Prelude.{string_bytes};
    ghost use Rattle.std.specs.FinMap as map;
    ghost use Rattle.std.specs.Coded.{coded_ℕ, coded_list};
    ghost use Rattle.name_index.specs.Rows.{NamesOfDir, rows_by};

    ghost Value = { NamesOfDir };

    ghost coded = { map.code (coded_list coded_ℕ) coded_ℕ };

    ghost view = { λ a. map.from_entries (rows_by string_bytes a.rows.entries) };
}

impl DirNames {
    /// No names.
    pub fn new(alloc: Global) -> DirNames
        ensures { result ≡ empty }
    {
        DirNames {
            rows: IndexMap::new(alloc),
        }
    }

    /// What a name names, and its place among the names, which is a hint. The error means that its bytes are no text, so that
    /// nothing is known of it.
    pub fn find(&self, name: &[u8]) -> Result<Option<(Ino, u32)>, NotKept>
        ensures { IfOk result (λ found. MatchOption found (get self.now name.now ≡ None) (λ at. get self.now name.now ≡ Some at.0.0)) }
    {
        let Ok(text) = str::from_utf8(name) else {
            return Err(NotKept);
        };
        let Some((place, _, ino)) = self.rows.get_full(text) else {
            return Ok(None);
        };
        Ok(Some((Ino(*ino), place.min(u32::MAX as usize) as u32)))
    }

    /// Lets a name name an inode, in place of what it named. The error leaves the names as they were.
    pub fn put(&mut self, name: &[u8], ino: Ino) -> Result<(), NotKept>
        ensures ok { OnOk result (self.new ≡ insert self.old name.now ino.0) }
        ensures err { OnErr result (self.new ≡ self.old) }
    {
        let Ok(text) = str::from_utf8(name) else {
            return Err(NotKept);
        };
        let Ok(key) = String::from_str(*self.rows.allocator(), text) else {
            return Err(NotKept);
        };
        let added = self.rows.insert(key, ino.0);
        if added.is_err() {
            return Err(NotKept);
        }
        Ok(())
    }

    /// Lets a name name nothing. The error means that its bytes are no text.
    pub fn remove(&mut self, name: &[u8]) -> Result<(), NotKept>
        ensures ok { OnOk result (self.new ≡ remove self.old name.now) }
        ensures err { OnErr result (self.new ≡ self.old) }
    {
        let Ok(text) = str::from_utf8(name) else {
            return Err(NotKept);
        };
        self.rows.swap_remove(text);
        Ok(())
    }
}
