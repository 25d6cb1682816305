//! Changes of one entry. Each leaves no page open, and changes this entry or none.

ghost use Rattle.std.specs.Prelude.{◌≡◌, ◌<◌, ◌+◌, true, false, OnOk, OnErr, IsErr, slice_set};
ghost use Rattle.rio_base.specs.Image.{entry_at};
ghost use Rattle.rio_model.specs.Registry.{is_valid, tag_at, with_dirty, without_dirty};
ghost use Rattle.registry.specs.Changes.{CanChange, ChangesEntry};
ghost use Rattle.registry.specs.Entries.{IsFree, entry_of, new_entry, with_entry, with_name, with_word};

use crate::entry::{Entry, load_tag, place_of};
use crate::tag::Tag;
use page_protect::{put_run, put_word};
use rio_base::{Block, Machine, PAGE_WORDS, Page, PageName, Stopped};

/// Stores word `w` of entry `k`, `w` below 5. `Stopped` changes nothing.
fn put_entry_word<M: Machine>(m: &mut M, k: u32, w: u16, v: u64) -> Result<(), Stopped>
    requires can { CanChange k (M.contents m.old) (M.run m.old) }
    requires within { w < 5 }
    ensures stored { OnOk result (M.contents m.new ≡ record (M.contents m.old) { words = slice_set (M.contents m.old).words (entry_at k + w) v }) }
    ensures entry { OnOk result (entry_of (M.contents m.new).words k ≡ with_word (entry_of (M.contents m.old).words k) w v) }
    ensures same { OnErr result (M.contents m.new ≡ M.contents m.old) }
    ensures changes { ChangesEntry k (M.contents m.old) (M.contents m.new) (M.run m.old) (M.run m.new) (IsErr result) }
{
    let place = place_of(k) + u32::from(w);
    let page = Page(place / PAGE_WORDS);
    put_word(m, page, (place % PAGE_WORDS) as u16, v)
}

/// Marks entry `k` dirty: its page may differ from the disk's block from now on. `Stopped` changes nothing.
pub fn set_dirty<M: Machine>(m: &mut M, k: u32) -> Result<(), Stopped>
    requires can { CanChange k (M.contents m.old) (M.run m.old) }
    requires valid { is_valid (tag_at (M.contents m.old).words k) ≡ true }
    ensures stored { OnOk result (M.contents m.new ≡ record (M.contents m.old) { words = slice_set (M.contents m.old).words (entry_at k) (with_dirty (tag_at (M.contents m.old).words k)) }) }
    ensures entry { OnOk result (entry_of (M.contents m.new).words k ≡ record (entry_of (M.contents m.old).words k) { tag = with_dirty (tag_at (M.contents m.old).words k) }) }
    ensures same { OnErr result (M.contents m.new ≡ M.contents m.old) }
    ensures changes { ChangesEntry k (M.contents m.old) (M.contents m.new) (M.run m.old) (M.run m.new) (IsErr result) }
{
    let tag = load_tag(m, k);
    put_entry_word(m, k, 0, tag.dirtied().0)
}

/// Marks entry `k` clean: its page is the disk's block. `Stopped` changes nothing.
pub fn set_clean<M: Machine>(m: &mut M, k: u32) -> Result<(), Stopped>
    requires can { CanChange k (M.contents m.old) (M.run m.old) }
    requires valid { is_valid (tag_at (M.contents m.old).words k) ≡ true }
    ensures stored { OnOk result (M.contents m.new ≡ record (M.contents m.old) { words = slice_set (M.contents m.old).words (entry_at k) (without_dirty (tag_at (M.contents m.old).words k)) }) }
    ensures entry { OnOk result (entry_of (M.contents m.new).words k ≡ record (entry_of (M.contents m.old).words k) { tag = without_dirty (tag_at (M.contents m.old).words k) }) }
    ensures same { OnErr result (M.contents m.new ≡ M.contents m.old) }
    ensures changes { ChangesEntry k (M.contents m.old) (M.contents m.new) (M.run m.old) (M.run m.new) (IsErr result) }
{
    let tag = load_tag(m, k);
    put_entry_word(m, k, 0, tag.cleaned().0)?;
    Ok(())
}

/// Says how many bytes of its page entry `k` uses. `Stopped` changes nothing.
pub fn set_size<M: Machine>(m: &mut M, k: u32, size: u32) -> Result<(), Stopped>
    requires can { CanChange k (M.contents m.old) (M.run m.old) }
    requires valid { is_valid (tag_at (M.contents m.old).words k) ≡ true }
    ensures stored { OnOk result (M.contents m.new ≡ record (M.contents m.old) { words = slice_set (M.contents m.old).words (entry_at k + 3) size }) }
    ensures entry { OnOk result (entry_of (M.contents m.new).words k ≡ record (entry_of (M.contents m.old).words k) { size = size }) }
    ensures same { OnErr result (M.contents m.new ≡ M.contents m.old) }
    ensures changes { ChangesEntry k (M.contents m.old) (M.contents m.new) (M.run m.old) (M.run m.new) (IsErr result) }
{
    put_entry_word(m, k, 3, u64::from(size))
}

/// Gives entry `k` a shadow frame, or none by 0. `Stopped` changes nothing.
pub fn set_shadow<M: Machine>(m: &mut M, k: u32, shadow: u32) -> Result<(), Stopped>
    requires can { CanChange k (M.contents m.old) (M.run m.old) }
    requires valid { is_valid (tag_at (M.contents m.old).words k) ≡ true }
    ensures stored { OnOk result (M.contents m.new ≡ record (M.contents m.old) { words = slice_set (M.contents m.old).words (entry_at k + 4) shadow }) }
    ensures entry { OnOk result (entry_of (M.contents m.new).words k ≡ record (entry_of (M.contents m.old).words k) { shadow = shadow }) }
    ensures same { OnErr result (M.contents m.new ≡ M.contents m.old) }
    ensures changes { ChangesEntry k (M.contents m.old) (M.contents m.new) (M.run m.old) (M.run m.new) (IsErr result) }
{
    put_entry_word(m, k, 4, u64::from(shadow))
}

/// Makes entry `k` invalid: it has no block any more. `Stopped` changes nothing.
pub fn clear<M: Machine>(m: &mut M, k: u32) -> Result<(), Stopped>
    requires can { CanChange k (M.contents m.old) (M.run m.old) }
    ensures stored { OnOk result (M.contents m.new ≡ record (M.contents m.old) { words = slice_set (M.contents m.old).words (entry_at k) 0 }) }
    ensures entry { OnOk result (entry_of (M.contents m.new).words k ≡ record (entry_of (M.contents m.old).words k) { tag = 0 }) }
    ensures same { OnErr result (M.contents m.new ≡ M.contents m.old) }
    ensures changes { ChangesEntry k (M.contents m.old) (M.contents m.new) (M.run m.old) (M.run m.new) (IsErr result) }
{
    put_entry_word(m, k, 0, 0)
}

/// Makes entry `k`, which is not valid, the entry of block `b`, which has none. `name` is that of a page of a file or
/// region, and `None` for metadata. The tag is stored last: after `Stopped` the entry has the tag that it had, and so
/// is not valid.
pub fn install<M: Machine>(
    m: &mut M,
    k: u32,
    b: Block,
    name: Option<PageName>,
    dirty: bool,
) -> Result<(), Stopped>
    requires can { CanChange k (M.contents m.old) (M.run m.old) }
    requires invalid { is_valid (tag_at (M.contents m.old).words k) ≡ false }
    requires free { IsFree (M.contents m.old).words b.0 }
    ensures stored { OnOk result (M.contents m.new ≡ record (M.contents m.old) { words = with_entry (M.contents m.old).words k (new_entry b.0 name dirty) }) }
    ensures entry { OnOk result (entry_of (M.contents m.new).words k ≡ new_entry b.0 name dirty) }
    ensures begun { OnErr result (tag_at (M.contents m.new).words k ≡ tag_at (M.contents m.old).words k) }
    ensures changes { ChangesEntry k (M.contents m.old) (M.contents m.new) (M.run m.old) (M.run m.new) (IsErr result) }
{
    put_entry(m, k, &entry_for(b, name, dirty))
}

/// The entry of a block.
fn entry_for(b: Block, name: Option<PageName>, dirty: bool) -> Entry
    ensures { result ≡ new_entry b.0 name dirty }
{
    match name {
        None => Entry {
            tag: Tag::of(b, dirty, false).0,
            file: 0,
            index: 0,
            size: 4096,
            shadow: 0,
        },
        Some(name) => Entry {
            tag: Tag::of(b, dirty, true).0,
            file: u64::from(name.file.0),
            index: u64::from(name.index),
            size: u64::from(name.size),
            shadow: 0,
        },
    }
}

/// Stores the words of an entry behind its tag, as one run. `Stopped` leaves a front of them stored.
fn put_behind_tag<M: Machine>(m: &mut M, k: u32, entry: &Entry) -> Result<(), Stopped>
    requires can { CanChange k (M.contents m.old) (M.run m.old) }
    ensures stored { OnOk result (M.contents m.new ≡ record (M.contents m.old) { words = slice_set (with_name (M.contents m.old).words k entry.now) (entry_at k + 4) entry.now.shadow }) }
    ensures entry { OnOk result (entry_of (M.contents m.new).words k ≡ record entry.now { tag = tag_at (M.contents m.old).words k }) }
    ensures begun { OnErr result (tag_at (M.contents m.new).words k ≡ tag_at (M.contents m.old).words k) }
    ensures changes { ChangesEntry k (M.contents m.old) (M.contents m.new) (M.run m.old) (M.run m.new) (IsErr result) }
{
    let first = place_of(k) + 1;
    let page = Page(first / PAGE_WORDS);
    let words = [entry.file, entry.index, entry.size, entry.shadow];
    put_run(m, page, (first % PAGE_WORDS) as u16, &words)
}

/// Stores the words of an entry, the tag last, since it is what makes an entry valid.
fn put_entry<M: Machine>(m: &mut M, k: u32, entry: &Entry) -> Result<(), Stopped>
    requires can { CanChange k (M.contents m.old) (M.run m.old) }
    ensures stored { OnOk result (M.contents m.new ≡ record (M.contents m.old) { words = with_entry (M.contents m.old).words k entry.now }) }
    ensures entry { OnOk result (entry_of (M.contents m.new).words k ≡ entry.now) }
    ensures begun { OnErr result (tag_at (M.contents m.new).words k ≡ tag_at (M.contents m.old).words k) }
    ensures changes { ChangesEntry k (M.contents m.old) (M.contents m.new) (M.run m.old) (M.run m.new) (IsErr result) }
{
    put_behind_tag(m, k, entry)?;
    put_entry_word(m, k, 0, entry.tag)
}
