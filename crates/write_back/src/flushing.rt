//! The first dirty entries at once, over one sync.

ghost use Rattle.std.specs.Prelude.{◌≡◌, ◌≢◌, ◌<◌, ◌≤◌, ◌+◌, ◌*◌, ℕ, true, false, None, IfOk, OnOk, IsErr, IsErrOf, length, slice_index};
ghost use Rattle.rio_base.specs.Disks.{is_pending, raised};
ghost use Rattle.rio_base.specs.Machine.{FaultCause, Lasts, StepEnds};
ghost use Rattle.rio_model.specs.Cover.{Coherent, HeldEntry, IsCleaned, Keeps, Narrows, OnDisk, frame_page};
ghost use Rattle.rio_model.specs.Registry.{IsValid, OneEntry, frames_of, gate_of};
ghost use Rattle.write_back.specs.Flushing.{CleanedFirst, Flushed, WroteFirst, dirty_entries, needs_write, once};

use crate::cleaning::{mark_clean, sync_disk, write_entry};
use registry::{frame_count, frame_page_of, load_tag};
use rio_base::{Machine, Page, VolFail};

/// Writes the page of entry `k` as its block, if the entry is valid and dirty, and says whether it is.
fn write_if_dirty<M: Machine>(m: &mut M, k: u32, page: Page) -> Result<bool, VolFail>
    requires coherent { Coherent (M.contents m.old) (length (M.run m.old).scratch) }
    requires closed { (M.contents m.old).open_page ≡ None }
    requires entry { k < frames_of (M.contents m.old).words }
    requires page { page.0 ≡ frame_page (M.contents m.old).words k }
    ensures keeps { Keeps (M.contents m.old) (M.contents m.new) }
    ensures words { (M.contents m.new).words ≡ (M.contents m.old).words }
    ensures answer { IfOk result (λ dirty. dirty ≡ needs_write (M.contents m.old).words k) }
    ensures written { OnOk result (needs_write (M.contents m.old).words k ≡ true → OnDisk (M.contents m.new) k) }
    ensures others { (j : ℕ) → IsValid (M.contents m.old).words j → j ≢ k → OnDisk (M.contents m.old) j → OnDisk (M.contents m.new) j }
    ensures counted { IfOk result (λ dirty. (M.contents m.new).writes ≡ raised (M.contents m.old).writes (once dirty)) }
    ensures one_write { (M.contents m.new).writes ≤ raised (M.contents m.old).writes 1 }
    ensures closed { (M.contents m.new).open_page ≡ None }
    ensures lasts { Lasts (M.contents m.old) (M.contents m.new) }
    ensures fault { FaultCause (M.contents m.old) (M.contents m.new) (IsErrOf result VolFail.Fault) }
    ensures ends { StepEnds (M.run m.old) (M.run m.new) (IsErrOf result VolFail.Stopped) }
{
    let tag = load_tag(m, k);
    if !tag.is_valid() {
        return Ok(false);
    }
    if !tag.is_dirty() {
        return Ok(false);
    }
    write_entry(m, k, page)?;
    Ok(true)
}

/// Writes the pages of the first `n` valid dirty entries, or of all, as their blocks, and answers how many these are.
fn write_first<M: Machine>(m: &mut M, n: u64) -> Result<u32, VolFail>
    requires coherent { Coherent (M.contents m.old) (length (M.run m.old).scratch) }
    requires closed { (M.contents m.old).open_page ≡ None }
    ensures keeps { Keeps (M.contents m.old) (M.contents m.new) }
    ensures words { (M.contents m.new).words ≡ (M.contents m.old).words }
    ensures written { IfOk result (λ j. WroteFirst n j (M.contents m.old) (M.contents m.new)) }
    ensures few { (M.contents m.new).writes ≤ raised (M.contents m.old).writes n }
    ensures closed { (M.contents m.new).open_page ≡ None }
    ensures lasts { Lasts (M.contents m.old) (M.contents m.new) }
    ensures fault { FaultCause (M.contents m.old) (M.contents m.new) (IsErrOf result VolFail.Fault) }
    ensures ends { StepEnds (M.run m.old) (M.run m.new) (IsErrOf result VolFail.Stopped) }
{
    let frames = frame_count(m);
    let first = frame_page_of(m, 0);
    let mut written = 0;
    for k in 0..frames {
        if u64::from(written) == n {
            return Ok(written);
        }
        let dirty = write_if_dirty(m, k, Page(first.0 + k))?;
        written += u32::from(dirty);
    }
    Ok(written)
}

/// Marks entry `k` clean, if it is valid and dirty, and says whether it was. Its page is on the disk then, where nothing
/// is pending. `Stopped` changes nothing.
fn mark_if_dirty<M: Machine>(m: &mut M, k: u32) -> Result<bool, VolFail>
    requires coherent { Coherent (M.contents m.old) (length (M.run m.old).scratch) }
    requires closed { (M.contents m.old).open_page ≡ None }
    requires shut { gate_of (M.contents m.old).words ≢ 1 }
    requires entry { k < frames_of (M.contents m.old).words }
    requires written { needs_write (M.contents m.old).words k ≡ true → OnDisk (M.contents m.old) k }
    requires synced { (b : ℕ) → is_pending (M.contents m.old).pending b ≡ false }
    ensures keeps { Keeps (M.contents m.old) (M.contents m.new) }
    ensures answer { IfOk result (λ dirty. dirty ≡ needs_write (M.contents m.old).words k) }
    ensures cleaned { OnOk result (needs_write (M.contents m.old).words k ≡ true → IsCleaned k (M.contents m.old).words (M.contents m.new).words) }
    ensures same { needs_write (M.contents m.old).words k ≡ false → (M.contents m.new).words ≡ (M.contents m.old).words }
    ensures rest { M.contents m.new ≡ record (M.contents m.old) { words = (M.contents m.new).words } }
    ensures held { HeldEntry k (M.contents m.old).words (M.contents m.new).words }
    ensures one_entry { OneEntry k (M.contents m.old).words (M.contents m.new).words }
    ensures closed { (M.contents m.new).open_page ≡ None }
    ensures lasts { Lasts (M.contents m.old) (M.contents m.new) }
    ensures fault { IsErrOf result VolFail.Fault → ⊥ }
    ensures ends { StepEnds (M.run m.old) (M.run m.new) (IsErrOf result VolFail.Stopped) }
{
    let tag = load_tag(m, k);
    if !tag.is_valid() {
        return Ok(false);
    }
    if !tag.is_dirty() {
        return Ok(false);
    }
    mark_clean(m, k)?;
    Ok(true)
}

/// Marks the first `count` valid dirty entries clean. Their pages are on the disk, where nothing is pending.
fn mark_first<M: Machine>(m: &mut M, count: u32) -> Result<(), VolFail>
    requires coherent { Coherent (M.contents m.old) (length (M.run m.old).scratch) }
    requires closed { (M.contents m.old).open_page ≡ None }
    requires shut { gate_of (M.contents m.old).words ≢ 1 }
    requires many { count ≤ length (dirty_entries (M.contents m.old).words) }
    requires written { (x : ℕ) → x < count → OnDisk (M.contents m.old) (slice_index (dirty_entries (M.contents m.old).words) x) }
    requires synced { (b : ℕ) → is_pending (M.contents m.old).pending b ≡ false }
    ensures keeps { Keeps (M.contents m.old) (M.contents m.new) }
    ensures cleaned { OnOk result (CleanedFirst count (M.contents m.old).words (M.contents m.new).words) }
    ensures rest { M.contents m.new ≡ record (M.contents m.old) { words = (M.contents m.new).words } }
    ensures held { (k : ℕ) → HeldEntry k (M.contents m.old).words (M.contents m.new).words }
    ensures closed { (M.contents m.new).open_page ≡ None }
    ensures lasts { Lasts (M.contents m.old) (M.contents m.new) }
    ensures fault { IsErrOf result VolFail.Fault → ⊥ }
    ensures ends { StepEnds (M.run m.old) (M.run m.new) (IsErrOf result VolFail.Stopped) }
{
    let frames = frame_count(m);
    let mut marked = 0;
    for k in 0..frames {
        if marked == count {
            return Ok(());
        }
        let dirty = mark_if_dirty(m, k)?;
        marked += u32::from(dirty);
    }
    Ok(())
}

/// Brings the pages of the first `n` valid dirty entries, or of all, to the disk by one sync, marks these entries clean,
/// and answers how many they are. The sync is made also where none is dirty, so that nothing is pending afterwards.
/// `Fault`: the disk refused a write or the sync, and no entry is marked.
pub fn flush<M: Machine>(m: &mut M, n: u64) -> Result<u32, VolFail>
    requires coherent { Coherent (M.contents m.old) (length (M.run m.old).scratch) }
    requires closed { (M.contents m.old).open_page ≡ None }
    requires shut { gate_of (M.contents m.old).words ≢ 1 }
    ensures keeps { Keeps (M.contents m.old) (M.contents m.new) }
    ensures flushed { IfOk result (λ j. Flushed n j (M.contents m.old) (M.contents m.new)) }
    ensures unmarked { IsErrOf result VolFail.Fault → (M.contents m.new).words ≡ (M.contents m.old).words }
    ensures few_writes { (M.contents m.new).writes ≤ raised (M.contents m.old).writes n }
    ensures held { (k : ℕ) → k < frames_of (M.contents m.old).words → HeldEntry k (M.contents m.old).words (M.contents m.new).words }
    ensures narrows { Narrows (M.contents m.old).words (M.contents m.new).words }
    ensures closed { (M.contents m.new).open_page ≡ None }
    ensures lasts { Lasts (M.contents m.old) (M.contents m.new) }
    ensures fault { FaultCause (M.contents m.old) (M.contents m.new) (IsErrOf result VolFail.Fault) }
    ensures ends { StepEnds (M.run m.old) (M.run m.new) (IsErrOf result VolFail.Stopped) }
{
    let written = write_first(m, n)?;
    sync_disk(m)?;
    mark_first(m, written)?;
    Ok(written)
}
