//! One entry at a time: its page is written, the disk synced, and the entry marked clean.

ghost use Rattle.std.specs.Prelude.{◌≡◌, ◌≢◌, ◌<◌, ◌≤◌, ◌+◌, ◌*◌, true, false, ℕ, None, OnOk, OnErr, IsErr, IsErrOf, length};
ghost use Rattle.rio_base.specs.Disks.{block_at, is_pending, raised};
ghost use Rattle.rio_base.specs.Machine.{FaultCause, Lasts, StepEnds};
ghost use Rattle.rio_model.specs.Cover.{Coherent, HeldEntry, IsBare, IsCleaned, Keeps, Narrows, OnDisk, frame_page};
ghost use Rattle.rio_model.specs.Registry.{IsValid, OneEntry, frames_of, is_dirty, tag_at, tag_block};
ghost use Rattle.write_back.specs.Flushing.{SameDisk};

use registry::{clear, frame_page_of, load_tag, set_clean};
use rio_base::{Machine, Page, Stopped, VolFail};

/// Writes the page of entry `k`, which is dirty, as its block. `Fault` leaves the block reading as anything: the entry
/// stays dirty, and so its page counts.
#[tactic(auto, using(crate::proofs::Steps::layout_now, crate::proofs::Steps::on_disk, crate::proofs::Steps::stays_on_disk, rio_model::proofs::CoverSteps::keeps_write))]
pub fn write_entry<M: Machine>(m: &mut M, k: u32, page: Page) -> Result<(), VolFail>
    requires coherent { Coherent (M.contents m.old) (length (M.run m.old).scratch) }
    requires closed { (M.contents m.old).open_page ≡ None }
    requires valid { IsValid (M.contents m.old).words k }
    requires dirty { is_dirty (tag_at (M.contents m.old).words k) ≡ true }
    requires page { page.0 ≡ frame_page (M.contents m.old).words k }
    ensures keeps { Keeps (M.contents m.old) (M.contents m.new) }
    ensures words { (M.contents m.new).words ≡ (M.contents m.old).words }
    ensures written { OnOk result (OnDisk (M.contents m.new) k) }
    ensures others { (j : ℕ) → IsValid (M.contents m.old).words j → j ≢ k → OnDisk (M.contents m.old) j → OnDisk (M.contents m.new) j }
    ensures blocks { (b : ℕ) → b ≢ tag_block (tag_at (M.contents m.old).words k) → block_at (M.contents m.new).disk b ≡ block_at (M.contents m.old).disk b }
    ensures marks { (b : ℕ) → b ≢ tag_block (tag_at (M.contents m.old).words k) → is_pending (M.contents m.new).pending b ≡ is_pending (M.contents m.old).pending b }
    ensures pends { (b : ℕ) → is_pending (M.contents m.old).pending b ≡ true → is_pending (M.contents m.new).pending b ≡ true }
    ensures counted { OnOk result ((M.contents m.new).writes ≡ raised (M.contents m.old).writes 1) }
    ensures one_write { (M.contents m.new).writes ≤ raised (M.contents m.old).writes 1 }
    ensures closed { (M.contents m.new).open_page ≡ None }
    ensures lasts { Lasts (M.contents m.old) (M.contents m.new) }
    ensures fault { FaultCause (M.contents m.old) (M.contents m.new) (IsErrOf result VolFail.Fault) }
    ensures ends { StepEnds (M.run m.old) (M.run m.new) (IsErrOf result VolFail.Stopped) }
{
    let block = load_tag(m, k).block();
    m.write_block(block, page)?;
    Ok(())
}

/// Brings all that was written to the device. `Fault` and `Stopped` leave pending what was.
#[tactic(auto, using(rio_model::proofs::CoverSteps::keeps_marks, rio_model::proofs::CoverSteps::none_pending))]
pub fn sync_disk<M: Machine>(m: &mut M) -> Result<(), VolFail>
    requires closed { (M.contents m.old).open_page ≡ None }
    ensures keeps { Keeps (M.contents m.old) (M.contents m.new) }
    ensures words { (M.contents m.new).words ≡ (M.contents m.old).words }
    ensures disk { (M.contents m.new).disk ≡ (M.contents m.old).disk }
    ensures writes { (M.contents m.new).writes ≡ (M.contents m.old).writes }
    ensures synced { OnOk result ((b : ℕ) → is_pending (M.contents m.new).pending b ≡ false) }
    ensures same { OnErr result ((M.contents m.new).pending ≡ (M.contents m.old).pending) }
    ensures closed { (M.contents m.new).open_page ≡ None }
    ensures lasts { Lasts (M.contents m.old) (M.contents m.new) }
    ensures fault { FaultCause (M.contents m.old) (M.contents m.new) (IsErrOf result VolFail.Fault) }
    ensures ends { StepEnds (M.run m.old) (M.run m.new) (IsErrOf result VolFail.Stopped) }
{
    m.sync()?;
    Ok(())
}

/// Marks entry `k` clean, whose page is on the disk, where its block isn't pending. `Stopped` changes nothing.
#[tactic(auto, using(crate::proofs::Steps::layout_now, rio_model::proofs::HeldEntries::held_same, crate::proofs::Steps::held_clean))]
pub(crate) fn mark_clean<M: Machine>(m: &mut M, k: u32) -> Result<(), Stopped>
    requires coherent { Coherent (M.contents m.old) (length (M.run m.old).scratch) }
    requires closed { (M.contents m.old).open_page ≡ None }
    requires valid { IsValid (M.contents m.old).words k }
    requires bare { IsBare (M.contents m.old).words k }
    requires written { OnDisk (M.contents m.old) k }
    requires synced { is_pending (M.contents m.old).pending (tag_block (tag_at (M.contents m.old).words k)) ≡ false }
    ensures keeps { Keeps (M.contents m.old) (M.contents m.new) }
    ensures cleaned { OnOk result (IsCleaned k (M.contents m.old).words (M.contents m.new).words) }
    ensures same { OnErr result ((M.contents m.new).words ≡ (M.contents m.old).words) }
    ensures rest { M.contents m.new ≡ record (M.contents m.old) { words = (M.contents m.new).words } }
    ensures held { HeldEntry k (M.contents m.old).words (M.contents m.new).words }
    ensures one_entry { OneEntry k (M.contents m.old).words (M.contents m.new).words }
    ensures closed { (M.contents m.new).open_page ≡ None }
    ensures lasts { Lasts (M.contents m.old) (M.contents m.new) }
    ensures ends { StepEnds (M.run m.old) (M.run m.new) (IsErr result) }
{
    set_clean(m, k)?;
    Ok(())
}

/// Brings the page of entry `k` to the disk, if it is dirty, and marks it clean once the disk has it. A clean entry's
/// page is neither written nor synced. `Fault`: the disk refused the write or the sync. `Fault` and `Stopped` leave all
/// words as they were.
#[tactic(auto, using(crate::proofs::Steps::keeps_then, rio_base::proofs::MachineRules::ends_then, crate::proofs::Steps::still_valid, crate::proofs::Steps::coherent_then, rio_model::proofs::HeldEntries::held_same, rio_model::proofs::HeldEntries::held_then))]
pub fn clean<M: Machine>(m: &mut M, k: u32) -> Result<(), VolFail>
    requires coherent { Coherent (M.contents m.old) (length (M.run m.old).scratch) }
    requires closed { (M.contents m.old).open_page ≡ None }
    requires valid { IsValid (M.contents m.old).words k }
    requires bare { IsBare (M.contents m.old).words k }
    ensures keeps { Keeps (M.contents m.old) (M.contents m.new) }
    ensures cleaned { OnOk result (IsCleaned k (M.contents m.old).words (M.contents m.new).words) }
    ensures same { OnErr result ((M.contents m.new).words ≡ (M.contents m.old).words) }
    ensures held { HeldEntry k (M.contents m.old).words (M.contents m.new).words }
    ensures one_entry { OneEntry k (M.contents m.old).words (M.contents m.new).words }
    ensures narrows { Narrows (M.contents m.old).words (M.contents m.new).words }
    ensures clean_entry { is_dirty (tag_at (M.contents m.old).words k) ≡ false → SameDisk (M.contents m.old) (M.contents m.new) }
    ensures one_write { (M.contents m.new).writes ≤ raised (M.contents m.old).writes 1 }
    ensures closed { (M.contents m.new).open_page ≡ None }
    ensures lasts { Lasts (M.contents m.old) (M.contents m.new) }
    ensures fault { FaultCause (M.contents m.old) (M.contents m.new) (IsErrOf result VolFail.Fault) }
    ensures ends { StepEnds (M.run m.old) (M.run m.new) (IsErrOf result VolFail.Stopped) }
{
    if !load_tag(m, k).is_dirty() {
        return Ok(());
    }
    let page = frame_page_of(m, k);
    write_entry(m, k, page)?;
    sync_disk(m)?;
    mark_clean(m, k)?;
    Ok(())
}

/// Makes entry `k`, which is clean, invalid. `Stopped` changes nothing.
#[tactic(auto, using(crate::proofs::Steps::layout_now, rio_model::proofs::HeldEntries::held_same))]
fn drop_entry<M: Machine>(m: &mut M, k: u32) -> Result<(), Stopped>
    requires coherent { Coherent (M.contents m.old) (length (M.run m.old).scratch) }
    requires closed { (M.contents m.old).open_page ≡ None }
    requires valid { IsValid (M.contents m.old).words k }
    requires clean { is_dirty (tag_at (M.contents m.old).words k) ≡ false }
    ensures keeps { Keeps (M.contents m.old) (M.contents m.new) }
    ensures gone { OnOk result (tag_at (M.contents m.new).words k ≡ 0) }
    ensures rest { M.contents m.new ≡ record (M.contents m.old) { words = (M.contents m.new).words } }
    ensures same { OnErr result ((M.contents m.new).words ≡ (M.contents m.old).words) }
    ensures held { OnErr result (HeldEntry k (M.contents m.old).words (M.contents m.new).words) }
    ensures one_entry { OneEntry k (M.contents m.old).words (M.contents m.new).words }
    ensures closed { (M.contents m.new).open_page ≡ None }
    ensures lasts { Lasts (M.contents m.old) (M.contents m.new) }
    ensures ends { StepEnds (M.run m.old) (M.run m.new) (IsErr result) }
{
    clear(m, k)?;
    Ok(())
}

/// Makes entry `k` invalid, after its page is on the disk. A clean entry's page is neither written nor synced. `Fault`
/// and `Stopped`: the entry has its block still, and may be clean by then.
#[tactic(auto, using(crate::proofs::Steps::keeps_then, rio_base::proofs::MachineRules::ends_then, rio_model::proofs::HeldEntries::one_entry_then, crate::proofs::Steps::coherent_then, rio_model::proofs::HeldEntries::held_then))]
pub fn evict<M: Machine>(m: &mut M, k: u32) -> Result<(), VolFail>
    requires coherent { Coherent (M.contents m.old) (length (M.run m.old).scratch) }
    requires closed { (M.contents m.old).open_page ≡ None }
    requires valid { IsValid (M.contents m.old).words k }
    requires bare { IsBare (M.contents m.old).words k }
    ensures keeps { Keeps (M.contents m.old) (M.contents m.new) }
    ensures gone { OnOk result (tag_at (M.contents m.new).words k ≡ 0) }
    ensures held { OnErr result (HeldEntry k (M.contents m.old).words (M.contents m.new).words) }
    ensures one_entry { OneEntry k (M.contents m.old).words (M.contents m.new).words }
    ensures marks { is_dirty (tag_at (M.contents m.new).words k) ≡ true → is_dirty (tag_at (M.contents m.old).words k) ≡ true }
    ensures narrows { Narrows (M.contents m.old).words (M.contents m.new).words }
    ensures clean_entry { is_dirty (tag_at (M.contents m.old).words k) ≡ false → SameDisk (M.contents m.old) (M.contents m.new) }
    ensures one_write { (M.contents m.new).writes ≤ raised (M.contents m.old).writes 1 }
    ensures closed { (M.contents m.new).open_page ≡ None }
    ensures lasts { Lasts (M.contents m.old) (M.contents m.new) }
    ensures fault { FaultCause (M.contents m.old) (M.contents m.new) (IsErrOf result VolFail.Fault) }
    ensures ends { StepEnds (M.run m.old) (M.run m.new) (IsErrOf result VolFail.Stopped) }
{
    clean(m, k)?;
    drop_entry(m, k)?;
    Ok(())
}

/// Makes entry `k` invalid, whose page, if it is dirty, is on the disk, where its block isn't pending: it is marked clean
/// first then. Nothing is written or synced. `Stopped`: the entry has its block still, and may be clean by then.
#[tactic(auto, using(crate::proofs::Steps::keeps_then, rio_model::proofs::HeldEntries::one_entry_then, crate::proofs::Steps::coherent_then, rio_model::proofs::HeldEntries::held_then))]
pub fn release<M: Machine>(m: &mut M, k: u32) -> Result<(), Stopped>
    requires coherent { Coherent (M.contents m.old) (length (M.run m.old).scratch) }
    requires closed { (M.contents m.old).open_page ≡ None }
    requires valid { IsValid (M.contents m.old).words k }
    requires bare { IsBare (M.contents m.old).words k }
    requires written { is_dirty (tag_at (M.contents m.old).words k) ≡ true → OnDisk (M.contents m.old) k }
    requires synced { is_dirty (tag_at (M.contents m.old).words k) ≡ true → is_pending (M.contents m.old).pending (tag_block (tag_at (M.contents m.old).words k)) ≡ false }
    ensures keeps { Keeps (M.contents m.old) (M.contents m.new) }
    ensures gone { OnOk result (tag_at (M.contents m.new).words k ≡ 0) }
    ensures held { OnErr result (HeldEntry k (M.contents m.old).words (M.contents m.new).words) }
    ensures one_entry { OneEntry k (M.contents m.old).words (M.contents m.new).words }
    ensures marks { is_dirty (tag_at (M.contents m.new).words k) ≡ true → is_dirty (tag_at (M.contents m.old).words k) ≡ true }
    ensures narrows { Narrows (M.contents m.old).words (M.contents m.new).words }
    ensures rest { M.contents m.new ≡ record (M.contents m.old) { words = (M.contents m.new).words } }
    ensures closed { (M.contents m.new).open_page ≡ None }
    ensures lasts { Lasts (M.contents m.old) (M.contents m.new) }
    ensures ends { StepEnds (M.run m.old) (M.run m.new) (IsErr result) }
{
    let tag = load_tag(m, k);
    if !tag.is_dirty() {
        drop_entry(m, k)?;
        return Ok(());
    }
    mark_clean(m, k)?;
    drop_entry(m, k)?;
    Ok(())
}
