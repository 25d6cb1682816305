//! The end of an update that does not count.

ghost use Rattle.std.specs.Prelude.{◌≡◌, ◌≢◌, ◌<◌, ℕ, true, None, OnOk, OnErr, IsErr, length, slice_index};
ghost use Rattle.rio_base.specs.Machine.{Lasts, StepEnds};
ghost use Rattle.rio_model.specs.Cover.{Coherent, SameNames, is_loose, reads, stands};
ghost use Rattle.rio_model.specs.Registry.{IsValid, frames_of, gate_of, shadow_at};
ghost use Rattle.shadow_pages.specs.Steps.{HasShadow, IsRestored, Restores, StoresWords};
ghost use Rattle.shadow_pages.specs.Updates.{AreEntries, IsUnshadowed, ListsShadows, SameShadows, Undone};

use crate::committing::commit;
use crate::pages::copy_closed_page;
use registry::{Tag, frame_page_of, read_entry, shadow_page_of};
use rio_base::{Machine, Stopped};

/// Copies shadow page `s`, which counts for entry `k`, to the frame of the entry.
#[tactic(auto, using(crate::proofs::Steps::layout_now, crate::proofs::Steps::shadow_few))]
fn copy_back<M: Machine>(m: &mut M, k: u32, s: u32) -> Result<(), Stopped>
    requires coherent { Coherent (M.contents m.old) (length (M.run m.old).scratch) }
    requires closed { (M.contents m.old).open_page ≡ None }
    requires has { HasShadow k s (M.contents m.old).words }
    ensures restores { Restores (M.contents m.old).words (M.contents m.new).words }
    ensures restored { OnOk result (IsRestored (M.contents m.new).words k) }
    ensures stores { StoresWords (M.contents m.old) (M.contents m.new) }
    ensures ends { StepEnds (M.run m.old) (M.run m.new) (IsErr result) }
{
    let from = shadow_page_of(m, s);
    let to = frame_page_of(m, k);
    copy_closed_page(m, from, to)
}

/// Copies back the shadow page of entry `k`, if it is valid and has one.
#[tactic(auto, using(crate::proofs::Steps::layout_now, crate::proofs::Steps::shadow_few, crate::proofs::Steps::stores_refl, crate::proofs::Restores::restores_refl, crate::proofs::Restores::restored_bare, rio_base::proofs::MachineRules::ends_none))]
fn restore_frame<M: Machine>(m: &mut M, k: u32) -> Result<(), Stopped>
    requires coherent { Coherent (M.contents m.old) (length (M.run m.old).scratch) }
    requires closed { (M.contents m.old).open_page ≡ None }
    requires updating { gate_of (M.contents m.old).words ≡ 1 }
    requires entry { k < frames_of (M.contents m.old).words }
    ensures restores { Restores (M.contents m.old).words (M.contents m.new).words }
    ensures restored { OnOk result (IsRestored (M.contents m.new).words k) }
    ensures stores { StoresWords (M.contents m.old) (M.contents m.new) }
    ensures ends { StepEnds (M.run m.old) (M.run m.new) (IsErr result) }
{
    let entry = read_entry(m, k);
    if !Tag(entry.tag).is_valid() {
        return Ok(());
    }
    if entry.shadow == 0 {
        return Ok(());
    }
    copy_back(m, k, entry.shadow as u32)
}

/// Copies back the shadow pages of the listed entries.
#[tactic(auto, using(crate::proofs::Steps::stores_refl, crate::proofs::Restores::restores_refl, rio_base::proofs::MachineRules::steps_refl, rio_base::proofs::MachineRules::ends_none))]
fn restore_frames<M: Machine>(m: &mut M, shadowed: &[u32]) -> Result<(), Stopped>
    requires coherent { Coherent (M.contents m.old) (length (M.run m.old).scratch) }
    requires closed { (M.contents m.old).open_page ≡ None }
    requires updating { gate_of (M.contents m.old).words ≡ 1 }
    requires within { AreEntries (M.contents m.old).words shadowed.now }
    ensures restores { Restores (M.contents m.old).words (M.contents m.new).words }
    ensures restored { OnOk result ((i : ℕ) → i < length shadowed.now → IsRestored (M.contents m.new).words (slice_index shadowed.now i)) }
    ensures stores { StoresWords (M.contents m.old) (M.contents m.new) }
    ensures ends { StepEnds (M.run m.old) (M.run m.new) (IsErr result) }
{
    for i in 0..shadowed.len() {
        restore_frame(m, shadowed[i])?;
    }
    Ok(())
}

/// Takes an update back: memory reads again as it read when the update began. `shadowed` lists the entries that may have
/// a shadow; those of them that are not valid, or have no shadow, are passed over. `Stopped` leaves the update open, and
/// its edits taken back in part: what stands is the same at each moment.
#[tactic(auto, using(rio_base::proofs::MachineRules::ends_then, crate::proofs::Restores::restores_gate, crate::proofs::Restores::restores_names, crate::proofs::Restores::restores_shadows))]
pub fn undo<M: Machine>(m: &mut M, shadowed: &[u32]) -> Result<(), Stopped>
    requires coherent { Coherent (M.contents m.old) (length (M.run m.old).scratch) }
    requires closed { (M.contents m.old).open_page ≡ None }
    requires updating { gate_of (M.contents m.old).words ≡ 1 }
    requires within { AreEntries (M.contents m.old).words shadowed.now }
    requires listed { ListsShadows (M.contents m.old).words shadowed.now }
    ensures undone { OnOk result (Undone (M.contents m.old) (M.contents m.new)) }
    ensures cut { OnErr result (gate_of (M.contents m.new).words ≡ 1) }
    ensures standing { stands (M.contents m.new) ≡ stands (M.contents m.old) }
    ensures untouched { (b w : ℕ) → IsUnshadowed (M.contents m.old).words b → reads (M.contents m.new) b w ≡ reads (M.contents m.old) b w }
    ensures shadows { SameShadows (M.contents m.old).words (M.contents m.new).words }
    ensures names { SameNames (M.contents m.old).words (M.contents m.new).words }
    ensures rest { M.contents m.new ≡ record (M.contents m.old) { words = (M.contents m.new).words } }
    ensures coherent { (n : ℕ) → Coherent (M.contents m.old) n → Coherent (M.contents m.new) n }
    ensures firm { (b : ℕ) → is_loose (M.contents m.new) b ≡ true → is_loose (M.contents m.old) b ≡ true }
    ensures closed { (M.contents m.new).open_page ≡ None }
    ensures lasts { Lasts (M.contents m.old) (M.contents m.new) }
    ensures ends { StepEnds (M.run m.old) (M.run m.new) (IsErr result) }
{
    restore_frames(m, shadowed)?;
    // Every frame is as the page that counts, so what reads now is what stood.
    commit(m)?;
    Ok(())
}
