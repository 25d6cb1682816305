//! The start of an update.

ghost use Rattle.std.specs.Prelude.{◌≡◌, ◌≢◌, ◌<◌, ℕ, true, None, OnOk, OnErr, IsErr, length, slice_index};
ghost use Rattle.rio_base.specs.Machine.{Lasts, StepEnds};
ghost use Rattle.rio_model.specs.Cover.{Coherent, Keeps, SameNames, is_loose};
ghost use Rattle.rio_model.specs.Registry.{frames_of, gate_of};
ghost use Rattle.shadow_pages.specs.Steps.{Clears, IsCleared};
ghost use Rattle.shadow_pages.specs.Updates.{AreEntries, ListsShadows, LosesShadows, Opened};

use crate::gate::store_gate;
use registry::{Tag, read_entry, set_shadow};
use rio_base::{Machine, Stopped};

/// Takes its shadow from entry `k`, if it is valid and has one, while no update is open.
#[tactic(auto, using(crate::proofs::Steps::layout_now, crate::proofs::Steps::clears_refl, rio_base::proofs::MachineRules::ends_none))]
fn clear_shadow<M: Machine>(m: &mut M, k: u32) -> Result<(), Stopped>
    requires coherent { Coherent (M.contents m.old) (length (M.run m.old).scratch) }
    requires closed { (M.contents m.old).open_page ≡ None }
    requires shut { gate_of (M.contents m.old).words ≢ 1 }
    requires entry { k < frames_of (M.contents m.old).words }
    ensures clears { Clears (M.contents m.old) (M.contents m.new) }
    ensures cleared { OnOk result (IsCleared (M.contents m.new).words k) }
    ensures ends { StepEnds (M.run m.old) (M.run m.new) (IsErr result) }
{
    let entry = read_entry(m, k);
    if !Tag(entry.tag).is_valid() {
        return Ok(());
    }
    if entry.shadow == 0 {
        return Ok(());
    }
    set_shadow(m, k, 0)?;
    Ok(())
}

/// Takes their shadows from the listed entries, while no update is open.
#[tactic(auto, using(crate::proofs::Steps::clears_refl, rio_base::proofs::MachineRules::steps_refl, rio_base::proofs::MachineRules::ends_none))]
fn clear_shadows<M: Machine>(m: &mut M, shadowed: &[u32]) -> Result<(), Stopped>
    requires coherent { Coherent (M.contents m.old) (length (M.run m.old).scratch) }
    requires closed { (M.contents m.old).open_page ≡ None }
    requires shut { gate_of (M.contents m.old).words ≢ 1 }
    requires within { AreEntries (M.contents m.old).words shadowed.now }
    ensures clears { Clears (M.contents m.old) (M.contents m.new) }
    ensures cleared { OnOk result ((i : ℕ) → i < length shadowed.now → IsCleared (M.contents m.new).words (slice_index shadowed.now i)) }
    ensures ends { StepEnds (M.run m.old) (M.run m.new) (IsErr result) }
{
    for i in 0..shadowed.len() {
        clear_shadow(m, shadowed[i])?;
    }
    Ok(())
}

/// Opens an update that has no shadow yet. `shadowed` lists the entries that may have a shadow from an earlier update;
/// those of them that are not valid, or have no shadow, are passed over. `Stopped` changes nothing that reads or stands,
/// and no update is open then.
#[tactic(auto, using(crate::proofs::Steps::stores_trans, rio_base::proofs::MachineRules::ends_then, rio_model::proofs::CoverStands::same_names_trans))]
pub fn begin<M: Machine>(m: &mut M, shadowed: &[u32]) -> Result<(), Stopped>
    requires coherent { Coherent (M.contents m.old) (length (M.run m.old).scratch) }
    requires closed { (M.contents m.old).open_page ≡ None }
    requires shut { gate_of (M.contents m.old).words ≢ 1 }
    requires within { AreEntries (M.contents m.old).words shadowed.now }
    requires listed { ListsShadows (M.contents m.old).words shadowed.now }
    ensures opened { OnOk result (Opened (M.contents m.old) (M.contents m.new)) }
    ensures cut { OnErr result (Keeps (M.contents m.old) (M.contents m.new)) }
    ensures shadows { LosesShadows (M.contents m.old).words (M.contents m.new).words }
    ensures names { SameNames (M.contents m.old).words (M.contents m.new).words }
    ensures rest { M.contents m.new ≡ record (M.contents m.old) { words = (M.contents m.new).words } }
    ensures coherent { (n : ℕ) → Coherent (M.contents m.old) n → Coherent (M.contents m.new) n }
    ensures firm { (b : ℕ) → is_loose (M.contents m.new) b ≡ true → is_loose (M.contents m.old) b ≡ true }
    ensures closed { (M.contents m.new).open_page ≡ None }
    ensures lasts { Lasts (M.contents m.old) (M.contents m.new) }
    ensures ends { StepEnds (M.run m.old) (M.run m.new) (IsErr result) }
{
    // With the gate at 1 a shadow of an earlier update would count: those go first.
    clear_shadows(m, shadowed)?;
    store_gate(m, 1)?;
    Ok(())
}
