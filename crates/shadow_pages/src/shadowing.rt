//! Shadows of entries.

ghost use Rattle.std.specs.Prelude.{◌≡◌, ◌≢◌, ◌<◌, ◌≤◌, ℕ, false, None, OnOk, OnErr, IsErr, length};
ghost use Rattle.rio_base.specs.Machine.{Lasts, StepEnds};
ghost use Rattle.rio_model.specs.Cover.{Coherent, Keeps, SameNames};
ghost use Rattle.rio_model.specs.Registry.{IsValid, frames_of, is_data, shadow_at, tag_at};
ghost use Rattle.shadow_pages.specs.Steps.{CanShadow, IsCopied, StoresWords};
ghost use Rattle.shadow_pages.specs.Updates.{SameShadows};

use crate::pages::copy_closed_page;
use registry::{frame_page_of, set_shadow, shadow_page_of};
use rio_base::{Machine, Stopped};

/// Copies frame `k` to shadow page `s`, which stands for no entry yet.
#[tactic(auto, using(crate::proofs::Steps::layout_now))]
fn fill_shadow<M: Machine>(m: &mut M, k: u32, s: u32) -> Result<(), Stopped>
    requires coherent { Coherent (M.contents m.old) (length (M.run m.old).scratch) }
    requires closed { (M.contents m.old).open_page ≡ None }
    requires can { CanShadow k s (M.contents m.old).words }
    ensures coherent { Coherent (M.contents m.new) (length (M.run m.new).scratch) }
    ensures keeps { Keeps (M.contents m.old) (M.contents m.new) }
    ensures copied { OnOk result (IsCopied k s (M.contents m.new).words) }
    ensures can { CanShadow k s (M.contents m.new).words }
    ensures shadows { SameShadows (M.contents m.old).words (M.contents m.new).words }
    ensures names { SameNames (M.contents m.old).words (M.contents m.new).words }
    ensures stores { StoresWords (M.contents m.old) (M.contents m.new) }
    ensures ends { StepEnds (M.run m.old) (M.run m.new) (IsErr result) }
{
    let from = frame_page_of(m, k);
    let to = shadow_page_of(m, s);
    copy_closed_page(m, from, to)
}

/// Gives entry `k`, which is of metadata and has no shadow, the shadow `s`, from 1 to 16, which no valid entry has. What
/// counts for the entry while an update is open is then a copy of its frame: the frame can be edited. `Stopped` leaves
/// the entry without a shadow.
#[tactic(auto, using(crate::proofs::Steps::keeps_then, crate::proofs::Steps::stores_trans, rio_base::proofs::MachineRules::ends_then, rio_model::proofs::CoverStands::same_names_trans))]
pub fn shadow<M: Machine>(m: &mut M, k: u32, s: u32) -> Result<(), Stopped>
    requires coherent { Coherent (M.contents m.old) (length (M.run m.old).scratch) }
    requires closed { (M.contents m.old).open_page ≡ None }
    requires valid { IsValid (M.contents m.old).words k }
    requires metadata { is_data (tag_at (M.contents m.old).words k) ≡ false }
    requires bare { shadow_at (M.contents m.old).words k ≡ 0 }
    requires from { 1 ≤ s }
    requires to { s ≤ 16 }
    requires free { (j : ℕ) → IsValid (M.contents m.old).words j → shadow_at (M.contents m.old).words j ≢ s }
    ensures keeps { Keeps (M.contents m.old) (M.contents m.new) }
    ensures given { OnOk result (shadow_at (M.contents m.new).words k ≡ s) }
    ensures cut { OnErr result (shadow_at (M.contents m.new).words k ≡ shadow_at (M.contents m.old).words k) }
    ensures others { (j : ℕ) → j ≢ k → j < frames_of (M.contents m.old).words → shadow_at (M.contents m.new).words j ≡ shadow_at (M.contents m.old).words j }
    ensures names { SameNames (M.contents m.old).words (M.contents m.new).words }
    ensures rest { M.contents m.new ≡ record (M.contents m.old) { words = (M.contents m.new).words } }
    ensures closed { (M.contents m.new).open_page ≡ None }
    ensures lasts { Lasts (M.contents m.old) (M.contents m.new) }
    ensures ends { StepEnds (M.run m.old) (M.run m.new) (IsErr result) }
{
    // The shadow counts as soon as the entry has it, so it has to be a copy before.
    fill_shadow(m, k, s)?;
    set_shadow(m, k, s)?;
    Ok(())
}
