//! The end of an update that counts.

ghost use Rattle.std.specs.Prelude.{◌≡◌, ◌≤◌, ℕ, true, None, OnOk, OnErr, IsErr, length, slice_index};
ghost use Rattle.rio_base.specs.Machine.{Lasts, StepEnds};
ghost use Rattle.rio_model.specs.Cover.{Coherent, SameNames, is_loose};
ghost use Rattle.rio_model.specs.Registry.{gate_of};
ghost use Rattle.shadow_pages.specs.Updates.{Committed};

use crate::gate::store_gate;
use rio_base::{Machine, Stopped};

/// Ends an update: all its edits count from now on. It is one step, and `Stopped` changes nothing: the update is open
/// still.
#[tactic(auto, using(crate::proofs::Gates::gate_firm, rio_model::proofs::Gates::gate_entries))]
pub fn commit<M: Machine>(m: &mut M) -> Result<(), Stopped>
    requires coherent { Coherent (M.contents m.old) (length (M.run m.old).scratch) }
    requires closed { (M.contents m.old).open_page ≡ None }
    requires updating { gate_of (M.contents m.old).words ≡ 1 }
    ensures committed { OnOk result (Committed (M.contents m.old) (M.contents m.new)) }
    ensures same { OnErr result (M.contents m.new ≡ M.contents m.old) }
    ensures entries { (i : ℕ) → 512 ≤ i → slice_index (M.contents m.new).words i ≡ slice_index (M.contents m.old).words i }
    ensures names { SameNames (M.contents m.old).words (M.contents m.new).words }
    ensures rest { M.contents m.new ≡ record (M.contents m.old) { words = (M.contents m.new).words } }
    ensures coherent { (n : ℕ) → Coherent (M.contents m.old) n → Coherent (M.contents m.new) n }
    ensures firm { (b : ℕ) → is_loose (M.contents m.new) b ≡ true → is_loose (M.contents m.old) b ≡ true }
    ensures closed { (M.contents m.new).open_page ≡ None }
    ensures lasts { Lasts (M.contents m.old) (M.contents m.new) }
    ensures ends { StepEnds (M.run m.old) (M.run m.new) (IsErr result) }
{
    store_gate(m, 0)?;
    Ok(())
}
