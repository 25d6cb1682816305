//! The gate, word 4 of the header.

ghost use Rattle.std.specs.Prelude.{◌≡◌, None, OnOk, OnErr, IsErr, length, slice_set};
ghost use Rattle.rio_base.specs.Machine.{StepEnds};
ghost use Rattle.rio_model.specs.Cover.{Coherent};
ghost use Rattle.shadow_pages.specs.Steps.{StoresWords};
ghost use Rattle.rio_model.specs.CoverChanges.{Gated};

use page_protect::put_word;
use rio_base::{Machine, Page, Stopped};

/// The header's page.
const HEADER: Page = Page(0);

/// The place of the gate in it.
const GATE: u16 = 4;

/// Stores the gate: one step. `Stopped` changes nothing.
#[tactic(auto, using(crate::proofs::Gates::gated_stored))]
pub(crate) fn store_gate<M: Machine>(m: &mut M, gate: u64) -> Result<(), Stopped>
    requires coherent { Coherent (M.contents m.old) (length (M.run m.old).scratch) }
    requires closed { (M.contents m.old).open_page ≡ None }
    ensures stored { OnOk result (M.contents m.new ≡ record (M.contents m.old) { words = slice_set (M.contents m.old).words 4 gate }) }
    ensures gated { OnOk result (Gated gate (M.contents m.old).words (M.contents m.new).words) }
    ensures same { OnErr result (M.contents m.new ≡ M.contents m.old) }
    ensures stores { StoresWords (M.contents m.old) (M.contents m.new) }
    ensures ends { StepEnds (M.run m.old) (M.run m.new) (IsErr result) }
{
    put_word(m, HEADER, GATE, gate)?;
    Ok(())
}
