//! No entry is valid and the gate is 0: the disk's blocks count.

ghost use Rattle.std.specs.Prelude.{◌≡◌, ◌<◌, ◌+◌, ◌*◌, ◌⊎◌, ℕ, true, false, None, IsErr, IsErrOf, OnOk, length, slice_index_or};
ghost use Rattle.rio_base.specs.Disks.{is_pending};
ghost use Rattle.rio_base.specs.Machine.{FaultCause, Lasts, StepEnds};
ghost use Rattle.rio_model.specs.Registry.{IsValid, OneEntry, frames_of, gate_of, tag_at, tag_block};
ghost use Rattle.rio_model.specs.Standing.{Endures, IsHome, Restorable, none_apart, stale_block};
ghost use Rattle.page_restore.specs.Phases.{PhaseEnds};

use page_protect::put_word;
use registry::{clear, frame_count, load_tag};
use rio_base::{Machine, Page, VolFail};

/// Makes all entries invalid. Nothing is pending, and the page of each valid one is on the disk or marked as stale.
pub fn clear_entries<M: Machine>(m: &mut M, marks: &[bool]) -> Result<(), VolFail>
    requires image { Restorable (M.contents m.old) (length (M.run m.old).scratch) }
    requires closed { (M.contents m.old).open_page ≡ None }
    requires synced { (b : ℕ) → is_pending (M.contents m.old).pending b ≡ false }
    requires home { (k : ℕ) → IsValid (M.contents m.old).words k → IsHome (M.contents m.old) k ⊎ (slice_index_or marks.now k false ≡ true) }
    ensures endures { Endures (stale_block marks.now (M.contents m.old).words) (M.contents m.old) (M.contents m.new) }
    ensures gone { OnOk result ((k : ℕ) → k < frames_of (M.contents m.new).words → tag_at (M.contents m.new).words k ≡ 0) }
    ensures rest { M.contents m.new ≡ record (M.contents m.old) { words = (M.contents m.new).words } }
    ensures ends { PhaseEnds (M.contents m.old) (M.contents m.new) (M.run m.old) (M.run m.new) (IsErrOf result VolFail.Fault) (IsErrOf result VolFail.Stopped) }
{
    let frames = frame_count(m);
    for k in 0..frames {
        clear_entry(m, k, marks)?;
    }
    Ok(())
}

/// Makes entry `k` invalid, if it is valid. Nothing is pending, and its page is on the disk or marked as stale.
#[tactic(auto, using(crate::proofs::Steps::layout_now, crate::proofs::Steps::phase_none, rio_model::proofs::RebootSteps::endures_refl))]
fn clear_entry<M: Machine>(m: &mut M, k: u32, marks: &[bool]) -> Result<(), VolFail>
    requires image { Restorable (M.contents m.old) (length (M.run m.old).scratch) }
    requires closed { (M.contents m.old).open_page ≡ None }
    requires entry { k < frames_of (M.contents m.old).words }
    requires synced { (b : ℕ) → is_pending (M.contents m.old).pending b ≡ false }
    requires home { IsValid (M.contents m.old).words k → IsHome (M.contents m.old) k ⊎ (slice_index_or marks.now k false ≡ true) }
    ensures endures { Endures (stale_block marks.now (M.contents m.old).words) (M.contents m.old) (M.contents m.new) }
    ensures gone { OnOk result (tag_at (M.contents m.new).words k ≡ 0) }
    ensures rest { M.contents m.new ≡ record (M.contents m.old) { words = (M.contents m.new).words } }
    ensures one_entry { OneEntry k (M.contents m.old).words (M.contents m.new).words }
    ensures ends { PhaseEnds (M.contents m.old) (M.contents m.new) (M.run m.old) (M.run m.new) (IsErrOf result VolFail.Fault) (IsErrOf result VolFail.Stopped) }
{
    if !load_tag(m, k).is_valid() {
        return Ok(());
    }
    clear(m, k)?;
    Ok(())
}

/// The header's page.
const HEADER: Page = Page(0);

/// The place of the gate in it.
const GATE: u16 = 4;

/// Stores 0 in the gate. No entry is valid, so that no shadow counts: while one did, its old page would count at once.
#[tactic(auto, using(rio_model::proofs::RebootSteps::endures_refl))]
pub fn shut_gate<M: Machine>(m: &mut M) -> Result<(), VolFail>
    requires image { Restorable (M.contents m.old) (length (M.run m.old).scratch) }
    requires closed { (M.contents m.old).open_page ≡ None }
    requires empty { (k : ℕ) → k < frames_of (M.contents m.old).words → tag_at (M.contents m.old).words k ≡ 0 }
    ensures endures { Endures none_apart (M.contents m.old) (M.contents m.new) }
    ensures empty { (k : ℕ) → k < frames_of (M.contents m.new).words → tag_at (M.contents m.new).words k ≡ 0 }
    ensures shut { OnOk result (gate_of (M.contents m.new).words ≡ 0) }
    ensures rest { M.contents m.new ≡ record (M.contents m.old) { words = (M.contents m.new).words } }
    ensures ends { PhaseEnds (M.contents m.old) (M.contents m.new) (M.run m.old) (M.run m.new) (IsErrOf result VolFail.Fault) (IsErrOf result VolFail.Stopped) }
{
    put_word(m, HEADER, GATE, 0)?;
    Ok(())
}
