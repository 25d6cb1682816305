//! A block comes from the disk into a frame.

ghost use Rattle.std.specs.Prelude.{◌≡◌, ◌<◌, ◌≤◌, ◌+◌, ◌*◌, ℕ, false, None, OnOk, OnErr, IsErr, IsErrOf, length, slice_index};
ghost use Rattle.rio_base.specs.Blocks.{InRange};
ghost use Rattle.rio_base.specs.Disks.{block_at};
ghost use Rattle.rio_base.specs.Machine.{FaultCause, Lasts, StepEnds};
ghost use Rattle.rio_model.specs.Registry.{OneEntry, frames_of, is_valid, tag_at};
ghost use Rattle.registry.specs.Entries.{IsFree, entry_of, new_entry};
ghost use Rattle.rio_model.specs.CoverChanges.{OnePage};
ghost use Rattle.rio_model.specs.Cover.{Coherent, Keeps, frame_page, home_word};
ghost use Rattle.rio_model.specs.CoverFills.{Made};
ghost use Rattle.write_back.specs.Flushing.{SameDisk};

use registry::install;
use rio_base::{Block, Machine, Page, PageName, Stopped, VolFail, WordAt};

/// Reads a block of the disk.
#[tactic(auto, using(rio_model::proofs::CoverSteps::keeps_marks, rio_base::proofs::MachineRules::steps_refl, crate::proofs::Stills::still_faults))]
pub(crate) fn read_home<M: Machine>(m: &mut M, b: Block, into: &mut Vec<u64>) -> Result<(), VolFail>
    requires closed { (M.contents m.old).open_page ≡ None }
    requires block { b.0 < length (M.contents m.old).disk }
    requires room { length into.old.items ≡ 512 }
    ensures words { OnOk result (into.new.items ≡ block_at (M.contents m.old).disk b.0) }
    ensures room { length into.new.items ≡ 512 }
    ensures keeps { Keeps (M.contents m.old) (M.contents m.new) }
    ensures memory { (M.contents m.new).words ≡ (M.contents m.old).words }
    ensures disk { (M.contents m.new).disk ≡ (M.contents m.old).disk }
    ensures still { SameDisk (M.contents m.old) (M.contents m.new) }
    ensures closed { (M.contents m.new).open_page ≡ None }
    ensures lasts { Lasts (M.contents m.old) (M.contents m.new) }
    ensures fault { FaultCause (M.contents m.old) (M.contents m.new) (IsErrOf result VolFail.Fault) }
    ensures ends { StepEnds (M.run m.old) (M.run m.new) (IsErrOf result VolFail.Stopped) }
{
    m.read_block(b, into)?;
    Ok(())
}

/// Stores the words of a page.
#[tactic(auto, using(crate::proofs::Fills::page_from_run))]
fn store_page<M: Machine>(m: &mut M, p: Page, from: &[u64]) -> Result<(), Stopped>
    requires closed { (M.contents m.old).open_page ≡ None }
    requires page { 512 * p.0 < length (M.contents m.old).words }
    requires whole { length from.now ≡ 512 }
    ensures filled { OnOk result ((w : ℕ) → w < 512 → slice_index (M.contents m.new).words (512 * p.0 + w) ≡ slice_index from.now w) }
    ensures one_page { OnePage p.0 (M.contents m.old).words (M.contents m.new).words }
    ensures rest { M.contents m.new ≡ record (M.contents m.old) { words = (M.contents m.new).words } }
    ensures lasts { Lasts (M.contents m.old) (M.contents m.new) }
    ensures ends { StepEnds (M.run m.old) (M.run m.new) (IsErr result) }
{
    m.open_page(p);
    let done = m.store_run(WordAt(512 * p.0), from);
    m.close_page();
    done
}

/// Fills the frame of entry `k`, which isn't valid.
#[tactic(auto, using(rio_model::proofs::CoverFills::keeps_fill, crate::proofs::Fills::tag_stays))]
pub(crate) fn fill<M: Machine>(m: &mut M, k: u32, p: Page, from: &[u64]) -> Result<(), Stopped>
    requires coherent { Coherent (M.contents m.old) (length (M.run m.old).scratch) }
    requires closed { (M.contents m.old).open_page ≡ None }
    requires entry { k < frames_of (M.contents m.old).words }
    requires invalid { is_valid (tag_at (M.contents m.old).words k) ≡ false }
    requires page { p.0 ≡ frame_page (M.contents m.old).words k }
    requires within { 512 * p.0 + 512 ≤ length (M.contents m.old).words }
    requires whole { length from.now ≡ 512 }
    ensures keeps { Keeps (M.contents m.old) (M.contents m.new) }
    ensures filled { OnOk result ((w : ℕ) → w < 512 → slice_index (M.contents m.new).words (512 * frame_page (M.contents m.old).words k + w) ≡ slice_index from.now w) }
    ensures one_page { OnePage (frame_page (M.contents m.old).words k) (M.contents m.old).words (M.contents m.new).words }
    ensures rest { M.contents m.new ≡ record (M.contents m.old) { words = (M.contents m.new).words } }
    ensures lasts { Lasts (M.contents m.old) (M.contents m.new) }
    ensures ends { StepEnds (M.run m.old) (M.run m.new) (IsErr result) }
{
    store_page(m, p, from)
}

/// Makes entry `k`, whose frame is the disk's block `b`, the entry of this block.
#[tactic(auto, using(crate::proofs::Fills::layout_now))]
pub(crate) fn install_clean<M: Machine>(
    m: &mut M,
    k: u32,
    b: Block,
    name: Option<PageName>,
) -> Result<(), Stopped>
    requires coherent { Coherent (M.contents m.old) (length (M.run m.old).scratch) }
    requires closed { (M.contents m.old).open_page ≡ None }
    requires entry { k < frames_of (M.contents m.old).words }
    requires invalid { is_valid (tag_at (M.contents m.old).words k) ≡ false }
    requires block { b.0 < length (M.contents m.old).disk }
    requires free { IsFree (M.contents m.old).words b.0 }
    requires name { InRange name }
    requires home { (w : ℕ) → w < 512 → slice_index (M.contents m.old).words (512 * frame_page (M.contents m.old).words k + w) ≡ home_word (M.contents m.old).disk b.0 w }
    ensures keeps { Keeps (M.contents m.old) (M.contents m.new) }
    ensures made { OnOk result (Made k b.0 false (M.contents m.old).words (M.contents m.new).words) }
    ensures entry { OnOk result (entry_of (M.contents m.new).words k ≡ new_entry b.0 name false) }
    ensures tag { OnErr result (tag_at (M.contents m.new).words k ≡ tag_at (M.contents m.old).words k) }
    ensures one_entry { OneEntry k (M.contents m.old).words (M.contents m.new).words }
    ensures still { SameDisk (M.contents m.old) (M.contents m.new) }
    ensures closed { (M.contents m.new).open_page ≡ None }
    ensures lasts { Lasts (M.contents m.old) (M.contents m.new) }
    ensures ends { StepEnds (M.run m.old) (M.run m.new) (IsErr result) }
{
    install(m, k, b, name, false)?;
    Ok(())
}
