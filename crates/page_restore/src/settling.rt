//! Clean pages that are not the disk's blocks are marked dirty, so that they are written as the others.

ghost use Rattle.std.specs.Prelude.{◌≡◌, ◌<◌, ◌+◌, ◌*◌, ◌↔◌, ℕ, true, None, IfOk, IsErrOf, IsTrue, OnOk, length};
ghost use Rattle.rio_base.specs.Machine.{FaultCause, Lasts, StepEnds};
ghost use Rattle.rio_model.specs.Registry.{IsValid, OneEntry, frames_of};
ghost use Rattle.rio_model.specs.Standing.{Brings, Endures, IsHome, IsSettled, Restorable, none_apart};
ghost use Rattle.page_restore.specs.Phases.{IsMarkedDirty, PhaseEnds};

use registry::{counted_page_of, frame_count, load_tag, set_dirty};
use rio_base::{Machine, VolFail};

/// Marks each valid clean entry dirty whose page that counts is not the disk's block. `block` is a room of 512 words.
/// No page of such an entry would be written otherwise, and yet it counts.
pub fn settle<M: Machine>(m: &mut M, block: &mut Vec<u64>) -> Result<(), VolFail>
    requires image { Restorable (M.contents m.old) (length (M.run m.old).scratch) }
    requires closed { (M.contents m.old).open_page ≡ None }
    requires room { length block.old.items ≡ 512 }
    ensures room { length block.new.items ≡ 512 }
    ensures brings { Brings (M.contents m.old) (M.contents m.new) }
    ensures settled { OnOk result ((k : ℕ) → IsSettled (M.contents m.new) k) }
    ensures marked { (k : ℕ) → IsMarkedDirty (M.contents m.old) (M.contents m.new) k }
    ensures frames { frames_of (M.contents m.new).words ≡ frames_of (M.contents m.old).words }
    ensures disk { (M.contents m.new).disk ≡ (M.contents m.old).disk }
    ensures ends { PhaseEnds (M.contents m.old) (M.contents m.new) (M.run m.old) (M.run m.new) (IsErrOf result VolFail.Fault) (IsErrOf result VolFail.Stopped) }
{
    let frames = frame_count(m);
    for k in 0..frames {
        settle_entry(m, k, block)?;
    }
    Ok(())
}

/// Marks entry `k` dirty, if it is valid and clean and its page that counts is not the disk's block.
#[tactic(auto, using(crate::proofs::Steps::layout_now, rio_model::proofs::RebootSteps::endures_refl, rio_model::proofs::RebootSteps::endures_read, crate::proofs::SettleTurns::marked_words))]
fn settle_entry<M: Machine>(m: &mut M, k: u32, block: &mut Vec<u64>) -> Result<(), VolFail>
    requires image { Restorable (M.contents m.old) (length (M.run m.old).scratch) }
    requires closed { (M.contents m.old).open_page ≡ None }
    requires entry { k < frames_of (M.contents m.old).words }
    requires room { length block.old.items ≡ 512 }
    ensures room { length block.new.items ≡ 512 }
    ensures endures { Endures none_apart (M.contents m.old) (M.contents m.new) }
    ensures settled { OnOk result (IsSettled (M.contents m.new) k) }
    ensures marked { IsMarkedDirty (M.contents m.old) (M.contents m.new) k }
    ensures one_entry { OneEntry k (M.contents m.old).words (M.contents m.new).words }
    ensures disk { (M.contents m.new).disk ≡ (M.contents m.old).disk }
    ensures ends { PhaseEnds (M.contents m.old) (M.contents m.new) (M.run m.old) (M.run m.new) (IsErrOf result VolFail.Fault) (IsErrOf result VolFail.Stopped) }
{
    let tag = load_tag(m, k);
    if !tag.is_valid() {
        return Ok(());
    }
    if tag.is_dirty() {
        return Ok(());
    }
    let home = is_home(m, k, block)?;
    if home {
        return Ok(());
    }
    set_dirty(m, k)?;
    Ok(())
}

/// Reads the block of entry `k`, which is valid, and says whether the page that counts for it is this block.
#[tactic(auto, using(crate::proofs::Steps::layout_now))]
fn is_home<M: Machine>(m: &mut M, k: u32, block: &mut Vec<u64>) -> Result<bool, VolFail>
    requires image { Restorable (M.contents m.old) (length (M.run m.old).scratch) }
    requires closed { (M.contents m.old).open_page ≡ None }
    requires valid { IsValid (M.contents m.old).words k }
    requires room { length block.old.items ≡ 512 }
    ensures room { length block.new.items ≡ 512 }
    ensures answer { IfOk result (λ home. IsTrue home ↔ IsHome (M.contents m.old) k) }
    ensures same { M.contents m.new ≡ record (M.contents m.old) { faults = (M.contents m.new).faults } }
    ensures ends { PhaseEnds (M.contents m.old) (M.contents m.new) (M.run m.old) (M.run m.new) (IsErrOf result VolFail.Fault) (IsErrOf result VolFail.Stopped) }
{
    let number = load_tag(m, k).block();
    let page = counted_page_of(m, k);
    m.read_block(number, block)?;
    let home = are_same(block.as_slice(), m.frame(page));
    Ok(home)
}

/// Whether both have the same words.
fn are_same(a: &[u64], b: &[u64]) -> bool
    ensures { IsTrue result ↔ (a.now ≡ b.now) }
{
    a == b
}
