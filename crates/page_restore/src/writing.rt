//! Dirty pages are written as their blocks, one kind after the other, each with a sync.

ghost use Rattle.std.specs.Prelude.{◌≡◌, ◌≢◌, ◌<◌, ◌≤◌, ◌+◌, ◌*◌, ◌⊎◌, ℕ, true, false, None, IfOk, IsErrOf, OnOk, length};
ghost use Rattle.rio_base.specs.Disks.{block_at, is_pending};
ghost use Rattle.rio_base.specs.Machine.{FaultCause, Lasts, StepEnds};
ghost use Rattle.rio_model.specs.Registry.{HasLayout, IsValid, frames_of, is_dirty, tag_at, tag_block};
ghost use Rattle.rio_model.specs.Standing.{Endures, IsHome, Restorable, none_apart};
ghost use Rattle.page_restore.specs.Phases.{PhaseEnds, WritesDue, due_before, due_count, is_due};

use crate::kinds::PageKind;
use registry::{counted_page_of, frame_count, load_tag};
use rio_base::{Machine, VolFail};

/// Writes the dirty pages of one kind as their blocks, and syncs: whatever stands after a stop does not change by it. The
/// answer is how many they are. There is a mark for each entry, which says whether its page is stale.
#[tactic(auto, using(crate::proofs::Steps::phase_then))]
pub fn bring<M: Machine>(m: &mut M, kind: PageKind, marks: &[bool]) -> Result<u32, VolFail>
    requires image { Restorable (M.contents m.old) (length (M.run m.old).scratch) }
    requires closed { (M.contents m.old).open_page ≡ None }
    requires marks { length marks.now ≡ frames_of (M.contents m.old).words }
    ensures endures { Endures none_apart (M.contents m.old) (M.contents m.new) }
    ensures words { (M.contents m.new).words ≡ (M.contents m.old).words }
    ensures brought { OnOk result ((k : ℕ) → IsValid (M.contents m.old).words k → IsHome (M.contents m.old) k ⊎ (is_due kind marks.now (M.contents m.old).words k ≡ true) → IsHome (M.contents m.new) k) }
    ensures writes { WritesDue kind marks.now (M.contents m.old) (M.contents m.new) }
    ensures synced { OnOk result ((b : ℕ) → is_pending (M.contents m.new).pending b ≡ false) }
    ensures count { IfOk result (λ n. n ≡ due_count kind marks.now (M.contents m.old).words) }
    ensures running { OnOk result ((M.run m.new).stopped ≡ false) }
    ensures ends { PhaseEnds (M.contents m.old) (M.contents m.new) (M.run m.old) (M.run m.new) (IsErrOf result VolFail.Fault) (IsErrOf result VolFail.Stopped) }
{
    let count = write_due(m, kind, marks)?;
    m.sync()?;
    Ok(count)
}

/// How many dirty pages of one kind there are.
#[tactic(auto, using(crate::proofs::Due::due_none))]
pub fn count_due<M: Machine>(m: &M, kind: PageKind, marks: &[bool]) -> u32
    requires layout { HasLayout (M.contents m.now).words (M.run m.now).scratch }
    requires marks { length marks.now ≡ frames_of (M.contents m.now).words }
    ensures { result ≡ due_count kind marks.now (M.contents m.now).words }
{
    let frames = frame_count(m);
    let mut count = 0;
    for k in 0..frames {
        let due = is_due(m, k, kind, marks);
        count += u32::from(due);
    }
    count
}

/// Whether entry `k` is valid and dirty, and its page is of this kind.
fn is_due<M: Machine>(m: &M, k: u32, kind: PageKind, marks: &[bool]) -> bool
    requires layout { HasLayout (M.contents m.now).words (M.run m.now).scratch }
    requires entry { k < frames_of (M.contents m.now).words }
    requires marks { length marks.now ≡ frames_of (M.contents m.now).words }
    ensures { result ≡ is_due kind marks.now (M.contents m.now).words k }
{
    let tag = load_tag(m, k);
    if !tag.is_valid() {
        return false;
    }
    if !tag.is_dirty() {
        return false;
    }
    let stale = marks[k as usize];
    match kind {
        PageKind::Metadata => !tag.is_data(),
        PageKind::Wanted => tag.is_data() && !stale,
        PageKind::Stale => tag.is_data() && stale,
    }
}

/// Writes the dirty pages of one kind as their blocks. The answer is how many they are.
fn write_due<M: Machine>(m: &mut M, kind: PageKind, marks: &[bool]) -> Result<u32, VolFail>
    requires image { Restorable (M.contents m.old) (length (M.run m.old).scratch) }
    requires closed { (M.contents m.old).open_page ≡ None }
    requires marks { length marks.now ≡ frames_of (M.contents m.old).words }
    ensures endures { Endures none_apart (M.contents m.old) (M.contents m.new) }
    ensures words { (M.contents m.new).words ≡ (M.contents m.old).words }
    ensures brought { OnOk result ((k : ℕ) → IsValid (M.contents m.old).words k → IsHome (M.contents m.old) k ⊎ (is_due kind marks.now (M.contents m.old).words k ≡ true) → IsHome (M.contents m.new) k) }
    ensures writes { WritesDue kind marks.now (M.contents m.old) (M.contents m.new) }
    ensures count { IfOk result (λ n. n ≡ due_count kind marks.now (M.contents m.old).words) }
    ensures ends { PhaseEnds (M.contents m.old) (M.contents m.new) (M.run m.old) (M.run m.new) (IsErrOf result VolFail.Fault) (IsErrOf result VolFail.Stopped) }
{
    let frames = frame_count(m);
    let mut count = 0;
    for k in 0..frames {
        let due = write_if_due(m, k, kind, marks)?;
        count += u32::from(due);
    }
    Ok(count)
}

/// Writes the page of entry `k` as its block, if it is dirty and of this kind, and says whether it is.
#[tactic(auto, using(crate::proofs::Steps::layout_now, crate::proofs::Steps::phase_none, crate::proofs::WriteTurns::dirty_due, rio_model::proofs::RebootSteps::endures_refl))]
fn write_if_due<M: Machine>(
    m: &mut M,
    k: u32,
    kind: PageKind,
    marks: &[bool],
) -> Result<bool, VolFail>
    requires image { Restorable (M.contents m.old) (length (M.run m.old).scratch) }
    requires closed { (M.contents m.old).open_page ≡ None }
    requires entry { k < frames_of (M.contents m.old).words }
    requires marks { length marks.now ≡ frames_of (M.contents m.old).words }
    ensures endures { Endures none_apart (M.contents m.old) (M.contents m.new) }
    ensures words { (M.contents m.new).words ≡ (M.contents m.old).words }
    ensures answer { IfOk result (λ due. due ≡ is_due kind marks.now (M.contents m.old).words k) }
    ensures home { OnOk result (is_due kind marks.now (M.contents m.old).words k ≡ true → IsHome (M.contents m.new) k) }
    ensures same { is_due kind marks.now (M.contents m.old).words k ≡ false → M.contents m.new ≡ M.contents m.old }
    ensures others { (b : ℕ) → b ≢ tag_block (tag_at (M.contents m.old).words k) → block_at (M.contents m.new).disk b ≡ block_at (M.contents m.old).disk b }
    ensures ends { PhaseEnds (M.contents m.old) (M.contents m.new) (M.run m.old) (M.run m.new) (IsErrOf result VolFail.Fault) (IsErrOf result VolFail.Stopped) }
{
    if !is_due(m, k, kind, marks) {
        return Ok(false);
    }
    write_page(m, k)?;
    Ok(true)
}

/// Writes the page that counts for entry `k`, which is valid and dirty, as its block.
#[tactic(auto, using(crate::proofs::Steps::layout_now))]
fn write_page<M: Machine>(m: &mut M, k: u32) -> Result<(), VolFail>
    requires image { Restorable (M.contents m.old) (length (M.run m.old).scratch) }
    requires closed { (M.contents m.old).open_page ≡ None }
    requires valid { IsValid (M.contents m.old).words k }
    requires dirty { is_dirty (tag_at (M.contents m.old).words k) ≡ true }
    ensures endures { Endures none_apart (M.contents m.old) (M.contents m.new) }
    ensures words { (M.contents m.new).words ≡ (M.contents m.old).words }
    ensures home { OnOk result (IsHome (M.contents m.new) k) }
    ensures others { (b : ℕ) → b ≢ tag_block (tag_at (M.contents m.old).words k) → block_at (M.contents m.new).disk b ≡ block_at (M.contents m.old).disk b }
    ensures ends { PhaseEnds (M.contents m.old) (M.contents m.new) (M.run m.old) (M.run m.new) (IsErrOf result VolFail.Fault) (IsErrOf result VolFail.Stopped) }
{
    let block = load_tag(m, k).block();
    let page = counted_page_of(m, k);
    m.write_block(block, page)?;
    Ok(())
}
