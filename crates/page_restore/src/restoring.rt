//! What stands goes to the disk, and the registry is emptied.

ghost use Rattle.std.specs.Prelude.{◌≡◌, ◌<◌, ◌+◌, ◌*◌, ◌⊎◌, ℕ, true, false, None, IfOk, IsErrOf, OnOk, length, slice_index_or};
ghost use Rattle.rio_base.specs.Disks.{block_at, is_pending};
ghost use Rattle.rio_model.specs.Placed.{Layout};
ghost use Rattle.rio_model.specs.Registry.{IsValid, frames_of, gate_of, is_data, tag_at};
ghost use Rattle.rio_model.specs.Standing.{Brings, Endures, IsHome, Restorable, none_apart, stale_block};
ghost use Rattle.page_restore.specs.Phases.{PhaseEnds};
ghost use Rattle.page_restore.specs.Reports.{CountsPages};
ghost use Rattle.page_restore.specs.Stale.{MarksStale};

use crate::clearing::{clear_entries, shut_gate};
use crate::kinds::{PageCounts, PageKind};
use crate::settling::settle;
use crate::writing::{bring, count_due};
use rio_base::{Machine, VolFail};

/// Brings each page that counts to the disk, but for those that are marked as stale, and makes all entries invalid. `marks`
/// has a mark for each entry, and `block` is a room of 512 words. At each exit what stood before stands, but for stale blocks,
/// so that this may be made again.
pub fn restore<M: Machine>(
    m: &mut M,
    marks: &[bool],
    block: &mut Vec<u64>,
) -> Result<PageCounts, VolFail>
    requires image { Restorable (M.contents m.old) (length (M.run m.old).scratch) }
    requires closed { (M.contents m.old).open_page ≡ None }
    requires room { length block.old.items ≡ 512 }
    requires marks { length marks.now ≡ frames_of (M.contents m.old).words }
    requires of_data { (k : ℕ) → slice_index_or marks.now k false ≡ true → is_data (tag_at (M.contents m.old).words k) ≡ true }
    ensures endures { Endures (stale_block marks.now (M.contents m.old).words) (M.contents m.old) (M.contents m.new) }
    ensures exit { Endures none_apart (M.contents m.old) (M.contents m.new) ⊎ ((b : ℕ) → is_pending (M.contents m.new).pending b ≡ false) }
    ensures empty { OnOk result ((k : ℕ) → k < frames_of (M.contents m.new).words → tag_at (M.contents m.new).words k ≡ 0) }
    ensures shut { OnOk result (gate_of (M.contents m.new).words ≡ 0) }
    ensures synced { OnOk result ((b : ℕ) → is_pending (M.contents m.new).pending b ≡ false) }
    ensures dropped { (b : ℕ) → stale_block marks.now (M.contents m.old).words b ≡ true → block_at (M.contents m.new).disk b ≡ block_at (M.contents m.old).disk b }
    ensures counts { IfOk result (λ counts. (l : Layout) → MarksStale l (M.contents m.old).words marks.now → CountsPages l (M.contents m.old) counts) }
    ensures running { OnOk result ((M.run m.new).stopped ≡ false) }
    ensures ends { PhaseEnds (M.contents m.old) (M.contents m.new) (M.run m.old) (M.run m.new) (IsErrOf result VolFail.Fault) (IsErrOf result VolFail.Stopped) }
{
    // All pages are on the disk, and synced, before the first entry goes. A crash while they are written leaves all entries, so that
    // each page still counts, whatever its block holds. A crash while entries go leaves some blocks to count by their page and
    // others by the disk, which is the same but for stale pages. The gate is shut last: at gate 0 an entry with a shadow would count
    // by its frame, and so by edits of an update that was not committed. So a restore may be made again after a crash at any step.
    let counts = bring_home(m, marks, block)?;
    empty_registry(m, marks)?;
    Ok(counts)
}

/// Brings each page that counts to the disk, but for those that are marked as stale: metadata first, then pages of files.
fn bring_home<M: Machine>(
    m: &mut M,
    marks: &[bool],
    block: &mut Vec<u64>,
) -> Result<PageCounts, VolFail>
    requires image { Restorable (M.contents m.old) (length (M.run m.old).scratch) }
    requires closed { (M.contents m.old).open_page ≡ None }
    requires room { length block.old.items ≡ 512 }
    requires marks { length marks.now ≡ frames_of (M.contents m.old).words }
    requires of_data { (k : ℕ) → slice_index_or marks.now k false ≡ true → is_data (tag_at (M.contents m.old).words k) ≡ true }
    ensures brings { Brings (M.contents m.old) (M.contents m.new) }
    ensures home { OnOk result ((k : ℕ) → IsValid (M.contents m.new).words k → IsHome (M.contents m.new) k ⊎ (slice_index_or marks.now k false ≡ true)) }
    ensures synced { OnOk result ((b : ℕ) → is_pending (M.contents m.new).pending b ≡ false) }
    ensures dropped { (b : ℕ) → stale_block marks.now (M.contents m.old).words b ≡ true → block_at (M.contents m.new).disk b ≡ block_at (M.contents m.old).disk b }
    ensures counts { IfOk result (λ counts. (l : Layout) → MarksStale l (M.contents m.old).words marks.now → CountsPages l (M.contents m.old) counts) }
    ensures running { OnOk result ((M.run m.new).stopped ≡ false) }
    ensures ends { PhaseEnds (M.contents m.old) (M.contents m.new) (M.run m.old) (M.run m.new) (IsErrOf result VolFail.Fault) (IsErrOf result VolFail.Stopped) }
{
    settle(m, block)?;
    let meta = bring(m, PageKind::Metadata, marks)?;
    let pages = bring(m, PageKind::Wanted, marks)?;
    let stale = count_due(m, PageKind::Stale, marks);
    Ok(PageCounts { meta, pages, stale })
}

/// Makes all entries invalid, and then stores 0 in the gate.
fn empty_registry<M: Machine>(m: &mut M, marks: &[bool]) -> Result<(), VolFail>
    requires image { Restorable (M.contents m.old) (length (M.run m.old).scratch) }
    requires closed { (M.contents m.old).open_page ≡ None }
    requires synced { (b : ℕ) → is_pending (M.contents m.old).pending b ≡ false }
    requires home { (k : ℕ) → IsValid (M.contents m.old).words k → IsHome (M.contents m.old) k ⊎ (slice_index_or marks.now k false ≡ true) }
    ensures endures { Endures (stale_block marks.now (M.contents m.old).words) (M.contents m.old) (M.contents m.new) }
    ensures empty { OnOk result ((k : ℕ) → k < frames_of (M.contents m.new).words → tag_at (M.contents m.new).words k ≡ 0) }
    ensures shut { OnOk result (gate_of (M.contents m.new).words ≡ 0) }
    ensures rest { M.contents m.new ≡ record (M.contents m.old) { words = (M.contents m.new).words } }
    ensures ends { PhaseEnds (M.contents m.old) (M.contents m.new) (M.run m.old) (M.run m.new) (IsErrOf result VolFail.Fault) (IsErrOf result VolFail.Stopped) }
{
    clear_entries(m, marks)?;
    shut_gate(m)?;
    Ok(())
}
