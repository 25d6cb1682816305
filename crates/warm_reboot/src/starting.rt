//! A cache on what a stop left.

ghost use Rattle.std.specs.Prelude.{◌≡◌, ◌<◌, ◌+◌, ◌*◌, ◌⊎◌, ℕ, true, false, None, IfErr, IfOk, IsErrOf, MatchResult, length, slice_index_or};
ghost use Rattle.rio_base.specs.Disks.{is_pending};
ghost use Rattle.rio_base.specs.Volume.{Runs};
ghost use Rattle.rio_model.specs.declared.state.State.{State};
ghost use Rattle.rio_model.specs.Cover.{stands};
ghost use Rattle.rio_model.specs.Placed.{Layout, volume_layout};
ghost use Rattle.rio_model.specs.Registry.{frames_of, gate_of, is_data, tag_at};
ghost use Rattle.rio_model.specs.Standing.{EntriesFit, Restorable, Restored};
ghost use Rattle.cached_pages.specs.Caches.{CacheSound, IsFresh, cache_below, cache_health, cache_kept, cache_seen};
ghost use Rattle.page_restore.specs.Phases.{PhaseEnds};
ghost use Rattle.page_restore.specs.Reports.{CountsPages};
ghost use Rattle.page_restore.specs.Stale.{MarksStale};
ghost use Rattle.warm_reboot.specs.Boots.{AreMarked, StandsNow, Starts, Survives};

use page_cache::{CacheTables, PageCache};
use page_restore::{PageCounts, restore};
use rio_base::{Machine, VolFail};

/// Restores memory and disk, and starts a cache on them whose blocks read as the state that they stood for. `tables` are made
/// for this machine, `marks` has a mark for each entry, and `block` is a room of 512 words. A failure hands the machine back:
/// it stands for that state still.
pub fn start<M: Machine>(
    machine: M,
    tables: CacheTables,
    marks: &[bool],
    block: &mut Vec<u64>,
) -> Result<(PageCache<M>, PageCounts), (M, VolFail)>
    requires image { Restorable (M.contents machine) (length (M.run machine).scratch) }
    requires closed { (M.contents machine).open_page ≡ None }
    requires room { length block.old.items ≡ 512 }
    requires tables { IsFresh (frames_of (M.contents machine).words) (length (M.contents machine).disk) tables }
    requires marks { length marks.now ≡ frames_of (M.contents machine).words }
    requires of_data { (k : ℕ) → slice_index_or marks.now k false ≡ true → is_data (tag_at (M.contents machine).words k) ≡ true }
    ensures starts { IfOk result (λ b. (s : State) → MarksStale (volume_layout s.shape (stands (M.contents machine))) (M.contents machine).words marks.now → StandsNow (M.contents machine) s → Starts (M.contents machine) s (cache_seen (M.contents b.0.machine)) (cache_kept (M.contents b.0.machine) b.0.tables)) }
    ensures restored { IfOk result (λ b. (l : Layout) → EntriesFit l (M.contents machine).words → MarksStale l (M.contents machine).words marks.now → Restored l (M.contents machine).words (M.contents machine).disk (M.contents b.0.machine).disk) }
    ensures shut { IfOk result (λ b. gate_of (M.contents b.0.machine).words ≡ 0) }
    ensures synced { IfOk result (λ b. (x : ℕ) → is_pending (M.contents b.0.machine).pending x ≡ false) }
    ensures counts { IfOk result (λ b. (l : Layout) → MarksStale l (M.contents machine).words marks.now → CountsPages l (M.contents machine) b.1) }
    ensures running { IfOk result (λ b. (M.run b.0.machine).stopped ≡ false) }
    ensures sound { IfOk result (λ b. CacheSound (M.contents b.0.machine) (length (M.run b.0.machine).scratch) b.0.tables) }
    ensures runs { MatchResult result (λ b. Runs (cache_health (M.contents machine) (M.run machine)) (cache_below (M.contents machine) (M.run machine)) (cache_health (M.contents b.0.machine) (M.run b.0.machine)) (cache_below (M.contents b.0.machine) (M.run b.0.machine))) (λ e. Runs (cache_health (M.contents machine) (M.run machine)) (cache_below (M.contents machine) (M.run machine)) (cache_health (M.contents e.0) (M.run e.0)) (cache_below (M.contents e.0) (M.run e.0))) }
    ensures survives { MatchResult result (λ b. AreMarked (M.contents machine) (length (M.run machine).scratch) marks.now → Survives (M.contents machine) (M.contents b.0.machine) (length (M.run machine).scratch) (length (M.run b.0.machine).scratch)) (λ e. AreMarked (M.contents machine) (length (M.run machine).scratch) marks.now → Survives (M.contents machine) (M.contents e.0) (length (M.run machine).scratch) (length (M.run e.0).scratch)) }
    ensures ends { IfErr result (λ e. PhaseEnds (M.contents machine) (M.contents e.0) (M.run machine) (M.run e.0) (e.1 ≡ VolFail.Fault) (e.1 ≡ VolFail.Stopped)) }
{
    let mut machine = machine;
    match restore(&mut machine, marks, block) {
        Ok(counts) => Ok((PageCache::start(machine, tables), counts)),
        Err(fail) => Err((machine, fail)),
    }
}
