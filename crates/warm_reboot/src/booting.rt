//! A reboot: what memory holds goes to the disk, a cache starts on it, and what no commit sealed is undone.

ghost use Rattle.std.specs.Prelude.{◌≡◌, ◌<◌, ◌≤◌, ℕ, None, IfErr, IfOk, MatchResult, false, length, true};
ghost use Rattle.rio_base.specs.Blocks.{Ends};
ghost use Rattle.rio_base.specs.Disks.{is_pending};
ghost use Rattle.rio_base.specs.Image.{HasHeader};
ghost use Rattle.rio_base.specs.Volume.{Goes, Runs};
ghost use Rattle.rio_model.specs.declared.state.State.{State};
ghost use Rattle.rio_model.specs.Cover.{stands};
ghost use Rattle.rio_model.specs.Placed.{volume_layout};
ghost use Rattle.rio_model.specs.Registry.{HasLayout, frames_of, gate_of};
ghost use Rattle.rio_model.specs.Standing.{Restorable, Restored, StandsFor};
ghost use Rattle.rio_model.specs.VolumeReads.{ReadsAs};
ghost use Rattle.rio_model.specs.VolumeReady.{Ready};
ghost use Rattle.cached_pages.specs.Caches.{CacheSound, IsFresh, cache_below, cache_health, cache_kept, cache_seen, is_roomy};
ghost use Rattle.page_restore.specs.Stale.{MarksStale};
ghost use Rattle.region_recovery.specs.RegionLists.{ino_numbers, region_inos};
ghost use Rattle.warm_reboot.specs.Boots.{IsCutOff, StandsNow};
ghost use Rattle.warm_reboot.specs.Examining.{IsExamined, TellsNoRule, handed};
ghost use Rattle.warm_reboot.specs.Reboots.{Booted, FailsLooked, Recovers, Unbooted};

use crate::examining::{Examined, look};
use crate::report::{BootError, BootFail, BootReport};
use crate::starting::start;
use page_cache::{CacheTables, PageCache};
use region_recovery::recover_regions;
use region_view::RegionView;
use registry::frame_count;
use rio_base::{BLOCK_WORDS, Ino, Machine, VolFail, Volume, VolumeShape};
use std::alloc::{AllocError, Global};

/// Finds the files and regions that memory and disk stand for after a stop at any step, brings them to the disk, undoes what no
/// commit of a region sealed, and starts a cache on them. After a rule that fails and after `Memory` nothing was stored; after
/// `Fault` and `Stopped` what stood stands still, and where memory and disk stand for no state nothing was stored. The machine is
/// handed back then with no page open, and the reboot may be made again.
pub fn boot<M: Machine>(
    alloc: Global,
    machine: M,
) -> Result<(PageCache<M>, BootReport), BootError<M>>
    requires header { HasHeader (M.contents machine).words }
    requires layout { HasLayout (M.contents machine).words (M.run machine).scratch }
    requires closed { (M.contents machine).open_page ≡ None }
    ensures state { IfOk result (λ b. (s : State) × StandsNow (M.contents machine) s) }
    ensures booted { IfOk result (λ b. (s : State) → StandsNow (M.contents machine) s → Booted (M.contents machine) s b.1 (cache_seen (M.contents b.0.machine)) (cache_kept (M.contents b.0.machine) b.0.tables)) }
    ensures restored { IfOk result (λ b. is_roomy (M.contents machine) ≡ true → Restored (volume_layout b.1.shape (stands (M.contents machine))) (M.contents machine).words (M.contents machine).disk (M.contents b.0.machine).disk) }
    ensures synced { IfOk result (λ b. is_roomy (M.contents machine) ≡ true → (x : ℕ) → is_pending (M.contents b.0.machine).pending x ≡ false) }
    ensures shut { IfOk result (λ b. gate_of (M.contents b.0.machine).words ≡ 0) }
    ensures running { IfOk result (λ b. (M.run b.0.machine).stopped ≡ false) }
    ensures sound { IfOk result (λ b. CacheSound (M.contents b.0.machine) (length (M.run b.0.machine).scratch) b.0.tables) }
    ensures standing { (s : State) → StandsFor (M.contents machine) (length (M.run machine).scratch) s → IfErr result (λ e. TellsNoRule e.fail) }
    ensures unbooted { IfErr result (λ e. Unbooted (M.contents machine) (M.run machine) (M.contents e.machine) (M.run e.machine) e.fail) }
    ensures looked { IfErr result (λ e. FailsLooked (M.contents machine) (M.run machine) (M.contents e.machine) (M.run e.machine)) }
    ensures closed { IfErr result (λ e. (M.contents e.machine).open_page ≡ None) }
    ensures runs { MatchResult result (λ b. Runs (cache_health (M.contents machine) (M.run machine)) (cache_below (M.contents machine) (M.run machine)) (cache_health (M.contents b.0.machine) (M.run b.0.machine)) (cache_below (M.contents b.0.machine) (M.run b.0.machine))) (λ e. Runs (cache_health (M.contents machine) (M.run machine)) (cache_below (M.contents machine) (M.run machine)) (cache_health (M.contents e.machine) (M.run e.machine)) (cache_below (M.contents e.machine) (M.run e.machine))) }
{
    match look(alloc, machine) {
        Ok((machine, examined)) => boot_looked(alloc, machine, &examined),
        Err(error) => Err(error),
    }
}

/// The memory that a reboot takes beside what the look at the volume took, all before anything is stored.
#[derive(Drop)]
struct Room {
    /// The tables of the cache.
    tables: CacheTables,
    /// Room for a block.
    block: Vec<u64>,
}

/// Memory for a reboot of this machine.
fn take_room<M: Machine>(alloc: Global, m: &M) -> Result<Room, AllocError>
    requires layout { HasLayout (M.contents m.now).words (M.run m.now).scratch }
    ensures tables { IfOk result (λ room. IsFresh (frames_of (M.contents m.now).words) (length (M.contents m.now).disk) room.tables) }
    ensures block { IfOk result (λ room. length room.block.items ≡ 512) }
{
    let tables = CacheTables::new(alloc, frame_count(m), m.disk_blocks())?;
    let block = vec![in alloc; 0; BLOCK_WORDS]?;
    Ok(Room { tables, block })
}

/// Makes the reboot of a machine that was looked at: takes all memory first.
fn boot_looked<M: Machine>(
    alloc: Global,
    machine: M,
    examined: &Examined,
) -> Result<(PageCache<M>, BootReport), BootError<M>>
    requires image { Restorable (M.contents machine) (length (M.run machine).scratch) }
    requires closed { (M.contents machine).open_page ≡ None }
    requires examined { IsExamined (M.contents machine) examined.now.census }
    requires marks { MarksStale (volume_layout examined.now.census.shape (stands (M.contents machine))) (M.contents machine).words examined.now.marks.items }
    requires regions { ino_numbers examined.now.regions.items ≡ region_inos examined.now.census.shape (stands (M.contents machine)) }
    ensures booted { IfOk result (λ b. (s : State) → StandsNow (M.contents machine) s → Booted (M.contents machine) s b.1 (cache_seen (M.contents b.0.machine)) (cache_kept (M.contents b.0.machine) b.0.tables)) }
    ensures restored { IfOk result (λ b. is_roomy (M.contents machine) ≡ true → Restored (volume_layout b.1.shape (stands (M.contents machine))) (M.contents machine).words (M.contents machine).disk (M.contents b.0.machine).disk) }
    ensures synced { IfOk result (λ b. is_roomy (M.contents machine) ≡ true → (x : ℕ) → is_pending (M.contents b.0.machine).pending x ≡ false) }
    ensures shut { IfOk result (λ b. gate_of (M.contents b.0.machine).words ≡ 0) }
    ensures running { IfOk result (λ b. (M.run b.0.machine).stopped ≡ false) }
    ensures sound { IfOk result (λ b. CacheSound (M.contents b.0.machine) (length (M.run b.0.machine).scratch) b.0.tables) }
    ensures no_rule { IfErr result (λ e. TellsNoRule e.fail) }
    ensures unbooted { IfErr result (λ e. Unbooted (M.contents machine) (M.run machine) (M.contents e.machine) (M.run e.machine) e.fail) }
    ensures closed { IfErr result (λ e. (M.contents e.machine).open_page ≡ None) }
    ensures runs { MatchResult result (λ b. Runs (cache_health (M.contents machine) (M.run machine)) (cache_below (M.contents machine) (M.run machine)) (cache_health (M.contents b.0.machine) (M.run b.0.machine)) (cache_below (M.contents b.0.machine) (M.run b.0.machine))) (λ e. Runs (cache_health (M.contents machine) (M.run machine)) (cache_below (M.contents machine) (M.run machine)) (cache_health (M.contents e.machine) (M.run e.machine)) (cache_below (M.contents e.machine) (M.run e.machine))) }
{
    match take_room(alloc, &machine) {
        Ok(room) => boot_examined(machine, room, examined),
        Err(_) => Err(BootError {
            machine,
            fail: BootFail::Memory,
        }),
    }
}

/// The reboot itself, in room that was taken.
fn boot_examined<M: Machine>(
    machine: M,
    room: Room,
    examined: &Examined,
) -> Result<(PageCache<M>, BootReport), BootError<M>>
    requires image { Restorable (M.contents machine) (length (M.run machine).scratch) }
    requires closed { (M.contents machine).open_page ≡ None }
    requires tables { IsFresh (frames_of (M.contents machine).words) (length (M.contents machine).disk) room.tables }
    requires block { length room.block.items ≡ 512 }
    requires examined { IsExamined (M.contents machine) examined.now.census }
    requires marks { MarksStale (volume_layout examined.now.census.shape (stands (M.contents machine))) (M.contents machine).words examined.now.marks.items }
    requires regions { ino_numbers examined.now.regions.items ≡ region_inos examined.now.census.shape (stands (M.contents machine)) }
    ensures booted { IfOk result (λ b. (s : State) → StandsNow (M.contents machine) s → Booted (M.contents machine) s b.1 (cache_seen (M.contents b.0.machine)) (cache_kept (M.contents b.0.machine) b.0.tables)) }
    ensures restored { IfOk result (λ b. is_roomy (M.contents machine) ≡ true → Restored (volume_layout b.1.shape (stands (M.contents machine))) (M.contents machine).words (M.contents machine).disk (M.contents b.0.machine).disk) }
    ensures synced { IfOk result (λ b. is_roomy (M.contents machine) ≡ true → (x : ℕ) → is_pending (M.contents b.0.machine).pending x ≡ false) }
    ensures shut { IfOk result (λ b. gate_of (M.contents b.0.machine).words ≡ 0) }
    ensures running { IfOk result (λ b. (M.run b.0.machine).stopped ≡ false) }
    ensures sound { IfOk result (λ b. CacheSound (M.contents b.0.machine) (length (M.run b.0.machine).scratch) b.0.tables) }
    ensures cut { IfErr result (λ e. (fail : VolFail) × (e.fail ≡ handed fail) × IsCutOff (M.contents machine) (M.run machine) (M.contents e.machine) (M.run e.machine) fail) }
    ensures closed { IfErr result (λ e. (M.contents e.machine).open_page ≡ None) }
    ensures runs { MatchResult result (λ b. Runs (cache_health (M.contents machine) (M.run machine)) (cache_below (M.contents machine) (M.run machine)) (cache_health (M.contents b.0.machine) (M.run b.0.machine)) (cache_below (M.contents b.0.machine) (M.run b.0.machine))) (λ e. Runs (cache_health (M.contents machine) (M.run machine)) (cache_below (M.contents machine) (M.run machine)) (cache_health (M.contents e.machine) (M.run e.machine)) (cache_below (M.contents e.machine) (M.run e.machine))) }
{
    // Nothing was stored so far: the look at memory and disk, and all memory that a reboot takes, came first. So a refusal or want of
    // memory leaves both as they were. Pages go to the disk next; a crash there leaves what stood, and the next boot looks again.
    // Undo records come last, through the cache: they are words of the volume, and putting old words back is a change as any other.
    // A record is dropped behind its words: a crash among these leaves it in the list, and the next boot puts it back anew.
    let Room { tables, block } = room;
    let mut block = block;
    let shape = examined.census.shape;
    match start(machine, tables, &examined.marks, &mut block) {
        Ok((cache, counts)) => match recover_cache(cache, shape, &examined.regions) {
            Ok((cache, undone)) => Ok((
                cache,
                BootReport {
                    meta: counts.meta,
                    pages: counts.pages,
                    stale: counts.stale,
                    undone,
                    shape,
                },
            )),
            Err((machine, fail)) => Err(BootError {
                machine,
                fail: BootFail::from(fail),
            }),
        },
        Err((machine, fail)) => Err(BootError {
            machine,
            fail: BootFail::from(fail),
        }),
    }
}

/// Puts the undo records of each region back, over a cache. The answer is the cache, and how many regions had one. A failure
/// hands the machine back: what stood stands still.
fn recover_cache<M: Machine>(
    cache: PageCache<M>,
    shape: VolumeShape,
    regions: &[Ino],
) -> Result<(PageCache<M>, u32), (M, VolFail)>
    requires sound { CacheSound (M.contents cache.machine) (length (M.run cache.machine).scratch) cache.tables }
    requires ready { Ready shape (cache_seen (M.contents cache.machine)) (cache_kept (M.contents cache.machine) cache.tables) }
    requires reads { (s : State) × ReadsAs shape (cache_seen (M.contents cache.machine)).words s }
    requires regions { ino_numbers regions.now ≡ region_inos shape (cache_seen (M.contents cache.machine)).words }
    ensures recovers { IfOk result (λ b. Recovers shape (cache_seen (M.contents cache.machine)) (cache_seen (M.contents b.0.machine)) (cache_kept (M.contents b.0.machine) b.0.tables) b.1) }
    ensures disk { IfOk result (λ b. is_roomy (M.contents cache.machine) ≡ true → (M.contents b.0.machine).disk ≡ (M.contents cache.machine).disk) }
    ensures pending { IfOk result (λ b. is_roomy (M.contents cache.machine) ≡ true → (x : ℕ) → is_pending (M.contents b.0.machine).pending x ≡ is_pending (M.contents cache.machine).pending x) }
    ensures running { IfOk result (λ b. (M.run b.0.machine).stopped ≡ (M.run cache.machine).stopped) }
    ensures shut { IfOk result (λ b. gate_of (M.contents b.0.machine).words ≡ 0) }
    ensures sound { IfOk result (λ b. CacheSound (M.contents b.0.machine) (length (M.run b.0.machine).scratch) b.0.tables) }
    ensures cut { IfErr result (λ e. IsCutOff (M.contents cache.machine) (M.run cache.machine) (M.contents e.0) (M.run e.0) e.1) }
    ensures closed { IfErr result (λ e. (M.contents e.0).open_page ≡ None) }
    ensures runs { MatchResult result (λ b. Runs (cache_health (M.contents cache.machine) (M.run cache.machine)) (cache_below (M.contents cache.machine) (M.run cache.machine)) (cache_health (M.contents b.0.machine) (M.run b.0.machine)) (cache_below (M.contents b.0.machine) (M.run b.0.machine))) (λ e. Runs (cache_health (M.contents cache.machine) (M.run cache.machine)) (cache_below (M.contents cache.machine) (M.run cache.machine)) (cache_health (M.contents e.0) (M.run e.0)) (cache_below (M.contents e.0) (M.run e.0))) }
{
    let (cache, undone) = recover_volume(cache, shape, regions);
    match undone {
        Ok(undone) => Ok((cache, undone)),
        Err(fail) => Err((cache.into_machine(), fail)),
    }
}

/// Puts the undo records of each region back, over any volume, which is handed back at each exit.
fn recover_volume<V: Volume>(
    volume: V,
    shape: VolumeShape,
    regions: &[Ino],
) -> (V, Result<u32, VolFail>)
    requires sound { V.sound volume }
    requires ready { Ready shape (V.seen volume) (V.kept volume) }
    requires reads { (s : State) × ReadsAs shape (V.seen volume).words s }
    requires regions { ino_numbers regions.now ≡ region_inos shape (V.seen volume).words }
    ensures recovers { IfOk result.1 (Recovers shape (V.seen volume) (V.seen result.0) (V.kept result.0)) }
    ensures reads { (s : State) → ReadsAs shape (V.seen volume).words s → ReadsAs shape (V.seen result.0).words s }
    ensures ready { Ready shape (V.seen result.0) (V.kept result.0) }
    ensures goes { Goes (V.health volume) (V.below volume) (V.health result.0) (V.below result.0) }
    ensures ends { Ends (V.health volume) (V.health result.0) result.1 }
    ensures sound { V.sound result.0 }
{
    let mut view = RegionView::over(volume, shape);
    let undone = recover_regions(&mut view, regions);
    (view.into_volume(), undone)
}
