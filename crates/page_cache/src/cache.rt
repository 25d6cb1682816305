//! The cache and its machine.

ghost use Rattle.std.specs.Prelude.{◌≡◌, ◌<◌, ◌+◌, ℕ, false, None, length};
ghost use Rattle.rio_base.specs.Machine.{Meets, after_wild};
ghost use Rattle.rio_model.specs.Registry.{frames_of, gate_of, tag_at};
ghost use Rattle.rio_model.specs.Cover.{Coherent};
ghost use Rattle.page_cache.specs.Wilds.{Arms, Strikes};
ghost use Rattle.cached_pages.specs.Caches.{CacheSound, IsFresh, Started, Tells, cache_below, cache_health, cache_kept, cache_seen};

use cached_pages::CacheTables;
use rio_base::{Machine, Wild, WordAt};

/// The cache of a machine. Its blocks lie in the frames of protected memory, with an entry of the registry for each that
/// is cached; the others are on the disk alone.
pub struct PageCache<M> {
    pub(crate) machine: M,
    pub(crate) tables: CacheTables,
}

impl<M: Machine> PageCache<M> {
    /// A cache with no block in it, of a machine whose registry has no entry. The tables are made for this machine's
    /// frames and its disk's blocks.
    pub fn start(machine: M, tables: CacheTables) -> PageCache<M>
        requires coherent { Coherent (M.contents machine) (length (M.run machine).scratch) }
        requires closed { (M.contents machine).open_page ≡ None }
        requires shut { gate_of (M.contents machine).words ≡ 0 }
        requires empty { (k : ℕ) → k < frames_of (M.contents machine).words → tag_at (M.contents machine).words k ≡ 0 }
        requires tables { IsFresh (frames_of (M.contents machine).words) (length (M.contents machine).disk) tables }
        ensures sound { CacheSound (M.contents result.machine) (length (M.run result.machine).scratch) result.tables }
        ensures machine { result.machine ≡ machine }
        ensures tables { result.tables ≡ tables }
        ensures started { Started (M.contents machine) (cache_seen (M.contents result.machine)) (cache_kept (M.contents result.machine) result.tables) }
    {
        PageCache { machine, tables }
    }

    /// The machine below, as it is. Memory and disk stand for what the volume says, also after a stop.
    pub fn machine(&self) -> &M
        requires sound { CacheSound (M.contents self.now.machine) (length (M.run self.now.machine).scratch) self.now.tables }
        ensures machine { result.now ≡ self.now.machine }
        ensures tells { Tells (M.contents result.now) (M.run result.now) (cache_seen (M.contents self.now.machine)) (cache_health (M.contents self.now.machine) (M.run self.now.machine)) (cache_below (M.contents self.now.machine) (M.run self.now.machine)) (cache_kept (M.contents self.now.machine) self.now.tables) }
    {
        &self.machine
    }

    /// A wild store now, as [`Machine::wild`]. No page is open between two calls: so it traps and stops the volume on every
    /// protected page, and is never spared.
    pub fn wild(&mut self, at: WordAt, v: u64) -> Wild
        requires sound { CacheSound (M.contents self.old.machine) (length (M.run self.old.machine).scratch) self.old.tables }
        requires place { at.0 < (cache_below (M.contents self.old.machine) (M.run self.old.machine)).memory.protected + (cache_below (M.contents self.old.machine) (M.run self.old.machine)).memory.scratch }
        requires running { (cache_health (M.contents self.old.machine) (M.run self.old.machine)).stopped ≡ false }
        ensures strikes { Strikes at.0 result (cache_health (M.contents self.old.machine) (M.run self.old.machine)) (cache_below (M.contents self.old.machine) (M.run self.old.machine)) (cache_health (M.contents self.new.machine) (M.run self.new.machine)) (cache_below (M.contents self.new.machine) (M.run self.new.machine)) }
        ensures seen { cache_seen (M.contents self.new.machine) ≡ cache_seen (M.contents self.old.machine) }
        ensures kept { cache_kept (M.contents self.new.machine) self.new.tables ≡ cache_kept (M.contents self.old.machine) self.old.tables }
        ensures answer { Meets (M.contents self.old.machine) at.0 result }
        ensures contents { M.contents self.new.machine ≡ M.contents self.old.machine }
        ensures run { M.run self.new.machine ≡ after_wild result at.0 v (M.run self.old.machine) }
        ensures tables { self.new.tables ≡ self.old.tables }
        ensures sound { CacheSound (M.contents self.new.machine) (length (M.run self.new.machine).scratch) self.new.tables }
    {
        self.machine.wild(at, v)
    }

    /// Arms a wild store, as [`Machine::arm`]. It comes in a later call, after so many further steps.
    pub fn arm(&mut self, step: u64, at: WordAt, v: u64)
        requires sound { CacheSound (M.contents self.old.machine) (length (M.run self.old.machine).scratch) self.old.tables }
        requires place { at.0 < (cache_below (M.contents self.old.machine) (M.run self.old.machine)).memory.protected + (cache_below (M.contents self.old.machine) (M.run self.old.machine)).memory.scratch }
        ensures arms { Arms at.0 (cache_health (M.contents self.old.machine) (M.run self.old.machine)) (cache_below (M.contents self.old.machine) (M.run self.old.machine)) (cache_health (M.contents self.new.machine) (M.run self.new.machine)) (cache_below (M.contents self.new.machine) (M.run self.new.machine)) }
        ensures seen { cache_seen (M.contents self.new.machine) ≡ cache_seen (M.contents self.old.machine) }
        ensures kept { cache_kept (M.contents self.new.machine) self.new.tables ≡ cache_kept (M.contents self.old.machine) self.old.tables }
        ensures contents { M.contents self.new.machine ≡ M.contents self.old.machine }
        ensures run { M.run self.new.machine ≡ record (M.run self.old.machine) { armed = Some at.0; armed_left = step; armed_value = v } }
        ensures tables { self.new.tables ≡ self.old.tables }
        ensures sound { CacheSound (M.contents self.new.machine) (length (M.run self.new.machine).scratch) self.new.tables }
    {
        self.machine.arm(step, at, v);
    }

    /// The machine, taken back as it is. Memory and disk stand for what the volume says, also after a stop.
    pub fn into_machine(self) -> M
        requires sound { CacheSound (M.contents self.machine) (length (M.run self.machine).scratch) self.tables }
        ensures machine { result ≡ self.machine }
        ensures tells { Tells (M.contents result) (M.run result) (cache_seen (M.contents self.machine)) (cache_health (M.contents self.machine) (M.run self.machine)) (cache_below (M.contents self.machine) (M.run self.machine)) (cache_kept (M.contents self.machine) self.tables) }
    {
        let PageCache { machine, tables: _ } = self;
        machine
    }
}
