//! A dirty page is written before it has to leave.

ghost use Rattle.std.specs.Prelude.{◌≡◌, ◌<◌, ◌≤◌, ℕ, true, false, length};
ghost use Rattle.frame_pool.specs.Pools.{order_of};
ghost use Rattle.rio_base.specs.Blocks.{Drops, Halts, Looks};
ghost use Rattle.rio_base.specs.Disks.{is_pending, raised};
ghost use Rattle.rio_base.specs.Volume.{Passes};
ghost use Rattle.rio_model.specs.Registry.{frames_of, is_valid, tag_at};
ghost use Rattle.write_back.specs.Flushing.{SameDisk};
ghost use Rattle.cached_pages.specs.Caches.{CacheSound, cache_below, cache_health, cache_kept, cache_seen};

use crate::cache::PageCache;
use cached_pages::{has_all_frames, is_far_ahead, is_full, send_next};
use rio_base::{Machine, Stopped};

impl<M: Machine> PageCache<M> {
    /// May write a dirty page that is to leave soon, so that one sync serves it and others when they leave. It asks for one block
    /// write at most, and for none where a frame is free or there is one for each block. No word of memory differs, so the page is
    /// dirty still, and what is pending stays so. That the disk refuses the page is no failure: the one error is the stop.
    #[tactic(auto, using(cached_pages::proofs::Nearness::nears_refl, cached_pages::proofs::Stills::still_refl, cached_pages::proofs::Nearness::looks_near, cached_pages::proofs::Nearness::drops_near, cached_pages::proofs::Nearness::one_none, cached_pages::proofs::Freed::halts_of, cached_pages::proofs::Kept::pins_fit, rio_base::proofs::MachineRules::steps_refl, rio_base::proofs::MachineRules::lasts_refl))]
    pub fn write_ahead(&mut self) -> Result<(), Stopped>
        requires sound { CacheSound (M.contents self.old.machine) (length (M.run self.old.machine).scratch) self.old.tables }
        ensures looks { Looks (cache_seen (M.contents self.old.machine)) (cache_seen (M.contents self.new.machine)) }
        ensures drops { Drops (cache_seen (M.contents self.old.machine)) (cache_seen (M.contents self.new.machine)) }
        ensures passes { Passes (cache_health (M.contents self.old.machine) (M.run self.old.machine)) (cache_below (M.contents self.old.machine) (M.run self.old.machine)) (cache_kept (M.contents self.old.machine) self.old.tables) (cache_health (M.contents self.new.machine) (M.run self.new.machine)) (cache_below (M.contents self.new.machine) (M.run self.new.machine)) (cache_kept (M.contents self.new.machine) self.new.tables) }
        ensures words { (M.contents self.new.machine).words ≡ (M.contents self.old.machine).words }
        ensures order { order_of self.new.tables.pool ≡ order_of self.old.tables.pool }
        ensures one_write { (M.contents self.new.machine).writes ≤ raised (M.contents self.old.machine).writes 1 }
        ensures pends { (b : ℕ) → is_pending (M.contents self.old.machine).pending b ≡ true → is_pending (M.contents self.new.machine).pending b ≡ true }
        ensures free { (k : ℕ) → k < frames_of (M.contents self.old.machine).words → is_valid (tag_at (M.contents self.old.machine).words k) ≡ false → SameDisk (M.contents self.old.machine) (M.contents self.new.machine) }
        ensures ends { Halts (cache_health (M.contents self.old.machine) (M.run self.old.machine)) (cache_health (M.contents self.new.machine) (M.run self.new.machine)) result }
        ensures sound { CacheSound (M.contents self.new.machine) (length (M.run self.new.machine).scratch) self.new.tables }
    {
        if has_all_frames(&self.machine) {
            return Ok(());
        }
        if is_far_ahead(&self.tables) {
            return Ok(());
        }
        let k = self.tables.pool.victim();
        if !is_full(&self.machine, &self.tables, k) {
            return Ok(());
        }
        send_next(&mut self.machine, &mut self.tables, k)
    }
}
