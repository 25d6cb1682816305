//! What is done with a pair of files.

ghost use Rattle.std.specs.Prelude.{◌≤◌, length};
ghost use Rattle.rio_base.specs.Blocks.{Causes};
ghost use Rattle.rio_model.specs.declared.state.State.{State};
ghost use Rattle.rio_model.specs.Standing.{StandsFor};
ghost use Rattle.cached_pages.specs.Caches.{CacheSound, cache_below, cache_health};
ghost use Rattle.pair_files.specs.Scenes.{IsBooted, LastsBelow, Scene, scene_of, streams_of};

use page_cache::PageCache;
use rio_base::{Machine, Sink, Source, VolumeShape};
use std::alloc::Global;

/// What is done over the cache of a pair of files, between its reboot and the saving of its image.
pub trait PairWork {
    /// How it ends.
    type End: Drop;

    /// This work leads from the first scene to the second, and ends so. It says all that is told of the streams, and why the
    /// work ended.
    ghost does: { Self → Scene → Self.End → Scene → Type 0 };

    /// What the work asks of the machine: why that may stop as the work begins.
    ghost asks: { Self → Causes → Type 0 };

    /// Works over a cache that a reboot left, of a volume of this shape. At every end the machine is handed back: memory and
    /// disk stand for the state that the work led to.
    fn work<M: Machine, S: Source, K: Sink>(
        &mut self,
        alloc: Global,
        cache: PageCache<M>,
        shape: VolumeShape,
        source: &mut S,
        sink: &mut K,
    ) -> (M, Self::End)
        requires sound { CacheSound (M.contents cache.machine) (length (M.run cache.machine).scratch) cache.tables }
        requires booted { (s : State) × IsBooted shape (M.contents cache.machine) (M.run cache.machine) cache.tables s }
        requires asks { asks self.old (cache_below (M.contents cache.machine) (M.run cache.machine)).causes }
        ensures works { (s : State) → IsBooted shape (M.contents cache.machine) (M.run cache.machine) cache.tables s → (t : State) × does self.old (scene_of s (M.contents cache.machine) (M.run cache.machine) (streams_of (S.left source.old) (K.written sink.old) (S.faults source.old) (K.faults sink.old))) result.1 (scene_of t (M.contents result.0) (M.run result.0) (streams_of (S.left source.new) (K.written sink.new) (S.faults source.new) (K.faults sink.new))) × StandsFor (M.contents result.0) (length (M.run result.0).scratch) t }
        ensures lasts { LastsBelow (cache_health (M.contents cache.machine) (M.run cache.machine)) (cache_below (M.contents cache.machine) (M.run cache.machine)) (cache_health (M.contents result.0) (M.run result.0)) (cache_below (M.contents result.0) (M.run result.0)) }
        ensures source_later { S.faults source.old ≤ S.faults source.new }
        ensures sink_later { K.faults sink.old ≤ K.faults sink.new };
}
