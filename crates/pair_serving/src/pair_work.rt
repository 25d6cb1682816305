//! Serving as the work over a pair of files.

ghost use Rattle.std.specs.Prelude.{◌≤◌};

use crate::serving::serve_core;
use line_loop::{LinesEnd, ServeEnd};
use page_cache::PageCache;
use pair_files::PairWork;
use rio_base::{Machine, Sink, Source, VolumeShape};
use rio_core::Core;
use std::alloc::Global;

/// The work of serving the lines of a source until it ends, each reply written to the sink before more of it is read.
#[derive(Clone, Copy, Debug, PartialEq, Eq)]
pub struct Serving {
    /// Whether replies to requests that change nothing may wait to be written together, as long as further lines are there
    /// already. That needs a machine with no stop.
    pub gathers: bool,
}

impl PairWork for Serving {
    ghost use Rattle.std.specs.Prelude.{◌≡◌, true, false, None};
    ghost use Rattle.pair_serving.specs.ServedScenes.{Served};

    type End = LinesEnd;

    ghost does = { λ work a end b. Served a end b };

    ghost asks = { λ work causes. work.gathers ≡ true → (causes.stop_set ≡ false) × (causes.armed ≡ None) };

    fn work<M: Machine, S: Source, K: Sink>(
        &mut self,
        alloc: Global,
        cache: PageCache<M>,
        shape: VolumeShape,
        source: &mut S,
        sink: &mut K,
    ) -> (M, LinesEnd) {
        match Core::new(alloc, cache, shape) {
            Ok(core) => serve_core(alloc, core, source, sink, self.gathers),
            Err((cache, _)) => (cache.into_machine(), LinesEnd::Ended(ServeEnd::Memory)),
        }
    }
}
