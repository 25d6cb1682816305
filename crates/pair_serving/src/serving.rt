//! Serving request lines until the input ends.

ghost use Rattle.std.specs.Prelude.{◌≡◌, ◌≢◌, ◌≤◌, ℕ, true, Some, length};
ghost use Rattle.rio_base.specs.Failures.{Rose};
ghost use Rattle.rio_base.specs.Shapes.{IsServed};
ghost use Rattle.rio_model.specs.declared.state.State.{State};
ghost use Rattle.rio_model.specs.Standing.{StandsFor};
ghost use Rattle.rio_core.specs.Lines.{IsCalm, core_protocol};
ghost use Rattle.line_loop.specs.ServeRun.{RunEnds};
ghost use Rattle.cached_pages.specs.Caches.{cache_below, cache_health};
ghost use Rattle.pair_files.specs.Scenes.{LastsBelow, scene_of, streams_of};
ghost use Rattle.pair_serving.specs.ServedScenes.{Served};

use crate::ends::end_of;
use line_loop::{LineServer, LinesEnd, ServeEnd, serve_until_end};
use rio_base::{Machine, Sink, Source};
use rio_core::Core;
use std::alloc::Global;

/// Serves lines until the input ends, each reply written before the next line is asked for.
pub fn serve<M: Machine, S: Source, K: Sink>(
    alloc: Global,
    core: &mut Core<M>,
    source: &mut S,
    sink: &mut K,
) -> ServeEnd
    requires sound { ⟦<Core<M> as LineServer>⟧.sound core.old }
    requires holds { (s : State) × ⟦<Core<M> as LineServer>⟧.holds core.old s }
    ensures run { (s : State) → ⟦<Core<M> as LineServer>⟧.holds core.old s → RunEnds core_protocol (⟦<Core<M> as LineServer>⟧.holds core.new) (⟦<Core<M> as LineServer>⟧.stands core.new) s result (S.left source.old) (S.left source.new) (K.written sink.old) (K.written sink.new) (⟦<Core<M> as LineServer>⟧.health core.old) (⟦<Core<M> as LineServer>⟧.below core.old) (⟦<Core<M> as LineServer>⟧.health core.new) (⟦<Core<M> as LineServer>⟧.below core.new) }
    ensures lasts { LastsBelow (⟦<Core<M> as LineServer>⟧.health core.old) (⟦<Core<M> as LineServer>⟧.below core.old) (⟦<Core<M> as LineServer>⟧.health core.new) (⟦<Core<M> as LineServer>⟧.below core.new) }
    ensures limited { (most : ℕ) → (⟦<Core<M> as LineServer>⟧.below core.old).limit ≡ Some most → (⟦<Core<M> as LineServer>⟧.health core.new).faults ≤ most }
    ensures sound { ⟦<Core<M> as LineServer>⟧.sound core.new }
    ensures source_fault { result ≡ ServeEnd.SourceFault → Rose (S.faults source.old) (S.faults source.new) }
    ensures sink_fault { result ≡ ServeEnd.SinkFault → Rose (K.faults sink.old) (K.faults sink.new) }
    ensures stopped { result ≡ ServeEnd.Stopped → (⟦<Core<M> as LineServer>⟧.health core.new).stopped ≡ true }
    ensures steady { result ≢ ServeEnd.SinkFault → K.faults sink.new ≡ K.faults sink.old }
    ensures later { S.faults source.old ≤ S.faults source.new }
    ensures sink_later { K.faults sink.old ≤ K.faults sink.new }
{
    serve_until_end(alloc, core, source, sink, false)
}

/// Serves lines over a core, and takes its machine back, which tells whether a wild store trapped. Memory and disk then stand
/// for what a stop leaves of the state that the lines led to. With `gathers` replies may wait for each other.
pub(crate) fn serve_core<M: Machine, S: Source, K: Sink>(
    alloc: Global,
    core: Core<M>,
    source: &mut S,
    sink: &mut K,
    gathers: bool,
) -> (M, LinesEnd)
    requires sound { ⟦<Core<M> as LineServer>⟧.sound core }
    requires holds { (s : State) × ⟦<Core<M> as LineServer>⟧.holds core s × IsServed s.shape }
    requires calm { gathers ≡ true → IsCalm (⟦<Core<M> as LineServer>⟧.below core) }
    ensures served { (s : State) → ⟦<Core<M> as LineServer>⟧.holds core s → IsServed s.shape → (t : State) × Served (record { state = s; health = ⟦<Core<M> as LineServer>⟧.health core; below = ⟦<Core<M> as LineServer>⟧.below core; streams = streams_of (S.left source.old) (K.written sink.old) (S.faults source.old) (K.faults sink.old) }) result.1 (scene_of t (M.contents result.0) (M.run result.0) (streams_of (S.left source.new) (K.written sink.new) (S.faults source.new) (K.faults sink.new))) × StandsFor (M.contents result.0) (length (M.run result.0).scratch) t }
    ensures lasts { LastsBelow (⟦<Core<M> as LineServer>⟧.health core) (⟦<Core<M> as LineServer>⟧.below core) (cache_health (M.contents result.0) (M.run result.0)) (cache_below (M.contents result.0) (M.run result.0)) }
    ensures source_later { S.faults source.old ≤ S.faults source.new }
    ensures sink_later { K.faults sink.old ≤ K.faults sink.new }
{
    let mut core = core;
    let end = serve_until_end(alloc, &mut core, source, sink, gathers);
    let machine = core.into_machine();
    let trapped = machine.trapped();
    (machine, end_of(end, trapped))
}
