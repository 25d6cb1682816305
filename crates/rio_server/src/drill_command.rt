//! The command `drill`: boots drawn from a seed, run in memory alone.

ghost use Rattle.std.specs.Prelude.{◌≡◌, ◌<◌, ◌≤◌, ◌^◌, IfOk};
ghost use Rattle.rio_base.specs.Failures.{Rose};
ghost use Rattle.rio_server.specs.Commands.{Drills};
ghost use Rattle.boots.specs.Plans.{plan_of};
ghost use Rattle.boots.specs.Summaries.{reply_count};
ghost use Rattle.boots.specs.Legal.{Legal};

use boots::{Transcript, drill_plan, live, tell_memory, tell_summary};
use rio_base::Sink;
use std::alloc::{AllocError, Global};

/// Runs the drill of these numbers in memory alone: so many boots, at least one, and so many requests for all of them
/// together, drawn from the seed on. Writes a summary, as far as the sink takes it. Answers the status: 0 where the
/// sink took all of it, 6 where there was no memory for the drill, 9 where the sink refused a line.
pub fn drill<K: Sink>(alloc: Global, seed: u32, boots: u32, requests: u32, sink: &mut K) -> u8
    requires { 0 < boots }
    ensures run { Drills seed boots requests result (Rose (K.faults sink.old) (K.faults sink.new)) (K.written sink.old) (K.written sink.new) }
    ensures steady { result ≡ 0 → K.faults sink.new ≡ K.faults sink.old }
    ensures later { K.faults sink.old ≤ K.faults sink.new }
{
    match drilled(alloc, seed, boots, requests) {
        Ok(transcript) => tell_summary(&transcript, sink),
        Err(_) => tell_memory(sink),
    }
}

/// What the boots of a drill do.
fn drilled(alloc: Global, seed: u32, boots: u32, requests: u32) -> Result<Transcript, AllocError>
    requires { 0 < boots }
    ensures legal { IfOk result (λ t. Legal (plan_of seed boots requests) t) }
    ensures few { IfOk result (λ t. reply_count t.boots < 2 ^ 64) }
{
    let plan = drill_plan(alloc, seed, boots, requests)?;
    live(alloc, &plan)
}
