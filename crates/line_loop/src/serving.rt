//! Serving lines until the input ends.

ghost use Rattle.std.specs.Prelude.{◌≡◌, ◌≢◌, ◌≤◌, ◌^◌, ◌⊎◌, ◌∷◌, ℕ, List, true, false, [], Some, IfOk, IfErr, IsErrOf, OnOk, OnErr};
ghost use Rattle.rio_base.specs.Failures.{Rose};
ghost use Rattle.rio_base.specs.Streams.{IsSpent};
ghost use Rattle.rio_base.specs.Volume.{LimitLasts};
ghost use Rattle.request_codec.specs.Sending.{Sent};
ghost use Rattle.line_loop.specs.Protocol.{AnswersLine};
ghost use Rattle.line_loop.specs.Asking.{AskEnds, AsksFor, Refuses, Stops};
ghost use Rattle.line_loop.specs.Gathering.{effect_in};
ghost use Rattle.line_loop.specs.ServeRun.{RunEnds};

use crate::effects::Effect;
use crate::ends::ServeEnd;
use crate::server::LineServer;
use crate::waiting::Waiting;
use request_codec::{LineFail, LineReader, NextLine};
use rio_base::{Failed, Sink, Source, Stopped};
use std::alloc::Global;

/// Serves lines until the input ends. Each reply is written before the next line is asked for. With `gathers` replies to
/// requests that do nothing may wait, as long as the next line is held already, for further ones to be written with them: until
/// a request that may do something, and always before the source is asked for more. That needs a machine that stops none of
/// them, so it ends at the first request that may arm a store.
pub fn serve_until_end<C: LineServer, S: Source, K: Sink>(
    alloc: Global,
    core: &mut C,
    source: &mut S,
    sink: &mut K,
    gathers: bool,
) -> ServeEnd
    requires sound { C.sound core.old }
    requires holds { (s : C.State) × C.holds core.old s }
    requires calm { gathers ≡ true → C.calm (C.below core.old) }
    ensures run { (s : C.State) → C.holds core.old s → RunEnds C.protocol (C.holds core.new) (C.stands core.new) s result (S.left source.old) (S.left source.new) (K.written sink.old) (K.written sink.new) (C.health core.old) (C.below core.old) (C.health core.new) (C.below core.new) }
    ensures limit { LimitLasts (C.below core.old).limit (C.below core.new).limit }
    ensures limited { (most : ℕ) → (C.below core.old).limit ≡ Some most → (C.health core.new).faults ≤ most }
    ensures sound { C.sound core.new }
    ensures source_fault { result ≡ ServeEnd.SourceFault → Rose (S.faults source.old) (S.faults source.new) }
    ensures sink_fault { result ≡ ServeEnd.SinkFault → Rose (K.faults sink.old) (K.faults sink.new) }
    ensures stopped { result ≡ ServeEnd.Stopped → (C.health core.new).stopped ≡ true }
    ensures steady { result ≢ ServeEnd.SinkFault → K.faults sink.new ≡ K.faults sink.old }
    ensures later { S.faults source.old ≤ S.faults source.new }
    ensures sink_later { K.faults sink.old ≤ K.faults sink.new }
{
    let Ok(mut reader) = LineReader::new(alloc) else {
        return ServeEnd::Memory;
    };
    let Ok(mut waiting) = Waiting::new(alloc) else {
        return ServeEnd::Memory;
    };
    let mut spare = C::spare(alloc);
    match serve_lines(
        alloc,
        core,
        &mut reader,
        &mut spare,
        &mut waiting,
        source,
        sink,
        gathers,
    ) {
        Ok(end) => end,
        Err(_) => ServeEnd::Stopped,
    }
}

/// Serves lines, by way of a reader that has taken nothing yet and a room in which nothing waits.
fn serve_lines<C: LineServer, S: Source, K: Sink>(
    alloc: Global,
    core: &mut C,
    reader: &mut LineReader,
    spare: &mut C::Spare,
    waiting: &mut Waiting,
    source: &mut S,
    sink: &mut K,
    gathers: bool,
) -> Result<ServeEnd, Stopped>
    requires sound { C.sound core.old }
    requires holds { (s : C.State) × C.holds core.old s }
    requires calm { gathers ≡ true → C.calm (C.below core.old) }
    requires fresh { reader.old ≡ record { held = []; taken = 0; ended = false } }
    requires none { waiting.old ≡ [] }
    ensures run { IfOk result (λ end. (s : C.State) → C.holds core.old s → RunEnds C.protocol (C.holds core.new) (C.stands core.new) s end (S.left source.old) (S.left source.new) (K.written sink.old) (K.written sink.new) (C.health core.old) (C.below core.old) (C.health core.new) (C.below core.new)) }
    ensures stopped { OnErr result ((s : C.State) → C.holds core.old s → RunEnds C.protocol (C.holds core.new) (C.stands core.new) s ServeEnd.Stopped (S.left source.old) (S.left source.new) (K.written sink.old) (K.written sink.new) (C.health core.old) (C.below core.old) (C.health core.new) (C.below core.new)) }
    ensures halted { OnErr result ((C.health core.new).stopped ≡ true) }
    ensures other { IfOk result (λ end. end ≢ ServeEnd.Stopped) }
    ensures limit { LimitLasts (C.below core.old).limit (C.below core.new).limit }
    ensures source_fault { IfOk result (λ end. end ≡ ServeEnd.SourceFault → Rose (S.faults source.old) (S.faults source.new)) }
    ensures sink_fault { IfOk result (λ end. end ≡ ServeEnd.SinkFault → Rose (K.faults sink.old) (K.faults sink.new)) }
    ensures steady { IfOk result (λ end. end ≢ ServeEnd.SinkFault → K.faults sink.new ≡ K.faults sink.old) }
    ensures steady_stop { OnErr result (K.faults sink.new ≡ K.faults sink.old) }
    ensures later { S.faults source.old ≤ S.faults source.new }
    ensures sink_later { K.faults sink.old ≤ K.faults sink.new }
    ensures sound { C.sound core.new }
{
    let mut gathering = gathers;
    loop {
        let request = match ask::<C, S, K>(reader, spare, waiting, source, sink) {
            Ok(request) => request,
            Err(end) => return Ok(end),
        };
        let effect = effect_of_line::<C>(&request);
        gathering = still_gathers(gathering, effect);
        let waits = may_wait(gathering, effect);
        match make_way(waits, waiting, sink) {
            Ok(()) => {}
            Err(_) => return Ok(ServeEnd::SinkFault),
        }
        let reply = reply_to(alloc, core, request, spare)?;
        match waiting.add::<C, K>(&reply, waits, sink) {
            Ok(()) => {}
            Err(_) => return Ok(ServeEnd::SinkFault),
        }
    }
}

/// What the next line asks for, or `None` where it is no request; or why no line comes. A line that is held whole, as most
/// are, is read where it stands. Where none is, what waits is written before the source is asked.
fn ask<C: LineServer, S: Source, K: Sink>(
    reader: &mut LineReader,
    spare: &mut C::Spare,
    waiting: &mut Waiting,
    source: &mut S,
    sink: &mut K,
) -> Result<Option<C::Request>, ServeEnd>
    requires within { reader.old.taken ≤ 2 ^ 40 }
    requires spent { reader.old.ended ≡ true → IsSpent (S.left source.old) }
    ensures line { IfOk result (λ request. AsksFor C.protocol.means reader.old (S.left source.old) request reader.new (S.left source.new)) }
    ensures waits { OnOk result (Sent (K.written sink.old) (K.faults sink.old) waiting.old [] (K.written sink.new) (K.faults sink.new) waiting.new) }
    ensures end { IfErr result (λ end. AskEnds reader.old (S.left source.old) end reader.new (S.left source.new) (K.written sink.old) (K.faults sink.old) waiting.old (K.written sink.new) (K.faults sink.new)) }
    ensures later { S.faults source.old ≤ S.faults source.new }
    ensures cause { IsErrOf result ServeEnd.SourceFault → Rose (S.faults source.old) (S.faults source.new) }
{
    if let Some(line) = reader.held_line() {
        let len = line.len();
        match C::parse(line, spare) {
            Ok(request) => {
                reader.pass_line(len);
                return Ok(request);
            }
            Err(_) => {
                return match waiting.release(sink) {
                    Ok(()) => Err(ServeEnd::Memory),
                    Err(_) => Err(ServeEnd::SinkFault),
                };
            }
        }
    }
    match waiting.release(sink) {
        Ok(()) => ask_source::<C, S>(reader, spare, source),
        Err(_) => Err(ServeEnd::SinkFault),
    }
}

/// What the next line asks for, where it is not held whole yet.
fn ask_source<C: LineServer, S: Source>(
    reader: &mut LineReader,
    spare: &mut C::Spare,
    source: &mut S,
) -> Result<Option<C::Request>, ServeEnd>
    requires within { reader.old.taken ≤ 2 ^ 40 }
    requires spent { reader.old.ended ≡ true → IsSpent (S.left source.old) }
    ensures line { IfOk result (λ request. AsksFor C.protocol.means reader.old (S.left source.old) request reader.new (S.left source.new)) }
    ensures end { IfErr result (λ end. Stops reader.old (S.left source.old) end reader.new (S.left source.new)) }
    ensures later { S.faults source.old ≤ S.faults source.new }
    ensures cause { IsErrOf result ServeEnd.SourceFault → Rose (S.faults source.old) (S.faults source.new) }
{
    match reader.next_line(source) {
        Ok(NextLine::Line(line)) => meaning_of::<C>(line.as_slice(), spare),
        Ok(NextLine::TooLong) => Ok(None),
        Ok(NextLine::End) => Err(ServeEnd::End),
        Err(LineFail::Fault) => Err(ServeEnd::SourceFault),
        Err(LineFail::Limit) => Err(ServeEnd::InputLimit),
        Err(LineFail::Memory) => Err(ServeEnd::Memory),
    }
}

/// What a line does that asks for this, or is no request.
fn effect_of_line<C: LineServer>(request: &Option<C::Request>) -> Effect
    ensures { result ≡ effect_in C.does request.now }
{
    match request {
        Some(request) => C::effect_of(request),
        None => Effect::Nothing,
    }
}

/// Whether replies may wait once a request was answered that has this effect.
fn still_gathers(gathers: bool, effect: Effect) -> bool
    ensures { result ≡ true → (gathers ≡ true) × (effect ≢ Effect.Arms) }
{
    match effect {
        Effect::Nothing | Effect::Changes => gathers,
        Effect::Arms => false,
    }
}

/// Whether the reply to a request that has this effect may wait.
fn may_wait(gathers: bool, effect: Effect) -> bool
    ensures { result ≡ true → (gathers ≡ true) × (effect ≡ Effect.Nothing) }
{
    match effect {
        Effect::Nothing => gathers,
        Effect::Changes | Effect::Arms => false,
    }
}

/// Writes what waits, before a request is answered whose reply may not wait.
fn make_way<K: Sink>(waits: bool, waiting: &mut Waiting, sink: &mut K) -> Result<(), Failed>
    ensures ok { OnOk result (Sent (K.written sink.old) (K.faults sink.old) waiting.old [] (K.written sink.new) (K.faults sink.new) waiting.new) }
    ensures none { OnOk result ((waits ≡ true) ⊎ (waiting.new ≡ [])) }
    ensures err { OnErr result (Refuses (K.written sink.old) (K.faults sink.old) waiting.old (K.written sink.new) (K.faults sink.new)) }
{
    if waits {
        return Ok(());
    }
    waiting.release(sink)
}

/// What a line asks for, or that it is no request.
fn meaning_of<C: LineServer>(
    line: &[u8],
    spare: &mut C::Spare,
) -> Result<Option<C::Request>, ServeEnd>
    ensures meaning { IfOk result (C.protocol.means line.now) }
    ensures memory { IfErr result (λ end. end ≡ ServeEnd.Memory) }
{
    match C::parse(line, spare) {
        Ok(request) => Ok(request),
        Err(_) => Err(ServeEnd::Memory),
    }
}

/// The reply to a request, or to a line that is none. The request's memory is kept for later ones.
fn reply_to<C: LineServer>(
    alloc: Global,
    core: &mut C,
    request: Option<C::Request>,
    spare: &mut C::Spare,
) -> Result<C::Reply, Stopped>
    requires sound { C.sound core.old }
    requires holds { (s : C.State) × C.holds core.old s }
    requires asked { (line : List ℕ) × C.protocol.means line request }
    ensures answered { (s : C.State) → C.holds core.old s → AnswersLine C.protocol (C.holds core.new) (C.stands core.new) s request result }
    ensures went { IfOk result (λ reply. C.protocol.went (request ∷ []) (reply ∷ []) (C.health core.old) (C.below core.old) (C.health core.new) (C.below core.new)) }
    ensures stopped { OnErr result ((r : C.Request) → request ≡ Some r → C.protocol.stopped_on r (C.health core.old) (C.below core.old) (C.health core.new) (C.below core.new)) }
    ensures halted { OnErr result ((C.health core.new).stopped ≡ true) }
    ensures limit { LimitLasts (C.below core.old).limit (C.below core.new).limit }
    ensures sound { C.sound core.new }
{
    let Some(request) = request else {
        return Ok(C::refusal());
    };
    let reply = core.answer(alloc, &request);
    C::keep(request, spare);
    reply
}
