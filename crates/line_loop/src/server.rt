//! What a served run asks of what answers its requests.

ghost use Rattle.std.specs.Prelude.{◌≡◌, ◌<◌, ◌≤◌, ◌∷◌, [], ℕ, List, true, Some, None, IfOk, OnOk, OnErr, length, take};
ghost use Rattle.rio_base.specs.Blocks.{Health};
ghost use Rattle.rio_base.specs.Failures.{HasCause};
ghost use Rattle.rio_base.specs.Streams.{appended};
ghost use Rattle.rio_base.specs.Volume.{Below, LimitLasts};
ghost use Rattle.line_loop.specs.Protocol.{Protocol, GoesMore, GoesNone, Answering};
ghost use Rattle.line_loop.specs.Gathering.{GoesLess, RunsOn, StaysCalm, StaysStill};
ghost use Rattle.line_loop.specs.declared.effects.Effect.{Effect as EffectOf};
ghost use Rattle.request_codec.specs.Sending.{Puts};

use crate::effects::Effect;
use rio_base::{Failed, Sink, Stopped};
use std::alloc::{AllocError, Global};

/// What answers the requests of lines one after another, from a state that it holds.
pub trait LineServer {
    /// What a line may ask for.
    type Request: Drop;

    /// What a request is answered.
    type Reply: Drop;

    /// Memory that requests leave for later ones.
    type Spare: Drop;

    /// A state that it may hold.
    ghost State: { Type 0 };

    /// What lines ask for, what replies are as text, and what requests do.
    ghost protocol: { Protocol Self.Request Self.Reply State };

    /// What each request may do.
    ghost does: { Self.Request → EffectOf };

    /// The machine below is such that a request that does nothing is not stopped.
    ghost calm: { Below → Type 0 };

    /// It keeps its own rules.
    ghost sound: { Self → Type 0 };

    /// It runs, and this is the state that it serves.
    ghost holds: { Self → State → Type 0 };

    /// This is the state that stands: what a warm reboot finds.
    ghost stands: { Self → State → Type 0 };

    /// The faults of its disk so far, and whether its machine is stopped.
    ghost health: { Self → Health };

    /// Its machine: its disk, its count of writes, and why it may stop.
    ghost below: { Self → Below };

    /// What there is of that memory before the first request.
    fn spare(alloc: Global) -> Self::Spare;

    /// What a line without its end asks for. `None` is the answer to a line that is no request, and an error means that
    /// there was no memory for the request.
    fn parse(line: &[u8], spare: &mut Self::Spare) -> Result<Option<Self::Request>, AllocError>
        ensures { IfOk result (protocol.means line.now) };

    /// Takes the memory of a request that was answered.
    fn keep(request: Self::Request, spare: &mut Self::Spare);

    /// What a request may do. What does nothing can be answered while the replies before it still wait to be written.
    fn effect_of(request: &Self::Request) -> Effect
        ensures { result ≡ does request.now };

    /// Answers a request that a line asks for. `Stopped` comes only where the machine is stopped afterwards.
    fn answer(&mut self, alloc: Global, request: &Self::Request) -> Result<Self::Reply, Stopped>
        requires sound { sound self.old }
        requires holds { (s : State) × holds self.old s }
        requires asked { (line : List ℕ) × protocol.means line (Some request.now) }
        ensures answered { (s : State) → holds self.old s → Answering protocol (holds self.new) (stands self.new) s request.now result }
        ensures went { IfOk result (λ reply. protocol.went (Some request.now ∷ []) (reply ∷ []) (health self.old) (below self.old) (health self.new) (below self.new)) }
        ensures stopped { OnErr result (protocol.stopped_on request.now (health self.old) (below self.old) (health self.new) (below self.new)) }
        ensures halted { OnErr result ((health self.new).stopped ≡ true) }
        ensures limit { LimitLasts (below self.old).limit (below self.new).limit }
        ensures sound { sound self.new };

    /// The reply to a line that is no request, which changes nothing.
    fn refusal() -> Self::Reply
        ensures step { (s : State) → protocol.step s None result s }
        ensures went { (h : Health) (b : Below) → protocol.went (None ∷ []) (result ∷ []) h b h b };

    /// Writes a reply by way of a room, which may hold anything. A text that fits the room is given to the sink whole. It
    /// takes no memory. An error means that the sink refused the text, and took a front of it.
    fn write_reply<K: Sink>(
        reply: &Self::Reply,
        room: &mut [u8],
        sink: &mut K,
    ) -> Result<(), Failed>
        requires { 2 ≤ length room.old }
        ensures ok { OnOk result (K.written sink.new ≡ appended (K.written sink.old) (protocol.text reply.now)) }
        ensures cut { OnErr result ((k : ℕ) × (k ≤ length (protocol.text reply.now)) × (K.written sink.new ≡ appended (K.written sink.old) (take k (protocol.text reply.now)))) }
        ensures steady { OnOk result (K.faults sink.new ≡ K.faults sink.old) }
        ensures cause { HasCause result (K.faults sink.old) (K.faults sink.new) };

    /// Puts a reply behind the first `held` bytes of a room, which wait to be written, and answers how many wait then. Where
    /// the room is full, it writes. It takes no memory. An error means that the sink refused what waited and the text.
    fn put_reply<K: Sink>(
        reply: &Self::Reply,
        room: &mut [u8],
        held: usize,
        sink: &mut K,
    ) -> Result<usize, Failed>
        requires fits { held ≤ length room.old }
        requires enough { 2 ≤ length room.old }
        ensures { Puts result (K.written sink.old) (K.faults sink.old) (take held room.old) (protocol.text reply.now) (K.written sink.new) (K.faults sink.new) room.new };

    /// A line of more than 4,194,304 bytes is no request.
    ghost long: { (line : List ℕ) → 4194304 < length line → protocol.means line None };

    /// What requests did to the machine below composes.
    ghost goes_none: { GoesNone protocol };

    ghost goes_more: { GoesMore protocol };

    /// What requests did to the machine below, those before the last ones did, where these do nothing.
    ghost goes_less: { GoesLess protocol does };

    /// What does nothing leaves the state as it is.
    ghost still: { StaysStill protocol does };

    /// What arms nothing leaves a calm machine calm.
    ghost stays_calm: { StaysCalm protocol does calm };

    /// On a calm machine what does nothing is not stopped.
    ghost runs_on: { RunsOn protocol does calm };

    /// No more calls of the disk failed than can, where it is told how many can.
    ghost limited: { (x : Self) (most : ℕ) → (below x).limit ≡ Some most → (health x).faults ≤ most };
}
