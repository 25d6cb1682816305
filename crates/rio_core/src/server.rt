//! The running core as a server of lines.

ghost use Rattle.rio_model.specs.declared.state.State.{State as StateOf};
ghost use Rattle.rio_requests.specs.Crash.{crashed};
ghost use Rattle.rio_requests.proofs.WentRules.{went_more, went_none};
ghost use Rattle.request_ends.specs.Ends.{Stands};
ghost use Rattle.rio_core.specs.LineLaws.{core_calm, core_less, core_runs, core_still, long_none};
ghost use Rattle.rio_core.specs.Lines.{IsCalm, core_protocol, effect_of};
ghost use Rattle.rio_core.specs.Serving.{Holds};

use crate::running_core::{Core, answer_one};
use line_loop::{Effect, LineServer};
use page_cache::PageCache;
use request_codec::{Spare, parse_line_reusing, put_reply, write_reply_in};
use rio_base::{Blocks, Failed, Machine, Sink, Stopped, Volume};
use rio_model::Refusal;
use rio_requests::{Reply, Request};
use std::alloc::{AllocError, Global};

impl<M: Machine> LineServer for Core<M> {
    type Request = Request;

    type Reply = Reply;

    type Spare = Spare;

    ghost State = { StateOf };

    ghost protocol = { core_protocol };

    ghost does = { effect_of };

    ghost calm = { IsCalm };

    ghost sound = { λ x. ⟦<PageCache<M> as Blocks>⟧.sound x.view.v };

    ghost holds = { λ x. Holds x.view.shape (⟦<PageCache<M> as Blocks>⟧.seen x.view.v) (⟦<PageCache<M> as Volume>⟧.kept x.view.v) (⟦<PageCache<M> as Blocks>⟧.health x.view.v) (⟦<PageCache<M> as Volume>⟧.below x.view.v) x.table };

    ghost stands = { λ x t. Stands x.view.shape (⟦<PageCache<M> as Blocks>⟧.seen x.view.v) (⟦<PageCache<M> as Volume>⟧.kept x.view.v) (crashed t) };

    ghost health = { λ x. ⟦<PageCache<M> as Blocks>⟧.health x.view.v };

    ghost below = { λ x. ⟦<PageCache<M> as Volume>⟧.below x.view.v };

    ghost long = { long_none };

    ghost goes_none = { went_none };

    ghost goes_more = { went_more };

    ghost goes_less = { core_less };

    ghost still = { core_still };

    ghost stays_calm = { core_calm };

    ghost runs_on = { core_runs };

    ghost limited = { λ x most e. M.limited x.view.v.machine most e };

    fn spare(alloc: Global) -> Spare {
        Spare::new(alloc)
    }

    fn parse(line: &[u8], spare: &mut Spare) -> Result<Option<Request>, AllocError> {
        parse_line_reusing(line, spare)
    }

    fn keep(request: Request, spare: &mut Spare) {
        spare.keep(request)
    }

    fn effect_of(request: &Request) -> Effect {
        match request {
            Request::Read { .. }
            | Request::Stat { .. }
            | Request::List { .. }
            | Request::Sync
            | Request::Get { .. }
            | Request::Txns => Effect::Nothing,
            Request::Arm { .. } => Effect::Arms,
            _ => Effect::Changes,
        }
    }

    fn answer(&mut self, alloc: Global, request: &Request) -> Result<Reply, Stopped> {
        answer_one(alloc, self, request)
    }

    fn refusal() -> Reply {
        Reply::Err(Refusal::BadRequest as u8)
    }

    fn write_reply<K: Sink>(reply: &Reply, room: &mut [u8], sink: &mut K) -> Result<(), Failed> {
        write_reply_in(reply, room, sink)
    }

    fn put_reply<K: Sink>(
        reply: &Reply,
        room: &mut [u8],
        held: usize,
        sink: &mut K,
    ) -> Result<usize, Failed> {
        put_reply(reply, room, held, sink)
    }
}
