//! The running core: a cache on a machine, and what is kept of the state that its blocks read as.

ghost use Rattle.std.specs.Prelude.{◌≡◌, ◌+◌, ◌<◌, ◌≤◌, ◌^◌, [], ◌∷◌, ℕ, Some, Ok, IsErr, IfErr, IfOk, MatchOption, OnErr, OnOk};
ghost use Rattle.rio_base.specs.Machine.{after_wild};
ghost use Rattle.rio_base.specs.declared.wild.Wild.TheVariants.{Changed, Trapped};
ghost use Rattle.rio_base.specs.Blocks.{EndsBy, Halts};
ghost use Rattle.rio_base.specs.Volume.{Goes, Quiet, Runs};
ghost use Rattle.rio_requests.specs.Answer.{refusal_reply};
ghost use Rattle.rio_requests.specs.Requests.{IsRequest, OnFiles};
ghost use Rattle.rio_requests.specs.declared.request.Request.TheVariants.{Arm, Flush, Sync, Txns, Wild};
ghost use Rattle.rio_requests.specs.Went.{NoFlush, StoppedOn, Went};
ghost use Rattle.rio_requests.specs.declared.reply.Reply.TheVariants.{Ok as Done};
ghost use Rattle.rio_model.specs.declared.refusal.Refusal.TheVariants.{OutOfRange};
ghost use Rattle.rio_model.specs.declared.state.State.{State};
ghost use Rattle.rio_model.specs.Paths.{IsPath};
ghost use Rattle.rio_requests.specs.Crash.{crashed};
ghost use Rattle.request_ends.specs.Ends.{Stands};
ghost use Rattle.file_tree.specs.Memos.{InStep};
ghost use Rattle.cached_pages.specs.Caches.{Tells, cache_seen};
ghost use Rattle.write_back.specs.Flushing.{Flushed};
ghost use Rattle.rio_core.specs.CallEnds.{IsAt};
ghost use Rattle.rio_core.specs.Serving.{Answering, Holds, TellsFault};

use crate::answering::answer_files;
use crate::regions::answer_region;
use crate::replies::txns_reply;
use file_tree::Memo;
use page_cache::PageCache;
use region_view::RegionView;
use rio_base::{Blocks, Machine, Stopped, VolFail, Volume, VolumeShape, Wild as StoreEnd, WordAt};
use rio_model::Refusal;
use rio_requests::{Reply, Request};
use std::alloc::{AllocError, Global};
use vista_region::OpenTable;

/// A cache that holds a state, seen through a view of one region's words at a time, the table of the open transactions, and what is
/// held in memory for quicker answers, which is always in step with the cache's blocks.
pub struct Core<M: Machine> {
    view: RegionView<PageCache<M>>,
    table: OpenTable,
    memo: Memo,
    ghost in_step: { InStep view.shape (cache_seen (M.contents view.v.machine)).words memo },
}

impl<M: Machine> Core<M> {
    /// A core over a cache that holds a state of this shape, in which no transaction is open. The error means that there
    /// was no room for the table of open transactions, and hands the cache back.
    pub fn new(
        alloc: Global,
        cache: PageCache<M>,
        shape: VolumeShape,
    ) -> Result<Core<M>, (PageCache<M>, AllocError)>
        ensures cache { IfOk result (λ core. core.view.v ≡ cache) }
        ensures shape { IfOk result (λ core. core.view.shape ≡ shape) }
        ensures table { IfOk result (λ core. core.table ≡ []) }
        ensures back { IfErr result (λ back. back.0 ≡ cache) }
    {
        match OpenTable::new(alloc) {
            Ok(table) => {
                let view = RegionView::over(cache, shape);
                let memo = Memo::new(alloc);
                Ok(Core { view, table, memo })
            }
            Err(error) => Err((cache, error)),
        }
    }

    /// The machine, taken back as it is. Memory and disk stand for what the core's blocks stand for, also after a stop.
    pub fn into_machine(self) -> M
        requires sound { ⟦<PageCache<M> as Blocks>⟧.sound self.view.v }
        ensures machine { result ≡ self.view.v.machine }
        ensures tells { Tells (M.contents result) (M.run result) (⟦<PageCache<M> as Blocks>⟧.seen self.view.v) (⟦<PageCache<M> as Blocks>⟧.health self.view.v) (⟦<PageCache<M> as Volume>⟧.below self.view.v) (⟦<PageCache<M> as Volume>⟧.kept self.view.v) }
    {
        let Core {
            view,
            table: _,
            memo: _,
        } = self;
        view.v.into_machine()
    }
}

/// Answers a request. A reply `err 30` comes only where the disk failed in this call, and `Stopped` only where the machine is
/// stopped afterwards: by a stop that it was given, by the armed store, or by the request itself, if that is a wild store on
/// a protected word. With a frame for each block no request but a flush writes to the disk.
pub fn answer_one<M: Machine>(
    alloc: Global,
    core: &mut Core<M>,
    request: &Request,
) -> Result<Reply, Stopped>
    requires sound { ⟦<PageCache<M> as Blocks>⟧.sound core.old.view.v }
    requires holds { (s : State) × Holds core.old.view.shape (⟦<PageCache<M> as Blocks>⟧.seen core.old.view.v) (⟦<PageCache<M> as Volume>⟧.kept core.old.view.v) (⟦<PageCache<M> as Blocks>⟧.health core.old.view.v) (⟦<PageCache<M> as Volume>⟧.below core.old.view.v) core.old.table s }
    requires request { IsRequest request.now }
    ensures answered { (s : State) → Holds core.old.view.shape (⟦<PageCache<M> as Blocks>⟧.seen core.old.view.v) (⟦<PageCache<M> as Volume>⟧.kept core.old.view.v) (⟦<PageCache<M> as Blocks>⟧.health core.old.view.v) (⟦<PageCache<M> as Volume>⟧.below core.old.view.v) core.old.table s → Answering (Holds core.new.view.shape (⟦<PageCache<M> as Blocks>⟧.seen core.new.view.v) (⟦<PageCache<M> as Volume>⟧.kept core.new.view.v) (⟦<PageCache<M> as Blocks>⟧.health core.new.view.v) (⟦<PageCache<M> as Volume>⟧.below core.new.view.v) core.new.table) (λ t. Stands core.new.view.shape (⟦<PageCache<M> as Blocks>⟧.seen core.new.view.v) (⟦<PageCache<M> as Volume>⟧.kept core.new.view.v) (crashed t)) s request.now result }
    ensures went { IfOk result (λ reply. Went (Some request.now ∷ []) (reply ∷ []) (⟦<PageCache<M> as Blocks>⟧.health core.old.view.v) (⟦<PageCache<M> as Volume>⟧.below core.old.view.v) (⟦<PageCache<M> as Blocks>⟧.health core.new.view.v) (⟦<PageCache<M> as Volume>⟧.below core.new.view.v)) }
    ensures stopped_on { OnErr result (StoppedOn request.now (⟦<PageCache<M> as Blocks>⟧.health core.old.view.v) (⟦<PageCache<M> as Volume>⟧.below core.old.view.v) (⟦<PageCache<M> as Blocks>⟧.health core.new.view.v) (⟦<PageCache<M> as Volume>⟧.below core.new.view.v)) }
    ensures sync { request.now ≡ Sync → (result ≡ Ok Done) × (core.new ≡ core.old) }
    ensures txns { request.now ≡ Txns → (reply : Reply) × (result ≡ Ok reply) × (core.new ≡ core.old) }
    ensures flushed { (count : ℕ) → request.now ≡ Flush count → result ≡ Ok Done → (j : ℕ) × Flushed count j (M.contents core.old.view.v.machine) (M.contents core.new.view.v.machine) }
    ensures struck { (at value : ℕ) → request.now ≡ Wild at value → result ≡ Ok Done → (M.contents core.new.view.v.machine ≡ M.contents core.old.view.v.machine) × (M.run core.new.view.v.machine ≡ after_wild Changed at value (M.run core.old.view.v.machine)) }
    ensures trapped { (at value : ℕ) → request.now ≡ Wild at value → OnErr result ((M.contents core.new.view.v.machine ≡ M.contents core.old.view.v.machine) × (M.run core.new.view.v.machine ≡ after_wild Trapped at value (M.run core.old.view.v.machine))) }
    ensures armed { (step at value : ℕ) → request.now ≡ Arm step at value → result ≡ Ok Done → (M.contents core.new.view.v.machine ≡ M.contents core.old.view.v.machine) × (M.run core.new.view.v.machine ≡ record (M.run core.old.view.v.machine) { armed = Some at; armed_left = step; armed_value = value }) }
    ensures unstruck { (at value : ℕ) → request.now ≡ Wild at value → result ≡ Ok (refusal_reply OutOfRange) → core.new ≡ core.old }
    ensures unarmed { (step at value : ℕ) → request.now ≡ Arm step at value → result ≡ Ok (refusal_reply OutOfRange) → core.new ≡ core.old }
    ensures quiet { NoFlush request.now → Quiet (⟦<PageCache<M> as Volume>⟧.below core.old.view.v) (⟦<PageCache<M> as Volume>⟧.below core.new.view.v) }
    ensures ends { EndsBy (⟦<PageCache<M> as Blocks>⟧.health core.old.view.v) (⟦<PageCache<M> as Blocks>⟧.health core.new.view.v) (TellsFault result) (IsErr result) }
    ensures sound { ⟦<PageCache<M> as Blocks>⟧.sound core.new.view.v }
{
    match request {
        Request::Sync => Ok(Reply::Ok),
        Request::Txns => Ok(txns_reply(core.table.open_list(alloc))),
        Request::Flush { count } => flush_core(core, *count),
        Request::Wild { at, value } => strike(core, *at, *value),
        Request::Arm { step, at, value } => Ok(arm_store(core, *step, *at, *value)),
        Request::Begin { path }
        | Request::Range { path, .. }
        | Request::Put { path, .. }
        | Request::Get { path, .. }
        | Request::Alloc { path, .. }
        | Request::Free { path, .. }
        | Request::Commit { path }
        | Request::Abort { path } => serve_region(alloc, core, path.as_slice(), request),
        Request::Mkdir { .. }
        | Request::Create { .. }
        | Request::Region { .. }
        | Request::Write { .. }
        | Request::Read { .. }
        | Request::Truncate { .. }
        | Request::Unlink { .. }
        | Request::Rmdir { .. }
        | Request::Rename { .. }
        | Request::Stat { .. }
        | Request::List { .. } => serve_files(alloc, core, request),
    }
}

/// Answers a request on the region at a path, and on its transaction. It may fetch pages, so one may be written ahead first.
fn serve_region<M: Machine>(
    alloc: Global,
    core: &mut Core<M>,
    path: &[u8],
    request: &Request,
) -> Result<Reply, Stopped>
    requires sound { ⟦<PageCache<M> as Blocks>⟧.sound core.old.view.v }
    requires holds { (s : State) × Holds core.old.view.shape (⟦<PageCache<M> as Blocks>⟧.seen core.old.view.v) (⟦<PageCache<M> as Volume>⟧.kept core.old.view.v) (⟦<PageCache<M> as Blocks>⟧.health core.old.view.v) (⟦<PageCache<M> as Volume>⟧.below core.old.view.v) core.old.table s }
    requires request { IsRequest request.now }
    requires path { IsPath path.now }
    requires at { IsAt path.now request.now }
    ensures answered { (s : State) → Holds core.old.view.shape (⟦<PageCache<M> as Blocks>⟧.seen core.old.view.v) (⟦<PageCache<M> as Volume>⟧.kept core.old.view.v) (⟦<PageCache<M> as Blocks>⟧.health core.old.view.v) (⟦<PageCache<M> as Volume>⟧.below core.old.view.v) core.old.table s → Answering (Holds core.new.view.shape (⟦<PageCache<M> as Blocks>⟧.seen core.new.view.v) (⟦<PageCache<M> as Volume>⟧.kept core.new.view.v) (⟦<PageCache<M> as Blocks>⟧.health core.new.view.v) (⟦<PageCache<M> as Volume>⟧.below core.new.view.v) core.new.table) (λ t. Stands core.new.view.shape (⟦<PageCache<M> as Blocks>⟧.seen core.new.view.v) (⟦<PageCache<M> as Volume>⟧.kept core.new.view.v) (crashed t)) s request.now result }
    ensures goes { Goes (⟦<PageCache<M> as Blocks>⟧.health core.old.view.v) (⟦<PageCache<M> as Volume>⟧.below core.old.view.v) (⟦<PageCache<M> as Blocks>⟧.health core.new.view.v) (⟦<PageCache<M> as Volume>⟧.below core.new.view.v) }
    ensures ends { EndsBy (⟦<PageCache<M> as Blocks>⟧.health core.old.view.v) (⟦<PageCache<M> as Blocks>⟧.health core.new.view.v) (TellsFault result) (IsErr result) }
    ensures sound { ⟦<PageCache<M> as Blocks>⟧.sound core.new.view.v }
{
    write_ahead(core)?;
    answer_region(
        alloc,
        &mut core.view,
        &mut core.memo,
        &mut core.table,
        path,
        request,
    )
}

/// Answers a request on files and directories. It may fetch pages, so one may be written ahead first.
fn serve_files<M: Machine>(
    alloc: Global,
    core: &mut Core<M>,
    request: &Request,
) -> Result<Reply, Stopped>
    requires sound { ⟦<PageCache<M> as Blocks>⟧.sound core.old.view.v }
    requires holds { (s : State) × Holds core.old.view.shape (⟦<PageCache<M> as Blocks>⟧.seen core.old.view.v) (⟦<PageCache<M> as Volume>⟧.kept core.old.view.v) (⟦<PageCache<M> as Blocks>⟧.health core.old.view.v) (⟦<PageCache<M> as Volume>⟧.below core.old.view.v) core.old.table s }
    requires request { IsRequest request.now }
    requires files { OnFiles request.now }
    ensures answered { (s : State) → Holds core.old.view.shape (⟦<PageCache<M> as Blocks>⟧.seen core.old.view.v) (⟦<PageCache<M> as Volume>⟧.kept core.old.view.v) (⟦<PageCache<M> as Blocks>⟧.health core.old.view.v) (⟦<PageCache<M> as Volume>⟧.below core.old.view.v) core.old.table s → Answering (Holds core.new.view.shape (⟦<PageCache<M> as Blocks>⟧.seen core.new.view.v) (⟦<PageCache<M> as Volume>⟧.kept core.new.view.v) (⟦<PageCache<M> as Blocks>⟧.health core.new.view.v) (⟦<PageCache<M> as Volume>⟧.below core.new.view.v) core.new.table) (λ t. Stands core.new.view.shape (⟦<PageCache<M> as Blocks>⟧.seen core.new.view.v) (⟦<PageCache<M> as Volume>⟧.kept core.new.view.v) (crashed t)) s request.now result }
    ensures goes { Goes (⟦<PageCache<M> as Blocks>⟧.health core.old.view.v) (⟦<PageCache<M> as Volume>⟧.below core.old.view.v) (⟦<PageCache<M> as Blocks>⟧.health core.new.view.v) (⟦<PageCache<M> as Volume>⟧.below core.new.view.v) }
    ensures ends { EndsBy (⟦<PageCache<M> as Blocks>⟧.health core.old.view.v) (⟦<PageCache<M> as Blocks>⟧.health core.new.view.v) (TellsFault result) (IsErr result) }
    ensures sound { ⟦<PageCache<M> as Blocks>⟧.sound core.new.view.v }
{
    write_ahead(core)?;
    answer_files(
        alloc,
        &mut core.view.v,
        &core.view.shape,
        &mut core.memo,
        &core.table,
        request,
    )
}

/// May write one page that is to leave the cache soon, so that one sync serves many when they leave. A disk that refuses the page
/// makes no reply of a fault.
fn write_ahead<M: Machine>(core: &mut Core<M>) -> Result<(), Stopped>
    requires sound { ⟦<PageCache<M> as Blocks>⟧.sound core.old.view.v }
    requires holds { (s : State) × Holds core.old.view.shape (⟦<PageCache<M> as Blocks>⟧.seen core.old.view.v) (⟦<PageCache<M> as Volume>⟧.kept core.old.view.v) (⟦<PageCache<M> as Blocks>⟧.health core.old.view.v) (⟦<PageCache<M> as Volume>⟧.below core.old.view.v) core.old.table s }
    ensures holds { (s : State) → Holds core.old.view.shape (⟦<PageCache<M> as Blocks>⟧.seen core.old.view.v) (⟦<PageCache<M> as Volume>⟧.kept core.old.view.v) (⟦<PageCache<M> as Blocks>⟧.health core.old.view.v) (⟦<PageCache<M> as Volume>⟧.below core.old.view.v) core.old.table s → OnOk result (Holds core.new.view.shape (⟦<PageCache<M> as Blocks>⟧.seen core.new.view.v) (⟦<PageCache<M> as Volume>⟧.kept core.new.view.v) (⟦<PageCache<M> as Blocks>⟧.health core.new.view.v) (⟦<PageCache<M> as Volume>⟧.below core.new.view.v) core.new.table s) }
    ensures stands { (s : State) → Holds core.old.view.shape (⟦<PageCache<M> as Blocks>⟧.seen core.old.view.v) (⟦<PageCache<M> as Volume>⟧.kept core.old.view.v) (⟦<PageCache<M> as Blocks>⟧.health core.old.view.v) (⟦<PageCache<M> as Volume>⟧.below core.old.view.v) core.old.table s → OnErr result (Stands core.new.view.shape (⟦<PageCache<M> as Blocks>⟧.seen core.new.view.v) (⟦<PageCache<M> as Volume>⟧.kept core.new.view.v) (crashed s)) }
    ensures shape { core.new.view.shape ≡ core.old.view.shape }
    ensures table { core.new.table ≡ core.old.table }
    ensures goes { Goes (⟦<PageCache<M> as Blocks>⟧.health core.old.view.v) (⟦<PageCache<M> as Volume>⟧.below core.old.view.v) (⟦<PageCache<M> as Blocks>⟧.health core.new.view.v) (⟦<PageCache<M> as Volume>⟧.below core.new.view.v) }
    ensures ends { Halts (⟦<PageCache<M> as Blocks>⟧.health core.old.view.v) (⟦<PageCache<M> as Blocks>⟧.health core.new.view.v) result }
    ensures sound { ⟦<PageCache<M> as Blocks>⟧.sound core.new.view.v }
{
    core.view.v.write_ahead()
}

/// Answers a flush: the first `count` dirty frames are clean afterwards, and nothing is pending.
fn flush_core<M: Machine>(core: &mut Core<M>, count: u64) -> Result<Reply, Stopped>
    requires sound { ⟦<PageCache<M> as Blocks>⟧.sound core.old.view.v }
    requires holds { (s : State) × Holds core.old.view.shape (⟦<PageCache<M> as Blocks>⟧.seen core.old.view.v) (⟦<PageCache<M> as Volume>⟧.kept core.old.view.v) (⟦<PageCache<M> as Blocks>⟧.health core.old.view.v) (⟦<PageCache<M> as Volume>⟧.below core.old.view.v) core.old.table s }
    ensures answered { (s : State) → Holds core.old.view.shape (⟦<PageCache<M> as Blocks>⟧.seen core.old.view.v) (⟦<PageCache<M> as Volume>⟧.kept core.old.view.v) (⟦<PageCache<M> as Blocks>⟧.health core.old.view.v) (⟦<PageCache<M> as Volume>⟧.below core.old.view.v) core.old.table s → Answering (Holds core.new.view.shape (⟦<PageCache<M> as Blocks>⟧.seen core.new.view.v) (⟦<PageCache<M> as Volume>⟧.kept core.new.view.v) (⟦<PageCache<M> as Blocks>⟧.health core.new.view.v) (⟦<PageCache<M> as Volume>⟧.below core.new.view.v) core.new.table) (λ t. Stands core.new.view.shape (⟦<PageCache<M> as Blocks>⟧.seen core.new.view.v) (⟦<PageCache<M> as Volume>⟧.kept core.new.view.v) (crashed t)) s (Flush count) result }
    ensures flushed { result ≡ Ok Done → (j : ℕ) × Flushed count j (M.contents core.old.view.v.machine) (M.contents core.new.view.v.machine) }
    ensures runs { Runs (⟦<PageCache<M> as Blocks>⟧.health core.old.view.v) (⟦<PageCache<M> as Volume>⟧.below core.old.view.v) (⟦<PageCache<M> as Blocks>⟧.health core.new.view.v) (⟦<PageCache<M> as Volume>⟧.below core.new.view.v) }
    ensures ends { EndsBy (⟦<PageCache<M> as Blocks>⟧.health core.old.view.v) (⟦<PageCache<M> as Blocks>⟧.health core.new.view.v) (TellsFault result) (IsErr result) }
    ensures sound { ⟦<PageCache<M> as Blocks>⟧.sound core.new.view.v }
{
    match core.view.v.flush(count) {
        Ok(_) => Ok(Reply::Ok),
        Err(VolFail::Fault) => Ok(Reply::Fault(0)),
        Err(VolFail::Stopped) => Err(Stopped),
    }
}

/// Makes a wild store now. On a protected word it traps, which stops the machine, and there is no reply.
fn strike<M: Machine>(core: &mut Core<M>, at: u64, value: u64) -> Result<Reply, Stopped>
    requires sound { ⟦<PageCache<M> as Blocks>⟧.sound core.old.view.v }
    requires holds { (s : State) × Holds core.old.view.shape (⟦<PageCache<M> as Blocks>⟧.seen core.old.view.v) (⟦<PageCache<M> as Volume>⟧.kept core.old.view.v) (⟦<PageCache<M> as Blocks>⟧.health core.old.view.v) (⟦<PageCache<M> as Volume>⟧.below core.old.view.v) core.old.table s }
    ensures answered { (s : State) → Holds core.old.view.shape (⟦<PageCache<M> as Blocks>⟧.seen core.old.view.v) (⟦<PageCache<M> as Volume>⟧.kept core.old.view.v) (⟦<PageCache<M> as Blocks>⟧.health core.old.view.v) (⟦<PageCache<M> as Volume>⟧.below core.old.view.v) core.old.table s → Answering (Holds core.new.view.shape (⟦<PageCache<M> as Blocks>⟧.seen core.new.view.v) (⟦<PageCache<M> as Volume>⟧.kept core.new.view.v) (⟦<PageCache<M> as Blocks>⟧.health core.new.view.v) (⟦<PageCache<M> as Volume>⟧.below core.new.view.v) core.new.table) (λ t. Stands core.new.view.shape (⟦<PageCache<M> as Blocks>⟧.seen core.new.view.v) (⟦<PageCache<M> as Volume>⟧.kept core.new.view.v) (crashed t)) s (Wild at value) result }
    ensures went { IfOk result (λ reply. Went (Some (Wild at value) ∷ []) (reply ∷ []) (⟦<PageCache<M> as Blocks>⟧.health core.old.view.v) (⟦<PageCache<M> as Volume>⟧.below core.old.view.v) (⟦<PageCache<M> as Blocks>⟧.health core.new.view.v) (⟦<PageCache<M> as Volume>⟧.below core.new.view.v)) }
    ensures stopped_on { OnErr result (StoppedOn (Wild at value) (⟦<PageCache<M> as Blocks>⟧.health core.old.view.v) (⟦<PageCache<M> as Volume>⟧.below core.old.view.v) (⟦<PageCache<M> as Blocks>⟧.health core.new.view.v) (⟦<PageCache<M> as Volume>⟧.below core.new.view.v)) }
    ensures unstruck { result ≡ Ok (refusal_reply OutOfRange) → core.new ≡ core.old }
    ensures trapped { OnErr result ((M.contents core.new.view.v.machine ≡ M.contents core.old.view.v.machine) × (M.run core.new.view.v.machine ≡ after_wild Trapped at value (M.run core.old.view.v.machine))) }
    ensures struck { result ≡ Ok Done → (M.contents core.new.view.v.machine ≡ M.contents core.old.view.v.machine) × (M.run core.new.view.v.machine ≡ after_wild Changed at value (M.run core.old.view.v.machine)) }
    ensures quiet { Quiet (⟦<PageCache<M> as Volume>⟧.below core.old.view.v) (⟦<PageCache<M> as Volume>⟧.below core.new.view.v) }
    ensures ends { EndsBy (⟦<PageCache<M> as Blocks>⟧.health core.old.view.v) (⟦<PageCache<M> as Blocks>⟧.health core.new.view.v) (TellsFault result) (IsErr result) }
    ensures sound { ⟦<PageCache<M> as Blocks>⟧.sound core.new.view.v }
{
    let Some(place) = place_in(&core.view.v, at) else {
        return Ok(Reply::Err(Refusal::OutOfRange as u8));
    };
    match core.view.v.wild(place, value) {
        StoreEnd::Trapped => Err(Stopped),
        StoreEnd::Changed => Ok(Reply::Ok),
        // No page is open between two calls.
        StoreEnd::Spared => unreachable!(),
    }
}

/// Arms a wild store, to fall after so many further steps, in place of one that is armed already.
fn arm_store<M: Machine>(core: &mut Core<M>, step: u64, at: u64, value: u64) -> Reply
    requires sound { ⟦<PageCache<M> as Blocks>⟧.sound core.old.view.v }
    requires holds { (s : State) × Holds core.old.view.shape (⟦<PageCache<M> as Blocks>⟧.seen core.old.view.v) (⟦<PageCache<M> as Volume>⟧.kept core.old.view.v) (⟦<PageCache<M> as Blocks>⟧.health core.old.view.v) (⟦<PageCache<M> as Volume>⟧.below core.old.view.v) core.old.table s }
    ensures answered { (s : State) → Holds core.old.view.shape (⟦<PageCache<M> as Blocks>⟧.seen core.old.view.v) (⟦<PageCache<M> as Volume>⟧.kept core.old.view.v) (⟦<PageCache<M> as Blocks>⟧.health core.old.view.v) (⟦<PageCache<M> as Volume>⟧.below core.old.view.v) core.old.table s → Answering (Holds core.new.view.shape (⟦<PageCache<M> as Blocks>⟧.seen core.new.view.v) (⟦<PageCache<M> as Volume>⟧.kept core.new.view.v) (⟦<PageCache<M> as Blocks>⟧.health core.new.view.v) (⟦<PageCache<M> as Volume>⟧.below core.new.view.v) core.new.table) (λ t. Stands core.new.view.shape (⟦<PageCache<M> as Blocks>⟧.seen core.new.view.v) (⟦<PageCache<M> as Volume>⟧.kept core.new.view.v) (crashed t)) s (Arm step at value) (Ok result) }
    ensures went { Went (Some (Arm step at value) ∷ []) (result ∷ []) (⟦<PageCache<M> as Blocks>⟧.health core.old.view.v) (⟦<PageCache<M> as Volume>⟧.below core.old.view.v) (⟦<PageCache<M> as Blocks>⟧.health core.new.view.v) (⟦<PageCache<M> as Volume>⟧.below core.new.view.v) }
    ensures unarmed { result ≡ refusal_reply OutOfRange → core.new ≡ core.old }
    ensures armed { result ≡ Done → (M.contents core.new.view.v.machine ≡ M.contents core.old.view.v.machine) × (M.run core.new.view.v.machine ≡ record (M.run core.old.view.v.machine) { armed = Some at; armed_left = step; armed_value = value }) }
    ensures quiet { Quiet (⟦<PageCache<M> as Volume>⟧.below core.old.view.v) (⟦<PageCache<M> as Volume>⟧.below core.new.view.v) }
    ensures health { ⟦<PageCache<M> as Blocks>⟧.health core.new.view.v ≡ ⟦<PageCache<M> as Blocks>⟧.health core.old.view.v }
    ensures sound { ⟦<PageCache<M> as Blocks>⟧.sound core.new.view.v }
{
    let Some(place) = place_in(&core.view.v, at) else {
        return Reply::Err(Refusal::OutOfRange as u8);
    };
    core.view.v.arm(step, place, value);
    Reply::Ok
}

/// The word of memory at a place, or `None` where memory has no such word.
fn place_in<M: Machine>(cache: &PageCache<M>, at: u64) -> Option<WordAt>
    requires { ⟦<PageCache<M> as Blocks>⟧.sound cache.now }
    ensures { MatchOption result ((⟦<PageCache<M> as Volume>⟧.below cache.now).memory.protected + (⟦<PageCache<M> as Volume>⟧.below cache.now).memory.scratch ≤ at) (λ place. (place.0 ≡ at) × (at < (⟦<PageCache<M> as Volume>⟧.below cache.now).memory.protected + (⟦<PageCache<M> as Volume>⟧.below cache.now).memory.scratch)) }
{
    if at < words_in(cache) {
        Some(WordAt(at as u32))
    } else {
        None
    }
}

/// How many words memory has.
fn words_in<M: Machine>(cache: &PageCache<M>) -> u64
    requires { ⟦<PageCache<M> as Blocks>⟧.sound cache.now }
    ensures words { result ≡ (⟦<PageCache<M> as Volume>⟧.below cache.now).memory.protected + (⟦<PageCache<M> as Volume>⟧.below cache.now).memory.scratch }
    ensures small { result < 2 ^ 32 }
{
    512 * cache.machine().pages() as u64
}
