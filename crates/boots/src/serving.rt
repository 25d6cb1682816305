//! One boot on a machine: the reboot, and the requests that are served after it.

ghost use Rattle.std.specs.Prelude.{◌≡◌, All, IfOk, None, false, length};
ghost use Rattle.rio_base.specs.Shapes.{IsServed};
ghost use Rattle.rio_model.specs.declared.state.State.{State};
ghost use Rattle.rio_model.specs.Standing.{StandsFor};
ghost use Rattle.rio_requests.specs.Requests.{IsRequest};
ghost use Rattle.cached_pages.specs.Caches.{CacheSound, cache_below, cache_health};
ghost use Rattle.warm_reboot.specs.Examining.{TellsNoRule};
ghost use Rattle.pair_files.specs.Scenes.{IsBooted};
ghost use Rattle.boots.specs.Boots.{CoreHolds, CoreStands, EndsUnbooted, RunsBoot, ServesThese, none_served, run_served};

use crate::copies::copy_request;
use crate::{BootEnd, BootRun};
use page_cache::PageCache;
use rio_base::{Machine, VolumeShape};
use rio_core::{Core, answer_one};
use rio_requests::{Reply, Request};
use std::alloc::{AllocError, Global};
use warm_reboot::{BootError, BootFail, boot};

/// Reboots a machine and serves these requests on it, until they end or the machine stops. The machine is handed back.
pub(crate) fn serve_machine<M: Machine + Drop>(
    alloc: Global,
    machine: M,
    requests: &[Request],
) -> Result<(BootRun, M), AllocError>
    requires closed { (M.contents machine).open_page ≡ None }
    requires running { (M.run machine).stopped ≡ false }
    requires standing { (s : State) × StandsFor (M.contents machine) (length (M.run machine).scratch) s }
    requires requests { All IsRequest requests.now }
    ensures leads { IfOk result (λ out. (s : State) → StandsFor (M.contents machine) (length (M.run machine).scratch) s → (t : State) × RunsBoot s requests.now out.0 t (cache_health (M.contents machine) (M.run machine)) (cache_below (M.contents machine) (M.run machine)) (cache_health (M.contents out.1) (M.run out.1)) (cache_below (M.contents out.1) (M.run out.1)) × StandsFor (M.contents out.1) (length (M.run out.1).scratch) t) }
    ensures words { IfOk result (λ out. length (M.contents out.1).words ≡ length (M.contents machine).words) }
{
    match boot(alloc, machine) {
        Ok((cache, report)) => {
            let (run, machine) = serve_cache(alloc, cache, report.shape, requests)?;
            Ok((run, machine))
        }
        Err(BootError { machine, fail }) => {
            let run = unbooted(alloc, fail)?;
            Ok((run, machine))
        }
    }
}

/// What a boot did whose reboot failed so.
fn unbooted(alloc: Global, fail: BootFail) -> Result<BootRun, AllocError>
    requires rule { TellsNoRule fail }
    ensures { IfOk result (EndsUnbooted fail) }
{
    match fail {
        BootFail::Fault => Ok(nothing_served(alloc, BootEnd::BootFault)),
        BootFail::Stopped => Ok(nothing_served(alloc, BootEnd::Stopped)),
        BootFail::Memory => Err(AllocError),
        BootFail::BadImage(_) => unreachable!(),
        BootFail::BadVolume(_, _) => unreachable!(),
    }
}

/// A boot that ended so before any request.
fn nothing_served(alloc: Global, end: BootEnd) -> BootRun
    ensures { result ≡ none_served end }
{
    let answered: Vec<(Request, Reply)> = Vec::new(alloc);
    BootRun {
        answered: answered.into(),
        stopped_on: None,
        end,
    }
}

/// Serves requests over the cache that a reboot left.
fn serve_cache<M: Machine + Drop>(
    alloc: Global,
    cache: PageCache<M>,
    shape: VolumeShape,
    requests: &[Request],
) -> Result<(BootRun, M), AllocError>
    requires sound { CacheSound (M.contents cache.machine) (length (M.run cache.machine).scratch) cache.tables }
    requires booted { (s : State) × IsBooted shape (M.contents cache.machine) (M.run cache.machine) cache.tables s }
    requires requests { All IsRequest requests.now }
    ensures leads { IfOk result (λ out. (s : State) → IsBooted shape (M.contents cache.machine) (M.run cache.machine) cache.tables s → (t : State) × RunsBoot s requests.now out.0 t (cache_health (M.contents cache.machine) (M.run cache.machine)) (cache_below (M.contents cache.machine) (M.run cache.machine)) (cache_health (M.contents out.1) (M.run out.1)) (cache_below (M.contents out.1) (M.run out.1)) × StandsFor (M.contents out.1) (length (M.run out.1).scratch) t) }
{
    match Core::new(alloc, cache, shape) {
        Ok(core) => {
            let (run, machine) = serve_core(alloc, core, requests)?;
            Ok((run, machine))
        }
        Err((cache, error)) => {
            let _ = cache.into_machine();
            Err(error)
        }
    }
}

/// Serves requests over a core, and takes its machine back.
fn serve_core<M: Machine + Drop>(
    alloc: Global,
    core: Core<M>,
    requests: &[Request],
) -> Result<(BootRun, M), AllocError>
    requires sound { CacheSound (M.contents core.view.v.machine) (length (M.run core.view.v.machine).scratch) core.view.v.tables }
    requires holds { (s : State) × CoreHolds core.view.shape (M.contents core.view.v.machine) (M.run core.view.v.machine) core.view.v.tables core.table s × IsServed s.shape }
    requires requests { All IsRequest requests.now }
    ensures leads { IfOk result (λ out. (s : State) → CoreHolds core.view.shape (M.contents core.view.v.machine) (M.run core.view.v.machine) core.view.v.tables core.table s → IsServed s.shape → (t : State) × RunsBoot s requests.now out.0 t (cache_health (M.contents core.view.v.machine) (M.run core.view.v.machine)) (cache_below (M.contents core.view.v.machine) (M.run core.view.v.machine)) (cache_health (M.contents out.1) (M.run out.1)) (cache_below (M.contents out.1) (M.run out.1)) × StandsFor (M.contents out.1) (length (M.run out.1).scratch) t) }
{
    let mut core = core;
    let served = answer_all(alloc, &mut core, requests);
    let machine = core.into_machine();
    let (answered, stopped_on) = served?;
    Ok((served_run(answered, stopped_on), machine))
}

/// What a boot did that answered these requests, and stopped on this one, if any.
fn served_run(answered: Vec<(Request, Reply)>, stopped_on: Option<Request>) -> BootRun
    ensures { result ≡ run_served answered.items stopped_on }
{
    let end = match &stopped_on {
        Some(_) => BootEnd::Stopped,
        None => BootEnd::Served,
    };
    BootRun {
        answered: answered.into(),
        stopped_on,
        end,
    }
}

/// Answers requests one after the other, until they end or the machine stops. The answer is the requests that were answered,
/// each with its reply, and the one that met the stop.
fn answer_all<M: Machine>(
    alloc: Global,
    core: &mut Core<M>,
    requests: &[Request],
) -> Result<(Vec<(Request, Reply)>, Option<Request>), AllocError>
    requires sound { CacheSound (M.contents core.old.view.v.machine) (length (M.run core.old.view.v.machine).scratch) core.old.view.v.tables }
    requires holds { (s : State) × CoreHolds core.old.view.shape (M.contents core.old.view.v.machine) (M.run core.old.view.v.machine) core.old.view.v.tables core.old.table s }
    requires requests { All IsRequest requests.now }
    ensures serves { IfOk result (λ out. (s : State) → CoreHolds core.old.view.shape (M.contents core.old.view.v.machine) (M.run core.old.view.v.machine) core.old.view.v.tables core.old.table s → ServesThese (CoreHolds core.new.view.shape (M.contents core.new.view.v.machine) (M.run core.new.view.v.machine) core.new.view.v.tables core.new.table) (CoreStands core.new.view.shape (M.contents core.new.view.v.machine) core.new.view.v.tables) s requests.now out.0.items out.1 (cache_health (M.contents core.old.view.v.machine) (M.run core.old.view.v.machine)) (cache_below (M.contents core.old.view.v.machine) (M.run core.old.view.v.machine)) (cache_health (M.contents core.new.view.v.machine) (M.run core.new.view.v.machine)) (cache_below (M.contents core.new.view.v.machine) (M.run core.new.view.v.machine))) }
    ensures sound { CacheSound (M.contents core.new.view.v.machine) (length (M.run core.new.view.v.machine).scratch) core.new.view.v.tables }
{
    let mut answered = Vec::new(alloc);
    for request in requests {
        let asked = copy_request(alloc, request)?;
        match answer_one(alloc, core, request) {
            Ok(reply) => answered.push((asked, reply))?,
            Err(_) => return Ok((answered, Some(asked))),
        }
    }
    Ok((answered, None))
}
