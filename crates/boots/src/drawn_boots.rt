//! The plan of one boot of a drill, drawn.

ghost use Rattle.std.specs.Prelude.{◌≡◌, IfOk};
ghost use Rattle.boots.specs.Plans.{boot_plan, cut_boot, last_boot, some_requests};

use crate::{BootPlan, CallList, RequestList};
use block_disk::DiskChoice;
use std::alloc::{AllocError, Global};
use work_gen::Gen;

/// The plan of a boot that so many others follow, with so many requests.
pub fn planned_boot(
    draws: &mut Gen,
    alloc: Global,
    following: u32,
    count: u64,
) -> Result<BootPlan, AllocError>
    ensures { IfOk result (λ plan. boot_plan following count draws.old ≡ (draws.new, plan)) }
{
    if following == 0 {
        return planned_last_boot(draws, alloc, count);
    }
    planned_cut_boot(draws, alloc, count)
}

/// The plan of the last boot: it serves all its requests.
fn planned_last_boot(draws: &mut Gen, alloc: Global, count: u64) -> Result<BootPlan, AllocError>
    ensures { IfOk result (λ plan. last_boot count draws.old ≡ (draws.new, plan)) }
{
    let requests = drawn_requests(draws, alloc, count)?;
    Ok(BootPlan {
        requests,
        stop_after: None,
        arm: None,
        fail: CallList::from(Vec::new(alloc)),
        choice: DiskChoice::AsRead,
    })
}

/// The plan of a boot that a stop and a wild store are drawn for.
fn planned_cut_boot(draws: &mut Gen, alloc: Global, count: u64) -> Result<BootPlan, AllocError>
    ensures { IfOk result (λ plan. cut_boot count draws.old ≡ (draws.new, plan)) }
{
    let end = draws.next_boot();
    let requests = drawn_requests(draws, alloc, count)?;
    Ok(BootPlan {
        requests,
        stop_after: Some(end.stop_after),
        arm: Some((end.arm_step, end.arm_at, u64::MAX)),
        fail: CallList::from(Vec::new(alloc)),
        choice: end.choice,
    })
}

/// So many requests, drawn one after the other.
fn drawn_requests(draws: &mut Gen, alloc: Global, count: u64) -> Result<RequestList, AllocError>
    ensures { IfOk result (λ requests. some_requests count draws.old ≡ (draws.new, requests)) }
{
    let mut requests = Vec::new(alloc);
    for _ in 0..count {
        let request = draws.next_request(alloc)?;
        requests.push(request)?;
    }
    Ok(RequestList::from(requests))
}
