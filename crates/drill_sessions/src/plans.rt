//! Plans of drawn requests, over the sizes of a drill.

ghost use Rattle.std.specs.Prelude.{◌*◌, ◌≤◌, All, IfOk};
ghost use Rattle.rio_base.specs.Image.{image_pages};
ghost use Rattle.boots.specs.Legal.{IsBootPlan};
ghost use Rattle.rio_requests.specs.Requests.{IsRequest};

use crate::mishaps::{Mishap, Mishaps};
use boots::{BootPlan, CallList, LivePlan, RequestList, Transcript, live};
use std::alloc::{AllocError, Global};
use work_gen::Gen;

const FRAMES: u32 = 256;

pub const BLOCKS: u32 = 8_192;

pub const INODES: u32 = 1_024;

pub const SCRATCH: u32 = 4;

/// What the boots of a plan are drawn from.
#[derive(Drop)]
pub struct Drawn {
    pub alloc: Global,
    pub seed: u32,
    /// How many requests each boot has.
    pub count: u64,
    /// The number that mishaps are told by.
    pub number: u64,
    /// The word of memory that a wild store falls on.
    pub at: u32,
}

/// Runs a boot for each of these mishaps, which befalls it. Their requests are drawn from the seed one after the other.
pub fn run(drawn: &Drawn, mishaps: Mishaps) -> Result<Transcript, AllocError> {
    let mut draws = Gen::new(drawn.seed);
    let mut boots = Vec::new(drawn.alloc);
    for mishap in mishaps {
        let boot = drawn_boot(drawn, &mut draws, mishap)?;
        boots.push(boot)?;
    }
    run_boots(drawn.alloc, boots)
}

/// Runs boots, the first one on a fresh volume.
fn run_boots(alloc: Global, boots: Vec<BootPlan>) -> Result<Transcript, AllocError>
    requires { All (IsBootPlan (512 * image_pages 256 4)) boots.items }
{
    let plan = LivePlan {
        frames: FRAMES,
        blocks: BLOCKS,
        inodes: INODES,
        scratch: SCRATCH,
        boots: boots.into(),
    };
    live(alloc, &plan)
}

/// A boot of drawn requests, that this befalls.
fn drawn_boot(drawn: &Drawn, draws: &mut Gen, mishap: &Mishap) -> Result<BootPlan, AllocError>
    ensures { IfOk result (IsBootPlan (512 * image_pages 256 4)) }
{
    let (first, calls) = mishap.failing(drawn.number);
    let fail = failing_calls(drawn.alloc, first, calls)?;
    let requests = drawn_requests(drawn.alloc, draws, drawn.count)?;
    Ok(BootPlan {
        requests,
        stop_after: mishap.stop_after(drawn.number),
        arm: mishap.arm(drawn.number, drawn.at),
        fail,
        choice: mishap.choice(),
    })
}

/// So many drawn requests.
fn drawn_requests(alloc: Global, draws: &mut Gen, count: u64) -> Result<RequestList, AllocError>
    ensures { IfOk result (All IsRequest) }
{
    let mut requests = Vec::new(alloc);
    for _ in 0..count {
        let request = draws.next_request(alloc)?;
        requests.push(request)?;
    }
    Ok(requests.into())
}

/// So many calls of a disk, from this one on.
fn failing_calls(alloc: Global, first: u64, count: u64) -> Result<CallList, AllocError>
    ensures { IfOk result (λ calls. All (λ n. 1 ≤ n) calls) }
{
    let mut calls = Vec::new(alloc);
    for n in 0..count {
        calls.push(first.saturating_add(n).max(1))?;
    }
    Ok(calls.into())
}
