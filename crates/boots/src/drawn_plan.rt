//! The plan of a drill, drawn from a seed.

ghost use Rattle.std.specs.Prelude.{◌≡◌, ◌<◌, IfOk};
ghost use Rattle.boots.specs.Plans.{last_boots, plan_of, share};

use crate::drawn_boots::planned_boot;
use crate::{BootPlans, LivePlan};
use std::alloc::{AllocError, Global};
use work_gen::Gen;

/// The sizes of a drill's volume and of its machine, which has 280 pages.
const FRAMES: u32 = 256;

const BLOCKS: u32 = 8_192;

const INODES: u32 = 1_024;

const SCRATCH: u32 = 4;

/// The plan of a drill of so many boots, at least one, and so many requests for all of them together. All requests of
/// a boot are drawn, also those that a stop will keep from being served. Before each boot but the last a stop and a
/// wild store are drawn.
pub fn drill_plan(
    alloc: Global,
    seed: u32,
    boots: u32,
    requests: u32,
) -> Result<LivePlan, AllocError>
    requires { 0 < boots }
    ensures { IfOk result (λ plan. plan ≡ plan_of seed boots requests) }
{
    let boots = planned_boots(alloc, seed, boots, requests)?;
    Ok(LivePlan {
        frames: FRAMES,
        blocks: BLOCKS,
        inodes: INODES,
        scratch: SCRATCH,
        boots,
    })
}

/// The boots of a drill.
fn planned_boots(
    alloc: Global,
    seed: u32,
    boots: u32,
    requests: u32,
) -> Result<BootPlans, AllocError>
    requires { 0 < boots }
    ensures { IfOk result (λ plans. plans ≡ last_boots boots requests boots seed) }
{
    let mut draws = Gen::new(seed);
    let mut plans = Vec::new(alloc);
    for made in 0..boots {
        let following = boots - made - 1;
        let count = request_share(boots, requests, made + 1);
        let plan = planned_boot(&mut draws, alloc, following, count)?;
        plans.push(plan)?;
    }
    Ok(BootPlans::from(plans))
}

/// How many of the requests this boot has, counted from 1.
fn request_share(boots: u32, requests: u32, boot: u32) -> u64
    requires { 0 < boots }
    ensures { result ≡ share boots requests boot }
{
    let most = u64::from(requests / boots);
    if boot <= requests % boots {
        return most + 1;
    }
    most
}
