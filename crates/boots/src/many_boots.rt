//! Boots, one after the other.

ghost use Rattle.std.specs.Prelude.{◌≡◌, ◌*◌, ℕ, All, IfOk, length};
ghost use Rattle.block_disk.specs.MemDisks.{state_of};
ghost use Rattle.phys_memory.specs.PhysMem.{words_of};
ghost use Rattle.rio_base.specs.Image.{AreImageSizes, image_pages};
ghost use Rattle.rio_base.specs.Shapes.{IsServed};
ghost use Rattle.rio_model.specs.declared.state.State.{State};
ghost use Rattle.boots.specs.Legal.{BootsLead, IsBootPlan, Legal, plan_shape};
ghost use Rattle.boots.specs.Parts.{PartsStand};

use crate::booting::run_boot;
use crate::counting::count_parts;
use crate::formatting::format_parts;
use crate::parts::Parts;
use crate::{BootPlan, BootRun, LivePlan, Transcript};
use rio_base::VolumeShape;
use std::alloc::{AllocError, Global};

/// Formats a volume in memory and runs the boots of a plan on it. Each boot makes a machine of what the one before it left, with
/// the stop, the wild store and the failing calls of its plan, reboots it, and serves its requests until they end or the machine
/// stops. After a stop the pending blocks of the disk hold what the plan chooses. At the end the volume is counted, as the last
/// boot left it. The error means that there was no memory for it.
///
/// The frames are from 32 to 8,192, the scratch pages from 1 to 64, and blocks and inodes those of a volume. Each armed store is on
/// a word of memory, and each call that is to fail is counted from 1.
pub fn live(alloc: Global, plan: &LivePlan) -> Result<Transcript, AllocError>
    requires memory { AreImageSizes plan.now.frames plan.now.scratch }
    requires volume { IsServed (plan_shape plan.now) }
    requires boots { All (IsBootPlan (512 * image_pages plan.now.frames plan.now.scratch)) plan.now.boots }
    ensures legal { IfOk result (Legal plan.now) }
{
    let shape = VolumeShape {
        version: 1,
        blocks: plan.blocks,
        inodes: plan.inodes,
    };
    let parts = format_parts(alloc, plan.frames, plan.scratch, &shape)?;
    let (boots, parts) = run_boots(alloc, plan.scratch, plan.boots.as_slice(), parts)?;
    let counts = count_parts(alloc, plan.scratch, parts)?;
    Ok(Transcript {
        boots: boots.into(),
        last: counts.census,
        bytes: counts.bytes,
    })
}

/// Runs boots one after the other. The answer is what they did, and what the last one leaves.
fn run_boots(
    alloc: Global,
    scratch: u32,
    plans: &[BootPlan],
    parts: Parts,
) -> Result<(Vec<BootRun>, Parts), AllocError>
    requires plans { All (IsBootPlan (length (words_of parts.memory))) plans.now }
    requires stand { (s : State) × PartsStand (words_of parts.memory) (state_of parts.disk) scratch parts.failing s }
    ensures lead { IfOk result (λ out. (s : State) → PartsStand (words_of parts.memory) (state_of parts.disk) scratch parts.failing s → (t : State) × BootsLead s plans.now out.0.items t × PartsStand (words_of out.1.memory) (state_of out.1.disk) scratch out.1.failing t) }
{
    let mut runs = Vec::new(alloc);
    let mut parts = parts;
    for plan in plans {
        let (run, left) = run_boot(alloc, scratch, plan, parts)?;
        parts = left;
        runs.push(run)?;
    }
    Ok((runs, parts))
}
