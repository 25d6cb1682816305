//! One boot of a plan.

ghost use Rattle.std.specs.Prelude.{◌≡◌, ◌+◌, ◌*◌, ◌≤◌, ◌<◌, ◌^◌, ◌%◌, ℕ, All, IfOk, Some, length};
ghost use Rattle.block_disk.specs.BlockLists.{AreWhole};
ghost use Rattle.block_disk.specs.MemDisks.{state_of, upcoming};
ghost use Rattle.phys_memory.specs.PhysMem.{words_of};
ghost use Rattle.rio_model.specs.declared.state.State.{State};
ghost use Rattle.boots.specs.Legal.{BootLeads, IsBootPlan};
ghost use Rattle.machine_bench.specs.Benches.{made_contents, made_run};
ghost use Rattle.boots.specs.Parts.{IsDiskAfter, PartsStand, armed_run};

use crate::parts::{Parts, board_of};
use crate::serving::serve_machine;
use crate::{BootEnd, BootPlan, BootRun};
use block_disk::{DiskChoice, MemDisk};
use board::Board;
use rio_base::{DiskBlocks, Machine, MemWords, WordAt};
use std::alloc::{AllocError, Global};

/// Runs one boot of a plan on what the one before it left, of which so many pages of memory are scratch. The answer is what it
/// did and what it leaves in its turn.
pub(crate) fn run_boot(
    alloc: Global,
    scratch: u32,
    plan: &BootPlan,
    parts: Parts,
) -> Result<(BootRun, Parts), AllocError>
    requires plan { IsBootPlan (length (words_of parts.memory)) plan.now }
    requires stand { (s : State) × PartsStand (words_of parts.memory) (state_of parts.disk) scratch parts.failing s }
    ensures leads { IfOk result (λ out. (s : State) → PartsStand (words_of parts.memory) (state_of parts.disk) scratch parts.failing s → (t : State) × BootLeads s plan.now out.0 t × PartsStand (words_of out.1.memory) (state_of out.1.disk) scratch out.1.failing t) }
    ensures words { IfOk result (λ out. length (words_of out.1.memory) ≡ length (words_of parts.memory)) }
{
    let Parts {
        memory,
        disk,
        failing,
    } = parts;
    let fail = plan.fail.as_slice();
    let failing = more_failing(failing, fail)?;
    let disk = failing_disk(disk, fail)?;
    let board = planned_board(memory, disk, scratch, plan);
    let (run, board) = serve_machine(alloc, board, plan.requests.as_slice())?;
    let (memory, disk) = board.into_parts();
    let disk = disk_after(disk, run.end, plan.choice);
    let parts = Parts {
        memory,
        disk,
        failing,
    };
    Ok((run, parts))
}

/// A machine of this memory, of which so many pages are scratch, and this disk, with the stop and the wild store of a plan.
fn planned_board<F: MemWords, D: DiskBlocks>(
    memory: F,
    disk: D,
    scratch: u32,
    plan: &BootPlan,
) -> Board<F, D>
    requires pages { length (F.words memory) % 512 ≡ 0 }
    requires room { 512 * scratch < length (F.words memory) }
    requires armed { (step at value : ℕ) → plan.now.arm ≡ Some (step, at, value) → at < length (F.words memory) }
    ensures contents { ⟦<Board<F, D> as Machine>⟧.contents result ≡ made_contents (F.words memory) scratch (D.contents disk) }
    ensures run { ⟦<Board<F, D> as Machine>⟧.run result ≡ armed_run plan.now.arm (made_run (F.words memory) scratch plan.now.stop_after) }
    ensures whole { AreWhole (D.contents disk).blocks }
{
    let mut board = board_of(memory, disk, scratch, plan.stop_after);
    let Some((step, at, value)) = plan.arm else {
        return board;
    };
    board.arm(step, WordAt(at), value);
    board
}

/// How many calls of the disk were to fail, with those of one boot more. No memory has room for plans with more of them than
/// can be counted.
fn more_failing(failing: u64, fail: &[u64]) -> Result<u64, AllocError>
    ensures total { IfOk result (λ total. total ≡ failing + length fail.now) }
    ensures few { IfOk result (λ total. total + 1 < 2 ^ 64) }
{
    let total = failing.saturating_add(fail.len() as u64);
    if total == u64::MAX {
        return Err(AllocError);
    }
    Ok(total)
}

/// The disk, of which these calls from now are to fail.
fn failing_disk(disk: MemDisk, fail: &[u64]) -> Result<MemDisk, AllocError>
    requires calls { All (λ n. 1 ≤ n) fail.now }
    ensures rest { IfOk result (λ d. state_of d ≡ record (state_of disk) { failing = (state_of d).failing }) }
    ensures more { IfOk result (λ d. upcoming (state_of d).calls (state_of d).failing ≤ upcoming (state_of disk).calls (state_of disk).failing + length fail.now) }
{
    let mut disk = disk;
    for call in fail {
        disk.fail_call(*call)?;
    }
    Ok(disk)
}

/// The disk after a boot that ended so. Calls that were to fail do so no more, and where the machine stopped, pending blocks hold
/// what is chosen.
fn disk_after(disk: MemDisk, end: BootEnd, choice: DiskChoice) -> MemDisk
    ensures { IsDiskAfter end choice (state_of disk) (state_of result) }
{
    let mut disk = disk;
    disk.drop_fails();
    match end {
        BootEnd::Stopped => {
            disk.after_crash(choice);
            disk
        }
        BootEnd::Served => disk,
        BootEnd::BootFault => disk,
    }
}
