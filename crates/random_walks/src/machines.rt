//! Runs over fresh machines, of whose disks some calls fail.

ghost use Rattle.std.specs.Prelude.{IfOk};
ghost use Rattle.block_disk.specs.MemDisks.{state_of};
ghost use Rattle.rio_base.specs.Shapes.{IsServed};
ghost use Rattle.test_servers.specs.FreshMachines.{IsFreshDisk};

use crate::beside::Beside;
use crate::faults::walked;
use crate::walks::Run;
use block_disk::MemDisk;
use phys_memory::Memory;
use rio_base::{Machine, MemWords, VolumeShape, WordAt};
use std::alloc::{AllocError, Global};
use test_servers::{MemBoard, checked, fresh_core, fresh_disk};

/// How the lines of a run are made.
#[derive(Clone, Copy)]
pub struct How {
    /// Whether replies have to be the definition's.
    compares: bool,
    /// Each call of the disk fails whose number is a multiple of this one,
    each: u64,
    /// up to so many.
    most: u64,
    /// The place of a word of memory that is told afterwards.
    word: u64,
}

impl How {
    /// Replies have to be the definition's, over a disk of which these calls fail.
    pub fn over_failing(each: u64, most: u64) -> How {
        How {
            compares: true,
            each,
            most,
            word: 0,
        }
    }

    /// No call fails, and any reply may come. This word of memory is told afterwards.
    pub fn to_word(word: u64) -> How {
        How {
            compares: false,
            each: 0,
            most: 0,
            word,
        }
    }
}

/// What a machine left.
#[derive(Clone, Copy)]
pub struct Left {
    /// Where a wild store trapped.
    pub trapped: Option<WordAt>,
    /// A word of memory.
    pub word: u64,
}

/// A disk with a fresh volume, of which each call with a number that is a multiple of `each` fails, up to the `most`th of
/// them.
fn failing_disk(
    alloc: Global,
    shape: &VolumeShape,
    each: u64,
    most: u64,
) -> Result<MemDisk, AllocError>
    requires shape { IsServed shape.now }
    ensures { IfOk result (λ d. IsFreshDisk shape.now (state_of d).blocks (state_of d).pending) }
{
    let mut disk = fresh_disk(alloc, shape)?;
    for n in 1..most.saturating_add(1) {
        disk.fail_call(n.saturating_mul(each).max(1))?;
    }
    Ok(disk)
}

/// The word at a place of memory, or 0 where there is none.
fn word_at(memory: &Memory, at: u64) -> u64 {
    let at = u32::try_from(at).unwrap_or(u32::MAX);
    if at < memory.len() {
        return memory.load(WordAt(at));
    }
    0
}

/// What a machine left.
fn left_by(machine: MemBoard, word: u64) -> Left {
    let trapped = machine.trapped();
    let (memory, _) = machine.into_parts();
    Left {
        trapped,
        word: word_at(&memory, word),
    }
}

/// Makes the lines of a run of a core over a fresh volume.
pub fn run_over(
    alloc: Global,
    run: &Run,
    how: How,
    beside: &mut Beside,
) -> Result<Left, AllocError> {
    let Some(found) = checked(run.sizes) else {
        return Err(AllocError);
    };
    beside.begin(run.sizes, how.compares)?;
    let disk = failing_disk(alloc, &found.shape, how.each, how.most)?;
    let core = fresh_core(alloc, found.frames, found.shape, disk)?;
    Ok(left_by(walked(core, beside, run), how.word))
}
