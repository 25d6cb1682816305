//! What there is on the volume that a run of boots left, counted.

ghost use Rattle.std.specs.Prelude.{◌≡◌, ◌≤◌, ℕ, IfOk, None, false, length};
ghost use Rattle.std.specs.FinMap.{get};
ghost use Rattle.block_disk.specs.MemDisks.{state_of};
ghost use Rattle.phys_memory.specs.PhysMem.{words_of};
ghost use Rattle.rio_base.specs.Blocks.{Ends, Looks};
ghost use Rattle.rio_base.specs.Layout.{IsIno};
ghost use Rattle.rio_base.specs.Shapes.{HasShape};
ghost use Rattle.rio_model.specs.declared.state.State.{State};
ghost use Rattle.rio_model.specs.Censuses.{IsCensus};
ghost use Rattle.rio_model.specs.Sizes.{largest_size};
ghost use Rattle.rio_model.specs.Standing.{StandsFor};
ghost use Rattle.rio_model.specs.VolumeReads.{ReadsAs};
ghost use Rattle.boots.specs.Legal.{bytes_in, file_bytes};
ghost use Rattle.boots.specs.Parts.{NeverFails, PartsStand};

use crate::parts::{Parts, board_of};
use inode_table::read_inode;
use registry::CoverView;
use rio_base::{Blocks, FILE, Ino, Machine, VolFail, VolumeShape};
use rio_model::Census;
use std::alloc::{AllocError, Global};
use warm_reboot::{BootError, BootFail, examine};

/// The counts of a volume.
#[derive(Clone, Copy)]
pub struct VolumeCounts {
    /// Its nodes and blocks.
    pub census: Census,
    /// The sum of its files' sizes.
    pub bytes: u64,
}

/// Counts what there is on memory and disk, of which so many pages are scratch.
pub fn count_parts(alloc: Global, scratch: u32, parts: Parts) -> Result<VolumeCounts, AllocError>
    requires stand { (s : State) × PartsStand (words_of parts.memory) (state_of parts.disk) scratch parts.failing s }
    ensures counts { IfOk result (λ c. (s : State) → PartsStand (words_of parts.memory) (state_of parts.disk) scratch parts.failing s → IsCensus s c.census × (c.bytes ≡ file_bytes s)) }
{
    let Parts {
        memory,
        disk,
        failing: _,
    } = parts;
    let counts = count_machine(alloc, board_of(memory, disk, scratch, None))?;
    Ok(counts)
}

/// Counts what there is on a machine whose disk does not fail.
fn count_machine<M: Machine + Drop>(alloc: Global, machine: M) -> Result<VolumeCounts, AllocError>
    requires closed { (M.contents machine).open_page ≡ None }
    requires running { (M.run machine).stopped ≡ false }
    requires never { NeverFails (M.contents machine).faults }
    requires standing { (s : State) × StandsFor (M.contents machine) (length (M.run machine).scratch) s }
    ensures counts { IfOk result (λ c. (s : State) → StandsFor (M.contents machine) (length (M.run machine).scratch) s → IsCensus s c.census × (c.bytes ≡ file_bytes s)) }
{
    match examine(alloc, machine) {
        Ok((machine, census)) => {
            let bytes = sum_machine(alloc, machine, &census.shape)?;
            Ok(VolumeCounts { census, bytes })
        }
        Err(BootError { machine: _, fail }) => match fail {
            BootFail::Memory => Err(AllocError),
            _ => unreachable!(),
        },
    }
}

/// The sum of the sizes of the files on a machine's volume, which has this shape. The disk does not fail.
fn sum_machine<M: Machine + Drop>(
    alloc: Global,
    machine: M,
    shape: &VolumeShape,
) -> Result<u64, AllocError>
    requires closed { (M.contents machine).open_page ≡ None }
    requires running { (M.run machine).stopped ≡ false }
    requires never { NeverFails (M.contents machine).faults }
    requires standing { (s : State) × StandsFor (M.contents machine) (length (M.run machine).scratch) s × (shape.now ≡ s.shape) }
    ensures bytes { IfOk result (λ n. (s : State) → StandsFor (M.contents machine) (length (M.run machine).scratch) s → n ≡ file_bytes s) }
{
    let mut view = match CoverView::new(alloc, machine) {
        Ok(view) => view,
        Err((_, error)) => return Err(error),
    };
    let bytes = sum_files(&mut view, shape);
    let _ = view.into_machine();
    match bytes {
        Ok(bytes) => Ok(bytes),
        Err(_) => unreachable!(),
    }
}

/// The sum of the sizes of all files.
fn sum_files<V: Blocks>(v: &mut V, shape: &VolumeShape) -> Result<u64, VolFail>
    requires sound { V.sound v.old }
    requires shape { HasShape shape.now (V.seen v.old) }
    requires reads { (s : State) × ReadsAs shape.now (V.seen v.old).words s }
    ensures bytes { IfOk result (λ n. (s : State) → ReadsAs shape.now (V.seen v.old).words s → n ≡ file_bytes s) }
    ensures passes { V.passes v.old v.new }
    ensures ends { Ends (V.health v.old) (V.health v.new) result }
{
    let mut sum = 0;
    for k in 0..shape.inodes {
        sum += file_size(v, shape, Ino(k + 1))?;
    }
    Ok(sum)
}

/// The size of an inode that is a file, and 0 of another.
fn file_size<V: Blocks>(v: &mut V, shape: &VolumeShape, i: Ino) -> Result<u64, VolFail>
    requires sound { V.sound v.old }
    requires shape { HasShape shape.now (V.seen v.old) }
    requires reads { (s : State) × ReadsAs shape.now (V.seen v.old).words s }
    requires ino { IsIno shape.now i.0 }
    ensures size { IfOk result (λ n. (s : State) → ReadsAs shape.now (V.seen v.old).words s → n ≡ bytes_in (get s.nodes i.0)) }
    ensures most { IfOk result (λ n. n ≤ largest_size) }
    ensures looks { Looks (V.seen v.old) (V.seen v.new) }
    ensures shape { HasShape shape.now (V.seen v.new) }
    ensures passes { V.passes v.old v.new }
    ensures ends { Ends (V.health v.old) (V.health v.new) result }
    ensures sound { V.sound v.new }
{
    let inode = read_inode(v, shape, i)?;
    if inode.kind != FILE {
        return Ok(0);
    }
    Ok(inode.size)
}
