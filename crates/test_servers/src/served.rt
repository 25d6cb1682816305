//! Cores of any size, served from lines in memory.

ghost use Rattle.std.specs.Prelude.{IfOk, IfSome};
ghost use Rattle.block_disk.specs.MemDisks.{state_of};
ghost use Rattle.rio_base.specs.Image.{AreImageSizes};
ghost use Rattle.rio_base.specs.Shapes.{IsServed};
ghost use Rattle.test_servers.specs.FreshMachines.{IsFreshDisk};

use crate::fresh_machine::{fresh_core, fresh_disk};
use block_disk::MemDisk;
use pair_serving::{ServeEnd, serve};
use rio_base::{Block, VolumeShape};
use std::alloc::{AllocError, Global};
use test_objects::{MemSink, MemSource};

/// A volume that is served, and the frames of the memory before it.
#[derive(Clone, Copy, Debug)]
pub struct Sizes {
    pub frames: u32,
    pub blocks: u32,
    pub inodes: u32,
}

/// The number, or the greatest of 32 bits where it is greater.
fn narrow(n: u64) -> u32 {
    u32::try_from(n).unwrap_or(u32::MAX)
}

impl Sizes {
    /// So many frames, blocks and inodes.
    pub fn of(frames: u64, blocks: u64, inodes: u64) -> Sizes {
        Sizes {
            frames: narrow(frames),
            blocks: narrow(blocks),
            inodes: narrow(inodes),
        }
    }
}

/// A block that the disk fails to read so many times, from the first read on.
#[derive(Clone, Copy, Debug)]
pub struct BadBlock {
    block: Block,
    reads: u64,
}

/// None: no read fails.
pub const NO_BAD_BLOCK: BadBlock = BadBlock {
    block: Block(0),
    reads: 0,
};

impl BadBlock {
    /// So many reads of block `b` fail.
    pub fn of(b: u64, reads: u64) -> BadBlock {
        BadBlock {
            block: Block(narrow(b)),
            reads,
        }
    }
}

/// Sizes that a machine with one page of scratch can have, and the volume on its disk.
#[derive(Clone, Copy, Debug)]
pub struct MachineSizes {
    pub frames: u32,
    pub shape: VolumeShape,
}

/// These sizes, where there can be such a machine.
pub fn checked(sizes: Sizes) -> Option<MachineSizes>
    ensures { IfSome result (λ found. AreImageSizes found.frames 1 × IsServed found.shape) }
{
    let Sizes {
        frames,
        blocks,
        inodes,
    } = sizes;
    if frames < 32 || 8192 < frames {
        return None;
    }
    if inodes < 32 || 32768 < inodes || inodes % 32 != 0 {
        return None;
    }
    if blocks < 3 + inodes / 32 || 32768 < blocks {
        return None;
    }
    Some(MachineSizes {
        frames,
        shape: VolumeShape {
            version: 1,
            blocks,
            inodes,
        },
    })
}

/// What a served run left.
#[derive(Drop)]
pub struct Served {
    pub end: ServeEnd,
    pub text: Vec<u8>,
    /// How many blocks were written to the disk.
    pub writes: u64,
}

/// A disk with a fresh volume, of which the first reads of a block fail.
fn disk_failing_at(alloc: Global, shape: &VolumeShape, bad: BadBlock) -> Result<MemDisk, AllocError>
    requires shape { IsServed shape.now }
    ensures { IfOk result (λ d. IsFreshDisk shape.now (state_of d).blocks (state_of d).pending) }
{
    let mut disk = fresh_disk(alloc, shape)?;
    disk.fail_reads(bad.block, bad.reads);
    Ok(disk)
}

/// Serves lines from a fresh volume on such a disk. They come in pieces of up to `most` bytes. An error is want of memory, or
/// sizes that no machine has.
pub fn serve_lines_of(
    alloc: Global,
    sizes: Sizes,
    bad: BadBlock,
    input: &[u8],
    most: usize,
) -> Result<Served, AllocError> {
    let Some(found) = checked(sizes) else {
        return Err(AllocError);
    };
    let mut source = MemSource::new(alloc, input, most.max(1))?;
    let mut sink = MemSink::new(alloc);
    let disk = disk_failing_at(alloc, &found.shape, bad)?;
    let mut core = fresh_core(alloc, found.frames, found.shape, disk)?;
    let end = serve(alloc, &mut core, &mut source, &mut sink);
    let (_, disk) = core.into_machine().into_parts();
    let text = Vec::from_slice(alloc, sink.bytes().as_slice())?;
    Ok(Served {
        end,
        text,
        writes: disk.writes(),
    })
}
