//! Memory and a disk with a fresh volume, before the first boot.

ghost use Rattle.std.specs.Prelude.{◌≡◌, ◌*◌, IfOk, length};
ghost use Rattle.block_disk.specs.MemDisks.{state_of, words_state};
ghost use Rattle.phys_memory.specs.PhysMem.{words_of};
ghost use Rattle.rio_base.specs.Image.{AreImageSizes, image_pages};
ghost use Rattle.rio_base.specs.Shapes.{IsServed};
ghost use Rattle.rio_model.specs.Fresh.{fresh_state};
ghost use Rattle.image_codec.specs.Volume.{fresh_volume_words};
ghost use Rattle.boots.specs.Parts.{IsFreshDisk, PartsStand};

use crate::parts::Parts;
use block_disk::MemDisk;
use image_codec::{fresh_image, fresh_volume};
use phys_memory::memory_of;
use rio_base::VolumeShape;
use std::alloc::{AllocError, Global};

/// Memory with no cached page, and a disk with a fresh volume of this shape.
pub fn format_parts(
    alloc: Global,
    frames: u32,
    scratch: u32,
    shape: &VolumeShape,
) -> Result<Parts, AllocError>
    requires memory { AreImageSizes frames scratch }
    requires volume { IsServed shape.now }
    ensures stand { IfOk result (λ parts. PartsStand (words_of parts.memory) (state_of parts.disk) scratch parts.failing (fresh_state shape.now (image_pages frames scratch) scratch)) }
    ensures words { IfOk result (λ parts. length (words_of parts.memory) ≡ 512 * image_pages frames scratch) }
{
    let disk = fresh_disk(alloc, shape)?;
    let words = fresh_image(alloc, frames, scratch)?;
    let memory = memory_of(alloc, &words)?;
    Ok(Parts {
        memory,
        disk,
        failing: 0,
    })
}

/// A disk with a fresh volume of this shape.
#[tactic(auto, using(pair_files::proofs::FreshVolumes::volume_long))]
fn fresh_disk(alloc: Global, shape: &VolumeShape) -> Result<MemDisk, AllocError>
    requires { IsServed shape.now }
    ensures fresh { IfOk result (λ d. IsFreshDisk shape.now (state_of d).blocks (state_of d).pending) }
    ensures made { IfOk result (λ d. state_of d ≡ words_state (fresh_volume_words shape.now.blocks shape.now.inodes)) }
{
    let words = fresh_volume(alloc, shape)?;
    MemDisk::from_words(alloc, &words)
}
