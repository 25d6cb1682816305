//! Cores over fresh memory and a fresh volume, in memory.

ghost use Rattle.std.specs.Prelude.{◌≡◌, ◌≢◌, ℕ, false, Some, IfOk};
ghost use Rattle.block_disk.specs.MemDisks.{contents_of, state_of};
ghost use Rattle.rio_base.specs.Shapes.{IsServed};
ghost use Rattle.rio_base.specs.Image.{AreImageSizes, image_pages};
ghost use Rattle.rio_model.specs.Fresh.{fresh_state};
ghost use Rattle.rio_model.specs.Held.{held_of};
ghost use Rattle.rio_model.specs.VolumeReads.{ReadsAs};
ghost use Rattle.rio_model.specs.VolumeReady.{Ready};
ghost use Rattle.test_servers.specs.FreshMachines.{IsFreshBelow, IsFreshDisk, IsFreshMemory};

use block_disk::MemDisk;
use board::Board;
use image_codec::{fresh_image, fresh_volume};
use line_loop::LineServer;
use page_cache::{CacheTables, PageCache};
use phys_memory::{Memory, memory_of};
use rio_base::{Blocks, Machine, Volume, VolumeShape};
use rio_core::Core;
use std::alloc::{AllocError, Global};

/// A machine in memory.
pub type MemBoard = Board<Memory, MemDisk>;

/// A disk with a fresh volume of this shape, of which no call is to fail. The error means that there was no room for it.
#[tactic(auto, using(pair_files::proofs::FreshVolumes::volume_long))]
pub fn fresh_disk(alloc: Global, shape: &VolumeShape) -> Result<MemDisk, AllocError>
    requires { IsServed shape.now }
    ensures fresh { IfOk result (λ d. IsFreshDisk shape.now (state_of d).blocks (state_of d).pending) }
    ensures unfailing { IfOk result (λ d. (contents_of (state_of d)).faults ≡ record { count = 0; limit = Some 0 }) }
{
    let words = fresh_volume(alloc, shape)?;
    MemDisk::from_words(alloc, &words)
}

/// A machine whose memory is a fresh image of so many frames and one page of scratch, over this disk.
fn fresh_board(alloc: Global, frames: u32, disk: MemDisk) -> Result<MemBoard, AllocError>
    requires { AreImageSizes frames 1 }
    ensures memory { IfOk result (λ m. IsFreshMemory frames (⟦<Board<Memory, MemDisk> as Machine>⟧.contents m) (⟦<Board<Memory, MemDisk> as Machine>⟧.run m)) }
    ensures disk { IfOk result (λ m. (⟦<Board<Memory, MemDisk> as Machine>⟧.contents m).disk ≡ (state_of disk).blocks) }
    ensures pending { IfOk result (λ m. (⟦<Board<Memory, MemDisk> as Machine>⟧.contents m).pending ≡ (state_of disk).pending) }
    ensures faults { IfOk result (λ m. (⟦<Board<Memory, MemDisk> as Machine>⟧.contents m).faults ≡ (contents_of (state_of disk)).faults) }
    ensures writes { IfOk result (λ m. (⟦<Board<Memory, MemDisk> as Machine>⟧.contents m).writes ≡ (contents_of (state_of disk)).writes) }
{
    let words = fresh_image(alloc, frames, 1)?;
    let mem = memory_of(alloc, &words)?;
    Ok(Board::new(mem, disk, 1, None))
}

/// A cache on such a machine, with no block in it. The disk has a fresh volume of this shape.
#[tactic(auto, using(crate::proofs::FreshMachineCaches::fresh_tables))]
fn fresh_cache(
    alloc: Global,
    frames: u32,
    shape: &VolumeShape,
    disk: MemDisk,
) -> Result<PageCache<MemBoard>, AllocError>
    requires frames { AreImageSizes frames 1 }
    requires shape { IsServed shape.now }
    requires disk { IsFreshDisk shape.now (state_of disk).blocks (state_of disk).pending }
    ensures sound { IfOk result (λ c. ⟦<PageCache<Board<Memory, MemDisk>> as Blocks>⟧.sound c) }
    ensures reads { IfOk result (λ c. ReadsAs shape.now (⟦<PageCache<Board<Memory, MemDisk>> as Blocks>⟧.seen c).words (fresh_state shape.now (image_pages frames 1) 1)) }
    ensures ready { IfOk result (λ c. Ready shape.now (⟦<PageCache<Board<Memory, MemDisk>> as Blocks>⟧.seen c) (⟦<PageCache<Board<Memory, MemDisk>> as Volume>⟧.kept c)) }
    ensures no_regions { IfOk result (λ c. (i : ℕ) → (held_of shape.now (⟦<PageCache<Board<Memory, MemDisk>> as Blocks>⟧.seen c).words i).kind ≢ 3) }
    ensures health { IfOk result (λ c. ⟦<PageCache<Board<Memory, MemDisk>> as Blocks>⟧.health c ≡ record { faults = (state_of disk).faults; stopped = false }) }
    ensures below { IfOk result (λ c. IsFreshBelow frames (contents_of (state_of disk)) (⟦<PageCache<Board<Memory, MemDisk>> as Volume>⟧.below c)) }
{
    let tables = CacheTables::new(alloc, frames, shape.blocks)?;
    let board = fresh_board(alloc, frames, disk)?;
    Ok(PageCache::start(board, tables))
}

/// A core that serves a fresh volume of this shape, which is on the disk, in memory of so many frames.
pub fn fresh_core(
    alloc: Global,
    frames: u32,
    shape: VolumeShape,
    disk: MemDisk,
) -> Result<Core<MemBoard>, AllocError>
    requires frames { AreImageSizes frames 1 }
    requires shape { IsServed shape }
    requires disk { IsFreshDisk shape (state_of disk).blocks (state_of disk).pending }
    ensures sound { IfOk result (λ core. ⟦<Core<Board<Memory, MemDisk>> as LineServer>⟧.sound core) }
    ensures holds { IfOk result (λ core. ⟦<Core<Board<Memory, MemDisk>> as LineServer>⟧.holds core (fresh_state shape (image_pages frames 1) 1)) }
    ensures health { IfOk result (λ core. ⟦<Core<Board<Memory, MemDisk>> as LineServer>⟧.health core ≡ record { faults = (state_of disk).faults; stopped = false }) }
    ensures below { IfOk result (λ core. IsFreshBelow frames (contents_of (state_of disk)) (⟦<Core<Board<Memory, MemDisk>> as LineServer>⟧.below core)) }
{
    let cache = fresh_cache(alloc, frames, &shape, disk)?;
    match Core::new(alloc, cache, shape) {
        Ok(core) => Ok(core),
        Err((cache, fail)) => {
            let (_, _) = cache.into_machine().into_parts();
            Err(fail)
        }
    }
}
