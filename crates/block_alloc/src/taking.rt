//! The lowest free blocks.

ghost use Rattle.std.specs.Prelude.{◌≡◌, ◌-◌, ◌<◌, ◌≤◌, ◌++◌, None, IfOk, OnOk, IsErrOf, length, take};
ghost use Rattle.rio_base.specs.Frames.{CanRead, HasRead, LooksShaped};
ghost use Rattle.rio_base.specs.Bitmap.{free_blocks};
ghost use Rattle.rio_base.specs.Blocks.{Caches};
ghost use Rattle.rio_base.specs.Shapes.{HasShape};
ghost use Rattle.block_alloc.specs.Bitmap.{numbers, handed};
ghost use Rattle.block_alloc.specs.Words.{set_bits};

use crate::words::{RUN_WORDS, free_bits};
use rio_base::{Block, BlockList, Blocks, VolFail, VolumeShape};
use std::alloc::{AllocError, AllocFailed, Global};
use thiserror::Error;

/// Why no blocks were taken.
#[derive(Debug, Drop, PartialEq, Eq, Error)]
pub enum TakeFail {
    /// Fewer blocks are free.
    #[error("fewer blocks are free")]
    NoSpace,
    /// The disk failed in this call.
    #[error("the disk failed")]
    Fault,
    /// The machine is stopped.
    #[error("the machine is stopped")]
    Stopped,
    /// No memory was left for the list.
    #[error("out of memory")]
    Memory,
}

impl From<VolFail> for TakeFail {
    ghost from_gives = { λ fail made. made ≡ handed fail };

    fn from(fail: VolFail) -> TakeFail {
        match fail {
            VolFail::Fault => TakeFail::Fault,
            VolFail::Stopped => TakeFail::Stopped,
        }
    }
}

impl From<AllocError> for TakeFail {
    ghost use Rattle.block_alloc.specs.declared.taking.TakeFail.TheVariants.{Memory as NoMemory};

    ghost from_gives = { λ fail made. made ≡ NoMemory };

    fn from(_fail: AllocError) -> TakeFail {
        TakeFail::Memory
    }
}

impl<T: Drop> From<AllocFailed<T>> for TakeFail {
    ghost use Rattle.block_alloc.specs.declared.taking.TakeFail.TheVariants.{Memory as NoMemory};

    ghost from_gives = { λ fail made. made ≡ NoMemory };

    fn from(_fail: AllocFailed<T>) -> TakeFail {
        TakeFail::Memory
    }
}

/// Pushes the blocks of a word's bits that are 1, lowest first, until there are `n` blocks. Bit 0 is block `first`.
fn push_free(found: &mut Vec<Block>, free: u64, first: u32, n: usize) -> Result<(), AllocError>
    requires { first ≤ 32768 }
    ensures { OnOk result (numbers found.new.items ≡ numbers found.old.items ++ take (n - length found.old.items) (set_bits free first)) }
{
    let mut rest = free;
    while rest != 0 && found.len() < n {
        let place = rest.trailing_zeros();
        found.push(Block(first + place))?;
        rest &= !(1 << place);
    }
    Ok(())
}

/// Chooses the `n` lowest free blocks, lowest first, and changes nothing. `NoSpace` comes exactly where fewer are free;
/// `Fault` and `Stopped` are those of reading the bitmap; `Memory` is that of the list.
pub fn take<V: Blocks>(
    alloc: Global,
    v: &mut V,
    shape: &VolumeShape,
    n: u32,
) -> Result<BlockList, TakeFail>
    requires can { CanRead V.seen V.sound (HasShape shape.now) v.old }
    ensures value { IfOk result (λ blocks. numbers blocks ≡ take n (free_blocks shape.now (V.seen v.old).words)) }
    ensures room { OnOk result (n ≤ length (free_blocks shape.now (V.seen v.old).words)) }
    ensures no_space { IsErrOf result TakeFail.NoSpace → length (free_blocks shape.now (V.seen v.old).words) < n }
    ensures read { HasRead V.seen V.health V.sound V.passes (LooksShaped shape.now) v.old v.new (IsErrOf result TakeFail.Fault) (IsErrOf result TakeFail.Stopped) }
    ensures caches { Caches (V.seen v.old) (V.seen v.new) 1 None }
{
    let words = shape.blocks.div_ceil(64);
    let mut run = [0; RUN_WORDS];
    let mut found = Vec::new(alloc);
    let mut w = 0;
    while w < words && found.len() < n as usize {
        let free = free_bits(v, shape, w, &mut run)?;
        push_free(&mut found, free, 64 * w, n as usize)?;
        w += 1;
    }
    if found.len() < n as usize {
        return Err(TakeFail::NoSpace);
    }
    Ok(BlockList::from(found))
}
