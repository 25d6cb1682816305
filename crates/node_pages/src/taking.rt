//! The free blocks that a node takes.

ghost use Rattle.std.specs.Prelude.{◌≡◌, ◌<◌, ◌≤◌, ◌++◌, ◌&&◌, ◌∷◌, [], ℕ, if◌then◌else◌, length, nat_lt, not, slice_index, take, IfOk, OnOk, IsErrOf};
ghost use Rattle.std.specs.List.{filter};
ghost use Rattle.rio_base.specs.Bitmap.{free_blocks};
ghost use Rattle.rio_base.specs.Blocks.{EndsBy};
ghost use Rattle.rio_model.specs.Placed.{IsFree, volume_layout};
ghost use Rattle.rio_model.specs.VolumeReady.{Ready};
ghost use Rattle.block_alloc.specs.Bitmap.{numbers};
ghost use Rattle.node_pages.specs.Changes.{Apart, free_beside, is_among};
ghost use Rattle.node_pages.specs.LookingUp.{LooksUp};

use crate::failures::SizeFail;
use block_alloc::{TakeFail, take};
use rio_base::{Block, BlockList, Volume, VolumeShape};
use std::alloc::{AllocError, Global};

impl From<TakeFail> for SizeFail {
    ghost use Rattle.node_pages.specs.Failures.{size_of_take};

    ghost from_gives = { λ fail made. made ≡ size_of_take fail };

    fn from(fail: TakeFail) -> SizeFail {
        match fail {
            TakeFail::NoSpace => SizeFail::NoSpace,
            TakeFail::Fault => SizeFail::Fault,
            TakeFail::Stopped => SizeFail::Stopped,
            TakeFail::Memory => SizeFail::Memory,
        }
    }
}

/// Chooses the `n` lowest free blocks, and changes nothing.
pub fn take_lowest<V: Volume>(
    alloc: Global,
    v: &mut V,
    shape: &VolumeShape,
    n: u32,
) -> Result<BlockList, SizeFail>
    requires sound { V.sound v.old }
    requires ready { Ready shape.now (V.seen v.old) (V.kept v.old) }
    ensures value { IfOk result (λ blocks. numbers blocks ≡ take n (free_blocks shape.now (V.seen v.old).words)) }
    ensures count { IfOk result (λ blocks. length blocks ≡ n) }
    ensures free { IfOk result (λ blocks. (t : ℕ) → t < length blocks → IsFree (volume_layout shape.now (V.seen v.old).words) (slice_index (numbers blocks) t)) }
    ensures apart { IfOk result (λ blocks. Apart (numbers blocks)) }
    ensures room { OnOk result (n ≤ length (free_blocks shape.now (V.seen v.old).words)) }
    ensures no_space { IsErrOf result SizeFail.NoSpace → length (free_blocks shape.now (V.seen v.old).words) < n }
    ensures small { IsErrOf result SizeFail.TooLarge → ⊥ }
    ensures looks { LooksUp shape.now (V.seen v.old) (V.seen v.new) }
    ensures passes { V.passes v.old v.new }
    ensures ends { EndsBy (V.health v.old) (V.health v.new) (IsErrOf result SizeFail.Fault) (IsErrOf result SizeFail.Stopped) }
    ensures sound { V.sound v.new }
{
    let blocks = take(alloc, v, shape, n)?;
    Ok(blocks)
}

/// Whether a block is one of these.
fn is_among(blocks: &[Block], b: Block) -> bool
    ensures { result ≡ is_among (numbers blocks.now) b.0 }
{
    for k in 0..blocks.len() {
        if blocks[k].0 == b.0 {
            return true;
        }
    }
    false
}

/// Pushes a block that is none of `skip`, where fewer than `n` are there.
fn push_left(left: &mut Vec<Block>, b: Block, skip: &[Block], n: usize) -> Result<(), AllocError>
    ensures { OnOk result (numbers left.new.items ≡ numbers left.old.items ++ (if nat_lt (length left.old.items) n && not (is_among (numbers skip.now) b.0) then b.0 ∷ [] else [])) }
{
    if left.len() >= n {
        return Ok(());
    }
    if is_among(skip, b) {
        return Ok(());
    }
    left.push(b)?;
    Ok(())
}

/// The first `n` of these blocks that are none of `skip`.
fn leave_out(
    alloc: Global,
    blocks: &[Block],
    skip: &[Block],
    n: usize,
) -> Result<BlockList, AllocError>
    ensures { IfOk result (λ left. numbers left ≡ take n (filter (λ b. not (is_among (numbers skip.now) b)) (numbers blocks.now))) }
{
    let mut left = Vec::new(alloc);
    for t in 0..blocks.len() {
        push_left(&mut left, blocks[t], skip, n)?;
    }
    Ok(BlockList::from(left))
}

/// Chooses the `n` lowest free blocks that are none of `skip`, which are free and of which none is there twice.
pub fn take_beside<V: Volume>(
    alloc: Global,
    v: &mut V,
    shape: &VolumeShape,
    n: u32,
    skip: &BlockList,
) -> Result<BlockList, SizeFail>
    requires sound { V.sound v.old }
    requires ready { Ready shape.now (V.seen v.old) (V.kept v.old) }
    requires few { n ≤ 4096 }
    requires skip { (t : ℕ) → t < length skip.now → IsFree (volume_layout shape.now (V.seen v.old).words) (slice_index (numbers skip.now) t) }
    requires once { Apart (numbers skip.now) }
    ensures value { IfOk result (λ blocks. numbers blocks ≡ take n (free_beside shape.now (V.seen v.old).words (numbers skip.now))) }
    ensures room { OnOk result (n ≤ length (free_beside shape.now (V.seen v.old).words (numbers skip.now))) }
    ensures no_space { IsErrOf result SizeFail.NoSpace → length (free_beside shape.now (V.seen v.old).words (numbers skip.now)) < n }
    ensures small { IsErrOf result SizeFail.TooLarge → ⊥ }
    ensures looks { LooksUp shape.now (V.seen v.old) (V.seen v.new) }
    ensures passes { V.passes v.old v.new }
    ensures ends { EndsBy (V.health v.old) (V.health v.new) (IsErrOf result SizeFail.Fault) (IsErrOf result SizeFail.Stopped) }
    ensures sound { V.sound v.new }
{
    let away = skip.as_slice();
    let all = take_lowest(alloc, v, shape, n + away.len() as u32)?;
    Ok(leave_out(alloc, all.as_slice(), away, n as usize)?)
}
