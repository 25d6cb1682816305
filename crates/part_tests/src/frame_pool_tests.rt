//! Tests of the pool of frames.

ghost use Rattle.std.specs.Prelude.{◌≡◌, ◌≢◌, ◌<◌, ◌≤◌, ℕ, Some, None, IfOk, false, slice_index_or};
ghost use Rattle.frame_pool.specs.Pools.{NoneFree, block_of, blocks_in, frames_in, is_pinned, pins_in};

use crate::same::same;
use frame_pool::FramePool;
use rio_base::Block;
use std::alloc::{AllocError, Global};
use std::process::Abort;

/// Frames of the pools that are tested, and blocks.
const FRAMES: u32 = 32;

const BLOCKS: u32 = 64;

/// A pool whose frame k has block k, none pinned. Frame 0 was used least recently.
pub fn full_pool(alloc: Global) -> Result<FramePool, AllocError>
    ensures frames { IfOk result (λ p. frames_in p ≡ 32) }
    ensures blocks { IfOk result (λ p. blocks_in p ≡ 64) }
    ensures full { IfOk result NoneFree }
    ensures held { IfOk result (λ p. (k : ℕ) → k < 32 → block_of p k ≡ Some k) }
    ensures pins { IfOk result (λ p. (k : ℕ) → is_pinned p k ≡ false) }
    ensures pins_in { IfOk result (λ p. pins_in p ≡ 0) }
{
    let mut pool = FramePool::new(alloc, FRAMES, BLOCKS)?;
    for k in 0..FRAMES {
        pool.bind(k, Block(k));
    }
    Ok(pool)
}

/// Frames are told as tests expect them.
fn told(rt: &impl Abort, table: &str, victims: [u32; 3], found: [Option<u32>; 2], due: [u32; 5]) {
    let [first, second, third] = victims;
    let [one, other] = found;
    let came = [
        first,
        second,
        third,
        one.unwrap_or(NONE),
        other.unwrap_or(NONE),
    ];
    same(rt, table, 0, &came, &due);
}

/// That a block has no frame, where frames are told.
const NONE: u32 = 99;

#[test]
fn victims_go_by_use_and_pins(rt: HostRuntime) -> Result<(), AllocError> {
    let mut pool = full_pool(rt.alloc())?;
    pool.use_slot(0);
    pool.pin(1);
    let pinned = pool.victim();
    pool.unpin(1);
    let unpinned = pool.victim();
    pool.unbind(9);
    let victims = [pinned, unpinned, pool.victim()];
    let found = [pool.find(Block(9)), pool.find(Block(10))];
    told(&rt, "use and pins", victims, found, [2, 1, 9, NONE, 10]);
    Ok(())
}

#[test]
fn new_frames_are_free_in_order_of_their_numbers(rt: HostRuntime) -> Result<(), AllocError> {
    let mut pool = FramePool::new(rt.alloc(), FRAMES, BLOCKS)?;
    let none = pool.find(Block(63)).unwrap_or(NONE);
    let first = pool.victim();
    pool.bind(0, Block(63));
    let victims = [none, first, pool.victim()];
    let found = [pool.find(Block(63)), pool.find(Block(0))];
    told(&rt, "new frames", victims, found, [NONE, 0, 1, 0, NONE]);
    Ok(())
}

#[test]
fn frames_that_were_unbound_are_used_first(rt: HostRuntime) -> Result<(), AllocError> {
    let mut pool = full_pool(rt.alloc())?;
    pool.pin(0);
    pool.unbind(4);
    pool.unbind(31);
    let last_unbound = pool.victim();
    pool.bind(31, Block(40));
    let first_unbound = pool.victim();
    pool.bind(4, Block(31));
    let victims = [last_unbound, first_unbound, pool.victim()];
    let found = [pool.find(Block(31)), pool.find(Block(4))];
    told(&rt, "unbound frames", victims, found, [31, 4, 1, 4, NONE]);
    Ok(())
}
