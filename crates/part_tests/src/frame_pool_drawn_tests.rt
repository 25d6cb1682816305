//! Drawn calls of the pool of frames, beside a plain pool that searches lists.

ghost use Rattle.std.specs.Prelude.{◌≡◌, ◌≢◌, ◌<◌, ◌≤◌, ℕ, Some, false, slice_index_or};
ghost use Rattle.frame_pool.specs.Pools.{NoneFree, block_of, blocks_in, frames_in, is_pinned, pins_in};

use crate::frame_pool_tests::full_pool;
use crate::same::same;
use frame_pool::FramePool;
use rio_base::Block;
use std::alloc::AllocError;

/// A pool without a free frame: the block of each frame, the frames in order of use, and which are pinned.
#[derive(Drop)]
struct Plain {
    held: [u32; 32],
    order: [u32; 32],
    pins: [bool; 32],
    /// How many frames are pinned.
    pinned: u32,
}

/// The plain pool whose frame k has block k, none pinned.
fn full_plain() -> Plain
    ensures pins { (j : ℕ) → j < 32 → slice_index_or result.pins j false ≡ false }
    ensures pinned { result.pinned ≡ 0 }
{
    let mut numbers = [0; 32];
    for k in 0..32 {
        numbers[k] = k as u32;
    }
    Plain {
        held: numbers,
        order: numbers,
        pins: [false; 32],
        pinned: 0,
    }
}

/// The first frame in the order that isn't pinned.
fn expected_victim(plain: &Plain) -> Option<u32> {
    for k in plain.order {
        if plain.pins.get(k as usize) == Some(&false) {
            return Some(k);
        }
    }
    None
}

/// The frame that has block `b`.
fn expected_frame(plain: &Plain, b: u32) -> Option<u32> {
    for k in 0..32 {
        if plain.held[k] == b {
            return Some(k as u32);
        }
    }
    None
}

/// Moves frame `k` to the end of the order.
fn use_last(plain: &mut Plain, k: u32)
    ensures pins { plain.new.pins ≡ plain.old.pins }
    ensures pinned { plain.new.pinned ≡ plain.old.pinned }
{
    for i in 1..32 {
        if plain.order[i - 1] == k {
            plain.order.swap(i - 1, i);
        }
    }
}

/// Gives the victim's frame to block `b`, which no frame has. Whether victims are as expected.
fn fetch(pool: &mut FramePool, plain: &mut Plain, b: u32) -> bool
    requires frames { frames_in pool.old ≡ 32 }
    requires blocks { blocks_in pool.old ≡ 64 }
    requires full { NoneFree pool.old }
    requires pins { (j : ℕ) → j < 32 → is_pinned pool.old j ≡ slice_index_or plain.old.pins j false }
    requires pins_in { pins_in pool.old ≡ plain.old.pinned }
    requires few { plain.old.pinned ≤ 17 }
    requires block { b < 64 }
    requires unbound { (j : ℕ) → j < 32 → block_of pool.old j ≢ Some b }
    ensures frames { frames_in pool.new ≡ 32 }
    ensures blocks { blocks_in pool.new ≡ 64 }
    ensures full { NoneFree pool.new }
    ensures pins { (j : ℕ) → j < 32 → is_pinned pool.new j ≡ slice_index_or plain.new.pins j false }
    ensures pins_in { pins_in pool.new ≡ plain.new.pinned }
    ensures few { plain.new.pinned ≤ 17 }
{
    let k = pool.victim();
    let expected = expected_victim(plain) == Some(k);
    pool.unbind(k);
    let freed = pool.victim() == k;
    pool.bind(k, Block(b));
    plain.held[k as usize] = b;
    use_last(plain, k);
    expected && freed
}

/// Pins frame `k`, or lets it go where it is pinned. No more than 17 frames are pinned.
fn turn_pin(pool: &mut FramePool, plain: &mut Plain, k: u32)
    requires frames { frames_in pool.old ≡ 32 }
    requires blocks { blocks_in pool.old ≡ 64 }
    requires full { NoneFree pool.old }
    requires pins { (j : ℕ) → j < 32 → is_pinned pool.old j ≡ slice_index_or plain.old.pins j false }
    requires pins_in { pins_in pool.old ≡ plain.old.pinned }
    requires few { plain.old.pinned ≤ 17 }
    requires within { k < 32 }
    ensures frames { frames_in pool.new ≡ 32 }
    ensures blocks { blocks_in pool.new ≡ 64 }
    ensures full { NoneFree pool.new }
    ensures pins { (j : ℕ) → j < 32 → is_pinned pool.new j ≡ slice_index_or plain.new.pins j false }
    ensures pins_in { pins_in pool.new ≡ plain.new.pinned }
    ensures few { plain.new.pinned ≤ 17 }
{
    if plain.pins[k as usize] {
        pool.unpin(k);
        plain.pins[k as usize] = false;
        plain.pinned -= 1;
    } else if plain.pinned < 17 {
        pool.pin(k);
        plain.pins[k as usize] = true;
        plain.pinned += 1;
    }
}

/// Makes what is drawn: block `b` is read, or its frame's pin is turned. Whether all is as expected.
fn step(pool: &mut FramePool, plain: &mut Plain, b: u32, pin: bool) -> bool
    requires frames { frames_in pool.old ≡ 32 }
    requires blocks { blocks_in pool.old ≡ 64 }
    requires full { NoneFree pool.old }
    requires pins { (j : ℕ) → j < 32 → is_pinned pool.old j ≡ slice_index_or plain.old.pins j false }
    requires pins_in { pins_in pool.old ≡ plain.old.pinned }
    requires few { plain.old.pinned ≤ 17 }
    requires block { b < 64 }
    ensures frames { frames_in pool.new ≡ 32 }
    ensures blocks { blocks_in pool.new ≡ 64 }
    ensures full { NoneFree pool.new }
    ensures pins { (j : ℕ) → j < 32 → is_pinned pool.new j ≡ slice_index_or plain.new.pins j false }
    ensures pins_in { pins_in pool.new ≡ plain.new.pinned }
    ensures few { plain.new.pinned ≤ 17 }
{
    let found = pool.find(Block(b));
    let expected = expected_frame(plain, b) == found;
    let Some(k) = found else {
        return expected && fetch(pool, plain, b);
    };
    if pin {
        turn_pin(pool, plain, k);
    } else {
        pool.use_slot(k);
        use_last(plain, k);
    }
    expected
}

/// The next number that is drawn.
fn draw(seed: &mut u64) -> u64 {
    *seed = seed
        .wrapping_mul(6364136223846793005)
        .wrapping_add(1442695040888963407);
    *seed >> 33
}

#[test]
fn drawn_calls_are_as_expected(rt: HostRuntime) -> Result<(), AllocError> {
    let mut pool = full_pool(rt.alloc())?;
    let mut plain = full_plain();
    let mut seed = 20;
    for drawn in 0..5000 {
        let b = (draw(&mut seed) % 64) as u32;
        let pin = draw(&mut seed) % 4 == 0;
        let expected = step(&mut pool, &mut plain, b, pin);
        same(&rt, "drawn calls", drawn, &expected, &true);
    }
    Ok(())
}
