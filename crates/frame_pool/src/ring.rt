//! The order of use: frames linked to a ring, which begins and ends at the knot.

ghost use Rattle.std.specs.Prelude.{◌≡◌, ◌<◌, ◌≤◌, ◌+◌, ◌++◌, ◌∷◌, [], ℕ, List, length};
ghost use Rattle.std.specs.List.{range_with_len};
ghost use Rattle.frame_pool.specs.Frames.{older_at, order_at, younger_at};
ghost use Rattle.frame_pool.specs.Orders.{freed_first, used_last, without};
ghost use Rattle.frame_pool.specs.Rings.{HasEachOnce, IsOut, IsRing, IsRingOf, Joins, KeepsFrames};

use crate::frame::Frame;

/// Links frame `b` behind frame `a`.
fn join(frames: &mut [Frame], a: u32, b: u32)
    requires first { a < length frames.old }
    requires second { b < length frames.old }
    ensures joins { Joins a b (older_at frames.old) (younger_at frames.old) (older_at frames.new) (younger_at frames.new) }
    ensures same { KeepsFrames frames.old frames.new }
{
    frames[a as usize].younger = b;
    frames[b as usize].older = a;
}

/// Takes frame `k` out of the ring.
fn take_out(frames: &mut [Frame], k: u32)
    requires within { k < length frames.old }
    requires older { older_at frames.old k < length frames.old }
    requires younger { younger_at frames.old k < length frames.old }
    ensures out { (n : ℕ) → IsRing frames.old n → HasEachOnce (order_at frames.old n) n → k < n → IsOut frames.new n k (without k (order_at frames.old n)) }
    ensures same { KeepsFrames frames.old frames.new }
{
    let Frame { older, younger, .. } = frames[k as usize];
    join(frames, older, younger);
}

/// Puts frame `k`, which is out of the ring, to the young end.
fn put_last(frames: &mut [Frame], knot: u32, k: u32)
    requires size { length frames.old ≡ knot + 1 }
    requires within { k < knot }
    requires youngest { older_at frames.old knot ≤ knot }
    ensures ring { (xs : List ℕ) → IsOut frames.old knot k xs → IsRingOf frames.new knot (xs ++ (k ∷ [])) }
    ensures same { KeepsFrames frames.old frames.new }
{
    let last = frames[knot as usize].older;
    join(frames, last, k);
    join(frames, k, knot);
}

/// Puts frame `k`, which is out of the ring, to the old end.
fn put_first(frames: &mut [Frame], knot: u32, k: u32)
    requires size { length frames.old ≡ knot + 1 }
    requires within { k < knot }
    requires oldest { younger_at frames.old knot ≤ knot }
    ensures ring { (xs : List ℕ) → IsOut frames.old knot k xs → IsRingOf frames.new knot (k ∷ xs) }
    ensures same { KeepsFrames frames.old frames.new }
{
    let first = frames[knot as usize].younger;
    join(frames, knot, k);
    join(frames, k, first);
}

/// Moves frame `k` to the young end.
#[tactic(auto, using(crate::proofs::Moves::older_near, crate::proofs::Moves::younger_near))]
pub fn move_last(frames: &mut [Frame], knot: u32, k: u32)
    requires size { length frames.old ≡ knot + 1 }
    requires ring { IsRing frames.old knot }
    requires once { HasEachOnce (order_at frames.old knot) knot }
    requires within { k < knot }
    ensures ring { IsRingOf frames.new knot (used_last k (order_at frames.old knot)) }
    ensures same { KeepsFrames frames.old frames.new }
{
    take_out(frames, k);
    put_last(frames, knot, k);
}

/// Moves frame `k` to the old end.
#[tactic(auto, using(crate::proofs::Moves::older_near, crate::proofs::Moves::younger_near))]
pub fn move_first(frames: &mut [Frame], knot: u32, k: u32)
    requires size { length frames.old ≡ knot + 1 }
    requires ring { IsRing frames.old knot }
    requires once { HasEachOnce (order_at frames.old knot) knot }
    requires within { k < knot }
    ensures ring { IsRingOf frames.new knot (freed_first k (order_at frames.old knot)) }
    ensures same { KeepsFrames frames.old frames.new }
{
    take_out(frames, k);
    put_first(frames, knot, k);
}

/// Links the frames to a ring, in order of their numbers.
pub fn link_all(frames: &mut [Frame], knot: u32)
    requires size { length frames.old ≡ knot + 1 }
    ensures ring { IsRingOf frames.new knot (range_with_len 0 knot) }
    ensures same { KeepsFrames frames.old frames.new }
{
    for k in 0..knot {
        join(frames, k, k + 1);
    }
    join(frames, knot, 0);
}
