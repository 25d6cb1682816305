//! Vectors of 32 bytes, lane by lane.

ghost use Rattle.std.specs.Prelude.{◌≡◌, ◌<◌, ℕ, length, min, max, slice_index};

use std::simd::prelude::*;

/// The lesser byte of each lane.
#[inline(always)]
pub(crate) fn lesser(a: u8x32, b: u8x32) -> u8x32
    ensures lanes { length result ≡ 32 }
    ensures each { (j : ℕ) → j < 32 → slice_index result j ≡ min (slice_index a j) (slice_index b j) }
{
    a.simd_min(b)
}

/// The larger byte of each lane.
#[inline(always)]
pub(crate) fn larger(a: u8x32, b: u8x32) -> u8x32
    ensures lanes { length result ≡ 32 }
    ensures each { (j : ℕ) → j < 32 → slice_index result j ≡ max (slice_index a j) (slice_index b j) }
{
    a.simd_max(b)
}
