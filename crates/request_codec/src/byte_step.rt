//! A byte looked for by one comparison of vectors.

ghost use Rattle.std.specs.Prelude.{◌+◌, ◌≤◌, length};
ghost use Rattle.memchr.specs.Find.{IsFirst, Passes, is_byte};

use std::simd::prelude::*;

/// How many bytes are looked at together: most parts of a line are shorter.
pub(crate) const WIDE: usize = 32;

/// The place of the first such byte among the `N` bytes from `at` on, at most 64.
#[inline(always)]
pub(crate) fn first_of<const N: usize>(byte: u8, bytes: &[u8], at: usize) -> Option<usize>
    requires few { N ≤ 64 }
    requires within { at + N ≤ length bytes.now }
    ensures { IsFirst (Passes (is_byte byte) bytes.now) at (at + N) result }
{
    let places = Simd::<u8, N>::from_slice(&bytes[at..])
        .simd_eq(Simd::splat(byte))
        .to_bitmask();
    if places == 0 {
        return None;
    }
    Some(at + places.trailing_zeros() as usize)
}
