//! Where a byte stands first in a text that has none of it in front.

ghost use Rattle.std.specs.Prelude.{◌+◌, ◌<◌, ◌≤◌, ℕ, length, slice_index, IsTrue, MatchOption};
ghost use Rattle.memchr.specs.Find.{IsFirstByte, NoneBefore, Nowhere, Passes, is_byte};
ghost use Rattle.request_codec.specs.Fronts.{AreLeast};

use crate::byte_step::{WIDE, first_of};
use crate::lanes::lesser;
use std::simd::prelude::*;

/// How many bytes are looked at step by step before runs are passed over: most lines end there.
const FEW: usize = 160;

/// How many bytes a run has.
const RUN: usize = 256;

/// The place of the first such byte, where it isn't one of the first 32.
pub fn first_behind(byte: u8, bytes: &[u8]) -> Option<usize>
    requires wide { 32 ≤ length bytes.now }
    requires passed { Nowhere (Passes (is_byte byte) bytes.now) 0 32 }
    ensures { IsFirstByte (is_byte byte) bytes.now result }
{
    let few = bytes.len().min(FEW);
    if let Some(at) = first_within(byte, bytes, WIDE, few) {
        return Some(at);
    }
    let far = pass_larger(byte, bytes, few);
    first_within(byte, bytes, far, bytes.len())
}

/// The place of the first such byte, where it isn't before `from` and is before `to`. The last step may begin before `from`.
#[inline(always)]
fn first_within(byte: u8, bytes: &[u8], from: usize, to: usize) -> Option<usize>
    requires order { from ≤ to }
    requires wide { 32 ≤ to }
    requires within { to ≤ length bytes.now }
    requires passed { Nowhere (Passes (is_byte byte) bytes.now) 0 from }
    ensures { MatchOption result (Nowhere (Passes (is_byte byte) bytes.now) 0 to) (λ at. NoneBefore (Passes (is_byte byte) bytes.now) 0 (length bytes.now) at × Passes (is_byte byte) bytes.now at) }
{
    let mut at = from;
    'steps: while to - at >= WIDE {
        if let Some(found) = first_of::<WIDE>(byte, bytes, at) {
            return Some(found);
        }
        at += WIDE;
    }
    first_of::<WIDE>(byte, bytes, to - WIDE)
}

/// Passes over runs whose bytes are all larger, as those of a line are larger than its end, and answers where it stopped.
/// A run takes one comparison, of the least of its bytes.
fn pass_larger(byte: u8, bytes: &[u8], from: usize) -> usize
    requires within { from ≤ length bytes.now }
    requires passed { Nowhere (Passes (is_byte byte) bytes.now) 0 from }
    ensures within { result ≤ length bytes.now }
    ensures passed { Nowhere (Passes (is_byte byte) bytes.now) 0 result }
{
    let mut at = from;
    'runs: while bytes.len() - at >= RUN {
        if !are_larger(byte, least_of_run(bytes, at)) {
            return at;
        }
        at += RUN;
    }
    at
}

/// Whether each of these is larger than the byte.
#[inline(always)]
fn are_larger(byte: u8, least: u8x32) -> bool
    ensures { IsTrue result → (j : ℕ) → j < 32 → byte < slice_index least j }
{
    least.simd_le(u8x32::splat(byte)).to_bitmask() == 0
}

/// The least of the bytes of a run that lie 32 places or a multiple apart.
#[inline(always)]
fn least_of_run(bytes: &[u8], at: usize) -> u8x32
    requires { at + 256 ≤ length bytes.now }
    ensures { AreLeast result bytes.now at 256 }
{
    lesser(least_of_half(bytes, at), least_of_half(bytes, at + 128))
}

/// The least of the bytes of half a run that lie 32 places or a multiple apart.
#[inline(always)]
fn least_of_half(bytes: &[u8], at: usize) -> u8x32
    requires { at + 128 ≤ length bytes.now }
    ensures { AreLeast result bytes.now at 128 }
{
    lesser(
        least_of_quarter(bytes, at),
        least_of_quarter(bytes, at + 64),
    )
}

/// The least of the bytes of a quarter of a run that lie 32 places or a multiple apart.
#[inline(always)]
fn least_of_quarter(bytes: &[u8], at: usize) -> u8x32
    requires { at + 64 ≤ length bytes.now }
    ensures { AreLeast result bytes.now at 64 }
{
    let front = u8x32::from_slice(&bytes[at..]);
    let back = u8x32::from_slice(&bytes[at + 32..]);
    lesser(front, back)
}
