//! Runs of hexadecimal digits, decoded by vectors with no branch that depends on them.

ghost use Rattle.std.specs.Prelude.{◌≡◌, ◌≤◌, ◌<◌, ◌+◌, ◌*◌, ◌%◌, ℕ, List, length, slice_index, MatchBool, MatchOption};
ghost use Rattle.request_codec.specs.Digits.{IsDecoded, IsOther, ReadsRun};
ghost use Rattle.request_codec.specs.Form.{IsHexOf};

use crate::lanes::{larger, lesser};
use std::simd::prelude::*;

/// All bits but the one in which a letter and its capital differ.
pub(crate) const NO_CASE: u8 = 0xdf;

/// How many bytes a run of digits is decoded to, in two halves.
const RUN_BYTES: usize = 32;

/// How many bytes are half a run: 32 digits fill a vector.
const HALF_BYTES: usize = 16;

/// What the bytes of half a run are as letters, where A to F in either case count from 10 on and other digits for more, and what they
/// are as digits. `none` is 0.
#[inline(always)]
fn read_run(digits: u8x32, none: u8) -> (u8x32, u8x32)
    requires { none ≡ 0 }
    ensures { ReadsRun digits result.0 result.1 }
{
    let ranks = digits - u8x32::splat(b':' + none);
    let letters = (ranks & u8x32::splat(NO_CASE - none)) + u8x32::splat(3 + none);
    let values = lesser(digits - u8x32::splat(b'0' + none), letters);
    (letters, values)
}

/// The bytes of 32 values, the first of each two for the high four bits: their number in 16 bits, the second value above the
/// first, times 2^12 + 1 has the byte in its upper half.
#[inline(always)]
fn joined(values: u8x32, weight: u16) -> u8x16
    requires { weight ≡ 4097 }
    ensures lanes { length result ≡ 16 }
    ensures bytes { (k : ℕ) → k < 16 → slice_index result k ≡ (slice_index values (2 * k) * 16 + slice_index values (2 * k + 1)) % 256 }
{
    let pairs = u16x16::from_le_bytes(values) * u16x16::splat(weight);
    (pairs >> u16x16::splat(8)).cast::<u8>()
}

/// Whether all are digits, by the least that was read as letters in each lane and the largest as digits.
#[inline(always)]
fn are_digits(least: u8x32, largest: u8x32) -> bool
    ensures { MatchBool result ((j : ℕ) → j < 32 → (10 ≤ slice_index least j) × (slice_index largest j < 16)) ((j : ℕ) × (j < 32) × IsOther (slice_index least j) (slice_index largest j)) }
{
    if least.simd_lt(u8x32::splat(10)).to_bitmask() != 0 {
        return false;
    }
    if largest.simd_ge(u8x32::splat(16)).to_bitmask() != 0 {
        return false;
    }
    true
}

/// Decodes all whole runs, and answers how many bytes these are. `None` is the answer where some are no digits.
#[inline(always)]
pub fn decode_runs(digits: &[u8], out: &mut [u8]) -> Option<usize>
    requires { length digits.now ≡ 2 * length out.old }
    ensures { MatchOption result ((bytes : List ℕ) → IsHexOf digits.now bytes → ⊥) (λ n. IsDecoded digits.now out.new n) }
{
    if out.len() < RUN_BYTES {
        return Some(0);
    }
    decode_many(digits, out)
}

/// Decodes all whole runs, of which there is one at least, and answers how many bytes these are. `None` is the answer where some
/// are no digits. It is no part of its caller, so that what each run is compared with is near. Numbers that the compiler does not
/// know it keeps in registers; those that it knows it reads from memory in each run, and makes two steps of a product by 4097. So each
/// is added to a length that is 0.
#[inline(never)]
fn decode_many(digits: &[u8], out: &mut [u8]) -> Option<usize>
    requires { length digits.now ≡ 2 * length out.old }
    ensures { MatchOption result ((bytes : List ℕ) → IsHexOf digits.now bytes → ⊥) (λ n. IsDecoded digits.now out.new n) }
{
    let mut least = u8x32::splat(255);
    let mut largest = u8x32::splat(0);
    let whole = out.len() / RUN_BYTES * RUN_BYTES;
    let none = (digits.len() - 2 * out.len()) as u8;
    let weight = 0x1001 + none as u16;
    let mut done = 0;
    'runs: while done < whole {
        let (letters, values) = read_run(u8x32::from_slice(&digits[2 * done..]), none);
        least = lesser(least, letters);
        largest = larger(largest, values);
        joined(values, weight).copy_to_slice(&mut out[done..]);
        let (letters, values) = read_run(
            u8x32::from_slice(&digits[2 * (done + HALF_BYTES)..]),
            none,
        );
        least = lesser(least, letters);
        largest = larger(largest, values);
        joined(values, weight).copy_to_slice(&mut out[done + HALF_BYTES..]);
        done += RUN_BYTES;
    }
    if are_digits(least, largest) {
        Some(done)
    } else {
        None
    }
}
