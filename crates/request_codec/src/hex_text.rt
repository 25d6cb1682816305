//! Bytes as hexadecimal digits, written straight to where they are wanted.

ghost use Rattle.std.specs.Prelude.{◌≡◌, ◌≤◌, ◌*◌, ◌/◌, ◌%◌, ◌++◌, drop, length, map, slice_index, take};
ghost use Rattle.hex.specs.Hex.{encode_lower, lower_digits};

use std::simd::prelude::*;

/// The lower-case digits.
const DIGITS: [u8; 16] = *b"0123456789abcdef";

/// How many bytes make a run, whose digits are looked up together.
const RUN_BYTES: usize = 16;

/// The digits of the high four bits of each byte.
#[inline(always)]
fn high_digits(run: u8x16) -> u8x16
    ensures { result ≡ map (λ b. slice_index lower_digits (b / 16)) run }
{
    u8x16::from_array(DIGITS).swizzle_dyn(run >> u8x16::splat(4))
}

/// The digits of the low four bits of each byte.
#[inline(always)]
fn low_digits(run: u8x16) -> u8x16
    ensures { result ≡ map (λ b. slice_index lower_digits (b % 16)) run }
{
    u8x16::from_array(DIGITS).swizzle_dyn(run & u8x16::splat(15))
}

/// The two digits of each byte, the high four bits first.
#[inline(always)]
fn run_digits(run: u8x16) -> u8x32
    ensures { result ≡ encode_lower run }
{
    high_digits(run).shuffle(
        low_digits(run),
        [
            0, 16, 1, 17, 2, 18, 3, 19, 4, 20, 5, 21, 6, 22, 7, 23, 8, 24, 9, 25, 10, 26, 11, 27,
            12, 28, 13, 29, 14, 30, 15, 31,
        ],
    )
}

/// Writes the digits of all whole runs, and answers how many bytes these are.
fn encode_runs(input: &[u8], output: &mut [u8]) -> usize
    requires { length output.old ≡ 2 * length input.now }
    ensures within { result ≤ length input.now }
    ensures front { take (2 * result) output.new ++ encode_lower (drop result input.now) ≡ encode_lower input.now }
{
    let mut done = 0;
    'runs: while input.len() - done >= RUN_BYTES {
        let digits = run_digits(u8x16::from_slice(&input[done..]));
        digits.copy_to_slice(&mut output[2 * done..]);
        done += RUN_BYTES;
    }
    done
}

/// Writes two lower-case digits for each byte, the high four bits first: whole runs by vectors, and the few bytes behind them by
/// the crate `hex`.
pub(crate) fn encode_hex(input: &[u8], output: &mut [u8])
    requires { length output.old ≡ 2 * length input.now }
    ensures { output.new ≡ encode_lower input.now }
{
    let done = encode_runs(input, output);
    // It fails only where the room is not twice as long.
    let _ = hex::encode_to_slice(&input[done..], &mut output[2 * done..]);
}
