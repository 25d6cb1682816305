//! Where a byte stands first.

ghost use Rattle.std.specs.Prelude.{◌<◌, length};
ghost use Rattle.memchr.specs.Find.{IsFirstByte, is_byte};

use crate::byte_step::{WIDE, first_of};
use crate::far_byte::first_behind;

/// How many of fewer bytes are looked at together.
const HALF: usize = 16;

/// How many of still fewer bytes are: most words and paths are shorter.
const QUARTER: usize = 8;

/// The place of the first such byte. One in the first 32 bytes is found by one comparison of vectors.
#[inline(always)]
pub fn first_byte(byte: u8, bytes: &[u8]) -> Option<usize>
    ensures { IsFirstByte (is_byte byte) bytes.now result }
{
    if bytes.len() < WIDE {
        return first_of_short(byte, bytes);
    }
    if let Some(at) = first_of::<WIDE>(byte, bytes, 0) {
        return Some(at);
    }
    first_behind(byte, bytes)
}

/// The place of the first such byte among fewer than 32: in the first 16 of them, and then in the last 16.
#[inline(always)]
fn first_of_short(byte: u8, bytes: &[u8]) -> Option<usize>
    requires { length bytes.now < 32 }
    ensures { IsFirstByte (is_byte byte) bytes.now result }
{
    if bytes.len() < HALF {
        return first_of_shorter(byte, bytes);
    }
    if let Some(at) = first_of::<HALF>(byte, bytes, 0) {
        return Some(at);
    }
    first_of::<HALF>(byte, bytes, bytes.len() - HALF)
}

/// The place of the first such byte among fewer than 16: in the first 8 of them, and then in the last 8.
#[inline(always)]
fn first_of_shorter(byte: u8, bytes: &[u8]) -> Option<usize>
    requires { length bytes.now < 16 }
    ensures { IsFirstByte (is_byte byte) bytes.now result }
{
    if bytes.len() < QUARTER {
        return one_by_one(byte, bytes);
    }
    if let Some(at) = first_of::<QUARTER>(byte, bytes, 0) {
        return Some(at);
    }
    first_of::<QUARTER>(byte, bytes, bytes.len() - QUARTER)
}

/// The place of the first such byte, looking at one byte after the other.
#[inline(always)]
fn one_by_one(byte: u8, bytes: &[u8]) -> Option<usize>
    ensures { IsFirstByte (is_byte byte) bytes.now result }
{
    'places: for i in 0..bytes.len() {
        if bytes[i] == byte {
            return Some(i);
        }
    }
    None
}
