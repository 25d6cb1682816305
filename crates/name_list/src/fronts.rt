//! The first eight bytes of names as numbers, which are compared faster than bytes.

ghost use Rattle.std.specs.Prelude.{◌≡◌, ◌-◌, ◌*◌, ◌^◌, ◌<◌, ◌≤◌, length, slice_index, take};
ghost use Rattle.byteorder.specs.Endian.{big_number};

use byteorder::{BigEndian, ByteOrder};

/// Bytes of a line that a name stands at the front of: as many as a name of a directory has at most.
pub const LINE_BYTES: usize = 56;

/// Bytes of a front.
const FRONT_BYTES: usize = 8;

/// Ones in place of the bytes of a front behind its first `count`.
fn ones_behind(count: usize) -> u64
    requires { count < 8 }
    ensures { result ≡ 2 ^ (64 - 8 * count) - 1 }
{
    u64::MAX >> (8 * count)
}

/// The front of the name that has the first `len` bytes of a line: its first bytes are the highest, and zeros stand behind
/// a name that has fewer.
pub(crate) fn front_in_line(line: &[u8], len: usize) -> u64
    requires { 8 ≤ length line.now }
    ensures { result ≡ big_number 8 (take len line.now) }
{
    let front = BigEndian::read_u64(line);
    if len >= FRONT_BYTES {
        return front;
    }
    front - (front & ones_behind(len))
}

/// Byte `k` of a name, 0 past its end.
fn byte_or_zero(name: &[u8], k: usize) -> u8
    ensures { result ≡ slice_index name.now k }
{
    if k < name.len() { name[k] } else { 0 }
}

/// The front of a name.
pub(crate) fn front_of(name: &[u8]) -> u64
    ensures { result ≡ big_number 8 name.now }
{
    let mut front = 0;
    for k in 0..FRONT_BYTES {
        front = 256 * front + u64::from(byte_or_zero(name, k));
    }
    front
}
