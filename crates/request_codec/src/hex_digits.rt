//! Hexadecimal digits, decoded. Where they are many, no branch depends on one of them.

ghost use Rattle.std.specs.Prelude.{◌≡◌, ◌≤◌, ◌*◌, ◌<◌, ℕ, List, length, IfOk, MatchOption, MatchBool};
ghost use Rattle.request_codec.specs.Digits.{IsNone, Reads, Sees, byte_of};
ghost use Rattle.request_codec.specs.Form.{IsHexOf};

use crate::hex_runs::{NO_CASE, decode_runs};
use rio_base::Octets;
use std::alloc::AllocError;

/// So many digits are worth vectors. Fewer are decoded one by one.
const MANY_DIGITS: usize = 32;

/// A byte as a digit. It is one where its value is below 16 and its rank 7 or more.
#[derive(Clone, Copy)]
struct Digit {
    value: u8,
    rank: u8,
}

impl Digit {
    /// Reads a byte as a digit in either case. The letters A to F have ranks of 7 to 12. What lies between 9 and A, and from Z
    /// up to before a, has a lower rank; any other byte that is no digit has a value of 16 or more.
    fn of(c: u8) -> Digit
        ensures { Reads c result }
    {
        let rank = c.wrapping_sub(b':') & NO_CASE;
        let decimal = c.wrapping_sub(b'0');
        Digit {
            value: decimal.min(rank.wrapping_add(3)),
            rank,
        }
    }
}

/// The largest value and the least rank of the digits seen so far.
#[derive(Clone, Copy)]
struct Seen {
    largest: u8,
    least: u8,
}

impl Seen {
    /// No digit was seen yet.
    fn nothing() -> Seen
        ensures { (result.largest ≡ 0) × (result.least ≡ 255) }
    {
        Seen {
            largest: 0,
            least: 255,
        }
    }

    /// Two digits more.
    fn with(self, high: Digit, low: Digit) -> Seen
        ensures { Sees self high low result }
    {
        Seen {
            largest: self.largest.max(high.value).max(low.value),
            least: self.least.min(high.rank).min(low.rank),
        }
    }

    /// Whether all of them are digits.
    fn are_digits(self) -> bool
        ensures { MatchBool result ((self.largest < 16) × (7 ≤ self.least)) (IsNone self.largest self.least) }
    {
        self.largest < 16 && 7 <= self.least
    }
}

/// The byte of two digits.
fn byte_of(high: Digit, low: Digit) -> u8
    ensures { result ≡ byte_of high low }
{
    high.value.wrapping_mul(16).wrapping_add(low.value)
}

/// Decodes two digits into each byte, and tells whether all of them are digits: few by the crate `hex`, many by vectors.
pub fn decode_into(digits: &[u8], out: &mut [u8]) -> bool
    requires { length digits.now ≡ 2 * length out.old }
    ensures { MatchBool result (IsHexOf digits.now out.new) ((bytes : List ℕ) → IsHexOf digits.now bytes → ⊥) }
{
    if digits.len() < MANY_DIGITS {
        hex::decode_to_slice(digits, out).is_ok()
    } else {
        decode_long(digits, out)
    }
}

/// Decodes many digits: first the runs of 64, and then what is left behind them.
fn decode_long(digits: &[u8], out: &mut [u8]) -> bool
    requires { length digits.now ≡ 2 * length out.old }
    ensures { MatchBool result (IsHexOf digits.now out.new) ((bytes : List ℕ) → IsHexOf digits.now bytes → ⊥) }
{
    let Some(done) = decode_runs(digits, out) else {
        return false;
    };
    let mut seen = Seen::nothing();
    for (i, pair) in digits[2 * done..].chunks_exact(2).enumerate() {
        let high = Digit::of(pair[0]);
        let low = Digit::of(pair[1]);
        seen = seen.with(high, low);
        out[done + i] = byte_of(high, low);
    }
    seen.are_digits()
}

/// Decodes two digits into each of `count` bytes, in this memory where it is enough. `None` is the answer where some are no
/// digits. What stands in the memory is not cleared before.
pub fn decode(room: Vec<u8>, digits: &[u8], count: usize) -> Result<Option<Octets>, AllocError>
    requires { length digits.now ≡ 2 * count }
    ensures { IfOk result (λ found. MatchOption found ((bytes : List ℕ) → IsHexOf digits.now bytes → ⊥) (λ bytes. IsHexOf digits.now bytes)) }
{
    let mut bytes = room;
    bytes.resize(count, 0)?;
    if decode_into(digits, bytes.as_mut_slice()) {
        Ok(Some(Octets::from(bytes)))
    } else {
        Ok(None)
    }
}
