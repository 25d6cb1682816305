//! Numbers in decimal digits.

ghost use Rattle.std.specs.Prelude.{◌≡◌, ◌↔◌, ◌<◌, ℕ, length, slice_index, IsTrue, MatchOption};
ghost use Rattle.rio_base.specs.Bytes.{IsNumber};

/// The most digits of a number.
const NUMBER_DIGITS: usize = 18;

/// The number that these digits write. They are 1 to 18 decimal digits, and none but 0 itself begins with 0. `None` is the
/// answer to all others.
pub fn number_of(digits: &[u8]) -> Option<u64>
    ensures { MatchOption result ((n : ℕ) → IsNumber digits.now n → ⊥) (λ n. IsNumber digits.now n) }
{
    if digits.len() > NUMBER_DIGITS {
        return None;
    }
    if !begins_well(digits) {
        return None;
    }
    let mut number = 0;
    for digit in digits {
        let value = digit.wrapping_sub(b'0');
        if value > 9 {
            return None;
        }
        number = 10 * number + u64::from(value);
    }
    Some(number)
}

/// Whether there are digits, and no 0 stands in front of others.
fn begins_well(digits: &[u8]) -> bool
    ensures { IsTrue result ↔ (0 < length digits.now) × (slice_index digits.now 0 ≡ 48 → length digits.now ≡ 1) }
{
    match digits {
        [] => false,
        [b'0'] => true,
        [first, ..] => *first != b'0',
    }
}
