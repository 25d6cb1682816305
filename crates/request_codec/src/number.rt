//! Words in lines.

ghost use Rattle.std.specs.Prelude.{◌≡◌, ℕ, MatchOption};
ghost use Rattle.request_codec.specs.Form.{Value};

use crate::hex_digits::decode_into;

/// The digits of a word in hexadecimal.
const VALUE_DIGITS: usize = 16;

/// The word that these digits write: 16 hexadecimal digits in either case, the highest first.
pub fn value_of(digits: &[u8]) -> Option<u64>
    ensures { MatchOption result ((v : ℕ) → Value v digits.now → ⊥) (λ v. Value v digits.now) }
{
    if digits.len() != VALUE_DIGITS {
        return None;
    }
    let mut bytes = [0; 8];
    if decode_into(digits, &mut bytes) {
        Some(u64::from_be_bytes(bytes))
    } else {
        None
    }
}
