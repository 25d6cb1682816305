//! Bits of one word.

ghost use Rattle.std.specs.Prelude.{◌≡◌, ◌-◌, ◌^◌, ◌<◌, ◌≤◌, if◌then◌else◌, min};
ghost use Rattle.undo_list.specs.Bits.{IsOnes, IsZeros, WithBits};

/// How many bits of a word from `bit` on are 0, one after the other.
pub fn zeros_from(word: u64, bit: u32) -> u32
    requires { bit < 64 }
    ensures { IsZeros word bit result }
{
    (word >> bit).trailing_zeros().min(64 - bit)
}

/// How many bits of a word from `bit` on are 1, one after the other.
pub fn ones_from(word: u64, bit: u32) -> u32
    requires { bit < 64 }
    ensures { IsOnes word bit result }
{
    zeros_from(!word, bit)
}

/// A word whose lowest `count` bits are 1, or all of them.
fn low_ones(count: u32) -> u64
    ensures { result ≡ 2 ^ min count 64 - 1 }
{
    if count < 64 {
        (1 << count) - 1
    } else {
        u64::MAX
    }
}

/// A word with its bits from `from` to `to - 1` set, or cleared.
pub fn with_bits(word: u64, from: u32, to: u32, on: bool) -> u64
    requires order { from ≤ to }
    requires within { to ≤ 64 }
    ensures { WithBits word result from to (if on then 1 else 0) }
{
    let mask = low_ones(to) - low_ones(from);
    if on { word | mask } else { word & !mask }
}
