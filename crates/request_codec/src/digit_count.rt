//! How many digits a number has.

ghost use Rattle.std.specs.Prelude.{◌≡◌, ◌<◌, length, decimal};

/// How many decimal digits a number has.
#[inline(always)]
pub(crate) fn digit_count(n: u64) -> usize
    ensures { result ≡ length (decimal n) }
{
    let mut left = n;
    let mut count = 0;
    'fours: while left >= 10_000 {
        left /= 10_000;
        count += 4;
    }
    count + last_count(left)
}

/// How many decimal digits a number has that has four at most.
#[inline(always)]
fn last_count(n: u64) -> usize
    requires { n < 10000 }
    ensures { result ≡ length (decimal n) }
{
    if n < 10 {
        return 1;
    }
    if n < 100 {
        return 2;
    }
    if n < 1000 { 3 } else { 4 }
}
