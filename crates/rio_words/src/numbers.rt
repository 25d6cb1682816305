//! Numbers that options have.

ghost use Rattle.std.specs.Prelude.{◌≡◌, ◌≤◌, ℕ, MatchOption};
ghost use Rattle.rio_words.specs.Clap.{found_in};
ghost use Rattle.rio_words.specs.Words.{HasNumber};

use clap::ArgMatches;
use rio_base::number_of;

/// The number of an option, where it is in this range.
pub fn ranged(matches: &ArgMatches, option: &str, least: u32, most: u32) -> Option<u32>
    ensures { MatchOption result ((n : ℕ) → HasNumber (found_in matches.now) option.now n → least ≤ n → n ≤ most → ⊥) (λ n. HasNumber (found_in matches.now) option.now n × (least ≤ n) × (n ≤ most)) }
{
    let number = number_in(matches, option)?;
    if number < u64::from(least) {
        return None;
    }
    if u64::from(most) < number {
        return None;
    }
    Some(number as u32)
}

/// The number of an option.
fn number_in(matches: &ArgMatches, option: &str) -> Option<u64>
    ensures { MatchOption result ((n : ℕ) → HasNumber (found_in matches.now) option.now n → ⊥) (λ n. HasNumber (found_in matches.now) option.now n) }
{
    let text = matches.get_str(option)?;
    number_of(text.as_bytes())
}
