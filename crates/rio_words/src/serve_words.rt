//! The options of `serve`.

ghost use Rattle.std.specs.Prelude.{◌≡◌, ℕ, Option, MatchOption, codes};
ghost use Rattle.rio_words.specs.Clap.{found_in};
ghost use Rattle.rio_words.specs.Words.{MayHaveNumber};

use clap::ArgMatches;
use rio_base::number_of;

/// The options of `serve`, without the `--` in front of each.
pub const SERVE_OPTIONS: [&str; 1] = ["stop"];

/// The number of steps that a stop is asked for after, or `Some(None)` where none is. The answer is `None` where what stands for
/// it is no number.
pub fn stop_of(matches: &ArgMatches) -> Option<Option<u64>>
    ensures { MatchOption result ((stop : Option ℕ) → MayHaveNumber (found_in matches.now) (codes "stop") stop → ⊥) (λ stop. MayHaveNumber (found_in matches.now) (codes "stop") stop) }
{
    let Some(text) = matches.get_str("stop") else {
        return Some(None);
    };
    let number = number_of(text.as_bytes())?;
    Some(Some(number))
}
