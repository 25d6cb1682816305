//! The options of `drill`.

ghost use Rattle.std.specs.Prelude.{◌≡◌, ◌≤◌, ℕ, MatchOption};
ghost use Rattle.rio_words.specs.Clap.{found_in};
ghost use Rattle.rio_words.specs.Words.{HasDrill};

use crate::numbers::ranged;
use clap::ArgMatches;

/// The options of `drill`, without the `--` in front of each.
pub const DRILL_OPTIONS: [&str; 3] = ["seed", "boots", "requests"];

/// The most boots that a drill can be asked for.
const MOST_BOOTS: u32 = 1_000;

/// What the options of `drill` say.
#[derive(Clone, Copy)]
pub struct DrillNumbers {
    pub seed: u32,
    pub boots: u32,
    pub requests: u32,
}

/// The numbers of the drill that is asked for.
pub fn numbers_of(matches: &ArgMatches) -> Option<DrillNumbers>
    ensures { MatchOption result ((seed boots requests : ℕ) → HasDrill (found_in matches.now) seed boots requests → ⊥) (λ numbers. HasDrill (found_in matches.now) numbers.seed numbers.boots numbers.requests) }
{
    let seed = ranged(matches, "seed", 0, 2_147_483_647)?;
    let boots = ranged(matches, "boots", 1, MOST_BOOTS)?;
    let requests = ranged(matches, "requests", 1, 100_000)?;
    Some(DrillNumbers {
        seed,
        boots,
        requests,
    })
}
