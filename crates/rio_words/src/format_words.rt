//! The options of `format`.

ghost use Rattle.std.specs.Prelude.{◌≡◌, ◌≤◌, ◌+◌, ◌/◌, ◌%◌, ℕ, MatchOption};
ghost use Rattle.rio_words.specs.Clap.{found_in};
ghost use Rattle.rio_words.specs.Words.{HasSizes};

use crate::numbers::ranged;
use clap::ArgMatches;

/// The options of `format`, without the `--` in front of each.
pub const FORMAT_OPTIONS: [&str; 4] = ["frames", "blocks", "inodes", "scratch"];

/// What the options of `format` say.
#[derive(Clone, Copy)]
pub struct FormatSizes {
    pub frames: u32,
    pub blocks: u32,
    pub inodes: u32,
    pub scratch: u32,
}

/// The sizes that are asked for, where a fresh pair can have them.
pub fn sizes_of(matches: &ArgMatches) -> Option<FormatSizes>
    ensures { MatchOption result ((frames blocks inodes scratch : ℕ) → HasSizes (found_in matches.now) frames blocks inodes scratch → ⊥) (λ sizes. HasSizes (found_in matches.now) sizes.frames sizes.blocks sizes.inodes sizes.scratch) }
{
    let frames = ranged(matches, "frames", 32, 8192)?;
    let scratch = ranged(matches, "scratch", 1, 64)?;
    let inodes = ranged(matches, "inodes", 32, 32768)?;
    if inodes % 32 != 0 {
        return None;
    }
    let blocks = ranged(matches, "blocks", 3 + inodes / 32, 32768)?;
    Some(FormatSizes {
        frames,
        blocks,
        inodes,
        scratch,
    })
}
