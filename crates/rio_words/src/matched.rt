//! Commands by what was matched for them.

ghost use Rattle.std.specs.Prelude.{◌≡◌, IfOk};
ghost use Rattle.rio_words.specs.Clap.{found_in};
ghost use Rattle.rio_words.specs.Matched.{IsCheck, IsDrill, IsFormat, IsFound, IsRegistry, IsServe};

use crate::command::RioCommand;
use crate::drill_words::numbers_of;
use crate::fail::WordsFail;
use crate::file_name::FileName;
use crate::files::{Pair, file_of, pair_of};
use crate::format_words::sizes_of;
use crate::serve_words::stop_of;
use clap::ArgMatches;
use std::alloc::{AllocError, Global};

/// The names of two files, as the command has them.
#[derive(Drop)]
struct Names {
    image: FileName,
    disk: FileName,
}

/// The command `format`.
pub fn format_of(alloc: Global, matches: &ArgMatches) -> Result<RioCommand, WordsFail>
    ensures { IsFound (IsFormat (found_in matches.now)) result }
{
    let Some(pair) = pair_of(matches) else {
        return Err(WordsFail::Usage);
    };
    let Some(sizes) = sizes_of(matches) else {
        return Err(WordsFail::Usage);
    };
    let names = names_of(alloc, pair)?;
    Ok(RioCommand::Format {
        image: names.image,
        disk: names.disk,
        frames: sizes.frames,
        blocks: sizes.blocks,
        inodes: sizes.inodes,
        scratch: sizes.scratch,
    })
}

/// The command `serve`.
pub fn serve_of(alloc: Global, matches: &ArgMatches) -> Result<RioCommand, WordsFail>
    ensures { IsFound (IsServe (found_in matches.now)) result }
{
    let Some(pair) = pair_of(matches) else {
        return Err(WordsFail::Usage);
    };
    let Some(stop) = stop_of(matches) else {
        return Err(WordsFail::Usage);
    };
    let names = names_of(alloc, pair)?;
    Ok(RioCommand::Serve {
        image: names.image,
        disk: names.disk,
        stop,
    })
}

/// The command `registry`.
pub fn registry_of(alloc: Global, matches: &ArgMatches) -> Result<RioCommand, WordsFail>
    ensures { IsFound (IsRegistry (found_in matches.now)) result }
{
    let Some(image) = file_of(matches, "image") else {
        return Err(WordsFail::Usage);
    };
    let image = FileName::copied(alloc, image)?;
    Ok(RioCommand::Registry { image })
}

/// The command `check`.
pub fn check_of(alloc: Global, matches: &ArgMatches) -> Result<RioCommand, WordsFail>
    ensures { IsFound (IsCheck (found_in matches.now)) result }
{
    let Some(pair) = pair_of(matches) else {
        return Err(WordsFail::Usage);
    };
    let names = names_of(alloc, pair)?;
    Ok(RioCommand::Check {
        image: names.image,
        disk: names.disk,
    })
}

/// The command `drill`.
pub fn drill_of(matches: &ArgMatches) -> Result<RioCommand, WordsFail>
    ensures { IsFound (IsDrill (found_in matches.now)) result }
{
    let Some(numbers) = numbers_of(matches) else {
        return Err(WordsFail::Usage);
    };
    Ok(RioCommand::Drill {
        seed: numbers.seed,
        boots: numbers.boots,
        requests: numbers.requests,
    })
}

/// The names of a pair, copied.
fn names_of(alloc: Global, pair: Pair) -> Result<Names, AllocError>
    ensures { IfOk result (λ names. (names.image ≡ pair.entry.image.now) × (names.disk ≡ pair.entry.disk.now)) }
{
    let image = FileName::copied(alloc, pair.image)?;
    let disk = FileName::copied(alloc, pair.disk)?;
    Ok(Names { image, disk })
}
