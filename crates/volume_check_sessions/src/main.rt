//! Large volumes in memory, looked at. The script is the program's input, and the output has each line of it and below it, four
//! spaces further in, what looking tells:
//!
//! - `files BLOCKS INODES`: a sound volume that is full of files.
//! - `entries BLOCKS INODES`: a damaged one, full of directories that have as many entries as there can be.
//! - `numbers BLOCKS INODES`: a damaged one, each of whose inodes says that it has the most pages.
//!
//! Before such a line `timed` may stand: then the milliseconds that looking took are told too, which differ from run to run.
//! An empty line, and one that begins with `#` or `==`, comes to nothing.
#![tactic(auto)]

mod large_volume;
mod volumes;

use crate::volumes::volume_of;
use anyhow::Result;
use rio_model::Census;
use std::alloc::Global;
use std::fmt::Error;
use std::time::Instant;
use volume_check::CheckFail;

fn main(rt: HostRuntime) -> Result<()> {
    let alloc = rt.alloc();
    for line in rt.lines(alloc) {
        let line = line?;
        println!(rt; "{line}")?;
        let (timed, rest) = parts(line.as_str());
        let Some(mut v) = volume_of(alloc, rest)? else {
            continue;
        };
        let start = Instant::now(&rt)?;
        let looked = v.look(alloc);
        let taken = start.elapsed(&rt)?;
        println!(rt; "    {}", told(alloc, looked)?)?;
        if timed {
            println!(rt; "    {} ms", taken.as_millis())?;
        }
    }
    Ok(())
}

/// Whether a line is timed, and what stands behind that word.
fn parts(line: &str) -> (bool, &str) {
    match line.strip_prefix("timed ") {
        Some(rest) => (true, rest),
        None => (false, line),
    }
}

/// What looking at a volume tells, as text.
fn told(alloc: Global, looked: Result<Census, CheckFail>) -> Result<String> {
    let text = match looked {
        Ok(census) => format!(in alloc;
            "sound dirs {} files {} regions {} used {} free {}",
            census.dirs, census.files, census.regions, census.used, census.free
        )?,
        Err(CheckFail::BadVolume(rule, b)) => format!(in alloc; "rule {rule} block {}", b.0)?,
        Err(fail) => format!(in alloc; "{fail}")?,
    };
    Ok(text)
}
