//! Sessions over the operating system: calls over its files and over streams, calls of a disk that is a file, and runs of
//! the program over files. What a script says is done, and what came is printed under each line. The script is the
//! program's input. It has these three parts, in this order; a line that names it stands before each but the first.
#![tactic(auto)]

mod disk_calls;
mod disk_session;
mod folder;
mod host_calls;
mod host_session;
mod other_hosts;
mod place;
mod run_scripts;
mod run_session;
mod run_words;
mod runs;
mod streams;
mod watch;
mod watched_files;

use std::alloc::AllocError;
use std::io::{self, Read, Write};

/// The line before the part on disks that are files.
const DISKS: &str = "=== disks";

/// The line before the part on runs of the program.
const RUNS: &str = "=== runs";

fn main(rt: HostRuntime) -> io::Result<()> {
    let mut out = Vec::new(rt.alloc());
    let outcome = tell_input(rt, &mut out);
    rt.stdout().write_all(out.as_slice())?;
    outcome
}

/// Tells what the script comes to that is the input.
fn tell_input(rt: HostRuntime, out: &mut Vec<u8>) -> io::Result<()> {
    let mut script = String::new(rt.alloc());
    rt.stdin().read_to_string(&mut script)?;
    Ok(tell_parts(rt, script.as_str(), out)?)
}

/// Tells what the parts of a script come to.
fn tell_parts(rt: HostRuntime, script: &str, out: &mut Vec<u8>) -> Result<(), AllocError> {
    let (calls, rest) = parted(script, DISKS);
    let (disks, runs) = parted(rest, RUNS);
    host_session::tell_script(rt, calls, out)?;
    out.extend_from_slice(DISKS.as_bytes())?;
    out.push(b'\n')?;
    disk_session::tell_script(rt, disks, out)?;
    out.extend_from_slice(RUNS.as_bytes())?;
    out.push(b'\n')?;
    run_scripts::tell_script(rt, runs, out)
}

/// What stands before the line in a script, and what stands behind it. All stands before a line that is not there.
fn parted<'a>(script: &'a str, line: &str) -> (&'a str, &'a str) {
    script.split_once(line).unwrap_or((script, ""))
}
