//! Sessions of the program over files in memory: what a script says is run, and what came is printed under each line.
#![tactic(auto)]

mod benches;
mod bytes;
mod files;
mod session;
mod shelf;
mod stops;
mod walks;
mod words;

use crate::session::Session;
use crate::shelf::PairNames;
use std::io::{self, Write};

fn main(rt: HostRuntime) -> io::Result<()> {
    let names = PairNames::new(rt.alloc())?;
    tell_script(rt, &names)
}

/// Tells what the script comes to.
fn tell_script(rt: HostRuntime, names: &PairNames) -> io::Result<()> {
    let mut session = Session::new(rt.alloc(), names)?;
    tell_lines(rt, &mut session)
}

/// Tells what each line comes to.
fn tell_lines(rt: HostRuntime, session: &mut Session<'_>) -> io::Result<()> {
    for line in rt.lines(rt.alloc()) {
        tell_line(rt, session, line)?;
    }
    Ok(())
}

/// Tells what a line comes to, where it could be read.
fn tell_line(
    rt: HostRuntime,
    session: &mut Session<'_>,
    line: io::Result<String>,
) -> io::Result<()> {
    let line = line?;
    tell(rt, session, line.as_str())
}

/// Does what a line says, and tells what that came to.
fn tell(rt: HostRuntime, session: &mut Session<'_>, line: &str) -> io::Result<()> {
    session.step(line)?;
    rt.stdout().write_all(session.told())
}
