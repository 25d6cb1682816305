//! Runs of the program over files of the operating system: what a script says is put under the names of a pair and run,
//! and what came is printed under each line.

use crate::run_session::Session;
use std::alloc::AllocError;
use std::os::fd::AsRawFd;
use std::rt::Files;
use test_scripts::tell_line;

/// Tells what the sessions of a script come to. They share a pipe, to which any of them may make a link.
pub fn tell_script(rt: HostRuntime, script: &str, out: &mut Vec<u8>) -> Result<(), AllocError> {
    match rt.pipe() {
        Ok((reader, _writer)) => tell_beside(rt, reader.as_raw_fd(), script, out),
        Err(_) => tell_line(out, b"no pipe can be made"),
    }
}

/// Tells what the sessions of a script come to, beside the pipe of this descriptor.
fn tell_beside(
    rt: HostRuntime,
    pipe: i32,
    script: &str,
    out: &mut Vec<u8>,
) -> Result<(), AllocError> {
    let path = format!(in rt.alloc(); "/proc/self/fd/{pipe}")?;
    tell_sessions(rt, path.as_str(), script, out)
}

/// Tells what the sessions of a script come to, beside the pipe that has this path.
fn tell_sessions(
    rt: HostRuntime,
    pipe: &str,
    script: &str,
    out: &mut Vec<u8>,
) -> Result<(), AllocError> {
    let mut session = Session::new(rt, pipe);
    tell_lines(&mut session, script, out)
}

/// Tells what the lines of a script come to. An empty line and one that begins with `#` say nothing.
fn tell_lines(
    session: &mut Session<'_>,
    script: &str,
    out: &mut Vec<u8>,
) -> Result<(), AllocError> {
    for line in script.lines() {
        if !line.is_empty() && !line.starts_with('#') {
            session.step(line, out)?;
        }
    }
    Ok(())
}
