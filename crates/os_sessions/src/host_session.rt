//! Sessions with a host: lines of a script put files into a folder, make calls of a host over them, and ask what came.

use crate::folder::{clear, free_folder};
use crate::host_calls::{is_call, make_call};
use crate::place::Place;
use crate::watch::Watch;
use crate::watched_files::WatchedFiles;
use rio_base::Host;
use rio_os::{HostFile, OsHost};
use std::alloc::AllocError;
use std::os::fd::AsRawFd;
use std::rt::Files;
use test_scripts::{first_word, tell_line};

/// Tells what the sessions of a script come to. They share a pipe, to which any of them may make a link.
pub fn tell_script(rt: HostRuntime, script: &str, out: &mut Vec<u8>) -> Result<(), AllocError> {
    match rt.pipe() {
        Ok((reader, _writer)) => tell_in_folder(rt, reader.as_raw_fd(), script, out),
        Err(_) => tell_line(out, b"no pipe can be made"),
    }
}

/// Does what the script says in a folder that is made for it, and goes with all that is in it at the end.
fn tell_in_folder(
    rt: HostRuntime,
    pipe: i32,
    script: &str,
    out: &mut Vec<u8>,
) -> Result<(), AllocError> {
    let folder = free_folder(rt)?;
    let outcome = tell_sessions(rt, pipe, folder.as_str(), script, out);
    let _ = rt.remove_dir_all(rt.alloc(), folder.as_str());
    outcome
}

/// Tells what each session comes to. A session is what stands between two empty lines.
fn tell_sessions(
    rt: HostRuntime,
    pipe: i32,
    folder: &str,
    script: &str,
    out: &mut Vec<u8>,
) -> Result<(), AllocError> {
    for lines in script.split("\n\n") {
        tell_session(rt, pipe, folder, lines, out)?;
    }
    Ok(())
}

/// Tells what a session comes to. Its folder is empty, no call was made of its host, and no call is watched yet.
fn tell_session(
    rt: HostRuntime,
    pipe: i32,
    folder: &str,
    lines: &str,
    out: &mut Vec<u8>,
) -> Result<(), AllocError> {
    clear(rt, folder);
    let watch = Watch::of_files(rt.alloc());
    let place = Place::new(rt, pipe, folder, &watch);
    tell_over(WatchedFiles::new(rt, &watch), place, lines, out)
}

/// Tells what a session comes to over these files.
fn tell_over<F: Files + Drop>(
    files: F,
    mut place: Place<'_>,
    lines: &str,
    out: &mut Vec<u8>,
) -> Result<(), AllocError>
where
    F::File: HostFile,
{
    let mut host = OsHost::new(*out.allocator(), files);
    tell_lines(&mut host, &mut place, lines, out)
}

/// Tells what the lines of a session come to. An empty line and one that begins with `#` say nothing.
fn tell_lines<H: Host>(
    host: &mut H,
    place: &mut Place<'_>,
    lines: &str,
    out: &mut Vec<u8>,
) -> Result<(), AllocError> {
    for line in lines.lines() {
        if !line.is_empty() && !line.starts_with('#') {
            tell(host, place, line, out)?;
        }
    }
    Ok(())
}

/// Tells a line, and does what it says.
fn tell<H: Host>(
    host: &mut H,
    place: &mut Place<'_>,
    line: &str,
    out: &mut Vec<u8>,
) -> Result<(), AllocError> {
    out.extend_from_slice(line.as_bytes())?;
    out.push(b'\n')?;
    let (word, rest) = first_word(line);
    if is_call(word) {
        return call(host, place, word, rest, out);
    }
    place.act(word, rest, out)
}

/// Makes a call of the host, of the file that is named behind its word.
fn call<H: Host>(
    host: &mut H,
    place: &Place<'_>,
    word: &str,
    rest: &str,
    out: &mut Vec<u8>,
) -> Result<(), AllocError> {
    let (name, rest) = first_word(rest);
    let path = place.path_of(name)?;
    make_call(host, word, &path, rest, out)
}
