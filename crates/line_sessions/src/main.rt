//! Command lines, and what each is read as; sessions of request lines, answered by the plain definition of the server; and
//! rows of how lines are read and replies are written. The script is the program's input. Its output has each line of the
//! script and below it, four spaces further in, what that line comes to:
//!
//! - `$ WORDS`: the command that the words of a command line are read as, or `usage`. One space stands between two words,
//!   so that two spaces have an empty word between them. `$` alone is no words.
//! - `volume N`: a new session, over the root directory alone, on N blocks.
//! - `> LINE`: the reply to a request line in that session. `max> LINE`: the same with 2^64 - 1 as the line's offset or
//!   size, which no line can have.
//! - `doomed N`: nothing. Inode N, a region of a page, has the only transaction, which may only be aborted.
//! - `parse LINE`: the request that a line is: its word, its path, its data or second path, and its numbers.
//! - `each N LINE`: the same for every byte that makes a request of the line at place N, and how many make none.
//! - `lines N TEXT`: the lines of an input that comes in pieces of N bytes.
//! - `reply KIND PARTS`: a reply as it is written. `texts A B ..`: texts written one behind the other.
//! - `sink takes three`, `sink takes nothing`, `sink fails N`: how the reply told last is written to a sink that takes three
//!   bytes a call or none, or whose call N fails.
//!
//! An empty line, and one that begins with `#` or `==`, comes to nothing.
#![tactic(auto)]

mod command_words;
mod input_lines;
mod meanings;
mod replies;
mod session;
mod sinks;
mod states;
mod words;

use crate::session::tell_script;
use std::io::{self, Read, Write};

fn main(rt: HostRuntime) -> io::Result<()> {
    let mut script = String::new(rt.alloc());
    let mut out = String::new(rt.alloc());
    tell_input(rt, &mut script, &mut out)
}

/// Reads the script, and prints what it comes to, or as far as memory lasts.
fn tell_input(rt: HostRuntime, script: &mut String, out: &mut String) -> io::Result<()> {
    rt.stdin().read_to_string(script)?;
    let outcome = tell_script(rt.alloc(), script.as_str(), out);
    rt.stdout().write_all(out.as_bytes())?;
    Ok(outcome?)
}
