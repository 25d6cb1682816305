//! Walks of drawn requests, requests over disks that fail, beside the plain definition, and wild stores: what a script says
//! is run, and what came is printed under each line.
#![tactic(auto)]

mod beside;
mod faults;
mod machines;
mod session;
mod walks;

use crate::session::tell_script;
use std::io::{self, Read, Write};

fn main(rt: HostRuntime) -> io::Result<()> {
    let mut script = String::new(rt.alloc());
    let mut out = Vec::new(rt.alloc());
    answer(rt, &mut script, &mut out)
}

/// Reads the script, and prints what it comes to, or as far as memory lasts.
fn answer(rt: HostRuntime, script: &mut String, out: &mut Vec<u8>) -> io::Result<()> {
    rt.stdin().read_to_string(script)?;
    let outcome = tell_script(rt.alloc(), script.as_str(), out);
    rt.stdout().write_all(out.as_slice())?;
    Ok(outcome?)
}
