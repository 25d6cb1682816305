//! Machines in memory that are stopped and booted again. The script is the program's input, and the output has each line of
//! it and below it, four spaces further in, what it came to:
//!
//! - `== TITLE`: nothing. From here on there is a fresh pair of memory and disk, 32 frames, 32 blocks and 32 inodes.
//! - `on FRAMES BLOCKS INODES`: nothing. There is a fresh pair of these sizes.
//! - `word PLACE VALUE`: nothing. A word of memory is stored, by nobody that keeps a rule.
//! - `block B W VALUE`: nothing. Word W of a block of the disk is.
//! - `bad-block B N`: nothing. In the next reboot and what follows it, N reads of block B fail.
//! - `boot`: what a reboot of the pair tells. Where it fails, whether it changed a word.
//! - `examine`: what a look at the pair finds.
//! - `> LINE`: nothing. The request of this line is one of those that `run` makes, or `each` before its own.
//! - `run`: the replies to these requests after a reboot of the pair. Another line says so where the plain definition has others.
//! - `replies`: the same where the disk fails, so that the plain definition has others. It ends what is at hand.
//! - `? LINE`: nothing. The request of this line is read after each last reboot.
//! - `undone PATH`: nothing. A stop undoes the transaction of the region at this path.
//! - `deep N M`: nothing. Behind each stop, the reboot is stopped before one of N of its steps, or one of N of its calls on the
//!   disk fails; behind one of M stops of a reboot the next one is stopped before each of its steps. 0 is none.
//! - `each LINE`: how the request of this line is found, after it was stopped before its steps (see `stops`) and the machine was
//!   booted: as before it, as after it, or of a write with so many of its first bytes.
//! - `whole LINE`: the same, stopped before the steps of the whole run: its reboot and the lines at hand too.
//! - `faults LINE`: the same after stops of the request, and a reboot of which calls on the disk fail in turn.
//! - `drawn SEED FROM COUNT`: the same of COUNT drawn requests, behind FROM that are not stopped.
//! - `machines-over N`: whether more than so many machines were booted that had been stopped since the title.
//!
//! `timed boot` tells how many milliseconds a reboot of the pair took, and is for no script whose output is compared. An empty
//! line, and one that begins with `#`, comes to nothing.
#![tactic(auto)]

mod due;
mod finder;
mod machines;
mod pairs;
mod readings;
mod session;
mod stops;
mod tallies;
mod telling;
mod words;

use crate::session::Session;
use std::alloc::AllocError;
use std::io::{self, Read, Write};

fn main(rt: HostRuntime) -> io::Result<()> {
    let mut out = Vec::new(rt.alloc());
    let outcome = tell_input(rt, &mut out);
    rt.stdout().write_all(out.as_slice())?;
    outcome
}

/// Tells what the script comes to that is the input.
fn tell_input(rt: HostRuntime, out: &mut Vec<u8>) -> io::Result<()> {
    let mut script = String::new(rt.alloc());
    rt.stdin().read_to_string(&mut script)?;
    Ok(tell_script(rt, script.as_str(), out)?)
}

/// Tells what a script comes to.
fn tell_script(rt: HostRuntime, script: &str, out: &mut Vec<u8>) -> Result<(), AllocError> {
    let mut session = Session::new(rt)?;
    session.tell(script, out)
}
