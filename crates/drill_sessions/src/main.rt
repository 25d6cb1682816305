//! What a drill draws, and plans of drawn requests that are run, in one boot or more, over the volume of a drill. The
//! script is the program's input. Its output has each line of it and below it, four spaces further in, what came of it.
//!
//! What is drawn:
//!
//! - `seed N`: nothing. What follows is drawn from this number on.
//! - `draws N`: so many numbers.
//! - `requests N`: so many requests, each on a line of its own. Bytes are told by how many there are, the first, the last and
//!   their sum.
//! - `ends N`: the ends of so many boots.
//!
//! What is run:
//!
//! - `same SEED COUNT`: one boot of so many requests. `as defined` where it answered all of them as the plain definition
//!   does; else the number of the first one that it did not, from 1.
//! - `unreached SEED COUNT`: two boots of so many requests each, then the same with a stop, and then with a failing call, that
//!   no boot reaches. `the same` where all three have one transcript; else which one differs.
//! - `boots SEED COUNT STEPS`: two boots of so many requests each, of which the first stops after so many steps. How the first
//!   one ended, and then whether the second one answered all its requests.
//! - `choices SEED COUNT STEPS`: three boots of so many requests each, of which the second stops after so many steps, with each
//!   choice of what the pending blocks hold then. How each boot ended, and whether its replies tell of device faults; and then
//!   `the same` where all three choices have one transcript, else which one differs.
//! - `faults SEED COUNT CALL`: three boots of so many requests each. Two calls of the disk fail in the first, from this one
//!   on, and the first two in the third. How each boot ended, and whether its replies tell of device faults, which is never
//!   of more than two.
//! - `armed SEED COUNT STEPS AT`: two boots of so many requests each. Behind so many steps of the first one a wild store falls on
//!   this word of memory. How the first one ended, whether the second one answered all its requests, and which boots of the
//!   same requests have the same transcript: those with no wild store, or those of which the first stops after so many steps.
//!
//! An empty line, and one that begins with `#` or `==`, comes to nothing.
#![tactic(auto)]

mod comparing;
mod defined;
mod drawing;
mod mishaps;
mod plans;
mod request_text;
mod words;

use crate::comparing::tell_plan;
use crate::drawing::drawn;
use crate::plans::Drawn;
use crate::words::Plan;
use std::alloc::{AllocError, Global};
use std::io::{self, Read, Write};
use test_scripts::{first_word, number, numbers};
use work_gen::Gen;

fn main(rt: HostRuntime) -> io::Result<()> {
    let mut script = String::new(rt.alloc());
    let mut out = Vec::new(rt.alloc());
    answer(rt, &mut script, &mut out)
}

/// Reads the script, and prints what it comes to, or as far as memory lasts.
fn answer(rt: HostRuntime, script: &mut String, out: &mut Vec<u8>) -> io::Result<()> {
    rt.stdin().read_to_string(script)?;
    let outcome = tell_script(rt.alloc(), script.as_str(), out);
    rt.stdout().write_all(out.as_slice())?;
    Ok(outcome?)
}

/// Tells each line of a script, and what it comes to.
fn tell_script(alloc: Global, script: &str, out: &mut Vec<u8>) -> Result<(), AllocError> {
    let mut draws = Gen::new(0);
    for line in script.lines() {
        tell_told(alloc, &mut draws, line, out)?;
    }
    Ok(())
}

/// Tells a line of the script, and what it comes to.
fn tell_told(
    alloc: Global,
    draws: &mut Gen,
    line: &str,
    out: &mut Vec<u8>,
) -> Result<(), AllocError> {
    out.extend_from_slice(line.as_bytes())?;
    out.extend_from_slice(b"\n")?;
    let (word, rest) = first_word(line);
    match Plan::named(word) {
        Some(plan) => tell_numbers(alloc, plan, rest, out),
        None => out.extend_from_slice(drawn(alloc, draws, word, rest)?.as_bytes()),
    }
}

/// Tells what a plan of these numbers comes to.
fn tell_numbers(
    alloc: Global,
    plan: Plan,
    rest: &str,
    out: &mut Vec<u8>,
) -> Result<(), AllocError> {
    let (seed, rest) = first_word(rest);
    let [count, told, at] = numbers(rest)?;
    let drawn = Drawn {
        alloc,
        seed: u32::try_from(number(seed)?).unwrap_or(0),
        count,
        number: told,
        at: u32::try_from(at).unwrap_or(u32::MAX),
    };
    tell_plan(plan, &drawn, out)
}
