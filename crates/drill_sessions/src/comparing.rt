//! What the plans of a script come to.

use crate::defined::{are_alike, first_difference};
use crate::mishaps::{AS_ARMED, FAILING, Mishaps, OTHER_CHOICES, Others, UNREACHED, mishaps_of};
use crate::plans::{Drawn, run};
use crate::words::Plan;
use boots::{BootEnd, BootRun, Transcript};
use rio_requests::{Reply, Request};
use std::alloc::AllocError;
use test_scripts::tell_line;

/// Tells what a plan comes to.
pub fn tell_plan(plan: Plan, drawn: &Drawn, out: &mut Vec<u8>) -> Result<(), AllocError> {
    let transcript = run(drawn, mishaps_of(plan))?;
    tell_transcript(plan, drawn, &transcript, out)
}

/// Tells what the boots of a plan come to, of which this is the transcript.
fn tell_transcript(
    plan: Plan,
    drawn: &Drawn,
    transcript: &Transcript,
    out: &mut Vec<u8>,
) -> Result<(), AllocError> {
    match plan {
        Plan::Same => tell_one(drawn, transcript, out),
        Plan::Unreached => tell_unreached(drawn, transcript, out),
        Plan::Boots => tell_two(drawn.count, transcript, out),
        Plan::Choices => tell_choices(drawn, transcript, out),
        Plan::Faults => tell_ends(transcript, out),
        Plan::Armed => tell_armed(drawn, transcript, out),
    }
}

/// Tells whether the one boot of a transcript answered the drawn requests as defined.
fn tell_one(drawn: &Drawn, transcript: &Transcript, out: &mut Vec<u8>) -> Result<(), AllocError> {
    match transcript.boots.as_slice() {
        [run] => tell_answers(drawn, run.answered.as_slice(), out),
        _ => tell_line(out, b"not one boot"),
    }
}

/// Tells whether drawn requests were answered as defined.
fn tell_answers(
    drawn: &Drawn,
    answered: &[(Request, Reply)],
    out: &mut Vec<u8>,
) -> Result<(), AllocError> {
    if answered.len() as u64 > drawn.count {
        return tell_line(out, b"more answers than requests");
    }
    match first_difference(drawn, answered)? {
        Some(number) => tell_difference(number, out),
        None => tell_line(out, b"as defined"),
    }
}

/// Tells which request was not answered as defined.
fn tell_difference(number: u64, out: &mut Vec<u8>) -> Result<(), AllocError> {
    let told = format!(in *out.allocator(); "{number} differs")?;
    tell_line(out, told.as_bytes())
}

/// Whether boots that these befall come to what a transcript has.
fn come_to(drawn: &Drawn, mishaps: Mishaps, transcript: &Transcript) -> Result<bool, AllocError> {
    let other = run(drawn, mishaps)?;
    are_alike(drawn.alloc, transcript, &other)
}

/// What is told of the first of other mishaps with which boots do not come to what a transcript has.
fn first_unlike(
    drawn: &Drawn,
    others: Others,
    transcript: &Transcript,
) -> Result<Option<&'static str>, AllocError> {
    for (told, mishaps) in others {
        if !come_to(drawn, mishaps, transcript)? {
            return Ok(Some(*told));
        }
    }
    Ok(None)
}

/// What is told of the first of other mishaps with which boots come to what a transcript has.
fn first_alike(
    drawn: &Drawn,
    others: Others,
    transcript: &Transcript,
) -> Result<Option<&'static str>, AllocError> {
    for (told, mishaps) in others {
        if come_to(drawn, mishaps, transcript)? {
            return Ok(Some(*told));
        }
    }
    Ok(None)
}

/// Tells whether a stop and a failing call that no boot reaches change nothing.
fn tell_unreached(drawn: &Drawn, plain: &Transcript, out: &mut Vec<u8>) -> Result<(), AllocError> {
    match first_unlike(drawn, &UNREACHED, plain)? {
        Some(told) => tell_line(out, told.as_bytes()),
        None => tell_line(out, b"the same"),
    }
}

/// Tells how boots ended, where they come to the same whatever the pending blocks hold after the stop.
fn tell_choices(drawn: &Drawn, as_read: &Transcript, out: &mut Vec<u8>) -> Result<(), AllocError> {
    match first_unlike(drawn, &OTHER_CHOICES, as_read)? {
        Some(told) => tell_line(out, told.as_bytes()),
        None => {
            tell_ends(as_read, out)?;
            tell_line(out, b"the same")
        }
    }
}

/// Tells how the first of two boots ended, and what the second one answered to so many requests.
fn tell_two(count: u64, transcript: &Transcript, out: &mut Vec<u8>) -> Result<(), AllocError> {
    match transcript.boots.as_slice() {
        [first, second] => {
            tell_line(out, end_word(first.end).as_bytes())?;
            tell_line(out, answers_word(second, count).as_bytes())
        }
        _ => tell_line(out, b"not two boots"),
    }
}

/// Tells the same of two boots of which the first has a wild store, and what other boots they are alike.
fn tell_armed(drawn: &Drawn, armed: &Transcript, out: &mut Vec<u8>) -> Result<(), AllocError> {
    tell_two(drawn.count, armed, out)?;
    match first_alike(drawn, &AS_ARMED, armed)? {
        Some(told) => tell_line(out, told.as_bytes()),
        None => tell_line(out, b"unlike both"),
    }
}

/// Tells how each boot ended, and whether its replies tell of device faults.
fn tell_ends(transcript: &Transcript, out: &mut Vec<u8>) -> Result<(), AllocError> {
    for run in transcript.boots.as_slice() {
        tell_end(run, out)?;
    }
    Ok(())
}

/// Tells that of a boot.
fn tell_end(run: &BootRun, out: &mut Vec<u8>) -> Result<(), AllocError> {
    out.extend_from_slice(b"    ")?;
    out.extend_from_slice(end_word(run.end).as_bytes())?;
    out.extend_from_slice(b", ")?;
    out.extend_from_slice(faults_word(faults_of(run)).as_bytes())?;
    out.extend_from_slice(b"\n")
}

/// How a boot ended, in a word.
fn end_word(end: BootEnd) -> &'static str {
    match end {
        BootEnd::Served => "served",
        BootEnd::Stopped => "stopped",
        BootEnd::BootFault => "fault at boot",
    }
}

/// How many replies of a boot tell of device faults.
fn faults_of(run: &BootRun) -> u64 {
    let mut faults = 0u64;
    for (_, reply) in run.answered.as_slice() {
        if let Reply::Fault(_) = reply {
            faults = faults.saturating_add(1);
        }
    }
    faults
}

/// Whether there are so many faults as none, or more than the failing calls of a boot.
fn faults_word(faults: u64) -> &'static str {
    if faults == 0 {
        return "no reply 30";
    }
    if faults <= FAILING {
        return "replies 30";
    }
    "too many replies 30"
}

/// Whether the second boot answered all of so many requests.
fn answers_word(run: &BootRun, count: u64) -> &'static str {
    let whole = run.answered.as_slice().len() as u64 == count;
    match run.end {
        BootEnd::Served if whole => "second whole",
        _ => "second not whole",
    }
}
