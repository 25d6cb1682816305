//! The lines that tell what a drill came to.

ghost use Rattle.std.specs.Prelude.{◌≡◌, ◌<◌, ◌≤◌, ◌^◌, [], length, take};
ghost use Rattle.rio_base.specs.Failures.{Rose};
ghost use Rattle.request_codec.specs.Sending.{Puts, Sends};
ghost use Rattle.boots.specs.Summaries.{answered_line, boots_line, count_line, counted_line, nodes_line, refusal_line, refusal_lines, reply_count, summary};
ghost use Rattle.boots.specs.Told.{LacksMemory, Tells};

use crate::counts::{all_replies, ok_replies, refusals, stopped_boots};
use crate::{BootRun, Transcript};
use request_codec::{ROOM_BYTES, put, put_number, send};
use rio_base::{Failed, Sink};

/// How many refusal numbers there can be: each is a byte.
const NUMBERS: u16 = 256;

/// Writes the summary of a transcript, as far as the sink takes it. Answers the status: 0 where it took all, else 9.
pub fn tell_summary<K: Sink>(transcript: &Transcript, sink: &mut K) -> u8
    requires { reply_count transcript.now.boots < 2 ^ 64 }
    ensures tells { Tells result (Rose (K.faults sink.old) (K.faults sink.new)) transcript.now (K.written sink.old) (K.written sink.new) }
    ensures steady { result ≡ 0 → K.faults sink.new ≡ K.faults sink.old }
    ensures later { K.faults sink.old ≤ K.faults sink.new }
{
    let mut room = [0; ROOM_BYTES];
    match send_summary(transcript, &mut room, sink) {
        Ok(()) => 0,
        Err(_) => 9,
    }
}

/// Sends a summary.
fn send_summary<K: Sink>(
    transcript: &Transcript,
    room: &mut [u8],
    sink: &mut K,
) -> Result<(), Failed>
    requires { reply_count transcript.now.boots < 2 ^ 64 }
    ensures { Sends result (K.written sink.old) (K.faults sink.old) [] (summary transcript.now) (K.written sink.new) (K.faults sink.new) [] }
{
    let runs = transcript.boots.as_slice();
    let held = put_boots(runs, room, sink)?;
    let held = put_answered(runs, room, held, sink)?;
    let held = put_refusals(runs, NUMBERS, room, held, sink)?;
    let held = put_nodes(transcript, room, held, sink)?;
    send(&room[..held], sink)
}

/// Puts how many boots there were, and how many of them stopped.
fn put_boots<K: Sink>(runs: &[BootRun], room: &mut [u8], sink: &mut K) -> Result<usize, Failed>
    ensures { Puts result (K.written sink.old) (K.faults sink.old) [] (boots_line runs.now) (K.written sink.new) (K.faults sink.new) room.new }
{
    let held = put_number(b"boots ", runs.len() as u64, room, 0, sink)?;
    let held = put_number(b" stopped ", stopped_boots(runs), room, held, sink)?;
    put(b"\n", room, held, sink)
}

/// Puts how many replies there were, and how many of them begin with `ok`.
fn put_answered<K: Sink>(
    runs: &[BootRun],
    room: &mut [u8],
    held: usize,
    sink: &mut K,
) -> Result<usize, Failed>
    requires few { reply_count runs.now < 2 ^ 64 }
    requires fits { held ≤ length room.old }
    ensures { Puts result (K.written sink.old) (K.faults sink.old) (take held room.old) (answered_line runs.now) (K.written sink.new) (K.faults sink.new) room.new }
{
    let held = put_number(b"answered ", all_replies(runs), room, held, sink)?;
    let held = put_number(b" ok ", ok_replies(runs), room, held, sink)?;
    put(b"\n", room, held, sink)
}

/// Puts a line for each refusal number below this one that a reply has, rising.
fn put_refusals<K: Sink>(
    runs: &[BootRun],
    numbers: u16,
    room: &mut [u8],
    held: usize,
    sink: &mut K,
) -> Result<usize, Failed>
    requires few { reply_count runs.now < 2 ^ 64 }
    requires bytes { numbers ≤ 256 }
    requires fits { held ≤ length room.old }
    ensures { Puts result (K.written sink.old) (K.faults sink.old) (take held room.old) (refusal_lines runs.now numbers) (K.written sink.new) (K.faults sink.new) room.new }
{
    let mut held = held;
    'numbers: for number in 0..numbers {
        held = put_refusal(runs, number as u8, room, held, sink)?;
    }
    Ok(held)
}

/// Puts the line of a refusal number, if a reply has it.
fn put_refusal<K: Sink>(
    runs: &[BootRun],
    number: u8,
    room: &mut [u8],
    held: usize,
    sink: &mut K,
) -> Result<usize, Failed>
    requires few { reply_count runs.now < 2 ^ 64 }
    requires fits { held ≤ length room.old }
    ensures { Puts result (K.written sink.old) (K.faults sink.old) (take held room.old) (refusal_line runs.now number) (K.written sink.new) (K.faults sink.new) room.new }
{
    put_count(number, refusals(runs, number), room, held, sink)
}

/// Puts the line of a refusal number and its count, unless the count is 0.
fn put_count<K: Sink>(
    number: u8,
    count: u64,
    room: &mut [u8],
    held: usize,
    sink: &mut K,
) -> Result<usize, Failed>
    requires { held ≤ length room.old }
    ensures { Puts result (K.written sink.old) (K.faults sink.old) (take held room.old) (counted_line number count) (K.written sink.new) (K.faults sink.new) room.new }
{
    if count == 0 {
        return Ok(held);
    }
    put_counted(number, count, room, held, sink)
}

/// Puts a refusal number and its count, and the line's end.
fn put_counted<K: Sink>(
    number: u8,
    count: u64,
    room: &mut [u8],
    held: usize,
    sink: &mut K,
) -> Result<usize, Failed>
    requires { held ≤ length room.old }
    ensures { Puts result (K.written sink.old) (K.faults sink.old) (take held room.old) (count_line number count) (K.written sink.new) (K.faults sink.new) room.new }
{
    let held = put_number(b"err ", u64::from(number), room, held, sink)?;
    let held = put_number(b" ", count, room, held, sink)?;
    put(b"\n", room, held, sink)
}

/// Puts what there is after the last boot.
fn put_nodes<K: Sink>(
    transcript: &Transcript,
    room: &mut [u8],
    held: usize,
    sink: &mut K,
) -> Result<usize, Failed>
    requires { held ≤ length room.old }
    ensures { Puts result (K.written sink.old) (K.faults sink.old) (take held room.old) (nodes_line transcript.now) (K.written sink.new) (K.faults sink.new) room.new }
{
    let last = &transcript.last;
    let held = put_number(b"dirs ", u64::from(last.dirs), room, held, sink)?;
    let held = put_number(b" files ", u64::from(last.files), room, held, sink)?;
    let held = put_number(b" regions ", u64::from(last.regions), room, held, sink)?;
    let held = put_number(b" bytes ", transcript.bytes, room, held, sink)?;
    put(b"\n", room, held, sink)
}

/// Tells that there was no memory for a drill. Answers the status, which is 6.
pub fn tell_memory<K: Sink>(sink: &mut K) -> u8
    ensures lacks { LacksMemory result (Rose (K.faults sink.old) (K.faults sink.new)) (K.written sink.old) (K.written sink.new) }
    ensures later { K.faults sink.old ≤ K.faults sink.new }
{
    match send(b"out of memory\n", sink) {
        Ok(()) => 6,
        Err(_) => 6,
    }
}
