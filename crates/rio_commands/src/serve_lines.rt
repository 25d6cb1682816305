//! The line of `serve`: how it ended.

ghost use Rattle.std.specs.Prelude.{◌≡◌, ◌≤◌, [], None};
ghost use Rattle.std.specs.String.{string_bytes};
ghost use Rattle.rio_base.specs.Failures.{Rose};
ghost use Rattle.request_codec.specs.Sending.{Sends};
ghost use Rattle.rio_commands.specs.Command.{WritesLine};
ghost use Rattle.line_loop.specs.LinesEnds.{loop_end};
ghost use Rattle.rio_commands.specs.ServeLines.{lines_line, lines_status, loop_line, serve_line, serve_status, stop_line, stopped_line, trapped_line};

use crate::check_lines::{file_name, tell_volume_rule};
use crate::last_line::say;
use crate::registry_lines::{tell_name, tell_rule};
use line_loop::{LinesEnd, ServeEnd};
use pair_files::{PairEnd, PairNames};
use request_codec::{put, put_number, send};
use rio_base::{Failed, Sink, WordAt};

/// Writes the line of an end, as far as the sink takes it, and answers the status.
pub fn tell_end<K: Sink>(
    end: PairEnd<LinesEnd>,
    names: &PairNames<'_>,
    stop: Option<u64>,
    room: &mut [u8],
    sink: &mut K,
) -> u8
    ensures status { result ≡ serve_status end }
    ensures line { WritesLine (Rose (K.faults sink.old) (K.faults sink.new)) (K.written sink.old) (serve_line end (string_bytes names.now.image.now) (string_bytes names.now.disk.now) stop) (K.written sink.new) }
    ensures steady { result ≡ 0 → K.faults sink.new ≡ K.faults sink.old }
    ensures later { K.faults sink.old ≤ K.faults sink.new }
{
    match end {
        PairEnd::Worked(end) => tell_served(end, stop, room, sink),
        PairEnd::BadImage(rule) => tell_rule(rule, room, sink),
        PairEnd::BadVolume(rule, block) => tell_volume_rule(rule, block, room, sink),
        PairEnd::BootFault => say(b"device fault at boot\n", 5, sink),
        PairEnd::Memory => say(b"out of memory\n", 6, sink),
        PairEnd::Absent(file) => tell_name(b"no such file: ", file_name(names, file), room, sink),
        PairEnd::HostFault(file) => tell_name(b"host fault: ", file_name(names, file), room, sink),
        PairEnd::Unsaved(_) => tell_name(b"host fault: ", names.image, room, sink),
        PairEnd::BootStopped => tell_stop(stop, room, sink),
    }
}

/// Writes the line of an end after lines were served, as far as the sink takes it, and answers the status.
fn tell_served<K: Sink>(end: LinesEnd, stop: Option<u64>, room: &mut [u8], sink: &mut K) -> u8
    ensures status { result ≡ lines_status (loop_end end) }
    ensures line { WritesLine (Rose (K.faults sink.old) (K.faults sink.new)) (K.written sink.old) (lines_line end stop) (K.written sink.new) }
    ensures steady { result ≡ 0 → K.faults sink.new ≡ K.faults sink.old }
    ensures later { K.faults sink.old ≤ K.faults sink.new }
{
    match end {
        LinesEnd::Ended(end) => tell_loop(end, stop, room, sink),
        LinesEnd::Trapped(at) => tell_trap(at, room, sink),
    }
}

/// Writes the line of an end that the loop of lines tells, as far as the sink takes it, and answers the status.
fn tell_loop<K: Sink>(end: ServeEnd, stop: Option<u64>, room: &mut [u8], sink: &mut K) -> u8
    ensures status { result ≡ lines_status end }
    ensures line { WritesLine (Rose (K.faults sink.old) (K.faults sink.new)) (K.written sink.old) (loop_line end stop) (K.written sink.new) }
    ensures steady { result ≡ 0 → K.faults sink.new ≡ K.faults sink.old }
    ensures later { K.faults sink.old ≤ K.faults sink.new }
{
    match end {
        ServeEnd::End => 0,
        ServeEnd::Memory => say(b"out of memory\n", 6, sink),
        ServeEnd::SourceFault => say(b"source fault\n", 8, sink),
        ServeEnd::SinkFault => 9,
        ServeEnd::Stopped => tell_stop(stop, room, sink),
        ServeEnd::InputLimit => say(b"input limit\n", 11, sink),
    }
}

/// Tells after how many steps the machine stopped, by the stop that was given: status 10.
fn tell_stop<K: Sink>(stop: Option<u64>, room: &mut [u8], sink: &mut K) -> u8
    ensures status { result ≡ 10 }
    ensures line { WritesLine (Rose (K.faults sink.old) (K.faults sink.new)) (K.written sink.old) (stop_line stop) (K.written sink.new) }
    ensures later { K.faults sink.old ≤ K.faults sink.new }
{
    let Some(steps) = stop else {
        return 10;
    };
    match send_stop(steps, room, sink) {
        Ok(()) => 10,
        Err(_) => 10,
    }
}

/// Sends the line of a stop after so many steps.
fn send_stop<K: Sink>(steps: u64, room: &mut [u8], sink: &mut K) -> Result<(), Failed>
    ensures { Sends result (K.written sink.old) (K.faults sink.old) [] (stopped_line steps) (K.written sink.new) (K.faults sink.new) [] }
{
    let held = put_number(b"stopped ", steps, room, 0, sink)?;
    let line = put(b"\n", room, held, sink)?;
    send(&room[..line], sink)
}

/// Tells on which word a wild store trapped: status 10.
fn tell_trap<K: Sink>(at: WordAt, room: &mut [u8], sink: &mut K) -> u8
    ensures status { result ≡ 10 }
    ensures line { WritesLine (Rose (K.faults sink.old) (K.faults sink.new)) (K.written sink.old) (trapped_line at.0) (K.written sink.new) }
    ensures later { K.faults sink.old ≤ K.faults sink.new }
{
    match send_trap(u64::from(at.0), room, sink) {
        Ok(()) => 10,
        Err(_) => 10,
    }
}

/// Sends the line of a trap on this word.
fn send_trap<K: Sink>(at: u64, room: &mut [u8], sink: &mut K) -> Result<(), Failed>
    ensures { Sends result (K.written sink.old) (K.faults sink.old) [] (trapped_line at) (K.written sink.new) (K.faults sink.new) [] }
{
    let held = put_number(b"trapped ", at, room, 0, sink)?;
    let line = put(b"\n", room, held, sink)?;
    send(&room[..line], sink)
}
