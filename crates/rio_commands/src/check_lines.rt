//! The line of `check`: what there is on a pair of files, or why nothing is told of it.

ghost use Rattle.std.specs.Prelude.{◌≡◌, ◌≤◌, [], length, take};
ghost use Rattle.std.specs.String.{string_bytes};
ghost use Rattle.rio_base.specs.Failures.{Rose};
ghost use Rattle.request_codec.specs.Sending.{Puts, Sends};
ghost use Rattle.rio_commands.specs.Command.{WritesLine};
ghost use Rattle.rio_commands.specs.CheckLines.{census_line, check_line, check_status, free_part, name_of, node_part, volume_rule_line};

use crate::ends::CheckEnd;
use crate::last_line::say;
use crate::registry_lines::{tell_name, tell_rule};
use pair_files::{PairFile, PairNames};
use request_codec::{put, put_number, send};
use rio_base::{Block, Failed, Sink};
use rio_model::Census;

/// Writes the line of an end, as far as the sink takes it, and answers the status.
pub fn tell_check<K: Sink>(
    end: CheckEnd,
    names: &PairNames<'_>,
    room: &mut [u8],
    sink: &mut K,
) -> u8
    ensures status { result ≡ check_status end }
    ensures line { WritesLine (Rose (K.faults sink.old) (K.faults sink.new)) (K.written sink.old) (check_line end (string_bytes names.now.image.now) (string_bytes names.now.disk.now)) (K.written sink.new) }
    ensures later { K.faults sink.old ≤ K.faults sink.new }
{
    match end {
        CheckEnd::Sound(census) => tell_census(&census, room, sink),
        CheckEnd::BadImage(rule) => tell_rule(rule, room, sink),
        CheckEnd::BadVolume(rule, block) => tell_volume_rule(rule, block, room, sink),
        CheckEnd::Absent(file) => tell_name(b"no such file: ", file_name(names, file), room, sink),
        CheckEnd::HostFault(file) => tell_name(b"host fault: ", file_name(names, file), room, sink),
        CheckEnd::Memory => say(b"out of memory\n", 6, sink),
    }
}

/// The name of one of the two files.
pub fn file_name<'a>(names: &PairNames<'a>, file: PairFile) -> &'a String
    ensures { string_bytes result.now ≡ name_of file (string_bytes names.now.image.now) (string_bytes names.now.disk.now) }
{
    match file {
        PairFile::Image => names.image,
        PairFile::Disk => names.disk,
    }
}

/// Tells what there is on a pair: status 0.
fn tell_census<K: Sink>(census: &Census, room: &mut [u8], sink: &mut K) -> u8
    ensures status { result ≡ 0 }
    ensures line { WritesLine (Rose (K.faults sink.old) (K.faults sink.new)) (K.written sink.old) (census_line census.now) (K.written sink.new) }
    ensures later { K.faults sink.old ≤ K.faults sink.new }
{
    match send_census(census, room, sink) {
        Ok(()) => 0,
        Err(_) => 0,
    }
}

/// Sends the line of what there is on a pair.
fn send_census<K: Sink>(census: &Census, room: &mut [u8], sink: &mut K) -> Result<(), Failed>
    ensures { Sends result (K.written sink.old) (K.faults sink.old) [] (census_line census.now) (K.written sink.new) (K.faults sink.new) [] }
{
    let nodes = put_nodes(census, room, sink)?;
    let line = put_free(census, room, nodes, sink)?;
    send(&room[..line], sink)
}

/// Puts how many directories, files and regions there are.
fn put_nodes<K: Sink>(census: &Census, room: &mut [u8], sink: &mut K) -> Result<usize, Failed>
    ensures { Puts result (K.written sink.old) (K.faults sink.old) [] (node_part census.now) (K.written sink.new) (K.faults sink.new) room.new }
{
    let held = put_number(b"sound dirs ", u64::from(census.dirs), room, 0, sink)?;
    let held = put_number(b" files ", u64::from(census.files), room, held, sink)?;
    put_number(b" regions ", u64::from(census.regions), room, held, sink)
}

/// Puts how many blocks are used and free, and the line's end, behind what is held.
fn put_free<K: Sink>(
    census: &Census,
    room: &mut [u8],
    held: usize,
    sink: &mut K,
) -> Result<usize, Failed>
    requires { held ≤ length room.old }
    ensures { Puts result (K.written sink.old) (K.faults sink.old) (take held room.old) (free_part census.now) (K.written sink.new) (K.faults sink.new) room.new }
{
    let held = put_number(b" used ", u64::from(census.used), room, held, sink)?;
    let held = put_number(b" free ", u64::from(census.free), room, held, sink)?;
    put(b"\n", room, held, sink)
}

/// Tells the first rule that a volume breaks, and its block: status 4.
pub fn tell_volume_rule<K: Sink>(rule: u8, block: Block, room: &mut [u8], sink: &mut K) -> u8
    ensures status { result ≡ 4 }
    ensures line { WritesLine (Rose (K.faults sink.old) (K.faults sink.new)) (K.written sink.old) (volume_rule_line rule block.0) (K.written sink.new) }
    ensures later { K.faults sink.old ≤ K.faults sink.new }
{
    match send_volume_rule(u64::from(rule), u64::from(block.0), room, sink) {
        Ok(()) => 4,
        Err(_) => 4,
    }
}

/// Sends the line of a volume's rule.
fn send_volume_rule<K: Sink>(
    rule: u64,
    block: u64,
    room: &mut [u8],
    sink: &mut K,
) -> Result<(), Failed>
    ensures { Sends result (K.written sink.old) (K.faults sink.old) [] (volume_rule_line rule block) (K.written sink.new) (K.faults sink.new) [] }
{
    let held = put_number(b"volume refused: rule ", rule, room, 0, sink)?;
    let held = put_number(b" block ", block, room, held, sink)?;
    let line = put(b"\n", room, held, sink)?;
    send(&room[..line], sink)
}
