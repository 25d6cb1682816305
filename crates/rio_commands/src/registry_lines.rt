//! The lines of `registry`, gathered in a room on their way to the sink.

ghost use Rattle.std.specs.Prelude.{◌≡◌, ◌≤◌, ◌++◌, [], codes, length, take, if◌then◌else◌};
ghost use Rattle.std.specs.String.{string_bytes};
ghost use Rattle.rio_base.specs.Failures.{Rose};
ghost use Rattle.request_codec.specs.Sending.{Puts, Sends};
ghost use Rattle.rio_commands.specs.Command.{WritesLine};
ghost use Rattle.rio_commands.specs.RegistryLines.{block_part, field, file_part, image_rule_line, registry_line, registry_status, row_line};

use crate::ends::RegistryEnd;
use crate::last_line::say;
use request_codec::{put, put_number, send};
use rio_base::{Failed, Sink};

/// What a line says of a frame's entry.
#[derive(Clone, Copy, Debug, PartialEq, Eq)]
pub struct Row {
    /// The frame, from 0.
    pub frame: u64,
    /// The block that the frame has.
    pub block: u64,
    /// Whether the page may differ from the disk's block.
    pub dirty: bool,
    /// Whether the page is one of a file or region, and not metadata.
    pub of_file: bool,
    /// The inode number of the page's file, 0 for metadata.
    pub file: u64,
    /// Which page of the file it is, from 0; 0 for metadata.
    pub index: u64,
    /// How many bytes of the page the file uses, 4,096 for metadata.
    pub size: u64,
    /// The shadow frame of an update, from 1 to 16, or 0.
    pub shadow: u64,
}

/// Puts the line of the sizes and the gate.
pub fn put_header<K: Sink>(
    frames: u64,
    scratch: u64,
    gate: u64,
    room: &mut [u8],
    sink: &mut K,
) -> Result<usize, Failed>
    ensures { Puts result (K.written sink.old) (K.faults sink.old) [] (field (codes "frames ") frames ++ field (codes " scratch ") scratch ++ field (codes " gate ") gate ++ codes "\n") (K.written sink.new) (K.faults sink.new) room.new }
{
    let held = put_number(b"frames ", frames, room, 0, sink)?;
    let held = put_number(b" scratch ", scratch, room, held, sink)?;
    let held = put_number(b" gate ", gate, room, held, sink)?;
    put(b"\n", room, held, sink)
}

/// Puts the line of a frame's entry behind what is held.
pub fn put_row<K: Sink>(
    row: &Row,
    room: &mut [u8],
    held: usize,
    sink: &mut K,
) -> Result<usize, Failed>
    requires { held ≤ length room.old }
    ensures { Puts result (K.written sink.old) (K.faults sink.old) (take held room.old) (row_line row.now) (K.written sink.new) (K.faults sink.new) room.new }
{
    let held = put_block(row, room, held, sink)?;
    put_file(row, room, held, sink)
}

/// Puts which block a frame has, and in which state.
fn put_block<K: Sink>(
    row: &Row,
    room: &mut [u8],
    held: usize,
    sink: &mut K,
) -> Result<usize, Failed>
    requires { held ≤ length room.old }
    ensures { Puts result (K.written sink.old) (K.faults sink.old) (take held room.old) (block_part row.now) (K.written sink.new) (K.faults sink.new) room.new }
{
    let held = put_number(b"", row.frame, room, held, sink)?;
    let held = put_number(b" block ", row.block, room, held, sink)?;
    let held = put(state_word(row.dirty), room, held, sink)?;
    put(kind_word(row.of_file), room, held, sink)
}

/// Puts which page of which file a frame has, and the line's end.
fn put_file<K: Sink>(row: &Row, room: &mut [u8], held: usize, sink: &mut K) -> Result<usize, Failed>
    requires { held ≤ length room.old }
    ensures { Puts result (K.written sink.old) (K.faults sink.old) (take held room.old) (file_part row.now) (K.written sink.new) (K.faults sink.new) room.new }
{
    let held = put_number(b" file ", row.file, room, held, sink)?;
    let held = put_number(b" index ", row.index, room, held, sink)?;
    let held = put_number(b" size ", row.size, room, held, sink)?;
    let held = put_number(b" shadow ", row.shadow, room, held, sink)?;
    put(b"\n", room, held, sink)
}

/// The word of a state, behind a space.
fn state_word(dirty: bool) -> &'static [u8]
    ensures { result.now ≡ (if dirty then codes " dirty" else codes " clean") }
{
    if dirty {
        return b" dirty";
    }
    b" clean"
}

/// The word of a kind, behind a space.
fn kind_word(of_file: bool) -> &'static [u8]
    ensures { result.now ≡ (if of_file then codes " data" else codes " meta") }
{
    if of_file {
        return b" data";
    }
    b" meta"
}

/// Writes the line of an end where nothing is listed, as far as the sink takes it, and answers the status.
pub fn tell_registry<K: Sink>(end: RegistryEnd, image: &String, room: &mut [u8], sink: &mut K) -> u8
    ensures status { result ≡ registry_status end }
    ensures line { WritesLine (Rose (K.faults sink.old) (K.faults sink.new)) (K.written sink.old) (registry_line end (string_bytes image.now)) (K.written sink.new) }
    ensures later { K.faults sink.old ≤ K.faults sink.new }
{
    match end {
        RegistryEnd::Refused(rule) => tell_rule(rule, room, sink),
        RegistryEnd::Absent => tell_name(b"no such file: ", image, room, sink),
        RegistryEnd::HostFault => tell_name(b"host fault: ", image, room, sink),
        RegistryEnd::Memory => say(b"out of memory\n", 6, sink),
        RegistryEnd::Listed => 0,
        RegistryEnd::SinkFault => 9,
    }
}

/// Tells the first rule that an image breaks: status 3.
pub fn tell_rule<K: Sink>(rule: u8, room: &mut [u8], sink: &mut K) -> u8
    ensures status { result ≡ 3 }
    ensures line { WritesLine (Rose (K.faults sink.old) (K.faults sink.new)) (K.written sink.old) (image_rule_line rule) (K.written sink.new) }
    ensures later { K.faults sink.old ≤ K.faults sink.new }
{
    match send_rule(u64::from(rule), room, sink) {
        Ok(()) => 3,
        Err(_) => 3,
    }
}

/// Sends the line of a rule.
fn send_rule<K: Sink>(rule: u64, room: &mut [u8], sink: &mut K) -> Result<(), Failed>
    ensures { Sends result (K.written sink.old) (K.faults sink.old) [] (image_rule_line rule) (K.written sink.new) (K.faults sink.new) [] }
{
    let body = put_number(b"image refused: rule ", rule, room, 0, sink)?;
    let line = put(b"\n", room, body, sink)?;
    send(&room[..line], sink)
}

/// Tells that a file can't be read, and why: status 7.
pub fn tell_name<K: Sink>(why: &[u8], name: &String, room: &mut [u8], sink: &mut K) -> u8
    ensures status { result ≡ 7 }
    ensures line { WritesLine (Rose (K.faults sink.old) (K.faults sink.new)) (K.written sink.old) (why.now ++ string_bytes name.now ++ codes "\n") (K.written sink.new) }
    ensures later { K.faults sink.old ≤ K.faults sink.new }
{
    match send_name(why, name.as_bytes(), room, sink) {
        Ok(()) => 7,
        Err(_) => 7,
    }
}

/// Sends the line of a file's name.
fn send_name<K: Sink>(why: &[u8], name: &[u8], room: &mut [u8], sink: &mut K) -> Result<(), Failed>
    ensures { Sends result (K.written sink.old) (K.faults sink.old) [] (why.now ++ name.now ++ codes "\n") (K.written sink.new) (K.faults sink.new) [] }
{
    let reason = put(why, room, 0, sink)?;
    let body = put(name, room, reason, sink)?;
    let line = put(b"\n", room, body, sink)?;
    send(&room[..line], sink)
}
