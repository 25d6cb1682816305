//! The listing of a registry.

ghost use Rattle.std.specs.Prelude.{◌≡◌, ◌<◌, ◌≤◌, [], ◌++◌, ℕ, true, false, IfSome, IfNone, flat_map, length, take};
ghost use Rattle.std.specs.List.{range_with_len};
ghost use Rattle.request_codec.specs.Sending.{Puts, Sends};
ghost use Rattle.rio_model.specs.Registry.{HasLayout, frames_of, is_valid, tag_at};
ghost use Rattle.rio_commands.specs.Registry.{entry_line, header_line, registry_text, row_of};

use crate::registry_lines::{Row, put_header, put_row};
use registry::{Tag, read_entry};
use request_codec::send;
use rio_base::{Failed, Machine, Sink, WordAt};

/// Where the header has the number of frames.
const FRAMES_AT: WordAt = WordAt(2);

/// Where the header has the number of scratch pages.
const SCRATCH_AT: WordAt = WordAt(3);

/// Where the header has the gate.
const GATE_AT: WordAt = WordAt(4);

/// Writes the sizes and the gate, and then a line for each valid entry, in order. It takes no memory.
pub fn list_registry<M: Machine, K: Sink>(
    m: &M,
    room: &mut [u8],
    sink: &mut K,
) -> Result<(), Failed>
    requires layout { HasLayout (M.contents m.now).words (M.run m.now).scratch }
    ensures { Sends result (K.written sink.old) (K.faults sink.old) [] (registry_text (M.contents m.now).words) (K.written sink.new) (K.faults sink.new) [] }
{
    let held = put_sizes(m, room, sink)?;
    let held = put_entries(m, room, held, sink)?;
    send(&room[..held], sink)
}

/// Puts the sizes and the gate.
fn put_sizes<M: Machine, K: Sink>(m: &M, room: &mut [u8], sink: &mut K) -> Result<usize, Failed>
    requires layout { HasLayout (M.contents m.now).words (M.run m.now).scratch }
    ensures { Puts result (K.written sink.old) (K.faults sink.old) [] (header_line (M.contents m.now).words) (K.written sink.new) (K.faults sink.new) room.new }
{
    let frames = m.load(FRAMES_AT);
    let scratch = m.load(SCRATCH_AT);
    let gate = m.load(GATE_AT);
    put_header(frames, scratch, gate, room, sink)
}

/// Puts a line for each valid entry behind what is held.
fn put_entries<M: Machine, K: Sink>(
    m: &M,
    room: &mut [u8],
    held: usize,
    sink: &mut K,
) -> Result<usize, Failed>
    requires layout { HasLayout (M.contents m.now).words (M.run m.now).scratch }
    requires fits { held ≤ length room.old }
    ensures { Puts result (K.written sink.old) (K.faults sink.old) (take held room.old) (flat_map (entry_line (M.contents m.now).words) (range_with_len 0 (frames_of (M.contents m.now).words))) (K.written sink.new) (K.faults sink.new) room.new }
{
    let frames = m.load(FRAMES_AT) as u32;
    let mut held = held;
    'entries: for k in 0..frames {
        held = put_entry(m, k, room, held, sink)?;
    }
    Ok(held)
}

/// Puts the line of an entry behind what is held, where the entry is valid.
fn put_entry<M: Machine, K: Sink>(
    m: &M,
    k: u32,
    room: &mut [u8],
    held: usize,
    sink: &mut K,
) -> Result<usize, Failed>
    requires layout { HasLayout (M.contents m.now).words (M.run m.now).scratch }
    requires entry { k < frames_of (M.contents m.now).words }
    requires fits { held ≤ length room.old }
    ensures { Puts result (K.written sink.old) (K.faults sink.old) (take held room.old) (entry_line (M.contents m.now).words k) (K.written sink.new) (K.faults sink.new) room.new }
{
    match row_at(m, k) {
        Some(row) => put_row(&row, room, held, sink),
        None => Ok(held),
    }
}

/// What the line of an entry says, or `None` where the entry isn't valid.
fn row_at<M: Machine>(m: &M, k: u32) -> Option<Row>
    requires layout { HasLayout (M.contents m.now).words (M.run m.now).scratch }
    requires entry { k < frames_of (M.contents m.now).words }
    ensures row { IfSome result (λ row. row ≡ row_of (M.contents m.now).words k) }
    ensures valid { IfSome result (λ row. is_valid (tag_at (M.contents m.now).words k) ≡ true) }
    ensures none { IfNone result (is_valid (tag_at (M.contents m.now).words k) ≡ false) }
{
    let entry = read_entry(m, k);
    let tag = Tag(entry.tag);
    if !tag.is_valid() {
        return None;
    }
    Some(Row {
        frame: u64::from(k),
        block: u64::from(tag.block().0),
        dirty: tag.is_dirty(),
        of_file: tag.is_data(),
        file: entry.file,
        index: entry.index,
        size: entry.size,
        shadow: entry.shadow,
    })
}
