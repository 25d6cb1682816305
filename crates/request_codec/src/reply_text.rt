//! Replies as lines of text.

ghost use Rattle.std.specs.Prelude.{◌≡◌, ◌+◌, ◌<◌, ◌≤◌, ◌++◌, ◌∷◌, [], ℕ, true, OnOk, OnErr, codes, decimal, flat_map, length, slice_index_or, take};
ghost use Rattle.hex.specs.Hex.{encode_lower};
ghost use Rattle.rio_base.specs.Failures.{HasCause};
ghost use Rattle.rio_base.specs.Streams.{appended};
ghost use Rattle.request_codec.specs.Sending.{Puts, Sends};
ghost use Rattle.rio_requests.specs.declared.reply.Reply.TheVariants.{Stat};
ghost use Rattle.request_codec.specs.Text.{body_of, kind_name, listed_ino, listed_name, text_of};

use crate::text_room::{hold, put, put_hex, put_number, put_number_here, send};
use name_list::NameList;
use rio_base::{DIRECTORY, FILE, Failed, Ino, Sink};
use rio_requests::Reply;

/// Writes a whole text, in as many calls as the sink wants. It takes no memory.
pub fn write_text<K: Sink>(text: &[u8], sink: &mut K) -> Result<(), Failed>
    ensures ok { OnOk result (K.written sink.new ≡ appended (K.written sink.old) text.now) }
    ensures cut { OnErr result ((k : ℕ) × (k ≤ length text.now) × (K.written sink.new ≡ appended (K.written sink.old) (take k text.now))) }
    ensures steady { OnOk result (K.faults sink.new ≡ K.faults sink.old) }
    ensures cause { HasCause result (K.faults sink.old) (K.faults sink.new) }
{
    send(text, sink)
}

/// Bytes that a short name has at most.
const SHORT_BYTES: usize = 32;

/// How large a room holds any reply of up to 1 KiB of data, and most others: 4,096 bytes.
pub const ROOM_BYTES: usize = 4096;

/// Writes a reply as its line. A text of up to 4,096 bytes is given to the sink whole. It takes no memory.
pub fn write_reply<K: Sink>(reply: &Reply, sink: &mut K) -> Result<(), Failed>
    ensures ok { OnOk result (K.written sink.new ≡ appended (K.written sink.old) (text_of reply.now)) }
    ensures cut { OnErr result ((k : ℕ) × (k ≤ length (text_of reply.now)) × (K.written sink.new ≡ appended (K.written sink.old) (take k (text_of reply.now)))) }
    ensures steady { OnOk result (K.faults sink.new ≡ K.faults sink.old) }
    ensures cause { HasCause result (K.faults sink.old) (K.faults sink.new) }
{
    let mut room = [0; ROOM_BYTES];
    send_line(reply, &mut room, sink)
}

/// Writes a reply as its line, by way of a room that the caller keeps, which may hold anything: so a short reply costs little. A
/// text that fits the room is given to the sink whole.
pub fn write_reply_in<K: Sink>(reply: &Reply, room: &mut [u8], sink: &mut K) -> Result<(), Failed>
    requires { 2 ≤ length room.old }
    ensures ok { OnOk result (K.written sink.new ≡ appended (K.written sink.old) (text_of reply.now)) }
    ensures cut { OnErr result ((k : ℕ) × (k ≤ length (text_of reply.now)) × (K.written sink.new ≡ appended (K.written sink.old) (take k (text_of reply.now)))) }
    ensures steady { OnOk result (K.faults sink.new ≡ K.faults sink.old) }
    ensures cause { HasCause result (K.faults sink.old) (K.faults sink.new) }
{
    send_line(reply, room, sink)
}

/// Sends a reply's line. The commonest one is sent as it stands.
fn send_line<K: Sink>(reply: &Reply, room: &mut [u8], sink: &mut K) -> Result<(), Failed>
    requires { 2 ≤ length room.old }
    ensures { Sends result (K.written sink.old) (K.faults sink.old) [] (text_of reply.now) (K.written sink.new) (K.faults sink.new) [] }
{
    if let Reply::Ok = reply {
        return send(b"ok\n", sink);
    }
    let line = put_reply(reply, room, 0, sink)?;
    send(&room[..line], sink)
}

/// Puts a reply's line behind the first `held` bytes of a room, which wait to be written, and answers how many wait then. Where
/// it does not fit, it writes. It takes no memory.
pub fn put_reply<K: Sink>(
    reply: &Reply,
    room: &mut [u8],
    held: usize,
    sink: &mut K,
) -> Result<usize, Failed>
    requires fits { held ≤ length room.old }
    requires enough { 2 ≤ length room.old }
    ensures { Puts result (K.written sink.old) (K.faults sink.old) (take held room.old) (text_of reply.now) (K.written sink.new) (K.faults sink.new) room.new }
{
    let body = put_body(reply, room, held, sink)?;
    put(b"\n", room, body, sink)
}

/// Puts a reply's line without its end.
fn put_body<K: Sink>(
    reply: &Reply,
    room: &mut [u8],
    held: usize,
    sink: &mut K,
) -> Result<usize, Failed>
    requires fits { held ≤ length room.old }
    requires enough { 2 ≤ length room.old }
    ensures { Puts result (K.written sink.old) (K.faults sink.old) (take held room.old) (body_of reply.now) (K.written sink.new) (K.faults sink.new) room.new }
{
    match reply {
        Reply::Ok => put(b"ok", room, held, sink),
        Reply::Number(n) => put_number_here(b"ok ", *n, room, held, sink),
        Reply::Bytes(bytes) => put_bytes(bytes.as_slice(), room, held, sink),
        Reply::Stat { ino, kind, size } => put_stat(*ino, *kind, *size, room, held, sink),
        Reply::Names(names) => put_names(names, room, held, sink),
        Reply::Inos(inos) => put_inos(inos.as_slice(), room, held, sink),
        Reply::Err(number) => put_number(b"err ", u64::from(*number), room, held, sink),
        Reply::Fault(done) => put_number(b"err 30 ", *done, room, held, sink),
    }
}

/// Puts bytes that were read.
fn put_bytes<K: Sink>(
    bytes: &[u8],
    room: &mut [u8],
    held: usize,
    sink: &mut K,
) -> Result<usize, Failed>
    requires fits { held ≤ length room.old }
    requires enough { 2 ≤ length room.old }
    ensures { Puts result (K.written sink.old) (K.faults sink.old) (take held room.old) (codes "ok " ++ encode_lower bytes.now) (K.written sink.new) (K.faults sink.new) room.new }
{
    let held = put(b"ok ", room, held, sink)?;
    put_hex(bytes, room, held, sink)
}

/// Puts the name of a kind between two spaces, and a size.
fn put_kind<K: Sink>(
    kind: u8,
    size: u64,
    room: &mut [u8],
    held: usize,
    sink: &mut K,
) -> Result<usize, Failed>
    requires { held ≤ length room.old }
    ensures { Puts result (K.written sink.old) (K.faults sink.old) (take held room.old) ((codes " " ++ kind_name kind ++ codes " ") ++ decimal size) (K.written sink.new) (K.faults sink.new) room.new }
{
    match kind {
        DIRECTORY => put_number_here(b" dir ", size, room, held, sink),
        FILE => put_number_here(b" file ", size, room, held, sink),
        _ => put_number_here(b" region ", size, room, held, sink),
    }
}

/// Puts what stands at a path.
fn put_stat<K: Sink>(
    ino: Ino,
    kind: u8,
    size: u64,
    room: &mut [u8],
    held: usize,
    sink: &mut K,
) -> Result<usize, Failed>
    requires { held ≤ length room.old }
    ensures { Puts result (K.written sink.old) (K.faults sink.old) (take held room.old) (body_of (Stat ino kind size)) (K.written sink.new) (K.faults sink.new) room.new }
{
    let held = put_number_here(b"ok ", u64::from(ino.0), room, held, sink)?;
    put_kind(kind, size, room, held, sink)
}

/// Puts a count and names.
fn put_names<K: Sink>(
    names: &NameList,
    room: &mut [u8],
    held: usize,
    sink: &mut K,
) -> Result<usize, Failed>
    requires { held ≤ length room.old }
    ensures { Puts result (K.written sink.old) (K.faults sink.old) (take held room.old) (codes "ok " ++ decimal (length names.now) ++ flat_map listed_name names.now) (K.written sink.new) (K.faults sink.new) room.new }
{
    let held = put_number(b"ok ", names.len() as u64, room, held, sink)?;
    put_each_name(names, room, held, sink)
}

/// Puts names, each behind a space.
fn put_each_name<K: Sink>(
    names: &NameList,
    room: &mut [u8],
    held: usize,
    sink: &mut K,
) -> Result<usize, Failed>
    requires { held ≤ length room.old }
    ensures { Puts result (K.written sink.old) (K.faults sink.old) (take held room.old) (flat_map listed_name names.now) (K.written sink.new) (K.faults sink.new) room.new }
{
    let mut held = held;
    'names: for k in 0..names.len() {
        held = put_listed(names, k, room, held, sink)?;
    }
    Ok(held)
}

/// Puts name `k` of a list behind a space.
fn put_listed<K: Sink>(
    names: &NameList,
    k: usize,
    room: &mut [u8],
    held: usize,
    sink: &mut K,
) -> Result<usize, Failed>
    requires fits { held ≤ length room.old }
    requires listed { k < length names.now }
    ensures { Puts result (K.written sink.old) (K.faults sink.old) (take held room.old) (listed_name (slice_index_or names.now k [])) (K.written sink.new) (K.faults sink.new) room.new }
{
    let (run, len) = names.run(k);
    if is_short(len, run.len(), room.len() - held) {
        hold_short(run, room, held);
        return Ok(held + 1 + len);
    }
    put_name(&run[..len], room, held, sink)
}

/// Whether a name of so many bytes is copied as a short one, where so many bytes lie in its list from it on, and so many fit.
fn is_short(len: usize, listed: usize, left: usize) -> bool
    ensures { result ≡ true → (len ≤ 32) × (32 ≤ listed) × (33 ≤ left) }
{
    len <= SHORT_BYTES && listed >= SHORT_BYTES && left > SHORT_BYTES
}

/// Copies a space and as many bytes as a short name may have behind those that are held. What of them is no name is
/// written over later: a copy of a length that is known when this is compiled is two wide moves and no call.
fn hold_short(run: &[u8], room: &mut [u8], held: usize)
    requires run { 32 ≤ length run.now }
    requires fits { held + 33 ≤ length room.old }
    ensures { take (held + 33) room.new ≡ take held room.old ++ 32 ∷ take 32 run.now }
{
    hold(b" ", room, held);
    hold(&run[..SHORT_BYTES], room, held + 1);
}

/// Puts a name behind a space, behind what is held. Where it does not fit, it writes.
pub fn put_name<K: Sink>(
    name: &[u8],
    room: &mut [u8],
    held: usize,
    sink: &mut K,
) -> Result<usize, Failed>
    requires { held ≤ length room.old }
    ensures { Puts result (K.written sink.old) (K.faults sink.old) (take held room.old) (listed_name name.now) (K.written sink.new) (K.faults sink.new) room.new }
{
    let held = put(b" ", room, held, sink)?;
    put(name, room, held, sink)
}

/// Puts a count and inode numbers.
fn put_inos<K: Sink>(
    inos: &[Ino],
    room: &mut [u8],
    held: usize,
    sink: &mut K,
) -> Result<usize, Failed>
    requires { held ≤ length room.old }
    ensures { Puts result (K.written sink.old) (K.faults sink.old) (take held room.old) (codes "ok " ++ decimal (length inos.now) ++ flat_map listed_ino inos.now) (K.written sink.new) (K.faults sink.new) room.new }
{
    let held = put_number(b"ok ", inos.len() as u64, room, held, sink)?;
    put_each_ino(inos, room, held, sink)
}

/// Puts inode numbers, each behind a space.
fn put_each_ino<K: Sink>(
    inos: &[Ino],
    room: &mut [u8],
    held: usize,
    sink: &mut K,
) -> Result<usize, Failed>
    requires { held ≤ length room.old }
    ensures { Puts result (K.written sink.old) (K.faults sink.old) (take held room.old) (flat_map listed_ino inos.now) (K.written sink.new) (K.faults sink.new) room.new }
{
    let mut held = held;
    'inodes: for ino in inos {
        held = put_number(b" ", u64::from(ino.0), room, held, sink)?;
    }
    Ok(held)
}
