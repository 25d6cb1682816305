//! Texts gathered in a room on their way to a sink, so that a short one reaches it in one call.
//!
//! The first `held` bytes of the room wait to be written. Each call answers how many wait after it.

ghost use Rattle.std.specs.Prelude.{◌≡◌, ◌≤◌, ◌+◌, ◌*◌, [], ◌++◌, IfOk, length, decimal, take};
ghost use Rattle.hex.specs.Hex.{encode_lower};
ghost use Rattle.request_codec.specs.Sending.{Puts, Sends};

use crate::digit_count::digit_count;
use crate::hex_text::encode_hex;
use itoa::{Buffer, write_digits};
use rio_base::{Failed, Sink};

/// Writes a whole text, in as many calls as the sink wants.
pub fn send<K: Sink>(text: &[u8], sink: &mut K) -> Result<(), Failed>
    ensures { Sends result (K.written sink.old) (K.faults sink.old) [] text.now (K.written sink.new) (K.faults sink.new) [] }
{
    let mut done = 0;
    'calls: while done < text.len() {
        let taken = sink.write(&text[done..])?;
        if taken == 0 {
            return Err(Failed);
        }
        done += taken;
    }
    Ok(())
}

/// Copies bytes behind those that are held.
pub(crate) fn hold(bytes: &[u8], room: &mut [u8], held: usize)
    requires { held + length bytes.now ≤ length room.old }
    ensures { take (held + length bytes.now) room.new ≡ take held room.old ++ bytes.now }
{
    let end = held + bytes.len();
    room[held..end].copy_from_slice(bytes);
}

/// Writes bytes as hexadecimal digits behind those that are held.
fn hold_hex(bytes: &[u8], room: &mut [u8], held: usize)
    requires { held + 2 * length bytes.now ≤ length room.old }
    ensures { take (held + 2 * length bytes.now) room.new ≡ take held room.old ++ encode_lower bytes.now }
{
    let end = held + 2 * bytes.len();
    encode_hex(bytes, &mut room[held..end]);
}

/// Writes what is held, where so many more bytes do not fit behind it.
fn make_room<K: Sink>(
    wanted: usize,
    room: &[u8],
    held: usize,
    sink: &mut K,
) -> Result<usize, Failed>
    requires fits { held ≤ length room.now }
    requires enough { wanted ≤ length room.now }
    ensures puts { Puts result (K.written sink.old) (K.faults sink.old) (take held room.now) [] (K.written sink.new) (K.faults sink.new) room.now }
    ensures room { IfOk result (λ n. n + wanted ≤ length room.now) }
{
    if room.len() - held < wanted {
        send(&room[..held], sink)?;
        return Ok(0);
    }
    Ok(held)
}

/// Puts bytes behind those that are held. Where they do not fit, it writes.
pub fn put<K: Sink>(
    bytes: &[u8],
    room: &mut [u8],
    held: usize,
    sink: &mut K,
) -> Result<usize, Failed>
    requires { held ≤ length room.old }
    ensures { Puts result (K.written sink.old) (K.faults sink.old) (take held room.old) bytes.now (K.written sink.new) (K.faults sink.new) room.new }
{
    if bytes.len() > room.len() {
        send(&room[..held], sink)?;
        send(bytes, sink)?;
        return Ok(0);
    }
    let held = make_room(bytes.len(), room, held, sink)?;
    hold(bytes, room, held);
    Ok(held + bytes.len())
}

/// Puts a word and a number behind what is held.
pub fn put_number<K: Sink>(
    word: &[u8],
    n: u64,
    room: &mut [u8],
    held: usize,
    sink: &mut K,
) -> Result<usize, Failed>
    requires { held ≤ length room.old }
    ensures { Puts result (K.written sink.old) (K.faults sink.old) (take held room.old) (word.now ++ decimal n) (K.written sink.new) (K.faults sink.new) room.new }
{
    put_number_here(word, n, room, held, sink)
}

/// Puts a word and a number behind what is held. It is compiled into its caller: so a word that is known there costs a store or two.
#[inline(always)]
pub(crate) fn put_number_here<K: Sink>(
    word: &[u8],
    n: u64,
    room: &mut [u8],
    held: usize,
    sink: &mut K,
) -> Result<usize, Failed>
    requires { held ≤ length room.old }
    ensures { Puts result (K.written sink.old) (K.faults sink.old) (take held room.old) (word.now ++ decimal n) (K.written sink.new) (K.faults sink.new) room.new }
{
    let held = put(word, room, held, sink)?;
    put_digits(n, room, held, sink)
}

/// Puts the digits of a number behind what is held, written where they are to stand. Where they don't fit, it writes.
#[inline(always)]
fn put_digits<K: Sink>(n: u64, room: &mut [u8], held: usize, sink: &mut K) -> Result<usize, Failed>
    requires { held ≤ length room.old }
    ensures { Puts result (K.written sink.old) (K.faults sink.old) (take held room.old) (decimal n) (K.written sink.new) (K.faults sink.new) room.new }
{
    let count = digit_count(n);
    if room.len() - held < count {
        let mut digits = Buffer::new();
        return put(digits.format(n).as_bytes(), room, held, sink);
    }
    let end = held + count;
    write_digits(n, room, end);
    Ok(end)
}

/// Puts hexadecimal digits behind what is held, two for each byte.
pub(crate) fn put_hex<K: Sink>(
    bytes: &[u8],
    room: &mut [u8],
    held: usize,
    sink: &mut K,
) -> Result<usize, Failed>
    requires fits { held ≤ length room.old }
    requires enough { 2 ≤ length room.old }
    ensures { Puts result (K.written sink.old) (K.faults sink.old) (take held room.old) (encode_lower bytes.now) (K.written sink.new) (K.faults sink.new) room.new }
{
    let mut held = held;
    let mut done = 0;
    'chunks: while done < bytes.len() {
        held = make_room(2, room, held, sink)?;
        let next = bytes.len().min(done + (room.len() - held) / 2);
        hold_hex(&bytes[done..next], room, held);
        held += 2 * (next - done);
        done = next;
    }
    Ok(held)
}
