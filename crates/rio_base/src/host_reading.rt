//! Bytes of a host's file, read by pieces.

ghost use Rattle.std.specs.Prelude.{◌≡◌, ◌<◌, ◌≤◌, ◌+◌, ◌^◌, ◌↔◌, Ok, IfOk, IsTrue, length, take, drop};
ghost use Rattle.std.specs.String.{string_bytes};
ghost use Rattle.rio_base.specs.Failures.{HasCause, Rose};
ghost use Rattle.rio_base.specs.Hosts.{AsksFor, EndsBy, HasBytes};

use crate::failures::Failed;
use crate::host::Host;

/// Reads bytes of a file from byte `off` on, until the room is full or the file ends, by as few calls as can be. Answers
/// how many came: none of a file that isn't there. After `Failed`, for which a fault was counted, the room may have
/// changed.
pub fn read_from<H: Host>(
    name: &String,
    off: u64,
    into: &mut [u8],
    host: &mut H,
) -> Result<usize, Failed>
    requires { off + length into.old < 2 ^ 64 }
    ensures files { H.files host.new ≡ H.files host.old }
    ensures room { length into.new ≡ length into.old }
    ensures bound { IfOk result (λ n. n ≤ length into.new) }
    ensures bytes { IfOk result (λ n. HasBytes (H.files host.old) (string_bytes name.now) off (take n into.new)) }
    ensures end { IfOk result (λ n. n < length into.new → EndsBy (H.files host.old) (string_bytes name.now) (off + n)) }
    ensures asked { AsksFor (string_bytes name.now) (H.asked host.old) (H.asked host.new) }
    ensures cause { HasCause result (H.faults host.old) (H.faults host.new) }
{
    let mut done = 0;
    'pieces: loop {
        let count = read_piece(name, off, done, into, host)?;
        if count == 0 {
            return Ok(done);
        }
        done += count;
        if done == into.len() {
            return Ok(done);
        }
    }
}

/// Reads a piece of a file from byte `off + done` on to place `done` of a room, and answers how many bytes came. Where
/// there was room, none come only where the file ends there.
fn read_piece<H: Host>(
    name: &String,
    off: u64,
    done: usize,
    into: &mut [u8],
    host: &mut H,
) -> Result<usize, Failed>
    requires place { done ≤ length into.old }
    requires within { off + length into.old < 2 ^ 64 }
    ensures files { H.files host.new ≡ H.files host.old }
    ensures front { take done into.new ≡ take done into.old }
    ensures room { length into.new ≡ length into.old }
    ensures bound { IfOk result (λ n. done + n ≤ length into.new) }
    ensures bytes { IfOk result (λ n. HasBytes (H.files host.old) (string_bytes name.now) (off + done) (take n (drop done into.new))) }
    ensures end { result ≡ Ok 0 → done < length into.new → EndsBy (H.files host.old) (string_bytes name.now) (off + done) }
    ensures asked { AsksFor (string_bytes name.now) (H.asked host.old) (H.asked host.new) }
    ensures cause { HasCause result (H.faults host.old) (H.faults host.new) }
{
    let before = host.faults();
    let count = host.read_at(name, off + done as u64, &mut into[done..])?;
    if count == 0 && rose(before, host.faults()) {
        return Err(Failed);
    }
    Ok(count)
}

/// Whether a count of faults rose. One that has reached the largest `u64` counts as risen.
pub fn rose(before: u64, after: u64) -> bool
    ensures { IsTrue result ↔ Rose before after }
{
    before < after || after == u64::MAX
}
