//! Replies written to sinks that take little, that take nothing, or one call of which fails.

use crate::replies::text_sent;
use request_codec::{write_reply, write_text};
use rio_base::{Failed, Sink};
use rio_requests::Reply;
use std::alloc::{AllocError, Global};
use test_objects::MemSink;
use test_scripts::{first_word, number};

/// A sink that takes so many bytes a call at most, which may be none.
#[derive(Drop)]
struct Sipper {
    most: usize,
    bytes: Vec<u8>,
    faults: u64,
}

impl Sink for Sipper {
    ghost use Rattle.std.specs.Prelude.{None};

    ghost written = { λ s. None };

    ghost faults = { λ s. s.faults };

    fn write(&mut self, from: &[u8]) -> Result<usize, Failed> {
        let taken = from.len().min(self.most);
        if taken == 0 {
            self.faults = self.faults.saturating_add(1);
            return Ok(0);
        }
        if self.bytes.extend_from_slice(&from[..taken]).is_err() {
            self.faults = self.faults.saturating_add(1);
            return Err(Failed);
        }
        Ok(taken)
    }
}

impl Sipper {
    /// It has nothing.
    fn new(alloc: Global, most: usize) -> Sipper {
        Sipper {
            most,
            bytes: Vec::new(alloc),
            faults: 0,
        }
    }
}

/// Puts how a reply's writing ends and how much of its text is then written, at a sink of this kind.
pub(crate) fn put_writing(
    alloc: Global,
    reply: &Reply,
    kind: &str,
    out: &mut String,
) -> Result<(), AllocError> {
    let mut whole = MemSink::new(alloc);
    let ended = write_reply(reply, &mut whole);
    put_at(alloc, reply, kind, text_sent(ended, &whole), out)
}

/// Puts how the writing of a reply with this text ends, and how much of the text is then written, at a sink of this kind.
fn put_at(
    alloc: Global,
    reply: &Reply,
    kind: &str,
    text: &[u8],
    out: &mut String,
) -> Result<(), AllocError> {
    match kind {
        "takes three" => put_sips(alloc, reply, text, out),
        "takes nothing" => put_full(alloc, reply, out),
        _ => put_failing(alloc, reply, kind, text, out),
    }
}

/// Puts what a sink that takes three bytes a call has of a reply.
fn put_sips(alloc: Global, reply: &Reply, text: &[u8], out: &mut String) -> Result<(), AllocError> {
    let mut sink = Sipper::new(alloc, 3);
    let ended = write_reply(reply, &mut sink);
    put_extent(ended, sink.bytes.as_slice(), text, out)
}

/// Puts how a reply and a text end at a sink that takes nothing.
fn put_full(alloc: Global, reply: &Reply, out: &mut String) -> Result<(), AllocError> {
    let mut sink = Sipper::new(alloc, 0);
    let of_reply = ending(write_reply(reply, &mut sink));
    let of_text = ending(write_text(b"x", &mut sink));
    put_endings(of_reply, of_text, sink.faults, out)
}

/// Puts how a reply and a text ended, and how many faults a sink counted.
fn put_endings(
    of_reply: &str,
    of_text: &str,
    faults: u64,
    out: &mut String,
) -> Result<(), AllocError> {
    writeln!(out, "    reply {of_reply}, text {of_text}, {faults} faults")
}

/// Puts what a sink has of a reply of which a call fails.
fn put_failing(
    alloc: Global,
    reply: &Reply,
    kind: &str,
    text: &[u8],
    out: &mut String,
) -> Result<(), AllocError> {
    let mut sink = MemSink::new(alloc);
    put_failing_over(reply, kind, text, &mut sink, out)
}

/// Puts what a sink, which has nothing before, has of a reply of which a call fails.
fn put_failing_over(
    reply: &Reply,
    kind: &str,
    text: &[u8],
    sink: &mut MemSink,
    out: &mut String,
) -> Result<(), AllocError> {
    let (_, call) = first_word(kind);
    sink.fail_call(number(call)?.max(1))?;
    let ended = write_reply(reply, sink);
    put_extent(ended, sink.bytes().as_slice(), text, out)
}

/// Puts how a writing ended, and how much of the text was written.
fn put_extent(
    ended: Result<(), Failed>,
    written: &[u8],
    text: &[u8],
    out: &mut String,
) -> Result<(), AllocError> {
    let ending = ending(ended);
    let extent = extent(written, text);
    writeln!(out, "    {ending}, {extent}")
}

/// How a writing ended, in a word.
fn ending(ended: Result<(), Failed>) -> &'static str {
    match ended {
        Ok(()) => "sent",
        Err(Failed) => "failed",
    }
}

/// How much of a text was written, in words.
fn extent(written: &[u8], text: &[u8]) -> &'static str {
    if written == text {
        "the whole text"
    } else if text.starts_with(written) {
        "a front of the text"
    } else {
        "another text"
    }
}
