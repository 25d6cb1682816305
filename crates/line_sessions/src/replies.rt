//! Replies that the script tells, and replies as they are written.

use crate::words::{FORMS, Form, looked_up, octet, small};
use name_list::NameList;
use request_codec::{write_reply, write_text};
use rio_base::{Failed, Ino, InoList, Octets};
use rio_requests::Reply;
use std::alloc::{AllocError, Global};
use test_objects::MemSink;
use test_scripts::{expanded, first_word, number};

/// What is told of a text that is not written whole.
const NOT_SENT: &[u8] = b"not sent\n";

/// The reply that a kind and its parts tell. A kind that there is none of is a refusal.
pub(crate) fn reply_of(alloc: Global, told: &str) -> Result<Reply, AllocError> {
    let (kind, parts) = first_word(told);
    match looked_up(FORMS.as_slice(), kind) {
        Some(kind) => reply_with(alloc, kind, parts),
        None => Ok(Reply::Err(255)),
    }
}

/// The reply of a kind that parts tell.
fn reply_with(alloc: Global, kind: Form, parts: &str) -> Result<Reply, AllocError> {
    match kind {
        Form::Done => Ok(Reply::Ok),
        Form::Number => Ok(Reply::Number(number(parts)?)),
        Form::Bytes => Ok(Reply::Bytes(Octets::from(expanded(alloc, parts)?))),
        Form::Stat => stat_of(parts),
        Form::Names => names_of(alloc, parts),
        Form::Inos => inos_of(alloc, parts),
        Form::Refusal => Ok(Reply::Err(octet(parts))),
        Form::Fault => Ok(Reply::Fault(number(parts)?)),
    }
}

/// An inode, a kind and a size.
fn stat_of(parts: &str) -> Result<Reply, AllocError> {
    let (ino, rest) = first_word(parts);
    let (kind, size) = first_word(rest);
    let size = number(size)?;
    Ok(Reply::Stat {
        ino: Ino(small(ino)),
        kind: octet(kind),
        size,
    })
}

fn names_of(alloc: Global, parts: &str) -> Result<Reply, AllocError> {
    let mut names = NameList::with_capacity(alloc, 0)?;
    push_names(alloc, parts, &mut names)?;
    Ok(Reply::Names(names))
}

/// Puts the names that parts tell behind others.
fn push_names(alloc: Global, parts: &str, names: &mut NameList) -> Result<(), AllocError> {
    for part in parts.split_whitespace() {
        push_name(alloc, part, names)?;
    }
    Ok(())
}

fn push_name(alloc: Global, part: &str, names: &mut NameList) -> Result<(), AllocError> {
    let name = expanded(alloc, part)?;
    names.push(name.as_slice())
}

fn inos_of(alloc: Global, parts: &str) -> Result<Reply, AllocError> {
    let mut inos = Vec::new(alloc);
    push_inos(parts, &mut inos)?;
    Ok(Reply::Inos(InoList::from(inos)))
}

/// Puts the inodes that parts tell behind others.
fn push_inos(parts: &str, inos: &mut Vec<Ino>) -> Result<(), AllocError> {
    for part in parts.split_whitespace() {
        inos.push(Ino(small(part)))?;
    }
    Ok(())
}

/// What a sink has of a text. Where it is told that not all was written, that is said in its place.
pub(crate) fn text_sent(ended: Result<(), Failed>, sink: &MemSink) -> &[u8] {
    match ended {
        Ok(()) => sink.bytes().as_slice(),
        Err(Failed) => NOT_SENT,
    }
}

/// Puts a reply as it is written, its line end too.
pub(crate) fn put_reply(alloc: Global, reply: &Reply, out: &mut String) -> Result<(), AllocError> {
    let mut sink = MemSink::new(alloc);
    let ended = write_reply(reply, &mut sink);
    put_written(text_sent(ended, &sink), out)
}

/// Puts texts as they are written one behind the other.
pub(crate) fn put_texts(alloc: Global, texts: &str, out: &mut String) -> Result<(), AllocError> {
    let mut sink = MemSink::new(alloc);
    put_texts_over(alloc, texts, &mut sink, out)
}

/// Puts texts as they are written one behind the other, over a sink that has nothing.
fn put_texts_over(
    alloc: Global,
    texts: &str,
    sink: &mut MemSink,
    out: &mut String,
) -> Result<(), AllocError> {
    for text in texts.split_whitespace() {
        write_told(alloc, text, sink)?;
    }
    put_written(sink.bytes().as_slice(), out)
}

/// Writes a text to a sink that fails where there is no memory.
fn write_told(alloc: Global, text: &str, sink: &mut MemSink) -> Result<(), AllocError> {
    let text = expanded(alloc, text)?;
    match write_text(text.as_slice(), sink) {
        Ok(()) => Ok(()),
        Err(Failed) => Err(AllocError),
    }
}

/// Puts what was written.
fn put_written(text: &[u8], out: &mut String) -> Result<(), AllocError> {
    out.push_str("    ")?;
    for byte in text {
        out.push(char::from(*byte))?;
    }
    Ok(())
}
