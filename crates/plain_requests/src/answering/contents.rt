//! Reading and changing the bytes of a file.

ghost use Rattle.std.specs.Prelude.{◌≡◌, ◌<◌, length, IfOk};
ghost use Rattle.rio_requests.specs.Answer.{answered as answered_of};
ghost use Rattle.rio_model.specs.States.{bytes_from as bytes_from_of, with_node as with_node_of};
ghost use Rattle.rio_requests.specs.Answers.{read as read_of, read_in as read_in_of, truncate as truncate_of, truncate_in as truncate_in_of, with_size, write as write_of, write_file as write_file_of, write_in as write_in_of};
ghost use Rattle.rio_model.specs.FileParts.{resized as resized_of, written as written_of};
ghost use Rattle.rio_model.specs.declared.node.Node.TheVariants.{File as FileOf};
ghost use Rattle.rio_requests.specs.declared.reply.Reply.TheVariants.{Ok as Done};

use super::paths::{names_of, walk};
use super::room::{is_too_large, lacks_room, wanted};
use super::{refused, unchanged, with_node};
use rio_base::{Ino, Octets};
use rio_model::{Node, Refusal, State};
use rio_requests::{Answered, Reply};
use std::alloc::{AllocError, Global};

/// Reads bytes of a file.
pub fn read(
    alloc: Global,
    s: &State,
    path: &[u8],
    off: u64,
    len: u64,
) -> Result<Answered, AllocError>
    ensures { IfOk result (λ a. a ≡ read_of s.now path.now off len) }
{
    let names = names_of(alloc, path)?;
    match walk(s, names.as_slice()) {
        Ok(ino) => read_in(alloc, s, ino, off, len),
        Err(number) => refused(s, number),
    }
}

/// Reads bytes of an inode's file.
fn read_in(alloc: Global, s: &State, ino: Ino, off: u64, len: u64) -> Result<Answered, AllocError>
    ensures { IfOk result (λ a. a ≡ read_in_of s.now off len ino.0) }
{
    match s.nodes.get(ino) {
        Some(Node::File(bytes)) => {
            let part = bytes_from(alloc, bytes.as_slice(), off, len)?;
            unchanged(s, Reply::Bytes(part))
        }
        Some(Node::Dir) => refused(s, Refusal::IsADirectory as u8),
        Some(Node::Region(_)) => refused(s, Refusal::IsARegion as u8),
        None => refused(s, Refusal::NotFound as u8),
    }
}

/// The bytes from an offset on, up to so many.
fn bytes_from(alloc: Global, bytes: &[u8], off: u64, len: u64) -> Result<Octets, AllocError>
    ensures { IfOk result (λ part. part ≡ bytes_from_of bytes.now off len) }
{
    if off >= bytes.len() as u64 {
        return Ok(Octets::from(Vec::new(alloc)));
    }
    let rest = &bytes[off as usize..];
    let count = len.min(rest.len() as u64) as usize;
    Ok(Octets::from(rest[..count].to_vec(alloc)?))
}

/// Writes bytes into a file from an offset on.
pub fn write(
    alloc: Global,
    s: &State,
    path: &[u8],
    off: u64,
    bytes: &[u8],
) -> Result<Answered, AllocError>
    ensures { IfOk result (λ a. a ≡ write_of s.now path.now off bytes.now) }
{
    let names = names_of(alloc, path)?;
    match walk(s, names.as_slice()) {
        Ok(ino) => write_in(alloc, s, ino, off, bytes),
        Err(number) => refused(s, number),
    }
}

/// Writes bytes into an inode's file.
fn write_in(
    alloc: Global,
    s: &State,
    ino: Ino,
    off: u64,
    bytes: &[u8],
) -> Result<Answered, AllocError>
    ensures { IfOk result (λ a. a ≡ write_in_of s.now off bytes.now ino.0) }
{
    match s.nodes.get(ino) {
        Some(Node::File(old)) => write_file(alloc, s, ino, old.as_slice(), off, bytes),
        Some(Node::Dir) => refused(s, Refusal::IsADirectory as u8),
        Some(Node::Region(_)) => refused(s, Refusal::IsARegion as u8),
        None => refused(s, Refusal::NotFound as u8),
    }
}

/// Writes bytes into an inode's file, whose bytes are these.
fn write_file(
    alloc: Global,
    s: &State,
    ino: Ino,
    old: &[u8],
    off: u64,
    bytes: &[u8],
) -> Result<Answered, AllocError>
    ensures { IfOk result (λ a. a ≡ write_file_of s.now off bytes.now ino.0 old.now) }
{
    if bytes.is_empty() {
        return unchanged(s, Reply::Number(0));
    }
    let end = off.saturating_add(bytes.len() as u64);
    if is_too_large(end) {
        return refused(s, Refusal::TooLarge as u8);
    }
    let lacks = lacks_room(alloc, s, wanted(old.len() as u64, end))?;
    if lacks {
        return refused(s, Refusal::NoSpace as u8);
    }
    let made = written(alloc, old, off as usize, bytes)?;
    with_file(
        s,
        ino,
        Octets::from(made),
        Reply::Number(bytes.len() as u64),
    )
}

/// Bytes with others over them from an offset on, and zeros up to there.
fn written(alloc: Global, old: &[u8], off: usize, bytes: &[u8]) -> Result<Vec<u8>, AllocError>
    requires { 0 < length bytes.now }
    ensures { IfOk result (λ made. made.items ≡ written_of old.now off bytes.now) }
{
    let mut made = resized(alloc, old, off)?;
    made.extend_from_slice(bytes)?;
    let end = made.len();
    let past = old.len() <= end;
    if past {
        return Ok(made);
    }
    made.extend_from_slice(&old[end..])?;
    Ok(made)
}

/// So many bytes: the first of the old ones, and zeros behind them.
fn resized(alloc: Global, old: &[u8], len: usize) -> Result<Vec<u8>, AllocError>
    ensures { IfOk result (λ made. made.items ≡ resized_of old.now len) }
{
    let kept = len.min(old.len());
    let mut made = old[..kept].to_vec(alloc)?;
    let zeros = vec![in alloc; 0u8; len - kept]?;
    made.extend_from_slice(zeros.as_slice())?;
    Ok(made)
}

/// Shrinks a file, or grows it with zeros.
pub fn truncate(alloc: Global, s: &State, path: &[u8], len: u64) -> Result<Answered, AllocError>
    ensures { IfOk result (λ a. a ≡ truncate_of s.now path.now len) }
{
    let names = names_of(alloc, path)?;
    match walk(s, names.as_slice()) {
        Ok(ino) => truncate_in(alloc, s, ino, len),
        Err(number) => refused(s, number),
    }
}

/// Shrinks an inode's file, or grows it with zeros.
fn truncate_in(alloc: Global, s: &State, ino: Ino, len: u64) -> Result<Answered, AllocError>
    ensures { IfOk result (λ a. a ≡ truncate_in_of s.now len ino.0) }
{
    match s.nodes.get(ino) {
        Some(Node::File(old)) => truncate_file(alloc, s, ino, old.as_slice(), len),
        Some(Node::Dir) => refused(s, Refusal::IsADirectory as u8),
        Some(Node::Region(_)) => refused(s, Refusal::IsARegion as u8),
        None => refused(s, Refusal::NotFound as u8),
    }
}

/// Shrinks an inode's file, whose bytes are these, or grows it with zeros.
fn truncate_file(
    alloc: Global,
    s: &State,
    ino: Ino,
    old: &[u8],
    len: u64,
) -> Result<Answered, AllocError>
    ensures { IfOk result (λ a. a ≡ with_size s.now (length old.now) len (answered_of (with_node_of s.now ino.0 (FileOf (resized_of old.now len))) Done)) }
{
    if is_too_large(len) {
        return refused(s, Refusal::TooLarge as u8);
    }
    let lacks = lacks_room(alloc, s, wanted(old.len() as u64, len))?;
    if lacks {
        return refused(s, Refusal::NoSpace as u8);
    }
    let made = resized(alloc, old, len as usize)?;
    with_file(s, ino, Octets::from(made), Reply::Ok)
}

/// The state in which an inode is a file of these bytes.
fn with_file(s: &State, ino: Ino, bytes: Octets, reply: Reply) -> Result<Answered, AllocError>
    ensures { IfOk result (λ a. a ≡ answered_of (with_node_of s.now ino.0 (FileOf bytes)) reply) }
{
    let next = with_node(s, ino, Node::File(bytes))?;
    Ok(Answered {
        next,
        reply: Some(reply),
    })
}
