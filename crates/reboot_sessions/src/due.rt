//! What a request may leave that is stopped: nothing of it, all of it, or of a write a part that leads up to it.

use crate::readings::Readings;
use std::alloc::{AllocError, Global};
use test_scripts::{first_word, number};
use test_servers::{Plain, Sizes};

/// How a request is found after a stop.
#[derive(Clone, Copy)]
pub enum Found {
    /// Nothing of it is there.
    Before,
    /// So many of the first bytes of a write are, and no others.
    Part(usize),
    /// All of it is.
    After,
    /// None of these.
    Otherwise,
}

/// What is due by the plain definition.
#[derive(Drop)]
pub struct Due {
    alloc: Global,
    /// The server of the state at hand.
    plain: Plain,
    /// The server as a stop leaves it before the request.
    old: Plain,
    /// The server that was used last.
    used: Plain,
    pub readings: Readings,
    /// The line of the request that is stopped.
    pub request: String,
    /// What is read where nothing of it is there, and where all of it is.
    before: Vec<u8>,
    after: Vec<u8>,
    /// The part of a write that was found last, counted from 0.
    found: usize,
    /// What a server replied last.
    replies: Vec<u8>,
}

impl Due {
    /// The root directory alone is at hand, and nothing is read.
    pub fn new(alloc: Global, sizes: Sizes) -> Result<Due, AllocError> {
        let plain = Plain::new(alloc, sizes)?;
        let old = plain.copy()?;
        let used = plain.copy()?;
        Ok(Due {
            alloc,
            plain,
            old,
            used,
            readings: Readings::new(alloc),
            request: String::new(alloc),
            before: Vec::new(alloc),
            after: Vec::new(alloc),
            found: 0,
            replies: Vec::new(alloc),
        })
    }

    /// The root directory alone is at hand again, and nothing is read.
    pub fn start(&mut self, sizes: Sizes) -> Result<(), AllocError> {
        self.readings.clear();
        self.plain = Plain::new(self.alloc, sizes)?;
        Ok(())
    }

    /// Makes lines, and then a stop. Answers whether these are the replies.
    pub fn follow(&mut self, lines: &str, replies: &[u8]) -> Result<bool, AllocError> {
        reply_to(&mut self.plain, lines, &mut self.replies)?;
        let is_due = self.replies.as_slice() == replies;
        let undoing = self.readings.undoing.as_str();
        stop(&mut self.plain, undoing, &mut self.replies)?;
        Ok(is_due)
    }

    /// The request is stopped behind these lines.
    pub fn begin(&mut self, lines: &str) -> Result<(), AllocError> {
        self.found = 0;
        replay(&self.plain, lines, &mut self.old, &mut self.replies)?;
        self.read_after()?;
        self.read_before()
    }

    /// Reads what is there where all of the request is.
    fn read_after(&mut self) -> Result<(), AllocError> {
        let request = self.request.as_str();
        replay(&self.old, request, &mut self.used, &mut self.replies)?;
        let undoing = self.readings.undoing.as_str();
        stop(&mut self.used, undoing, &mut self.replies)?;
        reply_to(
            &mut self.used,
            self.readings.lines.as_str(),
            &mut self.after,
        )
    }

    /// Reads what is there where nothing of the request is.
    fn read_before(&mut self) -> Result<(), AllocError> {
        let undoing = self.readings.undoing.as_str();
        stop(&mut self.old, undoing, &mut self.replies)?;
        let lines = self.readings.lines.as_str();
        replay(&self.old, lines, &mut self.used, &mut self.before)
    }

    /// How the request is found, by what is read.
    pub fn find(&mut self, read: &[u8]) -> Result<Found, AllocError> {
        if read == self.before.as_slice() {
            return Ok(Found::Before);
        }
        if read == self.after.as_slice() {
            return Ok(Found::After);
        }
        self.find_part(read)
    }

    /// How a write is found of which a part may be there. The part that was found last is looked at first.
    fn find_part(&mut self, read: &[u8]) -> Result<Found, AllocError> {
        let parts = self.request.len() / 16; // a word has 16 digits
        for turn in 0..parts {
            let part = self.found.saturating_add(turn) % parts;
            if let Some(bytes) = self.read_as_part(part, read)? {
                self.found = part;
                return Ok(Found::Part(bytes));
            }
        }
        Ok(Found::Otherwise)
    }

    /// The bytes of a part of the write, where what is read is so while they are there: what lies in the first words that it
    /// touches, `part` beside the first one.
    fn read_as_part(&mut self, part: usize, read: &[u8]) -> Result<Option<usize>, AllocError> {
        match part_of(self.alloc, self.request.as_str(), part)? {
            Some(part) => self.read_with(&part, read),
            None => Ok(None),
        }
    }

    /// The bytes of a part of the write, where this is read while it is there. It makes no file longer.
    fn read_with(&mut self, part: &Part, read: &[u8]) -> Result<Option<usize>, AllocError> {
        let lines = part.lines.as_str();
        replay(&self.old, lines, &mut self.used, &mut self.replies)?;
        if !ends_as_it_begins(&self.replies) {
            return Ok(None);
        }
        reply_to(
            &mut self.used,
            self.readings.lines.as_str(),
            &mut self.replies,
        )?;
        if self.replies.as_slice() != read {
            return Ok(None);
        }
        Ok(Some(part.bytes))
    }
}

/// What a server replies to lines, each with its end.
fn reply_to(plain: &mut Plain, lines: &str, replies: &mut Vec<u8>) -> Result<(), AllocError> {
    replies.clear();
    for line in lines.split_terminator('\n') {
        plain.answer_line(line, replies)?;
    }
    Ok(())
}

/// A server that runs, of the state of another behind these lines.
fn replay(
    from: &Plain,
    lines: &str,
    into: &mut Plain,
    replies: &mut Vec<u8>,
) -> Result<(), AllocError> {
    *into = from.copy()?;
    reply_to(into, lines, replies)
}

/// A server is stopped, runs again, and undoes what a stop undoes by these lines.
fn stop(plain: &mut Plain, undoing: &str, replies: &mut Vec<u8>) -> Result<(), AllocError> {
    *plain = plain.copy()?;
    reply_to(plain, undoing, replies)
}

/// Whether the first line of a text is its last one too.
fn ends_as_it_begins(text: &[u8]) -> bool {
    let mut length = 0usize;
    for byte in text {
        length = length.saturating_add(1);
        if *byte == b'\n' {
            break;
        }
    }
    text.ends_with(text.get(..length).unwrap_or(&[]))
}

/// A leading part of a write.
#[derive(Drop)]
struct Part {
    /// The line that writes it, between two that tell the size of its file.
    lines: String,
    /// How many bytes it has.
    bytes: usize,
}

/// A part of the write of a line, which ends with a word of the file: `part` words behind the first that the write touches.
/// `None` where the line is no write, or it has no such part.
fn part_of(alloc: Global, line: &str, part: usize) -> Result<Option<Part>, AllocError> {
    let (word, rest) = first_word(line);
    if word != "write" {
        return Ok(None);
    }
    let (path, rest) = first_word(rest);
    let (offset, digits) = first_word(rest);
    let bytes = part_bytes(offset, part)?;
    match front_of(digits, bytes) {
        Some(digits) => {
            let lines = part_lines(alloc, path, offset, digits)?;
            Ok(Some(Part { lines, bytes }))
        }
        None => Ok(None),
    }
}

/// How many bytes a part has of a write at this offset.
fn part_bytes(offset: &str, part: usize) -> Result<usize, AllocError> {
    let first = 8 - number(offset)? % 8;
    Ok(part.saturating_mul(8).saturating_add(first as usize))
}

/// The digits of so many bytes, of which there are more.
fn front_of(digits: &str, bytes: usize) -> Option<&str> {
    match digits.split_at_checked(bytes.saturating_mul(2)) {
        Some((front, more)) if !more.is_empty() => Some(front),
        _ => None,
    }
}

/// The lines of a part.
fn part_lines(alloc: Global, path: &str, offset: &str, digits: &str) -> Result<String, AllocError> {
    format!(in alloc; "stat {path}\nwrite {path} {offset} {digits}\nstat {path}\n")
}
