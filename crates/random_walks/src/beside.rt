//! The plain definition beside a core: what it answers, and what it makes of a request that met a fault.

use rio_base::{Ino, Octets, Stopped};
use std::alloc::{AllocError, Global};
use test_scripts::first_word;
use test_servers::{Plain, Sizes};

/// Why a run ended before its last line.
#[derive(Clone, Copy)]
pub enum WalkEnd {
    /// The core stopped.
    Stopped,
    /// The reply to a line is not the definition's, or what is read after it is not what it allows.
    Differs,
    /// A request met a fault each time that it was made.
    Faults,
    /// No memory was left.
    Memory,
}

impl From<Stopped> for WalkEnd {
    fn from(_fail: Stopped) -> WalkEnd {
        WalkEnd::Stopped
    }
}

impl From<AllocError> for WalkEnd {
    fn from(_fail: AllocError) -> WalkEnd {
        WalkEnd::Memory
    }
}

/// The plain definition, and what came of the lines of a run.
#[derive(Drop)]
pub struct Beside {
    alloc: Global,
    plain: Plain,
    /// Whether replies have to be the definition's.
    pub compares: bool,
    /// Texts of replies that came.
    pub came: Vec<u8>,
    /// Texts of replies that the definition has.
    pub wanted: Vec<u8>,
    /// A line that reads something.
    pub reading: String,
    /// How many lines were made, up to the one on which the run ended.
    pub made: usize,
    /// How many of them met a fault.
    faults: u64,
    /// How the run ended.
    pub end: Result<(), WalkEnd>,
}

impl Beside {
    /// It has a volume of no size.
    pub fn new(alloc: Global) -> Result<Beside, AllocError> {
        let plain = Plain::new(alloc, Sizes::of(0, 0, 0))?;
        Ok(Beside {
            alloc,
            plain,
            compares: false,
            came: Vec::new(alloc),
            wanted: Vec::new(alloc),
            reading: String::new(alloc),
            made: 0,
            faults: 0,
            end: Ok(()),
        })
    }

    /// Begins anew, on a fresh volume.
    pub fn begin(&mut self, sizes: Sizes, compares: bool) -> Result<(), AllocError> {
        self.plain = Plain::new(self.alloc, sizes)?;
        self.compares = compares;
        self.came.clear();
        self.wanted.clear();
        self.made = 0;
        self.faults = 0;
        Ok(())
    }

    /// How many lines of a run that went to its end met a fault.
    pub fn met(&self) -> u64 {
        match self.end {
            Ok(()) => self.faults,
            Err(_) => 0,
        }
    }

    /// Puts what the definition answers to lines behind what it answered before.
    pub fn answer_all(&mut self, lines: &str) -> Result<(), AllocError> {
        for line in lines.lines() {
            self.plain.answer_line(line, &mut self.wanted)?;
        }
        Ok(())
    }

    /// Makes a line, and looks whether the reply that came is the definition's.
    pub fn compare(&mut self, line: &str) -> Result<(), WalkEnd> {
        self.wanted.clear();
        self.plain.answer_line(line, &mut self.wanted)?;
        if self.came.as_slice() == self.wanted.as_slice() {
            return Ok(());
        }
        Err(WalkEnd::Differs)
    }

    /// Makes what was done of a line that met a fault after so many bytes.
    pub fn make_part(&mut self, line: &str, done: u64) -> Result<(), AllocError> {
        self.faults = self.faults.saturating_add(1);
        match done_part(line, done) {
            Some(part) => self.plain.answer_line(part, &mut self.wanted),
            None => Ok(()),
        }
    }

    /// The region of which it is to be found out whether its transaction may only be aborted, after a line met a fault.
    /// `reading` is then a line that reads nothing of it.
    pub fn region_in_doubt(&mut self, line: &str) -> Result<Option<Ino>, AllocError> {
        match dooming_path(line) {
            Some(path) => self.doubt(path),
            None => Ok(None),
        }
    }

    /// The region at a path, with `reading` a line that reads nothing of it.
    fn doubt(&mut self, path: &str) -> Result<Option<Ino>, AllocError> {
        self.reading.clear();
        self.reading.push_str("get ")?;
        self.reading.push_str(path)?;
        self.reading.push_str(" 0 0")?;
        self.region_at(path)
    }

    /// The region at a path.
    fn region_at(&self, path: &str) -> Result<Option<Ino>, AllocError> {
        let path = Octets::from(Vec::from_slice(self.alloc, path.as_bytes())?);
        self.plain.region_at(&path)
    }

    /// Dooms the transaction of a region where the core refused to read it.
    pub fn doom_if_refused(&mut self, ino: Ino) -> Result<(), AllocError> {
        if self.came.as_slice() == b"err 22\n".as_slice() {
            return self.plain.doom(ino);
        }
        Ok(())
    }
}

/// The line of the bytes that were done of one that met a fault, where there are any: it has two digits of each.
fn done_part(line: &str, done: u64) -> Option<&str> {
    let (word, rest) = first_word(line);
    if done == 0 || !matches!(word, "write" | "put") {
        return None;
    }
    let (_path, rest) = first_word(rest);
    let (_off, digits) = first_word(rest);
    let undone = digits
        .len()
        .saturating_sub((done as usize).saturating_mul(2));
    let (part, _) = line.split_at_checked(line.len().saturating_sub(undone))?;
    Some(part)
}

/// The path of a line that may doom a transaction.
fn dooming_path(line: &str) -> Option<&str> {
    let (word, rest) = first_word(line);
    if !matches!(word, "alloc" | "free" | "abort") {
        return None;
    }
    let (path, _) = first_word(rest);
    Some(path)
}
