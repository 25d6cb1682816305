//! A session of runs: lines of a script put something under the names of a pair, run the program over it, and ask what
//! came.

use crate::run_words::{NameWord, ReadWord, Word};
use crate::runs::{push_words, tell_run};
use rio_os::{FileLock, HostFile, host_for};
use std::alloc::AllocError;
use std::fs::{self, File};
use std::io::{self, Read};
use std::rt::Files;
use test_objects::MemSource;
use test_scripts::{expanded, first_word, tell_line, tell_number};

/// The words that make a fresh pair of 64 frames and 256 blocks.
const FRESH: &str = "format m d --frames 64 --blocks 256 --inodes 64 --scratch 1";

/// So many bytes at most are read of the input at once.
const PIECE: usize = 4096;

/// What is at hand. The pair lies where the program runs, under the names `m` and `d`.
#[derive(Drop)]
pub struct Session<'a> {
    rt: HostRuntime,
    /// The path of a pipe that is held open.
    pipe: &'a str,
    /// The bytes of the lines that a run reads.
    input: Vec<u8>,
    /// The file that is held open.
    held: Option<File>,
    /// The bytes that it had then.
    old: Vec<u8>,
    /// The files whose locks are held.
    locked: Vec<File>,
}

impl<'a> Session<'a> {
    /// No line, no file that is held open, and no lock.
    pub fn new(rt: HostRuntime, pipe: &'a str) -> Session<'a> {
        Session {
            rt,
            pipe,
            input: Vec::new(rt.alloc()),
            held: None,
            old: Vec::new(rt.alloc()),
            locked: Vec::new(rt.alloc()),
        }
    }

    /// Tells a line, and does what it says.
    pub fn step(&mut self, line: &str, out: &mut Vec<u8>) -> Result<(), AllocError> {
        out.extend_from_slice(line.as_bytes())?;
        out.push(b'\n')?;
        let (word, rest) = first_word(line);
        self.act(Word::of(word), rest, out)
    }

    /// Does what a word says.
    fn act(&mut self, word: Word, rest: &str, out: &mut Vec<u8>) -> Result<(), AllocError> {
        match word {
            Word::Begin => self.begin(),
            Word::Line => return self.take_line(rest),
            Word::Next => self.input.clear(),
            Word::Run => return self.run(rest, out),
            Word::Fresh => return self.run(FRESH, out),
            Word::Held => return self.tell_held(out),
            Word::Free => self.locked.clear(),
            Word::Name(word) => return self.act_on(word, rest, out),
            Word::Unknown => return tell_line(out, b"no such word"),
        }
        Ok(())
    }

    /// Begins anew: nothing under the names of the pair, no line, no file that is held open, and no lock.
    fn begin(&mut self) {
        remove(self.rt, "m");
        remove(self.rt, "d");
        self.input.clear();
        self.held = None;
        self.old.clear();
        self.locked.clear();
    }

    /// Takes a line of input.
    fn take_line(&mut self, line: &str) -> Result<(), AllocError> {
        let bytes = expanded(self.rt.alloc(), line)?;
        self.input.extend_from_slice(bytes.as_slice())?;
        self.input.extend_from_slice(b"\n")
    }

    /// Runs the program on the words of a command, and tells what it wrote and its status.
    fn run(&self, command: &str, out: &mut Vec<u8>) -> Result<(), AllocError> {
        let mut words = Vec::new(self.rt.alloc());
        push_words(&mut words, command)?;
        self.run_on(&words, out)
    }

    /// Runs the program on these words, and tells what it wrote and its status.
    fn run_on(&self, words: &Vec<String>, out: &mut Vec<u8>) -> Result<(), AllocError> {
        let alloc = self.rt.alloc();
        let mut source = MemSource::new(alloc, self.input.as_slice(), PIECE)?;
        tell_run(host_for(alloc, self.rt, words)?, words, &mut source, out)
    }

    /// Does what a word says of the name behind it.
    fn act_on(&mut self, word: NameWord, rest: &str, out: &mut Vec<u8>) -> Result<(), AllocError> {
        let (name, rest) = first_word(rest);
        match word {
            NameWord::Gone => {
                remove(self.rt, name);
                Ok(())
            }
            NameWord::Folder => tell_failure(self.rt.create_dir(name), out),
            NameWord::Link => tell_failure(self.rt.symlink(rest, name), out),
            NameWord::Pipe => tell_failure(self.rt.symlink(self.pipe, name), out),
            NameWord::Lock(lock) => tell_failure(self.lock(lock, name), out),
            NameWord::Read(word) => self.read(word, name, out),
        }
    }

    /// Does what a word says of the bytes of a file.
    fn read(&mut self, word: ReadWord, name: &str, out: &mut Vec<u8>) -> Result<(), AllocError> {
        match fs::read(&self.rt, name) {
            Ok(bytes) => self.act_with(word, name, bytes.as_slice(), out),
            Err(_) => tell_line(out, b"no file"),
        }
    }

    /// Does what a word says of a file that has these bytes.
    fn act_with(
        &mut self,
        word: ReadWord,
        name: &str,
        bytes: &[u8],
        out: &mut Vec<u8>,
    ) -> Result<(), AllocError> {
        match word {
            ReadWord::Hold => self.hold(name, bytes),
            ReadWord::Same => tell_whether_same(bytes, self.old.as_slice(), out),
            ReadWord::Size => tell_number(out, "", bytes.len() as u64),
        }
    }

    /// Takes the lock of a file, and holds it.
    fn lock(&mut self, lock: FileLock, name: &str) -> io::Result<()> {
        let file = fs::open(&self.rt, name)?;
        file.take_lock(lock)?;
        Ok(self.locked.push(file)?)
    }

    /// Opens a file that has these bytes, and holds it open.
    fn hold(&mut self, name: &str, bytes: &[u8]) -> Result<(), AllocError> {
        self.held = fs::open(&self.rt, name).ok();
        self.old.clear();
        self.old.extend_from_slice(bytes)
    }

    /// Tells whether the file that is held open still reads as it did.
    fn tell_held(&mut self, out: &mut Vec<u8>) -> Result<(), AllocError> {
        match &mut self.held {
            Some(file) => tell_whether_reads(file, self.old.as_slice(), out),
            None => tell_line(out, b"no file is held"),
        }
    }
}

/// Tells whether a file that is read to the end has these bytes.
fn tell_whether_reads(file: &mut File, old: &[u8], out: &mut Vec<u8>) -> Result<(), AllocError> {
    let mut bytes = Vec::new(*out.allocator());
    match file.read_to_end(&mut bytes) {
        Ok(_) => tell_whether_same(bytes.as_slice(), old, out),
        Err(_) => tell_line(out, b"cannot be read"),
    }
}

/// Tells whether these are the same bytes.
fn tell_whether_same(a: &[u8], b: &[u8], out: &mut Vec<u8>) -> Result<(), AllocError> {
    if a == b {
        tell_line(out, b"yes")
    } else {
        tell_line(out, b"no")
    }
}

/// Tells where something failed that a session needs.
fn tell_failure(outcome: io::Result<()>, out: &mut Vec<u8>) -> Result<(), AllocError> {
    match outcome {
        Ok(()) => Ok(()),
        Err(_) => tell_line(out, b"cannot be done"),
    }
}

/// Takes away what stands under a name.
fn remove(rt: HostRuntime, name: &str) {
    let _ = rt.remove_file(name);
    let _ = rt.remove_dir(name);
}
