//! What the adapters of the standard streams hand on, over a reader and a writer that do as a line of the script says.

use crate::host_calls::{dashes, tell_both};
use crate::watch::{Call, Watch};
use crate::watched_files::Watched;
use rio_base::{Failed, Sink, Source};
use rio_os::{InputSource, OutputSink, TerminalInput};
use std::alloc::{AllocError, Global};
use std::io::{self, IsTerminal, Read, Write};
use test_scripts::{expanded, number, tell_line};

/// What stands before the first ` / ` of a line, and behind it.
fn first_part(line: &str) -> (&str, &str) {
    match line.split_once(" / ") {
        Some((part, rest)) => (part, rest),
        None => (line, ""),
    }
}

/// What a source reads from.
#[derive(Clone, Copy, PartialEq, Eq)]
pub enum Input {
    /// A reader as it is.
    Bare,
    /// A reader that is a terminal, as the input of a program.
    Terminal,
    /// One that is no terminal, as the input of a program.
    Pipe,
}

/// A reader of which it is said whether it is a terminal.
#[derive(Drop)]
struct SaidInput<R> {
    reader: R,
    is_terminal: bool,
}

impl<R: Read> Read for SaidInput<R> {
    fn read(&mut self, into: &mut [u8]) -> io::Result<usize> {
        self.reader.read(into)
    }
}

impl<R> IsTerminal for SaidInput<R> {
    fn is_terminal(&self) -> bool {
        self.is_terminal
    }
}

/// Reads from a source as a line says: the reader's bytes, its steps, and how many bytes are asked for at each call. Tells
/// what each call answered, the piece that it was passed and the faults so far, then how often the reader was asked and what
/// is left of its bytes.
pub fn read_as_said(
    alloc: Global,
    input: Input,
    rest: &str,
    out: &mut Vec<u8>,
) -> Result<(), AllocError> {
    let (bytes, rest) = first_part(rest);
    let bytes = expanded(alloc, bytes)?;
    tell_source(bytes.as_slice(), input, rest, out)
}

/// Reads from a source over these bytes, as the rest of the line says, and tells what came of it.
fn tell_source(
    bytes: &[u8],
    input: Input,
    rest: &str,
    out: &mut Vec<u8>,
) -> Result<(), AllocError> {
    let (steps, sizes) = first_part(rest);
    let mut watch = Watch::of_stream(*out.allocator(), Call::Read, steps)?;
    let mut reader = Watched::new(bytes, &watch);
    tell_reads(&mut reader, input, sizes, out)?;
    let left = reader.stream.len();
    tell_asked(watch.count(), left, out)
}

/// Reads pieces of these sizes from a reader that is such an input.
fn tell_reads<R: Read>(
    reader: &mut R,
    input: Input,
    sizes: &str,
    out: &mut Vec<u8>,
) -> Result<(), AllocError> {
    if input == Input::Bare {
        return tell_pieces(&mut InputSource::new(reader), sizes, out);
    }
    let said = SaidInput {
        reader,
        is_terminal: input == Input::Terminal,
    };
    tell_pieces(&mut InputSource::new(TerminalInput::new(said)), sizes, out)
}

/// Reads pieces of these sizes from a source.
fn tell_pieces<R: Read>(
    source: &mut InputSource<R>,
    sizes: &str,
    out: &mut Vec<u8>,
) -> Result<(), AllocError> {
    for size in sizes.split(' ') {
        tell_read(source, number(size)? as usize, out)?;
    }
    Ok(())
}

/// Reads once into a piece of dashes, and tells the piece, the answer and the faults so far.
fn tell_read<R: Read>(
    source: &mut InputSource<R>,
    size: usize,
    out: &mut Vec<u8>,
) -> Result<(), AllocError> {
    let mut piece = dashes(size, out)?;
    let answer = source.read(piece.as_mut_slice());
    tell_answer(piece.as_slice(), " ", answer, source.faults(), out)
}

/// Tells a piece, and behind a space what the call answered that it was passed to, with the faults so far.
fn tell_answer(
    piece: &[u8],
    space: &str,
    answer: Result<usize, Failed>,
    faults: u64,
    out: &mut Vec<u8>,
) -> Result<(), AllocError> {
    let answer = format!(in *out.allocator(); "{space}{answer:?} faults {faults}")?;
    tell_both(piece, answer.as_bytes(), out)
}

/// Tells how often a reader was asked, and what is left of its bytes.
fn tell_asked(calls: usize, left: usize, out: &mut Vec<u8>) -> Result<(), AllocError> {
    let line = format!(in *out.allocator(); "asked {calls} times, {left} bytes left")?;
    tell_line(out, line.as_bytes())
}

/// Writes to a sink as a line says: the writer's steps, and the pieces. Tells what each call answered and the faults so
/// far, then what the writer was given at each call, and what it took.
pub fn write_as_said(alloc: Global, rest: &str, out: &mut Vec<u8>) -> Result<(), AllocError> {
    let (steps, pieces) = first_part(rest);
    let mut watch = Watch::of_stream(alloc, Call::Write, steps)?;
    let taken = tell_writes(&watch, pieces, out)?;
    tell_both(b"given ", watch.given(), out)?;
    tell_both(b"taken ", taken.as_slice(), out)
}

/// Writes pieces. Answers what the writer took.
fn tell_writes(watch: &Watch, pieces: &str, out: &mut Vec<u8>) -> Result<Vec<u8>, AllocError> {
    let mut writer = Watched::new(Vec::new(*out.allocator()), watch);
    let mut sink = OutputSink::new(&mut writer);
    for piece in pieces.split(' ') {
        tell_write(&mut sink, piece, out)?;
    }
    Ok(writer.stream)
}

/// Writes a piece, and tells the answer and the faults so far.
fn tell_write<W: Write>(
    sink: &mut OutputSink<W>,
    piece: &str,
    out: &mut Vec<u8>,
) -> Result<(), AllocError> {
    let piece = expanded(*out.allocator(), piece)?;
    let answer = sink.write(piece.as_slice());
    tell_answer(b"", "", answer, sink.faults(), out)
}
