//! The standard streams as a source and a sink. As these they tell no content, and count their failed calls.

ghost use Rattle.std.specs.Prelude.{◌≡◌, ◌<◌, ◌≤◌, ℕ, None, Ok, IfOk, OnOk, OnErr, length, take};
ghost use Rattle.std.specs.Io.KnownBytes.{ReadConsumes, WriteAppends};
ghost use Rattle.rio_base.specs.Failures.{HasCause, Rose};
ghost use Rattle.rio_base.specs.Streams.{appended, prepended, IsSpent};

use rio_base::{Failed, Sink, Source};
use std::io::{self, ErrorKind, Read, Write};

/// Reads once, and once more after each read that a signal interrupted: such a read took nothing, and is no failure.
pub(crate) fn read_retrying<R: Read>(reader: &mut R, into: &mut [u8]) -> io::Result<usize>
    ensures bound { IfOk result (λ n. n ≤ length into.new) }
    ensures told { ReadConsumes (R.remaining reader.old) (R.remaining reader.new) result into.new }
{
    for _ in 0..u64::MAX {
        match reader.read(into) {
            Err(error) if error.kind() == ErrorKind::Interrupted => {}
            outcome => return outcome,
        }
    }
    Err(io::Error::from(ErrorKind::Interrupted))
}

/// Writes once, and once more after each write that a signal interrupted: such a write gave nothing, and is no failure.
fn write_retrying<W: Write>(writer: &mut W, from: &[u8]) -> io::Result<usize>
    ensures bound { IfOk result (λ n. n ≤ length from.now) }
    ensures told { WriteAppends (W.contents writer.old) (W.contents writer.new) result from.now }
{
    for _ in 0..u64::MAX {
        match writer.write(from) {
            Err(error) if error.kind() == ErrorKind::Interrupted => {}
            outcome => return outcome,
        }
    }
    Err(io::Error::from(ErrorKind::Interrupted))
}

/// What a reader gives, as a source.
#[derive(Drop)]
pub struct InputSource<R: Read> {
    reader: R,
    faults: u64,
}

impl<R: Read> InputSource<R> {
    /// The source of a reader. No call has failed yet.
    pub fn new(reader: R) -> InputSource<R>
        ensures reader { result.reader ≡ reader }
        ensures faults { result.faults ≡ 0 }
    {
        InputSource { reader, faults: 0 }
    }

    /// How many calls have failed.
    pub fn faults(&self) -> u64
        ensures { result ≡ self.now.faults }
    {
        self.faults
    }

    /// Counts a read that failed.
    fn failed_read(&mut self) -> Failed
        ensures reader { self.new.reader ≡ self.old.reader }
        ensures later { self.old.faults ≤ self.new.faults }
        ensures rose { Rose self.old.faults self.new.faults }
    {
        self.faults = self.faults.saturating_add(1);
        Failed
    }
}

impl<R: Read> Source for InputSource<R> {
    ghost left = { λ _. None };

    ghost faults = { λ s. s.faults };

    /// Where the reader tells the bytes that it has left, it gave just the bytes that are handed on. An end is its end,
    /// and after an error it has what it had.
    fn read(&mut self, into: &mut [u8]) -> Result<usize, Failed>
        ensures bound { IfOk result (λ n. n ≤ length into.new) }
        ensures bytes { IfOk result (λ n. ⟦<InputSource<R> as Source>⟧.left self.old ≡ prepended (take n into.new) (⟦<InputSource<R> as Source>⟧.left self.new)) }
        ensures end { result ≡ Ok 0 → 0 < length into.new → IsSpent (⟦<InputSource<R> as Source>⟧.left self.new) }
        ensures steady { OnOk result (self.new.faults ≡ self.old.faults) }
        ensures err { OnErr result (⟦<InputSource<R> as Source>⟧.left self.new ≡ ⟦<InputSource<R> as Source>⟧.left self.old) }
        ensures cause { HasCause result self.old.faults self.new.faults }
        ensures told { ReadConsumes (R.remaining self.old.reader) (R.remaining self.new.reader) result into.new }
    {
        match read_retrying(&mut self.reader, into) {
            Ok(count) => Ok(count),
            Err(_) => Err(self.failed_read()),
        }
    }
}

/// What a writer takes, as a sink.
#[derive(Drop)]
pub struct OutputSink<W: Write> {
    writer: W,
    faults: u64,
}

impl<W: Write> OutputSink<W> {
    /// The sink of a writer. No call has failed yet.
    pub fn new(writer: W) -> OutputSink<W>
        ensures writer { result.writer ≡ writer }
        ensures faults { result.faults ≡ 0 }
    {
        OutputSink { writer, faults: 0 }
    }

    /// How many calls have failed.
    pub fn faults(&self) -> u64
        ensures { result ≡ self.now.faults }
    {
        self.faults
    }

    /// Counts a write that failed.
    fn failed_write(&mut self) -> Failed
        ensures writer { self.new.writer ≡ self.old.writer }
        ensures later { self.old.faults ≤ self.new.faults }
        ensures rose { Rose self.old.faults self.new.faults }
    {
        self.faults = self.faults.saturating_add(1);
        Failed
    }
}

impl<W: Write> Sink for OutputSink<W> {
    ghost written = { λ _. None };

    ghost faults = { λ s. s.faults };

    /// Where the writer tells the bytes that it holds, it took just the bytes that are counted, and none at an error.
    fn write(&mut self, from: &[u8]) -> Result<usize, Failed>
        ensures bound { IfOk result (λ n. n ≤ length from.now) }
        ensures bytes { IfOk result (λ n. ⟦<OutputSink<W> as Sink>⟧.written self.new ≡ appended (⟦<OutputSink<W> as Sink>⟧.written self.old) (take n from.now)) }
        ensures nothing { result ≡ Ok 0 → 0 < length from.now → Rose self.old.faults self.new.faults }
        ensures steady { IfOk result (λ n. 0 < n → self.new.faults ≡ self.old.faults) }
        ensures err { OnErr result (⟦<OutputSink<W> as Sink>⟧.written self.new ≡ ⟦<OutputSink<W> as Sink>⟧.written self.old) }
        ensures cause { HasCause result self.old.faults self.new.faults }
        ensures empty { length from.now ≡ 0 → OnOk result (self.new.faults ≡ self.old.faults) }
        ensures told { WriteAppends (W.contents self.old.writer) (W.contents self.new.writer) result from.now }
    {
        match write_retrying(&mut self.writer, from) {
            Ok(0) if !from.is_empty() => {
                self.failed_write();
                Ok(0)
            }
            Ok(taken) => Ok(taken),
            Err(_) => Err(self.failed_write()),
        }
    }
}
