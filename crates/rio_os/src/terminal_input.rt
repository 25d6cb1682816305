//! A terminal as input, whose end comes also where it is closed.

ghost use Rattle.rio_os.specs.Inputs.{told_unless};

use std::io::{self, IsTerminal, Read};

/// The number by which the system says that a terminal is gone: `EIO`.
const TERMINAL_GONE: i32 = 5;

/// An input that ends where its terminal is closed. Of an input that is no terminal each failure is handed on.
#[derive(Drop)]
pub struct TerminalInput<R: Read> {
    reader: R,
    is_terminal: bool,
}

impl<R: Read + IsTerminal> TerminalInput<R> {
    /// Whether the input is a terminal is asked now: of a closed one it could not be told.
    pub fn new(reader: R) -> TerminalInput<R> {
        let is_terminal = reader.is_terminal();
        TerminalInput {
            reader,
            is_terminal,
        }
    }
}

impl<R: Read> Read for TerminalInput<R> {
    ghost remaining = { λ input. told_unless input.is_terminal (R.remaining input.reader) };

    fn read(&mut self, into: &mut [u8]) -> io::Result<usize> {
        match self.reader.read(into) {
            Err(error) if self.is_terminal && error.raw_os_error() == Some(TERMINAL_GONE) => Ok(0),
            outcome => outcome,
        }
    }
}
