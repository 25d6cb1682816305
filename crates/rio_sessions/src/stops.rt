//! A run that is stopped before each of its steps, each time over the same pair, and the run behind it that is stopped too.

use crate::bytes::same;
use crate::shelf::{PairBytes, Shelf};
use std::alloc::{AllocError, Global};
use test_scripts::{tell, tell_line, tell_number};

/// The most steps of a run.
const MOST: u64 = 100_000;

/// A run that is stopped, and what is found behind its stops.
#[derive(Drop)]
pub struct StoppedRun<'a, 'b> {
    alloc: Global,
    shelf: &'a mut Shelf<'b>,
    /// The lines of the run, and those that are read behind it.
    input: &'a [u8],
    reading: &'a [u8],
    /// Of so many steps of the run behind it one has a stop before it.
    second: u64,
    /// What the last stop of the run left. Before the first one it has no byte.
    last: PairBytes,
    /// The texts that were read, each once.
    found: Vec<Vec<u8>>,
    /// The steps before a stop that ended otherwise than by its line and by status 10.
    wrong: Option<u64>,
}

impl<'a, 'b> StoppedRun<'a, 'b> {
    /// A run of these lines, behind which those are read.
    pub fn new(
        shelf: &'a mut Shelf<'b>,
        input: &'a [u8],
        reading: &'a [u8],
        second: u64,
    ) -> StoppedRun<'a, 'b> {
        let alloc = shelf.alloc;
        StoppedRun {
            alloc,
            shelf,
            input,
            reading,
            second,
            last: PairBytes::new(alloc),
            found: Vec::new(alloc),
            wrong: None,
        }
    }

    /// Stops the run over a pair, and tells what was read.
    pub fn stop_and_tell(&mut self, pair: &PairBytes, out: &mut Vec<u8>) -> Result<(), AllocError> {
        self.stop(pair)?;
        self.tell(out)
    }

    /// Stops the run over a pair before its first step, before its second one, and so on, until it ends by itself.
    fn stop(&mut self, pair: &PairBytes) -> Result<(), AllocError> {
        for n in 0..MOST {
            if self.stop_at(pair, n)? {
                break;
            }
        }
        Ok(())
    }

    /// Stops the run over a pair after so many steps, and answers whether it ended by itself. A stop that leaves the pair that the
    /// one before it left is not gone into again.
    fn stop_at(&mut self, pair: &PairBytes, steps: u64) -> Result<bool, AllocError> {
        self.shelf.hold(pair)?;
        let ended = self.serve_until(self.input, steps)?;
        if !self.shelf.has_image(&self.last) || !self.shelf.has_disk(&self.last) {
            self.stop_next(steps)?;
        }
        Ok(ended)
    }

    /// Runs without a line over the pair that a stop after so many steps left, stopped before the steps of its reboot too, and reads
    /// behind each stop.
    fn stop_next(&mut self, steps: u64) -> Result<(), AllocError> {
        self.shelf.copy_pair(&mut self.last)?;
        self.read()?;
        let one_of = self.second.max(1);
        let first = steps % one_of;
        for turn in 0..MOST {
            let n = turn.saturating_mul(one_of).saturating_add(first);
            if self.stop_next_at(n)? {
                break;
            }
        }
        Ok(())
    }

    /// Stops the run without a line after so many steps, and reads behind that. Answers whether it ended by itself.
    fn stop_next_at(&mut self, steps: u64) -> Result<bool, AllocError> {
        self.shelf.hold(&self.last)?;
        let ended = self.serve_until(b"", steps)?;
        self.read()?;
        Ok(ended)
    }

    /// Serves lines until a stop after so many steps. Answers whether that ended by itself.
    fn serve_until(&mut self, input: &[u8], steps: u64) -> Result<bool, AllocError> {
        let command = numbered(self.alloc, "serve m d --stop ", steps, "")?;
        self.shelf.serve(command.as_str(), input)?;
        self.look_at_end(steps)
    }

    /// A run that was stopped after so many steps tells it, and has status 10. Answers whether it ended by itself.
    fn look_at_end(&mut self, steps: u64) -> Result<bool, AllocError> {
        let line = numbered(self.alloc, "stopped ", steps, "\n")?;
        let stopped = self.shelf.text().ends_with(line.as_bytes());
        let status: u8 = if stopped { 10 } else { 0 };
        if self.shelf.status != status {
            self.wrong = Some(steps);
        }
        Ok(self.shelf.status == 0)
    }

    /// Reads over the pair, and keeps what was read, unless it is kept already.
    fn read(&mut self) -> Result<(), AllocError> {
        self.shelf.serve("serve m d", self.reading)?;
        if is_among(self.found.as_slice(), self.shelf.text()) {
            return Ok(());
        }
        self.keep()
    }

    /// Keeps what was read.
    fn keep(&mut self) -> Result<(), AllocError> {
        let text = Vec::from_slice(self.alloc, self.shelf.text())?;
        Ok(self.found.push(text)?)
    }

    /// Tells what was read, with `or` between.
    fn tell(&self, out: &mut Vec<u8>) -> Result<(), AllocError> {
        match self.wrong {
            Some(steps) => tell_number(out, "ended otherwise after so many steps: ", steps),
            None => tell_texts(self.found.as_slice(), out),
        }
    }
}

/// Whether a text is one of some.
fn is_among(texts: &[Vec<u8>], text: &[u8]) -> bool {
    for other in texts.iter() {
        if same(other.as_slice(), text) {
            return true;
        }
    }
    false
}

/// Tells texts, with `or` between.
fn tell_texts(texts: &[Vec<u8>], out: &mut Vec<u8>) -> Result<(), AllocError> {
    for k in 0..texts.len() {
        if k > 0 {
            tell_line(out, b"or")?;
        }
        tell(out, texts[k].as_slice())?;
    }
    Ok(())
}

/// A number between two texts.
fn numbered(alloc: Global, front: &str, n: u64, end: &str) -> Result<String, AllocError> {
    format!(in alloc; "{front}{n}{end}")
}
