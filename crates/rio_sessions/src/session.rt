//! A session: lines of a script say what is at hand, run it, and ask what came.

use crate::benches::tell_kept;
use crate::bytes::{push_line, same, tell_whether};
use crate::shelf::{PairBytes, PairNames, Shelf, Streams, WHOLE};
use crate::stops::StoppedRun;
use crate::walks::Walk;
use crate::words::{Run, Setting, Word};
use machine_bench::KeepBench;
use std::alloc::{AllocError, Global};
use test_scripts::{expanded, first_word, numbers, tell, tell_line, tell_number, tell_shown};
use test_servers::{BadBlock, NO_BAD_BLOCK, Served, Sizes, serve_lines_of};

/// The sizes that the program serves.
const SERVED: Sizes = Sizes {
    frames: 64,
    blocks: 256,
    inodes: 64,
};

/// What is at hand, what the runs so far left, and what was told of the last line.
#[derive(Drop)]
pub struct Session<'a> {
    alloc: Global,
    out: Vec<u8>,
    sizes: Sizes,
    bad: BadBlock,
    streams: Streams,
    /// The bytes of the lines that a run reads.
    input: Vec<u8>,
    /// The bytes of the lines that are read behind a stop.
    reading: Vec<u8>,
    files: Shelf<'a>,
    /// The pair as it was before a run.
    before: PairBytes,
    /// How many blocks the last run of `serve` wrote.
    writes: u64,
}

impl<'a> Session<'a> {
    /// No line and no file: pieces of 4,096 bytes, the sizes that the program serves, and nothing that fails.
    pub fn new(alloc: Global, names: &'a PairNames) -> Result<Session<'a>, AllocError> {
        let files = Shelf::new(alloc, names)?;
        Ok(Session {
            alloc,
            out: Vec::new(alloc),
            sizes: SERVED,
            bad: NO_BAD_BLOCK,
            streams: WHOLE,
            input: Vec::new(alloc),
            reading: Vec::new(alloc),
            files,
            before: PairBytes::new(alloc),
            writes: 0,
        })
    }

    /// What was told of the last line.
    pub fn told(&self) -> &[u8] {
        self.out.as_slice()
    }

    /// Does what a line of the script says. Tells the line, and behind it what it came to. Of a comment and of an empty
    /// line nothing is told.
    pub fn step(&mut self, line: &str) -> Result<(), AllocError> {
        self.out.clear();
        if line.is_empty() || line.starts_with('#') {
            return Ok(());
        }
        push_line(&mut self.out, line)?;
        let (word, rest) = first_word(line);
        self.act(Word::of(word), rest)
    }

    /// Does what a word says.
    fn act(&mut self, word: Word, rest: &str) -> Result<(), AllocError> {
        match word {
            Word::Begin => {
                self.begin();
                Ok(())
            }
            Word::Next => {
                self.begin_next_run();
                Ok(())
            }
            Word::Line(end) => self.take_line(rest, end),
            Word::Reading => push_line(&mut self.reading, rest),
            Word::Fresh(command) => self.files.serve(command, b""),
            Word::Run(run) => self.run_as(run, rest),
            Word::Writes => tell_whether(self.writes > 0, b"some", b"none", &mut self.out),
            Word::HostFaults => self.files.tell_faults(&mut self.out),
            Word::Set(setting) => self.set(setting, rest),
            Word::File(word) => self.files.act(word, rest, &mut self.out),
            Word::Unknown => tell_line(&mut self.out, b"no such word"),
        }
    }

    /// Runs what a word says.
    fn run_as(&mut self, run: Run, rest: &str) -> Result<(), AllocError> {
        match run {
            Run::Whole => self.run_and_tell(rest),
            Run::ForStatus => self.run_for_status(rest),
            Run::Twice => self.run_twice(rest),
            Run::Still => self.run_still(rest),
            Run::Kept => self.run_kept(rest),
            Run::Walk => self.serve_walk(rest),
            Run::Stops => self.stop_run(rest),
            Run::Serve => self.serve_lines(),
            Run::NoMemory => self.end_for_memory(),
        }
    }

    /// Takes what a word sets.
    fn set(&mut self, setting: Setting, rest: &str) -> Result<(), AllocError> {
        let [first, second, third] = numbers(rest)?;
        match setting {
            Setting::Sizes => self.sizes = Sizes::of(first, second, third),
            Setting::BadBlock => self.bad = BadBlock::of(first, second),
            Setting::Pieces => self.streams.pieces = first as usize,
            Setting::SourceFails => self.streams.source_fails = first,
            Setting::SinkFails => self.streams.sink_fails = first,
            Setting::HostFails => return self.files.host.fail_call(first.max(1)),
        }
        Ok(())
    }

    /// Begins anew.
    fn begin(&mut self) {
        self.files.clear();
        self.reading = Vec::new(self.alloc);
        self.sizes = SERVED;
        self.bad = NO_BAD_BLOCK;
        self.writes = 0;
        self.begin_next_run();
    }

    /// Forgets the lines and what fails, for a run after others over the same files.
    fn begin_next_run(&mut self) {
        self.input = Vec::new(self.alloc);
        self.streams = WHOLE;
    }

    /// Takes a line of input.
    fn take_line(&mut self, line: &str, end: &[u8]) -> Result<(), AllocError> {
        let bytes = expanded(self.alloc, line)?;
        self.take_bytes(bytes.as_slice(), end)
    }

    /// Takes bytes of input, and their end.
    fn take_bytes(&mut self, bytes: &[u8], end: &[u8]) -> Result<(), AllocError> {
        self.input.extend_from_slice(bytes)?;
        self.input.extend_from_slice(end)
    }

    /// Is to run the program on the words of a command and on the lines.
    fn ask(&mut self, command: &str) -> Result<(), AllocError> {
        self.files.ask(command, self.input.as_slice(), self.streams)
    }

    /// Runs the program on the words of a command.
    fn run(&mut self, command: &str) -> Result<(), AllocError> {
        self.ask(command)?;
        self.files.run();
        Ok(())
    }

    /// Runs the program on the words of a command, and tells what it wrote and its status.
    fn run_and_tell(&mut self, command: &str) -> Result<(), AllocError> {
        self.run(command)?;
        self.files.tell_run(&mut self.out)
    }

    /// Runs the program on the words of a command, and tells its status alone.
    fn run_for_status(&mut self, command: &str) -> Result<(), AllocError> {
        self.run(command)?;
        self.files.tell_status(&mut self.out)
    }

    /// Runs the program twice on the words of a command. Tells the first status, and whether the second run wrote the same and
    /// had the same status.
    fn run_twice(&mut self, command: &str) -> Result<(), AllocError> {
        self.run_for_status(command)?;
        let text = Vec::from_slice(self.alloc, self.files.text())?;
        self.run_again(command, self.files.status, text.as_slice())
    }

    /// Runs the program behind a run that wrote this and had this status.
    fn run_again(&mut self, command: &str, status: u8, text: &[u8]) -> Result<(), AllocError> {
        self.run(command)?;
        if self.files.status != status {
            return tell_line(&mut self.out, b"another status");
        }
        let is_same = same(self.files.text(), text);
        tell_whether(is_same, b"the same twice", b"another text", &mut self.out)
    }

    /// Runs the program as `run_and_tell` does, and tells whether both files of the pair are as they were.
    fn run_still(&mut self, command: &str) -> Result<(), AllocError> {
        self.files.copy_pair(&mut self.before)?;
        self.run_and_tell(command)?;
        if !self.files.has_image(&self.before) {
            return tell_line(&mut self.out, b"another image");
        }
        let is_same = self.files.has_disk(&self.before);
        tell_whether(
            is_same,
            b"both files as before",
            b"another disk",
            &mut self.out,
        )
    }

    /// Runs the program on the words of a command, over a bench that keeps what its machine began with and how it was left.
    /// Tells what was written, the status, and what of the two is the image's.
    fn run_kept(&mut self, command: &str) -> Result<(), AllocError> {
        self.files.copy_pair(&mut self.before)?;
        self.ask(command)?;
        let bench = self.files.run_kept();
        self.tell_run_kept(&bench)
    }

    /// Tells a run, and what its bench kept beside the image before the run and the one after it.
    fn tell_run_kept(&mut self, bench: &KeepBench) -> Result<(), AllocError> {
        self.files.tell_run(&mut self.out)?;
        let before = self.before.image.as_slice();
        tell_kept(bench, before, self.files.image(), &mut self.out)
    }

    /// Serves drawn lines in several runs over the pair, whose sizes the session has. Tells whether the replies of all are those
    /// of the plain definition. The rest of the line is the seed, how many lines are drawn, and how many runs there are.
    fn serve_walk(&mut self, rest: &str) -> Result<(), AllocError> {
        let [seed, count, runs] = numbers(rest)?;
        let mut walk = Walk::new(self.alloc, self.sizes, seed, count, runs)?;
        self.serve_parts(&mut walk, runs)
    }

    /// Serves a walk in so many parts, and tells what came.
    fn serve_parts(&mut self, walk: &mut Walk, runs: u64) -> Result<(), AllocError> {
        for n in 0..runs {
            self.serve_part(walk, runs - n == 1)?;
            if self.files.status != 0 {
                tell_number(&mut self.out, "run ", n)?;
                return self.files.tell_status(&mut self.out);
            }
        }
        walk.tell(&mut self.out)
    }

    /// Serves the next part of a walk.
    fn serve_part(&mut self, walk: &mut Walk, is_last: bool) -> Result<(), AllocError> {
        walk.draw_part(is_last)?;
        self.files.ask("serve m d", walk.part(), self.streams)?;
        self.files.run();
        walk.take(self.files.text())
    }

    /// Stops a run of the lines before each of its steps, and tells what is read behind that. The run behind it is stopped before one
    /// of so many of its steps as the rest of the line says. The pair stays as it is, and other files go.
    fn stop_run(&mut self, rest: &str) -> Result<(), AllocError> {
        let [second, _, _] = numbers(rest)?;
        self.files.copy_pair(&mut self.before)?;
        self.stop_each(second)?;
        self.files.hold(&self.before)
    }

    /// Stops a run of the lines over the pair that was before it.
    fn stop_each(&mut self, second: u64) -> Result<(), AllocError> {
        let input = self.input.as_slice();
        let reading = self.reading.as_slice();
        let mut stopped = StoppedRun::new(&mut self.files, input, reading, second);
        stopped.stop_and_tell(&self.before, &mut self.out)
    }

    /// Ends a run whose words found no memory, and tells what it wrote and its status.
    fn end_for_memory(&mut self) -> Result<(), AllocError> {
        self.files.end_for_memory(self.streams)?;
        self.files.tell_run(&mut self.out)
    }

    /// Serves the lines on a fresh volume of the session's sizes, and tells the replies and how that ended.
    fn serve_lines(&mut self) -> Result<(), AllocError> {
        let input = self.input.as_slice();
        let pieces = self.streams.pieces;
        let served = serve_lines_of(self.alloc, self.sizes, self.bad, input, pieces)?;
        self.tell_served(&served)
    }

    /// Tells what lines that were served came to.
    fn tell_served(&mut self, served: &Served) -> Result<(), AllocError> {
        self.writes = served.writes;
        tell(&mut self.out, served.text.as_slice())?;
        tell_shown(&mut self.out, &served.end)
    }
}
