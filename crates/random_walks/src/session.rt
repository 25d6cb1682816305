//! A session: lines of a script say what is at hand, walk, and ask what came.

use crate::beside::{Beside, WalkEnd};
use crate::machines::{How, Left, run_over};
use crate::walks::{Mix, Run, line_that_differs, push_line};
use pair_serving::ServeEnd;
use std::alloc::{AllocError, Global};
use test_scripts::{first_word, number, numbers, tell, tell_line, tell_number};
use test_servers::{NO_BAD_BLOCK, Served, Sizes, serve_lines_of};

/// What a line of the script begins with.
#[derive(Clone, Copy)]
enum Word {
    Begin,
    On,
    Pieces,
    Line,
    Reading,
    Walk,
    Core,
    Faults,
    EachFault,
    Writes,
    FaultsOver,
}

static WORDS: [(&str, Word); 11] = [
    ("==", Word::Begin),
    ("on", Word::On),
    ("pieces", Word::Pieces),
    (">", Word::Line),
    ("?", Word::Reading),
    ("walk", Word::Walk),
    ("core", Word::Core),
    ("faults", Word::Faults),
    ("each-fault", Word::EachFault),
    ("writes", Word::Writes),
    ("faults-over", Word::FaultsOver),
];

/// The word that this is.
fn word_of(text: &str) -> Option<Word> {
    for (known, word) in WORDS.iter() {
        if *known == text {
            return Some(*word);
        }
    }
    None
}

/// Whether a line is neither empty nor a comment.
fn says_something(line: &str) -> bool {
    !matches!(line.as_bytes(), [] | [b'#', ..])
}

/// What is at hand, and what the walks so far left.
#[derive(Drop)]
struct Session {
    alloc: Global,
    /// How many bytes the source gives at most in one call.
    pieces: usize,
    /// The sizes and the lines of a run, and the lines that are read after each fault.
    run: Run,
    /// The run that was drawn last.
    drawn: Run,
    /// The plain definition, and what came of the last run.
    beside: Beside,
    /// How many blocks the last walk wrote.
    writes: u64,
    /// How many requests met a fault.
    faults: u64,
}

/// Tells each line of a script, and behind it what it comes to. Of a comment and of an empty line nothing is told.
pub fn tell_script(alloc: Global, script: &str, out: &mut Vec<u8>) -> Result<(), AllocError> {
    let mut session = Session::new(alloc)?;
    session.tell_lines(script, out)
}

impl Session {
    /// No line, pieces of 4,096 bytes, and no size.
    fn new(alloc: Global) -> Result<Session, AllocError> {
        let beside = Beside::new(alloc)?;
        Ok(Session {
            alloc,
            pieces: 4096,
            run: Run::new(alloc),
            drawn: Run::new(alloc),
            beside,
            writes: 0,
            faults: 0,
        })
    }

    /// Begins anew.
    fn begin(&mut self) {
        self.pieces = 4096;
        self.run.begin(Sizes::of(0, 0, 0));
        self.writes = 0;
        self.faults = 0;
    }

    /// Tells lines, and what they come to.
    fn tell_lines(&mut self, script: &str, out: &mut Vec<u8>) -> Result<(), AllocError> {
        for line in script.lines() {
            if says_something(line) {
                self.tell(line, out)?;
            }
        }
        Ok(())
    }

    /// Tells a line, and what it comes to.
    fn tell(&mut self, line: &str, out: &mut Vec<u8>) -> Result<(), AllocError> {
        out.extend_from_slice(line.as_bytes())?;
        out.push(b'\n')?;
        let (word, rest) = first_word(line);
        match word_of(word) {
            Some(word) => self.act(word, rest, out),
            None => tell_line(out, b"no such word"),
        }
    }

    /// Does what a word says.
    fn act(&mut self, word: Word, rest: &str, out: &mut Vec<u8>) -> Result<(), AllocError> {
        match word {
            Word::Begin => {
                self.begin();
                Ok(())
            }
            Word::On => self.set_sizes(rest),
            Word::Pieces => self.set_pieces(rest),
            Word::Line => push_line(&mut self.run.lines, rest),
            Word::Reading => push_line(&mut self.run.readings, rest),
            Word::Walk => self.walk(rest, out),
            Word::Core => self.ask_core(rest, out),
            Word::Faults => self.meet_drawn_faults(rest, out),
            Word::EachFault => self.meet_each_fault(rest, out),
            Word::Writes => self.tell_writes(out),
            Word::FaultsOver => self.tell_faults_over(rest, out),
        }
    }

    /// Takes how many frames, blocks and inodes there are.
    fn set_sizes(&mut self, rest: &str) -> Result<(), AllocError> {
        let [frames, blocks, inodes] = numbers(rest)?;
        self.run.sizes = Sizes::of(frames, blocks, inodes);
        Ok(())
    }

    /// Takes how many bytes come at once.
    fn set_pieces(&mut self, rest: &str) -> Result<(), AllocError> {
        self.pieces = number(rest)? as usize;
        Ok(())
    }

    /// Tells whether the last walk wrote a block.
    fn tell_writes(&self, out: &mut Vec<u8>) -> Result<(), AllocError> {
        if self.writes > 0 {
            return tell_line(out, b"some");
        }
        tell_line(out, b"none")
    }

    /// Tells whether more requests than so many met a fault, and else how many did.
    fn tell_faults_over(&self, rest: &str, out: &mut Vec<u8>) -> Result<(), AllocError> {
        if self.faults > number(rest)? {
            return tell_line(out, b"yes");
        }
        tell_number(out, "", self.faults)
    }

    /// Serves a walk of drawn lines, and tells whether its replies are those of the plain definition. The rest of the
    /// line is the mix, the seed and how many lines are drawn.
    fn walk(&mut self, rest: &str, out: &mut Vec<u8>) -> Result<(), AllocError> {
        let (name, rest) = first_word(rest);
        match Mix::named(name) {
            Some(mix) => self.walk_drawn(mix, rest, out),
            None => tell_line(out, b"no such mix"),
        }
    }

    /// Draws a walk, serves it, and tells whether its replies are those of the plain definition.
    fn walk_drawn(&mut self, mix: Mix, rest: &str, out: &mut Vec<u8>) -> Result<(), AllocError> {
        let [seed, count, _] = numbers(rest)?;
        self.drawn.begin(self.run.sizes);
        self.drawn.draw(mix, seed, count)?;
        self.beside.begin(self.run.sizes, true)?;
        self.beside.answer_all(self.drawn.lines.as_str())?;
        self.serve(out)
    }

    /// Serves the drawn walk, and tells whether its replies are those that are wanted.
    fn serve(&mut self, out: &mut Vec<u8>) -> Result<(), AllocError> {
        let input = self.drawn.lines.as_bytes();
        let served = serve_lines_of(self.alloc, self.run.sizes, NO_BAD_BLOCK, input, self.pieces)?;
        self.writes = served.writes;
        tell_served(&served, self.beside.wanted.as_slice(), out)
    }

    /// Makes the requests of the lines of a core, and tells the replies, where it stopped, and a word of memory.
    fn ask_core(&mut self, place: &str, out: &mut Vec<u8>) -> Result<(), AllocError> {
        let how = How::to_word(number(place)?);
        let left = run_over(self.alloc, &self.run, how, &mut self.beside)?;
        tell(out, self.beside.came.as_slice())?;
        tell_stop(self.beside.end, self.beside.made, out)?;
        tell_left(left, out)
    }

    /// Makes drawn requests over a disk of which each call fails whose number is a multiple of the second number, up to
    /// 300 calls. The first is the seed.
    fn meet_drawn_faults(&mut self, rest: &str, out: &mut Vec<u8>) -> Result<(), AllocError> {
        let [seed, each, _] = numbers(rest)?;
        self.drawn.begin(self.run.sizes);
        self.drawn.draw_on_files(seed)?;
        let how = How::over_failing(each, 300);
        run_over(self.alloc, &self.drawn, how, &mut self.beside)?;
        self.count_faults();
        tell_end(self.beside.end, self.beside.made, out)
    }

    /// Counts the faults of the last run, if it went to its end.
    fn count_faults(&mut self) {
        self.faults = self.faults.saturating_add(self.beside.met());
    }

    /// Makes the lines over a disk of which one call fails, each of the first in turn, until there is no such call.
    fn meet_each_fault(&mut self, rest: &str, out: &mut Vec<u8>) -> Result<(), AllocError> {
        for call in 1..number(rest)? {
            if !self.meets_fault(call)? {
                return tell_last(self.beside.end, self.beside.made, call, out);
            }
        }
        tell_line(out, b"as defined, and there are more calls")
    }

    /// Makes the lines over a disk of which this call fails. Answers whether one met the fault, and all was as defined.
    fn meets_fault(&mut self, call: u64) -> Result<bool, AllocError> {
        let how = How::over_failing(call, 1);
        run_over(self.alloc, &self.run, how, &mut self.beside)?;
        self.count_faults();
        Ok(self.beside.met() > 0)
    }
}

/// Tells how a run ended that made so many lines before.
fn tell_end(end: Result<(), WalkEnd>, made: usize, out: &mut Vec<u8>) -> Result<(), AllocError> {
    match end {
        Ok(()) => tell_line(out, b"as defined"),
        Err(WalkEnd::Stopped) => tell_line(out, b"Stopped"),
        Err(WalkEnd::Differs) => tell_differs(made, out),
        Err(WalkEnd::Faults) => tell_line(out, b"Faults"),
        Err(WalkEnd::Memory) => tell_line(out, b"Memory"),
    }
}

/// Tells which line, counted from 0, is not answered as defined.
fn tell_differs(line: usize, out: &mut Vec<u8>) -> Result<(), AllocError> {
    let told = format!(in *out.allocator(); "Differs({line})")?;
    tell_line(out, told.as_bytes())
}

/// Tells how the last of several runs ended, of which this call failed: there is no such call, or not all was as defined.
fn tell_last(
    end: Result<(), WalkEnd>,
    made: usize,
    call: u64,
    out: &mut Vec<u8>,
) -> Result<(), AllocError> {
    tell_end(end, made, out)?;
    match end {
        Ok(()) => Ok(()),
        Err(_) => tell_number(out, "at call ", call),
    }
}

/// Tells on which line a core stopped, if so.
fn tell_stop(end: Result<(), WalkEnd>, made: usize, out: &mut Vec<u8>) -> Result<(), AllocError> {
    match end {
        Ok(()) => Ok(()),
        Err(WalkEnd::Stopped) => {
            tell_number(out, "stopped on line ", made.saturating_add(1) as u64)
        }
        Err(_) => Err(AllocError),
    }
}

/// Tells where a wild store trapped, if so, and a word of memory.
fn tell_left(left: Left, out: &mut Vec<u8>) -> Result<(), AllocError> {
    if let Some(at) = left.trapped {
        tell_number(out, "trapped ", u64::from(at.0))?;
    }
    tell_word(left.word, out)
}

/// Tells a word of memory.
fn tell_word(word: u64, out: &mut Vec<u8>) -> Result<(), AllocError> {
    let told = format!(in *out.allocator(); "word {word:x}")?;
    tell_line(out, told.as_bytes())
}

/// Tells whether a run that was served gave the replies that are wanted.
fn tell_served(served: &Served, wanted: &[u8], out: &mut Vec<u8>) -> Result<(), AllocError> {
    let came = served.text.as_slice();
    if came != wanted {
        return tell_number(
            out,
            "differs in line ",
            line_that_differs(came, wanted) as u64,
        );
    }
    match served.end {
        ServeEnd::End => tell_line(out, b"as defined"),
        _ => tell_line(out, b"did not end"),
    }
}
