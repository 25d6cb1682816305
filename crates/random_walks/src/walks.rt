//! Runs of request lines, as a script has them or drawn.

use std::alloc::{AllocError, Global};
use test_scripts::{Draws, drawn_flush, drawn_line, drawn_name_line, reading_of_file};
use test_servers::Sizes;

/// How many of 16 lines are on regions, where most are.
const ON_REGIONS: u32 = 13;

/// What lines are on.
#[derive(Clone, Copy)]
enum Subject {
    /// Files and directories.
    Files,
    /// Regions, most of them.
    Regions,
    /// Many names of two directories.
    Names,
}

/// What is drawn.
#[derive(Clone, Copy)]
pub struct Mix {
    subject: Subject,
    /// Whether some lines between the others flush. The others are the same.
    flushes: bool,
}

/// Lines on files and directories alone.
const FILES: Mix = Mix {
    subject: Subject::Files,
    flushes: false,
};

/// The mixes, and whether they flush.
static MIXES: [(&str, Subject, bool); 6] = [
    ("files", Subject::Files, false),
    ("flushed-files", Subject::Files, true),
    ("regions", Subject::Regions, false),
    ("flushed-regions", Subject::Regions, true),
    ("names", Subject::Names, false),
    ("flushed-names", Subject::Names, true),
];

impl Mix {
    /// The mix of this name.
    pub fn named(name: &str) -> Option<Mix> {
        for (known, subject, flushes) in MIXES.iter() {
            if *known == name {
                return Some(Mix {
                    subject: *subject,
                    flushes: *flushes,
                });
            }
        }
        None
    }
}

/// A run from a fresh volume. Each of its lines has its end.
#[derive(Drop)]
pub struct Run {
    alloc: Global,
    pub sizes: Sizes,
    /// The lines that are made, in order.
    pub lines: String,
    /// The lines that are read after each fault. They change nothing.
    pub readings: String,
}

impl Run {
    /// One without lines, and of no size.
    pub fn new(alloc: Global) -> Run {
        Run {
            alloc,
            sizes: Sizes::of(0, 0, 0),
            lines: String::new(alloc),
            readings: String::new(alloc),
        }
    }

    /// Begins anew.
    pub fn begin(&mut self, sizes: Sizes) {
        self.sizes = sizes;
        self.lines.clear();
        self.readings.clear();
    }

    /// Draws `count` lines more, and as many flushes as are put between.
    pub fn draw(&mut self, mix: Mix, seed: u64, count: u64) -> Result<(), AllocError> {
        let mut draws = Draws::new(seed);
        let mut flush_draws = Draws::new(seed.wrapping_add(1));
        self.draw_by(mix, count, &mut draws, &mut flush_draws)
    }

    /// Draws lines and the flushes between them.
    fn draw_by(
        &mut self,
        mix: Mix,
        count: u64,
        draws: &mut Draws,
        flush_draws: &mut Draws,
    ) -> Result<(), AllocError> {
        for _ in 0..count {
            if mix.flushes {
                self.draw_flush(flush_draws)?;
            }
            self.draw_line(mix.subject, draws)?;
        }
        Ok(())
    }

    /// Draws whether a line flushes, and what.
    fn draw_flush(&mut self, draws: &mut Draws) -> Result<(), AllocError> {
        if draws.below(8) != 0 {
            return Ok(());
        }
        let line = drawn_flush(self.alloc, draws)?;
        self.push_drawn(line)
    }

    /// Draws the next line that is no flush.
    fn draw_line(&mut self, subject: Subject, draws: &mut Draws) -> Result<(), AllocError> {
        let line = match subject {
            Subject::Files => drawn_line(self.alloc, draws, 0),
            Subject::Regions => drawn_line(self.alloc, draws, ON_REGIONS),
            Subject::Names => drawn_name_line(self.alloc, draws),
        };
        self.push_drawn(line?)
    }

    /// One more line is made, with its wild store, if it draws one, on the first word of scratch. On word 0, which is protected, it
    /// would stop the machine, and the walk with it; on scratch no reply knows of it.
    fn push_drawn(&mut self, line: String) -> Result<(), AllocError> {
        match line.as_str() {
            "wild 0 0000000000000000" => self.push_store("wild"),
            "arm 0 0 0000000000000000" => self.push_store("arm 3"),
            line => push_line(&mut self.lines, line),
        }
    }

    /// One more line is made: a store on the first word of scratch.
    fn push_store(&mut self, word: &str) -> Result<(), AllocError> {
        let at = first_of_scratch(self.sizes.frames);
        let line = format!(in self.alloc; "{word} {at} 00000000000000ff")?;
        push_line(&mut self.lines, line.as_str())
    }

    /// Draws 300 lines on files, and has all files read after a fault.
    pub fn draw_on_files(&mut self, seed: u64) -> Result<(), AllocError> {
        self.draw(FILES, seed, 300)?;
        for n in 0..40u32 {
            self.push_reading_of(n / 10, n % 10)?;
        }
        Ok(())
    }

    /// All of a file is read after each fault.
    fn push_reading_of(&mut self, dir: u32, file: u32) -> Result<(), AllocError> {
        let line = reading_of_file(self.alloc, dir, file)?;
        push_line(&mut self.readings, line.as_str())
    }
}

/// Puts a line and its end behind others.
pub fn push_line(lines: &mut String, line: &str) -> Result<(), AllocError> {
    lines.push_str(line)?;
    lines.push('\n')
}

/// The first word of the pages of scratch, which lie behind the header, the registry of 102 entries a page, 16 shadow pages and
/// the frames.
fn first_of_scratch(frames: u32) -> u64 {
    let frames = u64::from(frames);
    let registry = frames.saturating_add(101) / 102;
    let pages = frames.saturating_add(registry).saturating_add(17);
    pages.saturating_mul(512)
}

/// The number of the first line, from 1, in which a text differs from another, or of the last one where it is the other's front.
pub fn line_that_differs(came: &[u8], wanted: &[u8]) -> usize {
    let mut line = 1usize;
    for n in 0..came.len() {
        match wanted.get(n) {
            Some(byte) if *byte == came[n] => {}
            _ => return line,
        }
        if came[n] == b'\n' {
            line = line.saturating_add(1);
        }
    }
    line
}
