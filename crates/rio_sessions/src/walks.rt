//! Drawn requests, which are served in several runs and answered by the plain definition in one go.

use crate::bytes::{push_line, same};
use std::alloc::{AllocError, Global};
use test_scripts::{Draws, drawn_flush, drawn_line, tell, tell_line};
use test_servers::{Plain, Sizes};

/// One time in so many a flush stands before a drawn line.
const FLUSHES: u32 = 8;

/// Drawn lines on files and directories, the replies of the plain definition to them, and those that came.
#[derive(Drop)]
pub struct Walk {
    alloc: Global,
    plain: Plain,
    /// Where lines are drawn, and the flushes between them.
    draws: Draws,
    flush_draws: Draws,
    /// How many lines are still to be drawn, but for flushes.
    left: u64,
    /// Whether a flush was drawn before the next one, if there is to be one.
    is_flush_drawn: bool,
    /// The lines of the part that was drawn last.
    part: Vec<u8>,
    wanted: Vec<u8>,
    came: Vec<u8>,
    /// Where the lines are cut.
    cuts: Draws,
    /// A part has fewer lines than this.
    most: u32,
}

impl Walk {
    /// A walk of `count` lines and flushes between them, which are to be drawn in so many parts.
    pub fn new(
        alloc: Global,
        sizes: Sizes,
        seed: u64,
        count: u64,
        parts: u64,
    ) -> Result<Walk, AllocError> {
        let plain = Plain::new(alloc, sizes)?;
        let most = count.saturating_mul(2) / parts.max(1);
        Ok(Walk {
            alloc,
            plain,
            draws: Draws::new(seed),
            flush_draws: Draws::new(seed.wrapping_add(1)),
            left: count,
            is_flush_drawn: false,
            part: Vec::new(alloc),
            wanted: Vec::new(alloc),
            came: Vec::new(alloc),
            cuts: Draws::new(seed.wrapping_add(2)),
            most: u32::try_from(most).unwrap_or(u32::MAX),
        })
    }

    /// Draws the next lines: as many as are drawn, or all that are left.
    pub fn draw_part(&mut self, is_last: bool) -> Result<(), AllocError> {
        self.part = Vec::new(self.alloc);
        for _ in 0..self.next_count(is_last) {
            self.draw()?;
        }
        Ok(())
    }

    /// How many lines the next part has at most.
    fn next_count(&mut self, is_last: bool) -> u64 {
        if is_last {
            return self.left.saturating_mul(2);
        }
        u64::from(self.cuts.below(self.most.max(1)))
    }

    /// Draws a line more, or a flush before it, unless all were drawn.
    fn draw(&mut self) -> Result<(), AllocError> {
        if self.left == 0 {
            return Ok(());
        }
        if self.is_flush_next() {
            let flush = drawn_flush(self.alloc, &mut self.flush_draws)?;
            return self.push(flush.as_str());
        }
        self.left = self.left.saturating_sub(1);
        let line = drawn_line(self.alloc, &mut self.draws, 0)?;
        self.push(line.as_str())
    }

    /// Whether a flush stands before the next line, and was not drawn yet.
    fn is_flush_next(&mut self) -> bool {
        self.is_flush_drawn = !self.is_flush_drawn && self.flush_draws.below(FLUSHES) == 0;
        self.is_flush_drawn
    }

    /// A line more.
    fn push(&mut self, line: &str) -> Result<(), AllocError> {
        self.plain.answer_line(line, &mut self.wanted)?;
        push_line(&mut self.part, line)
    }

    /// The lines of the part that was drawn last.
    pub fn part(&self) -> &[u8] {
        self.part.as_slice()
    }

    /// Takes what came of a part.
    pub fn take(&mut self, text: &[u8]) -> Result<(), AllocError> {
        self.came.extend_from_slice(text)
    }

    /// Tells whether the replies that came are those of the plain definition, and both where they are not.
    pub fn tell(&self, out: &mut Vec<u8>) -> Result<(), AllocError> {
        if same(self.came.as_slice(), self.wanted.as_slice()) {
            return tell_line(out, b"as defined");
        }
        tell(out, self.came.as_slice())?;
        tell_line(out, b"came in place of")?;
        tell(out, self.wanted.as_slice())
    }
}
