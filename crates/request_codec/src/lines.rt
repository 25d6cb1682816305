//! Lines of an input, read in large pieces.

ghost use Rattle.std.specs.Prelude.{◌≡◌, ◌≤◌, ◌^◌, ℕ, true, false, [], List, Option, Ok, IfOk, IfErr, IfSome, OnErr, OnOk, IsErrOf, length};
ghost use Rattle.request_codec.specs.declared.lines.NextLine.TheVariants.{End};
ghost use Rattle.rio_base.specs.Failures.{Rose};
ghost use Rattle.rio_base.specs.Streams.{IsSpent};
ghost use Rattle.request_codec.specs.Lines.{Fails, Gives, HasEnded, HoldsLine, Refills, TakesLine};

use crate::gathered::{Gathered, gather};
use crate::line_end::line_end;
use crate::piece::Piece;
use rio_base::{Octets, Source};
use std::alloc::{AllocError, Global};
use std::marker::Model;
use thiserror::Error;

/// How many bytes of input are taken at most: 2^40, or 1,099,511,627,776.
pub const INPUT_LIMIT: u64 = 1 << 40;

/// What comes next in the input.
#[derive(Drop)]
pub enum NextLine {
    /// A line, without its end.
    Line(Octets),
    /// A line of more than 4,194,304 bytes. It was read to its end.
    TooLong,
    /// The input has ended.
    End,
}

/// Why no next line was given.
#[derive(Clone, Copy, Debug, PartialEq, Eq, Error)]
pub enum LineFail {
    /// The source failed.
    #[error("the source failed")]
    Fault,
    /// 1,099,511,627,776 bytes were taken, and one more came.
    #[error("the input is too long")]
    Limit,
    /// There was no memory for the line.
    #[error("out of memory")]
    Memory,
}

impl From<AllocError> for LineFail {
    ghost use Rattle.std.specs.Prelude.{◌≡◌};
    ghost use Rattle.request_codec.specs.declared.lines.LineFail.TheVariants.{Memory};

    ghost from_gives = { λ _ fail. fail ≡ Memory };

    fn from(_e: AllocError) -> LineFail {
        LineFail::Memory
    }
}

/// Gives the lines of a source one by one, reading it in pieces of 128 KiB. Contracts see the bytes that it holds and
/// how many it took.
#[derive(Drop)]
pub struct LineReader {
    alloc: Global,
    piece: Piece,
    taken: u64,
    ended: bool,
}

impl Model for LineReader {
    ghost use Rattle.request_codec.specs.Lines.{Reading};
    ghost use Rattle.std.specs.Prelude.{◌≡◌, true, []};

    ghost Value = { Reading };

    ghost view = { λ a. record { held = a.piece; taken = a.taken; ended = a.ended } };

    ghost invariant = { λ a. a.ended ≡ true → a.piece ≡ [] };
}

impl LineReader {
    /// A reader that has taken nothing yet.
    pub fn new(alloc: Global) -> Result<LineReader, AllocError>
        ensures { IfOk result (λ reader. reader ≡ record { held = []; taken = 0; ended = false }) }
    {
        let piece = Piece::new(alloc)?;
        Ok(LineReader {
            alloc,
            piece,
            taken: 0,
            ended: false,
        })
    }

    /// The next line without its end, lent, where it is held up to that. `pass_line` passes over it.
    pub fn held_line(&self) -> Option<&[u8]>
        ensures line { IfSome result (λ line. HoldsLine self.now line.now) }
    {
        let held = self.piece.held();
        let end = line_end(held)?;
        Some(&held[..end])
    }

    /// Passes over the next line, which has so many bytes, and its end. Both must be held.
    pub fn pass_line(&mut self, len: usize)
        requires held { (line : List ℕ) × HoldsLine self.old line × (length line ≡ len) }
        ensures passed { (line : List ℕ) (left : Option (List ℕ)) → HoldsLine self.old line → length line ≡ len → TakesLine self.old left line self.new left }
        ensures taken { self.new.taken ≡ self.old.taken }
        ensures unended { self.new.ended ≡ false }
    {
        self.piece.skip(len + 1);
    }

    /// The next line of the input, which must not have gone past its limit. Once the input has ended it isn't read
    /// again. A failure of the source or of memory loses what was gathered of the line.
    pub fn next_line<S: Source>(&mut self, source: &mut S) -> Result<NextLine, LineFail>
        requires within { self.old.taken ≤ 2 ^ 40 }
        requires spent { self.old.ended ≡ true → IsSpent (S.left source.old) }
        ensures line { IfOk result (λ next. Gives self.old (S.left source.old) next self.new (S.left source.new)) }
        ensures err { IfErr result (λ fail. Fails self.old (S.left source.old) fail self.new (S.left source.new)) }
        ensures within { OnOk result (self.new.taken ≤ 2 ^ 40) }
        ensures closed { self.new.ended ≡ true → HasEnded self.new (S.left source.new) }
        ensures spent { self.old.ended ≡ true → (result ≡ Ok End) × (S.left source.new ≡ S.left source.old) }
        ensures later { S.faults source.old ≤ S.faults source.new }
        ensures cause { IsErrOf result LineFail.Fault → Rose (S.faults source.old) (S.faults source.new) }
    {
        if self.ended {
            return Ok(NextLine::End);
        }
        let mut line = Gathered::new(self.alloc);
        loop {
            if gather(&mut self.piece, &mut line)? {
                return Ok(line.finish());
            }
            if !self.refill(source)? {
                return Ok(line.finish_last());
            }
        }
    }

    /// Reads the next piece, where nothing is held, and answers whether there was one.
    fn refill<S: Source>(&mut self, source: &mut S) -> Result<bool, LineFail>
        requires empty { self.old.held ≡ [] }
        requires unended { self.old.ended ≡ false }
        requires within { self.old.taken ≤ 2 ^ 40 }
        ensures more { IfOk result (λ more. Refills self.old (S.left source.old) more self.new (S.left source.new)) }
        ensures err { IfErr result (λ fail. Fails self.old (S.left source.old) fail self.new (S.left source.new)) }
        ensures unended { OnErr result (self.new.ended ≡ false) }
        ensures later { S.faults source.old ≤ S.faults source.new }
        ensures cause { IsErrOf result LineFail.Fault → Rose (S.faults source.old) (S.faults source.new) }
    {
        if self.taken >= INPUT_LIMIT {
            return self.look_past(source);
        }
        let most = (INPUT_LIMIT - self.taken) as usize;
        match self.piece.fill(source, most) {
            Ok(count) => {
                self.taken += count as u64;
                self.ended = count == 0;
                Ok(count > 0)
            }
            Err(_) => Err(LineFail::Fault),
        }
    }

    /// Looks for a byte past the limit: there is none at the end of the input.
    fn look_past<S: Source>(&mut self, source: &mut S) -> Result<bool, LineFail>
        requires empty { self.old.held ≡ [] }
        requires unended { self.old.ended ≡ false }
        requires full { self.old.taken ≡ 2 ^ 40 }
        ensures more { IfOk result (λ more. Refills self.old (S.left source.old) more self.new (S.left source.new)) }
        ensures err { IfErr result (λ fail. Fails self.old (S.left source.old) fail self.new (S.left source.new)) }
        ensures unended { OnErr result (self.new.ended ≡ false) }
        ensures later { S.faults source.old ≤ S.faults source.new }
        ensures cause { IsErrOf result LineFail.Fault → Rose (S.faults source.old) (S.faults source.new) }
    {
        match self.piece.fill(source, 1) {
            Ok(0) => {
                self.ended = true;
                Ok(false)
            }
            Ok(count) => {
                self.piece.skip(count);
                self.taken += count as u64;
                Err(LineFail::Limit)
            }
            Err(_) => Err(LineFail::Fault),
        }
    }
}
