//! A line while it is gathered from pieces of the input.

ghost use Rattle.std.specs.Prelude.{◌≡◌, ◌≢◌, ◌++◌, ℕ, false, [], List, IfOk, OnOk, OnErr, IsTrue};
ghost use Rattle.request_codec.specs.Gathered.{Gathers, Keeps, IsKept, IsKeptLast};

use crate::line_end::line_end;
use crate::lines::NextLine;
use crate::piece::Piece;
use rio_base::Octets;
use std::alloc::{AllocError, Global};

/// The longest line that may be a request, in bytes.
pub const LONGEST_LINE: usize = 4_194_304;

/// The bytes of a line so far, or only that they are too many.
#[derive(Drop)]
pub struct Gathered {
    pub bytes: Vec<u8>,
    pub too_long: bool,
}

impl Gathered {
    /// A line of which nothing was gathered yet.
    pub fn new(alloc: Global) -> Gathered
        ensures { Keeps result [] }
    {
        Gathered {
            bytes: Vec::new(alloc),
            too_long: false,
        }
    }

    /// Adds the next bytes of the line. Those of a line that is too long are let go.
    pub fn push(&mut self, part: &[u8]) -> Result<(), AllocError>
        ensures { OnOk result ((line : List ℕ) → Keeps self.old line → Keeps self.new (line ++ part.now)) }
    {
        if self.too_long || part.len() > LONGEST_LINE.saturating_sub(self.bytes.len()) {
            self.too_long = true;
            self.bytes.clear();
            return Ok(());
        }
        self.bytes.extend_from_slice(part)
    }

    /// The line as it is given, where it ended.
    pub fn finish(self) -> NextLine
        ensures { (line : List ℕ) → Keeps self line → IsKept line result }
    {
        if self.too_long {
            return NextLine::TooLong;
        }
        NextLine::Line(Octets::from(self.bytes))
    }

    /// The line as it is given, where the input ended.
    pub fn finish_last(self) -> NextLine
        ensures { (line : List ℕ) → Keeps self line → IsKeptLast line result }
    {
        if !self.too_long && self.bytes.is_empty() {
            return NextLine::End;
        }
        self.finish()
    }
}

/// Gathers the held bytes up to the next line end, which is passed over too, or all of them where no line ends in
/// them, and answers whether one does. Without memory nothing is passed over.
pub fn gather(piece: &mut Piece, line: &mut Gathered) -> Result<bool, AllocError>
    ensures found { IfOk result (λ found. Gathers piece.old line.old found piece.new line.new) }
    ensures err { OnErr result (piece.new ≡ piece.old) }
{
    let held = piece.held();
    match line_end(held) {
        Some(end) => {
            line.push(&held[..end])?;
            piece.skip(end + 1);
            Ok(true)
        }
        None => {
            line.push(held)?;
            let count = held.len();
            piece.skip(count);
            Ok(false)
        }
    }
}
