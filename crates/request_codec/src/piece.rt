//! The piece of the input that a reader holds.

ghost use Rattle.std.specs.Prelude.{◌≡◌, ◌<◌, ◌≤◌, ℕ, [], Ok, Result, IfOk, OnErr, length, take, drop};
ghost use Rattle.rio_base.specs.Failures.{HasCause};
ghost use Rattle.rio_base.specs.Streams.{prepended, IsSpent};

use rio_base::{Failed, Source};
use std::alloc::{AllocError, Global};
use std::marker::Model;

/// How many bytes are asked of the source at once.
const PIECE_BYTES: usize = 131_072;

/// A buffer with the bytes of the input that were read and not passed over yet. Contracts see those bytes.
#[derive(Drop)]
pub struct Piece {
    bytes: Vec<u8>,
    start: usize,
    end: usize,
}

impl Model for Piece {
    ghost use Rattle.std.specs.Prelude.{List, ℕ, ◌≡◌, ◌-◌, ◌≤◌, length, take, drop};

    ghost Value = { List ℕ };

    ghost view = { λ a. take (a.end - a.start) (drop a.start a.bytes.items) };

    ghost invariant = { λ a. (a.start ≤ a.end) × (a.end ≤ length a.bytes.items) × (length a.bytes.items ≡ 131072) };
}

impl Piece {
    /// A buffer that holds nothing yet.
    pub fn new(alloc: Global) -> Result<Piece, AllocError>
        ensures { IfOk result (λ piece. piece ≡ []) }
    {
        let bytes = vec![in alloc; 0u8; PIECE_BYTES]?;
        Ok(Piece {
            bytes,
            start: 0,
            end: 0,
        })
    }

    /// The bytes, lent.
    pub fn held(&self) -> &[u8]
        ensures bytes { result.now ≡ self.now }
        ensures few { length result.now ≤ 131072 }
    {
        &self.bytes[self.start..self.end]
    }

    /// Passes over the first `n` bytes.
    pub fn skip(&mut self, n: usize)
        requires { n ≤ length self.old }
        ensures { self.new ≡ drop n self.old }
    {
        self.start += n;
    }

    /// Reads up to `most` further bytes, where none is held, and answers how many came: 0 at the end of the input.
    pub fn fill<S: Source>(&mut self, source: &mut S, most: usize) -> Result<usize, Failed>
        requires empty { self.old ≡ [] }
        requires some { 0 < most }
        ensures bytes { IfOk result (λ n. S.left source.old ≡ prepended self.new (S.left source.new)) }
        ensures count { IfOk result (λ n. (length self.new ≡ n) × (n ≤ most)) }
        ensures end { result ≡ Ok 0 → IsSpent (S.left source.new) }
        ensures err { OnErr result ((self.new ≡ []) × (S.left source.new ≡ S.left source.old)) }
        ensures cause { HasCause result (S.faults source.old) (S.faults source.new) }
    {
        let room = most.min(self.bytes.len());
        self.start = 0;
        self.end = 0;
        let n = read_front(self.bytes.as_mut_slice(), source, room)?;
        self.end = n;
        Ok(n)
    }
}

/// Reads into the first `room` bytes of a buffer.
fn read_front<S: Source>(buffer: &mut [u8], source: &mut S, room: usize) -> Result<usize, Failed>
    requires some { 0 < room }
    requires fits { room ≤ length buffer.old }
    ensures bytes { IfOk result (λ n. S.left source.old ≡ prepended (take n buffer.new) (S.left source.new)) }
    ensures bound { IfOk result (λ n. n ≤ room) }
    ensures end { result ≡ Ok 0 → IsSpent (S.left source.new) }
    ensures err { OnErr result (S.left source.new ≡ S.left source.old) }
    ensures cause { HasCause result (S.faults source.old) (S.faults source.new) }
{
    source.read(&mut buffer[..room])
}
