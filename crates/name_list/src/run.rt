//! Names in one run of bytes.

ghost use Rattle.std.specs.Prelude.{◌≡◌, ◌+◌, ◌<◌, ◌≤◌, [], ◌∷◌, ◌++◌, IfOk, OnErr, OnOk, length, slice_index_or, take};
ghost use Rattle.std.specs.Cmp.Lexicographic.{slice_cmp};
ghost use Rattle.std.specs.List.Sorted.{IsPermutation, IsSorted};
ghost use Rattle.std.specs.Ordering.{nat_cmp};

use crate::fronts::{LINE_BYTES, front_in_line, front_of};
use crate::spans::{Span, sort_spans};
use std::alloc::{AllocError, Global};
use std::marker::Model;

/// How many bytes a new run has room for, for each name that it is made for: most names are shorter.
const USUAL_BYTES: usize = 16;

/// Names, which contracts see as the list of their bytes.
#[derive(Debug, Drop)]
pub(crate) struct NameRun {
    bytes: Vec<u8>,
    /// Where the last name ends. What lies behind it is written over by the next one.
    end: u32,
    spans: Vec<Span>,
}

impl Model for NameRun {
    ghost use Rattle.std.specs.Prelude.{List, ℕ};

    ghost Value = { List (List ℕ) };

    ghost use Rattle.name_list.specs.Spans.{AreNames, names_at};

    ghost view = { λ a. names_at a.bytes.items a.end a.spans.items };

    ghost invariant = { λ a. AreNames a.bytes.items a.end a.spans.items };
}

impl NameRun {
    /// No names yet, with room for so many of usual length.
    pub(crate) fn with_capacity(alloc: Global, count: usize) -> Result<NameRun, AllocError>
        ensures { IfOk result (λ names. names ≡ []) }
    {
        let bytes = Vec::with_capacity(alloc, count.saturating_mul(USUAL_BYTES))?;
        let spans = Vec::with_capacity(alloc, count)?;
        Ok(NameRun {
            bytes,
            end: 0,
            spans,
        })
    }

    /// How many names there are.
    pub(crate) fn len(&self) -> usize
        ensures { result ≡ length self.now }
    {
        self.spans.len()
    }

    /// Name `k`, from 0 on, with the bytes that lie behind it, and how many are the name's.
    pub(crate) fn run(&self, k: usize) -> (&[u8], usize)
        requires { k < length self.now }
        ensures name { take result.1 result.0.now ≡ slice_index_or self.now k [] }
        ensures within { result.1 ≤ length result.0.now }
    {
        let span = self.spans[k];
        let (_, run) = self.bytes.as_slice().split_at(span.start as usize);
        (run, span.len as usize)
    }

    /// Adds a name behind the others. Where there is no memory for it, they stay.
    pub(crate) fn push(&mut self, name: &[u8]) -> Result<(), AllocError>
        ensures ok { OnOk result (self.new ≡ self.old ++ name.now ∷ []) }
        ensures err { OnErr result (self.new ≡ self.old) }
    {
        let start = self.end;
        let end = end_behind(start, name.len())?;
        let front = front_of(name);
        put_at(&mut self.bytes, start, name)?;
        self.spans.push(Span {
            front,
            start,
            len: end - start,
        })?;
        self.end = end;
        Ok(())
    }

    /// Adds the name that has the first `len` bytes of a line. All of the line is copied: a copy of a length that is known when
    /// this is compiled is a few wide moves.
    pub(crate) fn push_line(
        &mut self,
        line: &[u8; LINE_BYTES],
        len: usize,
    ) -> Result<(), AllocError>
        requires { len ≤ 56 }
        ensures ok { OnOk result (self.new ≡ self.old ++ take len line.now ∷ []) }
        ensures err { OnErr result (self.new ≡ self.old) }
    {
        let start = self.end;
        let end = end_behind(start, len)?;
        let front = front_in_line(line, len);
        put_at(&mut self.bytes, start, line)?;
        self.spans.push(Span {
            front,
            start,
            len: end - start,
        })?;
        self.end = end;
        Ok(())
    }

    /// Puts the names in the order of their bytes.
    pub(crate) fn sort(&mut self)
        ensures all { IsPermutation self.old self.new }
        ensures order { IsSorted (slice_cmp nat_cmp) self.new }
    {
        let (named, _) = self.bytes.as_slice().split_at(self.end as usize);
        sort_spans(named, &mut self.spans);
    }
}

/// Where a name of so many bytes ends that begins here. A list of which a place would need more than 32 bits has no memory.
fn end_behind(start: u32, len: usize) -> Result<u32, AllocError>
    ensures { IfOk result (λ end. end ≡ start + len) }
{
    let Ok(len) = u32::try_from(len) else {
        return Err(AllocError);
    };
    match start.checked_add(len) {
        Some(end) => Ok(end),
        None => Err(AllocError),
    }
}

/// Puts bytes in place of all from byte `at` on.
fn put_at(bytes: &mut Vec<u8>, at: u32, more: &[u8]) -> Result<(), AllocError>
    ensures ok { OnOk result (bytes.new.items ≡ take at bytes.old.items ++ more.now) }
    ensures err { OnErr result (bytes.new.items ≡ take at bytes.old.items) }
{
    bytes.truncate(at as usize);
    bytes.extend_from_slice(more)
}
