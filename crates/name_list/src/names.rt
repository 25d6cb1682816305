//! Lists of names.

ghost use Rattle.std.specs.Prelude.{◌≡◌, ◌<◌, ◌≤◌, [], ◌∷◌, ◌++◌, IfOk, OnErr, OnOk, length, slice_index_or, take};
ghost use Rattle.std.specs.Cmp.Lexicographic.{slice_cmp};
ghost use Rattle.std.specs.List.Sorted.{IsPermutation, IsSorted};
ghost use Rattle.std.specs.Ordering.{nat_cmp};

use crate::fronts::LINE_BYTES;
use crate::run::NameRun;
use std::alloc::{AllocError, Global};
use std::marker::Model;

/// Names, which contracts see as the list of their bytes. They are kept in a box: a list is then one word, and what has a list in
/// one of its forms is moved and let go at no more cost in the others.
#[derive(Debug, Drop)]
pub struct NameList {
    names: Box<NameRun>,
}

impl Model for NameList {
    ghost use Rattle.std.specs.Prelude.{List, ℕ};

    ghost Value = { List (List ℕ) };

    ghost view = { λ a. a.names.value };
}

impl NameList {
    /// No names yet, with room for so many of usual length.
    pub fn with_capacity(alloc: Global, count: usize) -> Result<NameList, AllocError>
        ensures { IfOk result (λ names. names ≡ []) }
    {
        let names = Box::new(alloc, NameRun::with_capacity(alloc, count)?)?;
        Ok(NameList { names })
    }

    /// How many names there are.
    pub fn len(&self) -> usize
        ensures { result ≡ length self.now }
    {
        self.names.len()
    }

    /// Name `k`, from 0 on, with bytes that lie behind it, and how many are the name's. So a caller can copy by a length that is
    /// known when he is compiled, where there are as many. Behind the last name, where it was added by its line, are those
    /// of the line.
    pub fn run(&self, k: usize) -> (&[u8], usize)
        requires { k < length self.now }
        ensures name { take result.1 result.0.now ≡ slice_index_or self.now k [] }
        ensures within { result.1 ≤ length result.0.now }
    {
        self.names.run(k)
    }

    /// Name `k`, from 0 on.
    pub fn get(&self, k: usize) -> &[u8]
        requires { k < length self.now }
        ensures { result.now ≡ slice_index_or self.now k [] }
    {
        let (run, len) = self.run(k);
        &run[..len]
    }

    /// Adds a name behind the others. Where there is no memory for it, they stay.
    pub fn push(&mut self, name: &[u8]) -> Result<(), AllocError>
        ensures ok { OnOk result (self.new ≡ self.old ++ name.now ∷ []) }
        ensures err { OnErr result (self.new ≡ self.old) }
    {
        self.names.push(name)
    }

    /// Adds the name that has the first `len` bytes of a line. This takes less than `push`, since it copies whole lines.
    pub fn push_line(&mut self, line: &[u8; LINE_BYTES], len: usize) -> Result<(), AllocError>
        requires { len ≤ 56 }
        ensures ok { OnOk result (self.new ≡ self.old ++ take len line.now ∷ []) }
        ensures err { OnErr result (self.new ≡ self.old) }
    {
        self.names.push_line(line, len)
    }

    /// Puts the names in the order of their bytes.
    pub fn sort(&mut self)
        ensures all { IsPermutation self.old self.new }
        ensures order { IsSorted (slice_cmp nat_cmp) self.new }
    {
        self.names.sort();
    }
}
