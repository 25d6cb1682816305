//! A plain list of words, changed one word after the other, beside which memory in a file is changed.

use crate::held_changes::Change;
use std::alloc::AllocError;

/// Words, and what they were before each word that was stored, the earliest first.
#[derive(Drop)]
pub(crate) struct Plain {
    pub(crate) words: Vec<u64>,
    pub(crate) moments: Vec<Vec<u64>>,
}

impl Plain {
    /// Stores a word, where there is the place.
    pub(crate) fn set(&mut self, at: usize, word: u64) -> Result<(), AllocError> {
        self.moments.push(self.words.clone()?)?;
        if let Some(place) = self.words.get_mut(at) {
            *place = word;
        }
        Ok(())
    }

    /// Makes a change.
    pub(crate) fn follow(&mut self, change: Change) -> Result<(), AllocError> {
        match change {
            Change::Store { at, word } => self.set(at as usize, word),
            Change::Run { at, count, word } => self.follow_run(at, count, word),
            Change::Copy { from, to, count } => self.follow_copy(from, to, count),
        }
    }

    fn follow_run(&mut self, at: u16, count: u16, word: u64) -> Result<(), AllocError> {
        for i in 0..count {
            let place = at as usize + i as usize;
            self.set(place, word.wrapping_add(u64::from(i)))?;
        }
        Ok(())
    }

    fn follow_copy(&mut self, from: u16, to: u16, count: u16) -> Result<(), AllocError> {
        for i in 0..count {
            let word = self.words.get(from as usize + i as usize).copied();
            self.set(to as usize + i as usize, word.unwrap_or(0))?;
        }
        Ok(())
    }
}
