//! The words of a memory image and of a disk.

use image_codec::{fresh_image, fresh_volume};
use std::alloc::{AllocError, Global};
use test_servers::{Sizes, checked};

/// The words of a block.
const BLOCK_WORDS: u64 = 512;

/// The words of a header and a registry page.
const ENTRY_WORDS: usize = 1024;

/// What a fingerprint begins with and what each word multiplies it by, of the hash by Fowler, Noll and Vo.
const FIRST_SUM: u64 = 0xcbf2_9ce4_8422_2325;

const FACTOR: u64 = 0x0000_0100_0000_01b3;

/// The words of a memory image and of a disk of which nothing is pending.
#[derive(Drop)]
pub struct Pair {
    pub memory: Vec<u64>,
    pub disk: Vec<u64>,
}

/// Stores a word, where there is such a place.
fn put(words: &mut [u64], at: u64, word: u64) {
    if let Some(place) = words.get_mut(at as usize) {
        *place = word;
    }
}

/// A fingerprint with further words in it.
fn mixed(sum: u64, words: &[u64]) -> u64 {
    let mut sum = sum;
    for word in words {
        let high = sum >> 32; // the product carries low bits up alone
        sum = (sum ^ high ^ *word).wrapping_mul(FACTOR);
    }
    sum
}

impl Pair {
    /// An image with no entry, and a fresh volume. The error means want of memory, or sizes that no pair has.
    pub fn fresh(alloc: Global, sizes: Sizes) -> Result<Pair, AllocError> {
        let Some(found) = checked(sizes) else {
            return Err(AllocError);
        };
        let memory = fresh_image(alloc, found.frames, 1)?;
        let disk = fresh_volume(alloc, &found.shape)?;
        Ok(Pair { memory, disk })
    }

    /// The pair of these words.
    pub fn of(alloc: Global, memory: &[u64], disk: &[u64]) -> Result<Pair, AllocError> {
        let memory = Vec::from_slice(alloc, memory)?;
        let disk = Vec::from_slice(alloc, disk)?;
        Ok(Pair { memory, disk })
    }

    /// Whether both have the same words.
    pub fn is(&self, other: &Pair) -> bool {
        if self.memory.as_slice() != other.memory.as_slice() {
            return false;
        }
        self.disk.as_slice() == other.disk.as_slice()
    }

    /// A number that most often differs where a word of the header, of the registry page or of the disk does. An image of up to
    /// 102 frames has one registry page.
    pub fn fingerprint(&self) -> u64 {
        let front = self.memory.get(..ENTRY_WORDS).unwrap_or(&[]);
        mixed(mixed(FIRST_SUM, front), &self.disk)
    }

    /// Stores a word of memory, where there is such a place.
    pub fn put_word(&mut self, at: u64, word: u64) {
        put(&mut self.memory, at, word);
    }

    /// Stores word `w` of a block of the disk, where there is such a place.
    pub fn put_block_word(&mut self, block: u64, w: u64, word: u64) {
        let at = block.saturating_mul(BLOCK_WORDS).saturating_add(w);
        put(&mut self.disk, at, word);
    }
}
