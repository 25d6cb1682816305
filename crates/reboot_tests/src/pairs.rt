//! Pairs of memory and disk. The image has 32 frames and one scratch page: its shadow page `s` is page `1 + s`, and its frame
//! `k` page `18 + k`. The volume has 16 blocks and 32 inodes, so that blocks 0 to 2 are reserved; block 3 is the page of
//! the root, which has the file `f`, inode 2, of 5,000 bytes in the blocks 4 and 5. Each word of these is 1.

use image_codec::{fresh_image, fresh_volume};
use rio_base::VolumeShape;
use std::alloc::{AllocError, Global};

/// The words of a page and of a block.
const PAGE_WORDS: usize = 512;

/// The page of frame 0.
const FIRST_FRAME: usize = 18;

/// The sizes of the volume.
const SHAPE: VolumeShape = VolumeShape {
    version: 1,
    blocks: 16,
    inodes: 32,
};

/// The words of a pair.
#[derive(Drop)]
pub(crate) struct Pair {
    pub(crate) memory: Vec<u64>,
    pub(crate) disk: Vec<u64>,
}

/// Stores a word, where there is such a place.
fn put(words: &mut [u64], at: usize, word: u64) {
    if let Some(place) = words.get_mut(at) {
        *place = word;
    }
}

/// The place of word `w` of a page or a block.
fn place(page: usize, w: usize) -> usize {
    page.saturating_mul(PAGE_WORDS).saturating_add(w)
}

/// Fills a page or a block.
fn fill(words: &mut [u64], page: usize, word: u64) {
    for w in 0..PAGE_WORDS {
        put(words, place(page, w), word);
    }
}

/// The place of word `w` of entry `k`.
fn entry_place(k: usize, w: usize) -> usize {
    place(1, k.saturating_mul(5).saturating_add(w))
}

/// The words of the volume with its one file.
fn volume(alloc: Global) -> Result<Vec<u64>, AllocError> {
    let mut words = fresh_volume(alloc, &SHAPE)?;
    put(&mut words, PAGE_WORDS, 0b11_1111);
    let root = 2 * PAGE_WORDS;
    put(&mut words, root + 1, 64);
    put(&mut words, root + 2, 3);
    let file = root + 16;
    put(&mut words, file, 2);
    put(&mut words, file + 1, 5_000);
    put(&mut words, file + 2, 0x0000_0005_0000_0004);
    let entry = 3 * PAGE_WORDS;
    put(&mut words, entry, 0x0000_0001_0000_0002);
    put(&mut words, entry + 1, 0x66);
    fill(&mut words, 4, 1);
    fill(&mut words, 5, 1);
    Ok(words)
}

impl Pair {
    /// The pair with no entry.
    pub(crate) fn new(alloc: Global) -> Result<Pair, AllocError> {
        let memory = fresh_image(alloc, 32, 1)?;
        let disk = volume(alloc)?;
        Ok(Pair { memory, disk })
    }

    /// A copy.
    pub(crate) fn copy(&self, alloc: Global) -> Result<Pair, AllocError> {
        let memory = Vec::from_slice(alloc, &self.memory)?;
        let disk = Vec::from_slice(alloc, &self.disk)?;
        Ok(Pair { memory, disk })
    }

    pub(crate) fn set_gate(&mut self, word: u64) {
        put(&mut self.memory, 4, word);
    }

    /// Sets the tag of entry `k`: 1 for valid, 2 for dirty, 4 for data.
    pub(crate) fn set_tag(&mut self, k: usize, block: u64, flags: u64) {
        let tag = block.wrapping_mul(1 << 32) | flags;
        put(&mut self.memory, entry_place(k, 0), tag);
        if flags & 4 == 0 {
            put(&mut self.memory, entry_place(k, 3), 4096);
        }
    }

    /// Sets the name of entry `k`.
    pub(crate) fn set_name(&mut self, k: usize, file: u64, index: u64, size: u64) {
        put(&mut self.memory, entry_place(k, 1), file);
        put(&mut self.memory, entry_place(k, 2), index);
        put(&mut self.memory, entry_place(k, 3), size);
    }

    pub(crate) fn set_shadow(&mut self, k: usize, s: u64) {
        put(&mut self.memory, entry_place(k, 4), s);
    }

    /// Fills a page of memory.
    pub(crate) fn fill_page(&mut self, page: usize, word: u64) {
        fill(&mut self.memory, page, word);
    }

    /// Copies a block of the disk to a page of memory.
    pub(crate) fn copy_to_page(&mut self, block: usize, page: usize) {
        for w in 0..PAGE_WORDS {
            let word = self.disk.get(place(block, w)).copied().unwrap_or(0);
            put(&mut self.memory, place(page, w), word);
        }
    }

    /// Stores a word of a page of memory.
    pub(crate) fn put_word(&mut self, page: usize, w: usize, word: u64) {
        put(&mut self.memory, place(page, w), word);
    }

    /// Fills a block of the disk.
    pub(crate) fn fill_block(&mut self, block: usize, word: u64) {
        fill(&mut self.disk, block, word);
    }

    /// Stores a word of a block of the disk.
    pub(crate) fn put_disk_word(&mut self, block: usize, w: usize, word: u64) {
        put(&mut self.disk, place(block, w), word);
    }

    /// A word of a block of the disk.
    pub(crate) fn disk_word(&self, block: usize, w: usize) -> u64 {
        self.disk.get(place(block, w)).copied().unwrap_or(0)
    }
}

/// The page of frame `k`.
pub(crate) fn frame(k: usize) -> usize {
    FIRST_FRAME.saturating_add(k)
}

/// The shadow page `s`.
pub(crate) fn shadow(s: usize) -> usize {
    s.saturating_add(1)
}
