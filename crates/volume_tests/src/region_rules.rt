//! Rule 11, looked at as it is written down, in as many steps as that takes.

use crate::plain_check::Broken;
use crate::words::{inode_block, kind, node_word, size};
use std::alloc::{AllocError, Global};

/// A region, and how many pages it has by its header.
#[derive(Clone, Copy)]
struct Region {
    inode: u64,
    /// Undo pages.
    undo: u64,
    /// Data pages.
    pages: u64,
}

/// An undo record.
#[derive(Clone, Copy)]
struct Record {
    /// The undo word at which it lies.
    at: u64,
    /// The head before it.
    older: u64,
    /// Its first place.
    first: u64,
    /// How many places it saves.
    count: u64,
}

/// The words of so many pages.
fn words_in(pages: u64) -> u64 {
    pages.saturating_mul(512)
}

/// The pages of a heap map of so many data pages.
fn map_pages(pages: u64) -> u64 {
    pages.div_ceil(256)
}

/// The region of inode `i`, if its header is that of a region of its size.
fn region_of(words: &[u64], i: u64) -> Option<Region> {
    if node_word(words, i, 0) != 0x4745_5241_5453_4956 {
        return None;
    }
    let undo = node_word(words, i, 1);
    let pages = node_word(words, i, 2);
    if undo < 1 || pages < 1 {
        return None;
    }
    let front = undo.saturating_add(1).saturating_add(map_pages(pages));
    if size(words, i) != front.saturating_add(pages).saturating_mul(4096) {
        return None;
    }
    Some(Region {
        inode: i,
        undo,
        pages,
    })
}

/// A word of the undo pages.
fn undo_word(words: &[u64], region: Region, p: u64) -> u64 {
    node_word(words, region.inode, p.saturating_add(512))
}

/// The record that a head names, which is not 0, if its first three words are words of the undo pages.
fn record_of(words: &[u64], region: Region, head: u64) -> Option<Record> {
    let at = head.saturating_sub(1);
    if at.saturating_add(3) > words_in(region.undo) {
        return None;
    }
    Some(Record {
        at,
        older: undo_word(words, region, at),
        first: undo_word(words, region, at.saturating_add(1)),
        count: undo_word(words, region, at.saturating_add(2)),
    })
}

/// The records that the head leads to, the newest first. No undo pages have as many records as words.
fn records_of(
    alloc: Global,
    words: &[u64],
    region: Region,
) -> Result<Option<Vec<Record>>, AllocError> {
    let mut records = Vec::new(alloc);
    let mut head = node_word(words, region.inode, 3);
    for _ in 0..words_in(region.undo) {
        if head == 0 {
            return Ok(Some(records));
        }
        let Some(record) = record_of(words, region, head) else {
            return Ok(None);
        };
        records.push(record)?;
        head = record.older;
    }
    Ok(None)
}

/// Whether records, the newest first, are laid out as they have to be: the oldest is at 0, each next one begins where the one
/// before it ends, and the newest ends within the undo pages. No place of theirs is past the data.
fn are_in_line(records: &[Record], region: Region) -> bool {
    let places = words_in(map_pages(region.pages).saturating_add(region.pages));
    let mut end = 0;
    for record in records.iter().rev() {
        if record.at != end || record.first.saturating_add(record.count) > places {
            return false;
        }
        end = record.at.saturating_add(3).saturating_add(record.count);
    }
    end <= words_in(region.undo)
}

/// The word at place `q`, once the records are put back, the newest first.
fn word_before(words: &[u64], region: Region, records: &[Record], q: u64) -> u64 {
    let front = words_in(region.undo.saturating_add(1));
    let mut word = node_word(words, region.inode, front.saturating_add(q));
    for record in records {
        let n = q.wrapping_sub(record.first);
        if record.first <= q && n < record.count {
            word = undo_word(words, region, record.at.saturating_add(3).saturating_add(n));
        }
    }
    word
}

/// Whether unit `t` of the heap is used.
fn is_used(map: &[u64], t: u64) -> bool {
    is_set(map, t / 64 * 2, t % 64)
}

/// Whether a block starts there.
fn is_start(map: &[u64], t: u64) -> bool {
    is_set(map, t / 64 * 2 + 1, t % 64)
}

/// Bit `u` of word `q` of the map.
fn is_set(map: &[u64], q: u64, u: u64) -> bool {
    match map.get(q as usize) {
        Some(word) => (word >> (u % 64)) % 2 == 1,
        None => false,
    }
}

/// Whether unit `t` may be in a heap of blocks alone.
fn is_of_blocks(map: &[u64], t: u64) -> bool {
    if !is_used(map, t) {
        return !is_start(map, t);
    }
    is_start(map, t) || (t > 0 && is_used(map, t - 1))
}

/// Whether these words are the map of a heap of blocks alone, of so many data pages.
fn is_map(map: &[u64], pages: u64) -> bool {
    for t in 0..pages.saturating_mul(64) {
        if !is_of_blocks(map, t) {
            return false;
        }
    }
    for (q, word) in map.iter().enumerate() {
        if q as u64 >= pages.saturating_mul(2) && *word != 0 {
            return false;
        }
    }
    true
}

/// The words of the heap map, once the records are put back.
fn map_before(
    alloc: Global,
    words: &[u64],
    region: Region,
    records: &[Record],
) -> Result<Vec<u64>, AllocError> {
    let mut map = Vec::new(alloc);
    for q in 0..words_in(map_pages(region.pages)) {
        map.push(word_before(words, region, records, q))?;
    }
    Ok(map)
}

/// Whether inode `i` is a region as it has to be.
fn is_region(alloc: Global, words: &[u64], i: u64) -> Result<bool, AllocError> {
    let Some(region) = region_of(words, i) else {
        return Ok(false);
    };
    let Some(records) = records_of(alloc, words, region)? else {
        return Ok(false);
    };
    if !are_in_line(&records, region) {
        return Ok(false);
    }
    let map = map_before(alloc, words, region, &records)?;
    Ok(is_map(&map, region.pages))
}

/// Rule 11.
pub(crate) fn region_rule(
    alloc: Global,
    words: &[u64],
    inodes: u64,
) -> Result<Option<Broken>, AllocError> {
    for k in 0..inodes {
        let i = k + 1;
        if kind(words, i) == 3 && !is_region(alloc, words, i)? {
            return Ok(Some((11, inode_block(i))));
        }
    }
    Ok(None)
}
