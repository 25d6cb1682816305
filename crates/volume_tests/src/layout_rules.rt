//! The rules 1 to 7, each looked at by itself as it is written down, in as many steps as that takes.

use crate::plain_check::Broken;
use crate::words::{
    LARGEST_SIZE, indirect_number, inode_block, is_marked, kind, page_count, page_number, size,
    word,
};
use std::alloc::{AllocError, Global};

/// Rule 1: how many inodes there are, if there is a superblock of a volume of so many blocks.
pub(crate) fn inodes_of(words: &[u64], count: u64) -> Option<u64> {
    if word(words, 0, 0) != 0x4d55_4c4f_564f_4952 || word(words, 0, 1) != 1 {
        return None;
    }
    let inodes = word(words, 0, 3);
    if inodes < 32 || inodes > 32768 || inodes % 32 != 0 {
        return None;
    }
    let blocks = word(words, 0, 2);
    if blocks != count || blocks < 3 + inodes / 32 || blocks > 32768 {
        return None;
    }
    Some(inodes)
}

/// Rule 2.
pub(crate) fn reserved_rule(words: &[u64], count: u64, reserved: u64) -> Option<Broken> {
    for b in 0..32768 {
        if b < reserved && !is_marked(words, b) {
            return Some((2, 1));
        }
        if b >= count && is_marked(words, b) {
            return Some((2, 1));
        }
    }
    None
}

/// Rule 3.
pub(crate) fn kind_rule(words: &[u64], inodes: u64) -> Option<Broken> {
    for k in 0..inodes {
        let i = k + 1;
        let kind = kind(words, i);
        if kind > 3 || (i == 1 && kind != 1) {
            return Some((3, inode_block(i)));
        }
    }
    None
}

/// Whether a used inode of this kind may have this size.
fn has_size(kind: u64, size: u64) -> bool {
    if size > LARGEST_SIZE {
        return false;
    }
    match kind {
        1 => size % 64 == 0,
        3 => size % 4096 == 0 && size / 4096 >= 4,
        _ => true,
    }
}

/// Rule 4.
pub(crate) fn size_rule(words: &[u64], inodes: u64) -> Option<Broken> {
    for k in 0..inodes {
        let i = k + 1;
        let kind = kind(words, i);
        if kind != 0 && !has_size(kind, size(words, i)) {
            return Some((4, inode_block(i)));
        }
    }
    None
}

/// The numbers of an inode that count.
fn numbers_of(alloc: Global, words: &[u64], i: u64) -> Result<Vec<u64>, AllocError> {
    let mut numbers = Vec::new(alloc);
    if kind(words, i) == 0 {
        return Ok(numbers);
    }
    let pages = page_count(words, i);
    if pages > 24 {
        numbers.push(indirect_number(words, i))?;
    }
    for page in 0..pages {
        numbers.push(page_number(words, i, page))?;
    }
    Ok(numbers)
}

/// Rule 5.
pub(crate) fn number_rule(
    alloc: Global,
    words: &[u64],
    count: u64,
    inodes: u64,
    reserved: u64,
) -> Result<Option<Broken>, AllocError> {
    for k in 0..inodes {
        let i = k + 1;
        for number in &numbers_of(alloc, words, i)? {
            if *number < reserved || *number >= count {
                return Ok(Some((5, inode_block(i))));
            }
        }
    }
    Ok(None)
}

/// All numbers that count.
pub(crate) fn all_numbers(
    alloc: Global,
    words: &[u64],
    inodes: u64,
) -> Result<Vec<u64>, AllocError> {
    let mut all = Vec::new(alloc);
    for k in 0..inodes {
        let numbers = numbers_of(alloc, words, k + 1)?;
        all.extend_from_slice(&numbers)?;
    }
    Ok(all)
}

/// How many of these numbers are this one.
fn times(numbers: &[u64], number: u64) -> usize {
    numbers.iter().filter(|other| **other == number).count()
}

/// Rule 6.
pub(crate) fn once_rule(numbers: &[u64], count: u64) -> Option<Broken> {
    for b in 0..count {
        if times(numbers, b) > 1 {
            return Some((6, b));
        }
    }
    None
}

/// Rule 7.
pub(crate) fn mark_rule(
    words: &[u64],
    numbers: &[u64],
    count: u64,
    reserved: u64,
) -> Option<Broken> {
    for b in reserved..count {
        if is_marked(words, b) != (times(numbers, b) > 0) {
            return Some((7, 1));
        }
    }
    None
}
