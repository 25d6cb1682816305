//! The rules 8 to 10, each looked at by itself as it is written down, in as many steps as that takes.

use crate::plain_check::Broken;
use crate::words::{inode_block, kind, node_word, size};
use std::alloc::{AllocError, Global};

/// How many entries inode `i` has: none where it is no directory.
fn entry_count(words: &[u64], i: u64) -> u64 {
    if kind(words, i) == 1 {
        size(words, i) / 64
    } else {
        0
    }
}

/// The inode that entry `j` of directory `i` names.
fn named(words: &[u64], i: u64, j: u64) -> u64 {
    node_word(words, i, j.saturating_mul(8)) % 0x1_0000_0000
}

/// The length of its name.
fn name_length(words: &[u64], i: u64, j: u64) -> u64 {
    (node_word(words, i, j.saturating_mul(8)) >> 32) % 256
}

/// Byte `n` of its name.
fn name_byte(words: &[u64], i: u64, j: u64, n: u64) -> u64 {
    let y = j.saturating_mul(8).saturating_add(1 + n / 8);
    (node_word(words, i, y) >> (8 * (n % 8))) % 256
}

/// Whether the name has this length and is dots alone.
fn is_dots(words: &[u64], i: u64, j: u64, len: u64) -> bool {
    if name_length(words, i, j) != len {
        return false;
    }
    for n in 0..len {
        if name_byte(words, i, j, n) != 0x2e {
            return false;
        }
    }
    true
}

/// Whether it is a name that a path may have.
fn is_name(words: &[u64], i: u64, j: u64) -> bool {
    let len = name_length(words, i, j);
    if len < 1 || len > 56 {
        return false;
    }
    for n in 0..len {
        let byte = name_byte(words, i, j, n);
        if byte < 0x21 || byte > 0x7e || byte == 0x2f {
            return false;
        }
    }
    !is_dots(words, i, j, 1) && !is_dots(words, i, j, 2)
}

/// Whether entry `j` of directory `i` has a name, and names an inode that is used.
fn is_entry(words: &[u64], inodes: u64, i: u64, j: u64) -> bool {
    let inode = named(words, i, j);
    is_name(words, i, j) && inode >= 1 && inode <= inodes && kind(words, inode) != 0
}

/// Rule 8.
pub(crate) fn entry_rule(words: &[u64], inodes: u64) -> Option<Broken> {
    for k in 0..inodes {
        let i = k + 1;
        for j in 0..entry_count(words, i) {
            if !is_entry(words, inodes, i, j) {
                return Some((8, inode_block(i)));
            }
        }
    }
    None
}

/// Whether two entries of a directory have one name.
fn same_name(words: &[u64], i: u64, j: u64, k: u64) -> bool {
    let len = name_length(words, i, j);
    if name_length(words, i, k) != len {
        return false;
    }
    for n in 0..len {
        if name_byte(words, i, j, n) != name_byte(words, i, k, n) {
            return false;
        }
    }
    true
}

/// Whether entry `j` of a directory has the name of one before it.
fn repeats(words: &[u64], i: u64, j: u64) -> bool {
    for k in 0..j {
        if same_name(words, i, j, k) {
            return true;
        }
    }
    false
}

/// Rule 9.
pub(crate) fn apart_rule(words: &[u64], inodes: u64) -> Option<Broken> {
    for k in 0..inodes {
        let i = k + 1;
        for j in 0..entry_count(words, i) {
            if repeats(words, i, j) {
                return Some((9, inode_block(i)));
            }
        }
    }
    None
}

/// How many entries of directory `d` name inode `i`.
fn names_in(words: &[u64], d: u64, i: u64) -> u64 {
    let mut count: u64 = 0;
    for j in 0..entry_count(words, d) {
        if named(words, d, j) == i {
            count = count.saturating_add(1);
        }
    }
    count
}

/// How many names inode `i` has.
fn name_count(words: &[u64], inodes: u64, i: u64) -> u64 {
    let mut count: u64 = 0;
    for k in 0..inodes {
        count = count.saturating_add(names_in(words, k + 1, i));
    }
    count
}

/// Whether these are marks, and inode `i` is marked.
fn is_reached(reached: &[bool], i: u64) -> bool {
    match reached.get(i as usize) {
        Some(reached) => *reached,
        None => false,
    }
}

/// Whether a directory that is reached names inode `i`.
fn is_led_to(words: &[u64], inodes: u64, reached: &[bool], i: u64) -> bool {
    for k in 0..inodes {
        if is_reached(reached, k + 1) && names_in(words, k + 1, i) > 0 {
            return true;
        }
    }
    false
}

/// The inodes that are reached in one step more than these, by their numbers. Of no steps the root is reached.
fn one_step(
    alloc: Global,
    words: &[u64],
    inodes: u64,
    reached: &[bool],
) -> Result<Vec<bool>, AllocError> {
    let mut more = Vec::new(alloc);
    more.push(false)?;
    for k in 0..inodes {
        let i = k + 1;
        more.push(i == 1 || is_reached(reached, i) || is_led_to(words, inodes, reached, i))?;
    }
    Ok(more)
}

/// The inodes that are reached: more steps than there are inodes reach none more.
fn all_reached(alloc: Global, words: &[u64], inodes: u64) -> Result<Vec<bool>, AllocError> {
    let mut reached = Vec::new(alloc);
    for _ in 0..inodes {
        let more = one_step(alloc, words, inodes, &reached)?;
        if more == reached {
            return Ok(reached);
        }
        reached = more;
    }
    Ok(reached)
}

/// Rule 10.
pub(crate) fn tree_rule(
    alloc: Global,
    words: &[u64],
    inodes: u64,
) -> Result<Option<Broken>, AllocError> {
    let reached = all_reached(alloc, words, inodes)?;
    for k in 0..inodes {
        let i = k + 1;
        let due = if i == 1 { 0 } else { 1 };
        let in_tree = is_reached(&reached, i) && name_count(words, inodes, i) == due;
        if kind(words, i) != 0 && !in_tree {
            return Ok(Some((10, inode_block(i))));
        }
    }
    Ok(None)
}
