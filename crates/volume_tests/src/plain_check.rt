//! The rules of a volume once more, each looked at by itself as it is written down. The words are those of all blocks, one
//! block after the other.

use crate::layout_rules::{
    all_numbers, inodes_of, kind_rule, mark_rule, number_rule, once_rule, reserved_rule, size_rule,
};
use crate::node_rules::{apart_rule, entry_rule, tree_rule};
use crate::region_rules::region_rule;
use std::alloc::{AllocError, Global};

/// A rule that fails, and the block that is told with it.
pub(crate) type Broken = (u8, u64);

/// The first of the rules 3 to 7 that fails.
fn first_of_layout(
    alloc: Global,
    words: &[u64],
    count: u64,
    inodes: u64,
    reserved: u64,
) -> Result<Option<Broken>, AllocError> {
    if let Some(broken) = kind_rule(words, inodes) {
        return Ok(Some(broken));
    }
    if let Some(broken) = size_rule(words, inodes) {
        return Ok(Some(broken));
    }
    if let Some(broken) = number_rule(alloc, words, count, inodes, reserved)? {
        return Ok(Some(broken));
    }
    let numbers = all_numbers(alloc, words, inodes)?;
    if let Some(broken) = once_rule(&numbers, count) {
        return Ok(Some(broken));
    }
    Ok(mark_rule(words, &numbers, count, reserved))
}

/// The first of the rules 8 to 11 that fails.
fn first_of_nodes(alloc: Global, words: &[u64], inodes: u64) -> Result<Option<Broken>, AllocError> {
    if let Some(broken) = entry_rule(words, inodes) {
        return Ok(Some(broken));
    }
    if let Some(broken) = apart_rule(words, inodes) {
        return Ok(Some(broken));
    }
    if let Some(broken) = tree_rule(alloc, words, inodes)? {
        return Ok(Some(broken));
    }
    region_rule(alloc, words, inodes)
}

/// The first rule that these blocks break, of which there are `count`.
pub(crate) fn first_broken(
    alloc: Global,
    words: &[u64],
    count: u64,
) -> Result<Option<Broken>, AllocError> {
    let Some(inodes) = inodes_of(words, count) else {
        return Ok(Some((1, 0)));
    };
    let reserved = 2 + inodes / 32;
    if let Some(broken) = reserved_rule(words, count, reserved) {
        return Ok(Some(broken));
    }
    if let Some(broken) = first_of_layout(alloc, words, count, inodes, reserved)? {
        return Ok(Some(broken));
    }
    first_of_nodes(alloc, words, inodes)
}
