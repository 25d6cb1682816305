//! Lists of blocks, each of 512 words.

ghost use Rattle.std.specs.Prelude.{◌≡◌, ◌<◌, ℕ, IfOk, length, replicate, slice_set};
ghost use Rattle.rio_base.specs.Disks.{block_at, blocks_of};
ghost use Rattle.block_disk.specs.BlockLists.{AreWhole, Replaced, rows, torn_words};

use crate::pending::PendingBlocks;
use std::alloc::{AllocError, Global};

/// Words in a block.
pub const BLOCK_WORDS: usize = 512;

/// So many blocks of zeros.
#[tactic(auto, using(crate::proofs::Rows::rows_push))]
pub fn zero_blocks(alloc: Global, count: usize) -> Result<Vec<Vec<u64>>, AllocError>
    ensures { IfOk result (λ all. rows all.items ≡ replicate count (replicate 512 0)) }
{
    let mut all = Vec::new(alloc);
    for _ in 0..count {
        all.push(vec![in alloc; 0; BLOCK_WORDS]?)?;
    }
    Ok(all)
}

/// The blocks that these words make. Words of a last part of a block are left out.
#[tactic(auto, using(crate::proofs::WordBlocks::one_more))]
pub fn word_blocks(alloc: Global, words: &[u64]) -> Result<Vec<Vec<u64>>, AllocError>
    ensures { IfOk result (λ all. rows all.items ≡ blocks_of words.now) }
{
    let mut all = Vec::new(alloc);
    for b in 0..words.len() / BLOCK_WORDS {
        let from = BLOCK_WORDS * b;
        all.push(Vec::from_slice(alloc, &words[from..from + BLOCK_WORDS])?)?;
    }
    Ok(all)
}

/// Copies a block out.
pub fn copy_block(blocks: &[Vec<u64>], b: usize, into: &mut Vec<u64>)
    requires within { b < length (rows blocks.now) }
    requires room { length into.old.items ≡ length (block_at (rows blocks.now) b) }
    ensures { into.new.items ≡ block_at (rows blocks.now) b }
{
    into.copy_from_slice(&blocks[b]);
}

/// Puts words over those of a block.
#[tactic(auto, using(crate::proofs::Rows::rows_set))]
pub fn put_block(blocks: &mut Vec<Vec<u64>>, b: usize, from: &[u64])
    requires within { b < length (rows blocks.old.items) }
    requires words { length (block_at (rows blocks.old.items) b) ≡ length from.now }
    ensures { rows blocks.new.items ≡ slice_set (rows blocks.old.items) b from.now }
{
    blocks[b].copy_from_slice(from);
}

/// Puts the front half of a block's new words over the old ones.
#[tactic(auto, using(crate::proofs::Rows::half_length, crate::proofs::Rows::half_put))]
fn put_half(words: &mut [u64], from: &[u64])
    requires words { length words.old ≡ 512 }
    requires from { length from.now ≡ 512 }
    ensures { words.new ≡ torn_words from.now words.old }
{
    words[..BLOCK_WORDS / 2].copy_from_slice(&from[..BLOCK_WORDS / 2]);
}

/// Puts the front half of a block's new words over those of a block: its write failed.
#[tactic(auto, using(crate::proofs::Rows::rows_set, crate::proofs::Rows::row_torn))]
pub fn tear_block(blocks: &mut Vec<Vec<u64>>, b: usize, from: &[u64])
    requires within { b < length (rows blocks.old.items) }
    requires block { length (block_at (rows blocks.old.items) b) ≡ 512 }
    requires words { length from.now ≡ 512 }
    ensures { rows blocks.new.items ≡ slice_set (rows blocks.old.items) b (torn_words from.now (block_at (rows blocks.old.items) b)) }
{
    put_half(blocks[b].as_mut_slice(), from);
}

/// Makes each word this one.
fn fill_words(words: &mut Vec<u64>, word: u64)
    ensures { words.new.items ≡ replicate (length words.old.items) word }
{
    words.as_mut_slice().fill(word);
}

/// Makes each word of a block this one.
fn fill_block(blocks: &mut Vec<Vec<u64>>, b: usize, word: u64)
    requires within { b < length (rows blocks.old.items) }
    requires words { length (block_at (rows blocks.old.items) b) ≡ 512 }
    ensures { rows blocks.new.items ≡ slice_set (rows blocks.old.items) b (replicate 512 word) }
{
    fill_words(&mut blocks[b], word);
}

/// Copies the pending blocks over those of another list.
pub fn copy_pending(pending: &PendingBlocks, from: &[Vec<u64>], to: &mut Vec<Vec<u64>>)
    requires marks { length pending.now.marks.items ≡ length (rows to.old.items) }
    requires count { length (rows from.now) ≡ length (rows to.old.items) }
    requires from { AreWhole (rows from.now) }
    requires to { AreWhole (rows to.old.items) }
    ensures replaced { Replaced pending.now.marks.items (block_at (rows from.now)) (rows to.old.items) (rows to.new.items) }
    ensures whole { AreWhole (rows to.new.items) }
{
    let numbers = pending.numbers();
    for i in 0..numbers.len() {
        let b = numbers[i] as usize;
        put_block(to, b, &from[b]);
    }
}

/// Makes each word of each pending block this one.
pub fn fill_pending(pending: &PendingBlocks, word: u64, blocks: &mut Vec<Vec<u64>>)
    requires marks { length pending.now.marks.items ≡ length (rows blocks.old.items) }
    requires whole { AreWhole (rows blocks.old.items) }
    ensures replaced { Replaced pending.now.marks.items (λ b. replicate 512 word) (rows blocks.old.items) (rows blocks.new.items) }
    ensures whole { AreWhole (rows blocks.new.items) }
{
    let numbers = pending.numbers();
    for i in 0..numbers.len() {
        let b = numbers[i] as usize;
        fill_block(blocks, b, word);
    }
}
