//! Blocks of a region's heap, taken by first fit and given back.

ghost use Rattle.std.specs.Prelude.{◌≡◌, ◌+◌, ◌≤◌, ◌<◌, ◌^◌, ◌&&◌, ◌++◌, ◌∷◌, ℕ, drop, length, nat_le, take as first_of, IfOk, Ok as Good, Some as There};
ghost use Rattle.std.specs.Option.{option_copied};
ghost use Rattle.rio_model.specs.Heap.{block_size as block_size_of, in_block as in_block_of, with_block as with_block_of, without_block as without_block_of};
ghost use Rattle.rio_requests.specs.RegionAnswers.{all_free as all_free_of, alloc_on, first_fit as first_fit_of, free_on, give_back as give_back_of, map_record as map_record_of, take_fit as take_fit_of, units_in as units_in_of, with_used as with_used_of};

use super::transactions::{Outcome, lacks_undo, narrow};
use rio_base::HeapList;
use rio_model::{Refusal, RegionNode, Txn};
use rio_requests::{RegionAnswer, Reply};
use std::alloc::AllocError;

/// Takes a block of so many units.
pub fn alloc(region: &RegionNode, txn: Option<&Txn>, units: u64) -> Result<Outcome, AllocError>
    ensures { IfOk result (λ o. o ≡ alloc_on region.now (option_copied txn.entry) units) }
{
    match txn {
        None => Ok(Err(Refusal::NoTransaction as u8)),
        Some(txn) => {
            if txn.doomed {
                return Ok(Err(Refusal::Doomed as u8));
            }
            match first_fit(region, units) {
                Some(at) => take(region, txn, at, units),
                None => Ok(Err(Refusal::HeapFull as u8)),
            }
        }
    }
}

/// Gives back the block that starts at a byte offset.
pub fn free(region: &RegionNode, txn: Option<&Txn>, at: u64) -> Result<Outcome, AllocError>
    ensures { IfOk result (λ o. o ≡ free_on region.now (option_copied txn.entry) at) }
{
    match txn {
        None => Ok(Err(Refusal::NoTransaction as u8)),
        Some(txn) => {
            if txn.doomed {
                return Ok(Err(Refusal::Doomed as u8));
            }
            if at % 64 != 0 {
                return Ok(Err(Refusal::NotBlock as u8));
            }
            match block_size(region.blocks.as_slice(), at / 64) {
                Some(units) => give(region, txn, at / 64, units),
                None => Ok(Err(Refusal::NotBlock as u8)),
            }
        }
    }
}

/// How many units a region has, of 8 words each.
fn units_in(region: &RegionNode) -> u64
    ensures is { result ≡ units_in_of region.now }
    ensures few { result < 2 ^ 61 }
{
    region.words.as_slice().len() as u64 / 8
}

/// Whether a unit is in some block.
fn in_block(blocks: &[(u32, u32)], unit: u64) -> bool
    ensures { result ≡ in_block_of blocks.now unit }
{
    for block in blocks {
        let first = block.0 as u64;
        if first <= unit && unit < first + block.1 as u64 {
            return true;
        }
    }
    false
}

/// Whether so many units from one on are in no block.
fn all_free(blocks: &[(u32, u32)], unit: u64, units: u64) -> bool
    requires { unit + units < 2 ^ 64 }
    ensures { result ≡ all_free_of blocks.now unit units }
{
    for done in 0..units {
        if in_block(blocks, unit + done) {
            return false;
        }
    }
    true
}

/// Whether so many units from one on are there and in no block.
fn fits(blocks: &[(u32, u32)], all: u64, units: u64, unit: u64) -> bool
    requires few { all < 2 ^ 61 }
    requires within { unit < all }
    ensures { result ≡ (nat_le (unit + units) all && all_free_of blocks.now unit units) }
{
    if units > all - unit {
        return false;
    }
    all_free(blocks, unit, units)
}

/// The least unit from which so many units are there and in no block.
fn first_fit(region: &RegionNode, units: u64) -> Option<u64>
    ensures { result ≡ first_fit_of region.now.blocks (units_in_of region.now) units }
{
    let all = units_in(region);
    for unit in 0..all {
        if fits(region.blocks.as_slice(), all, units, unit) {
            return Some(unit);
        }
    }
    None
}

/// How many units the block has that starts at a unit.
fn block_size(blocks: &[(u32, u32)], unit: u64) -> Option<u64>
    ensures { result ≡ block_size_of blocks.now unit }
{
    for block in blocks {
        if block.0 as u64 == unit {
            return Some(block.1 as u64);
        }
    }
    None
}

/// The undo words that the record of a block's map words takes.
fn map_record(unit: u64, units: u64) -> Result<u64, AllocError>
    ensures is { IfOk result (λ n. n ≡ map_record_of unit units) }
    ensures few { IfOk result (λ n. n < 2 ^ 63) }
{
    let Some(end) = unit.checked_add(units) else {
        return Err(AllocError);
    };
    let last = end.saturating_sub(1) / 64;
    Ok(3 + 2 * (last.saturating_sub(unit / 64) + 1))
}

/// The transaction with more undo words used.
fn with_used(txn: &Txn, words: u64) -> Result<Txn, AllocError>
    requires { words < 2 ^ 63 }
    ensures { IfOk result (λ t. t ≡ with_used_of txn.now words) }
{
    let used = narrow(txn.used as u64 + words)?;
    let mut next = txn.clone()?;
    next.used = used;
    Ok(next)
}

/// Takes a gap of so many units as a block.
fn take(region: &RegionNode, txn: &Txn, at: u64, units: u64) -> Result<Outcome, AllocError>
    ensures { IfOk result (λ o. o ≡ take_fit_of region.now units txn.now (There at)) }
{
    let words = map_record(at, units)?;
    if lacks_undo(region, txn, words) {
        return Ok(Err(Refusal::UndoFull as u8));
    }
    let unit = narrow(at)?;
    let blocks = with_block(&region.blocks, at, units)?;
    recorded(region, blocks, txn, words, Reply::Number(64 * unit as u64))
}

/// Gives back a block of so many units.
fn give(region: &RegionNode, txn: &Txn, unit: u64, units: u64) -> Result<Outcome, AllocError>
    ensures { IfOk result (λ o. o ≡ give_back_of region.now unit txn.now (There units)) }
{
    let words = map_record(unit, units)?;
    if lacks_undo(region, txn, words) {
        return Ok(Err(Refusal::UndoFull as u8));
    }
    let blocks = without_block(region.blocks.clone()?, unit);
    recorded(region, blocks, txn, words, Reply::Ok)
}

/// What comes of a request that makes these a region's blocks, where their record takes so many undo words.
fn recorded(
    region: &RegionNode,
    blocks: HeapList,
    txn: &Txn,
    words: u64,
    reply: Reply,
) -> Result<Outcome, AllocError>
    requires { words < 2 ^ 63 }
    ensures { IfOk result (λ o. o ≡ Good (record { region = record region.now { blocks = blocks }; txn = There (with_used_of txn.now words); reply = reply })) }
{
    let region = with_blocks(region, blocks)?;
    let txn = with_used(txn, words)?;
    Ok(Ok(RegionAnswer {
        region,
        txn: Some(txn),
        reply,
    }))
}

/// The region with other blocks.
fn with_blocks(region: &RegionNode, blocks: HeapList) -> Result<RegionNode, AllocError>
    ensures { IfOk result (λ r. r ≡ record region.now { blocks = blocks }) }
{
    let words = region.words.clone()?;
    Ok(RegionNode {
        words,
        undo: region.undo,
        blocks,
    })
}

/// Blocks with one more, in its place by its first unit.
fn with_block(blocks: &HeapList, unit: u64, units: u64) -> Result<HeapList, AllocError>
    ensures { IfOk result (λ made. made ≡ with_block_of blocks.now unit units) }
{
    let block = (narrow(unit)?, narrow(units)?);
    let mut rows = blocks.clone()?.into_vec();
    let at = place_of(rows.as_slice(), block.0);
    rows.insert(at, block)?;
    Ok(HeapList::from(rows))
}

/// Where a block belongs among others that starts at a unit.
fn place_of(blocks: &[(u32, u32)], unit: u32) -> usize
    ensures within { result ≤ length blocks.now }
    ensures is { (units : ℕ) → with_block_of blocks.now unit units ≡ first_of result blocks.now ++ (unit, units) ∷ drop result blocks.now }
{
    for at in 0..blocks.len() {
        if unit < blocks[at].0 {
            return at;
        }
    }
    blocks.len()
}

/// Blocks without the one that starts at a unit.
fn without_block(blocks: HeapList, unit: u64) -> HeapList
    ensures { result ≡ without_block_of blocks unit }
{
    let mut rows = blocks.into_vec();
    for at in 0..rows.len() {
        if rows[at].0 as u64 == unit {
            rows.remove(at);
            return HeapList::from(rows);
        }
    }
    HeapList::from(rows)
}
