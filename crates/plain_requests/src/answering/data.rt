//! Words of a region's data that a transaction saves, puts and reads.

ghost use Rattle.std.specs.Prelude.{◌≡◌, ◌+◌, ◌*◌, ◌/◌, ◌≤◌, ◌<◌, ◌^◌, ◌++◌, ◌∷◌, [], drop, length, slice_index_or, IfOk, if◌then◌else◌, Ok as Good, Err as Bad};
ghost use Rattle.std.specs.Option.{option_copied};
ghost use Rattle.byteorder.specs.Endian.{little_number};
ghost use Rattle.rio_model.specs.FileParts.{put_at as put_at_of};
ghost use Rattle.rio_model.specs.Held.{byte_in, bytes_in};
ghost use Rattle.rio_requests.specs.RegionAnswers.{all_in_range as all_in_range_of, in_range as in_range_of, of_words, put_on, range_on, with_range as with_range_of, with_undo, with_words as with_words_of, within, words_of as words_of_of};
ghost use Rattle.rio_requests.specs.declared.reply.Reply.TheVariants.{Ok as Done, Number as NumberOf};
ghost use Rattle.plain_requests.specs.OnRegions.{Reads};

use super::transactions::{Outcome, is_past, is_whole, kept, lacks_undo, narrow};
use byteorder::{ByteOrder, LittleEndian};
use rio_base::{Octets, RangeList, Words};
use rio_model::{Refusal, RegionNode, Txn};
use rio_requests::{RegionAnswer, Reply};
use std::alloc::{AllocError, Global};

/// Lets a transaction change a range of bytes.
pub fn range(
    region: &RegionNode,
    txn: Option<&Txn>,
    off: u64,
    len: u64,
) -> Result<Outcome, AllocError>
    ensures { IfOk result (λ o. o ≡ range_on region.now (option_copied txn.entry) off len) }
{
    match txn {
        None => Ok(Err(Refusal::NoTransaction as u8)),
        Some(txn) => {
            if txn.doomed {
                return Ok(Err(Refusal::Doomed as u8));
            }
            range_in(region, txn, off, len)
        }
    }
}

/// Lets a transaction that is not doomed change a range of bytes.
fn range_in(region: &RegionNode, txn: &Txn, off: u64, len: u64) -> Result<Outcome, AllocError>
    ensures { IfOk result (λ o. o ≡ of_words off len (within region.now off len (with_undo region.now txn.now (3 + len / 8) (Good (record { region = region.now; txn = Some (with_range_of txn.now off len); reply = Done }))))) }
{
    if !is_whole(off, len) {
        return Ok(Err(Refusal::NotAligned as u8));
    }
    if is_past(region, off, len) {
        return Ok(Err(Refusal::OutOfRange as u8));
    }
    if lacks_undo(region, txn, 3 + len / 8) {
        return Ok(Err(Refusal::UndoFull as u8));
    }
    let txn = with_range(txn, off, len)?;
    kept(region, Some(txn), Reply::Ok)
}

/// The transaction with one range more.
fn with_range(txn: &Txn, off: u64, len: u64) -> Result<Txn, AllocError>
    ensures { IfOk result (λ t. t ≡ with_range_of txn.now off len) }
{
    let first = narrow(off / 8)?;
    let count = narrow(len / 8)?;
    let used = narrow(txn.used as u64 + 3 + len / 8)?;
    let ranges = one_more(&txn.ranges, (first, count))?;
    let mut next = txn.clone()?;
    next.ranges = ranges;
    next.used = used;
    Ok(next)
}

/// The ranges with one more, which goes last.
fn one_more(ranges: &RangeList, range: (u32, u32)) -> Result<RangeList, AllocError>
    ensures { IfOk result (λ made. made ≡ ranges.now ++ range ∷ []) }
{
    let mut rows = ranges.clone()?.into_vec();
    rows.push(range)?;
    Ok(RangeList::from(rows))
}

/// Whether a word is in some range.
fn in_range(ranges: &[(u32, u32)], word: u64) -> bool
    ensures { result ≡ in_range_of ranges.now word }
{
    for range in ranges {
        let first = range.0 as u64;
        if first <= word && word < first + range.1 as u64 {
            return true;
        }
    }
    false
}

/// Whether each of so many words is in some range.
fn all_in_range(ranges: &[(u32, u32)], word: u64, count: u64) -> bool
    requires { word + count < 2 ^ 64 }
    ensures { result ≡ all_in_range_of ranges.now word count }
{
    for done in 0..count {
        if !in_range(ranges, word + done) {
            return false;
        }
    }
    true
}

/// Puts bytes into ranges of a transaction.
pub fn put(
    alloc: Global,
    region: &RegionNode,
    txn: Option<&Txn>,
    off: u64,
    bytes: &[u8],
) -> Result<Outcome, AllocError>
    ensures { IfOk result (λ o. o ≡ put_on region.now (option_copied txn.entry) off bytes.now) }
{
    match txn {
        None => Ok(Err(Refusal::NoTransaction as u8)),
        Some(txn) => {
            if txn.doomed {
                return Ok(Err(Refusal::Doomed as u8));
            }
            put_in(alloc, region, txn, off, bytes)
        }
    }
}

/// Puts bytes into ranges of a transaction that is not doomed.
fn put_in(
    alloc: Global,
    region: &RegionNode,
    txn: &Txn,
    off: u64,
    bytes: &[u8],
) -> Result<Outcome, AllocError>
    ensures { IfOk result (λ o. o ≡ of_words off (length bytes.now) (within region.now off (length bytes.now) (if all_in_range_of txn.now.ranges (off / 8) (length bytes.now / 8) then Good (record { region = with_words_of region.now off bytes.now; txn = Some txn.now; reply = NumberOf (length bytes.now) }) else Bad 15))) }
{
    let len = bytes.len() as u64;
    if !is_whole(off, len) {
        return Ok(Err(Refusal::NotAligned as u8));
    }
    if is_past(region, off, len) {
        return Ok(Err(Refusal::OutOfRange as u8));
    }
    if !all_in_range(txn.ranges.as_slice(), off / 8, len / 8) {
        return Ok(Err(Refusal::NotCovered as u8));
    }
    put_words(alloc, region, txn, off, bytes)
}

/// Puts bytes over whole words of the data.
fn put_words(
    alloc: Global,
    region: &RegionNode,
    txn: &Txn,
    off: u64,
    bytes: &[u8],
) -> Result<Outcome, AllocError>
    requires { off + length bytes.now ≤ 8 * length region.now.words }
    ensures { IfOk result (λ o. o ≡ Good (record { region = with_words_of region.now off bytes.now; txn = Some txn.now; reply = NumberOf (length bytes.now) })) }
{
    let region = with_words(alloc, region, off, bytes)?;
    let txn = txn.clone()?;
    Ok(Ok(RegionAnswer {
        region,
        txn: Some(txn),
        reply: Reply::Number(bytes.len() as u64),
    }))
}

/// The words that bytes are.
fn words_of(alloc: Global, bytes: &[u8]) -> Result<Vec<u64>, AllocError>
    ensures { IfOk result (λ words. words.items ≡ words_of_of bytes.now) }
{
    let mut words = Vec::new(alloc);
    for word in 0..bytes.len() / 8 {
        words.push(word_at(bytes, word))?;
    }
    Ok(words)
}

/// A word of bytes.
fn word_at(bytes: &[u8], word: usize) -> u64
    requires { 8 * word + 8 ≤ length bytes.now }
    ensures { result ≡ little_number 8 (drop (8 * word) bytes.now) }
{
    LittleEndian::read_u64(&bytes[8 * word..])
}

/// The region with the words of these bytes from a byte offset on.
fn with_words(
    alloc: Global,
    region: &RegionNode,
    off: u64,
    bytes: &[u8],
) -> Result<RegionNode, AllocError>
    requires { off + length bytes.now ≤ 8 * length region.now.words }
    ensures { IfOk result (λ r. r ≡ with_words_of region.now off bytes.now) }
{
    let new = words_of(alloc, bytes)?;
    let at = (off / 8) as usize;
    let words = put_at(alloc, region.words.as_slice(), at, new.as_slice())?;
    with_data(region, Words::from(words))
}

/// The region with other words.
fn with_data(region: &RegionNode, words: Words) -> Result<RegionNode, AllocError>
    ensures { IfOk result (λ r. r ≡ record region.now { words = words }) }
{
    let blocks = region.blocks.clone()?;
    Ok(RegionNode {
        words,
        undo: region.undo,
        blocks,
    })
}

/// Words with others over them from a place on.
fn put_at(alloc: Global, old: &[u64], at: usize, new: &[u64]) -> Result<Vec<u64>, AllocError>
    requires { at + length new.now ≤ length old.now }
    ensures { IfOk result (λ made. made.items ≡ put_at_of old.now at new.now) }
{
    let mut made = old[..at].to_vec(alloc)?;
    made.extend_from_slice(new)?;
    made.extend_from_slice(&old[at + new.len()..])?;
    Ok(made)
}

/// Reads bytes of a region as they are.
pub fn get(
    alloc: Global,
    region: &RegionNode,
    txn: Option<&Txn>,
    off: u64,
    len: u64,
) -> Result<Result<Octets, u8>, AllocError>
    ensures { IfOk result (Reads region.now (option_copied txn.entry) off len) }
{
    let doomed = match txn {
        Some(txn) => txn.doomed,
        None => false,
    };
    if doomed {
        return Ok(Err(Refusal::Doomed as u8));
    }
    if is_past(region, off, len) {
        return Ok(Err(Refusal::OutOfRange as u8));
    }
    let bytes = bytes_from(alloc, region.words.as_slice(), off as usize, len as usize)?;
    Ok(Ok(bytes))
}

/// So many bytes of words, from a byte on.
fn bytes_from(alloc: Global, words: &[u64], off: usize, len: usize) -> Result<Octets, AllocError>
    requires { off + len ≤ 8 * length words.now }
    ensures { IfOk result (λ bytes. bytes ≡ bytes_in (λ w. slice_index_or words.now w 0) off len) }
{
    let mut bytes = Vec::new(alloc);
    for done in 0..len {
        bytes.push(byte_at(words, off + done))?;
    }
    Ok(Octets::from(bytes))
}

/// A byte of words.
#[tactic(auto, unfolding(rio_model::specs::Held::byte_of))]
fn byte_at(words: &[u64], at: usize) -> u8
    requires { at < 8 * length words.now }
    ensures { result ≡ byte_in (λ w. slice_index_or words.now w 0) at }
{
    words[at / 8].to_le_bytes()[at % 8]
}
