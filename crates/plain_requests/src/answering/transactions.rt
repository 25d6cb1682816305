//! Transactions begun and ended, and what each request on one asks of it first.

ghost use Rattle.std.specs.Prelude.{◌≡◌, ◌+◌, ◌*◌, ◌<◌, ◌^◌, ◌==◌, ◌%◌, ◌&&◌, nat_lt, length, IfOk, None as Absent, Ok as Good, Some as There};
ghost use Rattle.std.specs.Option.{option_copied};
ghost use Rattle.rio_requests.specs.RegionAnswers.{abort_on, begin_on, commit_on, undone as undone_of};
ghost use Rattle.rio_requests.specs.declared.reply.Reply.TheVariants.{Ok as Done};

use rio_base::{Ino, Items, RangeList};
use rio_model::{Refusal, RegionNode, Txn};
use rio_requests::{RegionAnswer, Reply};
use std::alloc::{AllocError, Global};

/// A region and its transaction after a request, or the number of its refusal.
pub type Outcome = Result<RegionAnswer, u8>;

/// A number that has 32 bits. One that has more finds no room.
pub fn narrow(n: u64) -> Result<u32, AllocError>
    ensures { IfOk result (λ m. m ≡ n) }
{
    match u32::try_from(n) {
        Ok(m) => Ok(m),
        Err(_) => Err(AllocError),
    }
}

/// Whether an offset or a length is not of whole words.
pub fn is_whole(off: u64, len: u64) -> bool
    ensures { result ≡ ((off % 8 == 0) && (len % 8 == 0)) }
{
    off % 8 == 0 && len % 8 == 0
}

/// Whether bytes end past a region's data.
pub fn is_past(region: &RegionNode, off: u64, len: u64) -> bool
    ensures { result ≡ nat_lt (8 * length region.now.words) (off + len) }
{
    let bytes = 8 * region.words.as_slice().len() as u64;
    match off.checked_add(len) {
        Some(end) => end > bytes,
        None => true,
    }
}

/// What comes of a request that leaves a region as it is.
pub fn kept(region: &RegionNode, txn: Option<Txn>, reply: Reply) -> Result<Outcome, AllocError>
    ensures { IfOk result (λ o. o ≡ Good (record { region = region.now; txn = txn; reply = reply })) }
{
    let region = region.clone()?;
    Ok(Ok(RegionAnswer { region, txn, reply }))
}

/// Whether the undo pages have fewer words left.
pub fn lacks_undo(region: &RegionNode, txn: &Txn, words: u64) -> bool
    requires { words < 2 ^ 63 }
    ensures { result ≡ nat_lt (512 * region.now.undo) (txn.now.used + words) }
{
    txn.used as u64 + words > 512 * region.undo as u64
}

/// Begins a transaction.
pub fn begin(
    alloc: Global,
    ino: Ino,
    region: &RegionNode,
    txn: Option<&Txn>,
) -> Result<Outcome, AllocError>
    ensures { IfOk result (λ o. o ≡ begin_on ino.0 region.now (option_copied txn.entry)) }
{
    match txn {
        Some(_) => Ok(Err(Refusal::Busy as u8)),
        None => {
            let begun = begun(alloc, ino, region)?;
            kept(region, Some(begun), Reply::Ok)
        }
    }
}

/// A transaction under which nothing has changed yet.
fn begun(alloc: Global, ino: Ino, region: &RegionNode) -> Result<Txn, AllocError>
    ensures { IfOk result (λ t. begin_on ino.0 region.now Absent ≡ Good (record { region = region.now; txn = There t; reply = Done })) }
{
    let RegionNode { words, blocks, .. } = region.clone()?;
    Ok(Txn {
        ino,
        before: words,
        before_blocks: blocks,
        ranges: RangeList::from(Vec::new(alloc)),
        used: 0,
        doomed: false,
    })
}

/// Ends a transaction and keeps its changes.
pub fn commit(region: &RegionNode, txn: Option<&Txn>) -> Result<Outcome, AllocError>
    ensures { IfOk result (λ o. o ≡ commit_on region.now (option_copied txn.entry)) }
{
    match txn {
        None => Ok(Err(Refusal::NoTransaction as u8)),
        Some(txn) => {
            if txn.doomed {
                return Ok(Err(Refusal::Doomed as u8));
            }
            kept(region, None, Reply::Ok)
        }
    }
}

/// Ends a transaction and undoes its changes.
pub fn abort(region: &RegionNode, txn: Option<&Txn>) -> Result<Outcome, AllocError>
    ensures { IfOk result (λ o. o ≡ abort_on region.now (option_copied txn.entry)) }
{
    match txn {
        None => Ok(Err(Refusal::NoTransaction as u8)),
        Some(txn) => {
            let region = undone(region, txn)?;
            Ok(Ok(RegionAnswer {
                region,
                txn: None,
                reply: Reply::Ok,
            }))
        }
    }
}

/// The region as it was when a transaction began.
fn undone(region: &RegionNode, txn: &Txn) -> Result<RegionNode, AllocError>
    ensures { IfOk result (λ r. r ≡ undone_of region.now txn.now) }
{
    let Txn {
        before,
        before_blocks,
        ..
    } = txn.clone()?;
    Ok(RegionNode {
        words: before,
        undo: region.undo,
        blocks: before_blocks,
    })
}
