//! Requests on the region at a path, with the transaction that is open on it.

ghost use Rattle.std.specs.Prelude.{◌≡◌, ◌+◌, ◌<◌, ◌++◌, length, map, take, drop, IfOk, Ok as Good};
ghost use Rattle.std.specs.Option.{option_copied};
ghost use Rattle.rio_requests.specs.RegionAnswers.{abort_on, alloc_on, begin_on, commit_on, free_on, get_on, put_on, range_on};
ghost use Rattle.rio_requests.specs.Transactions.{at_region as at_region_of, changed as changed_of, looked as looked_of, set_txn as set_txn_of, txn_at as txn_at_of, txn_before, txns as txns_of, with_region as with_region_of};
ghost use Rattle.rio_model.specs.declared.txn.Txn.{Txn as ModelTxn};
ghost use Rattle.plain_requests.specs.OnRegions.{FindsRegion, IsRegionAt};

use super::paths::{names_of, walk};
use super::transactions::Outcome;
use super::{data, heap, refused, transactions, unchanged, with_node};
use rio_base::{Ino, InoList};
use rio_model::{Node, Refusal, RegionNode, State, Txn, TxnList};
use rio_requests::{Answered, RegionAnswer, Reply};
use std::alloc::{AllocError, Global};

/// A region, and the transaction that is open on it.
#[derive(Clone, Copy)]
pub struct OnRegion<'s> {
    pub ino: Ino,
    pub region: &'s RegionNode,
    pub txn: Option<&'s Txn>,
}

/// Begins a transaction on a region.
pub fn begin(alloc: Global, s: &State, path: &[u8]) -> Result<Answered, AllocError>
    ensures { IfOk result (λ a. a ≡ at_region_of s.now path.now (λ i r o. changed_of s.now i (begin_on i r o))) }
{
    match region_at(s, path, alloc)? {
        Ok(at) => {
            let outcome = transactions::begin(alloc, at.ino, at.region, at.txn)?;
            changed(s, at.ino, outcome)
        }
        Err(number) => refused(s, number),
    }
}

/// Lets the transaction on a region change a range of bytes.
pub fn range(
    alloc: Global,
    s: &State,
    path: &[u8],
    off: u64,
    len: u64,
) -> Result<Answered, AllocError>
    ensures { IfOk result (λ a. a ≡ at_region_of s.now path.now (λ i r o. changed_of s.now i (range_on r o off len))) }
{
    match region_at(s, path, alloc)? {
        Ok(at) => {
            let outcome = data::range(at.region, at.txn, off, len)?;
            changed(s, at.ino, outcome)
        }
        Err(number) => refused(s, number),
    }
}

/// Puts bytes into ranges of the transaction on a region.
pub fn put(
    alloc: Global,
    s: &State,
    path: &[u8],
    off: u64,
    bytes: &[u8],
) -> Result<Answered, AllocError>
    ensures { IfOk result (λ a. a ≡ at_region_of s.now path.now (λ i r o. changed_of s.now i (put_on r o off bytes.now))) }
{
    match region_at(s, path, alloc)? {
        Ok(at) => {
            let outcome = data::put(alloc, at.region, at.txn, off, bytes)?;
            changed(s, at.ino, outcome)
        }
        Err(number) => refused(s, number),
    }
}

/// Reads bytes of a region.
pub fn get(
    alloc: Global,
    s: &State,
    path: &[u8],
    off: u64,
    len: u64,
) -> Result<Answered, AllocError>
    ensures { IfOk result (λ a. a ≡ at_region_of s.now path.now (λ i r o. looked_of s.now (get_on r o off len))) }
{
    match region_at(s, path, alloc)? {
        Ok(at) => read_in(alloc, s, at.region, at.txn, off, len),
        Err(number) => refused(s, number),
    }
}

/// Reads bytes of this region.
fn read_in(
    alloc: Global,
    s: &State,
    region: &RegionNode,
    txn: Option<&Txn>,
    off: u64,
    len: u64,
) -> Result<Answered, AllocError>
    ensures { IfOk result (λ a. a ≡ looked_of s.now (get_on region.now (option_copied txn.entry) off len)) }
{
    match data::get(alloc, region, txn, off, len)? {
        Ok(bytes) => unchanged(s, Reply::Bytes(bytes)),
        Err(number) => refused(s, number),
    }
}

/// Takes a block of a region's heap.
pub fn alloc_units(
    alloc: Global,
    s: &State,
    path: &[u8],
    units: u64,
) -> Result<Answered, AllocError>
    ensures { IfOk result (λ a. a ≡ at_region_of s.now path.now (λ i r o. changed_of s.now i (alloc_on r o units))) }
{
    match region_at(s, path, alloc)? {
        Ok(at) => {
            let outcome = heap::alloc(at.region, at.txn, units)?;
            changed(s, at.ino, outcome)
        }
        Err(number) => refused(s, number),
    }
}

/// Gives back a block of a region's heap.
pub fn free(alloc: Global, s: &State, path: &[u8], place: u64) -> Result<Answered, AllocError>
    ensures { IfOk result (λ a. a ≡ at_region_of s.now path.now (λ i r o. changed_of s.now i (free_on r o place))) }
{
    match region_at(s, path, alloc)? {
        Ok(at) => {
            let outcome = heap::free(at.region, at.txn, place)?;
            changed(s, at.ino, outcome)
        }
        Err(number) => refused(s, number),
    }
}

/// Ends the transaction on a region and keeps its changes.
pub fn commit(alloc: Global, s: &State, path: &[u8]) -> Result<Answered, AllocError>
    ensures { IfOk result (λ a. a ≡ at_region_of s.now path.now (λ i r o. changed_of s.now i (commit_on r o))) }
{
    match region_at(s, path, alloc)? {
        Ok(at) => {
            let outcome = transactions::commit(at.region, at.txn)?;
            changed(s, at.ino, outcome)
        }
        Err(number) => refused(s, number),
    }
}

/// Ends the transaction on a region and undoes its changes.
pub fn abort(alloc: Global, s: &State, path: &[u8]) -> Result<Answered, AllocError>
    ensures { IfOk result (λ a. a ≡ at_region_of s.now path.now (λ i r o. changed_of s.now i (abort_on r o))) }
{
    match region_at(s, path, alloc)? {
        Ok(at) => {
            let outcome = transactions::abort(at.region, at.txn)?;
            changed(s, at.ino, outcome)
        }
        Err(number) => refused(s, number),
    }
}

/// The open transactions.
pub fn txns(alloc: Global, s: &State) -> Result<Answered, AllocError>
    ensures { IfOk result (λ a. a ≡ txns_of s.now) }
{
    let inos = inos_of(alloc, s.txns.as_slice())?;
    unchanged(s, Reply::Inos(inos))
}

/// The regions of transactions.
fn inos_of(alloc: Global, txns: &[Txn]) -> Result<InoList, AllocError>
    ensures { IfOk result (λ inos. inos ≡ map (λ (t : ModelTxn). t.ino) txns.now) }
{
    let mut inos = Vec::new(alloc);
    for txn in txns {
        inos.push(txn.ino)?;
    }
    Ok(InoList::from(inos))
}

/// The region at a path, or a refusal.
fn region_at<'s>(
    s: &'s State,
    path: &[u8],
    alloc: Global,
) -> Result<Result<OnRegion<'s>, u8>, AllocError>
    ensures { IfOk result (FindsRegion s.now path.now) }
{
    let names = names_of(alloc, path)?;
    match walk(s, names.as_slice()) {
        Ok(ino) => Ok(as_region(s, ino)),
        Err(number) => Ok(Err(number)),
    }
}

/// The region of an inode, or a refusal.
fn as_region(s: &State, ino: Ino) -> Result<OnRegion<'_>, u8>
    ensures { IsRegionAt s.now ino.0 result }
{
    match s.nodes.get(ino) {
        Some(Node::Region(region)) => {
            let txn = txn_at(s.txns.as_slice(), ino);
            Ok(OnRegion { ino, region, txn })
        }
        Some(Node::Dir) => Err(Refusal::NotARegion as u8),
        Some(Node::File(_)) => Err(Refusal::NotARegion as u8),
        None => Err(Refusal::NotFound as u8),
    }
}

/// The transaction that is open on a region, where one is.
fn txn_at(txns: &[Txn], ino: Ino) -> Option<&Txn>
    ensures { option_copied result ≡ txn_at_of txns.now ino.0 }
{
    for txn in txns {
        if txn.ino.0 == ino.0 {
            return Some(txn);
        }
    }
    None
}

/// The transactions, where that of a region becomes another, or ends.
fn set_txn(txns: TxnList, ino: Ino, txn: Option<Txn>) -> Result<TxnList, AllocError>
    ensures { IfOk result (λ made. made ≡ set_txn_of txns ino.0 txn) }
{
    let mut rows = txns.into_vec();
    for at in 0..rows.len() {
        if rows[at].ino.0 == ino.0 {
            put_txn(&mut rows, at, txn);
            return Ok(TxnList::from(rows));
        }
    }
    if let Some(txn) = txn {
        rows.push(txn)?;
    }
    Ok(TxnList::from(rows))
}

/// Puts a transaction in place of that of a row, or takes the row away.
fn put_txn(rows: &mut Vec<Txn>, at: usize, txn: Option<Txn>)
    requires { at < length rows.old.items }
    ensures { rows.new.items ≡ take at rows.old.items ++ txn_before txn (drop (at + 1) rows.old.items) }
{
    match txn {
        Some(txn) => rows[at] = txn,
        None => {
            rows.remove(at);
        }
    }
}

/// What came of a request that changes a region or its transaction.
fn changed(s: &State, ino: Ino, outcome: Outcome) -> Result<Answered, AllocError>
    ensures { IfOk result (λ a. a ≡ changed_of s.now ino.0 outcome) }
{
    match outcome {
        Err(number) => refused(s, number),
        Ok(answer) => with_answer(s, ino, answer),
    }
}

/// What a request came to that left a region and its transaction so.
fn with_answer(s: &State, ino: Ino, answer: RegionAnswer) -> Result<Answered, AllocError>
    ensures { IfOk result (λ a. a ≡ changed_of s.now ino.0 (Good answer)) }
{
    let RegionAnswer { region, txn, reply } = answer;
    let next = with_region(s, ino, region, txn)?;
    Ok(Answered {
        next,
        reply: Some(reply),
    })
}

/// The state in which an inode is this region, with this transaction on it, or none.
fn with_region(
    s: &State,
    ino: Ino,
    region: RegionNode,
    txn: Option<Txn>,
) -> Result<State, AllocError>
    ensures { IfOk result (λ next. next ≡ with_region_of s.now ino.0 region txn) }
{
    let txns = with_txn(s, ino, txn)?;
    let mut next = with_node(s, ino, Node::Region(region))?;
    next.txns = txns;
    Ok(next)
}

/// The open transactions, where that of a region becomes another, or ends.
fn with_txn(s: &State, ino: Ino, txn: Option<Txn>) -> Result<TxnList, AllocError>
    ensures { IfOk result (λ txns. txns ≡ set_txn_of s.now.txns ino.0 txn) }
{
    let txns = s.txns.clone()?;
    set_txn(txns, ino, txn)
}
