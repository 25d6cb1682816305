//! The plain answer to each request: slow, and over the state alone.

ghost use Rattle.std.specs.Prelude.{◌≡◌, IfOk};
ghost use Rattle.rio_requests.specs.Answer.{answered as answered_of, refused_by as refused_by_of};
ghost use Rattle.rio_requests.specs.Answers.{answer_of};
ghost use Rattle.rio_model.specs.States.{with_node as with_node_of};
ghost use Rattle.rio_requests.specs.Transactions.{arm as arm_of, wild as wild_of};

mod contents;
mod data;
mod heap;
mod listing;
mod looking;
mod making;
mod paths;
mod regions;
mod removing;
mod renaming;
mod room;
mod transactions;

use rio_base::Ino;
use rio_model::{Node, NodeRow, Refusal, State};
use rio_requests::{Answered, Reply, Request};
use std::alloc::{AllocError, Global};

/// What a request comes to in a state, as it is defined.
pub fn answer(alloc: Global, s: &State, request: &Request) -> Result<Answered, AllocError>
    ensures { IfOk result (λ a. a ≡ answer_of s.now request.now) }
{
    match request {
        Request::Mkdir { path } => making::mkdir(alloc, s, path.as_slice()),
        Request::Create { path } => making::create(alloc, s, path.as_slice()),
        Request::Write { path, off, bytes } => {
            contents::write(alloc, s, path.as_slice(), *off, bytes.as_slice())
        }
        Request::Read { path, off, len } => contents::read(alloc, s, path.as_slice(), *off, *len),
        Request::Truncate { path, len } => contents::truncate(alloc, s, path.as_slice(), *len),
        Request::Unlink { path } => removing::unlink(alloc, s, path.as_slice()),
        Request::Rmdir { path } => removing::rmdir(alloc, s, path.as_slice()),
        Request::Rename { path, to } => {
            renaming::rename(alloc, s, path.as_slice(), to.as_slice())
        }
        Request::Stat { path } => looking::stat(alloc, s, path.as_slice()),
        Request::List { path } => looking::list(alloc, s, path.as_slice()),
        Request::Sync => unchanged(s, Reply::Ok),
        Request::Flush { .. } => unchanged(s, Reply::Ok),
        Request::Wild { at, .. } => wild(s, *at),
        Request::Arm { at, .. } => arm(s, *at),
        Request::Region {
            path,
            data_pages,
            undo_pages,
        } => { making::make_region(alloc, s, path.as_slice(), *data_pages, *undo_pages) }
        Request::Begin { path } => regions::begin(alloc, s, path.as_slice()),
        Request::Range { path, off, len } => regions::range(alloc, s, path.as_slice(), *off, *len),
        Request::Put { path, off, bytes } => {
            regions::put(alloc, s, path.as_slice(), *off, bytes.as_slice())
        }
        Request::Get { path, off, len } => regions::get(alloc, s, path.as_slice(), *off, *len),
        Request::Alloc { path, units } => regions::alloc_units(alloc, s, path.as_slice(), *units),
        Request::Free { path, at } => regions::free(alloc, s, path.as_slice(), *at),
        Request::Commit { path } => regions::commit(alloc, s, path.as_slice()),
        Request::Abort { path } => regions::abort(alloc, s, path.as_slice()),
        Request::Txns => regions::txns(alloc, s),
    }
}

/// A wild store now.
fn wild(s: &State, at: u64) -> Result<Answered, AllocError>
    ensures { IfOk result (λ a. a ≡ wild_of s.now at) }
{
    if at >= 512 * s.pages as u64 {
        return refused(s, Refusal::OutOfRange as u8);
    }
    let kept = s.pages.saturating_sub(s.scratch);
    if at < 512 * kept as u64 {
        let next = s.clone()?;
        return Ok(Answered { next, reply: None });
    }
    unchanged(s, Reply::Ok)
}

/// A wild store that comes later.
fn arm(s: &State, at: u64) -> Result<Answered, AllocError>
    ensures { IfOk result (λ a. a ≡ arm_of s.now at) }
{
    if at >= 512 * s.pages as u64 {
        return refused(s, Refusal::OutOfRange as u8);
    }
    unchanged(s, Reply::Ok)
}

/// An answer that changes nothing.
fn unchanged(s: &State, reply: Reply) -> Result<Answered, AllocError>
    ensures { IfOk result (λ a. a ≡ answered_of s.now reply) }
{
    let next = s.clone()?;
    Ok(Answered {
        next,
        reply: Some(reply),
    })
}

/// A refusal, which changes nothing.
fn refused(s: &State, number: u8) -> Result<Answered, AllocError>
    ensures { IfOk result (λ a. a ≡ refused_by_of s.now number) }
{
    unchanged(s, Reply::Err(number))
}

/// The state in which an inode has this node.
fn with_node(s: &State, ino: Ino, node: Node) -> Result<State, AllocError>
    ensures { IfOk result (λ next. next ≡ with_node_of s.now ino.0 node) }
{
    let mut next = s.clone()?;
    next.nodes.insert(NodeRow { ino, node })?;
    Ok(next)
}
