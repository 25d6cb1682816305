//! Removing files, regions and empty directories.

ghost use Rattle.std.specs.Prelude.{◌≡◌, IfOk, map};
ghost use Rattle.std.specs.FinMap.{get};
ghost use Rattle.rio_requests.specs.Answer.{answered as answered_of, at_inode};
ghost use Rattle.rio_model.specs.States.{names_in as names_in_of, open_inodes};
ghost use Rattle.rio_requests.specs.Answers.{found as found_of, is_among as is_among_of, is_empty as is_empty_of, is_open as is_open_of, rmdir as rmdir_of, rmdir_node as rmdir_node_of, unlink as unlink_of, unlink_node as unlink_node_of, without as without_of};
ghost use Rattle.rio_requests.specs.declared.reply.Reply.TheVariants.{Ok as Done};
ghost use Rattle.rio_model.specs.declared.txn.Txn.{Txn as TxnOf};

use super::listing::count_names;
use super::paths::{directory_of, found, is_dir, last_of, names_of};
use super::refused;
use rio_base::{Ino, Octets};
use rio_model::{Node, Refusal, State, Txn};
use rio_requests::{Answered, Reply};
use std::alloc::{AllocError, Global};

/// Removes a file or a region.
pub fn unlink(alloc: Global, s: &State, path: &[u8]) -> Result<Answered, AllocError>
    ensures { IfOk result (λ a. a ≡ unlink_of s.now path.now (open_inodes s.now)) }
{
    let names = names_of(alloc, path)?;
    if names.is_empty() {
        return refused(s, Refusal::IsRoot as u8);
    }
    match directory_of(s, names.as_slice()) {
        Ok(dir) => unlink_row(s, dir, last_of(names.as_slice())),
        Err(number) => refused(s, number),
    }
}

/// Removes the file or region that a directory's name names.
fn unlink_row(s: &State, dir: Ino, name: &Octets) -> Result<Answered, AllocError>
    ensures { IfOk result (λ a. a ≡ at_inode s.now (found_of s.now dir.0 name.now) (unlink_node_of s.now (open_inodes s.now) dir.0 name.now)) }
{
    match found(s, dir, name) {
        Ok(ino) => unlink_node(s, dir, name, ino),
        Err(number) => refused(s, number),
    }
}

/// Removes a file or a region, and the name of it.
fn unlink_node(s: &State, dir: Ino, name: &Octets, ino: Ino) -> Result<Answered, AllocError>
    ensures { IfOk result (λ a. a ≡ unlink_node_of s.now (open_inodes s.now) dir.0 name.now ino.0) }
{
    if is_dir(s, ino) {
        return refused(s, Refusal::IsADirectory as u8);
    }
    if is_open(s, ino) {
        return refused(s, Refusal::Busy as u8);
    }
    without(s, dir, name, ino)
}

/// Whether an inode is an open region.
pub fn is_open(s: &State, ino: Ino) -> bool
    ensures { result ≡ is_open_of (open_inodes s.now) ino.0 (get s.now.nodes ino.0) }
{
    match s.nodes.get(ino) {
        Some(Node::Region(_)) => is_among(s.txns.as_slice(), ino),
        Some(Node::Dir) => false,
        Some(Node::File(_)) => false,
        None => false,
    }
}

/// Whether one of these transactions is on this inode.
fn is_among(txns: &[Txn], ino: Ino) -> bool
    ensures { result ≡ is_among_of (map (λ (t : TxnOf). t.ino.0) txns.now) ino.0 }
{
    for txn in txns {
        if txn.ino.0 == ino.0 {
            return true;
        }
    }
    false
}

/// The state without a node and the name of it.
fn without(s: &State, dir: Ino, name: &Octets, ino: Ino) -> Result<Answered, AllocError>
    ensures { IfOk result (λ a. a ≡ answered_of (without_of s.now dir.0 name.now ino.0) Done) }
{
    let mut next = s.clone()?;
    next.names.remove(dir, name.as_slice());
    next.nodes.remove(ino);
    Ok(Answered {
        next,
        reply: Some(Reply::Ok),
    })
}

/// Removes an empty directory.
pub fn rmdir(alloc: Global, s: &State, path: &[u8]) -> Result<Answered, AllocError>
    ensures { IfOk result (λ a. a ≡ rmdir_of s.now path.now) }
{
    let names = names_of(alloc, path)?;
    if names.is_empty() {
        return refused(s, Refusal::IsRoot as u8);
    }
    match directory_of(s, names.as_slice()) {
        Ok(dir) => rmdir_row(alloc, s, dir, last_of(names.as_slice())),
        Err(number) => refused(s, number),
    }
}

/// Removes the empty directory that a directory's name names.
fn rmdir_row(alloc: Global, s: &State, dir: Ino, name: &Octets) -> Result<Answered, AllocError>
    ensures { IfOk result (λ a. a ≡ at_inode s.now (found_of s.now dir.0 name.now) (rmdir_node_of s.now dir.0 name.now)) }
{
    match found(s, dir, name) {
        Ok(ino) => rmdir_node(alloc, s, dir, name, ino),
        Err(number) => refused(s, number),
    }
}

/// Removes an empty directory, and the name of it.
fn rmdir_node(
    alloc: Global,
    s: &State,
    dir: Ino,
    name: &Octets,
    ino: Ino,
) -> Result<Answered, AllocError>
    ensures { IfOk result (λ a. a ≡ rmdir_node_of s.now dir.0 name.now ino.0) }
{
    if !is_dir(s, ino) {
        return refused(s, Refusal::NotADirectory as u8);
    }
    let empty = is_empty(alloc, s, ino)?;
    if !empty {
        return refused(s, Refusal::NotEmpty as u8);
    }
    without(s, dir, name, ino)
}

/// Whether a directory has no names.
fn is_empty(alloc: Global, s: &State, dir: Ino) -> Result<bool, AllocError>
    ensures { IfOk result (λ empty. empty ≡ is_empty_of (names_in_of s.now dir.0)) }
{
    let count = count_names(alloc, s, dir)?;
    Ok(count == 0)
}
