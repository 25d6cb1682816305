//! What stands at a path.

ghost use Rattle.std.specs.Prelude.{◌≡◌, ◌*◌, length, IfOk};
ghost use Rattle.std.specs.FinMap.{get};
ghost use Rattle.rio_model.specs.States.{names_in as names_in_of};
ghost use Rattle.rio_requests.specs.Answers.{list as list_of, stat as stat_of, stat_node as stat_node_of};

use super::listing::{count_names, list_of_names, names_in};
use super::paths::{names_of, walk, walk_to_dir};
use super::room::data_pages;
use super::{refused, unchanged};
use rio_base::{DIRECTORY, FILE, Ino, REGION};
use rio_model::{Node, Refusal, State};
use rio_requests::{Answered, Reply};
use std::alloc::{AllocError, Global};

/// Inode, kind and size of what stands at a path.
pub fn stat(alloc: Global, s: &State, path: &[u8]) -> Result<Answered, AllocError>
    ensures { IfOk result (λ a. a ≡ stat_of s.now path.now) }
{
    let names = names_of(alloc, path)?;
    match walk(s, names.as_slice()) {
        Ok(ino) => stat_node(alloc, s, ino),
        Err(number) => refused(s, number),
    }
}

/// Number, kind and size of an inode.
fn stat_node(alloc: Global, s: &State, ino: Ino) -> Result<Answered, AllocError>
    ensures { IfOk result (λ a. a ≡ stat_node_of s.now ino.0 (get s.now.nodes ino.0)) }
{
    match s.nodes.get(ino) {
        Some(Node::Dir) => {
            let size = rows_size(alloc, s, ino)?;
            unchanged(
                s,
                Reply::Stat {
                    ino,
                    kind: DIRECTORY,
                    size,
                },
            )
        }
        Some(Node::File(bytes)) => {
            let size = bytes.as_slice().len() as u64;
            unchanged(
                s,
                Reply::Stat {
                    ino,
                    kind: FILE,
                    size,
                },
            )
        }
        Some(Node::Region(region)) => {
            let size = bytes_of(4096, data_pages(region) as u64)?;
            unchanged(
                s,
                Reply::Stat {
                    ino,
                    kind: REGION,
                    size,
                },
            )
        }
        None => refused(s, Refusal::NotFound as u8),
    }
}

/// The size of a directory, in bytes.
fn rows_size(alloc: Global, s: &State, dir: Ino) -> Result<u64, AllocError>
    ensures { IfOk result (λ size. size ≡ 64 * length (names_in_of s.now dir.0)) }
{
    let count = count_names(alloc, s, dir)?;
    bytes_of(64, count)
}

/// The bytes of so many parts of one size. No memory holds so many parts that no number says it.
fn bytes_of(each: u64, count: u64) -> Result<u64, AllocError>
    ensures { IfOk result (λ size. size ≡ each * count) }
{
    match each.checked_mul(count) {
        Some(size) => Ok(size),
        None => Err(AllocError),
    }
}

/// Lists a directory.
pub fn list(alloc: Global, s: &State, path: &[u8]) -> Result<Answered, AllocError>
    ensures { IfOk result (λ a. a ≡ list_of s.now path.now) }
{
    let names = names_of(alloc, path)?;
    match walk_to_dir(s, names.as_slice()) {
        Ok(dir) => {
            let names = names_in(alloc, s, dir)?;
            let list = list_of_names(alloc, &names)?;
            unchanged(s, Reply::Names(list))
        }
        Err(number) => refused(s, number),
    }
}
