//! Making directories and files.

ghost use Rattle.std.specs.Prelude.{◌≡◌, ◌*◌, nat_lt, IfOk, MatchOption, OnOk, Some as There, None as Absent};
ghost use Rattle.std.specs.FinMap.{get, insert};
ghost use Rattle.rio_requests.specs.Answer.{answered as answered_of};
ghost use Rattle.rio_model.specs.States.{least_free as least_free_of, with_new as with_new_of};
ghost use Rattle.rio_requests.specs.Answers.{create as create_of, make as make_of, make_new as make_new_of, make_region as make_region_of, make_row as make_row_of, mkdir as mkdir_of, region_row as region_row_of};
ghost use Rattle.rio_model.specs.Sizes.{largest_size};
ghost use Rattle.rio_model.specs.Undo.{region_words};
ghost use Rattle.rio_requests.specs.declared.reply.Reply.TheVariants.{Number as NumberOf};

use super::paths::{directory_of, last_of, names_of};
use super::room::{lacks_room, new_blocks, row_wanted};
use super::{refused, with_node};
use rio_base::{HeapList, Ino, Octets, Words};
use rio_model::{NameRow, NameRows, Node, Refusal, RegionNode, State};
use rio_requests::{Answered, Reply};
use std::alloc::{AllocError, Global};

/// The pages of the largest node: 24, and the 1,024 that an indirect block numbers.
const MOST_PAGES: u64 = 1_048;

/// Makes a directory.
pub fn mkdir(alloc: Global, s: &State, path: &[u8]) -> Result<Answered, AllocError>
    ensures { IfOk result (λ a. a ≡ mkdir_of s.now path.now) }
{
    let names = names_of(alloc, path)?;
    make(alloc, s, names.as_slice(), &Node::Dir)
}

/// Makes an empty file.
pub fn create(alloc: Global, s: &State, path: &[u8]) -> Result<Answered, AllocError>
    ensures { IfOk result (λ a. a ≡ create_of s.now path.now) }
{
    let names = names_of(alloc, path)?;
    let node = Node::File(Octets::from(Vec::new(alloc)));
    make(alloc, s, names.as_slice(), &node)
}

/// Makes a region of so many data pages and undo pages.
pub fn make_region(
    alloc: Global,
    s: &State,
    path: &[u8],
    pages: u64,
    undo: u64,
) -> Result<Answered, AllocError>
    ensures { IfOk result (λ a. a ≡ make_region_of s.now path.now pages undo) }
{
    let names = names_of(alloc, path)?;
    if names.is_empty() {
        return refused(s, Refusal::Exists as u8);
    }
    match directory_of(s, names.as_slice()) {
        Ok(dir) => region_row(alloc, s, dir, last_of(names.as_slice()), pages, undo),
        Err(number) => refused(s, number),
    }
}

/// Makes a region under a name in a directory.
fn region_row(
    alloc: Global,
    s: &State,
    dir: Ino,
    name: &Octets,
    pages: u64,
    undo: u64,
) -> Result<Answered, AllocError>
    ensures { IfOk result (λ a. a ≡ region_row_of s.now dir.0 name.now pages undo (get s.now.names (dir.0, name.now))) }
{
    if s.names.get(dir, name.as_slice()).is_some() {
        return refused(s, Refusal::Exists as u8);
    }
    new_region(alloc, s, dir, name, pages, undo)
}

/// Makes a region, where no node is too large that has so many pages.
fn new_region(
    alloc: Global,
    s: &State,
    dir: Ino,
    name: &Octets,
    pages: u64,
    undo: u64,
) -> Result<Answered, AllocError>
    ensures { IfOk result (λ a. a ≡ region_row_of s.now dir.0 name.now pages undo Absent) }
{
    if has_too_many(pages, undo) {
        return refused(s, Refusal::TooLarge as u8);
    }
    let words = vec![in alloc; 0u64; 512 * pages as usize]?;
    let region = RegionNode {
        words: Words::from(words),
        undo: undo as u32,
        blocks: HeapList::from(Vec::new(alloc)),
    };
    make_free(alloc, s, dir, name, &Node::Region(region))
}

/// Whether no node can have the pages of a region of so many data pages and undo pages.
fn has_too_many(pages: u64, undo: u64) -> bool
    ensures { result ≡ nat_lt largest_size (8 * region_words undo pages) }
{
    if pages > MOST_PAGES || undo > MOST_PAGES {
        return true;
    }
    1 + undo + pages.div_ceil(256) + pages > MOST_PAGES
}

/// Makes a node under the last of these names.
fn make(alloc: Global, s: &State, names: &[Octets], node: &Node) -> Result<Answered, AllocError>
    ensures { IfOk result (λ a. a ≡ make_of s.now names.now node.now) }
{
    if names.is_empty() {
        return refused(s, Refusal::Exists as u8);
    }
    match directory_of(s, names) {
        Ok(dir) => make_row(alloc, s, dir, last_of(names), node),
        Err(number) => refused(s, number),
    }
}

/// Makes a node under a name in a directory.
fn make_row(
    alloc: Global,
    s: &State,
    dir: Ino,
    name: &Octets,
    node: &Node,
) -> Result<Answered, AllocError>
    ensures { IfOk result (λ a. a ≡ make_row_of s.now dir.0 name.now node.now (get s.now.names (dir.0, name.now))) }
{
    match s.names.get(dir, name.as_slice()) {
        Some(_) => refused(s, Refusal::Exists as u8),
        None => make_free(alloc, s, dir, name, node),
    }
}

/// Makes a node of the least inode that is free.
fn make_free(
    alloc: Global,
    s: &State,
    dir: Ino,
    name: &Octets,
    node: &Node,
) -> Result<Answered, AllocError>
    ensures { IfOk result (λ a. a ≡ make_new_of s.now dir.0 name.now node.now (least_free_of s.now)) }
{
    match least_free(s) {
        Some(ino) => make_new(alloc, s, dir, name, node, ino),
        None => refused(s, Refusal::NoInode as u8),
    }
}

/// The least inode that no node has.
fn least_free(s: &State) -> Option<Ino>
    ensures { MatchOption result (least_free_of s.now ≡ Absent) (λ i. least_free_of s.now ≡ There i.0) }
{
    for below in 0..s.shape.inodes {
        let ino = Ino(below + 1);
        let Some(_) = s.nodes.get(ino) else {
            return Some(ino);
        };
    }
    None
}

/// Makes a node of this inode, where there is room.
fn make_new(
    alloc: Global,
    s: &State,
    dir: Ino,
    name: &Octets,
    node: &Node,
    ino: Ino,
) -> Result<Answered, AllocError>
    ensures { IfOk result (λ a. a ≡ make_new_of s.now dir.0 name.now node.now (There ino.0)) }
{
    let row = row_wanted(alloc, s, dir)?;
    let wants = new_blocks(node) + row;
    let lacks = lacks_room(alloc, s, wants)?;
    if lacks {
        return refused(s, Refusal::NoSpace as u8);
    }
    with_new(s, dir, name, ino, node)
}

/// The state with one more node.
fn with_new(
    s: &State,
    dir: Ino,
    name: &Octets,
    ino: Ino,
    node: &Node,
) -> Result<Answered, AllocError>
    ensures { IfOk result (λ a. a ≡ answered_of (with_new_of s.now dir.0 name.now ino.0 node.now) (NumberOf ino.0)) }
{
    let next = state_with(s, dir, name, ino, node)?;
    Ok(Answered {
        next,
        reply: Some(Reply::Number(ino.0 as u64)),
    })
}

/// The state with one more node, without a reply.
fn state_with(
    s: &State,
    dir: Ino,
    name: &Octets,
    ino: Ino,
    node: &Node,
) -> Result<State, AllocError>
    ensures { IfOk result (λ next. next ≡ with_new_of s.now dir.0 name.now ino.0 node.now) }
{
    let mut next = with_node(s, ino, node.clone()?)?;
    add_name(&mut next.names, dir, name, ino)?;
    Ok(next)
}

/// Lets a directory's name name an inode, in place of what it named.
pub fn add_name(names: &mut NameRows, dir: Ino, name: &Octets, ino: Ino) -> Result<(), AllocError>
    ensures { OnOk result (names.new ≡ insert names.old (dir.0, name.now) ino.0) }
{
    let name = name.clone()?;
    names.insert(NameRow { dir, name, ino })
}
