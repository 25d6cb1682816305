//! The blocks that nodes take, and those that no node has.

ghost use Rattle.std.specs.Prelude.{◌≡◌, ◌+◌, ◌*◌, ◌^◌, ◌<◌, if◌then◌else◌, nat_lt, length, IfOk};
ghost use Rattle.std.specs.FinMap.{get};
ghost use Rattle.rio_base.specs.Shapes.{reserved as reserved_of};
ghost use Rattle.rio_model.specs.States.{names_in as names_in_of};
ghost use Rattle.rio_requests.specs.Answers.{new_blocks as new_blocks_of, row_wanted as row_wanted_of, wanted as wanted_of};
ghost use Rattle.rio_model.specs.Sizes.{blocks_for as blocks_for_of, data_pages as data_pages_of, free_count as free_count_of, largest_size, node_blocks as node_blocks_of};
ghost use Rattle.rio_model.specs.Undo.{region_words};

use super::listing::count_names;
use rio_base::{Ino, VolumeShape};
use rio_model::{Node, RegionNode, State};
use std::alloc::{AllocError, Global};

/// The largest size of a node, in bytes: 24 pages, and the 1,024 that an indirect block numbers.
const LARGEST_SIZE: u64 = 4_292_608;

/// Whether no node can have so many bytes.
pub fn is_too_large(len: u64) -> bool
    ensures { result ≡ nat_lt largest_size len }
{
    len > LARGEST_SIZE
}

/// The blocks of a node of so many pages: one more numbers them where they are more than 24.
fn with_table(pages: u64) -> u64
    requires { pages < 2 ^ 62 }
    ensures is { result ≡ pages + (if nat_lt 24 pages then 1 else 0) }
    ensures few { result < pages + 2 }
{
    if pages > 24 { pages + 1 } else { pages }
}

/// The blocks of a node of so many bytes.
fn blocks_for(size: u64) -> u64
    ensures is { result ≡ blocks_for_of size }
    ensures few { result < 2 ^ 53 }
{
    let pages = size.div_ceil(4096);
    with_table(pages)
}

/// The blocks of a directory of so many names, 64 bytes each.
fn rows_blocks(count: u64) -> u64
    ensures is { result ≡ blocks_for_of (64 * count) }
    ensures few { result < 2 ^ 60 }
{
    let pages = count.div_ceil(64);
    with_table(pages)
}

/// The data pages of a region.
pub fn data_pages(region: &RegionNode) -> usize
    ensures is { result ≡ data_pages_of region.now }
    ensures few { result < 2 ^ 55 }
{
    region.words.as_slice().len() / 512
}

/// The blocks of a region: its header, its undo pages, the pages of its heap's map, and its data pages.
fn region_blocks(region: &RegionNode) -> u64
    ensures is { result ≡ blocks_for_of (8 * region_words region.now.undo (data_pages_of region.now)) }
    ensures few { result < 2 ^ 60 }
{
    let content = data_pages(region) as u64;
    let map = content.div_ceil(256);
    let pages = 1 + region.undo as u64 + map + content;
    with_table(pages)
}

/// The blocks that a new node takes.
pub fn new_blocks(node: &Node) -> u64
    ensures is { result ≡ new_blocks_of node.now }
    ensures few { result < 2 ^ 60 }
{
    match node {
        Node::Dir => 0,
        Node::File(bytes) => blocks_for(bytes.as_slice().len() as u64),
        Node::Region(region) => region_blocks(region),
    }
}

/// The blocks that a directory has.
fn directory_blocks(alloc: Global, s: &State, dir: Ino) -> Result<u64, AllocError>
    ensures { IfOk result (λ n. n ≡ blocks_for_of (64 * length (names_in_of s.now dir.0))) }
{
    let count = count_names(alloc, s, dir)?;
    Ok(rows_blocks(count))
}

/// The blocks that an inode's node has.
fn node_blocks(alloc: Global, s: &State, ino: Ino) -> Result<u64, AllocError>
    ensures { IfOk result (λ n. n ≡ node_blocks_of s.now ino.0 (get s.now.nodes ino.0)) }
{
    match s.nodes.get(ino) {
        None => Ok(0),
        Some(Node::Dir) => directory_blocks(alloc, s, ino),
        Some(Node::File(bytes)) => Ok(blocks_for(bytes.as_slice().len() as u64)),
        Some(Node::Region(region)) => Ok(region_blocks(region)),
    }
}

/// The blocks that are no node's: superblock, bitmap and inodes.
#[tactic(auto, using(crate::proofs::Room::reserved_second, crate::proofs::Room::reserved_first))]
fn reserved(shape: &VolumeShape) -> u64
    ensures { result ≡ reserved_of shape.now }
{
    let first = 2 + shape.inodes as u64 / 32;
    if shape.version == 2 {
        return first + 7;
    }
    first
}

/// The blocks that are free.
fn free_count(alloc: Global, s: &State) -> Result<u64, AllocError>
    ensures { IfOk result (λ n. n ≡ free_count_of s.now) }
{
    let all = s.shape.blocks as u64;
    let mut left = all.saturating_sub(reserved(&s.shape));
    for below in 0..s.shape.inodes {
        let used = node_blocks(alloc, s, Ino(below + 1))?;
        left = left.saturating_sub(used);
    }
    Ok(left)
}

/// Whether fewer blocks are free than are wanted.
pub fn lacks_room(alloc: Global, s: &State, wants: u64) -> Result<bool, AllocError>
    ensures { IfOk result (λ lacks. lacks ≡ nat_lt (free_count_of s.now) wants) }
{
    let free = free_count(alloc, s)?;
    Ok(free < wants)
}

/// The blocks that a node takes to have another size.
pub fn wanted(size: u64, len: u64) -> u64
    ensures { result ≡ wanted_of size len }
{
    let before = blocks_for(size);
    let after = blocks_for(len);
    after.saturating_sub(before)
}

/// The blocks that a directory takes for one name more.
pub fn row_wanted(alloc: Global, s: &State, dir: Ino) -> Result<u64, AllocError>
    ensures is { IfOk result (λ n. n ≡ row_wanted_of s.now dir.0) }
    ensures few { IfOk result (λ n. n < 2 ^ 60) }
{
    let count = count_names(alloc, s, dir)?;
    let before = rows_blocks(count);
    let after = rows_blocks(count + 1);
    Ok(after.saturating_sub(before))
}
