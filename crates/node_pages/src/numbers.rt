//! The blocks of a run of pages, and all blocks of a node.

ghost use Rattle.std.specs.Prelude.{◌≡◌, ◌+◌, ◌-◌, ◌/◌, ◌<◌, ◌≤◌, ◌++◌, ◌∷◌, [], ℕ, max, length, slice_index, if◌then◌else◌, IfOk, IfSome, OnOk};
ghost use Rattle.rio_base.specs.Frames.{CanRead, FilledBy, ReadBy};
ghost use Rattle.rio_base.specs.Blocks.{IsRun};
ghost use Rattle.rio_base.specs.Layout.{IsIno, half, inode_kind};
ghost use Rattle.rio_model.specs.Placed.{AtPage, AtTable, Placed, placed_at, volume_layout, Owns};
ghost use Rattle.rio_model.specs.Sizes.{pages};
ghost use Rattle.block_alloc.specs.Bitmap.{numbers};
ghost use Rattle.inode_table.specs.Inodes.{IsInode};
ghost use Rattle.node_pages.specs.Changes.{PlansFor};
ghost use Rattle.node_pages.specs.LookingUp.{CanLookUp, LooksUp, node_blocks, page_blocks};

use crate::lookup::number_in;
use crate::sizes::{page_count, table_count};
use inode_table::{DIRECT_PAGES, Inode, read_inode};
use rio_base::{Block, BlockList, Blocks, Ino, ReadFail, VolFail, VolumeShape};
use std::alloc::{AllocError, Global};

/// Adds the blocks of pages `first` to `end` that an inode numbers.
fn push_direct(
    blocks: &mut Vec<Block>,
    inode: &Inode,
    first: u32,
    end: u32,
) -> Result<(), AllocError>
    requires order { first ≤ end }
    requires few { end ≤ max first 24 }
    ensures { (n : Placed) → ((p : ℕ) → first ≤ p → p < end → slice_index inode.now.direct p ≡ n.block (AtPage p)) → OnOk result (numbers blocks.new.items ≡ numbers blocks.old.items ++ page_blocks n first (end - first)) }
{
    for p in first..end {
        blocks.push(Block(inode.direct[p as usize]))?;
    }
    Ok(())
}

/// Adds the blocks of pages `first` to `end` by words of the indirect block, from the one with page `first` on.
fn push_numbers(
    blocks: &mut Vec<Block>,
    words: &[u64],
    first: u32,
    end: u32,
) -> Result<(), AllocError>
    requires past { 24 ≤ first }
    requires order { first ≤ end }
    requires words { (end - 23) / 2 ≤ (first - 24) / 2 + length words.now }
    ensures { (n : Placed) → ((p : ℕ) → first ≤ p → p < end → half (slice_index words.now ((p - 24) / 2 - (first - 24) / 2)) p ≡ n.block (AtPage p)) → OnOk result (numbers blocks.new.items ≡ numbers blocks.old.items ++ page_blocks n first (end - first)) }
{
    let from = (first - DIRECT_PAGES) / 2;
    for p in first..end {
        let word = words[((p - DIRECT_PAGES) / 2 - from) as usize];
        blocks.push(Block(number_in(word, p)))?;
    }
    Ok(())
}

/// Words of the indirect block of node `i`.
#[tactic(auto, using(crate::proofs::LookingUpRules::can_table))]
fn table_words<V: Blocks>(
    alloc: Global,
    v: &mut V,
    shape: &VolumeShape,
    i: Ino,
    table: Block,
    from: u16,
    count: u16,
) -> Result<Vec<u64>, ReadFail>
    requires can { CanRead V.seen V.sound (CanLookUp shape.now) v.old }
    requires owns { Owns (volume_layout shape.now (V.seen v.old).words) i.0 (AtTable 0) }
    requires table { table.0 ≡ (placed_at (V.seen v.old).words i.0).block (AtTable 0) }
    requires within { from + count ≤ 512 }
    ensures len { IfOk result (λ words. length words.items ≡ count) }
    ensures words { IfOk result (λ words. IsRun (V.seen v.old).words ((placed_at (V.seen v.old).words i.0).block (AtTable 0)) from count words.items) }
    ensures read { FilledBy V.seen V.health V.sound V.passes (LooksUp shape.now) v.old v.new result }
{
    let mut words = vec![in alloc; 0u64; count as usize]?;
    v.read_run(table, None, from, &mut words)?;
    Ok(words)
}

/// Adds the blocks of pages `first` to `end` that the indirect block numbers, which is read once.
fn push_later<V: Blocks>(
    alloc: Global,
    v: &mut V,
    shape: &VolumeShape,
    i: Ino,
    table: Block,
    first: u32,
    end: u32,
    mut blocks: Vec<Block>,
) -> Result<Vec<Block>, ReadFail>
    requires can { CanRead V.seen V.sound (CanLookUp shape.now) v.old }
    requires owns { Owns (volume_layout shape.now (V.seen v.old).words) i.0 (AtTable 0) }
    requires table { table.0 ≡ (placed_at (V.seen v.old).words i.0).block (AtTable 0) }
    requires past { 24 ≤ first }
    requires order { first < end }
    requires within { end ≤ pages (placed_at (V.seen v.old).words i.0).size }
    requires most { end ≤ 1048 }
    ensures value { IfOk result (λ found. numbers found.items ≡ numbers blocks.items ++ page_blocks (placed_at (V.seen v.old).words i.0) first (end - first)) }
    ensures read { FilledBy V.seen V.health V.sound V.passes (LooksUp shape.now) v.old v.new result }
{
    let from = (first - DIRECT_PAGES) / 2;
    let count = (end - 23) / 2 - from;
    let words = table_words(alloc, v, shape, i, table, from as u16, count as u16)?;
    push_numbers(&mut blocks, &words, first, end)?;
    Ok(blocks)
}

/// The blocks of pages `first` to `end` of node `i`, which has this inode.
pub fn page_blocks<V: Blocks>(
    alloc: Global,
    v: &mut V,
    shape: &VolumeShape,
    i: Ino,
    inode: &Inode,
    first: u32,
    end: u32,
) -> Result<Vec<Block>, ReadFail>
    requires can { CanRead V.seen V.sound (CanLookUp shape.now) v.old }
    requires ino { IsIno shape.now i.0 }
    requires inode { PlansFor (V.seen v.old).words i.0 inode.now }
    requires order { first ≤ end }
    requires within { end ≤ pages inode.now.size }
    ensures value { IfOk result (λ blocks. numbers blocks.items ≡ page_blocks (placed_at (V.seen v.old).words i.0) first (end - first)) }
    ensures read { FilledBy V.seen V.health V.sound V.passes (LooksUp shape.now) v.old v.new result }
{
    let mut blocks = Vec::new(alloc);
    let middle = end.min(first.max(DIRECT_PAGES));
    push_direct(&mut blocks, inode, first, middle)?;
    if middle == end {
        return Ok(blocks);
    }
    let blocks = push_later(
        alloc,
        v,
        shape,
        i,
        Block(inode.indirect),
        middle,
        end,
        blocks,
    )?;
    Ok(blocks)
}

/// The block of page `first`, where it is the only one before `end` and its inode numbers it.
pub fn only_direct(inode: &Inode, first: u32, end: u32) -> Option<Block>
    ensures { IfSome result (λ b. (first < 24) × (end ≡ first + 1) × (b.0 ≡ slice_index inode.now.direct first)) }
{
    if first >= DIRECT_PAGES {
        return None;
    }
    if end != first + 1 {
        return None;
    }
    Some(Block(inode.direct[first as usize]))
}

/// Adds a table to blocks, where it is one of them.
pub fn push_table(blocks: &mut Vec<Block>, table: u32, counts: bool) -> Result<(), AllocError>
    ensures { OnOk result (blocks.new.items ≡ blocks.old.items ++ (if counts then (record { 0 = table } ∷ []) else [])) }
{
    if counts {
        blocks.push(Block(table))?;
    }
    Ok(())
}

/// Inode `i`, read to look up its blocks.
pub fn look_inode<V: Blocks>(v: &mut V, shape: &VolumeShape, i: Ino) -> Result<Inode, VolFail>
    requires can { CanRead V.seen V.sound (CanLookUp shape.now) v.old }
    requires ino { IsIno shape.now i.0 }
    ensures value { IfOk result (IsInode (V.seen v.old).words i.0) }
    ensures read { ReadBy V.seen V.health V.sound V.passes (LooksUp shape.now) v.old v.new result }
{
    read_inode(v, shape, i)
}

/// All blocks of node `i`, its pages in order first and its indirect block last.
pub fn blocks_of<V: Blocks>(
    alloc: Global,
    v: &mut V,
    shape: &VolumeShape,
    i: Ino,
) -> Result<BlockList, ReadFail>
    requires can { CanRead V.seen V.sound (CanLookUp shape.now) v.old }
    requires ino { IsIno shape.now i.0 }
    requires used { 0 < inode_kind (V.seen v.old).words i.0 }
    ensures value { IfOk result (λ blocks. numbers blocks ≡ node_blocks (placed_at (V.seen v.old).words i.0)) }
    ensures read { FilledBy V.seen V.health V.sound V.passes (LooksUp shape.now) v.old v.new result }
{
    let inode = look_inode(v, shape, i)?;
    let count = page_count(inode.size);
    let mut blocks = page_blocks(alloc, v, shape, i, &inode, 0, count)?;
    push_table(&mut blocks, inode.indirect, table_count(inode.size) == 1)?;
    Ok(BlockList::from(blocks))
}
