//! The blocks of a node, by the numbers that count, and rule 5.

ghost use Rattle.std.specs.Prelude.{◌≡◌, ◌<◌, ◌≤◌, ◌-◌, ◌/◌, ◌*◌, ◌++◌, ◌∷◌, [], ◌↔◌, ℕ, IfErr, IfOk, IsTrue, OnOk, length, slice_index};
ghost use Rattle.rio_base.specs.Blocks.{Seen};
ghost use Rattle.rio_base.specs.Layout.{IsIno, half};
ghost use Rattle.rio_base.specs.Shapes.{IsServed};
ghost use Rattle.rio_model.specs.Placed.{AtPage, AtTable, HasSlot, Placed};
ghost use Rattle.rio_model.specs.Sizes.{largest_size, pages};
ghost use Rattle.rio_model.specs.VolumeRules.{NumberAt, SizeAt};
ghost use Rattle.volume_check.specs.Looking.{CanLook, Looked, Refuses};
ghost use Rattle.volume_check.specs.Inodes.{HasInodes, layout_of, said};
ghost use Rattle.volume_check.specs.NodeBlocks.{CanNumber, InRange, node_numbers, numbers, page_numbers};

use crate::failures::CheckFail;
use crate::inodes::{Inodes, number_in};
use crate::mark_rules::reserved_blocks;
use crate::reading::read_words;
use inode_table::DIRECT_PAGES;
use rio_base::{BLOCK_WORDS, Block, Blocks, Ino, PAGE_BYTES, VolumeShape};
use std::alloc::{AllocError, Global};

/// Block numbers of an indirect block, two in each word.
const TABLE_NUMBERS: u32 = 2 * BLOCK_WORDS as u32;

/// How many pages a node of so many bytes has.
pub fn page_count(size: u64) -> u32
    requires { size ≤ largest_size }
    ensures pages { result ≡ pages size }
    ensures most { result ≤ pages largest_size }
{
    size.div_ceil(PAGE_BYTES) as u32
}

/// Adds the blocks of the first `end` pages of node `i`, which its inode numbers.
fn push_direct(inodes: &Inodes, i: Ino, end: u32, blocks: &mut Vec<Block>) -> Result<(), AllocError>
    requires ino { IsIno inodes.now.shape i.0 }
    requires end { end ≤ 24 }
    ensures { (s : Seen) → HasInodes s inodes.now → OnOk result (numbers blocks.new.items ≡ numbers blocks.old.items ++ page_numbers ((layout_of s inodes.now).node i.0) 0 end) }
{
    for page in 0..end {
        blocks.push(inodes.direct(i, page))?;
    }
    Ok(())
}

/// Adds the blocks of pages `DIRECT_PAGES` to `count` by the words of an indirect block, and then that block.
fn push_later(
    words: &[u64],
    count: u32,
    table: Block,
    blocks: &mut Vec<Block>,
) -> Result<(), AllocError>
    requires past { 24 ≤ count }
    requires words { count - 24 ≤ 2 * length words.now }
    ensures { (n : Placed) → ((p : ℕ) → 24 ≤ p → p < count → half (slice_index words.now ((p - 24) / 2)) p ≡ n.block (AtPage p)) → table.0 ≡ n.block (AtTable 0) → OnOk result (numbers blocks.new.items ≡ (numbers blocks.old.items ++ page_numbers n 24 (count - 24)) ++ (n.block (AtTable 0) ∷ [])) }
{
    for page in DIRECT_PAGES..count {
        let word = words[((page - DIRECT_PAGES) / 2) as usize];
        blocks.push(Block(number_in(word, page)))?;
    }
    blocks.push(table)?;
    Ok(())
}

/// Adds the blocks of pages `DIRECT_PAGES` to `count` of node `i`, and its indirect block.
fn push_table<V: Blocks>(
    v: &mut V,
    inodes: &Inodes,
    i: Ino,
    count: u32,
    blocks: &mut Vec<Block>,
) -> Result<(), CheckFail>
    requires can { CanLook V.seen V.sound V.passes v.old }
    requires inodes { HasInodes (V.seen v.old) inodes.now }
    requires ino { IsIno inodes.now.shape i.0 }
    requires used { 0 < said inodes.now i.0 0 }
    requires count { count ≡ pages (said inodes.now i.0 1) }
    requires past { 24 < count }
    requires numbers { CanNumber ((layout_of (V.seen v.old) inodes.now).node i.0) (V.seen v.old).count }
    ensures numbers { let n = (layout_of (V.seen v.old) inodes.now).node i.0 in OnOk result (numbers blocks.new.items ≡ (numbers blocks.old.items ++ page_numbers n 24 (count - 24)) ++ (n.block (AtTable 0) ∷ [])) }
    ensures unrefused { IfErr result (Refuses (λ _ _. ⊥)) }
    ensures looked { Looked V.seen V.health V.sound V.passes v.old v.new result }
{
    let table = inodes.indirect(i);
    let mut words = [0; BLOCK_WORDS];
    read_words(v, table, 0, &mut words)?;
    push_later(&words, count, table, blocks)?;
    Ok(())
}

/// The blocks of node `i` in place of others: its pages in order, then its table. A free inode has none. The answer is how many
/// of them are pages.
pub fn read_numbers<V: Blocks>(
    v: &mut V,
    inodes: &Inodes,
    i: Ino,
    blocks: &mut Vec<Block>,
) -> Result<u32, CheckFail>
    requires can { CanLook V.seen V.sound V.passes v.old }
    requires inodes { HasInodes (V.seen v.old) inodes.now }
    requires ino { IsIno inodes.now.shape i.0 }
    requires numbers { CanNumber ((layout_of (V.seen v.old) inodes.now).node i.0) (V.seen v.old).count }
    ensures pages { let n = (layout_of (V.seen v.old) inodes.now).node i.0 in IfOk result (λ count. 0 < n.kind → count ≡ pages n.size) }
    ensures numbers { OnOk result (numbers blocks.new.items ≡ node_numbers ((layout_of (V.seen v.old) inodes.now).node i.0)) }
    ensures unrefused { IfErr result (Refuses (λ _ _. ⊥)) }
    ensures looked { Looked V.seen V.health V.sound V.passes v.old v.new result }
{
    blocks.clear();
    if inodes.kind(i) == 0 {
        return Ok(0);
    }
    let count = page_count(inodes.size(i));
    push_direct(inodes, i, count.min(DIRECT_PAGES), blocks)?;
    if count <= DIRECT_PAGES {
        return Ok(count);
    }
    push_table(v, inodes, i, count, blocks)?;
    Ok(count)
}

// ---- rule 5

/// Whether block `b` is one of the volume past the reserved ones.
fn is_in_range(shape: &VolumeShape, b: Block) -> bool
    requires { IsServed shape.now }
    ensures { IsTrue result ↔ InRange shape.now b.0 }
{
    reserved_blocks(shape) <= b.0 && b.0 < shape.blocks
}

/// Whether the indirect block of node `i`, if it has one, is in range.
fn has_table_in_range(inodes: &Inodes, i: Ino) -> bool
    requires ino { IsIno inodes.now.shape i.0 }
    requires served { IsServed inodes.now.shape }
    requires size { 0 < said inodes.now i.0 0 → said inodes.now i.0 1 ≤ largest_size }
    ensures { (s : Seen) → HasInodes s inodes.now → let n = (layout_of s inodes.now).node i.0 in (IsTrue result ↔ ((k : ℕ) → HasSlot n (AtTable k) → InRange inodes.now.shape (n.block (AtTable k)))) }
{
    if inodes.kind(i) == 0 {
        return true;
    }
    if page_count(inodes.size(i)) <= DIRECT_PAGES {
        return true;
    }
    is_in_range(&inodes.shape, inodes.indirect(i))
}

/// Whether these blocks all are.
fn are_in_range(shape: &VolumeShape, blocks: &[Block]) -> bool
    requires { IsServed shape.now }
    ensures { IsTrue result ↔ ((k : ℕ) → k < length blocks.now → InRange shape.now (slice_index (numbers blocks.now) k)) }
{
    for b in blocks {
        if !is_in_range(shape, *b) {
            return false;
        }
    }
    true
}

/// Whether each block of node `i` is one of the volume past the reserved ones.
pub(crate) fn keeps_numbers<V: Blocks>(
    alloc: Global,
    v: &mut V,
    inodes: &Inodes,
    i: Ino,
) -> Result<bool, CheckFail>
    requires can { CanLook V.seen V.sound V.passes v.old }
    requires inodes { HasInodes (V.seen v.old) inodes.now }
    requires ino { IsIno inodes.now.shape i.0 }
    requires size { SizeAt (layout_of (V.seen v.old) inodes.now) i.0 }
    ensures keeps { IfOk result (λ keeps. IsTrue keeps ↔ NumberAt (layout_of (V.seen v.old) inodes.now) i.0) }
    ensures unrefused { IfErr result (Refuses (λ _ _. ⊥)) }
    ensures looked { Looked V.seen V.health V.sound V.passes v.old v.new result }
{
    if !has_table_in_range(inodes, i) {
        return Ok(false);
    }
    let mut blocks = Vec::new(alloc);
    read_numbers(v, inodes, i, &mut blocks)?;
    Ok(are_in_range(&inodes.shape, &blocks))
}
