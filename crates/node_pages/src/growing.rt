//! The parts of a node's growth: its new inode, and the edits of its table.

ghost use Rattle.std.specs.Prelude.{◌≡◌, ◌+◌, ◌-◌, ◌<◌, ◌≤◌, ℕ, length, map, slice_index, IfOk};
ghost use Rattle.block_alloc.specs.Bitmap.{numbers};
ghost use Rattle.rio_model.specs.Updates.{run_edits};
ghost use Rattle.node_pages.specs.Changes.{new_direct, new_number, new_word, word_edit};

use crate::changes::{Edit, EditList};
use inode_table::{DIRECT_PAGES, Inode};
use rio_base::Block;
use std::alloc::{AllocError, Global};

/// The number of page `p`, where pages from `have` to `want` are the blocks taken and page `have - 1` is in block `last`.
fn new_number(last: u32, have: u32, want: u32, taken: &[Block], p: u32) -> u32
    requires { want ≤ have + length taken.now }
    ensures { result ≡ new_number last have want (numbers taken.now) p }
{
    if p < have {
        last
    } else if p < want {
        taken[(p - have) as usize].0
    } else {
        0
    }
}

/// Word `w` of the table then, which has two numbers.
fn new_word(last: u32, have: u32, want: u32, taken: &[Block], w: u16) -> u64
    requires numbers { want ≤ have + length taken.now }
    requires word { w < 512 }
    ensures { result ≡ new_word last have want (numbers taken.now) w }
{
    let low = new_number(last, have, want, taken, DIRECT_PAGES + 2 * w as u32);
    let high = new_number(last, have, want, taken, DIRECT_PAGES + 1 + 2 * w as u32);
    low as u64 + 4_294_967_296 * high as u64
}

/// The edits of the table's words from `first` to `end`.
pub fn table_edits(
    alloc: Global,
    table: Block,
    last: u32,
    have: u32,
    want: u32,
    taken: &[Block],
    first: u16,
    end: u16,
) -> Result<EditList, AllocError>
    requires numbers { want ≤ have + length taken.now }
    requires words { end ≤ 512 }
    requires order { first ≤ end }
    ensures { IfOk result (λ edits. map word_edit edits ≡ run_edits table.0 (new_word last have want (numbers taken.now)) first (end - first)) }
{
    let mut edits = Vec::new(alloc);
    for w in first..end {
        let value = new_word(last, have, want, taken, w);
        edits.push(Edit {
            block: table,
            word: w,
            value,
        })?;
    }
    Ok(EditList::from(edits))
}

/// The table of a node that has grown: the block behind the `pages` that were taken, where there is one, or the one that it
/// had.
pub fn grown_table(inode: &Inode, taken: &[Block], pages: u32) -> u32
    ensures new { pages < length taken.now → result ≡ slice_index (numbers taken.now) pages }
    ensures old { length taken.now ≤ pages → result ≡ inode.now.indirect }
{
    if (pages as usize) < taken.len() {
        taken[pages as usize].0
    } else {
        inode.indirect
    }
}

/// The inode of a node that has grown to `len` bytes.
pub fn grown_inode(
    old: &Inode,
    len: u64,
    have: u32,
    want: u32,
    table: u32,
    taken: &[Block],
) -> Inode
    requires numbers { want ≤ have + length taken.now }
    requires grows { have ≤ want }
    ensures kind { result.kind ≡ old.now.kind }
    ensures size { result.size ≡ len }
    ensures direct { (p : ℕ) → p < 24 → slice_index result.direct p ≡ new_direct old.now.direct have want (numbers taken.now) p }
    ensures indirect { result.indirect ≡ table }
{
    let mut direct = old.direct;
    for p in have..want.min(DIRECT_PAGES) {
        direct[p as usize] = taken[(p - have) as usize].0;
    }
    Inode {
        kind: old.kind,
        size: len,
        direct,
        indirect: table,
        double: old.double,
    }
}
