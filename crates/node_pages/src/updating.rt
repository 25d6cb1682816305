//! An update of a node's blocks.

ghost use Rattle.std.specs.Prelude.{◌≡◌, ◌+◌, ◌<◌, ◌≤◌, ℕ, true, None, length, take, [], IfOk, OnOk};
ghost use Rattle.std.specs.List.{Contains};
ghost use Rattle.rio_base.specs.Blocks.{Caches, Drops, Halts};
ghost use Rattle.rio_base.specs.Layout.{IsIno, inode_block};
ghost use Rattle.rio_base.specs.Shapes.{HasShape};
ghost use Rattle.rio_base.specs.Volume.{Firm, Goes, SameUpdate};
ghost use Rattle.rio_model.specs.Updates.{Applied, edited};
ghost use Rattle.std.specs.Prelude.{map};
ghost use Rattle.block_alloc.specs.Bitmap.{numbers};
ghost use Rattle.block_alloc.specs.Words.{bit_of};
ghost use Rattle.node_pages.specs.Changes.{node_update, word_edit};
ghost use Rattle.node_pages.specs.Updating.{CanUpdate, IsEditRun, IsTouched, SetsBits};
ghost use Rattle.node_pages.specs.declared.changes.Edit.{Edit};

use crate::changes::Edit;
use block_alloc::set_used;
use inode_table::{Inode, edit_inode};
use rio_base::{Block, Ino, Stopped, Volume, VolumeShape};

/// The most words that one call edits: those of a directory's row.
const RUN_WORDS: usize = 8;

/// Whether an edit is of the same block as the first one, at the word so many behind its own.
fn follows(edit: &Edit, first: &Edit, n: usize) -> bool
    requires few { n < 512 }
    ensures { result ≡ true → (edit.now.block.0 ≡ first.now.block.0) × (edit.now.word ≡ first.now.word + n) }
{
    if edit.block.0 != first.block.0 {
        return false;
    }
    edit.word as usize == first.word as usize + n
}

/// Gathers what the first edits, which are of one block, word behind word, make of these words. Answers how many edits they
/// are.
fn gather_run(edits: &[Edit], values: &mut [u64; RUN_WORDS]) -> usize
    requires some { 0 < length edits.now }
    ensures some { 0 < result }
    ensures most { result ≤ 8 }
    ensures within { result ≤ length edits.now }
    ensures run { IsEditRun edits.now values.new result }
{
    let first = edits[0];
    values[0] = first.value;
    let most = edits.len().min(RUN_WORDS);
    for n in 1..most {
        let edit = edits[n];
        if !follows(&edit, &first, n) {
            return n;
        }
        values[n] = edit.value;
    }
    most
}

/// Makes the first edits in the open update, those that are of one block, word behind word. Answers how many they are.
fn make_run<V: Volume>(v: &mut V, edits: &[Edit]) -> Result<usize, Stopped>
    requires sound { V.sound v.old }
    requires some { 0 < length edits.now }
    requires blocks { (e : Edit) → Contains edits.now e → e.block.0 < (V.seen v.old).count }
    requires words { (e : Edit) → Contains edits.now e → e.word < 512 }
    requires touched { (e : Edit) → Contains edits.now e → (V.kept v.old).touched e.block.0 ≡ true }
    ensures some { IfOk result (λ n. 0 < n) }
    ensures most { IfOk result (λ n. n ≤ 8) }
    ensures within { IfOk result (λ n. n ≤ length edits.now) }
    ensures made { IfOk result (λ n. (V.seen v.new).words ≡ edited (V.seen v.old).words (map word_edit (take n edits.now))) }
    ensures update { OnOk result (SameUpdate (V.kept v.old) (V.kept v.new)) }
    ensures in_update { (V.kept v.new).updating ≡ true }
    ensures standing { (V.kept v.new).standing ≡ (V.kept v.old).standing }
    ensures firm { Firm (V.kept v.old) (V.kept v.new) }
    ensures count { (V.seen v.new).count ≡ (V.seen v.old).count }
    ensures drops { Drops (V.seen v.old) (V.seen v.new) }
    ensures goes { Goes (V.health v.old) (V.below v.old) (V.health v.new) (V.below v.new) }
    ensures ends { Halts (V.health v.old) (V.health v.new) result }
    ensures sound { V.sound v.new }
{
    let mut values = [0; RUN_WORDS];
    let first = edits[0];
    let n = gather_run(edits, &mut values);
    v.edit_run(first.block, first.word, &values[..n])?;
    Ok(n)
}

/// Makes edits in the open update.
fn make_edits<V: Volume>(v: &mut V, edits: &[Edit]) -> Result<(), Stopped>
    requires sound { V.sound v.old }
    requires in_update { (V.kept v.old).updating ≡ true }
    requires blocks { (e : Edit) → Contains edits.now e → e.block.0 < (V.seen v.old).count }
    requires words { (e : Edit) → Contains edits.now e → e.word < 512 }
    requires touched { (e : Edit) → Contains edits.now e → (V.kept v.old).touched e.block.0 ≡ true }
    ensures ok { OnOk result ((V.seen v.new).words ≡ edited (V.seen v.old).words (map word_edit edits.now)) }
    ensures update { OnOk result (SameUpdate (V.kept v.old) (V.kept v.new)) }
    ensures in_update { (V.kept v.new).updating ≡ true }
    ensures standing { (V.kept v.new).standing ≡ (V.kept v.old).standing }
    ensures firm { Firm (V.kept v.old) (V.kept v.new) }
    ensures count { (V.seen v.new).count ≡ (V.seen v.old).count }
    ensures drops { Drops (V.seen v.old) (V.seen v.new) }
    ensures goes { Goes (V.health v.old) (V.below v.old) (V.health v.new) (V.below v.new) }
    ensures ends { Halts (V.health v.old) (V.health v.new) result }
    ensures sound { V.sound v.new }
{
    let mut rest = edits;
    while !rest.is_empty() {
        let n = make_run(v, rest)?;
        rest = &rest[n..];
    }
    Ok(())
}

/// Marks blocks as used or as free, in the open update.
fn mark_all<V: Volume>(
    v: &mut V,
    shape: &VolumeShape,
    blocks: &[Block],
    used: bool,
) -> Result<(), Stopped>
    requires sound { V.sound v.old }
    requires shape { HasShape shape.now (V.seen v.old) }
    requires blocks { (b : ℕ) → Contains (numbers blocks.now) b → b < shape.now.blocks }
    requires touched { (V.kept v.old).touched 1 ≡ true }
    requires in_update { (V.kept v.old).updating ≡ true }
    ensures ok { OnOk result (SetsBits shape.now (V.seen v.old).words (V.seen v.new).words (numbers blocks.now) (length blocks.now) (bit_of used)) }
    ensures update { OnOk result (SameUpdate (V.kept v.old) (V.kept v.new)) }
    ensures in_update { (V.kept v.new).updating ≡ true }
    ensures standing { (V.kept v.new).standing ≡ (V.kept v.old).standing }
    ensures firm { Firm (V.kept v.old) (V.kept v.new) }
    ensures shape { HasShape shape.now (V.seen v.new) }
    ensures caches { Caches (V.seen v.old) (V.seen v.new) 1 None }
    ensures goes { Goes (V.health v.old) (V.below v.old) (V.health v.new) (V.below v.new) }
    ensures ends { Halts (V.health v.old) (V.health v.new) result }
    ensures sound { V.sound v.new }
{
    for t in 0..blocks.len() {
        set_used(v, shape, blocks[t], used)?;
    }
    Ok(())
}

/// Makes an update of a node that gains and loses no block, in the open update: edits, and inode `i`, which is stored. Their
/// blocks must be touched. It takes no memory, and other nodes may be changed in the same update.
pub fn make_words<V: Volume>(
    v: &mut V,
    shape: &VolumeShape,
    i: Ino,
    inode: &Inode,
    edits: &[Edit],
) -> Result<(), Stopped>
    requires sound { V.sound v.old }
    requires shape { HasShape shape.now (V.seen v.old) }
    requires in_update { (V.kept v.old).updating ≡ true }
    requires ino { IsIno shape.now i.0 }
    requires inode { (V.kept v.old).touched (inode_block i.0) ≡ true }
    requires edited { (e : Edit) → Contains edits.now e → (V.kept v.old).touched e.block.0 ≡ true }
    requires can { CanUpdate shape.now edits.now [] [] }
    ensures ok { OnOk result (Applied shape.now (node_update i.0 inode.now edits.now [] []) (V.seen v.old).words (V.seen v.new).words) }
    ensures update { OnOk result (SameUpdate (V.kept v.old) (V.kept v.new)) }
    ensures in_update { (V.kept v.new).updating ≡ true }
    ensures standing { (V.kept v.new).standing ≡ (V.kept v.old).standing }
    ensures firm { Firm (V.kept v.old) (V.kept v.new) }
    ensures shape { HasShape shape.now (V.seen v.new) }
    ensures drops { Drops (V.seen v.old) (V.seen v.new) }
    ensures goes { Goes (V.health v.old) (V.below v.old) (V.health v.new) (V.below v.new) }
    ensures ends { Halts (V.health v.old) (V.health v.new) result }
    ensures sound { V.sound v.new }
{
    make_edits(v, edits)?;
    edit_inode(v, shape, i, inode)
}

/// Makes an update of one node's blocks in the open update: edits, inode `i`, which is stored, and the bits of the blocks
/// that the node gains and loses. All blocks of it must be touched. It takes no memory, and other nodes may be changed in the
/// same update.
pub fn make_update<V: Volume>(
    v: &mut V,
    shape: &VolumeShape,
    i: Ino,
    inode: &Inode,
    edits: &[Edit],
    taken: &[Block],
    freed: &[Block],
) -> Result<(), Stopped>
    requires sound { V.sound v.old }
    requires shape { HasShape shape.now (V.seen v.old) }
    requires in_update { (V.kept v.old).updating ≡ true }
    requires ino { IsIno shape.now i.0 }
    requires touched { IsTouched (V.kept v.old) i.0 edits.now }
    requires can { CanUpdate shape.now edits.now (numbers taken.now) (numbers freed.now) }
    ensures ok { OnOk result (Applied shape.now (node_update i.0 inode.now edits.now taken.now freed.now) (V.seen v.old).words (V.seen v.new).words) }
    ensures update { OnOk result (SameUpdate (V.kept v.old) (V.kept v.new)) }
    ensures in_update { (V.kept v.new).updating ≡ true }
    ensures standing { (V.kept v.new).standing ≡ (V.kept v.old).standing }
    ensures firm { Firm (V.kept v.old) (V.kept v.new) }
    ensures shape { HasShape shape.now (V.seen v.new) }
    ensures caches { Caches (V.seen v.old) (V.seen v.new) 1 None }
    ensures goes { Goes (V.health v.old) (V.below v.old) (V.health v.new) (V.below v.new) }
    ensures ends { Halts (V.health v.old) (V.health v.new) result }
    ensures sound { V.sound v.new }
{
    make_words(v, shape, i, inode, edits)?;
    mark_all(v, shape, taken, true)?;
    mark_all(v, shape, freed, false)
}
