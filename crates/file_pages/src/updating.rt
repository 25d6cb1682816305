//! A change of size in an open update: what it touches, and how it is made.

ghost use Rattle.std.specs.Prelude.{◌≡◌, ◌≤◌, true, false, None, OnOk};
ghost use Rattle.rio_base.specs.BlockSets.{CachesBy};
ghost use Rattle.rio_base.specs.Blocks.{Looks, Caches, Ends, Halts};
ghost use Rattle.rio_base.specs.Layout.{IsIno};
ghost use Rattle.rio_base.specs.Shapes.{HasShape};
ghost use Rattle.rio_base.specs.Volume.{Firm, Goes, SameUpdate};
ghost use Rattle.rio_model.specs.Updates.{Applied};
ghost use Rattle.block_alloc.specs.Bitmap.{numbers};
ghost use Rattle.node_pages.specs.Changes.{size_update};
ghost use Rattle.node_pages.specs.Updating.{CanUpdate, IsUpdated};
ghost use Rattle.file_pages.specs.Touching.{BitmapTouched, CanChange, ChangeTouched, KeepsBlocks};

use block_alloc::BITMAP;
use inode_table::inode_block;
use node_pages::{SizeChange, make_update, make_words};
use rio_base::{Ino, Stopped, VolFail, Volume, VolumeShape};

/// Whether a change takes no block and frees none.
#[tactic(auto, using(crate::proofs::Touched::no_blocks, crate::proofs::Touched::some_blocks))]
fn keeps_blocks(change: &SizeChange) -> bool
    ensures keeps { result ≡ true → KeepsBlocks change.now }
    ensures marks { result ≡ false → KeepsBlocks change.now → ⊥ }
{
    if !change.taken.as_slice().is_empty() {
        return false;
    }
    change.freed.as_slice().is_empty()
}

/// Touches the bitmap's block, where a change takes or frees blocks: to touch it copies a page.
#[tactic(auto, using(rio_base::proofs::BlockRules::caches_refl, rio_base::proofs::Rules::looks_refl, rio_base::specs::Rules::firm_refl, rio_base::specs::Rules::goes_refl))]
fn touch_bitmap<V: Volume>(
    v: &mut V,
    shape: &VolumeShape,
    change: &SizeChange,
) -> Result<(), VolFail>
    requires sound { V.sound v.old }
    requires shape { HasShape shape.now (V.seen v.old) }
    requires in_update { (V.kept v.old).updating ≡ true }
    requires room { (V.kept v.old).touches ≡ 0 }
    ensures ok { OnOk result (BitmapTouched (V.kept v.new) change.now) }
    ensures touches { OnOk result ((V.kept v.new).touches ≤ 1) }
    ensures looks { Looks (V.seen v.old) (V.seen v.new) }
    ensures standing { (V.kept v.new).standing ≡ (V.kept v.old).standing }
    ensures firm { Firm (V.kept v.old) (V.kept v.new) }
    ensures caches { Caches (V.seen v.old) (V.seen v.new) 1 None }
    ensures in_update { (V.kept v.new).updating ≡ true }
    ensures goes { Goes (V.health v.old) (V.below v.old) (V.health v.new) (V.below v.new) }
    ensures ends { Ends (V.health v.old) (V.health v.new) result }
    ensures sound { V.sound v.new }
{
    if keeps_blocks(change) {
        return Ok(());
    }
    v.touch(BITMAP)
}

/// Touches the blocks that a change of node `i` edits: the bitmap, where it takes or frees blocks, the block of its inode, and
/// its table, where numbers in it change. So an update touches three blocks at most.
pub fn touch_change<V: Volume>(
    v: &mut V,
    shape: &VolumeShape,
    i: Ino,
    change: &SizeChange,
) -> Result<(), VolFail>
    requires sound { V.sound v.old }
    requires shape { HasShape shape.now (V.seen v.old) }
    requires in_update { (V.kept v.old).updating ≡ true }
    requires room { (V.kept v.old).touches ≡ 0 }
    requires ino { IsIno shape.now i.0 }
    requires can { CanChange shape.now (V.seen v.old) change.now }
    ensures ok { OnOk result (ChangeTouched (V.kept v.new) i.0 change.now) }
    ensures looks { Looks (V.seen v.old) (V.seen v.new) }
    ensures standing { (V.kept v.new).standing ≡ (V.kept v.old).standing }
    ensures firm { Firm (V.kept v.old) (V.kept v.new) }
    ensures caches { CachesBy (IsUpdated i.0 change.now.edits) (V.seen v.old) (V.seen v.new) }
    ensures in_update { (V.kept v.new).updating ≡ true }
    ensures goes { Goes (V.health v.old) (V.below v.old) (V.health v.new) (V.below v.new) }
    ensures ends { Ends (V.health v.old) (V.health v.new) result }
    ensures sound { V.sound v.new }
{
    touch_bitmap(v, shape, change)?;
    v.touch(inode_block(shape, i))?;
    let edits = change.edits.as_slice();
    if edits.is_empty() {
        return Ok(());
    }
    v.touch(edits[0].block)
}

/// Makes a prepared change of node `i`, in the open update. All its blocks must be touched.
pub fn apply<V: Volume>(
    v: &mut V,
    shape: &VolumeShape,
    i: Ino,
    change: &SizeChange,
) -> Result<(), Stopped>
    requires sound { V.sound v.old }
    requires shape { HasShape shape.now (V.seen v.old) }
    requires in_update { (V.kept v.old).updating ≡ true }
    requires ino { IsIno shape.now i.0 }
    requires touched { ChangeTouched (V.kept v.old) i.0 change.now }
    requires can { CanUpdate shape.now change.now.edits (numbers change.now.taken) (numbers change.now.freed) }
    ensures ok { OnOk result (Applied shape.now (size_update i.0 change.now) (V.seen v.old).words (V.seen v.new).words) }
    ensures update { OnOk result (SameUpdate (V.kept v.old) (V.kept v.new)) }
    ensures in_update { (V.kept v.new).updating ≡ true }
    ensures standing { (V.kept v.new).standing ≡ (V.kept v.old).standing }
    ensures firm { Firm (V.kept v.old) (V.kept v.new) }
    ensures shape { HasShape shape.now (V.seen v.new) }
    ensures caches { Caches (V.seen v.old) (V.seen v.new) 1 None }
    ensures goes { Goes (V.health v.old) (V.below v.old) (V.health v.new) (V.below v.new) }
    ensures ends { Halts (V.health v.old) (V.health v.new) result }
    ensures sound { V.sound v.new }
{
    let edits = change.edits.as_slice();
    if keeps_blocks(change) {
        return make_words(v, shape, i, &change.inode, edits);
    }
    make_update(
        v,
        shape,
        i,
        &change.inode,
        edits,
        change.taken.as_slice(),
        change.freed.as_slice(),
    )
}
