//! One update that makes changes of nodes together.

ghost use Rattle.std.specs.Prelude.{◌≡◌, ◌+◌, ◌-◌, ◌<◌, ◌≤◌, ◌⊎◌, ℕ, true, false, length, map, slice_index, None, OnOk, IsErrOf};
ghost use Rattle.std.specs.List.{Contains};
ghost use Rattle.rio_base.specs.BlockSets.{CachesBy, FirmOutside, SameOutside};
ghost use Rattle.rio_base.specs.Blocks.{Caches, Drops, Ends, EndsBy, Halts, Looks, Seen};
ghost use Rattle.rio_base.specs.Layout.{IsIno};
ghost use Rattle.rio_base.specs.Shapes.{HasShape};
ghost use Rattle.rio_base.specs.Volume.{Firm, Goes, Kept, SameUpdate};
ghost use Rattle.block_alloc.specs.Bitmap.{numbers};
ghost use Rattle.rio_requests.specs.Parts.{NoneDone};
ghost use Rattle.rio_requests.specs.declared.answered.Answered.{Answered};
ghost use Rattle.rio_requests.specs.declared.reply.Reply.{Reply};
ghost use Rattle.rio_model.specs.declared.state.State.{State};
ghost use Rattle.rio_model.specs.Placed.{volume_layout};
ghost use Rattle.rio_model.specs.Updates.{Applied};
ghost use Rattle.node_pages.specs.Staging.{Forgets, Uncached};
ghost use Rattle.node_pages.specs.Updating.{IsEdited, IsUpdated};
ghost use Rattle.node_pages.specs.declared.changes.Edit.{Edit as EditOf};
ghost use Rattle.directories.specs.Plans.{InThreeBlocks};
ghost use Rattle.node_updates.specs.Changes.{AllApplied, AllTouched, BitmapTouched, CanCommit, CanMakeNode, ChangeTouched, IsFreed, IsTouchedBy, KeepsBlocks, MakesFit, edited_blocks, change_update};
ghost use Rattle.node_updates.specs.Committing.{Commits, Touched};
ghost use Rattle.request_ends.specs.Ends.{FileEnds};
ghost use Rattle.request_ends.specs.Failures.{Faulted};
ghost use Rattle.node_updates.specs.Planned.{LeadsBy, Planned};
ghost use Rattle.node_updates.specs.declared.changes.NodeChange.{NodeChange as NodeChangeOf};

use crate::changes::NodeChange;
use block_alloc::BITMAP;
use inode_table::{Inode, inode_block};
use node_pages::{Edit, make_update, make_words};
use request_ends::FileFail;
use rio_base::{Block, Ino, Stopped, VolFail, Volume, VolumeShape};

/// Whether edit `t` is in the same block as the edit before it.
fn is_same_block(edits: &[Edit], t: usize) -> bool
    requires within { t < length edits.now }
    ensures same { result ≡ true → (1 ≤ t) × (slice_index (edited_blocks edits.now) t ≡ slice_index (edited_blocks edits.now) (t - 1)) }
{
    if t == 0 {
        return false;
    }
    edits[t].block.0 == edits[t - 1].block.0
}

/// Touches the blocks of edits, which are three at most.
fn touch_edits<V: Volume>(v: &mut V, edits: &[Edit]) -> Result<(), VolFail>
    requires sound { V.sound v.old }
    requires in_update { (V.kept v.old).updating ≡ true }
    requires room { (V.kept v.old).touches ≤ 13 }
    requires few { InThreeBlocks edits.now }
    requires places { (e : EditOf) → Contains edits.now e → e.block.0 < (V.seen v.old).count }
    requires unnamed { (e : EditOf) → Contains edits.now e → (V.seen v.old).cached e.block.0 ≡ true → (V.seen v.old).names e.block.0 ≡ None }
    ensures ok { OnOk result ((e : EditOf) → Contains edits.now e → (V.kept v.new).touched e.block.0 ≡ true) }
    ensures touches { OnOk result ((V.kept v.new).touches ≤ 3 + (V.kept v.old).touches) }
    ensures more { OnOk result ((b : ℕ) → (V.kept v.old).touched b ≡ true → (V.kept v.new).touched b ≡ true) }
    ensures looks { Looks (V.seen v.old) (V.seen v.new) }
    ensures standing { (V.kept v.new).standing ≡ (V.kept v.old).standing }
    ensures firm { Firm (V.kept v.old) (V.kept v.new) }
    ensures caches { CachesBy (λ b name. IsEdited edits.now b × (name ≡ None)) (V.seen v.old) (V.seen v.new) }
    ensures in_update { (V.kept v.new).updating ≡ true }
    ensures goes { Goes (V.health v.old) (V.below v.old) (V.health v.new) (V.below v.new) }
    ensures ends { Ends (V.health v.old) (V.health v.new) result }
    ensures sound { V.sound v.new }
{
    for t in 0..edits.len() {
        if is_same_block(edits, t) {
            continue;
        }
        v.touch(edits[t].block)?;
    }
    Ok(())
}

/// Touches the blocks that a change edits beside the bitmap: that of its inode, and three more at most.
fn touch_node<V: Volume>(v: &mut V, shape: &VolumeShape, change: &NodeChange) -> Result<(), VolFail>
    requires sound { V.sound v.old }
    requires shape { HasShape shape.now (V.seen v.old) }
    requires in_update { (V.kept v.old).updating ≡ true }
    requires room { (V.kept v.old).touches ≤ 12 }
    requires bitmap { (KeepsBlocks change.now → ⊥) → (V.kept v.old).touched 1 ≡ true }
    requires can { CanMakeNode shape.now (V.seen v.old) change.now }
    ensures ok { OnOk result (ChangeTouched (V.kept v.new) change.now) }
    ensures touches { OnOk result ((V.kept v.new).touches ≤ 4 + (V.kept v.old).touches) }
    ensures more { OnOk result ((b : ℕ) → (V.kept v.old).touched b ≡ true → (V.kept v.new).touched b ≡ true) }
    ensures looks { Looks (V.seen v.old) (V.seen v.new) }
    ensures standing { (V.kept v.new).standing ≡ (V.kept v.old).standing }
    ensures firm { Firm (V.kept v.old) (V.kept v.new) }
    ensures caches { CachesBy (IsUpdated change.now.ino.0 change.now.edits) (V.seen v.old) (V.seen v.new) }
    ensures in_update { (V.kept v.new).updating ≡ true }
    ensures goes { Goes (V.health v.old) (V.below v.old) (V.health v.new) (V.below v.new) }
    ensures ends { Ends (V.health v.old) (V.health v.new) result }
    ensures sound { V.sound v.new }
{
    v.touch(inode_block(shape, change.ino))?;
    touch_edits(v, change.edits.as_slice())
}

/// Whether a change takes no block and frees none.
#[tactic(auto, using(crate::proofs::Several::no_blocks, crate::proofs::Several::some_blocks))]
fn keeps_blocks(change: &NodeChange) -> bool
    ensures keeps { result ≡ true → KeepsBlocks change.now }
    ensures marks { result ≡ false → KeepsBlocks change.now → ⊥ }
{
    if !change.taken.as_slice().is_empty() {
        return false;
    }
    change.freed.as_slice().is_empty()
}

/// Whether no change takes or frees a block.
fn all_keep_blocks(changes: &[NodeChange]) -> bool
    ensures { result ≡ true → (c : NodeChangeOf) → Contains changes.now c → KeepsBlocks c }
{
    for change in changes {
        if !keeps_blocks(change) {
            return false;
        }
    }
    true
}

/// Touches the bitmap's block, where a change takes or frees blocks: to touch it copies a page.
#[tactic(auto, using(rio_base::proofs::BlockRules::caches_refl, rio_base::proofs::Rules::looks_refl, rio_base::specs::Rules::firm_refl, rio_base::specs::Rules::goes_refl))]
fn touch_bitmap<V: Volume>(
    v: &mut V,
    shape: &VolumeShape,
    changes: &[NodeChange],
) -> Result<(), VolFail>
    requires sound { V.sound v.old }
    requires shape { HasShape shape.now (V.seen v.old) }
    requires in_update { (V.kept v.old).updating ≡ true }
    requires room { (V.kept v.old).touches ≡ 0 }
    ensures ok { OnOk result (BitmapTouched (V.kept v.new) changes.now) }
    ensures touches { OnOk result ((V.kept v.new).touches ≤ 1) }
    ensures looks { Looks (V.seen v.old) (V.seen v.new) }
    ensures standing { (V.kept v.new).standing ≡ (V.kept v.old).standing }
    ensures firm { Firm (V.kept v.old) (V.kept v.new) }
    ensures caches { Caches (V.seen v.old) (V.seen v.new) 1 None }
    ensures in_update { (V.kept v.new).updating ≡ true }
    ensures goes { Goes (V.health v.old) (V.below v.old) (V.health v.new) (V.below v.new) }
    ensures ends { Ends (V.health v.old) (V.health v.new) result }
    ensures sound { V.sound v.new }
{
    if all_keep_blocks(changes) {
        return Ok(());
    }
    v.touch(BITMAP)?;
    Ok(())
}

/// Touches the blocks that changes edit: the bitmap, where one takes or frees blocks, and of each change the block of the inode
/// and those of its edits.
fn touch_changes<V: Volume>(
    v: &mut V,
    shape: &VolumeShape,
    changes: &[NodeChange],
) -> Result<(), VolFail>
    requires sound { V.sound v.old }
    requires shape { HasShape shape.now (V.seen v.old) }
    requires in_update { (V.kept v.old).updating ≡ true }
    requires room { (V.kept v.old).touches ≡ 0 }
    requires can { CanCommit shape.now (V.seen v.old) changes.now }
    ensures ok { OnOk result (AllTouched (V.kept v.new) changes.now) }
    ensures looks { Looks (V.seen v.old) (V.seen v.new) }
    ensures standing { (V.kept v.new).standing ≡ (V.kept v.old).standing }
    ensures firm { Firm (V.kept v.old) (V.kept v.new) }
    ensures caches { CachesBy (IsTouchedBy changes.now) (V.seen v.old) (V.seen v.new) }
    ensures shape { HasShape shape.now (V.seen v.new) }
    ensures in_update { (V.kept v.new).updating ≡ true }
    ensures goes { Goes (V.health v.old) (V.below v.old) (V.health v.new) (V.below v.new) }
    ensures ends { Ends (V.health v.old) (V.health v.new) result }
    ensures sound { V.sound v.new }
{
    touch_bitmap(v, shape, changes)?;
    for change in changes {
        touch_node(v, shape, change)?;
    }
    Ok(())
}

/// Opens an update and touches the blocks of changes. After `Fault` no update is open.
fn open_changes<V: Volume>(
    v: &mut V,
    shape: &VolumeShape,
    changes: &[NodeChange],
) -> Result<(), VolFail>
    requires sound { V.sound v.old }
    requires shape { HasShape shape.now (V.seen v.old) }
    requires idle { (V.kept v.old).updating ≡ false }
    requires can { CanCommit shape.now (V.seen v.old) changes.now }
    ensures ok { OnOk result (AllTouched (V.kept v.new) changes.now × ((V.kept v.new).updating ≡ true) × ((V.seen v.new).words ≡ (V.seen v.old).words)) }
    ensures fault { IsErrOf result VolFail.Fault → ((V.kept v.new).updating ≡ false) × ((V.seen v.new).words ≡ (V.seen v.old).words) }
    ensures standing { (V.kept v.new).standing ≡ (V.kept v.old).standing }
    ensures firm { Firm (V.kept v.old) (V.kept v.new) }
    ensures caches { CachesBy (IsTouchedBy changes.now) (V.seen v.old) (V.seen v.new) }
    ensures shape { HasShape shape.now (V.seen v.new) }
    ensures goes { Goes (V.health v.old) (V.below v.old) (V.health v.new) (V.below v.new) }
    ensures ends { Ends (V.health v.old) (V.health v.new) result }
    ensures sound { V.sound v.new }
{
    v.begin()?;
    match touch_changes(v, shape, changes) {
        Ok(()) => Ok(()),
        Err(VolFail::Stopped) => Err(VolFail::Stopped),
        Err(VolFail::Fault) => {
            v.rollback()?;
            Err(VolFail::Fault)
        }
    }
}

/// Makes a change of a node, in the open update.
fn make_change<V: Volume>(
    v: &mut V,
    shape: &VolumeShape,
    change: &NodeChange,
) -> Result<(), Stopped>
    requires sound { V.sound v.old }
    requires shape { HasShape shape.now (V.seen v.old) }
    requires in_update { (V.kept v.old).updating ≡ true }
    requires can { MakesFit shape.now change.now }
    requires touched { ChangeTouched (V.kept v.old) change.now }
    ensures ok { OnOk result (Applied shape.now (change_update change.now) (V.seen v.old).words (V.seen v.new).words) }
    ensures update { OnOk result (SameUpdate (V.kept v.old) (V.kept v.new)) }
    ensures in_update { (V.kept v.new).updating ≡ true }
    ensures standing { (V.kept v.new).standing ≡ (V.kept v.old).standing }
    ensures firm { Firm (V.kept v.old) (V.kept v.new) }
    ensures shape { HasShape shape.now (V.seen v.new) }
    ensures caches { Caches (V.seen v.old) (V.seen v.new) 1 None }
    ensures goes { Goes (V.health v.old) (V.below v.old) (V.health v.new) (V.below v.new) }
    ensures ends { Halts (V.health v.old) (V.health v.new) result }
    ensures sound { V.sound v.new }
{
    let edits = change.edits.as_slice();
    if keeps_blocks(change) {
        return make_words(v, shape, change.ino, &change.inode, edits);
    }
    make_update(
        v,
        shape,
        change.ino,
        &change.inode,
        edits,
        change.taken.as_slice(),
        change.freed.as_slice(),
    )
}

/// Makes changes, in the open update.
fn make_changes<V: Volume>(
    v: &mut V,
    shape: &VolumeShape,
    changes: &[NodeChange],
) -> Result<(), Stopped>
    requires sound { V.sound v.old }
    requires shape { HasShape shape.now (V.seen v.old) }
    requires in_update { (V.kept v.old).updating ≡ true }
    requires can { (c : NodeChangeOf) → Contains changes.now c → MakesFit shape.now c }
    requires touched { AllTouched (V.kept v.old) changes.now }
    ensures ok { OnOk result (AllApplied shape.now (map change_update changes.now) (V.seen v.old).words (V.seen v.new).words) }
    ensures update { OnOk result (SameUpdate (V.kept v.old) (V.kept v.new)) }
    ensures in_update { (V.kept v.new).updating ≡ true }
    ensures standing { (V.kept v.new).standing ≡ (V.kept v.old).standing }
    ensures firm { Firm (V.kept v.old) (V.kept v.new) }
    ensures shape { HasShape shape.now (V.seen v.new) }
    ensures caches { CachesBy (IsTouchedBy changes.now) (V.seen v.old) (V.seen v.new) }
    ensures goes { Goes (V.health v.old) (V.below v.old) (V.health v.new) (V.below v.new) }
    ensures ends { Halts (V.health v.old) (V.health v.new) result }
    ensures sound { V.sound v.new }
{
    for change in changes {
        make_change(v, shape, change)?;
    }
    Ok(())
}

/// Makes prepared changes of nodes in one update. `Fault` leaves everything as it was; `Stopped` leaves all of the changes
/// standing, or nothing of them.
fn change_nodes<V: Volume>(
    v: &mut V,
    shape: &VolumeShape,
    changes: &[NodeChange],
) -> Result<(), VolFail>
    requires sound { V.sound v.old }
    requires shape { HasShape shape.now (V.seen v.old) }
    requires idle { (V.kept v.old).updating ≡ false }
    requires can { CanCommit shape.now (V.seen v.old) changes.now }
    ensures ok { OnOk result (AllApplied shape.now (map change_update changes.now) (V.seen v.old).words (V.seen v.new).words × ((V.kept v.new).standing ≡ (V.seen v.new).words) × ((V.kept v.new).updating ≡ false)) }
    ensures fault { IsErrOf result VolFail.Fault → ((V.kept v.new).updating ≡ false) × ((V.seen v.new).words ≡ (V.seen v.old).words) × ((V.kept v.new).standing ≡ (V.kept v.old).standing) }
    ensures stopped { ((V.kept v.new).standing ≡ (V.kept v.old).standing) ⊎ AllApplied shape.now (map change_update changes.now) (V.seen v.old).words (V.kept v.new).standing }
    ensures shape { HasShape shape.now (V.seen v.new) }
    ensures firm { Firm (V.kept v.old) (V.kept v.new) }
    ensures caches { CachesBy (IsTouchedBy changes.now) (V.seen v.old) (V.seen v.new) }
    ensures goes { Goes (V.health v.old) (V.below v.old) (V.health v.new) (V.below v.new) }
    ensures ends { Ends (V.health v.old) (V.health v.new) result }
    ensures sound { V.sound v.new }
{
    open_changes(v, shape, changes)?;
    make_changes(v, shape, changes)?;
    v.commit()?;
    Ok(())
}

/// Drops the blocks from the cache that nodes have lost.
fn forget_freed<V: Volume>(v: &mut V, changes: &[NodeChange]) -> Result<(), Stopped>
    requires sound { V.sound v.old }
    requires idle { (V.kept v.old).updating ≡ false }
    requires places { (b : ℕ) → IsFreed changes.now b → b < (V.seen v.old).count }
    ensures forgotten { OnOk result (Uncached (IsFreed changes.now) (V.seen v.new)) }
    ensures words { SameOutside (IsFreed changes.now) (V.seen v.old).words (V.seen v.new).words }
    ensures standing { SameOutside (IsFreed changes.now) (V.kept v.old).standing (V.kept v.new).standing }
    ensures firm { FirmOutside (IsFreed changes.now) (V.kept v.old) (V.kept v.new) }
    ensures count { (V.seen v.new).count ≡ (V.seen v.old).count }
    ensures drops { Drops (V.seen v.old) (V.seen v.new) }
    ensures idle { (V.kept v.new).updating ≡ false }
    ensures goes { Goes (V.health v.old) (V.below v.old) (V.health v.new) (V.below v.new) }
    ensures ends { Halts (V.health v.old) (V.health v.new) result }
    ensures sound { V.sound v.new }
{
    for change in changes {
        forget_blocks(v, change.freed.as_slice())?;
    }
    Ok(())
}

/// Drops blocks from the cache that are not in use.
fn forget_blocks<V: Volume>(v: &mut V, blocks: &[Block]) -> Result<(), Stopped>
    requires sound { V.sound v.old }
    requires idle { (V.kept v.old).updating ≡ false }
    requires places { (b : ℕ) → Contains (numbers blocks.now) b → b < (V.seen v.old).count }
    ensures forgotten { OnOk result (Uncached (Contains (numbers blocks.now)) (V.seen v.new)) }
    ensures words { SameOutside (Contains (numbers blocks.now)) (V.seen v.old).words (V.seen v.new).words }
    ensures standing { SameOutside (Contains (numbers blocks.now)) (V.kept v.old).standing (V.kept v.new).standing }
    ensures firm { FirmOutside (Contains (numbers blocks.now)) (V.kept v.old) (V.kept v.new) }
    ensures count { (V.seen v.new).count ≡ (V.seen v.old).count }
    ensures drops { Drops (V.seen v.old) (V.seen v.new) }
    ensures idle { (V.kept v.new).updating ≡ false }
    ensures goes { Goes (V.health v.old) (V.below v.old) (V.health v.new) (V.below v.new) }
    ensures ends { Halts (V.health v.old) (V.health v.new) result }
    ensures sound { V.sound v.new }
{
    for t in 0..blocks.len() {
        v.forget(blocks[t])?;
    }
    Ok(())
}

/// Makes prepared changes of nodes in one update, and then drops the blocks that they lost from the cache.
fn commit_changes<V: Volume>(
    v: &mut V,
    shape: &VolumeShape,
    changes: &[NodeChange],
) -> Result<(), VolFail>
    requires sound { V.sound v.old }
    requires shape { HasShape shape.now (V.seen v.old) }
    requires idle { (V.kept v.old).updating ≡ false }
    requires can { CanCommit shape.now (V.seen v.old) changes.now }
    ensures commits { Commits shape.now changes.now (V.seen v.old) (V.kept v.old) (V.seen v.new) (V.kept v.new) result }
    ensures touched { Touched shape.now changes.now (V.seen v.old) (V.seen v.new) }
    ensures forgotten { OnOk result (Uncached (IsFreed changes.now) (V.seen v.new)) }
    ensures goes { Goes (V.health v.old) (V.below v.old) (V.health v.new) (V.below v.new) }
    ensures ends { Ends (V.health v.old) (V.health v.new) result }
    ensures sound { V.sound v.new }
{
    // The update comes first. Its commit is one store, that of the gate: a crash before it leaves nothing of the changes, and a crash
    // behind it leaves all. Until then the old nodes still have the freed blocks, and a crash or a rollback needs their pages.
    // A crash between the two steps leaves all changes, and entries of blocks that no node has. The reboot does not write
    // such a page of a file or region, and any other goes to a block that is free.
    change_nodes(v, shape, changes)?;
    forget_freed(v, changes)?;
    Ok(())
}

/// Commits the changes of a request that is planned. The request ends as that does.
pub fn commit_planned<V: Volume>(
    v: &mut V,
    shape: &VolumeShape,
    changes: &[NodeChange],
) -> Result<(), FileFail>
    requires sound { V.sound v.old }
    requires planned { (x : Seen) × Planned shape.now x (V.seen v.old) (V.kept v.old) changes.now }
    ensures leaves { (reply : Reply) (x : Seen) (k : Kept) (s : State) (a : Answered) → LeadsBy reply shape.now x k (V.seen v.old) (V.kept v.old) s a changes.now → FileEnds (λ u said. said ≡ reply) shape.now x k (V.seen v.new) (V.kept v.new) s a (NoneDone s) result }
    ensures forgets { (x : Seen) → Planned shape.now x (V.seen v.old) (V.kept v.old) changes.now → OnOk result (Forgets (volume_layout shape.now x.words) (volume_layout shape.now (V.seen v.new).words) (V.seen v.new)) }
    ensures goes { Goes (V.health v.old) (V.below v.old) (V.health v.new) (V.below v.new) }
    ensures ends { EndsBy (V.health v.old) (V.health v.new) (Faulted result) (IsErrOf result FileFail.Stopped) }
    ensures sound { V.sound v.new }
{
    commit_changes(v, shape, changes)?;
    Ok(())
}
