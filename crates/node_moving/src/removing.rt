//! Files, regions and empty directories removed.

ghost use Rattle.std.specs.Prelude.{◌≡◌, ◌<◌, ◌==◌, ◌&&◌, ℕ, List, IsErrOf, OnOk};
ghost use Rattle.rio_base.specs.Blocks.{EndsBy};
ghost use Rattle.rio_base.specs.Volume.{Goes};
ghost use Rattle.rio_base.specs.NodeKinds.{dir_kind, region_kind};
ghost use Rattle.rio_requests.specs.Answer.{answered};
ghost use Rattle.rio_model.specs.Held.{held_of};
ghost use Rattle.rio_model.specs.VolumeReads.{ReadsAs};
ghost use Rattle.rio_requests.specs.declared.reply.Reply.TheVariants.{Ok as Done};
ghost use Rattle.rio_model.specs.declared.state.State.{State};
ghost use Rattle.rio_requests.specs.Answers.{without, unlink as unlink_of, rmdir as rmdir_of, is_among as is_among_of};
ghost use Rattle.rio_requests.specs.Parts.{NoneDone};
ghost use Rattle.rio_model.specs.Paths.{IsPath};
ghost use Rattle.rio_model.specs.Placed.{volume_layout};
ghost use Rattle.node_pages.specs.Staging.{Forgets};
ghost use Rattle.request_ends.specs.Ends.{CanServe, FileEnds, SaysDone};
ghost use Rattle.request_ends.specs.Failures.{Faulted};
ghost use Rattle.file_tree.specs.Memos.{InStep};
ghost use Rattle.file_tree.specs.Walks.{IsRow, ino_numbers};

use directories::plan_remove;
use file_tree::{Memo, Row, cut_last, is_root, node_inode, walk_to_row};
use inode_table::Inode;
use node_pages::blocks_of;
use node_updates::{NodeChange, commit_planned, node_gone};
use request_ends::FileFail;
use rio_base::{DIRECTORY, Ino, InoList, REGION, Volume, VolumeShape};
use rio_model::Refusal;
use std::alloc::Global;

/// Whether an inode is one of these.
fn is_among(busy: &[Ino], i: Ino) -> bool
    ensures is { result ≡ is_among_of (ino_numbers busy.now) i.0 }
{
    for t in 0..busy.len() {
        if busy[t].0 == i.0 {
            return true;
        }
    }
    false
}

/// Whether a node, which has this inode, is a region with an open transaction.
pub fn is_open(busy: &InoList, i: Ino, inode: &Inode) -> bool
    ensures { result ≡ ((inode.now.kind == region_kind) && is_among_of (ino_numbers busy.now) i.0) }
{
    inode.kind == REGION && is_among(busy.as_slice(), i)
}

/// Removes a row and its node, which has no names, in one update.
fn remove_row<V: Volume>(
    alloc: Global,
    v: &mut V,
    shape: &VolumeShape,
    row: Row,
) -> Result<(), FileFail>
    requires sound { V.sound v.old }
    requires can { CanServe shape.now (V.seen v.old) (V.kept v.old) }
    requires row { (name : List ℕ) × IsRow shape.now (V.seen v.old).words name row }
    requires used { 0 < (held_of shape.now (V.seen v.old).words row.ino.0).kind }
    requires bare { (held_of shape.now (V.seen v.old).words row.ino.0).kind ≡ dir_kind → (held_of shape.now (V.seen v.old).words row.ino.0).size ≡ 0 }
    ensures leaves { (s : State) (name : List ℕ) → ReadsAs shape.now (V.seen v.old).words s → IsRow shape.now (V.seen v.old).words name row → FileEnds SaysDone shape.now (V.seen v.old) (V.kept v.old) (V.seen v.new) (V.kept v.new) s (answered (without s row.dir.0 name row.ino.0) Done) (NoneDone s) result }
    ensures forgets { OnOk result (Forgets (volume_layout shape.now (V.seen v.old).words) (volume_layout shape.now (V.seen v.new).words) (V.seen v.new)) }
    ensures goes { Goes (V.health v.old) (V.below v.old) (V.health v.new) (V.below v.new) }
    ensures ends { EndsBy (V.health v.old) (V.health v.new) (Faulted result) (IsErrOf result FileFail.Stopped) }
    ensures sound { V.sound v.new }
{
    let goes = plan_remove(alloc, v, shape, row.dir, row.slot)?;
    let freed = blocks_of(alloc, v, shape, row.ino)?;
    let changes = [NodeChange::from(goes), node_gone(alloc, row.ino, freed)];
    commit_planned(v, shape, &changes)
}

/// Removes the row of a name and its node, and tells so.
fn take_row<V: Volume>(
    alloc: Global,
    v: &mut V,
    shape: &VolumeShape,
    memo: &mut Memo,
    row: Row,
    name: &[u8],
) -> Result<(), FileFail>
    requires sound { V.sound v.old }
    requires can { CanServe shape.now (V.seen v.old) (V.kept v.old) }
    requires in_step { InStep shape.now (V.seen v.old).words memo.old }
    requires row { IsRow shape.now (V.seen v.old).words name.now row }
    requires used { 0 < (held_of shape.now (V.seen v.old).words row.ino.0).kind }
    requires bare { (held_of shape.now (V.seen v.old).words row.ino.0).kind ≡ dir_kind → (held_of shape.now (V.seen v.old).words row.ino.0).size ≡ 0 }
    ensures leaves { (s : State) → ReadsAs shape.now (V.seen v.old).words s → FileEnds SaysDone shape.now (V.seen v.old) (V.kept v.old) (V.seen v.new) (V.kept v.new) s (answered (without s row.dir.0 name.now row.ino.0) Done) (NoneDone s) result }
    ensures in_step { (IsErrOf result FileFail.Stopped → ⊥) → InStep shape.now (V.seen v.new).words memo.new }
    ensures forgets { OnOk result (Forgets (volume_layout shape.now (V.seen v.old).words) (volume_layout shape.now (V.seen v.new).words) (V.seen v.new)) }
    ensures goes { Goes (V.health v.old) (V.below v.old) (V.health v.new) (V.below v.new) }
    ensures ends { EndsBy (V.health v.old) (V.health v.new) (Faulted result) (IsErrOf result FileFail.Stopped) }
    ensures sound { V.sound v.new }
{
    let done = remove_row(alloc, v, shape, row);
    if done.is_err() {
        return done;
    }
    memo.gone(row.dir, name, row.ino);
    done
}

/// Removes a file or a region.
pub fn unlink<V: Volume>(
    alloc: Global,
    v: &mut V,
    shape: &VolumeShape,
    memo: &mut Memo,
    path: &[u8],
    busy: &InoList,
) -> Result<(), FileFail>
    requires sound { V.sound v.old }
    requires can { CanServe shape.now (V.seen v.old) (V.kept v.old) }
    requires in_step { InStep shape.now (V.seen v.old).words memo.old }
    requires path { IsPath path.now }
    ensures leaves { (s : State) → ReadsAs shape.now (V.seen v.old).words s → FileEnds SaysDone shape.now (V.seen v.old) (V.kept v.old) (V.seen v.new) (V.kept v.new) s (unlink_of s path.now (ino_numbers busy.now)) (NoneDone s) result }
    ensures in_step { (IsErrOf result FileFail.Stopped → ⊥) → InStep shape.now (V.seen v.new).words memo.new }
    ensures forgets { OnOk result (Forgets (volume_layout shape.now (V.seen v.old).words) (volume_layout shape.now (V.seen v.new).words) (V.seen v.new)) }
    ensures goes { Goes (V.health v.old) (V.below v.old) (V.health v.new) (V.below v.new) }
    ensures ends { EndsBy (V.health v.old) (V.health v.new) (Faulted result) (IsErrOf result FileFail.Stopped) }
    ensures sound { V.sound v.new }
{
    if is_root(path) {
        return Err(FileFail::Refused(Refusal::IsRoot as u8));
    }
    let row = walk_to_row(v, shape, memo, path)?;
    let inode = node_inode(v, shape, row.ino)?;
    if inode.kind == DIRECTORY {
        return Err(FileFail::Refused(Refusal::IsADirectory as u8));
    }
    if is_open(busy, row.ino, &inode) {
        return Err(FileFail::Refused(Refusal::Busy as u8));
    }
    let (_, name) = cut_last(path);
    take_row(alloc, v, shape, memo, row, name)
}

/// Removes a directory without names.
pub fn rmdir<V: Volume>(
    alloc: Global,
    v: &mut V,
    shape: &VolumeShape,
    memo: &mut Memo,
    path: &[u8],
) -> Result<(), FileFail>
    requires sound { V.sound v.old }
    requires can { CanServe shape.now (V.seen v.old) (V.kept v.old) }
    requires in_step { InStep shape.now (V.seen v.old).words memo.old }
    requires path { IsPath path.now }
    ensures leaves { (s : State) → ReadsAs shape.now (V.seen v.old).words s → FileEnds SaysDone shape.now (V.seen v.old) (V.kept v.old) (V.seen v.new) (V.kept v.new) s (rmdir_of s path.now) (NoneDone s) result }
    ensures in_step { (IsErrOf result FileFail.Stopped → ⊥) → InStep shape.now (V.seen v.new).words memo.new }
    ensures forgets { OnOk result (Forgets (volume_layout shape.now (V.seen v.old).words) (volume_layout shape.now (V.seen v.new).words) (V.seen v.new)) }
    ensures goes { Goes (V.health v.old) (V.below v.old) (V.health v.new) (V.below v.new) }
    ensures ends { EndsBy (V.health v.old) (V.health v.new) (Faulted result) (IsErrOf result FileFail.Stopped) }
    ensures sound { V.sound v.new }
{
    if is_root(path) {
        return Err(FileFail::Refused(Refusal::IsRoot as u8));
    }
    let row = walk_to_row(v, shape, memo, path)?;
    let inode = node_inode(v, shape, row.ino)?;
    if inode.kind != DIRECTORY {
        return Err(FileFail::Refused(Refusal::NotADirectory as u8));
    }
    if inode.size != 0 {
        return Err(FileFail::Refused(Refusal::NotEmpty as u8));
    }
    let (_, name) = cut_last(path);
    take_row(alloc, v, shape, memo, row, name)
}
