//! Directories and files made.

ghost use Rattle.std.specs.Prelude.{◌≡◌, ◌⊎◌, ℕ, Some, IsErrOf, OnOk};
ghost use Rattle.rio_base.specs.Blocks.{EndsBy};
ghost use Rattle.rio_base.specs.Layout.{IsIno};
ghost use Rattle.rio_base.specs.Volume.{Goes};
ghost use Rattle.rio_base.specs.NodeKinds.{free_kind, dir_kind, file_kind};
ghost use Rattle.rio_model.specs.Held.{held_of};
ghost use Rattle.rio_model.specs.Paths.{IsName, IsPath, names_of};
ghost use Rattle.rio_model.specs.VolumeReads.{ReadsAs};
ghost use Rattle.rio_model.specs.declared.state.State.{State};
ghost use Rattle.directories.specs.Rows.{HasRow};
ghost use Rattle.rio_requests.specs.Answers.{empty_node, mkdir as mkdir_of, create as create_of, make as make_of, make_new as make_new_of};
ghost use Rattle.rio_requests.specs.Parts.{NoneDone};
ghost use Rattle.rio_model.specs.Placed.{volume_layout};
ghost use Rattle.node_pages.specs.Staging.{Forgets};
ghost use Rattle.request_ends.specs.Ends.{CanServe, FileEnds, SaysIno, SaysNumber};
ghost use Rattle.request_ends.specs.Failures.{Faulted};
ghost use Rattle.file_tree.specs.Memos.{InStep};

use crate::new_nodes::{NewNode, make_new};
use directories::plan_add;
use file_tree::{Memo, cut_last, dir_without, is_root};
use node_updates::{NodeChange, commit_planned, node_made};
use request_ends::FileFail;
use rio_base::{DIRECTORY, FILE, Ino, Volume, VolumeShape};
use rio_model::Refusal;
use std::alloc::Global;

/// Makes a node without bytes, in inode `i`, and its row in one update.
pub fn make_row<V: Volume>(
    alloc: Global,
    v: &mut V,
    shape: &VolumeShape,
    dir: Ino,
    name: &[u8],
    i: Ino,
    kind: u8,
) -> Result<(), FileFail>
    requires sound { V.sound v.old }
    requires can { CanServe shape.now (V.seen v.old) (V.kept v.old) }
    requires dir { (held_of shape.now (V.seen v.old).words dir.0).kind ≡ dir_kind }
    requires is_name { IsName name.now }
    requires absent { (n : ℕ) → HasRow (held_of shape.now (V.seen v.old).words dir.0) name.now n → ⊥ }
    requires ino { IsIno shape.now i.0 }
    requires free { (held_of shape.now (V.seen v.old).words i.0).kind ≡ free_kind }
    requires kind { (kind ≡ dir_kind) ⊎ (kind ≡ file_kind) }
    ensures leaves { (s : State) → ReadsAs shape.now (V.seen v.old).words s → FileEnds (SaysNumber i.0) shape.now (V.seen v.old) (V.kept v.old) (V.seen v.new) (V.kept v.new) s (make_new_of s dir.0 name.now (empty_node kind) (Some i.0)) (NoneDone s) result }
    ensures forgets { OnOk result (Forgets (volume_layout shape.now (V.seen v.old).words) (volume_layout shape.now (V.seen v.new).words) (V.seen v.new)) }
    ensures goes { Goes (V.health v.old) (V.below v.old) (V.health v.new) (V.below v.new) }
    ensures ends { EndsBy (V.health v.old) (V.health v.new) (Faulted result) (IsErrOf result FileFail.Stopped) }
    ensures sound { V.sound v.new }
{
    let row = plan_add(alloc, v, shape, dir, name, i)?;
    let changes = [NodeChange::from(row), node_made(alloc, i, kind)];
    commit_planned(v, shape, &changes)
}

/// Makes a node without bytes at a path.
fn make<V: Volume>(
    alloc: Global,
    v: &mut V,
    shape: &VolumeShape,
    memo: &mut Memo,
    path: &[u8],
    kind: u8,
) -> Result<Ino, FileFail>
    requires sound { V.sound v.old }
    requires can { CanServe shape.now (V.seen v.old) (V.kept v.old) }
    requires in_step { InStep shape.now (V.seen v.old).words memo.old }
    requires path { IsPath path.now }
    requires kind { (kind ≡ dir_kind) ⊎ (kind ≡ file_kind) }
    ensures leaves { (s : State) → ReadsAs shape.now (V.seen v.old).words s → FileEnds SaysIno shape.now (V.seen v.old) (V.kept v.old) (V.seen v.new) (V.kept v.new) s (make_of s (names_of path.now) (empty_node kind)) (NoneDone s) result }
    ensures in_step { (IsErrOf result FileFail.Stopped → ⊥) → InStep shape.now (V.seen v.new).words memo.new }
    ensures forgets { OnOk result (Forgets (volume_layout shape.now (V.seen v.old).words) (volume_layout shape.now (V.seen v.new).words) (V.seen v.new)) }
    ensures goes { Goes (V.health v.old) (V.below v.old) (V.health v.new) (V.below v.new) }
    ensures ends { EndsBy (V.health v.old) (V.health v.new) (Faulted result) (IsErrOf result FileFail.Stopped) }
    ensures sound { V.sound v.new }
{
    if is_root(path) {
        return Err(FileFail::Refused(Refusal::Exists as u8));
    }
    let (front, name) = cut_last(path);
    let dir = dir_without(v, shape, memo, front, name)?;
    make_new(alloc, v, shape, memo, dir, name, NewNode::Bare(kind))
}

/// Makes a directory without names.
pub fn mkdir<V: Volume>(
    alloc: Global,
    v: &mut V,
    shape: &VolumeShape,
    memo: &mut Memo,
    path: &[u8],
) -> Result<Ino, FileFail>
    requires sound { V.sound v.old }
    requires can { CanServe shape.now (V.seen v.old) (V.kept v.old) }
    requires in_step { InStep shape.now (V.seen v.old).words memo.old }
    requires path { IsPath path.now }
    ensures leaves { (s : State) → ReadsAs shape.now (V.seen v.old).words s → FileEnds SaysIno shape.now (V.seen v.old) (V.kept v.old) (V.seen v.new) (V.kept v.new) s (mkdir_of s path.now) (NoneDone s) result }
    ensures in_step { (IsErrOf result FileFail.Stopped → ⊥) → InStep shape.now (V.seen v.new).words memo.new }
    ensures forgets { OnOk result (Forgets (volume_layout shape.now (V.seen v.old).words) (volume_layout shape.now (V.seen v.new).words) (V.seen v.new)) }
    ensures goes { Goes (V.health v.old) (V.below v.old) (V.health v.new) (V.below v.new) }
    ensures ends { EndsBy (V.health v.old) (V.health v.new) (Faulted result) (IsErrOf result FileFail.Stopped) }
    ensures sound { V.sound v.new }
{
    make(alloc, v, shape, memo, path, DIRECTORY)
}

/// Makes a file without bytes.
pub fn create<V: Volume>(
    alloc: Global,
    v: &mut V,
    shape: &VolumeShape,
    memo: &mut Memo,
    path: &[u8],
) -> Result<Ino, FileFail>
    requires sound { V.sound v.old }
    requires can { CanServe shape.now (V.seen v.old) (V.kept v.old) }
    requires in_step { InStep shape.now (V.seen v.old).words memo.old }
    requires path { IsPath path.now }
    ensures leaves { (s : State) → ReadsAs shape.now (V.seen v.old).words s → FileEnds SaysIno shape.now (V.seen v.old) (V.kept v.old) (V.seen v.new) (V.kept v.new) s (create_of s path.now) (NoneDone s) result }
    ensures in_step { (IsErrOf result FileFail.Stopped → ⊥) → InStep shape.now (V.seen v.new).words memo.new }
    ensures forgets { OnOk result (Forgets (volume_layout shape.now (V.seen v.old).words) (volume_layout shape.now (V.seen v.new).words) (V.seen v.new)) }
    ensures goes { Goes (V.health v.old) (V.below v.old) (V.health v.new) (V.below v.new) }
    ensures ends { EndsBy (V.health v.old) (V.health v.new) (Faulted result) (IsErrOf result FileFail.Stopped) }
    ensures sound { V.sound v.new }
{
    make(alloc, v, shape, memo, path, FILE)
}
