//! A node made under a name that a directory has not, in the least free inode.

ghost use Rattle.std.specs.Prelude.{◌≡◌, ℕ, Some, IsErrOf, OnOk};
ghost use Rattle.rio_base.specs.Blocks.{EndsBy};
ghost use Rattle.rio_base.specs.Layout.{IsIno, inode_kind};
ghost use Rattle.rio_base.specs.Volume.{Goes};
ghost use Rattle.rio_base.specs.NodeKinds.{dir_kind};
ghost use Rattle.rio_model.specs.States.{least_free};
ghost use Rattle.rio_model.specs.Held.{held_of};
ghost use Rattle.rio_model.specs.Paths.{IsName};
ghost use Rattle.rio_model.specs.VolumeReads.{ReadsAs};
ghost use Rattle.rio_model.specs.declared.state.State.{State};
ghost use Rattle.directories.specs.Rows.{HasRow};
ghost use Rattle.rio_requests.specs.Answers.{make_new as make_new_of};
ghost use Rattle.rio_requests.specs.Parts.{NoneDone};
ghost use Rattle.rio_model.specs.Placed.{volume_layout};
ghost use Rattle.node_pages.specs.Staging.{Forgets};
ghost use Rattle.request_ends.specs.Ends.{CanServe, FileEnds, SaysIno, SaysNumber};
ghost use Rattle.request_ends.specs.Failures.{Faulted};
ghost use Rattle.file_tree.specs.Memos.{InStep};
ghost use Rattle.node_making.specs.NewNodes.{FitsNode, node_made};

use crate::making::make_row;
use crate::regions::{RegionSizes, make_region_row};
use file_tree::Memo;
use inode_table::least_free_past_full;
use request_ends::FileFail;
use rio_base::{Ino, Volume, VolumeShape};
use rio_model::Refusal;
use std::alloc::Global;

/// What a new node is to be.
#[derive(Clone, Copy, Debug)]
pub enum NewNode {
    /// A node of this kind without bytes: a directory or a file.
    Bare(u8),
    /// A region of these sizes.
    Sized(RegionSizes),
}

/// Makes a node in inode `i`, and its row, in one update.
fn make_node<V: Volume>(
    alloc: Global,
    v: &mut V,
    shape: &VolumeShape,
    dir: Ino,
    name: &[u8],
    i: Ino,
    node: NewNode,
) -> Result<(), FileFail>
    requires sound { V.sound v.old }
    requires can { CanServe shape.now (V.seen v.old) (V.kept v.old) }
    requires dir { (held_of shape.now (V.seen v.old).words dir.0).kind ≡ dir_kind }
    requires is_name { IsName name.now }
    requires absent { (n : ℕ) → HasRow (held_of shape.now (V.seen v.old).words dir.0) name.now n → ⊥ }
    requires ino { IsIno shape.now i.0 }
    requires free { inode_kind (V.seen v.old).words i.0 ≡ 0 }
    requires node { FitsNode node }
    ensures leaves { (s : State) → ReadsAs shape.now (V.seen v.old).words s → FileEnds (SaysNumber i.0) shape.now (V.seen v.old) (V.kept v.old) (V.seen v.new) (V.kept v.new) s (make_new_of s dir.0 name.now (node_made node) (Some i.0)) (NoneDone s) result }
    ensures forgets { OnOk result (Forgets (volume_layout shape.now (V.seen v.old).words) (volume_layout shape.now (V.seen v.new).words) (V.seen v.new)) }
    ensures goes { Goes (V.health v.old) (V.below v.old) (V.health v.new) (V.below v.new) }
    ensures ends { EndsBy (V.health v.old) (V.health v.new) (Faulted result) (IsErrOf result FileFail.Stopped) }
    ensures sound { V.sound v.new }
{
    match node {
        NewNode::Bare(kind) => make_row(alloc, v, shape, dir, name, i, kind),
        NewNode::Sized(sizes) => make_region_row(alloc, v, shape, dir, name, i, sizes),
    }
}

/// Makes a node under a name that a directory has not, in the least free inode.
pub fn make_new<V: Volume>(
    alloc: Global,
    v: &mut V,
    shape: &VolumeShape,
    memo: &mut Memo,
    dir: Ino,
    name: &[u8],
    node: NewNode,
) -> Result<Ino, FileFail>
    requires sound { V.sound v.old }
    requires can { CanServe shape.now (V.seen v.old) (V.kept v.old) }
    requires in_step { InStep shape.now (V.seen v.old).words memo.old }
    requires dir { (held_of shape.now (V.seen v.old).words dir.0).kind ≡ dir_kind }
    requires is_name { IsName name.now }
    requires absent { (n : ℕ) → HasRow (held_of shape.now (V.seen v.old).words dir.0) name.now n → ⊥ }
    requires node { FitsNode node }
    ensures leaves { (s : State) → ReadsAs shape.now (V.seen v.old).words s → FileEnds SaysIno shape.now (V.seen v.old) (V.kept v.old) (V.seen v.new) (V.kept v.new) s (make_new_of s dir.0 name.now (node_made node) (least_free s)) (NoneDone s) result }
    ensures in_step { (IsErrOf result FileFail.Stopped → ⊥) → InStep shape.now (V.seen v.new).words memo.new }
    ensures forgets { OnOk result (Forgets (volume_layout shape.now (V.seen v.old).words) (volume_layout shape.now (V.seen v.new).words) (V.seen v.new)) }
    ensures goes { Goes (V.health v.old) (V.below v.old) (V.health v.new) (V.below v.new) }
    ensures ends { EndsBy (V.health v.old) (V.health v.new) (Faulted result) (IsErrOf result FileFail.Stopped) }
    ensures sound { V.sound v.new }
{
    let Some(i) = least_free_past_full(v, shape, &mut memo.full)? else {
        return Err(FileFail::Refused(Refusal::NoInode as u8));
    };
    make_node(alloc, v, shape, dir, name, i, node)?;
    memo.made(dir, name, i);
    Ok(i)
}
