//! A volume with nodes without bytes beside the root.

ghost use Rattle.std.specs.Prelude.{◌≡◌, ◌≤◌, ◌⊎◌, false, IfOk, OnOk};
ghost use Rattle.rio_base.specs.Layout.{inode_block, inode_place, IsIno};
ghost use Rattle.test_objects.specs.ListVolumes.{ListSound, list_kept, list_seen};
ghost use Rattle.rio_base.specs.Shapes.{HasShape};
ghost use Rattle.rio_base.specs.Volume.{Firm, put_run};
ghost use Rattle.rio_base.specs.NodeKinds.{dir_kind, file_kind};
ghost use Rattle.rio_model.specs.VolumeReady.{Ready};
ghost use Rattle.inode_table.specs.Inodes.{inode_words};
ghost use Rattle.test_objects.specs.TestVolumes.{HasNodes, IsTestShape};

use crate::ListVolume;
use crate::starting::fresh;
use inode_table::{Inode, edit_inode, inode_block};
use rio_base::{Ino, VolFail, Volume, VolumeShape};
use std::alloc::Global;
use std::test::Fail;

/// The inode of a node without bytes.
fn empty_node(kind: u8) -> Inode
    ensures kind { result.kind ≡ kind }
    ensures size { result.size ≡ 0 }
{
    Inode {
        kind,
        size: 0,
        direct: [0; 24],
        indirect: 0,
        double: 0,
    }
}

/// Stores inode `i` by an update of its own.
fn add_node<V: Volume>(v: &mut V, shape: &VolumeShape, i: Ino, inode: &Inode) -> Result<(), VolFail>
    requires sound { V.sound v.old }
    requires shape { HasShape shape.now (V.seen v.old) }
    requires idle { (V.kept v.old).updating ≡ false }
    requires ino { IsIno shape.now i.0 }
    ensures words { OnOk result ((V.seen v.new).words ≡ put_run (V.seen v.old).words (inode_block i.0) (inode_place i.0) 16 (inode_words inode.now)) }
    ensures firm { Firm (V.kept v.old) (V.kept v.new) }
    ensures shape { HasShape shape.now (V.seen v.new) }
    ensures idle { OnOk result ((V.kept v.new).updating ≡ false) }
    ensures sound { V.sound v.new }
{
    v.begin()?;
    v.touch(inode_block(shape, i))?;
    edit_inode(v, shape, i, inode)?;
    v.commit()?;
    Ok(())
}

/// Makes nodes of this kind beside the root, up to inode `last`.
fn add_nodes<V: Volume>(v: &mut V, shape: &VolumeShape, kind: u8, last: u32) -> Result<(), VolFail>
    requires sound { V.sound v.old }
    requires sizes { IsTestShape shape.now }
    requires kind { (kind ≡ dir_kind) ⊎ (kind ≡ file_kind) }
    requires from { 1 ≤ last }
    requires to { last ≤ 64 }
    requires shape { HasShape shape.now (V.seen v.old) }
    requires idle { (V.kept v.old).updating ≡ false }
    requires root { HasNodes shape.now (V.seen v.old).words kind 1 }
    ensures nodes { OnOk result (HasNodes shape.now (V.seen v.new).words kind last) }
    ensures firm { Firm (V.kept v.old) (V.kept v.new) }
    ensures shape { HasShape shape.now (V.seen v.new) }
    ensures idle { OnOk result ((V.kept v.new).updating ≡ false) }
    ensures sound { V.sound v.new }
{
    let inode = empty_node(kind);
    for i in 2..last + 1 {
        add_node(v, shape, Ino(i), &inode)?;
    }
    Ok(())
}

/// A volume with the root and nodes of one kind, from inode 2 to inode `last`, none of which has bytes: directories
/// (kind 1) or files (kind 2). It does not stop.
pub fn with_nodes(
    alloc: Global,
    shape: &VolumeShape,
    kind: u8,
    last: u32,
) -> Result<ListVolume, Fail>
    requires sizes { IsTestShape shape.now }
    requires kind { (kind ≡ dir_kind) ⊎ (kind ≡ file_kind) }
    requires from { 1 ≤ last }
    requires to { last ≤ 64 }
    ensures sound { IfOk result ListSound }
    ensures ready { IfOk result (λ v. Ready shape.now (list_seen v) (list_kept v)) }
    ensures nodes { IfOk result (λ v. HasNodes shape.now (list_seen v).words kind last) }
{
    let mut v = fresh(alloc, shape, None)?;
    add_nodes(&mut v, shape, kind, last)?;
    Ok(v)
}
