//! What stands at a path.

ghost use Rattle.std.specs.Prelude.{◌≡◌, ◌<◌, ℕ, [], ◌∷◌, length, IfOk, OnOk};
ghost use Rattle.request_ends.specs.Reading.{ReadFor, ReadsSome};
ghost use Rattle.rio_base.specs.Frames.{CanRead};
ghost use Rattle.rio_base.specs.NodeKinds.{dir_kind};
ghost use Rattle.rio_model.specs.Refusals.{refusal_number};
ghost use Rattle.rio_model.specs.declared.refusal.Refusal.TheVariants.{NotADirectory, NotFound};
ghost use Rattle.rio_model.specs.States.{last_of};
ghost use Rattle.rio_model.specs.Held.{held_of};
ghost use Rattle.rio_model.specs.Paths.{IsPath, names_of, walk as walk_of, walk_to_dir as walk_to_dir_of};
ghost use Rattle.rio_model.specs.VolumeReads.{ReadsAs};
ghost use Rattle.rio_model.specs.declared.state.State.{State};
ghost use Rattle.inode_table.specs.Inodes.{IsInode};
ghost use Rattle.directories.specs.Rows.{HasRow, IsEntry};
ghost use Rattle.request_ends.specs.Failures.{Refuses, Unrefused};
ghost use Rattle.file_tree.specs.Memos.{InStep};
ghost use Rattle.file_tree.specs.Walks.{Comes, FreeRow, IsRow, RowComes, ino_in};

use crate::finding::look_up;
use crate::memo::Memo;
use crate::paths::{cut_last, name_end};
use inode_table::{Inode, read_inode};
use request_ends::FileFail;
use rio_base::{Blocks, DIRECTORY, Ino, VolumeShape};
use rio_model::Refusal;

/// The root directory.
const ROOT: Ino = Ino(1);

/// The inode of a node, over blocks alone.
pub fn node_inode<V: Blocks>(v: &mut V, shape: &VolumeShape, i: Ino) -> Result<Inode, FileFail>
    requires can { CanRead V.seen V.sound (ReadsSome shape.now) v.old }
    requires used { 0 < (held_of shape.now (V.seen v.old).words i.0).kind }
    ensures value { IfOk result (IsInode (V.seen v.old).words i.0) }
    ensures other { Unrefused result }
    ensures read { ReadFor V.seen V.health V.sound V.passes shape.now v.old v.new result }
{
    let inode = read_inode(v, shape, i)?;
    Ok(inode)
}

/// The inode of a node.
pub fn inode_of<V: Blocks>(v: &mut V, shape: &VolumeShape, i: Ino) -> Result<Inode, FileFail>
    requires can { CanRead V.seen V.sound (ReadsSome shape.now) v.old }
    requires used { 0 < (held_of shape.now (V.seen v.old).words i.0).kind }
    ensures value { IfOk result (IsInode (V.seen v.old).words i.0) }
    ensures other { Unrefused result }
    ensures read { ReadFor V.seen V.health V.sound V.passes shape.now v.old v.new result }
{
    node_inode(v, shape, i)
}

/// The inode of a directory. Refuses a node that is none.
fn must_be_dir<V: Blocks>(v: &mut V, shape: &VolumeShape, i: Ino) -> Result<Inode, FileFail>
    requires can { CanRead V.seen V.sound (ReadsSome shape.now) v.old }
    requires used { 0 < (held_of shape.now (V.seen v.old).words i.0).kind }
    ensures ok { OnOk result ((held_of shape.now (V.seen v.old).words i.0).kind ≡ dir_kind) }
    ensures inode { IfOk result (IsInode (V.seen v.old).words i.0) }
    ensures refused { Refuses result (refusal_number NotADirectory) ((held_of shape.now (V.seen v.old).words i.0).kind ≡ dir_kind → ⊥) }
    ensures read { ReadFor V.seen V.health V.sound V.passes shape.now v.old v.new result }
{
    let inode = read_inode(v, shape, i)?;
    if inode.kind != DIRECTORY {
        return Err(FileFail::Refused(Refusal::NotADirectory as u8));
    }
    Ok(inode)
}

/// What a name of a directory, which has this inode, names, and the slot of its row.
fn row_of<V: Blocks>(
    v: &mut V,
    shape: &VolumeShape,
    memo: &mut Memo,
    dir: Ino,
    inode: &Inode,
    name: &[u8],
) -> Result<(Ino, u32), FileFail>
    requires can { CanRead V.seen V.sound (ReadsSome shape.now) v.old }
    requires in_step { InStep shape.now (V.seen v.old).words memo.old }
    requires dir { (held_of shape.now (V.seen v.old).words dir.0).kind ≡ dir_kind }
    requires inode { IsInode (V.seen v.old).words dir.0 inode.now }
    ensures row { IfOk result (λ row. IsEntry (held_of shape.now (V.seen v.old).words dir.0) row.1 name.now row.0.0) }
    ensures refused { Refuses result (refusal_number NotFound) ((n : ℕ) → HasRow (held_of shape.now (V.seen v.old).words dir.0) name.now n → ⊥) }
    ensures in_step { InStep shape.now (V.seen v.old).words memo.new }
    ensures read { ReadFor V.seen V.health V.sound V.passes shape.now v.old v.new result }
{
    match look_up(v, shape, memo, dir, inode, name)? {
        Some(row) => Ok(row),
        None => Err(FileFail::Refused(Refusal::NotFound as u8)),
    }
}

/// The step from a node by a name.
fn step<V: Blocks>(
    v: &mut V,
    shape: &VolumeShape,
    memo: &mut Memo,
    dir: Ino,
    name: &[u8],
) -> Result<Ino, FileFail>
    requires can { CanRead V.seen V.sound (ReadsSome shape.now) v.old }
    requires in_step { InStep shape.now (V.seen v.old).words memo.old }
    requires used { 0 < (held_of shape.now (V.seen v.old).words dir.0).kind }
    ensures value { (s : State) → ReadsAs shape.now (V.seen v.old).words s → Comes (walk_of s dir.0 (name.now ∷ [])) result }
    ensures used { IfOk result (λ i. 0 < (held_of shape.now (V.seen v.old).words i.0).kind) }
    ensures in_step { InStep shape.now (V.seen v.old).words memo.new }
    ensures read { ReadFor V.seen V.health V.sound V.passes shape.now v.old v.new result }
{
    let inode = must_be_dir(v, shape, dir)?;
    let (i, _) = row_of(v, shape, memo, dir, &inode, name)?;
    Ok(i)
}

/// The node at a path, name by name.
fn walk_names<V: Blocks>(
    v: &mut V,
    shape: &VolumeShape,
    memo: &mut Memo,
    path: &[u8],
) -> Result<Ino, FileFail>
    requires can { CanRead V.seen V.sound (ReadsSome shape.now) v.old }
    requires in_step { InStep shape.now (V.seen v.old).words memo.old }
    ensures value { (s : State) → ReadsAs shape.now (V.seen v.old).words s → Comes (walk_of s 1 (names_of path.now)) result }
    ensures used { IfOk result (λ i. 0 < (held_of shape.now (V.seen v.old).words i.0).kind) }
    ensures in_step { InStep shape.now (V.seen v.old).words memo.new }
    ensures read { ReadFor V.seen V.health V.sound V.passes shape.now v.old v.new result }
{
    let mut i = ROOT;
    let mut at = 1;
    while at < path.len() {
        let end = name_end(path, at);
        i = step(v, shape, memo, i, &path[at..end])?;
        at = end + 1;
    }
    Ok(i)
}

/// The node at a path. No bytes are the root's path too. Where it is the path that was walked last, no block is read.
pub fn walk<V: Blocks>(
    v: &mut V,
    shape: &VolumeShape,
    memo: &mut Memo,
    path: &[u8],
) -> Result<Ino, FileFail>
    requires can { CanRead V.seen V.sound (ReadsSome shape.now) v.old }
    requires in_step { InStep shape.now (V.seen v.old).words memo.old }
    ensures value { (s : State) → ReadsAs shape.now (V.seen v.old).words s → Comes (walk_of s 1 (names_of path.now)) result }
    ensures used { IfOk result (λ i. 0 < (held_of shape.now (V.seen v.old).words i.0).kind) }
    ensures in_step { InStep shape.now (V.seen v.old).words memo.new }
    ensures read { ReadFor V.seen V.health V.sound V.passes shape.now v.old v.new result }
{
    if let Some(i) = memo.path.find(path) {
        return Ok(i);
    }
    let i = walk_names(v, shape, memo, path)?;
    memo.path.keep(path, i);
    Ok(i)
}

/// The directory at a path, and its inode.
fn dir_at<V: Blocks>(
    v: &mut V,
    shape: &VolumeShape,
    memo: &mut Memo,
    path: &[u8],
) -> Result<(Ino, Inode), FileFail>
    requires can { CanRead V.seen V.sound (ReadsSome shape.now) v.old }
    requires in_step { InStep shape.now (V.seen v.old).words memo.old }
    ensures value { (s : State) → ReadsAs shape.now (V.seen v.old).words s → Comes (walk_to_dir_of s (names_of path.now)) (ino_in result) }
    ensures dir { IfOk result (λ at. (held_of shape.now (V.seen v.old).words at.0.0).kind ≡ dir_kind) }
    ensures inode { IfOk result (λ at. IsInode (V.seen v.old).words at.0.0 at.1) }
    ensures in_step { InStep shape.now (V.seen v.old).words memo.new }
    ensures read { ReadFor V.seen V.health V.sound V.passes shape.now v.old v.new result }
{
    let dir = walk(v, shape, memo, path)?;
    let inode = must_be_dir(v, shape, dir)?;
    Ok((dir, inode))
}

/// The directory at a path.
pub fn walk_to_dir<V: Blocks>(
    v: &mut V,
    shape: &VolumeShape,
    memo: &mut Memo,
    path: &[u8],
) -> Result<Ino, FileFail>
    requires can { CanRead V.seen V.sound (ReadsSome shape.now) v.old }
    requires in_step { InStep shape.now (V.seen v.old).words memo.old }
    ensures value { (s : State) → ReadsAs shape.now (V.seen v.old).words s → Comes (walk_to_dir_of s (names_of path.now)) result }
    ensures dir { IfOk result (λ i. (held_of shape.now (V.seen v.old).words i.0).kind ≡ dir_kind) }
    ensures in_step { InStep shape.now (V.seen v.old).words memo.new }
    ensures read { ReadFor V.seen V.health V.sound V.passes shape.now v.old v.new result }
{
    let (dir, _) = dir_at(v, shape, memo, path)?;
    Ok(dir)
}

/// The directory at a path, which must not have this name.
pub fn dir_without<V: Blocks>(
    v: &mut V,
    shape: &VolumeShape,
    memo: &mut Memo,
    path: &[u8],
    name: &[u8],
) -> Result<Ino, FileFail>
    requires can { CanRead V.seen V.sound (ReadsSome shape.now) v.old }
    requires in_step { InStep shape.now (V.seen v.old).words memo.old }
    ensures value { (s : State) → ReadsAs shape.now (V.seen v.old).words s → FreeRow s (names_of path.now) name.now result }
    ensures dir { IfOk result (λ i. (held_of shape.now (V.seen v.old).words i.0).kind ≡ dir_kind) }
    ensures absent { IfOk result (λ i. (n : ℕ) → HasRow (held_of shape.now (V.seen v.old).words i.0) name.now n → ⊥) }
    ensures in_step { InStep shape.now (V.seen v.old).words memo.new }
    ensures read { ReadFor V.seen V.health V.sound V.passes shape.now v.old v.new result }
{
    let (dir, inode) = dir_at(v, shape, memo, path)?;
    if look_up(v, shape, memo, dir, &inode, name)?.is_some() {
        return Err(FileFail::Refused(Refusal::Exists as u8));
    }
    Ok(dir)
}

/// A row: its directory and slot, and the node that it names.
#[derive(Clone, Copy, Debug)]
pub struct Row {
    /// The directory.
    pub dir: Ino,
    /// The slot of its entry there.
    pub slot: u32,
    /// The node that it names.
    pub ino: Ino,
}

/// The row of the last name of a path, which has one name or more.
pub fn walk_to_row<V: Blocks>(
    v: &mut V,
    shape: &VolumeShape,
    memo: &mut Memo,
    path: &[u8],
) -> Result<Row, FileFail>
    requires can { CanRead V.seen V.sound (ReadsSome shape.now) v.old }
    requires in_step { InStep shape.now (V.seen v.old).words memo.old }
    requires path { IsPath path.now }
    requires some { 0 < length (names_of path.now) }
    ensures value { (s : State) → ReadsAs shape.now (V.seen v.old).words s → RowComes s (names_of path.now) result }
    ensures row { IfOk result (IsRow shape.now (V.seen v.old).words (last_of (names_of path.now))) }
    ensures used { IfOk result (λ row. 0 < (held_of shape.now (V.seen v.old).words row.ino.0).kind) }
    ensures in_step { InStep shape.now (V.seen v.old).words memo.new }
    ensures read { ReadFor V.seen V.health V.sound V.passes shape.now v.old v.new result }
{
    let (front, name) = cut_last(path);
    let (dir, inode) = dir_at(v, shape, memo, front)?;
    let (ino, slot) = row_of(v, shape, memo, dir, &inode, name)?;
    Ok(Row { dir, slot, ino })
}
