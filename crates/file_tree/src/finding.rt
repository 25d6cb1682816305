//! Names of directories looked up: in memory, where they are held there.

ghost use Rattle.std.specs.Prelude.{◌≡◌, true, IfOk, IfSome};
ghost use Rattle.std.specs.FinMap.{empty};
ghost use Rattle.request_ends.specs.Reading.{ReadFor, ReadsSome};
ghost use Rattle.rio_base.specs.Frames.{CanRead};
ghost use Rattle.rio_base.specs.NodeKinds.{dir_kind};
ghost use Rattle.rio_model.specs.Held.{held_of};
ghost use Rattle.inode_table.specs.Inodes.{IsInode};
ghost use Rattle.directories.specs.Rows.{Finds, HoldsRows, IsEntry};
ghost use Rattle.request_ends.specs.Failures.{Unrefused};
ghost use Rattle.file_tree.specs.Memos.{InStep};

use crate::memo::Memo;
use crate::walking::inode_of;
use directories::{find_at_inode, hold_names, row_at};
use inode_table::Inode;
use name_index::{DirNames, Lookup};
use request_ends::FileFail;
use rio_base::{Blocks, Ino, ReadFail, VolumeShape};

/// The bytes of the largest directory that is looked through all the same: one page.
const SMALL_BYTES: u64 = 4096;

/// Looks through a directory, which has this inode.
fn scan<V: Blocks>(
    v: &mut V,
    shape: &VolumeShape,
    dir: Ino,
    inode: &Inode,
    name: &[u8],
) -> Result<Option<(Ino, u32)>, FileFail>
    requires can { CanRead V.seen V.sound (ReadsSome shape.now) v.old }
    requires dir { (held_of shape.now (V.seen v.old).words dir.0).kind ≡ dir_kind }
    requires inode { IsInode (V.seen v.old).words dir.0 inode.now }
    ensures found { IfOk result (Finds (held_of shape.now (V.seen v.old).words dir.0) name.now) }
    ensures other { Unrefused result }
    ensures read { ReadFor V.seen V.health V.sound V.passes shape.now v.old v.new result }
{
    let found = find_at_inode(v, shape, dir, inode, name)?;
    Ok(found)
}

/// What the entry in a slot of a directory names, where it has this name.
fn entry_at<V: Blocks>(
    v: &mut V,
    shape: &VolumeShape,
    dir: Ino,
    inode: &Inode,
    slot: u32,
    name: &[u8],
) -> Result<Option<Ino>, FileFail>
    requires can { CanRead V.seen V.sound (ReadsSome shape.now) v.old }
    requires dir { (held_of shape.now (V.seen v.old).words dir.0).kind ≡ dir_kind }
    requires inode { IsInode (V.seen v.old).words dir.0 inode.now }
    ensures found { IfOk result (λ found. IfSome found (λ i. IsEntry (held_of shape.now (V.seen v.old).words dir.0) slot name.now i.0)) }
    ensures other { Unrefused result }
    ensures read { ReadFor V.seen V.health V.sound V.passes shape.now v.old v.new result }
{
    let found = row_at(v, shape, dir, inode, slot, name)?;
    Ok(found)
}

/// The row of a name, which is looked for in this slot first.
fn row_near<V: Blocks>(
    v: &mut V,
    shape: &VolumeShape,
    dir: Ino,
    inode: &Inode,
    slot: u32,
    name: &[u8],
) -> Result<Option<(Ino, u32)>, FileFail>
    requires can { CanRead V.seen V.sound (ReadsSome shape.now) v.old }
    requires dir { (held_of shape.now (V.seen v.old).words dir.0).kind ≡ dir_kind }
    requires inode { IsInode (V.seen v.old).words dir.0 inode.now }
    ensures found { IfOk result (Finds (held_of shape.now (V.seen v.old).words dir.0) name.now) }
    ensures other { Unrefused result }
    ensures read { ReadFor V.seen V.health V.sound V.passes shape.now v.old v.new result }
{
    if let Some(i) = entry_at(v, shape, dir, inode, slot, name)? {
        return Ok(Some((i, slot)));
    }
    scan(v, shape, dir, inode, name)
}

/// Puts the names of a directory, where none are put yet. Answers whether all are: it is not so where there is no memory for them.
fn put_names<V: Blocks>(
    v: &mut V,
    shape: &VolumeShape,
    dir: Ino,
    inode: &Inode,
    names: &mut DirNames,
) -> Result<bool, FileFail>
    requires can { CanRead V.seen V.sound (ReadsSome shape.now) v.old }
    requires dir { (held_of shape.now (V.seen v.old).words dir.0).kind ≡ dir_kind }
    requires inode { IsInode (V.seen v.old).words dir.0 inode.now }
    requires blank { names.old ≡ empty }
    ensures all { IfOk result (λ all. all ≡ true → HoldsRows (held_of shape.now (V.seen v.old).words dir.0) names.new) }
    ensures other { Unrefused result }
    ensures read { ReadFor V.seen V.health V.sound V.passes shape.now v.old v.new result }
{
    match hold_names(v, shape, dir, inode, names) {
        Ok(()) => Ok(true),
        Err(ReadFail::Memory) => Ok(false),
        Err(ReadFail::Fault) => Err(FileFail::Fault(0)),
        Err(ReadFail::Stopped) => Err(FileFail::Stopped),
    }
}

/// Holds the names of a directory from now on, if there is memory for them and they are not held yet.
fn hold_dir<V: Blocks>(
    v: &mut V,
    shape: &VolumeShape,
    memo: &mut Memo,
    dir: Ino,
    inode: &Inode,
) -> Result<(), FileFail>
    requires can { CanRead V.seen V.sound (ReadsSome shape.now) v.old }
    requires in_step { InStep shape.now (V.seen v.old).words memo.old }
    requires dir { (held_of shape.now (V.seen v.old).words dir.0).kind ≡ dir_kind }
    requires inode { IsInode (V.seen v.old).words dir.0 inode.now }
    ensures other { Unrefused result }
    ensures in_step { InStep shape.now (V.seen v.old).words memo.new }
    ensures read { ReadFor V.seen V.health V.sound V.passes shape.now v.old v.new result }
{
    if memo.names.has(dir) {
        return Ok(());
    }
    let Some(mut names) = memo.names.blank() else {
        return Ok(());
    };
    let all = put_names(v, shape, dir, inode, &mut names)?;
    if !all {
        memo.names.close();
        return Ok(());
    }
    memo.names.hold(dir, names);
    Ok(())
}

/// What a name of a directory, which has this inode, names, and the slot of its row; `None` where it has no such name. Of a
/// directory of more than one page all names are read, to be held, and as long as they are held they are asked in its place.
pub fn look_up<V: Blocks>(
    v: &mut V,
    shape: &VolumeShape,
    memo: &mut Memo,
    dir: Ino,
    inode: &Inode,
    name: &[u8],
) -> Result<Option<(Ino, u32)>, FileFail>
    requires can { CanRead V.seen V.sound (ReadsSome shape.now) v.old }
    requires in_step { InStep shape.now (V.seen v.old).words memo.old }
    requires dir { (held_of shape.now (V.seen v.old).words dir.0).kind ≡ dir_kind }
    requires inode { IsInode (V.seen v.old).words dir.0 inode.now }
    ensures found { IfOk result (Finds (held_of shape.now (V.seen v.old).words dir.0) name.now) }
    ensures other { Unrefused result }
    ensures in_step { InStep shape.now (V.seen v.old).words memo.new }
    ensures read { ReadFor V.seen V.health V.sound V.passes shape.now v.old v.new result }
{
    if inode.size <= SMALL_BYTES {
        return scan(v, shape, dir, inode, name);
    }
    hold_dir(v, shape, memo, dir, inode)?;
    match memo.names.find(dir, name) {
        Lookup::Unknown => scan(v, shape, dir, inode, name),
        Lookup::Absent => Ok(None),
        Lookup::Present(_, slot) => row_near(v, shape, dir, inode, slot, name),
    }
}

/// What a name of a directory names, and the slot of its row; `None` where it has no such name. The directory's inode is read first,
/// and then the name is looked for as [`look_up`] does.
pub fn look_up_in<V: Blocks>(
    v: &mut V,
    shape: &VolumeShape,
    memo: &mut Memo,
    dir: Ino,
    name: &[u8],
) -> Result<Option<(Ino, u32)>, FileFail>
    requires can { CanRead V.seen V.sound (ReadsSome shape.now) v.old }
    requires in_step { InStep shape.now (V.seen v.old).words memo.old }
    requires dir { (held_of shape.now (V.seen v.old).words dir.0).kind ≡ dir_kind }
    ensures found { IfOk result (Finds (held_of shape.now (V.seen v.old).words dir.0) name.now) }
    ensures other { Unrefused result }
    ensures in_step { InStep shape.now (V.seen v.old).words memo.new }
    ensures read { ReadFor V.seen V.health V.sound V.passes shape.now v.old v.new result }
{
    let inode = inode_of(v, shape, dir)?;
    look_up(v, shape, memo, dir, &inode, name)
}
