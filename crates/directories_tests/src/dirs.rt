//! The volume that tests begin with: fresh, but for directories without names. And steps on it, which keep its rules.

ghost use Rattle.std.specs.Prelude.{◌≡◌, ◌≢◌, ◌+◌, ◌*◌, ◌<◌, ◌≤◌, ℕ, [], true, false, None, IfOk, OnOk};
ghost use Rattle.std.specs.List.{Contains};
ghost use Rattle.rio_base.specs.BlockSets.{CachesBy};
ghost use Rattle.rio_base.specs.Blocks.{Looks};
ghost use Rattle.rio_base.specs.Layout.{IsIno};
ghost use Rattle.test_objects.specs.ListVolumes.{ListSound, list_kept, list_seen};
ghost use Rattle.rio_base.specs.Shapes.{HasShape};
ghost use Rattle.rio_base.specs.Volume.{Firm};
ghost use Rattle.rio_model.specs.Held.{held_of};
ghost use Rattle.rio_model.specs.Paths.{IsName};
ghost use Rattle.block_alloc.specs.Bitmap.{numbers};
ghost use Rattle.inode_table.specs.Inodes.{IsInode};
ghost use Rattle.test_objects.specs.TestVolumes.{IsTestShape};
ghost use Rattle.node_pages.specs.Updating.{IsEdited, IsTouched, IsUpdated};
ghost use Rattle.node_pages.specs.declared.changes.Edit.{Edit as EditOf};
ghost use Rattle.directories.specs.Plans.{InThreeBlocks};
ghost use Rattle.directories.specs.Rows.{Finds, HasRow};
ghost use Rattle.directories_tests.specs.TestDirs.{CanMake, CanTouch, DirsOrder, DirsReady, IsPlainByte, IsTestDir};
ghost use Rattle.directories.specs.declared.changes.DirChange.{DirChange as DirChangeOf};

use block_alloc::free_count;
use directories::{DirChange, apply, find, names, plan_add, plan_remove, plan_replace, plan_set};
use inode_table::{Inode, inode_block, read_inode};
use name_list::NameList;
use node_pages::{Edit, SizeFail};
use rio_base::{Block, Failed, Ino, ReadFail, VolFail, Volume, VolumeShape};
use std::alloc::Global;
use std::process::Abort;
use test_objects::{ListVolume, with_nodes};

/// A volume of six blocks, four of them reserved.
pub(crate) const SMALL: VolumeShape = VolumeShape {
    version: 1,
    blocks: 6,
    inodes: 64,
};

/// The root, which is the first of the directories.
pub(crate) const ROOT: Ino = Ino(1);

/// A directory beside the root.
pub(crate) const OTHER: Ino = Ino(2);

/// A size that leaves a directory room for an entry more.
const ROOMY: u64 = 4_000_000;

/// A volume with nine directories without names.
pub(crate) fn with_dirs(rt: &impl Abort, alloc: Global, shape: &VolumeShape) -> ListVolume
    requires { IsTestShape shape.now }
    ensures sound { ListSound result }
    ensures dirs { DirsReady shape.now (list_seen result) (list_kept result) }
{
    match with_nodes(alloc, shape, 1, 9) {
        Ok(v) => v,
        Err(_fail) => panic!(rt; "no volume"),
    }
}

/// Whether a name has but small letters, digits and dashes.
fn is_plain(name: &[u8]) -> bool
    ensures { result ≡ true → IsName name.now }
{
    if name.is_empty() {
        return false;
    }
    if name.len() > 56 {
        return false;
    }
    for k in 0..name.len() {
        if !is_plain_byte(name[k]) {
            return false;
        }
    }
    true
}

/// Whether a byte is a small letter, a digit or a dash.
fn is_plain_byte(b: u8) -> bool
    ensures { result ≡ true → IsPlainByte b }
{
    if b == b'-' {
        return true;
    }
    b.is_ascii_lowercase() || b.is_ascii_digit()
}

/// Touches the blocks of a plan's edits, in the open update.
fn touch_edits<V: Volume>(v: &mut V, shape: &VolumeShape, edits: &[Edit]) -> Result<(), VolFail>
    requires sound { V.sound v.old }
    requires shape { HasShape shape.now (V.seen v.old) }
    requires in_update { (V.kept v.old).updating ≡ true }
    requires room { (V.kept v.old).touches ≤ 12 }
    requires few { InThreeBlocks edits.now }
    requires can { CanTouch shape.now (V.seen v.old) edits.now }
    ensures ok { OnOk result ((e : EditOf) → Contains edits.now e → (V.kept v.new).touched e.block.0 ≡ true) }
    ensures more { OnOk result ((b : ℕ) → (V.kept v.old).touched b ≡ true → (V.kept v.new).touched b ≡ true) }
    ensures count { OnOk result ((V.kept v.new).touches ≤ (V.kept v.old).touches + 3) }
    ensures looks { Looks (V.seen v.old) (V.seen v.new) }
    ensures firm { Firm (V.kept v.old) (V.kept v.new) }
    ensures shape { HasShape shape.now (V.seen v.new) }
    ensures caches { CachesBy (λ b name. IsEdited edits.now b × (name ≡ None)) (V.seen v.old) (V.seen v.new) }
    ensures in_update { (V.kept v.new).updating ≡ true }
    ensures sound { V.sound v.new }
{
    for t in 0..edits.len() {
        v.touch(edits[t].block)?;
    }
    Ok(())
}

/// Touches the blocks of a plan, in the open update.
fn touch_plan<V: Volume>(v: &mut V, shape: &VolumeShape, change: &DirChange) -> Result<(), VolFail>
    requires sound { V.sound v.old }
    requires shape { HasShape shape.now (V.seen v.old) }
    requires in_update { (V.kept v.old).updating ≡ true }
    requires room { (V.kept v.old).touches ≤ 10 }
    requires ino { IsIno shape.now change.now.dir.0 }
    requires few { InThreeBlocks change.now.edits }
    requires can { CanTouch shape.now (V.seen v.old) change.now.edits }
    ensures touched { OnOk result (IsTouched (V.kept v.new) change.now.dir.0 change.now.edits) }
    ensures in_update { (V.kept v.new).updating ≡ true }
    ensures count { OnOk result ((V.kept v.new).touches ≤ (V.kept v.old).touches + 5) }
    ensures looks { Looks (V.seen v.old) (V.seen v.new) }
    ensures firm { Firm (V.kept v.old) (V.kept v.new) }
    ensures shape { HasShape shape.now (V.seen v.new) }
    ensures caches { CachesBy (IsUpdated change.now.dir.0 change.now.edits) (V.seen v.old) (V.seen v.new) }
    ensures sound { V.sound v.new }
{
    v.touch(Block(1))?;
    v.touch(inode_block(shape, change.dir))?;
    touch_edits(v, shape, change.edits.as_slice())
}

/// Makes a plan, in the open update. If it takes no block, a plan of another directory may still be made after it.
fn make_open<V: Volume>(v: &mut V, shape: &VolumeShape, change: &DirChange) -> Result<(), VolFail>
    requires sound { V.sound v.old }
    requires dirs { DirsOrder shape.now (V.seen v.old) (V.kept v.old) }
    requires in_update { (V.kept v.old).updating ≡ true }
    requires room { (V.kept v.old).touches ≤ 10 }
    requires can { CanMake shape.now (V.seen v.old) (V.kept v.old) change.now }
    ensures dirs { OnOk result (DirsOrder shape.now (V.seen v.new) (V.kept v.new)) }
    ensures other { OnOk result ((c : DirChangeOf) → CanMake shape.now (V.seen v.old) (V.kept v.old) c → c.dir.0 ≢ change.now.dir.0 → numbers change.now.taken ≡ [] → CanMake shape.now (V.seen v.new) (V.kept v.new) c) }
    ensures in_update { (V.kept v.new).updating ≡ true }
    ensures count { OnOk result ((V.kept v.new).touches ≤ (V.kept v.old).touches + 5) }
    ensures sound { V.sound v.new }
{
    touch_plan(v, shape, change)?;
    apply(v, shape, change)?;
    Ok(())
}

/// Makes a plan, as an update of its own.
fn make<V: Volume>(v: &mut V, shape: &VolumeShape, change: &DirChange) -> Result<(), VolFail>
    requires sound { V.sound v.old }
    requires dirs { DirsReady shape.now (V.seen v.old) (V.kept v.old) }
    requires can { CanMake shape.now (V.seen v.old) (V.kept v.old) change.now }
    ensures dirs { OnOk result (DirsReady shape.now (V.seen v.new) (V.kept v.new)) }
    ensures sound { V.sound v.new }
{
    v.begin()?;
    make_open(v, shape, change)?;
    v.commit()?;
    Ok(())
}

/// What a name of a directory names, and the slot of its entry.
fn find_row<V: Volume>(
    v: &mut V,
    shape: &VolumeShape,
    dir: Ino,
    name: &[u8],
) -> Result<Option<(Ino, u32)>, VolFail>
    requires sound { V.sound v.old }
    requires dirs { DirsReady shape.now (V.seen v.old) (V.kept v.old) }
    requires dir { IsTestDir dir.0 }
    ensures value { IfOk result (Finds (held_of shape.now (V.seen v.new).words dir.0) name.now) }
    ensures words { (V.seen v.new).words ≡ (V.seen v.old).words }
    ensures dirs { DirsReady shape.now (V.seen v.new) (V.kept v.new) }
    ensures sound { V.sound v.new }
{
    find(v, shape, dir, name)
}

/// Whether what is found is this inode, or nothing.
fn is_ino(found: Option<(Ino, u32)>, due: Option<u32>) -> bool {
    match (found, due) {
        (Some((i, _slot)), Some(wanted)) => i.0 == wanted,
        (None, None) => true,
        _ => false,
    }
}

/// Whether a name names this inode, or none.
pub(crate) fn names_ino(
    v: &mut ListVolume,
    shape: &VolumeShape,
    dir: Ino,
    name: &[u8],
    due: Option<u32>,
) -> bool
    requires sound { ListSound v.old }
    requires dirs { DirsReady shape.now (list_seen v.old) (list_kept v.old) }
    requires dir { IsTestDir dir.0 }
    ensures dirs { DirsReady shape.now (list_seen v.new) (list_kept v.new) }
    ensures sound { ListSound v.new }
{
    match find_row(v, shape, dir, name) {
        Ok(found) => is_ino(found, due),
        Err(_fail) => false,
    }
}

/// The slot of a name. It must be there.
pub(crate) fn slot_of(
    v: &mut ListVolume,
    shape: &VolumeShape,
    dir: Ino,
    name: &[u8],
) -> Result<u32, VolFail>
    requires sound { ListSound v.old }
    requires dirs { DirsReady shape.now (list_seen v.old) (list_kept v.old) }
    requires dir { IsTestDir dir.0 }
    ensures value { IfOk result (λ slot. 64 * slot < (held_of shape.now (list_seen v.new).words dir.0).size) }
    ensures words { (list_seen v.new).words ≡ (list_seen v.old).words }
    ensures dirs { DirsReady shape.now (list_seen v.new) (list_kept v.new) }
    ensures sound { ListSound v.new }
{
    match find_row(v, shape, dir, name)? {
        Some((i, slot)) => Ok(slot),
        None => Err(VolFail::Fault),
    }
}

/// The inode of a directory.
pub(crate) fn inode_in<V: Volume>(
    v: &mut V,
    shape: &VolumeShape,
    dir: Ino,
) -> Result<Inode, VolFail>
    requires sound { V.sound v.old }
    requires dirs { DirsReady shape.now (V.seen v.old) (V.kept v.old) }
    requires dir { IsTestDir dir.0 }
    ensures value { IfOk result (IsInode (V.seen v.new).words dir.0) }
    ensures dirs { DirsReady shape.now (V.seen v.new) (V.kept v.new) }
    ensures sound { V.sound v.new }
{
    read_inode(v, shape, dir)
}

/// The bytes of a directory.
pub(crate) fn size_of(v: &mut ListVolume, shape: &VolumeShape, dir: Ino) -> Result<u64, VolFail>
    requires sound { ListSound v.old }
    requires dirs { DirsReady shape.now (list_seen v.old) (list_kept v.old) }
    requires dir { IsTestDir dir.0 }
    ensures value { IfOk result (λ size. size ≡ (held_of shape.now (list_seen v.new).words dir.0).size) }
    ensures dirs { DirsReady shape.now (list_seen v.new) (list_kept v.new) }
    ensures sound { ListSound v.new }
{
    let inode = inode_in(v, shape, dir)?;
    Ok(inode.size)
}

/// How many blocks are free.
pub(crate) fn free_blocks<V: Volume>(v: &mut V, shape: &VolumeShape) -> Result<u32, VolFail>
    requires sound { V.sound v.old }
    requires dirs { DirsReady shape.now (V.seen v.old) (V.kept v.old) }
    ensures dirs { DirsReady shape.now (V.seen v.new) (V.kept v.new) }
    ensures sound { V.sound v.new }
{
    free_count(v, shape)
}

/// All names of a directory.
pub(crate) fn list<V: Volume>(
    alloc: Global,
    v: &mut V,
    shape: &VolumeShape,
    dir: Ino,
) -> Result<NameList, ReadFail>
    requires sound { V.sound v.old }
    requires dirs { DirsReady shape.now (V.seen v.old) (V.kept v.old) }
    requires dir { IsTestDir dir.0 }
    ensures dirs { DirsReady shape.now (V.seen v.new) (V.kept v.new) }
    ensures sound { V.sound v.new }
{
    names(alloc, v, shape, dir)
}

/// Prepares a row more, of a name that the directory has not, where it has room.
fn plan_new(
    alloc: Global,
    v: &mut ListVolume,
    shape: &VolumeShape,
    dir: Ino,
    name: &[u8],
    i: Ino,
) -> Result<DirChange, SizeFail>
    requires sound { ListSound v.old }
    requires dirs { DirsReady shape.now (list_seen v.old) (list_kept v.old) }
    requires dir { IsTestDir dir.0 }
    requires ino { IsTestDir i.0 }
    requires room { (held_of shape.now (list_seen v.old).words dir.0).size + 64 ≤ 4292608 }
    requires is_name { IsName name.now }
    requires absent { (n : ℕ) → HasRow (held_of shape.now (list_seen v.old).words dir.0) name.now n → ⊥ }
    ensures can { IfOk result (CanMake shape.now (list_seen v.new) (list_kept v.new)) }
    ensures dirs { DirsReady shape.now (list_seen v.new) (list_kept v.new) }
    ensures sound { ListSound v.new }
{
    plan_add(alloc, v, shape, dir, name, i)
}

/// Prepares a row more, after it is tried whether the directory has the name already, and whether it has room.
pub(crate) fn plan_row(
    alloc: Global,
    v: &mut ListVolume,
    shape: &VolumeShape,
    dir: Ino,
    name: &[u8],
    i: Ino,
) -> Result<DirChange, SizeFail>
    requires sound { ListSound v.old }
    requires dirs { DirsReady shape.now (list_seen v.old) (list_kept v.old) }
    requires dir { IsTestDir dir.0 }
    requires ino { IsTestDir i.0 }
    ensures can { IfOk result (CanMake shape.now (list_seen v.new) (list_kept v.new)) }
    ensures dirs { DirsReady shape.now (list_seen v.new) (list_kept v.new) }
    ensures sound { ListSound v.new }
{
    if !is_plain(name) {
        return Err(SizeFail::TooLarge);
    }
    let size = size_of(v, shape, dir)?;
    if size > ROOMY {
        return Err(SizeFail::TooLarge);
    }
    if let Some(_row) = find_row(v, shape, dir, name)? {
        return Err(SizeFail::TooLarge);
    }
    plan_new(alloc, v, shape, dir, name, i)
}

/// Makes a prepared change, as an update of its own.
fn make_planned(v: &mut ListVolume, shape: &VolumeShape, change: DirChange) -> Result<(), Failed>
    requires sound { ListSound v.old }
    requires dirs { DirsReady shape.now (list_seen v.old) (list_kept v.old) }
    requires can { CanMake shape.now (list_seen v.old) (list_kept v.old) change }
    ensures dirs { OnOk result (DirsReady shape.now (list_seen v.new) (list_kept v.new)) }
    ensures sound { ListSound v.new }
{
    match make(v, shape, &change) {
        Ok(()) => Ok(()),
        Err(_fail) => Err(Failed),
    }
}

/// Adds a row.
pub(crate) fn add(
    alloc: Global,
    v: &mut ListVolume,
    shape: &VolumeShape,
    dir: Ino,
    name: &[u8],
    i: Ino,
) -> Result<(), Failed>
    requires sound { ListSound v.old }
    requires dirs { DirsReady shape.now (list_seen v.old) (list_kept v.old) }
    requires dir { IsTestDir dir.0 }
    requires ino { IsTestDir i.0 }
    ensures dirs { OnOk result (DirsReady shape.now (list_seen v.new) (list_kept v.new)) }
    ensures sound { ListSound v.new }
{
    let Ok(change) = plan_row(alloc, v, shape, dir, name, i) else {
        return Err(Failed);
    };
    make_planned(v, shape, change)
}

/// Prepares that the row of a slot goes.
fn plan_gone(
    alloc: Global,
    v: &mut ListVolume,
    shape: &VolumeShape,
    dir: Ino,
    slot: u32,
) -> Result<DirChange, ReadFail>
    requires sound { ListSound v.old }
    requires dirs { DirsReady shape.now (list_seen v.old) (list_kept v.old) }
    requires dir { IsTestDir dir.0 }
    requires slot { 64 * slot < (held_of shape.now (list_seen v.old).words dir.0).size }
    ensures can { IfOk result (CanMake shape.now (list_seen v.new) (list_kept v.new)) }
    ensures dirs { DirsReady shape.now (list_seen v.new) (list_kept v.new) }
    ensures sound { ListSound v.new }
{
    plan_remove(alloc, v, shape, dir, slot)
}

/// Prepares that the row of a name goes.
fn plan_removed(
    alloc: Global,
    v: &mut ListVolume,
    shape: &VolumeShape,
    dir: Ino,
    name: &[u8],
) -> Result<DirChange, ReadFail>
    requires sound { ListSound v.old }
    requires dirs { DirsReady shape.now (list_seen v.old) (list_kept v.old) }
    requires dir { IsTestDir dir.0 }
    ensures can { IfOk result (CanMake shape.now (list_seen v.new) (list_kept v.new)) }
    ensures dirs { DirsReady shape.now (list_seen v.new) (list_kept v.new) }
    ensures sound { ListSound v.new }
{
    let slot = slot_of(v, shape, dir, name)?;
    plan_gone(alloc, v, shape, dir, slot)
}

/// Removes the row of a name.
pub(crate) fn remove(
    alloc: Global,
    v: &mut ListVolume,
    shape: &VolumeShape,
    dir: Ino,
    name: &[u8],
) -> Result<(), Failed>
    requires sound { ListSound v.old }
    requires dirs { DirsReady shape.now (list_seen v.old) (list_kept v.old) }
    requires dir { IsTestDir dir.0 }
    ensures dirs { OnOk result (DirsReady shape.now (list_seen v.new) (list_kept v.new)) }
    ensures sound { ListSound v.new }
{
    let Ok(change) = plan_removed(alloc, v, shape, dir, name) else {
        return Err(Failed);
    };
    make_planned(v, shape, change)
}

/// Prepares another row in a slot, of a name that the directory has not.
fn plan_other(
    alloc: Global,
    v: &mut ListVolume,
    shape: &VolumeShape,
    dir: Ino,
    slot: u32,
    name: &[u8],
    i: Ino,
) -> Result<DirChange, ReadFail>
    requires sound { ListSound v.old }
    requires dirs { DirsReady shape.now (list_seen v.old) (list_kept v.old) }
    requires dir { IsTestDir dir.0 }
    requires ino { IsTestDir i.0 }
    requires slot { 64 * slot < (held_of shape.now (list_seen v.old).words dir.0).size }
    requires is_name { IsName name.now }
    requires absent { (n : ℕ) → HasRow (held_of shape.now (list_seen v.old).words dir.0) name.now n → ⊥ }
    ensures can { IfOk result (CanMake shape.now (list_seen v.new) (list_kept v.new)) }
    ensures dirs { DirsReady shape.now (list_seen v.new) (list_kept v.new) }
    ensures sound { ListSound v.new }
{
    plan_set(alloc, v, shape, dir, slot, name, i)
}

/// Prepares that the row of a name gets another one, which the directory has not, for this inode.
fn plan_renamed(
    alloc: Global,
    v: &mut ListVolume,
    shape: &VolumeShape,
    dir: Ino,
    name: &[u8],
    other: &[u8],
    i: Ino,
) -> Result<DirChange, ReadFail>
    requires sound { ListSound v.old }
    requires dirs { DirsReady shape.now (list_seen v.old) (list_kept v.old) }
    requires dir { IsTestDir dir.0 }
    requires ino { IsTestDir i.0 }
    ensures can { IfOk result (CanMake shape.now (list_seen v.new) (list_kept v.new)) }
    ensures dirs { DirsReady shape.now (list_seen v.new) (list_kept v.new) }
    ensures sound { ListSound v.new }
{
    if !is_plain(other) {
        return Err(ReadFail::Fault);
    }
    let slot = slot_of(v, shape, dir, name)?;
    if let Some(_row) = find_row(v, shape, dir, other)? {
        return Err(ReadFail::Fault);
    }
    plan_other(alloc, v, shape, dir, slot, other, i)
}

/// Sets the row of a name: to another name, for this inode.
pub(crate) fn set_row(
    alloc: Global,
    v: &mut ListVolume,
    shape: &VolumeShape,
    dir: Ino,
    name: &[u8],
    other: &[u8],
    i: Ino,
) -> Result<(), Failed>
    requires sound { ListSound v.old }
    requires dirs { DirsReady shape.now (list_seen v.old) (list_kept v.old) }
    requires dir { IsTestDir dir.0 }
    requires ino { IsTestDir i.0 }
    ensures dirs { OnOk result (DirsReady shape.now (list_seen v.new) (list_kept v.new)) }
    ensures sound { ListSound v.new }
{
    let Ok(change) = plan_renamed(alloc, v, shape, dir, name, other, i) else {
        return Err(Failed);
    };
    make_planned(v, shape, change)
}

/// Prepares that the name of a slot names this inode, and that the row of another slot goes.
fn plan_both(
    alloc: Global,
    v: &mut ListVolume,
    shape: &VolumeShape,
    dir: Ino,
    slot: u32,
    i: Ino,
    gone: u32,
) -> Result<DirChange, ReadFail>
    requires sound { ListSound v.old }
    requires dirs { DirsReady shape.now (list_seen v.old) (list_kept v.old) }
    requires dir { IsTestDir dir.0 }
    requires ino { IsTestDir i.0 }
    requires slot { 64 * slot < (held_of shape.now (list_seen v.old).words dir.0).size }
    requires gone { 64 * gone < (held_of shape.now (list_seen v.old).words dir.0).size }
    requires two { slot ≢ gone }
    ensures can { IfOk result (CanMake shape.now (list_seen v.new) (list_kept v.new)) }
    ensures dirs { DirsReady shape.now (list_seen v.new) (list_kept v.new) }
    ensures sound { ListSound v.new }
{
    plan_replace(alloc, v, shape, dir, slot, i, gone)
}

/// Prepares that a name names this inode, and that the row of another name goes.
fn plan_replaced(
    alloc: Global,
    v: &mut ListVolume,
    shape: &VolumeShape,
    dir: Ino,
    name: &[u8],
    i: Ino,
    gone: &[u8],
) -> Result<DirChange, ReadFail>
    requires sound { ListSound v.old }
    requires dirs { DirsReady shape.now (list_seen v.old) (list_kept v.old) }
    requires dir { IsTestDir dir.0 }
    requires ino { IsTestDir i.0 }
    ensures can { IfOk result (CanMake shape.now (list_seen v.new) (list_kept v.new)) }
    ensures dirs { DirsReady shape.now (list_seen v.new) (list_kept v.new) }
    ensures sound { ListSound v.new }
{
    let slot = slot_of(v, shape, dir, name)?;
    let last = slot_of(v, shape, dir, gone)?;
    if slot == last {
        return Err(ReadFail::Fault);
    }
    plan_both(alloc, v, shape, dir, slot, i, last)
}

/// Makes a name name this inode, and removes the row of another name, as one change.
pub(crate) fn replace(
    alloc: Global,
    v: &mut ListVolume,
    shape: &VolumeShape,
    dir: Ino,
    name: &[u8],
    i: Ino,
    gone: &[u8],
) -> Result<(), Failed>
    requires sound { ListSound v.old }
    requires dirs { DirsReady shape.now (list_seen v.old) (list_kept v.old) }
    requires dir { IsTestDir dir.0 }
    requires ino { IsTestDir i.0 }
    ensures dirs { OnOk result (DirsReady shape.now (list_seen v.new) (list_kept v.new)) }
    ensures sound { ListSound v.new }
{
    let Ok(change) = plan_replaced(alloc, v, shape, dir, name, i, gone) else {
        return Err(Failed);
    };
    make_planned(v, shape, change)
}

/// Makes two plans of two directories in one update. The first one takes no block.
fn make_both<V: Volume>(
    v: &mut V,
    shape: &VolumeShape,
    first: &DirChange,
    second: &DirChange,
) -> Result<(), VolFail>
    requires sound { V.sound v.old }
    requires dirs { DirsReady shape.now (V.seen v.old) (V.kept v.old) }
    requires can_first { CanMake shape.now (V.seen v.old) (V.kept v.old) first.now }
    requires can_second { CanMake shape.now (V.seen v.old) (V.kept v.old) second.now }
    requires two { second.now.dir.0 ≢ first.now.dir.0 }
    requires none { numbers first.now.taken ≡ [] }
    ensures dirs { OnOk result (DirsReady shape.now (V.seen v.new) (V.kept v.new)) }
    ensures sound { V.sound v.new }
{
    v.begin()?;
    make_open(v, shape, first)?;
    make_open(v, shape, second)?;
    v.commit()?;
    Ok(())
}

/// Moves the row of a slot of the root to the directory beside it, which has not the name and has room, in one update.
fn move_slot(
    alloc: Global,
    v: &mut ListVolume,
    shape: &VolumeShape,
    slot: u32,
    name: &[u8],
    i: Ino,
) -> Result<(), SizeFail>
    requires sound { ListSound v.old }
    requires dirs { DirsReady shape.now (list_seen v.old) (list_kept v.old) }
    requires ino { IsTestDir i.0 }
    requires slot { 64 * slot < (held_of shape.now (list_seen v.old).words 1).size }
    requires room { (held_of shape.now (list_seen v.old).words 2).size + 64 ≤ 4292608 }
    requires is_name { IsName name.now }
    requires absent { (n : ℕ) → HasRow (held_of shape.now (list_seen v.old).words 2) name.now n → ⊥ }
    ensures dirs { OnOk result (DirsReady shape.now (list_seen v.new) (list_kept v.new)) }
    ensures sound { ListSound v.new }
{
    let goes = plan_remove(alloc, v, shape, ROOT, slot)?;
    let comes = plan_add(alloc, v, shape, OTHER, name, i)?;
    make_both(v, shape, &goes, &comes)?;
    Ok(())
}

/// Moves the row of a name of the root to the directory beside it, under another name, in one update.
pub(crate) fn move_row(
    alloc: Global,
    v: &mut ListVolume,
    shape: &VolumeShape,
    name: &[u8],
    other: &[u8],
    i: Ino,
) -> Result<(), SizeFail>
    requires sound { ListSound v.old }
    requires dirs { DirsReady shape.now (list_seen v.old) (list_kept v.old) }
    requires ino { IsTestDir i.0 }
    ensures dirs { OnOk result (DirsReady shape.now (list_seen v.new) (list_kept v.new)) }
    ensures sound { ListSound v.new }
{
    if !is_plain(other) {
        return Err(SizeFail::TooLarge);
    }
    let size = size_of(v, shape, OTHER)?;
    if size > ROOMY {
        return Err(SizeFail::TooLarge);
    }
    let slot = slot_of(v, shape, ROOT, name)?;
    if let Some(_row) = find_row(v, shape, OTHER, other)? {
        return Err(SizeFail::TooLarge);
    }
    move_slot(alloc, v, shape, slot, other, i)
}
