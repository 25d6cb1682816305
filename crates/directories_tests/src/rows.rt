//! Tables of calls on the directories of a test, each with what must come of it.

ghost use Rattle.std.specs.Prelude.{◌≡◌, OnOk};
ghost use Rattle.test_objects.specs.TestVolumes.{IsTestShape};
ghost use Rattle.test_objects.specs.ListVolumes.{ListSound, list_kept, list_seen};
ghost use Rattle.directories_tests.specs.TestDirs.{DirsReady, IsTestDir};

use crate::compare::all_answered;
use crate::dirs::{
    OTHER, ROOT, add, free_blocks, list, move_row, names_ino, plan_row, remove, replace, set_row,
    size_of, slot_of, with_dirs,
};
use crate::held::{hold, ino_at, is_held};
use crate::numbered::{add_numbered, has_numbered, remove_numbered};
use name_list::NameList;
use node_pages::SizeFail;
use rio_base::{Failed, Ino, VolFail, VolumeShape};
use std::alloc::Global;
use std::process::Abort;
use test_objects::ListVolume;

/// A directory of a test.
#[derive(Clone, Copy)]
pub(crate) enum Dir {
    Root,
    Other,
    Third,
}

/// A name.
type Name = &'static [u8];

/// A change of rows.
#[derive(Clone, Copy)]
pub(crate) enum Change {
    /// A row of this name, for this inode.
    Add(Dir, Name, u32),
    Remove(Dir, Name),
    /// The row of the first name gets the second one, for this inode.
    Set(Dir, Name, Name, u32),
    /// The row of the first name is set to this inode, and that of the second one goes.
    Replace(Dir, Name, u32, Name),
    /// The row of the first name of the root goes to the directory beside it, under the second one.
    Move(Name, Name, u32),
    /// So many numbered names are added to the root.
    AddNumbered(u32),
    RemoveNumbered(u32),
}

/// A call on the directories or their volume, with what must come of it.
#[derive(Clone, Copy)]
pub(crate) enum Row {
    /// The change is made.
    Make(Change),
    /// A row of this name finds no space.
    NoSpace(Dir, Name, u32),
    /// The name names this inode, or none.
    Names(Dir, Name, Option<u32>),
    /// The row of the name lies in this slot.
    Slot(Dir, Name, u32),
    /// The entry in this slot names this inode under the name, or has another name, or none.
    At(Dir, u32, Name, Option<Ino>),
    /// Where all names of the directory are held in memory, the name names this inode and is told to lie in this slot, or names
    /// none.
    Held(Dir, Name, Option<(Ino, u32)>),
    /// The directory has so many bytes.
    Size(Dir, u64),
    /// So many blocks are free.
    Free(u32),
    /// The directory has just these names, in this order.
    Lists(Dir, &'static [Name]),
    /// So many numbered names name their inodes, also where they are held in memory, and the next one names none.
    Numbered(u32),
}

/// The node of a directory.
fn dir_of(dir: Dir) -> Ino
    ensures { IsTestDir result.0 }
{
    match dir {
        Dir::Root => ROOT,
        Dir::Other => OTHER,
        Dir::Third => Ino(3),
    }
}

/// A node that a row may name: one of the directories.
fn node_of(i: u32) -> Ino
    ensures { IsTestDir result.0 }
{
    if 1 <= i && i <= 9 {
        return Ino(i);
    }
    ROOT
}

/// Moves a row, and says no more where it fails.
fn move_to_other(
    alloc: Global,
    v: &mut ListVolume,
    shape: &VolumeShape,
    name: &[u8],
    other: &[u8],
    i: Ino,
) -> Result<(), Failed>
    requires sound { ListSound v.old }
    requires dirs { DirsReady shape.now (list_seen v.old) (list_kept v.old) }
    requires ino { IsTestDir i.0 }
    ensures dirs { OnOk result (DirsReady shape.now (list_seen v.new) (list_kept v.new)) }
    ensures sound { ListSound v.new }
{
    match move_row(alloc, v, shape, name, other, i) {
        Ok(()) => Ok(()),
        Err(_fail) => Err(Failed),
    }
}

/// Makes a change of a row that is there.
fn change_row(
    alloc: Global,
    v: &mut ListVolume,
    shape: &VolumeShape,
    change: Change,
) -> Result<(), Failed>
    requires sound { ListSound v.old }
    requires dirs { DirsReady shape.now (list_seen v.old) (list_kept v.old) }
    ensures dirs { OnOk result (DirsReady shape.now (list_seen v.new) (list_kept v.new)) }
    ensures sound { ListSound v.new }
{
    match change {
        Change::Set(dir, name, other, i) => {
            set_row(alloc, v, shape, dir_of(dir), name, other, node_of(i))
        }
        Change::Replace(dir, name, i, gone) => {
            replace(alloc, v, shape, dir_of(dir), name, node_of(i), gone)
        }
        Change::Move(name, other, i) => move_to_other(alloc, v, shape, name, other, node_of(i)),
        // Not reached: other changes are made elsewhere.
        _ => Err(Failed),
    }
}

/// Makes a change.
fn make_change(
    alloc: Global,
    v: &mut ListVolume,
    shape: &VolumeShape,
    change: Change,
) -> Result<(), Failed>
    requires sound { ListSound v.old }
    requires dirs { DirsReady shape.now (list_seen v.old) (list_kept v.old) }
    ensures dirs { OnOk result (DirsReady shape.now (list_seen v.new) (list_kept v.new)) }
    ensures sound { ListSound v.new }
{
    match change {
        Change::Add(dir, name, i) => add(alloc, v, shape, dir_of(dir), name, node_of(i)),
        Change::Remove(dir, name) => remove(alloc, v, shape, dir_of(dir), name),
        Change::AddNumbered(count) => add_numbered(alloc, v, shape, count),
        Change::RemoveNumbered(count) => remove_numbered(alloc, v, shape, count),
        _ => change_row(alloc, v, shape, change),
    }
}

/// Whether names are these, in this order.
fn are_names(names: &NameList, due: &[Name]) -> bool {
    if names.len() != due.len() {
        return false;
    }
    for n in 0..names.len() {
        if names.get(n) != due[n] {
            return false;
        }
    }
    true
}

/// Whether a directory has just these names.
fn lists(alloc: Global, v: &mut ListVolume, shape: &VolumeShape, dir: Ino, due: &[Name]) -> bool
    requires sound { ListSound v.old }
    requires dirs { DirsReady shape.now (list_seen v.old) (list_kept v.old) }
    requires dir { IsTestDir dir.0 }
    ensures dirs { DirsReady shape.now (list_seen v.new) (list_kept v.new) }
    ensures sound { ListSound v.new }
{
    match list(alloc, v, shape, dir) {
        Ok(names) => are_names(&names, due),
        Err(_fail) => false,
    }
}

/// Whether a name names this inode in this slot, or none, where all names of a directory are held in memory.
fn holds_row(
    alloc: Global,
    v: &mut ListVolume,
    shape: &VolumeShape,
    dir: Ino,
    name: &[u8],
    due: Option<(Ino, u32)>,
) -> bool
    requires sound { ListSound v.old }
    requires dirs { DirsReady shape.now (list_seen v.old) (list_kept v.old) }
    requires dir { IsTestDir dir.0 }
    ensures dirs { DirsReady shape.now (list_seen v.new) (list_kept v.new) }
    ensures sound { ListSound v.new }
{
    match hold(alloc, v, shape, dir) {
        Ok(names) => is_held(&names, name, due),
        Err(_fail) => false,
    }
}

/// Whether a row of this name finds no space.
fn has_no_space(
    alloc: Global,
    v: &mut ListVolume,
    shape: &VolumeShape,
    dir: Ino,
    name: &[u8],
    i: Ino,
) -> bool
    requires sound { ListSound v.old }
    requires dirs { DirsReady shape.now (list_seen v.old) (list_kept v.old) }
    requires dir { IsTestDir dir.0 }
    requires ino { IsTestDir i.0 }
    ensures dirs { DirsReady shape.now (list_seen v.new) (list_kept v.new) }
    ensures sound { ListSound v.new }
{
    match plan_row(alloc, v, shape, dir, name, i) {
        Ok(_change) => false,
        Err(fail) => matches!(fail, SizeFail::NoSpace),
    }
}

/// Whether an entry is this inode's, or another's.
fn is_entry(came: Result<Option<Ino>, VolFail>, due: Option<Ino>) -> bool {
    match (came, due) {
        (Ok(Some(i)), Some(wanted)) => i.0 == wanted.0,
        (Ok(None), None) => true,
        _ => false,
    }
}

/// Whether this number came.
fn is_number(came: Result<u32, VolFail>, due: u32) -> bool {
    match came {
        Ok(number) => number == due,
        Err(_fail) => false,
    }
}

/// Whether this size came.
fn is_size(came: Result<u64, VolFail>, due: u64) -> bool {
    match came {
        Ok(size) => size == due,
        Err(_fail) => false,
    }
}

/// Whether what a row asks of one name is as it says.
fn tells_of_name(alloc: Global, v: &mut ListVolume, shape: &VolumeShape, row: Row) -> bool
    requires sound { ListSound v.old }
    requires dirs { DirsReady shape.now (list_seen v.old) (list_kept v.old) }
    ensures dirs { DirsReady shape.now (list_seen v.new) (list_kept v.new) }
    ensures sound { ListSound v.new }
{
    match row {
        Row::NoSpace(dir, name, i) => {
            has_no_space(alloc, v, shape, dir_of(dir), name, node_of(i))
        }
        Row::Names(dir, name, due) => names_ino(v, shape, dir_of(dir), name, due),
        Row::Slot(dir, name, due) => is_number(slot_of(v, shape, dir_of(dir), name), due),
        Row::At(dir, slot, name, due) => {
            is_entry(ino_at(v, shape, dir_of(dir), slot, name), due)
        }
        Row::Held(dir, name, due) => holds_row(alloc, v, shape, dir_of(dir), name, due),
        // Not reached: changes are made elsewhere, and the volume is asked elsewhere.
        _ => false,
    }
}

/// Whether what a row asks for is as it says.
fn tells(alloc: Global, v: &mut ListVolume, shape: &VolumeShape, row: Row) -> bool
    requires sound { ListSound v.old }
    requires dirs { DirsReady shape.now (list_seen v.old) (list_kept v.old) }
    ensures dirs { DirsReady shape.now (list_seen v.new) (list_kept v.new) }
    ensures sound { ListSound v.new }
{
    match row {
        Row::Size(dir, due) => is_size(size_of(v, shape, dir_of(dir)), due),
        Row::Free(due) => is_number(free_blocks(v, shape), due),
        Row::Lists(dir, due) => lists(alloc, v, shape, dir_of(dir), due),
        Row::Numbered(count) => has_numbered(alloc, v, shape, count),
        _ => tells_of_name(alloc, v, shape, row),
    }
}

/// Makes the call of a row, and says whether it answers as it must.
fn answers(alloc: Global, v: &mut ListVolume, shape: &VolumeShape, row: Row) -> Result<bool, Failed>
    requires sound { ListSound v.old }
    requires dirs { DirsReady shape.now (list_seen v.old) (list_kept v.old) }
    ensures dirs { OnOk result (DirsReady shape.now (list_seen v.new) (list_kept v.new)) }
    ensures sound { ListSound v.new }
{
    match row {
        Row::Make(change) => {
            let Ok(()) = make_change(alloc, v, shape, change) else {
                return Err(Failed);
            };
            Ok(true)
        }
        _ => Ok(tells(alloc, v, shape, row)),
    }
}

/// Makes the calls of a table one after the other, up to the first that answers otherwise than it must, and tells which that
/// is, if any.
fn first_other(
    alloc: Global,
    v: &mut ListVolume,
    shape: &VolumeShape,
    rows: &[Row],
) -> Option<usize>
    requires sound { ListSound v.old }
    requires dirs { DirsReady shape.now (list_seen v.old) (list_kept v.old) }
{
    for k in 0..rows.len() {
        let Ok(true) = answers(alloc, v, shape, rows[k]) else {
            return Some(k);
        };
    }
    None
}

/// Makes the calls of a table on a volume with nine directories without names.
pub(crate) fn check_rows(
    rt: &impl Abort,
    alloc: Global,
    shape: &VolumeShape,
    table: u64,
    rows: &[Row],
)
    requires { IsTestShape shape.now }
{
    let mut v = with_dirs(rt, alloc, shape);
    all_answered(rt, table, first_other(alloc, &mut v, shape, rows));
}
