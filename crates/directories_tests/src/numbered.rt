//! Rows of many numbered names in the root.

ghost use Rattle.std.specs.Prelude.{OnOk};
ghost use Rattle.test_objects.specs.ListVolumes.{ListSound, list_kept, list_seen};
ghost use Rattle.directories_tests.specs.TestDirs.{DirsReady};

use crate::dirs::{ROOT, add, names_ino, remove};
use crate::held::{hold, is_held};
use rio_base::{Failed, Ino, VolumeShape};
use std::alloc::Global;
use test_objects::ListVolume;

/// The name of number `n`.
pub(crate) fn numbered(n: u32) -> [u8; 9] {
    let mut name = *b"file-0000";
    name[5] = b'0' + (n / 1000 % 10) as u8;
    name[6] = b'0' + (n / 100 % 10) as u8;
    name[7] = b'0' + (n / 10 % 10) as u8;
    name[8] = b'0' + (n % 10) as u8;
    name
}

/// Adds rows of so many numbered names.
pub(crate) fn add_numbered(
    alloc: Global,
    v: &mut ListVolume,
    shape: &VolumeShape,
    count: u32,
) -> Result<(), Failed>
    requires sound { ListSound v.old }
    requires dirs { DirsReady shape.now (list_seen v.old) (list_kept v.old) }
    ensures dirs { OnOk result (DirsReady shape.now (list_seen v.new) (list_kept v.new)) }
    ensures sound { ListSound v.new }
{
    for n in 0..count {
        let i = Ino(n % 8 + 2);
        let Ok(()) = add(alloc, v, shape, ROOT, numbered(n).as_slice(), i) else {
            return Err(Failed);
        };
    }
    Ok(())
}

/// Whether each of them names its inode.
fn are_numbered(v: &mut ListVolume, shape: &VolumeShape, count: u32) -> bool
    requires sound { ListSound v.old }
    requires dirs { DirsReady shape.now (list_seen v.old) (list_kept v.old) }
    ensures dirs { DirsReady shape.now (list_seen v.new) (list_kept v.new) }
    ensures sound { ListSound v.new }
{
    for n in 0..count {
        if !names_ino(v, shape, ROOT, numbered(n).as_slice(), Some(n % 8 + 2)) {
            return false;
        }
    }
    true
}

/// Whether each of them names its inode, and is told to lie in its slot, where all names of the root are held in memory.
fn are_held(alloc: Global, v: &mut ListVolume, shape: &VolumeShape, count: u32) -> bool
    requires sound { ListSound v.old }
    requires dirs { DirsReady shape.now (list_seen v.old) (list_kept v.old) }
    ensures dirs { DirsReady shape.now (list_seen v.new) (list_kept v.new) }
    ensures sound { ListSound v.new }
{
    let Ok(names) = hold(alloc, v, shape, ROOT) else {
        return false;
    };
    for n in 0..count {
        if !is_held(&names, numbered(n).as_slice(), Some((Ino(n % 8 + 2), n))) {
            return false;
        }
    }
    true
}

/// Whether so many numbered names are there and held, and not the next one.
pub(crate) fn has_numbered(
    alloc: Global,
    v: &mut ListVolume,
    shape: &VolumeShape,
    count: u32,
) -> bool
    requires sound { ListSound v.old }
    requires dirs { DirsReady shape.now (list_seen v.old) (list_kept v.old) }
    ensures dirs { DirsReady shape.now (list_seen v.new) (list_kept v.new) }
    ensures sound { ListSound v.new }
{
    if !are_numbered(v, shape, count) {
        return false;
    }
    if !are_held(alloc, v, shape, count) {
        return false;
    }
    names_ino(v, shape, ROOT, numbered(count).as_slice(), None)
}

/// Removes all of them.
pub(crate) fn remove_numbered(
    alloc: Global,
    v: &mut ListVolume,
    shape: &VolumeShape,
    count: u32,
) -> Result<(), Failed>
    requires sound { ListSound v.old }
    requires dirs { DirsReady shape.now (list_seen v.old) (list_kept v.old) }
    ensures dirs { OnOk result (DirsReady shape.now (list_seen v.new) (list_kept v.new)) }
    ensures sound { ListSound v.new }
{
    for n in 0..count {
        let Ok(()) = remove(alloc, v, shape, ROOT, numbered(n).as_slice()) else {
            return Err(Failed);
        };
    }
    Ok(())
}
