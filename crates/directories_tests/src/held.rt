//! What the entry of a slot names, and all names of a directory held in memory.

ghost use Rattle.directories_tests.specs.TestDirs.{DirsReady, IsTestDir};

use crate::dirs::inode_in;
use directories::{hold_names, row_at};
use name_index::DirNames;
use rio_base::{Ino, ReadFail, VolFail, Volume, VolumeShape};
use std::alloc::Global;

/// What the entry in a slot of a directory names, where it has this name.
pub(crate) fn ino_at<V: Volume>(
    v: &mut V,
    shape: &VolumeShape,
    dir: Ino,
    slot: u32,
    name: &[u8],
) -> Result<Option<Ino>, VolFail>
    requires sound { V.sound v.old }
    requires dirs { DirsReady shape.now (V.seen v.old) (V.kept v.old) }
    requires dir { IsTestDir dir.0 }
    ensures dirs { DirsReady shape.now (V.seen v.new) (V.kept v.new) }
    ensures sound { V.sound v.new }
{
    let inode = inode_in(v, shape, dir)?;
    row_at(v, shape, dir, &inode, slot, name)
}

/// The names of a directory, held in memory.
pub(crate) fn hold<V: Volume>(
    alloc: Global,
    v: &mut V,
    shape: &VolumeShape,
    dir: Ino,
) -> Result<DirNames, ReadFail>
    requires sound { V.sound v.old }
    requires dirs { DirsReady shape.now (V.seen v.old) (V.kept v.old) }
    requires dir { IsTestDir dir.0 }
    ensures dirs { DirsReady shape.now (V.seen v.new) (V.kept v.new) }
    ensures sound { V.sound v.new }
{
    let inode = inode_in(v, shape, dir)?;
    let mut names = DirNames::new(alloc);
    hold_names(v, shape, dir, &inode, &mut names)?;
    Ok(names)
}

/// Whether names that are held in memory have this name for this inode, in this slot, or have it not.
pub(crate) fn is_held(names: &DirNames, name: &[u8], due: Option<(Ino, u32)>) -> bool {
    match (names.find(name), due) {
        (Ok(Some((i, slot))), Some((wanted, place))) => i.0 == wanted.0 && slot == place,
        (Ok(None), None) => true,
        _ => false,
    }
}
