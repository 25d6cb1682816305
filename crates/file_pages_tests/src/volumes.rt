//! The volume that tests begin with: fresh, but for two files without bytes.

ghost use Rattle.test_objects.specs.ListVolumes.{ListSound, list_kept, list_seen};
ghost use Rattle.test_objects.specs.TestVolumes.{IsTestShape};
ghost use Rattle.file_pages_tests.specs.TestFiles.{FilesReady, FilesStand};

use block_alloc::free_count;
use rio_base::{Ino, Volume, VolumeShape};
use std::alloc::Global;
use std::process::Abort;
use test_objects::{LARGE, ListVolume, SHAPE, with_nodes};

/// The file that tests change.
pub(crate) const FILE: Ino = Ino(2);

/// A file beside it.
pub(crate) const OTHER: Ino = Ino(3);

/// A volume of 40 blocks, four of them reserved.
pub(crate) const SMALL: VolumeShape = VolumeShape {
    version: 1,
    blocks: 40,
    inodes: 64,
};

/// The volumes of a test.
#[derive(Clone, Copy)]
pub(crate) enum Size {
    /// 40 blocks.
    Small,
    /// 256 blocks.
    Usual,
    /// Room for the largest file.
    Large,
}

/// The shape of a volume.
pub(crate) fn shape_of(size: Size) -> VolumeShape
    ensures { IsTestShape result }
{
    match size {
        Size::Small => SMALL,
        Size::Usual => SHAPE,
        Size::Large => LARGE,
    }
}

/// A volume with two files without bytes.
pub(crate) fn with_files(rt: &impl Abort, alloc: Global, shape: &VolumeShape) -> ListVolume
    requires { IsTestShape shape.now }
    ensures sound { ListSound result }
    ensures files { FilesReady shape.now (list_seen result) (list_kept result) }
    ensures stand { FilesStand shape.now (list_seen result) (list_kept result) }
{
    match with_nodes(alloc, shape, 2, OTHER.0) {
        Ok(v) => v,
        Err(_fail) => panic!(rt; "no volume"),
    }
}

/// Goes on with what stands, and stops after so many steps.
pub(crate) fn start_again(v: &mut ListVolume, shape: &VolumeShape, stop_after: Option<u64>)
    requires sound { ListSound v.old }
    requires stand { FilesStand shape.now (list_seen v.old) (list_kept v.old) }
    ensures sound { ListSound v.new }
    ensures files { FilesReady shape.now (list_seen v.new) (list_kept v.new) }
    ensures stand { FilesStand shape.now (list_seen v.new) (list_kept v.new) }
{
    test_objects::start_again(v, shape, stop_after);
}

/// How many blocks are not free. 0 where that cannot be told, which is never due.
pub(crate) fn used_count<V: Volume>(v: &mut V, shape: &VolumeShape) -> u32
    requires sound { V.sound v.old }
    requires files { FilesReady shape.now (V.seen v.old) (V.kept v.old) }
    ensures sound { V.sound v.new }
    ensures files { FilesReady shape.now (V.seen v.new) (V.kept v.new) }
{
    let free = free_count(v, shape).unwrap_or(u32::MAX);
    shape.blocks.saturating_sub(free)
}
