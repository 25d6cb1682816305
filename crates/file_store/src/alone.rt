//! The requests by a caller who holds nothing in memory of the volume.

ghost use Rattle.std.specs.Prelude.{◌≡◌, ◌≤◌, IfOk, IsErrOf, OnOk};
ghost use Rattle.rio_base.specs.Blocks.{EndsBy};
ghost use Rattle.rio_base.specs.Volume.{Goes};
ghost use Rattle.rio_model.specs.Held.{held_of};
ghost use Rattle.rio_model.specs.Placed.{volume_layout};
ghost use Rattle.rio_model.specs.VolumeReads.{ReadsAs};
ghost use Rattle.rio_model.specs.VolumeReady.{LeavesInUse};
ghost use Rattle.rio_model.specs.declared.state.State.{State};
ghost use Rattle.rio_requests.specs.Answers.{stat as stat_of, list as list_of, write as write_of, truncate as truncate_of, read as read_of, mkdir as mkdir_of, create as create_of, make_region as make_region_of, unlink as unlink_of, rmdir as rmdir_of, rename as rename_of};
ghost use Rattle.rio_requests.specs.Parts.{NoneDone, WriteDone};
ghost use Rattle.rio_model.specs.Paths.{IsPath};
ghost use Rattle.request_ends.specs.Ends.{CanServe, FileEnds, SaysNames, SaysStat, SaysBytes, SaysCount, SaysDone, SaysIno};
ghost use Rattle.request_ends.specs.Failures.{Faulted};
ghost use Rattle.node_pages.specs.Staging.{Forgets};
ghost use Rattle.file_tree.specs.Walks.{ino_numbers};
ghost use Rattle.rio_base.specs.Layout.{IsIno};
ghost use Rattle.rio_base.specs.NodeKinds.{region_kind};
ghost use Rattle.node_making.specs.NewNodes.{FindsRegion};

use file_tree::Memo;
use name_list::NameList;
use node_making::region_at;
use request_ends::FileFail;
use rio_base::{Ino, InoList, Octets, Volume, VolumeShape};
use std::alloc::Global;

/// Makes a directory without names.
pub fn mkdir<V: Volume>(
    alloc: Global,
    v: &mut V,
    shape: &VolumeShape,
    path: &[u8],
) -> Result<Ino, FileFail>
    requires sound { V.sound v.old }
    requires can { CanServe shape.now (V.seen v.old) (V.kept v.old) }
    requires path { IsPath path.now }
    ensures leaves { (s : State) → ReadsAs shape.now (V.seen v.old).words s → FileEnds SaysIno shape.now (V.seen v.old) (V.kept v.old) (V.seen v.new) (V.kept v.new) s (mkdir_of s path.now) (NoneDone s) result }
    ensures forgets { OnOk result (Forgets (volume_layout shape.now (V.seen v.old).words) (volume_layout shape.now (V.seen v.new).words) (V.seen v.new)) }
    ensures goes { Goes (V.health v.old) (V.below v.old) (V.health v.new) (V.below v.new) }
    ensures ends { EndsBy (V.health v.old) (V.health v.new) (Faulted result) (IsErrOf result FileFail.Stopped) }
    ensures sound { V.sound v.new }
{
    let mut memo = Memo::none();
    node_making::mkdir(alloc, v, shape, &mut memo, path)
}

/// Makes a file without bytes.
pub fn create<V: Volume>(
    alloc: Global,
    v: &mut V,
    shape: &VolumeShape,
    path: &[u8],
) -> Result<Ino, FileFail>
    requires sound { V.sound v.old }
    requires can { CanServe shape.now (V.seen v.old) (V.kept v.old) }
    requires path { IsPath path.now }
    ensures leaves { (s : State) → ReadsAs shape.now (V.seen v.old).words s → FileEnds SaysIno shape.now (V.seen v.old) (V.kept v.old) (V.seen v.new) (V.kept v.new) s (create_of s path.now) (NoneDone s) result }
    ensures forgets { OnOk result (Forgets (volume_layout shape.now (V.seen v.old).words) (volume_layout shape.now (V.seen v.new).words) (V.seen v.new)) }
    ensures goes { Goes (V.health v.old) (V.below v.old) (V.health v.new) (V.below v.new) }
    ensures ends { EndsBy (V.health v.old) (V.health v.new) (Faulted result) (IsErrOf result FileFail.Stopped) }
    ensures sound { V.sound v.new }
{
    let mut memo = Memo::none();
    node_making::create(alloc, v, shape, &mut memo, path)
}

/// Makes a region of so many data pages of zeros and undo pages, at a path.
pub fn make_region<V: Volume>(
    alloc: Global,
    v: &mut V,
    shape: &VolumeShape,
    path: &[u8],
    data_pages: u64,
    undo_pages: u64,
) -> Result<Ino, FileFail>
    requires sound { V.sound v.old }
    requires can { CanServe shape.now (V.seen v.old) (V.kept v.old) }
    requires path { IsPath path.now }
    requires pages { 1 ≤ data_pages }
    requires undo { 1 ≤ undo_pages }
    ensures leaves { (s : State) → ReadsAs shape.now (V.seen v.old).words s → FileEnds SaysIno shape.now (V.seen v.old) (V.kept v.old) (V.seen v.new) (V.kept v.new) s (make_region_of s path.now data_pages undo_pages) (NoneDone s) result }
    ensures forgets { OnOk result (Forgets (volume_layout shape.now (V.seen v.old).words) (volume_layout shape.now (V.seen v.new).words) (V.seen v.new)) }
    ensures goes { Goes (V.health v.old) (V.below v.old) (V.health v.new) (V.below v.new) }
    ensures ends { EndsBy (V.health v.old) (V.health v.new) (Faulted result) (IsErrOf result FileFail.Stopped) }
    ensures sound { V.sound v.new }
{
    let mut memo = Memo::none();
    node_making::make_region(alloc, v, shape, &mut memo, path, data_pages, undo_pages)
}

/// The inode of the region at a path. Takes no memory.
pub fn region_of<V: Volume>(v: &mut V, shape: &VolumeShape, path: &[u8]) -> Result<Ino, FileFail>
    requires sound { V.sound v.old }
    requires can { CanServe shape.now (V.seen v.old) (V.kept v.old) }
    requires path { IsPath path.now }
    ensures found { (s : State) → ReadsAs shape.now (V.seen v.old).words s → FindsRegion s path.now result }
    ensures region { IfOk result (λ i. (held_of shape.now (V.seen v.old).words i.0).kind ≡ region_kind) }
    ensures ino { IfOk result (λ i. IsIno shape.now i.0) }
    ensures leaves { LeavesInUse (volume_layout shape.now (V.seen v.old).words) (V.seen v.old) (V.kept v.old) (V.seen v.new) (V.kept v.new) }
    ensures words { (V.seen v.new).words ≡ (V.seen v.old).words }
    ensures can { CanServe shape.now (V.seen v.new) (V.kept v.new) }
    ensures memory { IsErrOf result FileFail.Memory → ⊥ }
    ensures goes { Goes (V.health v.old) (V.below v.old) (V.health v.new) (V.below v.new) }
    ensures ends { EndsBy (V.health v.old) (V.health v.new) (Faulted result) (IsErrOf result FileFail.Stopped) }
    ensures sound { V.sound v.new }
{
    let mut memo = Memo::none();
    let (i, _) = region_at(v, shape, &mut memo, path)?;
    Ok(i)
}

/// Writes bytes to a file from byte `off` on.
pub fn write<V: Volume>(
    alloc: Global,
    v: &mut V,
    shape: &VolumeShape,
    path: &[u8],
    off: u64,
    bytes: &[u8],
) -> Result<u64, FileFail>
    requires sound { V.sound v.old }
    requires can { CanServe shape.now (V.seen v.old) (V.kept v.old) }
    requires path { IsPath path.now }
    ensures leaves { (s : State) → ReadsAs shape.now (V.seen v.old).words s → FileEnds SaysCount shape.now (V.seen v.old) (V.kept v.old) (V.seen v.new) (V.kept v.new) s (write_of s path.now off bytes.now) (WriteDone s path.now off bytes.now (write_of s path.now off bytes.now)) result }
    ensures goes { Goes (V.health v.old) (V.below v.old) (V.health v.new) (V.below v.new) }
    ensures ends { EndsBy (V.health v.old) (V.health v.new) (Faulted result) (IsErrOf result FileFail.Stopped) }
    ensures sound { V.sound v.new }
{
    let mut memo = Memo::none();
    file_data::write(alloc, v, shape, &mut memo, path, off, bytes)
}

/// Bytes of a file from byte `off` on.
pub fn read<V: Volume>(
    alloc: Global,
    v: &mut V,
    shape: &VolumeShape,
    path: &[u8],
    off: u64,
    len: u64,
) -> Result<Octets, FileFail>
    requires sound { V.sound v.old }
    requires can { CanServe shape.now (V.seen v.old) (V.kept v.old) }
    requires path { IsPath path.now }
    ensures leaves { (s : State) → ReadsAs shape.now (V.seen v.old).words s → FileEnds SaysBytes shape.now (V.seen v.old) (V.kept v.old) (V.seen v.new) (V.kept v.new) s (read_of s path.now off len) (NoneDone s) result }
    ensures goes { Goes (V.health v.old) (V.below v.old) (V.health v.new) (V.below v.new) }
    ensures ends { EndsBy (V.health v.old) (V.health v.new) (Faulted result) (IsErrOf result FileFail.Stopped) }
    ensures sound { V.sound v.new }
{
    let mut memo = Memo::none();
    file_data::read(alloc, v, shape, &mut memo, path, off, len)
}

/// Gives a file another size.
pub fn truncate<V: Volume>(
    alloc: Global,
    v: &mut V,
    shape: &VolumeShape,
    path: &[u8],
    len: u64,
) -> Result<(), FileFail>
    requires sound { V.sound v.old }
    requires can { CanServe shape.now (V.seen v.old) (V.kept v.old) }
    requires path { IsPath path.now }
    ensures leaves { (s : State) → ReadsAs shape.now (V.seen v.old).words s → FileEnds SaysDone shape.now (V.seen v.old) (V.kept v.old) (V.seen v.new) (V.kept v.new) s (truncate_of s path.now len) (NoneDone s) result }
    ensures forgets { OnOk result (Forgets (volume_layout shape.now (V.seen v.old).words) (volume_layout shape.now (V.seen v.new).words) (V.seen v.new)) }
    ensures goes { Goes (V.health v.old) (V.below v.old) (V.health v.new) (V.below v.new) }
    ensures ends { EndsBy (V.health v.old) (V.health v.new) (Faulted result) (IsErrOf result FileFail.Stopped) }
    ensures sound { V.sound v.new }
{
    let mut memo = Memo::none();
    file_data::truncate(alloc, v, shape, &mut memo, path, len)
}

/// Removes a file or a region.
pub fn unlink<V: Volume>(
    alloc: Global,
    v: &mut V,
    shape: &VolumeShape,
    path: &[u8],
    busy: &InoList,
) -> Result<(), FileFail>
    requires sound { V.sound v.old }
    requires can { CanServe shape.now (V.seen v.old) (V.kept v.old) }
    requires path { IsPath path.now }
    ensures leaves { (s : State) → ReadsAs shape.now (V.seen v.old).words s → FileEnds SaysDone shape.now (V.seen v.old) (V.kept v.old) (V.seen v.new) (V.kept v.new) s (unlink_of s path.now (ino_numbers busy.now)) (NoneDone s) result }
    ensures forgets { OnOk result (Forgets (volume_layout shape.now (V.seen v.old).words) (volume_layout shape.now (V.seen v.new).words) (V.seen v.new)) }
    ensures goes { Goes (V.health v.old) (V.below v.old) (V.health v.new) (V.below v.new) }
    ensures ends { EndsBy (V.health v.old) (V.health v.new) (Faulted result) (IsErrOf result FileFail.Stopped) }
    ensures sound { V.sound v.new }
{
    let mut memo = Memo::none();
    node_moving::unlink(alloc, v, shape, &mut memo, path, busy)
}

/// Removes a directory without names.
pub fn rmdir<V: Volume>(
    alloc: Global,
    v: &mut V,
    shape: &VolumeShape,
    path: &[u8],
) -> Result<(), FileFail>
    requires sound { V.sound v.old }
    requires can { CanServe shape.now (V.seen v.old) (V.kept v.old) }
    requires path { IsPath path.now }
    ensures leaves { (s : State) → ReadsAs shape.now (V.seen v.old).words s → FileEnds SaysDone shape.now (V.seen v.old) (V.kept v.old) (V.seen v.new) (V.kept v.new) s (rmdir_of s path.now) (NoneDone s) result }
    ensures forgets { OnOk result (Forgets (volume_layout shape.now (V.seen v.old).words) (volume_layout shape.now (V.seen v.new).words) (V.seen v.new)) }
    ensures goes { Goes (V.health v.old) (V.below v.old) (V.health v.new) (V.below v.new) }
    ensures ends { EndsBy (V.health v.old) (V.health v.new) (Faulted result) (IsErrOf result FileFail.Stopped) }
    ensures sound { V.sound v.new }
{
    let mut memo = Memo::none();
    node_moving::rmdir(alloc, v, shape, &mut memo, path)
}

/// Moves a name to another path. A file or region that has it is removed, and its blocks become free.
pub fn rename<V: Volume>(
    alloc: Global,
    v: &mut V,
    shape: &VolumeShape,
    path: &[u8],
    to: &[u8],
    busy: &InoList,
) -> Result<(), FileFail>
    requires sound { V.sound v.old }
    requires can { CanServe shape.now (V.seen v.old) (V.kept v.old) }
    requires path { IsPath path.now }
    requires to { IsPath to.now }
    ensures leaves { (s : State) → ReadsAs shape.now (V.seen v.old).words s → FileEnds SaysDone shape.now (V.seen v.old) (V.kept v.old) (V.seen v.new) (V.kept v.new) s (rename_of s path.now to.now (ino_numbers busy.now)) (NoneDone s) result }
    ensures forgets { OnOk result (Forgets (volume_layout shape.now (V.seen v.old).words) (volume_layout shape.now (V.seen v.new).words) (V.seen v.new)) }
    ensures goes { Goes (V.health v.old) (V.below v.old) (V.health v.new) (V.below v.new) }
    ensures ends { EndsBy (V.health v.old) (V.health v.new) (Faulted result) (IsErrOf result FileFail.Stopped) }
    ensures sound { V.sound v.new }
{
    let mut memo = Memo::none();
    node_moving::rename(alloc, v, shape, &mut memo, path, to, busy)
}

/// Inode number, kind and size of the node at a path.
pub fn stat<V: Volume>(
    alloc: Global,
    v: &mut V,
    shape: &VolumeShape,
    path: &[u8],
) -> Result<(Ino, u8, u64), FileFail>
    requires sound { V.sound v.old }
    requires can { CanServe shape.now (V.seen v.old) (V.kept v.old) }
    requires path { IsPath path.now }
    ensures leaves { (s : State) → ReadsAs shape.now (V.seen v.old).words s → FileEnds SaysStat shape.now (V.seen v.old) (V.kept v.old) (V.seen v.new) (V.kept v.new) s (stat_of s path.now) (NoneDone s) result }
    ensures goes { Goes (V.health v.old) (V.below v.old) (V.health v.new) (V.below v.new) }
    ensures ends { EndsBy (V.health v.old) (V.health v.new) (Faulted result) (IsErrOf result FileFail.Stopped) }
    ensures sound { V.sound v.new }
{
    let mut memo = Memo::none();
    node_making::stat(alloc, v, shape, &mut memo, path)
}

/// All names of the directory at a path, in byte order.
pub fn list<V: Volume>(
    alloc: Global,
    v: &mut V,
    shape: &VolumeShape,
    path: &[u8],
) -> Result<NameList, FileFail>
    requires sound { V.sound v.old }
    requires can { CanServe shape.now (V.seen v.old) (V.kept v.old) }
    requires path { IsPath path.now }
    ensures leaves { (s : State) → ReadsAs shape.now (V.seen v.old).words s → FileEnds SaysNames shape.now (V.seen v.old) (V.kept v.old) (V.seen v.new) (V.kept v.new) s (list_of s path.now) (NoneDone s) result }
    ensures goes { Goes (V.health v.old) (V.below v.old) (V.health v.new) (V.below v.new) }
    ensures ends { EndsBy (V.health v.old) (V.health v.new) (Faulted result) (IsErrOf result FileFail.Stopped) }
    ensures sound { V.sound v.new }
{
    let mut memo = Memo::none();
    node_making::list(alloc, v, shape, &mut memo, path)
}
