//! A file given another size.

ghost use Rattle.std.specs.Prelude.{◌≡◌, ◌<◌, ◌≤◌, ◌⊎◌, length, OnOk, IsErrOf};
ghost use Rattle.rio_base.specs.Bitmap.{free_blocks};
ghost use Rattle.rio_base.specs.Blocks.{EndsBy};
ghost use Rattle.rio_base.specs.Layout.{IsIno};
ghost use Rattle.rio_base.specs.Volume.{Goes};
ghost use Rattle.rio_base.specs.NodeKinds.{file_kind};
ghost use Rattle.rio_model.specs.FileParts.{resized};
ghost use Rattle.rio_model.specs.Held.{held_of};
ghost use Rattle.rio_model.specs.Placed.{placed_at, volume_layout};
ghost use Rattle.rio_model.specs.VolumeReady.{LeavesInUse, Ready};
ghost use Rattle.rio_model.specs.Sizes.{largest_size};
ghost use Rattle.inode_table.specs.Inodes.{IsInode};
ghost use Rattle.node_pages.specs.Changes.{wanted_blocks};
ghost use Rattle.node_pages.specs.Staging.{Forgets};
ghost use Rattle.node_pages.specs.Failures.{Unrefused};
ghost use Rattle.file_pages.specs.Files.{HasSpace, ResizeStops, SetsBoth, StopsAs, file_bytes};
ghost use Rattle.file_pages.specs.Preparing.{SizeLeaves};

use crate::clearing::clear_tail;
use crate::committing::commit_change;
use crate::forgetting::forget_all;
use inode_table::{Inode, LARGEST_SIZE};
use node_pages::{SizeFail, look_inode, plan_growth, plan_shrink, take_lowest, wanted_count};
use rio_base::{Ino, Volume, VolumeShape};
use std::alloc::Global;

/// Makes a file smaller: one update of its inode and of the bitmap, and then the freed blocks are dropped from the cache.
fn shrink<V: Volume>(
    alloc: Global,
    v: &mut V,
    shape: &VolumeShape,
    i: Ino,
    inode: &Inode,
    len: u64,
) -> Result<(), SizeFail>
    requires sound { V.sound v.old }
    requires ready { Ready shape.now (V.seen v.old) (V.kept v.old) }
    requires ino { IsIno shape.now i.0 }
    requires inode { IsInode (V.seen v.old).words i.0 inode.now }
    requires file { inode.now.kind ≡ file_kind }
    requires less { len ≤ inode.now.size }
    ensures leaves { SizeLeaves shape.now (V.seen v.old) (V.kept v.old) (V.seen v.new) (V.kept v.new) i.0 len result }
    ensures forgets { OnOk result (Forgets (volume_layout shape.now (V.seen v.old).words) (volume_layout shape.now (V.seen v.new).words) (V.seen v.new)) }
    ensures goes { Goes (V.health v.old) (V.below v.old) (V.health v.new) (V.below v.new) }
    ensures other { Unrefused result }
    ensures ends { EndsBy (V.health v.old) (V.health v.new) (IsErrOf result SizeFail.Fault) (IsErrOf result SizeFail.Stopped) }
    ensures sound { V.sound v.new }
{
    let change = plan_shrink(alloc, v, shape, i, inode, len)?;
    commit_change(v, shape, i, &change)?;
    forget_all(v, change.freed.as_slice())
}

/// Makes a file larger. Its new blocks are prepared and its last page is cleared before the one update that makes them
/// count.
fn grow<V: Volume>(
    alloc: Global,
    v: &mut V,
    shape: &VolumeShape,
    i: Ino,
    inode: &Inode,
    len: u64,
) -> Result<(), SizeFail>
    requires sound { V.sound v.old }
    requires ready { Ready shape.now (V.seen v.old) (V.kept v.old) }
    requires ino { IsIno shape.now i.0 }
    requires inode { IsInode (V.seen v.old).words i.0 inode.now }
    requires file { inode.now.kind ≡ file_kind }
    requires grows { inode.now.size ≤ len }
    requires most { len ≤ largest_size }
    ensures leaves { SizeLeaves shape.now (V.seen v.old) (V.kept v.old) (V.seen v.new) (V.kept v.new) i.0 len result }
    ensures space { HasSpace shape.now (V.seen v.old).words inode.now.size len ⊎ LeavesInUse (volume_layout shape.now (V.seen v.old).words) (V.seen v.old) (V.kept v.old) (V.seen v.new) (V.kept v.new) }
    ensures room { OnOk result (HasSpace shape.now (V.seen v.old).words inode.now.size len) }
    ensures no_space { IsErrOf result SizeFail.NoSpace → length (free_blocks shape.now (V.seen v.old).words) < wanted_blocks inode.now.size len }
    ensures small { IsErrOf result SizeFail.TooLarge → ⊥ }
    ensures forgets { OnOk result (Forgets (volume_layout shape.now (V.seen v.old).words) (volume_layout shape.now (V.seen v.new).words) (V.seen v.new)) }
    ensures goes { Goes (V.health v.old) (V.below v.old) (V.health v.new) (V.below v.new) }
    ensures ends { EndsBy (V.health v.old) (V.health v.new) (IsErrOf result SizeFail.Fault) (IsErrOf result SizeFail.Stopped) }
    ensures sound { V.sound v.new }
{
    let wanted = wanted_count(inode.size, len);
    let taken = take_lowest(alloc, v, shape, wanted)?;
    let change = plan_growth(alloc, v, shape, i, inode, len, taken)?;
    clear_tail(v, shape, i, inode.size, len)?;
    commit_change(v, shape, i, &change)
}

/// Gives file `i`, which has this inode, another size, one that a file may have.
fn size_at<V: Volume>(
    alloc: Global,
    v: &mut V,
    shape: &VolumeShape,
    i: Ino,
    inode: &Inode,
    len: u64,
) -> Result<(), SizeFail>
    requires sound { V.sound v.old }
    requires ready { Ready shape.now (V.seen v.old) (V.kept v.old) }
    requires ino { IsIno shape.now i.0 }
    requires inode { IsInode (V.seen v.old).words i.0 inode.now }
    requires file { (placed_at (V.seen v.old).words i.0).kind ≡ file_kind }
    requires most { len ≤ largest_size }
    ensures leaves { SizeLeaves shape.now (V.seen v.old) (V.kept v.old) (V.seen v.new) (V.kept v.new) i.0 len result }
    ensures space { HasSpace shape.now (V.seen v.old).words (placed_at (V.seen v.old).words i.0).size len ⊎ LeavesInUse (volume_layout shape.now (V.seen v.old).words) (V.seen v.old) (V.kept v.old) (V.seen v.new) (V.kept v.new) }
    ensures room { OnOk result (HasSpace shape.now (V.seen v.old).words (placed_at (V.seen v.old).words i.0).size len) }
    ensures no_space { IsErrOf result SizeFail.NoSpace → length (free_blocks shape.now (V.seen v.old).words) < wanted_blocks (placed_at (V.seen v.old).words i.0).size len }
    ensures small { IsErrOf result SizeFail.TooLarge → ⊥ }
    ensures forgets { OnOk result (Forgets (volume_layout shape.now (V.seen v.old).words) (volume_layout shape.now (V.seen v.new).words) (V.seen v.new)) }
    ensures goes { Goes (V.health v.old) (V.below v.old) (V.health v.new) (V.below v.new) }
    ensures ends { EndsBy (V.health v.old) (V.health v.new) (IsErrOf result SizeFail.Fault) (IsErrOf result SizeFail.Stopped) }
    ensures sound { V.sound v.new }
{
    if len <= inode.size {
        shrink(alloc, v, shape, i, inode, len)
    } else {
        grow(alloc, v, shape, i, inode, len)
    }
}

/// Gives file `i`, which has this inode, the size `len`: bytes past it are cut off, and zeros fill what is new.
///
/// `NoSpace` comes exactly where fewer blocks are free than the file would take, and blocks that it frees itself are not
/// among them; `TooLarge` exactly where no file can have so many bytes. After these and `Memory` nothing has changed, and
/// after `Fault` the file has its old bytes. `Stopped` leaves all of the change standing, or nothing of it.
pub fn resize_at_inode<V: Volume>(
    alloc: Global,
    v: &mut V,
    shape: &VolumeShape,
    i: Ino,
    inode: &Inode,
    len: u64,
) -> Result<(), SizeFail>
    requires sound { V.sound v.old }
    requires ready { Ready shape.now (V.seen v.old) (V.kept v.old) }
    requires inode { IsInode (V.seen v.old).words i.0 inode.now }
    requires file { (held_of shape.now (V.seen v.old).words i.0).kind ≡ file_kind }
    ensures ok { OnOk result (SetsBoth shape.now (V.seen v.old).words (V.seen v.new) (V.kept v.new) i.0 (resized (file_bytes shape.now (V.seen v.old).words i.0) len)) }
    ensures space { OnOk result (HasSpace shape.now (V.seen v.old).words (length (file_bytes shape.now (V.seen v.old).words i.0)) len) }
    ensures too_large { IsErrOf result SizeFail.TooLarge → largest_size < len }
    ensures no_space { IsErrOf result SizeFail.NoSpace → (len ≤ largest_size) × (length (free_blocks shape.now (V.seen v.old).words) < wanted_blocks (length (file_bytes shape.now (V.seen v.old).words i.0)) len) }
    ensures refused { IsErrOf result SizeFail.NoSpace ⊎ IsErrOf result SizeFail.TooLarge ⊎ IsErrOf result SizeFail.Memory → LeavesInUse (volume_layout shape.now (V.seen v.old).words) (V.seen v.old) (V.kept v.old) (V.seen v.new) (V.kept v.new) }
    ensures fault { IsErrOf result SizeFail.Fault → SetsBoth shape.now (V.seen v.old).words (V.seen v.new) (V.kept v.new) i.0 (file_bytes shape.now (V.seen v.old).words i.0) }
    ensures stopped { IsErrOf result SizeFail.Stopped → StopsAs shape.now (V.seen v.old).words (V.seen v.new) (V.kept v.new) i.0 (ResizeStops shape.now (V.seen v.old).words i.0 len) }
    ensures ready { IsErrOf result SizeFail.Stopped ⊎ Ready shape.now (V.seen v.new) (V.kept v.new) }
    ensures forgets { OnOk result (Forgets (volume_layout shape.now (V.seen v.old).words) (volume_layout shape.now (V.seen v.new).words) (V.seen v.new)) }
    ensures goes { Goes (V.health v.old) (V.below v.old) (V.health v.new) (V.below v.new) }
    ensures ends { EndsBy (V.health v.old) (V.health v.new) (IsErrOf result SizeFail.Fault) (IsErrOf result SizeFail.Stopped) }
    ensures sound { V.sound v.new }
{
    if len > LARGEST_SIZE {
        return Err(SizeFail::TooLarge);
    }
    size_at(alloc, v, shape, i, inode, len)
}

/// Gives file `i`, whose inode is read first, the size `len`: bytes past it are cut off, and zeros fill what is new. It ends as
/// [`resize_at_inode`] does.
pub fn resize<V: Volume>(
    alloc: Global,
    v: &mut V,
    shape: &VolumeShape,
    i: Ino,
    len: u64,
) -> Result<(), SizeFail>
    requires sound { V.sound v.old }
    requires ready { Ready shape.now (V.seen v.old) (V.kept v.old) }
    requires file { (held_of shape.now (V.seen v.old).words i.0).kind ≡ file_kind }
    ensures ok { OnOk result (SetsBoth shape.now (V.seen v.old).words (V.seen v.new) (V.kept v.new) i.0 (resized (file_bytes shape.now (V.seen v.old).words i.0) len)) }
    ensures space { OnOk result (HasSpace shape.now (V.seen v.old).words (length (file_bytes shape.now (V.seen v.old).words i.0)) len) }
    ensures too_large { IsErrOf result SizeFail.TooLarge → largest_size < len }
    ensures no_space { IsErrOf result SizeFail.NoSpace → (len ≤ largest_size) × (length (free_blocks shape.now (V.seen v.old).words) < wanted_blocks (length (file_bytes shape.now (V.seen v.old).words i.0)) len) }
    ensures refused { IsErrOf result SizeFail.NoSpace ⊎ IsErrOf result SizeFail.TooLarge ⊎ IsErrOf result SizeFail.Memory → LeavesInUse (volume_layout shape.now (V.seen v.old).words) (V.seen v.old) (V.kept v.old) (V.seen v.new) (V.kept v.new) }
    ensures fault { IsErrOf result SizeFail.Fault → SetsBoth shape.now (V.seen v.old).words (V.seen v.new) (V.kept v.new) i.0 (file_bytes shape.now (V.seen v.old).words i.0) }
    ensures stopped { IsErrOf result SizeFail.Stopped → StopsAs shape.now (V.seen v.old).words (V.seen v.new) (V.kept v.new) i.0 (ResizeStops shape.now (V.seen v.old).words i.0 len) }
    ensures ready { IsErrOf result SizeFail.Stopped ⊎ Ready shape.now (V.seen v.new) (V.kept v.new) }
    ensures forgets { OnOk result (Forgets (volume_layout shape.now (V.seen v.old).words) (volume_layout shape.now (V.seen v.new).words) (V.seen v.new)) }
    ensures goes { Goes (V.health v.old) (V.below v.old) (V.health v.new) (V.below v.new) }
    ensures ends { EndsBy (V.health v.old) (V.health v.new) (IsErrOf result SizeFail.Fault) (IsErrOf result SizeFail.Stopped) }
    ensures sound { V.sound v.new }
{
    if len > LARGEST_SIZE {
        return Err(SizeFail::TooLarge);
    }
    let inode = look_inode(v, shape, i)?;
    resize_at_inode(alloc, v, shape, i, &inode, len)
}
