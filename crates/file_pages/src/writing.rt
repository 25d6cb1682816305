//! Bytes written to a file.

ghost use Rattle.std.specs.Prelude.{◌≡◌, ◌+◌, ◌<◌, ◌≤◌, ◌⊎◌, ℕ, length, IfOk, OnOk, IsErrOf};
ghost use Rattle.rio_base.specs.Bitmap.{free_blocks};
ghost use Rattle.rio_base.specs.Blocks.{EndsBy};
ghost use Rattle.rio_base.specs.Layout.{IsIno};
ghost use Rattle.rio_base.specs.Volume.{Goes};
ghost use Rattle.rio_base.specs.NodeKinds.{file_kind};
ghost use Rattle.rio_model.specs.FileParts.{written};
ghost use Rattle.rio_model.specs.Held.{held_of};
ghost use Rattle.rio_model.specs.Placed.{placed_at, volume_layout};
ghost use Rattle.rio_model.specs.Sizes.{largest_size};
ghost use Rattle.rio_model.specs.VolumeReady.{LeavesInUse, Ready};
ghost use Rattle.inode_table.specs.Inodes.{IsInode};
ghost use Rattle.node_pages.specs.Changes.{wanted_blocks};
ghost use Rattle.file_pages.specs.Files.{FaultsAfter, HasSpace, HasSpaceFor, SetsBoth, StopsAs, file_bytes};
ghost use Rattle.file_pages.specs.Writing.{WriteLeaves, WriteStops};

use crate::extending::write_past;
use crate::overwriting::write_within;
use inode_table::{Inode, LARGEST_SIZE};
use node_pages::{WriteFail, look_inode};
use rio_base::{Ino, Volume, VolumeShape};
use std::alloc::Global;

/// Writes bytes, one at least, that end where a file may end, to a file that has this inode.
fn write_at<V: Volume>(
    alloc: Global,
    v: &mut V,
    shape: &VolumeShape,
    i: Ino,
    inode: &Inode,
    off: u64,
    bytes: &[u8],
) -> Result<(), WriteFail>
    requires sound { V.sound v.old }
    requires ready { Ready shape.now (V.seen v.old) (V.kept v.old) }
    requires ino { IsIno shape.now i.0 }
    requires inode { IsInode (V.seen v.old).words i.0 inode.now }
    requires file { (placed_at (V.seen v.old).words i.0).kind ≡ file_kind }
    requires some { 0 < length bytes.now }
    requires most { off + length bytes.now ≤ largest_size }
    ensures leaves { WriteLeaves shape.now (V.seen v.old) (V.kept v.old) (V.seen v.new) (V.kept v.new) i.0 off bytes.now result }
    ensures room { OnOk result (HasSpace shape.now (V.seen v.old).words (placed_at (V.seen v.old).words i.0).size (off + length bytes.now)) }
    ensures no_space { IsErrOf result WriteFail.NoSpace → length (free_blocks shape.now (V.seen v.old).words) < wanted_blocks (placed_at (V.seen v.old).words i.0).size (off + length bytes.now) }
    ensures small { IsErrOf result WriteFail.TooLarge → ⊥ }
    ensures goes { Goes (V.health v.old) (V.below v.old) (V.health v.new) (V.below v.new) }
    ensures ends { EndsBy (V.health v.old) (V.health v.new) ((k : ℕ) × IsErrOf result (WriteFail.Fault k)) (IsErrOf result WriteFail.Stopped) }
    ensures sound { V.sound v.new }
{
    if off + bytes.len() as u64 <= inode.size {
        write_within(alloc, v, shape, i, inode, off, bytes)
    } else {
        write_past(alloc, v, shape, i, inode, off, bytes)
    }
}

/// Writes `bytes` to file `i`, which has this inode, from byte `off` on, and says how many they were. Where the file is shorter, zeros fill it up to
/// `off`. No bytes change nothing.
///
/// `NoSpace` comes exactly where fewer blocks are free than the file would take, and `TooLarge` exactly where no file can
/// have so many bytes. After these and `Memory` nothing has changed. `Fault` leaves the first `done` bytes, all of them over
/// bytes that the file had; `Stopped` leaves such a leading part, or all, or nothing of the write.
pub fn write_at_inode<V: Volume>(
    alloc: Global,
    v: &mut V,
    shape: &VolumeShape,
    i: Ino,
    inode: &Inode,
    off: u64,
    bytes: &[u8],
) -> Result<u64, WriteFail>
    requires sound { V.sound v.old }
    requires ready { Ready shape.now (V.seen v.old) (V.kept v.old) }
    requires inode { IsInode (V.seen v.old).words i.0 inode.now }
    requires file { (held_of shape.now (V.seen v.old).words i.0).kind ≡ file_kind }
    ensures value { IfOk result (λ n. n ≡ length bytes.now) }
    ensures ok { OnOk result (SetsBoth shape.now (V.seen v.old).words (V.seen v.new) (V.kept v.new) i.0 (written (file_bytes shape.now (V.seen v.old).words i.0) off bytes.now)) }
    ensures space { OnOk result (HasSpaceFor shape.now (V.seen v.old).words (length (file_bytes shape.now (V.seen v.old).words i.0)) off bytes.now) }
    ensures too_large { IsErrOf result WriteFail.TooLarge → (0 < length bytes.now) × (largest_size < off + length bytes.now) }
    ensures no_space { IsErrOf result WriteFail.NoSpace → (0 < length bytes.now) × (off + length bytes.now ≤ largest_size) × (length (free_blocks shape.now (V.seen v.old).words) < wanted_blocks (length (file_bytes shape.now (V.seen v.old).words i.0)) (off + length bytes.now)) }
    ensures refused { IsErrOf result WriteFail.NoSpace ⊎ IsErrOf result WriteFail.TooLarge ⊎ IsErrOf result WriteFail.Memory → LeavesInUse (volume_layout shape.now (V.seen v.old).words) (V.seen v.old) (V.kept v.old) (V.seen v.new) (V.kept v.new) }
    ensures fault { (k : ℕ) → IsErrOf result (WriteFail.Fault k) → FaultsAfter shape.now (V.seen v.old).words (V.seen v.new) (V.kept v.new) i.0 off bytes.now k }
    ensures stopped { IsErrOf result WriteFail.Stopped → StopsAs shape.now (V.seen v.old).words (V.seen v.new) (V.kept v.new) i.0 (WriteStops shape.now (V.seen v.old).words i.0 off bytes.now) }
    ensures ready { IsErrOf result WriteFail.Stopped ⊎ Ready shape.now (V.seen v.new) (V.kept v.new) }
    ensures goes { Goes (V.health v.old) (V.below v.old) (V.health v.new) (V.below v.new) }
    ensures ends { EndsBy (V.health v.old) (V.health v.new) ((k : ℕ) × IsErrOf result (WriteFail.Fault k)) (IsErrOf result WriteFail.Stopped) }
    ensures sound { V.sound v.new }
{
    if bytes.is_empty() {
        return Ok(0);
    }
    let count = bytes.len() as u64;
    if off > LARGEST_SIZE || count > LARGEST_SIZE - off {
        return Err(WriteFail::TooLarge);
    }
    write_at(alloc, v, shape, i, inode, off, bytes)?;
    Ok(count)
}

/// Writes `bytes` to file `i`, whose inode is read first, from byte `off` on, and says how many they were. It ends as [`write_at_inode`]
/// does.
pub fn write<V: Volume>(
    alloc: Global,
    v: &mut V,
    shape: &VolumeShape,
    i: Ino,
    off: u64,
    bytes: &[u8],
) -> Result<u64, WriteFail>
    requires sound { V.sound v.old }
    requires ready { Ready shape.now (V.seen v.old) (V.kept v.old) }
    requires file { (held_of shape.now (V.seen v.old).words i.0).kind ≡ file_kind }
    ensures value { IfOk result (λ n. n ≡ length bytes.now) }
    ensures ok { OnOk result (SetsBoth shape.now (V.seen v.old).words (V.seen v.new) (V.kept v.new) i.0 (written (file_bytes shape.now (V.seen v.old).words i.0) off bytes.now)) }
    ensures space { OnOk result (HasSpaceFor shape.now (V.seen v.old).words (length (file_bytes shape.now (V.seen v.old).words i.0)) off bytes.now) }
    ensures too_large { IsErrOf result WriteFail.TooLarge → (0 < length bytes.now) × (largest_size < off + length bytes.now) }
    ensures no_space { IsErrOf result WriteFail.NoSpace → (0 < length bytes.now) × (off + length bytes.now ≤ largest_size) × (length (free_blocks shape.now (V.seen v.old).words) < wanted_blocks (length (file_bytes shape.now (V.seen v.old).words i.0)) (off + length bytes.now)) }
    ensures refused { IsErrOf result WriteFail.NoSpace ⊎ IsErrOf result WriteFail.TooLarge ⊎ IsErrOf result WriteFail.Memory → LeavesInUse (volume_layout shape.now (V.seen v.old).words) (V.seen v.old) (V.kept v.old) (V.seen v.new) (V.kept v.new) }
    ensures fault { (k : ℕ) → IsErrOf result (WriteFail.Fault k) → FaultsAfter shape.now (V.seen v.old).words (V.seen v.new) (V.kept v.new) i.0 off bytes.now k }
    ensures stopped { IsErrOf result WriteFail.Stopped → StopsAs shape.now (V.seen v.old).words (V.seen v.new) (V.kept v.new) i.0 (WriteStops shape.now (V.seen v.old).words i.0 off bytes.now) }
    ensures ready { IsErrOf result WriteFail.Stopped ⊎ Ready shape.now (V.seen v.new) (V.kept v.new) }
    ensures goes { Goes (V.health v.old) (V.below v.old) (V.health v.new) (V.below v.new) }
    ensures ends { EndsBy (V.health v.old) (V.health v.new) ((k : ℕ) × IsErrOf result (WriteFail.Fault k)) (IsErrOf result WriteFail.Stopped) }
    ensures sound { V.sound v.new }
{
    if bytes.is_empty() {
        return Ok(0);
    }
    let count = bytes.len() as u64;
    if off > LARGEST_SIZE || count > LARGEST_SIZE - off {
        return Err(WriteFail::TooLarge);
    }
    let inode = look_inode(v, shape, i)?;
    write_at_inode(alloc, v, shape, i, &inode, off, bytes)
}
