//! Bytes written over bytes that a file has.

ghost use Rattle.std.specs.Prelude.{◌≡◌, ◌+◌, ◌*◌, ◌/◌, ◌<◌, ◌≤◌, ℕ, length, IsErrOf};
ghost use Rattle.rio_base.specs.Blocks.{EndsBy};
ghost use Rattle.rio_base.specs.Layout.{IsIno};
ghost use Rattle.rio_base.specs.Volume.{Goes};
ghost use Rattle.rio_base.specs.NodeKinds.{file_kind};
ghost use Rattle.rio_model.specs.Placed.{placed_at};
ghost use Rattle.rio_model.specs.Sizes.{pages};
ghost use Rattle.rio_model.specs.VolumeReady.{Ready};
ghost use Rattle.block_alloc.specs.Bitmap.{numbers};
ghost use Rattle.inode_table.specs.Inodes.{IsInode};
ghost use Rattle.node_pages.specs.LookingUp.{page_blocks};
ghost use Rattle.file_pages.specs.Writing.{WriteLeaves};

use crate::spans::store_span;
use inode_table::Inode;
use node_pages::{WriteFail, only_direct, page_blocks};
use rio_base::{Block, Ino, PAGE_BYTES, Volume, VolumeShape};
use std::alloc::Global;

/// Writes bytes of file `i`, which has `size` bytes, in rising order. These blocks are its pages from page `first` on, the one
/// with byte `off`, and the bytes lie within them.
fn write_pages<V: Volume>(
    v: &mut V,
    shape: &VolumeShape,
    i: Ino,
    size: u64,
    first: u32,
    blocks: &[Block],
    off: u64,
    bytes: &[u8],
) -> Result<(), WriteFail>
    requires sound { V.sound v.old }
    requires ready { Ready shape.now (V.seen v.old) (V.kept v.old) }
    requires ino { IsIno shape.now i.0 }
    requires file { (placed_at (V.seen v.old).words i.0).kind ≡ file_kind }
    requires size { size ≡ (placed_at (V.seen v.old).words i.0).size }
    requires some { 0 < length bytes.now }
    requires within { off + length bytes.now ≤ size }
    requires page { first ≡ off / 4096 }
    requires to { off + length bytes.now ≤ 4096 * (first + length blocks.now) }
    requires few { first + length blocks.now ≤ 1048 }
    requires pages { first + length blocks.now ≤ pages size }
    requires blocks { numbers blocks.now ≡ page_blocks (placed_at (V.seen v.old).words i.0) first (length blocks.now) }
    ensures leaves { WriteLeaves shape.now (V.seen v.old) (V.kept v.old) (V.seen v.new) (V.kept v.new) i.0 off bytes.now result }
    ensures spacious { IsErrOf result WriteFail.NoSpace → ⊥ }
    ensures small { IsErrOf result WriteFail.TooLarge → ⊥ }
    ensures goes { Goes (V.health v.old) (V.below v.old) (V.health v.new) (V.below v.new) }
    ensures ends { EndsBy (V.health v.old) (V.health v.new) ((k : ℕ) × IsErrOf result (WriteFail.Fault k)) (IsErrOf result WriteFail.Stopped) }
    ensures sound { V.sound v.new }
{
    store_span(v, i, size, blocks, first, off, bytes)?;
    Ok(())
}

/// Writes bytes of file `i` that lie within its size, from byte `off` on in rising order.
pub fn write_within<V: Volume>(
    alloc: Global,
    v: &mut V,
    shape: &VolumeShape,
    i: Ino,
    inode: &Inode,
    off: u64,
    bytes: &[u8],
) -> Result<(), WriteFail>
    requires sound { V.sound v.old }
    requires ready { Ready shape.now (V.seen v.old) (V.kept v.old) }
    requires ino { IsIno shape.now i.0 }
    requires inode { IsInode (V.seen v.old).words i.0 inode.now }
    requires file { inode.now.kind ≡ file_kind }
    requires some { 0 < length bytes.now }
    requires within { off + length bytes.now ≤ inode.now.size }
    ensures leaves { WriteLeaves shape.now (V.seen v.old) (V.kept v.old) (V.seen v.new) (V.kept v.new) i.0 off bytes.now result }
    ensures spacious { IsErrOf result WriteFail.NoSpace → ⊥ }
    ensures small { IsErrOf result WriteFail.TooLarge → ⊥ }
    ensures goes { Goes (V.health v.old) (V.below v.old) (V.health v.new) (V.below v.new) }
    ensures ends { EndsBy (V.health v.old) (V.health v.new) ((k : ℕ) × IsErrOf result (WriteFail.Fault k)) (IsErrOf result WriteFail.Stopped) }
    ensures sound { V.sound v.new }
{
    let first = (off / PAGE_BYTES) as u32;
    let end = (off + bytes.len() as u64).div_ceil(PAGE_BYTES) as u32;
    if let Some(b) = only_direct(inode, first, end) {
        return write_pages(v, shape, i, inode.size, first, &[b], off, bytes);
    }
    let blocks = page_blocks(alloc, v, shape, i, inode, first, end)?;
    write_pages(v, shape, i, inode.size, first, &blocks, off, bytes)
}
