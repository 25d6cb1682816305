//! Changes of size that are prepared: of a file, and of a new node.

ghost use Rattle.std.specs.Prelude.{◌≡◌, ◌≤◌, IfOk};
ghost use Rattle.rio_base.specs.NodeKinds.{file_kind, region_kind};
ghost use Rattle.block_alloc.specs.Bitmap.{numbers};
ghost use Rattle.inode_table.specs.Inodes.{IsInode};
ghost use Rattle.file_pages_tests.specs.TestFiles.{CanSkip, FilesReady, IsTestFile};

use block_alloc::{TakeFail, take};
use inode_table::{Inode, read_inode};
use node_pages::{SizeChange, SizeFail, block_of, plan_size};
use rio_base::{Block, BlockList, Ino, VolFail, Volume, VolumeShape};
use std::alloc::Global;

/// An inode that is free.
const NEW: Ino = Ino(4);

/// Bytes of a new node.
pub(crate) const NEW_SIZE: u64 = 4 * 4096;

/// The inode of a file.
fn file_inode<V: Volume>(v: &mut V, shape: &VolumeShape, i: Ino) -> Result<Inode, VolFail>
    requires sound { V.sound v.old }
    requires files { FilesReady shape.now (V.seen v.old) (V.kept v.old) }
    requires file { IsTestFile i.0 }
    ensures is { IfOk result (IsInode (V.seen v.new).words i.0) }
    ensures kind { IfOk result (λ inode. inode.kind ≡ file_kind) }
    ensures words { (V.seen v.new).words ≡ (V.seen v.old).words }
    ensures files { FilesReady shape.now (V.seen v.new) (V.kept v.new) }
    ensures sound { V.sound v.new }
{
    read_inode(v, shape, i)
}

/// The block of a page of a file. None where the file has no such page.
pub(crate) fn page_block<V: Volume>(
    v: &mut V,
    shape: &VolumeShape,
    i: Ino,
    index: u32,
) -> Result<Option<Block>, VolFail>
    requires sound { V.sound v.old }
    requires files { FilesReady shape.now (V.seen v.old) (V.kept v.old) }
    requires file { IsTestFile i.0 }
    ensures files { FilesReady shape.now (V.seen v.new) (V.kept v.new) }
    ensures sound { V.sound v.new }
{
    let inode = file_inode(v, shape, i)?;
    if inode.size <= 4096 * index as u64 {
        return Ok(None);
    }
    let block = block_of(v, shape, i, index)?;
    Ok(Some(block))
}

/// The `n` lowest free blocks, which a plan may skip.
pub(crate) fn lowest<V: Volume>(
    alloc: Global,
    v: &mut V,
    shape: &VolumeShape,
    n: u32,
) -> Result<BlockList, TakeFail>
    requires sound { V.sound v.old }
    requires files { FilesReady shape.now (V.seen v.old) (V.kept v.old) }
    ensures skip { IfOk result (λ blocks. CanSkip shape.now (V.seen v.new) (numbers blocks)) }
    ensures files { FilesReady shape.now (V.seen v.new) (V.kept v.new) }
    ensures sound { V.sound v.new }
{
    let blocks = take(alloc, v, shape, n)?;
    Ok(blocks)
}

/// Prepares another size of a file.
pub(crate) fn plan_file<V: Volume>(
    alloc: Global,
    v: &mut V,
    shape: &VolumeShape,
    i: Ino,
    len: u64,
    skip: &BlockList,
) -> Result<SizeChange, SizeFail>
    requires sound { V.sound v.old }
    requires files { FilesReady shape.now (V.seen v.old) (V.kept v.old) }
    requires file { IsTestFile i.0 }
    requires skip { CanSkip shape.now (V.seen v.old) (numbers skip.now) }
    ensures sound { V.sound v.new }
{
    let inode = file_inode(v, shape, i)?;
    plan_size(alloc, v, shape, i, &inode, len, skip)
}

/// Prepares four pages of a new node.
pub(crate) fn plan_node<V: Volume>(
    alloc: Global,
    v: &mut V,
    shape: &VolumeShape,
    kind: u8,
    skip: &BlockList,
) -> Result<SizeChange, SizeFail>
    requires sound { V.sound v.old }
    requires files { FilesReady shape.now (V.seen v.old) (V.kept v.old) }
    requires kind { (1 ≤ kind) × (kind ≤ region_kind) }
    requires skip { CanSkip shape.now (V.seen v.old) (numbers skip.now) }
    ensures sound { V.sound v.new }
{
    let inode = Inode {
        kind,
        size: 0,
        direct: [0; 24],
        indirect: 0,
        double: 0,
    };
    plan_size(alloc, v, shape, NEW, &inode, NEW_SIZE, skip)
}
