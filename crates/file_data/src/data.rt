//! The bytes of a file at a path: written, read, and their number changed.

ghost use Rattle.std.specs.Prelude.{◌≡◌, IfOk, IsErrOf, OnOk};
ghost use Rattle.request_ends.specs.Reading.{ReadFor, ReadsSome};
ghost use Rattle.rio_base.specs.Frames.{CanRead};
ghost use Rattle.rio_base.specs.Blocks.{EndsBy};
ghost use Rattle.rio_base.specs.Volume.{Goes};
ghost use Rattle.rio_base.specs.NodeKinds.{file_kind};
ghost use Rattle.rio_model.specs.Held.{held_of};
ghost use Rattle.rio_model.specs.Paths.{IsPath, names_of, walk as walk_of};
ghost use Rattle.rio_model.specs.Placed.{volume_layout};
ghost use Rattle.rio_model.specs.VolumeReads.{ReadsAs};
ghost use Rattle.rio_model.specs.declared.state.State.{State};
ghost use Rattle.rio_requests.specs.Answers.{write as write_of, truncate as truncate_of, read as read_of};
ghost use Rattle.rio_requests.specs.Parts.{NoneDone, WriteDone};
ghost use Rattle.node_pages.specs.Staging.{Forgets};
ghost use Rattle.request_ends.specs.Ends.{CanServe, FileEnds, SaysBytes, SaysCount, SaysDone};
ghost use Rattle.request_ends.specs.Failures.{Faulted};
ghost use Rattle.file_tree.specs.Memos.{InStep};
ghost use Rattle.inode_table.specs.Inodes.{IsInode};
ghost use Rattle.file_tree.specs.Walks.{FileComes, ino_in};

use file_tree::{Memo, inode_of, walk};
use inode_table::Inode;
use request_ends::FileFail;
use rio_base::{Blocks, DIRECTORY, Ino, Octets, REGION, Volume, VolumeShape};
use rio_model::Refusal;
use std::alloc::Global;

/// The file at a path, and its inode.
fn walk_to_file<V: Blocks>(
    v: &mut V,
    shape: &VolumeShape,
    memo: &mut Memo,
    path: &[u8],
) -> Result<(Ino, Inode), FileFail>
    requires can { CanRead V.seen V.sound (ReadsSome shape.now) v.old }
    requires in_step { InStep shape.now (V.seen v.old).words memo.old }
    ensures value { (s : State) → ReadsAs shape.now (V.seen v.old).words s → FileComes s (walk_of s 1 (names_of path.now)) (ino_in result) }
    ensures file { IfOk result (λ at. (held_of shape.now (V.seen v.old).words at.0.0).kind ≡ file_kind) }
    ensures inode { IfOk result (λ at. IsInode (V.seen v.old).words at.0.0 at.1) }
    ensures in_step { InStep shape.now (V.seen v.old).words memo.new }
    ensures read { ReadFor V.seen V.health V.sound V.passes shape.now v.old v.new result }
{
    let i = walk(v, shape, memo, path)?;
    let inode = inode_of(v, shape, i)?;
    match inode.kind {
        DIRECTORY => Err(FileFail::Refused(Refusal::IsADirectory as u8)),
        REGION => Err(FileFail::Refused(Refusal::IsARegion as u8)),
        _ => Ok((i, inode)),
    }
}

/// Writes bytes to a file from byte `off` on.
pub fn write<V: Volume>(
    alloc: Global,
    v: &mut V,
    shape: &VolumeShape,
    memo: &mut Memo,
    path: &[u8],
    off: u64,
    bytes: &[u8],
) -> Result<u64, FileFail>
    requires sound { V.sound v.old }
    requires can { CanServe shape.now (V.seen v.old) (V.kept v.old) }
    requires in_step { InStep shape.now (V.seen v.old).words memo.old }
    requires path { IsPath path.now }
    ensures leaves { (s : State) → ReadsAs shape.now (V.seen v.old).words s → FileEnds SaysCount shape.now (V.seen v.old) (V.kept v.old) (V.seen v.new) (V.kept v.new) s (write_of s path.now off bytes.now) (WriteDone s path.now off bytes.now (write_of s path.now off bytes.now)) result }
    ensures in_step { (IsErrOf result FileFail.Stopped → ⊥) → InStep shape.now (V.seen v.new).words memo.new }
    ensures goes { Goes (V.health v.old) (V.below v.old) (V.health v.new) (V.below v.new) }
    ensures ends { EndsBy (V.health v.old) (V.health v.new) (Faulted result) (IsErrOf result FileFail.Stopped) }
    ensures sound { V.sound v.new }
{
    let (i, inode) = walk_to_file(v, shape, memo, path)?;
    let count = file_pages::write_at_inode(alloc, v, shape, i, &inode, off, bytes)?;
    Ok(count)
}

/// Gives a file another size.
pub fn truncate<V: Volume>(
    alloc: Global,
    v: &mut V,
    shape: &VolumeShape,
    memo: &mut Memo,
    path: &[u8],
    len: u64,
) -> Result<(), FileFail>
    requires sound { V.sound v.old }
    requires can { CanServe shape.now (V.seen v.old) (V.kept v.old) }
    requires in_step { InStep shape.now (V.seen v.old).words memo.old }
    requires path { IsPath path.now }
    ensures leaves { (s : State) → ReadsAs shape.now (V.seen v.old).words s → FileEnds SaysDone shape.now (V.seen v.old) (V.kept v.old) (V.seen v.new) (V.kept v.new) s (truncate_of s path.now len) (NoneDone s) result }
    ensures in_step { (IsErrOf result FileFail.Stopped → ⊥) → InStep shape.now (V.seen v.new).words memo.new }
    ensures forgets { OnOk result (Forgets (volume_layout shape.now (V.seen v.old).words) (volume_layout shape.now (V.seen v.new).words) (V.seen v.new)) }
    ensures goes { Goes (V.health v.old) (V.below v.old) (V.health v.new) (V.below v.new) }
    ensures ends { EndsBy (V.health v.old) (V.health v.new) (Faulted result) (IsErrOf result FileFail.Stopped) }
    ensures sound { V.sound v.new }
{
    let (i, inode) = walk_to_file(v, shape, memo, path)?;
    file_pages::resize_at_inode(alloc, v, shape, i, &inode, len)?;
    Ok(())
}

/// Bytes of a file from byte `off` on.
pub fn read<V: Volume>(
    alloc: Global,
    v: &mut V,
    shape: &VolumeShape,
    memo: &mut Memo,
    path: &[u8],
    off: u64,
    len: u64,
) -> Result<Octets, FileFail>
    requires sound { V.sound v.old }
    requires can { CanServe shape.now (V.seen v.old) (V.kept v.old) }
    requires in_step { InStep shape.now (V.seen v.old).words memo.old }
    requires path { IsPath path.now }
    ensures leaves { (s : State) → ReadsAs shape.now (V.seen v.old).words s → FileEnds SaysBytes shape.now (V.seen v.old) (V.kept v.old) (V.seen v.new) (V.kept v.new) s (read_of s path.now off len) (NoneDone s) result }
    ensures in_step { (IsErrOf result FileFail.Stopped → ⊥) → InStep shape.now (V.seen v.new).words memo.new }
    ensures goes { Goes (V.health v.old) (V.below v.old) (V.health v.new) (V.below v.new) }
    ensures ends { EndsBy (V.health v.old) (V.health v.new) (Faulted result) (IsErrOf result FileFail.Stopped) }
    ensures sound { V.sound v.new }
{
    let (i, inode) = walk_to_file(v, shape, memo, path)?;
    let bytes = file_pages::read_at_inode(alloc, v, shape, i, &inode, off, len)?;
    Ok(bytes)
}
