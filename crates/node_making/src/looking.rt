//! What stands at a path, and the names of a directory.

ghost use Rattle.std.specs.Prelude.{◌≡◌, ◌*◌, IfOk, IsErrOf};
ghost use Rattle.rio_base.specs.Blocks.{EndsBy};
ghost use Rattle.rio_base.specs.Volume.{Goes};
ghost use Rattle.rio_base.specs.NodeKinds.{region_kind};
ghost use Rattle.rio_model.specs.Held.{held_of};
ghost use Rattle.rio_model.specs.Placed.{volume_layout};
ghost use Rattle.rio_model.specs.VolumeReads.{ReadsAs};
ghost use Rattle.rio_model.specs.VolumeReady.{LeavesInUse};
ghost use Rattle.rio_model.specs.declared.state.State.{State};
ghost use Rattle.rio_requests.specs.Answers.{stat as stat_of, list as list_of};
ghost use Rattle.rio_requests.specs.Parts.{NoneDone};
ghost use Rattle.rio_model.specs.Paths.{IsPath};
ghost use Rattle.request_ends.specs.Ends.{CanServe, FileEnds, SaysNames, SaysStat};
ghost use Rattle.request_ends.specs.Failures.{Faulted, Unrefused};
ghost use Rattle.file_tree.specs.Memos.{InStep};

use directories::names;
use file_tree::{Memo, node_inode, walk, walk_to_dir};
use name_list::NameList;
use node_pages::block_of;
use request_ends::FileFail;
use rio_base::{Ino, PAGE_BYTES, PageName, REGION, Volume, VolumeShape};
use std::alloc::Global;

/// The word of a region's header that has the number of its data pages.
const DATA_PAGES: u16 = 2;

/// The bytes of a region's data pages.
fn region_bytes<V: Volume>(v: &mut V, shape: &VolumeShape, i: Ino) -> Result<u64, FileFail>
    requires sound { V.sound v.old }
    requires can { CanServe shape.now (V.seen v.old) (V.kept v.old) }
    requires region { (held_of shape.now (V.seen v.old).words i.0).kind ≡ region_kind }
    ensures value { IfOk result (λ n. n ≡ 4096 * (held_of shape.now (V.seen v.old).words i.0).word 2) }
    ensures other { Unrefused result }
    ensures leaves { LeavesInUse (volume_layout shape.now (V.seen v.old).words) (V.seen v.old) (V.kept v.old) (V.seen v.new) (V.kept v.new) }
    ensures words { (V.seen v.new).words ≡ (V.seen v.old).words }
    ensures can { CanServe shape.now (V.seen v.new) (V.kept v.new) }
    ensures goes { Goes (V.health v.old) (V.below v.old) (V.health v.new) (V.below v.new) }
    ensures ends { EndsBy (V.health v.old) (V.health v.new) (Faulted result) (IsErrOf result FileFail.Stopped) }
    ensures sound { V.sound v.new }
{
    let header = block_of(v, shape, i, 0)?;
    let name = PageName {
        file: i,
        index: 0,
        size: PAGE_BYTES as u32,
    };
    let pages = v.word(header, Some(name), DATA_PAGES)?;
    Ok(PAGE_BYTES * pages)
}

/// Inode number, kind and size of the node at a path.
pub fn stat<V: Volume>(
    alloc: Global,
    v: &mut V,
    shape: &VolumeShape,
    memo: &mut Memo,
    path: &[u8],
) -> Result<(Ino, u8, u64), FileFail>
    requires sound { V.sound v.old }
    requires can { CanServe shape.now (V.seen v.old) (V.kept v.old) }
    requires in_step { InStep shape.now (V.seen v.old).words memo.old }
    requires path { IsPath path.now }
    ensures leaves { (s : State) → ReadsAs shape.now (V.seen v.old).words s → FileEnds SaysStat shape.now (V.seen v.old) (V.kept v.old) (V.seen v.new) (V.kept v.new) s (stat_of s path.now) (NoneDone s) result }
    ensures in_step { (IsErrOf result FileFail.Stopped → ⊥) → InStep shape.now (V.seen v.new).words memo.new }
    ensures goes { Goes (V.health v.old) (V.below v.old) (V.health v.new) (V.below v.new) }
    ensures ends { EndsBy (V.health v.old) (V.health v.new) (Faulted result) (IsErrOf result FileFail.Stopped) }
    ensures sound { V.sound v.new }
{
    let i = walk(v, shape, memo, path)?;
    let inode = node_inode(v, shape, i)?;
    let size = if inode.kind == REGION {
        region_bytes(v, shape, i)?
    } else {
        inode.size
    };
    Ok((i, inode.kind, size))
}

/// All names of the directory at a path, in byte order.
pub fn list<V: Volume>(
    alloc: Global,
    v: &mut V,
    shape: &VolumeShape,
    memo: &mut Memo,
    path: &[u8],
) -> Result<NameList, FileFail>
    requires sound { V.sound v.old }
    requires can { CanServe shape.now (V.seen v.old) (V.kept v.old) }
    requires in_step { InStep shape.now (V.seen v.old).words memo.old }
    requires path { IsPath path.now }
    ensures leaves { (s : State) → ReadsAs shape.now (V.seen v.old).words s → FileEnds SaysNames shape.now (V.seen v.old) (V.kept v.old) (V.seen v.new) (V.kept v.new) s (list_of s path.now) (NoneDone s) result }
    ensures in_step { (IsErrOf result FileFail.Stopped → ⊥) → InStep shape.now (V.seen v.new).words memo.new }
    ensures goes { Goes (V.health v.old) (V.below v.old) (V.health v.new) (V.below v.new) }
    ensures ends { EndsBy (V.health v.old) (V.health v.new) (Faulted result) (IsErrOf result FileFail.Stopped) }
    ensures sound { V.sound v.new }
{
    let dir = walk_to_dir(v, shape, memo, path)?;
    let list = names(alloc, v, shape, dir)?;
    Ok(list)
}
