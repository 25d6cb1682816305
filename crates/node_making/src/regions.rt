//! Regions made, and found by their paths.

ghost use Rattle.std.specs.Prelude.{◌≡◌, ◌<◌, ◌≤◌, ℕ, false, length, slice_index, Some, IfOk, OnOk, IsErrOf};
ghost use Rattle.request_ends.specs.Reading.{ReadFor, ReadsSome};
ghost use Rattle.rio_base.specs.Frames.{CanRead};
ghost use Rattle.rio_base.specs.Blocks.{CanName, Ends, EndsBy};
ghost use Rattle.rio_base.specs.Layout.{IsIno, inode_kind};
ghost use Rattle.rio_base.specs.Volume.{CachesStored, Firm, Goes, SameBut, put_run};
ghost use Rattle.rio_base.specs.NodeKinds.{dir_kind, region_kind};
ghost use Rattle.block_alloc.specs.Bitmap.{numbers};
ghost use Rattle.rio_model.specs.declared.node.Node.TheVariants.{Region};
ghost use Rattle.rio_model.specs.declared.state.State.{State};
ghost use Rattle.rio_model.specs.Held.{held_of};
ghost use Rattle.rio_model.specs.Paths.{IsName, IsPath};
ghost use Rattle.rio_model.specs.Placed.{IsFree, volume_layout};
ghost use Rattle.rio_model.specs.Sizes.{blocks_for};
ghost use Rattle.rio_model.specs.VolumeReads.{ReadsAs};
ghost use Rattle.rio_model.specs.VolumeReady.{LeavesInUse, Ready};
ghost use Rattle.inode_table.specs.Inodes.{IsInode};
ghost use Rattle.node_pages.specs.Changes.{Apart, Spares, free_beside};
ghost use Rattle.node_pages.specs.Staging.{Forgets};
ghost use Rattle.directories.specs.Rows.{HasRow};
ghost use Rattle.rio_requests.specs.Answers.{make_new as make_new_of, make_region as make_region_of, new_region};
ghost use Rattle.rio_requests.specs.Parts.{NoneDone};
ghost use Rattle.request_ends.specs.Ends.{CanServe, FileEnds, SaysIno, SaysNumber};
ghost use Rattle.request_ends.specs.Failures.{Faulted};
ghost use Rattle.file_tree.specs.Memos.{InStep};
ghost use Rattle.node_making.specs.NewNodes.{FindsRegion, FitRegion, PlansRegion, SizesRegion, header_name, header_words};
ghost use Rattle.file_tree.specs.Walks.{ino_in};

use crate::new_nodes::{NewNode, make_new};
use directories::plan_add;
use file_tree::{Memo, cut_last, dir_without, is_root, node_inode, walk};
use inode_table::Inode;
use node_pages::{SizeFail, plan_size};
use node_updates::{NodeChange, commit_planned, empty_inode, node_sized};
use request_ends::FileFail;
use rio_base::{
    Block, BlockList, Blocks, Ino, PAGE_BYTES, PageName, REGION, REGION_MAGIC, RunFail, VolFail,
    Volume, VolumeShape,
};
use rio_model::Refusal;
use std::alloc::Global;

/// Pages of the largest node.
const MOST_PAGES: u64 = 1048;

/// Data pages that one page of the heap map has.
const MAPPED_PAGES: u64 = 256;

/// The sizes of a region that is to be made.
#[derive(Clone, Copy, Debug)]
pub struct RegionSizes {
    /// Pages for undo records, 1 at least.
    pub undo_pages: u64,
    /// Pages of data, 1 at least.
    pub data_pages: u64,
    /// Bytes of all its pages: these, the header's and the heap map's.
    pub bytes: u64,
}

/// The sizes of a region, or nothing where no node can have so many bytes.
fn region_sizes(data_pages: u64, undo_pages: u64) -> Option<RegionSizes>
    requires pages { 1 ≤ data_pages }
    requires undo { 1 ≤ undo_pages }
    ensures { SizesRegion undo_pages data_pages result }
{
    if data_pages > MOST_PAGES {
        return None;
    }
    if undo_pages > MOST_PAGES {
        return None;
    }
    let map_pages = (data_pages + (MAPPED_PAGES - 1)) / MAPPED_PAGES;
    let pages = 1 + undo_pages + map_pages + data_pages;
    if pages > MOST_PAGES {
        return None;
    }
    Some(RegionSizes {
        undo_pages,
        data_pages,
        bytes: PAGE_BYTES * pages,
    })
}

/// Stores the header of a region into a block.
fn put_header<V: Volume>(v: &mut V, b: Block, i: Ino, sizes: RegionSizes) -> Result<(), VolFail>
    requires sound { V.sound v.old }
    requires place { b.0 < (V.seen v.old).count }
    requires name { CanName (V.seen v.old) b.0 (Some (header_name i)) }
    requires idle { (V.kept v.old).updating ≡ false }
    ensures ok { OnOk result ((V.seen v.new).words ≡ put_run (V.seen v.old).words b.0 0 3 (header_words sizes)) }
    ensures others { SameBut b.0 (V.seen v.old).words (V.seen v.new).words }
    ensures standing { SameBut b.0 (V.kept v.old).standing (V.kept v.new).standing }
    ensures firm { Firm (V.kept v.old) (V.kept v.new) }
    ensures count { (V.seen v.new).count ≡ (V.seen v.old).count }
    ensures caches { CachesStored (V.seen v.old) (V.seen v.new) b.0 (Some (header_name i)) }
    ensures idle { (V.kept v.new).updating ≡ false }
    ensures goes { Goes (V.health v.old) (V.below v.old) (V.health v.new) (V.below v.new) }
    ensures ends { Ends (V.health v.old) (V.health v.new) result }
    ensures sound { V.sound v.new }
{
    let name = PageName {
        file: i,
        index: 0,
        size: PAGE_BYTES as u32,
    };
    let words = [REGION_MAGIC, sizes.undo_pages, sizes.data_pages];
    match v.store_run(b, Some(name), 0, &words) {
        Ok(()) => Ok(()),
        Err(RunFail::Fault(_)) => Err(VolFail::Fault),
        Err(RunFail::Stopped) => Err(VolFail::Stopped),
    }
}

/// Prepares a new region in inode `i`, which is free: its pages are free blocks that are not in `skip`, and read as its
/// words already.
fn plan_region<V: Volume>(
    alloc: Global,
    v: &mut V,
    shape: &VolumeShape,
    i: Ino,
    sizes: RegionSizes,
    skip: &BlockList,
) -> Result<NodeChange, SizeFail>
    requires sound { V.sound v.old }
    requires ready { Ready shape.now (V.seen v.old) (V.kept v.old) }
    requires ino { IsIno shape.now i.0 }
    requires free { inode_kind (V.seen v.old).words i.0 ≡ 0 }
    requires sizes { FitRegion sizes }
    requires skip { (t : ℕ) → t < length skip.now → IsFree (volume_layout shape.now (V.seen v.old).words) (slice_index (numbers skip.now) t) }
    requires once { Apart (numbers skip.now) }
    ensures ok { IfOk result (PlansRegion shape.now (V.seen v.old).words (V.seen v.new) (V.kept v.new) i.0 sizes (numbers skip.now)) }
    ensures space { OnOk result (blocks_for sizes.bytes ≤ length (free_beside shape.now (V.seen v.old).words (numbers skip.now))) }
    ensures no_space { IsErrOf result SizeFail.NoSpace → length (free_beside shape.now (V.seen v.old).words (numbers skip.now)) < blocks_for sizes.bytes }
    ensures fits { IsErrOf result SizeFail.TooLarge → ⊥ }
    ensures leaves { LeavesInUse (volume_layout shape.now (V.seen v.old).words) (V.seen v.old) (V.kept v.old) (V.seen v.new) (V.kept v.new) }
    ensures spared { Spares (numbers skip.now) (V.seen v.old) (V.kept v.old) (V.seen v.new) (V.kept v.new) }
    ensures goes { Goes (V.health v.old) (V.below v.old) (V.health v.new) (V.below v.new) }
    ensures ends { EndsBy (V.health v.old) (V.health v.new) (IsErrOf result SizeFail.Fault) (IsErrOf result SizeFail.Stopped) }
    ensures sound { V.sound v.new }
{
    let inode = empty_inode(REGION);
    let change = plan_size(alloc, v, shape, i, &inode, sizes.bytes, skip)?;
    let header = change.taken.as_slice()[0];
    put_header(v, header, i, sizes)?;
    Ok(node_sized(i, change))
}

/// Makes a region in inode `i`, and its row, in one update.
pub fn make_region_row<V: Volume>(
    alloc: Global,
    v: &mut V,
    shape: &VolumeShape,
    dir: Ino,
    name: &[u8],
    i: Ino,
    sizes: RegionSizes,
) -> Result<(), FileFail>
    requires sound { V.sound v.old }
    requires can { CanServe shape.now (V.seen v.old) (V.kept v.old) }
    requires dir { (held_of shape.now (V.seen v.old).words dir.0).kind ≡ dir_kind }
    requires is_name { IsName name.now }
    requires absent { (n : ℕ) → HasRow (held_of shape.now (V.seen v.old).words dir.0) name.now n → ⊥ }
    requires ino { IsIno shape.now i.0 }
    requires free { inode_kind (V.seen v.old).words i.0 ≡ 0 }
    requires sizes { FitRegion sizes }
    ensures leaves { (s : State) → ReadsAs shape.now (V.seen v.old).words s → FileEnds (SaysNumber i.0) shape.now (V.seen v.old) (V.kept v.old) (V.seen v.new) (V.kept v.new) s (make_new_of s dir.0 name.now (Region (new_region sizes.data_pages sizes.undo_pages)) (Some i.0)) (NoneDone s) result }
    ensures forgets { OnOk result (Forgets (volume_layout shape.now (V.seen v.old).words) (volume_layout shape.now (V.seen v.new).words) (V.seen v.new)) }
    ensures goes { Goes (V.health v.old) (V.below v.old) (V.health v.new) (V.below v.new) }
    ensures ends { EndsBy (V.health v.old) (V.health v.new) (Faulted result) (IsErrOf result FileFail.Stopped) }
    ensures sound { V.sound v.new }
{
    let row = plan_add(alloc, v, shape, dir, name, i)?;
    let node = plan_region(alloc, v, shape, i, sizes, &row.taken)?;
    let changes = [NodeChange::from(row), node];
    commit_planned(v, shape, &changes)
}

/// Makes a region of so many data pages of zeros and undo pages, at a path.
pub fn make_region<V: Volume>(
    alloc: Global,
    v: &mut V,
    shape: &VolumeShape,
    memo: &mut Memo,
    path: &[u8],
    data_pages: u64,
    undo_pages: u64,
) -> Result<Ino, FileFail>
    requires sound { V.sound v.old }
    requires can { CanServe shape.now (V.seen v.old) (V.kept v.old) }
    requires in_step { InStep shape.now (V.seen v.old).words memo.old }
    requires path { IsPath path.now }
    requires pages { 1 ≤ data_pages }
    requires undo { 1 ≤ undo_pages }
    ensures leaves { (s : State) → ReadsAs shape.now (V.seen v.old).words s → FileEnds SaysIno shape.now (V.seen v.old) (V.kept v.old) (V.seen v.new) (V.kept v.new) s (make_region_of s path.now data_pages undo_pages) (NoneDone s) result }
    ensures in_step { (IsErrOf result FileFail.Stopped → ⊥) → InStep shape.now (V.seen v.new).words memo.new }
    ensures forgets { OnOk result (Forgets (volume_layout shape.now (V.seen v.old).words) (volume_layout shape.now (V.seen v.new).words) (V.seen v.new)) }
    ensures goes { Goes (V.health v.old) (V.below v.old) (V.health v.new) (V.below v.new) }
    ensures ends { EndsBy (V.health v.old) (V.health v.new) (Faulted result) (IsErrOf result FileFail.Stopped) }
    ensures sound { V.sound v.new }
{
    if is_root(path) {
        return Err(FileFail::Refused(Refusal::Exists as u8));
    }
    let (front, name) = cut_last(path);
    let dir = dir_without(v, shape, memo, front, name)?;
    let Some(sizes) = region_sizes(data_pages, undo_pages) else {
        return Err(FileFail::Refused(Refusal::TooLarge as u8));
    };
    make_new(alloc, v, shape, memo, dir, name, NewNode::Sized(sizes))
}

/// The region at a path, and its inode. Never answers want of memory: names that do not fit are not held.
pub fn region_at<V: Blocks>(
    v: &mut V,
    shape: &VolumeShape,
    memo: &mut Memo,
    path: &[u8],
) -> Result<(Ino, Inode), FileFail>
    requires can { CanRead V.seen V.sound (ReadsSome shape.now) v.old }
    requires in_step { InStep shape.now (V.seen v.old).words memo.old }
    requires path { IsPath path.now }
    ensures found { (s : State) → ReadsAs shape.now (V.seen v.old).words s → FindsRegion s path.now (ino_in result) }
    ensures region { IfOk result (λ at. (held_of shape.now (V.seen v.old).words at.0.0).kind ≡ region_kind) }
    ensures ino { IfOk result (λ at. IsIno shape.now at.0.0) }
    ensures inode { IfOk result (λ at. IsInode (V.seen v.old).words at.0.0 at.1) }
    ensures in_step { InStep shape.now (V.seen v.old).words memo.new }
    ensures read { ReadFor V.seen V.health V.sound V.passes shape.now v.old v.new result }
    ensures memory { IsErrOf result FileFail.Memory → ⊥ }
{
    let i = walk(v, shape, memo, path)?;
    let inode = node_inode(v, shape, i)?;
    if inode.kind != REGION {
        return Err(FileFail::Refused(Refusal::NotARegion as u8));
    }
    Ok((i, inode))
}
