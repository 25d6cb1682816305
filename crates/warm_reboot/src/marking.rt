//! What the owners of blocks say of the entries: whose page is stale, and whether an entry bears a name that its block may.

ghost use Rattle.std.specs.Prelude.{◌≡◌, ◌<◌, ◌≤◌, ◌+◌, ◌-◌, ◌*◌, ◌/◌, ◌↔◌, ℕ, List, Some, true, false, IfOk, IsTrue, length, min};
ghost use Rattle.rio_base.specs.Blocks.{Ends, Looks};
ghost use Rattle.rio_base.specs.BlockSets.{CachesBy};
ghost use Rattle.rio_base.specs.Shapes.{HasShape, IsServed, reserved};
ghost use Rattle.rio_model.specs.Censuses.{HasOwners};
ghost use Rattle.rio_model.specs.Cover.{name_in};
ghost use Rattle.rio_model.specs.Placed.{AtPage, Layout, volume_layout};
ghost use Rattle.rio_model.specs.Registry.{HasLayout, IsValid, frames_of, is_data, tag_at, tag_block};
ghost use Rattle.rio_model.specs.Standing.{EntryFits};
ghost use Rattle.rio_model.specs.VolumeReady.{Bears};
ghost use Rattle.rio_model.specs.VolumeRules.{IsLaid};
ghost use Rattle.inode_table.specs.Inodes.{IsInode, IsMetadata};
ghost use Rattle.registry.specs.Entries.{entry_of};
ghost use Rattle.page_restore.specs.Stale.{MarksStale, SaysStale};

use inode_table::{BLOCK_INODES, Inode, read_inode};
use registry::{Entry, Tag, frame_count, load_tag};
use rio_base::{Blocks, DIRECTORY, Ino, Machine, PAGE_BYTES, VolFail, VolumeShape};
use rio_model::Owner;
use std::alloc::{AllocError, Global};

/// The blocks of superblock and bitmap.
const FIRST_BLOCKS: u32 = 2;

// ---- stale pages

/// A mark for each entry that says whether its page is stale: one of data whose block no node has. `owners` are those of the
/// blocks, and each valid entry's block is one of these. `Err` where no memory is left.
pub fn mark_stale<M: Machine>(
    alloc: Global,
    m: &M,
    owners: &[Owner],
) -> Result<Vec<bool>, AllocError>
    requires layout { HasLayout (M.contents m.now).words (M.run m.now).scratch }
    requires within { (k : ℕ) → IsValid (M.contents m.now).words k → tag_block (tag_at (M.contents m.now).words k) < length owners.now }
    ensures { IfOk result (λ marks. (l : Layout) → HasOwners l owners.now → MarksStale l (M.contents m.now).words marks.items) }
{
    let frames = frame_count(m);
    let mut marks = vec![in alloc; false; frames as usize]?;
    for k in 0..frames {
        marks[k as usize] = is_stale(m, k, owners);
    }
    Ok(marks)
}

/// Whether the page of entry `k` is stale.
fn is_stale<M: Machine>(m: &M, k: u32, owners: &[Owner]) -> bool
    requires layout { HasLayout (M.contents m.now).words (M.run m.now).scratch }
    requires entry { k < frames_of (M.contents m.now).words }
    requires within { IsValid (M.contents m.now).words k → tag_block (tag_at (M.contents m.now).words k) < length owners.now }
    ensures { (l : Layout) → HasOwners l owners.now → SaysStale l (M.contents m.now).words k result }
{
    let tag = load_tag(m, k);
    if !tag.is_valid() {
        return false;
    }
    if !tag.is_data() {
        return false;
    }
    match owners[tag.block().0 as usize] {
        Owner::Nobody => true,
        Owner::PageOf(_, _) | Owner::TableOf(_, _) => false,
    }
}

// ---- names

/// Whether an entry's block is one of the volume's and may bear its name: none where it is reserved, a table's or a
/// directory's page, and else that of the page which it is, with at least the bytes that its node has there. `owners` are
/// those of the blocks. `Fault` and `Stopped` are those of reading the node's inode.
pub fn entry_fits<V: Blocks>(
    v: &mut V,
    shape: &VolumeShape,
    owners: &[Owner],
    entry: &Entry,
) -> Result<bool, VolFail>
    requires sound { V.sound v.old }
    requires shape { HasShape shape.now (V.seen v.old) }
    requires served { IsServed shape.now }
    requires laid { IsLaid (volume_layout shape.now (V.seen v.old).words) }
    requires owners { HasOwners (volume_layout shape.now (V.seen v.old).words) owners.now }
    ensures value { IfOk result (λ fits. (words : List ℕ) (k : ℕ) → entry.now ≡ entry_of words k → IsTrue fits ↔ EntryFits (volume_layout shape.now (V.seen v.old).words) words k) }
    ensures looks { Looks (V.seen v.old) (V.seen v.new) }
    ensures shape { HasShape shape.now (V.seen v.new) }
    ensures caches { CachesBy (IsMetadata shape.now) (V.seen v.old) (V.seen v.new) }
    ensures passes { V.passes v.old v.new }
    ensures ends { Ends (V.health v.old) (V.health v.new) result }
    ensures sound { V.sound v.new }
{
    let tag = Tag(entry.tag);
    let block = tag.block();
    if block.0 >= shape.blocks {
        return Ok(false);
    }
    match owners[block.0 as usize] {
        Owner::Nobody => Ok(free_fits(shape, tag)),
        Owner::TableOf(_, _) => Ok(!tag.is_data()),
        Owner::PageOf(i, page) => {
            let inode = read_inode(v, shape, i)?;
            Ok(page_fits(entry, &inode, i, page))
        }
    }
}

/// Whether an entry with this tag may be that of a block that no node has: not of data, where the block is reserved.
fn free_fits(shape: &VolumeShape, tag: Tag) -> bool
    requires served { IsServed shape.now }
    ensures { IsTrue result ↔ (tag_block tag.0 < reserved shape.now → is_data tag.0 ≡ false) }
{
    if !tag.is_data() {
        return true;
    }
    tag.block().0 >= reserved_blocks(shape)
}

/// How many blocks of a volume of version 1 are reserved.
fn reserved_blocks(shape: &VolumeShape) -> u32
    requires served { IsServed shape.now }
    ensures { result ≡ reserved shape.now }
{
    FIRST_BLOCKS + shape.inodes / BLOCK_INODES
}

/// Whether an entry bears the name of a page of node `i`, which has this inode.
fn page_fits(entry: &Entry, inode: &Inode, i: Ino, page: u32) -> bool
    requires page { 4096 * page < inode.now.size }
    ensures { (l : Layout) (words : List ℕ) (k : ℕ) → entry.now ≡ entry_of words k → (l.node i.0).kind ≡ inode.now.kind → (l.node i.0).size ≡ inode.now.size → IsTrue result ↔ Bears i.0 (l.node i.0) (AtPage page) (name_in words (Some k)) }
{
    let of_data = Tag(entry.tag).is_data();
    if inode.kind == DIRECTORY {
        return !of_data;
    }
    if !of_data {
        return false;
    }
    let used = PAGE_BYTES.min(inode.size - PAGE_BYTES * u64::from(page));
    entry.file == u64::from(i.0) && entry.index == u64::from(page) && entry.size >= used
}
