//! Pages of a directory: which block each is, and the words of one.

ghost use Rattle.std.specs.Prelude.{◌≡◌, ◌+◌, ◌-◌, ◌*◌, ◌/◌, ◌%◌, ◌<◌, ◌≤◌, ℕ, min, slice_index, IfOk};
ghost use Rattle.rio_base.specs.Frames.{CanRead, ReadBy};
ghost use Rattle.rio_model.specs.Placed.{AtPage, HasSlot, placed_at};
ghost use Rattle.inode_table.specs.Inodes.{IsInode};
ghost use Rattle.node_pages.specs.LookingUp.{LooksUp};
ghost use Rattle.directories.specs.Reading.{CanReadDir};

use crate::entries::{ENTRY_WORDS, PAGE_ENTRIES};
use inode_table::{DIRECT_PAGES, Inode, read_inode};
use node_pages::block_of;
use rio_base::{Block, Blocks, Ino, VolFail, VolumeShape};

/// The inode of a directory.
#[tactic(auto, using(crate::proofs::CanRead::can_look))]
pub fn dir_inode<V: Blocks>(v: &mut V, shape: &VolumeShape, dir: Ino) -> Result<Inode, VolFail>
    requires can { CanRead V.seen V.sound (λ x. CanReadDir shape.now x dir.0) v.old }
    ensures value { IfOk result (IsInode (V.seen v.old).words dir.0) }
    ensures read { ReadBy V.seen V.health V.sound V.passes (LooksUp shape.now) v.old v.new result }
    ensures can { CanReadDir shape.now (V.seen v.new) dir.0 }
{
    read_inode(v, shape, dir)
}

/// The block of page `p` of a directory, which has this inode.
pub fn page_block<V: Blocks>(
    v: &mut V,
    shape: &VolumeShape,
    dir: Ino,
    inode: &Inode,
    p: u32,
) -> Result<Block, VolFail>
    requires can { CanRead V.seen V.sound (λ x. CanReadDir shape.now x dir.0) v.old }
    requires inode { IsInode (V.seen v.old).words dir.0 inode.now }
    requires page { HasSlot (placed_at (V.seen v.old).words dir.0) (AtPage p) }
    ensures value { IfOk result (λ b. b.0 ≡ (placed_at (V.seen v.old).words dir.0).block (AtPage p)) }
    ensures read { ReadBy V.seen V.health V.sound V.passes (LooksUp shape.now) v.old v.new result }
    ensures can { CanReadDir shape.now (V.seen v.new) dir.0 }
{
    if p < DIRECT_PAGES {
        return Ok(Block(inode.direct[p as usize]));
    }
    block_of(v, shape, dir, p)
}

/// Reads the words of entry `slot` of a directory, which has this inode.
pub fn read_entry<V: Blocks>(
    v: &mut V,
    shape: &VolumeShape,
    dir: Ino,
    inode: &Inode,
    slot: u32,
) -> Result<[u64; ENTRY_WORDS], VolFail>
    requires can { CanRead V.seen V.sound (λ x. CanReadDir shape.now x dir.0) v.old }
    requires inode { IsInode (V.seen v.old).words dir.0 inode.now }
    requires slot { 64 * slot < inode.now.size }
    ensures words { IfOk result (λ words. (t : ℕ) → t < 8 → slice_index words t ≡ (V.seen v.old).words ((placed_at (V.seen v.old).words dir.0).block (AtPage (slot / 64))) (8 * (slot % 64) + t)) }
    ensures read { ReadBy V.seen V.health V.sound V.passes (LooksUp shape.now) v.old v.new result }
    ensures can { CanReadDir shape.now (V.seen v.new) dir.0 }
{
    let b = page_block(v, shape, dir, inode, slot / PAGE_ENTRIES)?;
    let mut words = [0; ENTRY_WORDS];
    v.read_run(b, None, first_word(slot), &mut words)?;
    Ok(words)
}

/// The first word of entry `slot` in its page.
pub fn first_word(slot: u32) -> u16
    ensures is { result ≡ 8 * (slot % 64) }
    ensures within { result + 8 ≤ 512 }
{
    ENTRY_WORDS as u16 * (slot % PAGE_ENTRIES) as u16
}

/// How many entries a directory of so many bytes has in page `p`.
pub fn entries_in_page(size: u64, p: u32) -> usize
    ensures { result ≡ min (size / 64 - 64 * p) 64 }
{
    (size / 64).saturating_sub(64 * p as u64).min(64) as usize
}
