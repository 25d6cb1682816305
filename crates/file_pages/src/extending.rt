//! Bytes written past the end of a file.

ghost use Rattle.std.specs.Prelude.{◌≡◌, ◌+◌, ◌-◌, ◌<◌, ◌≤◌, ◌++◌, ℕ, length, slice_index, IfOk, OnOk, IsErrOf};
ghost use Rattle.rio_base.specs.Bitmap.{free_blocks};
ghost use Rattle.rio_base.specs.Blocks.{EndsBy};
ghost use Rattle.rio_base.specs.Layout.{IsIno};
ghost use Rattle.rio_base.specs.Volume.{Goes};
ghost use Rattle.rio_base.specs.NodeKinds.{file_kind};
ghost use Rattle.rio_model.specs.NodeChanges.{grown};
ghost use Rattle.rio_model.specs.Placed.{AtPage, Placed, volume_layout};
ghost use Rattle.rio_model.specs.Sizes.{largest_size, pages};
ghost use Rattle.rio_model.specs.VolumeReady.{LeavesInUse, Ready};
ghost use Rattle.block_alloc.specs.Bitmap.{numbers};
ghost use Rattle.inode_table.specs.Inodes.{IsInode};
ghost use Rattle.node_pages.specs.Changes.{PlansFor, given_node, wanted_blocks};
ghost use Rattle.node_pages.specs.LookingUp.{CanLookUp, LooksUp, page_blocks};
ghost use Rattle.file_pages.specs.Extending.{Extends, failed_after, told_after};
ghost use Rattle.file_pages.specs.Files.{HasSpace};
ghost use Rattle.file_pages.specs.Writing.{WriteLeaves};

use crate::clearing::clear_tail;
use crate::committing::commit_change;
use crate::spans::store_parts;
use inode_table::Inode;
use node_pages::{
    SizeChange, SizeFail, WriteFail, page_blocks, page_count, plan_growth, take_lowest,
    wanted_count,
};
use rio_base::{Block, Blocks, Ino, PAGE_BYTES, ReadFail, Volume, VolumeShape};
use std::alloc::{AllocError, Global};

/// Adds the blocks of pages `first` to `end` of a node that takes these behind its first `have` pages.
fn push_taken(
    blocks: &mut Vec<Block>,
    taken: &[Block],
    have: u32,
    first: u32,
    end: u32,
) -> Result<(), AllocError>
    requires past { have ≤ first }
    requires order { first ≤ end }
    requires within { end ≤ have + length taken.now }
    ensures { (n : Placed) → ((p : ℕ) → first ≤ p → p < end → slice_index (numbers taken.now) (p - have) ≡ n.block (AtPage p)) → OnOk result (numbers blocks.new.items ≡ numbers blocks.old.items ++ page_blocks n first (end - first)) }
{
    for p in first..end {
        blocks.push(taken[(p - have) as usize])?;
    }
    Ok(())
}

/// The blocks of pages `first` to `end` of node `i` once it has these new ones behind its own.
#[tactic(auto, using(node_pages::proofs::Given::given_most))]
fn span_blocks<V: Blocks>(
    alloc: Global,
    v: &mut V,
    shape: &VolumeShape,
    i: Ino,
    inode: &Inode,
    taken: &[Block],
    first: u32,
    end: u32,
) -> Result<Vec<Block>, ReadFail>
    requires sound { V.sound v.old }
    requires can { CanLookUp shape.now (V.seen v.old) }
    requires ino { IsIno shape.now i.0 }
    requires inode { PlansFor (V.seen v.old).words i.0 inode.now }
    requires order { first ≤ end }
    requires past { pages inode.now.size ≤ end }
    requires within { end ≤ pages inode.now.size + length taken.now }
    ensures value { IfOk result (λ blocks. (len : ℕ) → numbers blocks.items ≡ page_blocks (grown (given_node (V.seen v.old).words i.0 inode.now) len (numbers taken.now)) first (end - first)) }
    ensures looks { LooksUp shape.now (V.seen v.old) (V.seen v.new) }
    ensures passes { V.passes v.old v.new }
    ensures ends { EndsBy (V.health v.old) (V.health v.new) (IsErrOf result ReadFail.Fault) (IsErrOf result ReadFail.Stopped) }
    ensures sound { V.sound v.new }
{
    let have = page_count(inode.size);
    let mut blocks = page_blocks(alloc, v, shape, i, inode, first.min(have), have)?;
    push_taken(&mut blocks, taken, have, first.max(have), end)?;
    Ok(blocks)
}

/// Prepares the growth of file `i` to `len` bytes: the blocks of its pages from `first` on are looked up, and its new ones
/// made zero and named. Nothing that is in use changes.
fn plan_extension<V: Volume>(
    alloc: Global,
    v: &mut V,
    shape: &VolumeShape,
    i: Ino,
    inode: &Inode,
    len: u64,
    first: u32,
) -> Result<(SizeChange, Vec<Block>), SizeFail>
    requires sound { V.sound v.old }
    requires ready { Ready shape.now (V.seen v.old) (V.kept v.old) }
    requires ino { IsIno shape.now i.0 }
    requires inode { IsInode (V.seen v.old).words i.0 inode.now }
    requires file { inode.now.kind ≡ file_kind }
    requires grows { inode.now.size ≤ len }
    requires most { len ≤ largest_size }
    requires first { first ≤ pages len }
    ensures ok { IfOk result (λ made. Extends shape.now (V.seen v.old).words (V.seen v.new) (V.kept v.new) i.0 inode.now len first made.0 (numbers made.1.items)) }
    ensures room { OnOk result (HasSpace shape.now (V.seen v.old).words inode.now.size len) }
    ensures leaves { LeavesInUse (volume_layout shape.now (V.seen v.old).words) (V.seen v.old) (V.kept v.old) (V.seen v.new) (V.kept v.new) }
    ensures no_space { IsErrOf result SizeFail.NoSpace → length (free_blocks shape.now (V.seen v.old).words) < wanted_blocks inode.now.size len }
    ensures small { IsErrOf result SizeFail.TooLarge → ⊥ }
    ensures goes { Goes (V.health v.old) (V.below v.old) (V.health v.new) (V.below v.new) }
    ensures ends { EndsBy (V.health v.old) (V.health v.new) (IsErrOf result SizeFail.Fault) (IsErrOf result SizeFail.Stopped) }
    ensures sound { V.sound v.new }
{
    let wanted = wanted_count(inode.size, len);
    let taken = take_lowest(alloc, v, shape, wanted)?;
    let blocks = span_blocks(
        alloc,
        v,
        shape,
        i,
        inode,
        taken.as_slice(),
        first,
        page_count(len),
    )?;
    let change = plan_growth(alloc, v, shape, i, inode, len, taken)?;
    Ok((change, blocks))
}

/// The failure of a write's update, once so many of its bytes count.
fn failed_after(fail: SizeFail, done: u64) -> WriteFail
    ensures { result ≡ failed_after done fail }
{
    match fail {
        SizeFail::NoSpace => WriteFail::NoSpace,
        SizeFail::TooLarge => WriteFail::TooLarge,
        SizeFail::Fault => WriteFail::Fault { done },
        SizeFail::Stopped => WriteFail::Stopped,
        SizeFail::Memory => WriteFail::Memory,
    }
}

/// How a write ends whose update ended so, once so many of its bytes count.
fn told_after(made: Result<(), SizeFail>, done: u64) -> Result<(), WriteFail>
    ensures { result ≡ told_after done made }
{
    match made {
        Ok(()) => Ok(()),
        Err(fail) => Err(failed_after(fail, done)),
    }
}

/// Writes bytes of file `i` that reach past its end. What lies past its end is stored first, in free blocks and behind its
/// last byte, then what lies within it, and last one update makes the file longer.
pub fn write_past<V: Volume>(
    alloc: Global,
    v: &mut V,
    shape: &VolumeShape,
    i: Ino,
    inode: &Inode,
    off: u64,
    bytes: &[u8],
) -> Result<(), WriteFail>
    requires sound { V.sound v.old }
    requires ready { Ready shape.now (V.seen v.old) (V.kept v.old) }
    requires ino { IsIno shape.now i.0 }
    requires inode { IsInode (V.seen v.old).words i.0 inode.now }
    requires file { inode.now.kind ≡ file_kind }
    requires some { 0 < length bytes.now }
    requires past { inode.now.size < off + length bytes.now }
    requires most { off + length bytes.now ≤ largest_size }
    ensures leaves { WriteLeaves shape.now (V.seen v.old) (V.kept v.old) (V.seen v.new) (V.kept v.new) i.0 off bytes.now result }
    ensures room { OnOk result (HasSpace shape.now (V.seen v.old).words inode.now.size (off + length bytes.now)) }
    ensures no_space { IsErrOf result WriteFail.NoSpace → length (free_blocks shape.now (V.seen v.old).words) < wanted_blocks inode.now.size (off + length bytes.now) }
    ensures small { IsErrOf result WriteFail.TooLarge → ⊥ }
    ensures goes { Goes (V.health v.old) (V.below v.old) (V.health v.new) (V.below v.new) }
    ensures ends { EndsBy (V.health v.old) (V.health v.new) ((k : ℕ) × IsErrOf result (WriteFail.Fault k)) (IsErrOf result WriteFail.Stopped) }
    ensures sound { V.sound v.new }
{
    let len = off + bytes.len() as u64;
    let first = (off / PAGE_BYTES) as u32;
    let planned = plan_extension(alloc, v, shape, i, inode, len, first)?;
    clear_tail(v, shape, i, inode.size, len)?;
    store_parts(v, i, inode.size, len, &planned.1, first, off, bytes)?;
    let within = inode.size.saturating_sub(off).min(bytes.len() as u64);
    told_after(commit_change(v, shape, i, &planned.0), within)
}
