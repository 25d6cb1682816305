//! The growth of a node, prepared: its new blocks are made zero and named, and the change that makes them count is made up.

ghost use Rattle.std.specs.Prelude.{◌≡◌, ◌-◌, ◌%◌, ◌<◌, ◌≤◌, ℕ, length, slice_index, IfOk, IsErrOf};
ghost use Rattle.rio_base.specs.Frames.{CanRead, ReadBy};
ghost use Rattle.rio_base.specs.Blocks.{EndsBy};
ghost use Rattle.rio_base.specs.Layout.{IsIno};
ghost use Rattle.rio_base.specs.Volume.{Goes};
ghost use Rattle.rio_model.specs.Placed.{AtPage, IsFree, placed_at, volume_layout};
ghost use Rattle.rio_model.specs.Sizes.{pages};
ghost use Rattle.rio_model.specs.VolumeReady.{LeavesInUse, Ready};
ghost use Rattle.rio_model.specs.VolumeRules.{SizeFits};
ghost use Rattle.block_alloc.specs.Bitmap.{numbers};
ghost use Rattle.node_pages.specs.Changes.{Apart, Grows, KeepsFree, PlansFor, wanted_blocks};
ghost use Rattle.node_pages.specs.LookingUp.{CanLookUp, LooksUp};
ghost use Rattle.node_pages.specs.Failures.{Unrefused};

use crate::changes::SizeChange;
use crate::failures::SizeFail;
use crate::growing::{grown_inode, grown_table, table_edits};
use crate::lookup::{number_in, table_word};
use crate::sizes::page_count;
use crate::staging::stage_blocks;
use inode_table::{DIRECT_PAGES, Inode};
use rio_base::{Block, BlockList, Blocks, Ino, VolFail, Volume, VolumeShape};
use std::alloc::Global;

/// The block of a node's last page, where it is alone in its word of the table.
#[tactic(auto, using(crate::proofs::Given::given_most, crate::proofs::LookingUpRules::look_refl))]
fn last_number<V: Blocks>(
    v: &mut V,
    shape: &VolumeShape,
    i: Ino,
    inode: &Inode,
) -> Result<u32, VolFail>
    requires can { CanRead V.seen V.sound (CanLookUp shape.now) v.old }
    requires ino { IsIno shape.now i.0 }
    requires inode { PlansFor (V.seen v.old).words i.0 inode.now }
    ensures value { IfOk result (λ x. 24 < pages inode.now.size → pages inode.now.size % 2 ≡ 1 → x ≡ (placed_at (V.seen v.old).words i.0).block (AtPage (pages inode.now.size - 1))) }
    ensures read { ReadBy V.seen V.health V.sound V.passes (LooksUp shape.now) v.old v.new result }
{
    let have = page_count(inode.size);
    if have <= DIRECT_PAGES || have % 2 == 0 {
        return Ok(0);
    }
    let last = have - 1;
    let word = table_word(
        v,
        shape,
        i,
        Block(inode.indirect),
        ((last - DIRECT_PAGES) / 2) as u16,
    )?;
    Ok(number_in(word, last))
}

/// Prepares the growth of a node to `len` bytes by these blocks, which are free. Nothing that is in use changes.
pub fn plan_growth<V: Volume>(
    alloc: Global,
    v: &mut V,
    shape: &VolumeShape,
    i: Ino,
    inode: &Inode,
    len: u64,
    taken: BlockList,
) -> Result<SizeChange, SizeFail>
    requires sound { V.sound v.old }
    requires ready { Ready shape.now (V.seen v.old) (V.kept v.old) }
    requires ino { IsIno shape.now i.0 }
    requires inode { PlansFor (V.seen v.old).words i.0 inode.now }
    requires grows { inode.now.size ≤ len }
    requires fits { SizeFits inode.now.kind len }
    requires count { length taken ≡ wanted_blocks inode.now.size len }
    requires free { (t : ℕ) → t < length taken → IsFree (volume_layout shape.now (V.seen v.old).words) (slice_index (numbers taken) t) }
    requires apart { Apart (numbers taken) }
    ensures ok { IfOk result (λ c. Grows shape.now (V.seen v.old).words (V.seen v.new) (V.kept v.new) i.0 inode.now len (numbers taken) c) }
    ensures leaves { LeavesInUse (volume_layout shape.now (V.seen v.old).words) (V.seen v.old) (V.kept v.old) (V.seen v.new) (V.kept v.new) }
    ensures free { KeepsFree (volume_layout shape.now (V.seen v.old).words) (numbers taken) (V.seen v.old) (V.kept v.old) (V.seen v.new) (V.kept v.new) }
    ensures goes { Goes (V.health v.old) (V.below v.old) (V.health v.new) (V.below v.new) }
    ensures other { Unrefused result }
    ensures ends { EndsBy (V.health v.old) (V.health v.new) (IsErrOf result SizeFail.Fault) (IsErrOf result SizeFail.Stopped) }
    ensures sound { V.sound v.new }
{
    let have = page_count(inode.size);
    let want = page_count(len);
    let last = last_number(v, shape, i, inode)?;
    let blocks = taken.as_slice();
    stage_blocks(v, blocks, i, inode.kind, have, want - have, len)?;
    let table = grown_table(inode, blocks, want - have);
    let first = (have.max(DIRECT_PAGES) - DIRECT_PAGES) / 2;
    let end = (want.max(DIRECT_PAGES) - (DIRECT_PAGES - 1)) / 2;
    let edits = table_edits(
        alloc,
        Block(table),
        last,
        have,
        want,
        blocks,
        first as u16,
        end as u16,
    )?;
    let inode = grown_inode(inode, len, have, want, table, blocks);
    Ok(SizeChange {
        inode,
        edits,
        taken,
        freed: BlockList::from(Vec::new(alloc)),
    })
}
