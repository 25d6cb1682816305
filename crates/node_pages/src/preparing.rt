//! A change of a node's size, prepared.

ghost use Rattle.std.specs.Prelude.{◌≡◌, ◌<◌, ◌≤◌, ℕ, length, slice_index, IfOk, OnOk, IsErrOf};
ghost use Rattle.rio_base.specs.Blocks.{EndsBy};
ghost use Rattle.rio_base.specs.Layout.{IsIno};
ghost use Rattle.rio_base.specs.Volume.{Goes};
ghost use Rattle.rio_model.specs.Placed.{IsFree, volume_layout};
ghost use Rattle.rio_model.specs.Sizes.{largest_size};
ghost use Rattle.rio_model.specs.VolumeReady.{LeavesInUse, Ready};
ghost use Rattle.rio_model.specs.VolumeRules.{SizeFits};
ghost use Rattle.block_alloc.specs.Bitmap.{numbers};
ghost use Rattle.node_pages.specs.Changes.{Apart, PlansFor, PlansSize, Spares, free_beside, wanted_blocks};

use crate::changes::SizeChange;
use crate::failures::SizeFail;
use crate::planning::plan_growth;
use crate::shrinking::plan_shrink;
use crate::sizes::wanted_count;
use crate::taking::take_beside;
use inode_table::{Inode, LARGEST_SIZE};
use rio_base::{BlockList, Ino, Volume, VolumeShape};
use std::alloc::Global;

/// Prepares a change of a node's size to `len` bytes, of the node that `inode` says: inode `i` as it is, or a new node
/// without bytes where inode `i` is free. Blocks that it gains are the lowest free ones that are not in `skip`: these are
/// free blocks, none of them there twice, and nothing about them changes. Nothing in use changes either.
///
/// `NoSpace` comes exactly where fewer blocks are free beside `skip` than the node would take, and `TooLarge` exactly where
/// no node can have so many bytes.
#[tactic(auto, using(crate::proofs::LookingUpRules::can_look_up))]
pub fn plan_size<V: Volume>(
    alloc: Global,
    v: &mut V,
    shape: &VolumeShape,
    i: Ino,
    inode: &Inode,
    len: u64,
    skip: &BlockList,
) -> Result<SizeChange, SizeFail>
    requires sound { V.sound v.old }
    requires ready { Ready shape.now (V.seen v.old) (V.kept v.old) }
    requires ino { IsIno shape.now i.0 }
    requires inode { PlansFor (V.seen v.old).words i.0 inode.now }
    requires fits { len ≤ largest_size → SizeFits inode.now.kind len }
    requires skip { (t : ℕ) → t < length skip.now → IsFree (volume_layout shape.now (V.seen v.old).words) (slice_index (numbers skip.now) t) }
    requires once { Apart (numbers skip.now) }
    ensures ok { IfOk result (λ c. PlansSize shape.now (V.seen v.old).words (V.seen v.new) (V.kept v.new) i.0 inode.now len (numbers skip.now) c) }
    ensures space { OnOk result ((len ≤ largest_size) × (wanted_blocks inode.now.size len ≤ length (free_beside shape.now (V.seen v.old).words (numbers skip.now)))) }
    ensures too_large { IsErrOf result SizeFail.TooLarge → largest_size < len }
    ensures no_space { IsErrOf result SizeFail.NoSpace → (inode.now.size < len) × (len ≤ largest_size) × (length (free_beside shape.now (V.seen v.old).words (numbers skip.now)) < wanted_blocks inode.now.size len) }
    ensures leaves { LeavesInUse (volume_layout shape.now (V.seen v.old).words) (V.seen v.old) (V.kept v.old) (V.seen v.new) (V.kept v.new) }
    ensures spared { Spares (numbers skip.now) (V.seen v.old) (V.kept v.old) (V.seen v.new) (V.kept v.new) }
    ensures goes { Goes (V.health v.old) (V.below v.old) (V.health v.new) (V.below v.new) }
    ensures ends { EndsBy (V.health v.old) (V.health v.new) (IsErrOf result SizeFail.Fault) (IsErrOf result SizeFail.Stopped) }
    ensures sound { V.sound v.new }
{
    if len > LARGEST_SIZE {
        return Err(SizeFail::TooLarge);
    }
    if len <= inode.size {
        return plan_shrink(alloc, v, shape, i, inode, len);
    }
    let wanted = wanted_count(inode.size, len);
    let taken = take_beside(alloc, v, shape, wanted, skip)?;
    plan_growth(alloc, v, shape, i, inode, len, taken)
}
