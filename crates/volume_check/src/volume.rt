//! The rules of a volume, looked at in their order.

ghost use Rattle.std.specs.Prelude.{◌≡◌, false, ℕ, IfErr, IfOk, IsErrOf, IsTrue, MatchResult};
ghost use Rattle.rio_base.specs.Blocks.{EndsBy, Looks};
ghost use Rattle.rio_model.specs.declared.state.State.{State};
ghost use Rattle.rio_model.specs.Censuses.{HasOwners, IsCensus};
ghost use Rattle.rio_model.specs.Placed.{volume_layout};
ghost use Rattle.rio_model.specs.VolumeFails.{FailsVolume};
ghost use Rattle.rio_model.specs.VolumeReads.{ReadsAs};
ghost use Rattle.rio_model.specs.VolumeRules.{IsMapped};
ghost use Rattle.rio_model.specs.RuleNumbers.{volume_rule};
ghost use Rattle.volume_check.specs.Bitmap.{HasRead};
ghost use Rattle.volume_check.specs.Looking.{CanLook, Looked, Refuses};
ghost use Rattle.volume_check.specs.Inodes.{layout_of};

use crate::bitmap::Bitmap;
use crate::census::count_volume;
use crate::failures::CheckFail;
use crate::held::look_at_held;
use crate::inode_rules::look_at_inodes;
use crate::inodes::Inodes;
use crate::mark_rules::{BITMAP, keeps_marks, keeps_reserved, read_bitmap};
use crate::node_rules::{NodeRule, look_at_each};
use crate::owners::find_owners;
use crate::reading::read_inodes;
use crate::superblock::read_shape;
use rio_base::Blocks;
use rio_model::{Census, Owner, VolumeRule};
use std::alloc::Global;

/// `BadVolume` with a rule on the bitmap, unless it holds.
fn demand(rule: VolumeRule, holds: bool) -> Result<(), CheckFail>
    ensures { MatchResult result (λ _. IsTrue holds) (λ fail. (¬ IsTrue holds) × (fail ≡ CheckFail.BadVolume (volume_rule rule) (record { 0 = 1 }))) }
{
    if holds {
        Ok(())
    } else {
        Err(CheckFail::BadVolume(rule.number(), BITMAP))
    }
}

/// Looks at the rules 1 and 2. The answer is the bitmap and the inodes.
fn read_volume<V: Blocks>(alloc: Global, v: &mut V) -> Result<(Bitmap, Inodes), CheckFail>
    requires can { CanLook V.seen V.sound V.passes v.old }
    ensures read { IfOk result (λ found. HasRead (V.seen v.old) found.0 found.1) }
    ensures refused { IfErr result (Refuses (FailsVolume (V.seen v.old).words (V.seen v.old).count)) }
    ensures looked { Looked V.seen V.health V.sound V.passes v.old v.new result }
{
    let shape = read_shape(v)?;
    let bitmap = read_bitmap(alloc, v, &shape)?;
    demand(VolumeRule::Reserved, keeps_reserved(&shape, &bitmap))?;
    let inodes = read_inodes(alloc, v, &shape)?;
    Ok((bitmap, inodes))
}

/// Looks at the rules 3 to 7. The answer says which node has each block.
fn look_at_layout<V: Blocks>(
    alloc: Global,
    v: &mut V,
    bitmap: &Bitmap,
    inodes: &Inodes,
) -> Result<Vec<Owner>, CheckFail>
    requires can { CanLook V.seen V.sound V.passes v.old }
    requires read { HasRead (V.seen v.old) bitmap.now inodes.now }
    ensures mapped { IfOk result (λ _. IsMapped inodes.now.shape (V.seen v.old).words) }
    ensures owners { IfOk result (λ owners. HasOwners (layout_of (V.seen v.old) inodes.now) owners.items) }
    ensures refused { IfErr result (Refuses (FailsVolume (V.seen v.old).words (V.seen v.old).count)) }
    ensures looked { Looked V.seen V.health V.sound V.passes v.old v.new result }
{
    look_at_inodes(inodes)?;
    look_at_each(alloc, v, inodes, NodeRule::Numbers)?;
    let owners = find_owners(alloc, v, inodes)?;
    demand(
        VolumeRule::Marks,
        keeps_marks(&inodes.shape, bitmap, &owners),
    )?;
    Ok(owners)
}

/// Looks at the rules 1 to 11 of a volume, in their order. The answer is what there is on it, and which node has each block.
/// `BadVolume` tells the first rule that fails; `Fault` and `Stopped` are those of reading; `Memory` is that of arrays by block
/// and by inode, and of the names of a directory. Nothing is stored, and no page counts as cached, before or afterwards.
pub fn look_at_volume<V: Blocks>(
    alloc: Global,
    v: &mut V,
) -> Result<(Census, Vec<Owner>), CheckFail>
    requires sound { V.sound v.old }
    requires bare { (y : V) (b : ℕ) → V.passes v.old y → (V.seen y).cached b ≡ false }
    ensures ok { IfOk result (λ found. (s : State) × ReadsAs found.0.shape (V.seen v.old).words s × (found.0.shape.version ≡ 1) × (found.0.shape.blocks ≡ (V.seen v.old).count) × IsCensus s found.0) }
    ensures owners { IfOk result (λ found. HasOwners (volume_layout found.0.shape (V.seen v.old).words) found.1.items) }
    ensures refused { IfErr result (Refuses (FailsVolume (V.seen v.old).words (V.seen v.old).count)) }
    ensures looks { Looks (V.seen v.old) (V.seen v.new) }
    ensures passes { V.passes v.old v.new }
    ensures ends { EndsBy (V.health v.old) (V.health v.new) (IsErrOf result CheckFail.Fault) (IsErrOf result CheckFail.Stopped) }
    ensures sound { V.sound v.new }
{
    let (bitmap, inodes) = read_volume(alloc, v)?;
    let owners = look_at_layout(alloc, v, &bitmap, &inodes)?;
    look_at_held(alloc, v, &inodes)?;
    Ok((count_volume(&inodes), owners))
}

/// Looks at the rules 1 to 11 of a volume, in their order. The answer is what there is on it. It ends as [`look_at_volume`] does, whose
/// answer has the owners too.
pub fn check_volume<V: Blocks>(alloc: Global, v: &mut V) -> Result<Census, CheckFail>
    requires sound { V.sound v.old }
    requires bare { (y : V) (b : ℕ) → V.passes v.old y → (V.seen y).cached b ≡ false }
    ensures ok { IfOk result (λ found. (s : State) × ReadsAs found.shape (V.seen v.old).words s × (found.shape.version ≡ 1) × (found.shape.blocks ≡ (V.seen v.old).count) × IsCensus s found) }
    ensures refused { IfErr result (Refuses (FailsVolume (V.seen v.old).words (V.seen v.old).count)) }
    ensures looks { Looks (V.seen v.old) (V.seen v.new) }
    ensures passes { V.passes v.old v.new }
    ensures ends { EndsBy (V.health v.old) (V.health v.new) (IsErrOf result CheckFail.Fault) (IsErrOf result CheckFail.Stopped) }
    ensures sound { V.sound v.new }
{
    let (census, _owners) = look_at_volume(alloc, v)?;
    Ok(census)
}
