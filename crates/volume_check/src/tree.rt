//! Rule 10: the root has no name, and each other used inode has just one and is reached from the root.

ghost use Rattle.std.specs.Prelude.{◌≡◌, ◌↔◌, ◌+◌, IfErr, IsTrue, OnOk, false, length, slice_index_or};
ghost use Rattle.rio_base.specs.Layout.{IsIno};
ghost use Rattle.rio_model.specs.Held.{held_of};
ghost use Rattle.rio_model.specs.VolumeFails.{TreeAt};
ghost use Rattle.rio_model.specs.VolumeRules.{EntryRule, IsMapped, NamesApartRule, TreeRule};
ghost use Rattle.rio_model.specs.RuleNumbers.{volume_rule};
ghost use Rattle.rio_model.specs.declared.rules.VolumeRule.TheVariants.{Tree};
ghost use Rattle.volume_check.specs.Looking.{CanLook, Looked, Refuses};
ghost use Rattle.volume_check.specs.Rules.{FailsBy};
ghost use Rattle.volume_check.specs.InodeRules.{Finds};
ghost use Rattle.volume_check.specs.Inodes.{HasInodes, said};
ghost use Rattle.volume_check.specs.Tree.{InTree, state_of};

use crate::failures::CheckFail;
use crate::inode_rules::broken_at;
use crate::inodes::Inodes;
use crate::name_counts::{NameCount, count_names};
use crate::reaching::{ROOT, reach_all};
use rio_base::{Blocks, Ino};
use rio_model::VolumeRule;
use std::alloc::Global;

/// Whether inode `i` keeps rule 10, where it has so many names.
fn is_in_tree(inodes: &Inodes, i: Ino, names: NameCount, reached: bool) -> bool
    requires { IsIno inodes.now.shape i.0 }
    ensures { IsTrue result ↔ InTree (said inodes.now i.0 0) i.0 names reached }
{
    if inodes.kind(i) == 0 {
        return true;
    }
    if i == ROOT {
        return names == NameCount::No;
    }
    names == NameCount::One && reached
}

/// The least inode that does not, if there is one.
fn least_loose(inodes: &Inodes, counts: &[NameCount], reached: &[bool]) -> Option<Ino>
    requires counts { length counts.now ≡ inodes.now.shape.inodes + 1 }
    requires reached { length reached.now ≡ inodes.now.shape.inodes + 1 }
    ensures { Finds inodes.now.shape (λ i. InTree (said inodes.now i 0) i (slice_index_or counts.now i NameCount.No) (slice_index_or reached.now i false)) result }
{
    for k in 0..inodes.shape.inodes {
        let i = Ino(k + 1);
        let place = i.0 as usize;
        if !is_in_tree(inodes, i, counts[place], reached[place]) {
            return Some(i);
        }
    }
    None
}

/// Looks at rule 10.
pub(crate) fn look_at_tree<V: Blocks>(
    alloc: Global,
    v: &mut V,
    inodes: &Inodes,
) -> Result<(), CheckFail>
    requires can { CanLook V.seen V.sound V.passes v.old }
    requires inodes { HasInodes (V.seen v.old) inodes.now }
    requires mapped { IsMapped inodes.now.shape (V.seen v.old).words }
    requires entries { EntryRule (held_of inodes.now.shape (V.seen v.old).words) }
    requires apart { NamesApartRule (held_of inodes.now.shape (V.seen v.old).words) }
    ensures ok { OnOk result (TreeRule (state_of inodes.now.shape (held_of inodes.now.shape (V.seen v.old).words))) }
    ensures refused { IfErr result (Refuses (FailsBy (volume_rule Tree) inodes.now.shape (TreeAt (state_of inodes.now.shape (held_of inodes.now.shape (V.seen v.old).words))))) }
    ensures looked { Looked V.seen V.health V.sound V.passes v.old v.new result }
{
    let counts = count_names(alloc, v, inodes)?;
    let reached = reach_all(alloc, v, inodes)?;
    if let Some(i) = least_loose(inodes, &counts, &reached) {
        return Err(broken_at(inodes, VolumeRule::Tree as u8, i));
    }
    Ok(())
}
