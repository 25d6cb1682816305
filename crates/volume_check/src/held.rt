//! The rules 8 to 11: names, the tree and regions, by what the inodes hold.

ghost use Rattle.std.specs.Prelude.{◌≡◌, IfErr, OnOk};
ghost use Rattle.rio_model.specs.declared.state.State.{State};
ghost use Rattle.rio_model.specs.Held.{held_of};
ghost use Rattle.rio_model.specs.VolumeFails.{FailsHeld};
ghost use Rattle.rio_model.specs.VolumeReads.{ReadsAs};
ghost use Rattle.rio_model.specs.VolumeRules.{IsMapped};
ghost use Rattle.volume_check.specs.Looking.{CanLook, Looked, Refuses};
ghost use Rattle.volume_check.specs.Inodes.{HasInodes};

use crate::failures::CheckFail;
use crate::inodes::Inodes;
use crate::node_rules::{NodeRule, look_at_each};
use crate::tree::look_at_tree;
use rio_base::Blocks;
use std::alloc::Global;

/// Looks at the rules 8 to 11.
pub fn look_at_held<V: Blocks>(alloc: Global, v: &mut V, inodes: &Inodes) -> Result<(), CheckFail>
    requires can { CanLook V.seen V.sound V.passes v.old }
    requires inodes { HasInodes (V.seen v.old) inodes.now }
    requires mapped { IsMapped inodes.now.shape (V.seen v.old).words }
    ensures ok { OnOk result ((s : State) × ReadsAs inodes.now.shape (V.seen v.old).words s) }
    ensures refused { IfErr result (Refuses (FailsHeld inodes.now.shape (held_of inodes.now.shape (V.seen v.old).words))) }
    ensures looked { Looked V.seen V.health V.sound V.passes v.old v.new result }
{
    look_at_each(alloc, v, inodes, NodeRule::Entries)?;
    look_at_each(alloc, v, inodes, NodeRule::Names)?;
    look_at_tree(alloc, v, inodes)?;
    look_at_each(alloc, v, inodes, NodeRule::Format)
}
