//! The rules 5, 8, 9 and 11, which a node keeps or breaks by itself, looked at node by node.

ghost use Rattle.std.specs.Prelude.{◌≡◌, ◌↔◌, ℕ, IfErr, IfOk, IsTrue, OnOk};
ghost use Rattle.rio_base.specs.Layout.{IsIno};
ghost use Rattle.volume_check.specs.Looking.{CanLook, Looked, Refuses};
ghost use Rattle.volume_check.specs.Rules.{FailsBy};
ghost use Rattle.volume_check.specs.Inodes.{HasInodes};
ghost use Rattle.volume_check.specs.NodeRules.{NodeKeeps, Supposes, node_number};

use crate::entries::keeps_entries;
use crate::failures::CheckFail;
use crate::inode_rules::broken_at;
use crate::inodes::Inodes;
use crate::names::keeps_apart;
use crate::numbers::keeps_numbers;
use crate::regions::keeps_format;
use rio_base::{Blocks, Ino};
use rio_model::VolumeRule;
use std::alloc::Global;

/// A rule that a node keeps or breaks by itself.
#[derive(Clone, Copy)]
pub(crate) enum NodeRule {
    /// Rule 5: its block numbers, once rule 4 holds.
    Numbers,
    /// Rule 8: the entries of a directory.
    Entries,
    /// Rule 9: the names of a directory, once rule 8 holds.
    Names,
    /// Rule 11: the format of a region.
    Format,
}

impl NodeRule {
    /// The number that it is told by.
    fn number(self) -> u8
        ensures { result ≡ node_number self }
    {
        match self {
            NodeRule::Numbers => VolumeRule::Numbers as u8,
            NodeRule::Entries => VolumeRule::Entries as u8,
            NodeRule::Names => VolumeRule::NamesApart as u8,
            NodeRule::Format => VolumeRule::Regions as u8,
        }
    }
}

/// Whether inode `i` keeps the rule.
fn keeps_rule<V: Blocks>(
    alloc: Global,
    v: &mut V,
    inodes: &Inodes,
    i: Ino,
    rule: NodeRule,
) -> Result<bool, CheckFail>
    requires can { CanLook V.seen V.sound V.passes v.old }
    requires inodes { HasInodes (V.seen v.old) inodes.now }
    requires before { Supposes rule inodes.now.shape (V.seen v.old).words }
    requires ino { IsIno inodes.now.shape i.0 }
    ensures keeps { IfOk result (λ keeps. IsTrue keeps ↔ NodeKeeps rule inodes.now.shape (V.seen v.old).words i.0) }
    ensures unrefused { IfErr result (Refuses (λ _ _. ⊥)) }
    ensures looked { Looked V.seen V.health V.sound V.passes v.old v.new result }
{
    match rule {
        NodeRule::Numbers => keeps_numbers(alloc, v, inodes, i),
        NodeRule::Entries => keeps_entries(alloc, v, inodes, i),
        NodeRule::Names => keeps_apart(alloc, v, inodes, i),
        NodeRule::Format => keeps_format(alloc, v, inodes, i),
    }
}

/// Looks at the rule, inode by inode.
pub(crate) fn look_at_each<V: Blocks>(
    alloc: Global,
    v: &mut V,
    inodes: &Inodes,
    rule: NodeRule,
) -> Result<(), CheckFail>
    requires can { CanLook V.seen V.sound V.passes v.old }
    requires inodes { HasInodes (V.seen v.old) inodes.now }
    requires before { Supposes rule inodes.now.shape (V.seen v.old).words }
    ensures ok { OnOk result ((i : ℕ) → IsIno inodes.now.shape i → NodeKeeps rule inodes.now.shape (V.seen v.old).words i) }
    ensures refused { IfErr result (Refuses (FailsBy (node_number rule) inodes.now.shape (NodeKeeps rule inodes.now.shape (V.seen v.old).words))) }
    ensures looked { Looked V.seen V.health V.sound V.passes v.old v.new result }
{
    for k in 0..inodes.shape.inodes {
        let i = Ino(k + 1);
        let keeps = keeps_rule(alloc, v, inodes, i, rule)?;
        if !keeps {
            return Err(broken_at(inodes, rule.number(), i));
        }
    }
    Ok(())
}
