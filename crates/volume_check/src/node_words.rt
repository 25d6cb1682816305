//! Words of a node, read from its pages.

ghost use Rattle.std.specs.Prelude.{◌≤◌, ◌<◌, IfErr, IfOk};
ghost use Rattle.rio_base.specs.Layout.{IsIno};
ghost use Rattle.rio_model.specs.Held.{held_of};
ghost use Rattle.rio_model.specs.Sizes.{pages};
ghost use Rattle.rio_model.specs.VolumeRules.{NumberRule, SizeRule};
ghost use Rattle.volume_check.specs.Looking.{CanLook, Looked, Refuses};
ghost use Rattle.volume_check.specs.Inodes.{HasInodes, layout_of, said};
ghost use Rattle.volume_check.specs.NodeBlocks.{HasFront};

use crate::failures::CheckFail;
use crate::inodes::Inodes;
use crate::numbers::read_numbers;
use crate::reading::push_block;
use rio_base::{BLOCK_WORDS, Blocks, Ino};
use std::alloc::Global;

/// The words of the first `count` pages of node `i`. Those past its size may be anything.
pub fn read_front<V: Blocks>(
    alloc: Global,
    v: &mut V,
    inodes: &Inodes,
    i: Ino,
    count: u32,
) -> Result<Vec<u64>, CheckFail>
    requires can { CanLook V.seen V.sound V.passes v.old }
    requires inodes { HasInodes (V.seen v.old) inodes.now }
    requires sizes { SizeRule (layout_of (V.seen v.old) inodes.now) }
    requires numbers { NumberRule (layout_of (V.seen v.old) inodes.now) }
    requires ino { IsIno inodes.now.shape i.0 }
    requires used { 0 < said inodes.now i.0 0 }
    requires within { count ≤ pages (said inodes.now i.0 1) }
    ensures words { IfOk result (λ words. HasFront (held_of inodes.now.shape (V.seen v.old).words i.0) count words.items) }
    ensures unrefused { IfErr result (Refuses (λ _ _. ⊥)) }
    ensures looked { Looked V.seen V.health V.sound V.passes v.old v.new result }
{
    let mut blocks = Vec::new(alloc);
    read_numbers(v, inodes, i, &mut blocks)?;
    let mut words = Vec::with_capacity(alloc, count as usize * BLOCK_WORDS)?;
    for page in 0..count {
        push_block(v, blocks[page as usize], &mut words)?;
    }
    Ok(words)
}
