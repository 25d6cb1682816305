//! Rule 11: each region keeps the format.

ghost use Rattle.std.specs.Prelude.{◌≡◌, ◌↔◌, IfErr, IfOk, IsTrue};
ghost use Rattle.rio_base.specs.Layout.{IsIno};
ghost use Rattle.rio_model.specs.Held.{held_of};
ghost use Rattle.rio_model.specs.VolumeRules.{IsMapped, RegionAt};
ghost use Rattle.volume_check.specs.Looking.{CanLook, Looked, Refuses};
ghost use Rattle.volume_check.specs.Inodes.{HasInodes};

use crate::failures::CheckFail;
use crate::inode_rules::REGION;
use crate::inodes::Inodes;
use crate::node_words::read_front;
use crate::numbers::page_count;
use crate::region_words::{is_sound_region, region_pages};
use rio_base::{Blocks, Ino};
use std::alloc::Global;

/// Whether inode `i`, if it is a region, keeps the format. Its data are not read.
pub(crate) fn keeps_format<V: Blocks>(
    alloc: Global,
    v: &mut V,
    inodes: &Inodes,
    i: Ino,
) -> Result<bool, CheckFail>
    requires can { CanLook V.seen V.sound V.passes v.old }
    requires inodes { HasInodes (V.seen v.old) inodes.now }
    requires mapped { IsMapped inodes.now.shape (V.seen v.old).words }
    requires ino { IsIno inodes.now.shape i.0 }
    ensures keeps { IfOk result (λ keeps. IsTrue keeps ↔ RegionAt (held_of inodes.now.shape (V.seen v.old).words) i.0) }
    ensures unrefused { IfErr result (Refuses (λ _ _. ⊥)) }
    ensures looked { Looked V.seen V.health V.sound V.passes v.old v.new result }
{
    if inodes.kind(i) != REGION {
        return Ok(true);
    }
    let header = read_front(alloc, v, inodes, i, 1)?;
    let Some(pages) = region_pages(&header, page_count(inodes.size(i))) else {
        return Ok(false);
    };
    let mut words = read_front(alloc, v, inodes, i, pages.front())?;
    Ok(is_sound_region(&mut words, pages))
}
