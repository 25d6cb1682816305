//! A prepared change, made in the open update.

ghost use Rattle.std.specs.Prelude.{◌≡◌, true, None, OnOk};
ghost use Rattle.rio_base.specs.Blocks.{Caches, Halts};
ghost use Rattle.rio_base.specs.Layout.{IsIno};
ghost use Rattle.rio_base.specs.Shapes.{HasShape};
ghost use Rattle.rio_base.specs.Volume.{Firm, Goes, SameUpdate};
ghost use Rattle.rio_model.specs.Updates.{Applied};
ghost use Rattle.block_alloc.specs.Bitmap.{numbers};
ghost use Rattle.node_pages.specs.Updating.{CanUpdate, IsTouched};
ghost use Rattle.directories.specs.Plans.{dir_update};

use crate::DirChange;
use node_pages::make_update;
use rio_base::{Stopped, Volume, VolumeShape};

/// Makes a prepared change of a directory, in the open update: its edits, its inode, and the bits of the blocks that it
/// gains and loses. All their blocks must be touched. Other changes may be made in the same update, of other nodes. It takes
/// no memory, and `Stopped` comes only where the machine is stopped afterwards.
pub fn apply<V: Volume>(v: &mut V, shape: &VolumeShape, change: &DirChange) -> Result<(), Stopped>
    requires sound { V.sound v.old }
    requires shape { HasShape shape.now (V.seen v.old) }
    requires in_update { (V.kept v.old).updating ≡ true }
    requires ino { IsIno shape.now change.now.dir.0 }
    requires touched { IsTouched (V.kept v.old) change.now.dir.0 change.now.edits }
    requires can { CanUpdate shape.now change.now.edits (numbers change.now.taken) (numbers change.now.freed) }
    ensures ok { OnOk result (Applied shape.now (dir_update change.now) (V.seen v.old).words (V.seen v.new).words) }
    ensures update { OnOk result (SameUpdate (V.kept v.old) (V.kept v.new)) }
    ensures in_update { (V.kept v.new).updating ≡ true }
    ensures standing { (V.kept v.new).standing ≡ (V.kept v.old).standing }
    ensures firm { Firm (V.kept v.old) (V.kept v.new) }
    ensures shape { HasShape shape.now (V.seen v.new) }
    ensures caches { Caches (V.seen v.old) (V.seen v.new) 1 None }
    ensures goes { Goes (V.health v.old) (V.below v.old) (V.health v.new) (V.below v.new) }
    ensures ends { Halts (V.health v.old) (V.health v.new) result }
    ensures sound { V.sound v.new }
{
    make_update(
        v,
        shape,
        change.dir,
        &change.inode,
        change.edits.as_slice(),
        change.taken.as_slice(),
        change.freed.as_slice(),
    )
}
