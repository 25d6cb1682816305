//! Which inodes are regions.

ghost use Rattle.std.specs.Prelude.{◌≡◌, ◌≤◌, ◌+◌, ℕ, IfOk, IsErrOf, length};
ghost use Rattle.std.specs.List.{range_with_len};
ghost use Rattle.rio_base.specs.Blocks.{Ends, EndsBy, Looks};
ghost use Rattle.rio_base.specs.BlockSets.{CachesBy};
ghost use Rattle.rio_base.specs.Layout.{IsIno, inode_kind};
ghost use Rattle.rio_base.specs.Shapes.{HasShape};
ghost use Rattle.rio_model.specs.Placed.{volume_layout};
ghost use Rattle.rio_model.specs.VolumeRules.{KindRule};
ghost use Rattle.inode_table.specs.Inodes.{IsMetadata};
ghost use Rattle.region_recovery.specs.RegionLists.{ino_numbers, is_region, region_inos};

use inode_table::read_inode;
use rio_base::{Blocks, Ino, REGION, ReadFail, VolFail, VolumeShape};
use std::alloc::Global;

/// The regions of a volume whose inodes have kinds that there are, in order. `Memory` means that there was no room for the
/// list, `Fault` and `Stopped` are those of reading the inodes.
pub fn list_regions<V: Blocks>(
    alloc: Global,
    v: &mut V,
    shape: &VolumeShape,
) -> Result<Vec<Ino>, ReadFail>
    requires sound { V.sound v.old }
    requires shape { HasShape shape.now (V.seen v.old) }
    requires kinds { KindRule (volume_layout shape.now (V.seen v.old).words) }
    ensures list { IfOk result (λ list. ino_numbers list.items ≡ region_inos shape.now (V.seen v.old).words) }
    ensures looks { Looks (V.seen v.old) (V.seen v.new) }
    ensures shape { HasShape shape.now (V.seen v.new) }
    ensures caches { CachesBy (IsMetadata shape.now) (V.seen v.old) (V.seen v.new) }
    ensures passes { V.passes v.old v.new }
    ensures ends { EndsBy (V.health v.old) (V.health v.new) (IsErrOf result ReadFail.Fault) (IsErrOf result ReadFail.Stopped) }
    ensures sound { V.sound v.new }
{
    let mut regions = Vec::new(alloc);
    for n in 0..shape.inodes {
        let i = Ino(n + 1);
        if is_region(v, shape, i)? {
            regions.push(i)?;
        }
    }
    Ok(regions)
}

/// Whether inode `i` is a region's.
fn is_region<V: Blocks>(v: &mut V, shape: &VolumeShape, i: Ino) -> Result<bool, VolFail>
    requires sound { V.sound v.old }
    requires shape { HasShape shape.now (V.seen v.old) }
    requires ino { IsIno shape.now i.0 }
    requires kind { inode_kind (V.seen v.old).words i.0 ≤ 3 }
    ensures value { IfOk result (λ b. b ≡ is_region shape.now (V.seen v.old).words i.0) }
    ensures looks { Looks (V.seen v.old) (V.seen v.new) }
    ensures shape { HasShape shape.now (V.seen v.new) }
    ensures caches { CachesBy (IsMetadata shape.now) (V.seen v.old) (V.seen v.new) }
    ensures passes { V.passes v.old v.new }
    ensures ends { Ends (V.health v.old) (V.health v.new) result }
    ensures sound { V.sound v.new }
{
    let inode = read_inode(v, shape, i)?;
    Ok(inode.kind == REGION)
}
