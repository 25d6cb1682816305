//! The shrinking of a node, prepared.

ghost use Rattle.std.specs.Prelude.{◌≤◌, IfOk, IsErrOf};
ghost use Rattle.rio_base.specs.Frames.{CanRead, HasRead};
ghost use Rattle.rio_base.specs.Layout.{IsIno};
ghost use Rattle.rio_model.specs.Placed.{volume_layout};
ghost use Rattle.rio_model.specs.VolumeRules.{IsLaid, SizeFits};
ghost use Rattle.node_pages.specs.Changes.{PlansFor, Shrinks};
ghost use Rattle.node_pages.specs.LookingUp.{CanLookUp, LooksUp};
ghost use Rattle.node_pages.specs.Failures.{Unrefused};

use crate::changes::{EditList, SizeChange};
use crate::failures::SizeFail;
use crate::numbers::{page_blocks, push_table};
use crate::sizes::{page_count, table_count};
use inode_table::Inode;
use rio_base::{BlockList, Blocks, Ino, VolumeShape};
use std::alloc::Global;

/// Prepares the shrinking of a node to `len` bytes, and changes nothing.
#[tactic(auto, using(crate::proofs::Given::given_most))]
pub fn plan_shrink<V: Blocks>(
    alloc: Global,
    v: &mut V,
    shape: &VolumeShape,
    i: Ino,
    inode: &Inode,
    len: u64,
) -> Result<SizeChange, SizeFail>
    requires can { CanRead V.seen V.sound (CanLookUp shape.now) v.old }
    requires laid { IsLaid (volume_layout shape.now (V.seen v.old).words) }
    requires ino { IsIno shape.now i.0 }
    requires inode { PlansFor (V.seen v.old).words i.0 inode.now }
    requires less { len ≤ inode.now.size }
    requires fits { SizeFits inode.now.kind len }
    ensures ok { IfOk result (λ c. Shrinks shape.now (V.seen v.old).words i.0 inode.now len c) }
    ensures read { HasRead V.seen V.health V.sound V.passes (LooksUp shape.now) v.old v.new (IsErrOf result SizeFail.Fault) (IsErrOf result SizeFail.Stopped) }
    ensures other { Unrefused result }
{
    let first = page_count(len);
    let end = page_count(inode.size);
    let mut freed = page_blocks(alloc, v, shape, i, inode, first, end)?;
    let goes = table_count(len) < table_count(inode.size);
    push_table(&mut freed, inode.indirect, goes)?;
    Ok(SizeChange {
        inode: Inode {
            kind: inode.kind,
            size: len,
            direct: inode.direct,
            indirect: inode.indirect,
            double: inode.double,
        },
        edits: EditList::from(Vec::new(alloc)),
        taken: BlockList::from(Vec::new(alloc)),
        freed: BlockList::from(freed),
    })
}
