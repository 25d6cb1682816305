//! A view of a region's words that comes to stand on the region at a path.

ghost use Rattle.std.specs.Prelude.{◌≡◌, IfOk, IsErrOf, OnErr, OnOk};
ghost use Rattle.rio_base.specs.Blocks.{EndsBy};
ghost use Rattle.rio_base.specs.Volume.{Goes};
ghost use Rattle.rio_model.specs.declared.state.State.{State};
ghost use Rattle.rio_model.specs.Paths.{IsPath};
ghost use Rattle.rio_model.specs.VolumeReads.{ReadsAs};
ghost use Rattle.rio_model.specs.VolumeReady.{Ready};
ghost use Rattle.region_view.specs.Views.{KeepsInode, OnRegion};
ghost use Rattle.request_ends.specs.Ends.{CanServe};
ghost use Rattle.request_ends.specs.Failures.{Faulted};
ghost use Rattle.file_tree.specs.Memos.{InStep};
ghost use Rattle.node_making.specs.NewNodes.{FindsRegion};

use crate::regions::region_at;
use file_tree::Memo;
use region_view::{RegionView, region_words};
use request_ends::FileFail;
use rio_base::{Ino, Volume};

/// Makes a view stand on the region at a path: reads its inode once, and looks names up where they are held. After a failure it
/// stands on the region that it stood on, if any.
pub fn stand_at<V: Volume>(
    view: &mut RegionView<V>,
    memo: &mut Memo,
    path: &[u8],
) -> Result<Ino, FileFail>
    requires sound { V.sound view.old.v }
    requires can { CanServe view.old.shape (V.seen view.old.v) (V.kept view.old.v) }
    requires in_step { InStep view.old.shape (V.seen view.old.v).words memo.old }
    requires path { IsPath path.now }
    ensures found { (s : State) → ReadsAs view.old.shape (V.seen view.old.v).words s → FindsRegion s path.now result }
    ensures on { OnOk result (OnRegion view.new.shape (V.seen view.new.v) (V.kept view.new.v) view.new.ino.0 view.new.words) }
    ensures inode { OnOk result (KeepsInode (V.seen view.new.v).words view.new.ino.0 view.new.inode) }
    ensures ino { IfOk result (λ i. view.new.ino ≡ i) }
    ensures kept { OnErr result ((view.new.ino ≡ view.old.ino) × (view.new.words ≡ view.old.words) × (view.new.inode ≡ view.old.inode)) }
    ensures shape { view.new.shape ≡ view.old.shape }
    ensures words { (V.seen view.new.v).words ≡ (V.seen view.old.v).words }
    ensures in_step { InStep view.old.shape (V.seen view.old.v).words memo.new }
    ensures ready { Ready view.new.shape (V.seen view.new.v) (V.kept view.new.v) }
    ensures goes { Goes (V.health view.old.v) (V.below view.old.v) (V.health view.new.v) (V.below view.new.v) }
    ensures ends { EndsBy (V.health view.old.v) (V.health view.new.v) (Faulted result) (IsErrOf result FileFail.Stopped) }
    ensures sound { V.sound view.new.v }
{
    let (i, inode) = region_at(&mut view.v, &view.shape, memo, path)?;
    view.words = region_words(&inode);
    view.ino = i;
    view.inode = inode;
    Ok(i)
}
