//! One update that makes a prepared change of size stand.

ghost use Rattle.std.specs.Prelude.{◌≡◌, true, false, OnOk, IsErrOf};
ghost use Rattle.rio_base.specs.BlockSets.{CachesBy};
ghost use Rattle.rio_base.specs.Blocks.{BlockWords, Ends, EndsBy};
ghost use Rattle.rio_base.specs.Layout.{IsIno};
ghost use Rattle.rio_base.specs.Shapes.{HasShape};
ghost use Rattle.rio_base.specs.Volume.{Firm, Goes};
ghost use Rattle.rio_model.specs.NodeChanges.{Change};
ghost use Rattle.rio_model.specs.Placed.{Placed, volume_layout};
ghost use Rattle.node_pages.specs.Updating.{IsUpdated};
ghost use Rattle.node_pages.specs.Failures.{Unrefused};
ghost use Rattle.file_pages.specs.Preparing.{Committed, Prepared};
ghost use Rattle.file_pages.specs.Touching.{CanChange, ChangeTouched};

use crate::updating::{apply, touch_change};
use node_pages::{SizeChange, SizeFail};
use rio_base::{Ino, VolFail, Volume, VolumeShape};

/// Opens an update and touches the blocks of a change of node `i`. After `Fault` no update is open, and nothing reads or
/// stands otherwise.
fn open_change<V: Volume>(
    v: &mut V,
    shape: &VolumeShape,
    i: Ino,
    change: &SizeChange,
) -> Result<(), VolFail>
    requires sound { V.sound v.old }
    requires shape { HasShape shape.now (V.seen v.old) }
    requires idle { (V.kept v.old).updating ≡ false }
    requires ino { IsIno shape.now i.0 }
    requires can { CanChange shape.now (V.seen v.old) change.now }
    ensures ok { OnOk result (ChangeTouched (V.kept v.new) i.0 change.now × ((V.kept v.new).updating ≡ true) × ((V.seen v.new).words ≡ (V.seen v.old).words)) }
    ensures fault { IsErrOf result VolFail.Fault → ((V.kept v.new).updating ≡ false) × ((V.seen v.new).words ≡ (V.seen v.old).words) }
    ensures shape { HasShape shape.now (V.seen v.new) }
    ensures standing { (V.kept v.new).standing ≡ (V.kept v.old).standing }
    ensures firm { Firm (V.kept v.old) (V.kept v.new) }
    ensures caches { CachesBy (IsUpdated i.0 change.now.edits) (V.seen v.old) (V.seen v.new) }
    ensures goes { Goes (V.health v.old) (V.below v.old) (V.health v.new) (V.below v.new) }
    ensures ends { Ends (V.health v.old) (V.health v.new) result }
    ensures sound { V.sound v.new }
{
    v.begin()?;
    match touch_change(v, shape, i, change) {
        Ok(()) => Ok(()),
        Err(VolFail::Stopped) => Err(VolFail::Stopped),
        Err(VolFail::Fault) => {
            v.rollback()?;
            Err(VolFail::Fault)
        }
    }
}

/// Makes a prepared change of file `i` in one update. `Fault` leaves everything as it was; `Stopped` leaves all of the
/// change standing, or nothing of it.
pub fn commit_change<V: Volume>(
    v: &mut V,
    shape: &VolumeShape,
    i: Ino,
    change: &SizeChange,
) -> Result<(), SizeFail>
    requires sound { V.sound v.old }
    requires shape { HasShape shape.now (V.seen v.old) }
    requires idle { (V.kept v.old).updating ≡ false }
    requires ino { IsIno shape.now i.0 }
    requires can { CanChange shape.now (V.seen v.old) change.now }
    ensures leaves { (f : BlockWords) (m : Placed) → Prepared shape.now f (V.seen v.old) (V.kept v.old) i.0 m change.now → Committed shape.now f (V.seen v.old) m (V.seen v.new) (V.kept v.new) i.0 result }
    ensures change { OnOk result ((f : BlockWords) (m : Placed) → Prepared shape.now f (V.seen v.old) (V.kept v.old) i.0 m change.now → Change (volume_layout shape.now (V.seen v.old).words) (V.seen v.old).words (V.seen v.new).words i.0 m) }
    ensures goes { Goes (V.health v.old) (V.below v.old) (V.health v.new) (V.below v.new) }
    ensures other { Unrefused result }
    ensures ends { EndsBy (V.health v.old) (V.health v.new) (IsErrOf result SizeFail.Fault) (IsErrOf result SizeFail.Stopped) }
    ensures sound { V.sound v.new }
{
    open_change(v, shape, i, change)?;
    apply(v, shape, i, change)?;
    v.commit()?;
    Ok(())
}
