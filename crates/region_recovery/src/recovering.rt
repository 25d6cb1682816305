//! Regions whose undo records are put back.

ghost use Rattle.std.specs.Prelude.{◌≡◌, ◌<◌, ◌+◌, ◌/◌, [], ℕ, IfOk, OnOk, length};
ghost use Rattle.rio_base.specs.Blocks.{Ends};
ghost use Rattle.rio_base.specs.Layout.{IsIno};
ghost use Rattle.rio_base.specs.Volume.{Goes};
ghost use Rattle.rio_base.specs.NodeKinds.{region_kind};
ghost use Rattle.rio_model.specs.declared.state.State.{State};
ghost use Rattle.rio_model.specs.Held.{held_of};
ghost use Rattle.rio_model.specs.RegionMoves.{RestHeld};
ghost use Rattle.rio_model.specs.Undo.{undo_records};
ghost use Rattle.rio_model.specs.VolumeReads.{ReadsAs};
ghost use Rattle.rio_model.specs.VolumeReady.{Ready};
ghost use Rattle.region_recovery.specs.RegionLists.{AreRecovered, has_records, ino_numbers, region_inos, undone_count};

use region_view::RegionView;
use rio_base::{Ino, VolFail, Volume};
use vista_region::recover;

/// Puts the undo records of each region back, and empties its list. `regions` are those of the volume, in order. The answer is
/// how many had a record. At each exit the volume reads as the state that it read as, so that this may be made again.
pub fn recover_regions<V: Volume>(view: &mut RegionView<V>, regions: &[Ino]) -> Result<u32, VolFail>
    requires sound { V.sound view.old.v }
    requires ready { Ready view.old.shape (V.seen view.old.v) (V.kept view.old.v) }
    requires reads { (s : State) × ReadsAs view.old.shape (V.seen view.old.v).words s }
    requires regions { ino_numbers regions.now ≡ region_inos view.old.shape (V.seen view.old.v).words }
    ensures reads { (s : State) → ReadsAs view.old.shape (V.seen view.old.v).words s → ReadsAs view.old.shape (V.seen view.new.v).words s }
    ensures recovered { OnOk result (AreRecovered view.old.shape (V.seen view.new.v).words) }
    ensures count { IfOk result (λ n. n ≡ undone_count view.old.shape (V.seen view.old.v).words) }
    ensures none { region_inos view.old.shape (V.seen view.old.v).words ≡ [] → view.new.v ≡ view.old.v }
    ensures ready { Ready view.old.shape (V.seen view.new.v) (V.kept view.new.v) }
    ensures shape { view.new.shape ≡ view.old.shape }
    ensures goes { Goes (V.health view.old.v) (V.below view.old.v) (V.health view.new.v) (V.below view.new.v) }
    ensures ends { Ends (V.health view.old.v) (V.health view.new.v) result }
    ensures sound { V.sound view.new.v }
{
    let mut undone = 0;
    for n in 0..regions.len() {
        if recover_region(view, regions[n])? {
            undone += 1;
        }
    }
    Ok(undone)
}

/// Puts the undo records of region `i` back, and empties its list. The answer is whether it had one.
fn recover_region<V: Volume>(view: &mut RegionView<V>, i: Ino) -> Result<bool, VolFail>
    requires sound { V.sound view.old.v }
    requires ready { Ready view.old.shape (V.seen view.old.v) (V.kept view.old.v) }
    requires reads { (s : State) × ReadsAs view.old.shape (V.seen view.old.v).words s }
    requires ino { IsIno view.old.shape i.0 }
    requires region { (held_of view.old.shape (V.seen view.old.v).words i.0).kind ≡ region_kind }
    ensures reads { (s : State) → ReadsAs view.old.shape (V.seen view.old.v).words s → ReadsAs view.old.shape (V.seen view.new.v).words s }
    ensures recovered { OnOk result (undo_records (held_of view.old.shape (V.seen view.new.v).words i.0).word ≡ []) }
    ensures held { IfOk result (λ b. b ≡ has_records view.old.shape (V.seen view.old.v).words i.0) }
    ensures rest { RestHeld view.old.shape i.0 (V.seen view.old.v).words (V.seen view.new.v).words }
    ensures ready { Ready view.old.shape (V.seen view.new.v) (V.kept view.new.v) }
    ensures shape { view.new.shape ≡ view.old.shape }
    ensures goes { Goes (V.health view.old.v) (V.below view.old.v) (V.health view.new.v) (V.below view.new.v) }
    ensures ends { Ends (V.health view.old.v) (V.health view.new.v) result }
    ensures sound { V.sound view.new.v }
{
    view.point(i)?;
    recover(view)
}
