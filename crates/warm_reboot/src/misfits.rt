//! Entries that do not fit the volume: which block tells rule 12.

ghost use Rattle.std.specs.Prelude.{◌≡◌, ◌<◌, IfOk};
ghost use Rattle.rio_base.specs.Blocks.{Ends};
ghost use Rattle.rio_model.specs.Cover.{stands};
ghost use Rattle.rio_model.specs.Placed.{volume_layout};
ghost use Rattle.rio_model.specs.Registry.{frames_of};
ghost use Rattle.registry.specs.Views.{Viewed, view_health};
ghost use Rattle.warm_reboot.specs.Examining.{IsLeastMisfit, IsMisfit, KnowsOwners, lesser};

use crate::marking::entry_fits;
use registry::{CoverView, Tag, frame_count, read_entry};
use rio_base::{Block, Blocks, Machine, VolFail, VolumeShape};
use rio_model::Owner;

/// The least block whose entry does not keep rule 12, if any. `owners` are those of the blocks. `Fault` and `Stopped` are those
/// of reading inodes.
pub(crate) fn least_misfit<M: Machine>(
    view: &mut CoverView<M>,
    shape: &VolumeShape,
    owners: &[Owner],
) -> Result<Option<Block>, VolFail>
    requires sound { ⟦<CoverView<M> as Blocks>⟧.sound view.old }
    requires owned { KnowsOwners (M.contents view.old.machine) shape.now owners.now }
    ensures misfit { IfOk result (IsLeastMisfit (volume_layout shape.now (stands (M.contents view.old.machine))) (M.contents view.old.machine).words) }
    ensures viewed { Viewed (M.contents view.old.machine) (M.contents view.new.machine) (M.run view.old.machine) (M.run view.new.machine) }
    ensures ends { Ends (view_health (M.contents view.old.machine) (M.run view.old.machine)) (view_health (M.contents view.new.machine) (M.run view.new.machine)) result }
    ensures sound { ⟦<CoverView<M> as Blocks>⟧.sound view.new }
{
    let frames = frame_count(view.machine());
    let mut least = None;
    for k in 0..frames {
        let misfit = misfit_of(view, shape, owners, k)?;
        least = lesser(least, misfit);
    }
    Ok(least)
}

/// The block of entry `k`, if the entry is valid and does not keep rule 12.
fn misfit_of<M: Machine>(
    view: &mut CoverView<M>,
    shape: &VolumeShape,
    owners: &[Owner],
    k: u32,
) -> Result<Option<Block>, VolFail>
    requires sound { ⟦<CoverView<M> as Blocks>⟧.sound view.old }
    requires owned { KnowsOwners (M.contents view.old.machine) shape.now owners.now }
    requires entry { k < frames_of (M.contents view.old.machine).words }
    ensures misfit { IfOk result (IsMisfit (volume_layout shape.now (stands (M.contents view.old.machine))) (M.contents view.old.machine).words k) }
    ensures viewed { Viewed (M.contents view.old.machine) (M.contents view.new.machine) (M.run view.old.machine) (M.run view.new.machine) }
    ensures ends { Ends (view_health (M.contents view.old.machine) (M.run view.old.machine)) (view_health (M.contents view.new.machine) (M.run view.new.machine)) result }
    ensures sound { ⟦<CoverView<M> as Blocks>⟧.sound view.new }
{
    let entry = read_entry(view.machine(), k);
    let tag = Tag(entry.tag);
    if !tag.is_valid() {
        return Ok(None);
    }
    let fits = entry_fits(view, shape, owners, &entry)?;
    if fits {
        return Ok(None);
    }
    Ok(Some(tag.block()))
}

/// The lesser of two blocks, if there are any.
fn lesser(a: Option<Block>, b: Option<Block>) -> Option<Block>
    ensures { result ≡ lesser a b }
{
    let Some(Block(a)) = a else {
        return b;
    };
    let Some(Block(b)) = b else {
        return Some(Block(a));
    };
    Some(Block(a.min(b)))
}
