//! What memory and disk stand for, looked at before anything is stored.

ghost use Rattle.std.specs.Prelude.{◌≡◌, ℕ, false, None, IfErr, IfOk, MatchResult, length};
ghost use Rattle.rio_base.specs.Disks.{is_pending};
ghost use Rattle.rio_base.specs.Image.{HasHeader};
ghost use Rattle.rio_model.specs.declared.state.State.{State};
ghost use Rattle.rio_model.specs.Censuses.{IsCensus};
ghost use Rattle.rio_model.specs.Cover.{stands};
ghost use Rattle.rio_model.specs.Placed.{volume_layout};
ghost use Rattle.rio_model.specs.Registry.{HasLayout};
ghost use Rattle.rio_model.specs.Standing.{StandsFor};
ghost use Rattle.registry.specs.Views.{Viewed};
ghost use Rattle.page_restore.specs.Stale.{MarksStale};
ghost use Rattle.region_recovery.specs.RegionLists.{ino_numbers, region_inos};
ghost use Rattle.warm_reboot.specs.Examining.{IsExamined, TellsNoRule, Unexamined};

use crate::marking::mark_stale;
use crate::misfits::least_misfit;
use crate::report::{BootError, BootFail};
use region_recovery::list_regions;
use registry::{BadImage, CoverView, check_image};
use rio_base::{Blocks, Ino, Machine};
use rio_model::{Census, VolumeRule};
use std::alloc::Global;
use volume_check::look_at_volume;

/// Looks at the rules of the image and then at those of the volume, over the blocks that memory and disk stand for, and stores
/// nothing. The answer is the machine, and what there is on the volume. `BadImage` and `BadVolume` tell the first rule that
/// fails; `Fault` and `Stopped` are those of reading the disk; `Memory` is that of tables by block and by inode, and of the names
/// of a directory. The machine is as it was at each exit, but for its count of faults.
pub fn examine<M: Machine>(alloc: Global, machine: M) -> Result<(M, Census), BootError<M>>
    requires layout { HasLayout (M.contents machine).words (M.run machine).scratch }
    requires closed { (M.contents machine).open_page ≡ None }
    ensures examined { IfOk result (λ found. IsExamined (M.contents machine) found.1) }
    ensures standing { (s : State) → StandsFor (M.contents machine) (length (M.run machine).scratch) s → MatchResult result (λ found. IsCensus s found.1) (λ failed. TellsNoRule failed.fail) }
    ensures settled { IfOk result (λ found. HasHeader (M.contents machine).words → ((b : ℕ) → is_pending (M.contents machine).pending b ≡ false) → (s : State) × StandsFor (M.contents machine) (length (M.run machine).scratch) s × IsCensus s found.1) }
    ensures unexamined { IfErr result (λ failed. Unexamined (M.contents machine) (M.contents failed.machine) (M.run failed.machine) failed.fail) }
    ensures untouched { MatchResult result (λ found. Viewed (M.contents machine) (M.contents found.0) (M.run machine) (M.run found.0)) (λ failed. Viewed (M.contents machine) (M.contents failed.machine) (M.run machine) (M.run failed.machine)) }
{
    let (machine, examined) = look(alloc, machine)?;
    Ok((machine, examined.census))
}

/// What a look at memory and disk finds.
#[derive(Drop)]
pub(crate) struct Examined {
    /// What there is on the volume.
    pub(crate) census: Census,
    /// A mark for each entry that says whether its page is stale.
    pub(crate) marks: Vec<bool>,
    /// The regions, in order.
    pub(crate) regions: Vec<Ino>,
}

/// Looks at the rules of the image, and then at those of the volume. The answer is the machine, and what is found.
pub(crate) fn look<M: Machine>(alloc: Global, machine: M) -> Result<(M, Examined), BootError<M>>
    requires layout { HasLayout (M.contents machine).words (M.run machine).scratch }
    requires closed { (M.contents machine).open_page ≡ None }
    ensures examined { IfOk result (λ found. IsExamined (M.contents machine) found.1.census) }
    ensures marks { IfOk result (λ found. MarksStale (volume_layout found.1.census.shape (stands (M.contents machine))) (M.contents machine).words found.1.marks.items) }
    ensures regions { IfOk result (λ found. ino_numbers found.1.regions.items ≡ region_inos found.1.census.shape (stands (M.contents machine))) }
    ensures unexamined { IfErr result (λ failed. Unexamined (M.contents machine) (M.contents failed.machine) (M.run failed.machine) failed.fail) }
    ensures untouched { MatchResult result (λ found. Viewed (M.contents machine) (M.contents found.0) (M.run machine) (M.run found.0)) (λ failed. Viewed (M.contents machine) (M.contents failed.machine) (M.run machine) (M.run failed.machine)) }
{
    if let Err(BadImage(rule)) = check_image(&machine) {
        return Err(BootError {
            machine,
            fail: BootFail::BadImage(rule),
        });
    }
    let mut view = match CoverView::new(alloc, machine) {
        Ok(view) => view,
        Err((machine, _)) => {
            return Err(BootError {
                machine,
                fail: BootFail::Memory,
            });
        }
    };
    let found = look_at_pair(alloc, &mut view);
    let machine = view.into_machine();
    match found {
        Ok(examined) => Ok((machine, examined)),
        Err(fail) => Err(BootError { machine, fail }),
    }
}

/// Looks at the rules 1 to 12 of a volume and its image, in their order.
fn look_at_pair<M: Machine>(alloc: Global, view: &mut CoverView<M>) -> Result<Examined, BootFail>
    requires sound { ⟦<CoverView<M> as Blocks>⟧.sound view.old }
    ensures examined { IfOk result (λ found. IsExamined (M.contents view.old.machine) found.census) }
    ensures marks { IfOk result (λ found. MarksStale (volume_layout found.census.shape (stands (M.contents view.old.machine))) (M.contents view.old.machine).words found.marks.items) }
    ensures regions { IfOk result (λ found. ino_numbers found.regions.items ≡ region_inos found.census.shape (stands (M.contents view.old.machine))) }
    ensures unexamined { IfErr result (Unexamined (M.contents view.old.machine) (M.contents view.new.machine) (M.run view.new.machine)) }
    ensures viewed { Viewed (M.contents view.old.machine) (M.contents view.new.machine) (M.run view.old.machine) (M.run view.new.machine) }
{
    let (census, owners) = look_at_volume(alloc, view)?;
    if let Some(block) = least_misfit(view, &census.shape, &owners)? {
        return Err(BootFail::BadVolume(VolumeRule::Cached as u8, block));
    }
    let regions = list_regions(alloc, view, &census.shape)?;
    let marks = mark_stale(alloc, view.machine(), &owners)?;
    Ok(Examined {
        census,
        marks,
        regions,
    })
}
