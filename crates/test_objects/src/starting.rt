//! A fresh volume, which has an empty root directory alone, and one that is started again.

ghost use Rattle.std.specs.Prelude.{◌≡◌, false, IfOk, OnOk};
ghost use Rattle.test_objects.specs.ListVolumes.{ListSound, list_kept, list_seen};
ghost use Rattle.rio_base.specs.Shapes.{HasShape};
ghost use Rattle.rio_base.specs.Volume.{Firm};
ghost use Rattle.rio_model.specs.VolumeReady.{Ready, StandsReady};
ghost use Rattle.test_objects.specs.TestVolumes.{HasNodes, IsFresh, IsTestShape, fresh_words, marks_of};

use crate::ListVolume;
use rio_base::{Block, VOLUME_MAGIC, Volume, VolumeShape};
use std::alloc::Global;
use std::test::Fail;

/// The marks of the reserved blocks.
#[tactic(auto, using(crate::proofs::FreshVolumes::marks_first, crate::proofs::FreshVolumes::marks_second))]
fn reserved_marks(shape: &VolumeShape) -> u64
    requires { IsTestShape shape.now }
    ensures { result ≡ marks_of shape.now }
{
    if shape.inodes == 64 {
        0b1111
    } else {
        0b11_1111
    }
}

/// Makes a volume of zeros a fresh one, which has the root directory alone.
#[tactic(auto, using(crate::proofs::FreshVolumes::root_low))]
fn format<V: Volume>(v: &mut V, shape: &VolumeShape) -> Result<(), Fail>
    requires sound { V.sound v.old }
    requires sizes { IsTestShape shape.now }
    requires shape { HasShape shape.now (V.seen v.old) }
    requires idle { (V.kept v.old).updating ≡ false }
    ensures words { OnOk result ((V.seen v.new).words ≡ fresh_words shape.now (V.seen v.old).words) }
    ensures firm { Firm (V.kept v.old) (V.kept v.new) }
    ensures shape { HasShape shape.now (V.seen v.new) }
    ensures idle { (V.kept v.new).updating ≡ false }
    ensures sound { V.sound v.new }
{
    v.store_run(
        Block(0),
        None,
        0,
        &[VOLUME_MAGIC, 1, shape.blocks as u64, shape.inodes as u64],
    )?;
    v.store(Block(1), None, 0, reserved_marks(shape))?;
    v.store(Block(2), None, 0, 1)?;
    Ok(())
}

/// A fresh volume: the root directory alone. It stops after so many steps, of which making it takes six.
pub fn fresh(
    alloc: Global,
    shape: &VolumeShape,
    stop_after: Option<u64>,
) -> Result<ListVolume, Fail>
    requires { IsTestShape shape.now }
    ensures sound { IfOk result ListSound }
    ensures fresh { IfOk result (λ v. IsFresh shape.now (list_seen v) (list_kept v)) }
    ensures nodes { IfOk result (λ v. HasNodes shape.now (list_seen v).words 1 1) }
{
    let mut v = ListVolume::new(alloc, shape.blocks, stop_after)?;
    format(&mut v, shape)?;
    Ok(v)
}

/// Goes on with what stands, and stops after so many steps.
pub fn start_again(v: &mut ListVolume, shape: &VolumeShape, stop_after: Option<u64>)
    requires sound { ListSound v.old }
    requires stands { StandsReady shape.now (list_seen v.old) (list_kept v.old) }
    ensures sound { ListSound v.new }
    ensures ready { Ready shape.now (list_seen v.new) (list_kept v.new) }
    ensures words { (list_seen v.new).words ≡ (list_kept v.old).standing }
{
    v.restart(stop_after);
}
