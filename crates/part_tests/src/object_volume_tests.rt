//! Tests of the volumes and the region in memory: an update of two blocks and a run of words, stopped at each step.

ghost use Rattle.std.specs.Prelude.{◌≡◌, ◌<◌, false, None, OnOk};
ghost use Rattle.rio_base.specs.Blocks.{CanName};
ghost use Rattle.rio_base.specs.Volume.{put, OldOrNew, Goes};
ghost use Rattle.test_objects.specs.ListVolumes.{ListSound, list_kept, list_seen};

use crate::same::same;
use rio_base::{Block, Blocks, RegionWords, RunFail, VolFail, Volume};
use std::test::Fail;
use test_objects::{FaultyVolume, ListRegion, ListVolume};

/// Stores a word at the front of each of two blocks, by one update.
#[tactic(auto, using(rio_base::proofs::BlockRules::still_metadata, rio_base::proofs::BlockRules::dropped_metadata))]
fn update<V: Volume>(v: &mut V, a: Block, b: Block, value: u64) -> Result<(), VolFail>
    requires sound { V.sound v.old }
    requires blocks { (a.0 < (V.seen v.old).count) × (b.0 < (V.seen v.old).count) }
    requires first { CanName (V.seen v.old) a.0 None }
    requires second { CanName (V.seen v.old) b.0 None }
    requires idle { (V.kept v.old).updating ≡ false }
    ensures ok { OnOk result ((V.seen v.new).words ≡ put (put (V.seen v.old).words a.0 0 value) b.0 0 value) }
    ensures whole { OldOrNew (V.kept v.old).standing (put (put (V.seen v.old).words a.0 0 value) b.0 0 value) (V.kept v.new).standing }
    ensures count { (V.seen v.new).count ≡ (V.seen v.old).count }
    ensures goes { Goes (V.health v.old) (V.below v.old) (V.health v.new) (V.below v.new) }
    ensures sound { V.sound v.new }
{
    v.begin()?;
    v.touch(a)?;
    v.touch(b)?;
    v.edit(a, 0, value)?;
    v.edit(b, 0, value)?;
    v.commit()?;
    Ok(())
}

#[test]
fn update_is_whole_or_absent(rt: HostRuntime) -> Result<(), Fail> {
    for steps in 0..8 {
        let mut v = ListVolume::new(rt.alloc(), 8, Some(steps as u64))?;
        let done = update(&mut v, Block(5), Block(6), 7).is_ok();
        let stands = [v.standing(Block(5), 0), v.standing(Block(6), 0)];
        let due = if steps < 6 {
            (false, [0, 0])
        } else {
            (true, [7, 7])
        };
        same(
            &rt,
            "an update after so many steps",
            steps,
            &(done, stands),
            &due,
        );
    }
    Ok(())
}

/// Whether a run of three words is stored after so many steps, and what stands of it.
static RUNS: [(bool, [u64; 3]); 5] = [
    (false, [0, 0, 0]),
    (false, [3, 0, 0]),
    (false, [3, 5, 0]),
    (true, [3, 5, 8]),
    (true, [3, 5, 8]),
];

#[test]
fn runs_are_stored_up_to_the_stop(rt: HostRuntime) -> Result<(), Fail> {
    for steps in 0..RUNS.len() {
        let mut v = ListVolume::new(rt.alloc(), 8, Some(steps as u64))?;
        let done = v.store_run(Block(5), None, 509, &[3, 5, 8]).is_ok();
        v.restart(None);
        let mut words = [9; 3];
        v.read_run(Block(5), None, 509, &mut words)?;
        same(
            &rt,
            "a run after so many steps",
            steps,
            &(done, words),
            &RUNS[steps],
        );
    }
    Ok(())
}

/// How a run of three words ends where the call of this number fails, and what is stored of it. With 0 none fails.
static FAULTS: [(Result<(), RunFail>, [u64; 3]); 4] = [
    (Ok(()), [3, 5, 8]),
    (Err(RunFail::Fault(0)), [0, 0, 0]),
    (Err(RunFail::Fault(1)), [3, 0, 0]),
    (Err(RunFail::Fault(2)), [3, 5, 0]),
];

#[test]
fn a_run_is_stored_up_to_the_fault(rt: HostRuntime) -> Result<(), Fail> {
    for call in 0..FAULTS.len() {
        let mut v = FaultyVolume::new(ListVolume::new(rt.alloc(), 8, None)?, call as u64);
        let ended = v.store_run(Block(5), None, 509, &[3, 5, 8]);
        let mut words = [9; 3];
        v.read_run(Block(5), None, 509, &mut words)?;
        same(
            &rt,
            "a run whose call of this number fails",
            call,
            &(ended, words),
            &FAULTS[call],
        );
    }
    Ok(())
}

/// Makes each call of a volume of four blocks that runs, and a store once it stops. Answers how many blocks it has, what word 511 of
/// block 3 is within an update, behind its rollback and in a fresh block, and between these two how many blocks are written; whether
/// a page is lent; and what the store answers.
fn answers(v: &mut ListVolume) -> Result<([u64; 5], bool, Result<(), VolFail>), VolFail>
    requires sound { ListSound v.old }
    requires count { (list_seen v.old).count ≡ 4 }
    requires idle { (list_kept v.old).updating ≡ false }
{
    let blocks = u64::from(v.volume_blocks());
    v.store(Block(3), None, 511, 9)?;
    v.begin()?;
    v.touch(Block(3))?;
    v.edit(Block(3), 511, 10)?;
    let edited = v.word(Block(3), None, 511)?;
    v.rollback()?;
    let back = v.word(Block(3), None, 511)?;
    let flushed = u64::from(v.flush(5)?);
    v.fresh(Block(3), None)?;
    let fresh = v.word(Block(3), None, 511)?;
    let lent = v.page(Block(3)).is_some();
    v.forget(Block(3))?;
    v.restart(Some(0));
    let stopped = v.store(Block(1), None, 0, 1);
    Ok(([blocks, edited, back, flushed, fresh], lent, stopped))
}

#[test]
fn calls_of_a_running_volume_succeed(rt: HostRuntime) -> Result<(), Fail> {
    let mut v = ListVolume::new(rt.alloc(), 4, None)?;
    let (came, lent, stopped) = answers(&mut v)?;
    same(&rt, "what calls answer", 0, &came, &[4, 10, 9, 0, 0]);
    same(
        &rt,
        "lent, and stopped",
        1,
        &(lent, stopped),
        &(true, Err(VolFail::Stopped)),
    );
    Ok(())
}

#[test]
fn a_region_is_stored_until_it_stops(rt: HostRuntime) -> Result<(), Fail> {
    let mut region = ListRegion::new(rt.alloc(), 3, Some(2))?;
    let count = region.len();
    region.set(2, 5)?;
    let set = region.word(2)?;
    region.set_run(0, &[7])?;
    let mut words = [9; 3];
    region.read_run(0, &mut words)?;
    let stopped = region.set_run(0, &[8]);
    let came = (count, set, words, stopped);
    same(
        &rt,
        "a region",
        0,
        &came,
        &(3, 5, [7, 0, 5], Err(RunFail::Stopped)),
    );
    Ok(())
}
