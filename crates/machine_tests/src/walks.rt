//! Walks over the volumes in memory: without a stop, with calls of the disk that fail, and stopped at each call.

ghost use Rattle.std.specs.Prelude.{◌≡◌, length};
ghost use Rattle.test_objects.specs.ListVolumes.{ListSound, list_seen};

use crate::draws::Draws;
use crate::plain_blocks::{PlainBlocks, all_zeros};
use crate::same::same;
use crate::walk::{WalkEnd, read_all, walk, walk_through};
use rio_base::{Block, Blocks, Volume};
use std::alloc::Global;
use std::process::Abort;
use test_objects::{BLOCKS, FaultyVolume, ListVolume, put_block};

/// What stands in a volume: what it reads as when it goes on.
fn restarted(rt: &impl Abort, alloc: Global, v: &mut ListVolume) -> Vec<u64>
    requires sound { ListSound v.old }
    requires count { (list_seen v.old).count ≡ 64 }
    ensures words { length result.items ≡ 32768 }
    ensures sound { ListSound v.new }
    ensures count { (list_seen v.new).count ≡ 64 }
{
    v.restart(None);
    let mut words = all_zeros(rt, alloc);
    for b in 0..BLOCKS {
        if let Some(page) = v.page(Block(b)) {
            put_block(&mut words, Block(b), page);
        }
    }
    words
}

/// How a walk over a list ended, the first block that stands otherwise than the plain lists say when it goes on, and what
/// reading all blocks then finds.
type Outcome = (Result<(), WalkEnd>, Option<Block>, Result<(), WalkEnd>);

/// Makes 4,000 drawn actions on a list that stops after so many calls, if it does.
fn outcome_of(rt: &impl Abort, alloc: Global, seed: u64, stop_after: Option<u64>) -> Outcome {
    let Ok(mut v) = ListVolume::new(alloc, 64, stop_after) else {
        panic!(rt; "no volume");
    };
    let mut plain = PlainBlocks::new(rt, alloc);
    let end = walk(&mut v, &mut plain, &mut Draws::new(seed, true), 4_000);
    let wrong = plain.judge(&restarted(rt, alloc, &mut v));
    (end, wrong, read_all(&mut v, &plain))
}

#[test]
fn a_list_is_walked(rt: HostRuntime) {
    let due = (Ok(()), None, Ok(()));
    for seed in 1..4 {
        let came = outcome_of(&rt, rt.alloc(), seed, None);
        same(&rt, "seeds", seed as usize, &came, &due);
    }
}

#[test]
fn a_walk_is_stopped_at_each_call(rt: HostRuntime) {
    let due = (Err(WalkEnd::Stopped), None, Ok(()));
    for steps in 0..300 {
        let came = outcome_of(&rt, rt.alloc(), 5, Some(steps));
        same(&rt, "steps", steps as usize, &came, &due);
    }
}

/// How a walk over a list ends whose `n`th call of the disk fails.
fn faulty_walk(rt: &impl Abort, alloc: Global, n: u64) -> Result<(), WalkEnd> {
    let Ok(list) = ListVolume::new(alloc, 64, None) else {
        panic!(rt; "no volume");
    };
    let mut plain = PlainBlocks::new(rt, alloc);
    let mut v = FaultyVolume::new(list, n);
    walk_through(&mut v, &mut plain, &mut Draws::new(4, true), 60, true)
}

#[test]
fn a_list_whose_disk_fails_is_walked(rt: HostRuntime) {
    for n in 1..100 {
        same(
            &rt,
            "faults",
            n as usize,
            &faulty_walk(&rt, rt.alloc(), n),
            &Ok(()),
        );
    }
}
