//! Drawn damages of a volume, each looked at by `volume_check` and by the plain check.

use crate::damages::{Draws, damaged, place};
use crate::same::same;
use crate::steps::{Step, plainly_told, told};
use crate::volumes::{Put, TestVolume};
use crate::words::word;
use rio_base::VolFail;
use std::alloc::Global;
use std::process::Abort;
use std::test::Fail;

/// Changes a word that is drawn. The answer stores what it was.
fn damage(v: &mut TestVolume, draws: &mut Draws) -> Result<Put, VolFail> {
    let (b, w) = place(draws);
    let old = word(v.words(), u64::from(b), u64::from(w));
    let later = word(v.words(), u64::from(b), u64::from(w) + 8);
    let new = damaged(draws, old, later);
    v.put(Put(b, w, new))
}

/// Changes one to three words. The answer stores what they were.
fn damage_some(alloc: Global, v: &mut TestVolume, draws: &mut Draws) -> Result<Vec<Put>, Fail> {
    let mut old = Vec::new(alloc);
    for _ in 0..1 + draws.next() % 3 {
        old.push(damage(v, draws)?)?;
    }
    Ok(old)
}

/// Damages so many volumes, and looks at each of them in both ways. Each rule has to fail somewhere.
fn look_at_damages(rt: &impl Abort, alloc: Global, seed: u32, count: usize) -> Result<(), Fail> {
    let mut draws = Draws(seed);
    let mut v = TestVolume::new(alloc)?;
    let mut broken = [false; 12];
    for row in 0..count {
        let old = damage_some(alloc, &mut v, &mut draws)?;
        let due = plainly_told(alloc, &v)?;
        same(rt, "damages", row, &told(alloc, &mut v), &due);
        note(&mut broken, due);
        v.put_back(&old)?;
    }
    same(rt, "rules that failed", 0, &broken, &[true; 12]);
    Ok(())
}

/// Notes which rule is told, 0 where none fails.
fn note(broken: &mut [bool; 12], step: Step) {
    let rule = match step {
        Step::Fails(rule, _) => rule,
        _ => 0,
    };
    if let Some(known) = broken.get_mut(rule as usize) {
        *known = true;
    }
}

#[test]
fn damages_of_seed_7(rt: HostRuntime) -> Result<(), Fail> {
    look_at_damages(&rt, rt.alloc(), 7, 1500)
}

#[test]
fn damages_of_seed_11(rt: HostRuntime) -> Result<(), Fail> {
    look_at_damages(&rt, rt.alloc(), 11, 1500)
}
