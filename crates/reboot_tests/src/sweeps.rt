//! Reboots that are cut off at each of their steps and at each of their calls on the disk, and made again.

use crate::pairs::Pair;
use crate::reboots::{Cut, Ended, reboot};
use block_disk::DiskChoice;
use std::alloc::{AllocError, Global};
use warm_reboot::{BootFail, BootReport};

/// What a disk may make of the blocks that were on their way.
const CHOICES: [DiskChoice; 3] = [
    DiskChoice::AsRead,
    DiskChoice::AsSynced,
    DiskChoice::Filled(165),
];

/// What the disk makes of them where three reboots are stopped.
const DEEP: DiskChoice = DiskChoice::Filled(165);

/// The most cuts that are made.
const MOST: u64 = 10_000;

/// Boots a pair to the end and answers the disk. Where a region was recovered, its words are in memory alone, and the pair is
/// booted once more.
pub(crate) fn disk_of(alloc: Global, pair: Pair) -> Result<Vec<u64>, AllocError> {
    let Ended { end, pair } = reboot(alloc, pair, Cut::Nothing, DiskChoice::AsRead)?;
    match end {
        Ok(BootReport { undone: 0, .. }) => Ok(pair.disk),
        Ok(_) => {
            let ended = reboot(alloc, pair, Cut::Nothing, DiskChoice::AsRead)?;
            Ok(ended.pair.disk)
        }
        Err(_) => Err(AllocError),
    }
}

/// What comes of a pair whose reboot is stopped, and the reboots after it as well, after so many steps each.
#[derive(Drop)]
struct Through {
    /// The first reboot was stopped.
    stopped: bool,
    /// The disk after the last, which is not.
    disk: Vec<u64>,
}

/// Boots a pair, stopped after each of these numbers of steps in turn, and then to the end.
fn boot_through(
    alloc: Global,
    pair: Pair,
    stops: &[u64],
    choice: DiskChoice,
) -> Result<Through, AllocError> {
    let mut pair = pair;
    let mut stopped = false;
    for n in 0..stops.len() {
        let ended = reboot(alloc, pair, Cut::Stop(stops[n]), choice)?;
        if n == 0 {
            stopped = ended.end == Err(BootFail::Stopped);
        }
        pair = ended.pair;
    }
    let disk = disk_of(alloc, pair)?;
    Ok(Through { stopped, disk })
}

/// The steps before the `k`th stop, from 0 on: of the first 64 stops each comes after one step more. A page that is read to memory
/// takes 512 steps, so from there on they come after 61 more each.
fn stop_after(k: u64) -> u64 {
    if k < 64 {
        return k;
    }
    k.saturating_sub(64).saturating_mul(61).saturating_add(64)
}

/// How many stops it takes until a reboot is not cut off, where each leaves a pair of which the next reboots make the same disk,
/// with each choice of the disk. Else the stop after which they do not. After every third stop the next two reboots are stopped
/// too.
pub(crate) fn stop_everywhere(
    alloc: Global,
    pair: &Pair,
    due: &[u64],
) -> Result<Result<u64, u64>, AllocError> {
    for k in 0..MOST {
        let n = stop_after(k);
        let mut stopped = true;
        for choice in CHOICES {
            let through = boot_through(alloc, pair.copy(alloc)?, &[n], choice)?;
            if through.disk.as_slice() != due {
                return Ok(Err(n));
            }
            stopped = through.stopped;
        }
        if k % 3 == 2 {
            let deep = boot_through(alloc, pair.copy(alloc)?, &[n, 3, 1], DEEP)?;
            if deep.disk.as_slice() != due {
                return Ok(Err(n));
            }
        }
        if !stopped {
            return Ok(Ok(k));
        }
    }
    Ok(Err(MOST))
}

/// How many calls on the disk a reboot makes, where each that fails leaves a pair of which the next reboot makes the same disk. Else
/// the call after which it does not.
pub(crate) fn fail_everywhere(
    alloc: Global,
    pair: &Pair,
    due: &[u64],
) -> Result<Result<u64, u64>, AllocError> {
    for n in 1..MOST {
        let ended = reboot(
            alloc,
            pair.copy(alloc)?,
            Cut::Fault(n),
            DiskChoice::Filled(165),
        )?;
        if ended.end.is_ok() {
            return Ok(Ok(n.saturating_sub(1)));
        }
        if ended.end != Err(BootFail::Fault) {
            return Ok(Err(n));
        }
        let disk = disk_of(alloc, ended.pair)?;
        if disk.as_slice() != due {
            return Ok(Err(n));
        }
    }
    Ok(Err(MOST))
}
