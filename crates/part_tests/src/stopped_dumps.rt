//! Dumps that meet a stop or a fault at each of their steps and calls, and what the disk holds after a crash.

use crate::dump_rig::{Came, Held, Images, Meets, both_images, run};
use crate::same::same;
use block_disk::DiskChoice;
use std::alloc::{AllocError, Global};
use std::process::Abort;
use std::test::Fail;

/// Whether the disk holds the first image, what the dump meets first and last, what it answers, and what the disk holds after a
/// crash by each of the choices.
type Row = (bool, Meets, Meets, Came, (Held, Held, Held));

static ROWS: [Row; 18] = [
    // Block 0 is being shut.
    (
        true,
        Meets::Stop(0),
        Meets::Stop(0),
        Came::Stopped,
        (Held::First, Held::First, Held::Nothing),
    ),
    (
        true,
        Meets::Stop(1),
        Meets::Stop(1),
        Came::Stopped,
        (Held::Nothing, Held::First, Held::Nothing),
    ),
    // It is shut: the 51 pages are written and synced, and block 0 is written once more.
    (
        true,
        Meets::Stop(2),
        Meets::Stop(54),
        Came::Stopped,
        (Held::Nothing, Held::Nothing, Held::Nothing),
    ),
    (
        true,
        Meets::Stop(55),
        Meets::Stop(55),
        Came::Stopped,
        (Held::Second, Held::Nothing, Held::Nothing),
    ),
    // There are 56 steps in all.
    (
        true,
        Meets::Stop(56),
        Meets::Stop(57),
        Came::Done,
        (Held::Second, Held::Second, Held::Second),
    ),
    // Where block 0 is shut before, 54.
    (
        false,
        Meets::Stop(0),
        Meets::Stop(52),
        Came::Stopped,
        (Held::Nothing, Held::Nothing, Held::Nothing),
    ),
    (
        false,
        Meets::Stop(53),
        Meets::Stop(53),
        Came::Stopped,
        (Held::Second, Held::Nothing, Held::Nothing),
    ),
    (
        false,
        Meets::Stop(54),
        Meets::Stop(55),
        Came::Done,
        (Held::Second, Held::Second, Held::Second),
    ),
    // Block 0 can't be read, written with zeros, or synced. The front half of a block that fails is new.
    (
        true,
        Meets::Fault(0),
        Meets::Fault(0),
        Came::Fault,
        (Held::First, Held::First, Held::First),
    ),
    (
        true,
        Meets::Fault(1),
        Meets::Fault(2),
        Came::Fault,
        (Held::Nothing, Held::First, Held::Nothing),
    ),
    // A page can't be written, or the pages not be synced.
    (
        true,
        Meets::Fault(3),
        Meets::Fault(54),
        Came::Fault,
        (Held::Nothing, Held::Nothing, Held::Nothing),
    ),
    // Block 0 can't be opened.
    (
        true,
        Meets::Fault(55),
        Meets::Fault(56),
        Came::Fault,
        (Held::Second, Held::Nothing, Held::Nothing),
    ),
    (
        true,
        Meets::Fault(57),
        Meets::Fault(58),
        Came::Done,
        (Held::Second, Held::Second, Held::Second),
    ),
    (
        false,
        Meets::Fault(0),
        Meets::Fault(52),
        Came::Fault,
        (Held::Nothing, Held::Nothing, Held::Nothing),
    ),
    (
        false,
        Meets::Fault(53),
        Meets::Fault(54),
        Came::Fault,
        (Held::Second, Held::Nothing, Held::Nothing),
    ),
    (
        false,
        Meets::Fault(55),
        Meets::Fault(56),
        Came::Done,
        (Held::Second, Held::Second, Held::Second),
    ),
    // A call that comes later doesn't fail in the dump.
    (
        true,
        Meets::Fault(1000),
        Meets::Fault(1000),
        Came::Done,
        (Held::Second, Held::Second, Held::Second),
    ),
    (
        false,
        Meets::Stop(u64::MAX),
        Meets::Stop(u64::MAX),
        Came::Done,
        (Held::Second, Held::Second, Held::Second),
    ),
];

/// The numbers of what is met first and last.
fn span(from: Meets, to: Meets) -> (u64, u64) {
    match (from, to) {
        (Meets::Stop(from), Meets::Stop(to)) => (from, to),
        (Meets::Fault(from), Meets::Fault(to)) => (from, to),
        _ => (0, 0),
    }
}

/// A stop or a fault, as this one is, at another number.
fn at(meets: Meets, n: u64) -> Meets {
    match meets {
        Meets::Stop(_) => Meets::Stop(n),
        Meets::Fault(_) => Meets::Fault(n),
    }
}

/// What comes of a dump, by each choice.
fn came_of(
    alloc: Global,
    images: &Images,
    open: bool,
    meets: Meets,
) -> Result<[(Came, Held); 3], AllocError> {
    let read = run(alloc, images, open, meets, DiskChoice::AsRead)?;
    let synced = run(alloc, images, open, meets, DiskChoice::AsSynced)?;
    let filled = run(alloc, images, open, meets, DiskChoice::Filled(0xa5))?;
    Ok([read, synced, filled])
}

#[test]
fn holds_the_first_image_the_second_or_none(rt: HostRuntime) -> Result<(), Fail> {
    let alloc = rt.alloc();
    let images = both_images(alloc)?;
    for (row, (open, from, to, came, held)) in ROWS.iter().enumerate() {
        let (first, last) = span(*from, *to);
        let due = [(*came, held.0), (*came, held.1), (*came, held.2)];
        for n in first..=last {
            let came = came_of(alloc, &images, *open, at(*from, n))?;
            same(&rt, "dumps", row, &came, &due);
        }
    }
    Ok(())
}
