//! Calls of a disk that is a file, whose host fails, and what the file has after them.

use crate::disk_rig::{Call, Said, file_words, host_of, make, open};
use crate::same::same;
use block_disk::HostDisk;
use rio_base::Host;
use std::alloc::{AllocError, Global};
use std::test::Fail;
use test_objects::MemHost;

/// What is done to the disk at hand.
#[derive(Clone, Copy)]
enum Step {
    /// It becomes a new one, of whose host's calls these two fail, or none where the number is 0. Opening makes calls 1 and 2,
    /// and each of its four blocks has 0s.
    New([u64; 2]),
    Make(Call),
    /// It is given up.
    Close,
}

/// What comes of it.
#[derive(Debug, Drop, PartialEq)]
enum Came {
    Opened,
    Answer(Said),
    /// The word of each of the file's four blocks, and how many calls of the host failed.
    Left((Option<u64>, Option<u64>, Option<u64>, Option<u64>), u64),
    /// The file beside is not what it was.
    BesideChanged,
    NoDisk,
}

/// A step, and what comes of it.
type Row = (Step, Came);

static ROWS: [Row; 41] = [
    // What is written is in the file before a sync.
    (Step::New([0, 0]), Came::Opened),
    (Step::Make(Call::Write(2, 5)), Came::Answer(Said::Done)),
    (Step::Make(Call::Read(2)), Came::Answer(Said::Words([5, 5]))),
    (Step::Make(Call::Read(1)), Came::Answer(Said::Words([0, 0]))),
    (
        Step::Close,
        Came::Left((Some(0), Some(0), Some(5), Some(0)), 0),
    ),
    // A block whose write failed reads as new, and the file has it after the next sync.
    (Step::New([4, 0]), Came::Opened),
    (Step::Make(Call::Write(0, 1)), Came::Answer(Said::Done)),
    (Step::Make(Call::Write(1, 2)), Came::Answer(Said::Failed)),
    (Step::Make(Call::Read(1)), Came::Answer(Said::Words([2, 2]))),
    (Step::Make(Call::Sync), Came::Answer(Said::Done)),
    (
        Step::Close,
        Came::Left((Some(1), Some(2), Some(0), Some(0)), 1),
    ),
    // Before that sync it has the old bytes.
    (Step::New([3, 0]), Came::Opened),
    (Step::Make(Call::Write(3, 9)), Came::Answer(Said::Failed)),
    (
        Step::Close,
        Came::Left((Some(0), Some(0), Some(0), Some(0)), 1),
    ),
    // A sync whose second write fails as well answers Failed, and the next one writes again.
    (Step::New([3, 4]), Came::Opened),
    (Step::Make(Call::Write(0, 1)), Came::Answer(Said::Failed)),
    (Step::Make(Call::Sync), Came::Answer(Said::Failed)),
    (Step::Make(Call::Sync), Came::Answer(Said::Done)),
    (
        Step::Close,
        Came::Left((Some(1), Some(0), Some(0), Some(0)), 2),
    ),
    (Step::New([3, 4]), Came::Opened),
    (Step::Make(Call::Write(0, 1)), Came::Answer(Said::Failed)),
    (Step::Make(Call::Sync), Came::Answer(Said::Failed)),
    (
        Step::Close,
        Came::Left((Some(0), Some(0), Some(0), Some(0)), 2),
    ),
    // A sync writes again only what failed: here calls 5 and 6 are its write and its sync, and call 7 is the next write.
    (Step::New([4, 7]), Came::Opened),
    (Step::Make(Call::Write(0, 1)), Came::Answer(Said::Done)),
    (Step::Make(Call::Write(1, 2)), Came::Answer(Said::Failed)),
    (Step::Make(Call::Sync), Came::Answer(Said::Done)),
    (Step::Make(Call::Write(2, 3)), Came::Answer(Said::Failed)),
    (
        Step::Close,
        Came::Left((Some(1), Some(2), Some(0), Some(0)), 2),
    ),
    // After it nothing is left to be written again: calls 4 and 5 are the sync's, and call 6 is the second sync.
    (Step::New([3, 6]), Came::Opened),
    (Step::Make(Call::Write(1, 2)), Came::Answer(Said::Failed)),
    (Step::Make(Call::Sync), Came::Answer(Said::Done)),
    (Step::Make(Call::Sync), Came::Answer(Said::Failed)),
    (
        Step::Close,
        Came::Left((Some(0), Some(2), Some(0), Some(0)), 2),
    ),
    // A block that failed and was then written has the newer words.
    (Step::New([3, 0]), Came::Opened),
    (Step::Make(Call::Write(1, 2)), Came::Answer(Said::Failed)),
    (Step::Make(Call::Write(1, 4)), Came::Answer(Said::Done)),
    (Step::Make(Call::Write(4, 1)), Came::Answer(Said::Outside)),
    (Step::Make(Call::Sync), Came::Answer(Said::Done)),
    (Step::Make(Call::Read(1)), Came::Answer(Said::Words([4, 4]))),
    (
        Step::Close,
        Came::Left((Some(0), Some(4), Some(0), Some(0)), 1),
    ),
];

/// A new disk of blocks of 0s, over a host whose calls of these numbers fail.
fn opened(alloc: Global, failing: &[u64]) -> Result<Option<HostDisk<MemHost>>, AllocError> {
    let zeros = vec![in alloc; 0u8; 16_384]?;
    let host = host_of(alloc, Some(&zeros), failing)?;
    Ok(open(alloc, host)?.ok())
}

/// What a disk that is given up leaves.
fn left(alloc: Global, disk: HostDisk<MemHost>) -> Result<Came, AllocError> {
    let host = disk.into_host();
    let (words, beside) = file_words(&host, alloc)?;
    if !beside {
        return Ok(Came::BesideChanged);
    }
    let words = (words[0], words[1], words[2], words[3]);
    Ok(Came::Left(words, host.faults()))
}

/// Does a step to the disk at hand.
fn take(
    alloc: Global,
    disk: &mut Option<HostDisk<MemHost>>,
    step: Step,
) -> Result<Came, AllocError> {
    match step {
        Step::New(failing) => {
            *disk = opened(alloc, &failing)?;
            Ok(if disk.is_some() {
                Came::Opened
            } else {
                Came::NoDisk
            })
        }
        Step::Make(call) => match disk {
            Some(disk) => Ok(Came::Answer(make(alloc, disk, call)?)),
            None => Ok(Came::NoDisk),
        },
        Step::Close => match disk.take() {
            Some(disk) => left(alloc, disk),
            None => Ok(Came::NoDisk),
        },
    }
}

#[test]
fn file_has_what_was_written(rt: HostRuntime) -> Result<(), Fail> {
    let mut disk = None;
    for (row, (step, due)) in ROWS.iter().enumerate() {
        let came = take(rt.alloc(), &mut disk, *step)?;
        same(&rt, "calls", row, &came, due);
    }
    Ok(())
}
