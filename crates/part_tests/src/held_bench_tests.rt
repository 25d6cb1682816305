//! A bench whose machine's memory is held in a file: the machine is made and taken back.

ghost use Rattle.std.specs.Prelude.{◌≡◌, ℕ, false, IfOk};
ghost use Rattle.rio_base.specs.Disks.{is_pending};

use crate::held_changes::WORDS;
use crate::held_rig::{bytes_of, drawn_words, host_of, image};
use crate::same::same;
use block_disk::HostDisk;
use held_memory::{HeldBench, HostFile, KeptFile};
use machine_bench::Bench;
use rio_base::DiskBlocks;
use std::alloc::{AllocError, Global};
use std::test::Fail;
use test_objects::MemHost;

/// What is found of the file after the machine was taken back.
#[derive(Clone, Copy, Debug, PartialEq, Eq)]
struct Found {
    holds: bool,
    failures: u64,
    /// It has the bytes of the machine's words.
    same: bool,
}

/// How many bytes the file has; which call on it fails, or 0; and what is found.
static ROWS: [(usize, u64, Found); 4] = [
    (
        8_192,
        0,
        Found {
            holds: true,
            failures: 0,
            same: true,
        },
    ),
    (
        8_192,
        1,
        Found {
            holds: false,
            failures: 1,
            same: false,
        },
    ),
    (
        8_192,
        3,
        Found {
            holds: false,
            failures: 1,
            same: false,
        },
    ),
    (
        4_096,
        0,
        Found {
            holds: false,
            failures: 0,
            same: false,
        },
    ),
];

/// A file of a host in memory.
type MemFile = HostFile<MemHost>;

/// A disk of four blocks.
fn disk(alloc: Global) -> Result<HostDisk<MemHost>, AllocError>
    ensures { IfOk result (λ d. (b : ℕ) → is_pending (⟦<HostDisk<MemHost> as DiskBlocks>⟧.contents d).pending b ≡ false) }
{
    let zeros = vec![in alloc; 0u8; 16_384]?;
    let host = host_of(alloc, Some(&zeros), 0)?;
    match HostDisk::new(alloc, host, image(alloc)?) {
        Ok(disk) => Ok(disk),
        Err(_) => Err(AllocError),
    }
}

/// What a bench keeps of the file after its machine was made of these words and taken back.
fn kept(
    alloc: Global,
    words: &Vec<u64>,
    file: MemFile,
) -> Result<Option<KeptFile<MemFile>>, AllocError> {
    if words.len() != WORDS as usize {
        return Err(AllocError);
    }
    let mut bench = HeldBench::new(Some(file));
    match bench.make(alloc, words, disk(alloc)?, 1, None) {
        Ok(machine) => {
            bench.part(machine);
            Ok(bench.into_kept())
        }
        Err((_, error)) => Err(error),
    }
}

/// What is found with a file of so many 7s and a host whose call of this number fails.
fn find(alloc: Global, size: usize, failing: u64) -> Result<Option<Found>, AllocError> {
    let mut x = 3;
    let words = drawn_words(alloc, &mut x)?;
    let sevens = vec![in alloc; 7u8; size]?;
    let host = host_of(alloc, Some(&sevens), failing)?;
    let file = HostFile::new(alloc, host, image(alloc)?)?;
    let Some(kept) = kept(alloc, &words, file)? else {
        return Ok(None);
    };
    let (holds, failures) = (kept.holds, kept.failures);
    let host = kept.file.into_host();
    let due = bytes_of(alloc, &words)?;
    let same = host.file(&image(alloc)?).is_some_and(|bytes| *bytes == due);
    Ok(Some(Found {
        holds,
        failures,
        same,
    }))
}

#[test]
fn bench_keeps_the_file(rt: HostRuntime) -> Result<(), Fail> {
    for (row, (size, failing, due)) in ROWS.iter().enumerate() {
        let came = find(rt.alloc(), *size, *failing)?;
        same(&rt, "kept", row, &came, &Some(*due));
    }
    Ok(())
}
