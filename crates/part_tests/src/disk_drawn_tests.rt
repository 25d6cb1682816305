//! Drawn calls of a disk that is a file, of whose host's calls each fails in turn, beside a plain list of what each block
//! has.

use crate::disk_rig::{Call, Said, file_words, host_of, make, open};
use crate::same::same;
use block_disk::HostDisk;
use rio_base::Host;
use std::alloc::{AllocError, Global};
use std::process::Abort;
use std::test::Fail;
use test_objects::MemHost;

/// How many calls are drawn.
const CALLS: usize = 14;

/// The least call of the host that a session never makes: two for opening, and for each call of the disk a write or a sync,
/// and one more where a block is written again.
const PAST: u64 = 18;

/// What each of the four blocks has, and whether it is pending.
#[derive(Clone, Copy)]
struct Plain {
    words: [u64; 4],
    pending: [bool; 4],
}

/// The next number of a generator, below 32,768.
fn draw(x: &mut u64) -> u64 {
    *x = (1_103_515_245 * (*x % 2_147_483_648) + 12_345) % 2_147_483_648;
    *x / 65_536
}

/// A drawn call: mostly a write, some reads and syncs.
fn drawn(x: &mut u64) -> Call {
    let b = (draw(x) % 4) as u32;
    let word = draw(x);
    match draw(x) % 8 {
        0 => Call::Sync,
        1 | 2 => Call::Read(b),
        _ => Call::Write(b, word),
    }
}

/// What a call that got this answer makes of the blocks, and whether it may have got it.
fn follow(plain: &mut Plain, call: Call, said: &Said) -> bool {
    match call {
        Call::Write(b, word) => {
            plain.words[b as usize % 4] = word;
            plain.pending[b as usize % 4] = true;
            *said != Said::Outside
        }
        Call::Read(b) => {
            let word = plain.words[b as usize % 4];
            *said == Said::Words([word, word])
        }
        Call::Sync => {
            if *said == Said::Done {
                plain.pending = [false; 4];
            }
            true
        }
    }
}

/// Makes the first calls that are drawn, of a disk over a host whose nth call fails. Answers what the blocks have to have, or
/// `None` where a call got an answer that it cannot get.
fn make_drawn(
    alloc: Global,
    disk: &mut HostDisk<MemHost>,
    calls: usize,
) -> Result<Option<Plain>, AllocError> {
    let mut plain = Plain {
        words: [0; 4],
        pending: [false; 4],
    };
    let mut x = 7;
    for _ in 0..calls {
        let call = drawn(&mut x);
        let said = make(alloc, disk, call)?;
        if !follow(&mut plain, call, &said) {
            return Ok(None);
        }
    }
    Ok(Some(plain))
}

/// Whether each block of a file that isn't pending has what it has to have.
fn agrees(plain: &Plain, words: &[Option<u64>; 4]) -> bool {
    for b in 0..4 {
        if !plain.pending[b] && words[b] != Some(plain.words[b]) {
            return false;
        }
    }
    true
}

/// A session of so many calls, of whose host's calls the nth fails, and what its file has to have.
fn run(rt: &impl Abort, alloc: Global, failing: u64, calls: usize) -> Result<(), AllocError> {
    let zeros = vec![in alloc; 0u8; 16_384]?;
    let host = host_of(alloc, Some(&zeros), &[failing])?;
    let (host, plain) = match open(alloc, host)? {
        Ok(mut disk) => {
            let plain = make_drawn(alloc, &mut disk, calls)?;
            (disk.into_host(), plain)
        }
        Err((host, _)) => {
            let none = Plain {
                words: [0; 4],
                pending: [false; 4],
            };
            (host, Some(none))
        }
    };
    let (words, beside) = file_words(&host, alloc)?;
    let agreed = match plain {
        Some(plain) => agrees(&plain, &words),
        None => false,
    };
    let came = (agreed, beside, host.faults() <= 1);
    same(
        rt,
        "failing call",
        failing as usize,
        &came,
        &(true, true, true),
    );
    Ok(())
}

#[test]
fn file_has_each_block_that_is_not_pending(rt: HostRuntime) -> Result<(), Fail> {
    for failing in 0..PAST {
        for calls in 0..CALLS + 1 {
            run(&rt, rt.alloc(), failing, calls)?;
        }
    }
    Ok(())
}
