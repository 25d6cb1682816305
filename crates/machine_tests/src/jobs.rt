//! What is done with a fresh page cache of 32 frames over a disk of 64 blocks, and what is then found. The cache is made, used
//! and taken apart in one function, since each one that has such a cache takes long to prove.

ghost use Rattle.std.specs.Prelude.{◌≡◌, ◌<◌, false};
ghost use Rattle.machine_tests.specs.Walks.{Walks};

use crate::ahead_tests::{go_round, sevens};
use crate::cache_tests::{lent_after, update_two};
use crate::cache_walks::cache_of;
use crate::cached::word_in;
use crate::crashes::crashed;
use crate::machines::Mishap;
use crate::wild_tests::{run_armed, store_armed, struck};
use block_disk::DiskChoice;
use page_cache::PageCache;
use rio_base::{BLOCK_WORDS, Blocks, Machine, RunFail, VolFail, Volume, Wild, WordAt};
use std::alloc::Global;
use std::process::Abort;

/// What is done.
#[derive(Clone, Copy)]
pub(crate) enum Job {
    /// The blocks of the volume are counted.
    Count,
    /// The blocks 0 to 31 are read, block 0 again, and block 32.
    ReadRow,
    /// The first words of the blocks 5 and 6 become 7, by one update.
    Update,
    /// 7 is stored into the blocks 0 to 39 in turn, 128 times in all, and where it is so set a page is written ahead before each.
    GoRound(bool),
    /// A wild store of 9 falls at the place, and block 5 is read.
    Strike,
    /// 7 is stored into block 5, while a wild store of 9 at the place is armed to fall after the first step.
    StoreArmed,
    /// These words are stored into block 5, while a wild store of 9 at the place is armed to fall after three steps.
    RunArmed(&'static [u64]),
}

/// What came of it: how it ended, with the number that it told or else 0; what a wild store met; and whether the blocks 0, 1,
/// 2 and 32 were in memory after a row of reads.
pub(crate) type Came = (Result<u64, RunFail>, Option<Wild>, [bool; 4]);

/// What came of it, and what is found then.
#[derive(Clone, Copy)]
pub(crate) struct Left {
    pub(crate) came: Came,
    /// How many pages memory has.
    pub(crate) pages: u32,
    /// How many steps were made.
    pub(crate) steps: u64,
    /// How many blocks were written.
    pub(crate) writes: u64,
    /// Where a wild store trapped.
    pub(crate) trapped: Option<WordAt>,
    /// The word at the place.
    pub(crate) word: u64,
    /// The first words of the blocks 5 and 6 that stand after a crash that lost each pending block.
    pub(crate) firsts: [u64; 2],
    /// How many of the first 40 blocks then have 7 as their first word.
    pub(crate) sevens: u32,
}

/// How a call ended that stores no run, and told a number.
fn told(end: Result<u64, VolFail>) -> Result<u64, RunFail> {
    match end {
        Ok(number) => Ok(number),
        Err(VolFail::Fault) => Err(RunFail::Fault(0)),
        Err(VolFail::Stopped) => Err(RunFail::Stopped),
    }
}

/// How a call ended that stores no run, and told nothing.
fn ended(end: Result<(), VolFail>) -> Came {
    let end = match end {
        Ok(()) => told(Ok(0)),
        Err(fail) => told(Err(fail)),
    };
    (end, None, [false; 4])
}

/// How a run of stores ended.
fn run_ended(end: Result<(), RunFail>) -> Came {
    let end = match end {
        Ok(()) => Ok(0),
        Err(fail) => Err(fail),
    };
    (end, None, [false; 4])
}

/// What came of a row of reads.
fn row_ended(end: Result<(), VolFail>, lent: [bool; 4]) -> Came {
    let (end, _, _) = ended(end);
    (end, None, lent)
}

/// Does it.
fn make<M: Machine>(v: &mut PageCache<M>, job: Job, at: WordAt) -> Came
    requires sound { ⟦<PageCache<M> as Blocks>⟧.sound v.old }
    requires walks { Walks (⟦<PageCache<M> as Blocks>⟧.seen v.old) }
    requires idle { (⟦<PageCache<M> as Volume>⟧.kept v.old).updating ≡ false }
    requires running { (⟦<PageCache<M> as Blocks>⟧.health v.old).stopped ≡ false }
    requires place { at.0 < 26112 }
    ensures sound { ⟦<PageCache<M> as Blocks>⟧.sound v.new }
{
    match job {
        Job::Count => (Ok(u64::from(v.volume_blocks())), None, [false; 4]),
        Job::ReadRow => {
            let (end, lent) = lent_after(v);
            row_ended(end, lent)
        }
        Job::Update => ended(update_two(v)),
        Job::GoRound(ahead) => ended(go_round(v, ahead)),
        Job::Strike => {
            let (met, read) = struck(v, at);
            (told(read), Some(met), [false; 4])
        }
        Job::StoreArmed => ended(store_armed(v, at)),
        Job::RunArmed(words) => {
            if BLOCK_WORDS < words.len() {
                return run_ended(Err(RunFail::Fault(u32::MAX)));
            }
            run_ended(run_armed(v, at, words))
        }
    }
}

/// Does it on a fresh cache, which this befalls, with a place for wild stores, and tells what is found.
pub(crate) fn used(rt: &impl Abort, alloc: Global, mishap: Mishap, job: Job, at: WordAt) -> Left {
    if 26_112 <= at.0 {
        panic!(rt; "no such word");
    }
    let mut v = cache_of(rt, alloc, 32, mishap);
    let came = make(&mut v, job, at);
    let machine = v.into_machine();
    let (pages, steps, trapped) = (machine.pages(), machine.steps(), machine.trapped());
    let (mem, disk) = machine.into_parts();
    let (writes, word) = (disk.writes(), word_in(&mem, at.0));
    let found = crashed(rt, alloc, &mem.into_words(), disk, DiskChoice::AsSynced);
    Left {
        came,
        pages,
        steps,
        writes,
        trapped,
        word,
        firsts: [found[BLOCK_WORDS * 5], found[BLOCK_WORDS * 6]],
        sevens: sevens(&found),
    }
}
