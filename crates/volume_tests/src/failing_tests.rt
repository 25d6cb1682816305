//! Looks at a volume of which a word cannot be read.

use crate::failing_blocks::{Failing, FailingBlocks};
use crate::same::same;
use crate::volumes::{BLOCKS, COUNTS, TestVolume, counts_of};
use rio_model::Census;
use std::alloc::Global;
use std::process::Abort;
use std::test::Fail;
use volume_check::{CheckFail, check_volume};

/// What looking at blocks answers: the counts of what there is, or why there are none.
type Answer = Result<[u32; 5], CheckFail>;

fn answer_of(looked: Result<Census, CheckFail>) -> Answer {
    match looked {
        Ok(census) => Ok(counts_of(&census)),
        Err(fail) => Err(fail),
    }
}

/// Looks twice at blocks whose `n`th word fails. The answers are those of both looks, and whether the word was asked for.
fn look_twice(alloc: Global, blocks: &mut FailingBlocks, n: u64) -> ([Answer; 2], bool) {
    blocks.fail_at(n);
    let first = answer_of(check_volume(alloc, blocks));
    let failed = blocks.has_failed();
    let second = answer_of(check_volume(alloc, blocks));
    ([first, second], failed)
}

/// Looks at the volume with each word failing in turn. After a fault it is looked at once more, and then there is what there
/// was.
fn fail_at_each(
    rt: &impl Abort,
    alloc: Global,
    failing: Failing,
    due: [Answer; 2],
) -> Result<(), Fail> {
    let words = TestVolume::new(alloc)?.copied()?;
    let mut blocks = FailingBlocks::new(BLOCKS, words, failing);
    for n in 0..WORDS_READ {
        let (answers, failed) = look_twice(alloc, &mut blocks, 1 + n);
        same(rt, "asked for", n as usize, &failed, &true);
        same(rt, "failure at word", n as usize, &answers, &due);
    }
    let (answers, failed) = look_twice(alloc, &mut blocks, 1 + WORDS_READ);
    same(rt, "words", 0, &failed, &false);
    same(rt, "the next word", 0, &answers, &[Ok(COUNTS), due[0]]);
    Ok(())
}

/// The words that are asked for: 4 of the superblock, the bitmap and two blocks of inodes; the table of `g` by two rules; two
/// pages of entries by four; and of the region its header, and that with its two pages behind it.
const WORDS_READ: u64 = 4 + 512 * (3 + 2 + 8 + 4);

#[test]
fn each_word_may_be_at_fault(rt: HostRuntime) -> Result<(), Fail> {
    fail_at_each(
        &rt,
        rt.alloc(),
        Failing::Fault,
        [Err(CheckFail::Fault), Ok(COUNTS)],
    )
}

#[test]
fn each_word_may_be_the_last(rt: HostRuntime) -> Result<(), Fail> {
    fail_at_each(&rt, rt.alloc(), Failing::Stop, [Err(CheckFail::Stopped); 2])
}

#[test]
fn nodes_and_blocks_are_counted(rt: HostRuntime) -> Result<(), Fail> {
    let mut v = TestVolume::new(rt.alloc())?;
    let answer = answer_of(v.look(rt.alloc()));
    same(&rt, "counts", 0, &answer, &Ok(COUNTS));
    Ok(())
}
