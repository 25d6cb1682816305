//! A run of a region's words, copied to another place of it.

ghost use Rattle.std.specs.Prelude.{◌≡◌, ◌+◌, ◌<◌, ◌≤◌, OnOk, length};
ghost use Rattle.rio_base.specs.Blocks.{Ends};
ghost use Rattle.rio_base.specs.Frames.{Stays};
ghost use Rattle.undo_list.specs.Stages.{Apart, CopiedFront, copied};

use crate::failures::uncounted;
use rio_base::{RegionWords, VolFail};

/// The most words that one call reads or stores.
const RUN_WORDS: u32 = 512;

/// Words of a copy that goes through a smaller room, since a room is cleared each time.
const MIDDLE_WORDS: u32 = 64;

/// Words of a copy that goes through the smallest room, which is cleared at once: most records have few words.
pub(crate) const SHORT_WORDS: u32 = 8;

/// Copies a run of words from `from` on to `to` on, as many as `run` has, through `run`. A failure leaves a front of them
/// copied.
fn copy_run<R: RegionWords>(r: &mut R, from: u32, to: u32, run: &mut [u64]) -> Result<(), VolFail>
    requires ready { R.ready r.old }
    requires source { from + length run.old ≤ R.count r.old }
    requires target { to + length run.old ≤ R.count r.old }
    ensures ok { OnOk result (R.words r.new ≡ copied (R.words r.old) from to (length run.old)) }
    ensures front { CopiedFront (R.words r.old) (R.words r.new) from to (length run.old) }
    ensures len { length run.new ≡ length run.old }
    ensures stays { Stays R.keeps_rest R.ready R.count R.health R.below r.old r.new }
    ensures ends { Ends (R.health r.old) (R.health r.new) result }
{
    r.read_run(from, run)?;
    uncounted(r.set_run(to, run))
}

/// Copies at most `MIDDLE_WORDS` words. It is a function of its own, so that shorter copies clear no room for them.
#[inline(never)]
fn copy_middle<R: RegionWords>(r: &mut R, from: u32, to: u32, n: u32) -> Result<(), VolFail>
    requires ready { R.ready r.old }
    requires few { n ≤ MIDDLE_WORDS }
    requires source { from + n ≤ R.count r.old }
    requires target { to + n ≤ R.count r.old }
    ensures ok { OnOk result (R.words r.new ≡ copied (R.words r.old) from to n) }
    ensures front { CopiedFront (R.words r.old) (R.words r.new) from to n }
    ensures stays { Stays R.keeps_rest R.ready R.count R.health R.below r.old r.new }
    ensures ends { Ends (R.health r.old) (R.health r.new) result }
{
    let mut run = [0; MIDDLE_WORDS as usize];
    copy_run(r, from, to, &mut run[..n as usize])
}

/// Copies `n` words by runs, through the largest room.
#[inline(never)]
fn copy_by_runs<R: RegionWords>(r: &mut R, from: u32, to: u32, n: u32) -> Result<(), VolFail>
    requires ready { R.ready r.old }
    requires source { from + n ≤ R.count r.old }
    requires target { to + n ≤ R.count r.old }
    requires apart { Apart from to n }
    ensures ok { OnOk result (R.words r.new ≡ copied (R.words r.old) from to n) }
    ensures front { CopiedFront (R.words r.old) (R.words r.new) from to n }
    ensures stays { Stays R.keeps_rest R.ready R.count R.health R.below r.old r.new }
    ensures ends { Ends (R.health r.old) (R.health r.new) result }
{
    let mut run = [0; RUN_WORDS as usize];
    let mut done = 0;
    while done < n {
        let count = RUN_WORDS.min(n - done);
        copy_run(r, from + done, to + done, &mut run[..count as usize])?;
        done += count;
    }
    Ok(())
}

/// Copies `n` words from `from` on to `to` on, which lie apart, in rising order. A failure leaves a front of them copied.
pub(crate) fn copy_words<R: RegionWords>(
    r: &mut R,
    from: u32,
    to: u32,
    n: u32,
) -> Result<(), VolFail>
    requires ready { R.ready r.old }
    requires source { from + n ≤ R.count r.old }
    requires target { to + n ≤ R.count r.old }
    requires apart { Apart from to n }
    ensures ok { OnOk result (R.words r.new ≡ copied (R.words r.old) from to n) }
    ensures front { CopiedFront (R.words r.old) (R.words r.new) from to n }
    ensures stays { Stays R.keeps_rest R.ready R.count R.health R.below r.old r.new }
    ensures ends { Ends (R.health r.old) (R.health r.new) result }
{
    if n <= SHORT_WORDS {
        let mut run = [0; SHORT_WORDS as usize];
        return copy_run(r, from, to, &mut run[..n as usize]);
    }
    if n <= MIDDLE_WORDS {
        return copy_middle(r, from, to, n);
    }
    copy_by_runs(r, from, to, n)
}
