//! Marks of numbers that count from 0: a bit for each, 64 to a word.

ghost use Rattle.std.specs.Prelude.{◌≡◌, ◌+◌, ◌*◌, ◌<◌, ◌≤◌, length};
ghost use Rattle.undo_list.specs.Bits.{IsUnmarkedFrom, MarksRun, mark_of};

use crate::bits::{ones_from, with_bits};

/// Marks the numbers from `from` up to before `to`, by one store for each word.
pub(crate) fn mark(marks: &mut [u64], from: u32, to: u32)
    requires order { from ≤ to }
    requires within { to ≤ 64 * length marks.old }
    ensures { MarksRun marks.old marks.new from to }
{
    let mut next = from;
    while next < to {
        let bit = next % 64;
        let run = (64 - bit).min(to - next);
        let at = (next / 64) as usize;
        marks[at] = with_bits(marks[at], bit, bit + run, true);
        next += run;
    }
}

/// The first number from `from` on that is not marked, or `to` where each one before that is. It goes from word to word.
pub(crate) fn unmarked_from(marks: &[u64], from: u32, to: u32) -> u32
    requires order { from ≤ to }
    requires within { to ≤ 64 * length marks.now }
    ensures { IsUnmarkedFrom marks.now from to result }
{
    let mut next = from;
    while next < to {
        let bit = next % 64;
        let run = ones_from(marks[(next / 64) as usize], bit).min(to - next);
        next += run;
        if bit + run < 64 {
            return next;
        }
    }
    to
}
