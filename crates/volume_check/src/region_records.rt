//! The undo records of a region, as they lie in its undo pages, and the words of its heap map with these put back.

ghost use Rattle.std.specs.Prelude.{◌≡◌, ◌↔◌, ℕ, ◌+◌, ◌-◌, ◌<◌, ◌≤◌, IsTrue, MatchOption, length, slice_index};
ghost use Rattle.rio_model.specs.Undo.{Links, before_by, taken, undo_records, undo_word};
ghost use Rattle.volume_check.specs.RegionWords.{HasRecords, IsRecordAt, put_over};

use rio_base::UNDO_HEAD;

/// Words before the undo pages: those of the header's page.
const UNDO_FROM: usize = 512;

/// Words of a record in front of those that it saves: the head before it, its first place, and how many it saves.
const RECORD_FRONT: usize = 3;

/// A word of the undo pages.
fn undo_word(front: &[u64], p: usize) -> u64
    requires { p + 512 < length front.now }
    ensures { result ≡ undo_word (slice_index front.now) p }
{
    front[UNDO_FROM + p]
}

/// Whether `count` places from `first` on are below `most`.
fn is_within(first: u64, count: u64, most: u64) -> bool
    ensures { IsTrue result ↔ (first + count ≤ most) }
{
    if most < count {
        return false;
    }
    first <= most - count
}

/// The old words of the record at undo word `at`.
fn old_words(front: &[u64], at: usize) -> &[u64]
    requires { 512 + (at + 3 + undo_word (slice_index front.now) (at + 2)) ≤ length front.now }
    ensures len { length result.now ≡ undo_word (slice_index front.now) (at + 2) }
    ensures words { (k : ℕ) → k < undo_word (slice_index front.now) (at + 2) → slice_index result.now k ≡ undo_word (slice_index front.now) (at + 3 + k) }
{
    let from = UNDO_FROM + at + RECORD_FRONT;
    let count = undo_word(front, at + 2) as usize;
    &front[from..from + count]
}

/// Where the record at undo word `at` ends. `None` comes where there is none that is as it has to be: `older` names the record
/// before it, it ends within the undo pages, and its places are below `places`.
fn record_end(front: &[u64], at: usize, older: u64, places: u64) -> Option<usize>
    requires header { 512 ≤ length front.now }
    requires at { at ≤ length front.now - 512 }
    ensures { MatchOption result ((end : ℕ) → ¬ IsRecordAt (slice_index front.now) (length front.now - 512) places at older end) (IsRecordAt (slice_index front.now) (length front.now - 512) places at older) }
{
    let left = front.len() - UNDO_FROM - at;
    if left < RECORD_FRONT {
        return None;
    }
    let count = undo_word(front, at + 2);
    if undo_word(front, at) != older {
        return None;
    }
    let room = (left - RECORD_FRONT) as u64;
    if room < count {
        return None;
    }
    if !is_within(undo_word(front, at + 1), count, places) {
        return None;
    }
    Some(at + RECORD_FRONT + count as usize)
}

/// Whether the undo records are as they have to be, in the words of the header's page and the undo pages: the oldest one lies at
/// undo word 0, each next one where the one before it ends, and the header names the last of them. They are followed from the
/// oldest on, so none is met twice, whatever its words say.
pub(crate) fn are_records(front: &[u64], places: u64) -> bool
    requires { 512 ≤ length front.now }
    ensures { IsTrue result ↔ HasRecords (slice_index front.now) (length front.now - 512) places }
{
    let head = front[UNDO_HEAD as usize];
    let mut newest = 0;
    let mut end = 0;
    while newest != head {
        let Some(next) = record_end(front, end, newest, places) else {
            return false;
        };
        newest = 1 + end as u64;
        end = next;
    }
    true
}

/// Puts the old words of a record over those of the heap map, so far as its places are in the map.
fn put_record(map: &mut [u64], first: u64, old: &[u64])
    ensures { (q : ℕ) → q < length map.old → slice_index map.new q ≡ put_over first old.now (slice_index map.old) q }
{
    if map.len() as u64 <= first {
        return;
    }
    let first = first as usize;
    let count = old.len().min(map.len() - first);
    map[first..first + count].copy_from_slice(&old[..count]);
}

/// Puts the records back over the words of the heap map, newest first, so that the oldest one's words stay where several cover
/// a place.
pub(crate) fn put_back(front: &[u64], map: &mut [u64])
    requires header { 512 ≤ length front.now }
    requires links { Links (slice_index front.now) (slice_index front.now 3) (undo_records (slice_index front.now)) }
    requires fits { taken (undo_records (slice_index front.now)) ≤ length front.now - 512 }
    ensures { (q : ℕ) → q < length map.old → slice_index map.new q ≡ before_by (undo_records (slice_index front.now)) (slice_index map.old) q }
{
    let mut head = front[UNDO_HEAD as usize];
    while head != 0 {
        let at = (head - 1) as usize;
        put_record(map, undo_word(front, at + 1), old_words(front, at));
        head = undo_word(front, at);
    }
}
