//! An entry as it is read.

ghost use Rattle.std.specs.Prelude.{◌≡◌, ◌<◌, ◌≤◌, ◌+◌, ◌^◌};
ghost use Rattle.rio_base.specs.Image.{entry_at};
ghost use Rattle.rio_model.specs.Registry.{HasLayout, frames_of, tag_at};
ghost use Rattle.registry.specs.Entries.{entry_of};

use crate::tag::Tag;
use rio_base::{Machine, WordAt};

/// The entry of a frame.
#[derive(Clone, Copy, Debug, PartialEq, Eq)]
pub struct Entry {
    /// Its flags and its block, as [`crate::Tag`] reads them.
    pub tag: u64,
    /// The inode number of the page's file, 0 for metadata.
    pub file: u64,
    /// Which page of the file it is, from 0; 0 for metadata.
    pub index: u64,
    /// How many bytes of the page the file uses, 4,096 for metadata.
    pub size: u64,
    /// The shadow frame of an update, from 1 to 16, or 0.
    pub shadow: u64,
}

/// The entries of a registry page.
pub(crate) const PAGE_ENTRIES: u32 = 102;

/// The place of the first word of entry `k`, the entry being below 8,192.
#[tactic(auto, using(crate::proofs::Places::place_is, crate::proofs::Places::place_small))]
pub(crate) fn place_of(k: u32) -> u32
    requires { k < 8192 }
    ensures place { result ≡ entry_at k }
    ensures small { result + 5 < 2 ^ 20 }
{
    512 * (1 + k / PAGE_ENTRIES) + 5 * (k % PAGE_ENTRIES)
}

/// Entry `k`, `k` below the number of frames.
pub fn read_entry<M: Machine>(m: &M, k: u32) -> Entry
    requires layout { HasLayout (M.contents m.now).words (M.run m.now).scratch }
    requires entry { k < frames_of (M.contents m.now).words }
    ensures { result ≡ entry_of (M.contents m.now).words k }
{
    let place = place_of(k);
    Entry {
        tag: m.load(WordAt(place)),
        file: m.load(WordAt(place + 1)),
        index: m.load(WordAt(place + 2)),
        size: m.load(WordAt(place + 3)),
        shadow: m.load(WordAt(place + 4)),
    }
}

/// The tag of entry `k` alone, `k` below the number of frames: one word, where [`read_entry`] loads five.
#[tactic(auto, using(crate::proofs::Places::entry_within))]
pub fn load_tag<M: Machine>(m: &M, k: u32) -> Tag
    requires layout { HasLayout (M.contents m.now).words (M.run m.now).scratch }
    requires entry { k < frames_of (M.contents m.now).words }
    ensures { result.0 ≡ tag_at (M.contents m.now).words k }
{
    Tag(m.load(WordAt(place_of(k))))
}
