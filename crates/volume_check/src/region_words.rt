//! Whether the words of a region keep its format: the header, the undo records, and the heap map once these are put back.

ghost use Rattle.std.specs.Prelude.{◌≡◌, ◌↔◌, ℕ, ◌+◌, ◌*◌, ◌^◌, ◌<◌, ◌≤◌, IsTrue, MatchOption, length, slice_index};
ghost use Rattle.rio_base.specs.Regions.{RegionContent};
ghost use Rattle.rio_model.specs.Heap.{IsSoundRegion};
ghost use Rattle.rio_model.specs.Undo.{map_pages};
ghost use Rattle.volume_check.specs.RegionWords.{Begins, HasPages};

use crate::region_heap::is_of_blocks;
use crate::region_records::{are_records, put_back};
use rio_base::{BLOCK_WORDS, REGION_MAGIC};

/// How many pages a region has, by its header.
#[derive(Clone, Copy)]
pub(crate) struct RegionPages {
    /// Undo pages.
    undo: u32,
    /// Data pages.
    pages: u32,
}

impl RegionPages {
    /// Pages of the heap map: each has the bits of 256 data pages.
    fn map(self) -> u32
        ensures { result ≡ map_pages self.pages }
    {
        self.pages.div_ceil(256)
    }

    /// Pages before those of the data: the header, the undo pages and the heap map.
    pub(crate) fn front(self) -> u32
        requires { self.undo + self.pages < 2 ^ 31 }
        ensures { result ≡ 1 + self.undo + map_pages self.pages }
    {
        1 + self.undo + self.map()
    }
}

/// How many pages a region of `pages` pages has by its header, of which `header` has at least four words. `None` comes where
/// the header is not that of such a region.
pub(crate) fn region_pages(header: &[u64], count: u32) -> Option<RegionPages>
    requires header { 4 ≤ length header.now }
    requires few { count < 2 ^ 30 }
    ensures { MatchOption result ((undo pages : ℕ) → ¬ HasPages (512 * count) (slice_index header.now) undo pages) (λ p. HasPages (512 * count) (slice_index header.now) p.undo p.pages) }
{
    if header[0] != REGION_MAGIC {
        return None;
    }
    let most = u64::from(count);
    if header[1] == 0 || most < header[1] {
        return None;
    }
    if header[2] == 0 || most < header[2] {
        return None;
    }
    let pages = RegionPages {
        undo: header[1] as u32,
        pages: header[2] as u32,
    };
    if u64::from(pages.front()) + u64::from(pages.pages) != most {
        return None;
    }
    Some(pages)
}

/// Whether a region keeps the format, by the words of its pages before the data and by what its header says of its pages. The
/// undo records are put back over the words of the heap map.
pub(crate) fn is_sound_region(words: &mut [u64], pages: RegionPages) -> bool
    requires len { length words.old ≡ 512 * (1 + pages.undo + map_pages pages.pages) }
    ensures { (n : ℕ) (f : RegionContent) → HasPages n f pages.undo pages.pages → Begins f words.old → (IsTrue result ↔ IsSoundRegion n f) }
{
    let (front, map) = words.split_at_mut(BLOCK_WORDS * (1 + pages.undo as usize));
    let places = 512 * (u64::from(pages.map()) + u64::from(pages.pages));
    if !are_records(front, places) {
        return false;
    }
    put_back(front, map);
    is_of_blocks(map, pages.pages as usize)
}
