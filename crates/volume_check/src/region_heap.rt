//! Whether the heap map of a region is of blocks alone.

ghost use Rattle.std.specs.Prelude.{◌≡◌, ◌↔◌, ℕ, ◌*◌, ◌<◌, ◌≤◌, IsTrue, length, slice_index};
ghost use Rattle.rio_model.specs.Heap.{OfBlocks};
ghost use Rattle.rio_model.specs.Undo.{map_pages};
ghost use Rattle.volume_check.specs.RegionWords.{GoOn, PagesGoOn};

/// Whether the units of one data page go on blocks alone, by its used bits and its starts: no start is on an unused unit, and
/// each used unit is a start or has a used one before it. `before` is 1 where the unit before the page is used, else 0.
fn go_on(used: u64, starts: u64, before: u64) -> bool
    requires { before ≤ 1 }
    ensures { IsTrue result ↔ GoOn used starts before }
{
    if starts & !used != 0 {
        return false;
    }
    let inner = used & !starts;
    if (inner >> 1) & !used != 0 {
        return false;
    }
    inner % 2 <= before
}

/// Whether these words of a heap map, two for each data page, have no bit.
fn are_empty(map: &[u64]) -> bool
    ensures { IsTrue result ↔ ((q : ℕ) → q < length map.now → slice_index map.now q ≡ 0) }
{
    map.iter().all(|word| *word == 0)
}

/// Whether the units of the first `pages` data pages go on blocks alone.
fn pages_go_on(map: &[u64], pages: usize) -> bool
    requires { 2 * pages ≤ length map.now }
    ensures { IsTrue result ↔ PagesGoOn (slice_index map.now) pages }
{
    let mut before = 0;
    for page in 0..pages {
        let used = map[2 * page];
        if !go_on(used, map[2 * page + 1], before) {
            return false;
        }
        before = used >> 63;
    }
    true
}

/// Whether the map of a heap of `pages` data pages is of blocks alone.
pub(crate) fn is_of_blocks(map: &[u64], pages: usize) -> bool
    requires { length map.now ≡ 512 * map_pages pages }
    ensures { IsTrue result ↔ OfBlocks (slice_index map.now) pages }
{
    pages_go_on(map, pages) && are_empty(&map[2 * pages..])
}
