//! The list of a region's blocks.

ghost use Rattle.std.specs.Prelude.{◌≡◌, IfOk, IsErrOf};
ghost use Rattle.rio_base.specs.Blocks.{EndsBy};
ghost use Rattle.rio_base.specs.Frames.{Stays};
ghost use Rattle.rio_model.specs.Undo.{IsRegion, live};
ghost use Rattle.rio_model.specs.Heap.{OfBlocks, heap_blocks, units_of};

use crate::extents::units_from;
use rio_base::{HeapList, ReadFail, RegionWords};
use std::alloc::Global;
use undo_list::{data_pages, word_at, zeros_from};

/// The blocks of a region's heap, first unit and units of each, in rising order. `Memory` is that of the list.
pub fn blocks<R: RegionWords>(alloc: Global, r: &mut R) -> Result<HeapList, ReadFail>
    requires ready { R.ready r.old }
    requires region { IsRegion (R.count r.old) (R.words r.old) }
    requires heap { OfBlocks (live (R.words r.old)) (R.words r.old 2) }
    ensures value { IfOk result (λ blocks. blocks ≡ heap_blocks (live (R.words r.old)) (units_of (R.words r.old))) }
    ensures words { R.words r.new ≡ R.words r.old }
    ensures region { IsRegion (R.count r.new) (R.words r.new) }
    ensures stays { Stays R.keeps_rest R.ready R.count R.health R.below r.old r.new }
    ensures ends { EndsBy (R.health r.old) (R.health r.new) (IsErrOf result ReadFail.Fault) (IsErrOf result ReadFail.Stopped) }
{
    let pages = data_pages(r)?;
    let mut found = Vec::new(alloc);
    let mut next = 0;
    while next < 64 * pages {
        let starts = word_at(r, 2 * (next / 64) + 1)?;
        let bit = next % 64;
        let skipped = zeros_from(starts, bit);
        next += skipped;
        if bit + skipped < 64 {
            let units = units_from(r, next, next + 1, pages)?;
            found.push((next, units))?;
            next += units;
        }
    }
    Ok(HeapList::from(found))
}
