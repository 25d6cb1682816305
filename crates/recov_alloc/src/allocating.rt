//! Blocks taken and given back.

ghost use Rattle.std.specs.Prelude.{◌≡◌, ℕ, ◌+◌, ◌*◌, ◌/◌, ◌<◌, ◌≤◌, ◌⊎◌, IfOk, IsErrOf, OnOk};
ghost use Rattle.rio_base.specs.Blocks.{EndsBy};
ghost use Rattle.rio_base.specs.Frames.{Stays};
ghost use Rattle.rio_model.specs.Undo.{IsRegion, Undoes, live, taken, undo_records, undo_words};
ghost use Rattle.rio_model.specs.Heap.{Allocates, IsBlock, IsFirstFit, IsGap, OfBlocks, Releases, heap_blocks, touched_pages, units_of, with_block, without_block};

use crate::changing::change_map;
use crate::extents::block_at;
use crate::failures::HeapFail;
use crate::fitting::first_fit;
use rio_base::RegionWords;
use undo_list::read_header;

/// Takes the lowest gap of `units` units as a block, and answers its first unit. `Full` comes exactly where there is no
/// such gap, `UndoFull` exactly where there is one and the record of the block's map words, which takes 3 undo words and
/// 2 for each data page that the block touches, has no room. Both change nothing. After `Fault` and `Stopped` the words
/// of before are as they were, and the map may have the bits of the block in part.
pub fn allocate<R: RegionWords>(r: &mut R, units: u32) -> Result<u32, HeapFail>
    requires ready { R.ready r.old }
    requires region { IsRegion (R.count r.old) (R.words r.old) }
    requires heap { OfBlocks (live (R.words r.old)) (R.words r.old 2) }
    requires units { 1 ≤ units }
    ensures ok { IfOk result (Allocates (R.words r.old) (R.words r.new) units) }
    ensures room { IfOk result (λ t. taken (undo_records (R.words r.old)) + 3 + 2 * touched_pages t units ≤ undo_words (R.words r.old)) }
    ensures heap { OnOk result (OfBlocks (live (R.words r.new)) (R.words r.new 2)) }
    ensures listed { IfOk result (λ t. heap_blocks (live (R.words r.new)) (units_of (R.words r.old)) ≡ with_block (heap_blocks (live (R.words r.old)) (units_of (R.words r.old))) t units) }
    ensures full { IsErrOf result HeapFail.Full → (t : ℕ) → IsGap (live (R.words r.old)) (units_of (R.words r.old)) t units → ⊥ }
    ensures undo_full { IsErrOf result HeapFail.UndoFull → (t : ℕ) × IsFirstFit (live (R.words r.old)) (units_of (R.words r.old)) units t × (undo_words (R.words r.old) < taken (undo_records (R.words r.old)) + 3 + 2 * touched_pages t units) }
    ensures refused { IsErrOf result HeapFail.Full ⊎ IsErrOf result HeapFail.UndoFull → R.words r.new ≡ R.words r.old }
    ensures no_block { IsErrOf result HeapFail.NotBlock → ⊥ }
    ensures before { Undoes (R.count r.old) (R.words r.old) (R.words r.new) }
    ensures region { IsRegion (R.count r.new) (R.words r.new) }
    ensures stays { Stays R.keeps_rest R.ready R.count R.health R.below r.old r.new }
    ensures ends { EndsBy (R.health r.old) (R.health r.new) (IsErrOf result HeapFail.Fault) (IsErrOf result HeapFail.Stopped) }
{
    let header = read_header(r)?;
    let Some(at) = first_fit(r, header, units)? else {
        return Err(HeapFail::Full);
    };
    change_map(r, header, at, units, true)?;
    Ok(at)
}

/// Gives the block back that starts at `unit`. `NotBlock` comes exactly where none does, `UndoFull` exactly where one does
/// and the record of its map words has no room. Both change nothing. After `Fault` and `Stopped` the words of before are
/// as they were, and the map may have the bits of the block in part.
pub fn release<R: RegionWords>(r: &mut R, unit: u32) -> Result<(), HeapFail>
    requires ready { R.ready r.old }
    requires region { IsRegion (R.count r.old) (R.words r.old) }
    requires heap { OfBlocks (live (R.words r.old)) (R.words r.old 2) }
    ensures ok { OnOk result ((n : ℕ) × Releases (R.words r.old) (R.words r.new) n unit × (taken (undo_records (R.words r.old)) + 3 + 2 * touched_pages unit n ≤ undo_words (R.words r.old))) }
    ensures heap { OnOk result (OfBlocks (live (R.words r.new)) (R.words r.new 2)) }
    ensures listed { OnOk result (heap_blocks (live (R.words r.new)) (units_of (R.words r.old)) ≡ without_block (heap_blocks (live (R.words r.old)) (units_of (R.words r.old))) unit) }
    ensures not_block { IsErrOf result HeapFail.NotBlock → (n : ℕ) → IsBlock (live (R.words r.old)) (units_of (R.words r.old)) unit n → ⊥ }
    ensures undo_full { IsErrOf result HeapFail.UndoFull → (n : ℕ) × IsBlock (live (R.words r.old)) (units_of (R.words r.old)) unit n × (undo_words (R.words r.old) < taken (undo_records (R.words r.old)) + 3 + 2 * touched_pages unit n) }
    ensures refused { IsErrOf result HeapFail.NotBlock ⊎ IsErrOf result HeapFail.UndoFull → R.words r.new ≡ R.words r.old }
    ensures full { IsErrOf result HeapFail.Full → ⊥ }
    ensures before { Undoes (R.count r.old) (R.words r.old) (R.words r.new) }
    ensures region { IsRegion (R.count r.new) (R.words r.new) }
    ensures stays { Stays R.keeps_rest R.ready R.count R.health R.below r.old r.new }
    ensures ends { EndsBy (R.health r.old) (R.health r.new) (IsErrOf result HeapFail.Fault) (IsErrOf result HeapFail.Stopped) }
{
    let header = read_header(r)?;
    let Some(units) = block_at(r, header, unit)? else {
        return Err(HeapFail::NotBlock);
    };
    change_map(r, header, unit, units, false)?;
    Ok(())
}
