//! The nodes and blocks of a volume, counted.

ghost use Rattle.std.specs.Prelude.{◌≡◌, ◌<◌, ◌≤◌, ◌==◌, filter, length, map, sum};
ghost use Rattle.std.specs.List.{range_with_len};
ghost use Rattle.rio_base.specs.Blocks.{Seen};
ghost use Rattle.rio_base.specs.Layout.{IsIno};
ghost use Rattle.rio_base.specs.Shapes.{IsServed};
ghost use Rattle.rio_model.specs.declared.state.State.{State};
ghost use Rattle.rio_model.specs.Censuses.{IsCensus};
ghost use Rattle.rio_model.specs.Sizes.{largest_size};
ghost use Rattle.rio_model.specs.VolumeReads.{ReadsAs};
ghost use Rattle.volume_check.specs.Inodes.{HasInodes, SizesFit, said, said_blocks};

use crate::inode_rules::{DIRECTORY, FILE, REGION};
use crate::inodes::Inodes;
use crate::mark_rules::reserved_blocks;
use crate::numbers::page_count;
use inode_table::DIRECT_PAGES;
use rio_base::Ino;
use rio_model::Census;

/// How many inodes are of this kind.
#[tactic(auto, using(crate::proofs::Counts::count_next))]
fn count_kind(inodes: &Inodes, kind: u64) -> u32
    ensures { result ≡ length (filter (λ i. said inodes.now i 0 == kind) (range_with_len 1 inodes.now.shape.inodes)) }
{
    let mut count = 0;
    for k in 0..inodes.shape.inodes {
        if inodes.kind(Ino(k + 1)) == kind {
            count += 1;
        }
    }
    count
}

/// How many blocks node `i` has: its pages, and its table.
fn count_blocks(inodes: &Inodes, i: Ino) -> u32
    requires ino { IsIno inodes.now.shape i.0 }
    requires size { 0 < said inodes.now i.0 0 → said inodes.now i.0 1 ≤ largest_size }
    ensures blocks { result ≡ said_blocks inodes.now i.0 }
    ensures few { result ≤ 2048 }
{
    if inodes.kind(i) == 0 {
        return 0;
    }
    let pages = page_count(inodes.size(i));
    if pages > DIRECT_PAGES {
        return pages + 1;
    }
    pages
}

/// How many blocks all nodes have.
fn count_used(inodes: &Inodes) -> u32
    requires served { IsServed inodes.now.shape }
    requires sizes { SizesFit inodes.now }
    ensures { result ≡ sum (map (said_blocks inodes.now) (range_with_len 1 inodes.now.shape.inodes)) }
{
    let mut used = 0;
    for k in 0..inodes.shape.inodes {
        used += count_blocks(inodes, Ino(k + 1));
    }
    used
}

/// The census of a volume that keeps its rules.
pub fn count_volume(inodes: &Inodes) -> Census
    requires served { IsServed inodes.now.shape }
    requires sizes { SizesFit inodes.now }
    ensures shape { result.shape ≡ inodes.now.shape }
    ensures census { (s : Seen) (t : State) → HasInodes s inodes.now → ReadsAs inodes.now.shape s.words t → IsCensus t result }
{
    let used = count_used(inodes);
    let shape = inodes.shape;
    Census {
        shape,
        dirs: count_kind(inodes, DIRECTORY),
        files: count_kind(inodes, FILE),
        regions: count_kind(inodes, REGION),
        used,
        free: shape
            .blocks
            .saturating_sub(reserved_blocks(&shape))
            .saturating_sub(used),
    }
}
