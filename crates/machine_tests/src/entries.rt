//! The registry in the words of a fresh image with 64 frames and one scratch page, which has 83 pages.

ghost use Rattle.std.specs.Prelude.{◌≡◌, ◌<◌, ℕ, true, false, OnOk};
ghost use Rattle.rio_model.specs.Registry.{frames_of, is_valid, tag_at};
ghost use Rattle.registry.specs.Changes.{CanChange};
ghost use Rattle.registry.specs.Entries.{IsFree};

use crate::machines::{MemBoard, Mishap, board_on, disk_of};
use crate::same::same;
use block_disk::MemDisk;
use board::Board;
use image_codec::fresh_image;
use phys_memory::ListMem;
use registry::{
    BadImage, Entry, check_image, clear, install, load_tag, read_entry, set_clean, set_dirty,
    set_shadow, set_size,
};
use rio_base::{Block, Ino, Machine, PageName, Stopped};
use std::alloc::Global;
use std::process::Abort;

/// A machine with the words of a fresh image, whose entry 3 can be changed, and where no entry has a tag.
#[tactic(auto, using(crate::proofs::TestImages::can_change, crate::proofs::TestImages::front_frames, crate::proofs::TestImages::front_tag))]
fn image_machine(rt: &impl Abort, alloc: Global, stop_after: Option<u64>) -> MemBoard
    ensures can { CanChange 3 (⟦<Board<ListMem, MemDisk> as Machine>⟧.contents result) (⟦<Board<ListMem, MemDisk> as Machine>⟧.run result) }
    ensures frames { frames_of (⟦<Board<ListMem, MemDisk> as Machine>⟧.contents result).words ≡ 64 }
    ensures empty { (k : ℕ) → k < 64 → tag_at (⟦<Board<ListMem, MemDisk> as Machine>⟧.contents result).words k ≡ 0 }
{
    let Ok(words) = fresh_image(alloc, 64, 1) else {
        panic!(rt; "no image");
    };
    if words[2] != 64 {
        panic!(rt; "another number of frames");
    }
    if words[3] != 1 {
        panic!(rt; "another number of scratch pages");
    }
    let disk = disk_of(rt, alloc, 4, Mishap::Nothing);
    board_on(ListMem::from_words(words), disk, stop_after)
}

/// Makes entry 3 the entry of page 1 of file 2, in block 9: dirty and of 5 bytes, and then clean and of 7.
#[tactic(auto, using(test_objects::proofs::WorkedPair::valid_tag, crate::proofs::TestImages::still_valid))]
fn make<M: Machine>(m: &mut M) -> Result<(), Stopped>
    requires can { CanChange 3 (M.contents m.old) (M.run m.old) }
    requires invalid { is_valid (tag_at (M.contents m.old).words 3) ≡ false }
    requires free { IsFree (M.contents m.old).words 9 }
    ensures can { CanChange 3 (M.contents m.new) (M.run m.new) }
    ensures valid { OnOk result (is_valid (tag_at (M.contents m.new).words 3) ≡ true) }
{
    let name = PageName {
        file: Ino(2),
        index: 1,
        size: 5,
    };
    install(m, 3, Block(9), Some(name), true)?;
    set_clean(m, 3)?;
    set_size(m, 3, 7)?;
    Ok(())
}

/// Gives entry 3 a shadow, and marks it dirty.
fn shadow<M: Machine>(m: &mut M) -> Result<(), Stopped>
    requires can { CanChange 3 (M.contents m.old) (M.run m.old) }
    requires valid { is_valid (tag_at (M.contents m.old).words 3) ≡ true }
    ensures can { CanChange 3 (M.contents m.new) (M.run m.new) }
{
    set_shadow(m, 3, 16)?;
    set_dirty(m, 3)?;
    Ok(())
}

/// How far an entry is brought.
#[derive(Clone, Copy, PartialEq, Eq)]
enum Stage {
    /// Nothing is done.
    Fresh,
    /// It is made.
    Made,
    /// It has a shadow, and is dirty.
    Shadowed,
    /// It is cleared.
    Cleared,
}

/// Brings entry 3 so far.
#[tactic(auto, using(crate::proofs::TestImages::none_taken, crate::proofs::TestImages::untagged))]
fn bring<M: Machine>(m: &mut M, stage: Stage) -> Result<(), Stopped>
    requires can { CanChange 3 (M.contents m.old) (M.run m.old) }
    requires invalid { is_valid (tag_at (M.contents m.old).words 3) ≡ false }
    requires free { IsFree (M.contents m.old).words 9 }
    ensures can { CanChange 3 (M.contents m.new) (M.run m.new) }
{
    if stage == Stage::Fresh {
        return Ok(());
    }
    make(m)?;
    if stage == Stage::Made {
        return Ok(());
    }
    shadow(m)?;
    if stage == Stage::Shadowed {
        return Ok(());
    }
    clear(m, 3)?;
    Ok(())
}

/// What is found: how bringing entry 3 so far ended, its tag, its words where it is valid, and what is said of the image.
type Came = (
    Result<(), Stopped>,
    u64,
    Option<Entry>,
    Result<(), BadImage>,
);

/// Brings entry 3 so far, and looks what is found.
#[tactic(auto, using(crate::proofs::TestImages::none_taken, crate::proofs::TestImages::untagged))]
fn look<M: Machine>(m: &mut M, stage: Stage) -> Came
    requires can { CanChange 3 (M.contents m.old) (M.run m.old) }
    requires frames { frames_of (M.contents m.old).words ≡ 64 }
    requires empty { (k : ℕ) → k < 64 → tag_at (M.contents m.old).words k ≡ 0 }
{
    let end = bring(m, stage);
    let tag = load_tag(m, 3);
    let entry = if tag.is_valid() {
        Some(read_entry(m, 3))
    } else {
        None
    };
    (end, tag.0, entry, check_image(m))
}

/// Brings entry 3 so far on a machine that stops after so many steps, if it does.
fn came_of(rt: &impl Abort, alloc: Global, stage: Stage, stop_after: Option<u64>) -> Came {
    let mut m = image_machine(rt, alloc, stop_after);
    look(&mut m, stage)
}

/// What is found of a free entry.
const FREE: Came = (Ok(()), 0, None, Ok(()));

/// What is found where making it was stopped.
const CUT: Came = (Err(Stopped), 0, None, Ok(()));

/// What is found of an entry that is made: it is clean.
const MADE: Came = (
    Ok(()),
    0x0000_0009_0000_0005,
    Some(Entry {
        tag: 0x0000_0009_0000_0005,
        file: 2,
        index: 1,
        size: 7,
        shadow: 0,
    }),
    Ok(()),
);

/// What is found of one that is dirty and has a shadow page.
const SHADOWED: Came = (
    Ok(()),
    0x0000_0009_0000_0007,
    Some(Entry {
        tag: 0x0000_0009_0000_0007,
        file: 2,
        index: 1,
        size: 7,
        shadow: 16,
    }),
    Err(BadImage(11)),
);

/// How far an entry is brought, after how many steps that is stopped, and what is found.
static STAGES: [(Stage, Option<u64>, Came); 9] = [
    (Stage::Fresh, None, FREE),
    (Stage::Made, None, MADE),
    (Stage::Shadowed, None, SHADOWED),
    (Stage::Cleared, None, FREE),
    (Stage::Made, Some(0), CUT),
    (Stage::Made, Some(1), CUT),
    (Stage::Made, Some(2), CUT),
    (Stage::Made, Some(3), CUT),
    (Stage::Made, Some(4), CUT),
];

#[test]
fn an_entry_is_made_changed_and_cleared(rt: HostRuntime) {
    for (k, (stage, stop_after, due)) in STAGES.iter().enumerate() {
        same(
            &rt,
            "stages",
            k,
            &came_of(&rt, rt.alloc(), *stage, *stop_after),
            due,
        );
    }
}
