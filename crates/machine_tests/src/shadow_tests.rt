//! Updates of two blocks of metadata, stopped at each step. The image has 64 frames and one scratch page: its shadow page
//! `s` is page `1 + s`, and its frame `k` page `18 + k`. Entries 3 and 4 have the blocks 5 and 6.

ghost use Rattle.std.specs.Prelude.{◌≡◌, ◌≢◌, ◌<◌, ◌≤◌, ◌⊎◌, ℕ, true, false, None, OnOk, length};
ghost use Rattle.rio_base.specs.Image.{HasHeader};
ghost use Rattle.rio_model.specs.Registry.{HasLayout, IsValid, KeepsRegistry, frames_of, gate_of, scratch_of, shadow_at, tag_at, tag_of};
ghost use Rattle.machine_tests.specs.TestMachines.{HasTwo};
ghost use Rattle.shadow_pages.specs.Updates.{AreBare};

use crate::machines::{MemBoard, Mishap, board_on, disk_of};
use crate::same::same;
use block_disk::MemDisk;
use board::Board;
use image_codec::fresh_image;
use page_protect::put_word;
use phys_memory::ListMem;
use registry::{check_image, load_tag, read_entry};
use rio_base::{Machine, Page, Stopped, WordAt};
use shadow_pages::{begin, commit, shadow, undo};
use std::alloc::Global;
use std::process::Abort;

/// The tags of two dirty entries of metadata, with the blocks 5 and 6.
const FIRST: u64 = 0x0000_0005_0000_0003;

const SECOND: u64 = 0x0000_0006_0000_0003;

/// The words of an image with the two entries.
fn marked_image(rt: &impl Abort, alloc: Global) -> Vec<u64>
    ensures { length result.items ≡ 42496 }
{
    let Ok(mut words) = fresh_image(alloc, 64, 1) else {
        panic!(rt; "no image");
    };
    if words.len() != 42_496 {
        panic!(rt; "another image");
    }
    words[527] = FIRST;
    words[530] = 4096;
    words[532] = SECOND;
    words[535] = 4096;
    words
}

/// Whether the header is that of an image with 64 frames and one scratch page, and no update is open.
fn has_header<M: Machine>(m: &M) -> bool
    requires room { 512 ≤ length (M.contents m.now).words }
    ensures header { result ≡ true → HasHeader (M.contents m.now).words }
    ensures frames { result ≡ true → frames_of (M.contents m.now).words ≡ 64 }
    ensures scratch { result ≡ true → scratch_of (M.contents m.now).words ≡ 1 }
    ensures gate { result ≡ true → gate_of (M.contents m.now).words ≡ 0 }
{
    if m.load(WordAt(0)) != 0x4548_4341_434f_4952 {
        return false;
    }
    if m.load(WordAt(1)) != 1 {
        return false;
    }
    if m.load(WordAt(2)) != 64 {
        return false;
    }
    if m.load(WordAt(3)) != 1 {
        return false;
    }
    m.load(WordAt(4)) == 0
}

/// Whether entry `k` is valid, and neither of the two.
fn is_stray<M: Machine>(m: &M, k: u32) -> bool
    requires layout { HasLayout (M.contents m.now).words (M.run m.now).scratch }
    requires entry { k < frames_of (M.contents m.now).words }
    ensures { result ≡ false → IsValid (M.contents m.now).words k → (k ≡ 3) ⊎ (k ≡ 4) }
{
    if k == 3 {
        return false;
    }
    if k == 4 {
        return false;
    }
    load_tag(m, k).is_valid()
}

/// Whether no other entry is valid.
fn are_only<M: Machine>(m: &M) -> bool
    requires layout { HasLayout (M.contents m.now).words (M.run m.now).scratch }
    requires frames { frames_of (M.contents m.now).words ≡ 64 }
    ensures { result ≡ true → (k : ℕ) → IsValid (M.contents m.now).words k → (k ≡ 3) ⊎ (k ≡ 4) }
{
    for k in 0..64 {
        if is_stray(m, k) {
            return false;
        }
    }
    true
}

/// Whether entries 3 and 4 have their tags.
fn has_tags<M: Machine>(m: &M) -> bool
    requires layout { HasLayout (M.contents m.now).words (M.run m.now).scratch }
    requires frames { frames_of (M.contents m.now).words ≡ 64 }
    ensures three { result ≡ true → tag_at (M.contents m.now).words 3 ≡ tag_of 5 true false }
    ensures four { result ≡ true → tag_at (M.contents m.now).words 4 ≡ tag_of 6 true false }
{
    if load_tag(m, 3).0 != FIRST {
        return false;
    }
    load_tag(m, 4).0 == SECOND
}

/// Whether the registry keeps its rules.
fn has_rules<M: Machine>(m: &M) -> bool
    requires layout { HasLayout (M.contents m.now).words (M.run m.now).scratch }
    ensures { result ≡ true → KeepsRegistry (M.contents m.now).words }
{
    match check_image(m) {
        Ok(()) => true,
        Err(_) => false,
    }
}

/// Whether the image keeps its rules, and has the two entries and no other.
#[tactic(auto, using(crate::proofs::TwoEntries::layout_of_two))]
fn has_two<M: Machine>(m: &M) -> bool
    requires words { length (M.contents m.now).words ≡ 41984 }
    requires scratch { length (M.run m.now).scratch ≡ 512 }
    requires blocks { length (M.contents m.now).disk ≡ 8 }
    requires closed { (M.contents m.now).open_page ≡ None }
    ensures two { result ≡ true → HasTwo (M.contents m.now) (M.run m.now) }
    ensures gate { result ≡ true → gate_of (M.contents m.now).words ≡ 0 }
{
    if !has_header(m) {
        return false;
    }
    if !has_rules(m) {
        return false;
    }
    if !has_tags(m) {
        return false;
    }
    are_only(m)
}

/// A board with the two entries, whose frames are zeros.
fn two_entries(rt: &impl Abort, alloc: Global, stop_after: Option<u64>) -> MemBoard
    ensures two { HasTwo (⟦<Board<ListMem, MemDisk> as Machine>⟧.contents result) (⟦<Board<ListMem, MemDisk> as Machine>⟧.run result) }
    ensures gate { gate_of (⟦<Board<ListMem, MemDisk> as Machine>⟧.contents result).words ≡ 0 }
{
    let words = marked_image(rt, alloc);
    let disk = disk_of(rt, alloc, 8, Mishap::Nothing);
    let m = board_on(ListMem::from_words(words), disk, stop_after);
    if !has_two(&m) {
        panic!(rt; "not the two entries");
    }
    m
}

/// Gives entry `k` the shadow `s`, which neither has.
#[tactic(auto, using(crate::proofs::TwoEntries::two_valid, crate::proofs::TwoEntries::two_plain, crate::proofs::TwoEntries::two_kept, crate::proofs::TwoEntries::gate_kept))]
fn give<M: Machine>(m: &mut M, k: u32, s: u32) -> Result<(), Stopped>
    requires two { HasTwo (M.contents m.old) (M.run m.old) }
    requires entry { (k ≡ 3) ⊎ (k ≡ 4) }
    requires bare { shadow_at (M.contents m.old).words k ≡ 0 }
    requires from { 1 ≤ s }
    requires to { s ≤ 16 }
    requires free { (j : ℕ) → IsValid (M.contents m.old).words j → shadow_at (M.contents m.old).words j ≢ s }
    ensures two { HasTwo (M.contents m.new) (M.run m.new) }
    ensures given { OnOk result (shadow_at (M.contents m.new).words k ≡ s) }
    ensures others { (j : ℕ) → j ≢ k → j < 64 → shadow_at (M.contents m.new).words j ≡ shadow_at (M.contents m.old).words j }
    ensures gate { gate_of (M.contents m.new).words ≡ gate_of (M.contents m.old).words }
{
    shadow(m, k, s)?;
    Ok(())
}

/// Gives both entries a shadow.
#[tactic(auto, using(crate::proofs::TwoEntries::three_valid, crate::proofs::TwoEntries::four_valid, crate::proofs::TwoEntries::shadow_free))]
fn shadow_both<M: Machine>(m: &mut M) -> Result<(), Stopped>
    requires two { HasTwo (M.contents m.old) (M.run m.old) }
    requires bare { AreBare (M.contents m.old).words }
    ensures two { HasTwo (M.contents m.new) (M.run m.new) }
    ensures gate { gate_of (M.contents m.new).words ≡ gate_of (M.contents m.old).words }
{
    give(m, 3, 1)?;
    give(m, 4, 2)?;
    Ok(())
}

/// Stores `v` as word 0 of the frame of entry `k`.
#[tactic(auto, using(crate::proofs::TwoEntries::long_two, crate::proofs::TwoEntries::gate_edited))]
fn edit<M: Machine>(m: &mut M, k: u32, v: u64) -> Result<(), Stopped>
    requires two { HasTwo (M.contents m.old) (M.run m.old) }
    requires entry { (k ≡ 3) ⊎ (k ≡ 4) }
    ensures two { HasTwo (M.contents m.new) (M.run m.new) }
    ensures gate { gate_of (M.contents m.new).words ≡ gate_of (M.contents m.old).words }
{
    put_word(m, Page(18 + k), 0, v)?;
    Ok(())
}

/// Opens an update, and stores `v` as word 0 of both blocks.
#[tactic(auto, using(crate::proofs::TwoEntries::within_two, crate::proofs::TwoEntries::listed_two))]
fn open_update<M: Machine>(m: &mut M, v: u64) -> Result<(), Stopped>
    requires two { HasTwo (M.contents m.old) (M.run m.old) }
    requires shut { gate_of (M.contents m.old).words ≡ 0 }
    ensures two { HasTwo (M.contents m.new) (M.run m.new) }
    ensures updating { OnOk result (gate_of (M.contents m.new).words ≡ 1) }
{
    begin(m, &[3, 4])?;
    shadow_both(m)?;
    edit(m, 3, v)?;
    edit(m, 4, v)?;
    Ok(())
}

/// An update that is committed.
fn update<M: Machine>(m: &mut M, v: u64) -> Result<(), Stopped>
    requires two { HasTwo (M.contents m.old) (M.run m.old) }
    requires shut { gate_of (M.contents m.old).words ≡ 0 }
    ensures two { HasTwo (M.contents m.new) (M.run m.new) }
    ensures shut { OnOk result (gate_of (M.contents m.new).words ≡ 0) }
{
    open_update(m, v)?;
    commit(m)?;
    Ok(())
}

/// An update that is taken back.
#[tactic(auto, using(crate::proofs::TwoEntries::within_two, crate::proofs::TwoEntries::listed_two))]
fn update_and_undo<M: Machine>(m: &mut M, v: u64) -> Result<(), Stopped>
    requires two { HasTwo (M.contents m.old) (M.run m.old) }
    requires shut { gate_of (M.contents m.old).words ≡ 0 }
    ensures two { HasTwo (M.contents m.new) (M.run m.new) }
    ensures shut { OnOk result (gate_of (M.contents m.new).words ≡ 0) }
{
    open_update(m, v)?;
    undo(m, &[3, 4])?;
    Ok(())
}

/// Word 0 of the block of entry `k` as it reads.
#[tactic(auto, using(crate::proofs::TwoEntries::long_two))]
fn reading<M: Machine>(m: &M, k: u32) -> u64
    requires two { HasTwo (M.contents m.now) (M.run m.now) }
    requires entry { (k ≡ 3) ⊎ (k ≡ 4) }
{
    m.load(WordAt(512 * (18 + k)))
}

/// Word 0 of the block of entry `k` as it stands: both are dirty, so no block of the disk counts.
#[tactic(auto, using(crate::proofs::TwoEntries::long_two, crate::proofs::TwoEntries::layout_two, crate::proofs::TwoEntries::shadow_small))]
fn standing<M: Machine>(m: &M, k: u32) -> u64
    requires two { HasTwo (M.contents m.now) (M.run m.now) }
    requires entry { (k ≡ 3) ⊎ (k ≡ 4) }
{
    let shadow = read_entry(m, k).shadow as u32;
    if shadow == 0 {
        return reading(m, k);
    }
    if m.load(WordAt(4)) == 0 {
        return reading(m, k);
    }
    m.load(WordAt(512 * (1 + shadow)))
}

/// The words 0 of both blocks as they stand.
fn both_standing<M: Machine>(m: &M) -> (u64, u64)
    requires two { HasTwo (M.contents m.now) (M.run m.now) }
{
    (standing(m, 3), standing(m, 4))
}

/// Which updates are made of two blocks of zeros.
#[derive(Clone, Copy)]
enum Updates {
    /// One of 7, which is committed.
    One,
    /// One of 7, which is taken back.
    Undone,
    /// One of 7, and a second of 8.
    Two,
    /// One of 7, and one of 8 that is taken back.
    SecondUndone,
}

/// Makes the updates.
fn make<M: Machine>(m: &mut M, updates: Updates) -> Result<(), Stopped>
    requires two { HasTwo (M.contents m.old) (M.run m.old) }
    requires shut { gate_of (M.contents m.old).words ≡ 0 }
    ensures two { HasTwo (M.contents m.new) (M.run m.new) }
{
    match updates {
        Updates::One => update(m, 7),
        Updates::Undone => update_and_undo(m, 7),
        Updates::Two => {
            update(m, 7)?;
            update(m, 8)
        }
        Updates::SecondUndone => {
            update(m, 7)?;
            update_and_undo(m, 8)
        }
    }
}

/// What is found after updates: whether all were made, the words 0 of both blocks as they stand, and whether both blocks read
/// so, or not all updates were made.
type Came = (bool, (u64, u64), bool);

/// Makes updates, and looks what stands.
fn look<M: Machine>(m: &mut M, updates: Updates) -> Came
    requires two { HasTwo (M.contents m.old) (M.run m.old) }
    requires shut { gate_of (M.contents m.old).words ≡ 0 }
{
    let done = make(m, updates).is_ok();
    let standing = both_standing(m);
    let read = (reading(m, 3), reading(m, 4));
    (done, standing, !done || read == standing)
}

/// Makes updates on a machine that stops after so many steps, if it does, and looks what stands.
fn came_of(rt: &impl Abort, alloc: Global, updates: Updates, stop_after: Option<u64>) -> Came {
    let mut m = two_entries(rt, alloc, stop_after);
    look(&mut m, updates)
}

/// Updates, the steps after which they are stopped, and what must come of it.
struct Row {
    name: &'static str,
    updates: Updates,
    stops: &'static [u64],
    /// After how many steps all are made.
    made_after: u64,
    /// What stands of both blocks where they are not all made, and where they are.
    stands: [u64; 2],
}

static ROWS: [Row; 3] = [
    // each step of the gate, of the shadows and of the edits, and the ends and a middle of each copy
    Row {
        name: "steps of an update",
        updates: Updates::One,
        stops: &[
            0, 1, 2, 300, 512, 513, 514, 515, 800, 1_026, 1_027, 1_028, 1_029, 1_030, 1_031,
        ],
        made_after: 1_030,
        stands: [0, 7],
    },
    // from the first copy back on
    Row {
        name: "steps of an update taken back",
        updates: Updates::Undone,
        stops: &[
            1_029, 1_030, 1_300, 1_541, 1_542, 1_800, 2_053, 2_054, 2_055,
        ],
        made_after: 2_054,
        stands: [0, 0],
    },
    // it first takes two shadows away
    Row {
        name: "steps of a second update",
        updates: Updates::Two,
        stops: &[
            1_030, 1_031, 1_032, 1_033, 1_034, 1_300, 1_545, 1_546, 1_547, 1_800, 2_058, 2_059,
            2_060, 2_061, 2_062, 2_063,
        ],
        made_after: 2_062,
        stands: [7, 8],
    },
];

/// Makes the updates once for each stop, on a machine of its own. The index in a failure is the number of steps.
fn check(rt: &impl Abort, alloc: Global, row: &Row) {
    for k in 0..row.stops.len() {
        let steps = row.stops[k];
        let done = row.made_after <= steps;
        let v = if done { row.stands[1] } else { row.stands[0] };
        let came = came_of(rt, alloc, row.updates, Some(steps));
        same(rt, row.name, steps as usize, &came, &(done, (v, v), true));
    }
}

#[test]
fn an_update_stands_whole_or_not_at_all(rt: HostRuntime) {
    for row in ROWS.iter() {
        check(&rt, rt.alloc(), row);
    }
}

#[test]
fn a_second_update_is_taken_back(rt: HostRuntime) {
    let came = came_of(&rt, rt.alloc(), Updates::SecondUndone, None);
    same(
        &rt,
        "a second update taken back",
        0,
        &came,
        &(true, (7, 7), true),
    );
}
