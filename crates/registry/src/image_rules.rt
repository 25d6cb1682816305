//! The rules of an image from rule 5 on. Looking at them takes no memory but 32 KiB of the stack, for rule 7.

ghost use Rattle.std.specs.Prelude.{◌≡◌, ◌<◌, ◌≤◌, ◌+◌, ◌*◌, ◌==◌, ◌↔◌, ℕ, IsTrue, MatchResult, if◌then◌else◌, length, true, false};
ghost use Rattle.rio_model.specs.Registry.{BlockRule, FailsRegistry, HasLayout, IsValid, KeepsMetadata, KeepsName, KeepsRegistry, KeepsShadow, KeepsSize, KeepsTag, ShadowsApart, frames_of, tag_at, tag_block};
ghost use Rattle.rio_model.specs.RuleNumbers.{image_rule};
ghost use Rattle.registry.specs.Entries.{entry_of};
ghost use Rattle.registry.specs.EntryRules.{EntryKeeps, IsFreeBefore, IsUnusedBefore, MarksBefore, block_mark};

use crate::entry::{Entry, load_tag, read_entry};
use crate::pages::{GATE, frame_count};
use crate::tag::Tag;
use rio_base::{Block, Machine, PAGE_BYTES};
use rio_model::ImageRule;
use thiserror::Error;

/// The first rule that an image breaks, by its number from 5 to 12.
#[derive(Clone, Copy, Debug, PartialEq, Eq, Error)]
#[error("the image breaks rule {0}")]
pub struct BadImage(pub u8);

/// A rule that an entry keeps or breaks by itself.
#[derive(Clone, Copy)]
enum EntryRule {
    /// Rule 6.
    Tag,
    /// Rule 8.
    Metadata,
    /// Rule 9.
    Name,
    /// Rule 10.
    Size,
    /// Rule 11.
    Shadow,
}

/// All three flags of a tag.
const FLAGS: u64 = 7;

/// The most blocks that a volume of version 2 has. Of these each has a mark while rule 7 is looked at.
const MOST_BLOCKS: u32 = 262_144;

/// The words of their marks, a bit for each block.
const MARK_WORDS: usize = MOST_BLOCKS as usize / 64;

/// The greatest inode number.
const LAST_FILE: u64 = 262_144;

/// The greatest index of a page in its file.
const LAST_INDEX: u64 = 65_535;

/// How many shadow frames there are.
const SHADOWS: u64 = 16;

/// Looks at the rules of the gate and the registry, in their order. The answer is the first that fails.
pub fn check_image<M: Machine>(m: &M) -> Result<(), BadImage>
    requires layout { HasLayout (M.contents m.now).words (M.run m.now).scratch }
    ensures { MatchResult result (λ _. KeepsRegistry (M.contents m.now).words) (λ bad. FailsRegistry (M.contents m.now).words bad.0) }
{
    demand(ImageRule::Gate, m.load(GATE) <= 1)?;
    demand(ImageRule::Tags, all_keep(m, EntryRule::Tag))?;
    demand(ImageRule::BlocksOnce, are_blocks_apart(m))?;
    demand(ImageRule::Metadata, all_keep(m, EntryRule::Metadata))?;
    demand(ImageRule::PageNames, all_keep(m, EntryRule::Name))?;
    demand(ImageRule::PageSizes, all_keep(m, EntryRule::Size))?;
    demand(ImageRule::Shadows, all_keep(m, EntryRule::Shadow))?;
    demand(ImageRule::ShadowsOnce, are_shadows_apart(m))?;
    Ok(())
}

/// `BadImage` with the rule's number, unless the rule holds.
fn demand(rule: ImageRule, holds: bool) -> Result<(), BadImage>
    ensures { MatchResult result (λ _. holds ≡ true) (λ bad. (holds ≡ false) × (bad.0 ≡ image_rule rule)) }
{
    if holds {
        Ok(())
    } else {
        Err(BadImage(rule.number()))
    }
}

// ---- what an entry keeps by itself

/// Whether each entry keeps the rule.
fn all_keep<M: Machine>(m: &M, rule: EntryRule) -> bool
    requires layout { HasLayout (M.contents m.now).words (M.run m.now).scratch }
    ensures { IsTrue result ↔ ((k : ℕ) → k < frames_of (M.contents m.now).words → EntryKeeps rule (entry_of (M.contents m.now).words k)) }
{
    for k in 0..frame_count(m) {
        let entry = read_entry(m, k);
        if !keeps(&entry, rule) {
            return false;
        }
    }
    true
}

/// Whether the entry keeps the rule.
fn keeps(entry: &Entry, rule: EntryRule) -> bool
    ensures { IsTrue result ↔ EntryKeeps rule entry.now }
{
    match rule {
        EntryRule::Tag => keeps_tag(entry),
        EntryRule::Metadata => keeps_metadata(entry),
        EntryRule::Name => keeps_name(entry),
        EntryRule::Size => keeps_size(entry),
        EntryRule::Shadow => keeps_shadow(entry),
    }
}

/// An entry that isn't valid has tag 0, and a valid tag no bits but its three flags and its block.
fn keeps_tag(entry: &Entry) -> bool
    ensures { IsTrue result ↔ KeepsTag entry.now.tag }
{
    if Tag(entry.tag).is_valid() {
        entry.tag % (1 << 32) <= FLAGS
    } else {
        entry.tag == 0
    }
}

/// A valid metadata entry names no file, and uses its whole page.
fn keeps_metadata(entry: &Entry) -> bool
    ensures { IsTrue result ↔ KeepsMetadata entry.now.tag entry.now.file entry.now.index entry.now.size }
{
    let tag = Tag(entry.tag);
    if !tag.is_valid() || tag.is_data() {
        return true;
    }
    entry.file == 0 && entry.index == 0 && entry.size == PAGE_BYTES
}

/// A valid data entry names a page of a file.
fn keeps_name(entry: &Entry) -> bool
    ensures { IsTrue result ↔ KeepsName entry.now.tag entry.now.file entry.now.index }
{
    let tag = Tag(entry.tag);
    if !tag.is_valid() || !tag.is_data() {
        return true;
    }
    (1..=LAST_FILE).contains(&entry.file) && entry.index <= LAST_INDEX
}

/// A valid data entry uses no more than its page.
fn keeps_size(entry: &Entry) -> bool
    ensures { IsTrue result ↔ KeepsSize entry.now.tag entry.now.size }
{
    let tag = Tag(entry.tag);
    if !tag.is_valid() || !tag.is_data() {
        return true;
    }
    entry.size <= PAGE_BYTES
}

/// A valid entry's shadow is none or one of the 16, and a data entry has none.
fn keeps_shadow(entry: &Entry) -> bool
    ensures { IsTrue result ↔ KeepsShadow entry.now.tag entry.now.shadow }
{
    let tag = Tag(entry.tag);
    if !tag.is_valid() {
        return true;
    }
    if tag.is_data() {
        return entry.shadow == 0;
    }
    entry.shadow <= SHADOWS
}

// ---- what no two entries share

/// Whether no two valid entries have the same block.
fn are_blocks_apart<M: Machine>(m: &M) -> bool
    requires layout { HasLayout (M.contents m.now).words (M.run m.now).scratch }
    ensures { IsTrue result ↔ BlockRule (M.contents m.now).words }
{
    let mut marks = [0; MARK_WORDS];
    all_take_blocks(m, &mut marks)
}

/// Whether each valid entry has a block that none before it has. No block is marked yet.
#[tactic(auto, using(crate::proofs::ImageRules::free_before, crate::proofs::ImageRules::all_blocks))]
fn all_take_blocks<M: Machine>(m: &M, marks: &mut [u64]) -> bool
    requires layout { HasLayout (M.contents m.now).words (M.run m.now).scratch }
    requires marks { MarksBefore (M.contents m.now).words 0 MOST_BLOCKS marks.old }
    ensures { IsTrue result ↔ BlockRule (M.contents m.now).words }
{
    for k in 0..frame_count(m) {
        if !takes_block(m, k, marks) {
            return false;
        }
    }
    true
}

/// Whether entry `k` isn't valid, or has a block that no valid entry before it has. The blocks of those are marked, and its
/// own then too. A block that has no mark is looked for.
fn takes_block<M: Machine>(m: &M, k: u32, marks: &mut [u64]) -> bool
    requires layout { HasLayout (M.contents m.now).words (M.run m.now).scratch }
    requires entry { k < frames_of (M.contents m.now).words }
    requires marks { MarksBefore (M.contents m.now).words k MOST_BLOCKS marks.old }
    ensures takes { IsTrue result ↔ (IsValid (M.contents m.now).words k → IsFreeBefore (M.contents m.now).words k (tag_block (tag_at (M.contents m.now).words k))) }
    ensures marks { result ≡ true → MarksBefore (M.contents m.now).words (k + 1) MOST_BLOCKS marks.new }
{
    let tag = load_tag(m, k);
    if !tag.is_valid() {
        return true;
    }
    let block = tag.block();
    if block.0 >= MOST_BLOCKS {
        return is_free_before(m, k, block);
    }
    if is_marked(marks, block) {
        return false;
    }
    mark(marks, block);
    true
}

/// Whether the block is marked.
fn is_marked(marks: &[u64], block: Block) -> bool
    requires within { block.0 < 64 * length marks.now }
    ensures { result ≡ (block_mark marks.now block.0 == 1) }
{
    (marks[(block.0 / 64) as usize] >> (block.0 % 64)) & 1 == 1
}

/// Marks the block.
fn mark(marks: &mut [u64], block: Block)
    requires within { block.0 < 64 * length marks.old }
    ensures marked { (b : ℕ) → block_mark marks.new b ≡ (if b == block.0 then 1 else block_mark marks.old b) }
    ensures len { length marks.new ≡ length marks.old }
{
    let place = (block.0 / 64) as usize;
    marks[place] = marks[place] | (1 << (block.0 % 64));
}

/// Whether no valid entry before the `n`th has the block.
fn is_free_before<M: Machine>(m: &M, n: u32, block: Block) -> bool
    requires layout { HasLayout (M.contents m.now).words (M.run m.now).scratch }
    requires entries { n ≤ frames_of (M.contents m.now).words }
    ensures { IsTrue result ↔ IsFreeBefore (M.contents m.now).words n block.0 }
{
    for j in 0..n {
        let tag = load_tag(m, j);
        if tag.is_valid() && tag.block() == block {
            return false;
        }
    }
    true
}

/// Whether no two valid entries have the same shadow.
#[tactic(auto, using(crate::proofs::ImageRules::unused_before, crate::proofs::ImageRules::all_shadows))]
fn are_shadows_apart<M: Machine>(m: &M) -> bool
    requires layout { HasLayout (M.contents m.now).words (M.run m.now).scratch }
    ensures { IsTrue result ↔ ShadowsApart (M.contents m.now).words }
{
    for k in 0..frame_count(m) {
        let entry = read_entry(m, k);
        let has_shadow = Tag(entry.tag).is_valid() && entry.shadow != 0;
        if has_shadow && !is_unused_before(m, k, entry.shadow) {
            return false;
        }
    }
    true
}

/// Whether no valid entry before the `n`th has the shadow.
fn is_unused_before<M: Machine>(m: &M, n: u32, shadow: u64) -> bool
    requires layout { HasLayout (M.contents m.now).words (M.run m.now).scratch }
    requires entries { n ≤ frames_of (M.contents m.now).words }
    ensures { IsTrue result ↔ IsUnusedBefore (M.contents m.now).words n shadow }
{
    for j in 0..n {
        let entry = read_entry(m, j);
        if Tag(entry.tag).is_valid() && entry.shadow == shadow {
            return false;
        }
    }
    true
}
