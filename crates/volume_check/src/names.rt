//! Rule 9: no directory has two equal names.

ghost use Rattle.std.specs.Prelude.{◌≡◌, ◌↔◌, ◌+◌, ◌*◌, ◌/◌, ◌%◌, ◌^◌, ◌<◌, ◌≤◌, ℕ, [], IfErr, IfOk, IsTrue, length, map, slice_index, slice_index_or};
ghost use Rattle.std.specs.Cmp.Lexicographic.{slice_cmp};
ghost use Rattle.std.specs.List.{range_with_len};
ghost use Rattle.std.specs.List.Sorted.{IsPermutation, IsSorted};
ghost use Rattle.std.specs.Ordering.{nat_cmp};
ghost use Rattle.rio_base.specs.Layout.{IsIno};
ghost use Rattle.rio_model.specs.Held.{held_of};
ghost use Rattle.rio_model.specs.VolumeRules.{EntryRule, IsMapped, ApartAt};
ghost use Rattle.volume_check.specs.Entries.{AllDiffer, name_in, name_words, padded};
ghost use Rattle.volume_check.specs.Looking.{CanLook, Looked, Refuses};
ghost use Rattle.volume_check.specs.Inodes.{HasInodes};

use crate::entries::{ENTRY_WORDS, NAME_BYTES, name_bytes, name_length, read_entries};
use crate::failures::CheckFail;
use crate::inode_rules::DIRECTORY;
use crate::inodes::Inodes;
use byteorder::{ByteOrder, LittleEndian};
use rio_base::{Blocks, Ino};
use std::alloc::{AllocError, Global};

/// Words that have the bytes of a name.
const NAME_WORDS: usize = ENTRY_WORDS - 1;

/// The words of a name, with zeros behind it. No name has a zero, so different names have different words, and words are
/// compared faster than bytes.
type NameWords = [u64; NAME_WORDS];

/// The bytes of the name of entry `j`, with zeros behind it.
fn padded_name(words: &[u64], j: usize) -> [u8; NAME_BYTES]
    requires entry { 8 * j + 8 ≤ length words.now }
    requires few { slice_index words.now (8 * j) / 2 ^ 32 % 2 ^ 8 ≤ 56 }
    ensures { result ≡ padded (name_in (slice_index words.now) j) }
{
    let mut name = name_bytes(words, j);
    name[name_length(words[ENTRY_WORDS * j])..].fill(0);
    name
}

/// The words of the name of entry `j`, with zeros behind it.
fn name_words(words: &[u64], j: usize) -> NameWords
    requires entry { 8 * j + 8 ≤ length words.now }
    requires few { slice_index words.now (8 * j) / 2 ^ 32 % 2 ^ 8 ≤ 56 }
    ensures { result ≡ name_words (name_in (slice_index words.now) j) }
{
    let mut name = [0; NAME_WORDS];
    LittleEndian::read_u64_into(&padded_name(words, j), &mut name);
    name
}

/// The words of the names of these entries.
fn all_name_words(alloc: Global, words: &[u64]) -> Result<Vec<NameWords>, AllocError>
    requires few { (j : ℕ) → 8 * j + 8 ≤ length words.now → slice_index words.now (8 * j) / 2 ^ 32 % 2 ^ 8 ≤ 56 }
    ensures { IfOk result (λ names. names.items ≡ map (λ j. name_words (name_in (slice_index words.now) j)) (range_with_len 0 (length words.now / 8))) }
{
    let mut names = Vec::with_capacity(alloc, words.len() / ENTRY_WORDS)?;
    for j in 0..words.len() / ENTRY_WORDS {
        names.push(name_words(words, j))?;
    }
    Ok(names)
}

/// Puts names in an order in which equal ones are neighbours.
fn sort_names(names: &mut [NameWords])
    ensures len { length names.new ≡ length names.old }
    ensures all { IsPermutation names.old names.new }
    ensures order { IsSorted (slice_cmp nat_cmp) names.new }
{
    names.sort_unstable_by(|a, b| a.as_slice().cmp(b.as_slice()));
}

/// Whether no name equals the one before it.
fn neighbours_differ(names: &[NameWords]) -> bool
    ensures { IsTrue result ↔ ((k : ℕ) → k + 1 < length names.now → slice_index_or names.now k [] ≡ slice_index_or names.now (k + 1) [] → ⊥) }
{
    for k in 1..names.len() {
        if names[k - 1].as_slice() == names[k].as_slice() {
            return false;
        }
    }
    true
}

/// Whether no two names are equal. They are sorted for it, so that equal ones are neighbours.
fn all_differ(names: &mut [NameWords]) -> bool
    ensures { IsTrue result ↔ AllDiffer names.old }
{
    sort_names(names);
    neighbours_differ(names)
}

/// Whether no two entries of inode `i`, if it is a directory, have one name.
pub(crate) fn keeps_apart<V: Blocks>(
    alloc: Global,
    v: &mut V,
    inodes: &Inodes,
    i: Ino,
) -> Result<bool, CheckFail>
    requires can { CanLook V.seen V.sound V.passes v.old }
    requires inodes { HasInodes (V.seen v.old) inodes.now }
    requires mapped { IsMapped inodes.now.shape (V.seen v.old).words }
    requires entries { EntryRule (held_of inodes.now.shape (V.seen v.old).words) }
    requires ino { IsIno inodes.now.shape i.0 }
    ensures keeps { IfOk result (λ keeps. IsTrue keeps ↔ ApartAt (held_of inodes.now.shape (V.seen v.old).words) i.0) }
    ensures unrefused { IfErr result (Refuses (λ _ _. ⊥)) }
    ensures looked { Looked V.seen V.health V.sound V.passes v.old v.new result }
{
    if inodes.kind(i) != DIRECTORY {
        return Ok(true);
    }
    let words = read_entries(alloc, v, inodes, i)?;
    let mut names = all_name_words(alloc, &words)?;
    Ok(all_differ(&mut names))
}
