//! Entries of directories, and rule 8: each has a name that a path may have, and names a used inode.

ghost use Rattle.std.specs.Prelude.{◌≡◌, ◌↔◌, ◌+◌, ◌*◌, ◌/◌, ◌%◌, ◌^◌, ◌<◌, ◌≤◌, ℕ, IfErr, IfOk, IsTrue, drop, length, slice_index, take};
ghost use Rattle.rio_base.specs.Bytes.{bytes_of};
ghost use Rattle.rio_base.specs.Layout.{IsIno};
ghost use Rattle.rio_model.specs.Held.{held_of};
ghost use Rattle.rio_model.specs.Paths.{IsName};
ghost use Rattle.rio_model.specs.VolumeRules.{IsMapped, EntryAt};
ghost use Rattle.volume_check.specs.Entries.{HasEntries, KeepsEntry, ino_in, kind_in, name_in};
ghost use Rattle.volume_check.specs.Looking.{CanLook, Looked, Refuses};
ghost use Rattle.volume_check.specs.Inodes.{HasInodes, said};

use crate::failures::CheckFail;
use crate::inode_rules::DIRECTORY;
use crate::inodes::Inodes;
use crate::node_words::read_front;
use crate::numbers::page_count;
use byteorder::{ByteOrder, LittleEndian};
use rio_base::{Blocks, Ino};
use rio_model::is_name;
use std::alloc::Global;

/// Words of an entry.
pub(crate) const ENTRY_WORDS: usize = 8;

/// Bytes that a name has at most.
pub(crate) const NAME_BYTES: usize = 56;

/// The length of the name of an entry, by its first word.
pub(crate) fn name_length(word: u64) -> usize
    ensures { result ≡ word / 2 ^ 32 % 2 ^ 8 }
{
    (word >> 32) as usize % 256
}

/// The number of the inode that entry `j` names.
pub(crate) fn named_ino(words: &[u64], j: usize) -> Ino
    requires { 8 * j < length words.now }
    ensures { result.0 ≡ ino_in (slice_index words.now) j }
{
    Ino((words[ENTRY_WORDS * j] % (1 << 32)) as u32)
}

/// The words of directory `i`, eight for each entry.
pub(crate) fn read_entries<V: Blocks>(
    alloc: Global,
    v: &mut V,
    inodes: &Inodes,
    i: Ino,
) -> Result<Vec<u64>, CheckFail>
    requires can { CanLook V.seen V.sound V.passes v.old }
    requires inodes { HasInodes (V.seen v.old) inodes.now }
    requires mapped { IsMapped inodes.now.shape (V.seen v.old).words }
    requires ino { IsIno inodes.now.shape i.0 }
    requires directory { said inodes.now i.0 0 ≡ 1 }
    ensures words { IfOk result (λ words. HasEntries (held_of inodes.now.shape (V.seen v.old).words i.0) words.items) }
    ensures unrefused { IfErr result (Refuses (λ _ _. ⊥)) }
    ensures looked { Looked V.seen V.health V.sound V.passes v.old v.new result }
{
    let size = inodes.size(i);
    let mut words = read_front(alloc, v, inodes, i, page_count(size))?;
    words.truncate((size / 8) as usize);
    Ok(words)
}

/// The bytes of entry `j` that a name may have.
pub(crate) fn name_bytes(words: &[u64], j: usize) -> [u8; NAME_BYTES]
    requires { 8 * j + 8 ≤ length words.now }
    ensures { result ≡ bytes_of (take 7 (drop (8 * j + 1) words.now)) }
{
    let at = ENTRY_WORDS * j;
    let mut bytes = [0; NAME_BYTES];
    LittleEndian::write_u64_into(&words[at + 1..at + ENTRY_WORDS], &mut bytes);
    bytes
}

/// Whether entry `j` has a name that a path may have.
fn is_named(words: &[u64], j: usize) -> bool
    requires { 8 * j + 8 ≤ length words.now }
    ensures { IsTrue result ↔ IsName (name_in (slice_index words.now) j) }
{
    let len = name_length(words[ENTRY_WORDS * j]);
    if len > NAME_BYTES {
        return false;
    }
    is_name(&name_bytes(words, j)[..len])
}

/// Whether a number is that of a used inode.
fn is_used(inodes: &Inodes, i: Ino) -> bool
    ensures { IsTrue result ↔ (0 < kind_in inodes.now i.0) }
{
    if i.0 < 1 {
        return false;
    }
    if inodes.shape.inodes < i.0 {
        return false;
    }
    inodes.kind(i) != 0
}

/// Whether these entries each have a name that a path may have, and name a used inode.
fn are_entries(inodes: &Inodes, words: &[u64]) -> bool
    ensures { IsTrue result ↔ ((j : ℕ) → 8 * j + 8 ≤ length words.now → KeepsEntry inodes.now (slice_index words.now) j) }
{
    for j in 0..words.len() / ENTRY_WORDS {
        if !is_named(words, j) {
            return false;
        }
        if !is_used(inodes, named_ino(words, j)) {
            return false;
        }
    }
    true
}

/// Whether the entries of inode `i`, if it is a directory, keep rule 8.
pub(crate) fn keeps_entries<V: Blocks>(
    alloc: Global,
    v: &mut V,
    inodes: &Inodes,
    i: Ino,
) -> Result<bool, CheckFail>
    requires can { CanLook V.seen V.sound V.passes v.old }
    requires inodes { HasInodes (V.seen v.old) inodes.now }
    requires mapped { IsMapped inodes.now.shape (V.seen v.old).words }
    requires ino { IsIno inodes.now.shape i.0 }
    ensures keeps { IfOk result (λ keeps. IsTrue keeps ↔ EntryAt (held_of inodes.now.shape (V.seen v.old).words) i.0) }
    ensures unrefused { IfErr result (Refuses (λ _ _. ⊥)) }
    ensures looked { Looked V.seen V.health V.sound V.passes v.old v.new result }
{
    if inodes.kind(i) != DIRECTORY {
        return Ok(true);
    }
    let words = read_entries(alloc, v, inodes, i)?;
    Ok(are_entries(inodes, &words))
}
