//! Entries of a directory, eight words each: the inode and the length of the name in the first, the name's bytes in the
//! others. Bytes behind the name are not looked at.

ghost use Rattle.std.specs.Prelude.{◌≡◌, ◌≢◌, ◌+◌, ◌-◌, ◌*◌, ◌^◌, ◌/◌, ◌%◌, ◌<◌, ◌≤◌, ℕ, min, true, false, length, slice_index};
ghost use Rattle.directories.specs.Entries.{IsEntryOf, IsKey, IsWordsOf, name_in};

use byteorder::{ByteOrder, LittleEndian};
use rio_base::Ino;

/// Words of an entry.
pub const ENTRY_WORDS: usize = 8;

/// Bytes of an entry.
pub const ENTRY_BYTES: u64 = 64;

/// Entries of a page.
pub const PAGE_ENTRIES: u32 = 64;

/// Bytes that a name has at most.
pub const NAME_BYTES: usize = 56;

/// Words that have the bytes of a name.
const NAME_WORDS: usize = 7;

/// A name as the words of an entry have it, for comparing. The words from the first to the one before `last` are full. Of the
/// last word the name has the bytes under its mask, and of the first word those under its own.
#[derive(Clone, Copy, Debug)]
pub struct NameKey {
    words: [u64; NAME_WORDS],
    first_mask: u64,
    last_mask: u64,
    last: usize,
}

/// The words with the bytes of a name, zeros behind them.
fn name_words(name: &[u8]) -> [u64; NAME_WORDS]
    requires { length name.now ≤ 56 }
    ensures { IsWordsOf name.now result }
{
    let mut line = [0; NAME_BYTES];
    line[..name.len()].copy_from_slice(name);
    let mut words = [0; NAME_WORDS];
    LittleEndian::read_u64_into(&line, &mut words);
    words
}

/// A word with the bits of its first bytes set.
fn mask_of(bytes: usize) -> u64
    ensures { result ≡ 2 ^ (8 * min bytes 8) - 1 }
{
    if bytes >= 8 {
        u64::MAX
    } else {
        (1 << (8 * bytes)) - 1
    }
}

impl NameKey {
    /// The key of a name.
    pub fn new(name: &[u8]) -> NameKey
        requires some { 1 ≤ length name.now }
        requires few { length name.now ≤ 56 }
        ensures { IsKey name.now result }
    {
        let last = (name.len() - 1) / 8;
        NameKey {
            words: name_words(name),
            first_mask: mask_of(name.len()),
            last_mask: mask_of(name.len() - 8 * last),
            last,
        }
    }
}

/// The length of the name of an entry, by its first word.
pub fn name_length(word: u64) -> usize
    ensures { result ≡ word / 2 ^ 32 % 2 ^ 8 }
{
    (word >> 32) as usize % 256
}

/// The inode of an entry, by its first word.
pub fn entry_ino(word: u64) -> Ino
    ensures { result.0 ≡ word % 2 ^ 32 }
{
    Ino((word % (1 << 32)) as u32)
}

/// Whether entry `k` of a page, or of a part of one, has this name.
pub fn has_name(words: &[u64], k: usize, name: &[u8], key: &NameKey) -> bool
    requires len { length words.now ≤ 512 }
    requires entry { 8 * k + 8 ≤ length words.now }
    requires key { IsKey name.now key.now }
    ensures is { result ≡ true → name_in (slice_index words.now) k ≡ name.now }
    ensures not { result ≡ false → name_in (slice_index words.now) k ≢ name.now }
{
    let at = ENTRY_WORDS * k;
    if name_length(words[at]) != name.len() {
        return false;
    }
    if words[at + 1 + key.last] & key.last_mask != key.words[key.last] {
        return false;
    }
    for t in 0..key.last {
        if words[at + 1 + t] != key.words[t] {
            return false;
        }
    }
    true
}

/// Whether entry `k` of a page may have this name, by the first and the last word that it would have.
pub fn may_have_name(words: &[u64], k: usize, name: &[u8], key: &NameKey) -> bool
    requires len { length words.now ≡ 512 }
    requires entry { k < 64 }
    requires key { IsKey name.now key.now }
    ensures not { result ≡ false → name_in (slice_index words.now) k ≢ name.now }
{
    let at = ENTRY_WORDS * k + 1;
    if words[at + key.last] & key.last_mask != key.words[key.last] {
        return false;
    }
    words[at] & key.first_mask == key.words[0]
}

/// Whether none of the four entries of a page from `k` on has this name, by the last word that it would have in each.
pub fn passes_four(words: &[u64], k: usize, name: &[u8], key: &NameKey) -> bool
    requires len { length words.now ≡ 512 }
    requires entries { k + 4 ≤ 64 }
    requires key { IsKey name.now key.now }
    ensures none { result ≡ true → (j : ℕ) → k ≤ j → j < k + 4 → name_in (slice_index words.now) j ≢ name.now }
{
    let at = ENTRY_WORDS * k + 1 + key.last;
    let word = key.words[key.last];
    if words[at] & key.last_mask == word {
        return false;
    }
    if words[at + ENTRY_WORDS] & key.last_mask == word {
        return false;
    }
    if words[at + 2 * ENTRY_WORDS] & key.last_mask == word {
        return false;
    }
    if words[at + 3 * ENTRY_WORDS] & key.last_mask == word {
        return false;
    }
    true
}

/// The words of an entry with this name and inode.
pub fn entry_words(name: &[u8], i: Ino) -> [u64; ENTRY_WORDS]
    requires { length name.now ≤ 56 }
    ensures { IsEntryOf name.now i.0 result }
{
    let words = name_words(name);
    let mut entry = [0; ENTRY_WORDS];
    entry[0] = i.0 as u64 | ((name.len() as u64) << 32);
    entry[1..].copy_from_slice(&words);
    entry
}

/// The first word of an entry with another inode.
fn first_with_ino(word: u64, i: Ino) -> u64
    ensures { result ≡ i.0 + 2 ^ 32 * (word / 2 ^ 32) }
{
    i.0 as u64 | (word >> 32 << 32)
}

/// The words of an entry with another inode.
pub fn with_ino(entry: &[u64; ENTRY_WORDS], i: Ino) -> [u64; ENTRY_WORDS]
    ensures { IsEntryOf (name_in (slice_index entry.now) 0) i.0 result }
{
    let mut other = [0; ENTRY_WORDS];
    other[0] = first_with_ino(entry[0], i);
    other[1..].copy_from_slice(&entry[1..]);
    other
}
