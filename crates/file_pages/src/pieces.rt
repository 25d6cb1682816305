//! Bytes stored in one page: whole words as they are, and words at both ends with the page's own bytes around them.

ghost use Rattle.std.specs.Prelude.{◌≡◌, ◌+◌, ◌-◌, ◌*◌, ◌/◌, ◌%◌, ◌<◌, ◌≤◌, ◌⊎◌, ℕ, true, false, Some, length, IfOk, OnOk, IsErrOf};
ghost use Rattle.rio_base.specs.Blocks.{CanName, Caches, Ends, EndsBy, IsPlace, Looks};
ghost use Rattle.rio_base.specs.Volume.{CachesStored, Firm, Goes, SameBut};
ghost use Rattle.rio_model.specs.Held.{byte_of};
ghost use Rattle.node_pages.specs.WordBytes.{list_byte, over};
ghost use Rattle.file_pages.specs.PageBytes.{EndsHave, PutsBytes, bytes_stored};

use crate::failures::BytesFail;
use byteorder::{ByteOrder, LittleEndian};
use rio_base::{Block, Blocks, PageName, RunFail, VolFail, Volume};

/// Words that 1 KiB takes at any place. For these a small room is cleared, and no whole page.
const FEW_WORDS: usize = 129;

/// Words that 64 bytes take at any place.
const LEAST_WORDS: usize = 9;

/// Puts bytes over those of a word, from its byte `at` on.
fn put_in_word(word: u64, at: usize, bytes: &[u8]) -> u64
    requires { at + length bytes.now ≤ 8 }
    ensures { (y : ℕ) → y < 8 → byte_of result y ≡ over (byte_of word) at bytes.now (length bytes.now) y }
{
    let mut line = word.to_le_bytes();
    line[at..at + bytes.len()].copy_from_slice(bytes);
    u64::from_le_bytes(line)
}

/// The words that `bytes` make from the beginning of a word on. Where they leave some of the last it has the page's own
/// bytes there: it is given as it was.
fn fill_rest(last: u64, bytes: &[u8], words: &mut [u64])
    requires room { length words.old ≡ (length bytes.now + 7) / 8 }
    ensures len { length words.new ≡ length words.old }
    ensures bytes { (y : ℕ) → y < 8 * length words.old → list_byte words.new y ≡ over (λ x. byte_of last (x % 8)) 0 bytes.now (length bytes.now) y }
{
    let whole = bytes.len() / 8;
    let tail = 8 * whole;
    LittleEndian::read_u64_into(&bytes[..tail], &mut words[..whole]);
    if tail < bytes.len() {
        words[whole] = put_in_word(last, 0, &bytes[tail..]);
    }
}

/// The words that `bytes` make from byte `at` of a page on. Where they leave some of the first or the last word it has the
/// page's own bytes there: it is given as it was. `words` has as many as the bytes lie in.
pub fn fill_words(first: u64, last: u64, at: usize, bytes: &[u8], words: &mut [u64])
    requires some { 0 < length bytes.now }
    requires within { at + length bytes.now ≤ 4096 }
    requires room { length words.old ≡ (at + length bytes.now + 7) / 8 - at / 8 }
    ensures len { length words.new ≡ length words.old }
    ensures bytes { (was : ℕ → ℕ) → EndsHave was (at % 8) (length bytes.now) (length words.old) first last → (y : ℕ) → y < 8 * length words.old → list_byte words.new y ≡ over was (at % 8) bytes.now (length bytes.now) y }
{
    let skip = at % 8;
    if skip == 0 {
        fill_rest(last, bytes, words);
        return;
    }
    let head = (8 - skip).min(bytes.len());
    words[0] = put_in_word(first, skip, &bytes[..head]);
    fill_rest(last, &bytes[head..], &mut words[1..]);
}

/// Whether bytes leave some of the word that they begin in.
fn keeps_first(at: usize, len: usize) -> bool
    ensures { (0 < at % 8) ⊎ (len < 8) → result ≡ true }
{
    if len < 8 {
        return true;
    }
    at % 8 > 0
}

/// A word of a block, read only where it is needed.
#[tactic(auto, using(rio_base::proofs::BlockRules::caches_refl, rio_base::proofs::Rules::looks_refl))]
fn own_word<V: Blocks>(
    v: &mut V,
    b: Block,
    name: PageName,
    w: u16,
    needed: bool,
) -> Result<u64, VolFail>
    requires sound { V.sound v.old }
    requires place { IsPlace (V.seen v.old) b.0 w }
    requires name { CanName (V.seen v.old) b.0 (Some name) }
    ensures value { IfOk result (λ word. needed ≡ true → word ≡ (V.seen v.old).words b.0 w) }
    ensures looks { Looks (V.seen v.old) (V.seen v.new) }
    ensures caches { Caches (V.seen v.old) (V.seen v.new) b.0 (Some name) }
    ensures passes { V.passes v.old v.new }
    ensures ends { Ends (V.health v.old) (V.health v.new) result }
    ensures sound { V.sound v.new }
{
    if !needed {
        return Ok(0);
    }
    v.word(b, Some(name), w)
}

/// The words in which `len` bytes from byte `at` of a block on begin and end. Either is read where the bytes leave some of
/// it.
fn end_words<V: Blocks>(
    v: &mut V,
    b: Block,
    name: PageName,
    at: usize,
    len: usize,
) -> Result<(u64, u64), VolFail>
    requires sound { V.sound v.old }
    requires block { b.0 < (V.seen v.old).count }
    requires name { CanName (V.seen v.old) b.0 (Some name) }
    requires some { 0 < len }
    requires within { at + len ≤ 4096 }
    ensures first { IfOk result (λ pair. (0 < at % 8) ⊎ (len < 8) → pair.0 ≡ (V.seen v.old).words b.0 (at / 8)) }
    ensures last { IfOk result (λ pair. 0 < (at + len) % 8 → pair.1 ≡ (V.seen v.old).words b.0 ((at + len - 1) / 8)) }
    ensures looks { Looks (V.seen v.old) (V.seen v.new) }
    ensures caches { Caches (V.seen v.old) (V.seen v.new) b.0 (Some name) }
    ensures passes { V.passes v.old v.new }
    ensures ends { Ends (V.health v.old) (V.health v.new) result }
    ensures sound { V.sound v.new }
{
    let end = at + len;
    let first = own_word(v, b, name, (at / 8) as u16, keeps_first(at, len))?;
    let last = own_word(v, b, name, ((end - 1) / 8) as u16, end % 8 > 0)?;
    Ok((first, last))
}

/// Stores bytes as [`store_piece`] does, by way of as many words as they touch.
fn store_words<V: Volume>(
    v: &mut V,
    b: Block,
    name: PageName,
    at: usize,
    bytes: &[u8],
    words: &mut [u64],
) -> Result<(), BytesFail>
    requires sound { V.sound v.old }
    requires block { b.0 < (V.seen v.old).count }
    requires name { CanName (V.seen v.old) b.0 (Some name) }
    requires idle { (V.kept v.old).updating ≡ false }
    requires some { 0 < length bytes.now }
    requires within { at + length bytes.now ≤ 4096 }
    requires room { length words.old ≡ (at + length bytes.now + 7) / 8 - at / 8 }
    ensures ok { OnOk result (PutsBytes (V.seen v.old).words (V.seen v.new).words b.0 at bytes.now (length bytes.now)) }
    ensures fault { (k : ℕ) → IsErrOf result (BytesFail.Fault k) → (k ≤ length bytes.now) × PutsBytes (V.seen v.old).words (V.seen v.new).words b.0 at bytes.now k }
    ensures front { (k : ℕ) × (k ≤ length bytes.now) × PutsBytes (V.seen v.old).words (V.seen v.new).words b.0 at bytes.now k }
    ensures standing { SameBut b.0 (V.kept v.old).standing (V.kept v.new).standing }
    ensures firm { Firm (V.kept v.old) (V.kept v.new) }
    ensures count { (V.seen v.new).count ≡ (V.seen v.old).count }
    ensures caches { CachesStored (V.seen v.old) (V.seen v.new) b.0 (Some name) }
    ensures idle { (V.kept v.new).updating ≡ false }
    ensures goes { Goes (V.health v.old) (V.below v.old) (V.health v.new) (V.below v.new) }
    ensures ends { EndsBy (V.health v.old) (V.health v.new) ((k : ℕ) × IsErrOf result (BytesFail.Fault k)) (IsErrOf result BytesFail.Stopped) }
    ensures sound { V.sound v.new }
{
    let from = at / 8;
    let (first, last) = end_words(v, b, name, at, bytes.len())?;
    fill_words(first, last, at, bytes, words);
    match v.store_run(b, Some(name), from as u16, words) {
        Ok(()) => Ok(()),
        Err(RunFail::Fault(n)) => Err(BytesFail::Fault(stored_bytes(at, bytes.len(), n as usize))),
        Err(RunFail::Stopped) => Err(BytesFail::Stopped),
    }
}

/// Stores bytes in a block from its byte `at` on, under the name of the page that it is.
pub fn store_piece<V: Volume>(
    v: &mut V,
    b: Block,
    name: PageName,
    at: usize,
    bytes: &[u8],
) -> Result<(), BytesFail>
    requires sound { V.sound v.old }
    requires block { b.0 < (V.seen v.old).count }
    requires name { CanName (V.seen v.old) b.0 (Some name) }
    requires idle { (V.kept v.old).updating ≡ false }
    requires some { 0 < length bytes.now }
    requires within { at + length bytes.now ≤ 4096 }
    ensures ok { OnOk result (PutsBytes (V.seen v.old).words (V.seen v.new).words b.0 at bytes.now (length bytes.now)) }
    ensures fault { (k : ℕ) → IsErrOf result (BytesFail.Fault k) → (k ≤ length bytes.now) × PutsBytes (V.seen v.old).words (V.seen v.new).words b.0 at bytes.now k }
    ensures front { (k : ℕ) × (k ≤ length bytes.now) × PutsBytes (V.seen v.old).words (V.seen v.new).words b.0 at bytes.now k }
    ensures standing { SameBut b.0 (V.kept v.old).standing (V.kept v.new).standing }
    ensures firm { Firm (V.kept v.old) (V.kept v.new) }
    ensures count { (V.seen v.new).count ≡ (V.seen v.old).count }
    ensures caches { CachesStored (V.seen v.old) (V.seen v.new) b.0 (Some name) }
    ensures idle { (V.kept v.new).updating ≡ false }
    ensures goes { Goes (V.health v.old) (V.below v.old) (V.health v.new) (V.below v.new) }
    ensures ends { EndsBy (V.health v.old) (V.health v.new) ((k : ℕ) × IsErrOf result (BytesFail.Fault k)) (IsErrOf result BytesFail.Stopped) }
    ensures sound { V.sound v.new }
{
    let count = (at + bytes.len()).div_ceil(8) - at / 8;
    if count <= LEAST_WORDS {
        let mut words = [0; LEAST_WORDS];
        store_words(v, b, name, at, bytes, &mut words[..count])
    } else if count <= FEW_WORDS {
        let mut words = [0; FEW_WORDS];
        store_words(v, b, name, at, bytes, &mut words[..count])
    } else {
        let mut words = [0; 512];
        store_words(v, b, name, at, bytes, &mut words[..count])
    }
}

/// How many of `len` bytes from byte `at` of a page on are stored, where the first `n` words are.
pub fn stored_bytes(at: usize, len: usize, n: usize) -> u64
    requires within { at + len ≤ 4096 }
    requires few { n ≤ 512 }
    ensures { result ≡ bytes_stored at len n }
{
    (8 * (at / 8 + n)).saturating_sub(at).min(len) as u64
}
