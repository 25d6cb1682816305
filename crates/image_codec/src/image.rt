//! The image: its words as bytes, and the rules of its header.

ghost use Rattle.std.specs.Prelude.{◌≡◌, ◌≢◌, ◌<◌, ◌≤◌, ◌↔◌, ℕ, ◌+◌, ◌*◌, ◌%◌, ◌^◌, length, slice_index, take, codes, IfOk, IsTrue, List, Err, MatchResult, All};
ghost use Rattle.rio_base.specs.Bytes.{bytes_of, word_at};
ghost use Rattle.image_codec.specs.Image.{FailsFirst, HasGeometry, IsImage, IsImageLength, KeepsRules, fresh_image_words};
ghost use Rattle.rio_base.specs.Image.{AreImageSizes, entry_at, image_pages};
ghost use Rattle.image_codec.specs.declared.fault.ImageFault.{ImageFault as Fault};

use crate::fault::ImageFault;
use byteorder::{ByteOrder, LittleEndian};
use rio_base::{IMAGE_MAGIC, PAGE_BYTES};
use std::alloc::{AllocError, Global};

/// The version of the image's layout.
const IMAGE_VERSION: u64 = 1;

/// Words of a page.
const PAGE_WORDS: u64 = 512;

/// The pages of an image with so many frames and scratch pages.
#[tactic(auto, using(crate::proofs::Fresh::registry_pages_are))]
fn pages_of(frames: u64, scratch: u64) -> u64
    requires frames { frames ≤ 8192 }
    requires scratch { scratch ≤ 64 }
    ensures pages { result ≡ image_pages frames scratch }
    ensures least { AreImageSizes frames scratch → 51 ≤ result }
    ensures most { result ≤ 8354 }
{
    17 + (frames + 101) / 102 + frames + scratch
}

/// Whether an image can have so many bytes.
fn is_image_length(size: usize) -> bool
    ensures { IsTrue result ↔ IsImageLength size }
{
    size % 4096 == 0 && 51 * 4096 <= size && size <= 8354 * 4096
}

/// Whether the header's sizes are an image's, and make so many bytes.
fn has_geometry(frames: u64, scratch: u64, size: usize) -> bool
    ensures { IsTrue result ↔ HasGeometry frames scratch size }
{
    let in_range = (32..=8192).contains(&frames) && (1..=64).contains(&scratch);
    in_range && size as u64 == PAGE_BYTES * pages_of(frames, scratch)
}

/// Looks at the header's rules in their order.
fn check_header(bytes: &[u8]) -> Result<(), ImageFault>
    ensures { MatchResult result (λ _. KeepsRules bytes.now) (λ fault. (fault ≢ Fault.Memory) × FailsFirst bytes.now fault) }
{
    if !is_image_length(bytes.len()) {
        return Err(ImageFault::BadLength);
    }
    if LittleEndian::read_u64(bytes) != IMAGE_MAGIC {
        return Err(ImageFault::BadMagic);
    }
    if LittleEndian::read_u64(&bytes[8..]) != IMAGE_VERSION {
        return Err(ImageFault::BadVersion);
    }
    let frames = LittleEndian::read_u64(&bytes[16..]);
    let scratch = LittleEndian::read_u64(&bytes[24..]);
    if !has_geometry(frames, scratch, bytes.len()) {
        return Err(ImageFault::BadGeometry);
    }
    Ok(())
}

/// Puts the words of bytes into `into`.
fn fill_words(bytes: &[u8], into: &mut [u64])
    requires { length bytes.now ≡ 8 * length into.old }
    ensures bytes { bytes.now ≡ bytes_of into.new }
    ensures words { (k : ℕ) → k < length into.new → slice_index into.new k ≡ word_at bytes.now k }
{
    LittleEndian::read_u64_into(bytes, into);
}

/// The words of a number of bytes that is a multiple of 8.
fn words_of(alloc: Global, bytes: &[u8]) -> Result<Vec<u64>, AllocError>
    requires { length bytes.now % 8 ≡ 0 }
    ensures bytes { IfOk result (λ words. bytes.now ≡ bytes_of words.items) }
    ensures words { IfOk result (λ words. (k : ℕ) → k < length words.items → slice_index words.items k ≡ word_at bytes.now k) }
{
    let mut words = vec![in alloc; 0u64; bytes.len() / 8]?;
    fill_words(bytes, &mut words);
    Ok(words)
}

/// The words of an image file, and an image that keeps the rules of the header. A fault names the first rule that fails;
/// [`ImageFault::Memory`] comes only where none does.
pub fn read_image(alloc: Global, bytes: &[u8]) -> Result<Vec<u64>, ImageFault>
    ensures words { IfOk result (λ words. (bytes.now ≡ bytes_of words.items) × IsImage words.items) }
    ensures faults { (fault : Fault) → fault ≢ Fault.Memory → (result ≡ Err fault ↔ FailsFirst bytes.now fault) }
    ensures memory { result ≡ Err Fault.Memory → KeepsRules bytes.now }
    ensures only { (words : List ℕ) → All (λ w. w < 2 ^ 64) words → bytes.now ≡ bytes_of words → IsImage words → MatchResult result (λ read. read.items ≡ words) (λ fault. fault ≡ Fault.Memory) }
{
    check_header(bytes)?;
    Ok(words_of(alloc, bytes)?)
}

/// Puts the bytes of words into `into`, which has 8 for each word. It takes no memory.
pub fn fill_image(words: &[u64], into: &mut [u8])
    requires { length into.old ≡ 8 * length words.now }
    ensures { into.new ≡ bytes_of words.now }
{
    LittleEndian::write_u64_into(words, into);
}

/// The bytes of words, the lowest byte of each first.
pub fn write_image(alloc: Global, words: &[u64]) -> Result<Vec<u8>, AllocError>
    ensures { IfOk result (λ bytes. bytes.items ≡ bytes_of words.now) }
{
    let mut bytes = vec![in alloc; 0u8; 8 * words.len()]?;
    fill_image(words, &mut bytes);
    Ok(bytes)
}

/// The words of an image with no cached page: the header with its sizes, and zeros. `frames` is from 32 to 8,192, and
/// `scratch` from 1 to 64.
pub fn fresh_image(alloc: Global, frames: u32, scratch: u32) -> Result<Vec<u64>, AllocError>
    requires { AreImageSizes frames scratch }
    ensures value { IfOk result (λ words. words.items ≡ fresh_image_words frames scratch) }
    ensures image { IfOk result (λ words. IsImage words.items) }
    ensures text { IfOk result (λ words. take 8 (bytes_of words.items) ≡ codes "RIOCACHE") }
    ensures empty { IfOk result (λ words. (k : ℕ) → k < frames → slice_index words.items (entry_at k) ≡ 0) }
{
    let frames = frames as u64;
    let scratch = scratch as u64;
    let mut words = vec![in alloc; 0u64; (PAGE_WORDS * pages_of(frames, scratch)) as usize]?;
    words[0] = IMAGE_MAGIC;
    words[1] = IMAGE_VERSION;
    words[2] = frames;
    words[3] = scratch;
    Ok(words)
}
