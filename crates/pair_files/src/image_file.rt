//! The file of an image, read whole.

ghost use Rattle.std.specs.Prelude.{◌≡◌, ◌<◌, ◌≤◌, ◌^◌, ℕ, Some, IfOk, IfErr, length, take, slice_index};
ghost use Rattle.std.specs.String.{string_bytes};
ghost use Rattle.rio_base.specs.Failures.{HasCause, Rose};
ghost use Rattle.rio_base.specs.Hosts.{HasSize, IsFile};
ghost use Rattle.pair_files.specs.Images.{IsImageOf};
ghost use Rattle.pair_files.specs.Loads.{FailsBytes, IsImageLoaded, IsImageRead, MissesImage};

use crate::failures::LoadFail;
use crate::image_rules::check_words;
use crate::names::PairFile;
use image_codec::{ImageFault, read_image};
use rio_base::{Failed, Host, read_from};
use rio_model::ImageRule;
use std::alloc::{AllocError, Global};

/// The bytes of the longest image: 8,354 pages.
const LONGEST_IMAGE: u64 = 34_217_984;

/// The place of the number of scratch pages in an image's words.
const SCRATCH_AT: usize = 3;

/// An image that was loaded.
#[derive(Drop)]
pub struct PairImage {
    /// The bytes of its file. An image is saved by way of them, so that saving takes no memory.
    pub bytes: Vec<u8>,
    /// Its words: those of the protected pages, and then those of the scratch pages.
    pub words: Vec<u64>,
    /// How many pages are scratch, from 1 to 64.
    pub scratch: u32,
}

/// Loads the image that is this file, which keeps the rules 1 to 12. The file is not changed.
pub fn load_image<H: Host>(
    alloc: Global,
    name: &String,
    host: &mut H,
) -> Result<PairImage, LoadFail>
    ensures files { H.files host.new ≡ H.files host.old }
    ensures loaded { IfOk result (λ image. IsImageLoaded (H.files host.old) (string_bytes name.now) image.bytes.items image.words.items image.scratch) }
    ensures fails { IfErr result (λ fail. MissesImage fail (string_bytes name.now) (Rose (H.faults host.old) (H.faults host.new)) (H.files host.old)) }
    ensures later { H.faults host.old ≤ H.faults host.new }
{
    let size = find_size(name, host)?;
    if size > LONGEST_IMAGE {
        return Err(LoadFail::BadImage(ImageRule::Length as u8));
    }
    let bytes = read_file(alloc, name, size as usize, host)?;
    image_of(alloc, bytes)
}

/// How many bytes the file has, or why that isn't told.
fn find_size<H: Host>(name: &String, host: &mut H) -> Result<u64, LoadFail>
    ensures files { H.files host.new ≡ H.files host.old }
    ensures size { IfOk result (λ size. HasSize (H.files host.old) (string_bytes name.now) (Some size)) }
    ensures fails { IfErr result (λ fail. MissesImage fail (string_bytes name.now) (Rose (H.faults host.old) (H.faults host.new)) (H.files host.old)) }
    ensures later { H.faults host.old ≤ H.faults host.new }
{
    match host.size(name) {
        Ok(Some(size)) => Ok(size),
        Ok(None) => Err(LoadFail::Absent(PairFile::Image)),
        Err(_) => Err(LoadFail::Fault(PairFile::Image)),
    }
}

/// All bytes of a file that has so many.
fn read_file<H: Host>(
    alloc: Global,
    name: &String,
    size: usize,
    host: &mut H,
) -> Result<Vec<u8>, LoadFail>
    requires { HasSize (H.files host.old) (string_bytes name.now) (Some size) }
    ensures files { H.files host.new ≡ H.files host.old }
    ensures bytes { IfOk result (λ bytes. IsFile (H.files host.old) (string_bytes name.now) bytes.items) }
    ensures fails { IfErr result (λ fail. MissesImage fail (string_bytes name.now) (Rose (H.faults host.old) (H.faults host.new)) (H.files host.old)) }
    ensures later { H.faults host.old ≤ H.faults host.new }
{
    let Ok(mut bytes) = zeros(alloc, size) else {
        return Err(LoadFail::Memory);
    };
    match read_into(name, bytes.as_mut_slice(), host) {
        Ok(count) => {
            bytes.truncate(count);
            Ok(bytes)
        }
        Err(_) => Err(LoadFail::Fault(PairFile::Image)),
    }
}

/// So many bytes.
fn zeros(alloc: Global, size: usize) -> Result<Vec<u8>, AllocError>
    ensures { IfOk result (λ bytes. length bytes.items ≡ size) }
{
    vec![in alloc; 0u8; size]
}

/// Reads a file into a room that is as long, and answers how many bytes came. Fewer come where the file was made shorter
/// meanwhile. An empty file isn't asked for bytes.
#[tactic(auto, using(crate::proofs::WholeFiles::all_read, crate::proofs::WholeFiles::none_read))]
fn read_into<H: Host>(name: &String, into: &mut [u8], host: &mut H) -> Result<usize, Failed>
    requires { HasSize (H.files host.old) (string_bytes name.now) (Some (length into.old)) }
    ensures files { H.files host.new ≡ H.files host.old }
    ensures bytes { IfOk result (λ n. IsFile (H.files host.old) (string_bytes name.now) (take n into.new)) }
    ensures bound { IfOk result (λ n. n ≤ length into.new) }
    ensures room { length into.new ≡ length into.old }
    ensures cause { HasCause result (H.faults host.old) (H.faults host.new) }
{
    if into.is_empty() {
        return Ok(0);
    }
    read_from(name, 0, into, host)
}

/// The image of a file that has these bytes, or why it is none.
fn image_of(alloc: Global, bytes: Vec<u8>) -> Result<PairImage, LoadFail>
    ensures bytes { IfOk result (λ image. image.bytes.items ≡ bytes.items) }
    ensures read { IfOk result (λ image. IsImageRead bytes.items image.words.items image.scratch) }
    ensures fails { IfErr result (λ fail. FailsBytes fail bytes.items) }
{
    let words = words_of(alloc, bytes.as_slice())?;
    let scratch = words[SCRATCH_AT] as u32;
    check_words(alloc, &words, scratch)?;
    Ok(PairImage {
        bytes,
        words,
        scratch,
    })
}

/// The words of a file that has these bytes, where they keep the rules of the header.
fn words_of(alloc: Global, bytes: &[u8]) -> Result<Vec<u64>, LoadFail>
    ensures words { IfOk result (λ words. IsImageOf bytes.now words.items) }
    ensures fails { IfErr result (λ fail. FailsBytes fail bytes.now) }
{
    match read_image(alloc, bytes) {
        Ok(words) => {
            words_fit(words.as_slice());
            Ok(words)
        }
        Err(ImageFault::BadLength) => Err(LoadFail::BadImage(ImageRule::Length as u8)),
        Err(ImageFault::BadMagic) => Err(LoadFail::BadImage(ImageRule::Magic as u8)),
        Err(ImageFault::BadVersion) => Err(LoadFail::BadImage(ImageRule::Version as u8)),
        Err(ImageFault::BadGeometry) => Err(LoadFail::BadImage(ImageRule::Geometry as u8)),
        Err(ImageFault::Memory) => Err(LoadFail::Memory),
    }
}

/// Words have 64 bits.
fn words_fit(words: &[u64])
    ensures { (i : ℕ) → slice_index words.now i < 2 ^ 64 }
{}
