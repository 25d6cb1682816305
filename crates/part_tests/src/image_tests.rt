//! What no clause says of the files of a fresh image and a fresh volume: their bytes, and that each call succeeds.

ghost use Rattle.std.specs.Prelude.{IfOk, length, ◌≤◌};
ghost use Rattle.rio_base.specs.Image.{AreImageSizes};
ghost use Rattle.rio_base.specs.Shapes.{IsServed};

use crate::same::same;
use image_codec::{ImageFault, fill_image, fresh_image, fresh_volume, read_image, write_image};
use rio_base::VolumeShape;
use std::alloc::{AllocError, Global};

/// The file of a fresh image.
fn image(alloc: Global, frames: u32, scratch: u32) -> Result<Vec<u8>, AllocError>
    requires { AreImageSizes frames scratch }
{
    write_image(alloc, &fresh_image(alloc, frames, scratch)?)
}

/// The file of a fresh volume.
fn volume(alloc: Global, blocks: u32, inodes: u32) -> Result<Vec<u8>, AllocError>
    requires { IsServed (record { version = 1; blocks = blocks; inodes = inodes }) }
{
    let shape = VolumeShape {
        version: 1,
        blocks,
        inodes,
    };
    write_image(alloc, &fresh_volume(alloc, &shape)?)
}

/// A byte of a file, and its place.
type At = (usize, u8);

/// Puts bytes at their places.
fn put(file: &mut [u8], bytes: &[At]) {
    for &(at, byte) in bytes {
        if at < file.len() {
            file[at] = byte;
        }
    }
}

/// A file of so many bytes that begins with a text and has these bytes at their places. All others are zeros.
fn file_of(alloc: Global, size: usize, text: &[u8], bytes: &[At]) -> Result<Vec<u8>, AllocError> {
    let mut file = vec![in alloc; 0; size]?;
    for at in 0..text.len() {
        put(&mut file, &[(at, text[at])]);
    }
    put(&mut file, bytes);
    Ok(file)
}

/// The first place at which two files differ.
fn difference(came: &[u8], due: &[u8]) -> Option<usize> {
    for at in 0..came.len().max(due.len()) {
        if came.get(at) != due.get(at) {
            return Some(at);
        }
    }
    None
}

/// Why a fresh image of 32 frames and 1 scratch page is refused once it has this size and these bytes.
fn fault_of(alloc: Global, size: usize, changes: &[At]) -> Result<Option<ImageFault>, AllocError> {
    let mut bytes = image(alloc, 32, 1)?;
    bytes.resize(size, 0)?;
    put(&mut bytes, changes);
    Ok(read_image(alloc, &bytes).err())
}

/// The first place at which a file differs from one of so many bytes that begins with a text and has these bytes at their
/// places.
fn difference_from(
    alloc: Global,
    came: &[u8],
    size: usize,
    text: &[u8],
    bytes: &[At],
) -> Result<Option<usize>, AllocError> {
    let due = file_of(alloc, size, text, bytes)?;
    Ok(difference(came, &due))
}

/// What stands in the first file behind its text, other than zeros.
static IMAGE_BYTES: [At; 3] = [(8, 1), (16, 64), (24, 1)];

#[test]
fn fresh_image_has_its_header(rt: HostRuntime) -> Result<(), AllocError> {
    let came = image(rt.alloc(), 64, 1)?;
    let differs = difference_from(rt.alloc(), &came, 339_968, b"RIOCACHE", &IMAGE_BYTES)?;
    same(&rt, "an image", 0, &differs, &None);
    Ok(())
}

/// What stands in the second one.
static VOLUME_BYTES: [At; 5] = [(8, 1), (17, 1), (24, 64), (4096, 15), (8192, 1)];

#[test]
fn fresh_volume_has_its_header(rt: HostRuntime) -> Result<(), AllocError> {
    let came = volume(rt.alloc(), 256, 64)?;
    let differs = difference_from(rt.alloc(), &came, 1_048_576, b"RIOVOLUM", &VOLUME_BYTES)?;
    same(&rt, "a volume", 0, &differs, &None);
    Ok(())
}

/// The bytes and words of an image that is read back, and its words of frames and of scratch pages.
fn read_back(alloc: Global, bytes: &[u8]) -> Result<[u64; 4], ImageFault> {
    let words = read_image(alloc, bytes)?;
    Ok([bytes.len() as u64, words.len() as u64, words[2], words[3]])
}

#[test]
fn images_at_the_ends_of_the_ranges_are_read_back(rt: HostRuntime) -> Result<(), AllocError> {
    // 17 pages and the registry's, the frames and the scratch pages
    for (frames, scratch, pages) in [(32, 1, 51), (102, 64, 184), (103, 1, 123), (8192, 64, 8354)] {
        let bytes = image(rt.alloc(), frames, scratch)?;
        let came = read_back(rt.alloc(), &bytes);
        let due = [4096 * pages, 512 * pages, frames as u64, scratch as u64];
        same(&rt, "an image of frames", frames as usize, &came, &Ok(due));
    }
    Ok(())
}

/// The size of a fresh image of 32 frames and 1 scratch page.
const WHOLE: usize = 51 * 4096;

/// A size and changed bytes, and the rule that is told.
static RULES: [(usize, &[At], Option<ImageFault>); 19] = [
    (WHOLE, &[], None),
    (WHOLE, &[(32, 7), (4096, 9)], None),
    (0, &[], Some(ImageFault::BadLength)),
    (WHOLE - 1, &[], Some(ImageFault::BadLength)),
    (WHOLE - 4096, &[], Some(ImageFault::BadLength)),
    (8355 * 4096, &[], Some(ImageFault::BadLength)),
    (WHOLE, &[(0, b'r')], Some(ImageFault::BadMagic)),
    (WHOLE, &[(8, 2)], Some(ImageFault::BadVersion)),
    (WHOLE, &[(12, 1)], Some(ImageFault::BadVersion)),
    (WHOLE, &[(16, 31)], Some(ImageFault::BadGeometry)),
    (WHOLE, &[(16, 33)], Some(ImageFault::BadGeometry)),
    (WHOLE, &[(24, 0)], Some(ImageFault::BadGeometry)),
    (WHOLE + 4096, &[], Some(ImageFault::BadGeometry)),
    (WHOLE - 1, &[(0, b'r')], Some(ImageFault::BadLength)),
    (WHOLE - 1, &[(8, 2)], Some(ImageFault::BadLength)),
    (WHOLE - 4096, &[(16, 31)], Some(ImageFault::BadLength)),
    (WHOLE, &[(7, b'e'), (8, 0)], Some(ImageFault::BadMagic)),
    (WHOLE, &[(7, b'e'), (24, 65)], Some(ImageFault::BadMagic)),
    (WHOLE + 4096, &[(8, 2)], Some(ImageFault::BadVersion)),
];

#[test]
fn the_first_rule_that_fails_is_told(rt: HostRuntime) -> Result<(), AllocError> {
    for (row, (size, changes, due)) in RULES.iter().enumerate() {
        same(
            &rt,
            "rules",
            row,
            &fault_of(rt.alloc(), *size, changes)?,
            due,
        );
    }
    Ok(())
}

/// Whether a volume's bitmap begins with so many words of ones, this word, and zero.
fn has_bitmap(words: &[u64], full: u8, last: u64) -> bool {
    for at in 0..full as usize {
        if words.get(512 + at) != Some(&u64::MAX) {
            return false;
        }
    }
    let end = 512 + full as usize;
    words.get(end) == Some(&last) && words.get(end + 1) == Some(&0)
}

/// The word at a place, or 9 where there is none.
fn word_at(words: &[u64], at: usize) -> u64 {
    words.get(at).copied().unwrap_or(9)
}

#[test]
fn volumes_at_the_ends_of_the_ranges_mark_what_is_reserved(
    rt: HostRuntime,
) -> Result<(), AllocError> {
    // 2 blocks and one for 32 inodes are reserved: 3 of 4, and 1,026 of 1,027 and of 32,768
    for (blocks, inodes, full, last) in [
        (4, 32, 0, 0b111),
        (1027, 32768, 16, 0b11),
        (32768, 32768, 16, 0b11),
    ] {
        let shape = VolumeShape {
            version: 1,
            blocks,
            inodes,
        };
        let words = fresh_volume(rt.alloc(), &shape)?;
        let marked = has_bitmap(&words, full, last);
        let size = words.len() as u64;
        let came = (marked, [size, word_at(&words, 1024), word_at(&words, 1025)]);
        let due = (true, [512 * u64::from(blocks), 1, 0]);
        same(&rt, "a volume of blocks", blocks as usize, &came, &due);
    }
    Ok(())
}

#[test]
fn bytes_are_filled_in(rt: HostRuntime) {
    let mut bytes = [0; 16];
    fill_image(&[0x0102_0304_0506_0708, 9], &mut bytes);
    let due = [8, 7, 6, 5, 4, 3, 2, 1, 9, 0, 0, 0, 0, 0, 0, 0];
    same(&rt, "filled", 0, &bytes, &due);
}
