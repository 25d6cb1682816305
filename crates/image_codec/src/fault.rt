//! Why bytes are no image.

ghost use Rattle.std.specs.Prelude.{◌≡◌};
ghost use Rattle.image_codec.specs.declared.fault.ImageFault.TheVariants.{Memory};

use std::alloc::AllocError;
use thiserror::Error;

/// The first of the header's rules that fails, or want of memory.
#[derive(Clone, Copy, Debug, PartialEq, Eq, Error)]
pub enum ImageFault {
    /// Rule 1: the file isn't a whole number of pages, from 51 to 8,354.
    #[error("the length is no image's")]
    BadLength,
    /// Rule 2: the first 8 bytes aren't `RIOCACHE`.
    #[error("the magic is not an image's")]
    BadMagic,
    /// Rule 3: the version isn't 1.
    #[error("the version is not known")]
    BadVersion,
    /// Rule 4: the frames or the scratch pages are out of range, or they make another number of pages than the file has.
    #[error("the sizes do not fit the length")]
    BadGeometry,
    /// All four rules hold, and there was no memory for the words.
    #[error("out of memory")]
    Memory,
}

impl From<AllocError> for ImageFault {
    ghost from_gives = { λ _ fault. fault ≡ Memory };

    fn from(_: AllocError) -> ImageFault {
        ImageFault::Memory
    }
}
