//! What writing and reading are to each other.

ghost use Rattle.std.specs.Prelude.{◌≡◌, MatchResult};
ghost use Rattle.image_codec.specs.Image.{IsImage};
ghost use Rattle.image_codec.specs.declared.fault.ImageFault.{ImageFault as Fault};

use crate::fault::ImageFault;
use crate::image::{read_image, write_image};
use std::alloc::Global;

/// The words of an image that are written and read again: they are the same words, or there was no memory.
pub fn write_and_read(alloc: Global, words: &[u64]) -> Result<Vec<u64>, ImageFault>
    requires { IsImage words.now }
    ensures { MatchResult result (λ read. read.items ≡ words.now) (λ fault. fault ≡ Fault.Memory) }
{
    let bytes = write_image(alloc, words)?;
    read_image(alloc, &bytes)
}
