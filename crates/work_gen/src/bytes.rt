//! The bytes that drawn requests carry.

ghost use Rattle.std.specs.Prelude.{◌≡◌, ◌%◌, IfOk, replicate};
ghost use Rattle.work_gen.specs.Requests.{rising};

use rio_base::Octets;
use std::alloc::{AllocError, Global};

/// So many bytes: this one, and each next one is one more. 255 is followed by 0.
pub fn rising_bytes(alloc: Global, first: u8, count: usize) -> Result<Octets, AllocError>
    ensures { IfOk result (λ bytes. bytes ≡ rising first count) }
{
    let mut bytes = Vec::new(alloc);
    let mut byte = first;
    for _ in 0..count {
        bytes.push(byte)?;
        byte = byte.wrapping_add(1);
    }
    Ok(Octets::from(bytes))
}

/// Eight bytes that are this one.
pub fn equal_bytes(alloc: Global, byte: u8) -> Result<Octets, AllocError>
    ensures { IfOk result (λ bytes. bytes ≡ replicate 8 byte) }
{
    Ok(Octets::from(Vec::from_slice(alloc, &[byte; 8])?))
}
