//! The 64 blocks of a volume as one list of words, one block after the other.

ghost use Rattle.std.specs.Prelude.{◌≡◌, ◌≤◌, ◌+◌, ◌*◌, IfOk, length};
ghost use Rattle.rio_base.specs.Memory.{FrontStored};

use rio_base::{BLOCK_WORDS, Block};
use std::alloc::{AllocError, Global};

/// How many blocks such a volume has.
pub const BLOCKS: u32 = 64;

/// Words in all blocks.
pub const ALL_WORDS: usize = 32_768;

/// So many zeros.
pub fn zeros(alloc: Global, count: usize) -> Result<Vec<u64>, AllocError>
    ensures { IfOk result (λ words. length words.items ≡ count) }
{
    vec![in alloc; 0; count]
}

/// Puts the words of a block in their place.
pub fn put_block(to: &mut [u64], b: Block, from: &[u64])
    requires room { 512 * b.0 + 512 ≤ length to.old }
    requires words { length from.now ≡ 512 }
    ensures stored { FrontStored (512 * b.0) 512 from.now to.old to.new }
    ensures len { length to.new ≡ length to.old }
{
    let at = BLOCK_WORDS * b.0 as usize;
    to[at..at + BLOCK_WORDS].copy_from_slice(from);
}
