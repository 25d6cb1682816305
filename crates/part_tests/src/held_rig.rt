//! Memory that is held in a file, and what its file has.

use crate::held_changes::{WORDS, draw};
use held_memory::{HeldWords, WordFile};
use phys_memory::ListMem;
use rio_base::{MemWords, WordAt};
use std::alloc::{AllocError, Global};
use test_objects::MemHost;

/// The name of the file.
pub(crate) fn image(alloc: Global) -> Result<String, AllocError> {
    String::from_str(alloc, "image")
}

/// Drawn words for the whole of memory.
pub(crate) fn drawn_words(alloc: Global, x: &mut u64) -> Result<Vec<u64>, AllocError> {
    let mut words = Vec::new(alloc);
    for _ in 0..WORDS {
        let high = draw(x);
        words.push(high.wrapping_mul(4_294_967_296).wrapping_add(draw(x)))?;
    }
    Ok(words)
}

/// Memory of these words, which are to be so many as memory has, held in a file.
pub(crate) fn held<W: WordFile + Drop>(
    words: &Vec<u64>,
    file: W,
) -> Result<HeldWords<ListMem, W>, AllocError> {
    if words.len() != WORDS as usize {
        return Err(AllocError);
    }
    let mem = ListMem::from_words(words.clone()?);
    Ok(HeldWords::new(mem, file))
}

/// The words of a memory.
pub(crate) fn words_of<M: MemWords>(alloc: Global, mem: &M) -> Result<Vec<u64>, AllocError> {
    let mut words = Vec::new(alloc);
    for at in 0..mem.len() {
        words.push(mem.load(WordAt(at)))?;
    }
    Ok(words)
}

/// The bytes of words, the lowest of each first.
pub(crate) fn bytes_of(alloc: Global, words: &[u64]) -> Result<Vec<u8>, AllocError> {
    let mut bytes = Vec::new(alloc);
    for word in words {
        let mut rest = *word;
        for _ in 0..8 {
            bytes.push((rest % 256) as u8)?;
            rest /= 256;
        }
    }
    Ok(bytes)
}

/// A host with a file of these bytes, where there are any, whose call of this number fails, from 1 on; none where it is 0.
pub(crate) fn host_of(
    alloc: Global,
    bytes: Option<&[u8]>,
    failing: u64,
) -> Result<MemHost, AllocError> {
    let mut host = MemHost::new(alloc);
    if let Some(bytes) = bytes {
        host.put(&image(alloc)?, bytes)?;
    }
    if 0 < failing {
        host.fail_call(failing)?;
    }
    Ok(host)
}
