//! For the tests of a disk that is a file: a host in memory with a file and one beside it, and a disk that is the first.

ghost use Rattle.std.specs.Prelude.{◌<◌};

use block_disk::{HostDisk, HostDiskFail};
use rio_base::{Block, DiskBlocks, Failed, Host};
use std::alloc::{AllocError, Global};
use test_objects::MemHost;

/// The words of a block.
const BLOCK_WORDS: usize = 512;

/// The bytes of the file beside the disk.
pub(crate) const BESIDE: &[u8] = b"beside";

/// A call of a disk.
#[derive(Clone, Copy)]
pub(crate) enum Call {
    /// Writes a block of words that are all this one.
    Write(u32, u64),
    Read(u32),
    Sync,
}

/// What it answers. Of a block that is read: the first word, and the last.
#[derive(Debug, Drop, PartialEq)]
pub(crate) enum Said {
    Done,
    Failed,
    Words([u64; 2]),
    /// There is no such block.
    Outside,
}

/// The answer of a call that answers nothing else.
fn done(answer: Result<(), Failed>) -> Said {
    match answer {
        Ok(()) => Said::Done,
        Err(Failed) => Said::Failed,
    }
}

/// The names of the two files.
pub(crate) fn names(alloc: Global) -> Result<(String, String), AllocError> {
    let disk = String::from_str(alloc, "disk")?;
    let beside = String::from_str(alloc, "beside")?;
    Ok((disk, beside))
}

/// A host with a file of these bytes, where there are any, and one beside it. Its calls of these numbers fail, from 1 on.
pub(crate) fn host_of(
    alloc: Global,
    bytes: Option<&[u8]>,
    failing: &[u64],
) -> Result<MemHost, AllocError> {
    let (disk, beside) = names(alloc)?;
    let mut host = MemHost::new(alloc);
    if let Some(bytes) = bytes {
        host.put(&disk, bytes)?;
    }
    host.put(&beside, BESIDE)?;
    for call in failing {
        if 0 < *call {
            host.fail_call(*call)?;
        }
    }
    Ok(host)
}

/// A disk that is the file of such a host, or the host and why there is none.
pub(crate) fn open(
    alloc: Global,
    host: MemHost,
) -> Result<Result<HostDisk<MemHost>, (MemHost, HostDiskFail)>, AllocError> {
    let (disk, _) = names(alloc)?;
    Ok(HostDisk::new(alloc, host, disk))
}

/// Makes a call.
pub(crate) fn make(
    alloc: Global,
    disk: &mut HostDisk<MemHost>,
    call: Call,
) -> Result<Said, AllocError> {
    match call {
        Call::Write(b, word) => write(alloc, disk, b, word),
        Call::Read(b) => read(alloc, disk, b),
        Call::Sync => Ok(done(disk.sync())),
    }
}

/// Writes a block of words that are all this one.
fn write(
    alloc: Global,
    disk: &mut HostDisk<MemHost>,
    b: u32,
    word: u64,
) -> Result<Said, AllocError> {
    if disk.count() <= b {
        return Ok(Said::Outside);
    }
    let words = vec![in alloc; word; BLOCK_WORDS]?;
    Ok(done(disk.write(Block(b), &words)))
}

/// Reads a block over 9s.
fn read(alloc: Global, disk: &mut HostDisk<MemHost>, b: u32) -> Result<Said, AllocError> {
    if disk.count() <= b {
        return Ok(Said::Outside);
    }
    let mut room = vec![in alloc; 9u64; BLOCK_WORDS]?;
    match disk.read(Block(b), &mut room) {
        Ok(()) => Ok(Said::Words([room[0], room[BLOCK_WORDS - 1]])),
        Err(Failed) => Ok(Said::Failed),
    }
}

/// The word that all 8 bytes of a block of a file make, or `None` where they differ or the block isn't there.
fn word_of(bytes: &[u8], b: usize) -> Option<u64>
    requires { b < 4 }
{
    let block = bytes.get(4096 * b..4096 * b + 4096)?;
    let first = block.get(..8)?;
    for eight in block.chunks_exact(8) {
        if eight != first {
            return None;
        }
    }
    let mut word = 0u64;
    for byte in first.iter().rev() {
        word = word.wrapping_mul(256).wrapping_add(*byte as u64);
    }
    Some(word)
}

/// The word of each of the first four blocks of a host's file, and whether the file beside it is as it was.
pub(crate) fn file_words(
    host: &MemHost,
    alloc: Global,
) -> Result<([Option<u64>; 4], bool), AllocError> {
    let (disk, beside) = names(alloc)?;
    let mut words = [None; 4];
    if let Some(bytes) = host.file(&disk) {
        for b in 0..4 {
            words[b] = word_of(bytes, b);
        }
    }
    let same = match host.file(&beside) {
        Some(bytes) => bytes.as_slice() == BESIDE,
        None => false,
    };
    Ok((words, same))
}
