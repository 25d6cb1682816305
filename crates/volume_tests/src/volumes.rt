//! A volume of 64 blocks and 64 inodes, whose words are changed.
//!
//! Inode 1 is the root and lies in block 4. It names `f`, inode 2, a file of 100 bytes in block 5; `d`, inode 3, a directory in
//! block 6; and `r`, inode 4, a region of one page each in blocks 7 to 10. `d` names `g`, inode 5, a file of 25 pages in blocks
//! 11 to 35, of which the last is numbered in block 36.

ghost use Rattle.std.specs.Prelude.{◌≡◌, ◌*◌, false, IfOk, length};
ghost use Rattle.test_objects.specs.ListVolumes.{ListSound, list_kept};

use rio_base::{Block, Blocks, VolFail, Volume};
use rio_model::Census;
use std::alloc::{AllocError, Global};
use std::test::Fail;
use test_objects::ListVolume;
use volume_check::{CheckFail, check_volume};

/// The blocks of the volume.
pub(crate) const BLOCKS: u32 = 64;

/// A word of a block, and what it becomes.
#[derive(Clone, Copy, Debug)]
pub(crate) struct Put(pub(crate) u32, pub(crate) u16, pub(crate) u64);

/// The words of the volume that are not zero.
static WORDS: [Put; 45] = [
    // the superblock and the bitmap
    Put(0, 0, 0x4d55_4c4f_564f_4952),
    Put(0, 1, 1),
    Put(0, 2, 64),
    Put(0, 3, 64),
    Put(1, 0, 0x1f_ffff_ffff),
    // inodes 1 to 5
    Put(2, 0, 1),
    Put(2, 1, 192),
    Put(2, 2, 4),
    Put(2, 16, 2),
    Put(2, 17, 100),
    Put(2, 18, 5),
    Put(2, 32, 1),
    Put(2, 33, 64),
    Put(2, 34, 6),
    Put(2, 48, 3),
    Put(2, 49, 16384),
    Put(2, 50, 0x8_0000_0007),
    Put(2, 51, 0xa_0000_0009),
    Put(2, 64, 2),
    Put(2, 65, 102400),
    Put(2, 66, 0xc_0000_000b),
    Put(2, 67, 0xe_0000_000d),
    Put(2, 68, 0x10_0000_000f),
    Put(2, 69, 0x12_0000_0011),
    Put(2, 70, 0x14_0000_0013),
    Put(2, 71, 0x16_0000_0015),
    Put(2, 72, 0x18_0000_0017),
    Put(2, 73, 0x1a_0000_0019),
    Put(2, 74, 0x1c_0000_001b),
    Put(2, 75, 0x1e_0000_001d),
    Put(2, 76, 0x20_0000_001f),
    Put(2, 77, 0x22_0000_0021),
    Put(2, 78, 36),
    Put(36, 0, 35),
    // the names `f`, `d` and `r`, and `g`
    Put(4, 0, 0x1_0000_0002),
    Put(4, 1, 0x66),
    Put(4, 8, 0x1_0000_0003),
    Put(4, 9, 0x64),
    Put(4, 16, 0x1_0000_0004),
    Put(4, 17, 0x72),
    Put(6, 0, 0x1_0000_0005),
    Put(6, 1, 0x67),
    // the region: its magic and its numbers of undo pages and data pages
    Put(7, 0, 0x4745_5241_5453_4956),
    Put(7, 1, 1),
    Put(7, 2, 1),
];

/// What there is on it: directories, files, regions, and blocks that nodes have and that none has.
pub(crate) const COUNTS: [u32; 5] = [2, 2, 1, 33, 27];

/// What a census counts: directories, files, regions, and blocks that nodes have and that none has.
pub(crate) fn counts_of(census: &Census) -> [u32; 5] {
    [
        census.dirs,
        census.files,
        census.regions,
        census.used,
        census.free,
    ]
}

/// A volume in memory, and its words beside it, one block after the other.
#[derive(Drop)]
pub(crate) struct TestVolume {
    volume: ListVolume,
    words: Vec<u64>,
    ghost sound: { ListSound volume },
    ghost idle: { (list_kept volume).updating ≡ false },
    ghost all: { length words.items ≡ 512 * 64 },
}

impl TestVolume {
    /// The volume that is described above.
    pub(crate) fn new(alloc: Global) -> Result<TestVolume, Fail> {
        let mut v = TestVolume::zeros(alloc)?;
        for put in WORDS.iter() {
            v.put(*put)?;
        }
        Ok(v)
    }

    /// A volume of zeros.
    fn zeros(alloc: Global) -> Result<TestVolume, AllocError> {
        Ok(TestVolume {
            volume: ListVolume::new(alloc, BLOCKS, None)?,
            words: vec![in alloc; 0; 512 * 64]?,
        })
    }

    /// Stores a word. The answer stores what it was.
    pub(crate) fn put(&mut self, put: Put) -> Result<Put, VolFail> {
        let Put(b, w, value) = put;
        if b >= self.volume.volume_blocks() || b >= BLOCKS || w >= 512 {
            return Ok(put);
        }
        self.volume.store(Block(b), None, w, value)?;
        let at = 512 * b as usize + w as usize;
        let old = Put(b, w, self.words[at]);
        self.words[at] = value;
        Ok(old)
    }

    /// Stores these words, the last one first.
    pub(crate) fn put_back(&mut self, old: &[Put]) -> Result<(), VolFail> {
        for put in old.iter().rev() {
            self.put(*put)?;
        }
        Ok(())
    }

    /// The words of all blocks.
    pub(crate) fn words(&self) -> &[u64] {
        &self.words
    }

    /// A copy of them.
    pub(crate) fn copied(&self) -> Result<Vec<u64>, AllocError>
        ensures { IfOk result (λ words. length words.items ≡ 512 * 64) }
    {
        self.words.clone()
    }

    /// What looking at it answers.
    pub(crate) fn look(&mut self, alloc: Global) -> Result<Census, CheckFail> {
        check_volume(alloc, &mut self.volume)
    }
}
