//! The inodes of a volume, read whole.

ghost use Rattle.std.specs.Prelude.{◌≡◌, ◌*◌, ◌+◌, ◌/◌, ◌<◌, length};
ghost use Rattle.rio_base.specs.Layout.{IsIno, half};

use inode_table::INODE_WORDS;
use rio_base::{Block, Ino, VolumeShape};

/// The word of an inode that has its kind.
const KIND: usize = 0;

/// The word that has its size in bytes.
const SIZE: usize = 1;

/// The word that has the numbers of pages 0 and 1.
const FIRST_NUMBERS: usize = 2;

/// The word that has the number of its indirect block.
const INDIRECT_NUMBER: usize = 14;

/// The inodes of a volume.
#[derive(Drop)]
pub struct Inodes {
    /// The sizes of the volume.
    pub shape: VolumeShape,
    /// The words of all inodes, one inode after the other.
    words: Vec<u64>,
    ghost count: { length words.items ≡ 16 * shape.inodes },
}

impl Inodes {
    ghost use Rattle.volume_check.specs.Inodes.{said};

    /// The inodes that have these words.
    pub fn new(shape: VolumeShape, words: Vec<u64>) -> Inodes
        requires count { length words.items ≡ 16 * shape.inodes }
        ensures shape { result.shape ≡ shape }
        ensures words { result.words.items ≡ words.items }
    {
        Inodes { shape, words }
    }

    /// Word `w` of inode `i`.
    fn word(&self, i: Ino, w: usize) -> u64
        requires ino { IsIno self.now.shape i.0 }
        requires word { w < 16 }
        ensures { result ≡ said self.now i.0 w }
    {
        self.words[INODE_WORDS * (i.0 - 1) as usize + w]
    }

    /// The kind of inode `i`: 0 for a free inode, 1 for a directory, 2 for a file, 3 for a region. Others break a rule.
    pub fn kind(&self, i: Ino) -> u64
        requires { IsIno self.now.shape i.0 }
        ensures { result ≡ said self.now i.0 0 }
    {
        self.word(i, KIND)
    }

    /// The size in bytes that inode `i` says.
    pub fn size(&self, i: Ino) -> u64
        requires { IsIno self.now.shape i.0 }
        ensures { result ≡ said self.now i.0 1 }
    {
        self.word(i, SIZE)
    }

    /// The block of page `page` of node `i`, one of those that the inode numbers.
    pub fn direct(&self, i: Ino, page: u32) -> Block
        requires ino { IsIno self.now.shape i.0 }
        requires page { page < 24 }
        ensures { result.0 ≡ half (said self.now i.0 (2 + page / 2)) page }
    {
        Block(number_in(self.word(i, FIRST_NUMBERS + (page / 2) as usize), page))
    }

    /// The indirect block of node `i`, which has the numbers of its further pages.
    pub fn indirect(&self, i: Ino) -> Block
        requires { IsIno self.now.shape i.0 }
        ensures { result.0 ≡ half (said self.now i.0 14) 0 }
    {
        Block(number_in(self.word(i, INDIRECT_NUMBER), 0))
    }
}

/// Number `n` of a list with two numbers in a word, as its word has it.
#[tactic(auto, unfolding(rio_base::specs::Layout::half))]
pub fn number_in(word: u64, n: u32) -> u32
    ensures { result ≡ half word n }
{
    if n % 2 == 0 {
        (word % (1 << 32)) as u32
    } else {
        (word >> 32) as u32
    }
}
