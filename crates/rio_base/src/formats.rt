//! Words and sizes of the formats on disk and in memory that more than one crate knows.

/// The first word of a machine's memory: the text `RIOCACHE`, its first byte lowest.
pub const IMAGE_MAGIC: u64 = 0x4548_4341_434f_4952;

/// The first word of a volume: the text `RIOVOLUM`.
pub const VOLUME_MAGIC: u64 = 0x4d55_4c4f_564f_4952;

/// The first word of a region: the text `VISTAREG`.
pub const REGION_MAGIC: u64 = 0x4745_5241_5453_4956;

/// The word of a region that names its newest undo record: 0 where there is none, else 1 and the undo word at which it lies.
pub const UNDO_HEAD: u32 = 3;

/// Bytes of a page, and of a block.
pub const PAGE_BYTES: u64 = 4096;

/// Words of a page, and of a block: how far apart the first words of two pages in a row lie in memory.
pub const PAGE_WORDS: u32 = 512;

/// Words of a page, and of a block, as the length of a list of words.
pub const BLOCK_WORDS: usize = 512;
