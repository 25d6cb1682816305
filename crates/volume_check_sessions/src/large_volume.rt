//! A volume in memory that is filled.

ghost use Rattle.std.specs.Prelude.{◌≡◌, false};
ghost use Rattle.test_objects.specs.ListVolumes.{ListSound, list_kept};

use rio_base::{Block, Blocks, VolFail, Volume};
use rio_model::Census;
use std::alloc::{AllocError, Global};
use test_objects::ListVolume;
use volume_check::{CheckFail, check_volume};

/// The blocks of a node, one behind the other: its pages, and behind them its indirect block, if it has one.
#[derive(Clone, Copy)]
pub(crate) struct Run {
    first: u32,
    pages: u32,
}

/// A volume in memory. Blocks are given out from the lowest on. What is stored past its end is not stored.
#[derive(Drop)]
pub(crate) struct LargeVolume {
    volume: ListVolume,
    /// The first block that is not given out.
    next: u32,
    ghost sound: { ListSound volume },
    ghost idle: { (list_kept volume).updating ≡ false },
}

impl LargeVolume {
    /// A volume of so many blocks and inodes whose bitmap and inodes are zeros.
    pub(crate) fn new(alloc: Global, blocks: u32, inodes: u32) -> anyhow::Result<LargeVolume> {
        let mut v = LargeVolume::zeros(alloc, blocks, inodes)?;
        v.put(0, 0, 0x4d55_4c4f_564f_4952)?;
        v.put(0, 1, 1)?;
        v.put(0, 2, u64::from(blocks))?;
        v.put(0, 3, u64::from(inodes))?;
        Ok(v)
    }

    fn zeros(alloc: Global, blocks: u32, inodes: u32) -> Result<LargeVolume, AllocError> {
        Ok(LargeVolume {
            volume: ListVolume::new(alloc, blocks, None)?,
            next: 2 + inodes / 32,
        })
    }

    /// The first block that is not given out.
    pub(crate) fn next(&self) -> u32 {
        self.next
    }

    /// How many blocks are not given out.
    pub(crate) fn left(&self) -> u32 {
        self.volume.volume_blocks().saturating_sub(self.next)
    }

    /// Stores word `w` of block `b`.
    pub(crate) fn put(&mut self, b: u32, w: u16, value: u64) -> Result<(), VolFail> {
        if b >= self.volume.volume_blocks() || w >= 512 {
            return Ok(());
        }
        self.volume.store(Block(b), None, w, value)
    }

    /// Stores word `w` of inode `i`.
    pub(crate) fn put_inode(&mut self, i: u32, w: u16, value: u64) -> Result<(), VolFail> {
        let k = i.saturating_sub(1);
        let first = (k % 32 * 16) as u16;
        self.put(2 + k / 32, first.saturating_add(w), value)
    }

    /// Makes inode `i` a node of this kind and size, and gives it its blocks.
    pub(crate) fn put_node(&mut self, i: u32, kind: u64, size: u64) -> Result<Run, VolFail> {
        let pages = u32::try_from(size.div_ceil(4096)).unwrap_or(0);
        let run = Run {
            first: self.next,
            pages,
        };
        self.next = self.next.saturating_add(pages);
        self.put_inode(i, 0, kind)?;
        self.put_inode(i, 1, size)?;
        for p in 0..12 {
            self.put_inode(i, 2 + p as u16, run.pair(2 * p))?;
        }
        if pages > 24 {
            self.put_table(i, run)?;
        }
        Ok(run)
    }

    /// Gives inode `i` an indirect block, and stores the numbers in it.
    fn put_table(&mut self, i: u32, run: Run) -> Result<(), VolFail> {
        let table = self.next;
        self.next = self.next.saturating_add(1);
        self.put_inode(i, 14, u64::from(table))?;
        for w in 0..512 {
            self.put(table, w as u16, run.pair(24 + 2 * w))?;
        }
        Ok(())
    }

    /// Stores word `y` of a node whose blocks these are.
    pub(crate) fn put_in(&mut self, run: Run, y: u32, value: u64) -> Result<(), VolFail> {
        self.put(run.first.saturating_add(y / 512), (y % 512) as u16, value)
    }

    /// Marks the blocks that are given out.
    pub(crate) fn mark_all(&mut self) -> Result<(), VolFail> {
        for w in 0..512 {
            let bits = self.next.saturating_sub(64 * w).min(64);
            let word = if bits < 64 { (1 << bits) - 1 } else { u64::MAX };
            self.put(1, w as u16, word)?;
        }
        Ok(())
    }

    /// What looking at it answers.
    pub(crate) fn look(&mut self, alloc: Global) -> Result<Census, CheckFail> {
        check_volume(alloc, &mut self.volume)
    }
}

impl Run {
    /// The numbers of pages `page` and `page + 1`, in one word. Past the last page they are 0.
    fn pair(self, page: u32) -> u64 {
        u64::from(self.number(page)) | u64::from(self.number(page.saturating_add(1))) << 32
    }

    /// The number of a page.
    fn number(self, page: u32) -> u32 {
        if page < self.pages {
            self.first.saturating_add(page)
        } else {
            0
        }
    }
}
