//! What a cache keeps beside its machine.

ghost use Rattle.std.specs.Prelude.{◌≡◌, ◌<◌, ◌≤◌, ◌+◌, ◌*◌, IfOk, length};
ghost use Rattle.rio_model.specs.Cover.{frame_page};
ghost use Rattle.rio_model.specs.Registry.{frames_of};
ghost use Rattle.cached_pages.specs.Caches.{CacheSound, IsFresh};

use crate::slots::EarlyWrites;
use frame_pool::FramePool;
use rio_base::{BLOCK_WORDS, Machine, Page};
use std::alloc::{AllocError, Global};

/// How many shadow pages there are, and so how many blocks an update may touch.
pub(crate) const SHADOWS: usize = 16;

/// The tables of a cache, made before it starts: no call of a cache takes memory.
#[derive(Drop)]
pub struct CacheTables {
    /// Which frame has which block, in which order frames were used, which are pinned.
    pub pool: FramePool,
    /// Which blocks were forgotten, and not made anew since.
    pub(crate) forgotten: Vec<bool>,
    /// Which blocks were written before their pages leave, and as which words: none where there is a frame for each.
    pub early: EarlyWrites,
    /// A block on its way from the disk.
    pub(crate) buffer: Vec<u64>,
    /// The page of frame 0.
    pub first_frame: u32,
    /// The frames that were given a shadow since the last update began: shadow s is that of frame `shadowed[s - 1]`.
    pub(crate) shadowed: [u32; SHADOWS],
    /// How many they are.
    pub(crate) shadows: u32,
}

impl CacheTables {
    /// The tables for so many frames and blocks. `Err` where no memory is left.
    pub fn new(alloc: Global, frames: u32, blocks: u32) -> Result<CacheTables, AllocError>
        requires some { 32 ≤ frames }
        requires most { frames ≤ 8192 }
        ensures fresh { IfOk result (IsFresh frames blocks) }
    {
        let forgotten = vec![in alloc; false; blocks as usize]?;
        let buffer = vec![in alloc; 0; BLOCK_WORDS]?;
        let pool = FramePool::new(alloc, frames, blocks)?;
        let early = EarlyWrites::new(alloc, blocks, blocks <= frames)?;
        Ok(CacheTables {
            pool,
            forgotten,
            early,
            buffer,
            first_frame: (frames + 101) / 102 + 17,
            shadowed: [0; SHADOWS],
            shadows: 0,
        })
    }
}

/// The page of frame `k`.
pub fn page_of<M: Machine>(_m: &M, t: &CacheTables, k: u32) -> Page
    requires sound { CacheSound (M.contents _m.now) (length (M.run _m.now).scratch) t.now }
    requires entry { k < frames_of (M.contents _m.now).words }
    ensures page { result.0 ≡ frame_page (M.contents _m.now).words k }
    ensures within { 512 * result.0 + 512 ≤ length (M.contents _m.now).words }
{
    Page(t.first_frame + k)
}
