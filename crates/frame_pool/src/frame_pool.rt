//! The pool of frames.

ghost use Rattle.std.specs.Prelude.{◌≡◌, ◌≢◌, ◌<◌, ◌≤◌, ◌+◌, ◌^◌, ◌++◌, ◌∷◌, ℕ, true, false, List, Some, None, IfSome, IfOk, length, slice_index};
ghost use Rattle.std.proofs.Props.{props};
ghost use Rattle.frame_pool.specs.Frames.{block_at, free_at, older_at, order_at, pinned_at, younger_at};
ghost use Rattle.frame_pool.specs.Orders.{StandFirst};
ghost use Rattle.frame_pool.specs.Rings.{Chain-prop, HasEachOnce, IsRing};

use crate::frame::Frame;
use crate::records::{set_block, set_pin};
use crate::ring::{link_all, move_first, move_last};
use rio_base::Block;
use std::alloc::{AllocError, Global};

/// The frames of a cache: which block each has, in which order they were used, and which are pinned. A frame without a
/// block is free. Frames and blocks are counted from 0. After `new` nothing allocates, and every call but `victim`
/// looks at a few places alone, whatever the sizes; `victim` passes over pinned frames.
#[derive(Drop)]
pub struct FramePool {
    /// How many frames there are.
    count: u32,
    /// For each block 1 and its frame, or 0.
    table: Vec<u32>,
    /// The frames, and behind them the knot of the ring that they are linked to.
    frames: Vec<Frame>,
    ghost small: { count < 2 ^ 32 },
    ghost size: { length frames.items ≡ count + 1 },
    ghost ring: { IsRing frames.items count } by { Chain-prop (older_at frames.items) (younger_at frames.items) count (order_at frames.items count) count },
    ghost once: { HasEachOnce (order_at frames.items count) count },
    ghost free_first: { StandFirst (free_at frames.items) (order_at frames.items count) },
    ghost free_unpinned: { (k : ℕ) → block_at frames.items k ≡ None → pinned_at frames.items k ≡ false },
    ghost tabled: { (b : ℕ) → slice_index table.items b ≤ count },
    ghost found: { (b k : ℕ) → slice_index table.items b ≡ k + 1 → block_at frames.items k ≡ Some b } by { Prim.hlevel props },
    ghost placed: { (b k : ℕ) → block_at frames.items k ≡ Some b → slice_index table.items b ≡ k + 1 },
}

impl FramePool {
    ghost use Rattle.std.specs.List.{range_with_len};
    ghost use Rattle.frame_pool.specs.Orders.{first_of, freed_first, used_last};
    ghost use Rattle.frame_pool.specs.Pools.{IsVictim, block_of, blocks_in, frames_in, is_pinned, order_of, pins_in};

    /// A pool of so many free frames, frame 0 to be used first, for blocks below `blocks`. `Err` where no memory is left.
    pub fn new(alloc: Global, frames: u32, blocks: u32) -> Result<FramePool, AllocError>
        requires some { 32 ≤ frames }
        ensures frames { IfOk result (λ p. frames_in p ≡ frames) }
        ensures blocks { IfOk result (λ p. blocks_in p ≡ blocks) }
        ensures free { IfOk result (λ p. (k : ℕ) → block_of p k ≡ None) }
        ensures pins { IfOk result (λ p. (k : ℕ) → is_pinned p k ≡ false) }
        ensures pins_in { IfOk result (λ p. pins_in p ≡ 0) }
        ensures order { IfOk result (λ p. order_of p ≡ range_with_len 0 frames) }
    {
        let table = vec![in alloc; 0; blocks as usize]?;
        let blank = Frame {
            block: None,
            older: 0,
            younger: 0,
            pinned: false,
        };
        let mut all = vec![in alloc; blank; frames as usize + 1]?;
        link_all(&mut all, frames);
        Ok(FramePool {
            count: frames,
            table,
            frames: all,
        })
    }

    /// The frame of block `b`, or `None` where no frame has it.
    pub fn find(&self, b: Block) -> Option<u32>
        requires block { b.0 < blocks_in self.now }
        ensures some { IfSome result (λ k. (k < frames_in self.now) × (block_of self.now k ≡ Some b.0)) }
        ensures none { result ≡ None → (k : ℕ) → k < frames_in self.now → block_of self.now k ≢ Some b.0 }
    {
        match self.table[b.0 as usize] {
            0 => None,
            place => Some(place - 1),
        }
    }

    /// The frame to be used next: a free one, or else the one that was used least recently and isn't pinned.
    pub fn victim(&self) -> u32
        requires most { pins_in self.now < frames_in self.now }
        ensures { IsVictim self.now result }
    {
        let mut k = self.frames[self.count as usize].younger;
        for _passed in 0..self.count {
            let frame = self.frames[k as usize];
            if !frame.pinned {
                return k;
            }
            k = frame.younger;
        }
        unreachable!()
    }

    /// The frame that was used next after frame `k`; `None` where `k` was used last of all.
    #[tactic(auto, using(crate::proofs::Moves::younger_near))]
    pub fn next_used(&self, k: u32) -> Option<u32>
        requires within { k < frames_in self.now }
        ensures within { IfSome result (λ j. j < frames_in self.now) }
        ensures next { (xs ys : List ℕ) → order_of self.now ≡ xs ++ (k ∷ ys) → result ≡ first_of ys }
    {
        let next = self.frames[k as usize].younger;
        if next == self.count {
            return None;
        }
        Some(next)
    }

    /// Says that frame `k`, which has a block, was used.
    pub fn use_slot(&mut self, k: u32)
        requires within { k < frames_in self.old }
        requires bound { block_of self.old k ≢ None }
        ensures held { (j : ℕ) → block_of self.new j ≡ block_of self.old j }
        ensures frames { frames_in self.new ≡ frames_in self.old }
        ensures blocks { blocks_in self.new ≡ blocks_in self.old }
        ensures pins { (j : ℕ) → is_pinned self.new j ≡ is_pinned self.old j }
        ensures pins_in { pins_in self.new ≡ pins_in self.old }
        ensures order { order_of self.new ≡ used_last k (order_of self.old) }
    {
        move_last(&mut self.frames, self.count, k);
    }

    /// Pins frame `k`, which has a block: it has to stay, until it is unpinned.
    pub fn pin(&mut self, k: u32)
        requires within { k < frames_in self.old }
        requires bound { block_of self.old k ≢ None }
        ensures pinned { is_pinned self.new k ≡ true }
        ensures others { (j : ℕ) → j ≢ k → is_pinned self.new j ≡ is_pinned self.old j }
        ensures held { (j : ℕ) → block_of self.new j ≡ block_of self.old j }
        ensures frames { frames_in self.new ≡ frames_in self.old }
        ensures blocks { blocks_in self.new ≡ blocks_in self.old }
        ensures order { order_of self.new ≡ order_of self.old }
        ensures most { pins_in self.new ≤ pins_in self.old + 1 }
        ensures again { is_pinned self.old k ≡ true → pins_in self.new ≡ pins_in self.old }
        ensures one_more { is_pinned self.old k ≡ false → pins_in self.new ≡ pins_in self.old + 1 }
    {
        set_pin(&mut self.frames, k, true);
    }

    /// Lets frame `k` go, whether it was pinned or not.
    pub fn unpin(&mut self, k: u32)
        requires within { k < frames_in self.old }
        ensures unpinned { is_pinned self.new k ≡ false }
        ensures others { (j : ℕ) → j ≢ k → is_pinned self.new j ≡ is_pinned self.old j }
        ensures held { (j : ℕ) → block_of self.new j ≡ block_of self.old j }
        ensures frames { frames_in self.new ≡ frames_in self.old }
        ensures blocks { blocks_in self.new ≡ blocks_in self.old }
        ensures order { order_of self.new ≡ order_of self.old }
        ensures again { is_pinned self.old k ≡ false → pins_in self.new ≡ pins_in self.old }
        ensures one_less { is_pinned self.old k ≡ true → pins_in self.new + 1 ≡ pins_in self.old }
    {
        set_pin(&mut self.frames, k, false);
    }

    /// Gives frame `k`, which is free, block `b`, which no frame has. It counts as a use.
    pub fn bind(&mut self, k: u32, b: Block)
        requires within { k < frames_in self.old }
        requires block { b.0 < blocks_in self.old }
        requires free { block_of self.old k ≡ None }
        requires unbound { (j : ℕ) → j < frames_in self.old → block_of self.old j ≢ Some b.0 }
        ensures bound { block_of self.new k ≡ Some b.0 }
        ensures others { (j : ℕ) → j ≢ k → block_of self.new j ≡ block_of self.old j }
        ensures frames { frames_in self.new ≡ frames_in self.old }
        ensures blocks { blocks_in self.new ≡ blocks_in self.old }
        ensures pins { (j : ℕ) → is_pinned self.new j ≡ is_pinned self.old j }
        ensures pins_in { pins_in self.new ≡ pins_in self.old }
        ensures order { order_of self.new ≡ used_last k (order_of self.old) }
    {
        self.table[b.0 as usize] = k + 1;
        let frames = self.frames.as_mut_slice();
        set_block(frames, k, Some(b));
        move_last(frames, self.count, k);
    }

    /// Takes its block from frame `k`, which isn't pinned. The frame is free then, and the first to be used.
    pub fn unbind(&mut self, k: u32)
        requires within { k < frames_in self.old }
        requires bound { block_of self.old k ≢ None }
        requires unpinned { is_pinned self.old k ≡ false }
        ensures unbound { block_of self.new k ≡ None }
        ensures others { (j : ℕ) → j ≢ k → block_of self.new j ≡ block_of self.old j }
        ensures frames { frames_in self.new ≡ frames_in self.old }
        ensures blocks { blocks_in self.new ≡ blocks_in self.old }
        ensures pins { (j : ℕ) → is_pinned self.new j ≡ is_pinned self.old j }
        ensures pins_in { pins_in self.new ≡ pins_in self.old }
        ensures order { order_of self.new ≡ freed_first k (order_of self.old) }
    {
        let Some(b) = self.frames[k as usize].block else {
            unreachable!()
        };
        self.table[b.0 as usize] = 0;
        let frames = self.frames.as_mut_slice();
        set_block(frames, k, None);
        move_first(frames, self.count, k);
    }
}
