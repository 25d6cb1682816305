//! Which blocks were written before their pages leave the cache, and as which words: what is asked and told of them.

ghost use Rattle.std.specs.Prelude.{◌≡◌, ◌≢◌, ◌<◌, ◌≤◌, ◌+◌, ◌*◌, ℕ, Bool, true, false, List, None, Some, IfOk, IfSome, drop, length, slice_index_or, take};
ghost use Rattle.rio_base.specs.Disks.{is_pending};
ghost use Rattle.rio_base.specs.Memory.{FrontStored};
ghost use Rattle.cached_pages.specs.EarlyBlocks.{HasWords, Knows, KnowsNone, LosesSome, SettlesAll, is_settled_slot, slot_at};
ghost use Rattle.cached_pages.specs.EarlySlots.{owner_of};

use crate::slots::{Early, EarlyWrites, SLOTS};
use rio_base::{BLOCK_WORDS, Block};
use std::alloc::{AllocError, Global};
use std::simd::prelude::*;

/// How many words are compared together.
const RUN: usize = 16;

/// Of how many writes one is of a page that is looked for from the front on.
const TURN: u32 = 4;

impl Early {
    /// Whether it is of block `b`.
    fn is_of(self, b: Block) -> bool
        ensures yes { result ≡ true → owner_of self ≡ Some b.0 }
        ensures no { result ≡ false → owner_of self ≢ Some b.0 }
    {
        match self {
            Early::Free => false,
            Early::Written(c) => c.0 == b.0,
            Early::Settled(c) => c.0 == b.0,
        }
    }

    /// Whether its block isn't pending.
    fn is_settled(self) -> bool
        ensures { result ≡ is_settled_slot self }
    {
        match self {
            Early::Free => false,
            Early::Written(_) => false,
            Early::Settled(_) => true,
        }
    }
}

/// Slots of no block.
fn no_blocks() -> [Early; SLOTS]
    ensures { (s : ℕ) → slice_index_or result s Early.Free ≡ Early.Free }
{
    [Early::Free; SLOTS]
}

/// Room for the words of all slots, or none.
fn room(alloc: Global, none: bool) -> Result<Vec<u64>, AllocError> {
    if none {
        return vec![in alloc; 0; 0];
    }
    vec![in alloc; 0; BLOCK_WORDS * SLOTS]
}

/// A hint for each block, or none.
fn no_hints(alloc: Global, blocks: u32, none: bool) -> Result<Vec<u8>, AllocError> {
    if none {
        return vec![in alloc; 0; 0];
    }
    vec![in alloc; 0; blocks as usize]
}

/// So many slots, and this one, if it was free.
fn with_slot(used: u32, slot: Early) -> u32 {
    match slot {
        Early::Free => used.saturating_add(1),
        Early::Written(_) => used,
        Early::Settled(_) => used,
    }
}

/// Whether the two are the same words.
fn are_same(a: &[u64], b: &[u64]) -> bool
    ensures { result ≡ true → a.now ≡ b.now }
{
    if a.len() != b.len() {
        return false;
    }
    let mut at = 0;
    'runs: while a.len() - at >= RUN {
        if !is_same_run(a, b, at) {
            return false;
        }
        at += RUN;
    }
    a[at..] == b[at..]
}

/// Whether the words of the run from `at` on are the same in both.
#[inline(always)]
fn is_same_run(a: &[u64], b: &[u64], at: usize) -> bool
    requires first { at + 16 ≤ length a.now }
    requires second { at + 16 ≤ length b.now }
    ensures { result ≡ true → take 16 (drop at a.now) ≡ take 16 (drop at b.now) }
{
    let left = u64x16::from_slice(&a[at..]);
    let right = u64x16::from_slice(&b[at..]);
    left.simd_ne(right).to_bitmask() == 0
}

/// Puts the words of a block in the place of slot `s`.
#[tactic(auto, using(crate::proofs::EarlyStates::block_stored))]
fn put_words(to: &mut [u64], s: usize, from: &[u64])
    requires slot { s < 64 }
    requires room { 512 * s + 512 ≤ length to.old }
    requires words { length from.now ≡ 512 }
    ensures stored { FrontStored (512 * s) 512 from.now to.old to.new }
    ensures len { length to.new ≡ length to.old }
{
    let at = BLOCK_WORDS * s;
    to[at..at + BLOCK_WORDS].copy_from_slice(from);
}

impl EarlyWrites {
    /// So many blocks, of which none is known. Where no page is ever to be written early, it takes no memory. `Err` where no memory
    /// is left.
    #[tactic(auto, using(crate::proofs::EarlyStates::knows_none))]
    pub(crate) fn new(
        alloc: Global,
        blocks: u32,
        none_early: bool,
    ) -> Result<EarlyWrites, AllocError>
        ensures { IfOk result KnowsNone }
    {
        let words = room(alloc, none_early)?;
        let hints = no_hints(alloc, blocks, none_early)?;
        Ok(EarlyWrites {
            slots: no_blocks(),
            words,
            hints,
            next: 0,
            used: 0,
        })
    }

    /// The slot of block `b`, if it has one.
    fn slot_of(&self, b: Block) -> Option<usize>
        ensures within { IfSome result (λ s. s < 64) }
        ensures none { result ≡ None → (s : ℕ) → owner_of (slot_at self.now s) ≢ Some b.0 }
        ensures only { IfSome result (λ s. (t : ℕ) → owner_of (slot_at self.now t) ≡ Some b.0 → t ≡ s) }
        ensures owner { IfSome result (λ s. owner_of (slot_at self.now s) ≡ Some b.0) }
    {
        let at = b.0 as usize;
        if self.hints.len() <= at {
            return None;
        }
        let s = self.hints[at] as usize;
        if SLOTS <= s {
            return None;
        }
        if self.slots[s].is_of(b) {
            return Some(s);
        }
        None
    }

    /// The block that was written last, if it is known still, and none each time that a page is to be looked for from the front
    /// on. Pages behind one that was used since it was written are the last to leave, so that few are looked for behind it.
    pub(crate) fn last(&self) -> Option<Block> {
        if self.next % TURN == 0 {
            return None;
        }
        let s = (self.next as usize + SLOTS - 1) % SLOTS;
        match self.slots[s] {
            Early::Free => None,
            Early::Written(b) => Some(b),
            Early::Settled(b) => Some(b),
        }
    }

    /// How many blocks are known.
    pub(crate) fn count(&self) -> u32 {
        self.used
    }

    /// Whether block `b` isn't known.
    pub(crate) fn is_unwritten(&self, b: Block) -> bool {
        self.slot_of(b).is_none()
    }

    /// Whether block `b` is known, and isn't pending.
    pub(crate) fn is_settled(&self, b: Block) -> bool
        ensures { result ≡ true → (disk : List (List ℕ)) → (pending : List Bool) → Knows disk pending self.now → is_pending pending b.0 ≡ false }
    {
        let Some(s) = self.slot_of(b) else {
            return false;
        };
        self.slots[s].is_settled()
    }

    /// Whether block `b` is known to be these words, as the disk reads.
    #[tactic(auto, using(crate::proofs::EarlyStates::words_of_slot))]
    pub(crate) fn is_copy(&self, b: Block, page: &[u64]) -> bool
        ensures { result ≡ true → (disk : List (List ℕ)) → (pending : List Bool) → Knows disk pending self.now → HasWords page.now disk b.0 }
    {
        let Some(s) = self.slot_of(b) else {
            return false;
        };
        let at = BLOCK_WORDS * s;
        if self.words.len() < at + BLOCK_WORDS {
            return false;
        }
        are_same(page, &self.words[at..at + BLOCK_WORDS])
    }

    /// Block `b` is to be written, or its page left: it is no longer known.
    #[tactic(auto, using(crate::proofs::EarlyStates::loses_refl, crate::proofs::EarlyStates::loses_trans))]
    pub(crate) fn clear(&mut self, b: Block)
        ensures loses { LosesSome self.old self.new }
        ensures off { (s : ℕ) → owner_of (slot_at self.new s) ≢ Some b.0 }
    {
        let Some(s) = self.slot_of(b) else {
            return;
        };
        self.clear_slot(s, b);
    }

    /// Slot `s` is not of block `b`.
    #[tactic(auto, using(crate::proofs::EarlyStates::loses_refl, crate::proofs::EarlyStates::loses_set, crate::proofs::EarlyStates::free_of_none, crate::proofs::EarlyStates::set_at))]
    fn clear_slot(&mut self, s: usize, b: Block)
        requires slot { s < 64 }
        ensures loses { LosesSome self.old self.new }
        ensures off { owner_of (slot_at self.new s) ≢ Some b.0 }
    {
        if self.slots[s].is_of(b) {
            self.slots[s] = Early::Free;
            self.used = self.used.saturating_sub(1);
        }
    }

    /// Block `b`, which isn't known, was written, as these words.
    #[tactic(auto, using(crate::proofs::EarlyStates::knows_put))]
    pub(crate) fn wrote(&mut self, b: Block, page: &[u64])
        requires words { length page.now ≡ 512 }
        requires off { (s : ℕ) → owner_of (slot_at self.old s) ≢ Some b.0 }
        ensures { (disk : List (List ℕ)) → (pending : List Bool) → Knows disk pending self.old → HasWords page.now disk b.0 → Knows disk pending self.new }
    {
        let s = self.next as usize % SLOTS;
        if self.words.len() < BLOCK_WORDS * SLOTS {
            return;
        }
        let at = b.0 as usize;
        if self.hints.len() <= at {
            return;
        }
        self.used = with_slot(self.used, self.slots[s]);
        self.slots[s] = Early::Written(b);
        self.hints[at] = s as u8;
        put_words(self.words.as_mut_slice(), s, page);
        self.next = s as u32 + 1;
    }

    /// The disk was synced: what was written is settled.
    #[tactic(auto, using(crate::proofs::EarlyStates::settles_refl, crate::proofs::EarlyStates::settles_trans))]
    pub(crate) fn settle(&mut self)
        ensures { SettlesAll self.old self.new }
    {
        for s in 0..SLOTS {
            self.settle_slot(s);
        }
    }

    /// The block of slot `s` is settled.
    #[tactic(auto, using(crate::proofs::EarlyStates::settles_refl, crate::proofs::EarlyStates::settles_set))]
    fn settle_slot(&mut self, s: usize)
        requires slot { s < 64 }
        ensures { SettlesAll self.old self.new }
    {
        if let Early::Written(b) = self.slots[s] {
            self.slots[s] = Early::Settled(b);
        }
    }

    /// A sync failed: what was written is no longer known, so that each page of it is written again before it leaves. A system
    /// may have dropped what it could not bring to the device.
    #[tactic(auto, using(crate::proofs::EarlyStates::loses_refl, crate::proofs::EarlyStates::loses_trans))]
    pub(crate) fn lose(&mut self)
        ensures { LosesSome self.old self.new }
    {
        for s in 0..SLOTS {
            self.lose_slot(s);
        }
    }

    /// The block of slot `s` is no longer known, unless it is settled.
    #[tactic(auto, using(crate::proofs::EarlyStates::loses_refl, crate::proofs::EarlyStates::loses_set))]
    fn lose_slot(&mut self, s: usize)
        requires slot { s < 64 }
        ensures { LosesSome self.old self.new }
    {
        if let Early::Written(_) = self.slots[s] {
            self.slots[s] = Early::Free;
            self.used = self.used.saturating_sub(1);
        }
    }

    /// No block is known any more.
    #[tactic(auto, using(crate::proofs::EarlyStates::knows_none))]
    pub fn lose_all(&mut self)
        ensures { KnowsNone self.new }
    {
        self.slots = no_blocks();
        self.used = 0;
    }
}
