//! Blocks leave the cache without a write, and come into it as zeros, while no update is open.

ghost use Rattle.frame_pool.specs.Orders.{freed_first, used_last};
ghost use Rattle.frame_pool.specs.Pools.{order_of};
ghost use Rattle.cached_pages.specs.Uses.{AllStay, DirtiesOnly, OthersStay};
ghost use Rattle.std.specs.Prelude.{◌≡◌, ◌<◌, ◌+◌, ◌*◌, ℕ, true, false, None, Some, OnErr, OnOk, IsErr, length, slice_index};
ghost use Rattle.rio_base.specs.Blocks.{InRange};
ghost use Rattle.rio_base.specs.Machine.{Lasts, StepEnds};
ghost use Rattle.rio_base.specs.Volume.{cleared};
ghost use Rattle.rio_model.specs.Registry.{frames_of, is_valid, tag_at};
ghost use Rattle.rio_model.specs.Cover.{Keeps, Narrows, entry_of_block, frame_page, is_loose, reads};
ghost use Rattle.write_back.specs.Flushing.{SameDisk};
ghost use Rattle.cached_pages.specs.Caches.{Adds, CacheSound, SameTables, cache_kept};
ghost use Rattle.cached_pages.specs.Stores.{Frees, Marks, SameCached};

use crate::filling::fill;
use crate::tables::{CacheTables, page_of};
use registry::{clear, install};
use rio_base::{BLOCK_WORDS, Block, Machine, PageName, Stopped};

/// The words of a new page.
const ZEROS: [u64; BLOCK_WORDS] = [0; BLOCK_WORDS];

impl CacheTables {
    /// Marks block `b` as forgotten, or takes the mark away.
    #[tactic(auto, using(crate::proofs::Freed::marks_set))]
    pub fn mark(&mut self, b: Block, forgotten: bool)
        requires place { b.0 < length self.old.forgotten.items }
        ensures marks { Marks b.0 forgotten self.old self.new }
    {
        self.forgotten[b.0 as usize] = forgotten;
    }
}

/// Takes block `b` from frame `k` without writing it: one step. `Stopped` changes nothing.
#[tactic(auto, using(crate::proofs::Freed::can_clear, crate::proofs::Stills::still_rest, crate::proofs::Stills::still_same))]
pub fn drop_frame<M: Machine>(
    m: &mut M,
    t: &mut CacheTables,
    k: u32,
    b: Block,
) -> Result<(), Stopped>
    requires sound { CacheSound (M.contents m.old) (length (M.run m.old).scratch) t.old }
    requires found { entry_of_block (M.contents m.old).words b.0 ≡ Some k }
    requires idle { (cache_kept (M.contents m.old) t.old).updating ≡ false }
    ensures sound { CacheSound (M.contents m.new) (length (M.run m.new).scratch) t.new }
    ensures frees { Frees b.0 (M.contents m.old) (M.contents m.new) }
    ensures gone { OnOk result (entry_of_block (M.contents m.new).words b.0 ≡ None) }
    ensures same { IsErr result → M.contents m.new ≡ M.contents m.old }
    ensures stay { OthersStay b.0 (M.contents m.old).words (M.contents m.new).words }
    ensures narrows { Narrows (M.contents m.old).words (M.contents m.new).words }
    ensures marks { DirtiesOnly None (M.contents m.old).words (M.contents m.new).words }
    ensures tables { SameTables t.old t.new }
    ensures order { OnErr result (order_of t.new.pool ≡ order_of t.old.pool) }
    ensures freed { OnOk result (order_of t.new.pool ≡ freed_first k (order_of t.old.pool)) }
    ensures still { SameDisk (M.contents m.old) (M.contents m.new) }
    ensures lasts { Lasts (M.contents m.old) (M.contents m.new) }
    ensures ends { StepEnds (M.run m.old) (M.run m.new) (IsErr result) }
{
    clear(m, k)?;
    t.pool.unbind(k);
    Ok(())
}

/// Fills frame `k`, which no entry has, with zeros: a step for each word. No block changes.
#[tactic(auto, using(crate::proofs::Stills::still_rest))]
pub(crate) fn zero_frame<M: Machine>(m: &mut M, t: &mut CacheTables, k: u32) -> Result<(), Stopped>
    requires sound { CacheSound (M.contents m.old) (length (M.run m.old).scratch) t.old }
    requires entry { k < frames_of (M.contents m.old).words }
    requires invalid { is_valid (tag_at (M.contents m.old).words k) ≡ false }
    ensures sound { CacheSound (M.contents m.new) (length (M.run m.new).scratch) t.new }
    ensures keeps { Keeps (M.contents m.old) (M.contents m.new) }
    ensures zeros { OnOk result ((w : ℕ) → w < 512 → slice_index (M.contents m.new).words (512 * frame_page (M.contents m.new).words k + w) ≡ 0) }
    ensures tag { tag_at (M.contents m.new).words k ≡ tag_at (M.contents m.old).words k }
    ensures cached { SameCached (M.contents m.old).words (M.contents m.new).words }
    ensures marks { DirtiesOnly None (M.contents m.old).words (M.contents m.new).words }
    ensures tables { t.new ≡ t.old }
    ensures still { SameDisk (M.contents m.old) (M.contents m.new) }
    ensures lasts { Lasts (M.contents m.old) (M.contents m.new) }
    ensures ends { StepEnds (M.run m.old) (M.run m.new) (IsErr result) }
{
    let page = page_of(m, t, k);
    fill(m, k, page, &ZEROS)?;
    Ok(())
}

/// Makes frame `k`, which is all zeros, the page of block `b`: dirty, since the disk's block is another. `Stopped`
/// changes no block.
#[tactic(auto, using(crate::proofs::Stores::can_change, crate::proofs::Stills::still_rest))]
fn bind_zeros<M: Machine>(
    m: &mut M,
    t: &mut CacheTables,
    k: u32,
    b: Block,
    name: Option<PageName>,
) -> Result<(), Stopped>
    requires sound { CacheSound (M.contents m.old) (length (M.run m.old).scratch) t.old }
    requires entry { k < frames_of (M.contents m.old).words }
    requires invalid { is_valid (tag_at (M.contents m.old).words k) ≡ false }
    requires block { b.0 < length (M.contents m.old).disk }
    requires uncached { entry_of_block (M.contents m.old).words b.0 ≡ None }
    requires name { InRange name }
    requires zeros { (w : ℕ) → w < 512 → slice_index (M.contents m.old).words (512 * frame_page (M.contents m.old).words k + w) ≡ 0 }
    ensures sound { CacheSound (M.contents m.new) (length (M.run m.new).scratch) t.new }
    ensures reads { OnOk result (reads (M.contents m.new) ≡ cleared (reads (M.contents m.old)) b.0) }
    ensures firm { OnOk result (is_loose (M.contents m.new) b.0 ≡ false) }
    ensures frees { Frees b.0 (M.contents m.old) (M.contents m.new) }
    ensures adds { Adds b.0 name (M.contents m.old).words (M.contents m.new).words }
    ensures tables { SameTables t.old t.new }
    ensures found { OnOk result (entry_of_block (M.contents m.new).words b.0 ≡ Some k) }
    ensures unmade { IsErr result → entry_of_block (M.contents m.new).words b.0 ≡ None }
    ensures stay { AllStay (M.contents m.old).words (M.contents m.new).words }
    ensures marks { DirtiesOnly (Some b.0) (M.contents m.old).words (M.contents m.new).words }
    ensures order { OnOk result (order_of t.new.pool ≡ used_last k (order_of t.old.pool)) }
    ensures still_order { IsErr result → order_of t.new.pool ≡ order_of t.old.pool }
    ensures still { SameDisk (M.contents m.old) (M.contents m.new) }
    ensures lasts { Lasts (M.contents m.old) (M.contents m.new) }
    ensures ends { StepEnds (M.run m.old) (M.run m.new) (IsErr result) }
{
    install(m, k, b, name, true)?;
    t.pool.bind(k, b);
    Ok(())
}

/// Makes block `b` read as zeros in frame `k`, which no entry has. `Stopped` changes no block.
#[tactic(auto, using(rio_base::proofs::MachineRules::lasts_trans, crate::proofs::Stills::still_trans))]
pub fn bring_zeros<M: Machine>(
    m: &mut M,
    t: &mut CacheTables,
    k: u32,
    b: Block,
    name: Option<PageName>,
) -> Result<(), Stopped>
    requires sound { CacheSound (M.contents m.old) (length (M.run m.old).scratch) t.old }
    requires entry { k < frames_of (M.contents m.old).words }
    requires invalid { is_valid (tag_at (M.contents m.old).words k) ≡ false }
    requires block { b.0 < length (M.contents m.old).disk }
    requires uncached { entry_of_block (M.contents m.old).words b.0 ≡ None }
    requires name { InRange name }
    ensures sound { CacheSound (M.contents m.new) (length (M.run m.new).scratch) t.new }
    ensures reads { OnOk result (reads (M.contents m.new) ≡ cleared (reads (M.contents m.old)) b.0) }
    ensures firm { OnOk result (is_loose (M.contents m.new) b.0 ≡ false) }
    ensures frees { Frees b.0 (M.contents m.old) (M.contents m.new) }
    ensures adds { Adds b.0 name (M.contents m.old).words (M.contents m.new).words }
    ensures tables { SameTables t.old t.new }
    ensures found { OnOk result (entry_of_block (M.contents m.new).words b.0 ≡ Some k) }
    ensures unmade { IsErr result → entry_of_block (M.contents m.new).words b.0 ≡ None }
    ensures stay { AllStay (M.contents m.old).words (M.contents m.new).words }
    ensures marks { DirtiesOnly (Some b.0) (M.contents m.old).words (M.contents m.new).words }
    ensures order { OnOk result (order_of t.new.pool ≡ used_last k (order_of t.old.pool)) }
    ensures still_order { IsErr result → order_of t.new.pool ≡ order_of t.old.pool }
    ensures still { SameDisk (M.contents m.old) (M.contents m.new) }
    ensures lasts { Lasts (M.contents m.old) (M.contents m.new) }
    ensures ends { StepEnds (M.run m.old) (M.run m.new) (IsErr result) }
{
    zero_frame(m, t, k)?;
    bind_zeros(m, t, k, b, name)?;
    Ok(())
}
