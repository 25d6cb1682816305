//! Words are stored into blocks. While no update is open, a page is marked dirty before the first word is stored into it,
//! and its size is stored before the word too, so that a stop between two steps loses nothing.

ghost use Rattle.cached_pages.specs.Uses.{AllStay, DirtiesOnly, FailedUse, LeavesOldest, UsedLast};
ghost use Rattle.std.specs.Prelude.{◌≡◌, ◌≢◌, ◌<◌, ◌≤◌, ◌+◌, ℕ, true, None, Some, IfOk, OnOk, OnErr, IsErr, IsErrOf, is_some, length};
ghost use Rattle.rio_base.specs.Blocks.{Drops, InRange};
ghost use Rattle.rio_base.specs.Machine.{FaultCause, Lasts, StepEnds};
ghost use Rattle.rio_base.specs.Volume.{CachesStored, put, put_run, stored_name, widened};
ghost use Rattle.rio_model.specs.Registry.{IsValid, OneEntry, gate_of, is_dirty, shadow_at, tag_at, tag_block};
ghost use Rattle.rio_model.specs.Cover.{HeldEntry, Keeps, entry_of_block, name_in, reads, stands};
ghost use Rattle.rio_model.specs.CoverChanges.{SameEntries};
ghost use Rattle.write_back.specs.Flushing.{SameDisk};
ghost use Rattle.cached_pages.specs.Caches.{CacheSound, FewWrites, SameTables, cache_seen};
ghost use Rattle.cached_pages.specs.Stores.{Rewrites, SameCached, Widens};

use crate::fetching::fetch;
use crate::tables::{CacheTables, page_of};
use page_protect::put_word;
use registry::{load_tag, read_entry, set_dirty, set_size};
use rio_base::{Block, Machine, PageName, Stopped, VolFail};

/// Marks entry `k` dirty, unless it is: a clean one costs one step. `Stopped` changes nothing.
#[tactic(auto, using(crate::proofs::Stores::layout_of, crate::proofs::Stores::can_change, crate::proofs::Stores::cached_refl, crate::proofs::Stores::cached_same, crate::proofs::Stills::still_same, crate::proofs::Stills::still_rest, rio_model::proofs::CoverSteps::keeps_refl, rio_base::proofs::MachineRules::steps_refl, rio_base::proofs::MachineRules::lasts_refl, crate::proofs::Stores::held_refl, crate::proofs::Stores::one_refl))]
pub(crate) fn mark_dirty<M: Machine>(m: &mut M, t: &mut CacheTables, k: u32) -> Result<(), Stopped>
    requires sound { CacheSound (M.contents m.old) (length (M.run m.old).scratch) t.old }
    requires valid { IsValid (M.contents m.old).words k }
    ensures sound { CacheSound (M.contents m.new) (length (M.run m.new).scratch) t.new }
    ensures keeps { Keeps (M.contents m.old) (M.contents m.new) }
    ensures dirty { OnOk result (is_dirty (tag_at (M.contents m.new).words k) ≡ true) }
    ensures one_entry { OneEntry k (M.contents m.old).words (M.contents m.new).words }
    ensures held { HeldEntry k (M.contents m.old).words (M.contents m.new).words }
    ensures cached { SameCached (M.contents m.old).words (M.contents m.new).words }
    ensures tables { t.new ≡ t.old }
    ensures still { SameDisk (M.contents m.old) (M.contents m.new) }
    ensures lasts { Lasts (M.contents m.old) (M.contents m.new) }
    ensures ends { StepEnds (M.run m.old) (M.run m.new) (IsErr result) }
{
    if load_tag(m, k).is_dirty() {
        return Ok(());
    }
    set_dirty(m, k)?;
    Ok(())
}

/// Gives entry `k` the size of the given name, where it is larger than its own: one step then. `Stopped` changes
/// nothing.
#[tactic(auto, using(crate::proofs::Stores::layout_of, crate::proofs::Stores::can_change, crate::proofs::Stills::still_same, crate::proofs::Stills::still_rest, crate::proofs::Widths::widens_same, crate::proofs::Widths::no_name, crate::proofs::Widths::not_wider, rio_model::proofs::CoverSteps::keeps_refl, rio_base::proofs::MachineRules::steps_refl, rio_base::proofs::MachineRules::lasts_refl))]
fn widen<M: Machine>(
    m: &mut M,
    t: &mut CacheTables,
    k: u32,
    name: Option<PageName>,
) -> Result<(), Stopped>
    requires sound { CacheSound (M.contents m.old) (length (M.run m.old).scratch) t.old }
    requires valid { IsValid (M.contents m.old).words k }
    requires name { InRange name }
    ensures sound { CacheSound (M.contents m.new) (length (M.run m.new).scratch) t.new }
    ensures keeps { Keeps (M.contents m.old) (M.contents m.new) }
    ensures widens { Widens k name (M.contents m.old).words (M.contents m.new).words }
    ensures named { OnOk result (name_in (M.contents m.new).words (Some k) ≡ widened (name_in (M.contents m.old).words (Some k)) name) }
    ensures tag { tag_at (M.contents m.new).words k ≡ tag_at (M.contents m.old).words k }
    ensures marks { DirtiesOnly None (M.contents m.old).words (M.contents m.new).words }
    ensures tables { t.new ≡ t.old }
    ensures still { SameDisk (M.contents m.old) (M.contents m.new) }
    ensures lasts { Lasts (M.contents m.old) (M.contents m.new) }
    ensures ends { StepEnds (M.run m.old) (M.run m.new) (IsErr result) }
{
    let Some(name) = name else {
        return Ok(());
    };
    if u64::from(name.size) <= read_entry(m, k).size {
        return Ok(());
    }
    set_size(m, k, name.size)?;
    Ok(())
}

/// Makes the page of entry `k` ready for a store under this name: dirty, and of the larger size.
#[tactic(auto, using(crate::proofs::StoreCalls::valid_cached, crate::proofs::StoreCalls::dirty_after, rio_model::proofs::CoverSteps::keeps_trans, crate::proofs::Stills::still_trans, rio_base::proofs::MachineRules::ends_then, rio_base::proofs::MachineRules::lasts_trans))]
fn make_ready<M: Machine>(
    m: &mut M,
    t: &mut CacheTables,
    k: u32,
    name: Option<PageName>,
) -> Result<(), Stopped>
    requires sound { CacheSound (M.contents m.old) (length (M.run m.old).scratch) t.old }
    requires valid { IsValid (M.contents m.old).words k }
    requires name { InRange name }
    ensures sound { CacheSound (M.contents m.new) (length (M.run m.new).scratch) t.new }
    ensures keeps { Keeps (M.contents m.old) (M.contents m.new) }
    ensures widens { Widens k name (M.contents m.old).words (M.contents m.new).words }
    ensures named { OnOk result (name_in (M.contents m.new).words (Some k) ≡ widened (name_in (M.contents m.old).words (Some k)) name) }
    ensures dirty { OnOk result (is_dirty (tag_at (M.contents m.new).words k) ≡ true) }
    ensures marks { DirtiesOnly (Some (tag_block (tag_at (M.contents m.old).words k))) (M.contents m.old).words (M.contents m.new).words }
    ensures tables { t.new ≡ t.old }
    ensures still { SameDisk (M.contents m.old) (M.contents m.new) }
    ensures lasts { Lasts (M.contents m.old) (M.contents m.new) }
    ensures ends { StepEnds (M.run m.old) (M.run m.new) (IsErr result) }
{
    mark_dirty(m, t, k)?;
    widen(m, t, k, name)?;
    Ok(())
}

/// The frame of block `b`, fetched if it isn't cached, and ready for a store under this name: dirty, and of the
/// larger size.
#[tactic(auto, using(crate::proofs::StoreCalls::drops_narrows, rio_base::proofs::MachineRules::ends_then, rio_model::proofs::CoverSteps::keeps_trans, rio_base::proofs::MachineRules::lasts_trans))]
pub fn ready<M: Machine>(
    m: &mut M,
    t: &mut CacheTables,
    b: Block,
    name: Option<PageName>,
) -> Result<u32, VolFail>
    requires sound { CacheSound (M.contents m.old) (length (M.run m.old).scratch) t.old }
    requires block { b.0 < length (M.contents m.old).disk }
    requires name { InRange name }
    ensures sound { CacheSound (M.contents m.new) (length (M.run m.new).scratch) t.new }
    ensures keeps { Keeps (M.contents m.old) (M.contents m.new) }
    ensures found { IfOk result (λ k. entry_of_block (M.contents m.new).words b.0 ≡ Some k) }
    ensures dirty { IfOk result (λ k. is_dirty (tag_at (M.contents m.new).words k) ≡ true) }
    ensures caches { CachesStored (cache_seen (M.contents m.old)) (cache_seen (M.contents m.new)) b.0 name }
    ensures named { OnOk result ((cache_seen (M.contents m.new)).names b.0 ≡ stored_name ((cache_seen (M.contents m.old)).cached b.0) ((cache_seen (M.contents m.old)).names b.0) name) }
    ensures drops { IsErrOf result VolFail.Fault → Drops (cache_seen (M.contents m.old)) (cache_seen (M.contents m.new)) }
    ensures tables { SameTables t.old t.new }
    ensures used { OnOk result (UsedLast b.0 (M.contents m.new).words t.old t.new) }
    ensures failed { IsErr result → FailedUse b.0 (M.contents m.new).words t.old t.new }
    ensures leaves { LeavesOldest t.old (M.contents m.old).words (M.contents m.new).words }
    ensures stay { is_some (entry_of_block (M.contents m.old).words b.0) ≡ true → AllStay (M.contents m.old).words (M.contents m.new).words }
    ensures marks { DirtiesOnly (Some b.0) (M.contents m.old).words (M.contents m.new).words }
    ensures writes { FewWrites b.0 t.old (M.contents m.old) (M.contents m.new) }
    ensures lasts { Lasts (M.contents m.old) (M.contents m.new) }
    ensures fault { FaultCause (M.contents m.old) (M.contents m.new) (IsErrOf result VolFail.Fault) }
    ensures ends { StepEnds (M.run m.old) (M.run m.new) (IsErrOf result VolFail.Stopped) }
{
    let k = fetch(m, t, b, name)?;
    make_ready(m, t, k, name)?;
    Ok(k)
}

/// Stores word `w` of the frame of entry `k`, which is of block `b` and dirty: one step. `Stopped` changes nothing.
#[tactic(auto, using(crate::proofs::Stores::sound_same, crate::proofs::Stores::cached_same, crate::proofs::Stills::still_same))]
pub fn put_frame<M: Machine>(
    m: &mut M,
    t: &mut CacheTables,
    k: u32,
    b: Block,
    w: u16,
    v: u64,
) -> Result<(), Stopped>
    requires sound { CacheSound (M.contents m.old) (length (M.run m.old).scratch) t.old }
    requires found { entry_of_block (M.contents m.old).words b.0 ≡ Some k }
    requires dirty { is_dirty (tag_at (M.contents m.old).words k) ≡ true }
    requires word { w < 512 }
    ensures sound { CacheSound (M.contents m.new) (length (M.run m.new).scratch) t.new }
    ensures rewrites { OnOk result (Rewrites (put (reads (M.contents m.old)) b.0 w v) (M.contents m.old) (M.contents m.new)) }
    ensures same { OnErr result (M.contents m.new ≡ M.contents m.old) }
    ensures cached { SameCached (M.contents m.old).words (M.contents m.new).words }
    ensures marks { DirtiesOnly None (M.contents m.old).words (M.contents m.new).words }
    ensures tables { t.new ≡ t.old }
    ensures still { SameDisk (M.contents m.old) (M.contents m.new) }
    ensures lasts { Lasts (M.contents m.old) (M.contents m.new) }
    ensures ends { StepEnds (M.run m.old) (M.run m.new) (IsErr result) }
{
    let page = page_of(m, t, k);
    put_word(m, page, w, v)?;
    Ok(())
}

/// Stores a run of words of the frame of entry `k`, which is of block `b` and dirty, from word `w` on in rising order:
/// one step each, all in one window. `Stopped` leaves a front of them stored. In an open update what stands stays where
/// the entry has a shadow.
#[tactic(auto, using(crate::proofs::Stills::still_rest))]
pub fn put_frame_run<M: Machine>(
    m: &mut M,
    t: &mut CacheTables,
    k: u32,
    b: Block,
    w: u16,
    from: &[u64],
) -> Result<(), Stopped>
    requires sound { CacheSound (M.contents m.old) (length (M.run m.old).scratch) t.old }
    requires found { entry_of_block (M.contents m.old).words b.0 ≡ Some k }
    requires dirty { is_dirty (tag_at (M.contents m.old).words k) ≡ true }
    requires within { w + length from.now ≤ 512 }
    ensures sound { CacheSound (M.contents m.new) (length (M.run m.new).scratch) t.new }
    ensures rewrites { OnOk result (Rewrites (put_run (reads (M.contents m.old)) b.0 w (length from.now) from.now) (M.contents m.old) (M.contents m.new)) }
    ensures front { OnErr result ((n : ℕ) × (n ≤ length from.now) × Rewrites (put_run (reads (M.contents m.old)) b.0 w n from.now) (M.contents m.old) (M.contents m.new)) }
    ensures hidden { gate_of (M.contents m.old).words ≡ 1 → shadow_at (M.contents m.old).words k ≢ 0 → stands (M.contents m.new) ≡ stands (M.contents m.old) }
    ensures entries { SameEntries (M.contents m.old).words (M.contents m.new).words }
    ensures cached { SameCached (M.contents m.old).words (M.contents m.new).words }
    ensures marks { DirtiesOnly None (M.contents m.old).words (M.contents m.new).words }
    ensures tables { t.new ≡ t.old }
    ensures still { SameDisk (M.contents m.old) (M.contents m.new) }
    ensures lasts { Lasts (M.contents m.old) (M.contents m.new) }
    ensures ends { StepEnds (M.run m.old) (M.run m.new) (IsErr result) }
{
    let page = page_of(m, t, k);
    page_protect::put_run(m, page, w, from)?;
    Ok(())
}
