//! Blocks come into frames, and leave them.

ghost use Rattle.frame_pool.specs.Orders.{freed_first, used_last};
ghost use Rattle.cached_pages.specs.Uses.{AllStay, DirtiesOnly, FailedUse, FreesNext, LeavesFrame, LeavesOldest, SameOrderBut, UsedLast};
ghost use Rattle.std.specs.Prelude.{◌≡◌, ◌<◌, ◌≤◌, ◌+◌, ◌*◌, ℕ, true, false, Some, None, IfOk, OnOk, IsErr, IsErrOf, is_some, length, slice_index};
ghost use Rattle.rio_base.specs.Blocks.{InRange};
ghost use Rattle.rio_base.specs.Disks.{raised};
ghost use Rattle.rio_base.specs.Machine.{FaultCause, Lasts, StepEnds};
ghost use Rattle.rio_model.specs.Registry.{IsValid, frames_of, is_dirty, is_valid, tag_at};
ghost use Rattle.rio_model.specs.Cover.{Coherent, Keeps, Narrows, entry_of_block, frame_page, home_word};
ghost use Rattle.frame_pool.specs.Pools.{is_pinned, least_recent, order_of};
ghost use Rattle.write_back.specs.Flushing.{SameDisk};
ghost use Rattle.cached_pages.specs.Caches.{Adds, CacheSound, FewWrites, SameTables, SameTouches};

use crate::filling::{fill, install_clean, read_home};
use crate::leaving::prepare;
use crate::tables::CacheTables;
use registry::{Tag, frame_page_of, load_tag};
use rio_base::{Block, Machine, PageName, Stopped, VolFail};
use write_back::release;

/// Evicts the block of frame `k`, which isn't pinned: with one block write at most, if its page is dirty.
#[tactic(auto, using(crate::proofs::Kept::bare_unpinned, crate::proofs::Rooms::frame_bound))]
fn evict_frame<M: Machine>(m: &mut M, t: &mut CacheTables, k: u32) -> Result<(), VolFail>
    requires sound { CacheSound (M.contents m.old) (length (M.run m.old).scratch) t.old }
    requires valid { IsValid (M.contents m.old).words k }
    requires unpinned { is_pinned t.old.pool k ≡ false }
    ensures sound { CacheSound (M.contents m.new) (length (M.run m.new).scratch) t.new }
    ensures keeps { Keeps (M.contents m.old) (M.contents m.new) }
    ensures narrows { Narrows (M.contents m.old).words (M.contents m.new).words }
    ensures gone { OnOk result (tag_at (M.contents m.new).words k ≡ 0) }
    ensures one_write { (M.contents m.new).writes ≤ raised (M.contents m.old).writes 1 }
    ensures clean_entry { is_dirty (tag_at (M.contents m.old).words k) ≡ false → SameDisk (M.contents m.old) (M.contents m.new) }
    ensures touches { SameTouches (M.contents m.old).words (M.contents m.new).words }
    ensures tables { SameTables t.old t.new }
    ensures leaves { LeavesFrame k (M.contents m.old).words (M.contents m.new).words }
    ensures marks { DirtiesOnly None (M.contents m.old).words (M.contents m.new).words }
    ensures order { IsErr result → order_of t.new.pool ≡ order_of t.old.pool }
    ensures freed { OnOk result (order_of t.new.pool ≡ freed_first k (order_of t.old.pool)) }
    ensures lasts { Lasts (M.contents m.old) (M.contents m.new) }
    ensures fault { FaultCause (M.contents m.old) (M.contents m.new) (IsErrOf result VolFail.Fault) }
    ensures ends { StepEnds (M.run m.old) (M.run m.new) (IsErrOf result VolFail.Stopped) }
{
    prepare(m, t, k)?;
    let block = tag_of(m, k).block();
    release(m, k)?;
    t.pool.unbind(k);
    t.early.clear(block);
    Ok(())
}

/// Makes a frame free for block `b`, which isn't cached.
#[tactic(auto, using(crate::proofs::Stills::still_refl, crate::proofs::Stills::few_still, crate::proofs::Touched::touches_refl, crate::proofs::Kept::tables_refl, crate::proofs::Kept::pins_fit, rio_model::proofs::CoverStands::narrows_refl, rio_model::proofs::CoverSteps::keeps_refl, rio_base::proofs::MachineRules::steps_refl, rio_base::proofs::MachineRules::lasts_refl, crate::proofs::Uses::leaves_refl, crate::proofs::Uses::leaves_frame, crate::proofs::Uses::order_refl))]
pub fn make_room<M: Machine>(m: &mut M, t: &mut CacheTables, b: Block) -> Result<u32, VolFail>
    requires sound { CacheSound (M.contents m.old) (length (M.run m.old).scratch) t.old }
    requires uncached { entry_of_block (M.contents m.old).words b.0 ≡ None }
    requires block { b.0 < length (M.contents m.old).disk }
    ensures sound { CacheSound (M.contents m.new) (length (M.run m.new).scratch) t.new }
    ensures keeps { Keeps (M.contents m.old) (M.contents m.new) }
    ensures narrows { Narrows (M.contents m.old).words (M.contents m.new).words }
    ensures room { IfOk result (λ k. (k < frames_of (M.contents m.new).words) × (is_valid (tag_at (M.contents m.new).words k) ≡ false)) }
    ensures writes { FewWrites b.0 t.old (M.contents m.old) (M.contents m.new) }
    ensures touches { SameTouches (M.contents m.old).words (M.contents m.new).words }
    ensures tables { SameTables t.old t.new }
    ensures chosen { IfOk result (λ k. least_recent t.old.pool ≡ Some k) }
    ensures leaves { LeavesOldest t.old (M.contents m.old).words (M.contents m.new).words }
    ensures marks { DirtiesOnly None (M.contents m.old).words (M.contents m.new).words }
    ensures order { IfOk result (λ k. SameOrderBut k t.old t.new) }
    ensures freed { FreesNext t.old t.new }
    ensures lasts { Lasts (M.contents m.old) (M.contents m.new) }
    ensures fault { FaultCause (M.contents m.old) (M.contents m.new) (IsErrOf result VolFail.Fault) }
    ensures ends { StepEnds (M.run m.old) (M.run m.new) (IsErrOf result VolFail.Stopped) }
{
    let k = t.pool.victim();
    if !tag_of(m, k).is_valid() {
        return Ok(k);
    }
    evict_frame(m, t, k)?;
    Ok(k)
}

/// The tag of entry `k`.
#[tactic(auto, using(crate::proofs::Fills::layout_now))]
pub fn tag_of<M: Machine>(m: &M, k: u32) -> Tag
    requires coherent { Coherent (M.contents m.now) (length (M.run m.now).scratch) }
    requires entry { k < frames_of (M.contents m.now).words }
    ensures { result.0 ≡ tag_at (M.contents m.now).words k }
{
    load_tag(m, k)
}

/// Reads block `b` into frame `k`, which is free: no entry has it yet.
#[tactic(auto, using(crate::proofs::Rooms::keeps_then, rio_base::proofs::MachineRules::ends_then, crate::proofs::Rooms::lasts_then, crate::proofs::Touched::touches_words, crate::proofs::Stills::still_trans, crate::proofs::Stills::still_rest, crate::proofs::Uses::stay_words))]
fn fill_frame<M: Machine>(m: &mut M, t: &mut CacheTables, k: u32, b: Block) -> Result<(), VolFail>
    requires sound { CacheSound (M.contents m.old) (length (M.run m.old).scratch) t.old }
    requires entry { k < frames_of (M.contents m.old).words }
    requires invalid { is_valid (tag_at (M.contents m.old).words k) ≡ false }
    requires block { b.0 < length (M.contents m.old).disk }
    ensures sound { CacheSound (M.contents m.new) (length (M.run m.new).scratch) t.new }
    ensures keeps { Keeps (M.contents m.old) (M.contents m.new) }
    ensures narrows { Narrows (M.contents m.old).words (M.contents m.new).words }
    ensures home { OnOk result ((w : ℕ) → w < 512 → slice_index (M.contents m.new).words (512 * frame_page (M.contents m.new).words k + w) ≡ home_word (M.contents m.new).disk b.0 w) }
    ensures tag { tag_at (M.contents m.new).words k ≡ tag_at (M.contents m.old).words k }
    ensures still { SameDisk (M.contents m.old) (M.contents m.new) }
    ensures touches { SameTouches (M.contents m.old).words (M.contents m.new).words }
    ensures tables { SameTables t.old t.new }
    ensures stay { AllStay (M.contents m.old).words (M.contents m.new).words }
    ensures marks { DirtiesOnly None (M.contents m.old).words (M.contents m.new).words }
    ensures pool { t.new.pool ≡ t.old.pool }
    ensures lasts { Lasts (M.contents m.old) (M.contents m.new) }
    ensures fault { FaultCause (M.contents m.old) (M.contents m.new) (IsErrOf result VolFail.Fault) }
    ensures ends { StepEnds (M.run m.old) (M.run m.new) (IsErrOf result VolFail.Stopped) }
{
    read_home(m, b, &mut t.buffer)?;
    let page = frame_page_of(m, k);
    fill(m, k, page, t.buffer.as_slice())?;
    Ok(())
}

/// Makes frame `k`, which has block `b`, this block's.
fn bind_frame<M: Machine>(
    m: &mut M,
    t: &mut CacheTables,
    k: u32,
    b: Block,
    name: Option<PageName>,
) -> Result<(), Stopped>
    requires sound { CacheSound (M.contents m.old) (length (M.run m.old).scratch) t.old }
    requires entry { k < frames_of (M.contents m.old).words }
    requires invalid { is_valid (tag_at (M.contents m.old).words k) ≡ false }
    requires block { b.0 < length (M.contents m.old).disk }
    requires uncached { entry_of_block (M.contents m.old).words b.0 ≡ None }
    requires name { InRange name }
    requires home { (w : ℕ) → w < 512 → slice_index (M.contents m.old).words (512 * frame_page (M.contents m.old).words k + w) ≡ home_word (M.contents m.old).disk b.0 w }
    ensures sound { CacheSound (M.contents m.new) (length (M.run m.new).scratch) t.new }
    ensures keeps { Keeps (M.contents m.old) (M.contents m.new) }
    ensures adds { Adds b.0 name (M.contents m.old).words (M.contents m.new).words }
    ensures found { OnOk result (entry_of_block (M.contents m.new).words b.0 ≡ Some k) }
    ensures unmade { IsErr result → entry_of_block (M.contents m.new).words b.0 ≡ None }
    ensures still { SameDisk (M.contents m.old) (M.contents m.new) }
    ensures touches { SameTouches (M.contents m.old).words (M.contents m.new).words }
    ensures tables { SameTables t.old t.new }
    ensures stay { AllStay (M.contents m.old).words (M.contents m.new).words }
    ensures marks { DirtiesOnly None (M.contents m.old).words (M.contents m.new).words }
    ensures order { OnOk result (order_of t.new.pool ≡ used_last k (order_of t.old.pool)) }
    ensures still_order { IsErr result → order_of t.new.pool ≡ order_of t.old.pool }
    ensures lasts { Lasts (M.contents m.old) (M.contents m.new) }
    ensures ends { StepEnds (M.run m.old) (M.run m.new) (IsErr result) }
{
    install_clean(m, k, b, name)?;
    t.pool.bind(k, b);
    Ok(())
}

/// Brings block `b` into frame `k`, which is free.
#[tactic(auto, using(crate::proofs::Rooms::keeps_then, rio_base::proofs::MachineRules::ends_then, crate::proofs::Rooms::lasts_then, crate::proofs::Rooms::adds_narrows, crate::proofs::Rooms::adds_after, crate::proofs::Rooms::none_still, crate::proofs::Stills::still_trans, crate::proofs::Touched::touches_trans, crate::proofs::Kept::tables_trans, crate::proofs::Uses::stay_trans))]
fn bring<M: Machine>(
    m: &mut M,
    t: &mut CacheTables,
    k: u32,
    b: Block,
    name: Option<PageName>,
) -> Result<(), VolFail>
    requires sound { CacheSound (M.contents m.old) (length (M.run m.old).scratch) t.old }
    requires entry { k < frames_of (M.contents m.old).words }
    requires invalid { is_valid (tag_at (M.contents m.old).words k) ≡ false }
    requires block { b.0 < length (M.contents m.old).disk }
    requires uncached { entry_of_block (M.contents m.old).words b.0 ≡ None }
    requires name { InRange name }
    ensures sound { CacheSound (M.contents m.new) (length (M.run m.new).scratch) t.new }
    ensures keeps { Keeps (M.contents m.old) (M.contents m.new) }
    ensures adds { Adds b.0 name (M.contents m.old).words (M.contents m.new).words }
    ensures found { OnOk result (entry_of_block (M.contents m.new).words b.0 ≡ Some k) }
    ensures unmade { IsErr result → entry_of_block (M.contents m.new).words b.0 ≡ None }
    ensures unfetched { IsErrOf result VolFail.Fault → Narrows (M.contents m.old).words (M.contents m.new).words }
    ensures still { SameDisk (M.contents m.old) (M.contents m.new) }
    ensures touches { SameTouches (M.contents m.old).words (M.contents m.new).words }
    ensures tables { SameTables t.old t.new }
    ensures stay { AllStay (M.contents m.old).words (M.contents m.new).words }
    ensures marks { DirtiesOnly None (M.contents m.old).words (M.contents m.new).words }
    ensures order { OnOk result (order_of t.new.pool ≡ used_last k (order_of t.old.pool)) }
    ensures still_order { IsErr result → order_of t.new.pool ≡ order_of t.old.pool }
    ensures lasts { Lasts (M.contents m.old) (M.contents m.new) }
    ensures fault { FaultCause (M.contents m.old) (M.contents m.new) (IsErrOf result VolFail.Fault) }
    ensures ends { StepEnds (M.run m.old) (M.run m.new) (IsErrOf result VolFail.Stopped) }
{
    fill_frame(m, t, k, b)?;
    bind_frame(m, t, k, b, name)?;
    Ok(())
}

/// The frame of block `b`, which is fetched if it isn't cached: then under this name. It counts as a use.
#[tactic(auto, using(crate::proofs::Rooms::none_bound, crate::proofs::Rooms::some_bound, rio_model::proofs::CoverSteps::keeps_refl, rio_base::proofs::MachineRules::steps_refl, rio_base::proofs::MachineRules::lasts_refl, rio_model::proofs::CoverStands::narrows_refl, crate::proofs::Rooms::adds_narrows, crate::proofs::Stills::still_refl, crate::proofs::Stills::few_still, crate::proofs::Touched::touches_refl, crate::proofs::Kept::tables_refl, crate::proofs::Uses::leaves_refl))]
pub fn fetch<M: Machine>(
    m: &mut M,
    t: &mut CacheTables,
    b: Block,
    name: Option<PageName>,
) -> Result<u32, VolFail>
    requires sound { CacheSound (M.contents m.old) (length (M.run m.old).scratch) t.old }
    requires block { b.0 < length (M.contents m.old).disk }
    requires name { InRange name }
    ensures sound { CacheSound (M.contents m.new) (length (M.run m.new).scratch) t.new }
    ensures keeps { Keeps (M.contents m.old) (M.contents m.new) }
    ensures adds { Adds b.0 name (M.contents m.old).words (M.contents m.new).words }
    ensures found { IfOk result (λ k. entry_of_block (M.contents m.new).words b.0 ≡ Some k) }
    ensures touches { SameTouches (M.contents m.old).words (M.contents m.new).words }
    ensures tables { SameTables t.old t.new }
    ensures used { OnOk result (UsedLast b.0 (M.contents m.new).words t.old t.new) }
    ensures failed { IsErr result → FailedUse b.0 (M.contents m.new).words t.old t.new }
    ensures leaves { LeavesOldest t.old (M.contents m.old).words (M.contents m.new).words }
    ensures writes { FewWrites b.0 t.old (M.contents m.old) (M.contents m.new) }
    ensures hit { is_some (entry_of_block (M.contents m.old).words b.0) ≡ true → m.new ≡ m.old }
    ensures marks { DirtiesOnly None (M.contents m.old).words (M.contents m.new).words }
    ensures unfetched { IsErrOf result VolFail.Fault → Narrows (M.contents m.old).words (M.contents m.new).words }
    ensures sure { IsErrOf result VolFail.Fault → entry_of_block (M.contents m.old).words b.0 ≡ None }
    ensures lasts { Lasts (M.contents m.old) (M.contents m.new) }
    ensures fault { FaultCause (M.contents m.old) (M.contents m.new) (IsErrOf result VolFail.Fault) }
    ensures ends { StepEnds (M.run m.old) (M.run m.new) (IsErrOf result VolFail.Stopped) }
{
    // Nearly always the block is cached: so what fetches it from the disk is a function of its own, and this one is short.
    if let Some(k) = t.pool.find(b) {
        t.pool.use_slot(k);
        return Ok(k);
    }
    fetch_absent(m, t, b, name)
}

/// Fetches block `b`, which isn't cached, under this name: its frame, which counts as used.
#[tactic(auto, using(crate::proofs::Rooms::keeps_then, rio_base::proofs::MachineRules::ends_then, crate::proofs::Rooms::lasts_then, crate::proofs::Rooms::adds_narrows, crate::proofs::Rooms::adds_after, crate::proofs::Rooms::none_still, crate::proofs::Stills::few_then, crate::proofs::Touched::touches_trans, crate::proofs::Kept::tables_trans, crate::proofs::Uses::leaves_then))]
#[inline(never)]
fn fetch_absent<M: Machine>(
    m: &mut M,
    t: &mut CacheTables,
    b: Block,
    name: Option<PageName>,
) -> Result<u32, VolFail>
    requires sound { CacheSound (M.contents m.old) (length (M.run m.old).scratch) t.old }
    requires block { b.0 < length (M.contents m.old).disk }
    requires uncached { entry_of_block (M.contents m.old).words b.0 ≡ None }
    requires name { InRange name }
    ensures sound { CacheSound (M.contents m.new) (length (M.run m.new).scratch) t.new }
    ensures keeps { Keeps (M.contents m.old) (M.contents m.new) }
    ensures adds { Adds b.0 name (M.contents m.old).words (M.contents m.new).words }
    ensures found { IfOk result (λ k. entry_of_block (M.contents m.new).words b.0 ≡ Some k) }
    ensures touches { SameTouches (M.contents m.old).words (M.contents m.new).words }
    ensures tables { SameTables t.old t.new }
    ensures used { OnOk result (UsedLast b.0 (M.contents m.new).words t.old t.new) }
    ensures failed { IsErr result → FailedUse b.0 (M.contents m.new).words t.old t.new }
    ensures leaves { LeavesOldest t.old (M.contents m.old).words (M.contents m.new).words }
    ensures writes { FewWrites b.0 t.old (M.contents m.old) (M.contents m.new) }
    ensures marks { DirtiesOnly None (M.contents m.old).words (M.contents m.new).words }
    ensures unfetched { IsErrOf result VolFail.Fault → Narrows (M.contents m.old).words (M.contents m.new).words }
    ensures lasts { Lasts (M.contents m.old) (M.contents m.new) }
    ensures fault { FaultCause (M.contents m.old) (M.contents m.new) (IsErrOf result VolFail.Fault) }
    ensures ends { StepEnds (M.run m.old) (M.run m.new) (IsErrOf result VolFail.Stopped) }
{
    let k = make_room(m, t, b)?;
    bring(m, t, k, b, name)?;
    Ok(k)
}
