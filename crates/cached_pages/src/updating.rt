//! Updates of several blocks that stand at once.

ghost use Rattle.std.specs.Prelude.{◌≡◌, ◌≢◌, ◌⊎◌, ◌+◌, ◌<◌, ◌≤◌, ℕ, true, false, None, Some, OnErr, OnOk, IsErr, length, slice_index};
ghost use Rattle.rio_base.specs.Machine.{Lasts, StepEnds};
ghost use Rattle.rio_model.specs.Cover.{Coherent, Keeps, SameNames, frame_page};
ghost use Rattle.rio_model.specs.CoverChanges.{SameEntries};
ghost use Rattle.rio_model.specs.CoverFills.{Puts};
ghost use Rattle.rio_model.specs.Registry.{IsValid, frames_of, gate_of, is_data, is_dirty, shadow_at, tag_at, tag_block};
ghost use Rattle.frame_pool.specs.Pools.{frames_in, is_pinned, order_of};
ghost use Rattle.write_back.specs.Flushing.{SameDisk};
ghost use Rattle.cached_pages.specs.Caches.{CacheSound, IsListed, SameTables};
ghost use Rattle.cached_pages.specs.Uses.{DirtiesOnly};
ghost use Rattle.cached_pages.specs.Updating.{GivesShadow, SameButPins, SamePages};

use crate::storing::mark_dirty;
use crate::tables::CacheTables;
use page_protect::put_word;
use registry::read_entry;
use rio_base::{Block, Machine, Page, Stopped};
use shadow_pages::shadow;

/// The frames that were given a shadow since the last update began.
pub fn listed(t: &CacheTables) -> &[u32]
    requires most { t.now.shadows ≤ 16 }
    requires room { length t.now.shadowed ≡ 16 }
    ensures count { length result.now ≡ t.now.shadows }
    ensures each { (i : ℕ) → i < t.now.shadows → slice_index result.now i ≡ slice_index t.now.shadowed i }
{
    &t.shadowed[..t.shadows as usize]
}

/// Empties the list of shadows.
pub fn clear_list(t: &mut CacheTables)
    ensures none { t.new.shadows ≡ 0 }
    ensures pool { t.new.pool ≡ t.old.pool }
    ensures rest { SameButPins t.old t.new }
{
    t.shadows = 0;
}

/// Lets the frames go that were given a shadow since the last update began: no frame is pinned then.
pub fn unpin_all(t: &mut CacheTables)
    requires most { t.old.shadows ≤ 16 }
    requires room { length t.old.shadowed ≡ 16 }
    requires within { (i : ℕ) → i < t.old.shadows → slice_index t.old.shadowed i < frames_in t.old.pool }
    requires pinned { (k : ℕ) → is_pinned t.old.pool k ≡ true → IsListed t.old k }
    ensures unpinned { (k : ℕ) → is_pinned t.new.pool k ≡ false }
    ensures rest { SameButPins t.old t.new }
    ensures list { SameTables t.old t.new }
    ensures order { order_of t.new.pool ≡ order_of t.old.pool }
{
    for i in 0..t.shadows as usize {
        let k = t.shadowed[i];
        t.pool.unpin(k);
    }
}

/// Stores a word of page `p`, the frame of entry `k`, which is dirty, of block `b`, and part of the open update.
pub fn put_edit<M: Machine>(
    m: &mut M,
    p: Page,
    k: u32,
    b: Block,
    w: u16,
    v: u64,
) -> Result<(), Stopped>
    requires coherent { Coherent (M.contents m.old) (length (M.run m.old).scratch) }
    requires closed { (M.contents m.old).open_page ≡ None }
    requires valid { IsValid (M.contents m.old).words k }
    requires block { tag_block (tag_at (M.contents m.old).words k) ≡ b.0 }
    requires dirty { is_dirty (tag_at (M.contents m.old).words k) ≡ true }
    requires page { p.0 ≡ frame_page (M.contents m.old).words k }
    requires word { w < 512 }
    ensures puts { OnOk result (Puts k b.0 w v (M.contents m.old) (M.contents m.new)) }
    ensures same { OnErr result (M.contents m.new ≡ M.contents m.old) }
    ensures entries { SameEntries (M.contents m.old).words (M.contents m.new).words }
    ensures rest { M.contents m.new ≡ record (M.contents m.old) { words = (M.contents m.new).words } }
    ensures closed { (M.contents m.new).open_page ≡ None }
    ensures lasts { Lasts (M.contents m.old) (M.contents m.new) }
    ensures ends { StepEnds (M.run m.old) (M.run m.new) (IsErr result) }
{
    put_word(m, p, w, v)?;
    Ok(())
}

/// The shadow of entry `k`, 0 for none.
pub(crate) fn shadow_of_entry<M: Machine>(m: &M, k: u32) -> u64
    requires coherent { Coherent (M.contents m.now) (length (M.run m.now).scratch) }
    requires entry { k < frames_of (M.contents m.now).words }
    ensures { result ≡ shadow_at (M.contents m.now).words k }
{
    read_entry(m, k).shadow
}

/// Gives entry `k`, which is dirty and has no shadow, the next one.
pub(crate) fn give_shadow<M: Machine>(m: &mut M, t: &mut CacheTables, k: u32) -> Result<(), Stopped>
    requires sound { CacheSound (M.contents m.old) (length (M.run m.old).scratch) t.old }
    requires updating { gate_of (M.contents m.old).words ≡ 1 }
    requires valid { IsValid (M.contents m.old).words k }
    requires metadata { is_data (tag_at (M.contents m.old).words k) ≡ false }
    requires dirty { is_dirty (tag_at (M.contents m.old).words k) ≡ true }
    requires bare { shadow_at (M.contents m.old).words k ≡ 0 }
    requires room { t.old.shadows < 16 }
    ensures sound { CacheSound (M.contents m.new) (length (M.run m.new).scratch) t.new }
    ensures keeps { Keeps (M.contents m.old) (M.contents m.new) }
    ensures names { SameNames (M.contents m.old).words (M.contents m.new).words }
    ensures given { OnOk result (shadow_at (M.contents m.new).words k ≢ 0) }
    ensures others { (j : ℕ) → j ≢ k → j < frames_of (M.contents m.old).words → shadow_at (M.contents m.new).words j ≡ shadow_at (M.contents m.old).words j }
    ensures count { OnOk result (t.new.shadows ≡ t.old.shadows + 1) }
    ensures forgotten { t.new.forgotten ≡ t.old.forgotten }
    ensures order { order_of t.new.pool ≡ order_of t.old.pool }
    ensures still { SameDisk (M.contents m.old) (M.contents m.new) }
    ensures lasts { Lasts (M.contents m.old) (M.contents m.new) }
    ensures ends { StepEnds (M.run m.old) (M.run m.new) (IsErr result) }
{
    let place = t.shadows;
    shadow(m, k, place + 1)?;
    t.shadowed[place as usize] = k;
    t.shadows = place + 1;
    // Its edits have to stay out of the disk until the commit.
    t.pool.pin(k);
    Ok(())
}

/// Gives entry `k`, which is of metadata, a shadow, if it has none.
#[tactic(auto, using(crate::proofs::Rooms::keeps_then, crate::proofs::Rooms::lasts_then, rio_base::proofs::MachineRules::ends_then, crate::proofs::Goes::ends_ok, crate::proofs::Stills::still_trans, rio_model::proofs::CoverSteps::keeps_refl, rio_base::proofs::MachineRules::lasts_refl, crate::proofs::Uses::order_same))]
pub fn shadow_frame<M: Machine>(m: &mut M, t: &mut CacheTables, k: u32) -> Result<(), Stopped>
    requires sound { CacheSound (M.contents m.old) (length (M.run m.old).scratch) t.old }
    requires updating { gate_of (M.contents m.old).words ≡ 1 }
    requires valid { IsValid (M.contents m.old).words k }
    requires metadata { is_data (tag_at (M.contents m.old).words k) ≡ false }
    requires room { (shadow_at (M.contents m.old).words k ≢ 0) ⊎ (t.old.shadows < 16) }
    ensures sound { CacheSound (M.contents m.new) (length (M.run m.new).scratch) t.new }
    ensures keeps { Keeps (M.contents m.old) (M.contents m.new) }
    ensures pages { SamePages (M.contents m.old).words (M.contents m.new).words }
    ensures gives { OnOk result (GivesShadow k (M.contents m.old).words (M.contents m.new).words t.old t.new) }
    ensures marks { DirtiesOnly (Some (tag_block (tag_at (M.contents m.old).words k))) (M.contents m.old).words (M.contents m.new).words }
    ensures forgotten { t.new.forgotten ≡ t.old.forgotten }
    ensures order { order_of t.new.pool ≡ order_of t.old.pool }
    ensures still { SameDisk (M.contents m.old) (M.contents m.new) }
    ensures lasts { Lasts (M.contents m.old) (M.contents m.new) }
    ensures ends { StepEnds (M.run m.old) (M.run m.new) (IsErr result) }
{
    if shadow_of_entry(m, k) != 0 {
        return Ok(());
    }
    mark_dirty(m, t, k)?;
    give_shadow(m, t, k)?;
    Ok(())
}
