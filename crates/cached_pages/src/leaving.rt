//! A dirty page is brought to the disk before it leaves. A call writes one block at most, and one sync serves as many as were
//! written since the last: where the page that is to leave was written earlier, the call writes one that is to leave later.

ghost use Rattle.std.specs.Prelude.{◌≡◌, ◌≢◌, ◌<◌, ◌≤◌, ℕ, true, false, IfSome, OnOk, IsErr, IsErrOf, length};
ghost use Rattle.frame_pool.specs.Pools.{IsVictim};
ghost use Rattle.rio_base.specs.Disks.{is_pending, raised};
ghost use Rattle.rio_base.specs.Machine.{FaultCause, StepEnds};
ghost use Rattle.rio_model.specs.Cover.{Coherent, OnDisk};
ghost use Rattle.rio_model.specs.Registry.{IsValid, frames_of, is_dirty, is_valid, tag_at, tag_block};
ghost use Rattle.write_back.specs.Flushing.{SameDisk};
ghost use Rattle.cached_pages.specs.Caches.{CacheSound, is_roomy};
ghost use Rattle.cached_pages.specs.Stores.{Nears};

use crate::fetching::tag_of;
use crate::tables::CacheTables;
use crate::updating::shadow_of_entry;
use registry::{frame_count, frame_page_of};
use rio_base::{Block, Machine, Stopped, VolFail};
use write_back::{sync_disk, write_entry};

/// How far a page may be from the one that leaves, in order of use, to be written early, and how many pages may be.
const AHEAD: u32 = 32;

/// Whether the page of entry `k` is known to be its block `b` as the disk reads.
fn is_home<M: Machine>(m: &M, t: &CacheTables, k: u32, b: Block) -> bool
    requires sound { CacheSound (M.contents m.now) (length (M.run m.now).scratch) t.now }
    requires valid { IsValid (M.contents m.now).words k }
    requires block { tag_block (tag_at (M.contents m.now).words k) ≡ b.0 }
    ensures { result ≡ true → OnDisk (M.contents m.now) k }
{
    let page = frame_page_of(m, k);
    t.early.is_copy(b, m.frame(page))
}

/// Writes the page of entry `k`, which is dirty, as its block `b`.
fn send<M: Machine>(m: &mut M, t: &mut CacheTables, k: u32, b: Block) -> Result<(), VolFail>
    requires sound { CacheSound (M.contents m.old) (length (M.run m.old).scratch) t.old }
    requires valid { IsValid (M.contents m.old).words k }
    requires dirty { is_dirty (tag_at (M.contents m.old).words k) ≡ true }
    requires block { tag_block (tag_at (M.contents m.old).words k) ≡ b.0 }
    ensures sound { CacheSound (M.contents m.new) (length (M.run m.new).scratch) t.new }
    ensures nears { Nears (M.contents m.old) (M.contents m.new) t.old t.new }
    ensures written { OnOk result (OnDisk (M.contents m.new) k) }
    ensures others { (j : ℕ) → IsValid (M.contents m.old).words j → j ≢ k → OnDisk (M.contents m.old) j → OnDisk (M.contents m.new) j }
    ensures pends { (b : ℕ) → is_pending (M.contents m.old).pending b ≡ true → is_pending (M.contents m.new).pending b ≡ true }
    ensures one_write { (M.contents m.new).writes ≤ raised (M.contents m.old).writes 1 }
    ensures fault { FaultCause (M.contents m.old) (M.contents m.new) (IsErrOf result VolFail.Fault) }
    ensures ends { StepEnds (M.run m.old) (M.run m.new) (IsErrOf result VolFail.Stopped) }
{
    t.early.clear(b);
    let page = frame_page_of(m, k);
    write_entry(m, k, page)?;
    t.early.wrote(b, m.frame(page));
    Ok(())
}

/// Whether the page of entry `k` may be written early: it is dirty, was not written yet, and no update has edits of it
/// that aren't to stand yet.
fn can_send<M: Machine>(m: &M, t: &CacheTables, k: u32) -> bool
    requires sound { CacheSound (M.contents m.now) (length (M.run m.now).scratch) t.now }
    requires entry { k < frames_of (M.contents m.now).words }
    ensures valid { result ≡ true → IsValid (M.contents m.now).words k }
    ensures dirty { result ≡ true → is_dirty (tag_at (M.contents m.now).words k) ≡ true }
{
    let tag = tag_of(m, k);
    if !tag.is_valid() {
        return false;
    }
    if !tag.is_dirty() {
        return false;
    }
    if !t.early.is_unwritten(tag.block()) {
        return false;
    }
    shadow_of_entry(m, k) == 0
}

/// The page that leaves after the one that was written last, if it isn't that of frame `k` and may be written early. Those
/// in front of it were mostly written before, so that it saves looking at each of them again.
fn next_behind_last<M: Machine>(m: &M, t: &CacheTables, k: u32) -> Option<u32>
    requires sound { CacheSound (M.contents m.now) (length (M.run m.now).scratch) t.now }
    ensures other { IfSome result (λ j. j ≢ k) }
    ensures valid { IfSome result (λ j. IsValid (M.contents m.now).words j) }
    ensures dirty { IfSome result (λ j. is_dirty (tag_at (M.contents m.now).words j) ≡ true) }
{
    let Some(b) = t.early.last() else {
        return None;
    };
    if m.disk_blocks() <= b.0 {
        return None;
    }
    let Some(last) = t.pool.find(b) else {
        return None;
    };
    let Some(next) = t.pool.next_used(last) else {
        return None;
    };
    if next == k {
        return None;
    }
    if can_send(m, t, next) {
        return Some(next);
    }
    None
}

/// Of the pages that may be written early, the one that leaves soonest after that of frame `k`, if it is near.
fn next_to_send<M: Machine>(m: &M, t: &CacheTables, k: u32) -> Option<u32>
    requires sound { CacheSound (M.contents m.now) (length (M.run m.now).scratch) t.now }
    requires entry { k < frames_of (M.contents m.now).words }
    ensures other { IfSome result (λ j. j ≢ k) }
    ensures valid { IfSome result (λ j. IsValid (M.contents m.now).words j) }
    ensures dirty { IfSome result (λ j. is_dirty (tag_at (M.contents m.now).words j) ≡ true) }
{
    if let Some(next) = next_behind_last(m, t, k) {
        return Some(next);
    }
    let mut last = k;
    for _passed in 0..AHEAD {
        let Some(next) = t.pool.next_used(last) else {
            return None;
        };
        if next == k {
            return None;
        }
        if can_send(m, t, next) {
            return Some(next);
        }
        last = next;
    }
    None
}

/// Writes one page that is to leave after that of frame `k`, if there is one near that was not written yet. That the disk
/// refuses it is no failure: the page stays dirty, and is written again before it leaves.
#[tactic(auto, using(crate::proofs::Nearness::nears_refl, crate::proofs::Nearness::one_none, rio_base::proofs::MachineRules::steps_refl))]
pub fn send_next<M: Machine>(m: &mut M, t: &mut CacheTables, k: u32) -> Result<(), Stopped>
    requires sound { CacheSound (M.contents m.old) (length (M.run m.old).scratch) t.old }
    requires entry { k < frames_of (M.contents m.old).words }
    ensures sound { CacheSound (M.contents m.new) (length (M.run m.new).scratch) t.new }
    ensures nears { Nears (M.contents m.old) (M.contents m.new) t.old t.new }
    ensures stays { IsValid (M.contents m.old).words k → OnDisk (M.contents m.old) k → OnDisk (M.contents m.new) k }
    ensures pends { (b : ℕ) → is_pending (M.contents m.old).pending b ≡ true → is_pending (M.contents m.new).pending b ≡ true }
    ensures one_write { (M.contents m.new).writes ≤ raised (M.contents m.old).writes 1 }
    ensures ends { StepEnds (M.run m.old) (M.run m.new) (IsErr result) }
{
    let Some(j) = next_to_send(m, t, k) else {
        return Ok(());
    };
    let b = tag_of(m, j).block();
    match send(m, t, j, b) {
        Ok(()) => Ok(()),
        Err(VolFail::Fault) => Ok(()),
        Err(VolFail::Stopped) => Err(Stopped),
    }
}

/// Brings the page of entry `k`, which is dirty, to its block `b`, as the disk reads: it is written, unless it was
/// already, and not stored into since; then one is written that is to leave later.
fn bring_home<M: Machine>(m: &mut M, t: &mut CacheTables, k: u32, b: Block) -> Result<(), VolFail>
    requires sound { CacheSound (M.contents m.old) (length (M.run m.old).scratch) t.old }
    requires valid { IsValid (M.contents m.old).words k }
    requires dirty { is_dirty (tag_at (M.contents m.old).words k) ≡ true }
    requires block { tag_block (tag_at (M.contents m.old).words k) ≡ b.0 }
    ensures sound { CacheSound (M.contents m.new) (length (M.run m.new).scratch) t.new }
    ensures nears { Nears (M.contents m.old) (M.contents m.new) t.old t.new }
    ensures home { OnOk result (OnDisk (M.contents m.new) k) }
    ensures one_write { (M.contents m.new).writes ≤ raised (M.contents m.old).writes 1 }
    ensures fault { FaultCause (M.contents m.old) (M.contents m.new) (IsErrOf result VolFail.Fault) }
    ensures ends { StepEnds (M.run m.old) (M.run m.new) (IsErrOf result VolFail.Stopped) }
{
    if is_home(m, t, k, b) {
        send_next(m, t, k)?;
        return Ok(());
    }
    send(m, t, k, b)
}

/// Brings all that was written to the device. `Fault`: each page of it is written again before it leaves.
fn sync_all<M: Machine>(m: &mut M, t: &mut CacheTables) -> Result<(), VolFail>
    requires sound { CacheSound (M.contents m.old) (length (M.run m.old).scratch) t.old }
    ensures sound { CacheSound (M.contents m.new) (length (M.run m.new).scratch) t.new }
    ensures nears { Nears (M.contents m.old) (M.contents m.new) t.old t.new }
    ensures disk { (M.contents m.new).disk ≡ (M.contents m.old).disk }
    ensures writes { (M.contents m.new).writes ≡ (M.contents m.old).writes }
    ensures synced { OnOk result ((b : ℕ) → is_pending (M.contents m.new).pending b ≡ false) }
    ensures fault { FaultCause (M.contents m.old) (M.contents m.new) (IsErrOf result VolFail.Fault) }
    ensures ends { StepEnds (M.run m.old) (M.run m.new) (IsErrOf result VolFail.Stopped) }
{
    match sync_disk(m) {
        Ok(()) => {
            t.early.settle();
            Ok(())
        }
        Err(fail) => {
            t.early.lose();
            Err(fail)
        }
    }
}

/// Sees that block `b` isn't pending: by a sync, unless it is known.
#[tactic(auto, using(crate::proofs::Nearness::nears_refl, rio_base::proofs::MachineRules::steps_refl))]
fn settle<M: Machine>(m: &mut M, t: &mut CacheTables, b: Block) -> Result<(), VolFail>
    requires sound { CacheSound (M.contents m.old) (length (M.run m.old).scratch) t.old }
    ensures sound { CacheSound (M.contents m.new) (length (M.run m.new).scratch) t.new }
    ensures nears { Nears (M.contents m.old) (M.contents m.new) t.old t.new }
    ensures disk { (M.contents m.new).disk ≡ (M.contents m.old).disk }
    ensures writes { (M.contents m.new).writes ≡ (M.contents m.old).writes }
    ensures settled { OnOk result (is_pending (M.contents m.new).pending b.0 ≡ false) }
    ensures fault { FaultCause (M.contents m.old) (M.contents m.new) (IsErrOf result VolFail.Fault) }
    ensures ends { StepEnds (M.run m.old) (M.run m.new) (IsErrOf result VolFail.Stopped) }
{
    if t.early.is_settled(b) {
        return Ok(());
    }
    sync_all(m, t)
}

/// Brings the page of entry `k`, which is dirty, to the device, as its block `b`.
#[tactic(auto, using(crate::proofs::Nearness::nears_trans, crate::proofs::Nearness::home_near, crate::proofs::Nearness::one_before, rio_base::proofs::MachineRules::ends_then))]
fn bring_out<M: Machine>(m: &mut M, t: &mut CacheTables, k: u32, b: Block) -> Result<(), VolFail>
    requires sound { CacheSound (M.contents m.old) (length (M.run m.old).scratch) t.old }
    requires valid { IsValid (M.contents m.old).words k }
    requires dirty { is_dirty (tag_at (M.contents m.old).words k) ≡ true }
    requires block { tag_block (tag_at (M.contents m.old).words k) ≡ b.0 }
    ensures sound { CacheSound (M.contents m.new) (length (M.run m.new).scratch) t.new }
    ensures nears { Nears (M.contents m.old) (M.contents m.new) t.old t.new }
    ensures home { OnOk result (OnDisk (M.contents m.new) k) }
    ensures settled { OnOk result (is_pending (M.contents m.new).pending b.0 ≡ false) }
    ensures one_write { (M.contents m.new).writes ≤ raised (M.contents m.old).writes 1 }
    ensures fault { FaultCause (M.contents m.old) (M.contents m.new) (IsErrOf result VolFail.Fault) }
    ensures ends { StepEnds (M.run m.old) (M.run m.new) (IsErrOf result VolFail.Stopped) }
{
    bring_home(m, t, k, b)?;
    settle(m, t, b)?;
    Ok(())
}

/// Sees that the page of entry `k` can leave: if it is dirty, it is on the device afterwards. A clean entry's page is
/// neither read, written nor synced.
#[tactic(auto, using(crate::proofs::Nearness::nears_refl, crate::proofs::Nearness::one_none, crate::proofs::Stills::still_refl, rio_base::proofs::MachineRules::steps_refl))]
pub(crate) fn prepare<M: Machine>(m: &mut M, t: &mut CacheTables, k: u32) -> Result<(), VolFail>
    requires sound { CacheSound (M.contents m.old) (length (M.run m.old).scratch) t.old }
    requires valid { IsValid (M.contents m.old).words k }
    ensures sound { CacheSound (M.contents m.new) (length (M.run m.new).scratch) t.new }
    ensures nears { Nears (M.contents m.old) (M.contents m.new) t.old t.new }
    ensures home { OnOk result (is_dirty (tag_at (M.contents m.old).words k) ≡ true → OnDisk (M.contents m.new) k) }
    ensures settled { OnOk result (is_dirty (tag_at (M.contents m.old).words k) ≡ true → is_pending (M.contents m.new).pending (tag_block (tag_at (M.contents m.old).words k)) ≡ false) }
    ensures clean_entry { is_dirty (tag_at (M.contents m.old).words k) ≡ false → SameDisk (M.contents m.old) (M.contents m.new) }
    ensures one_write { (M.contents m.new).writes ≤ raised (M.contents m.old).writes 1 }
    ensures fault { FaultCause (M.contents m.old) (M.contents m.new) (IsErrOf result VolFail.Fault) }
    ensures ends { StepEnds (M.run m.old) (M.run m.new) (IsErrOf result VolFail.Stopped) }
{
    let tag = tag_of(m, k);
    if !tag.is_dirty() {
        return Ok(());
    }
    bring_out(m, t, k, tag.block())
}

/// Whether there is a frame for each block.
pub fn has_all_frames<M: Machine>(m: &M) -> bool
    requires coherent { Coherent (M.contents m.now) (length (M.run m.now).scratch) }
    ensures { result ≡ is_roomy (M.contents m.now) }
{
    m.disk_blocks() <= frame_count(m)
}

/// Whether as many pages are written before they leave as one sync is to serve.
pub fn is_far_ahead(t: &CacheTables) -> bool {
    AHEAD <= t.early.count()
}

/// Whether no frame is free, where frame `k` is to be used next.
pub fn is_full<M: Machine>(m: &M, t: &CacheTables, k: u32) -> bool
    requires sound { CacheSound (M.contents m.now) (length (M.run m.now).scratch) t.now }
    requires victim { IsVictim t.now.pool k }
    ensures { result ≡ true → (j : ℕ) → j < frames_of (M.contents m.now).words → is_valid (tag_at (M.contents m.now).words j) ≡ true }
{
    tag_of(m, k).is_valid()
}
