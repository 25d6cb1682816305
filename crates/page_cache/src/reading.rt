//! Blocks are read: a word is loaded from its block's frame, and a whole page is lent.

ghost use Rattle.cached_pages.specs.Uses.{DirtiesOnly, FailedUse, LeavesOldest, UsedLast};
ghost use Rattle.std.specs.Prelude.{◌≡◌, ◌≤◌, ◌+◌, ◌*◌, true, None, IfOk, OnOk, IsErr, IsErrOf, length, take, drop};
ghost use Rattle.rio_base.specs.Blocks.{CanName, Caches, Ends, IsPlace, IsRun, IsSpan, Looks};
ghost use Rattle.rio_base.specs.Rules.{passes_on, passes_same};
ghost use Rattle.rio_base.specs.Volume.{Passes};
ghost use Rattle.cached_pages.specs.Caches.{CacheSound, FewWrites, cache_below, cache_health, cache_kept, cache_seen, is_touched};
ghost use Rattle.page_cache.specs.Laws.{cache_fits, touched_on};

use crate::cache::PageCache;
use cached_pages::{fetch, page_of};
use rio_base::{Block, Blocks, Machine, PageName, VolFail, WordAt};

impl<M: Machine> Blocks for PageCache<M> {
    ghost seen = { λ x. cache_seen (M.contents x.machine) };

    ghost health = { λ x. cache_health (M.contents x.machine) (M.run x.machine) };

    ghost sound = { λ x. CacheSound (M.contents x.machine) (length (M.run x.machine).scratch) x.tables };

    ghost sure = { λ x b. is_touched (M.contents x.machine).words b ≡ true };

    ghost passes = { λ x y. Passes (cache_health (M.contents x.machine) (M.run x.machine)) (cache_below (M.contents x.machine) (M.run x.machine)) (cache_kept (M.contents x.machine) x.tables) (cache_health (M.contents y.machine) (M.run y.machine)) (cache_below (M.contents y.machine) (M.run y.machine)) (cache_kept (M.contents y.machine) y.tables) };

    ghost sure_stays = { λ x y b h s. touched_on b _ _ _ _ _ _ h s };

    ghost passes_refl = { λ x. passes_same _ _ _ };

    ghost passes_trans = { λ x y z. passes_on _ _ _ _ _ _ _ _ _ };

    ghost names_fit = { λ x s. cache_fits (M.contents x.machine) _ s.coherent };

    fn volume_blocks(&self) -> u32 {
        self.machine.disk_blocks()
    }

    /// As [`Blocks::word`]. It asks for one block write at most, and for none where the block is cached or a frame is
    /// free.
    #[tactic(auto, using(cached_pages::proofs::Rooms::caches_adds, cached_pages::proofs::Rooms::looks_keeps, cached_pages::proofs::Goes::ends_of, cached_pages::proofs::Rooms::passes_of))]
    fn word(&mut self, b: Block, name: Option<PageName>, w: u16) -> Result<u64, VolFail>
        requires sound { CacheSound (M.contents self.old.machine) (length (M.run self.old.machine).scratch) self.old.tables }
        requires place { IsPlace (cache_seen (M.contents self.old.machine)) b.0 w }
        requires name { CanName (cache_seen (M.contents self.old.machine)) b.0 name }
        ensures value { IfOk result (λ v. v ≡ (cache_seen (M.contents self.old.machine)).words b.0 w) }
        ensures looks { Looks (cache_seen (M.contents self.old.machine)) (cache_seen (M.contents self.new.machine)) }
        ensures caches { Caches (cache_seen (M.contents self.old.machine)) (cache_seen (M.contents self.new.machine)) b.0 name }
        ensures passes { Passes (cache_health (M.contents self.old.machine) (M.run self.old.machine)) (cache_below (M.contents self.old.machine) (M.run self.old.machine)) (cache_kept (M.contents self.old.machine) self.old.tables) (cache_health (M.contents self.new.machine) (M.run self.new.machine)) (cache_below (M.contents self.new.machine) (M.run self.new.machine)) (cache_kept (M.contents self.new.machine) self.new.tables) }
        ensures writes { FewWrites b.0 self.old.tables (M.contents self.old.machine) (M.contents self.new.machine) }
        ensures used { OnOk result (UsedLast b.0 (M.contents self.new.machine).words self.old.tables self.new.tables) }
        ensures failed { IsErr result → FailedUse b.0 (M.contents self.new.machine).words self.old.tables self.new.tables }
        ensures leaves { LeavesOldest self.old.tables (M.contents self.old.machine).words (M.contents self.new.machine).words }
        ensures hit { (cache_seen (M.contents self.old.machine)).cached b.0 ≡ true → self.new.machine ≡ self.old.machine }
        ensures marks { DirtiesOnly None (M.contents self.old.machine).words (M.contents self.new.machine).words }
        ensures ends { Ends (cache_health (M.contents self.old.machine) (M.run self.old.machine)) (cache_health (M.contents self.new.machine) (M.run self.new.machine)) result }
        ensures sure { IsErrOf result VolFail.Fault → is_touched (M.contents self.old.machine).words b.0 ≡ true → ⊥ }
        ensures sound { CacheSound (M.contents self.new.machine) (length (M.run self.new.machine).scratch) self.new.tables }
    {
        let k = fetch(&mut self.machine, &mut self.tables, b, name)?;
        let page = page_of(&self.machine, &self.tables, k);
        Ok(self.machine.load(WordAt(512 * page.0 + u32::from(w))))
    }

    /// As [`Blocks::read_run`]: the block is fetched once, and its words are copied at once. Of block writes it asks for
    /// as many as [`Blocks::word`].
    #[tactic(auto, using(cached_pages::proofs::Rooms::caches_adds, cached_pages::proofs::Rooms::looks_keeps, cached_pages::proofs::Goes::ends_of, cached_pages::proofs::Rooms::passes_of))]
    fn read_run(
        &mut self,
        b: Block,
        name: Option<PageName>,
        w: u16,
        into: &mut [u64],
    ) -> Result<(), VolFail>
        requires sound { CacheSound (M.contents self.old.machine) (length (M.run self.old.machine).scratch) self.old.tables }
        requires place { IsSpan (cache_seen (M.contents self.old.machine)) b.0 w (length into.old) }
        requires name { CanName (cache_seen (M.contents self.old.machine)) b.0 name }
        ensures words { OnOk result (IsRun (cache_seen (M.contents self.old.machine)).words b.0 w (length into.old) into.new) }
        ensures len { length into.new ≡ length into.old }
        ensures looks { Looks (cache_seen (M.contents self.old.machine)) (cache_seen (M.contents self.new.machine)) }
        ensures caches { Caches (cache_seen (M.contents self.old.machine)) (cache_seen (M.contents self.new.machine)) b.0 name }
        ensures passes { Passes (cache_health (M.contents self.old.machine) (M.run self.old.machine)) (cache_below (M.contents self.old.machine) (M.run self.old.machine)) (cache_kept (M.contents self.old.machine) self.old.tables) (cache_health (M.contents self.new.machine) (M.run self.new.machine)) (cache_below (M.contents self.new.machine) (M.run self.new.machine)) (cache_kept (M.contents self.new.machine) self.new.tables) }
        ensures writes { FewWrites b.0 self.old.tables (M.contents self.old.machine) (M.contents self.new.machine) }
        ensures used { OnOk result (UsedLast b.0 (M.contents self.new.machine).words self.old.tables self.new.tables) }
        ensures failed { IsErr result → FailedUse b.0 (M.contents self.new.machine).words self.old.tables self.new.tables }
        ensures leaves { LeavesOldest self.old.tables (M.contents self.old.machine).words (M.contents self.new.machine).words }
        ensures hit { (cache_seen (M.contents self.old.machine)).cached b.0 ≡ true → self.new.machine ≡ self.old.machine }
        ensures marks { DirtiesOnly None (M.contents self.old.machine).words (M.contents self.new.machine).words }
        ensures ends { Ends (cache_health (M.contents self.old.machine) (M.run self.old.machine)) (cache_health (M.contents self.new.machine) (M.run self.new.machine)) result }
        ensures sure { IsErrOf result VolFail.Fault → is_touched (M.contents self.old.machine).words b.0 ≡ true → ⊥ }
        ensures sound { CacheSound (M.contents self.new.machine) (length (M.run self.new.machine).scratch) self.new.tables }
    {
        let k = fetch(&mut self.machine, &mut self.tables, b, name)?;
        let page = page_of(&self.machine, &self.tables, k);
        copy_words(self.machine.frame(page), w as usize, into);
        Ok(())
    }

    /// Lends the frame of block `b`, where it is cached.
    fn page(&self, b: Block) -> Option<&[u64]> {
        let k = self.tables.pool.find(b)?;
        let page = page_of(&self.machine, &self.tables, k);
        Some(self.machine.frame(page))
    }
}

/// Copies words from word `at` on, as many as `into` has.
fn copy_words(words: &[u64], at: usize, into: &mut [u64])
    requires within { at + length into.old ≤ length words.now }
    ensures copied { into.new ≡ take (length into.old) (drop at words.now) }
    ensures len { length into.new ≡ length into.old }
{
    into.copy_from_slice(&words[at..at + into.len()]);
}
