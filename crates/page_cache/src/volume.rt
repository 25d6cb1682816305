//! The cache as a volume: stores, updates, blocks made anew and forgotten, and flushes.

ghost use Rattle.frame_pool.specs.Pools.{order_of};
ghost use Rattle.cached_pages.specs.Uses.{AllStay, DirtiesOnly, FailedUse, LeavesOldest, OthersStay, UsedLast, freed_order};
ghost use Rattle.write_back.specs.Flushing.{Flushed, SameDisk};
ghost use Rattle.cached_pages.specs.Caches.{CacheSound, FewWrites, cache_below, cache_health, cache_kept, cache_seen};
ghost use Rattle.page_cache.specs.Settled.{cache_settled};
ghost use Rattle.rio_base.specs.Blocks.{Caches, CanName, Drops, Ends, FaultAt, Halts, IsPlace, IsSpan, Looks, as_word};
ghost use Rattle.rio_model.specs.Cover.{SameNames, entry_of_block};
ghost use Rattle.rio_base.specs.Volume.{Begun, CachesStored, Firm, FirmBut, Goes, HasRoom, OldOrNew, OldOrPut, OldOrRun, RunName, Runs, SameBut, SameUpdate, Touches, cleared, put, put_run, stored_name};
ghost use Rattle.std.specs.Prelude.{IfOk, IsErr, IsErrOf, None, OnOk, Some, false, length, true, ℕ, ◌+◌, ◌<◌, ◌≡◌, ◌≤◌};

use crate::cache::PageCache;
use cached_pages::{
    bring_zeros, clear_list, drop_frame, fetch, listed, make_room, put_edit, put_frame,
    put_frame_run, ready, shadow_frame, unpin_all,
};
use rio_base::{Block, Machine, Page, PageName, RunFail, Stopped, VolFail, Volume};
use shadow_pages::{begin, commit, undo};

impl<M: Machine> Volume for PageCache<M> {
    ghost below = { λ x. cache_below (M.contents x.machine) (M.run x.machine) };

    ghost kept = { λ x. cache_kept (M.contents x.machine) x.tables };

    ghost settled = { λ x s. cache_settled (M.contents x.machine) _ x.tables s };

    ghost limited = { λ x most e. M.limited x.machine most e };

    ghost touched_sure = { λ x b e. e };

    ghost passes_keeps = { λ x y p. p };

    /// Makes block `b`, which isn't cached, read as zeros, under a name as for [`rio_base::Blocks::word`]. It is not
    /// loose any more, if it was forgotten. After a refusal it may read as anything and be loose.
    #[tactic(auto, using(cached_pages::proofs::Goes::ends_of))]
    fn fresh(&mut self, b: Block, name: Option<PageName>) -> Result<(), VolFail>
        requires sound { CacheSound (M.contents self.old.machine) (length (M.run self.old.machine).scratch) self.old.tables }
        requires place { b.0 < (cache_seen (M.contents self.old.machine)).count }
        requires name { CanName (cache_seen (M.contents self.old.machine)) b.0 name }
        requires uncached { (cache_seen (M.contents self.old.machine)).cached b.0 ≡ false }
        requires idle { (cache_kept (M.contents self.old.machine) self.old.tables).updating ≡ false }
        ensures ok { OnOk result (((cache_seen (M.contents self.new.machine)).words ≡ cleared (cache_seen (M.contents self.old.machine)).words b.0) × ((cache_kept (M.contents self.new.machine) self.new.tables).loose b.0 ≡ false)) }
        ensures others { SameBut b.0 (cache_seen (M.contents self.old.machine)).words (cache_seen (M.contents self.new.machine)).words }
        ensures standing { SameBut b.0 (cache_kept (M.contents self.old.machine) self.old.tables).standing (cache_kept (M.contents self.new.machine) self.new.tables).standing }
        ensures firm { FirmBut b.0 (cache_kept (M.contents self.old.machine) self.old.tables) (cache_kept (M.contents self.new.machine) self.new.tables) }
        ensures count { (cache_seen (M.contents self.new.machine)).count ≡ (cache_seen (M.contents self.old.machine)).count }
        ensures caches { Caches (cache_seen (M.contents self.old.machine)) (cache_seen (M.contents self.new.machine)) b.0 name }
        ensures idle { (cache_kept (M.contents self.new.machine) self.new.tables).updating ≡ false }
        ensures goes { Goes (cache_health (M.contents self.old.machine) (M.run self.old.machine)) (cache_below (M.contents self.old.machine) (M.run self.old.machine)) (cache_health (M.contents self.new.machine) (M.run self.new.machine)) (cache_below (M.contents self.new.machine) (M.run self.new.machine)) }
        ensures ends { Ends (cache_health (M.contents self.old.machine) (M.run self.old.machine)) (cache_health (M.contents self.new.machine) (M.run self.new.machine)) result }
        ensures sound { CacheSound (M.contents self.new.machine) (length (M.run self.new.machine).scratch) self.new.tables }
        ensures writes { FewWrites b.0 self.old.tables (M.contents self.old.machine) (M.contents self.new.machine) }
        ensures used { OnOk result (UsedLast b.0 (M.contents self.new.machine).words self.old.tables self.new.tables) }
        ensures failed { IsErr result → FailedUse b.0 (M.contents self.new.machine).words self.old.tables self.new.tables }
        ensures leaves { LeavesOldest self.old.tables (M.contents self.old.machine).words (M.contents self.new.machine).words }
        ensures marks { DirtiesOnly (Some b.0) (M.contents self.old.machine).words (M.contents self.new.machine).words }
    {
        let k = make_room(&mut self.machine, &mut self.tables, b)?;
        bring_zeros(&mut self.machine, &mut self.tables, k, b, name)?;
        self.tables.mark(b, false);
        Ok(())
    }

    /// Stores a word of a block outside an update. `Fault` changes no word and no name; `Stopped` leaves the old or the
    /// new word. The block's page is fetched, marked dirty and given the larger size first, so that a crash between two
    /// steps loses nothing.
    #[tactic(auto, using(cached_pages::proofs::Goes::ends_of))]
    fn store(&mut self, b: Block, name: Option<PageName>, w: u16, v: u64) -> Result<(), VolFail>
        requires sound { CacheSound (M.contents self.old.machine) (length (M.run self.old.machine).scratch) self.old.tables }
        requires place { IsPlace (cache_seen (M.contents self.old.machine)) b.0 w }
        requires name { CanName (cache_seen (M.contents self.old.machine)) b.0 name }
        requires idle { (cache_kept (M.contents self.old.machine) self.old.tables).updating ≡ false }
        ensures ok { OnOk result ((cache_seen (M.contents self.new.machine)).words ≡ put (cache_seen (M.contents self.old.machine)).words b.0 w v) }
        ensures fault { IsErrOf result VolFail.Fault → ((cache_seen (M.contents self.new.machine)).words ≡ (cache_seen (M.contents self.old.machine)).words) × ((cache_kept (M.contents self.new.machine) self.new.tables).standing ≡ (cache_kept (M.contents self.old.machine) self.old.tables).standing) × Drops (cache_seen (M.contents self.old.machine)) (cache_seen (M.contents self.new.machine)) }
        ensures either { OldOrPut (cache_seen (M.contents self.old.machine)).words (cache_seen (M.contents self.new.machine)).words b.0 w v }
        ensures standing { SameBut b.0 (cache_kept (M.contents self.old.machine) self.old.tables).standing (cache_kept (M.contents self.new.machine) self.new.tables).standing }
        ensures firm { Firm (cache_kept (M.contents self.old.machine) self.old.tables) (cache_kept (M.contents self.new.machine) self.new.tables) }
        ensures count { (cache_seen (M.contents self.new.machine)).count ≡ (cache_seen (M.contents self.old.machine)).count }
        ensures caches { CachesStored (cache_seen (M.contents self.old.machine)) (cache_seen (M.contents self.new.machine)) b.0 name }
        ensures named { OnOk result ((cache_seen (M.contents self.new.machine)).cached b.0 ≡ true → (cache_seen (M.contents self.new.machine)).names b.0 ≡ stored_name ((cache_seen (M.contents self.old.machine)).cached b.0) ((cache_seen (M.contents self.old.machine)).names b.0) name) }
        ensures idle { (cache_kept (M.contents self.new.machine) self.new.tables).updating ≡ false }
        ensures goes { Goes (cache_health (M.contents self.old.machine) (M.run self.old.machine)) (cache_below (M.contents self.old.machine) (M.run self.old.machine)) (cache_health (M.contents self.new.machine) (M.run self.new.machine)) (cache_below (M.contents self.new.machine) (M.run self.new.machine)) }
        ensures ends { Ends (cache_health (M.contents self.old.machine) (M.run self.old.machine)) (cache_health (M.contents self.new.machine) (M.run self.new.machine)) result }
        ensures sound { CacheSound (M.contents self.new.machine) (length (M.run self.new.machine).scratch) self.new.tables }
        ensures writes { FewWrites b.0 self.old.tables (M.contents self.old.machine) (M.contents self.new.machine) }
        ensures used { OnOk result (UsedLast b.0 (M.contents self.new.machine).words self.old.tables self.new.tables) }
        ensures failed { IsErr result → FailedUse b.0 (M.contents self.new.machine).words self.old.tables self.new.tables }
        ensures leaves { LeavesOldest self.old.tables (M.contents self.old.machine).words (M.contents self.new.machine).words }
        ensures stay { (cache_seen (M.contents self.old.machine)).cached b.0 ≡ true → AllStay (M.contents self.old.machine).words (M.contents self.new.machine).words }
        ensures marks { DirtiesOnly (Some b.0) (M.contents self.old.machine).words (M.contents self.new.machine).words }
    {
        let k = ready(&mut self.machine, &mut self.tables, b, name)?;
        put_frame(&mut self.machine, &mut self.tables, k, b, w, v)?;
        Ok(())
    }

    /// Stores a run of words of a block, from word `w` on in rising order, outside an update: one window for all of them,
    /// and one step each. A run of no words does nothing. `Fault` comes before the first word alone; `Stopped` leaves a
    /// front of them.
    fn store_run(
        &mut self,
        b: Block,
        name: Option<PageName>,
        w: u16,
        from: &[u64],
    ) -> Result<(), RunFail>
        requires sound { CacheSound (M.contents self.old.machine) (length (M.run self.old.machine).scratch) self.old.tables }
        requires place { IsSpan (cache_seen (M.contents self.old.machine)) b.0 w (length from.now) }
        requires name { CanName (cache_seen (M.contents self.old.machine)) b.0 name }
        requires idle { (cache_kept (M.contents self.old.machine) self.old.tables).updating ≡ false }
        ensures ok { OnOk result ((cache_seen (M.contents self.new.machine)).words ≡ put_run (cache_seen (M.contents self.old.machine)).words b.0 w (length from.now) from.now) }
        ensures fault { FaultAt result (λ n. (n < length from.now) × ((cache_seen (M.contents self.new.machine)).words ≡ put_run (cache_seen (M.contents self.old.machine)).words b.0 w n from.now)) }
        ensures front { OldOrRun (cache_seen (M.contents self.old.machine)).words (cache_seen (M.contents self.new.machine)).words b.0 w from.now (length from.now) }
        ensures standing { SameBut b.0 (cache_kept (M.contents self.old.machine) self.old.tables).standing (cache_kept (M.contents self.new.machine) self.new.tables).standing }
        ensures firm { Firm (cache_kept (M.contents self.old.machine) self.old.tables) (cache_kept (M.contents self.new.machine) self.new.tables) }
        ensures count { (cache_seen (M.contents self.new.machine)).count ≡ (cache_seen (M.contents self.old.machine)).count }
        ensures caches { CachesStored (cache_seen (M.contents self.old.machine)) (cache_seen (M.contents self.new.machine)) b.0 name }
        ensures named { OnOk result (0 < length from.now → (cache_seen (M.contents self.new.machine)).cached b.0 ≡ true → RunName ((cache_seen (M.contents self.old.machine)).cached b.0) ((cache_seen (M.contents self.old.machine)).names b.0) name ((cache_seen (M.contents self.new.machine)).names b.0)) }
        ensures idle { (cache_kept (M.contents self.new.machine) self.new.tables).updating ≡ false }
        ensures goes { Goes (cache_health (M.contents self.old.machine) (M.run self.old.machine)) (cache_below (M.contents self.old.machine) (M.run self.old.machine)) (cache_health (M.contents self.new.machine) (M.run self.new.machine)) (cache_below (M.contents self.new.machine) (M.run self.new.machine)) }
        ensures ends { Ends (cache_health (M.contents self.old.machine) (M.run self.old.machine)) (cache_health (M.contents self.new.machine) (M.run self.new.machine)) (as_word result) }
        ensures sound { CacheSound (M.contents self.new.machine) (length (M.run self.new.machine).scratch) self.new.tables }
        ensures writes { FewWrites b.0 self.old.tables (M.contents self.old.machine) (M.contents self.new.machine) }
        ensures used { OnOk result (0 < length from.now → UsedLast b.0 (M.contents self.new.machine).words self.old.tables self.new.tables) }
        ensures failed { IsErr result → FailedUse b.0 (M.contents self.new.machine).words self.old.tables self.new.tables }
        ensures leaves { LeavesOldest self.old.tables (M.contents self.old.machine).words (M.contents self.new.machine).words }
        ensures stay { (cache_seen (M.contents self.old.machine)).cached b.0 ≡ true → AllStay (M.contents self.old.machine).words (M.contents self.new.machine).words }
        ensures marks { DirtiesOnly (Some b.0) (M.contents self.old.machine).words (M.contents self.new.machine).words }
    {
        if from.is_empty() {
            return Ok(());
        }
        let k = match ready(&mut self.machine, &mut self.tables, b, name) {
            Ok(k) => k,
            Err(VolFail::Fault) => return Err(RunFail::Fault(0)),
            Err(VolFail::Stopped) => return Err(RunFail::Stopped),
        };
        match put_frame_run(&mut self.machine, &mut self.tables, k, b, w, from) {
            Ok(()) => Ok(()),
            Err(Stopped) => Err(RunFail::Stopped),
        }
    }

    /// Opens an update, as [`rio_base::Volume::begin`].
    fn begin(&mut self) -> Result<(), Stopped>
        requires sound { CacheSound (M.contents self.old.machine) (length (M.run self.old.machine).scratch) self.old.tables }
        requires idle { (cache_kept (M.contents self.old.machine) self.old.tables).updating ≡ false }
        ensures ok { OnOk result (Begun (cache_seen (M.contents self.old.machine)) (cache_kept (M.contents self.old.machine) self.old.tables) (cache_kept (M.contents self.new.machine) self.new.tables)) }
        ensures looks { Looks (cache_seen (M.contents self.old.machine)) (cache_seen (M.contents self.new.machine)) }
        ensures standing { (cache_kept (M.contents self.new.machine) self.new.tables).standing ≡ (cache_kept (M.contents self.old.machine) self.old.tables).standing }
        ensures firm { Firm (cache_kept (M.contents self.old.machine) self.old.tables) (cache_kept (M.contents self.new.machine) self.new.tables) }
        ensures drops { Drops (cache_seen (M.contents self.old.machine)) (cache_seen (M.contents self.new.machine)) }
        ensures goes { Goes (cache_health (M.contents self.old.machine) (M.run self.old.machine)) (cache_below (M.contents self.old.machine) (M.run self.old.machine)) (cache_health (M.contents self.new.machine) (M.run self.new.machine)) (cache_below (M.contents self.new.machine) (M.run self.new.machine)) }
        ensures ends { Halts (cache_health (M.contents self.old.machine) (M.run self.old.machine)) (cache_health (M.contents self.new.machine) (M.run self.new.machine)) result }
        ensures sound { CacheSound (M.contents self.new.machine) (length (M.run self.new.machine).scratch) self.new.tables }
        ensures still { SameDisk (M.contents self.old.machine) (M.contents self.new.machine) }
        ensures entries { SameNames (M.contents self.old.machine).words (M.contents self.new.machine).words }
        ensures order { order_of self.new.tables.pool ≡ order_of self.old.tables.pool }
    {
        begin(&mut self.machine, listed(&self.tables))?;
        clear_list(&mut self.tables);
        Ok(())
    }

    /// Makes a block of metadata part of the open update, as [`rio_base::Volume::touch`].
    #[tactic(auto, using(cached_pages::proofs::Rooms::keeps_then, cached_pages::proofs::Rooms::lasts_then, rio_base::proofs::MachineRules::ends_then, cached_pages::proofs::Goes::ends_of, cached_pages::proofs::Stills::few_then))]
    fn touch(&mut self, b: Block) -> Result<(), VolFail>
        requires sound { CacheSound (M.contents self.old.machine) (length (M.run self.old.machine).scratch) self.old.tables }
        requires place { b.0 < (cache_seen (M.contents self.old.machine)).count }
        requires metadata { CanName (cache_seen (M.contents self.old.machine)) b.0 None }
        requires in_update { (cache_kept (M.contents self.old.machine) self.old.tables).updating ≡ true }
        requires room { HasRoom (cache_kept (M.contents self.old.machine) self.old.tables) b.0 }
        ensures ok { OnOk result (Touches b.0 (cache_kept (M.contents self.old.machine) self.old.tables) (cache_kept (M.contents self.new.machine) self.new.tables)) }
        ensures fault { IsErrOf result VolFail.Fault → SameUpdate (cache_kept (M.contents self.old.machine) self.old.tables) (cache_kept (M.contents self.new.machine) self.new.tables) }
        ensures looks { Looks (cache_seen (M.contents self.old.machine)) (cache_seen (M.contents self.new.machine)) }
        ensures standing { (cache_kept (M.contents self.new.machine) self.new.tables).standing ≡ (cache_kept (M.contents self.old.machine) self.old.tables).standing }
        ensures firm { Firm (cache_kept (M.contents self.old.machine) self.old.tables) (cache_kept (M.contents self.new.machine) self.new.tables) }
        ensures caches { Caches (cache_seen (M.contents self.old.machine)) (cache_seen (M.contents self.new.machine)) b.0 None }
        ensures in_update { (cache_kept (M.contents self.new.machine) self.new.tables).updating ≡ true }
        ensures goes { Goes (cache_health (M.contents self.old.machine) (M.run self.old.machine)) (cache_below (M.contents self.old.machine) (M.run self.old.machine)) (cache_health (M.contents self.new.machine) (M.run self.new.machine)) (cache_below (M.contents self.new.machine) (M.run self.new.machine)) }
        ensures ends { Ends (cache_health (M.contents self.old.machine) (M.run self.old.machine)) (cache_health (M.contents self.new.machine) (M.run self.new.machine)) result }
        ensures sound { CacheSound (M.contents self.new.machine) (length (M.run self.new.machine).scratch) self.new.tables }
        ensures writes { FewWrites b.0 self.old.tables (M.contents self.old.machine) (M.contents self.new.machine) }
        ensures used { OnOk result (UsedLast b.0 (M.contents self.new.machine).words self.old.tables self.new.tables) }
        ensures failed { IsErr result → FailedUse b.0 (M.contents self.new.machine).words self.old.tables self.new.tables }
        ensures leaves { LeavesOldest self.old.tables (M.contents self.old.machine).words (M.contents self.new.machine).words }
        ensures stay { (cache_seen (M.contents self.old.machine)).cached b.0 ≡ true → AllStay (M.contents self.old.machine).words (M.contents self.new.machine).words }
        ensures marks { DirtiesOnly (Some b.0) (M.contents self.old.machine).words (M.contents self.new.machine).words }
    {
        let k = fetch(&mut self.machine, &mut self.tables, b, None)?;
        shadow_frame(&mut self.machine, &mut self.tables, k)?;
        Ok(())
    }

    /// Changes a word of a touched block, as [`rio_base::Volume::edit`].
    fn edit(&mut self, b: Block, w: u16, v: u64) -> Result<(), Stopped>
        requires sound { CacheSound (M.contents self.old.machine) (length (M.run self.old.machine).scratch) self.old.tables }
        requires place { IsPlace (cache_seen (M.contents self.old.machine)) b.0 w }
        requires touched { (cache_kept (M.contents self.old.machine) self.old.tables).touched b.0 ≡ true }
        ensures ok { OnOk result ((cache_seen (M.contents self.new.machine)).words ≡ put (cache_seen (M.contents self.old.machine)).words b.0 w v) }
        ensures either { OldOrPut (cache_seen (M.contents self.old.machine)).words (cache_seen (M.contents self.new.machine)).words b.0 w v }
        ensures update { OnOk result (SameUpdate (cache_kept (M.contents self.old.machine) self.old.tables) (cache_kept (M.contents self.new.machine) self.new.tables)) }
        ensures standing { (cache_kept (M.contents self.new.machine) self.new.tables).standing ≡ (cache_kept (M.contents self.old.machine) self.old.tables).standing }
        ensures firm { Firm (cache_kept (M.contents self.old.machine) self.old.tables) (cache_kept (M.contents self.new.machine) self.new.tables) }
        ensures count { (cache_seen (M.contents self.new.machine)).count ≡ (cache_seen (M.contents self.old.machine)).count }
        ensures drops { Drops (cache_seen (M.contents self.old.machine)) (cache_seen (M.contents self.new.machine)) }
        ensures in_update { (cache_kept (M.contents self.new.machine) self.new.tables).updating ≡ true }
        ensures goes { Goes (cache_health (M.contents self.old.machine) (M.run self.old.machine)) (cache_below (M.contents self.old.machine) (M.run self.old.machine)) (cache_health (M.contents self.new.machine) (M.run self.new.machine)) (cache_below (M.contents self.new.machine) (M.run self.new.machine)) }
        ensures ends { Halts (cache_health (M.contents self.old.machine) (M.run self.old.machine)) (cache_health (M.contents self.new.machine) (M.run self.new.machine)) result }
        ensures sound { CacheSound (M.contents self.new.machine) (length (M.run self.new.machine).scratch) self.new.tables }
        ensures still { SameDisk (M.contents self.old.machine) (M.contents self.new.machine) }
        ensures entries { SameNames (M.contents self.old.machine).words (M.contents self.new.machine).words }
        ensures order { order_of self.new.tables.pool ≡ order_of self.old.tables.pool }
    {
        let Some(k) = self.tables.pool.find(b) else {
            unreachable!()
        };
        let page = Page(self.tables.first_frame + k);
        put_edit(&mut self.machine, page, k, b, w, v)?;
        Ok(())
    }

    /// Changes a run of words of a touched block, as [`rio_base::Volume::edit_run`]: one look-up and one window for all of
    /// them, and one step each.
    fn edit_run(&mut self, b: Block, w: u16, from: &[u64]) -> Result<(), Stopped>
        requires sound { CacheSound (M.contents self.old.machine) (length (M.run self.old.machine).scratch) self.old.tables }
        requires place { IsSpan (cache_seen (M.contents self.old.machine)) b.0 w (length from.now) }
        requires touched { (cache_kept (M.contents self.old.machine) self.old.tables).touched b.0 ≡ true }
        ensures ok { OnOk result ((cache_seen (M.contents self.new.machine)).words ≡ put_run (cache_seen (M.contents self.old.machine)).words b.0 w (length from.now) from.now) }
        ensures front { OldOrRun (cache_seen (M.contents self.old.machine)).words (cache_seen (M.contents self.new.machine)).words b.0 w from.now (length from.now) }
        ensures update { OnOk result (SameUpdate (cache_kept (M.contents self.old.machine) self.old.tables) (cache_kept (M.contents self.new.machine) self.new.tables)) }
        ensures standing { (cache_kept (M.contents self.new.machine) self.new.tables).standing ≡ (cache_kept (M.contents self.old.machine) self.old.tables).standing }
        ensures firm { Firm (cache_kept (M.contents self.old.machine) self.old.tables) (cache_kept (M.contents self.new.machine) self.new.tables) }
        ensures count { (cache_seen (M.contents self.new.machine)).count ≡ (cache_seen (M.contents self.old.machine)).count }
        ensures drops { Drops (cache_seen (M.contents self.old.machine)) (cache_seen (M.contents self.new.machine)) }
        ensures in_update { (cache_kept (M.contents self.new.machine) self.new.tables).updating ≡ true }
        ensures goes { Goes (cache_health (M.contents self.old.machine) (M.run self.old.machine)) (cache_below (M.contents self.old.machine) (M.run self.old.machine)) (cache_health (M.contents self.new.machine) (M.run self.new.machine)) (cache_below (M.contents self.new.machine) (M.run self.new.machine)) }
        ensures ends { Halts (cache_health (M.contents self.old.machine) (M.run self.old.machine)) (cache_health (M.contents self.new.machine) (M.run self.new.machine)) result }
        ensures sound { CacheSound (M.contents self.new.machine) (length (M.run self.new.machine).scratch) self.new.tables }
        ensures still { SameDisk (M.contents self.old.machine) (M.contents self.new.machine) }
        ensures entries { SameNames (M.contents self.old.machine).words (M.contents self.new.machine).words }
        ensures order { order_of self.new.tables.pool ≡ order_of self.old.tables.pool }
    {
        let Some(k) = self.tables.pool.find(b) else {
            unreachable!()
        };
        put_frame_run(&mut self.machine, &mut self.tables, k, b, w, from)?;
        Ok(())
    }

    /// Makes the open update stand, as [`rio_base::Volume::commit`].
    fn commit(&mut self) -> Result<(), Stopped>
        requires sound { CacheSound (M.contents self.old.machine) (length (M.run self.old.machine).scratch) self.old.tables }
        requires in_update { (cache_kept (M.contents self.old.machine) self.old.tables).updating ≡ true }
        ensures ok { OnOk result (((cache_kept (M.contents self.new.machine) self.new.tables).standing ≡ (cache_seen (M.contents self.old.machine)).words) × ((cache_kept (M.contents self.new.machine) self.new.tables).updating ≡ false)) }
        ensures stopped { OldOrNew (cache_kept (M.contents self.old.machine) self.old.tables).standing (cache_seen (M.contents self.old.machine)).words (cache_kept (M.contents self.new.machine) self.new.tables).standing }
        ensures looks { Looks (cache_seen (M.contents self.old.machine)) (cache_seen (M.contents self.new.machine)) }
        ensures firm { Firm (cache_kept (M.contents self.old.machine) self.old.tables) (cache_kept (M.contents self.new.machine) self.new.tables) }
        ensures drops { Drops (cache_seen (M.contents self.old.machine)) (cache_seen (M.contents self.new.machine)) }
        ensures goes { Goes (cache_health (M.contents self.old.machine) (M.run self.old.machine)) (cache_below (M.contents self.old.machine) (M.run self.old.machine)) (cache_health (M.contents self.new.machine) (M.run self.new.machine)) (cache_below (M.contents self.new.machine) (M.run self.new.machine)) }
        ensures ends { Halts (cache_health (M.contents self.old.machine) (M.run self.old.machine)) (cache_health (M.contents self.new.machine) (M.run self.new.machine)) result }
        ensures sound { CacheSound (M.contents self.new.machine) (length (M.run self.new.machine).scratch) self.new.tables }
        ensures still { SameDisk (M.contents self.old.machine) (M.contents self.new.machine) }
        ensures entries { SameNames (M.contents self.old.machine).words (M.contents self.new.machine).words }
        ensures order { order_of self.new.tables.pool ≡ order_of self.old.tables.pool }
    {
        commit(&mut self.machine)?;
        unpin_all(&mut self.tables);
        Ok(())
    }

    /// Ends the open update without a trace, as [`rio_base::Volume::rollback`].
    fn rollback(&mut self) -> Result<(), Stopped>
        requires sound { CacheSound (M.contents self.old.machine) (length (M.run self.old.machine).scratch) self.old.tables }
        requires in_update { (cache_kept (M.contents self.old.machine) self.old.tables).updating ≡ true }
        ensures ok { OnOk result (((cache_seen (M.contents self.new.machine)).words ≡ (cache_kept (M.contents self.old.machine) self.old.tables).standing) × ((cache_kept (M.contents self.new.machine) self.new.tables).updating ≡ false)) }
        ensures untouched { (c w : ℕ) → (cache_kept (M.contents self.old.machine) self.old.tables).touched c ≡ false → (cache_seen (M.contents self.new.machine)).words c w ≡ (cache_kept (M.contents self.old.machine) self.old.tables).standing c w }
        ensures standing { (cache_kept (M.contents self.new.machine) self.new.tables).standing ≡ (cache_kept (M.contents self.old.machine) self.old.tables).standing }
        ensures firm { Firm (cache_kept (M.contents self.old.machine) self.old.tables) (cache_kept (M.contents self.new.machine) self.new.tables) }
        ensures count { (cache_seen (M.contents self.new.machine)).count ≡ (cache_seen (M.contents self.old.machine)).count }
        ensures drops { Drops (cache_seen (M.contents self.old.machine)) (cache_seen (M.contents self.new.machine)) }
        ensures goes { Goes (cache_health (M.contents self.old.machine) (M.run self.old.machine)) (cache_below (M.contents self.old.machine) (M.run self.old.machine)) (cache_health (M.contents self.new.machine) (M.run self.new.machine)) (cache_below (M.contents self.new.machine) (M.run self.new.machine)) }
        ensures ends { Halts (cache_health (M.contents self.old.machine) (M.run self.old.machine)) (cache_health (M.contents self.new.machine) (M.run self.new.machine)) result }
        ensures sound { CacheSound (M.contents self.new.machine) (length (M.run self.new.machine).scratch) self.new.tables }
        ensures still { SameDisk (M.contents self.old.machine) (M.contents self.new.machine) }
        ensures entries { SameNames (M.contents self.old.machine).words (M.contents self.new.machine).words }
        ensures order { order_of self.new.tables.pool ≡ order_of self.old.tables.pool }
    {
        undo(&mut self.machine, listed(&self.tables))?;
        unpin_all(&mut self.tables);
        Ok(())
    }

    /// Drops a block from the cache without writing it: its content no longer counts. It is marked as forgotten first,
    /// so that it is loose however the call ends.
    #[tactic(auto, using(cached_pages::proofs::Freed::halts_of))]
    fn forget(&mut self, b: Block) -> Result<(), Stopped>
        requires sound { CacheSound (M.contents self.old.machine) (length (M.run self.old.machine).scratch) self.old.tables }
        requires place { b.0 < (cache_seen (M.contents self.old.machine)).count }
        requires idle { (cache_kept (M.contents self.old.machine) self.old.tables).updating ≡ false }
        ensures ok { OnOk result (((cache_kept (M.contents self.new.machine) self.new.tables).loose b.0 ≡ true) × ((cache_seen (M.contents self.new.machine)).cached b.0 ≡ false)) }
        ensures others { SameBut b.0 (cache_seen (M.contents self.old.machine)).words (cache_seen (M.contents self.new.machine)).words }
        ensures firm_block { (cache_kept (M.contents self.new.machine) self.new.tables).loose b.0 ≡ false → (cache_seen (M.contents self.new.machine)).words ≡ (cache_seen (M.contents self.old.machine)).words }
        ensures standing { SameBut b.0 (cache_kept (M.contents self.old.machine) self.old.tables).standing (cache_kept (M.contents self.new.machine) self.new.tables).standing }
        ensures firm { FirmBut b.0 (cache_kept (M.contents self.old.machine) self.old.tables) (cache_kept (M.contents self.new.machine) self.new.tables) }
        ensures count { (cache_seen (M.contents self.new.machine)).count ≡ (cache_seen (M.contents self.old.machine)).count }
        ensures drops { Drops (cache_seen (M.contents self.old.machine)) (cache_seen (M.contents self.new.machine)) }
        ensures idle { (cache_kept (M.contents self.new.machine) self.new.tables).updating ≡ false }
        ensures goes { Goes (cache_health (M.contents self.old.machine) (M.run self.old.machine)) (cache_below (M.contents self.old.machine) (M.run self.old.machine)) (cache_health (M.contents self.new.machine) (M.run self.new.machine)) (cache_below (M.contents self.new.machine) (M.run self.new.machine)) }
        ensures ends { Halts (cache_health (M.contents self.old.machine) (M.run self.old.machine)) (cache_health (M.contents self.new.machine) (M.run self.new.machine)) result }
        ensures sound { CacheSound (M.contents self.new.machine) (length (M.run self.new.machine).scratch) self.new.tables }
        ensures still { SameDisk (M.contents self.old.machine) (M.contents self.new.machine) }
        ensures order { IsErr result → order_of self.new.tables.pool ≡ order_of self.old.tables.pool }
        ensures freed { OnOk result (order_of self.new.tables.pool ≡ freed_order (entry_of_block (M.contents self.old.machine).words b.0) (order_of self.old.tables.pool)) }
        ensures stay { OthersStay b.0 (M.contents self.old.machine).words (M.contents self.new.machine).words }
        ensures kept { IsErr result → AllStay (M.contents self.old.machine).words (M.contents self.new.machine).words }
        ensures marks { DirtiesOnly None (M.contents self.old.machine).words (M.contents self.new.machine).words }
    {
        self.tables.mark(b, true);
        let Some(k) = self.tables.pool.find(b) else {
            return Ok(());
        };
        drop_frame(&mut self.machine, &mut self.tables, k, b)?;
        Ok(())
    }

    #[tactic(auto, using(crate::proofs::Flushes::flushed_sound, crate::proofs::Flushes::shut_by, cached_pages::proofs::Rooms::looks_keeps, cached_pages::proofs::Rooms::firm_keeps, cached_pages::proofs::Kept::tables_refl, cached_pages::proofs::StoreCalls::drops_narrows, cached_pages::proofs::Goes::runs_of, cached_pages::proofs::Goes::ends_of))]
    fn flush(&mut self, k: u64) -> Result<u32, VolFail>
        requires sound { CacheSound (M.contents self.old.machine) (length (M.run self.old.machine).scratch) self.old.tables }
        requires idle { (cache_kept (M.contents self.old.machine) self.old.tables).updating ≡ false }
        ensures most { IfOk result (λ n. n ≤ k) }
        ensures looks { Looks (cache_seen (M.contents self.old.machine)) (cache_seen (M.contents self.new.machine)) }
        ensures standing { (cache_kept (M.contents self.new.machine) self.new.tables).standing ≡ (cache_kept (M.contents self.old.machine) self.old.tables).standing }
        ensures firm { Firm (cache_kept (M.contents self.old.machine) self.old.tables) (cache_kept (M.contents self.new.machine) self.new.tables) }
        ensures drops { Drops (cache_seen (M.contents self.old.machine)) (cache_seen (M.contents self.new.machine)) }
        ensures idle { (cache_kept (M.contents self.new.machine) self.new.tables).updating ≡ false }
        ensures runs { Runs (cache_health (M.contents self.old.machine) (M.run self.old.machine)) (cache_below (M.contents self.old.machine) (M.run self.old.machine)) (cache_health (M.contents self.new.machine) (M.run self.new.machine)) (cache_below (M.contents self.new.machine) (M.run self.new.machine)) }
        ensures ends { Ends (cache_health (M.contents self.old.machine) (M.run self.old.machine)) (cache_health (M.contents self.new.machine) (M.run self.new.machine)) result }
        ensures sound { CacheSound (M.contents self.new.machine) (length (M.run self.new.machine).scratch) self.new.tables }
        ensures flushed { IfOk result (λ j. Flushed k j (M.contents self.old.machine) (M.contents self.new.machine)) }
        ensures stay { AllStay (M.contents self.old.machine).words (M.contents self.new.machine).words }
        ensures unmarked { IsErrOf result VolFail.Fault → (M.contents self.new.machine).words ≡ (M.contents self.old.machine).words }
        ensures order { order_of self.new.tables.pool ≡ order_of self.old.tables.pool }
    {
        // A flush that fails leaves any of its blocks pending.
        self.tables.early.lose_all();
        let j = write_back::flush(&mut self.machine, k)?;
        Ok(j)
    }
}
