//! A volume in memory, for tests.

ghost use Rattle.std.specs.Prelude.{◌≡◌, ◌+◌, ◌*◌, ◌<◌, ◌≤◌, ◌⊎◌, ◌↔◌, true, false, if◌then◌else◌, length, slice_set, IfOk, IfSome, IsErrOf, IsSome, OnOk};
ghost use Rattle.rio_base.specs.Blocks.{FaultAt, IsPlace, IsRun, IsSpan};
ghost use Rattle.rio_base.specs.Volume.{HasRoom, SameBut, put_run, cleared};
ghost use Rattle.test_objects.specs.StepLimits.{ReadsWithin};
ghost use Rattle.test_objects.specs.ListVolumes.{flat, zeroed, mark_of, ListSound, IsNew, IsRestarted, list_kept, list_seen};
ghost use Rattle.test_objects.specs.ListCalls.{Begins, Commits, Edits, Freshens, Loosens, MakesStep, Marks, RollsBack, Stores, StoresRun};

use crate::step_limit::StepLimit;
use crate::word_lists::store_front;
use rio_base::{Block, Blocks, PageName, RunFail, Stopped, VolFail, Volume};
use std::alloc::{AllocError, Global};

/// Words in a block.
const BLOCK_WORDS: usize = 512;

/// A volume that lies in memory: a list of blocks, and a list of those that stand. It has no disk and caches nothing,
/// so that it never answers `Fault`. It can be told to stop.
#[derive(Drop)]
pub struct ListVolume {
    count: u32,
    words: Vec<u64>,
    standing: Vec<u64>,
    loose: Vec<bool>,
    touched: Vec<bool>,
    touches: u32,
    updating: bool,
    steps: StepLimit,
}

/// Makes a block zero where the blocks lie one after the other.
fn clear_block(words: &mut [u64], b: Block)
    requires { 512 * b.0 + 512 ≤ length words.old }
    ensures { words.new ≡ zeroed words.old b.0 }
{
    let from = ListVolume::place(b, 0);
    words[from..from + BLOCK_WORDS].fill(0);
}

/// Makes a block zero in a list of blocks.
#[tactic(auto, using(crate::proofs::Clears::flat_zeroed, crate::proofs::Clears::length_zeroed, crate::proofs::Clears::same_but_cleared))]
fn clear_listed(words: &mut Vec<u64>, b: Block)
    requires { 512 * b.0 + 512 ≤ length words.old.items }
    ensures items { words.new.items ≡ zeroed words.old.items b.0 }
    ensures words { flat words.new.items ≡ cleared (flat words.old.items) b.0 }
    ensures others { SameBut b.0 (flat words.old.items) (flat words.new.items) }
    ensures len { length words.new.items ≡ length words.old.items }
{
    clear_block(words, b);
}

impl ListVolume {
    /// A volume of `blocks` blocks of zeros. Each call is one step but those of [`Blocks`], which are none, and
    /// [`Volume::store_run`], which is one for each word. With `stop_after` the call that would be a step more answers
    /// `Stopped` and changes nothing, and so does each call after it; a run stores as many words as steps were left.
    pub fn new(
        alloc: Global,
        blocks: u32,
        stop_after: Option<u64>,
    ) -> Result<ListVolume, AllocError>
        ensures { IfOk result (IsNew blocks stop_after) }
    {
        let words = BLOCK_WORDS * blocks as usize;
        Ok(ListVolume {
            count: blocks,
            words: vec![in alloc; 0; words]?,
            standing: vec![in alloc; 0; words]?,
            loose: vec![in alloc; false; blocks as usize]?,
            touched: vec![in alloc; false; blocks as usize]?,
            touches: 0,
            updating: false,
            steps: StepLimit::new(stop_after),
        })
    }

    /// The place of a word in the lists.
    fn place(b: Block, w: u16) -> usize
        requires { w ≤ 512 }
        ensures { result ≡ 512 * b.0 + w }
    {
        BLOCK_WORDS * b.0 as usize + w as usize
    }

    /// What stands of a word, `w` below 512.
    pub fn standing(&self, b: Block, w: u16) -> u64
        requires sound { ListSound self.now }
        requires block { b.0 < self.now.count }
        requires word { w < 512 }
        ensures { result ≡ flat self.now.standing.items b.0 w }
    {
        self.standing[ListVolume::place(b, w)]
    }

    /// Whether block `b` is touched in the open update.
    pub(crate) fn is_touched(&self, b: Block) -> bool
        requires sound { ListSound self.now }
        requires block { b.0 < self.now.count }
        ensures { result ≡ (list_kept self.now).touched b.0 }
    {
        self.updating && self.touched[b.0 as usize]
    }

    /// Goes on as a warm reboot would: what stands is what reads, no update is open, and steps are counted anew.
    pub fn restart(&mut self, stop_after: Option<u64>)
        requires { ListSound self.old }
        ensures { IsRestarted stop_after self.old self.new }
    {
        self.words.copy_from_slice(self.standing.as_slice());
        self.updating = false;
        self.steps = StepLimit::new(stop_after);
    }

    /// Stores the first `n` words of a run, and makes them stand.
    #[tactic(auto, using(crate::proofs::Fronts::length_pasted))]
    fn put_front(&mut self, b: Block, w: u16, from: &[u64], n: usize)
        requires sound { ListSound self.old }
        requires place { IsSpan (list_seen self.old) b.0 w n }
        requires front { n ≤ length from.now }
        requires idle { self.old.updating ≡ false }
        ensures words { flat self.new.words.items ≡ put_run (flat self.old.words.items) b.0 w n from.now }
        ensures standing { flat self.new.standing.items ≡ put_run (flat self.old.standing.items) b.0 w n from.now }
        ensures other_words { SameBut b.0 (flat self.old.words.items) (flat self.new.words.items) }
        ensures other_standing { SameBut b.0 (flat self.old.standing.items) (flat self.new.standing.items) }
        ensures rest { self.new ≡ record self.old { words = self.new.words; standing = self.new.standing } }
        ensures sound { ListSound self.new }
    {
        let at = ListVolume::place(b, w);
        store_front(&mut self.words, at, from, n);
        store_front(&mut self.standing, at, from, n);
    }

    /// Marks a block as touched.
    fn mark(&mut self, b: Block)
        requires within { b.0 < length self.old.touched.items }
        requires room { (mark_of self.old.touched.items b.0 ≡ true) ⊎ (self.old.touches < 16) }
        ensures same { self.new ≡ record self.old { touched = self.new.touched; touches = self.new.touches } }
        ensures marked { self.new.touched.items ≡ slice_set self.old.touched.items b.0 true }
        ensures touches { self.new.touches ≡ (if mark_of self.old.touched.items b.0 then self.old.touches else self.old.touches + 1) }
    {
        if !self.touched[b.0 as usize] {
            self.touches += 1;
        }
        self.touched[b.0 as usize] = true;
    }
}

impl Blocks for ListVolume {
    ghost use Rattle.rio_base.specs.Rules.{passes_same, passes_on};
    ghost use Rattle.rio_base.specs.Volume.{Passes};
    ghost use Rattle.test_objects.specs.ListVolumes.{list_seen, list_health, list_below, list_kept, ListSound, fits};

    ghost seen = { list_seen };

    ghost health = { list_health };

    ghost sound = { ListSound };

    ghost sure = { λ v b. Unit {0} };

    ghost passes = { λ x y. Passes (list_health x) (list_below x) (list_kept x) (list_health y) (list_below y) (list_kept y) };

    ghost sure_stays = { λ x y b h s. tt };

    ghost passes_refl = { λ x. passes_same _ _ _ };

    ghost passes_trans = { λ x y z. passes_on _ _ _ _ _ _ _ _ _ };

    ghost names_fit = { λ x s. fits x };

    fn volume_blocks(&self) -> u32 {
        self.count
    }

    fn word(&mut self, b: Block, name: Option<PageName>, w: u16) -> Result<u64, VolFail>
        requires sound { ListSound self.old }
        requires place { IsPlace (list_seen self.old) b.0 w }
        ensures value { IfOk result (λ v. v ≡ (list_seen self.old).words b.0 w) }
        ensures same { self.new ≡ self.old }
        ensures ends { ReadsWithin 1 self.old.steps result }
    {
        if self.steps.stopped() {
            return Err(VolFail::Stopped);
        }
        Ok(self.words[ListVolume::place(b, w)])
    }

    fn read_run(
        &mut self,
        b: Block,
        name: Option<PageName>,
        w: u16,
        into: &mut [u64],
    ) -> Result<(), VolFail>
        requires sound { ListSound self.old }
        requires place { IsSpan (list_seen self.old) b.0 w (length into.old) }
        ensures words { OnOk result (IsRun (list_seen self.old).words b.0 w (length into.old) into.new) }
        ensures len { length into.new ≡ length into.old }
        ensures same { self.new ≡ self.old }
        ensures ends { ReadsWithin (length into.old) self.old.steps result }
    {
        if into.is_empty() {
            return Ok(());
        }
        if self.steps.stopped() {
            return Err(VolFail::Stopped);
        }
        let from = ListVolume::place(b, w);
        into.copy_from_slice(&self.words[from..from + into.len()]);
        Ok(())
    }

    fn page(&self, b: Block) -> Option<&[u64]>
        requires sound { ListSound self.now }
        requires block { b.0 < self.now.count }
        ensures words { IfSome result (λ words. IsRun (list_seen self.now).words b.0 0 512 words.now) }
        ensures len { IfSome result (λ words. length words.now ≡ 512) }
        ensures lends { IsSome result ↔ self.now.steps.stopped ≡ false }
    {
        if self.steps.stopped() {
            return None;
        }
        let from = ListVolume::place(b, 0);
        Some(&self.words[from..from + BLOCK_WORDS])
    }
}

impl Volume for ListVolume {
    ghost use Rattle.test_objects.specs.StepLimits.{limit_bounds};
    ghost use Rattle.test_objects.specs.ListVolumes.{list_below, list_kept, list_settled};

    ghost below = { list_below };

    ghost kept = { list_kept };

    ghost settled = { list_settled };

    ghost limited = { λ x most. limit_bounds x.steps _ most };

    ghost touched_sure = { λ x b t. tt };

    ghost passes_keeps = { λ x y h. h };

    #[tactic(auto, using(crate::proofs::Clears::same_but_cleared))]
    fn fresh(&mut self, b: Block, name: Option<PageName>) -> Result<(), VolFail>
        requires sound { ListSound self.old }
        requires place { b.0 < self.old.count }
        requires idle { self.old.updating ≡ false }
        ensures call { Freshens b.0 result self.old self.new }
        ensures no_fault { IsErrOf result VolFail.Fault → ⊥ }
    {
        self.steps.step()?;
        clear_listed(&mut self.words, b);
        clear_listed(&mut self.standing, b);
        self.loose[b.0 as usize] = false;
        Ok(())
    }

    fn store(&mut self, b: Block, name: Option<PageName>, w: u16, v: u64) -> Result<(), VolFail>
        requires sound { ListSound self.old }
        requires place { IsPlace (list_seen self.old) b.0 w }
        requires idle { self.old.updating ≡ false }
        ensures call { Stores b.0 w v result self.old self.new }
        ensures no_fault { IsErrOf result VolFail.Fault → ⊥ }
    {
        self.steps.step()?;
        let at = ListVolume::place(b, w);
        self.words[at] = v;
        self.standing[at] = v;
        Ok(())
    }

    fn store_run(
        &mut self,
        b: Block,
        name: Option<PageName>,
        w: u16,
        from: &[u64],
    ) -> Result<(), RunFail>
        requires sound { ListSound self.old }
        requires place { IsSpan (list_seen self.old) b.0 w (length from.now) }
        requires idle { self.old.updating ≡ false }
        ensures call { StoresRun b.0 w from.now result self.old self.new }
        ensures no_fault { FaultAt result (λ n. ⊥) }
    {
        let made = self.steps.take(from.len());
        self.put_front(b, w, from, made);
        if made < from.len() {
            return Err(RunFail::Stopped);
        }
        Ok(())
    }

    fn begin(&mut self) -> Result<(), Stopped>
        requires sound { ListSound self.old }
        requires idle { self.old.updating ≡ false }
        ensures call { Begins result self.old self.new }
    {
        self.steps.step()?;
        self.touched.fill(false);
        self.touches = 0;
        self.updating = true;
        Ok(())
    }

    fn touch(&mut self, b: Block) -> Result<(), VolFail>
        requires sound { ListSound self.old }
        requires place { b.0 < self.old.count }
        requires in_update { self.old.updating ≡ true }
        requires room { HasRoom (list_kept self.old) b.0 }
        ensures call { Marks b.0 result self.old self.new }
        ensures no_fault { IsErrOf result VolFail.Fault → ⊥ }
    {
        self.steps.step()?;
        self.mark(b);
        Ok(())
    }

    fn edit(&mut self, b: Block, w: u16, v: u64) -> Result<(), Stopped>
        requires sound { ListSound self.old }
        requires place { IsPlace (list_seen self.old) b.0 w }
        requires touched { (list_kept self.old).touched b.0 ≡ true }
        ensures call { Edits b.0 w v result self.old self.new }
    {
        self.steps.step()?;
        self.words[ListVolume::place(b, w)] = v;
        Ok(())
    }

    fn commit(&mut self) -> Result<(), Stopped>
        requires sound { ListSound self.old }
        requires in_update { self.old.updating ≡ true }
        ensures call { Commits result self.old self.new }
    {
        self.steps.step()?;
        self.standing.copy_from_slice(&self.words);
        self.updating = false;
        Ok(())
    }

    fn rollback(&mut self) -> Result<(), Stopped>
        requires sound { ListSound self.old }
        requires in_update { self.old.updating ≡ true }
        ensures call { RollsBack result self.old self.new }
    {
        self.steps.step()?;
        self.words.copy_from_slice(&self.standing);
        self.updating = false;
        Ok(())
    }

    fn forget(&mut self, b: Block) -> Result<(), Stopped>
        requires sound { ListSound self.old }
        requires place { b.0 < self.old.count }
        requires idle { self.old.updating ≡ false }
        ensures call { Loosens b.0 result self.old self.new }
    {
        self.steps.step()?; // nothing is written, but a stop may come here too
        self.loose[b.0 as usize] = true;
        Ok(())
    }

    fn flush(&mut self, k: u64) -> Result<u32, VolFail>
        requires sound { ListSound self.old }
        requires idle { self.old.updating ≡ false }
        ensures none { IfOk result (λ n. n ≡ 0) }
        ensures rest { self.new ≡ record self.old { steps = self.new.steps } }
        ensures step { MakesStep result self.old self.new }
        ensures no_fault { IsErrOf result VolFail.Fault → ⊥ }
    {
        self.steps.step()?;
        Ok(0)
    }
}
