//! One page of a machine, open to stores.

ghost use Rattle.std.specs.Prelude.{◌≡◌, ◌<◌, ◌≤◌, ◌+◌, ◌*◌, ℕ, true, Some, None, OnOk, OnErr, IsErr, length, slice_set};
ghost use Rattle.rio_base.specs.Machine.{Advances, Falls, Lasts, StepEnds};
ghost use Rattle.rio_base.specs.Memory.{FrontStored};

use rio_base::{Machine, Page, Stopped, WordAt};

/// One page of a machine, open to stores. No other page is open meanwhile, and none but this one changes by it.
///
/// It must be closed, by [`Window::close`]. It is not `Drop`, and must stay so: the compiler then refuses each way out on
/// which a window is let go, an early `?` too, and no page is left open by mistake.
pub struct Window<'m, M> {
    machine: &'m mut M,
    page: Page,
}

impl<'m, M: Machine> Window<'m, M> {
    /// Opens a protected page to stores. No other may be open. It is no step, and a stopped machine does it too.
    pub fn open(machine: &'m mut M, p: Page) -> Window<'m, M>
        requires closed { (M.contents machine.old).open_page ≡ None }
        requires protected { 512 * p.0 < length (M.contents machine.old).words }
        ensures same_reference { result.machine.ghost_name ≡ machine.entry.ghost_name }
        ensures page { result.page ≡ p }
        ensures contents { M.contents result.machine.now ≡ record (M.contents machine.old) { open_page = Some p.0 } }
        ensures run { M.run result.machine.now ≡ M.run machine.old }
    {
        machine.open_page(p);
        Window { machine, page: p }
    }

    /// Stores word `w` of the page, `w` below 512: one step. `Stopped` leaves the old word, and comes only where the
    /// machine is stopped afterwards.
    pub fn put(&mut self, w: u16, v: u64) -> Result<(), Stopped>
        requires within { w < 512 }
        requires page { (M.contents self.old.machine.now).open_page ≡ Some self.old.page.0 }
        ensures same_reference { self.new.machine.ghost_name ≡ self.old.machine.ghost_name }
        ensures page { self.new.page ≡ self.old.page }
        ensures stored { OnOk result (M.contents self.new.machine.now ≡ record (M.contents self.old.machine.now) { words = slice_set (M.contents self.old.machine.now).words (512 * self.old.page.0 + w) v }) }
        ensures same { OnErr result (M.contents self.new.machine.now ≡ M.contents self.old.machine.now) }
        ensures counted { OnOk result (Advances 1 (M.run self.old.machine.now) (M.run self.new.machine.now)) }
        ensures uncounted { OnErr result (Advances 0 (M.run self.old.machine.now) (M.run self.new.machine.now)) }
        ensures lasts { Lasts (M.contents self.old.machine.now) (M.contents self.new.machine.now) }
        ensures falls { Falls (Some self.old.page.0) (M.run self.old.machine.now) (M.run self.new.machine.now) }
        ensures halted { (M.run self.old.machine.now).stopped ≡ true → IsErr result }
        ensures ends { StepEnds (M.run self.old.machine.now) (M.run self.new.machine.now) (IsErr result) }
    {
        let at = WordAt(512 * self.page.0 + u32::from(w));
        self.machine.store(at, v)
    }

    /// Stores a run of words of the page, from word `w` on in rising order, up to the page's end at most: one step each.
    /// `Stopped` leaves a front of them stored, and comes only where the machine is stopped afterwards.
    #[tactic(auto, using(rio_base::proofs::MachineRules::ends_none, rio_base::proofs::MachineRules::advances_none, rio_base::proofs::MachineRules::falls_refl, rio_base::proofs::MachineRules::lasts_refl))]
    pub fn put_run(&mut self, w: u16, from: &[u64]) -> Result<(), Stopped>
        requires within { w + length from.now ≤ 512 }
        requires page { (M.contents self.old.machine.now).open_page ≡ Some self.old.page.0 }
        ensures same_reference { self.new.machine.ghost_name ≡ self.old.machine.ghost_name }
        ensures page { self.new.page ≡ self.old.page }
        ensures stored { OnOk result (FrontStored (512 * self.old.page.0 + w) (length from.now) from.now (M.contents self.old.machine.now).words (M.contents self.new.machine.now).words) }
        ensures counted { OnOk result (Advances (length from.now) (M.run self.old.machine.now) (M.run self.new.machine.now)) }
        ensures front { OnErr result ((n : ℕ) × (n < length from.now) × FrontStored (512 * self.old.page.0 + w) n from.now (M.contents self.old.machine.now).words (M.contents self.new.machine.now).words × Advances n (M.run self.old.machine.now) (M.run self.new.machine.now)) }
        ensures rest { M.contents self.new.machine.now ≡ record (M.contents self.old.machine.now) { words = (M.contents self.new.machine.now).words } }
        ensures frozen { (M.run self.old.machine.now).stopped ≡ true → M.contents self.new.machine.now ≡ M.contents self.old.machine.now }
        ensures lasts { Lasts (M.contents self.old.machine.now) (M.contents self.new.machine.now) }
        ensures falls { Falls (Some self.old.page.0) (M.run self.old.machine.now) (M.run self.new.machine.now) }
        ensures halted { (M.run self.old.machine.now).stopped ≡ true → 0 < length from.now → IsErr result }
        ensures ends { StepEnds (M.run self.old.machine.now) (M.run self.new.machine.now) (IsErr result) }
    {
        // A run of none may begin at the page's end, which is no word of the page.
        if from.is_empty() {
            return Ok(());
        }
        let first = WordAt(512 * self.page.0 + u32::from(w));
        self.machine.store_run(first, from)
    }

    /// Closes the page. It is no step, and a stopped machine does it too.
    pub fn close(self)
        requires page { (M.contents self.machine.now).open_page ≡ Some self.page.0 }
        ensures contents { M.contents self.exit.0.now ≡ record (M.contents self.entry.machine.now) { open_page = None } }
        ensures run { M.run self.exit.0.now ≡ M.run self.entry.machine.now }
    {
        let Window { machine, page: _ } = self;
        machine.close_page();
    }
}
