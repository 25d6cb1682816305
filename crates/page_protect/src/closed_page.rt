//! Stores into a page that is closed before and after.

ghost use Rattle.std.specs.Prelude.{◌≡◌, ◌<◌, ◌≤◌, ◌+◌, ◌*◌, ℕ, true, None, Some, OnOk, OnErr, IsErr, length, slice_set};
ghost use Rattle.rio_base.specs.Machine.{Advances, Falls, Lasts, StepEnds};
ghost use Rattle.rio_base.specs.Memory.{FrontStored};

use crate::window::Window;
use rio_base::{Machine, Page, Stopped};

/// Stores word `w` of protected page `p`, `w` below 512: one step. No page is open before, and none is open after it, at
/// every exit. `Stopped` leaves the old word, and comes only where the machine is stopped afterwards.
pub fn put_word<M: Machine>(m: &mut M, p: Page, w: u16, v: u64) -> Result<(), Stopped>
    requires closed { (M.contents m.old).open_page ≡ None }
    requires within { w < 512 }
    requires protected { 512 * p.0 < length (M.contents m.old).words }
    ensures stored { OnOk result (M.contents m.new ≡ record (M.contents m.old) { words = slice_set (M.contents m.old).words (512 * p.0 + w) v }) }
    ensures same { OnErr result (M.contents m.new ≡ M.contents m.old) }
    ensures counted { OnOk result (Advances 1 (M.run m.old) (M.run m.new)) }
    ensures uncounted { OnErr result (Advances 0 (M.run m.old) (M.run m.new)) }
    ensures lasts { Lasts (M.contents m.old) (M.contents m.new) }
    ensures falls { Falls (Some p.0) (M.run m.old) (M.run m.new) }
    ensures halted { (M.run m.old).stopped ≡ true → IsErr result }
    ensures ends { StepEnds (M.run m.old) (M.run m.new) (IsErr result) }
{
    let mut window = Window::open(m, p);
    let stored = window.put(w, v);
    window.close();
    stored
}

/// Stores a run of words of protected page `p`, from word `w` on in rising order, up to the page's end at most: one step
/// each. No page is open before, and none is open after it, at every exit. `Stopped` leaves a front of them stored, and
/// comes only where the machine is stopped afterwards.
pub fn put_run<M: Machine>(m: &mut M, p: Page, w: u16, from: &[u64]) -> Result<(), Stopped>
    requires closed { (M.contents m.old).open_page ≡ None }
    requires within { w + length from.now ≤ 512 }
    requires protected { 512 * p.0 < length (M.contents m.old).words }
    ensures stored { OnOk result (FrontStored (512 * p.0 + w) (length from.now) from.now (M.contents m.old).words (M.contents m.new).words) }
    ensures counted { OnOk result (Advances (length from.now) (M.run m.old) (M.run m.new)) }
    ensures front { OnErr result ((n : ℕ) × (n < length from.now) × FrontStored (512 * p.0 + w) n from.now (M.contents m.old).words (M.contents m.new).words × Advances n (M.run m.old) (M.run m.new)) }
    ensures rest { M.contents m.new ≡ record (M.contents m.old) { words = (M.contents m.new).words } }
    ensures frozen { (M.run m.old).stopped ≡ true → M.contents m.new ≡ M.contents m.old }
    ensures lasts { Lasts (M.contents m.old) (M.contents m.new) }
    ensures falls { Falls (Some p.0) (M.run m.old) (M.run m.new) }
    ensures halted { (M.run m.old).stopped ≡ true → 0 < length from.now → IsErr result }
    ensures ends { StepEnds (M.run m.old) (M.run m.new) (IsErr result) }
{
    let mut window = Window::open(m, p);
    let stored = window.put_run(w, from);
    window.close();
    stored
}
