//! Copies of pages.

ghost use Rattle.std.specs.Prelude.{◌≡◌, ◌≢◌, ◌<◌, ◌≤◌, ◌*◌, ℕ, None, OnOk, IsErr, length};
ghost use Rattle.rio_base.specs.Machine.{Copied, StepEnds};
ghost use Rattle.shadow_pages.specs.Steps.{StoresWords};

use rio_base::{Machine, Page, Stopped};

/// Copies a page of protected memory to another: 512 steps. No page is open before, and none is open after it, at every
/// exit. `Stopped` leaves a front copied.
pub(crate) fn copy_closed_page<M: Machine>(m: &mut M, from: Page, to: Page) -> Result<(), Stopped>
    requires closed { (M.contents m.old).open_page ≡ None }
    requires from { 512 * from.0 < length (M.contents m.old).words }
    requires to { 512 * to.0 < length (M.contents m.old).words }
    requires two { from.0 ≢ to.0 }
    ensures copied { OnOk result (Copied from.0 to.0 512 (M.contents m.old).words (M.contents m.new).words) }
    ensures front { (n : ℕ) × (n ≤ 512) × Copied from.0 to.0 n (M.contents m.old).words (M.contents m.new).words }
    ensures stores { StoresWords (M.contents m.old) (M.contents m.new) }
    ensures ends { StepEnds (M.run m.old) (M.run m.new) (IsErr result) }
{
    m.open_page(to);
    let copied = m.copy_page(from, to);
    m.close_page();
    copied
}
