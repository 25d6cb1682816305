//! A caller of six calls of any machine, which proves its claim at each exit from the machine's contract alone.

ghost use Rattle.std.specs.Prelude.{◌≡◌, ◌<◌, ◌+◌, ◌*◌, ◌⊎◌, false, None, OnOk, IsErrOf, length, replicate, slice_set};
ghost use Rattle.rio_base.specs.Disks.{block_at};
ghost use Rattle.rio_base.specs.Machine.{FaultCause, Lasts, StepEnds};
ghost use Rattle.rio_base.specs.Memory.{page_at};

use rio_base::{Block, DiskFail, Machine, Page, WordAt};

/// Stores a word at the front of a page, brings the page to a block, and reads the block back.
pub fn save<M: Machine>(
    m: &mut M,
    p: Page,
    v: u64,
    b: Block,
    into: &mut Vec<u64>,
) -> Result<(), DiskFail>
    requires closed { (M.contents m.old).open_page ≡ None }
    requires page { 512 * p.0 < length (M.contents m.old).words }
    requires block { b.0 < length (M.contents m.old).disk }
    requires room { length into.old.items ≡ 512 }
    ensures ok { OnOk result ((M.contents m.new).words ≡ slice_set (M.contents m.old).words (512 * p.0) v) }
    ensures read { OnOk result (into.new.items ≡ page_at (M.contents m.new).words p.0) }
    ensures settled { OnOk result ((M.contents m.new).pending ≡ replicate (length (M.contents m.new).disk) false) }
    ensures words { ((M.contents m.new).words ≡ (M.contents m.old).words) ⊎ ((M.contents m.new).words ≡ slice_set (M.contents m.old).words (512 * p.0) v) }
    ensures closed { (M.contents m.new).open_page ≡ None }
    ensures room { length into.new.items ≡ 512 }
    ensures lasts { Lasts (M.contents m.old) (M.contents m.new) }
    ensures fault { FaultCause (M.contents m.old) (M.contents m.new) (IsErrOf result DiskFail.Fault) }
    ensures ends { StepEnds (M.run m.old) (M.run m.new) (IsErrOf result DiskFail.Stopped) }
{
    m.open_page(p);
    let stored = m.store(WordAt(512 * p.0), v);
    m.close_page();
    if stored.is_err() {
        return Err(DiskFail::Stopped);
    }
    m.write_block(b, p)?;
    m.sync()?;
    m.read_block(b, into)?;
    Ok(())
}
