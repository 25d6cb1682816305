//! A dump is made.

ghost use Rattle.std.specs.Prelude.{◌≡◌, ◌<◌, ◌*◌, ◌/◌, ◌+◌, OnOk, IsOk, IsErrOf, length};
ghost use Rattle.rio_base.specs.Disks.{block_at};
ghost use Rattle.dump_area.specs.DumpSteps.{DumpGoes};
ghost use Rattle.dump_area.specs.Held.{HasZerosBehind, IsDumpable, IsHeld, IsSameDisk, IsSettled, NeverMixed, dump_steps};
ghost use Rattle.dump_area.specs.Phases.{HasWords, HoldsNone, IsShut};

use crate::dump_blocks::DumpBlocks;
use crate::failures::DumpFail;
use crate::fronts::{DUMP_MAGIC, put_front, shut};
use rio_base::{BLOCK_WORDS, Block, DiskFail};

/// Makes the blocks hold these words, which are an image's, in place of what they held. `room` has 512 words, and nothing
/// is pending. Block 0 is shut where it is open; then the pages are written and synced; then block 0 is opened. So after a
/// failure the blocks hold nothing, what they held, or the words, whatever becomes of the pending ones.
///
/// `Fault` comes only where the disk's count of faults rose, `Stopped` only where no further step is made. It takes no
/// memory.
pub fn dump<D: DumpBlocks>(words: &[u64], d: &mut D, room: &mut Vec<u64>) -> Result<(), DumpFail>
    requires image { IsDumpable words.now }
    requires room { length room.old.items ≡ 512 }
    requires blocks { length words.now < 512 * length (D.contents d.old).blocks }
    requires settled { IsSettled (D.contents d.old) }
    ensures room { length room.new.items ≡ 512 }
    ensures disk { IsSameDisk (D.contents d.old) (D.contents d.new) }
    ensures settled { OnOk result (IsSettled (D.contents d.new)) }
    ensures held { OnOk result (IsHeld (D.contents d.new).blocks words.now) }
    ensures zeros { OnOk result (HasZerosBehind (block_at (D.contents d.new).blocks 0)) }
    ensures never_mixed { NeverMixed words.now (D.contents d.old).blocks (D.contents d.new) }
    ensures goes { DumpGoes (dump_steps words.now (D.contents d.old).blocks) (dump_steps words.now (D.contents d.old).blocks) (IsOk result) (IsErrOf result DumpFail.Fault) (IsErrOf result DumpFail.Stopped) (D.run d.old) (D.run d.new) (D.contents d.old).faults (D.contents d.new).faults }
{
    shut(d, room)?;
    put_pages(words, d)?;
    put_front(DUMP_MAGIC, d, room)?;
    Ok(())
}

/// Writes the pages of an image to the blocks behind block 0, which is shut, and syncs them.
fn put_pages<D: DumpBlocks>(words: &[u64], d: &mut D) -> Result<(), DiskFail>
    requires image { IsDumpable words.now }
    requires blocks { length words.now < 512 * length (D.contents d.old).blocks }
    requires shut { IsShut (D.contents d.old) }
    ensures disk { IsSameDisk (D.contents d.old) (D.contents d.new) }
    ensures settled { OnOk result (IsSettled (D.contents d.new)) }
    ensures words { OnOk result (HasWords (length words.now) words.now (D.contents d.new).blocks) }
    ensures none { HoldsNone (D.contents d.new) }
    ensures goes { DumpGoes (length words.now / 512 + 1) (length words.now / 512 + 1) (IsOk result) (IsErrOf result DiskFail.Fault) (IsErrOf result DiskFail.Stopped) (D.run d.old) (D.run d.new) (D.contents d.old).faults (D.contents d.new).faults }
{
    write_pages(words, d)?;
    d.sync()
}

/// Writes the pages of an image to the blocks behind block 0, which is shut.
fn write_pages<D: DumpBlocks>(words: &[u64], d: &mut D) -> Result<(), DiskFail>
    requires image { IsDumpable words.now }
    requires blocks { length words.now < 512 * length (D.contents d.old).blocks }
    requires shut { IsShut (D.contents d.old) }
    ensures disk { IsSameDisk (D.contents d.old) (D.contents d.new) }
    ensures shut { IsShut (D.contents d.new) }
    ensures words { OnOk result (HasWords (length words.now) words.now (D.contents d.new).blocks) }
    ensures goes { DumpGoes (length words.now / 512) (length words.now / 512) (IsOk result) (IsErrOf result DiskFail.Fault) (IsErrOf result DiskFail.Stopped) (D.run d.old) (D.run d.new) (D.contents d.old).faults (D.contents d.new).faults }
{
    for p in 0..words.len() / BLOCK_WORDS {
        let at = BLOCK_WORDS * p;
        d.write(Block(1 + p as u32), &words[at..at + BLOCK_WORDS])?;
    }
    Ok(())
}
