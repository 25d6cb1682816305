//! Block 0 of a dump, which tells whether the blocks behind it count.

ghost use Rattle.std.specs.Prelude.{◌≡◌, ◌<◌, ◌+◌, false, OnOk, IsOk, IsErrOf, length, slice_index};
ghost use Rattle.rio_base.specs.Disks.{block_at};
ghost use Rattle.dump_area.specs.DumpSteps.{DumpGoes};
ghost use Rattle.dump_area.specs.Held.{HasZerosBehind, IsSameDisk, IsSettled, is_open, shut_steps};
ghost use Rattle.dump_area.specs.Phases.{KeepsHeld, OnlyFront};

use crate::dump_blocks::DumpBlocks;
use rio_base::{Block, DiskFail};

/// The first word of an open block 0: the text `RIODUMP1`, its first byte lowest.
pub(crate) const DUMP_MAGIC: u64 = 0x3150_4d55_444f_4952;

/// Makes a block of a room of 512 words: `first` and 0s behind it.
fn fill_front(first: u64, room: &mut Vec<u64>)
    requires { length room.old.items ≡ 512 }
    ensures room { length room.new.items ≡ 512 }
    ensures first { slice_index room.new.items 0 ≡ first }
    ensures zeros { HasZerosBehind room.new.items }
{
    room.fill(0);
    room[0] = first;
}

/// Writes block 0, with `first` and 0s behind it, and syncs it. Nothing is pending before.
pub(crate) fn put_front<D: DumpBlocks>(
    first: u64,
    d: &mut D,
    room: &mut Vec<u64>,
) -> Result<(), DiskFail>
    requires room { length room.old.items ≡ 512 }
    requires block { 0 < length (D.contents d.old).blocks }
    requires settled { IsSettled (D.contents d.old) }
    ensures room { length room.new.items ≡ 512 }
    ensures settled { OnOk result (IsSettled (D.contents d.new)) }
    ensures first { OnOk result (slice_index (block_at (D.contents d.new).blocks 0) 0 ≡ first) }
    ensures zeros { OnOk result (HasZerosBehind (block_at (D.contents d.new).blocks 0)) }
    ensures others { OnlyFront (D.contents d.old) (D.contents d.new) }
    ensures goes { DumpGoes 2 2 (IsOk result) (IsErrOf result DiskFail.Fault) (IsErrOf result DiskFail.Stopped) (D.run d.old) (D.run d.new) (D.contents d.old).faults (D.contents d.new).faults }
{
    fill_front(first, room);
    d.write(Block(0), room)?;
    d.sync()
}

/// Shuts block 0, where it is open. Nothing is pending before.
pub(crate) fn shut<D: DumpBlocks>(d: &mut D, room: &mut Vec<u64>) -> Result<(), DiskFail>
    requires room { length room.old.items ≡ 512 }
    requires block { 0 < length (D.contents d.old).blocks }
    requires settled { IsSettled (D.contents d.old) }
    ensures room { length room.new.items ≡ 512 }
    ensures settled { OnOk result (IsSettled (D.contents d.new)) }
    ensures shut { OnOk result (is_open (D.contents d.new).blocks ≡ false) }
    ensures disk { IsSameDisk (D.contents d.old) (D.contents d.new) }
    ensures held { KeepsHeld (D.contents d.old).blocks (D.contents d.new) }
    ensures goes { DumpGoes (shut_steps (D.contents d.old).blocks) (shut_steps (D.contents d.old).blocks + 1) (IsOk result) (IsErrOf result DiskFail.Fault) (IsErrOf result DiskFail.Stopped) (D.run d.old) (D.run d.new) (D.contents d.old).faults (D.contents d.new).faults }
{
    d.read(Block(0), room)?;
    if room[0] != DUMP_MAGIC {
        return Ok(());
    }
    put_front(0, d, room)
}
