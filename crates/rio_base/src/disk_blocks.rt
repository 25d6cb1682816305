//! The blocks of a disk.

ghost use Rattle.std.specs.Prelude.{◌≡◌, ◌<◌, ◌≤◌, ◌^◌, ℕ, Some, OnOk, OnErr, length};
ghost use Rattle.rio_base.specs.Disks.{DiskContents, HasFaultCause, WritesDisk, block_at, with_synced, with_torn};

use crate::failures::Failed;
use crate::places::Block;

/// Blocks of 512 words, fewer than 4,294,967,296. A block that is written reads as new at once. It is pending until a
/// [`DiskBlocks::sync`] succeeds: what it holds after a stop isn't known before that. So is a block whose write a stop
/// cut off ([`DiskBlocks::tear`]). A call that answers `Failed` counted a fault.
pub trait DiskBlocks {
    /// The blocks, which of them are pending, the counts, and what is kept beside the blocks.
    ghost contents: { Self → DiskContents };

    /// How many blocks there are.
    fn count(&self) -> u32
        ensures { result ≡ length (contents self.now).blocks };

    /// Reads a block into `into`, which has 512 words before and after, whatever the answer.
    fn read(&mut self, b: Block, into: &mut Vec<u64>) -> Result<(), Failed>
        requires block { b.0 < length (contents self.old).blocks }
        requires room { length into.old.items ≡ 512 }
        ensures words { OnOk result (into.new.items ≡ block_at (contents self.old).blocks b.0) }
        ensures room { length into.new.items ≡ 512 }
        ensures same { contents self.new ≡ record (contents self.old) { faults = (contents self.new).faults } }
        ensures cause { HasFaultCause result (contents self.old).faults (contents self.new).faults };

    /// Writes a block with 512 words. It is pending afterwards; after `Failed` it may read as anything.
    fn write(&mut self, b: Block, from: &[u64]) -> Result<(), Failed>
        requires block { b.0 < length (contents self.old).blocks }
        requires words { length from.now ≡ 512 }
        ensures writes { WritesDisk result b.0 from.now (contents self.old) (contents self.new) }
        ensures cause { HasFaultCause result (contents self.old).faults (contents self.new).faults };

    /// Says that a stop cut a write of a block off: the block is pending, and reads as before. It is no call to the
    /// device, and is not counted.
    fn tear(&mut self, b: Block)
        requires block { b.0 < length (contents self.old).blocks }
        ensures { contents self.new ≡ with_torn (contents self.old) b.0 };

    /// Brings all that was written to the device: nothing is pending after it. `Failed` leaves all as it was.
    fn sync(&mut self) -> Result<(), Failed>
        ensures ok { OnOk result (contents self.new ≡ with_synced (contents self.old) (contents self.new).faults) }
        ensures err { OnErr result (contents self.new ≡ record (contents self.old) { faults = (contents self.new).faults }) }
        ensures cause { HasFaultCause result (contents self.old).faults (contents self.new).faults };

    ghost marks: { (d : Self) → length (contents d).pending ≡ length (contents d).blocks };

    ghost whole: { (d : Self) (b : ℕ) → b < length (contents d).blocks → length (block_at (contents d).blocks b) ≡ 512 };

    ghost limited: { (d : Self) (most : ℕ) → (contents d).faults.limit ≡ Some most → (contents d).faults.count ≤ most };

    ghost few: { (d : Self) → length (contents d).blocks < 2 ^ 32 };
}
