//! What a command gets its machine from.

ghost use Rattle.std.specs.Prelude.{◌≡◌, ◌<◌, ◌+◌, ◌*◌, ◌/◌, ◌%◌, ◌^◌, ℕ, Bool, true, false, Option, None, Some, IfOk, IfErr, OnOk, OnErr, length};
ghost use Rattle.rio_base.specs.Disks.{is_pending};
ghost use Rattle.machine_bench.specs.Benches.{Began, HandsBack, Leaving, left_by, made_contents, made_run};

use rio_base::{DiskBlocks, Machine};
use std::alloc::{AllocError, Global};

/// What makes one machine over a disk, and takes it back. It may tell how that machine began and how
/// it was left.
pub trait Bench<D: DiskBlocks> {
    /// The machines that it makes.
    type M: Machine;

    /// How many pages the machine has that it made, or `None` before it made one.
    ghost pages: { Self → Option ℕ };

    /// That machine was taken back.
    ghost parted: { Self → Bool };

    /// It tells what its machine began with.
    ghost tells_start: { Self → Bool };

    /// It tells how its machine was left.
    ghost tells: { Self → Bool };

    /// What the machine began with, where that is told and one was made.
    ghost began: { Self → Option Began };

    /// How it was left, where that is told and it was taken back.
    ghost left: { Self → Option Leaving };

    /// Makes the machine that has these words and this disk. Its last `scratch` pages are not protected, and no page is open.
    /// With `stop_after` it stops where a step is asked for beyond that many. The error means that there was no room for it:
    /// the disk is handed back, and a machine may still be made.
    fn make(
        &mut self,
        alloc: Global,
        words: &Vec<u64>,
        disk: D,
        scratch: u32,
        stop_after: Option<u64>,
    ) -> Result<Self::M, (D, AllocError)>
        requires none { pages self.old ≡ None }
        requires whole { length words.now.items % 512 ≡ 0 }
        requires room { 512 * scratch < length words.now.items }
        requires small { length words.now.items < 2 ^ 32 }
        requires settled { (b : ℕ) → is_pending (D.contents disk).pending b ≡ false }
        ensures contents { IfOk result (λ m. Self.M.contents m ≡ made_contents words.now.items scratch (D.contents disk)) }
        ensures run { IfOk result (λ m. Self.M.run m ≡ made_run words.now.items scratch stop_after) }
        ensures pages { OnOk result (pages self.new ≡ Some (length words.now.items / 512)) }
        ensures unparted { OnOk result (parted self.new ≡ false) }
        ensures began { tells_start self.old ≡ true → OnOk result (began self.new ≡ Some (record { words = words.now.items; blocks = (D.contents disk).blocks; scratch = scratch; stop = stop_after })) }
        ensures tells_start { tells_start self.new ≡ tells_start self.old }
        ensures tells { tells self.new ≡ tells self.old }
        ensures back { IfErr result (λ back. back.0 ≡ disk) }
        ensures same { OnErr result (self.new ≡ self.old) };

    /// Takes the machine back, and hands out its disk. It takes no memory.
    fn part(&mut self, machine: Self::M) -> D
        requires made { (n : ℕ) × (pages self.old ≡ Some n) × (512 * n ≡ length (Self.M.contents machine).words + length (Self.M.run machine).scratch) }
        requires once { parted self.old ≡ false }
        ensures disk { HandsBack (Self.M.contents machine) (D.contents result) }
        ensures pages { pages self.new ≡ pages self.old }
        ensures parted { parted self.new ≡ true }
        ensures began { began self.new ≡ began self.old }
        ensures left { tells self.old ≡ true → left self.new ≡ Some (left_by (Self.M.contents machine) (Self.M.run machine)) }
        ensures tells_start { tells_start self.new ≡ tells_start self.old }
        ensures tells { tells self.new ≡ tells self.old };
}
